//! Worked examples of the definitions.

ghost use Rattle.al_rules.specs.Rows.Files as file;
ghost use Rattle.al_rules.specs.Rows.Files.{at};
ghost use Rattle.al_rules.specs.Rules.{action_faults, workflow_faults};
ghost use Rattle.al_rules_settings.specs.Words.{rule_fault};
ghost use Rattle.al_base.specs.declared.codes.RuleCode.TheVariants.{AlwaysTrue, DeprecatedCommand};
ghost use Rattle.al_base.specs.declared.codes.RuleCode.TheVariants.{MissingOutputValue};
ghost use Rattle.al_base.specs.declared.codes.RuleCode.TheVariants.{MissingShell};
ghost use Rattle.al_base.specs.declared.codes.RuleCode.TheVariants.{NeedsCycle};
ghost use Rattle.al_base.specs.declared.codes.RuleCode.TheVariants.{PasswordNotExpression};
ghost use Rattle.al_base.specs.declared.codes.RuleCode.TheVariants.{RepeatedId, ScheduleTooOften};
ghost use Rattle.al_base.specs.declared.codes.RuleCode.TheVariants.{UndefinedJob, UnknownActivity};
ghost use Rattle.al_base.specs.declared.codes.RuleCode.TheVariants.{UnknownEvent, UnknownInputType};
ghost use Rattle.al_base.specs.declared.codes.RuleCode.TheVariants.{UnknownMatrixRow};
ghost use Rattle.al_base.specs.declared.codes.RuleCode.TheVariants.{UnknownPermission};
ghost use Rattle.al_base.specs.declared.codes.RuleCode.TheVariants.{UnknownShell, UnknownUsing};
ghost use Rattle.al_base.specs.declared.codes.RuleCode.TheVariants.{WrongId, WrongMatrix};
ghost use Rattle.al_base.specs.declared.codes.RuleCode.TheVariants.{WrongPattern, WrongPermission};
ghost use Rattle.al_base.specs.declared.codes.RuleCode.TheVariants.{WrongSchedule};
ghost use Rattle.al_base.specs.declared.codes.RuleCode.TheVariants.{WrongVariable};
ghost use Rattle.std.specs.Prelude.{◌≡◌, [], ◌∷◌, codes};

/// The faults of some small files, as the definitions give them. Does nothing at run time.
pub fn rows()
    ensures unknown_event { workflow_faults file.unknown_event
        ≡ rule_fault UnknownEvent (at 4 7) (codes "pus" ∷ []) ∷ [] }
    ensures wrong_activity { workflow_faults file.wrong_activity
        ≡ rule_fault UnknownActivity (at 34 39) (codes "close" ∷ []) ∷ [] }
    ensures wrong_patterns { workflow_faults file.wrong_patterns
        ≡ rule_fault WrongPattern (at 27 32) (codes "a[b" ∷ []) ∷
        rule_fault WrongPattern (at 51 57) (codes "!./x" ∷ []) ∷ [] }
    ensures schedules { workflow_faults file.schedules ≡
        rule_fault WrongSchedule (at 28 37) (codes "0 0 * * 7" ∷ []) ∷
        rule_fault ScheduleTooOften (at 50 63) (codes "*/4 * * * *" ∷ []) ∷ [] }
    ensures input_types { workflow_faults file.input_types ≡
        rule_fault UnknownInputType (at 64 68) (codes "text" ∷ []) ∷ [] }
    ensures ids { workflow_faults file.ids ≡
        rule_fault WrongId (at 17 20) (codes "1st" ∷ []) ∷
        rule_fault RepeatedId (at 59 60) (codes "A" ∷ []) ∷ [] }
    ensures needs { workflow_faults file.needs ≡
        rule_fault NeedsCycle (at 31 32) (codes "a" ∷ codes "B" ∷ []) ∷
        rule_fault NeedsCycle (at 65 66) (codes "b" ∷ codes "a" ∷ []) ∷
        rule_fault UndefinedJob (at 68 69) (codes "x" ∷ []) ∷ [] }
    ensures matrix { workflow_faults file.matrix ≡
        rule_fault WrongMatrix (at 75 80) (codes "os" ∷ []) ∷
        rule_fault UnknownMatrixRow (at 125 127) (codes "np" ∷ []) ∷ [] }
    ensures settings { workflow_faults file.settings ≡
        rule_fault UnknownPermission (at 24 31) (codes "content" ∷ []) ∷
        rule_fault WrongPermission (at 48 51) (codes "all" ∷ []) ∷
        rule_fault WrongVariable (at 59 62) (codes "A B" ∷ []) ∷
        rule_fault UnknownShell (at 94 97) (codes "zsh" ∷ []) ∷ [] }
    ensures password { workflow_faults file.password
        ≡ rule_fault PasswordNotExpression (at 87 105) [] ∷ [] }
    ensures step { workflow_faults file.step ≡
        rule_fault AlwaysTrue (at 58 71) [] ∷
        rule_fault DeprecatedCommand (at 90 108) (codes "set-output" ∷ []) ∷ [] }
    ensures using_is_unknown { action_faults file.using_is_unknown
        ≡ rule_fault UnknownUsing (at 23 29) (codes "node18" ∷ []) ∷ [] }
    ensures composite { action_faults file.composite ≡
        rule_fault MissingShell (at 81 84) [] ∷
        rule_fault MissingOutputValue (at 19 20) (codes "o" ∷ []) ∷ [] }
{}
