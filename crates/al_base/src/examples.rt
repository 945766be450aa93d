//! Worked lists of faults, computed by the definitions.
ghost use Rattle.std.specs.Prelude.{◌≡◌, [], ◌∷◌, codes};
ghost use Rattle.al_base.specs.FaultLists.{fault_list};
ghost use Rattle.al_base.specs.Rows.Words.{AreListed, IsBefore, at, key_at};
ghost use Rattle.al_base.specs.declared.codes.Code.TheVariants.{Call, Expression, Key, Rule, Yaml};
ghost use Rattle.al_base.specs.declared.codes.YamlCode.TheVariants.{UnclosedQuote, WrongKey};
ghost use Rattle.al_base.specs.declared.codes.KeyCode.TheVariants.{Unexpected, Missing, Repeated};
ghost use Rattle.al_base.specs.declared.codes.RuleCode.TheVariants.{MissingOutputValue};
ghost use Rattle.al_base.specs.declared.codes.RuleCode.TheVariants.{UnknownEvent};
ghost use Rattle.al_base.specs.declared.codes.CallCode.TheVariants.{NotCallable, UndefinedInput};
ghost use Rattle.al_base.specs.declared.codes.Caller.TheVariants.{Job, Step};
ghost use Rattle.al_base.specs.declared.codes.ExpressionCode.TheVariants.{BadCharacter};
ghost use Rattle.al_base.specs.declared.codes.ExpressionCode.TheVariants.{UnclosedChunk};

/// The lists of some small sets of faults, as the definitions give them. Does nothing at run time.
pub fn rows()
    // one of three is given twice
    ensures repeated { let on = at 9 12 (Key Repeated) (codes "on" ∷ []) in
        let oh = at 0 3 (Key Unexpected) (codes "oh" ∷ []) in
        fault_list (on ∷ oh ∷ on ∷ []) ≡ oh ∷ on ∷ [] }
    // the start before the end
    ensures starts { fault_list (key_at 5 6 ∷ key_at 4 9 ∷ key_at 4 8 ∷ [])
        ≡ key_at 4 8 ∷ key_at 4 9 ∷ key_at 5 6 ∷ [] }
    // by code: kind by kind, and in a kind by number
    ensures kinds { AreListed
        (Expression BadCharacter ∷ Rule UnknownEvent ∷ Key Unexpected ∷ Yaml WrongKey ∷ [])
        (Yaml WrongKey ∷ Key Unexpected ∷ Rule UnknownEvent ∷ Expression BadCharacter ∷ []) }
    ensures codes_of_yaml { IsBefore (Yaml UnclosedQuote) (Yaml WrongKey) }
    ensures codes_of_rules { IsBefore (Rule UnknownEvent) (Rule MissingOutputValue) }
    ensures codes_of_expressions { IsBefore (Expression BadCharacter) (Expression UnclosedChunk) }
    ensures calls_last { IsBefore (Expression UnclosedChunk) (Call UndefinedInput Job) }
    ensures codes_of_calls { AreListed
        (Call NotCallable Job ∷ Call UndefinedInput Step ∷ Call UndefinedInput Job ∷ [])
        (Call UndefinedInput Job ∷ Call UndefinedInput Step ∷ Call NotCallable Job ∷ []) }
    // the same code at the same place: by the arguments
    ensures arguments { let on = at 0 0 (Key Missing) (codes "on" ∷ []) in
        let jobs = at 0 0 (Key Missing) (codes "jobs" ∷ []) in
        fault_list (on ∷ jobs ∷ []) ≡ jobs ∷ on ∷ [] }
{}
