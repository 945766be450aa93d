//! Worked filter patterns and schedules, computed by the definitions.
ghost use Rattle.al_rules_formats.specs.Rows.Patterns.{right_names, right_paths, wrong_names};
ghost use Rattle.al_rules_formats.specs.Rows.Patterns.{wrong_paths};
ghost use Rattle.al_rules_formats.specs.Patterns.{is_right};
ghost use Rattle.al_rules_formats.specs.Rows.Schedules.{every, frequent_schedules, right_schedules};
ghost use Rattle.al_rules_formats.specs.Rows.Schedules.{runs_seldom, runs_too_often};
ghost use Rattle.al_rules_formats.specs.Rows.Schedules.{wrong_schedules};
ghost use Rattle.al_base.specs.Ascii.{ascii};
ghost use Rattle.al_rules_formats.specs.Schedules.{minute_set, schedule_of, written_number};
ghost use Rattle.al_rules_formats.specs.Texts.{pieces};
ghost use Rattle.al_rules_formats.specs.declared.patterns.Filter.TheVariants.{Names, Paths};
ghost use Rattle.std.specs.List.{list_all, list_any};
ghost use Rattle.std.specs.Prelude.{◌≡◌, [], ◌∷◌, codes, false, is_some, None, Some, true};

/// Texts that are filter patterns, of branches and tags or of paths, and texts that aren't. Does
/// nothing at run time.
pub fn pattern_rows()
    ensures right_names { list_all (is_right Names) right_names ≡ true }
    ensures wrong_names { list_any (is_right Names) wrong_names ≡ false }
    ensures right_paths { list_all (is_right Paths) right_paths ≡ true }
    ensures wrong_paths { list_any (is_right Paths) wrong_paths ≡ false }
{}

/// Texts that are schedules, and texts that aren't, or that run too often. Does nothing at run
/// time.
pub fn schedule_rows()
    ensures right { list_all runs_seldom right_schedules ≡ true }
    ensures wrong { list_any (λ text. is_some (schedule_of text)) wrong_schedules ≡ false }
    ensures frequent { list_all runs_too_often frequent_schedules ≡ true }
{}

/// Numbers, pieces and minutes of some texts and items. Does nothing at run time.
pub fn part_rows()
    ensures zeros { written_number (codes "007") ≡ Some 7 }
    ensures great { written_number (codes "4294967296") ≡ Some 4294967296 }
    ensures no_digit { written_number [] ≡ None }
    ensures no_number { written_number (codes "1x2") ≡ None }
    ensures pieces { pieces (ascii ",") (codes "1,,25,") ≡ codes "1" ∷ [] ∷ codes "25" ∷ [] ∷ [] }
    ensures no_separator { pieces (ascii ",") [] ≡ [] ∷ [] }
    ensures minutes { minute_set (every 3 50 20 ∷ every 23 23 1 ∷ []) ≡ 3 ∷ 23 ∷ 43 ∷ [] }
    ensures last_minute { minute_set (every 57 59 2 ∷ []) ≡ 57 ∷ 59 ∷ [] }
{}
