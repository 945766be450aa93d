//! Worked rows of shapes.

ghost use Rattle.al_base.specs.declared.codes.KeyCode.TheVariants.{EmptyFile, Missing, NotBeside};
ghost use Rattle.al_base.specs.declared.codes.KeyCode.TheVariants.{Repeated, Unexpected, WrongKind};
ghost use Rattle.al_base.specs.declared.codes.KeyCode.TheVariants.{WrongType};
ghost use Rattle.al_tree.specs.Faults.{key_fault, root_faults};
ghost use Rattle.al_tree.specs.Rows.Files as file;
ghost use Rattle.al_tree.specs.Rows.Files.{at};
ghost use Rattle.al_tree.specs.declared.table.Shape.TheVariants.{Action, Workflow};
ghost use Rattle.std.specs.Prelude.{◌≡◌, [], ◌∷◌, codes};

/// The faults of some small files, as the definitions give them. Does nothing at run time.
pub fn rows()
    ensures step_without_script { root_faults Workflow file.step_without_script
        ≡ key_fault Missing (at 24 24) (codes "runs-on" ∷ [])
        ∷ key_fault Missing (at 39 39) (codes "run" ∷ [])
        ∷ key_fault Unexpected (at 39 42) (codes "nam" ∷ []) ∷ [] }
    ensures wrong_number { root_faults Workflow file.wrong_number
        ≡ key_fault WrongType (at 68 72) (codes "timeout-minutes" ∷ []) ∷ [] }
    ensures steps_beside_uses { root_faults Workflow file.steps_beside_uses
        ≡ key_fault NotBeside (at 65 70) (codes "steps" ∷ codes "uses" ∷ []) ∷ [] }
    ensures composite_without_steps { root_faults Action file.composite_without_steps
        ≡ key_fault Missing (at 0 0) (codes "description" ∷ [])
        ∷ key_fault Missing (at 16 16) (codes "steps" ∷ []) ∷ [] }
    ensures empty_file { root_faults Workflow file.empty_file ≡ key_fault EmptyFile (at 0 0) []
        ∷ [] }
    ensures root_is_a_list { root_faults Workflow file.root_is_a_list
        ≡ key_fault WrongKind (at 0 2) (codes "file" ∷ []) ∷ [] }
    ensures root_is_null { root_faults Workflow file.root_is_null
        ≡ key_fault WrongKind (at 0 1) (codes "file" ∷ []) ∷ [] }
    ensures no_event { root_faults Workflow file.no_event
        ≡ key_fault WrongType (at 3 3) (codes "on" ∷ []) ∷ [] }
    ensures no_jobs { root_faults Workflow file.no_jobs
        ≡ key_fault WrongKind (at 14 14) (codes "jobs" ∷ []) ∷ [] }
    ensures job_is_null { root_faults Workflow file.job_is_null
        ≡ key_fault WrongKind (at 19 19) (codes "a" ∷ []) ∷ [] }
    ensures repeated_key { root_faults Workflow file.repeated_key
        ≡ key_fault Unexpected (at 0 1) (codes "x" ∷ [])
        ∷ key_fault Repeated (at 5 6) (codes "x" ∷ []) ∷ [] }
    ensures unknown_beside_uses { root_faults Workflow file.unknown_beside_uses
        ≡ key_fault Unexpected (at 65 68) (codes "foo" ∷ [])
        ∷ key_fault NotBeside (at 65 68) (codes "foo" ∷ codes "uses" ∷ []) ∷ [] }
    ensures filter_and_its_opposite { root_faults Workflow file.filter_and_its_opposite
        ≡ key_fault NotBeside (at 35 39) (codes "tags" ∷ codes "tags-ignore" ∷ []) ∷ [] }
    ensures run_and_uses { root_faults Workflow file.run_and_uses
        ≡ key_fault NotBeside (at 74 77) (codes "run" ∷ codes "uses" ∷ []) ∷ [] }
    ensures using_is_unknown { root_faults Action file.using_is_unknown
        ≡ key_fault Repeated (at 64 69) (codes "using" ∷ []) ∷ [] }
    ensures using_is_missing { root_faults Action file.using_is_missing
        ≡ key_fault Missing (at 29 29) (codes "using" ∷ []) ∷ [] }
    ensures null_item { root_faults Workflow file.null_item
        ≡ key_fault WrongKind (at 22 23) (codes "schedule" ∷ []) ∷ [] }
    ensures event_is_unknown { root_faults Workflow file.event_is_unknown
        ≡ key_fault Repeated (at 27 30) (codes "foo" ∷ []) ∷ [] }
    ensures env_is_a_word { root_faults Workflow file.env_is_a_word
        ≡ key_fault WrongKind (at 14 15) (codes "env" ∷ []) ∷ [] }
    ensures call_without_type { root_faults Workflow file.call_without_type
        ≡ key_fault Missing (at 42 42) (codes "type" ∷ [])
        ∷ key_fault WrongType (at 53 57) (codes "required" ∷ [])
        ∷ key_fault Missing (at 81 81) (codes "value" ∷ []) ∷ [] }
    ensures env_is_null { root_faults Workflow file.env_is_null ≡ [] }
    ensures second_jobs { root_faults Workflow file.second_jobs
        ≡ key_fault Repeated (at 18 22) (codes "jobs" ∷ []) ∷ [] }
{}
