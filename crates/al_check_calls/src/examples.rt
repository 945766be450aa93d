//! Worked rows of calls.
ghost use Rattle.al_check_calls.specs.Rows.Folders as file;
ghost use Rattle.al_check_calls.specs.Rows.Folders.{faults_of, faults_with, found, shown_by};
ghost use Rattle.al_check_interfaces.specs.declared.interfaces.Interface.TheVariants.{Unreadable};
ghost use Rattle.al_tree.specs.Rows.Files.{at};
ghost use Rattle.al_base.specs.declared.codes.CallCode.TheVariants as code;
ghost use Rattle.al_base.specs.declared.codes.Caller.TheVariants as by;
ghost use Rattle.al_tree.specs.declared.files.FileKind.TheVariants.{Action, Workflow};
ghost use Rattle.al_types.specs.Types.{Number};
ghost use Rattle.std.specs.Prelude.{◌≡◌, [], ◌∷◌, codes, None, Some};

/// The faults of the calls of some small files, by the definitions. Does nothing at run time.
pub fn rows()
    ensures absent_action { faults_of file.step_calls_a (None ∷ []) ≡ [] }
    ensures unreadable_action { faults_of file.step_calls_a (Some Unreadable ∷ []) ≡ [] }
    ensures missing_input { faults_of file.step_calls_a (shown_by Action file.action_requiring_who)
        ≡ found code.MissingInput by.Step (at 72 75) (codes "who" ∷ codes "A" ∷ []) ∷ [] }
    ensures workflow_for_a_step { faults_of file.step_calls_a
        (shown_by Workflow file.takes_boolean_x)
        ≡ found code.NotCallable by.Step (at 72 75) (codes "./a" ∷ []) ∷ [] }
    ensures absent_workflow { faults_of file.job_calls_d (None ∷ [])
        ≡ found code.NoWorkflow by.Job (at 30 55) (codes "./.github/workflows/d.yml" ∷ []) ∷ [] }
    ensures not_callable { faults_of file.job_calls_d (shown_by Workflow file.not_callable)
        ≡ found code.NotCallable by.Job (at 30 55) (codes "./.github/workflows/d.yml" ∷ []) ∷ [] }
    ensures wrong_type { faults_with Number file.job_gives_x_and_y
        (shown_by Workflow file.takes_boolean_x)
        ≡ found code.WrongInput by.Job (at 75 76) (codes "x" ∷ codes "boolean" ∷ [])
        ∷ found code.UndefinedInput by.Job (at 83 84) (codes "y" ∷ file.e_yml ∷ []) ∷ [] }
    ensures any_type { faults_of file.job_gives_x_and_y (shown_by Workflow file.takes_boolean_x)
        ≡ found code.UndefinedInput by.Job (at 83 84) (codes "y" ∷ file.e_yml ∷ []) ∷ [] }
    ensures secrets { faults_of file.job_gives_key (shown_by Workflow file.requires_token)
        ≡ found code.UndefinedSecret by.Job (at 75 78) (codes "key" ∷ file.e_yml ∷ [])
        ∷ found code.MissingSecret by.Job (at 30 55) (codes "token" ∷ file.e_yml ∷ []) ∷ [] }
    ensures inherited { faults_of file.job_inherits (shown_by Workflow file.requires_token) ≡ [] }
{}
