//! Worked rows of what a `uses` names.
ghost use Rattle.al_lint.specs.declared.lint.Target.TheVariants.{FirstOf, Only};
ghost use Rattle.al_base.specs.declared.codes.Caller.TheVariants.{Job, Step};
ghost use Rattle.al_check_interfaces.specs.Forms.{form_by};
ghost use Rattle.al_check_interfaces.specs.declared.forms.Form.TheVariants.{Local, Other, Wrong};
ghost use Rattle.std.specs.Prelude.{◌≡◌, codes};

/// What some texts of `uses` name, by the definition. Does nothing at run time.
pub fn rows()
    ensures folder { form_by Step (codes "./a")
        ≡ Local (FirstOf (codes "a/action.yml") (codes "a/action.yaml")) }
    ensures slash_after { form_by Step (codes "./a/")
        ≡ Local (FirstOf (codes "a/action.yml") (codes "a/action.yaml")) }
    ensures root { form_by Step (codes "./")
        ≡ Local (FirstOf (codes "action.yml") (codes "action.yaml")) }
    ensures root_with_a_slash { form_by Step (codes ".//")
        ≡ Local (FirstOf (codes "action.yml") (codes "action.yaml")) }
    ensures two_slashes { form_by Step (codes "./a//") ≡ Other }
    ensures above_the_root { form_by Step (codes "./../a") ≡ Other }
    ensures no_image { form_by Step (codes "docker://") ≡ Wrong }
    ensures image { form_by Step (codes "docker://x") ≡ Other }
    ensures chunk_in_an_image { form_by Step (codes "docker://${{ x }}") ≡ Wrong }
    ensures chunk_in_a_folder { form_by Step (codes "./${{ x }}") ≡ Wrong }
    ensures remote { form_by Step (codes "a/b@v") ≡ Other }
    ensures remote_below { form_by Step (codes "a/b/c@v/w") ≡ Other }
    ensures cut_at_a_later_at { form_by Step (codes "a/@b/c@d") ≡ Other }
    ensures ref_ends_in_a_slash { form_by Step (codes "a/b@v/") ≡ Other }
    ensures ref_is_an_at { form_by Step (codes "a/b@@") ≡ Other }
    ensures nothing_after_the_at { form_by Step (codes "a/b@") ≡ Wrong }
    ensures empty_part { form_by Step (codes "a/b/@v") ≡ Wrong }
    ensures no_repository { form_by Step (codes "a@v") ≡ Wrong }
    ensures no_ref { form_by Step (codes "a/b") ≡ Wrong }
    ensures workflow { form_by Job (codes "./.github/workflows/d.yml")
        ≡ Local (Only (codes ".github/workflows/d.yml")) }
    ensures ending_alone { form_by Job (codes "./.github/workflows/.yml") ≡ Wrong }
    ensures workflow_below { form_by Job (codes "./.github/workflows/a/d.yml") ≡ Wrong }
    ensures other_folder { form_by Job (codes "./d.yml") ≡ Wrong }
    ensures control_byte { form_by Job (codes "./.github/workflows/\td.yml") ≡ Wrong }
    ensures remote_workflow { form_by Job (codes "o/r/.github/workflows/f.yaml@v1") ≡ Other }
    ensures remote_file { form_by Job (codes "o/r/f.yml@v1") ≡ Wrong }
    ensures image_for_a_job { form_by Job (codes "docker://x") ≡ Wrong }
{}
