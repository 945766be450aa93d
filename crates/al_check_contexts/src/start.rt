//! The types of contexts at the start of a file.
ghost use Rattle.std.specs.Prelude.{IfOk, OnOk};
ghost use Rattle.al_base.specs.Growth.{BeginsWith};
ghost use Rattle.al_check_contexts.specs.Contexts.{OutputNames, context_type_at};
ghost use Rattle.al_check_places.specs.Positions.{apart};
ghost use Rattle.al_check_places.specs.declared.positions.Seen.TheVariants.{Before as before};
ghost use Rattle.al_check_objects.specs.Numbers.{Means};
ghost use Rattle.al_check_contexts.specs.Table.{Shows, position};
ghost use Rattle.al_expr_types.specs.Tables.{objects_of};
ghost use Rattle.al_expr_names.specs.declared.names.Context.TheVariants as context;
ghost use Rattle.al_yaml_tree.specs.View.{view};

use crate::env::File;
use al_check_objects::{github_type, inputs_type, job_type, object_of, runner_type};
use al_expr_types::{Ty, Types};
use al_expr_typing::ContextTypes;
use std::alloc::AllocError;

/// The types of contexts at the start of a file, with that of `steps`. Fails with `AllocError` when
/// out of memory.
#[tactic(auto, using(al_base::proofs::Growing::growth))]
pub(crate) fn first_types<'a>(
    types: &mut Types<'a>,
    file: File<'a>,
    steps: Ty,
) -> Result<ContextTypes, AllocError>
    ensures types { IfOk result (λ ts. (known : OutputNames)
        → Means types.old steps
        (context_type_at (file.entry).kind known (view (file.entry).root.now)
        (position apart (before 0))
        context.Steps)
        → Shows types.new ts (context_type_at (file.entry).kind known (view (file.entry).root.now)
        (position apart (before 0)))) }
    ensures kept { OnOk result (BeginsWith (objects_of types.new) (objects_of types.old)) }
{
    let github = github_type(types)?;
    let strings = object_of(types, &[], Some(Ty::STRING))?;
    let runner = runner_type(types)?;
    let job = job_type(types)?;
    let inputs = inputs_type(types, file.kind, file.root)?;
    Ok(ContextTypes {
        github,
        env: strings,
        vars: strings,
        secrets: strings,
        runner,
        job,
        strategy: Ty::ANY,
        needs: Ty::ANY,
        jobs: Ty::ANY,
        steps,
        matrix: Ty::ANY,
        inputs,
    })
}
