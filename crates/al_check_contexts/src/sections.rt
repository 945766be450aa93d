//! The types of contexts that depend on the section, and the steps that are seen there.
ghost use Rattle.std.specs.Prelude.{◌≡◌, IfOk, OnOk, option_map};
ghost use Rattle.al_base.specs.Growth.{BeginsWith};
ghost use Rattle.al_check_contexts.specs.Contexts.{jobs_in, needs_type, owner_of};
ghost use Rattle.al_check_objects.specs.Fixed.{strategy_type};
ghost use Rattle.al_check_places.specs.Positions.{section_view};
ghost use Rattle.al_check_contexts.specs.Made.{KeepsJobsOf, jobs_from, known_from};
ghost use Rattle.al_check_objects.specs.Numbers.{Makes, Means};
ghost use Rattle.al_check_contexts.specs.Private.Owners.{owner_view};
ghost use Rattle.al_check_contexts.specs.Table.{AreOfSection};
ghost use Rattle.al_expr_types.specs.Tables.{objects_of};
ghost use Rattle.al_tree.specs.Values.{member_of};
ghost use Rattle.al_yaml_tree.specs.View.{view};

use crate::basis::Basis;
use crate::jobs::JobTypes;
use crate::owners::Owner;
use al_check_objects::matrix_type;
use al_check_places::Section;
use al_expr_types::{Ty, Types};
use al_tree::{FileKind, Member, action_steps, is_composite, items_under};
use al_yaml_tree::Node;
use std::alloc::AllocError;

/// The types of contexts that depend only on the section.
#[derive(Clone, Copy)]
pub(crate) struct SectionTypes {
    pub(crate) strategy: Ty,
    pub(crate) needs: Ty,
    pub(crate) jobs: Ty,
    pub(crate) matrix: Ty,
}

/// The type of `jobs` in a section.
fn jobs_at<'a>(
    types: &mut Types<'a>,
    basis: &Basis<'a>,
    made: &mut JobTypes,
    section: Section<'a>,
) -> Result<Ty, AllocError>
    requires { KeepsJobsOf types.old basis.now made.old }
    ensures made { Makes types.old types.new result
        (jobs_in (known_from basis.now) (jobs_from basis.now) (section_view section.entry)) }
    ensures keeps { OnOk result (KeepsJobsOf types.new basis.now made.new) }
{
    match section {
        Section::Apart => Ok(Ty::ANY),
        Section::On | Section::Job(_) => made.jobs_type(types, basis),
    }
}

/// The types in a section, given its job. Fails with `AllocError` when out of memory.
#[tactic(auto, using(al_base::proofs::Growing::growth))]
pub(crate) fn section_types<'a>(
    types: &mut Types<'a>,
    basis: &Basis<'a>,
    made: &mut JobTypes,
    section: Section<'a>,
    job: Option<Member<'a>>,
) -> Result<SectionTypes, AllocError>
    requires strategy { Means types.old basis.now.strategy strategy_type }
    requires keeps { KeepsJobsOf types.old basis.now made.old }
    ensures types { IfOk result (λ st.
        AreOfSection types.new (known_from basis.now) (jobs_from basis.now)
        (section_view section.entry) (option_map member_of job.entry) st) }
    ensures keeps { OnOk result (KeepsJobsOf types.new basis.now made.new) }
    ensures kept { OnOk result (BeginsWith (objects_of types.new) (objects_of types.old)) }
{
    let jobs = jobs_at(types, basis, made, section)?;
    let Some(job) = job else {
        return Ok(SectionTypes {
            strategy: Ty::ANY,
            needs: Ty::ANY,
            jobs,
            matrix: Ty::ANY,
        });
    };
    let needs = made.needs_type(types, basis, job.value)?;
    let matrix = matrix_type(types, job.value)?;
    Ok(SectionTypes {
        strategy: basis.strategy,
        needs,
        jobs,
        matrix,
    })
}

/// The steps of a section: in a workflow those of its job, in a composite action the action's own.
pub(crate) fn owner_at<'a>(
    kind: FileKind,
    root: &'a Node,
    job: Option<Member<'a>>,
) -> Option<Owner<'a>>
    ensures { option_map owner_view result
        ≡ owner_of kind (view root.entry.now) (option_map member_of job.entry) }
{
    match (kind, job) {
        (FileKind::Workflow, Some(job)) => Some(Owner {
            job: Some(job.key.text()),
            steps: items_under(job.value, "steps"),
        }),
        (FileKind::Action, _) if is_composite(root) => Some(Owner {
            job: None,
            steps: action_steps(root),
        }),
        _ => None,
    }
}
