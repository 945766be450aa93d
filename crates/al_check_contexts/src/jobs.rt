//! The types of jobs as others see them, each made once per file, and the types of `jobs` and
//! `needs`.
ghost use Rattle.std.specs.Prelude.{◌≡◌, ◌<◌, [], IfOk, OnOk, List, length, true};
ghost use Rattle.al_check_contexts.specs.Contexts.{job_field, jobs_type, needs_type};
ghost use Rattle.al_check_contexts.specs.Lookups.{called_at, shown_at, shown_with};
ghost use Rattle.al_check_contexts.specs.Made.{KeepsBare, KeepsJobs, KeepsJobsOf, jobs_from};
ghost use Rattle.al_check_contexts.specs.Made.{known_from};
ghost use Rattle.al_check_contexts.specs.Caches.{Keeps};
ghost use Rattle.al_check_objects.specs.Numbers.{Makes};
ghost use Rattle.al_expr_types.specs.Tables.{is_known, type_at};
ghost use Rattle.al_expr_types.specs.declared.types.Types as declared;
ghost use Rattle.al_check_contexts.specs.declared.known.Outputs as outputs;
ghost use Rattle.al_scalar.specs.Scalar.{Scalar};
ghost use Rattle.al_tree.specs.Values.{member_of};
ghost use Rattle.al_types.specs.Strings.{named_strings};
ghost use Rattle.al_yaml_tree.specs.Node as tree;
ghost use Rattle.al_yaml_tree.specs.View.{view};

use crate::basis::Basis;
use crate::caches::TypeCache;
use crate::steps::outputs_type;
use al_check_objects::{FieldList, declared_strings, object_of};
use al_expr_types::{Ty, Types};
use al_tree::{Member, has_value, members_under, texts_under};
use al_yaml_tree::Node;
use std::alloc::{AllocError, Global};

/// The types of jobs as others see them, as far as they were made.
#[derive(Drop)]
pub(crate) struct JobTypes {
    /// Of jobs that call a workflow, by the position of their lists of outputs.
    pub(crate) calls: TypeCache,
    /// By the job's position.
    pub(crate) shown: TypeCache,
    /// What a job shows that has no outputs.
    pub(crate) bare: Option<Ty>,
    /// The type of `jobs`.
    pub(crate) all: Option<Ty>,
}

/// The type of a job with these outputs. Fails with `AllocError` when out of memory, as everything
/// here does.
fn shown_with(types: &mut Types<'_>, outputs: Ty) -> Result<Ty, AllocError>
    requires { is_known types.old outputs ≡ true }
    ensures { Makes types.old types.new result (shown_with (type_at types.old outputs)) }
{
    object_of(
        types,
        &[(b"result", Ty::STRING), (b"outputs", outputs)],
        None,
    )
}

/// The type of a job that calls a workflow, by the position of its list of outputs.
#[tactic(auto, using(al_base::proofs::Growing::growth))]
fn called_type<'a>(
    types: &mut Types<'a>,
    basis: &Basis<'a>,
    made: &mut TypeCache,
    position: usize,
) -> Result<Ty, AllocError>
    requires { Keeps types.old (called_at basis.now.outputs) made.old }
    ensures made { Makes types.old types.new result (called_at basis.now.outputs position) }
    ensures keeps { OnOk result (Keeps types.new (called_at basis.now.outputs) made.new) }
{
    if let Some(ty) = made.get(position) {
        return Ok(ty);
    }
    let outputs = outputs_type(types, basis.outputs.list(position), Ty::ANY)?;
    let ty = shown_with(types, outputs)?;
    made.set(position, ty);
    Ok(ty)
}

/// The type of a job without outputs, which is made once.
#[tactic(auto, using(al_base::proofs::Growing::growth))]
fn bare_type(types: &mut Types<'_>, made: &mut Option<Ty>) -> Result<Ty, AllocError>
    requires { KeepsBare types.old made.old }
    ensures made { Makes types.old types.new result (shown_with (named_strings [])) }
    ensures keeps { OnOk result (KeepsBare types.new made.new) }
{
    if let Some(ty) = *made {
        return Ok(ty);
    }
    let outputs = object_of(types, &[], None)?;
    let ty = shown_with(types, outputs)?;
    *made = Some(ty);
    Ok(ty)
}

impl JobTypes {
    /// No types yet, for this many lists of outputs and jobs.
    pub(crate) fn new(alloc: Global, calls: usize, jobs: usize) -> Result<JobTypes, AllocError>
        ensures { IfOk result
            (λ m. (types : declared.Types) (known : outputs.Outputs)
            (js : List (Scalar × tree.Node)) → KeepsJobs types known js m) }
    {
        let calls = TypeCache::new(alloc, calls)?;
        let shown = TypeCache::new(alloc, jobs)?;
        Ok(JobTypes {
            calls,
            shown,
            bare: None,
            all: None,
        })
    }

    /// The type of a job.
    #[tactic(auto, using(al_base::proofs::Growing::growth, al_expr_types::proofs::Returned::begins_ok))]
    fn type_of<'a>(
        &mut self,
        types: &mut Types<'a>,
        basis: &Basis<'a>,
        job: Member<'a>,
    ) -> Result<Ty, AllocError>
        requires calls { Keeps types.old (called_at basis.now.outputs) (self.old).calls }
        requires bare { KeepsBare types.old (self.old).bare }
        ensures made { Makes types.old types.new result
            (job_field (known_from basis.now) (member_of job.entry)).1 }
        ensures keeps { OnOk result
            (Keeps types.new (called_at basis.now.outputs) (self.new).calls) }
        ensures bare { OnOk result (KeepsBare types.new (self.new).bare) }
        ensures shown { (self.new).shown ≡ (self.old).shown }
        ensures all { (self.new).all ≡ (self.old).all }
    {
        if has_value(job.value, "uses") {
            let position = basis.outputs.position(Some(job.key.text()), None);
            return called_type(types, basis, &mut self.calls, position);
        }
        let entries = members_under(types.alloc(), job.value, "outputs")?;
        if entries.len() == 0 {
            return bare_type(types, &mut self.bare);
        }
        let outputs = declared_strings(types, entries.as_slice())?;
        shown_with(types, outputs)
    }

    /// The type of the job at a position, which is made once.
    fn get<'a>(
        &mut self,
        types: &mut Types<'a>,
        basis: &Basis<'a>,
        i: usize,
    ) -> Result<Ty, AllocError>
        requires keeps { KeepsJobsOf types.old basis.now self.old }
        requires inside { i < length basis.now.jobs.members.items }
        ensures made { Makes types.old types.new result
            (shown_at basis.now.outputs (jobs_from basis.now) i) }
        ensures keeps { OnOk result (KeepsJobsOf types.new basis.now self.new) }
    {
        if let Some(ty) = self.shown.get(i) {
            return Ok(ty);
        }
        let ty = self.type_of(types, basis, basis.jobs.job_at(i))?;
        self.shown.set(i, ty);
        Ok(ty)
    }

    /// The type of `jobs`, which is made once.
    pub(crate) fn jobs_type<'a>(
        &mut self,
        types: &mut Types<'a>,
        basis: &Basis<'a>,
    ) -> Result<Ty, AllocError>
        requires { KeepsJobsOf types.old basis.now self.old }
        ensures made { Makes types.old types.new result
            (jobs_type (known_from basis.now) (jobs_from basis.now)) }
        ensures keeps { OnOk result (KeepsJobsOf types.new basis.now self.new) }
    {
        if let Some(ty) = self.all {
            return Ok(ty);
        }
        let mut fields = FieldList::new(types.alloc());
        let members = basis.jobs.as_slice();
        for (i, job) in members.iter().enumerate() {
            let ty = self.get(types, basis, i)?;
            fields = fields.and(job.key.text(), ty)?;
        }
        let ty = fields.into_type(types, None)?;
        self.all = Some(ty);
        Ok(ty)
    }

    /// The type of `needs` in a job.
    pub(crate) fn needs_type<'a>(
        &mut self,
        types: &mut Types<'a>,
        basis: &Basis<'a>,
        job: &'a Node,
    ) -> Result<Ty, AllocError>
        requires { KeepsJobsOf types.old basis.now self.old }
        ensures made { Makes types.old types.new result
            (needs_type (known_from basis.now) (jobs_from basis.now) (view job.entry.now)) }
        ensures keeps { OnOk result (KeepsJobsOf types.new basis.now self.new) }
    {
        let mut fields = FieldList::new(types.alloc());
        let names = texts_under(types.alloc(), job, "needs")?;
        for name in names.as_slice() {
            let Some(needed) = basis.jobs.position_of(name.text())? else {
                continue;
            };
            let ty = self.get(types, basis, needed)?;
            fields = fields.and(basis.jobs.job_at(needed).key.text(), ty)?;
        }
        fields.into_type(types, None)
    }
}
