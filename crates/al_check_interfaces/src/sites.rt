//! The steps and jobs of a file that call.
ghost use Rattle.std.specs.Prelude.{◌≡◌, ◌++◌, [], map, IfOk, OnOk};
ghost use Rattle.std.specs.List.{cons_option, filter_map};
ghost use Rattle.al_tree.specs.Values.{member_of};
ghost use Rattle.al_check_interfaces.specs.CallViews.{bytes_of, call_of, site_of};
ghost use Rattle.al_check_interfaces.specs.Uses as calling;
ghost use Rattle.al_yaml_tree.specs.View.{view};

use al_base::Caller;
use al_scalar::Scalar;
use al_tree::{
    FileKind, Member, action_steps, is_composite, items_under, members_under, text_under,
};
use al_yaml_tree::Node;
use std::alloc::{AllocError, Global};

/// A step or a job.
#[derive(Clone, Copy)]
pub struct Site<'a> {
    /// The text of the job's key; `None` in an action.
    pub job: Option<&'a [u8]>,
    /// The index of the step, from 0; `None` for the job itself.
    pub step: Option<usize>,
    pub node: &'a Node,
}

/// A step or a job that calls, and the value of its `uses`.
#[derive(Clone, Copy)]
pub struct Call<'a> {
    pub site: Site<'a>,
    pub uses: &'a Scalar,
}

/// Whether the site is a step or a job.
pub fn caller_of(site: Site<'_>) -> Caller
    ensures { result ≡ calling.site_caller (site_of site.entry) }
{
    match site.step {
        Some(_) => Caller::Step,
        None => Caller::Job,
    }
}

/// Adds the call of a step or a job, if the value of its `uses` is a scalar and not null.
fn add_call<'a>(site: Site<'a>, out: &mut Vec<Call<'a>>) -> Result<(), AllocError>
    ensures { OnOk result (map call_of out.new.items ≡ map call_of out.old.items
        ++ cons_option (calling.call_at (site_of site.entry)) []) }
{
    let Some(uses) = text_under(site.node, "uses") else {
        return Ok(());
    };
    out.push(Call { site, uses })?;
    Ok(())
}

/// Adds the calls of the steps of a job or an action.
fn add_steps<'a>(
    job: Option<&'a [u8]>,
    steps: &'a [Node],
    out: &mut Vec<Call<'a>>,
) -> Result<(), AllocError>
    ensures { OnOk result (map call_of out.new.items ≡ map call_of out.old.items
        ++ filter_map calling.call_at
        (calling.step_sites (bytes_of job.entry) (map view steps.now))) }
{
    for (number, node) in steps.iter().enumerate() {
        let step = Some(number);
        add_call(Site { job, step, node }, out)?;
    }
    Ok(())
}

/// Adds the calls of a job and of its steps.
fn add_job<'a>(job: Member<'a>, out: &mut Vec<Call<'a>>) -> Result<(), AllocError>
    ensures { OnOk result (map call_of out.new.items ≡ map call_of out.old.items
        ++ filter_map calling.call_at (calling.job_sites (member_of job.entry))) }
{
    let (step, node) = (None, job.value);
    let job = Some(job.key.text());
    add_call(Site { job, step, node }, out)?;
    add_steps(job, items_under(node, "steps"), out)
}

/// The calls of the jobs of a workflow, each before those of its steps, or those of the steps of a
/// composite action.
///
/// Fails with `AllocError` when out of memory.
pub fn calls_in(alloc: Global, kind: FileKind, root: &Node) -> Result<Vec<Call<'_>>, AllocError>
    ensures { IfOk result (λ v. map call_of v.items ≡ calling.calls_in kind (view root.now)) }
{
    let mut found = Vec::new(alloc);
    match kind {
        FileKind::Workflow => {
            for job in &members_under(alloc, root, "jobs")? {
                add_job(*job, &mut found)?;
            }
        }
        FileKind::Action if is_composite(root) => {
            add_steps(None, action_steps(root), &mut found)?;
        }
        FileKind::Action => {}
    }
    Ok(found)
}
