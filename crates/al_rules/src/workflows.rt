//! Workflows.

ghost use Rattle.al_rules.specs.Rules.{workflow_faults};
ghost use Rattle.al_yaml_tree.specs.View.{view};
ghost use Rattle.std.specs.Prelude.{◌≡◌, ◌++◌, OnOk};

use crate::check_on;
use crate::needs::check_needs;
use crate::sections::{check_each_job, check_section};
use al_base::FaultSink;
use al_rules_settings::{Named, check_ids, named_text};
use al_tree::{members_under, value};
use al_yaml_tree::Node;
use std::alloc::AllocError;

/// Adds the faults of a workflow.
pub(crate) fn check_workflow(root: &Node, faults: &mut FaultSink) -> Result<(), AllocError>
    ensures { OnOk result (faults.new ≡ faults.old ++ workflow_faults (view root.now)) }
{
    if let Some(on) = value(root, "on") {
        check_on(on, faults)?;
    }
    check_section(root, faults)?;
    let jobs = members_under(faults.alloc(), root, "jobs")?;
    let jobs = jobs.as_slice();
    let keys = jobs.iter().map(|job| named_text(job.key));
    let keys: Vec<Named<'_>> = keys.collect(faults.alloc())?;
    check_ids(keys.as_slice(), faults)?;
    check_needs(jobs, faults)?;
    check_each_job(jobs, faults)?;
    Ok(())
}
