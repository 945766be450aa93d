//! Steps, containers and jobs: which rules apply where.

ghost use Rattle.al_rules.specs.Rules.{container_faults, containers_faults, job_faults};
ghost use Rattle.al_rules.specs.Rules.{section_faults};
ghost use Rattle.al_rules.specs.Rules.{settings_faults, step_faults, steps_faults};
ghost use Rattle.al_rules_settings.specs.Views.{named_of};
ghost use Rattle.al_rules_settings.specs.Words.{of_scalar};
ghost use Rattle.al_tree.specs.Values.{member_of, text_at_key};
ghost use Rattle.al_yaml_tree.specs.View.{view};
ghost use Rattle.std.specs.List.{filter_map, flat_map};
ghost use Rattle.std.specs.Prelude.{◌≡◌, ◌++◌, codes, map, IfOk, OnOk};

use al_base::FaultSink;
use al_rules_settings::{
    Named, check_condition, check_credentials, check_env, check_ids, check_matrix,
    check_permissions, check_script, check_shell, named_text,
};
use al_tree::{
    Member, items_under, members_under, text, text_under, value, value_below_three, value_below_two,
};
use al_yaml_tree::Node;
use std::alloc::{AllocError, Global};

/// Adds the faults of a step by itself, without those of its id.
fn check_step(step: &Node, faults: &mut FaultSink) -> Result<(), AllocError>
    ensures { OnOk result (faults.new ≡ faults.old ++ step_faults (view step.now)) }
{
    check_env(step, faults)?;
    check_condition(text_under(step, "if"), faults)?;
    check_shell(text_under(step, "shell"), faults)?;
    check_script(text_under(step, "run"), faults)
}

/// The ids of some steps.
fn ids_of(alloc: Global, steps: &[Node]) -> Result<Vec<Named<'_>>, AllocError>
    ensures { IfOk result (λ v. map named_of v.items
        ≡ map of_scalar (filter_map (text_at_key (codes "id")) (map view steps.now))) }
{
    let mut ids = Vec::new(alloc);
    for step in steps {
        if let Some(id) = text_under(step, "id") {
            ids.push(named_text(id))?;
        }
    }
    Ok(ids)
}

/// Adds the faults of some steps.
pub(crate) fn check_steps(steps: &[Node], faults: &mut FaultSink) -> Result<(), AllocError>
    ensures { OnOk result (faults.new ≡ faults.old ++ steps_faults (map view steps.now)) }
{
    let ids = ids_of(faults.alloc(), steps)?;
    check_ids(ids.as_slice(), faults)?;
    for step in steps {
        check_step(step, faults)?;
    }
    Ok(())
}

/// Adds the faults of a container or a service.
fn check_container(node: &Node, faults: &mut FaultSink) -> Result<(), AllocError>
    ensures { OnOk result (faults.new ≡ faults.old ++ container_faults (view node.now)) }
{
    check_env(node, faults)?;
    check_credentials(node, faults)
}

/// Adds the faults of the settings that workflows and jobs share.
pub(crate) fn check_section(node: &Node, faults: &mut FaultSink) -> Result<(), AllocError>
    ensures { OnOk result (faults.new ≡ faults.old ++ section_faults (view node.now)) }
{
    check_permissions(node, faults)?;
    check_env(node, faults)?;
    let shell = value_below_three(node, "defaults", "run", "shell").and_then(|shell| text(shell));
    check_shell(shell, faults)
}

/// Adds the faults of the container and the services of a job.
fn check_containers(job: &Node, faults: &mut FaultSink) -> Result<(), AllocError>
    ensures { OnOk result (faults.new ≡ faults.old ++ containers_faults (view job.now)) }
{
    if let Some(container) = value(job, "container") {
        check_container(container, faults)?;
    }
    for service in &members_under(faults.alloc(), job, "services")? {
        check_container(service.value, faults)?;
    }
    Ok(())
}

/// Adds the faults of the settings of a job.
fn check_settings(job: &Node, faults: &mut FaultSink) -> Result<(), AllocError>
    ensures { OnOk result (faults.new ≡ faults.old ++ settings_faults (view job.now)) }
{
    check_section(job, faults)?;
    check_condition(text_under(job, "if"), faults)?;
    match value_below_two(job, "strategy", "matrix") {
        None => Ok(()),
        Some(matrix) => check_matrix(matrix, faults),
    }
}

/// Adds the faults of some jobs, each by itself.
pub(crate) fn check_each_job(jobs: &[Member<'_>], faults: &mut FaultSink) -> Result<(), AllocError>
    ensures { OnOk result (faults.new ≡ faults.old
        ++ flat_map job_faults (map member_of jobs.now)) }
{
    for job in jobs {
        check_settings(job.value, faults)?;
        check_containers(job.value, faults)?;
        check_steps(items_under(job.value, "steps"), faults)?;
    }
    Ok(())
}
