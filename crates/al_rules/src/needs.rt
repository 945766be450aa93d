//! Rules of the `needs` of jobs.

ghost use Rattle.al_base.specs.NamePlaces.{name_position};
ghost use Rattle.al_graph.specs.Graphs.{edges_of};
ghost use Rattle.al_rules.specs.Needs.{needs_faults, needs_in, needs_lists};
ghost use Rattle.al_rules.specs.Private.Components as components;
ghost use Rattle.al_rules.specs.Private.Components.{labelled_faults};
ghost use Rattle.al_tree.specs.Values.{member_of};
ghost use Rattle.std.specs.Prelude.{◌≡◌, ◌++◌, map, IfOk, OnOk};

use al_base::{Code, FaultSink, NamePositions, RuleCode};
use al_graph::strongly_connected_components;
use al_rules_settings::{named_text, report};
use al_tree::{Member, member_positions, texts_under};
use std::alloc::{AllocError, Global};

/// For each job, the positions of the jobs that it needs.
fn lists_for(
    alloc: Global,
    positions: &NamePositions,
    jobs: &[Member<'_>],
) -> Result<Vec<Vec<usize>>, AllocError>
    ensures { IfOk result (λ v. edges_of v.items
        ≡ needs_lists (name_position positions.now) (map member_of jobs.now)) }
{
    let mut lists = Vec::new(alloc);
    for job in jobs {
        let mut needed = Vec::new(alloc);
        for need in &texts_under(alloc, job.value, "needs")? {
            if let Some(position) = positions.get(need.text())? {
                needed.push(position)?;
            }
        }
        lists.push(needed)?;
    }
    Ok(lists)
}

/// Whether two jobs have the same label.
fn has_label_of(labels: &[Option<usize>], job: usize, other: usize) -> bool
    ensures { result ≡ components.has_label_of labels.now job other }
{
    labels.get(job).copied().flatten() == labels.get(other).copied().flatten()
}

/// Adds the faults of the `needs` of a job at a position: entries that name no job, and entries on
/// a cycle.
///
/// `positions` has the first job with each key, ignoring ASCII case. Two jobs have the same label
/// exactly if they lead to one another.
fn check_job(
    positions: &NamePositions,
    labels: &[Option<usize>],
    position: usize,
    job: Member<'_>,
    faults: &mut FaultSink,
) -> Result<(), AllocError>
    ensures { OnOk result (faults.new ≡ faults.old ++ labelled_faults (name_position positions.now)
        labels.now (needs_in (position, member_of job.entry))) }
{
    let key = named_text(job.key);
    for need in &texts_under(faults.alloc(), job.value, "needs")? {
        let need = named_text(*need);
        let Some(needed) = positions.get(need.text)? else {
            report(RuleCode::UndefinedJob, need, faults)?;
            continue;
        };
        if has_label_of(labels, needed, position) {
            let code = Code::Rule(RuleCode::NeedsCycle);
            faults.report_two(need.span, code, key.text, need.text)?;
        }
    }
    Ok(())
}

/// Adds the faults of the `needs` of all jobs.
///
/// An entry is on a cycle if its job and the job it names are in one strongly connected component.
/// So the time is linear in jobs and entries, apart from looking up each name.
pub(crate) fn check_needs(jobs: &[Member<'_>], faults: &mut FaultSink) -> Result<(), AllocError>
    ensures { OnOk result (faults.new ≡ faults.old ++ needs_faults (map member_of jobs.now)) }
{
    let positions = member_positions(faults.alloc(), jobs)?;
    let needs = lists_for(faults.alloc(), &positions, jobs)?;
    let labels = strongly_connected_components(faults.alloc(), needs.as_slice())?;
    let labels = labels.as_slice();
    for (i, job) in jobs.iter().enumerate() {
        check_job(&positions, labels, i, *job, faults)?;
    }
    Ok(())
}
