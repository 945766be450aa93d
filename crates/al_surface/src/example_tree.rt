//! The example of `al_tree`: the keys of a workflow, and its faults.

use al_text::Fault;
use al_tree::{members_under, read_workflow};
use al_yaml::Doc;
use std::alloc::{AllocError, Global};

/// Adds the ids of a workflow's jobs to a list, and gives the faults by GitHub's syntax.
fn job_ids(alloc: Global, doc: Doc, ids: &mut Vec<String>) -> Result<Vec<Fault>, AllocError> {
    let (workflow, faults) = read_workflow(alloc, doc)?;
    for job in &members_under(alloc, &workflow.root, "jobs")? {
        ids.push(String::from_utf8_lossy(alloc, job.key.text())?)?;
    }
    Ok(faults)
}

// Tests:

use crate::trees::document;
use al_text::{Code, KeyCode, fault_list};

fn is_missing_event(faults: &[Fault]) -> bool {
    match faults {
        [fault] => fault.code == Code::Key(KeyCode::Missing) && fault.args.first() == Some("on"),
        _ => false,
    }
}

fn are_ids(ids: &[String]) -> bool {
    match ids {
        [first, second] => first.as_str() == "a" && second.as_str() == "b",
        _ => false,
    }
}

/// Whether a file has the jobs `a` and `b`, and lacks `on`.
fn has_jobs(alloc: Global, file: &[u8]) -> Result<bool, AllocError> {
    let mut ids = Vec::new(alloc);
    let faults = job_ids(alloc, document(alloc, file)?, &mut ids)?;
    Ok(are_ids(&ids) && is_missing_event(&fault_list(faults)))
}

#[test]
fn jobs_and_faults(rt: HostRuntime) {
    assert!(rt; has_jobs(rt.alloc(), b"jobs:\n  a: {uses: ./b}\n  b: {uses: ./c}\n") == Ok(true));
}
