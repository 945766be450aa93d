//! The example of `al_rules`: the rules alone.

use al_rules::rules;
use al_text::{Fault, fault_list};
use al_tree::Tree;
use std::alloc::{AllocError, Global};

/// The faults of a file by the rules of a single file, in the order of reports.
fn rule_faults(alloc: Global, tree: &Tree) -> Result<Vec<Fault>, AllocError> {
    let mut faults = Vec::new(alloc);
    rules(alloc, tree, &mut faults)?;
    Ok(fault_list(faults))
}

// Tests:

use crate::trees::document;
use al_text::{Code, RuleCode};
use al_tree::read_workflow;

fn is_unknown_event(faults: &[Fault]) -> bool {
    match faults {
        [fault] => fault.code == Code::Rule(RuleCode::UnknownEvent) && fault.span.start == 4,
        _ => false,
    }
}

fn finds_event(alloc: Global, file: &[u8]) -> Result<bool, AllocError> {
    let (workflow, _) = read_workflow(alloc, document(alloc, file)?)?;
    Ok(is_unknown_event(&rule_faults(alloc, &Tree::Workflow(workflow))?))
}

#[test]
fn an_unknown_event(rt: HostRuntime) {
    assert!(rt; finds_event(rt.alloc(), b"on: pus\njobs: {}\n") == Ok(true));
}
