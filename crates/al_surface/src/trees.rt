//! `al_tree` and `al_rules`: workflows and actions, and the faults of their keys and those that
//! rules find.

use al_rules::rules;
use al_text::limits::LARGEST_FILE;
use al_text::{Code, Fault, KeyCode, RuleCode, fault_list};
use al_tree::{FileKind, Tree, document_faults, read_action, read_workflow};
use al_yaml::{Doc, read_yaml};
use std::alloc::{AllocError, Global};

// The code of a fault, and the start of its span.
type Expected = (Code, u32);

fn are_expected(found: &[Fault], wanted: &[Expected]) -> bool {
    found.len() == wanted.len()
        && found.iter().zip(wanted).all(|(fault, expected)| (fault.code, fault.span.start)
            == *expected)
}

/// The document of a file. The files here are valid YAML within the size limit.
pub(crate) fn document(alloc: Global, file: &[u8]) -> Result<Doc, AllocError> {
    if file.len() > LARGEST_FILE {
        return Err(AllocError);
    }
    match read_yaml(alloc, file)? {
        Ok(doc) => Ok(doc),
        Err(_) => Err(AllocError),
    }
}

fn step_without_work() -> &'static [u8] {
    b"on: push\njobs:\n  a:\n    steps:\n      - nam: x\n"
}

// The keys of the job begin in line 4, and the step in line 5.
static OF_THE_STEP: [Expected; 3] = [
    (Code::Key(KeyCode::Missing), 24),
    (Code::Key(KeyCode::Missing), 39),
    (Code::Key(KeyCode::Unexpected), 39),
];

fn of_the_step() -> &'static [Expected] {
    &OF_THE_STEP
}

fn composite() -> &'static [u8] {
    b"name: A\nruns:\n  using: composite\n"
}

static OF_THE_ACTION: [Expected; 2] = [
    (Code::Key(KeyCode::Missing), 0),
    (Code::Key(KeyCode::Missing), 16),
];

fn of_the_action() -> &'static [Expected] {
    &OF_THE_ACTION
}

fn breaks_workflow(alloc: Global, file: &[u8], wanted: &[Expected]) -> Result<bool, AllocError> {
    let (_, faults) = read_workflow(alloc, document(alloc, file)?)?;
    Ok(are_expected(&fault_list(faults), wanted))
}

fn breaks_action(alloc: Global, file: &[u8], wanted: &[Expected]) -> Result<bool, AllocError> {
    let (_, faults) = read_action(alloc, document(alloc, file)?)?;
    Ok(are_expected(&fault_list(faults), wanted))
}

/// Whether a document, read as an action, has these faults.
fn breaks_syntax(alloc: Global, file: &[u8], wanted: &[Expected]) -> Result<bool, AllocError> {
    let doc = document(alloc, file)?;
    let faults = document_faults(alloc, FileKind::Action, &doc)?;
    Ok(are_expected(&faults, wanted))
}

#[test]
fn keys_and_values_of_a_document(rt: HostRuntime) {
    assert!(rt; breaks_syntax(rt.alloc(), composite(), of_the_action()) == Ok(true));
}

#[test]
fn keys_and_values_of_a_workflow(rt: HostRuntime) {
    assert!(rt; breaks_workflow(rt.alloc(), step_without_work(), of_the_step()) == Ok(true));
}

#[test]
fn keys_and_values_of_an_action(rt: HostRuntime) {
    assert!(rt; breaks_action(rt.alloc(), composite(), of_the_action()) == Ok(true));
}

fn often() -> &'static [u8] {
    b"on:\n  schedule:\n    - cron: '0,3 * * * *'\njobs: {}\n"
}

static OF_THE_SCHEDULE: [Expected; 1] = [(Code::Rule(RuleCode::ScheduleTooOften), 28)];

fn of_the_schedule() -> &'static [Expected] {
    &OF_THE_SCHEDULE
}

/// Whether a tree is that of a workflow with two keys.
fn is_workflow_of_two(tree: &Tree) -> bool {
    matches!(tree.kind(), FileKind::Workflow) && tree.root().mapping().map(|it| it.len()) == Some(2)
}

/// Whether rules alone find these faults in a tree.
fn breaks_rules(alloc: Global, tree: &Tree, wanted: &[Expected]) -> Result<bool, AllocError> {
    let mut out = Vec::new(alloc);
    rules(alloc, tree, &mut out)?;
    Ok(is_workflow_of_two(tree) && are_expected(&out, wanted))
}

/// The same of a workflow.
fn workflow_breaks_rules(
    alloc: Global,
    file: &[u8],
    wanted: &[Expected],
) -> Result<bool, AllocError> {
    let (workflow, _) = read_workflow(alloc, document(alloc, file)?)?;
    breaks_rules(alloc, &Tree::Workflow(workflow), wanted)
}

#[test]
fn rules_of_a_file(rt: HostRuntime) {
    assert!(rt; workflow_breaks_rules(rt.alloc(), often(), of_the_schedule()) == Ok(true));
}
