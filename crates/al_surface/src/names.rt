//! Paths and names: `al_tree`, `al_expr`, `al_rules` and `al_check`.

use al_check::{Name, NameList};
use al_expr::{Context, Function, Returned};
use al_rules::activities_of;
use al_text::is_same_name;
use al_tree::{FileKind, file_kind, is_action, is_combination_key, is_event, is_workflow};
use std::alloc::{AllocError, Global};

/// A path, and whether it is a workflow's and an action's.
static PATHS: [(&str, bool, bool); 5] = [
    (".github/workflows/a.yml", true, false),
    (".github/workflows/a/b.yaml", false, false),
    (".github/workflows/.yml", false, false),
    (".github/workflows/action.yml", true, true),
    ("a/b/action.yaml", false, true),
];

fn paths() -> &'static [(&'static str, bool, bool)] {
    &PATHS
}

fn is_of_kind(path: &[u8], of_workflow: bool, of_action: bool) -> bool {
    let is_read_as_workflow = matches!(file_kind(path), FileKind::Workflow);
    is_workflow(path) == of_workflow
        && is_action(path) == of_action
        && is_read_as_workflow == of_workflow
}

#[test]
fn paths_of_workflows_and_actions(rt: HostRuntime) {
    for (path, of_workflow, of_action) in paths() {
        assert!(rt; is_of_kind(path.as_bytes(), *of_workflow, *of_action));
    }
}

fn is_trigger(name: &[u8]) -> bool {
    is_event(name) && !is_combination_key(name)
}

#[test]
fn names_of_events(rt: HostRuntime) {
    assert!(rt; is_trigger(b"push") && !is_trigger(b"Push") && !is_trigger(b"include"));
}

/// Whether an event has an activity type, whatever its others are.
fn has_activity(event: &[u8], activity: &str) -> bool {
    match activities_of(event) {
        Some(activities) => activities.contains(&activity),
        None => false,
    }
}

#[test]
fn activity_types_of_events(rt: HostRuntime) {
    assert!(rt; has_activity(b"issues", "opened") && !has_activity(b"issues", "close"));
}

fn is_secrets(name: &str) -> bool {
    match Context::from_name(name) {
        Some(context) => context == Context::Secrets && context.name() == "secrets",
        None => false,
    }
}

fn gives_text(name: &str) -> bool {
    match Function::from_name(name) {
        Some(function) => function.signature().returned == Returned::String,
        None => false,
    }
}

#[test]
fn names_in_any_case(rt: HostRuntime) {
    assert!(rt; is_same_name(b"a-B", b"A-b") && is_secrets("SECRETS") && gives_text("ToJson"));
}

/// The list of one name, by way of copies.
fn list_of(alloc: Global, bytes: &[u8]) -> Result<NameList, AllocError> {
    let name = Name::new(alloc, bytes)?;
    let mut names = Vec::new(alloc);
    names.push(name.copy(alloc)?)?;
    NameList::new(names)?.copy(alloc)
}

/// Whether a list has one name, at which it is found.
fn has_only(names: &NameList, bytes: &[u8]) -> Result<bool, AllocError> {
    let is_only = names.len() == 1 && names.at(0) == bytes && names.as_slice().len() == 1;
    Ok(is_only && names.position(bytes)? == Some(0))
}

fn lists_name(alloc: Global, bytes: &[u8]) -> Result<bool, AllocError> {
    has_only(&list_of(alloc, bytes)?, bytes)
}

#[test]
fn lists_of_names(rt: HostRuntime) {
    assert!(rt; lists_name(rt.alloc(), b"who") == Ok(true));
}
