//! Which contexts and special functions are available at places.

use crate::files::{document, env_at, nothing_known};
use al_check_contexts::File;
use al_check_places::{available, placed_scalars};
use al_expr_names::{Available, CONTEXTS, SPECIAL_FUNCTIONS};
use al_expr_typing::Scope;
use al_tree::FileKind;
use std::alloc::{AllocError, Global};

const WORKFLOW: &[u8] = b"name: '${{ anything }}'
run-name: '${{ in-run-name }}'
on: push
jobs:
  a:
    if: in-job-if
    runs-on: x
    environment: {name: y, url: '${{ in-url }}'}
    container: {image: '${{ in-image }}', env: {A: '${{ in-container-env }}'}}
    steps:
      - {name: x, run: '${{ in-run }}'}
      - {run: x, if: in-step-if}
";

const ACTION: &[u8] = b"runs:
  using: composite
  steps:
    - {run: '${{ in-run }}', shell: sh, if: in-if}
";

fn count_of_contexts(available: &Available) -> usize {
    let mut count: usize = 0;
    for context in &CONTEXTS {
        if available.contexts.contains(context) {
            count = count.saturating_add(1);
        }
    }
    count
}

fn count_of_functions(available: &Available) -> usize {
    let mut count: usize = 0;
    for function in &SPECIAL_FUNCTIONS {
        if available.allows(*function) {
            count = count.saturating_add(1);
        }
    }
    count
}

/// The text of a place, how many contexts and special functions are available there, and whether it
/// is a script.
type Expected = (&'static str, usize, usize, bool);

fn is_expected(scope: &Scope, expected: &Expected) -> bool {
    count_of_contexts(&scope.available) == expected.1
        && count_of_functions(&scope.available) == expected.2
        && scope.in_run == expected.3
}

fn has_set(alloc: Global, file: File<'_>, expected: &Expected) -> Result<bool, AllocError> {
    match env_at(alloc, file, expected.0)? {
        Some(env) => Ok(is_expected(&env.scope, expected)),
        None => Ok(false),
    }
}

fn have_sets(alloc: Global, file: File<'_>, expected: &[Expected]) -> Result<bool, AllocError> {
    for row in expected {
        if !has_set(alloc, file, row)? {
            return Ok(false);
        }
    }
    Ok(true)
}

fn has_sets(
    alloc: Global,
    kind: FileKind,
    text: &[u8],
    expected: &[Expected],
) -> Result<bool, AllocError> {
    match document(alloc, text)? {
        Some(doc) => {
            let file = File {
                kind,
                root: &doc.root,
                known: nothing_known(),
            };
            have_sets(alloc, file, expected)
        }
        None => Ok(false),
    }
}

static OF_A_WORKFLOW: [Expected; 8] = [
    ("${{ anything }}", 12, 0, false),
    ("${{ in-run-name }}", 3, 0, false),
    ("in-job-if", 4, 4, false),
    ("${{ in-url }}", 10, 0, false),
    ("${{ in-image }}", 6, 0, false),
    ("${{ in-container-env }}", 10, 0, false),
    ("${{ in-run }}", 11, 1, true),
    ("in-step-if", 10, 5, false),
];

static OF_AN_ACTION: [Expected; 2] = [("${{ in-run }}", 11, 1, true), ("in-if", 11, 5, false)];

fn expected_of_a_workflow() -> &'static [Expected] {
    &OF_A_WORKFLOW
}

fn expected_of_an_action() -> &'static [Expected] {
    &OF_AN_ACTION
}

#[test]
fn of_a_workflow(rt: HostRuntime) -> Result<(), AllocError> {
    let expected = expected_of_a_workflow();
    assert!(rt; has_sets(rt.alloc(), FileKind::Workflow, WORKFLOW, expected)?);
    Ok(())
}

#[test]
fn of_an_action(rt: HostRuntime) -> Result<(), AllocError> {
    let expected = expected_of_an_action();
    assert!(rt; has_sets(rt.alloc(), FileKind::Action, ACTION, expected)?);
    Ok(())
}

fn count_at(keys: &[&[u8]]) -> Option<usize> {
    match available(keys) {
        Some(row) => Some(row.contexts.len()),
        None => None,
    }
}

#[test]
fn law_of_places(_rt: HostRuntime) {
    placed_scalars();
}

#[test]
fn of_keys(rt: HostRuntime) {
    assert!(rt; count_at(&[b"jobs", b"a", b"container", b"env"]).is_some());
    assert!(rt; count_at(&[b"name"]).is_none());
    assert!(rt; count_at(&[b"jobs", b"a", b"environment", b"url"]) == Some(10));
}
