//! Trees of workflows and actions: their faults, and the values under their keys.

use crate::documents::document;
use al_base::{Code, Fault, KeyCode, position};
use al_scalar::Scalar;
use al_tree::{
    FileKind, Tree, document_faults, items_under, key, members_under, read_action, read_workflow,
    text_under, texts_under, value,
};
use al_yaml_tree::Node;
use std::alloc::{AllocError, Global};

/// A fault: its line and column, its code and its first argument.
type Expected = (u32, u32, KeyCode, &'static str);

/// A file, its kind, and its faults in report order.
type File = (FileKind, &'static [u8], &'static [Expected]);

static FILES: [File; 4] = [
    (
        FileKind::Workflow,
        b"on: push\njobs:\n  a:\n    steps:\n      - nam: x\n",
        &[
            (4, 5, KeyCode::Missing, "runs-on"),
            (5, 9, KeyCode::Missing, "run"),
            (5, 9, KeyCode::Unexpected, "nam"),
        ],
    ),
    (
        FileKind::Workflow,
        b"on: push\njobs:\n  a:\n    runs-on: ubuntu-latest\n    timeout-minutes: soon\n    steps:\n      - run: echo ${{ github.ref }}\n",
        &[(5, 22, KeyCode::WrongType, "timeout-minutes")],
    ),
    (
        FileKind::Workflow,
        b"on: push\njobs:\n  a:\n    uses: o/r/.github/workflows/f.yml@v1\n    steps: []\n",
        &[(5, 5, KeyCode::NotBeside, "steps")],
    ),
    (
        FileKind::Action,
        b"name: A\nruns:\n  using: composite\n",
        &[
            (1, 1, KeyCode::Missing, "description"),
            (3, 3, KeyCode::Missing, "steps"),
        ],
    ),
];

fn files() -> &'static [File] {
    &FILES
}

fn is_at(text: &[u8], start: u32, line: u32, column: u32) -> bool {
    text.len() <= 1_048_576
        && start as usize <= text.len()
        && position(text, start) == (line, column)
}

fn has_first(fault: &Fault, text: &str) -> bool {
    match fault.args.first() {
        Some(first) => first == text,
        None => false,
    }
}

fn is_expected(text: &[u8], fault: &Fault, expected: &Expected) -> bool {
    fault.code == Code::Key(expected.2)
        && is_at(text, fault.span.start, expected.0, expected.1)
        && has_first(fault, expected.3)
}

fn are_expected(text: &[u8], faults: &[Fault], expected: &[Expected]) -> bool {
    if faults.len() != expected.len() {
        return false;
    }
    for (fault, expected) in faults.iter().zip(expected) {
        if !is_expected(text, fault, expected) {
            return false;
        }
    }
    true
}

fn has_faults(alloc: Global, file: &File) -> Result<bool, AllocError> {
    let (kind, text, expected) = file;
    match document(alloc, text)? {
        Some(doc) => Ok(are_expected(text, &document_faults(alloc, *kind, &doc)?, expected)),
        None => Ok(false),
    }
}

#[test]
fn faults_of_files(rt: HostRuntime) -> Result<(), AllocError> {
    for file in files() {
        assert!(rt; has_faults(rt.alloc(), file)?);
    }
    Ok(())
}

const WORKFLOW: &[u8] = b"name: Build
run-name: by me
on:
  push: {branches: [main, ~, 'v*']}
  schedule: [{cron: 0 0 * * 0, timezone: UTC}]
  workflow_call:
    inputs: {size: {type: number, required: true, default: 1, deprecationMessage: old}}
    outputs: {path: {value: x}}
defaults: {run: {shell: bash, working-directory: src}}
jobs:
  test:
    runs-on: {group: large, labels: linux}
    concurrency: {group: one, cancel-in-progress: false}
    strategy: {matrix: {os: [a, b]}, fail-fast: true, max-parallel: 2}
    container: {image: alpine, options: --rm, credentials: {username: u, password: p}}
    steps:
      - {id: first, run: make, shell: sh, run: other}
  call:
    uses: ./.github/workflows/b.yml
  test: {}
";

const ACTION: &[u8] = b"name: A
author: B
description: C
inputs: {size: {default: 1}}
runs: {using: docker, image: D, entrypoint: e, pre-entrypoint: f, post-entrypoint: g, pre-if: h, post-if: i, args: [j]}
branding: {icon: k}
";

// The tree of the file above, and how many faults it has; `None` if it isn't YAML.
fn workflow(alloc: Global) -> Result<Option<(Tree, usize)>, AllocError> {
    let Some(doc) = document(alloc, WORKFLOW)? else {
        return Ok(None);
    };
    let (workflow, faults) = read_workflow(alloc, doc)?;
    Ok(Some((Tree::Workflow(workflow), faults.len())))
}

fn action(alloc: Global) -> Result<Option<(Tree, usize)>, AllocError> {
    let Some(doc) = document(alloc, ACTION)? else {
        return Ok(None);
    };
    let (action, faults) = read_action(alloc, doc)?;
    Ok(Some((Tree::Action(action), faults.len())))
}

// Whether a text is this one; a missing text counts as empty.
fn says(word: Option<&Scalar>, text: &str) -> bool {
    match word {
        Some(word) => word.text() == text.as_bytes(),
        None => text.is_empty(),
    }
}

fn has_names(root: &Node) -> bool {
    says(text_under(root, "name"), "Build")
        && says(text_under(root, "run-name"), "by me")
        && says(text_under(root, "on"), "")
        && key(root, "jobs").is_some_and(|key| key.span().start == 307)
}

fn push_of(root: &Node) -> Option<&Node> {
    value(value(root, "on")?, "push")
}

// Whether all branches are there except the one that is null.
fn has_branches(alloc: Global, root: &Node) -> Result<bool, AllocError> {
    match push_of(root) {
        Some(push) => {
            let branches = texts_under(alloc, push, "branches")?;
            Ok(branches.len() == 2 && says(branches.get(1).copied(), "v*"))
        }
        None => Ok(false),
    }
}

// Whether the step is there; of its equal keys the first counts.
fn has_step(job: &Node) -> bool {
    match items_under(job, "steps") {
        [only] => says(text_under(only, "run"), "make") && says(text_under(only, "uses"), ""),
        _ => false,
    }
}

// Whether both jobs are there; of equal keys the first counts.
fn has_jobs(alloc: Global, root: &Node) -> Result<bool, AllocError> {
    match members_under(alloc, root, "jobs")?.as_slice() {
        [test, call] => Ok(
            test.key.text() == b"test".as_slice()
                && has_step(test.value)
                && says(text_under(call.value, "uses"), "./.github/workflows/b.yml"),
        ),
        _ => Ok(false),
    }
}

fn is_as_written(alloc: Global, workflow: &Tree) -> Result<bool, AllocError> {
    let root = workflow.root();
    if !has_names(root) || !matches!(workflow.kind(), FileKind::Workflow) {
        return Ok(false);
    }
    Ok(has_branches(alloc, root)? && has_jobs(alloc, root)?)
}

fn reads_workflow(alloc: Global) -> Result<bool, AllocError> {
    match workflow(alloc)? {
        Some((workflow, faults)) => Ok(faults == 2 && is_as_written(alloc, &workflow)?),
        None => Ok(false),
    }
}

#[test]
fn keys_of_a_workflow(rt: HostRuntime) -> Result<(), AllocError> {
    assert!(rt; reads_workflow(rt.alloc())?);
    Ok(())
}

fn has_args(root: &Node) -> bool {
    match value(root, "runs") {
        Some(runs) => items_under(runs, "args").len() == 1,
        None => false,
    }
}

fn is_action(action: &Tree) -> bool {
    let root = action.root();
    matches!(action.kind(), FileKind::Action)
        && says(text_under(root, "author"), "B")
        && has_args(root)
        && value(root, "branding").is_some_and(|node| node.span().start == 192)
}

fn reads_action(alloc: Global) -> Result<bool, AllocError> {
    match action(alloc)? {
        Some((action, faults)) => Ok(faults == 0 && is_action(&action)),
        None => Ok(false),
    }
}

#[test]
fn keys_of_an_action(rt: HostRuntime) -> Result<(), AllocError> {
    assert!(rt; reads_action(rt.alloc())?);
    Ok(())
}
