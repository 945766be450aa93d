//! The faults that rules find in whole files.

use al_base::{Code, Fault, RuleCode, position};
use al_rules::{rules, spans};
use al_tree::{FileKind, Tree, read_action, read_workflow};
use al_yaml::read_yaml;
use al_yaml_tree::Doc;
use std::alloc::{AllocError, Global};

/// A fault: its line and column, its code and its arguments.
type Expected = (u32, u32, RuleCode, &'static [&'static str]);

/// A file, its kind, and the faults that rules find in it, in any order.
type File = (FileKind, &'static [u8], &'static [Expected]);

static FILES: [File; 4] = [
    (
        FileKind::Workflow,
        b"on:
  schedule: [{cron: '*/4 * * * *'}, {cron: 0 0 * * 7}]
  pull_request: {types: [opened, merged], branches: ['a[b']}
  pull_requests:
  workflow_dispatch: {inputs: {level: {type: text}}}
permissions: {content: read, issues: all}
env: {A B: x}
jobs: {}
",
        &[
            (2, 21, RuleCode::ScheduleTooOften, &["*/4 * * * *"]),
            (2, 44, RuleCode::WrongSchedule, &["0 0 * * 7"]),
            (3, 34, RuleCode::UnknownActivity, &["merged"]),
            (3, 54, RuleCode::WrongPattern, &["a[b"]),
            (4, 3, RuleCode::UnknownEvent, &["pull_requests"]),
            (5, 46, RuleCode::UnknownInputType, &["text"]),
            (6, 15, RuleCode::UnknownPermission, &["content"]),
            (6, 38, RuleCode::WrongPermission, &["all"]),
            (7, 7, RuleCode::WrongVariable, &["A B"]),
        ],
    ),
    (
        FileKind::Workflow,
        b"on: push
jobs:
  a:
    needs: [B, c]
    runs-on: u
    strategy: {matrix: {os: linux, exclude: [{node: 20}]}}
    container: {image: i, credentials: {password: p}}
    steps:
      - {id: 1st, run: make, shell: zsh}
      - {id: same, if: 'x ${{ true }}', run: 'echo ::add-path::/opt'}
      - {id: Same, run: make}
  b:
    needs: A
    runs-on: u
",
        &[
            (4, 13, RuleCode::NeedsCycle, &["a", "B"]),
            (4, 16, RuleCode::UndefinedJob, &["c"]),
            (6, 29, RuleCode::WrongMatrix, &["os"]),
            (6, 47, RuleCode::UnknownMatrixRow, &["node"]),
            (7, 51, RuleCode::PasswordNotExpression, &[]),
            (9, 14, RuleCode::WrongId, &["1st"]),
            (9, 37, RuleCode::UnknownShell, &["zsh"]),
            (10, 24, RuleCode::AlwaysTrue, &[]),
            (10, 52, RuleCode::DeprecatedCommand, &["add-path"]),
            (11, 14, RuleCode::RepeatedId, &["Same"]),
            (13, 12, RuleCode::NeedsCycle, &["b", "A"]),
        ],
    ),
    (
        FileKind::Action,
        b"name: A
description: B
outputs: {version: {description: C}}
runs: {using: composite, steps: [{run: make}]}
",
        &[
            (3, 11, RuleCode::MissingOutputValue, &["version"]),
            (4, 35, RuleCode::MissingShell, &[]),
        ],
    ),
    (
        FileKind::Action,
        b"name: A
description: B
runs: {using: node18, steps: [{run: make}]}
",
        &[(3, 15, RuleCode::UnknownUsing, &["node18"])],
    ),
];

fn files() -> &'static [File] {
    &FILES
}

// The tree of a file; `None` if it isn't YAML.
fn tree(alloc: Global, kind: FileKind, text: &[u8]) -> Result<Option<Tree>, AllocError> {
    if text.len() > 1_048_576 {
        return Ok(None);
    }
    match read_yaml(alloc, text)? {
        Ok(doc) => Ok(Some(tree_of(alloc, kind, doc)?)),
        Err(_) => Ok(None),
    }
}

// The tree of a document.
fn tree_of(alloc: Global, kind: FileKind, doc: Doc) -> Result<Tree, AllocError> {
    match kind {
        FileKind::Workflow => Ok(Tree::Workflow(read_workflow(alloc, doc)?.0)),
        FileKind::Action => Ok(Tree::Action(read_action(alloc, doc)?.0)),
    }
}

// Whether a text is the expected one at this index, or both are missing.
fn is_text(found: Option<&str>, expected: &[&str], index: usize) -> bool {
    match expected.get(index) {
        Some(text) => match found {
            Some(found) => found == *text,
            None => false,
        },
        None => found.is_none(),
    }
}

// Whether a fault has these arguments.
fn has_args(fault: &Fault, args: &[&str]) -> bool {
    args.len() <= 2 && is_text(fault.args.first(), args, 0) && is_text(fault.args.second(), args, 1)
}

fn is_at(text: &[u8], start: u32, line: u32, column: u32) -> bool {
    text.len() <= 1_048_576
        && start as usize <= text.len()
        && position(text, start) == (line, column)
}

// Whether a fault is the expected one.
fn is_expected(text: &[u8], fault: &Fault, expected: &Expected) -> bool {
    fault.code == Code::Rule(expected.2)
        && is_at(text, fault.span.start, expected.0, expected.1)
        && has_args(fault, expected.3)
}

// Whether one of some faults is the expected one.
fn has_expected(text: &[u8], faults: &[Fault], expected: &Expected) -> bool {
    for fault in faults {
        if is_expected(text, fault, expected) {
            return true;
        }
    }
    false
}

fn have_expected(text: &[u8], faults: &[Fault], expected: &[Expected]) -> bool {
    for row in expected {
        if !has_expected(text, faults, row) {
            return false;
        }
    }
    faults.len() == expected.len()
}

fn faults_of(alloc: Global, tree: &Tree) -> Result<Vec<Fault>, AllocError> {
    let mut faults = Vec::new(alloc);
    rules(alloc, tree, &mut faults)?;
    Ok(faults)
}

fn has_faults(alloc: Global, file: &File) -> Result<bool, AllocError> {
    let (kind, text, expected) = file;
    match tree(alloc, *kind, text)? {
        Some(tree) => Ok(have_expected(text, &faults_of(alloc, &tree)?, expected)),
        None => Ok(false),
    }
}

#[test]
fn faults_of_files(rt: HostRuntime) -> Result<(), AllocError> {
    for file in files() {
        assert!(rt; has_faults(rt.alloc(), file)?);
    }
    Ok(())
}

#[test]
fn worked_spans(_rt: HostRuntime) {
    spans();
}
