//! Reports of folders whose files call one another, with ample memory.

use al_base::Output;
use al_cli::lint_all;
use al_text::Format;
use std::alloc::Global;

/// The path and the bytes of a file.
type File = (&'static str, &'static [u8]);

/// The files of a folder, and its report.
type Row = (&'static [File], &'static [u8]);

const STEP: File = (
    ".github/workflows/c.yml",
    b"on: push
jobs:
  a:
    runs-on: ubuntu-latest
    steps:
      - uses: ./a
",
);

const STEP_CALLS_A_WORKFLOW: File = (
    ".github/workflows/c.yml",
    b"on: push
jobs:
  a:
    runs-on: ubuntu-latest
    steps:
      - uses: ./.github/workflows
",
);

const JOB: File = (
    ".github/workflows/r.yml",
    b"on: push
jobs:
  a:
    uses: ./.github/workflows/d.yml
",
);

const GIVING: File = (
    ".github/workflows/r.yml",
    b"on: push
jobs:
  a:
    uses: ./.github/workflows/e.yml
    with:
      x: 3
      y: 1
",
);

const ITSELF: File = (
    ".github/workflows/r.yml",
    b"on:
  workflow_call:
jobs:
  a:
    uses: ./.github/workflows/r.yml
",
);

const ITSELF_WITHOUT_INPUT: File = (
    ".github/workflows/r.yml",
    b"on:
  workflow_call:
    inputs:
      x:
        type: string
        required: true
jobs:
  a:
    uses: ./.github/workflows/r.yml
",
);

const ACTION: File = (
    "a/action.yml",
    b"name: A
description: d
inputs:
  who:
    required: true
runs:
  using: node20
  main: m.js
",
);

const ACTION_WITHOUT_INPUTS: File = (
    "a/action.yaml",
    b"name: A
description: d
runs:
  using: node20
  main: m.js
",
);

const WORKFLOW_AT_THE_PATH_OF_AN_ACTION: File = (
    ".github/workflows/action.yml",
    b"on: workflow_call
jobs: {}
",
);

const NOT_CALLABLE: File = (
    ".github/workflows/d.yml",
    b"on: push
jobs: {}
",
);

const NO_MAPPING: File = (
    ".github/workflows/d.yml",
    b"- no
- mapping
",
);

const SECRETS: File = (
    ".github/workflows/d.yml",
    b"on:
  workflow_call:
    secrets:
      token:
        required: TRUE
jobs: {}
",
);

const BOOLEAN: File = (
    ".github/workflows/e.yml",
    b"on:
  workflow_call:
    inputs:
      x:
        type: boolean
jobs: {}
",
);

static ROWS: [Row; 13] = [
    (&[STEP], b""),
    (
        &[STEP, ACTION],
        b".github/workflows/c.yml:6:15: required input \"who\" of \"A\" is missing [action]
",
    ),
    // A step calls the first of its candidates that is in the folder.
    (
        &[STEP, ACTION, ACTION_WITHOUT_INPUTS],
        b".github/workflows/c.yml:6:15: required input \"who\" of \"A\" is missing [action]
",
    ),
    (&[STEP, ACTION_WITHOUT_INPUTS], b""),
    (
        &[STEP_CALLS_A_WORKFLOW, WORKFLOW_AT_THE_PATH_OF_AN_ACTION],
        b".github/workflows/c.yml:6:15: \"./.github/workflows\" cannot be called here [action]
",
    ),
    (
        &[JOB],
        b".github/workflows/r.yml:4:11: workflow \"./.github/workflows/d.yml\" is not in the folder [workflow-call]
",
    ),
    (
        &[JOB, NOT_CALLABLE],
        b".github/workflows/r.yml:4:11: \"./.github/workflows/d.yml\" cannot be called here [workflow-call]
",
    ),
    // A call of a file that can't be read has no fault.
    (
        &[JOB, NO_MAPPING],
        b".github/workflows/d.yml:1:1: wrong kind of value for \"file\" [syntax-check]
",
    ),
    (
        &[JOB, SECRETS],
        b".github/workflows/r.yml:4:11: required secret \"token\" of \"./.github/workflows/d.yml\" is missing [workflow-call]
",
    ),
    (
        &[GIVING, BOOLEAN],
        b".github/workflows/r.yml:6:10: input \"x\" must be boolean [workflow-call]
.github/workflows/r.yml:7:7: input \"y\" is not defined in \"./.github/workflows/e.yml\" [workflow-call]
",
    ),
    (
        &[ITSELF],
        b".github/workflows/r.yml:5:11: call of \"./.github/workflows/r.yml\" leads back to this file [workflow-call]
",
    ),
    (
        &[ITSELF_WITHOUT_INPUT],
        b".github/workflows/r.yml:9:11: required input \"x\" of \"./.github/workflows/r.yml\" is missing [workflow-call]
.github/workflows/r.yml:9:11: call of \"./.github/workflows/r.yml\" leads back to this file [workflow-call]
",
    ),
    (&[ACTION, ACTION_WITHOUT_INPUTS], b""),
];

// Functions without a contract return the rows, which are statics: so no proof of a test computes
// the faults of their files.

fn rows() -> &'static [Row] {
    &ROWS
}

// Whether the report of a folder is this one, and its status is 1 exactly if the report isn't
// empty.
fn is_reported(alloc: Global, files: &[File], report: &[u8]) -> bool {
    let mut written = Vec::new(alloc);
    let status = lint_all(
        alloc,
        files,
        &mut Output::new(&mut written),
        Format::Oneline,
    );
    let wanted = if report.is_empty() { 0 } else { 1 };
    matches!(status, Ok(given) if given == wanted) && written.as_slice() == report
}

#[test]
fn faults_of_calls(rt: HostRuntime) {
    for (files, report) in rows() {
        assert!(rt; is_reported(rt.alloc(), files, report));
    }
}
