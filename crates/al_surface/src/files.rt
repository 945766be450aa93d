//! Files that several tests lint.

// Functions without a contract keep the proofs of tests from computing what a call does with a
// file.

pub(crate) const CALLER: &str = ".github/workflows/c.yml";

pub(crate) const ACTION: &str = "a/action.yml";

pub(crate) const LOOP: &str = ".github/workflows/r.yml";

/// A workflow whose step calls the action.
pub(crate) fn caller() -> &'static [u8] {
    b"on: push
jobs:
  a:
    runs-on: ubuntu-latest
    steps:
      - uses: ./a
"
}

/// An action with a required input.
pub(crate) fn action() -> &'static [u8] {
    b"name: A
description: d
inputs:
  who:
    required: true
runs:
  using: node20
  main: m.js
"
}

/// The report on both, without snippets.
pub(crate) fn missing_input() -> &'static [u8] {
    b".github/workflows/c.yml:6:15: required input \"who\" of \"A\" is missing [action]\n"
}

/// A workflow whose job calls the workflow itself.
pub(crate) fn calls_itself() -> &'static [u8] {
    b"on:
  workflow_call:
jobs:
  a:
    uses: ./.github/workflows/r.yml
"
}
