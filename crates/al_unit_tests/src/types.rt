//! The types of contexts at places of files.

ghost use Rattle.al_expr_typing.specs.Scopes.{IsShown};

use crate::files::{document, env_at, nothing_known};
use crate::shown::shown;
use al_check_contexts::{Answer, Answers, Env, File};
use al_check_places::places;
use al_expr_names::Context;
use al_expr_types::{Name, NameList};
use al_tree::FileKind;
use std::alloc::{AllocError, Global};

/// The text of a place, a context, and its type there.
type Expected = (&'static str, Context, &'static str);

const BUILD: &[u8] = b"on:
  workflow_call:
    inputs: {size: {type: number}, name: {default: '${{ in-call }}'}}
    outputs: {path: {value: '${{ in-output }}'}}
  workflow_dispatch: {inputs: {SIZE: {type: boolean}, extra: {type: choice}}}
env: {A: '${{ in-env }}'}
jobs:
  first:
    runs-on: '${{ in-first }}'
    outputs: {one: '${{ all-first }}', two: x}
    steps:
      - {run: '${{ step-none }}', id: a}
      - {run: '${{ step-a }}', id: A}
      - {uses: ./local, id: b, with: {x: '${{ in-with }}'}}
      - {run: '${{ step-last }}'}
  called:
    needs: [first, FIRST, other]
    uses: o/r/.github/workflows/w.yml@v1
    with: {x: '${{ in-called }}'}
  last:
    needs: called
    runs-on: '${{ in-last }}'
    strategy:
      matrix:
        os: [linux, 'mac']
        Version: [1, 2.5]
        mixed: [1, text, null]
        lone: ${{ fromJSON('[1]') }}
        pair: [{a: 1, b: x}, {a: true}]
        empty: []
        include:
          - {version: x, extra: [1, 2]}
          - {extra: [true], os: '${{ x }}'}
          - [not, one]
        exclude: [{os: linux}]
    steps: []
";

const OPEN: &[u8] = b"on: push
jobs:
  a: {runs-on: '${{ open-include }}', strategy: {matrix: {os: [x], include: '${{ x }}'}}}
  b: {runs-on: '${{ open-entry }}', strategy: {matrix: {os: [x], include: [{a: b}, '${{ x }}']}}}
  c: {runs-on: '${{ open-matrix }}', strategy: {matrix: '${{ x }}'}}
  d: {runs-on: '${{ no-matrix }}', steps: [{run: x}]}
  e: {runs-on: '${{ mapped-include }}', strategy: {matrix: {os: [x], include: {a: b}}}}
";

const ACTION: &[u8] = b"inputs: {a: {default: '${{ in-input }}'}, b: {type: number}}
outputs: {o: {value: '${{ in-output }}'}}
runs:
  using: composite
  steps:
    - {id: one, run: '${{ in-one }}', shell: sh}
    - {id: two, run: '${{ in-two }}', shell: sh}
";

const DOCKER: &[u8] = b"runs: {using: docker, image: '${{ in-docker }}'}
";

/// The type of a context, as text.
fn type_text(alloc: Global, env: &Env<'_>, context: Context) -> Result<String, AllocError>
    requires { IsShown env.now.types env.now.scope }
{
    let ty = env.scope.types.get(context);
    shown(alloc, &env.types, ty)
}

/// Whether the type of a context has this text.
fn is_shown(alloc: Global, env: &Env<'_>, context: Context, text: &str) -> Result<bool, AllocError>
    requires { IsShown env.now.types env.now.scope }
{
    Ok(type_text(alloc, env, context)?.as_str() == text)
}

fn has_type(alloc: Global, file: File<'_>, expected: &Expected) -> Result<bool, AllocError> {
    let (at, context, ty) = expected;
    match env_at(alloc, file, at)? {
        Some(env) => is_shown(alloc, &env, *context, ty),
        None => Ok(false),
    }
}

fn have_types(alloc: Global, file: File<'_>, expected: &[Expected]) -> Result<bool, AllocError> {
    for row in expected {
        if !has_type(alloc, file, row)? {
            return Ok(false);
        }
    }
    Ok(true)
}

/// Whether contexts have these types in a file with these answers of calls.
fn has_types(
    alloc: Global,
    kind: FileKind,
    text: &[u8],
    known: Answers<'_>,
    expected: &[Expected],
) -> Result<bool, AllocError> {
    match document(alloc, text)? {
        Some(doc) => {
            let root = &doc.root;
            have_types(alloc, File { kind, root, known }, expected)
        }
        None => Ok(false),
    }
}

const INPUTS: &str = "{size: string, name: string, extra: string}";

const ALL_JOBS: &str =
    "{first: {result: string, outputs: {one: string, two: string}}, called: {result: string, outputs: {*: any}}, \
     last: {result: string, outputs: {}}}";

static OF_A_WORKFLOW: [Expected; 19] = [
    ("${{ in-env }}", Context::Inputs, INPUTS),
    ("${{ in-env }}", Context::Needs, "any"),
    ("${{ in-env }}", Context::Jobs, "any"),
    ("${{ in-env }}", Context::Steps, "any"),
    ("${{ in-env }}", Context::Matrix, "any"),
    ("${{ in-env }}", Context::Strategy, "any"),
    ("${{ in-env }}", Context::Secrets, "{*: string}"),
    ("${{ in-env }}", Context::Vars, "{*: string}"),
    ("${{ in-env }}", Context::Env, "{*: string}"),
    ("${{ in-env }}", Context::Job, "{status: string, *: any}"),
    (
        "${{ in-env }}",
        Context::Runner,
        "{name: string, os: string, arch: string, temp: string, tool_cache: string, debug: string, environment: string, *: any}",
    ),
    ("${{ in-output }}", Context::Jobs, ALL_JOBS),
    ("${{ in-output }}", Context::Needs, "any"),
    ("${{ in-first }}", Context::Needs, "{}"),
    (
        "${{ in-first }}",
        Context::Strategy,
        "{fail-fast: bool, job-index: number, job-total: number, max-parallel: number}",
    ),
    ("${{ in-first }}", Context::Matrix, "{}"),
    (
        "${{ in-called }}",
        Context::Needs,
        "{first: {result: string, outputs: {one: string, two: string}}}",
    ),
    (
        "${{ in-last }}",
        Context::Needs,
        "{called: {result: string, outputs: {*: any}}}",
    ),
    (
        "${{ in-last }}",
        Context::Matrix,
        "{os: any, Version: string, mixed: any, lone: any, pair: {a: string, b: string}, empty: any, extra: [string]}",
    ),
];

fn expected_of_a_workflow() -> &'static [Expected] {
    &OF_A_WORKFLOW
}

#[test]
fn of_a_workflow(rt: HostRuntime) -> Result<(), AllocError> {
    let expected = expected_of_a_workflow();
    assert!(rt;
        has_types(
            rt.alloc(),
            FileKind::Workflow,
            BUILD,
            nothing_known(),
            expected
        )?
    );
    Ok(())
}

const STEP_A: &str = "{a: {conclusion: string, outcome: string, outputs: {*: string}}}";

const STEPS_A_B: &str = "{a: {conclusion: string, outcome: string, outputs: {*: string}}, \
     b: {conclusion: string, outcome: string, outputs: {path: string}}}";

static OF_STEPS: [Expected; 9] = [
    ("${{ in-first }}", Context::Steps, "{}"),
    ("${{ step-none }}", Context::Steps, "{}"),
    ("${{ step-a }}", Context::Steps, STEP_A),
    ("${{ in-with }}", Context::Steps, STEP_A),
    ("${{ step-last }}", Context::Steps, STEPS_A_B),
    ("${{ all-first }}", Context::Steps, STEPS_A_B),
    ("${{ step-a }}", Context::Steps, STEP_A),
    ("${{ in-called }}", Context::Steps, "{}"),
    (
        "${{ in-last }}",
        Context::Needs,
        "{called: {result: string, outputs: {made: string}}}",
    ),
];

fn expected_of_steps() -> &'static [Expected] {
    &OF_STEPS
}

/// A list of these names.
fn name_list(alloc: Global, names: &[&[u8]]) -> Result<NameList, AllocError> {
    let mut kept = Vec::new(alloc);
    for name in names {
        kept.push(Name::new(alloc, name)?)?;
    }
    NameList::new(kept)
}

fn has_types_of_steps(alloc: Global, expected: &[Expected]) -> Result<bool, AllocError> {
    let path = name_list(alloc, &[b"path"])?;
    let made = name_list(alloc, &[b"made"])?;
    let lists = [&path, &made];
    let answers = [
        Answer {
            job: Some(b"first"),
            step: Some(2),
            names: Some(0),
        },
        Answer {
            job: Some(b"called"),
            step: None,
            names: Some(1),
        },
    ];
    let known = Answers {
        answers: &answers,
        lists: &lists,
    };
    has_types(alloc, FileKind::Workflow, BUILD, known, expected)
}

#[test]
fn of_steps(rt: HostRuntime) -> Result<(), AllocError> {
    assert!(rt; has_types_of_steps(rt.alloc(), expected_of_steps())?);
    Ok(())
}

const SHARED: &[u8] = b"on: push
jobs:
  first: {uses: o/r/.github/workflows/w.yml@v1}
  second: {uses: o/r/.github/workflows/w.yml@v1}
  third: {uses: o/r/.github/workflows/x.yml@v1}
  own: {runs-on: x, outputs: {path: x}, steps: []}
  last:
    needs: [first, own, second, third, SECOND]
    runs-on: '${{ in-last }}'
    steps:
      - {id: a, uses: o/r@v1}
      - {id: b, uses: o/r@v1}
      - {id: c, uses: o/r@v2}
      - {id: B, uses: o/r@v3}
      - {id: d, uses: o/r@v3}
      - {run: '${{ step-last }}'}
";

const STEPS_OF_SHARED: &str = "{a: {conclusion: string, outcome: string, outputs: {path: string}}, \
     b: {conclusion: string, outcome: string, outputs: {path: string}}, \
     c: {conclusion: string, outcome: string, outputs: {*: string}}, \
     d: {conclusion: string, outcome: string, outputs: {made: string}}}";

const NEEDS_OF_SHARED: &str =
    "{first: {result: string, outputs: {made: string}}, own: {result: string, outputs: {path: string}}, \
     second: {result: string, outputs: {made: string}}, third: {result: string, outputs: {*: any}}}";

static OF_SHARED: [Expected; 2] = [
    ("${{ step-last }}", Context::Steps, STEPS_OF_SHARED),
    ("${{ in-last }}", Context::Needs, NEEDS_OF_SHARED),
];

fn expected_of_shared() -> &'static [Expected] {
    &OF_SHARED
}

/// The answer of a step of the job `last`, or of another job.
fn answer(job: &'static [u8], step: Option<usize>, names: Option<usize>) -> Answer<'static> {
    Answer {
        job: Some(job),
        step,
        names,
    }
}

fn has_types_of_shared(alloc: Global, expected: &[Expected]) -> Result<bool, AllocError> {
    let path = name_list(alloc, &[b"path"])?;
    let made = name_list(alloc, &[b"made"])?;
    let lists = [&path, &made];
    let answers = [
        answer(b"first", None, Some(1)),
        answer(b"second", None, Some(1)),
        answer(b"third", None, Some(2)),
        answer(b"last", Some(0), Some(0)),
        answer(b"last", Some(1), Some(0)),
        answer(b"last", Some(2), None),
        answer(b"last", Some(3), Some(1)),
        answer(b"last", Some(4), Some(1)),
    ];
    let known = Answers {
        answers: &answers,
        lists: &lists,
    };
    has_types(alloc, FileKind::Workflow, SHARED, known, expected)
}

/// Steps and jobs, several of which have the same outputs, and one has unknown outputs.
#[test]
fn of_shared_lists(rt: HostRuntime) -> Result<(), AllocError> {
    assert!(rt; has_types_of_shared(rt.alloc(), expected_of_shared())?);
    Ok(())
}

static OF_OPEN_MATRICES: [Expected; 5] = [
    ("${{ open-include }}", Context::Matrix, "{*: any}"),
    ("${{ open-entry }}", Context::Matrix, "{*: any}"),
    ("${{ open-matrix }}", Context::Matrix, "{*: any}"),
    ("${{ no-matrix }}", Context::Matrix, "{}"),
    ("${{ mapped-include }}", Context::Matrix, "{os: string}"),
];

fn expected_of_open_matrices() -> &'static [Expected] {
    &OF_OPEN_MATRICES
}

#[test]
fn of_open_matrices(rt: HostRuntime) -> Result<(), AllocError> {
    let expected = expected_of_open_matrices();
    assert!(rt;
        has_types(
            rt.alloc(),
            FileKind::Workflow,
            OPEN,
            nothing_known(),
            expected
        )?
    );
    Ok(())
}

const STEP_ONE: &str = "{one: {conclusion: string, outcome: string, outputs: {*: string}}}";

const STEPS_ONE_TWO: &str = "{one: {conclusion: string, outcome: string, outputs: {*: string}}, \
     two: {conclusion: string, outcome: string, outputs: {*: string}}}";

static OF_AN_ACTION: [Expected; 7] = [
    ("${{ in-input }}", Context::Inputs, "{a: string, b: string}"),
    ("${{ in-input }}", Context::Steps, "{}"),
    ("${{ in-output }}", Context::Steps, STEPS_ONE_TWO),
    ("${{ in-one }}", Context::Steps, "{}"),
    ("${{ in-two }}", Context::Steps, STEP_ONE),
    ("${{ in-two }}", Context::Needs, "any"),
    ("${{ in-two }}", Context::Matrix, "any"),
];

static OF_A_CONTAINER: [Expected; 1] = [("${{ in-docker }}", Context::Steps, "any")];

fn expected_of_an_action() -> &'static [Expected] {
    &OF_AN_ACTION
}

fn expected_of_a_container() -> &'static [Expected] {
    &OF_A_CONTAINER
}

#[test]
fn of_an_action(rt: HostRuntime) -> Result<(), AllocError> {
    let expected = expected_of_an_action();
    assert!(rt;
        has_types(
            rt.alloc(),
            FileKind::Action,
            ACTION,
            nothing_known(),
            expected
        )?
    );
    Ok(())
}

#[test]
fn of_a_container(rt: HostRuntime) -> Result<(), AllocError> {
    let expected = expected_of_a_container();
    assert!(rt;
        has_types(
            rt.alloc(),
            FileKind::Action,
            DOCKER,
            nothing_known(),
            expected
        )?
    );
    Ok(())
}

fn is_github(text: &str) -> bool {
    text.starts_with("{event: any, ref_protected: bool, action: string,")
        && text.ends_with(" workspace: string}")
}

fn shows_github(alloc: Global, env: &Env<'_>) -> Result<bool, AllocError>
    requires { IsShown env.now.types env.now.scope }
{
    Ok(is_github(type_text(alloc, env, Context::Github)?.as_str()))
}

fn has_github(alloc: Global, file: File<'_>) -> Result<bool, AllocError> {
    match env_at(alloc, file, "${{ in-docker }}")? {
        Some(env) => shows_github(alloc, &env),
        None => Ok(false),
    }
}

fn count_of_places(alloc: Global, file: File<'_>) -> Result<usize, AllocError> {
    Ok(places(alloc, file.kind, file.root)?.len())
}

fn is_one_with_github(alloc: Global, file: File<'_>) -> Result<bool, AllocError> {
    Ok(has_github(alloc, file)? && count_of_places(alloc, file)? == 1)
}

fn knows_github(alloc: Global, text: &[u8]) -> Result<bool, AllocError> {
    match document(alloc, text)? {
        Some(doc) => {
            let file = File {
                kind: FileKind::Action,
                root: &doc.root,
                known: nothing_known(),
            };
            is_one_with_github(alloc, file)
        }
        None => Ok(false),
    }
}

#[test]
fn of_github(rt: HostRuntime) -> Result<(), AllocError> {
    assert!(rt; knows_github(rt.alloc(), DOCKER)?);
    Ok(())
}
