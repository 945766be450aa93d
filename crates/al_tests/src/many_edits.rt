//! After each of many edits, a session's report is that of its files linted from scratch.

use al_base::{Output, Stop};
use al_check::Actions;
use al_cli::{Fatal, lint_all};
use al_session::{Change, Refused, Session, apply_change};
use al_text::Format;
use std::alloc::{AllocError, Global};

// In order of path.
static PATHS: [&str; 7] = [
    ".github/workflows/a.yml",
    ".github/workflows/b.yml",
    ".github/workflows/c.yml",
    "action.yml",
    "x/action.yaml",
    "x/action.yml",
    "y/action.yml",
];

// Files that call one another, and files with faults.
static FILES: [&[u8]; 12] = [
    b"on: push\njobs:\n  a: {runs-on: u, steps: [{uses: ./x}, {uses: ./y}]}\n",
    b"on: push\njobs:\n  a: {uses: ./.github/workflows/b.yml}\n  b: {uses: ./.github/workflows/c.yml, with: {v: 3}}\n",
    b"on: {workflow_call: {inputs: {v: {type: boolean}}}}\njobs:\n  a: {uses: ./.github/workflows/c.yml}\n",
    b"on: {workflow_call: {inputs: {v: {type: string, required: true}}}}\njobs:\n  a: {uses: ./.github/workflows/b.yml}\n",
    b"on: workflow_call\njobs:\n  a: {runs-on: u, steps: [{uses: ./, id: s}, {run: '${{ steps.s.outputs.o }}'}]}\n",
    b"name: A\ndescription: d\ninputs: {v: {required: true}}\nruns: {using: node20, main: m}\n",
    b"name: A\ndescription: e\ninputs: {v: {required: true}}\nruns: {using: node20, main: m}\n",
    b"name: B\ndescription: d\noutputs: {o: {value: x}}\nruns: {using: composite, steps: [{uses: ./x}]}\n",
    b"name: B\ndescription: d\noutputs: {p: {value: x}}\nruns: {using: composite, steps: [{uses: ./x, with: {v: 1}}]}\n",
    b"name: C\ndescription: d\nruns: {using: composite, steps: [{uses: ./y}]}\n",
    b"a: 'b\n",
    b"",
];

// Functions without a contract keep the proofs of tests from computing what a session does with a
// file.

fn paths() -> &'static [&'static str] {
    &PATHS
}

fn files() -> &'static [&'static [u8]] {
    &FILES
}

// The bytes at each path.
type Held = Vec<Option<&'static [u8]>>;

// The next number of a linear congruential generator.
fn next_number(number: u32) -> u32 {
    number.wrapping_mul(1_664_525).wrapping_add(1_013_904_223)
}

// The edit that a number stands for: it puts a file at a path, or deletes the one there.
fn edit_by(number: u32) -> (usize, Option<&'static [u8]>) {
    let path = (number >> 16) as usize % 7;
    let file = (number >> 20) as usize % 15;
    match files().get(file) {
        Some(bytes) => (path, Some(*bytes)),
        None => (path, None),
    }
}

// Makes an edit, which is refused if it deletes a file that isn't there.
fn is_made(
    session: &mut Session<Actions>,
    path: &str,
    old: Option<&'static [u8]>,
    new: Option<&'static [u8]>,
) -> bool {
    let change = match new {
        Some(bytes) => Change::Put(path, bytes),
        None => Change::Delete(path),
    };
    match apply_change(session, &change) {
        Ok(_) => old.is_some() || new.is_some(),
        Err(refused) => refused == Refused::NoSuchFile && old.is_none() && new.is_none(),
    }
}

fn report(alloc: Global, session: &mut Session<Actions>) -> Result<(u8, Vec<u8>), Stop> {
    let mut bytes = Vec::new(alloc);
    session.report(&mut Output::new(&mut bytes), Format::Snippet)?;
    Ok((session.status()?, bytes))
}

// The files that are present, in order of path.
fn listed(
    alloc: Global,
    held: &[Option<&'static [u8]>],
) -> Result<Vec<(&'static str, &'static [u8])>, AllocError> {
    let mut files = Vec::new(alloc);
    for (path, bytes) in paths().iter().zip(held) {
        if let Some(bytes) = bytes {
            files.push((*path, *bytes))?;
        }
    }
    Ok(files)
}

fn from_nothing(alloc: Global, files: &[(&str, &[u8])]) -> Result<(u8, Vec<u8>), Fatal> {
    let mut bytes = Vec::new(alloc);
    let status = lint_all(alloc, files, &mut Output::new(&mut bytes), Format::Snippet)?;
    Ok((status, bytes))
}

// Whether the report is that of the files that are present, linted from scratch.
fn is_of(
    alloc: Global,
    report: &(u8, Vec<u8>),
    held: &[Option<&'static [u8]>],
) -> Result<bool, AllocError> {
    let files = listed(alloc, held)?;
    match from_nothing(alloc, &files) {
        Ok((status, bytes)) => Ok(status == report.0 && bytes.as_slice() == report.1.as_slice()),
        Err(_) => Ok(false),
    }
}

// How many reports there were, how many had faults, and how many had a call on a call cycle.
#[derive(Clone, Copy, PartialEq, Eq)]
struct Seen {
    reports: u32,
    with_faults: u32,
    with_cycles: u32,
}

fn is_with_cycle(report: &[u8]) -> bool {
    report
        .windows(10)
        .any(|window| window == b"leads back".as_slice())
}

fn see(seen: &mut Seen, report: &(u8, Vec<u8>)) {
    seen.reports = seen.reports.saturating_add(1);
    if report.0 == 1 {
        seen.with_faults = seen.with_faults.saturating_add(1);
    }
    if is_with_cycle(&report.1) {
        seen.with_cycles = seen.with_cycles.saturating_add(1);
    }
}

fn none_held(alloc: Global) -> Result<Held, AllocError> {
    let mut held = Vec::new(alloc);
    for _ in paths() {
        held.push(None)?;
    }
    Ok(held)
}

// Makes one edit; returns whether the report after it is that of the files.
fn follows_one(
    alloc: Global,
    session: &mut Session<Actions>,
    held: &mut Held,
    number: u32,
    seen: &mut Seen,
) -> Result<bool, Stop> {
    let (place, new) = edit_by(number);
    let (Some(path), Some(bytes)) = (paths().get(place), held.get_mut(place)) else {
        return Ok(false);
    };
    let old = *bytes;
    *bytes = new;
    if !is_made(session, path, old, new) {
        return Ok(false);
    }
    let report = report(alloc, session)?;
    see(seen, &report);
    Ok(is_of(alloc, &report, held)?)
}

// Makes edits; returns the counts of their reports, or `None` if a report is wrong.
fn follows(
    alloc: Global,
    session: &mut Session<Actions>,
    edits: u32,
) -> Result<Option<Seen>, Stop> {
    let mut held = none_held(alloc)?;
    let mut seen = Seen {
        reports: 0,
        with_faults: 0,
        with_cycles: 0,
    };
    let mut number = 1;
    for _ in 0..edits {
        number = next_number(number);
        if !follows_one(alloc, session, &mut held, number, &mut seen)? {
            return Ok(None);
        }
    }
    Ok(Some(seen))
}

fn follows_anew(alloc: Global, edits: u32) -> Result<Option<Seen>, Stop> {
    let mut session = Session::open(alloc, Actions::new());
    follows(alloc, &mut session, edits)
}

#[test]
fn two_hundred_edits(rt: HostRuntime) -> Result<(), Stop> {
    match follows_anew(rt.alloc(), 200)? {
        Some(seen) => {
            assert!(rt; seen.reports == 200 && seen.with_faults >= 100 && seen.with_cycles >= 20);
        }
        None => panic!(rt; "a wrong report"),
    }
    Ok(())
}
