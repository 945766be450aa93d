//! Sessions with the small linter, as tests make them and compare them step by step.
//!
//! Functions without a contract return the rows, which are statics: so no proof of a test computes
//! what a session does with them. No test holds a session, which would be dropped at each exit and
//! make the proof ten times as long.

use crate::linter::Toy;
use al_base::{Output, Path, Stop};
use al_session::{Change, Refused, Session, apply_change};
use al_text::Format;
use std::alloc::{AllocError, Global};

// An edit, the files it rechecks, and the report afterwards.
pub(crate) type Step = (Change<'static>, &'static [&'static str], &'static [u8]);

pub(crate) fn open(alloc: Global) -> Session<Toy> {
    Session::open(alloc, Toy::new())
}

fn write_report(session: &mut Session<Toy>, bytes: &mut Vec<u8>) -> Result<(), Stop> {
    session.report(&mut Output::new(bytes), Format::Oneline)
}

pub(crate) fn report(alloc: Global, session: &mut Session<Toy>) -> Result<Vec<u8>, Stop> {
    let mut bytes = Vec::new(alloc);
    match write_report(session, &mut bytes) {
        Ok(()) => Ok(bytes),
        Err(stop) => Err(stop),
    }
}

pub(crate) fn reports(
    alloc: Global,
    session: &mut Session<Toy>,
    wanted: &[u8],
) -> Result<bool, Stop> {
    Ok(report(alloc, session)?.as_slice() == wanted)
}

pub(crate) fn status(session: &mut Session<Toy>) -> Result<u8, AllocError> {
    session.status()
}

fn are_paths(paths: &[Path], wanted: &[&str]) -> bool {
    paths.len() == wanted.len()
        && paths
            .iter()
            .zip(wanted)
            .all(|(path, text)| path.as_str() == *text)
}

pub(crate) fn misses(session: &Session<Toy>, wanted: &[&str]) -> Result<bool, AllocError> {
    Ok(are_paths(&session.missing()?, wanted))
}

pub(crate) fn refuses(session: &mut Session<Toy>, edit: &Change, wanted: Refused) -> bool {
    match apply_change(session, edit) {
        Ok(_) => false,
        Err(refused) => refused == wanted,
    }
}

pub(crate) fn refuses_put(
    session: &mut Session<Toy>,
    path: &str,
    bytes: &[u8],
    wanted: Refused,
) -> bool {
    refuses(session, &Change::Put(path, bytes), wanted)
}

// Whether an edit was accepted and rechecked exactly these files, each with one check.
fn rechecks(session: &mut Session<Toy>, edit: &Change, wanted: &[&str]) -> bool {
    let checks = session.meter();
    match apply_change(session, edit) {
        Err(_) => false,
        Ok(edit) => {
            session.meter() == checks.saturating_add(wanted.len() as u64)
                && are_paths(edit.rechecked.as_slice(), wanted)
        }
    }
}

pub(crate) fn follows(
    alloc: Global,
    session: &mut Session<Toy>,
    steps: &[Step],
) -> Result<bool, Stop> {
    for (edit, wanted, text) in steps {
        if !rechecks(session, edit, wanted) || !reports(alloc, session, text)? {
            return Ok(false);
        }
    }
    Ok(true)
}

fn follows_both(
    alloc: Global,
    session: &mut Session<Toy>,
    first: &[Step],
    then: &[Step],
) -> Result<bool, Stop> {
    Ok(follows(alloc, session, first)? && follows(alloc, session, then)?)
}

pub(crate) fn has_status(session: &mut Session<Toy>, wanted: u8) -> Result<bool, Stop> {
    Ok(status(session)? == wanted)
}

// Whether a session follows steps, which are in two lists, and then has this status.
fn ends_with(
    alloc: Global,
    session: &mut Session<Toy>,
    steps: (&[Step], &[Step]),
    wanted: u8,
) -> Result<bool, Stop> {
    let (first, then) = steps;
    Ok(follows_both(alloc, session, first, then)? && has_status(session, wanted)?)
}

// The same for a new session.
pub(crate) fn ends(alloc: Global, first: &[Step], then: &[Step], wanted: u8) -> Result<bool, Stop> {
    ends_with(alloc, &mut open(alloc), (first, then), wanted)
}

pub(crate) fn puts(session: &mut Session<Toy>, path: &str, bytes: &[u8]) -> bool {
    apply_change(session, &Change::Put(path, bytes)).is_ok()
}
