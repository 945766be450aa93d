//! Tests of edits that are refused, of many edits, and of a full folder.

use crate::linter::Toy;
use crate::steps::{has_status, open, puts, refuses, refuses_put, report, reports, status};
use al_base::Stop;
use al_session::{Change, Refused, Session, apply_change, apply_changes};
use std::alloc::{AllocError, Global};

fn bytes_of(alloc: Global, length: usize) -> Result<Vec<u8>, AllocError> {
    vec![in alloc; b'x'; length]
}

fn refuses_all(session: &mut Session<Toy>, large: &[u8]) -> bool {
    refuses_put(session, "b.toy", large, Refused::TooLarge)
        && refuses_put(session, "../x.yml", b"", Refused::BadPath)
        && refuses_put(session, "x.yml", large, Refused::NotAccepted)
        && refuses(session, &Change::Delete("z.toy"), Refused::NoSuchFile)
}

fn stays_empty(session: &mut Session<Toy>, large: &[u8]) -> Result<bool, Stop> {
    Ok(refuses_all(session, large) && has_status(session, 0)?)
}

fn refuses_all_anew(alloc: Global, large: &[u8]) -> Result<bool, Stop> {
    stays_empty(&mut open(alloc), large)
}

#[test]
fn edits_are_refused(rt: HostRuntime) -> Result<(), Stop> {
    let large = bytes_of(rt.alloc(), 1_048_577)?;
    assert!(rt; refuses_all_anew(rt.alloc(), &large)?);
    Ok(())
}

fn puts_numbered(alloc: Global, session: &mut Session<Toy>) -> Result<bool, AllocError> {
    for number in 0..4_096 {
        let path = format!(in alloc; "{number}.toy")?;
        if !puts(session, &path, b"") {
            return Ok(false);
        }
    }
    Ok(true)
}

fn fills(alloc: Global, session: &mut Session<Toy>) -> Result<bool, AllocError> {
    Ok(
        puts_numbered(alloc, session)?
            && refuses_put(session, "new.toy", b"", Refused::Full)
            && puts(session, "4095.toy", b"have x"),
    )
}

fn fills_anew(alloc: Global) -> Result<bool, AllocError> {
    fills(alloc, &mut open(alloc))
}

#[test]
fn a_folder_is_full(rt: HostRuntime) -> Result<(), AllocError> {
    assert!(rt; fills_anew(rt.alloc())?);
    Ok(())
}

// How many of the changes are accepted.
fn count_accepted(
    alloc: Global,
    session: &mut Session<Toy>,
    changes: &[Change],
) -> Result<usize, AllocError> {
    let replies = apply_changes(alloc, session, changes)?;
    Ok(replies.iter().filter(|reply| reply.is_ok()).count())
}

static CHANGES: [Change; 3] = [
    Change::Put("a.toy", b"have x"),
    Change::Delete("b.toy"),
    Change::Delete("a.toy"),
];

fn changes() -> &'static [Change<'static>] {
    &CHANGES
}

fn has_file(session: &Session<Toy>, path: &str) -> bool {
    session.bytes(path).is_some()
}

// Whether two of these changes are accepted, which leave no file.
fn applies_two(
    alloc: Global,
    session: &mut Session<Toy>,
    changes: &[Change],
) -> Result<bool, AllocError> {
    Ok(count_accepted(alloc, session, changes)? == 2 && !has_file(session, "a.toy"))
}

fn applies(alloc: Global, changes: &[Change]) -> Result<bool, AllocError> {
    applies_two(alloc, &mut open(alloc), changes)
}

#[test]
fn changes_are_applied_in_order(rt: HostRuntime) -> Result<(), AllocError> {
    assert!(rt; applies(rt.alloc(), changes())?);
    Ok(())
}

static NAMES: [&str; 7] = [
    "a.toy", "b.toy", "c.toy", "d/a.toy", "d/b.toy", "e.toy", "r.toy",
];

static TEXTS: [&[u8]; 7] = [
    b"",
    b"have x",
    b"have x\nneed a.toy b.toy",
    b"need a.toy\nneed e.toy d/a.toy",
    b"need c.toy b.toy\nhave y",
    b"need d/b.toy\nneed d/b.toy\nneed e.toy",
    b"need a.toy d/b.toy\nhave x",
];

fn names() -> &'static [&'static str] {
    &NAMES
}

fn name_at(number: u32) -> &'static str {
    NAMES[(number % 7) as usize]
}

fn text_at(number: u32) -> &'static [u8] {
    TEXTS[(number % 7) as usize]
}

// Makes the edit that a number stands for, and returns whether it was accepted.
fn edit(session: &mut Session<Toy>, number: u32) -> bool {
    let name = name_at(number >> 8);
    if (number >> 24) % 4 == 0 {
        apply_change(session, &Change::Delete(name)).is_ok()
    } else {
        puts(session, name, text_at(number >> 16))
    }
}

// A new session with the same files.
fn anew(alloc: Global, session: &Session<Toy>) -> Session<Toy> {
    let mut anew = open(alloc);
    for name in names() {
        if let Some(bytes) = session.bytes(name) {
            let _is_put = puts(&mut anew, name, bytes);
        }
    }
    anew
}

fn misses_the_same(one: &Session<Toy>, other: &Session<Toy>) -> Result<bool, AllocError> {
    let missing = one.missing()?;
    let wanted = other.missing()?;
    Ok(
        missing.len() == wanted.len()
            && missing
                .iter()
                .zip(&wanted)
                .all(|(one, other)| one.as_str() == other.as_str()),
    )
}

// Whether both have the same report, status and missing paths.
fn are_alike(
    alloc: Global,
    one: &mut Session<Toy>,
    other: &mut Session<Toy>,
) -> Result<bool, Stop> {
    let wanted = report(alloc, other)?;
    Ok(
        reports(alloc, one, &wanted)?
            && status(one)? == status(other)?
            && misses_the_same(one, other)?,
    )
}

fn is_as_anew(alloc: Global, session: &mut Session<Toy>) -> Result<bool, Stop> {
    let mut other = anew(alloc, session);
    are_alike(alloc, session, &mut other)
}

// Whether, after each of this many edits, a session equals a new one with the same files.
fn stays_as_anew(alloc: Global, session: &mut Session<Toy>, edits: u32) -> Result<bool, Stop> {
    let mut state: u32 = 7;
    for _ in 0..edits {
        state = state.wrapping_mul(1_664_525).wrapping_add(1_013_904_223);
        let _is_accepted = edit(session, state);
        if !is_as_anew(alloc, session)? {
            return Ok(false);
        }
    }
    Ok(true)
}

fn starts_and_stays_as_anew(alloc: Global, edits: u32) -> Result<bool, Stop> {
    stays_as_anew(alloc, &mut open(alloc), edits)
}

#[test]
fn edits_are_as_from_scratch(rt: HostRuntime) -> Result<(), Stop> {
    assert!(rt; starts_and_stays_as_anew(rt.alloc(), 200)?);
    Ok(())
}
