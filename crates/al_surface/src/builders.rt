//! `al_session`: a session from many files at once, and lists of edits.

use crate::files::{ACTION, CALLER, action, caller, missing_input};
use al_check::Actions;
use al_cli::write_report;
use al_session::{Change, Seed, Session, SessionBuilder, Target, apply_change, apply_changes};
use al_text::{Format, Output, Stop};
use std::alloc::{AllocError, Global};

fn put(
    alloc: Global,
    builder: &mut SessionBuilder<Actions>,
    path: &str,
    file: &[u8],
) -> Result<bool, AllocError> {
    let bytes = Vec::from_slice(alloc, file)?;
    Ok(builder.put(path, bytes).is_ok())
}

fn put_both(alloc: Global, builder: &mut SessionBuilder<Actions>) -> Result<bool, AllocError> {
    Ok(put(alloc, builder, CALLER, caller())? && put(alloc, builder, ACTION, action())?)
}

fn reports(alloc: Global, session: &mut Session<Actions>, wanted: &[u8]) -> Result<bool, Stop> {
    let mut output = Vec::new(alloc);
    let status = write_report(session, &mut Output::new(&mut output), Format::Oneline)?;
    Ok(status == 1 && output.as_slice() == wanted)
}

/// The session of two files that are put at once.
fn session_of_both(alloc: Global) -> Result<Session<Actions>, AllocError> {
    let mut builder = SessionBuilder::new(alloc, Actions::for_one_report());
    put_both(alloc, &mut builder)?;
    builder.build()
}

/// Whether the report on both is this one.
fn is_reported(alloc: Global, wanted: &[u8]) -> Result<bool, Stop> {
    reports(alloc, &mut session_of_both(alloc)?, wanted)
}

#[test]
fn files_that_are_put_at_once(rt: HostRuntime) {
    assert!(rt; is_reported(rt.alloc(), missing_input()) == Ok(true));
}

/// How many of some changes were refused.
fn count_refused(
    alloc: Global,
    session: &mut Session<Actions>,
    changes: &[Change<'_>],
) -> Result<usize, AllocError> {
    let replies = apply_changes(alloc, session, changes)?;
    Ok(replies.iter().filter(|reply| reply.is_err()).count())
}

/// Whether a session takes a file, and refuses to delete one that isn't there.
fn refuses_second(alloc: Global, session: &mut Session<Actions>) -> Result<bool, AllocError> {
    let changes = [Change::Put(CALLER, caller()), Change::Delete(ACTION)];
    Ok(count_refused(alloc, session, &changes)? == 1)
}

fn opens_and_refuses(alloc: Global) -> Result<bool, AllocError> {
    refuses_second(alloc, &mut Session::open(alloc, Actions::new()))
}

#[test]
fn a_list_of_edits(rt: HostRuntime) {
    assert!(rt; opens_and_refuses(rt.alloc()) == Ok(true));
}

fn is_call_of_action(call: &Target) -> bool {
    match call {
        Target::FirstOf(first, second) => first.as_str() == ACTION && second.as_str() != ACTION,
        Target::Only(_) => false,
    }
}

/// Whether a file is there that calls the action, whose path is accepted.
fn has_caller(alloc: Global, builder: &SessionBuilder<Actions>) -> Result<bool, AllocError> {
    match (builder.bytes(CALLER), builder.calls(CALLER)) {
        (Some(bytes), Some([call])) => {
            let copy = call.copy(alloc)?;
            Ok(bytes == caller() && builder.accepts(ACTION) && is_call_of_action(&copy))
        }
        _ => Ok(false),
    }
}

fn takes_caller(alloc: Global, builder: &mut SessionBuilder<Actions>) -> Result<bool, AllocError> {
    Ok(put(alloc, builder, CALLER, caller())? && has_caller(alloc, builder)?)
}

/// The same of a builder under a seed.
fn takes_caller_seeded(alloc: Global, seed: Seed) -> Result<bool, AllocError> {
    takes_caller(
        alloc,
        &mut SessionBuilder::seeded(alloc, Actions::new(), seed),
    )
}

#[test]
fn files_that_were_put(rt: HostRuntime) {
    assert!(rt; takes_caller_seeded(rt.alloc(), Seed::of(b"a seed")) == Ok(true));
}

/// Whether a session takes a file, which is then the only one.
fn has_only_caller(session: &mut Session<Actions>) -> bool {
    apply_change(session, &Change::Put(CALLER, caller())).is_ok()
        && session.path_at(0) == Some(CALLER)
        && session.path_at(1).is_none()
}

#[test]
fn an_edit_under_a_seed(rt: HostRuntime) {
    let seed = Seed::fixed();
    assert!(rt; has_only_caller(&mut Session::open_seeded(rt.alloc(), Actions::new(), seed)));
}
