//! `al_session`: edits of a folder that is linted by `al_check`.

use crate::files::{ACTION, CALLER, LOOP, action, caller, calls_itself, missing_input};
use al_check::Actions;
use al_session::{Edit, Paths, Refused, Session};
use al_text::{CallCode, Caller, Code, Fault, Format, Output, Path, Stop};
use std::alloc::{AllocError, Global};

fn are_paths(paths: &[Path], wanted: &[&str]) -> bool {
    paths.len() == wanted.len()
        && paths
            .iter()
            .zip(wanted)
            .all(|(path, text)| path.as_str() == *text)
}

fn rechecks(edit: &Result<Edit, Refused>, wanted: &[&str]) -> bool {
    match edit {
        Ok(edit) => are_paths(edit.rechecked.as_slice(), wanted),
        Err(_) => false,
    }
}

fn puts(session: &mut Session<Actions>, path: &str, bytes: &[u8], wanted: &[&str]) -> bool {
    let edit: Result<Edit, Refused> = session.put(path, bytes);
    rechecks(&edit, wanted)
}

fn deletes(session: &mut Session<Actions>, path: &str, wanted: &[&str]) -> bool {
    let edit: Result<Edit, Refused> = session.delete(path);
    rechecks(&edit, wanted)
}

fn misses(session: &Session<Actions>, wanted: &[&str]) -> Result<bool, AllocError> {
    Ok(are_paths(&session.missing()?, wanted))
}

fn reports(alloc: Global, session: &mut Session<Actions>, wanted: &[u8]) -> Result<bool, Stop> {
    let mut bytes = Vec::new(alloc);
    session.report(&mut Output::new(&mut bytes), Format::Oneline)?;
    let status: u8 = session.status()?;
    Ok(bytes.as_slice() == wanted && (status == 1) == !wanted.is_empty())
}

fn has_file(session: &Session<Actions>, path: &str, bytes: &[u8], faults: usize) -> bool {
    match (session.bytes(path), session.faults(path)) {
        (Some(found), Some(list)) => found == bytes && list.len() == faults,
        _ => false,
    }
}

fn has_both(session: &Session<Actions>) -> bool {
    has_file(session, CALLER, caller(), 1) && has_file(session, ACTION, action(), 0)
}

fn takes_caller(alloc: Global, session: &mut Session<Actions>) -> Result<bool, Stop> {
    let is_put = puts(session, CALLER, caller(), &[CALLER]) && reports(alloc, session, b"")?;
    Ok(is_put && misses(session, &["a/action.yaml", ACTION])?)
}

fn takes_action(alloc: Global, session: &mut Session<Actions>) -> Result<bool, Stop> {
    let is_put = puts(session, ACTION, action(), &[CALLER, ACTION]);
    Ok(is_put && reports(alloc, session, missing_input())? && has_both(session))
}

fn drops_action(alloc: Global, session: &mut Session<Actions>) -> Result<bool, Stop> {
    let is_deleted = session.meter() == 3 && deletes(session, ACTION, &[CALLER]);
    Ok(is_deleted && reports(alloc, session, b"")? && session.bytes(ACTION).is_none())
}

fn follows_edits(alloc: Global, session: &mut Session<Actions>) -> Result<bool, Stop> {
    Ok(
        takes_caller(alloc, session)?
            && takes_action(alloc, session)?
            && drops_action(alloc, session)?,
    )
}

fn refuses(session: &mut Session<Actions>, path: &str, wanted: Refused) -> bool {
    match session.put(path, b"") {
        Ok(_) => false,
        Err(refused) => refused == wanted,
    }
}

fn refuses_delete(session: &mut Session<Actions>, path: &str) -> bool {
    match session.delete(path) {
        Ok(_) => false,
        Err(refused) => refused == Refused::NoSuchFile,
    }
}

fn refuses_all(session: &mut Session<Actions>) -> bool {
    refuses(session, "../x.yml", Refused::BadPath)
        && refuses(session, "x.yml", Refused::NotAccepted)
        && refuses_delete(session, ".github/workflows/z.yml")
}

fn opens_and_follows(alloc: Global) -> Result<bool, Stop> {
    follows_edits(alloc, &mut Session::open(alloc, Actions::new()))
}

#[test]
fn an_edited_folder(rt: HostRuntime) {
    assert!(rt; opens_and_follows(rt.alloc()) == Ok(true));
}

#[test]
fn refused_edits(rt: HostRuntime) {
    assert!(rt; refuses_all(&mut Session::open(rt.alloc(), Actions::new())));
}

fn is_own_call(faults: &[Fault]) -> bool {
    match faults {
        [fault] => fault.code == Code::Call(CallCode::CallCycle, Caller::Job),
        _ => false,
    }
}

/// Whether a call cycle is found as soon as a file calls itself.
fn finds_cycle(session: &mut Session<Actions>) -> Result<bool, AllocError> {
    let is_put = puts(session, LOOP, calls_itself(), &[LOOP]);
    let faults = session.call_cycle_faults()?;
    Ok(match faults.as_slice() {
        [of_file] => is_put && is_own_call(of_file),
        _ => false,
    })
}

#[test]
fn a_file_that_calls_itself(rt: HostRuntime) {
    assert!(rt; finds_cycle(&mut Session::open(rt.alloc(), Actions::new())) == Ok(true));
}

fn lists_path(alloc: Global, text: &str) -> Result<bool, AllocError> {
    let Ok(path) = Path::new(alloc, text) else {
        return Ok(false);
    };
    let mut listed = Vec::new(alloc);
    listed.push(path)?;
    let paths = Paths::new(listed);
    let is_listed = are_paths(paths.as_slice(), &[text]);
    Ok(is_listed && paths.into_vec().len() == 1)
}

#[test]
fn a_list_of_paths(rt: HostRuntime) {
    assert!(rt; lists_path(rt.alloc(), ACTION) == Ok(true));
}
