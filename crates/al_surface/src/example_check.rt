//! The example of `al_check`: linting a folder in memory, and editing it.

use al_check::Actions;
use al_session::{Refused, Session};
use al_text::{Format, Output, Stop};
use std::alloc::Global;

/// Puts a file into a folder, and gives the report on the folder, or why the file was refused.
fn report_with(
    alloc: Global,
    session: &mut Session<Actions>,
    path: &str,
    file: &[u8],
) -> Result<Result<Vec<u8>, Refused>, Stop> {
    if let Err(refused) = session.put(path, file) {
        return Ok(Err(refused));
    }
    let mut text = Vec::new(alloc);
    session.report(&mut Output::new(&mut text), Format::Oneline)?;
    Ok(Ok(text))
}

// Tests:

use crate::files::{ACTION, CALLER, action, caller, missing_input};

fn reports(
    alloc: Global,
    session: &mut Session<Actions>,
    path: &str,
    file: &[u8],
    wanted: &[u8],
) -> Result<bool, Stop> {
    match report_with(alloc, session, path, file)? {
        Ok(text) => Ok(text.as_slice() == wanted),
        Err(_) => Ok(false),
    }
}

/// Whether the call has a fault as soon as the action is there that it calls.
fn reports_both(alloc: Global, session: &mut Session<Actions>) -> Result<bool, Stop> {
    let first = reports(alloc, session, CALLER, caller(), b"")?;
    let second = reports(alloc, session, ACTION, action(), missing_input())?;
    Ok(first && second)
}

fn opens_and_reports(alloc: Global) -> Result<bool, Stop> {
    reports_both(alloc, &mut Session::open(alloc, Actions::new()))
}

#[test]
fn a_folder_and_an_edit(rt: HostRuntime) {
    assert!(rt; opens_and_reports(rt.alloc()) == Ok(true));
}
