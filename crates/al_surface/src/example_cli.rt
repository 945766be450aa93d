//! The example of `al_cli`: a script over a session.

use al_cli::run_session;
use al_text::{Format, Input, Output, Stop};
use std::alloc::Global;

/// The replies to a script that is in memory, such as `report` after a `put`.
fn replies(alloc: Global, script: &[u8]) -> Result<Vec<u8>, Stop> {
    let mut text = Vec::new(alloc);
    run_session(
        alloc,
        &mut Input::new(script),
        &mut Output::new(&mut text),
        Format::Oneline,
    )?;
    Ok(text)
}

// Tests:

fn replies_with(alloc: Global, script: &[u8], wanted: &[u8]) -> Result<bool, Stop> {
    Ok(replies(alloc, script)?.as_slice() == wanted)
}

#[test]
fn a_script_in_memory(rt: HostRuntime) {
    let script = b"delete .github/workflows/a.yml\nreport\n";
    assert!(rt; replies_with(rt.alloc(), script, b"refused E5\nstatus 0\n") == Ok(true));
}
