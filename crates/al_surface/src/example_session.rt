//! The example of `al_session`: an edit, whatever the linter.

use al_session::{Lint, Refused, Session};

/// How many files were checked because a file got these bytes: itself, if they are others, and
/// those that call it, if it now offers them something else.
fn checked_for<L: Lint>(
    session: &mut Session<L>,
    path: &str,
    file: &[u8],
) -> Result<usize, Refused> {
    let edit = session.put(path, file)?;
    Ok(edit.rechecked.as_slice().len())
}

// Tests:

use crate::files::{ACTION, CALLER, action, caller};
use al_check::Actions;

fn checks(session: &mut Session<Actions>, path: &str, file: &[u8], count: usize) -> bool {
    checked_for(session, path, file) == Ok(count)
}

fn checks_callers(session: &mut Session<Actions>) -> bool {
    let first = checks(session, CALLER, caller(), 1);
    let both = checks(session, ACTION, action(), 2);
    let none = checks(session, ACTION, action(), 0);
    first && both && none
}

#[test]
fn an_edit_checks_callers(rt: HostRuntime) {
    assert!(rt; checks_callers(&mut Session::open(rt.alloc(), Actions::new())));
}
