//! `al_check`: the linter on its own.

use crate::files::{ACTION, LOOP, action, calls_itself};
use al_check::{Actions, Iface, ParameterKind, Parameters, Role, Signature};
use al_session::{Lint, Site, Target};
use al_text::limits::LARGEST_FILE;
use al_text::{CallCode, Caller, Code, Fault, KeyCode, Span};
use std::alloc::{AllocError, Global};

fn has_required(inputs: &Parameters) -> Result<bool, AllocError> {
    match inputs.find(b"WHO")? {
        Some(input) => Ok(input.required && !input.has_default && inputs.has(b"who")?),
        None => Ok(false),
    }
}

/// Whether a signature is that of an action that requires one input.
fn shows_input(shown: &Signature) -> Result<bool, AllocError> {
    let inputs = shown.parameters(ParameterKind::Input);
    let mandatory = inputs.mandatory()?;
    Ok(shown.role == Role::Action && mandatory.len() == 1 && has_required(inputs)?)
}

fn shows_required(iface: &Iface) -> Result<bool, AllocError> {
    match iface {
        Iface::Readable(shown) => shows_input(shown),
        Iface::Unreadable => Ok(false),
    }
}

/// The interface of a file; out of memory for one above the size limit.
fn iface_of(
    alloc: Global,
    lint: &mut Actions,
    path: &str,
    bytes: &[u8],
) -> Result<Iface, AllocError> {
    if bytes.len() > LARGEST_FILE {
        return Err(AllocError);
    }
    let unit = lint.read(alloc, path, bytes)?;
    lint.iface(alloc, path, &unit)
}

fn copies_required(alloc: Global, iface: &Iface) -> Result<bool, AllocError> {
    let copy = iface.copy(alloc)?;
    shows_required(&copy)
}

/// Whether the linter gives the interface of an action, with one read and no check.
fn shows(alloc: Global, lint: &mut Actions, path: &str, bytes: &[u8]) -> Result<bool, AllocError> {
    let iface = iface_of(alloc, lint, path, bytes)?;
    let counts = (lint.reads(), lint.checks());
    Ok(copies_required(alloc, &iface) == Ok(true) && counts == (1, 0))
}

fn calls_path(calls: &[Target], path: &str) -> bool {
    match calls {
        [Target::Only(called)] => called.as_str() == path,
        _ => false,
    }
}

/// Whether the only call of a file is of the file itself.
fn calls_only(
    alloc: Global,
    lint: &mut Actions,
    path: &str,
    bytes: &[u8],
) -> Result<bool, AllocError> {
    if bytes.len() > LARGEST_FILE {
        return Ok(false);
    }
    let unit = lint.read(alloc, path, bytes)?;
    Ok(match lint.calls(alloc, path, &unit) {
        Ok(calls) => calls_path(&calls, path),
        Err(_) => false,
    })
}

fn takes_both(lint: &Actions) -> bool {
    lint.accepts(LOOP) && lint.accepts(ACTION) && !lint.accepts("x.yml")
}

/// Whether a call is the one on the fifth line of a file that calls itself.
fn is_own_call(site: &Site<'_>) -> bool {
    site.code == Code::Call(CallCode::CallCycle, Caller::Job)
        && site.span == Span { start: 42, end: 67 }
        && site.text == "./.github/workflows/r.yml"
}

/// Whether the only call of a file is that one.
fn has_own_call(
    alloc: Global,
    lint: &mut Actions,
    path: &str,
    bytes: &[u8],
) -> Result<bool, AllocError> {
    if bytes.len() > LARGEST_FILE {
        return Ok(false);
    }
    let unit = lint.read(alloc, path, bytes)?;
    let calls = lint.calls(alloc, path, &unit)?;
    if calls.len() != 1 {
        return Ok(false);
    }
    let site = lint.site(&unit, 0);
    Ok(is_own_call(&site))
}

#[test]
fn the_site_of_a_call(rt: HostRuntime) {
    assert!(rt; has_own_call(rt.alloc(), &mut Actions::new(), LOOP, calls_itself()) == Ok(true));
}

/// Whether these are the faults of a file with only a comment.
fn are_of_comment(faults: &[Fault]) -> bool {
    match faults {
        [fault] => fault.code == Code::Key(KeyCode::EmptyFile)
            && fault.span == Span { start: 0, end: 0 },
        _ => false,
    }
}

/// Whether the linter finds these faults in a file without calls, with one check.
fn finds_empty(
    alloc: Global,
    lint: &mut Actions,
    path: &str,
    bytes: &[u8],
) -> Result<bool, AllocError> {
    if bytes.len() > LARGEST_FILE {
        return Ok(false);
    }
    let unit = lint.read(alloc, path, bytes)?;
    let calls = lint.calls(alloc, path, &unit)?;
    if calls.len() != 0 {
        return Ok(false);
    }
    let faults = lint.check(alloc, path, bytes, &unit, &[])?;
    Ok(are_of_comment(&faults) && (lint.reads(), lint.checks()) == (1, 1))
}

#[test]
fn the_check_of_a_file(rt: HostRuntime) {
    assert!(rt; finds_empty(rt.alloc(), &mut Actions::new(), LOOP, b"#") == Ok(true));
}

#[test]
fn the_paths_that_a_linter_takes(rt: HostRuntime) {
    assert!(rt; takes_both(&Actions::new()));
}

#[test]
fn the_interface_of_a_file(rt: HostRuntime) {
    assert!(rt; shows(rt.alloc(), &mut Actions::new(), ACTION, action()) == Ok(true));
}

#[test]
fn the_calls_of_a_file(rt: HostRuntime) {
    assert!(rt; calls_only(rt.alloc(), &mut Actions::new(), LOOP, calls_itself()) == Ok(true));
}
