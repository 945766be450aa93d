//! `al_check`: the places of expressions, and what is available there.

use crate::trees::document;
use al_check::{available_at, available_rows, places};
use al_expr::{Context, Function};
use al_tree::FileKind;
use std::alloc::{AllocError, Global};

/// Whether the only expression of a workflow is in this text.
fn is_only_place(alloc: Global, file: &[u8], wanted: &[u8]) -> Result<bool, AllocError> {
    let doc = document(alloc, file)?;
    let found = places(alloc, FileKind::Workflow, &doc.root)?;
    Ok(match found.as_slice() {
        [place] => place.scalar.text() == wanted && !place.is_condition,
        _ => false,
    })
}

#[test]
fn places_of_expressions(rt: HostRuntime) {
    let file = b"name: a\nrun-name: ${{ b }}\n";
    assert!(rt; is_only_place(rt.alloc(), file, b"${{ b }}") == Ok(true));
}

#[test]
fn what_an_action_makes_available(rt: HostRuntime) {
    assert!(rt; available_at(FileKind::Action, None, true).allows(Function::Always));
    assert!(rt; !available_at(FileKind::Action, None, false).allows(Function::Always));
}

/// Whether some places of workflows can call a function.
fn is_available(function: Function) -> bool {
    available_rows()
        .iter()
        .any(|row| row.special.contains(&function))
}

#[test]
fn what_workflows_make_available(rt: HostRuntime) {
    assert!(rt; is_available(Function::HashFiles) && !is_available(Function::Contains));
}
