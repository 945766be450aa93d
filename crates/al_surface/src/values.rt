//! `al_tree`: values by their keys, and what a mapping declares.

use crate::trees::document;
use al_tree::{
    Member, declared_at, declared_in, has_value, is_named_among, items, items_under, key, key_of,
    key_texts, member_positions, members, text, text_under, texts, texts_under, value,
    value_below_three, value_below_two,
};
use al_yaml::{Node, Scalar};
use std::alloc::{AllocError, Global};

fn file() -> &'static [u8] {
    b"on: push
runs: {using: {x: y}}
list: [a, ~, b]
"
}

/// Names of which the second two are equal to others, exactly or in another case.
fn names() -> &'static [u8] {
    b"{A: 1, b: 2, a: 3, b: 4}\n"
}

fn is_text(scalar: Option<&Scalar>, wanted: &[u8]) -> bool {
    match scalar {
        Some(scalar) => scalar.text() == wanted,
        None => false,
    }
}

fn is_scalar(node: Option<&Node>, wanted: &[u8]) -> bool {
    match node {
        Some(node) => is_text(text(node), wanted),
        None => false,
    }
}

fn has_texts(root: &Node) -> bool {
    is_text(text_under(root, "on"), b"push")
        && is_text(key(root, "list"), b"list")
        && is_scalar(value(root, "on"), b"push")
        && is_scalar(value_below_three(root, "runs", "using", "x"), b"y")
        && text_under(root, "runs").is_none()
}

/// Whether a mapping has a sequence under its third key, and a mapping below the second.
fn has_collections(root: &Node) -> bool {
    match root.mapping() {
        Some([_, _, entry]) => {
            key_of(entry) == b"list".as_slice()
                && items(&entry.value).len() == 3
                && value_below_two(root, "runs", "using").is_some()
                && !has_value(root, "using")
        }
        _ => false,
    }
}

fn reads_values(alloc: Global, file: &[u8]) -> Result<bool, AllocError> {
    let doc = document(alloc, file)?;
    Ok(has_texts(&doc.root) && has_collections(&doc.root))
}

#[test]
fn values_by_their_keys(rt: HostRuntime) {
    assert!(rt; reads_values(rt.alloc(), file()) == Ok(true));
}

/// Whether two of the three items under a key are texts that aren't null.
fn has_two_texts(alloc: Global, root: &Node) -> Result<bool, AllocError> {
    let found = texts_under(alloc, root, "list")?.len();
    let none = texts(alloc, root)?.len();
    Ok(items_under(root, "list").len() == 3 && found == 2 && none == 0)
}

fn reads_texts(alloc: Global, file: &[u8]) -> Result<bool, AllocError> {
    let doc = document(alloc, file)?;
    has_two_texts(alloc, &doc.root)
}

#[test]
fn texts_of_a_sequence(rt: HostRuntime) {
    assert!(rt; reads_texts(rt.alloc(), file()) == Ok(true));
}

/// Whether members have three keys, the third of which is the first in another case.
fn are_three(alloc: Global, found: &[Member<'_>]) -> Result<bool, AllocError> {
    let is_first = member_positions(alloc, found)?.is_first(2);
    let keys = key_texts(alloc, found)?;
    Ok(keys.len() == 3 && is_named_among(&keys, b"B") && !is_first)
}

fn has_members(alloc: Global, root: &Node) -> Result<bool, AllocError> {
    are_three(alloc, &members(alloc, root)?)
}

/// Whether a mapping declares two names, and a missing one none.
fn declares_two(alloc: Global, root: &Node) -> Result<bool, AllocError> {
    let found = declared_in(alloc, root)?.len();
    let none = declared_at(alloc, None)?.len();
    Ok(found == 2 && none == 0)
}

fn reads_names(alloc: Global, file: &[u8]) -> Result<bool, AllocError> {
    let doc = document(alloc, file)?;
    Ok(has_members(alloc, &doc.root)? && declares_two(alloc, &doc.root)?)
}

#[test]
fn names_of_a_mapping(rt: HostRuntime) {
    assert!(rt; reads_names(rt.alloc(), names()) == Ok(true));
}
