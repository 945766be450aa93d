//! The example of `al_yaml`: reading a file, and going down its tree.

use al_text::Span;
use al_text::limits::LARGEST_FILE;
use al_yaml::{Node, read_yaml};
use std::alloc::{AllocError, Global};

/// The value below some keys, one in the mapping under the other.
fn below<'a>(root: &'a Node, keys: &[&str]) -> Option<&'a Node> {
    let mut node = root;
    for key in keys {
        let mut entries = node.mapping()?.iter();
        let entry = entries.find(|entry| entry.key.text() == key.as_bytes())?;
        node = &entry.value;
    }
    Some(node)
}

/// Where that value is in a file; `None` if it isn't there, or the file isn't YAML.
fn place(alloc: Global, file: &[u8], keys: &[&str]) -> Result<Option<Span>, AllocError> {
    if file.len() > LARGEST_FILE {
        return Ok(None);
    }
    match read_yaml(alloc, file)? {
        Ok(doc) => Ok(below(&doc.root, keys).map(|node| node.span())),
        Err(_) => Ok(None),
    }
}

// Tests:

fn is_at(
    alloc: Global,
    file: &[u8],
    keys: &[&str],
    wanted: Option<Span>,
) -> Result<bool, AllocError> {
    Ok(place(alloc, file, keys)? == wanted)
}

#[test]
fn a_value_below_two_keys(rt: HostRuntime) {
    let wanted = Some(Span { start: 8, end: 12 });
    assert!(rt; is_at(rt.alloc(), b"a:\n  b: 'c '\n", &["a", "b"], wanted) == Ok(true));
}

#[test]
fn a_value_behind_an_alias(rt: HostRuntime) {
    let wanted = Some(Span { start: 10, end: 11 });
    assert!(rt; is_at(rt.alloc(), b"x: &x {b: c}\na: *x\n", &["a", "b"], wanted) == Ok(true));
}

#[test]
fn no_such_value(rt: HostRuntime) {
    assert!(rt; is_at(rt.alloc(), b"a:\n  b: c\n", &["a", "c"], None) == Ok(true));
}

#[test]
fn no_yaml(rt: HostRuntime) {
    assert!(rt; is_at(rt.alloc(), b"a: 'b\n", &["a"], None) == Ok(true));
}
