//! The longest text that a scalar can have: a file of 1,048,576 bytes, almost all of them two-byte
//! escapes for characters of three bytes.

use al_scalar::{Scalar, ScalarContext, read_scalar};
use al_yaml::read_yaml;
use al_yaml_tree::Doc;
use std::alloc::{AllocError, Global};

/// How many escapes fit between the quotes.
const ESCAPES: usize = 524_287;

/// U+2028, which is written `\L`.
const SEPARATOR: [u8; 3] = [0xe2, 0x80, 0xa8];

fn longest(alloc: Global) -> Result<String, AllocError> {
    let mut file = String::new(alloc);
    file.push('"')?;
    for _ in 0..ESCAPES {
        file.push_str("\\L")?;
    }
    file.push('"')?;
    Ok(file)
}

fn is_separator_at(i: usize, byte: u8) -> bool {
    byte == SEPARATOR[i % 3]
}

/// Whether each byte is the character's and has the offset of the backslash of its escape, and the
/// end has that of the file's end.
fn is_longest(scalar: &Scalar) -> bool {
    let text = scalar.text();
    for (i, byte) in text.iter().enumerate() {
        if i > scalar.text().len() || scalar.locate(i) as usize != 1 + i / 3 * 2 {
            return false;
        }
        if !is_separator_at(i, *byte) {
            return false;
        }
    }
    text.len() == 1_572_861 && scalar.locate(text.len()) == 1_048_576
}

fn reads_longest(alloc: Global, file: &[u8]) -> Result<bool, AllocError> {
    if file.len() != 1_048_576 {
        return Ok(false);
    }
    match read_scalar(alloc, file, 0, ScalarContext::Flow)? {
        Ok(read) => Ok(is_longest(&read.scalar)),
        Err(_) => Ok(false),
    }
}

fn has_longest_scalar(alloc: Global) -> Result<bool, AllocError> {
    let file = longest(alloc)?;
    reads_longest(alloc, file.as_bytes())
}

#[test]
fn longest_scalar(rt: HostRuntime) -> Result<(), AllocError> {
    assert!(rt; has_longest_scalar(rt.alloc())?);
    Ok(())
}

fn are_separators(text: &str) -> bool {
    text.chars().count() == ESCAPES && text.chars().all(|c| c == '\u{2028}')
}

fn is_longest_root(doc: &Doc) -> bool {
    match doc.root.scalar() {
        Some(scalar) => is_longest(scalar),
        None => false,
    }
}

// Whether the root of a file is the longest scalar, and its text, which the reader promises to be
// UTF-8, has these characters.
fn reads_longest_root(alloc: Global, file: &[u8]) -> Result<bool, AllocError> {
    if file.len() > 1_048_576 {
        return Ok(false);
    }
    match read_yaml(alloc, file)? {
        Ok(doc) => match doc.root.text() {
            Some(text) => Ok(are_separators(text) && is_longest_root(&doc)),
            None => Ok(false),
        },
        Err(_) => Ok(false),
    }
}

fn has_longest_root(alloc: Global) -> Result<bool, AllocError> {
    let file = longest(alloc)?;
    reads_longest_root(alloc, file.as_bytes())
}

#[test]
fn longest_root(rt: HostRuntime) -> Result<(), AllocError> {
    assert!(rt; has_longest_root(rt.alloc())?);
    Ok(())
}

// Whether a file's root has no text, and its first key has this one.
fn has_key(doc: &Doc, text: &[u8]) -> bool {
    let Some(entries) = doc.root.mapping() else {
        return false;
    };
    let Some(entry) = entries.first() else {
        return false;
    };
    entry.key.text() == text
}

fn has_key_alone(alloc: Global, file: &[u8], text: &[u8]) -> Result<bool, AllocError> {
    if file.len() > 1_048_576 {
        return Ok(false);
    }
    match read_yaml(alloc, file)? {
        Ok(doc) => Ok(doc.root.text().is_none() && has_key(&doc, text)),
        Err(_) => Ok(false),
    }
}

fn file_with_a_key() -> &'static [u8] {
    b"\"\\x41\\u00e9\": 'it''s'\n"
}

fn key() -> &'static [u8] {
    "A\u{e9}".as_bytes()
}

/// The texts of keys and values, as `str`.
#[test]
fn texts_of_keys(rt: HostRuntime) -> Result<(), AllocError> {
    assert!(rt; has_key_alone(rt.alloc(), file_with_a_key(), key())?);
    Ok(())
}
