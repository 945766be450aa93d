//! `al_scalar` and `al_yaml`: scalars, trees, and the first fault of a file.

use al_scalar::{ScalarContext, ScalarRead, read_scalar};
use al_text::YamlCode;
use al_text::limits::LARGEST_FILE;
use al_yaml::{Class, Doc, Node, Scalar, Style, YamlFault, read_yaml};
use std::alloc::{AllocError, Global};

/// A scalar at the fourth byte of a file, in a block mapping: its text, the offsets of its bytes
/// and of its end, and the offset at which the rest begins.
struct Row {
    file: &'static [u8],
    style: Style,
    text: &'static [u8],
    offsets: &'static [u32],
    next: usize,
}

static ROWS: [Row; 3] = [
    Row {
        file: b"a: 'it''s'\n",
        style: Style::SingleQuoted,
        text: b"it's",
        offsets: &[4, 5, 6, 8, 10],
        next: 10,
    },
    Row {
        file: b"a: \"x\\u00e9\"\n",
        style: Style::DoubleQuoted,
        text: b"x\xc3\xa9",
        offsets: &[4, 5, 5, 12],
        next: 12,
    },
    Row {
        file: b"a: >\n  b\n  c\n\n  d\n",
        style: Style::Folded,
        text: b"b c\nd\n",
        offsets: &[7, 8, 11, 13, 16, 17, 17],
        next: 18,
    },
];

fn scalars() -> &'static [Row] {
    &ROWS
}

fn comes_from(scalar: &Scalar, offsets: &[u32]) -> bool {
    if offsets.len() != scalar.text().len() + 1 {
        return false;
    }
    for (index, offset) in offsets.iter().enumerate() {
        if index > scalar.text().len() || scalar.locate(index) != *offset {
            return false;
        }
    }
    true
}

fn is_as_expected(read: &ScalarRead, row: &Row) -> bool {
    read.scalar.style() == row.style
        && read.scalar.class() == Class::Str
        && read.scalar.text() == row.text
        && comes_from(&read.scalar, row.offsets)
        && read.scalar.span().start == 3
        && read.next == row.next
}

fn reads_scalar(alloc: Global, row: &Row) -> Result<bool, AllocError> {
    if row.file.len() > LARGEST_FILE || row.file.len() < 3 {
        return Ok(false);
    }
    match read_scalar(alloc, row.file, 3, ScalarContext::BlockFromIndent(1))? {
        Ok(read) => Ok(is_as_expected(&read, row)),
        Err(_) => Ok(false),
    }
}

#[test]
fn scalars_by_themselves(rt: HostRuntime) {
    for row in scalars() {
        assert!(rt; reads_scalar(rt.alloc(), row) == Ok(true));
    }
}

/// The result of reading a file; out of memory for one above the size limit.
fn read(alloc: Global, file: &[u8]) -> Result<Result<Doc, YamlFault>, AllocError> {
    if file.len() > LARGEST_FILE {
        return Err(AllocError);
    }
    read_yaml(alloc, file)
}

/// Anchors and aliases that stand for more than 100,000 nodes.
const ALIASES: &[u8] = b"x0: &x0 [1, 1, 1, 1, 1, 1, 1, 1, 1, 1]
x1: &x1 [*x0, *x0, *x0, *x0, *x0, *x0, *x0, *x0, *x0, *x0]
x2: &x2 [*x1, *x1, *x1, *x1, *x1, *x1, *x1, *x1, *x1, *x1]
x3: &x3 [*x2, *x2, *x2, *x2, *x2, *x2, *x2, *x2, *x2, *x2]
x4: &x4 [*x3, *x3, *x3, *x3, *x3, *x3, *x3, *x3, *x3, *x3]
";

static FAULTS: [(&[u8], YamlCode, u32); 12] = [
    (b"a: b: c\n", YamlCode::UnexpectedCharacter, 4),
    (b"a:\n\tb: c\n", YamlCode::TabInIndentation, 3),
    (b"a: 'b\n", YamlCode::UnclosedQuote, 3),
    (b"a: [b, c\n", YamlCode::UnclosedFlow, 3),
    (b"a: |10\n  x\n", YamlCode::WrongBlockHeader, 5),
    (b"a: b\n c: d\n", YamlCode::UnexpectedCharacter, 7),
    (b"a:\n  b: 1\n c: 2\n", YamlCode::WrongIndentation, 11),
    (b"---\na: 1\n...\nb: 2\n", YamlCode::SecondDocument, 13),
    (b"a: \xff", YamlCode::NotUtf8, 3),
    (b"a: &a [*a]\n", YamlCode::UnknownAlias, 7),
    (
        b"on:\n  push:\n    branches: [${{ github.ref }}]\n",
        YamlCode::UnexpectedCharacter,
        28,
    ),
    (ALIASES, YamlCode::TooManyNodes, 260),
];

fn faults() -> &'static [(&'static [u8], YamlCode, u32)] {
    &FAULTS
}

fn has_fault(alloc: Global, file: &[u8], code: YamlCode, start: u32) -> Result<bool, AllocError> {
    match read(alloc, file)? {
        Ok(_) => Ok(false),
        Err(fault) => Ok(
            fault.code == code
                && fault.span.start == start
                && fault.span.end == start.saturating_add(1),
        ),
    }
}

#[test]
fn first_faults(rt: HostRuntime) {
    for (file, code, start) in faults() {
        assert!(rt; has_fault(rt.alloc(), file, *code, *start) == Ok(true));
    }
}

fn five_values() -> &'static [u8] {
    b"v: [3.10, 0x1F, .5, ~, yes]\n"
}

static CLASSES: [Class; 5] = [
    Class::Float,
    Class::Int,
    Class::Float,
    Class::Null,
    Class::Str,
];

fn classes() -> &'static [Class] {
    &CLASSES
}

fn is_of_class(node: &Node, class: Class) -> bool {
    match node.scalar() {
        Some(scalar) => scalar.class() == class,
        None => false,
    }
}

fn are_of_classes(node: &Node, wanted: &[Class]) -> bool {
    match node.sequence() {
        Some(items) => {
            items.len() == wanted.len()
                && items
                    .iter()
                    .zip(wanted)
                    .all(|(item, class)| is_of_class(item, *class))
        }
        None => false,
    }
}

/// Whether the value of the first entry is a flow sequence with items of these classes, and its
/// span includes the brackets.
fn holds(root: &Node, wanted: &[Class]) -> bool {
    match root {
        Node::Mapping { entries, .. } => match entries.first() {
            Some(entry) => {
                (entry.value.span().start, entry.value.span().end) == (3, 27)
                    && are_of_classes(&entry.value, wanted)
            }
            None => false,
        },
        _ => false,
    }
}

fn has_classes(alloc: Global, file: &[u8], wanted: &[Class]) -> Result<bool, AllocError> {
    match read(alloc, file)? {
        Ok(doc) => Ok(holds(&doc.root, wanted)),
        Err(_) => Ok(false),
    }
}

#[test]
fn classes_of_scalars(rt: HostRuntime) {
    assert!(rt; has_classes(rt.alloc(), five_values(), classes()) == Ok(true));
}

/// Whether the root of a file is a scalar with this text.
fn is_text(alloc: Global, file: &[u8], wanted: &str) -> Result<bool, AllocError> {
    if file.len() > LARGEST_FILE {
        return Ok(false);
    }
    match read_yaml(alloc, file)? {
        Ok(doc) => Ok(doc.root.text() == Some(wanted)),
        Err(_) => Ok(false),
    }
}

#[test]
fn the_text_of_a_node(rt: HostRuntime) {
    assert!(rt; is_text(rt.alloc(), b"'it''s'\n", "it's") == Ok(true));
}

/// Whether a file is UTF-8, and begins with a scalar of this text.
fn begins_with(alloc: Global, file: &str, wanted: &str) -> Result<bool, AllocError> {
    let bytes = file.as_bytes();
    if bytes.len() > LARGEST_FILE {
        return Ok(false);
    }
    match read_scalar(alloc, bytes, 0, ScalarContext::BlockFromIndent(1))? {
        Ok(read) => Ok(read.scalar.as_str() == wanted),
        Err(_) => Ok(false),
    }
}

#[test]
fn the_text_of_a_scalar(rt: HostRuntime) {
    assert!(rt; begins_with(rt.alloc(), "\"\\u00e9\"", "é") == Ok(true));
}
