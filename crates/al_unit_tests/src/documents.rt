//! YAML files and their trees.

use crate::scalars::comes_from;
use al_scalar::Scalar;
use al_yaml::read_yaml;
use al_yaml_tree::{Doc, Node};
use std::alloc::{AllocError, Global};

/// A file whose root has one entry; the text of that entry's value, the offsets of its bytes and of
/// its end, and the end of its span.
struct Valued {
    file: &'static [u8],
    text: &'static [u8],
    offsets: &'static [u32],
    end: u32,
}

static VALUED: [Valued; 3] = [
    Valued {
        file: b"a: 'it''s'\n",
        text: b"it's",
        offsets: &[4, 5, 6, 8, 10],
        end: 10,
    },
    Valued {
        file: b"a: \"x\\u00e9\"\n",
        text: b"x\xc3\xa9",
        offsets: &[4, 5, 5, 12],
        end: 12,
    },
    Valued {
        file: b"a: >\n  b\n  c\n\n  d\n",
        text: b"b c\nd\n",
        offsets: &[7, 8, 11, 13, 16, 17, 17],
        end: 17,
    },
];

fn valued_rows() -> &'static [Valued] {
    &VALUED
}

/// The document of a file; `None` if it has a fault.
pub(crate) fn document(alloc: Global, file: &[u8]) -> Result<Option<Doc>, AllocError> {
    if file.len() > 1_048_576 {
        return Ok(None);
    }
    match read_yaml(alloc, file)? {
        Ok(doc) => Ok(Some(doc)),
        Err(_) => Ok(None),
    }
}

/// The value of the root's first entry.
fn first_value(doc: &Doc) -> Option<&Node> {
    match doc.root.mapping() {
        Some(entries) => match entries.first() {
            Some(entry) => Some(&entry.value),
            None => None,
        },
        None => None,
    }
}

fn is_as_expected(scalar: &Scalar, row: &Valued) -> bool {
    scalar.text() == row.text && comes_from(scalar, row.offsets)
}

fn is_valued(value: &Node, row: &Valued) -> bool {
    let span = value.span();
    match value.scalar() {
        Some(scalar) => span.start == 3 && span.end == row.end && is_as_expected(scalar, row),
        None => false,
    }
}

fn has_value(alloc: Global, row: &Valued) -> Result<bool, AllocError> {
    let Some(doc) = document(alloc, row.file)? else {
        return Ok(false);
    };
    match first_value(&doc) {
        Some(value) => Ok(is_valued(value, row)),
        None => Ok(false),
    }
}

#[test]
fn values_of_keys(rt: HostRuntime) -> Result<(), AllocError> {
    for row in valued_rows() {
        assert!(rt; has_value(rt.alloc(), row)?);
    }
    Ok(())
}
