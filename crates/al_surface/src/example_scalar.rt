//! The example of `al_scalar`: decoding a scalar, with the offset of each byte.

use al_scalar::{ScalarContext, read_scalar};
use al_text::limits::LARGEST_FILE;
use std::alloc::{AllocError, Global};

/// The file offset of each byte of the text of the value that begins at byte `at`, as one does
/// at byte 3 of `a: "x\u00e9"`; none if it has a fault.
fn offsets(alloc: Global, file: &[u8], at: usize) -> Result<Vec<u32>, AllocError> {
    let mut offsets = Vec::new(alloc);
    if file.len() > LARGEST_FILE || at > file.len() {
        return Ok(offsets);
    }
    if let Ok(read) = read_scalar(alloc, file, at, ScalarContext::BlockFromIndent(1))? {
        for i in 0..read.scalar.text().len() {
            offsets.push(read.scalar.locate(i))?;
        }
    }
    Ok(offsets)
}

// Tests:

fn are_at(alloc: Global, file: &[u8], at: usize, wanted: &[u32]) -> Result<bool, AllocError> {
    Ok(offsets(alloc, file, at)?.as_slice() == wanted)
}

#[test]
fn each_byte_has_an_offset(rt: HostRuntime) {
    assert!(rt; are_at(rt.alloc(), b"a: \"x\\u00e9\"\n", 3, &[4, 5, 5]) == Ok(true));
}

#[test]
fn a_fault_has_no_bytes(rt: HostRuntime) {
    assert!(rt; are_at(rt.alloc(), b"a: 'b\n", 3, &[]) == Ok(true));
}
