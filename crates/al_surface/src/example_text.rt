//! The example of `al_text`: printing a fault in each format.

use al_text::limits::LARGEST_FILE;
use al_text::{Fault, Output, PrintedFile, Stop, write_fault};
use std::alloc::Global;

/// A fault of this file as a report prints it; `None` if it isn't in the file.
fn show(alloc: Global, file: &PrintedFile<'_>, fault: &Fault) -> Result<Option<Vec<u8>>, Stop> {
    let (length, span) = (file.bytes.len(), fault.span);
    if length > LARGEST_FILE || span.start > span.end || span.end as usize > length {
        return Ok(None);
    }
    let mut text = Vec::new(alloc);
    write_fault(&mut Output::new(&mut text), file, fault)?;
    Ok(Some(text))
}

// Tests:

use al_text::{Args, Code, Format, KeyCode, Span};
use std::alloc::AllocError;

fn unexpected(alloc: Global) -> Result<Fault, AllocError> {
    Ok(Fault {
        span: Span { start: 6, end: 10 },
        code: Code::Key(KeyCode::Unexpected),
        args: Args::one(String::from_str(alloc, "jops")?),
    })
}

fn a_file(bytes: &[u8], format: Format) -> PrintedFile<'_> {
    PrintedFile {
        path: "a.yml",
        bytes,
        format,
    }
}

fn prints(alloc: Global, file: &PrintedFile<'_>, wanted: &[u8]) -> Result<bool, Stop> {
    let fault = unexpected(alloc)?;
    Ok(match show(alloc, file, &fault)? {
        Some(text) => text.as_slice() == wanted,
        None => false,
    })
}

fn is_none(alloc: Global, file: &PrintedFile<'_>) -> Result<bool, Stop> {
    let fault = unexpected(alloc)?;
    Ok(show(alloc, file, &fault)?.is_none())
}

#[test]
fn a_fault_in_one_line(rt: HostRuntime) {
    let wanted = b"a.yml:2:1: unexpected key \"jops\" [syntax-check]\n";
    let file = a_file(b"on: a\njops:\n", Format::Oneline);
    assert!(rt; prints(rt.alloc(), &file, wanted) == Ok(true));
}

#[test]
fn a_fault_with_its_line(rt: HostRuntime) {
    let wanted = b"a.yml:2:1: unexpected key \"jops\" [syntax-check]\n  |\n2 | jops:\n  | ^~~~\n";
    let file = a_file(b"on: a\njops:\n", Format::Snippet);
    assert!(rt; prints(rt.alloc(), &file, wanted) == Ok(true));
}

#[test]
fn a_fault_of_another_file(rt: HostRuntime) {
    assert!(rt; is_none(rt.alloc(), &a_file(b"on: a\njop", Format::Oneline)) == Ok(true));
}
