//! Scalars and their faults, by worked rows.

use al_base::YamlCode;
use al_scalar::{Class, Scalar, ScalarContext, Style, read_scalar};
use std::alloc::{AllocError, Global};

/// A scalar, the offsets of the bytes of its text and of its end, and the offset at which the rest
/// begins.
struct Case {
    file: &'static [u8],
    at: usize,
    place: ScalarContext,
    style: Style,
    class: Class,
    text: &'static [u8],
    offsets: &'static [u32],
    next: usize,
}

static CASES: [Case; 8] = [
    Case {
        file: b"a: 'it''s'\n",
        at: 3,
        place: ScalarContext::BlockFromIndent(1),
        style: Style::SingleQuoted,
        class: Class::Str,
        text: b"it's",
        offsets: &[4, 5, 6, 8, 10],
        next: 10,
    },
    Case {
        file: b"a: \"x\\u00e9\"\n",
        at: 3,
        place: ScalarContext::BlockFromIndent(1),
        style: Style::DoubleQuoted,
        class: Class::Str,
        text: b"x\xc3\xa9",
        offsets: &[4, 5, 5, 12],
        next: 12,
    },
    Case {
        file: b"a: >\n  b\n  c\n\n  d\n",
        at: 3,
        place: ScalarContext::BlockFromIndent(1),
        style: Style::Folded,
        class: Class::Str,
        text: b"b c\nd\n",
        offsets: &[7, 8, 11, 13, 16, 17, 17],
        next: 18,
    },
    Case {
        file: b"a: |+\r\n b\r\n\r\nc: d\r\n",
        at: 3,
        place: ScalarContext::BlockFromIndent(1),
        style: Style::Literal,
        class: Class::Str,
        text: b"b\n\n",
        offsets: &[8, 9, 11, 9],
        next: 13,
    },
    Case {
        file: b"[-.INF\n , b]",
        at: 1,
        place: ScalarContext::Flow,
        style: Style::Plain,
        class: Class::Float,
        text: b"-.INF",
        offsets: &[1, 2, 3, 4, 5, 6],
        next: 6,
    },
    Case {
        file: b"- \xc3\xa9\r  b\r",
        at: 2,
        place: ScalarContext::BlockFromIndent(1),
        style: Style::Plain,
        class: Class::Str,
        text: b"\xc3\xa9 b",
        offsets: &[2, 3, 4, 7, 8],
        next: 8,
    },
    Case {
        file: b"0x1F",
        at: 0,
        place: ScalarContext::BlockFromIndent(0),
        style: Style::Plain,
        class: Class::Int,
        text: b"0x1F",
        offsets: &[0, 1, 2, 3, 4],
        next: 4,
    },
    Case {
        file: b"a:\nb: c\n",
        at: 2,
        place: ScalarContext::Empty,
        style: Style::Plain,
        class: Class::Null,
        text: b"",
        offsets: &[2],
        next: 2,
    },
];

fn cases() -> &'static [Case] {
    &CASES
}

/// Whether the bytes of a scalar's text, and its end, have these offsets.
pub(crate) fn comes_from(scalar: &Scalar, offsets: &[u32]) -> bool {
    if offsets.len() != scalar.text().len() + 1 {
        return false;
    }
    for (i, offset) in offsets.iter().enumerate() {
        if i > scalar.text().len() || scalar.locate(i) != *offset {
            return false;
        }
    }
    true
}

fn is_as_expected(scalar: &Scalar, case: &Case) -> bool {
    scalar.style() == case.style
        && scalar.class() == case.class
        && scalar.text() == case.text
        && comes_from(scalar, case.offsets)
}

fn reads(alloc: Global, case: &Case) -> Result<bool, AllocError> {
    let size = case.file.len();
    if case.at > size || size > 1_048_576 {
        return Ok(false);
    }
    match read_scalar(alloc, case.file, case.at, case.place)? {
        Ok(read) => {
            let span = read.scalar.span();
            Ok(
                span.start as usize == case.at
                    && Some(&span.end) == case.offsets.last()
                    && read.next == case.next
                    && is_as_expected(&read.scalar, case),
            )
        }
        Err(_) => Ok(false),
    }
}

#[test]
fn reads_scalars(rt: HostRuntime) -> Result<(), AllocError> {
    for case in cases() {
        assert!(rt; reads(rt.alloc(), case)?);
    }
    Ok(())
}

/// A file, the offset at which a scalar begins, and the fault in it: its code, and the span of the
/// character it is at.
type Faulty = (&'static [u8], usize, YamlCode, u32, u32);

static FAULTS: [Faulty; 5] = [
    (b"a: 'b\n", 3, YamlCode::UnclosedQuote, 3, 4),
    (b"a: \"b\\ud800\"", 3, YamlCode::WrongEscape, 5, 6),
    (b"a: \"\\x4", 3, YamlCode::UnclosedQuote, 3, 4),
    (b"a\n b: c", 0, YamlCode::UnexpectedCharacter, 4, 5),
    (b"a: | \xc3\xa9\n", 3, YamlCode::WrongBlockHeader, 5, 7),
];

fn faults() -> &'static [Faulty] {
    &FAULTS
}

fn finds(alloc: Global, row: &Faulty) -> Result<bool, AllocError> {
    let (file, at, code, start, end) = row;
    if *at > file.len() || file.len() > 1_048_576 {
        return Ok(false);
    }
    match read_scalar(alloc, file, *at, ScalarContext::BlockFromIndent(1))? {
        Ok(_) => Ok(false),
        Err(fault) => Ok(
            fault.code == *code && fault.span.start == *start && fault.span.end == *end,
        ),
    }
}

#[test]
fn finds_faults(rt: HostRuntime) -> Result<(), AllocError> {
    for row in faults() {
        assert!(rt; finds(rt.alloc(), row)?);
    }
    Ok(())
}

/// The length of the text of a plain scalar that spans all lines of a file.
fn length_of_text(alloc: Global, file: &[u8]) -> Result<Option<usize>, AllocError> {
    if file.len() > 1_048_576 {
        return Ok(None);
    }
    match read_scalar(alloc, file, 0, ScalarContext::BlockFromIndent(0))? {
        Ok(read) => Ok(Some(read.scalar.text().len())),
        Err(_) => Ok(None),
    }
}

fn repeated(alloc: Global, part: &[u8], times: usize) -> Result<Vec<u8>, AllocError> {
    let mut whole = Vec::new(alloc);
    for _ in 0..times {
        whole.extend_from_slice(part)?;
    }
    Ok(whole)
}

// Whether the text of a scalar that repeats a part this many times has this length.
fn has_length(alloc: Global, part: &[u8], times: usize, length: usize) -> Result<bool, AllocError> {
    let file = repeated(alloc, part, times)?;
    Ok(length_of_text(alloc, &file)? == Some(length))
}

#[test]
fn reads_long_lines(rt: HostRuntime) -> Result<(), AllocError> {
    assert!(rt; has_length(rt.alloc(), b"a", 1_048_576, 1_048_576)?);
    Ok(())
}

#[test]
fn reads_many_lines(rt: HostRuntime) -> Result<(), AllocError> {
    assert!(rt; has_length(rt.alloc(), b"a\n", 300_000, 599_999)?);
    Ok(())
}
