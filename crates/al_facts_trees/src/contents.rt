//! The contents of the expressions at a place, and where their bytes are in the file.

use al_check::Place;
use al_expr::{Chunk, chunks};
use al_text::limits::LONGEST_TEXT;
use al_text::{Fault, Span};
use al_tree::contains_chunk;
use al_yaml::Scalar;
use std::alloc::{AllocError, Global};

/// Where an expression comes from: a scalar, and the index of the expression's first byte in its
/// text.
#[derive(Clone, Copy)]
pub(crate) struct Origin<'s> {
    pub scalar: &'s Scalar,
    pub start: u32,
}

/// The offset in the file of an index of an expression; at the text's end, the end of the scalar.
pub(crate) fn offset_in_file(origin: Origin<'_>, index: u32) -> u32 {
    let in_text = origin.start.saturating_add(index) as usize;
    origin
        .scalar
        .locate(in_text.min(origin.scalar.text().len()))
}

/// The span in the file of a span of an expression.
pub(crate) fn span_in_file(origin: Origin<'_>, span: Span) -> Span {
    let start = offset_in_file(origin, span.start);
    if span.end <= span.start {
        return Span { start, end: start };
    }
    let last = offset_in_file(origin, span.end.saturating_sub(1));
    Span {
        start,
        end: last.saturating_add(1),
    }
}

// A text that is an expression as a whole.
fn whole(alloc: Global, text: &str) -> Result<Vec<Chunk<'_>>, AllocError> {
    let span = Span {
        start: 0,
        end: text.len().min(LONGEST_TEXT) as u32,
    };
    let mut only = Vec::new(alloc);
    only.push(Chunk {
        content: text,
        span,
    })?;
    Ok(only)
}

/// The expressions at a place, each with its span in the text, and the fault of the text if one
/// isn't closed.
pub(crate) fn contents<'a>(
    alloc: Global,
    place: &Place<'a>,
) -> Result<(Vec<Chunk<'a>>, Option<Fault>), AllocError> {
    let text = str::from_utf8(place.scalar.text()).unwrap_or("");
    if place.is_condition && !contains_chunk(text.as_bytes()) {
        return Ok((whole(alloc, text)?, None));
    }
    if text.len() > LONGEST_TEXT {
        return Ok((Vec::new(alloc), None));
    }
    chunks(alloc, text)
}
