//! Texts that are one expression.

ghost use Rattle.al_expr_grammar.specs.Chunks.{span_of_chunk};
ghost use Rattle.al_expr_grammar.specs.Lone.{is_lone as lone, is_lone_chunk as lone_chunk};
ghost use Rattle.al_expr_grammar.specs.Lone.{is_short, may_stand};
ghost use Rattle.std.specs.Prelude.{◌≡◌, [], ◌∷◌, false, true, drop, map, IfOk, MatchOption, None};

use crate::chunk::{Chunk, chunks};
use al_base::limits::LONGEST_TEXT;
use al_base::{Fault, Span};
use std::alloc::{AllocError, Global};

/// What a text may have outside the braces of its one expression.
#[derive(Clone, Copy)]
pub enum Around {
    /// Nothing.
    Nothing,
    /// Spaces, tabs and breaks.
    Blanks,
}

/// Whether a byte is allowed outside the braces.
fn may_be(around: Around, byte: u8) -> bool
    ensures { result ≡ may_stand around byte }
{
    match around {
        Around::Nothing => false,
        Around::Blanks => matches!(byte, b' ' | b'\t' | b'\n' | b'\r'),
    }
}

/// A text without its first bytes.
fn suffix(bytes: &[u8], count: usize) -> &[u8]
    ensures { result.now ≡ drop count bytes.now }
{
    if count < bytes.len() {
        &bytes[count..]
    } else {
        &[]
    }
}

/// Whether everything outside the braces of a chunk is allowed there.
fn is_lone_span(around: Around, bytes: &[u8], content: Span) -> bool
    ensures { result ≡ lone around bytes.now (content ∷ []) None }
{
    let before = bytes
        .iter()
        .take((content.start as usize).saturating_sub(3));
    let after = suffix(bytes, content.end as usize + 2).iter();
    before.chain(after).all(|byte| may_be(around, *byte))
}

/// Whether a text is one expression, `${{ .. }}`, with only what is allowed outside its braces,
/// given its chunks and the fault after them.
pub fn is_lone(around: Around, text: &[u8], chunks: &[Chunk<'_>], fault: &Option<Fault>) -> bool
    ensures { result ≡ lone around text.now (map span_of_chunk chunks.now) fault.now }
{
    match chunks {
        [chunk] if fault.is_none() => is_lone_span(around, text, chunk.span),
        _ => false,
    }
}

/// A text as a string, if it is UTF-8 and has at most 4,194,304 bytes.
fn short_text(bytes: &[u8]) -> Option<&str>
    ensures { MatchOption result (is_short bytes.now ≡ false)
        (λ s. (s.now ≡ bytes.now) × (is_short bytes.now ≡ true)) }
{
    if bytes.len() > LONGEST_TEXT {
        return None;
    }
    match str::from_utf8(bytes) {
        Ok(text) => Some(text),
        Err(_) => None,
    }
}

/// Whether a text is one expression, `${{ .. }}`, with only what is allowed outside its braces.
///
/// `false` for a text of more than 4,194,304 bytes or that isn't UTF-8: no file has such a text.
/// Fails with `AllocError` when out of memory.
pub fn is_lone_chunk(alloc: Global, around: Around, text: &[u8]) -> Result<bool, AllocError>
    ensures { IfOk result (λ r. r ≡ lone_chunk around text.now) }
{
    let Some(text) = short_text(text) else {
        return Ok(false);
    };
    let (found, fault) = chunks(alloc, text)?;
    Ok(is_lone(around, text.as_bytes(), found.as_slice(), &fault))
}
