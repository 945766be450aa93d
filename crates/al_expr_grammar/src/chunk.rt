//! The expressions in a text, each between `${{` and `}}`.

ghost use Rattle.std.specs.Prelude.{◌≡◌, ◌≤◌, ◌<◌, ◌+◌, ◌^◌, ◌&&◌, IfOk, IfSome, All, map, length};
ghost use Rattle.al_base.specs.Limits.{longest_text};
ghost use Rattle.al_expr_grammar.specs.Chunks.{before_opening, chunks_of, closes, closing_position};
ghost use Rattle.al_expr_grammar.specs.Chunks.{open_fault, opens, span_of_chunk, IsCutFrom};

use crate::faults::{plain_fault, unclosed_text};
use crate::lexer::last_quote;
use al_base::{ExpressionCode, Fault, Span};
use std::alloc::{AllocError, Global};

/// The content between the braces of a `${{ .. }}`, without them.
#[derive(Clone, Copy)]
pub struct Chunk<'a> {
    /// The content, with the blanks around the expression.
    pub content: &'a str,
    /// The content's bytes in the text.
    pub span: Span,
}

/// Whether the bytes begin with `${{`.
fn opens(bytes: &[u8]) -> bool
    ensures { result ≡ opens bytes.now }
{
    matches!(bytes, [b'$', b'{', b'{', ..])
}

/// Whether the bytes begin with `}}`, outside quotes.
fn closes(outside: bool, bytes: &[u8]) -> bool
    ensures { result ≡ outside && closes bytes.now }
{
    outside && matches!(bytes, [b'}', b'}', ..])
}

/// The number of bytes before the first `${{`.
fn before_opening(bytes: &[u8]) -> Option<usize>
    ensures value { result ≡ before_opening bytes.now }
    ensures fits { IfSome result (λ n. n + 3 ≤ length bytes.now) }
{
    for (i, _) in bytes.iter().enumerate() {
        if opens(&bytes[i..]) {
            return Some(i);
        }
    }
    None
}

/// The number of bytes of a content before the first `}}` outside quotes.
fn closing_position(bytes: &[u8]) -> Option<usize>
    ensures value { result ≡ closing_position bytes.now }
    ensures fits { IfSome result (λ n. n + 2 ≤ length bytes.now) }
{
    let mut outside = true;
    for (i, b) in bytes.iter().enumerate() {
        if closes(outside, &bytes[i..]) {
            return Some(i);
        }
        if *b == b'\'' {
            outside = !outside;
        }
    }
    None
}

/// The fault of a content that starts here and isn't closed before the text ends, if it has one.
fn open_fault(start: usize, content: &[u8]) -> Option<Fault>
    requires opening { 3 ≤ start }
    requires room { start + length content.now < 2 ^ 32 }
    ensures { result ≡ open_fault start content.now }
{
    let quotes = content.iter().filter(|b| **b == b'\'').count();
    if quotes % 2 == 0 {
        let opening = Span {
            start: start as u32 - 3,
            end: start as u32,
        };
        return Some(plain_fault(ExpressionCode::UnclosedChunk, opening));
    }
    last_quote(content).map(|quote| unclosed_text(start + quote))
}

/// The closed chunks of a text, in order, and the fault at its end, if there is one (GitHub,
/// "Evaluate expressions in workflows and actions"). Spans are byte offsets in the text, from 0.
///
/// `${{` opens a chunk; in it a single quote switches quoting, and the first `}}` outside quotes
/// closes it. The fault is X2 at the last quote if the text ends in quotes, otherwise X20 at the
/// `${{` of a chunk that isn't closed. The chunks before it are given too.
///
/// # Requires
///
/// At most 4,194,304 bytes. No text of a file that `read_yaml` takes is longer.
///
/// # Errors
///
/// `AllocError` if memory runs out.
pub fn chunks(alloc: Global, text: &str) -> Result<(Vec<Chunk>, Option<Fault>), AllocError>
    requires { length text.now ≤ longest_text }
    ensures spans { IfOk result (λ r. map span_of_chunk r.0.items ≡ (chunks_of text.now).chunks) }
    ensures contents { IfOk result (λ r. All (IsCutFrom text.now) r.0.items) }
    ensures fault { IfOk result (λ r. r.1 ≡ (chunks_of text.now).fault) }
{
    let bytes = text.as_bytes();
    let mut found = Vec::new(alloc);
    let mut at = 0;
    'text: while let Some(before) = before_opening(&bytes[at..]) {
        let start = at + before + 3;
        let content = &bytes[start..];
        let Some(len) = closing_position(content) else {
            return Ok((found, open_fault(start, content)));
        };
        let end = start + len;
        let span = Span {
            start: start as u32,
            end: end as u32,
        };
        let content = &text[start..end];
        found.push(Chunk { content, span })?;
        at = end + 2;
    }
    Ok((found, None))
}
