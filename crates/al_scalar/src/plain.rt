//! Plain scalars (YAML 1.2.2, 7.3.3).

ghost use Rattle.std.specs.Prelude.{◌≡◌, ◌<◌, ◌≤◌, ◌^◌, false, not, ◌&&◌, ◌||◌, length, IfOk};
ghost use Rattle.std.specs.Prelude.{IsTrue};
ghost use Rattle.al_scalar.specs.Line as line;
ghost use Rattle.al_scalar.specs.Places.{lines_at, text_at};
ghost use Rattle.al_scalar.specs.LineEnds.{SameLine};
ghost use Rattle.al_scalar.specs.Plain as plain;
ghost use Rattle.al_scalar.specs.Private.PlainLines.{context_of, begins_blank_line, text_lines};
ghost use Rattle.al_scalar.specs.Private.PlainLines.{IsWordByte, PartTo};
ghost use Rattle.al_scalar.specs.Private.Reads.{Gives, StaysWithin};

use crate::faults::FaultAt;
use crate::folding::fold_break;
use crate::lines::{
    after_break, begins, blanks_end, indent, is_blank_or_end, is_break_at, is_document_marker,
    is_flow_indicator, is_line_end,
};
use crate::reads::Taken;
use crate::texts::Text;
use al_base::YamlCode;
use std::alloc::{AllocError, Global};

/// The context of a plain scalar: a flow collection, or block context with the minimum indent of
/// further lines.
#[derive(Clone, Copy)]
pub enum PlainContext {
    Flow,
    Block(u32),
}

/// Whether a scalar is in a flow collection.
pub fn is_flow(context: PlainContext) -> bool
    ensures { result ≡ plain.is_flow (context_of context) }
{
    matches!(context, PlainContext::Flow)
}

/// Whether a colon before an offset separates a key from its value.
fn ends_key(bytes: &[u8], at: usize, context: PlainContext) -> bool
    requires { at ≤ length bytes.now }
    ensures { result ≡ plain.ends_key (context_of context) (text_at bytes.now at) }
{
    is_blank_or_end(bytes, at) || is_flow(context) && is_flow_indicator(bytes[at])
}

/// Whether a plain scalar ends before an offset.
fn ends_plain(bytes: &[u8], at: usize, context: PlainContext, after_blank: bool) -> bool
    requires { at ≤ length bytes.now }
    ensures { result ≡ plain.ends_plain (context_of context) after_blank (text_at bytes.now at) }
{
    if is_line_end(bytes, at) {
        return true;
    }
    let byte = bytes[at];
    if byte == b':' {
        return ends_key(bytes, at + 1, context);
    }
    if byte == b'#' {
        return after_blank;
    }
    is_flow(context) && is_flow_indicator(byte)
}

/// Whether a byte is no blank and no part of a break, and no scalar ends before it.
fn is_word(byte: u8) -> bool
    ensures { IsTrue result → IsWordByte byte }
{
    // most are letters
    byte.is_ascii_lowercase()
        || byte > b' ' && byte != b':' && byte != b'#' && !is_flow_indicator(byte)
}

/// The offset after the part of a plain scalar on one line, without trailing blanks.
fn plain_end(bytes: &[u8], at: usize, context: PlainContext, after_blank: bool) -> usize
    requires { at ≤ length bytes.now }
    ensures from { at ≤ result }
    ensures inside { result ≤ length bytes.now }
    ensures part { PartTo (context_of context) after_blank bytes.now at result }
    ensures same { SameLine (lines_at bytes.now at) (lines_at bytes.now result) }
{
    let mut end = at;
    let mut blank_before = after_blank;
    'words: loop {
        if end < bytes.len() && is_word(bytes[end]) {
            end += 1;
            blank_before = false;
            continue 'words;
        }
        let solid = blanks_end(bytes, end);
        blank_before |= end < solid;
        if ends_plain(bytes, solid, context, blank_before) {
            return end;
        }
        end = solid + 1;
        blank_before = false;
    }
}

/// The start of the first line, from an offset on, that isn't blank; otherwise that of the last
/// line.
fn text_line(bytes: &[u8], from: usize) -> usize
    requires { from ≤ length bytes.now }
    ensures from { from ≤ result }
    ensures inside { result ≤ length bytes.now }
    ensures lines { text_lines (lines_at bytes.now from) ≡ lines_at bytes.now result }
    ensures text { begins_blank_line (lines_at bytes.now result) ≡ false }
{
    let mut start = from;
    'blank_lines: loop {
        let solid = blanks_end(bytes, start);
        if !is_break_at(bytes, solid) {
            return start;
        }
        start = after_break(bytes, solid);
    }
}

/// Whether a line continues a plain scalar; its text begins at the second offset.
fn continues(bytes: &[u8], start: usize, solid: usize, context: PlainContext) -> bool
    requires order { start ≤ length bytes.now }
    requires inside { solid ≤ length bytes.now }
    requires solid { line.after_blanks (text_at bytes.now start) ≡ text_at bytes.now solid }
    ensures { result ≡ plain.continues (context_of context) (text_at bytes.now start) }
{
    match context {
        PlainContext::Flow => !ends_plain(bytes, solid, context, true),
        PlainContext::Block(within) => {
            indent(bytes, start) >= within as usize
                && !begins(bytes, solid, b'#')
                && !is_document_marker(bytes, start)
        }
    }
}

/// Whether a line has text and continues a plain scalar.
fn goes_on(bytes: &[u8], start: usize, solid: usize, context: PlainContext) -> bool
    requires order { start ≤ length bytes.now }
    requires inside { solid ≤ length bytes.now }
    requires solid { line.after_blanks (text_at bytes.now start) ≡ text_at bytes.now solid }
    ensures { result ≡
        (not (line.is_empty (text_at bytes.now solid))
        && plain.continues (context_of context) (text_at bytes.now start)) }
{
    !is_line_end(bytes, solid) && continues(bytes, start, solid, context)
}

/// Whether a colon after a further line of a plain scalar would make the line a key.
fn makes_key(bytes: &[u8], at: usize, context: PlainContext) -> bool
    requires { at ≤ length bytes.now }
    ensures { result ≡
        (not (plain.is_flow (context_of context))
        && plain.is_value_colon (context_of context) (text_at bytes.now at)) }
{
    if is_flow(context) {
        return false;
    }
    begins(bytes, at, b':') && ends_key(bytes, at + 1, context)
}

/// Reads a plain scalar, starting at its first character.
pub fn read_plain(
    alloc: Global,
    bytes: &[u8],
    at: usize,
    context: PlainContext,
) -> Result<Result<Taken, FaultAt>, AllocError>
    requires inside { at ≤ length bytes.now }
    requires size { length bytes.now < 2 ^ 32 }
    ensures gives { IfOk result
        (λ read. Gives bytes.now (plain.plain (context_of context) (lines_at bytes.now at)) read) }
    ensures within { IfOk result (λ read. StaysWithin bytes.now at read) }
{
    let mut text = Text::new(alloc, at);
    let mut end = plain_end(bytes, at, context, false);
    text.push_run(bytes, at, end)?;
    'text_lines: loop {
        let line_end = blanks_end(bytes, end);
        if !is_break_at(bytes, line_end) {
            return Ok(Ok(Taken {
                text,
                end,
                next: end,
            }));
        }
        let next = after_break(bytes, line_end);
        let start = text_line(bytes, next);
        let solid = blanks_end(bytes, start);
        if !goes_on(bytes, start, solid, context) {
            return Ok(Ok(Taken {
                text,
                end,
                next: end,
            }));
        }
        let part_end = plain_end(bytes, solid, context, true);
        let rest = blanks_end(bytes, part_end);
        if makes_key(bytes, rest, context) {
            return Ok(Err(FaultAt {
                code: YamlCode::UnexpectedCharacter,
                at: rest,
            }));
        }
        fold_break(&mut text, bytes, line_end, false)?;
        text.push_run(bytes, solid, part_end)?;
        end = part_end;
    }
}
