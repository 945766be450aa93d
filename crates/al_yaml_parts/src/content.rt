//! Content lines, and the gaps in flow collections.

ghost use Rattle.al_scalar.specs.Line as line;
ghost use Rattle.al_scalar.specs.Places.{lines_at, text_at};
ghost use Rattle.al_yaml_tree.specs.Content as content;
ghost use Rattle.al_yaml_tree.specs.Flow as flow;
ghost use Rattle.al_yaml_parts.specs.Places.{IsLineFrom, Shows, next_of};
ghost use Rattle.std.specs.Prelude.{IfErr, IfOk, IfSome, IsTrue, false, length, ◌<◌, ◌≡◌, ◌≤◌};

use crate::lines::{is_text_end, next_line};
use al_base::YamlCode;
use al_scalar::FaultAt;
use al_scalar::lines::{begins, blanks_end, indent, is_blank_or_end, is_document_marker};

/// The next content line of the document, or its end.
#[derive(Clone, Copy)]
pub enum Next {
    Ended,
    /// Its indent, and the offset of its first character.
    Line { indent: usize, at: usize },
}

/// Whether the line is blank or a comment from an offset on.
pub fn is_skipped(bytes: &[u8], at: usize) -> bool
    requires { at ≤ length bytes.now }
    ensures { result ≡ content.is_skipped (text_at bytes.now at) }
{
    let solid = blanks_end(bytes, at);
    is_text_end(bytes, solid) || begins(bytes, solid, b'#')
}

/// The first line, from the start of a line on, that isn't blank or a comment; otherwise the file's
/// end.
pub fn next_text_line(bytes: &[u8], at: usize) -> usize
    requires { at ≤ length bytes.now }
    ensures from { at ≤ result }
    ensures inside { result ≤ length bytes.now }
    ensures lines { content.text_line (lines_at bytes.now at) ≡ lines_at bytes.now result }
    ensures text { result < length bytes.now
        → false ≡ content.is_skipped (text_at bytes.now result) }
{
    let mut line = at;
    'lines: while line < bytes.len() {
        if !is_skipped(bytes, line) {
            return line;
        }
        line = next_line(bytes, line);
    }
    line
}

/// The first content line from the start of a line on.
pub fn next_content(bytes: &[u8], at: usize) -> Result<Next, FaultAt>
    requires { at ≤ length bytes.now }
    ensures fault { IfErr result (λ f. f.at ≤ length bytes.now) }
    ensures is { Shows (next_of bytes.now) (content.content (lines_at bytes.now at)) result }
    ensures from { IfOk result (λ next. IsLineFrom at (length bytes.now) next) }
{
    let line = next_text_line(bytes, at);
    if line == bytes.len() || is_document_marker(bytes, line) {
        return Ok(Next::Ended);
    }
    let indent = indent(bytes, line);
    let solid = line + indent;
    if begins(bytes, solid, b'\t') {
        return Err(FaultAt::new(YamlCode::TabInIndentation, solid));
    }
    Ok(Next::Line { indent, at: solid })
}

/// Whether only blanks, which end at `solid`, and perhaps a comment after them are left on the
/// line.
fn ends_line(bytes: &[u8], at: usize, solid: usize) -> bool
    requires inside { at ≤ length bytes.now }
    requires solid { line.blanks_dropped (lines_at bytes.now at) ≡ lines_at bytes.now solid }
    requires solid_inside { solid ≤ length bytes.now }
    ensures { result ≡ content.ends_line (text_at bytes.now at) }
{
    is_text_end(bytes, solid) || is_blank_or_end(bytes, at) && begins(bytes, solid, b'#')
}

/// The start of the line after a node, which must end its line.
pub fn line_after(bytes: &[u8], at: usize) -> Result<usize, FaultAt>
    requires { at ≤ length bytes.now }
    ensures fault { IfErr result (λ f. f.at ≤ length bytes.now) }
    ensures is { Shows (lines_at bytes.now) (content.line_ended (lines_at bytes.now at)) result }
    ensures inside { IfOk result (λ next. next ≤ length bytes.now) }
    ensures from { IfOk result (λ next. at ≤ next) }
{
    let solid = blanks_end(bytes, at);
    if ends_line(bytes, at, solid) {
        return Ok(next_line(bytes, at));
    }
    Err(FaultAt::new(YamlCode::UnexpectedCharacter, solid))
}

/// Whether the dash of a block sequence's entry is at an offset.
pub fn is_dash(bytes: &[u8], at: usize) -> bool
    requires { at ≤ length bytes.now }
    ensures value { result ≡ content.is_dash (text_at bytes.now at) }
    ensures inside { IsTrue result → at < length bytes.now }
{
    begins(bytes, at, b'-') && is_blank_or_end(bytes, at + 1)
}

/// The first tab among the blanks at an offset.
pub fn first_tab(bytes: &[u8], at: usize) -> Option<usize>
    requires { at ≤ length bytes.now }
    ensures is { result ≡ content.tab_among (text_at bytes.now at) }
    ensures inside { IfSome result (λ tab. tab ≤ length bytes.now) }
{
    let solid = at + indent(bytes, at);
    begins(bytes, solid, b'\t').then_some(solid)
}

/// The offset after the blanks, breaks and comments at an offset in a flow collection.
#[inline(always)]
pub fn gap_end(bytes: &[u8], at: usize) -> usize
    requires { at ≤ length bytes.now }
    ensures from { at ≤ result }
    ensures inside { result ≤ length bytes.now }
    ensures lines { flow.gap false (lines_at bytes.now at) ≡ lines_at bytes.now result }
{
    // greater than blanks, breaks and `#`
    if at < bytes.len() && bytes[at] > b'#' {
        return at;
    }
    let solid = blanks_end(bytes, at);
    if !ends_line(bytes, at, solid) {
        return solid;
    }
    blanks_end(bytes, next_text_line(bytes, next_line(bytes, at)))
}
