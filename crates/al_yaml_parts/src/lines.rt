//! Lines at an offset, in the terms of the definitions of reading.

ghost use Rattle.al_scalar.specs.Line as line;
ghost use Rattle.al_scalar.specs.Places.{lines_at, text_at};
ghost use Rattle.al_yaml_tree.specs.Content as content;
ghost use Rattle.std.specs.Prelude.{false, length, true, ◌+◌, ◌<◌, ◌≡◌, ◌≤◌};

use al_base::is_char_start;
use al_scalar::lines::{after_break, is_line_end, line_end};

/// Whether the line's text is empty from an offset on.
pub fn is_text_end(bytes: &[u8], at: usize) -> bool
    requires { at ≤ length bytes.now }
    ensures text { result ≡ line.is_empty (text_at bytes.now at) }
    ensures inside { result ≡ false → at < length bytes.now }
{
    is_line_end(bytes, at)
}

/// The start of the next line; after the last line, the file's end.
#[tactic(auto, using(crate::proofs::LineLemmas::whole_lines_further))]
pub fn next_line(bytes: &[u8], at: usize) -> usize
    requires { at ≤ length bytes.now }
    ensures inside { result ≤ length bytes.now }
    ensures from { at ≤ result }
    ensures after { at < length bytes.now → at < result }
    ensures lines { content.whole_lines (lines_at bytes.now at) ≡ lines_at bytes.now result }
{
    let end = line_end(bytes, at);
    if end == bytes.len() {
        return end;
    }
    after_break(bytes, end)
}

/// Whether there is no break between two offsets.
pub fn is_same_line(bytes: &[u8], from: usize, to: usize) -> bool
    requires order { from ≤ to }
    requires inside { to ≤ length bytes.now }
    ensures { result ≡ content.same_line (lines_at bytes.now from) (lines_at bytes.now to) }
{
    for i in from..to {
        if bytes[i] == b'\n' || bytes[i] == b'\r' {
            return false;
        }
    }
    true
}

/// The number of characters between two offsets of a line.
pub fn characters(bytes: &[u8], from: usize, to: usize) -> usize
    requires order { from ≤ to }
    requires inside { to ≤ length bytes.now }
    requires line { content.same_line (lines_at bytes.now from) (lines_at bytes.now to) ≡ true }
    ensures is { result ≡ content.characters to (text_at bytes.now from) }
    ensures few { from + result ≤ to }
{
    let mut count = 0;
    for i in from..to {
        if is_char_start(bytes[i]) {
            count += 1;
        }
    }
    count
}
