//! The header of a block scalar: indentation and chomping indicators (YAML 1.2.2, 8.1.1).

ghost use Rattle.std.specs.Prelude.{◌≤◌, IfSome, None, Some, length};
ghost use Rattle.al_scalar.specs.Block.{header};
ghost use Rattle.al_scalar.specs.Private.BlockRead.{Indicates, EndsHeader};
ghost use Rattle.al_scalar.specs.Places.{text_at};

use crate::lines::{blanks_end, first_byte, is_line_end};

/// What happens to the final breaks of a block scalar.
#[derive(Clone, Copy)]
pub enum Chomping {
    Strip,
    Clip,
    Keep,
}

/// The indicators in the header of a block scalar, and the offset after them.
#[derive(Clone, Copy)]
pub struct Header {
    pub digit: Option<u8>,
    pub chomping: Chomping,
    pub end: usize,
}

/// `None` if the header of a block scalar may end at an offset; otherwise the place of the wrong
/// character.
pub fn header_fault(bytes: &[u8], at: usize) -> Option<usize>
    requires { at ≤ length bytes.now }
    ensures ends { EndsHeader bytes.now at result }
    ensures within { IfSome result (λ place. (at ≤ place) × (place ≤ length bytes.now)) }
{
    let solid = blanks_end(bytes, at);
    if is_line_end(bytes, solid) {
        return None;
    }
    if bytes[solid] != b'#' {
        return Some(solid);
    }
    if at == solid {
        return Some(solid);
    }
    None
}

/// The header after its digit.
fn after_digit(bytes: &[u8], at: usize, digit: u8) -> Header
    requires { at ≤ length bytes.now }
    ensures { Indicates bytes.now at (header (Some digit) None at (text_at bytes.now at)) result }
{
    match first_byte(bytes, at) {
        Some(b'+') => Header {
            digit: Some(digit),
            chomping: Chomping::Keep,
            end: at + 1,
        },
        Some(b'-') => Header {
            digit: Some(digit),
            chomping: Chomping::Strip,
            end: at + 1,
        },
        _ => Header {
            digit: Some(digit),
            chomping: Chomping::Clip,
            end: at,
        },
    }
}

/// The header after its sign.
fn after_sign(bytes: &[u8], at: usize, chomping: Chomping) -> Header
    requires { at ≤ length bytes.now }
    ensures { Indicates bytes.now at (header None (Some chomping) at (text_at bytes.now at))
        result }
{
    match first_byte(bytes, at) {
        Some(digit @ b'1'..=b'9') => Header {
            digit: Some(digit - b'0'),
            chomping,
            end: at + 1,
        },
        _ => Header {
            digit: None,
            chomping,
            end: at,
        },
    }
}

/// The header after the indicator that begins the scalar.
pub fn indicators(bytes: &[u8], at: usize) -> Header
    requires { at ≤ length bytes.now }
    ensures { Indicates bytes.now at (header None None at (text_at bytes.now at)) result }
{
    match first_byte(bytes, at) {
        Some(digit @ b'1'..=b'9') => after_digit(bytes, at + 1, digit - b'0'),
        Some(b'+') => after_sign(bytes, at + 1, Chomping::Keep),
        Some(b'-') => after_sign(bytes, at + 1, Chomping::Strip),
        _ => Header {
            digit: None,
            chomping: Chomping::Clip,
            end: at,
        },
    }
}
