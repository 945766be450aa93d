//! Faults of scalars, each at one character.

ghost use Rattle.std.specs.Prelude.{◌≡◌, ◌+◌, ◌<◌, ◌≤◌, ◌^◌, drop, length};
ghost use Rattle.al_scalar.specs.Characters.{character_at, character_length};

use al_base::{Span, YamlCode, is_char_start};
use thiserror::Error;

/// A YAML fault of a file, at one character.
#[derive(Clone, Copy, PartialEq, Eq, Debug, Error)]
#[error("wrong YAML at byte {}: {code:?}", .span.start)]
pub struct YamlFault {
    /// What is wrong.
    pub code: YamlCode,
    /// The bytes of the character where it is: the first byte of an ill-formed sequence of UTF-8
    /// alone, and no byte at the end of the file.
    pub span: Span,
}

/// A fault at the character that begins at an offset, of which the span isn't known yet.
/// [`fault_at`] gives it.
#[derive(Clone, Copy)]
pub struct FaultAt {
    /// What is wrong.
    pub code: YamlCode,
    /// The byte offset at which the character begins; the file's length at its end.
    pub at: usize,
}

impl FaultAt {
    /// A fault at a byte offset.
    pub fn new(code: YamlCode, at: usize) -> FaultAt
        ensures { result ≡ record { code = code; at = at } }
    {
        FaultAt { code, at }
    }
}

/// A fault with the span of the character that begins at byte offset `at`, which is empty at the
/// end of the file. The character extends over the bytes 0x80 to 0xBF that follow its first byte.
/// Doesn't allocate.
///
/// # Requires
///
/// `at` is at most the number of bytes, and these are fewer than 2^32.
pub fn fault_at(bytes: &[u8], at: usize, code: YamlCode) -> YamlFault
    requires inside { at ≤ length bytes.now }
    requires size { length bytes.now < 2 ^ 32 }
    ensures code { result.code ≡ code }
    ensures span { result.span ≡ character_at bytes.now at }
{
    YamlFault {
        code,
        span: Span {
            start: at as u32,
            end: character_end(bytes, at) as u32,
        },
    }
}

/// The offset after the character at an offset; at the end of the file, the offset itself.
fn character_end(bytes: &[u8], at: usize) -> usize
    requires { at ≤ length bytes.now }
    ensures inside { result ≤ length bytes.now }
    ensures end { result ≡ at + character_length (drop at bytes.now) }
{
    if at == bytes.len() {
        return at;
    }
    let mut end = at + 1;
    while end < bytes.len() && !is_char_start(bytes[end]) {
        end += 1;
    }
    end
}
