//! Texts as they are printed, with a `?` for each control byte of ASCII.
ghost use Rattle.std.specs.Prelude.{◌≡◌, ◌<◌, All, IfOk, MatchOption, false, length, slice_index};
ghost use Rattle.std.specs.Prelude.{string_bytes, take, true};
ghost use Rattle.std.specs.Char.{is_ascii_control};
ghost use Rattle.al_base.specs.Printable.{printable};

use std::alloc::{AllocError, Global};

/// The index of the first ASCII control byte of a text (0 to 31, or 127), if there is one. Doesn't
/// allocate.
pub fn first_control(text: &[u8]) -> Option<usize>
    ensures { MatchOption result (All (λ b. is_ascii_control b ≡ false) text.now)
        (λ at. (at < length text.now) × All (λ b. is_ascii_control b ≡ false) (take at text.now)
        × (is_ascii_control (slice_index text.now at) ≡ true)) }
{
    text.iter().position(|byte| byte.is_ascii_control())
}

/// A copy of a text as it is printed, with a `?` for each ASCII control character (U+0000 to
/// U+001F, and U+007F).
///
/// # Errors
///
/// `AllocError` if memory runs out.
pub fn printable(alloc: Global, text: &str) -> Result<String, AllocError>
    ensures { IfOk result (λ it. string_bytes it ≡ printable text.now) }
{
    text.chars()
        .map(|c| if c.is_ascii_control() { '?' } else { c })
        .collect(alloc)
}
