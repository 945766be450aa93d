//! Breaks inside plain and quoted scalars (YAML 1.2.2, 6.5 and 7.3).

ghost use Rattle.std.specs.Prelude.{◌≡◌, ◌<◌, ◌≤◌, ◌^◌, ◌++◌, length, IfOk};
ghost use Rattle.al_scalar.specs.Places.{lines_at};
ghost use Rattle.al_scalar.specs.LineEnds.{later, IsLineEnd};
ghost use Rattle.al_scalar.specs.Private.PlainLines.{empty_ends, break_left};
ghost use Rattle.al_scalar.specs.Private.Folding.{solid_lines};

use crate::lines::{after_break, blanks_end, is_break_at};
use crate::texts::Text;
use std::alloc::AllocError;

/// Folds the break at an offset and the empty lines after it, and returns where the next text
/// begins. An escaped break adds nothing itself (YAML 1.2.2, 6.5 and 7.3.1).
///
/// Fails with `AllocError` when out of memory.
pub fn fold_break(
    text: &mut Text,
    bytes: &[u8],
    end: usize,
    escaped: bool,
) -> Result<usize, AllocError>
    requires inside { end < length bytes.now }
    requires is_break { IsLineEnd bytes.now end }
    requires size { length bytes.now < 2 ^ 32 }
    ensures inside { IfOk result (λ next. next ≤ length bytes.now) }
    ensures after { IfOk result (λ next. end < next) }
    ensures lines { IfOk result
        (λ next. solid_lines (later (lines_at bytes.now end)) ≡ lines_at bytes.now next) }
    ensures text { IfOk result
        (λ _. text.new
        ≡ text.old ++ break_left escaped end (empty_ends (later (lines_at bytes.now end)))) }
{
    let mut start = after_break(bytes, end);
    let mut folded = escaped;
    'empty_lines: loop {
        let solid = blanks_end(bytes, start);
        if !is_break_at(bytes, solid) {
            if !folded {
                text.push(b' ', end)?;
            }
            return Ok(solid);
        }
        text.push(b'\n', solid)?;
        folded = true;
        start = after_break(bytes, solid);
    }
}
