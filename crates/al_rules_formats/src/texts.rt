//! The parts of a text, and the pieces between separators.

ghost use Rattle.al_rules_formats.specs.Texts.{has_part as part_of, pieces};
ghost use Rattle.std.specs.Prelude.{◌≡◌, map, IfOk};

use std::alloc::{AllocError, Global};

/// Whether a text contains a part; an empty part is contained in each text that isn't empty.
pub fn has_part(part: &[u8], text: &[u8]) -> bool
    ensures { result ≡ part_of part.now text.now }
{
    let mut rest = text;
    while let Some((_, tail)) = rest.split_first() {
        if rest.starts_with(part) {
            return true;
        }
        rest = tail;
    }
    false
}

/// The pieces between separators. Fails with `AllocError` when out of memory.
pub(crate) fn split(alloc: Global, bytes: &[u8], separator: u8) -> Result<Vec<&[u8]>, AllocError>
    ensures { IfOk result (λ v. map (λ p. p.now) v.items ≡ pieces separator bytes.now) }
{
    bytes.split(move |b| *b == separator).collect(alloc)
}
