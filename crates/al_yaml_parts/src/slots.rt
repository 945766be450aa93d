//! The surroundings of a node in block context.

ghost use Rattle.al_scalar.specs.Places.{lines_at, text_at};
ghost use Rattle.al_yaml_parts.specs.BlockReads.{IsTabInside, slot_of, spot_of};
ghost use Rattle.al_yaml_tree.specs.Blocks as block;
ghost use Rattle.std.specs.Prelude.{length, ◌≡◌, ◌≤◌};

use crate::content::{first_tab, is_dash};

/// Where a node begins: on its own line; after a dash, with the first tab before it; or after a key
/// on the key's line.
#[derive(Clone, Copy)]
pub enum Spot {
    OwnLine,
    Compact(Option<usize>),
    AfterKey,
}

/// An offset of the file with its column: of the first character of a node or a collection, or
/// after a dash or a colon.
#[derive(Clone, Copy)]
pub struct Cursor {
    pub at: usize,
    pub column: usize,
}

/// The surroundings of a node: its spot; the least indent of its further lines; whether it is the
/// value of a mapping's entry; and the offset of an empty node in its place.
#[derive(Clone, Copy)]
pub struct Slot {
    pub spot: Spot,
    pub within: usize,
    pub in_mapping: bool,
    pub empty: usize,
}

/// The spot after the blanks at an offset.
pub fn spot_after(bytes: &[u8], at: usize, spot: Spot) -> Spot
    requires inside { at ≤ length bytes.now }
    requires tab { IsTabInside (length bytes.now) spot }
    ensures is { spot_of result ≡ block.spot_after (text_at bytes.now at) (spot_of spot) }
    ensures tab { IsTabInside (length bytes.now) result }
{
    match spot {
        Spot::OwnLine | Spot::Compact(None) => Spot::Compact(first_tab(bytes, at)),
        Spot::Compact(Some(_)) | Spot::AfterKey => spot,
    }
}

/// The tab before a compact collection.
pub fn tab_before(spot: Spot) -> Option<usize>
    ensures { result ≡ block.tab_before (spot_of spot) }
{
    match spot {
        Spot::Compact(tab) => tab,
        Spot::OwnLine | Spot::AfterKey => None,
    }
}

/// Whether a node is a value on its key's line.
pub fn is_after_key(spot: Spot) -> bool
    ensures { result ≡ block.is_after_key (spot_of spot) }
{
    matches!(spot, Spot::AfterKey)
}

/// Whether a content line holds the node: one deeper than what encloses it, or a sequence at the
/// indent of its key.
pub fn is_deeper(bytes: &[u8], slot: Slot, indent: usize, at: usize) -> bool
    requires { at ≤ length bytes.now }
    ensures { result ≡ block.is_deeper (slot_of slot) indent (lines_at bytes.now at) }
{
    slot.within <= indent || slot.in_mapping && slot.within == indent + 1 && is_dash(bytes, at)
}
