//! The keys of a mapping.

ghost use Rattle.al_base.specs.NamePlaces.{TellsFirsts, is_first_text, text_place, text_position};
ghost use Rattle.al_tree.specs.Keys.{IsIndexOf, has_first, holds, key_of as key_in, keys_in};
ghost use Rattle.al_tree.specs.Keys.{repeats};
ghost use Rattle.al_tree.specs.Faults.{is_key};
ghost use Rattle.al_yaml_tree.specs.View.{entry_view};
ghost use Rattle.std.specs.Prelude.{◌≡◌, ◌<◌, find, length, map, option_map, slice_index_or, take};
ghost use Rattle.std.specs.Prelude.{IfOk, []};

use al_base::TextPositions;
use al_yaml_tree::Entry;
use std::alloc::{AllocError, Global};

/// The text of an entry's key, decoded.
#[tactic(auto, using(al_yaml_tree::proofs::ViewLemmas::entry_parts))]
pub fn key_of(entry: &Entry) -> &[u8]
    ensures { result.now ≡ key_in (entry_view entry.now) }
{
    entry.key.text()
}

/// Up to this many keys of a mapping are compared one by one; most mappings have no more.
pub const FEW_KEYS: usize = 8;

/// The first entry with a key.
pub(crate) fn entry_among<'a>(entries: &'a [Entry], key: &str) -> Option<&'a Entry>
    ensures { option_map (λ e. entry_view e.now) result
        ≡ find (is_key key.now) (map entry_view entries.now) }
{
    entries.iter().find(|entry| key_of(entry) == key.as_bytes())
}

/// The first position of the key of each entry. Fails with `AllocError` if memory runs out.
fn key_positions<'a>(alloc: Global, entries: &'a [Entry]) -> Result<TextPositions<'a>, AllocError>
    ensures position { IfOk result
        (λ p. text_position p ≡ text_place (keys_in (map entry_view entries.now))) }
    ensures first { let ks = keys_in (map entry_view entries.now) in
        IfOk result (λ p. TellsFirsts (text_place ks) ks (is_first_text p)) }
{
    let mut keys = Vec::with_capacity(alloc, entries.len())?;
    for entry in entries {
        keys.push(key_of(entry))?;
    }
    TextPositions::of(alloc, keys.as_slice())
}

/// The keys of a mapping, prepared for lookups.
#[derive(Drop)]
pub struct KeyIndex<'a> {
    entries: &'a [Entry],
    /// The first position of each key, for a mapping with many keys.
    positions: Option<TextPositions<'a>>,
}

impl<'a> KeyIndex<'a> {
    /// The keys of some entries. With at most [`FEW_KEYS`] entries it takes no time and doesn't
    /// allocate; with more, it sorts them.
    ///
    /// # Errors
    ///
    /// `AllocError` if memory runs out.
    #[tactic(auto, using(crate::proofs::KeyLemmas::few_keys, crate::proofs::KeyLemmas::many_keys))]
    #[inline(always)]
    pub fn of(alloc: Global, entries: &'a [Entry]) -> Result<KeyIndex<'a>, AllocError>
        ensures { IfOk result (λ x. IsIndexOf x entries.now) }
    {
        if entries.len() <= FEW_KEYS {
            return Ok(KeyIndex {
                entries,
                positions: None,
            });
        }
        let positions = key_positions(alloc, entries)?;
        Ok(KeyIndex {
            entries,
            positions: Some(positions),
        })
    }

    /// The keys of the first `count` entries, or of all entries if there are fewer.
    pub fn first(&self, count: usize) -> KeySet<'_>
        ensures { holds result ≡ has_first self.now count }
    {
        KeySet { index: self, count }
    }

    /// Whether the entry at a position, which has this key, repeats an earlier one.
    fn repeats(&self, i: usize, key: &[u8]) -> bool
        ensures { result ≡ repeats self.now i key.now }
    {
        match &self.positions {
            None => self.first(i).contains(key),
            Some(positions) => !positions.is_first(i),
        }
    }

    /// The key of the entry at position `i`, from 0, with the keys of the entries before it.
    ///
    /// # Requires
    ///
    /// The index is one of [`KeyIndex::of`], and `i` is less than the number of its entries.
    pub fn key_at(&self, i: usize) -> EntryKey<'_>
        requires index { IsIndexOf self.now self.now.entries.now }
        requires within { i < length self.now.entries.now }
        ensures seen { holds result.seen ≡ has_first self.now i }
        ensures key { result.key.now
            ≡ slice_index_or (keys_in (map entry_view self.now.entries.now)) i [] }
    {
        let key = key_of(&self.entries[i]);
        EntryKey {
            seen: self.first(i),
            key,
            is_repeated: self.repeats(i, key),
        }
    }
}

/// The keys of the first entries of a mapping, for [`standing_of`](crate::standing_of).
#[derive(Clone, Copy)]
pub struct KeySet<'a> {
    index: &'a KeyIndex<'a>,
    count: usize,
}

impl<'a> KeySet<'a> {
    /// Whether a key, compared exactly, is among them. With many keys it takes time logarithmic in
    /// their number.
    pub fn contains(self, key: &[u8]) -> bool
        ensures { result ≡ holds self.entry key.now }
    {
        match &self.index.positions {
            None => {
                let mut first = self.index.entries.iter().take(self.count);
                first.any(|entry| key == key_of(entry))
            }
            Some(positions) => positions
                .get(key)
                .is_some_and(|position| position < self.count),
        }
    }
}

/// The key of an entry, with the keys of the entries before it.
#[derive(Clone, Copy)]
pub struct EntryKey<'a> {
    /// The keys of the entries before it.
    pub seen: KeySet<'a>,
    /// The text of its key.
    pub key: &'a [u8],
    /// Whether the key is among those.
    pub is_repeated: bool,
    ghost told: { is_repeated ≡ holds seen key.now },
}
