//! Where texts and names first occur in a list.
ghost use Rattle.std.specs.Prelude.{◌≡◌, IfOk};
ghost use Rattle.al_base.specs.Names.{lower_case};
ghost use Rattle.al_base.specs.SortedTexts.{AreSorted};

use super::sorted_texts::{Entry, places_by, position_by, sort_entries};
use std::alloc::{AllocError, Global};

/// A name with its ASCII letters in lower case: the same for names that differ only in ASCII case.
///
/// # Errors
///
/// `AllocError` if memory runs out.
pub fn in_lower_case(alloc: Global, name: &[u8]) -> Result<Vec<u8>, AllocError>
    ensures { IfOk result (λ v. v.items ≡ lower_case name.now) }
{
    name.to_ascii_lowercase(alloc)
}

/// Where each text of a list first occurs. Building it sorts the texts; a lookup takes time
/// logarithmic in their number.
#[derive(Drop)]
pub struct TextPositions<'a> {
    entries: Vec<Entry<&'a [u8]>>,
    /// Where the text at each position first occurs.
    places: Vec<usize>,
    ghost sorted: { AreSorted (λ t. t.now) entries.items },
}

impl<'a> TextPositions<'a> {
    ghost use Rattle.std.specs.Prelude.{map};
    ghost use Rattle.al_base.specs.NamePlaces.{TellsFirsts, is_first_text, text_place};
    ghost use Rattle.al_base.specs.NamePlaces.{text_position};

    /// The positions of these texts.
    ///
    /// # Errors
    ///
    /// `AllocError` if memory runs out.
    pub fn of(alloc: Global, texts: &[&'a [u8]]) -> Result<TextPositions<'a>, AllocError>
        ensures position { IfOk result
            (λ p. text_position p ≡ text_place (map (λ t. t.now) texts.now)) }
        ensures first { let ts = map (λ t. t.now) texts.now in
            IfOk result (λ p. TellsFirsts (text_place ts) ts (is_first_text p)) }
    {
        let mut entries = Vec::with_capacity(alloc, texts.len())?;
        for (i, text) in texts.iter().enumerate() {
            entries.push(Entry::new(*text, i))?;
        }
        let entries = sort_entries(entries)?;
        let places = places_by(alloc, entries.as_slice())?;
        Ok(TextPositions { entries, places })
    }

    /// Whether no earlier position has the text at position `i`, from 0; `false` beyond the list.
    pub fn is_first(&self, i: usize) -> bool
        ensures { result ≡ is_first_text self.now i }
    {
        i < self.places.len() && self.places[i] == i
    }

    /// The position from 0 at which a text first occurs; `None` if it isn't in the list.
    pub fn get(&self, text: &[u8]) -> Option<usize>
        ensures { result ≡ text_position self.now text.now }
    {
        position_by(self.entries.as_slice(), text)
    }
}

/// Where each name of a list first occurs, ignoring ASCII case. Building it sorts the names; a
/// lookup takes time logarithmic in their number.
#[derive(Drop)]
pub struct NamePositions {
    /// The names in lower case.
    entries: Vec<Entry<Vec<u8>>>,
    /// Where the name at each position first occurs.
    places: Vec<usize>,
    ghost sorted: { AreSorted (λ n. n.items) entries.items },
}

impl NamePositions {
    ghost use Rattle.std.specs.Prelude.{map};
    ghost use Rattle.al_base.specs.NamePlaces.{TellsFirsts, is_first_name, name_place};
    ghost use Rattle.al_base.specs.NamePlaces.{name_position};

    /// The positions of these names.
    ///
    /// # Errors
    ///
    /// `AllocError` if memory runs out.
    pub fn of(alloc: Global, names: &[&[u8]]) -> Result<NamePositions, AllocError>
        ensures position { IfOk result
            (λ p. name_position p ≡ name_place (map (λ n. n.now) names.now)) }
        ensures first { let ns = map (λ n. n.now) names.now in
            IfOk result (λ p. TellsFirsts (name_place ns) ns (is_first_name p)) }
    {
        let mut entries = Vec::with_capacity(alloc, names.len())?;
        for (i, name) in names.iter().enumerate() {
            entries.push(Entry::new(in_lower_case(alloc, name)?, i))?;
        }
        let entries = sort_entries(entries)?;
        let places = places_by(alloc, entries.as_slice())?;
        Ok(NamePositions { entries, places })
    }

    /// Whether no earlier position has the name at position `i`, from 0; `false` beyond the list.
    pub fn is_first(&self, i: usize) -> bool
        ensures { result ≡ is_first_name self.now i }
    {
        i < self.places.len() && self.places[i] == i
    }

    /// The position from 0 at which a name first occurs; `None` if it isn't in the list.
    ///
    /// # Errors
    ///
    /// `AllocError` if memory runs out.
    pub fn get(&self, name: &[u8]) -> Result<Option<usize>, AllocError>
        ensures { IfOk result (λ i. i ≡ name_position self.now name.now) }
    {
        let lower = in_lower_case(*self.places.allocator(), name)?;
        Ok(position_by(self.entries.as_slice(), lower.as_slice()))
    }
}
