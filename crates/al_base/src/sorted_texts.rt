//! Sorted texts, each with its position in the original list.

ghost use Rattle.std.specs.Prelude.{◌≡◌, IfOk, IsPermutation};
ghost use Rattle.al_base.specs.SortedTexts.{AreSorted, StandIn, TellPlaces, entry_key, key_cmp};
ghost use Rattle.al_base.specs.SortedTexts.{position_among, sort_key, tail_number};

use std::alloc::{AllocError, Global};
use std::cmp::Ordering;
use std::convert::AsSlice;

/// The last eight bytes of a text as one number, in which most different texts differ.
pub fn last_bytes(text: &[u8]) -> u64
    ensures { result ≡ tail_number text.now }
{
    text.iter().fold(0, |number: u64, byte| {
        number.wrapping_mul(256).wrapping_add(u64::from(*byte))
    })
}

/// A text and its position, after the text's last bytes as a number.
#[derive(Drop)]
pub(crate) struct Entry<T> {
    number: u64,
    text: T,
    position: usize,
}

impl<T: AsSlice<u8> + Drop> Entry<T> {
    /// A text at a position.
    pub(crate) fn new(text: T, position: usize) -> Entry<T>
        ensures key { entry_key T.items result ≡ sort_key (T.items text) }
        ensures position { result.position ≡ position }
    {
        Entry {
            number: last_bytes(text.as_slice()),
            text,
            position,
        }
    }

    /// The order of this entry and a text with this number.
    fn compare(&self, number: u64, text: &[u8]) -> Ordering
        ensures { result ≡ key_cmp (entry_key T.items self.now) (number, text.now) }
    {
        self.number
            .cmp(&number)
            .then_with(|| self.text.as_slice().cmp(text))
    }
}

/// The entries in order. Those of equal texts stay in the order that they had. Fails with
/// `AllocError` when out of memory.
pub(crate) fn sort_entries<T: AsSlice<u8> + Drop>(
    mut entries: Vec<Entry<T>>,
) -> Result<Vec<Entry<T>>, AllocError>
    ensures order { IfOk result (λ es. AreSorted T.items es.items) }
    ensures positions { IfOk result
        (λ es. position_among T.items es.items ≡ position_among T.items entries.items) }
    ensures entries { IfOk result (λ es. IsPermutation entries.items es.items) }
{
    entries.sort_by(|a, b| a.compare(b.number, b.text.as_slice()))?;
    Ok(entries)
}

/// The first position of a text, by sorted entries.
pub(crate) fn position_by<T: AsSlice<u8> + Drop>(entries: &[Entry<T>], text: &[u8]) -> Option<usize>
    requires { AreSorted T.items entries.now }
    ensures { result ≡ position_among T.items entries.now text.now }
{
    let number = last_bytes(text);
    let i = entries.partition_point(|entry| entry.compare(number, text).is_lt());
    if i < entries.len() && entries[i].compare(number, text).is_eq() {
        return Some(entries[i].position);
    }
    None
}

/// The first position of the text at each position, by sorted entries. Fails with `AllocError` when
/// out of memory.
pub(crate) fn places_by<T: AsSlice<u8> + Drop>(
    alloc: Global,
    entries: &[Entry<T>],
) -> Result<Vec<usize>, AllocError>
    requires order { AreSorted T.items entries.now }
    requires texts { StandIn T.items entries.now }
    ensures { IfOk result (λ v. TellPlaces T.items entries.now v.items) }
{
    let mut places = vec![in alloc; 0; entries.len()]?;
    let mut place = 0;
    for i in 0..entries.len() {
        let entry = &entries[i];
        let text = entry.text.as_slice();
        if i == 0 || !entries[i - 1].compare(entry.number, text).is_eq() {
            place = entry.position;
        }
        places[entry.position] = place;
    }
    Ok(places)
}
