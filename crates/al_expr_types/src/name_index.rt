//! An index of names that are added one by one.

ghost use Rattle.std.specs.Prelude.{◌≡◌, IfOk, None, OnOk};
ghost use Rattle.al_base.specs.Names.{lower_case};
ghost use Rattle.al_base.specs.SortedTexts.{sort_key};
ghost use Rattle.al_expr_types.specs.Places.{and_place, place_in};

use al_base::{in_lower_case, last_bytes};
use std::alloc::{AllocError, Global};
use std::collections::BTreeMap;
use std::collections::btree_map::Entry;

/// The first position of each name, ignoring ASCII case. Adding and finding a name takes time
/// logarithmic in their number, and linear in the name's length.
#[derive(Drop)]
pub(crate) struct NameIndex {
    alloc: Global,
    /// Positions by the names in lower case. The last bytes come first as a number: numbers are
    /// fast to compare, and mostly differ.
    positions: BTreeMap<(u64, Vec<u8>), usize>,
}

/// The key of a name. Fails with `AllocError` when out of memory, as everything here does.
fn key_of(alloc: Global, name: &[u8]) -> Result<(u64, Vec<u8>), AllocError>
    ensures { IfOk result (λ k. (k.0, k.1.items) ≡ sort_key (lower_case name.now)) }
{
    let lower = in_lower_case(alloc, name)?;
    Ok((last_bytes(lower.as_slice()), lower))
}

impl NameIndex {
    /// The index of no names. Doesn't allocate.
    pub(crate) fn new(alloc: Global) -> NameIndex
        ensures { place_in result ≡ λ name. None }
    {
        NameIndex {
            alloc,
            positions: BTreeMap::new(alloc),
        }
    }

    /// Adds a name with its position, unless an equal one was added before.
    pub(crate) fn insert(&mut self, name: &[u8], position: usize) -> Result<(), AllocError>
        ensures { OnOk result
            (place_in self.new ≡ and_place (place_in self.old) name.now position) }
    {
        match self.positions.entry(key_of(self.alloc, name)?)? {
            Entry::Occupied(_) => Ok(()),
            Entry::Vacant(entry) => {
                entry.insert(position);
                Ok(())
            }
        }
    }

    /// The first position of a name.
    pub(crate) fn get(&self, name: &[u8]) -> Result<Option<usize>, AllocError>
        ensures { IfOk result (λ i. i ≡ place_in self.now name.now) }
    {
        let key = key_of(self.alloc, name)?;
        Ok(self.positions.get(&key).copied())
    }
}
