//! The names of fields, searched one by one, or by an index if there are many.

ghost use Rattle.std.specs.Prelude.{◌≡◌, ◌++◌, ◌∷◌, [], IfOk, None, map, true};
ghost use Rattle.al_base.specs.NamePlaces.{name_place};
ghost use Rattle.al_expr_types.specs.Once.{are_once};
ghost use Rattle.al_expr_types.specs.Places.{IsNameIndex, place_by};

use crate::name_index::NameIndex;
use al_base::is_same_name;
use std::alloc::{AllocError, Global};

/// Up to this many names are searched one by one, which takes no memory. Of more, the positions are
/// kept.
const MOST_SCANNED: usize = 64;

/// And up to this many if one is longer than `LONG`.
const MOST_LONG_SCANNED: usize = 8;

/// The number of bytes up to which a name takes little time to compare.
const LONG: usize = 32;

/// The names of fields in order, each once, ignoring ASCII case. They are borrowed from a file.
#[derive(Drop)]
pub struct Names<'a> {
    names: Vec<&'a [u8]>,
    /// The index, if there are too many names to search one by one.
    index: Option<NameIndex>,
    ghost indexed: { place_by index (map (λ n. n.now) names.items) ≡ name_place (map (λ n. n.now) names.items) },
    ghost once: { are_once (map (λ n. n.now) names.items) ≡ true },
}

/// The first position of a name, ignoring ASCII case, by a search one by one.
fn scan(names: &[&[u8]], name: &[u8]) -> Option<usize>
    ensures { result ≡ name_place (map (λ n. n.now) names.now) name.now }
{
    for (i, other) in names.iter().enumerate() {
        if is_same_name(other, name) {
            return Some(i);
        }
    }
    None
}

/// The index of some names. Fails with `AllocError` when out of memory, as everything here does.
fn index_of(alloc: Global, names: &[&[u8]]) -> Result<NameIndex, AllocError>
    ensures { IfOk result (λ index. IsNameIndex index (map (λ n. n.now) names.now)) }
{
    let mut index = NameIndex::new(alloc);
    for (i, name) in names.iter().enumerate() {
        index.insert(name, i)?;
    }
    Ok(index)
}

/// The index of names before one more is added: the existing one, or a new one if they become too
/// many to search one by one.
fn index_for_more(
    alloc: Global,
    names: &[&[u8]],
    index: Option<NameIndex>,
    more: &[u8],
) -> Result<Option<NameIndex>, AllocError>
    requires { place_by index (map (λ n. n.now) names.now)
        ≡ name_place (map (λ n. n.now) names.now) }
    ensures { IfOk result
        (λ index. place_by index (map (λ n. n.now) names.now)
        ≡ name_place (map (λ n. n.now) names.now)) }
{
    if index.is_some() {
        return Ok(index);
    }
    let most = if more.len() > LONG {
        MOST_LONG_SCANNED
    } else {
        MOST_SCANNED
    };
    if names.len() < most {
        return Ok(None);
    }
    Ok(Some(index_of(alloc, names)?))
}

impl<'a> Names<'a> {
    ghost use Rattle.std.specs.Prelude.{◌<◌, get_or, length};
    ghost use Rattle.al_expr_types.specs.Names.{names_in};

    /// No names. Doesn't allocate.
    pub fn new(alloc: Global) -> Names<'a>
        ensures { names_in result ≡ [] }
    {
        Names {
            names: Vec::new(alloc),
            index: None,
        }
    }

    /// These names, which must be different, without an index, so they should be few.
    pub(crate) fn of(names: Vec<&'a [u8]>) -> Names<'a>
        requires { are_once (map (λ n. n.now) names.items) ≡ true }
        ensures { names_in result ≡ map (λ n. n.now) names.entry.items }
    {
        Names { names, index: None }
    }

    /// The name at a position.
    pub(crate) fn at(&self, i: usize) -> &'a [u8]
        requires { i < length (names_in self.now) }
        ensures { result.now ≡ get_or (names_in self.now) i result.now }
    {
        self.names[i]
    }

    /// How many names there are.
    pub fn len(&self) -> usize
        ensures { result ≡ length (names_in self.now) }
    {
        self.names.len()
    }

    /// The position of a name, ignoring ASCII case.
    pub fn position(&self, name: &[u8]) -> Result<Option<usize>, AllocError>
        ensures { IfOk result (λ i. i ≡ name_place (names_in self.now) name.now) }
    {
        match &self.index {
            Some(index) => index.get(name),
            None => Ok(scan(self.names.as_slice(), name)),
        }
    }

    /// Appends a new name.
    pub(crate) fn push(self, name: &'a [u8]) -> Result<Names<'a>, AllocError>
        requires { name_place (names_in self) name.now ≡ None }
        ensures { IfOk result (λ ns. names_in ns ≡ names_in self.entry ++ name.now ∷ []) }
    {
        let mut names = self.names;
        let alloc = *names.allocator();
        let index = match index_for_more(alloc, names.as_slice(), self.index, name)? {
            Some(mut index) => {
                index.insert(name, names.len())?;
                Some(index)
            }
            None => None,
        };
        names.push(name)?;
        Ok(Names { names, index })
    }
}
