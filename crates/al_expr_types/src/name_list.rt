//! Names that own their text. They compare equal only if their bytes are the same, ASCII case
//! included.

ghost use Rattle.std.specs.Prelude.{◌≡◌, IfOk, map};
ghost use Rattle.al_base.specs.NamePlaces.{TellsFirsts, is_first_name, name_place, name_position};
ghost use Rattle.al_expr_types.specs.Merging.{is_placed};

use al_base::NamePositions;
use std::alloc::{AllocError, Global};
use std::convert::AsSlice;
use std::marker::Model;

/// A name, of any bytes. Contracts see them.
#[derive(Drop)]
pub struct Name {
    bytes: Vec<u8>,
}

impl Model for Name {
    ghost use Rattle.std.specs.Prelude.{List, ℕ};

    ghost Value = { List ℕ };

    ghost view = { λ a. a.bytes.items };
}

impl Name {
    /// The name with a copy of these bytes.
    ///
    /// # Errors
    ///
    /// `AllocError` if memory runs out.
    pub fn new(alloc: Global, bytes: &[u8]) -> Result<Name, AllocError>
        ensures { IfOk result (λ n. n ≡ bytes.now) }
    {
        Ok(Name {
            bytes: Vec::from_slice(alloc, bytes)?,
        })
    }

    /// The name's bytes.
    pub fn as_bytes(&self) -> &[u8]
        ensures { result.now ≡ self.now }
    {
        self.bytes.as_slice()
    }

    /// A copy, with memory of its own.
    ///
    /// # Errors
    ///
    /// `AllocError` if memory runs out.
    pub fn copy(&self, alloc: Global) -> Result<Name, AllocError>
        ensures { IfOk result (λ copy. copy ≡ self.now) }
    {
        Name::new(alloc, self.as_bytes())
    }
}

impl AsSlice<u8> for Name {
    ghost items = { λ a. a };

    fn as_slice(&self) -> &[u8] {
        self.as_bytes()
    }
}

impl PartialEq for Name {
    ghost use Rattle.std.specs.Prelude.{bytes_eq};
    ghost use Rattle.std.proofs.Common.{rules};
    ghost use Rattle.std.specs.Cmp.Lexicographic.{nat_list_eq_equiv};

    ghost eq = { bytes_eq };

    ghost laws = { Prim.search (rules, nat_list_eq_equiv) };

    fn eq(&self, other: &Name) -> bool {
        self.bytes.as_slice() == other.bytes.as_slice()
    }
}

impl Eq for Name {
    ghost use Rattle.std.specs.Cmp.Lexicographic.{nat_list_eq_equiv};

    ghost laws = { nat_list_eq_equiv };
}

/// Names in order, and the position of each. It owns them, so that types of many files can share
/// it. Contracts see the list of their bytes.
#[derive(Drop)]
pub struct NameList {
    names: Vec<Name>,
    positions: NamePositions,
}

impl Model for NameList {
    ghost use Rattle.std.specs.Prelude.{List, ℕ};
    ghost use Rattle.std.specs.Prelude.{◌≡◌};
    ghost use Rattle.al_base.specs.NamePlaces.{TellsFirsts, is_first_name, name_place};
    ghost use Rattle.al_base.specs.NamePlaces.{name_position};

    ghost Value = { List (List ℕ) };

    ghost view = { λ a. a.names.items };

    ghost invariant = { λ a. (name_position a.positions ≡ name_place a.names.items)
        × TellsFirsts (name_place a.names.items) a.names.items (is_first_name a.positions) };
}

/// The bytes of each name. Fails with `AllocError` when out of memory.
fn bytes_of(alloc: Global, names: &[Name]) -> Result<Vec<&[u8]>, AllocError>
    ensures { IfOk result (λ bytes. map (λ b. b.now) bytes.items ≡ names.now) }
{
    let mut bytes = Vec::with_capacity(alloc, names.len())?;
    for name in names {
        bytes.push(name.as_bytes())?;
    }
    Ok(bytes)
}

/// Copies of names, each with memory of its own.
fn copies_of(alloc: Global, names: &[Name]) -> Result<Vec<Name>, AllocError>
    ensures { IfOk result (λ copies. copies.items ≡ names.now) }
{
    let mut copies = Vec::new(alloc);
    for name in names {
        copies.push(name.copy(alloc)?)?;
    }
    Ok(copies)
}

impl NameList {
    ghost use Rattle.std.specs.Prelude.{◌<◌, [], get_or, length};
    ghost use Rattle.al_base.specs.NamePlaces.{name_place};

    /// The list of these names, in their order.
    ///
    /// # Errors
    ///
    /// `AllocError` if memory runs out.
    pub fn new(names: Vec<Name>) -> Result<NameList, AllocError>
        ensures { IfOk result (λ l. l ≡ names.items) }
    {
        let alloc = *names.allocator();
        let positions = NamePositions::of(alloc, bytes_of(alloc, names.as_slice())?.as_slice())?;
        Ok(NameList { names, positions })
    }

    /// The names, in order.
    pub fn as_slice(&self) -> &[Name]
        ensures { result.now ≡ self.now }
    {
        self.names.as_slice()
    }

    /// A copy, with memory of its own.
    ///
    /// # Errors
    ///
    /// `AllocError` if memory runs out.
    pub fn copy(&self, alloc: Global) -> Result<NameList, AllocError>
        ensures { IfOk result (λ copy. copy ≡ self.now) }
    {
        NameList::new(copies_of(alloc, self.as_slice())?)
    }

    /// The bytes of the name at a position, from 0.
    ///
    /// # Requires
    ///
    /// `i` is less than the number of names.
    pub fn at(&self, i: usize) -> &[u8]
        requires { i < length self.now }
        ensures { result.now ≡ get_or self.now i result.now }
    {
        self.names[i].as_bytes()
    }

    /// How many names there are.
    pub fn len(&self) -> usize
        ensures { result ≡ length self.now }
    {
        self.names.len()
    }

    /// The first position of a name, from 0, ignoring ASCII case; `None` if it isn't in the list.
    /// Takes time logarithmic in the number of names.
    ///
    /// # Errors
    ///
    /// `AllocError` if memory runs out.
    pub fn position(&self, name: &[u8]) -> Result<Option<usize>, AllocError>
        ensures { IfOk result (λ i. i ≡ name_place self.now name.now) }
    {
        self.positions.get(name)
    }

    /// Whether the name at a position is the first of its name.
    pub(crate) fn is_first(&self, i: usize) -> bool
        requires { i < length self.now }
        ensures { result ≡ is_placed (name_place self.now (get_or self.now i [])) i }
    {
        self.positions.is_first(i)
    }
}

impl PartialEq for NameList {
    ghost use Rattle.std.specs.Prelude.{bytes_eq};
    ghost use Rattle.std.specs.Cmp.{partial_equiv_from_equiv};
    ghost use Rattle.std.specs.Cmp.Lexicographic.{pointwise, lists_equiv, nat_list_eq_equiv};

    ghost eq = { pointwise bytes_eq };

    ghost laws = { partial_equiv_from_equiv (lists_equiv nat_list_eq_equiv) };

    fn eq(&self, other: &NameList) -> bool {
        self.names.as_slice() == other.names.as_slice()
    }
}

impl Eq for NameList {
    ghost use Rattle.std.specs.Cmp.Lexicographic.{lists_equiv, nat_list_eq_equiv};

    ghost laws = { lists_equiv nat_list_eq_equiv };
}
