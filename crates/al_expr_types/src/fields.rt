//! Fields by name.

ghost use Rattle.std.specs.Prelude.{◌≡◌, length};
ghost use Rattle.al_expr_types.specs.Names.{names_in};

use crate::names::Names;
use crate::ty::Ty;
use std::alloc::{AllocError, Global};

/// The names of fields, each once, and their types in the same order.
#[derive(Drop)]
pub struct FieldMap<'a> {
    pub(crate) names: Names<'a>,
    pub(crate) types: Vec<Ty>,
    ghost even: { length (names_in names) ≡ length types.items },
}

impl<'a> FieldMap<'a> {
    ghost use Rattle.std.specs.Prelude.{◌<◌, [], List, IfOk, None, get_or, map, option_map};
    ghost use Rattle.std.specs.Prelude.{slice_get, take, true, ℕ};
    ghost use Rattle.al_types.specs.Puts.{put_new};
    ghost use Rattle.al_types.specs.Types.{Parts, field_at};
    ghost use Rattle.al_expr_types.specs.FieldMaps.{fields_in, is_map_below};
    ghost use Rattle.al_expr_types.specs.Once.{are_once};
    ghost use Rattle.al_expr_types.specs.Types.{is_below, is_rest_below, named_types, type_in};

    /// No fields. Doesn't allocate.
    pub fn new(alloc: Global) -> FieldMap<'a>
        ensures names { names_in result.names ≡ [] }
        ensures types { result.types.items ≡ [] }
    {
        FieldMap {
            names: Names::new(alloc),
            types: Vec::new(alloc),
        }
    }

    /// These fields, which must have different names. Fails with `AllocError` when out of memory,
    /// as everything here does.
    pub fn of(alloc: Global, fields: &[(&'a [u8], Ty)]) -> Result<FieldMap<'a>, AllocError>
        requires { are_once (map (λ f. f.0.now) fields.now) ≡ true }
        ensures names { IfOk result (λ m. names_in m.names ≡ map (λ f. f.0.now) fields.now) }
        ensures types { IfOk result (λ m. m.types.items ≡ map (λ f. f.1) fields.now) }
    {
        let mut names = Vec::with_capacity(alloc, fields.len())?;
        let mut types = Vec::with_capacity(alloc, fields.len())?;
        for field in fields {
            names.push(field.0)?;
            types.push(field.1)?;
        }
        Ok(FieldMap {
            names: Names::of(names),
            types,
        })
    }

    /// Its allocator.
    pub(crate) fn alloc(&self) -> Global {
        *self.types.allocator()
    }

    /// Appends a field, unless there is one with its name.
    pub fn and(self, name: &'a [u8], ty: Ty) -> Result<FieldMap<'a>, AllocError>
        ensures fields { IfOk result (λ f. (ms : List Parts)
            → fields_in ms f ≡ put_new (fields_in ms self.entry) (name.now, type_in ms ty)) }
        ensures below { IfOk result (λ f. (k : ℕ) → is_map_below k self.entry ≡ true
            → is_below k ty ≡ true → is_map_below k f ≡ true) }
    {
        if self.names.position(name)?.is_some() {
            return Ok(self);
        }
        let FieldMap { names, mut types } = self;
        let names = names.push(name)?;
        types.push(ty)?;
        Ok(FieldMap { names, types })
    }

    /// How many fields there are.
    pub fn len(&self) -> usize
        ensures { result ≡ length self.now.types.items }
    {
        self.types.len()
    }

    /// The name and the type at a position.
    pub fn at(&self, i: usize) -> (&'a [u8], Ty)
        requires { i < length self.now.types.items }
        ensures name { result.0.now ≡ get_or (names_in self.now.names) i result.0.now }
        ensures ty { result.1 ≡ get_or self.now.types.items i result.1 }
    {
        (self.names.at(i), self.types[i])
    }

    /// The type at a position, if it is below `count`.
    fn type_at(&self, i: usize, count: usize) -> Option<Ty>
        ensures ty { result ≡ slice_get (take count self.now.types.items) i }
        ensures below { (k : ℕ) → is_map_below k self.now ≡ true → is_rest_below k result ≡ true }
    {
        if i >= count {
            return None;
        }
        self.types.get(i).copied()
    }

    /// The type of the field with a name, ignoring ASCII case, if it is among the first `count`
    /// fields.
    pub fn get(&self, name: &[u8], count: usize) -> Result<Option<Ty>, AllocError>
        ensures ty { IfOk result (λ found. (ms : List Parts) → option_map (type_in ms) found
            ≡ field_at name.now
            (named_types ms (names_in self.now.names) (take count self.now.types.items))) }
        ensures below { IfOk result
            (λ found. (k : ℕ) → is_map_below k self.now ≡ true → is_rest_below k found ≡ true) }
    {
        match self.names.position(name)? {
            Some(i) => Ok(self.type_at(i, count)),
            None => Ok(None),
        }
    }
}
