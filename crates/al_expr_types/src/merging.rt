//! Merging objects: what the fields with each name have in common.

ghost use Rattle.std.specs.Prelude.{◌≡◌, length};
ghost use Rattle.al_expr_types.specs.Names.{names_in};

use crate::joining::Join;
use crate::name_list::NameList;
use crate::names::Names;
use crate::objects::Fields;
use crate::ty::Ty;
use std::alloc::{AllocError, Global};
use std::mem::replace;

/// Names, each once, and what the fields with each have in common.
#[derive(Drop)]
pub struct FieldJoins<'a> {
    names: Names<'a>,
    joins: Vec<Join>,
    ghost even: { length (names_in names) ≡ length joins.items },
}

impl<'a> FieldJoins<'a> {
    ghost use Rattle.std.specs.Prelude.{Some, List, IfOk, true, ℕ};
    ghost use Rattle.al_types.specs.Strings.{strings};
    ghost use Rattle.al_types.specs.Types.{Absent, Parts, Present, field_at, fuse_optional};
    ghost use Rattle.al_types.specs.Types.{optional};
    ghost use Rattle.al_expr_types.specs.Merging.{and_named, are_joins_below, found_in};
    ghost use Rattle.al_expr_types.specs.Types.{are_fields_below, fields_parts, is_below, type_in};

    /// No names. Doesn't allocate.
    pub fn new(alloc: Global) -> FieldJoins<'a>
        ensures found { (ms : List Parts) → found_in ms result ≡ λ n. Absent }
        ensures below { (k : ℕ) → are_joins_below k result ≡ true }
    {
        FieldJoins {
            names: Names::new(alloc),
            joins: Vec::new(alloc),
        }
    }

    pub(crate) fn as_slice(&self) -> &[Join]
        ensures { result.now ≡ self.now.joins.items }
    {
        self.joins.as_slice()
    }

    pub(crate) fn into_names(self) -> Names<'a>
        ensures { names_in result ≡ names_in self.entry.names }
    {
        self.names
    }

    /// Adds the type of a field: joined with what the fields with its name have in common, if there
    /// are any.
    pub fn and(self, name: &'a [u8], ty: Ty) -> Result<FieldJoins<'a>, AllocError>
        ensures found { IfOk result (λ m. (ms : List Parts) → found_in ms m
            ≡ and_named (found_in ms self.entry) name.now (Present (type_in ms ty))) }
        ensures below { IfOk result (λ m. (k : ℕ) → are_joins_below k self.entry
            ≡ true → is_below k ty ≡ true → are_joins_below k m ≡ true) }
    {
        let FieldJoins { names, mut joins } = self;
        let Some(i) = names.position(name)? else {
            joins.push(Join::One(ty))?;
            let names = names.push(name)?;
            return Ok(FieldJoins { names, joins });
        };
        let alloc = *joins.allocator();
        let slot = &mut joins[i];
        *slot = replace(slot, Join::Nothing).and(alloc, ty)?;
        Ok(FieldJoins { names, joins })
    }

    /// Adds string fields with these names.
    pub(crate) fn and_strings(self, names: &'a NameList) -> Result<FieldJoins<'a>, AllocError>
        ensures found { IfOk result (λ m. (ms : List Parts) → found_in ms m
            ≡ λ n. fuse_optional (found_in ms self.entry n)
            (optional (field_at n (strings names.now)))) }
        ensures below { IfOk result
            (λ m. (k : ℕ) → are_joins_below k self.entry ≡ true → are_joins_below k m ≡ true) }
    {
        let mut all = self;
        for i in 0..names.len() {
            if !names.is_first(i) {
                continue;
            }
            all = all.and(names.at(i), Ty::STRING)?;
        }
        Ok(all)
    }

    /// Adds the fields of an object.
    pub(crate) fn and_object(self, fields: &Fields<'a>) -> Result<FieldJoins<'a>, AllocError>
        ensures found { IfOk result (λ m. (ms : List Parts) → found_in ms m
            ≡ λ n. fuse_optional (found_in ms self.entry n) ((fields_parts ms fields.now).0 n)) }
        ensures below { IfOk result
            (λ m. (k : ℕ) → are_fields_below k fields.now ≡ true
            → are_joins_below k self.entry ≡ true
            → are_joins_below k m ≡ true) }
    {
        let map = &*fields.map;
        let mut all = self;
        for (i, ty) in map.types.as_slice()[..fields.count].iter().enumerate() {
            all = all.and(map.names.at(i), *ty)?;
        }
        Ok(all)
    }
}
