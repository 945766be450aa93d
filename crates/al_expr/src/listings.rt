//! The fields of an object while they are collected.

ghost use Rattle.std.specs.Prelude.{◌≡◌, ◌<◌, IfOk, IfSome, length, map, true, []};
ghost use Rattle.al_types.specs.FusedFields.{are_distinct};
ghost use Rattle.al_types.specs.Indexes.{name_at};
ghost use Rattle.al_expr.specs.Trees.{field_of};

use crate::copying::{copy_field, copy_rest};
use crate::trees::{Field, Ty};
use al_base::is_same_name;
use std::alloc::{AllocError, Global};

/// Fields with different names, ignoring ASCII case, and the type of others, if others are
/// possible.
#[derive(Drop)]
pub(crate) struct Listing {
    pub fields: Vec<Field>,
    pub rest: Option<Box<Ty>>,
    ghost distinct: { are_distinct (map field_of fields.items) ≡ true },
}

/// The position of the first field with the name of another, ignoring ASCII case.
pub(crate) fn position(fields: &[Field], other: &Field) -> Option<usize>
    ensures place { result ≡ name_at (map field_of fields.now) (field_of other.now).0 }
    ensures within { IfSome result (λ i. i < length fields.now) }
{
    for (i, field) in fields.iter().enumerate() {
        if is_same_name(field.name.as_bytes(), other.name.as_bytes()) {
            return Some(i);
        }
    }
    None
}

impl Listing {
    ghost use Rattle.al_types.specs.Types.{Absent, object_type, parts_with};
    ghost use Rattle.al_expr.specs.Listings.{parts_in};
    ghost use Rattle.al_expr.specs.Trees.{listed_parts, rest_of, ty_of};

    /// No fields, and no others. Doesn't allocate.
    pub(crate) fn new(alloc: Global) -> Listing
        ensures { parts_in result ≡ parts_with [] Absent }
    {
        Listing {
            fields: Vec::new(alloc),
            rest: None,
        }
    }

    /// A copy of an object's fields: of those with one name, the first. Fails with `AllocError`
    /// when out of memory.
    pub(crate) fn of(
        alloc: Global,
        fields: &[Field],
        rest: &Option<Box<Ty>>,
    ) -> Result<Listing, AllocError>
        ensures { IfOk result
            (λ l. parts_in l ≡ listed_parts (map field_of fields.now) (rest_of rest.now)) }
    {
        let mut first = Vec::new(alloc);
        for (i, field) in fields.iter().enumerate() {
            if position(&fields[..i], field).is_none() {
                first.push(copy_field(alloc, field)?)?;
            }
        }
        let rest = copy_rest(alloc, rest)?;
        Ok(Listing {
            fields: first,
            rest,
        })
    }

    /// The object with these fields.
    pub(crate) fn into_type(self) -> Ty
        ensures { ty_of result ≡ object_type (parts_in self) }
    {
        Ty::Object {
            fields: self.fields,
            rest: self.rest,
        }
    }
}
