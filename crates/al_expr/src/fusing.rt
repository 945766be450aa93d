//! What two types have in common.

ghost use Rattle.std.specs.Prelude.{◌≡◌, IfOk, map, []};
ghost use Rattle.al_types.specs.Fused.{fuse_parts};
ghost use Rattle.al_types.specs.Puts.{put_or_fuse};
ghost use Rattle.al_types.specs.Types.{Absent, fuse_optional, fuse_type, parts_with};
ghost use Rattle.al_expr_types.specs.Types.{scalar_type};
ghost use Rattle.al_expr.specs.Listings.{parts_in};
ghost use Rattle.al_expr.specs.Trees.{field_of, field_parts, listed_parts, rest_of, ty_of};

use crate::copying::{copy_field, copy_rest};
use crate::listings::{Listing, position};
use crate::taking::scalar_tree;
use crate::trees::{Field, Ty};
use al_expr_types::Scalar;
use std::alloc::{AllocError, Global};

/// What two types have in common: any with any or null, a type with itself, a string for two other
/// scalars, an array of what the elements have in common, and an object with all fields of both,
/// where those with one name are fused, as are the types of other fields if both have one.
/// Everything else is any. The result depends neither on the order of the two nor on repetitions.
///
/// # Errors
///
/// `AllocError` if memory runs out.
pub fn fuse(alloc: Global, a: Ty, b: Ty) -> Result<Ty, AllocError>
    ensures { IfOk result (λ t. ty_of t ≡ fuse_type (ty_of a) (ty_of b)) }
{
    fuse_more(alloc, &b, &a)
}

// What a type has in common with one more.
#[cycle(fusing)]
fn fuse_more(alloc: Global, more: &Ty, ty: &Ty) -> Result<Ty, AllocError>
    ensures { IfOk result (λ t. ty_of t ≡ fuse_type (ty_of ty.now) (ty_of more.now)) }
{
    match (ty, more) {
        (Ty::Null, _) => Ok(fuse_scalar(Scalar::Null, more)),
        (Ty::Number, _) => Ok(fuse_scalar(Scalar::Number, more)),
        (Ty::Bool, _) => Ok(fuse_scalar(Scalar::Bool, more)),
        (Ty::String, _) => Ok(fuse_scalar(Scalar::String, more)),
        (Ty::Array(of), Ty::Array(other)) => {
            let both = fuse_more(alloc, other, of)?;
            Ok(Ty::Array(Box::new(alloc, both)?))
        }
        (
            Ty::Object { fields, rest },
            Ty::Object {
                fields: others,
                rest: other,
            },
        ) => {
            let first = Listing::of(alloc, fields, rest)?;
            let both = add_fields(alloc, others, first)?;
            Ok(add_rest(alloc, other, both)?.into_type())
        }
        (Ty::Any | Ty::Array(_) | Ty::Object { .. }, _) => Ok(Ty::Any),
    }
}

// A scalar with a type.
#[tactic(auto, using(crate::proofs::ScalarsFused::with_part))]
fn fuse_scalar(scalar: Scalar, more: &Ty) -> Ty
    ensures { ty_of result ≡ fuse_type (scalar_type scalar) (ty_of more.now) }
{
    match more {
        Ty::Any => scalar_tree(scalar.fuse(Scalar::Any)),
        Ty::Null => scalar_tree(scalar.fuse(Scalar::Null)),
        Ty::Number => scalar_tree(scalar.fuse(Scalar::Number)),
        Ty::Bool => scalar_tree(scalar.fuse(Scalar::Bool)),
        Ty::String => scalar_tree(scalar.fuse(Scalar::String)),
        Ty::Array(_) => Ty::Any,
        Ty::Object { .. } => Ty::Any,
    }
}

/// What an object has in common with one more.
pub(crate) fn add_object(
    alloc: Global,
    fields: &[Field],
    rest: &Option<Box<Ty>>,
    so_far: Listing,
) -> Result<Listing, AllocError>
    ensures { IfOk result
        (λ l. parts_in l
        ≡ fuse_parts (parts_in so_far)
        (listed_parts (map field_of fields.now) (rest_of rest.now))) }
{
    let both = add_fields(alloc, fields, so_far)?;
    add_rest(alloc, rest, both)
}

// The same for an object with these fields and no others.
#[cycle(fusing)]
fn add_fields(alloc: Global, fields: &[Field], so_far: Listing) -> Result<Listing, AllocError>
    ensures { IfOk result
        (λ l. parts_in l
        ≡ fuse_parts (parts_in so_far) (listed_parts (map field_of fields.now) Absent)) }
{
    let mut all = so_far;
    for (i, field) in fields.iter().enumerate() {
        if position(&fields[..i], field).is_none() {
            all = add_field(alloc, field, all)?;
        }
    }
    Ok(all)
}

// The same for an object with one field.
#[cycle(fusing)]
fn add_field(alloc: Global, field: &Field, so_far: Listing) -> Result<Listing, AllocError>
    ensures { IfOk result
        (λ l. parts_in l ≡ fuse_parts (parts_in so_far) (field_parts (field_of field.now))) }
{
    let fields = put_or_fuse(alloc, field, so_far.fields)?;
    Ok(Listing {
        fields,
        rest: so_far.rest,
    })
}

// Adds a field: fused with the one with its name, otherwise at the end.
#[cycle(fusing)]
fn put_or_fuse(alloc: Global, field: &Field, fields: Vec<Field>) -> Result<Vec<Field>, AllocError>
    ensures { IfOk result (λ v. map field_of v.items
        ≡ put_or_fuse (map field_of fields.items) (field_of field.now)) }
{
    let mut all = fields;
    match position(all.as_slice(), field) {
        Some(i) => {
            let ty = fuse_more(alloc, &field.ty, &all[i].ty)?;
            all[i].ty = ty;
            Ok(all)
        }
        None => {
            all.push(copy_field(alloc, field)?)?;
            Ok(all)
        }
    }
}

// The same for an object without fields of its own, with others of the type `rest`, if given.
#[cycle(fusing)]
fn add_rest(alloc: Global, rest: &Option<Box<Ty>>, so_far: Listing) -> Result<Listing, AllocError>
    ensures { IfOk result
        (λ l. parts_in l ≡ fuse_parts (parts_in so_far) (parts_with [] (rest_of rest.now))) }
{
    let rest = fuse_rest(alloc, rest, &so_far.rest)?;
    Ok(Listing {
        fields: so_far.fields,
        rest,
    })
}

// What the types of other fields have in common, if others are possible.
#[cycle(fusing)]
fn fuse_rest(
    alloc: Global,
    more: &Option<Box<Ty>>,
    rest: &Option<Box<Ty>>,
) -> Result<Option<Box<Ty>>, AllocError>
    ensures { IfOk result (λ r. rest_of r ≡ fuse_optional (rest_of rest.now) (rest_of more.now)) }
{
    match (rest, more) {
        (Some(ty), Some(other)) => {
            let both = fuse_more(alloc, other, ty)?;
            Ok(Some(Box::new(alloc, both)?))
        }
        (None, _) => copy_rest(alloc, more),
        (_, None) => copy_rest(alloc, rest),
    }
}
