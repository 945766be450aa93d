//! The trees of the types in a table.

ghost use Rattle.std.specs.Prelude.{◌≡◌, ◌<◌, ◌≤◌, IfOk, length, true};
ghost use Rattle.al_expr_types.specs.Tables.{is_known, objects_of, type_at};
ghost use Rattle.al_expr_types.specs.Types.{are_fields_below, arrays_of, fields_parts, is_below};
ghost use Rattle.al_expr_types.specs.Types.{is_rest_below};
ghost use Rattle.al_expr_types.specs.Types.{object_in, rest_in, scalar_type, strings_parts};
ghost use Rattle.al_expr.specs.Listings.{parts_in};
ghost use Rattle.al_expr.specs.Trees.{field_of, rest_of, ty_of};

use crate::fusing::add_object;
use crate::listings::Listing;
use crate::trees::{Field, Ty};
use al_expr_types::{Base, Fields, NameList, Object, Scalar, Types};
use std::alloc::{AllocError, Global};

/// The tree of a type of a table, such as that of [`type_of`](al_expr_typing::type_of).
///
/// # Requires
///
/// `ty` is a type of `types`: its object, if it has one, is in the table.
///
/// # Errors
///
/// `AllocError` if memory runs out, or if the type has an object that extends another, which only
/// the contexts of files have.
pub fn tree_of(types: &Types<'_>, ty: al_expr_types::Ty) -> Result<Ty, AllocError>
    requires { is_known types.now ty ≡ true }
    ensures { IfOk result (λ t. ty_of t ≡ type_at types.now ty) }
{
    tree_below(types, ty, types.len())
}

/// The tree of a scalar.
pub(crate) fn scalar_tree(scalar: Scalar) -> Ty
    ensures { ty_of result ≡ scalar_type scalar }
{
    match scalar {
        Scalar::Any => Ty::Any,
        Scalar::Null => Ty::Null,
        Scalar::Number => Ty::Number,
        Scalar::Bool => Ty::Bool,
        Scalar::String => Ty::String,
    }
}

// A type nested in this many arrays.
fn in_arrays(alloc: Global, ty: Ty, arrays: u32) -> Result<Ty, AllocError>
    ensures { IfOk result (λ t. ty_of t ≡ arrays_of arrays (ty_of ty)) }
{
    let mut all = ty;
    for _made in 0..arrays {
        all = Ty::Array(Box::new(alloc, all)?);
    }
    Ok(all)
}

// The tree of a type whose object has a number below `bound`.
#[cycle(taking)]
fn tree_below(types: &Types<'_>, ty: al_expr_types::Ty, below: usize) -> Result<Ty, AllocError>
    requires below { is_below below ty ≡ true }
    requires inside { below ≤ length types.now.objects.items }
    ensures { IfOk result (λ t. ty_of t ≡ type_at types.now ty) }
{
    match ty.of {
        Base::Scalar(scalar) => in_arrays(types.alloc(), scalar_tree(scalar), ty.arrays),
        Base::Object(n) => {
            let tree = object_listing(types, n)?.into_type();
            in_arrays(types.alloc(), tree, ty.arrays)
        }
    }
}

// The fields of an object.
#[cycle(taking)]
fn object_listing(types: &Types<'_>, n: u32) -> Result<Listing, AllocError>
    requires { n < length types.now.objects.items }
    ensures { IfOk result (λ l. parts_in l ≡ object_in (objects_of types.now) n) }
{
    match types.object(n) {
        Object::Fields(fields) => fields_listing(types, fields, n),
        Object::Strings(names) => strings_listing(types.alloc(), names),
        Object::Common(of) => {
            let mut all = Listing::new(types.alloc());
            for m in of.as_slice() {
                let one = object_listing(types, *m)?;
                all = add_object(types.alloc(), one.fields.as_slice(), &one.rest, all)?;
            }
            Ok(all)
        }
        // Neither trees nor expressions make extensions.
        Object::Extension(_) => Err(AllocError),
    }
}

// Fields with types whose objects have numbers below `bound`.
#[cycle(taking)]
fn fields_listing(types: &Types<'_>, fields: &Fields<'_>, below: u32) -> Result<Listing, AllocError>
    requires below { are_fields_below below fields.now ≡ true }
    requires inside { below ≤ length types.now.objects.items }
    ensures { IfOk result (λ l. parts_in l ≡ fields_parts (objects_of types.now) fields.now) }
{
    let mut trees = Vec::new(types.alloc());
    for i in 0..fields.count {
        let (name, ty) = fields.map.at(i);
        let tree = tree_below(types, ty, below as usize)?;
        trees.push(field_with(types.alloc(), name, tree)?)?;
    }
    let rest = rest_tree(types, fields.rest, below)?;
    Ok(Listing {
        fields: trees,
        rest,
    })
}

#[cycle(taking)]
fn rest_tree(
    types: &Types<'_>,
    rest: Option<al_expr_types::Ty>,
    below: u32,
) -> Result<Option<Box<Ty>>, AllocError>
    requires below { is_rest_below below rest ≡ true }
    requires inside { below ≤ length types.now.objects.items }
    ensures { IfOk result (λ r. rest_of r ≡ rest_in (objects_of types.now) rest) }
{
    match rest {
        Some(ty) => {
            let tree = tree_below(types, ty, below as usize)?;
            Ok(Some(Box::new(types.alloc(), tree)?))
        }
        None => Ok(None),
    }
}

// A field with a name and a type. Names come from trees or from a file that was read, so they are
// UTF-8.
fn field_with(alloc: Global, name: &[u8], ty: Ty) -> Result<Field, AllocError>
    ensures { IfOk result (λ f. field_of f ≡ (name.now, ty_of ty)) }
{
    let text = std::str::from_utf8(name).map_err(|_| AllocError)?;
    let name = String::from_str(alloc, text)?;
    Ok(Field { name, ty })
}

// String fields with these names, and no others.
fn strings_listing(alloc: Global, names: &NameList) -> Result<Listing, AllocError>
    ensures { IfOk result (λ l. parts_in l ≡ strings_parts names.now) }
{
    let mut fields = Vec::new(alloc);
    for i in 0..names.len() {
        fields.push(field_with(alloc, names.at(i), Ty::String)?)?;
    }
    Listing::of(alloc, fields.as_slice(), &None)
}
