//! Copies of trees.

ghost use Rattle.std.specs.Prelude.{◌≡◌, IfOk, map};
ghost use Rattle.al_expr.specs.Trees.{field_of, rest_of, ty_of};

use crate::trees::{Field, Ty};
use std::alloc::{AllocError, Global};

/// A copy of a type. Fails with `AllocError` when out of memory, as everything here does.
#[cycle(copying)]
pub(crate) fn copy(alloc: Global, ty: &Ty) -> Result<Ty, AllocError>
    ensures { IfOk result (λ t. ty_of t ≡ ty_of ty.now) }
{
    match ty {
        Ty::Any => Ok(Ty::Any),
        Ty::Null => Ok(Ty::Null),
        Ty::Number => Ok(Ty::Number),
        Ty::Bool => Ok(Ty::Bool),
        Ty::String => Ok(Ty::String),
        Ty::Array(of) => Ok(Ty::Array(Box::new(alloc, copy(alloc, of)?)?)),
        Ty::Object { fields, rest } => {
            let fields = copy_fields(alloc, fields)?;
            let rest = copy_rest(alloc, rest)?;
            Ok(Ty::Object { fields, rest })
        }
    }
}

#[cycle(copying)]
fn copy_fields(alloc: Global, fields: &[Field]) -> Result<Vec<Field>, AllocError>
    ensures { IfOk result (λ v. map field_of v.items ≡ map field_of fields.now) }
{
    let mut copies = Vec::new(alloc);
    for field in fields {
        copies.push(copy_field(alloc, field)?)?;
    }
    Ok(copies)
}

/// A copy of a field.
#[cycle(copying)]
pub(crate) fn copy_field(alloc: Global, field: &Field) -> Result<Field, AllocError>
    ensures { IfOk result (λ f. field_of f ≡ field_of field.now) }
{
    let name = field.name.clone()?;
    let ty = copy(alloc, &field.ty)?;
    Ok(Field { name, ty })
}

/// A copy of the type of other fields.
#[cycle(copying)]
pub(crate) fn copy_rest(
    alloc: Global,
    rest: &Option<Box<Ty>>,
) -> Result<Option<Box<Ty>>, AllocError>
    ensures { IfOk result (λ r. rest_of r ≡ rest_of rest.now) }
{
    match rest {
        Some(ty) => Ok(Some(Box::new(alloc, copy(alloc, ty)?)?)),
        None => Ok(None),
    }
}
