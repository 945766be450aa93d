//! Types as texts, such as `{a: string, *: any}`, where `*` stands for every other field.

ghost use Rattle.std.specs.Prelude.{◌≡◌, true};
ghost use Rattle.al_expr_types.specs.Tables.{is_known};

use al_expr::{Field, Ty, tree_of};
use al_expr_types::Types;
use std::alloc::{AllocError, Global};

#[cycle(shown)]
fn show(ty: &Ty, out: &mut String) -> Result<(), AllocError> {
    match ty {
        Ty::Any => out.push_str("any"),
        Ty::Null => out.push_str("null"),
        Ty::Number => out.push_str("number"),
        Ty::Bool => out.push_str("bool"),
        Ty::String => out.push_str("string"),
        Ty::Array(of) => {
            out.push_str("[")?;
            show(of, out)?;
            out.push_str("]")
        }
        Ty::Object { fields, rest } => {
            out.push_str("{")?;
            show_fields(fields, out)?;
            show_rest(rest, fields.is_empty(), out)
        }
    }
}

#[cycle(shown)]
fn show_fields(fields: &[Field], out: &mut String) -> Result<(), AllocError> {
    let mut is_first = true;
    for field in fields {
        if !is_first {
            out.push_str(", ")?;
        }
        is_first = false;
        out.push_str(field.name.as_str())?;
        out.push_str(": ")?;
        show(&field.ty, out)?;
    }
    Ok(())
}

#[cycle(shown)]
fn show_rest(rest: &Option<Box<Ty>>, is_first: bool, out: &mut String) -> Result<(), AllocError> {
    if let Some(rest) = rest {
        if !is_first {
            out.push_str(", ")?;
        }
        out.push_str("*: ")?;
        show(rest, out)?;
    }
    out.push_str("}")
}

/// The text of a type in a table.
pub(crate) fn shown(
    alloc: Global,
    types: &Types<'_>,
    ty: al_expr_types::Ty,
) -> Result<String, AllocError>
    requires { is_known types.now ty ≡ true }
{
    let mut out = String::new(alloc);
    let tree = tree_of(types, ty)?;
    show(&tree, &mut out)?;
    Ok(out)
}
