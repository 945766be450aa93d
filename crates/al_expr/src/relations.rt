//! Which types can be assigned to which.

ghost use Rattle.std.specs.Prelude.{◌≡◌};
ghost use Rattle.al_types.specs.Types.{assignable_type};
ghost use Rattle.al_expr.specs.Trees.{ty_of};

use crate::trees::Ty;

/// Whether a value of the type `from` can be used where one of the type `to` is expected: any and
/// every type, a scalar as itself, null, number and bool as a string, arrays by their elements, and
/// an object as an object. Doesn't allocate; recursion is as deep as the arrays.
pub fn assignable(from: &Ty, to: &Ty) -> bool
    ensures { result ≡ assignable_type (ty_of from.now) (ty_of to.now) }
{
    match from {
        Ty::Any => true,
        Ty::Null => matches!(to, Ty::Any | Ty::Null | Ty::String),
        Ty::Number => matches!(to, Ty::Any | Ty::Number | Ty::String),
        Ty::Bool => matches!(to, Ty::Any | Ty::Bool | Ty::String),
        Ty::String => matches!(to, Ty::Any | Ty::String),
        Ty::Array(a) => match to {
            Ty::Any => true,
            Ty::Array(b) => assignable(a, b),
            Ty::Null | Ty::Number | Ty::Bool | Ty::String => false,
            Ty::Object { .. } => false,
        },
        Ty::Object { .. } => matches!(to, Ty::Any | Ty::Object { .. }),
    }
}
