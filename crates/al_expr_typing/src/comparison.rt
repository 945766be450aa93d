//! Which types an operator can compare.

ghost use Rattle.std.specs.Prelude.{◌≡◌, List};
ghost use Rattle.al_expr_typing.specs.Comparison.{comparable_types};
ghost use Rattle.al_types.specs.Types.{Parts};
ghost use Rattle.al_expr_types.specs.Types.{type_in};

use al_expr_grammar::Operator;
use al_expr_types::Ty;

/// Whether an operator can compare values of these types: an array or object can't be compared with
/// a number, bool or string, and only by `==` and `!=`.
pub fn comparable(operator: Operator, a: Ty, b: Ty) -> bool
    ensures { (ms : List Parts) → result ≡ comparable_types operator (type_in ms a) (type_in ms b) }
{
    let (a_collection, b_collection) = (a.is_collection(), b.is_collection());
    let (a_plain, b_plain) = (a.is_plain(), b.is_plain());
    match operator {
        Operator::Equal | Operator::NotEqual => {
            !(a_collection && b_plain) && !(b_collection && a_plain)
        }
        _ => !a_collection && !b_collection,
    }
}
