//! The value of a string literal.

ghost use Rattle.std.specs.Prelude.{◌≡◌, IfOk, option_map, string_bytes};
ghost use Rattle.al_expr_typing.specs.Literals.{literal_text, text_value, type_of_keyword};
ghost use Rattle.al_expr_typing.specs.Private.LiteralViews.{literal_of};
ghost use Rattle.al_expr_types.specs.Types.{scalar_type};
ghost use Rattle.al_expr_grammar.specs.View.{expr_view};

use al_base::Span;
use al_expr_grammar::{Expr, Keyword};
use al_expr_types::Scalar;
use std::alloc::{AllocError, Global};

/// The value of a string literal, and the span of the literal, quotes included.
#[derive(Drop)]
pub struct Literal {
    pub value: String,
    pub span: Span,
}

/// The value of a string literal, in brackets or not; `None` if the expression isn't one.
#[tactic(auto, using(al_expr_grammar::proofs::TreeViews::tree_views))]
pub(crate) fn literal_text(alloc: Global, expr: &Expr<'_>) -> Result<Option<Literal>, AllocError>
    ensures { IfOk result (λ l. option_map literal_of l ≡ literal_text (expr_view expr.now)) }
{
    match expr {
        Expr::Text(word) => {
            let value = text_value(alloc, word.text)?;
            Ok(Some(Literal {
                value,
                span: word.span,
            }))
        }
        Expr::Group(inner, _, _) => literal_text(alloc, inner),
        Expr::Keyword(_, _)
        | Expr::Number(_)
        | Expr::Name(_)
        | Expr::Call(_, _, _)
        | Expr::Not(_, _)
        | Expr::Path(_, _)
        | Expr::Chain(_, _) => Ok(None),
    }
}

/// The text between the quotes of a literal, with each doubled quote as one.
fn text_value(alloc: Global, literal: &str) -> Result<String, AllocError>
    ensures { IfOk result (λ s. string_bytes s ≡ text_value literal.now) }
{
    let mut value = String::new(alloc);
    let mut after_quote = false;
    for ch in literal.chars().skip(1) {
        after_quote = !after_quote && ch == '\'';
        if after_quote {
            continue;
        }
        value.push(ch)?;
    }
    Ok(value)
}

/// The type of `null`, `true` or `false`.
pub(crate) fn type_of_keyword(keyword: Keyword) -> Scalar
    ensures { scalar_type result ≡ type_of_keyword keyword }
{
    match keyword {
        Keyword::Null => Scalar::Null,
        Keyword::True | Keyword::False => Scalar::Bool,
    }
}
