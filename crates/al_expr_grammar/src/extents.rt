//! The spans of the parts of a tree.

ghost use Rattle.std.specs.Prelude.{◌≡◌, ◌∷◌, List, map};
ghost use Rattle.al_base.specs.declared.faults.Span.{Span};
ghost use Rattle.al_expr_grammar.specs.Extents as extents;
ghost use Rattle.al_expr_grammar.specs.Extents.{extent, with_operands, with_steps};
ghost use Rattle.al_expr_grammar.specs.Tree.{Path, StepTree, steps_of, operands_of};
ghost use Rattle.al_expr_grammar.specs.View.{expr_view, step_of, operand_of};

use crate::ast::{Expr, Operand, PathStep};
use al_base::Span;

/// The bytes of an expression in its content, from its first token to its last, outer brackets
/// included. Takes time linear in its nesting.
#[tactic(auto, using(crate::proofs::TreeViews::tree_views))]
#[cycle(extents)]
pub fn extent(expr: &Expr<'_>) -> Span
    ensures { result ≡ extent (expr_view expr.now) }
{
    match expr {
        Expr::Keyword(_, span) => *span,
        Expr::Number(word) | Expr::Text(word) | Expr::Name(word) => word.span,
        Expr::Call(name, _, close) => across(name.span, *close),
        Expr::Group(_, open, close) => across(*open, *close),
        Expr::Not(at, operand) => across(*at, extent(operand)),
        Expr::Path(base, steps) => path_extent(base, steps),
        Expr::Chain(first, operands) => with_operands(extent(first), operands),
    }
}

/// The span of a path.
#[cycle(extents)]
pub fn path_extent(base: &Expr<'_>, steps: &[PathStep<'_>]) -> Span
    ensures { result ≡ extent (Path (expr_view base.now) (steps_of (map step_of steps.now))) }
{
    let mut whole = extent(base);
    for step in steps {
        whole = across(whole, step_end(step));
    }
    whole
}

/// The span from the start of one to the end of another.
pub fn across(first: Span, last: Span) -> Span
    ensures { result ≡ extents.across first last }
{
    Span {
        start: first.start,
        end: last.end,
    }
}

/// The last token of a step.
#[tactic(auto, using(crate::proofs::TreeViews::step_views))]
fn step_end(step: &PathStep<'_>) -> Span
    ensures { (x : Span) (ss : List StepTree) → with_steps x (steps_of (step_of step.now ∷ ss))
        ≡ with_steps (extents.across x result) (steps_of ss) }
{
    match step {
        PathStep::Property(_, name) => name.span,
        PathStep::All(_, last) => *last,
        PathStep::Index(_, _, close) => *close,
    }
}

#[tactic(auto, using(crate::proofs::TreeViews::operand_view))]
#[cycle(extents)]
fn with_operands(first: Span, operands: &[Operand<'_>]) -> Span
    ensures { result ≡ with_operands first (operands_of (map operand_of operands.now)) }
{
    let mut whole = first;
    for operand in operands {
        whole = across(whole, extent(&operand.expr));
    }
    whole
}
