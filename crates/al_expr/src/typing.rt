//! The type of an expression.

ghost use Rattle.std.specs.Prelude.{◌≡◌, ◌++◌, IfOk, OnOk};
ghost use Rattle.al_base.specs.Growth.{BeginsWith};
ghost use Rattle.al_expr_grammar.specs.View.{expr_view};
ghost use Rattle.al_expr_typing.specs.Meaning.{faults_found, meaning_of, type_found};
ghost use Rattle.al_expr.specs.Scopes.{scope_of};
ghost use Rattle.al_expr.specs.Trees.{ty_of};

use crate::adding::add_scope;
use crate::scope::Scope;
use crate::taking::tree_of;
use crate::trees::Ty;
use al_base::{Fault, FaultSink};
use al_expr_grammar::Expr;
use al_expr_types::Types;
use std::alloc::{AllocError, Global};

/// The type of an expression under a scope. Adds the faults in it, X7 to X17 and X19, to `out` in
/// the order in which it is read (GitHub, "Evaluate expressions in workflows and actions" and
/// "Contexts reference"). Spans are byte offsets in the expression's content, and arguments of
/// faults are texts of the content, control bytes included.
///
/// Recursion is at most as deep as the expression's nesting, which is at most 50 in a tree of
/// [`parse_expr`](al_expr_grammar::parse_expr), or as the types of the scope.
///
/// # Errors
///
/// `AllocError` if memory runs out; `out` then still begins with what it held.
pub fn type_of(
    alloc: Global,
    env: &Scope,
    expr: &Expr<'_>,
    out: &mut Vec<Fault>,
) -> Result<Ty, AllocError>
    ensures ty { IfOk result
        (λ t. ty_of t ≡ type_found (meaning_of (scope_of env.now) (expr_view expr.now))) }
    ensures faults { OnOk result
        (out.new.items
        ≡ out.old.items ++ faults_found (meaning_of (scope_of env.now) (expr_view expr.now))) }
    ensures begins { BeginsWith out.new.items out.old.items }
{
    let mut types = Types::new(alloc);
    let scope = add_scope(&mut types, env)?;
    let mut faults = FaultSink::new(alloc);
    let ty = al_expr_typing::type_of(&mut types, &scope, expr, &mut faults)?;
    let tree = tree_of(&types, ty)?;
    faults.append_to(out)?;
    Ok(tree)
}
