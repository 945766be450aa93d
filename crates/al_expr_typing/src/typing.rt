//! The type of an expression, and the faults found on the way.

ghost use Rattle.std.specs.Prelude.{◌≡◌, ◌++◌, ◌||◌, ◌&&◌, not, [], List, IfOk, OnOk, map};
ghost use Rattle.std.specs.Prelude.{option_map, true};
ghost use Rattle.al_expr_typing.specs.Arguments.{are_known, argument_at};
ghost use Rattle.al_expr_typing.specs.Scopes.{IsShown, scope_in, scope_view};
ghost use Rattle.al_types.specs.Types.{Parts};
ghost use Rattle.al_expr_types.specs.Types as numbers;
ghost use Rattle.al_expr_types.specs.Tables.{is_known, objects_of, type_at};
ghost use Rattle.al_base.specs.Growth.{BeginsWith};
ghost use Rattle.al_expr_typing.specs.Meaning.{typed, type_found, faults_found, faults_then};
ghost use Rattle.al_expr_typing.specs.Meaning.{meaning_of, walk, operations, meanings};
ghost use Rattle.al_expr_typing.specs.Meaning.{begins_logic, untrusted_faults, all_after};
ghost use Rattle.al_expr_typing.specs.Meaning.{step_from, index_from};
ghost use Rattle.al_expr_typing.specs.Steps.{base_name};
ghost use Rattle.al_expr_typing.specs.Meaning as meaning;
ghost use Rattle.al_expr_typing.specs.Literals.{literal_text};
ghost use Rattle.al_expr_names.specs.Names.{context_of, function_of};
ghost use Rattle.al_expr_grammar.specs.Tree.{steps_of, operands_of, arguments_of};
ghost use Rattle.al_expr_grammar.specs.View.{expr_view, step_of, operand_of};

use crate::calls::{Argument, CallExpr, call_from, is_test};
use crate::chains::{TypedOperand, begins_logic, operation};
use crate::literals::{literal_text, type_of_keyword};
use crate::reports::report_text;
use crate::scope::Scope;
use crate::steps::{PropertyStep, all, element, property};
use crate::untrusted::untrusted_chain;
use al_base::{ExpressionCode, FaultSink, Span};
use al_expr_grammar::{Expr, Operand, PathStep, Word, across, extent, path_extent};
use al_expr_names::{Context, Function};
use al_expr_types::{Join, Scalar, Ty, Types};
use std::alloc::AllocError;

/// The type of an expression under a scope. Adds the faults in it, X7 to X17 and X19, in the order
/// in which it is read. Spans are byte offsets in the expression's content. Fails with `AllocError`
/// when out of memory. Recursion goes no deeper than the expression's nesting.
pub fn type_of(
    types: &mut Types<'_>,
    scope: &Scope,
    expr: &Expr<'_>,
    faults: &mut FaultSink,
) -> Result<Ty, AllocError>
    requires { IsShown types.old scope.now }
    ensures ty { IfOk result
        (λ t. type_at types.new t
        ≡ type_found (meaning_of (scope_view types.old scope.now) (expr_view expr.now))) }
    ensures faults { OnOk result
        (faults.new
        ≡ faults.old ++ faults_found
        (meaning_of (scope_view types.old scope.now) (expr_view expr.now))) }
    ensures known { IfOk result (λ t. is_known types.new t ≡ true) }
    ensures kept { BeginsWith (objects_of types.new) (objects_of types.old) }
{
    let around = Surroundings { scope, safe: false };
    expression(types, around, expr, faults)
}

// What surrounds an expression.
#[derive(Clone, Copy)]
struct Surroundings<'s> {
    scope: &'s Scope,
    // Whether untrusted text is harmless there.
    safe: bool,
}

impl Surroundings<'_> {
    // The same, but untrusted text is harmless there if `safe`.
    fn safe_if(self, safe: bool) -> Self
        ensures scope { result.scope ≡ (self.entry).scope }
        ensures safe { result.safe ≡ ((self.entry).safe || safe) }
    {
        Surroundings {
            safe: self.safe || safe,
            ..self
        }
    }
}

// The left side of a step or an operator: its type, and what surrounds the whole.
#[derive(Clone, Copy)]
struct Left<'s> {
    around: Surroundings<'s>,
    ty: Ty,
}

#[tactic(auto, using(al_base::proofs::Growing::growth, crate::proofs::Shown::shown))]
#[cycle(typing)]
fn expression(
    types: &mut Types<'_>,
    around: Surroundings<'_>,
    expr: &Expr<'_>,
    faults: &mut FaultSink,
) -> Result<Ty, AllocError>
    requires shown { IsShown types.old around.scope.now }
    ensures ok { IfOk result (λ t. typed (type_at types.new t) faults.new ≡ faults_then faults.old
        (meaning.meaning (scope_view types.old (around.entry).scope.now) (around.entry).safe
        (expr_view expr.now))) }
    ensures known { IfOk result (λ t. is_known types.new t ≡ true) }
    ensures shown { IsShown types.new (around.entry).scope.now }
    ensures kept { BeginsWith (objects_of types.new) (objects_of types.old) }
{
    match expr {
        Expr::Keyword(keyword, _) => Ok(Ty::scalar(type_of_keyword(*keyword))),
        Expr::Number(_) => Ok(Ty::scalar(Scalar::Number)),
        Expr::Text(_) => Ok(Ty::STRING),
        Expr::Name(word) => name_type(around.scope, *word, faults),
        Expr::Group(inner, _, _) => expression(types, around, inner, faults),
        Expr::Not(_, operand) => {
            let _ty = expression(types, around.safe_if(true), operand, faults)?;
            Ok(Ty::scalar(Scalar::Bool))
        }
        Expr::Call(name, arguments, _) => call(types, around, *name, arguments, faults),
        Expr::Path(base, steps) => {
            let start = expression(types, around, base, faults)?;
            let ty = walk(types, Left { around, ty: start }, steps, faults)?;
            check_untrusted(around, base, steps, faults)?;
            Ok(ty)
        }
        Expr::Chain(first, operands) => {
            let around = around.safe_if(!begins_logic(operands));
            let ty = expression(types, around, first, faults)?;
            operations(types, Left { around, ty }, operands, faults)
        }
    }
}

// The type of a call, from the types of its arguments.
#[tactic(auto, using(al_base::proofs::Growing::growth, crate::proofs::Shown::shown))]
#[cycle(typing)]
fn call<'a, 'e>(
    types: &mut Types<'_>,
    around: Surroundings<'_>,
    name: Word<'a>,
    arguments: &'e [Expr<'a>],
    faults: &mut FaultSink,
) -> Result<Ty, AllocError>
    requires shown { IsShown types.old around.scope.now }
    ensures ok { IfOk result (λ t. typed (type_at types.new t) faults.new ≡ faults_then faults.old
        (meaning.call (scope_view types.old (around.entry).scope.now)
        (name.entry).text.now (name.entry).span
        (function_of (name.entry).text.now) (arguments_of (map expr_view arguments.now))
        (meanings (scope_view types.old (around.entry).scope.now)
        ((around.entry).safe || meaning.is_test (function_of (name.entry).text.now))
        (arguments_of (map expr_view arguments.now))))) }
    ensures known { IfOk result (λ t. is_known types.new t ≡ true) }
    ensures shown { IsShown types.new (around.entry).scope.now }
    ensures kept { BeginsWith (objects_of types.new) (objects_of types.old) }
{
    let function = Function::from_name(name.text);
    let tested = around.safe_if(is_test(function));
    let given = typed_arguments(types, tested, arguments, faults)?;
    let written = CallExpr {
        name,
        function,
        arguments,
    };
    call_from(around.scope, written, &given, faults)
}

#[tactic(auto, using(crate::proofs::TypedSteps::typing))]
fn name_type(scope: &Scope, word: Word<'_>, faults: &mut FaultSink) -> Result<Ty, AllocError>
    ensures ok { IfOk result
        (λ t. (ms : List Parts) → typed (numbers.type_in ms t) faults.new ≡ faults_then faults.old
        (meaning.name_type (scope_in ms scope.now) (word.entry).text.now (word.entry).span
        (context_of (word.entry).text.now))) }
    ensures known { IfOk result
        (λ t. (types : Types) → IsShown types scope.now → is_known types t ≡ true) }
{
    let name = word.text;
    let code = match Context::from_name(name) {
        Some(context) => {
            if scope.available.contexts.contains(&context) {
                return Ok(scope.types.get(context));
            }
            ExpressionCode::UnavailableContext
        }
        None => ExpressionCode::UndefinedContext,
    };
    report_text(word.span, code, name, faults)?;
    Ok(Ty::ANY)
}

// The type after the steps of a path, from the type before them.
#[tactic(auto, using(al_base::proofs::Growing::growth, crate::proofs::Shown::shown))]
#[cycle(typing)]
fn walk(
    types: &mut Types<'_>,
    left: Left<'_>,
    steps: &[PathStep<'_>],
    faults: &mut FaultSink,
) -> Result<Ty, AllocError>
    requires shown { IsShown types.old left.around.scope.now }
    requires known { is_known types.old left.ty ≡ true }
    ensures ok { IfOk result (λ t. typed (type_at types.new t) faults.new ≡ faults_then faults.old
        (walk (scope_view types.old (left.entry).around.scope.now) (left.entry).around.safe
        (steps_of (map step_of steps.now))
        (type_at types.old (left.entry).ty))) }
    ensures known { IfOk result (λ t. is_known types.new t ≡ true) }
    ensures shown { IsShown types.new (left.entry).around.scope.now }
    ensures kept { BeginsWith (objects_of types.new) (objects_of types.old) }
{
    let Left { around, mut ty } = left;
    for step in steps {
        ty = step_from(types, Left { around, ty }, step, faults)?;
    }
    Ok(ty)
}

// The type after one step of a path.
#[tactic(auto, using(al_base::proofs::Growing::growth, crate::proofs::Shown::shown))]
#[cycle(typing)]
fn step_from(
    types: &mut Types<'_>,
    left: Left<'_>,
    step: &PathStep<'_>,
    faults: &mut FaultSink,
) -> Result<Ty, AllocError>
    requires shown { IsShown types.old left.around.scope.now }
    requires known { is_known types.old left.ty ≡ true }
    ensures ok { IfOk result (λ t. typed (type_at types.new t) faults.new ≡ faults_then faults.old
        (step_from (scope_view types.old (left.entry).around.scope.now) (left.entry).around.safe
        (step_of step.now) (type_at types.old (left.entry).ty))) }
    ensures known { IfOk result (λ t. is_known types.new t ≡ true) }
    ensures shown { IsShown types.new (left.entry).around.scope.now }
    ensures kept { BeginsWith (objects_of types.new) (objects_of types.old) }
{
    match step {
        PathStep::Property(dot, name) => {
            let asked = PropertyStep {
                name: name.text,
                at: name.span,
                whole: across(*dot, name.span),
            };
            property(types, left.ty, asked, faults)
        }
        PathStep::All(first, last) => all(types, left.ty, across(*first, *last), faults),
        PathStep::Index(open, index, close) => {
            index_from(types, left, index, across(*open, *close), faults)
        }
    }
}

// The type after an index: of a property if it is a string literal, otherwise of an element.
#[tactic(auto, using(al_base::proofs::Growing::growth, crate::proofs::Shown::shown))]
#[cycle(typing)]
fn index_from(
    types: &mut Types<'_>,
    left: Left<'_>,
    index: &Expr<'_>,
    whole: Span,
    faults: &mut FaultSink,
) -> Result<Ty, AllocError>
    requires shown { IsShown types.old left.around.scope.now }
    requires known { is_known types.old left.ty ≡ true }
    ensures ok { IfOk result (λ t. typed (type_at types.new t) faults.new ≡ faults_then faults.old
        (index_from (literal_text (expr_view index.now)) whole (type_at types.old (left.entry).ty)
        (meaning.meaning (scope_view types.old (left.entry).around.scope.now)
        (left.entry).around.safe
        (expr_view index.now)))) }
    ensures known { IfOk result (λ t. is_known types.new t ≡ true) }
    ensures shown { IsShown types.new (left.entry).around.scope.now }
    ensures kept { BeginsWith (objects_of types.new) (objects_of types.old) }
{
    match literal_text(faults.alloc(), index)? {
        Some(name) => {
            let asked = PropertyStep {
                name: name.value.as_str(),
                at: name.span,
                whole,
            };
            property(types, left.ty, asked, faults)
        }
        None => {
            let by = expression(types, left.around, index, faults)?;
            element(left.ty, by, whole, faults)
        }
    }
}

// The type of operators of one level with their operands, from the type of the first operand.
#[tactic(auto, using(al_base::proofs::Growing::growth, crate::proofs::Shown::shown))]
#[cycle(typing)]
fn operations(
    types: &mut Types<'_>,
    left: Left<'_>,
    operands: &[Operand<'_>],
    faults: &mut FaultSink,
) -> Result<Ty, AllocError>
    requires shown { IsShown types.old left.around.scope.now }
    requires known { is_known types.old left.ty ≡ true }
    ensures ok { IfOk result (λ t. typed (type_at types.new t) faults.new ≡ faults_then faults.old
        (operations (scope_view types.old (left.entry).around.scope.now) (left.entry).around.safe
        (operands_of (map operand_of operands.now))
        (type_at types.old (left.entry).ty))) }
    ensures known { IfOk result (λ t. is_known types.new t ≡ true) }
    ensures shown { IsShown types.new (left.entry).around.scope.now }
    ensures kept { BeginsWith (objects_of types.new) (objects_of types.old) }
{
    let mut all = Join::One(left.ty);
    for operand in operands {
        let other = expression(types, left.around, &operand.expr, faults)?;
        let typed = TypedOperand {
            operator: operand.operator,
            at: operand.at,
            ty: other,
        };
        all = operation(types, all, typed, faults)?;
    }
    types.type_or_any(all)
}

// The types and spans of arguments.
#[tactic(auto, using(al_base::proofs::Growing::growth, crate::proofs::Shown::shown))]
#[cycle(typing)]
fn typed_arguments(
    types: &mut Types<'_>,
    around: Surroundings<'_>,
    exprs: &[Expr<'_>],
    faults: &mut FaultSink,
) -> Result<Vec<Argument>, AllocError>
    requires shown { IsShown types.old around.scope.now }
    ensures ok { IfOk result
        (λ v. (map (argument_at types.new) v.items, faults.new) ≡ all_after [] faults.old
        (meanings (scope_view types.old (around.entry).scope.now) (around.entry).safe
        (arguments_of (map expr_view exprs.now)))) }
    ensures known { IfOk result (λ v. are_known types.new v.items ≡ true) }
    ensures shown { IsShown types.new (around.entry).scope.now }
    ensures kept { BeginsWith (objects_of types.new) (objects_of types.old) }
{
    let mut arguments = Vec::new(faults.alloc());
    for expr in exprs {
        let ty = expression(types, around, expr, faults)?;
        arguments.push(Argument {
            ty,
            span: extent(expr),
        })?;
    }
    Ok(arguments)
}

// Adds the fault of a path that is an untrusted chain, where its text could get into a script.
#[tactic(auto, using(crate::proofs::Paths::parts))]
fn check_untrusted(
    around: Surroundings<'_>,
    base: &Expr<'_>,
    steps: &[PathStep<'_>],
    faults: &mut FaultSink,
) -> Result<(), AllocError>
    ensures { OnOk result
        (faults.new
        ≡ faults.old ++ untrusted_faults
        ((around.entry).scope.now.in_run && not (around.entry).safe)
        (expr_view base.now) (steps_of (map step_of steps.now))) }
{
    if around.safe || !around.scope.in_run {
        return Ok(());
    }
    let Some(name) = base_name(base) else {
        return Ok(());
    };
    match untrusted_chain(faults.alloc(), name, steps)? {
        Some(chain) => {
            let whole = path_extent(base, steps);
            report_text(whole, ExpressionCode::Untrusted, chain.as_str(), faults)
        }
        None => Ok(()),
    }
}

// The name that a path begins with; a bracket ends a chain.
#[tactic(auto, using(al_expr_grammar::proofs::TreeViews::tree_views))]
fn base_name<'a>(base: &Expr<'a>) -> Option<&'a str>
    ensures { option_map (λ n. n.now) result ≡ base_name (expr_view base.now) }
{
    match base {
        Expr::Name(word) => Some(word.text),
        Expr::Keyword(_, _) => None,
        Expr::Number(_) => None,
        Expr::Text(_) => None,
        Expr::Call(_, _, _) => None,
        Expr::Group(_, _, _) => None,
        Expr::Not(_, _) => None,
        Expr::Path(_, _) => None,
        Expr::Chain(_, _) => None,
    }
}
