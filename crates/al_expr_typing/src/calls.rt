//! Calls of functions: whether the function is defined and available, and the faults of the
//! arguments.

ghost use Rattle.std.specs.Prelude.{◌≡◌, ◌++◌, IfOk, OnOk, List, not, map, drop, true, ◌∷◌, [], ℕ};
ghost use Rattle.al_expr_typing.specs.Meaning.{typed, faults_then, give, is_test, call_from};
ghost use Rattle.al_expr_typing.specs.Meaning.{argument_faults, format_faults};
ghost use Rattle.al_expr_typing.specs.Meaning.{unused_arguments};
ghost use Rattle.al_expr_grammar.specs.Refusal.{expression_fault};
ghost use Rattle.al_expr_typing.specs.Arguments.{argument_in};
ghost use Rattle.al_expr_names.specs.Scopes.{can_call};
ghost use Rattle.al_expr_typing.specs.Scopes.{scope_in};
ghost use Rattle.al_expr_names.specs.Signatures.{accepts, returned_type, parameter_at};
ghost use Rattle.al_expr_grammar.specs.Tree.{arguments_of};
ghost use Rattle.al_types.specs.Types.{Parts};
ghost use Rattle.al_expr_types.specs.Types.{is_below, type_in};
ghost use Rattle.al_expr_grammar.specs.View.{expr_view};
ghost use Rattle.al_base.specs.declared.codes.ExpressionCode.TheVariants as code;

use crate::literals::literal_text;
use crate::placeholders::used_arguments;
use crate::reports::report_text;
use crate::scope::Scope;
use al_base::{Args, Code, ExpressionCode, FaultSink, Span};
use al_expr_grammar::{Expr, Word};
use al_expr_names::{Function, Parameters, Returned, Wanted};
use al_expr_types::{Scalar, Ty};
use std::alloc::AllocError;

/// The type and span of an argument.
#[derive(Clone, Copy)]
pub(crate) struct Argument {
    pub ty: Ty,
    pub span: Span,
}

/// A call as it is written.
#[derive(Clone, Copy)]
pub(crate) struct CallExpr<'a, 'e> {
    pub name: Word<'a>,
    /// The function with that name, if there is one.
    pub function: Option<Function>,
    pub arguments: &'e [Expr<'a>],
}

/// Whether a function only tests its arguments, so that none of their text gets into a script.
pub(crate) fn is_test(function: Option<Function>) -> bool
    ensures { result ≡ is_test function }
{
    matches!(
        function,
        Some(Function::Contains | Function::StartsWith | Function::EndsWith)
    )
}

/// The type of a call whose arguments have these types.
pub(crate) fn call_from(
    scope: &Scope,
    call: CallExpr<'_, '_>,
    arguments: &[Argument],
    faults: &mut FaultSink,
) -> Result<Ty, AllocError>
    ensures ok { IfOk result
        (λ t. (ms : List Parts) → typed (type_in ms t) faults.new ≡ faults_then faults.old
        (call_from (scope_in ms scope.now) (call.entry).name.text.now
        (call.entry).name.span
        (call.entry).function
        (arguments_of (map expr_view (call.entry).arguments.now))
        (map (argument_in ms) arguments.now))) }
    ensures known { IfOk result (λ t. (k : ℕ) → is_below k t ≡ true) }
{
    let name = call.name;
    let Some(function) = call.function else {
        let code = ExpressionCode::UndefinedFunction;
        report_text(name.span, code, name.text, faults)?;
        return Ok(Ty::ANY);
    };
    check_available(scope, name, function, faults)?;
    let signature = function.signature();
    check_arguments(name, signature.parameters, arguments, faults)?;
    check_format(function, call.arguments, arguments, faults)?;
    Ok(returned_type(signature.returned))
}

fn check_available(
    scope: &Scope,
    name: Word<'_>,
    function: Function,
    faults: &mut FaultSink,
) -> Result<(), AllocError>
    ensures { OnOk result
        (faults.new ≡ faults.old
        ++ give (not (can_call scope.now.available.special.now function))
        (expression_fault code.UnavailableFunction (name.entry).span
        ((name.entry).text.now ∷ []))) }
{
    if !scope.available.allows(function) {
        let code = ExpressionCode::UnavailableFunction;
        report_text(name.span, code, name.text, faults)?;
    }
    Ok(())
}

fn check_arguments(
    name: Word<'_>,
    parameters: Parameters,
    arguments: &[Argument],
    faults: &mut FaultSink,
) -> Result<(), AllocError>
    ensures { OnOk result ((ms : List Parts) → faults.new ≡ faults.old ++
        argument_faults (name.entry).text.now (name.entry).span parameters
        (map (argument_in ms) arguments.now)) }
{
    if !parameters.takes(arguments.len()) {
        return report_text(name.span, ExpressionCode::ArgumentCount, name.text, faults);
    }
    for (index, argument) in arguments.iter().enumerate() {
        if accepts(parameters.parameter_at(index), argument.ty) {
            continue;
        }
        let number = (index + 1).to_string(faults.alloc())?;
        let args = Args::two(faults.alloc(), number.as_str(), name.text)?;
        let code = Code::Expression(ExpressionCode::ArgumentType);
        faults.report(argument.span, code, args)?;
    }
    Ok(())
}

fn check_format(
    function: Function,
    exprs: &[Expr<'_>],
    arguments: &[Argument],
    faults: &mut FaultSink,
) -> Result<(), AllocError>
    ensures { OnOk result ((ms : List Parts) → faults.new ≡ faults.old ++
        format_faults function (arguments_of (map expr_view exprs.now))
        (map (argument_in ms) arguments.now)) }
{
    let (Function::Format, [first, ..]) = (function, exprs) else {
        return Ok(());
    };
    let Some(literal) = literal_text(faults.alloc(), first)? else {
        return Ok(());
    };
    let rest = after_first(arguments);
    match used_arguments(faults.alloc(), literal.value.as_str(), rest.len())? {
        Some(used) => check_used(&used, rest, faults),
        None => faults.report_plain(
            literal.span,
            Code::Expression(ExpressionCode::WrongPlaceholder),
        ),
    }
}

fn after_first(arguments: &[Argument]) -> &[Argument]
    ensures { (ms : List Parts) → map (argument_in ms) result.now
        ≡ drop 1 (map (argument_in ms) arguments.now) }
{
    arguments.get(1..).unwrap_or(&[])
}

fn check_used(
    used: &[bool],
    arguments: &[Argument],
    faults: &mut FaultSink,
) -> Result<(), AllocError>
    ensures { OnOk result ((ms : List Parts) → faults.new ≡ faults.old
        ++ unused_arguments 0 used.now (map (argument_in ms) arguments.now)) }
{
    for (index, argument) in arguments.iter().enumerate() {
        if index >= used.len() {
            return Ok(());
        }
        if used[index] {
            continue;
        }
        let number = (index + 2).to_string(faults.alloc())?;
        let code = ExpressionCode::UnusedArgument;
        report_text(argument.span, code, number.as_str(), faults)?;
    }
    Ok(())
}

/// Whether an argument can have this type.
fn accepts(parameter_at: Wanted, ty: Ty) -> bool
    ensures { (ms : List Parts) → result ≡ accepts parameter_at (type_in ms ty) }
{
    match parameter_at {
        Wanted::Any => true,
        Wanted::NotObject => !ty.is_object(),
        Wanted::NotCollection => !ty.is_collection(),
        Wanted::String => ty.is_assignable_to(Ty::STRING),
        Wanted::ArrayOrString => ty.is_array() || ty.is_assignable_to(Ty::STRING),
    }
}

/// The type of what a function returns.
fn returned_type(returned: Returned) -> Ty
    ensures ty { (ms : List Parts) → type_in ms result ≡ returned_type returned }
    ensures known { (k : ℕ) → is_below k result ≡ true }
{
    match returned {
        Returned::Any => Ty::ANY,
        Returned::Bool => Ty::scalar(Scalar::Bool),
        Returned::String => Ty::STRING,
    }
}
