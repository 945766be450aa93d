//! Chains of operators of one level.

ghost use Rattle.std.specs.Prelude.{◌≡◌, ◌++◌, not, [], List, IfOk, OnOk, map, true};
ghost use Rattle.al_base.specs.Growth.{BeginsWith};
ghost use Rattle.al_base.specs.declared.codes.ExpressionCode.TheVariants as code;
ghost use Rattle.al_expr_grammar.specs.Refusal.{expression_fault};
ghost use Rattle.al_expr_grammar.specs.Tree.{operands_of};
ghost use Rattle.al_expr_grammar.specs.View.{operand_of};
ghost use Rattle.al_expr_typing.specs.Comparison.{comparable_types};
ghost use Rattle.al_expr_typing.specs.Meaning.{begins_logic, give, is_logic, operation, typed};
ghost use Rattle.al_expr_typing.specs.Meaning.{faults_then};
ghost use Rattle.al_expr_types.specs.Tables.{is_known, objects_of, type_at};
ghost use Rattle.al_expr_types.specs.Types.{type_in};
ghost use Rattle.al_types.specs.Types.{Parts};
ghost use Rattle.al_expr_typing.specs.Chains.{has_operand, is_join_known, type_so_far};

use crate::comparison::comparable;
use al_base::{Code, ExpressionCode, FaultSink, Span};
use al_expr_grammar::{Operand, Operator};
use al_expr_types::{Join, Scalar, Ty, Types};
use std::alloc::AllocError;

/// An operator, and the type of the operand after it.
#[derive(Clone, Copy)]
pub(crate) struct TypedOperand {
    pub operator: Operator,
    pub at: Span,
    pub ty: Ty,
}

/// Adds an operand to those so far. What the branches of `||` and `&&` have in common becomes a
/// type only at the end, so that a long chain makes one object.
#[tactic(auto, using(al_base::proofs::Growing::growth))]
pub(crate) fn operation(
    types: &mut Types<'_>,
    so_far: Join,
    operand: TypedOperand,
    faults: &mut FaultSink,
) -> Result<Join, AllocError>
    requires below { is_join_known types.old so_far ≡ true }
    requires present { has_operand types.old so_far ≡ true }
    requires other { is_known types.old operand.ty ≡ true }
    ensures ok { IfOk result
        (λ j. typed (type_so_far types.new j) faults.new ≡ faults_then faults.old
        (operation operand.operator operand.at (type_so_far types.old so_far)
        (type_at types.old operand.ty))) }
    ensures below { IfOk result (λ j. is_join_known types.new j ≡ true) }
    ensures present { IfOk result (λ j. has_operand types.new j ≡ true) }
    ensures kept { BeginsWith (objects_of types.new) (objects_of types.old) }
{
    if is_logic(operand.operator) {
        return so_far.and(faults.alloc(), operand.ty);
    }
    let first = types.type_or_any(so_far)?;
    check_comparison(first, operand, faults)?;
    Ok(Join::One(Ty::scalar(Scalar::Bool)))
}

fn check_comparison(
    first: Ty,
    operand: TypedOperand,
    faults: &mut FaultSink,
) -> Result<(), AllocError>
    ensures { OnOk result ((ms : List Parts) → faults.new ≡ faults.old
        ++ give (not (comparable_types operand.operator (type_in ms first) (type_in ms operand.ty)))
        (expression_fault code.NotComparable operand.at [])) }
{
    if !comparable(operand.operator, first, operand.ty) {
        let code = Code::Expression(ExpressionCode::NotComparable);
        faults.report_plain(operand.at, code)?;
    }
    Ok(())
}

fn is_logic(operator: Operator) -> bool
    ensures { result ≡ is_logic operator }
{
    matches!(operator, Operator::Or | Operator::And)
}

/// Whether operators choose between their operands, so that these are branches. All operators of a
/// level are of one kind, so the first decides.
#[tactic(auto, using(al_expr_grammar::proofs::TreeViews::operand_view))]
pub(crate) fn begins_logic(operands: &[Operand<'_>]) -> bool
    ensures { result ≡ begins_logic (operands_of (map operand_of operands.now)) }
{
    match operands {
        [first, ..] => is_logic(first.operator),
        [] => false,
    }
}
