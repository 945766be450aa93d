//! Faults whose message names a text.

ghost use Rattle.std.specs.Prelude.{◌≡◌, ◌++◌, ◌∷◌, [], OnOk};
ghost use Rattle.al_expr_grammar.specs.Refusal.{expression_fault};

use al_base::{Args, Code, ExpressionCode, FaultSink, Span};
use std::alloc::AllocError;

/// Adds a fault whose message names one text.
pub(crate) fn report_text(
    span: Span,
    code: ExpressionCode,
    text: &str,
    faults: &mut FaultSink,
) -> Result<(), AllocError>
    ensures { OnOk result (faults.new ≡ faults.old ++ expression_fault code span (text.now ∷ [])
        ∷ []) }
{
    let args = Args::one(String::from_str(faults.alloc(), text)?);
    faults.report(span, Code::Expression(code), args)
}
