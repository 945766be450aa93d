//! Faults of expressions.

ghost use Rattle.std.specs.Prelude.{◌≡◌, ◌<◌, ◌-◌, ◌^◌, Some, []};
ghost use Rattle.al_expr_grammar.specs.Refusal.{expression_fault, open_text};

use al_base::{Args, Code, ExpressionCode, Fault, Span};

/// A fault whose message names nothing.
pub fn plain_fault(code: ExpressionCode, span: Span) -> Fault
    ensures { result ≡ expression_fault code span [] }
{
    Fault {
        span,
        code: Code::Expression(code),
        args: Args::none(),
    }
}

/// The fault of a string that isn't closed, with this opening quote.
pub fn unclosed_text(quote: usize) -> Fault
    requires { quote < 2 ^ 32 - 1 }
    ensures { Some result ≡ open_text (Some quote) }
{
    let span = Span {
        start: quote as u32,
        end: quote as u32 + 1,
    };
    plain_fault(ExpressionCode::UnclosedText, span)
}
