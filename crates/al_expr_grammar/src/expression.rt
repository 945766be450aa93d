//! Parsing a content as one expression: its tree, or its first fault.

ghost use Rattle.std.specs.Prelude.{◌≡◌, IfOk, IfErr, Some, None, map};
ghost use Rattle.al_expr_grammar.specs.Lexeme.{seen, kinds};
ghost use Rattle.al_expr_grammar.specs.Parsed.{IsVerdict};
ghost use Rattle.al_expr_grammar.specs.Refusal.{fault_of_content, fault_of_verdict, Spells};
ghost use Rattle.al_expr_grammar.specs.Table.{verdict_of};
ghost use Rattle.al_expr_grammar.specs.View.{expr_view};

use crate::ast::Expr;
use crate::faults::plain_fault;
use crate::lexer::lex;
use crate::parser::{ParseError, parse};
use crate::token::Token;
use al_base::limits::LONGEST_EXPRESSION;
use al_base::{Args, Code, ExpressionCode, Fault, Span};
use std::alloc::{AllocError, Global};

/// The fault that the parser found in the tokens of a content with this many bytes.
fn parse_fault(
    alloc: Global,
    length: u32,
    tokens: &[Token],
    error: ParseError,
) -> Result<Fault, AllocError>
    requires { IsVerdict error (verdict_of (kinds (map seen tokens.now))) }
    ensures { IfOk result
        (λ f. fault_of_verdict length (map seen tokens.now)
        (verdict_of (kinds (map seen tokens.now))) ≡ Some f) }
{
    match error {
        ParseError::Memory => Err(AllocError),
        ParseError::Unexpected(0) => Ok(plain_fault(
            ExpressionCode::EndsEarly,
            Span {
                start: length,
                end: length,
            },
        )),
        ParseError::Unexpected(left) => {
            let token = tokens[tokens.len() - left];
            Ok(Fault {
                span: token.span,
                code: Code::Expression(ExpressionCode::UnexpectedToken),
                args: Args::one(String::from_str(alloc, token.text)?),
            })
        }
        ParseError::TooDeep(left) => {
            let token = tokens[tokens.len() - left];
            Ok(plain_fault(ExpressionCode::TooDeep, token.span))
        }
    }
}

/// The tree of a content, or the fault because of which it has none (GitHub, "Evaluate expressions
/// in workflows and actions"). Spans are byte offsets in the content, from 0. Takes a content of
/// any length.
///
/// The fault is X5 if the content is longer than 21,000 bytes; otherwise X1 or X2 of its tokens;
/// otherwise X3 at the first unexpected token, or X6 at the token at which the nesting reaches 51;
/// otherwise X4 at the content's end, if its tokens end too early. An argument of a fault is a
/// token as written, control bytes included.
///
/// # Errors
///
/// `AllocError` if memory runs out. The inner `Err` is the content's fault.
pub fn parse_expr(alloc: Global, content: &str) -> Result<Result<Expr<'_>, Fault>, AllocError>
    ensures tree { IfOk result (λ r. IfOk r (λ e. Spells content.now (expr_view e))) }
    ensures none { IfOk result (λ r. IfOk r (λ e. fault_of_content content.now ≡ None)) }
    ensures fault { IfOk result (λ r. IfErr r (λ f. fault_of_content content.now ≡ Some f)) }
{
    if content.len() > LONGEST_EXPRESSION {
        let first = Span { start: 0, end: 1 };
        return Ok(Err(plain_fault(ExpressionCode::TooLong, first)));
    }
    let tokens = match lex(alloc, content)? {
        Ok(tokens) => tokens,
        Err(fault) => return Ok(Err(fault)),
    };
    match parse(alloc, &tokens) {
        Ok(expr) => Ok(Ok(expr)),
        Err(error) => Ok(Err(parse_fault(alloc, content.len() as u32, &tokens, error)?)),
    }
}
