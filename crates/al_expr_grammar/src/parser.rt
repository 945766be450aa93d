//! A recursive descent parser.

ghost use Rattle.std.specs.Prelude.{map, List, ◌≡◌, ◌+◌, MatchOption, MatchResult, [], ◌∷◌};
ghost use Rattle.al_expr_grammar.specs.Lexeme.{Lexeme, seen, kinds, kind_of, lexeme_text};
ghost use Rattle.al_expr_grammar.specs.Lexeme.{lexeme_span};
ghost use Rattle.al_expr_grammar.specs.Parsed.{EndsPath, IsStray, IsVerdict, Lacks, NoBang};
ghost use Rattle.al_expr_grammar.specs.Parsed.{NoOperator};
ghost use Rattle.al_expr_grammar.specs.Parsed.{Parsed, Parses, ParsesStep, StepRead, StepRefused};
ghost use Rattle.al_expr_grammar.specs.Parsed.{ArgumentsRead, ArgumentsRefused};
ghost use Rattle.al_expr_grammar.specs.View.{expr_view, step_of};
ghost use Rattle.al_expr_grammar.specs.Grammar.{Binary, Unary, Postfix, Primary, level_of, below};
ghost use Rattle.al_expr_grammar.specs.Grammar.{IsTreeOf};
ghost use Rattle.al_expr_grammar.specs.Table.{Fine, verdict_of};
ghost use Rattle.al_expr_grammar.specs.declared.parser.ParseError.TheVariants.{Memory, TooDeep};
ghost use Rattle.al_expr_grammar.specs.declared.token.TokenKind.TheVariants.{Infix, Name, Open};
ghost use Rattle.al_expr_grammar.specs.declared.token.TokenKind.TheVariants.{OpenIndex, Close, Dot};

use crate::ast::{Expr, Operand, PathStep, Word};
use crate::token::{Operator, Token, TokenKind};
use al_base::limits::DEEPEST_EXPRESSION;
use std::alloc::{AllocError, AllocFailed, Global};

/// Why tokens were not parsed, with how many are left at the fault, the faulty one included: 0 if
/// they end too early.
#[derive(Clone, Copy, Debug)]
pub enum ParseError {
    Memory,
    Unexpected(usize),
    TooDeep(usize),
}

impl From<AllocError> for ParseError {
    ghost from_gives = { λ _ e. e ≡ Memory };

    fn from(_error: AllocError) -> ParseError {
        ParseError::Memory
    }
}

impl<T: Drop> From<AllocFailed<T>> for ParseError {
    ghost from_gives = { λ _ e. e ≡ Memory };

    fn from(_error: AllocFailed<T>) -> ParseError {
        ParseError::Memory
    }
}

/// What the first tokens spell, and the tokens after them.
type Parse<'t, 'a, T = Expr<'a>> = Result<(T, &'t [Token<'a>]), ParseError>;

/// How many levels of operators there are.
const LEVELS: u8 = 4;

/// The level of an operator, from 0, the tightest.
fn level_of(operator: Operator) -> u8
    ensures { result ≡ level_of operator }
{
    match operator {
        Operator::Or => 3,
        Operator::And => 2,
        Operator::Equal | Operator::NotEqual => 1,
        Operator::Less | Operator::LessEqual | Operator::Greater | Operator::GreaterEqual => 0,
    }
}

/// The first token, and the rest.
fn split<'t, 'a>(tokens: &'t [Token<'a>]) -> Option<(Token<'a>, &'t [Token<'a>])>
    ensures { MatchOption result (map seen tokens.now ≡ [])
        (λ x. map seen tokens.now ≡ seen x.0 ∷ map seen x.1.now) }
{
    match tokens {
        [] => None,
        [first, rest @ ..] => Some((*first, rest)),
    }
}

/// A token's text with its span.
fn word<'a>(token: Token<'a>) -> Word<'a>
    ensures text { result.text.now ≡ lexeme_text (seen token.entry) }
    ensures span { result.span ≡ lexeme_span (seen token.entry) }
{
    Word {
        text: token.text,
        span: token.span,
    }
}

/// The first token, which must be of this kind, and the rest.
fn expect<'t, 'a>(tokens: &'t [Token<'a>], kind: TokenKind) -> Parse<'t, 'a, Token<'a>>
    ensures { MatchResult result
        (λ x. (map seen tokens.now ≡ seen x.0 ∷ map seen x.1.now) × (kind_of (seen x.0) ≡ kind))
        (λ e. IsStray (map seen tokens.now) kind e) }
{
    accept(tokens, kind).ok_or(ParseError::Unexpected(tokens.len()))
}

/// An operator of this level at the start, and the tokens after it.
fn operator<'t, 'a>(
    level: u8,
    tokens: &'t [Token<'a>],
) -> Option<(Operator, Token<'a>, &'t [Token<'a>])>
    ensures { MatchOption result (NoOperator level (kinds (map seen tokens.now)))
        (λ x. (map seen tokens.now ≡ seen x.1 ∷ map seen x.2.now)
        × (kind_of (seen x.1) ≡ Infix x.0) × (level_of x.0 ≡ level)) }
{
    let (first, rest) = split(tokens)?;
    match first.kind {
        TokenKind::Infix(operator) if level_of(operator) == level => Some((operator, first, rest)),
        _ => None,
    }
}

/// The first token, if it is of this kind, and the rest.
fn accept<'t, 'a>(tokens: &'t [Token<'a>], kind: TokenKind) -> Option<(Token<'a>, &'t [Token<'a>])>
    ensures { MatchOption result (Lacks kind (kinds (map seen tokens.now)))
        (λ x. (map seen tokens.now ≡ seen x.0 ∷ map seen x.1.now) × (kind_of (seen x.0) ≡ kind)) }
{
    match split(tokens) {
        Some((first, rest)) if first.kind == kind => Some((first, rest)),
        _ => None,
    }
}

/// The nesting that is left inside a bracket or after a `!`, at which this many tokens are left,
/// itself included.
fn deeper(room: u32, left: usize) -> Result<u32, ParseError>
    ensures { MatchResult result (λ inner. inner + 1 ≡ room)
        (λ e. (room ≡ 0) × (e ≡ TooDeep left)) }
{
    room.checked_sub(1).ok_or(ParseError::TooDeep(left))
}

/// The property that a dot leads to.
#[inline(always)]
fn property<'t, 'a>(dot: Token, tokens: &'t [Token<'a>], room: u32) -> Parse<'t, 'a, PathStep<'a>>
    requires { kind_of (seen dot) ≡ Dot }
    ensures { ParsesStep room (seen dot.entry ∷ map seen tokens.now) result }
{
    let Some((first, rest)) = split(tokens) else {
        return Err(ParseError::Unexpected(0));
    };
    match first.kind {
        TokenKind::Name | TokenKind::Keyword(_) => {
            Ok((PathStep::Property(dot.span, word(first)), rest))
        }
        TokenKind::Star => Ok((PathStep::All(dot.span, first.span), rest)),
        _ => Err(ParseError::Unexpected(tokens.len())),
    }
}

/// A literal, a name, a call or an expression in brackets, at the start.
#[cycle(parser)]
fn primary<'t, 'a>(alloc: Global, tokens: &'t [Token<'a>], room: u32) -> Parse<'t, 'a>
    requires { NoBang (kinds (map seen tokens.now)) }
    ensures { Parses Primary room (map seen tokens.now) result }
{
    let Some((first, rest)) = split(tokens) else {
        return Err(ParseError::Unexpected(0));
    };
    match first.kind {
        TokenKind::Keyword(keyword) => Ok((Expr::Keyword(keyword, first.span), rest)),
        TokenKind::Number => Ok((Expr::Number(word(first)), rest)),
        TokenKind::Text => Ok((Expr::Text(word(first)), rest)),
        TokenKind::Open => group(alloc, first, rest, room),
        TokenKind::Name => match accept(rest, TokenKind::Open) {
            Some((bracket, inner)) => call(alloc, first, bracket, inner, room),
            None => Ok((Expr::Name(word(first)), rest)),
        },
        _ => Err(ParseError::Unexpected(tokens.len())),
    }
}

/// An expression in brackets, after the opening one.
#[tactic(auto, using(crate::proofs::Rules::group_refused, crate::proofs::Rules::group_not_closed))]
#[cycle(parser)]
fn group<'t, 'a>(alloc: Global, bracket: Token, tokens: &'t [Token<'a>], room: u32) -> Parse<'t, 'a>
    requires { kind_of (seen bracket) ≡ Open }
    ensures { Parses Primary room (seen bracket.entry ∷ map seen tokens.now) result }
{
    let inner = deeper(room, tokens.len() + 1)?;
    let (expr, left) = operand(alloc, LEVELS, tokens, inner)?;
    let (close, rest) = expect(left, TokenKind::Close)?;
    let boxed = Box::new(alloc, expr)?;
    Ok((Expr::Group(boxed, bracket.span, close.span), rest))
}

/// A call, after its name and opening bracket.
#[cycle(parser)]
fn call<'t, 'a>(
    alloc: Global,
    name: Token<'a>,
    bracket: Token,
    tokens: &'t [Token<'a>],
    room: u32,
) -> Parse<'t, 'a>
    requires name { kind_of (seen name) ≡ Name }
    requires bracket { kind_of (seen bracket) ≡ Open }
    ensures { Parses Primary room
        (seen name.entry ∷ seen bracket.entry ∷ map seen tokens.now) result }
{
    let inner = deeper(room, tokens.len() + 1)?;
    let function = word(name);
    if let Some((close, rest)) = accept(tokens, TokenKind::Close) {
        return Ok((Expr::Call(function, Vec::new(alloc), close.span), rest));
    }
    let (given, left) = arguments(alloc, tokens, inner)?;
    let (close, rest) = expect(left, TokenKind::Close)?;
    Ok((Expr::Call(function, given, close.span), rest))
}

/// The arguments of a call with at least one.
#[tactic(auto, using(crate::proofs::Rules::first_argument_read))]
#[cycle(parser)]
fn arguments<'t, 'a>(
    alloc: Global,
    tokens: &'t [Token<'a>],
    room: u32,
) -> Parse<'t, 'a, Vec<Expr<'a>>>
    requires { Lacks Close (kinds (map seen tokens.now)) }
    ensures { MatchResult result
        (λ x. ArgumentsRead room (map seen tokens.now) (map expr_view x.0.items) (map seen x.1.now))
        (λ e. ArgumentsRefused room (map seen tokens.now) e) }
{
    let (first, mut left) = operand(alloc, LEVELS, tokens, room)?;
    let mut given = Vec::new(alloc);
    given.push(first)?;
    'list: while let Some((_, next)) = accept(left, TokenKind::Comma) {
        let (argument, rest) = operand(alloc, LEVELS, next, room)?;
        given.push(argument)?;
        left = rest;
    }
    Ok((given, left))
}

/// An operand with the steps after it.
#[tactic(auto, using(crate::proofs::Chains::path_refused))]
#[cycle(parser)]
fn postfix<'t, 'a>(alloc: Global, tokens: &'t [Token<'a>], room: u32) -> Parse<'t, 'a>
    requires { NoBang (kinds (map seen tokens.now)) }
    ensures { Parses Postfix room (map seen tokens.now) result }
{
    let (base, after) = primary(alloc, tokens, room)?;
    let Some((first, mut left)) = step(alloc, after, room)? else {
        return Ok((base, after));
    };
    let mut steps = Vec::with_capacity(alloc, 1)?;
    steps.push(first)?;
    'walk: while let Some((taken, rest)) = step(alloc, left, room)? {
        steps.push(taken)?;
        left = rest;
    }
    Ok((Expr::Path(Box::new(alloc, base)?, steps), left))
}

/// A step at the start; `None` if the path doesn't continue.
#[cycle(parser)]
#[inline(always)]
fn step<'t, 'a>(
    alloc: Global,
    tokens: &'t [Token<'a>],
    room: u32,
) -> Result<Option<(PathStep<'a>, &'t [Token<'a>])>, ParseError>
    ensures { MatchResult result (λ o. MatchOption o (EndsPath (kinds (map seen tokens.now)))
        (λ x. StepRead room (map seen tokens.now) (step_of x.0) (map seen x.1.now)))
        (λ e. StepRefused room (map seen tokens.now) e) }
{
    let Some((first, rest)) = split(tokens) else {
        return Ok(None);
    };
    match first.kind {
        TokenKind::Dot => Ok(Some(property(first, rest, room)?)),
        TokenKind::OpenIndex => Ok(Some(index(alloc, first, rest, room)?)),
        _ => Ok(None),
    }
}

/// An index, after its opening bracket.
#[cycle(parser)]
fn index<'t, 'a>(
    alloc: Global,
    bracket: Token,
    tokens: &'t [Token<'a>],
    room: u32,
) -> Parse<'t, 'a, PathStep<'a>>
    requires { kind_of (seen bracket) ≡ OpenIndex }
    ensures { ParsesStep room (seen bracket.entry ∷ map seen tokens.now) result }
{
    let inner = deeper(room, tokens.len() + 1)?;
    if let Some((_, left)) = accept(tokens, TokenKind::Star) {
        let (close, rest) = expect(left, TokenKind::CloseIndex)?;
        return Ok((PathStep::All(bracket.span, close.span), rest));
    }
    let (expr, left) = operand(alloc, LEVELS, tokens, inner)?;
    let (close, rest) = expect(left, TokenKind::CloseIndex)?;
    Ok((PathStep::Index(bracket.span, expr, close.span), rest))
}

/// An operand of the tightest operators: a path, possibly negated.
#[tactic(auto, using(crate::proofs::Chains::not_refused))]
#[cycle(parser)]
fn unary<'t, 'a>(alloc: Global, tokens: &'t [Token<'a>], room: u32) -> Parse<'t, 'a>
    ensures { Parses Unary room (map seen tokens.now) result }
{
    let Some((bang, inner)) = accept(tokens, TokenKind::Bang) else {
        return postfix(alloc, tokens, room);
    };
    let within = deeper(room, tokens.len())?;
    let (expr, rest) = unary(alloc, inner, within)?;
    Ok((Expr::Not(bang.span, Box::new(alloc, expr)?), rest))
}

/// An operand of a level: paths and negations, separated by operators of the levels below it.
#[tactic(auto, using(crate::proofs::Chains::refused_below, crate::proofs::Chains::unary_refused))]
#[cycle(parser)]
fn operand<'t, 'a>(alloc: Global, level: u8, tokens: &'t [Token<'a>], room: u32) -> Parse<'t, 'a>
    ensures { Parses (below level) room (map seen tokens.now) result }
{
    let (mut expr, mut left) = unary(alloc, tokens, room)?;
    'levels: for tighter in 0..level {
        let Some((found, sign, inner)) = operator(tighter, left) else {
            continue;
        };
        let (whole, rest) = chain(alloc, expr, found, sign, inner, room)?;
        expr = whole;
        left = rest;
    }
    Ok((expr, left))
}

/// Operators of one level with their operands, after the first operand and operator.
#[tactic(auto, using(crate::proofs::Chains::later_refused))]
#[cycle(parser)]
fn chain<'t, 'a>(
    alloc: Global,
    first: Expr<'a>,
    which: Operator,
    sign: Token<'a>,
    tokens: &'t [Token<'a>],
    room: u32,
) -> Parse<'t, 'a>
    requires { kind_of (seen sign) ≡ Infix which }
    ensures { (all : List Lexeme)
        → Parsed (below (level_of which)) room all (expr_view first.entry)
        (seen sign.entry ∷ map seen tokens.now)
        → Parses (Binary (level_of which)) room all result }
{
    let level = level_of(which);
    let (second, mut left) = operand(alloc, level, tokens, room)?;
    let mut more = Vec::with_capacity(alloc, 1)?;
    more.push(Operand {
        operator: which,
        at: sign.span,
        expr: second,
    })?;
    'operators: while let Some((found, sign, inner)) = operator(level, left) {
        let (expr, rest) = operand(alloc, level, inner, room)?;
        more.push(Operand {
            operator: found,
            at: sign.span,
            expr,
        })?;
        left = rest;
    }
    Ok((Expr::Chain(Box::new(alloc, first)?, more), left))
}

/// The tree of the tokens, or the first fault in them.
pub fn parse<'a>(alloc: Global, tokens: &[Token<'a>]) -> Result<Expr<'a>, ParseError>
    ensures { MatchResult result
        (λ e. (verdict_of (kinds (map seen tokens.now)) ≡ Fine)
        × IsTreeOf (expr_view e) (map seen tokens.now))
        (λ e. IsVerdict e (verdict_of (kinds (map seen tokens.now)))) }
{
    let (expr, rest) = operand(alloc, LEVELS, tokens, DEEPEST_EXPRESSION)?;
    match rest.len() {
        0 => Ok(expr),
        left => Err(ParseError::Unexpected(left)),
    }
}
