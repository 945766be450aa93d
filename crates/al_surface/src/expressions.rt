//! `al_expr`: tokens, trees, chunks, signatures and types.

use al_expr::{
    Available, Chunk, Context, ContextTypes, Expr, Form, Function, Operand, Operator, Parameters,
    PathStep, Returned, Scope, Signature, Token, TokenKind, Ty, Wanted, Word, assignable, chunks,
    extent, fuse, lex, parse_expr, signature_of, type_of,
};
use al_text::{Code, ExpressionCode, Fault, Span};
use std::alloc::{AllocError, Global};

static FAULTS: [(&str, ExpressionCode, u32); 9] = [
    ("", ExpressionCode::EndsEarly, 0),
    ("1 2", ExpressionCode::UnexpectedToken, 2),
    ("a.", ExpressionCode::EndsEarly, 2),
    ("f(,a)", ExpressionCode::UnexpectedToken, 2),
    ("a[*", ExpressionCode::EndsEarly, 3),
    ("[1]", ExpressionCode::UnexpectedToken, 0),
    ("true(", ExpressionCode::UnexpectedToken, 4),
    ("a # b", ExpressionCode::BadCharacter, 2),
    ("'ab", ExpressionCode::UnclosedText, 0),
];

fn faults() -> &'static [(&'static str, ExpressionCode, u32)] {
    &FAULTS
}

fn is_fault(fault: &Fault, code: ExpressionCode, start: u32) -> bool {
    fault.code == Code::Expression(code) && fault.span.start == start
}

fn has_fault(
    alloc: Global,
    content: &str,
    code: ExpressionCode,
    start: u32,
) -> Result<bool, AllocError> {
    match parse_expr(alloc, content)? {
        Ok(_) => Ok(false),
        Err(fault) => Ok(is_fault(&fault, code, start)),
    }
}

#[test]
fn faults_of_contents(rt: HostRuntime) {
    for (content, code, start) in faults() {
        assert!(rt; has_fault(rt.alloc(), content, *code, *start) == Ok(true));
    }
}

fn is_word(word: &Word<'_>, text: &str) -> bool {
    word.text == text
}

fn is_name(expr: &Expr<'_>, text: &str) -> bool {
    match expr {
        Expr::Name(word) => is_word(word, text),
        _ => false,
    }
}

/// Whether a step goes to the property `b`.
fn is_step_to_b(step: &PathStep<'_>) -> bool {
    match step {
        PathStep::Property(_, word) => is_word(word, "b"),
        _ => false,
    }
}

/// Whether an expression is the property `b` of `a`.
fn is_property(expr: &Expr<'_>) -> bool {
    match expr {
        Expr::Path(base, steps) => match steps.as_slice() {
            [step] => is_name(base, "a") && is_step_to_b(step),
            _ => false,
        },
        _ => false,
    }
}

fn is_equal_to_text(operand: &Operand<'_>) -> bool {
    match &operand.expr {
        Expr::Text(word) => operand.operator == Operator::Equal && is_word(word, "'x'"),
        _ => false,
    }
}

fn is_comparison(expr: &Expr<'_>) -> bool {
    match expr {
        Expr::Chain(first, more) => match more.as_slice() {
            [only] => is_property(first) && is_equal_to_text(only),
            _ => false,
        },
        _ => false,
    }
}

fn is_and_not(operand: &Operand<'_>) -> bool {
    match &operand.expr {
        Expr::Not(_, negated) => operand.operator == Operator::And && is_name(negated, "c"),
        _ => false,
    }
}

fn is_conjunction(expr: &Expr<'_>) -> bool {
    match expr {
        Expr::Chain(first, more) => match more.as_slice() {
            [only] => is_comparison(first) && is_and_not(only),
            _ => false,
        },
        _ => false,
    }
}

fn is_read(alloc: Global, content: &str) -> Result<bool, AllocError> {
    match parse_expr(alloc, content)? {
        Ok(expr) => Ok(is_conjunction(&expr)),
        Err(_) => Ok(false),
    }
}

#[test]
fn operators_bind_by_their_levels(rt: HostRuntime) {
    assert!(rt; is_read(rt.alloc(), "a.b == 'x' && !c") == Ok(true));
}

fn extends_over(alloc: Global, content: &str, span: Span) -> Result<bool, AllocError> {
    match parse_expr(alloc, content)? {
        Ok(expr) => Ok(extent(&expr) == span),
        Err(_) => Ok(false),
    }
}

#[test]
fn the_extent_of_an_expression(rt: HostRuntime) {
    assert!(rt; extends_over(rt.alloc(), " a && b.c ", Span { start: 1, end: 9 }) == Ok(true));
}

fn are_of_kinds(tokens: &[Token<'_>], kinds: &[TokenKind]) -> bool {
    tokens.len() == kinds.len()
        && tokens
            .iter()
            .zip(kinds)
            .all(|(token, kind)| token.kind == *kind)
}

fn has_kinds(alloc: Global, content: &str, kinds: &[TokenKind]) -> Result<bool, AllocError> {
    if content.len() > 4_194_304 {
        return Ok(false);
    }
    match lex(alloc, content)? {
        Ok(tokens) => Ok(are_of_kinds(&tokens, kinds)),
        Err(_) => Ok(false),
    }
}

static NEGATED: [TokenKind; 3] = [TokenKind::Bang, TokenKind::Name, TokenKind::Dot];

fn negated() -> &'static [TokenKind] {
    &NEGATED
}

#[test]
fn tokens(rt: HostRuntime) {
    assert!(rt; has_kinds(rt.alloc(), "! c.", negated()) == Ok(true));
}

fn is_chunk(found: &[Chunk], content: &str, start: u32, end: u32) -> bool {
    match found {
        [only] => only.content == content && (only.span.start, only.span.end) == (start, end),
        _ => false,
    }
}

/// Whether a text has one chunk, at bytes 5 to 12, and no fault.
fn has_one_chunk(alloc: Global, text: &str) -> Result<bool, AllocError> {
    if text.len() > 4_194_304 {
        return Ok(false);
    }
    let (found, fault) = chunks(alloc, text)?;
    Ok(fault.is_none() && is_chunk(&found, " 'x}}' ", 5, 12))
}

#[test]
fn a_chunk_ends_outside_quotes(rt: HostRuntime) {
    assert!(rt; has_one_chunk(rt.alloc(), "a ${{ 'x}}' }} b") == Ok(true));
}

static SIGNATURES: [(&str, Option<Signature>); 3] = [
    (
        "startswith",
        Some(Signature {
            parameters: Parameters::Two(Wanted::String, Wanted::String),
            returned: Returned::Bool,
        }),
    ),
    (
        "toJSON",
        Some(Signature {
            parameters: Parameters::One(Wanted::Any),
            returned: Returned::String,
        }),
    ),
    ("toXML", None),
];

fn signatures() -> &'static [(&'static str, Option<Signature>)] {
    &SIGNATURES
}

#[test]
fn signatures_by_name(rt: HostRuntime) {
    for (name, wanted) in signatures() {
        assert!(rt; signature_of(name) == *wanted);
    }
}

/// Whether calls have two arguments of these types.
fn takes_two(parameters: Parameters, first: Wanted, second: Wanted) -> bool {
    parameters.takes(2)
        && !parameters.takes(1)
        && parameters.parameter_at(0) == first
        && parameters.parameter_at(1) == second
}

#[test]
fn parameters_of_a_function(rt: HostRuntime) {
    let parameters = Parameters::Two(Wanted::String, Wanted::Any);
    assert!(rt; takes_two(parameters, Wanted::String, Wanted::Any));
}

fn fuse_to(alloc: Global, a: Ty, b: Ty, form: Form) -> Result<bool, AllocError> {
    Ok(fuse(alloc, a, b)?.form() == form)
}

#[test]
fn a_number_and_a_string_are_strings(rt: HostRuntime) {
    assert!(rt; fuse_to(rt.alloc(), Ty::Number, Ty::String, Form::String) == Ok(true));
}

#[test]
fn null_and_a_number_are_anything(rt: HostRuntime) {
    assert!(rt; fuse_to(rt.alloc(), Ty::Null, Ty::Number, Form::Any) == Ok(true));
}

#[test]
fn types_stand_for_others(rt: HostRuntime) {
    assert!(rt; assignable(&Ty::Bool, &Ty::String) && !assignable(&Ty::String, &Ty::Number));
}

/// A place where `github`, an object without fields, is the only context, and no special function
/// is available.
fn context_types(alloc: Global) -> ContextTypes {
    ContextTypes {
        github: Ty::Object {
            fields: Vec::new(alloc),
            rest: None,
        },
        env: Ty::Any,
        vars: Ty::Any,
        secrets: Ty::Any,
        runner: Ty::Any,
        job: Ty::Any,
        strategy: Ty::Any,
        needs: Ty::Any,
        jobs: Ty::Any,
        steps: Ty::Any,
        matrix: Ty::Any,
        inputs: Ty::Any,
    }
}

fn only_github() -> Available {
    Available {
        contexts: &[Context::Github],
        special: &[],
    }
}

#[test]
fn functions_that_can_be_called(rt: HostRuntime) {
    assert!(rt; only_github().allows(Function::Contains));
    assert!(rt; !only_github().allows(Function::Always));
}

pub(crate) fn scope(alloc: Global) -> Scope {
    Scope {
        types: context_types(alloc),
        available: only_github(),
        in_run: false,
    }
}

static TYPED: [(&str, ExpressionCode, Option<&str>, Option<&str>); 4] = [
    (
        "format('{0} {2}', 'a', 'b')",
        ExpressionCode::WrongPlaceholder,
        None,
        None,
    ),
    (
        "format('{0}', 'a', 'b')",
        ExpressionCode::UnusedArgument,
        Some("3"),
        None,
    ),
    (
        "startsWith('a')",
        ExpressionCode::ArgumentCount,
        Some("startsWith"),
        None,
    ),
    (
        "contains(github, 'a')",
        ExpressionCode::ArgumentType,
        Some("1"),
        Some("contains"),
    ),
];

fn typed() -> &'static [(
    &'static str,
    ExpressionCode,
    Option<&'static str>,
    Option<&'static str>,
)] {
    &TYPED
}

/// Whether these are one fault, with this code and these texts.
fn is_only(found: &[Fault], code: ExpressionCode, texts: (Option<&str>, Option<&str>)) -> bool {
    match found {
        [only] => {
            only.code == Code::Expression(code)
                && only.args.first() == texts.0
                && only.args.second() == texts.1
        }
        _ => false,
    }
}

/// Whether typing an expression finds one fault, with this code and these texts.
fn has_one(
    alloc: Global,
    expr: &Expr<'_>,
    code: ExpressionCode,
    texts: (Option<&str>, Option<&str>),
) -> bool {
    let mut out = Vec::new(alloc);
    type_of(alloc, &scope(alloc), expr, &mut out).is_ok() && is_only(&out, code, texts)
}

fn is_typed(
    alloc: Global,
    content: &str,
    code: ExpressionCode,
    texts: (Option<&str>, Option<&str>),
) -> Result<bool, AllocError> {
    match parse_expr(alloc, content)? {
        Ok(expr) => Ok(has_one(alloc, &expr, code, texts)),
        Err(_) => Ok(false),
    }
}

#[test]
fn faults_of_types(rt: HostRuntime) {
    for (content, code, first, second) in typed() {
        assert!(rt; is_typed(rt.alloc(), content, *code, (*first, *second)) == Ok(true));
    }
}
