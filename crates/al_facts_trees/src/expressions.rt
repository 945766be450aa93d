//! The expressions of a file: their places, tokens and trees, with spans in the file.

use crate::contents::{Origin, contents, span_in_file};
use crate::trees::{keyword_text, operator_text};
use al_check::{Place, places};
use al_expr::{Expr, Operand, PathStep, Token, TokenKind, Word, extent, lex, parse_expr};
use al_json::{Json, push_contexts, push_fault, push_functions};
use al_text::limits::LONGEST_TEXT;
use al_text::{Fault, Span};
use al_tree::FileKind;
use al_yaml::Node;
use std::alloc::AllocError;

fn push_span(json: &mut Json, origin: Origin<'_>, span: Span) -> Result<(), AllocError> {
    let Span { start, end } = span_in_file(origin, span);
    json.number_at("start", start)?;
    json.number_at("end", end)
}

fn token_name(kind: TokenKind) -> &'static str {
    match kind {
        TokenKind::Name => "name",
        TokenKind::Keyword(_) => "keyword",
        TokenKind::Number => "number",
        TokenKind::Text => "string",
        TokenKind::Infix(_) | TokenKind::Bang => "operator",
        _ => "mark",
    }
}

fn push_token(json: &mut Json, origin: Origin<'_>, token: &Token<'_>) -> Result<(), AllocError> {
    json.open('{')?;
    json.text_at("kind", token_name(token.kind))?;
    json.text_at("text", token.text)?;
    push_span(json, origin, token.span)?;
    json.close('}')
}

// Writes the tokens of a content, of which there are none if it has a fault.
fn push_tokens(json: &mut Json, origin: Origin<'_>, content: &str) -> Result<(), AllocError> {
    json.list_at("tokens")?;
    if content.len() <= LONGEST_TEXT {
        if let Ok(tokens) = lex(json.alloc(), content)? {
            for token in &tokens {
                push_token(json, origin, token)?;
            }
        }
    }
    json.close(']')
}

// Begins a node of a tree.
fn open_node(
    json: &mut Json,
    origin: Origin<'_>,
    kind: &str,
    span: Span,
) -> Result<(), AllocError> {
    json.open('{')?;
    json.text_at("kind", kind)?;
    push_span(json, origin, span)
}

fn push_word(
    json: &mut Json,
    origin: Origin<'_>,
    kind: &str,
    word: &Word<'_>,
) -> Result<(), AllocError> {
    open_node(json, origin, kind, word.span)?;
    json.text_at("text", word.text)?;
    json.close('}')
}

// Writes an expression.
#[cycle(trees)]
fn push_expr(json: &mut Json, origin: Origin<'_>, expr: &Expr<'_>) -> Result<(), AllocError> {
    let whole = extent(expr);
    match expr {
        Expr::Number(word) => push_word(json, origin, "number", word),
        Expr::Text(word) => push_word(json, origin, "string", word),
        Expr::Name(word) => push_word(json, origin, "name", word),
        Expr::Keyword(keyword, span) => {
            open_node(json, origin, "keyword", *span)?;
            json.text_at("text", keyword_text(*keyword))?;
            json.close('}')
        }
        Expr::Group(inner, _, _) => {
            open_node(json, origin, "group", whole)?;
            json.key("inner")?;
            push_expr(json, origin, inner)?;
            json.close('}')
        }
        Expr::Not(_, operand) => {
            open_node(json, origin, "not", whole)?;
            json.key("operand")?;
            push_expr(json, origin, operand)?;
            json.close('}')
        }
        Expr::Call(name, arguments, _) => {
            open_node(json, origin, "call", whole)?;
            json.key("name")?;
            push_word(json, origin, "name", name)?;
            json.list_at("arguments")?;
            for argument in arguments {
                push_expr(json, origin, argument)?;
            }
            json.close(']')?;
            json.close('}')
        }
        Expr::Path(base, steps) => {
            open_node(json, origin, "path", whole)?;
            json.key("base")?;
            push_expr(json, origin, base)?;
            json.list_at("steps")?;
            for path_step in steps {
                push_step(json, origin, path_step)?;
            }
            json.close(']')?;
            json.close('}')
        }
        Expr::Chain(first, operands) => {
            open_node(json, origin, "chain", whole)?;
            json.key("first")?;
            push_expr(json, origin, first)?;
            json.list_at("rest")?;
            for operand in operands {
                push_operand(json, origin, operand)?;
            }
            json.close(']')?;
            json.close('}')
        }
    }
}

#[cycle(trees)]
fn push_step(
    json: &mut Json,
    origin: Origin<'_>,
    path_step: &PathStep<'_>,
) -> Result<(), AllocError> {
    match path_step {
        PathStep::Property(_, word) => push_word(json, origin, "property", word),
        PathStep::All(first, last) => {
            let span = Span {
                start: first.start,
                end: last.end,
            };
            open_node(json, origin, "all", span)?;
            json.close('}')
        }
        PathStep::Index(open, index, close) => {
            let span = Span {
                start: open.start,
                end: close.end,
            };
            open_node(json, origin, "index", span)?;
            json.key("index")?;
            push_expr(json, origin, index)?;
            json.close('}')
        }
    }
}

#[cycle(trees)]
fn push_operand(
    json: &mut Json,
    origin: Origin<'_>,
    operand: &Operand<'_>,
) -> Result<(), AllocError> {
    open_node(json, origin, "operand", operand.at)?;
    json.text_at("operator", operator_text(operand.operator))?;
    json.key("operand")?;
    push_expr(json, origin, &operand.expr)?;
    json.close('}')
}

// Writes a fault of an expression under its key, with its span in the file.
fn push_moved(json: &mut Json, origin: Origin<'_>, fault: Fault) -> Result<(), AllocError> {
    let span = span_in_file(origin, fault.span);
    json.key("fault")?;
    push_fault(json, &Fault { span, ..fault })
}

// Writes the tree of a content, or its fault.
fn push_tree(json: &mut Json, origin: Origin<'_>, content: &str) -> Result<(), AllocError> {
    match parse_expr(json.alloc(), content)? {
        Ok(expr) => {
            json.key("tree")?;
            push_expr(json, origin, &expr)
        }
        Err(fault) => push_moved(json, origin, fault),
    }
}

// Writes an expression of a scalar's text.
fn push_content(json: &mut Json, origin: Origin<'_>, content: &str) -> Result<(), AllocError> {
    let whole = Span {
        start: 0,
        end: content.len().min(LONGEST_TEXT) as u32,
    };
    json.open('{')?;
    push_span(json, origin, whole)?;
    push_tokens(json, origin, content)?;
    push_tree(json, origin, content)?;
    json.close('}')
}

// Writes the expressions at a place, and the fault of the text if one isn't closed.
fn push_chunks(json: &mut Json, place: &Place<'_>) -> Result<(), AllocError> {
    let scalar = place.scalar;
    let (found, unclosed) = contents(json.alloc(), place)?;
    json.list_at("chunks")?;
    for chunk in &found {
        let start = chunk.span.start;
        push_content(json, Origin { scalar, start }, chunk.content)?;
    }
    json.close(']')?;
    match unclosed {
        Some(fault) => push_moved(json, Origin { scalar, start: 0 }, fault),
        None => Ok(()),
    }
}

// Writes what is available at a place; nothing if all is.
fn push_available(json: &mut Json, place: &Place<'_>) -> Result<(), AllocError> {
    match place.available {
        None => Ok(()),
        Some(row) => {
            push_contexts(json, row.contexts)?;
            push_functions(json, row.special)
        }
    }
}

fn push_place(json: &mut Json, place: &Place<'_>) -> Result<(), AllocError> {
    let Span { start, end } = place.scalar.span();
    json.open('{')?;
    json.number_at("start", start)?;
    json.number_at("end", end)?;
    json.flag_at("condition", place.is_condition)?;
    json.flag_at("script", place.is_script)?;
    push_available(json, place)?;
    push_chunks(json, place)?;
    json.close('}')
}

/// Writes the places of a document's expressions under their key, in the order of the file.
pub fn push_places(json: &mut Json, kind: FileKind, root: &Node) -> Result<(), AllocError> {
    let found = places(json.alloc(), kind, root)?;
    json.list_at("expressions")?;
    for place in &found {
        push_place(json, place)?;
    }
    json.close(']')
}
