//! The tree of an expression.

use crate::token::{Keyword, Operator};
use al_base::Span;

/// A name or literal as written, and its span in the content.
#[derive(Clone, Copy)]
pub struct Word<'a> {
    /// The text as written.
    pub text: &'a str,
    /// Its bytes in the content.
    pub span: Span,
}

/// An expression. Spans are byte offsets in its content.
///
/// The steps of a path are one list, and so are the operators of one level, so only brackets and
/// negations make the tree deeper. Brackets are kept, since spans include them and they end a path.
#[derive(Drop)]
#[cycle(ast)]
pub enum Expr<'a> {
    /// `null`, `true` or `false`.
    Keyword(Keyword, Span),
    /// A number as written.
    Number(Word<'a>),
    /// A string as written, with its quotes.
    Text(Word<'a>),
    /// A context's name.
    Name(Word<'a>),
    /// The name, the arguments, and the closing bracket.
    Call(Word<'a>, Vec<Expr<'a>>, Span),
    /// The expression in brackets, and the opening and the closing bracket.
    Group(Box<Expr<'a>>, Span, Span),
    /// The `!`, and its operand.
    Not(Span, Box<Expr<'a>>),
    /// The base, and at least one step.
    Path(Box<Expr<'a>>, Vec<PathStep<'a>>),
    /// The first operand, and at least one more, each after an operator of the same level.
    Chain(Box<Expr<'a>>, Vec<Operand<'a>>),
}

/// A step of a path.
#[derive(Drop)]
#[cycle(ast)]
pub enum PathStep<'a> {
    /// `.name`: the dot, and the name.
    Property(Span, Word<'a>),
    /// `.*` or `[*]`: the first and the last token.
    All(Span, Span),
    /// `[index]`: the opening bracket, the index, and the closing bracket.
    Index(Span, Expr<'a>, Span),
}

/// An operator, its span, and the operand after it.
#[derive(Drop)]
#[cycle(ast)]
pub struct Operand<'a> {
    /// The operator before the operand.
    pub operator: Operator,
    /// The operator's bytes in the content.
    pub at: Span,
    /// The operand.
    pub expr: Expr<'a>,
}
