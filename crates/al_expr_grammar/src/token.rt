//! Tokens.

use al_base::Span;

/// An operator between two operands. They bind in four levels, from the loosest: `||`; `&&`; `==`
/// and `!=`; `<`, `<=`, `>` and `>=`.
#[derive(Clone, Copy, PartialEq, Eq, Debug)]
pub enum Operator {
    /// `||`.
    Or,
    /// `&&`.
    And,
    /// `==`.
    Equal,
    /// `!=`.
    NotEqual,
    /// `<`.
    Less,
    /// `<=`.
    LessEqual,
    /// `>`.
    Greater,
    /// `>=`.
    GreaterEqual,
}

/// A word that is a literal, in lower case only. After a dot it names a property.
#[derive(Clone, Copy, PartialEq, Eq, Debug)]
pub enum Keyword {
    /// `null`.
    Null,
    /// `true`.
    True,
    /// `false`.
    False,
}

/// The kind of a token.
#[derive(Clone, Copy, PartialEq, Eq, Debug)]
pub enum TokenKind {
    /// A name of a context, function or property: `[A-Za-z_][A-Za-z0-9_-]*`, if it isn't a keyword.
    Name,
    /// `null`, `true` or `false`.
    Keyword(Keyword),
    /// A number: an optional sign, then `0x` and hexadecimal digits, or digits with an optional
    /// fraction and exponent.
    Number,
    /// A string in single quotes, in which `''` stands for a quote.
    Text,
    /// `(`.
    Open,
    /// `)`.
    Close,
    /// `[`.
    OpenIndex,
    /// `]`.
    CloseIndex,
    /// `.`.
    Dot,
    /// `,`.
    Comma,
    /// `*`.
    Star,
    /// `!`.
    Bang,
    /// An operator.
    Infix(Operator),
}

/// A token of a content.
#[derive(Clone, Copy)]
pub struct Token<'a> {
    /// What it is.
    pub kind: TokenKind,
    /// Its text as written; a string with its quotes.
    pub text: &'a str,
    /// Its bytes in the content.
    pub span: Span,
}
