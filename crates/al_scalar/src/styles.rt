//! Styles and classes of scalars.

/// How a scalar is written (YAML 1.2.2, 7.3 and 8.1).
#[derive(Clone, Copy, PartialEq, Eq, Debug)]
pub enum Style {
    /// Without quotes or an indicator (7.3.3); an empty node too.
    Plain,
    /// `'..'`, in which `''` stands for a quote (7.3.2).
    SingleQuoted,
    /// `".."`, with escapes (7.3.1 and 5.7).
    DoubleQuoted,
    /// `|`, which keeps line breaks (8.1.2).
    Literal,
    /// `>`, which folds line breaks to spaces (8.1.3).
    Folded,
}

/// The class of a plain scalar by the core schema (YAML 1.2.2, 10.3.2). A scalar in any other style
/// is `Str`.
#[derive(Clone, Copy, PartialEq, Eq, Debug)]
pub enum Class {
    /// Null: the empty text, `null`, `Null`, `NULL` or `~`.
    Null,
    /// A boolean: `true` or `false`, in lower case, in upper case or with a capital.
    Bool,
    /// An integer: decimal with an optional sign, `0o17` or `0x1F`.
    Int,
    /// A number with a point or an exponent, `.inf` or `.nan`.
    Float,
    /// Any other text, and each scalar that isn't plain.
    Str,
}
