//! The outermost forms of types.

/// The outermost form of a type.
#[derive(Clone, Copy, PartialEq, Eq, Debug)]
pub enum Form {
    /// Any type: nothing is known.
    Any,
    /// Null.
    Null,
    /// A number.
    Number,
    /// A boolean.
    Bool,
    /// A string.
    String,
    /// An array.
    Array,
    /// An object.
    Object,
}
