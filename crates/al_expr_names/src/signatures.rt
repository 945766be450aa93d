//! The signatures of functions: how many arguments they take, of which types, and what they return.

ghost use Rattle.std.specs.Prelude.{◌≡◌, option_map};
ghost use Rattle.al_expr_names.specs.Names.{function_of};
ghost use Rattle.al_expr_names.specs.Signatures.{signature, takes_count, parameter_at};

use crate::names::Function;

/// Which types an argument can have.
#[derive(Clone, Copy, PartialEq, Eq, Debug)]
pub enum Wanted {
    /// Anything.
    Any,
    /// Anything but an object.
    NotObject,
    /// Anything but an array or an object.
    NotCollection,
    /// Anything that can be assigned to a string.
    String,
    /// An array, or anything that can be assigned to a string.
    ArrayOrString,
}

/// How many arguments a function takes, and of which types.
#[derive(Clone, Copy, PartialEq, Eq, Debug)]
pub enum Parameters {
    /// None.
    Zero,
    /// One.
    One(Wanted),
    /// Two.
    Two(Wanted, Wanted),
    /// One or two: the second is optional.
    OneOrTwo(Wanted, Wanted),
    /// The first, and any number of further arguments, each of which may be the second.
    OneOrMore(Wanted, Wanted),
}

/// What a function returns.
#[derive(Clone, Copy, PartialEq, Eq, Debug)]
pub enum Returned {
    /// A value of any type.
    Any,
    /// A boolean.
    Bool,
    /// A string.
    String,
}

/// What a function takes and returns.
#[derive(Clone, Copy, PartialEq, Eq, Debug)]
pub struct Signature {
    /// The arguments that it takes.
    pub parameters: Parameters,
    /// The type that it returns.
    pub returned: Returned,
}

/// The signature of the function with a name, ignoring ASCII case; `None` if there is no such
/// function (GitHub, "Evaluate expressions in workflows and actions").
pub fn signature_of(name: &str) -> Option<Signature>
    ensures { result ≡ option_map signature (function_of name.now) }
{
    Function::from_name(name).map(|function| function.signature())
}

impl Function {
    /// What the function takes and returns.
    pub fn signature(self) -> Signature
        ensures { result ≡ signature self }
    {
        use Parameters::{One, OneOrMore, OneOrTwo, Two, Zero};
        let (parameters, returned) = match self {
            Function::Contains => (
                Two(Wanted::NotObject, Wanted::NotCollection),
                Returned::Bool,
            ),
            Function::StartsWith => (Two(Wanted::String, Wanted::String), Returned::Bool),
            Function::EndsWith => (Two(Wanted::String, Wanted::String), Returned::Bool),
            Function::Format => (OneOrMore(Wanted::String, Wanted::Any), Returned::String),
            Function::Join => (
                OneOrTwo(Wanted::ArrayOrString, Wanted::String),
                Returned::String,
            ),
            Function::ToJson => (One(Wanted::Any), Returned::String),
            Function::FromJson => (One(Wanted::String), Returned::Any),
            Function::HashFiles => (OneOrMore(Wanted::String, Wanted::String), Returned::String),
            Function::Success => (Zero, Returned::Bool),
            Function::Always => (Zero, Returned::Bool),
            Function::Cancelled => (Zero, Returned::Bool),
            Function::Failure => (Zero, Returned::Bool),
        };
        Signature {
            parameters,
            returned,
        }
    }
}

impl Parameters {
    /// Whether a call can have this many arguments.
    pub fn takes(self, count: usize) -> bool
        ensures { result ≡ takes_count self count }
    {
        match self {
            Parameters::Zero => count == 0,
            Parameters::One(_) => count == 1,
            Parameters::Two(_, _) => count == 2,
            Parameters::OneOrTwo(_, _) => count == 1 || count == 2,
            Parameters::OneOrMore(_, _) => count != 0,
        }
    }

    /// Which types the argument at an index, from 0, can have; of an argument too many, what the
    /// last parameter can, or anything if there is none.
    pub fn parameter_at(self, index: usize) -> Wanted
        ensures { result ≡ parameter_at self index }
    {
        match self {
            Parameters::Zero => Wanted::Any,
            Parameters::One(first) => first,
            Parameters::Two(first, more)
            | Parameters::OneOrTwo(first, more)
            | Parameters::OneOrMore(first, more) => if index == 0 { first } else { more },
        }
    }
}
