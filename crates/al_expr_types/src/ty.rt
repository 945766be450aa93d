//! Types, which are small and copied.

ghost use Rattle.std.specs.Prelude.{◌≡◌, List, IfOk, MatchOption, false, nat_lt, true, ℕ};
ghost use Rattle.al_types.specs.Types.{ArrayOf, Parts, assignable_type, fuse_type, is_array};
ghost use Rattle.al_types.specs.Types.{is_collection, is_object, is_plain};
ghost use Rattle.al_types.specs.TypeParts.{form_of};
ghost use Rattle.al_expr_types.specs.Types.{arrays_of, base_type, is_any, is_below, scalar_type};
ghost use Rattle.al_expr_types.specs.Types.{type_in};
ghost use Rattle.al_expr_types.specs.declared.ty.Base.TheVariants as base;

use al_types::Form;
use std::alloc::AllocError;

/// A scalar type.
#[derive(Clone, Copy, PartialEq, Eq, Debug)]
pub enum Scalar {
    Any,
    Null,
    Number,
    Bool,
    String,
}

/// A type that isn't an array.
#[derive(Clone, Copy, PartialEq, Eq, Debug)]
pub enum Base {
    Scalar(Scalar),
    /// An object, by its number in the file's `Types`.
    Object(u32),
}

/// A type: one that isn't an array, nested in this many arrays.
#[derive(Clone, Copy, PartialEq, Eq, Debug)]
pub struct Ty {
    pub arrays: u32,
    pub of: Base,
}

impl Scalar {
    /// What two scalar types have in common.
    pub fn fuse(self, other: Scalar) -> Scalar
        ensures { scalar_type result ≡ fuse_type (scalar_type self) (scalar_type other) }
    {
        match (self, other) {
            (Scalar::Null, Scalar::Null) => Scalar::Null,
            (Scalar::Any | Scalar::Null, _) | (_, Scalar::Any | Scalar::Null) => Scalar::Any,
            (Scalar::Number, Scalar::Number) => Scalar::Number,
            (Scalar::Bool, Scalar::Bool) => Scalar::Bool,
            _ => Scalar::String,
        }
    }

    /// Whether a value of this type can be used where one of the other is expected: any and every
    /// type, each with itself, and all but any as a string.
    fn is_assignable_to(self, to: Scalar) -> bool
        ensures { result ≡ assignable_type (scalar_type self) (scalar_type to) }
    {
        match self {
            Scalar::Any => true,
            Scalar::Null => matches!(to, Scalar::Any | Scalar::Null | Scalar::String),
            Scalar::Number => matches!(to, Scalar::Any | Scalar::Number | Scalar::String),
            Scalar::Bool => matches!(to, Scalar::Any | Scalar::Bool | Scalar::String),
            Scalar::String => matches!(to, Scalar::Any | Scalar::String),
        }
    }

    /// The outermost form.
    pub fn form(self) -> Form
        ensures { (ms : List Parts) → result ≡ form_of (base_type ms (base.Scalar self)) }
    {
        match self {
            Scalar::Any => Form::Any,
            Scalar::Null => Form::Null,
            Scalar::Number => Form::Number,
            Scalar::Bool => Form::Bool,
            Scalar::String => Form::String,
        }
    }
}

impl Base {
    /// Whether it is any.
    fn is_any(self) -> bool
        ensures { result ≡ is_any self }
    {
        matches!(self, Base::Scalar(Scalar::Any))
    }

    /// Whether a value of this type can be used where one of the other is expected.
    fn is_assignable_to(self, to: Base) -> bool
        ensures { (ms : List Parts)
            → result ≡ assignable_type (base_type ms self) (base_type ms to) }
    {
        match (self, to) {
            (Base::Object(_), Base::Object(_)) => true,
            (Base::Object(_), Base::Scalar(_)) => to.is_any(),
            (Base::Scalar(_), Base::Object(_)) => self.is_any(),
            (Base::Scalar(from), Base::Scalar(to)) => from.is_assignable_to(to),
        }
    }
}

impl Ty {
    pub const ANY: Ty = Ty {
        arrays: 0,
        of: Base::Scalar(Scalar::Any),
    };

    pub const STRING: Ty = Ty {
        arrays: 0,
        of: Base::Scalar(Scalar::String),
    };

    /// The type of a scalar.
    pub fn scalar(of: Scalar) -> Ty
        ensures ty { (ms : List Parts) → type_in ms result ≡ scalar_type of }
        ensures below { (k : ℕ) → is_below k result ≡ true }
    {
        Ty {
            arrays: 0,
            of: Base::Scalar(of),
        }
    }

    /// The type of an object, by its number.
    pub fn object(number: u32) -> Ty
        ensures ty { (ms : List Parts) → type_in ms result ≡ base_type ms (base.Object number) }
        ensures below { (k : ℕ) → is_below k result ≡ nat_lt number k }
    {
        Ty {
            arrays: 0,
            of: Base::Object(number),
        }
    }

    /// The outermost form.
    pub fn form(self) -> Form
        ensures { (ms : List Parts) → result ≡ form_of (type_in ms self) }
    {
        if self.arrays > 0 {
            return Form::Array;
        }
        match self.of {
            Base::Scalar(scalar) => scalar.form(),
            Base::Object(_) => Form::Object,
        }
    }

    /// Whether it is an array.
    pub fn is_array(self) -> bool
        ensures { (ms : List Parts) → result ≡ is_array (type_in ms self) }
    {
        matches!(self.form(), Form::Array)
    }

    /// Whether it is an object.
    pub fn is_object(self) -> bool
        ensures { (ms : List Parts) → result ≡ is_object (type_in ms self) }
    {
        matches!(self.form(), Form::Object)
    }

    /// Whether it is an array or an object.
    pub fn is_collection(self) -> bool
        ensures { (ms : List Parts) → result ≡ is_collection (type_in ms self) }
    {
        matches!(self.form(), Form::Array | Form::Object)
    }

    /// Whether it is a number, a bool or a string.
    pub fn is_plain(self) -> bool
        ensures { (ms : List Parts) → result ≡ is_plain (type_in ms self) }
    {
        matches!(self.form(), Form::Number | Form::Bool | Form::String)
    }

    /// The type nested in this many more arrays. Fails with `AllocError` if there are too many
    /// arrays to count.
    pub fn in_arrays(self, arrays: u32) -> Result<Ty, AllocError>
        ensures ty { IfOk result
            (λ t. (ms : List Parts) → type_in ms t ≡ arrays_of arrays (type_in ms self)) }
        ensures below { IfOk result (λ t. (k : ℕ) → is_below k self ≡ true → is_below k t ≡ true) }
    {
        match arrays.checked_add(self.arrays) {
            Some(all) => Ok(Ty {
                arrays: all,
                of: self.of,
            }),
            // No memory holds a type nested in so many arrays.
            None => Err(AllocError),
        }
    }

    /// The type of the elements of an array.
    pub fn element(self) -> Option<Ty>
        ensures { (ms : List Parts) → MatchOption result (is_array (type_in ms self) ≡ false)
            (λ t. type_in ms self ≡ ArrayOf (type_in ms t)) }
    {
        if self.arrays == 0 {
            return None;
        }
        Some(Ty {
            arrays: self.arrays - 1,
            of: self.of,
        })
    }

    /// Whether a value of this type can be used where one of the other is expected: any and every
    /// type, a scalar as itself, null, number and bool as a string, arrays by their elements, and
    /// an object as an object.
    pub fn is_assignable_to(self, to: Ty) -> bool
        ensures { (ms : List Parts) → result ≡ assignable_type (type_in ms self) (type_in ms to) }
    {
        if self.arrays < to.arrays {
            return self.of.is_any();
        }
        if to.arrays < self.arrays {
            return to.of.is_any();
        }
        self.of.is_assignable_to(to.of)
    }
}
