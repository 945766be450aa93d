//! The types of scalars and inputs.
ghost use Rattle.std.specs.Prelude.{◌≡◌};
ghost use Rattle.al_check_objects.specs.Scalars.{class_type};
ghost use Rattle.al_expr_types.specs.Types.{scalar_type};
ghost use Rattle.al_check_objects.specs.Inputs.{input_type};

use al_expr_types::Scalar;
use al_scalar::Class;
use al_tree::InputType;

/// The type of a scalar of a class.
pub fn class_type_of(class: Class) -> Scalar
    ensures { scalar_type result ≡ class_type class }
{
    match class {
        Class::Null => Scalar::Null,
        Class::Bool => Scalar::Bool,
        Class::Int | Class::Float => Scalar::Number,
        Class::Str => Scalar::String,
    }
}

/// The type that an input has in expressions.
pub fn type_of_input(input: InputType) -> Scalar
    ensures { scalar_type result ≡ input_type input }
{
    match input {
        InputType::Boolean => Scalar::Bool,
        InputType::Number => Scalar::Number,
        InputType::String => Scalar::String,
    }
}
