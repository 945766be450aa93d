//! Types as trees.

ghost use Rattle.std.specs.Prelude.{◌≡◌};
ghost use Rattle.al_types.specs.TypeParts.{form_of};
ghost use Rattle.al_expr.specs.Trees.{ty_of};

use al_types::Form;

/// The type of a value, as far as it is known before the workflow runs.
#[derive(Drop)]
#[cycle(trees)]
pub enum Ty {
    /// Nothing is known of the value.
    Any,
    /// Null.
    Null,
    /// A number.
    Number,
    /// A boolean.
    Bool,
    /// A string.
    String,
    /// An array, with the type of its elements.
    Array(Box<Ty>),
    /// An object. Of fields whose names differ only in ASCII case, the first counts.
    Object {
        /// The fields, in order.
        fields: Vec<Field>,
        /// The type of all other fields; `None` if there are no others.
        rest: Option<Box<Ty>>,
    },
}

/// A named field of an object.
#[derive(Drop)]
#[cycle(trees)]
pub struct Field {
    /// The name, as it is spelled.
    pub name: String,
    /// The type of the value.
    pub ty: Ty,
}

impl Ty {
    /// The outermost form.
    pub fn form(&self) -> Form
        ensures { result ≡ form_of (ty_of self.now) }
    {
        match self {
            Ty::Any => Form::Any,
            Ty::Null => Form::Null,
            Ty::Number => Form::Number,
            Ty::Bool => Form::Bool,
            Ty::String => Form::String,
            Ty::Array(_) => Form::Array,
            Ty::Object { .. } => Form::Object,
        }
    }
}
