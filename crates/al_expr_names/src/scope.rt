//! Which contexts and functions are available at a place.

ghost use Rattle.std.specs.Prelude.{◌≡◌};
ghost use Rattle.al_expr_names.specs.Scopes.{can_call};

use crate::names::{Context, Function};

/// The functions that are available only at some places (GitHub, "Contexts reference", "Context
/// availability").
pub const SPECIAL_FUNCTIONS: [Function; 5] = [
    Function::HashFiles,
    Function::Always,
    Function::Cancelled,
    Function::Success,
    Function::Failure,
];

/// What a place makes available. A place that makes everything available has
/// [`CONTEXTS`](crate::CONTEXTS) and [`SPECIAL_FUNCTIONS`].
#[derive(Clone, Copy)]
pub struct Available {
    /// The contexts that it may name, in any order.
    pub contexts: &'static [Context],
    /// The functions of [`SPECIAL_FUNCTIONS`] that it may call.
    pub special: &'static [Function],
}

impl Available {
    /// Whether a function can be called: one that isn't special can be called everywhere.
    pub fn allows(&self, function: Function) -> bool
        ensures { result ≡ can_call self.now.special.now function }
    {
        !SPECIAL_FUNCTIONS.contains(&function) || self.special.contains(&function)
    }
}
