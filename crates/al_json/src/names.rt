//! The names of contexts and functions.

use crate::json::Json;
use al_expr::{Context, Function};
use std::alloc::AllocError;

/// Writes the names of contexts.
pub fn push_contexts(json: &mut Json, contexts: &[Context]) -> Result<(), AllocError> {
    json.list_at("contexts")?;
    for context in contexts {
        json.text(context.name())?;
    }
    json.close(']')
}

/// Writes the names of functions that are available only at some places.
pub fn push_functions(json: &mut Json, functions: &[Function]) -> Result<(), AllocError> {
    json.list_at("functions")?;
    for function in functions {
        json.text(function.name())?;
    }
    json.close(']')
}
