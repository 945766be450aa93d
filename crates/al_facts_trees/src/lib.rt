//! Answers about a single file: its tree as YAML, its expressions, and what their undefined
//! properties are read from.
#![tactic(auto)]

mod contents;
mod expressions;
mod nodes;
mod owners;
mod scalars;
mod trees;

pub use expressions::push_places;
pub use nodes::{Form, push_node};
pub use owners::property_owners;
pub use scalars::push_scalar;
pub use trees::push_expr;
