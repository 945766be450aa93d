//! Typing expressions over a file's table of types: the type of a tree under a scope, and the
//! faults found on the way.
#![tactic(auto)]

mod calls;
mod chains;
mod comparison;
mod law;
mod literals;
mod placeholders;
mod reports;
mod scope;
mod steps;
mod typing;
mod untrusted;
mod worked;

pub use law::all_lie_in_content;
pub use scope::{ContextTypes, Scope};
pub use typing::type_of;
pub use worked::{literal_rows, placeholder_rows};
