//! The types of expressions: which can be assigned to which, and what two have in common.
#![tactic(auto)]

mod forms;
mod law;

pub use forms::Form;
pub use law::{all_fields_cover_each, objects_fuse, types_fuse};
