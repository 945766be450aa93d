//! The faults of the expressions in workflows and actions. Types refer to the file's table of
//! types.
#![tactic(auto)]

mod contents;
mod expressions;
mod law;

pub use expressions::expression_faults;
pub use law::{all_lie_in_file, plain_texts_are_right};
