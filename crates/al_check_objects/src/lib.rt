//! The types of objects that don't depend on the rest of a file: those of a matrix and of inputs,
//! which depend on one node, and of the contexts that are the same in every file. Also lists of
//! fields, from which objects are made.
#![tactic(auto)]

mod field_lists;
mod fixed;
mod inputs;
mod matrix;
mod objects;
mod scalars;

pub use field_lists::FieldList;
pub use fixed::{github_type, job_type, runner_type, strategy_type};
pub use inputs::inputs_type;
pub use matrix::matrix_type;
pub use objects::{declared_strings, object_of};
pub use scalars::{class_type_of, type_of_input};
