//! Writing JSON, and the parts of answers that several questions share: codes and faults, and the
//! names of contexts and functions.
#![tactic(auto)]

mod codes;
mod faults;
mod json;
mod lines;
mod names;
mod owners;
mod report;

pub use codes::{Arity, identifier, push_code, push_message, push_template, rows_of_codes};
pub use faults::{FileFaults, join_faults, push_fault, push_faults};
pub use json::Json;
pub use lines::send;
pub use names::{push_contexts, push_functions};
pub use owners::Owners;
pub use report::{Detail, write_fault_lines, write_status};
