//! Rules of workflows and actions that depend on a single file, G1 to G22, including those for the
//! value of `on`: events, activity types, filters, schedules, and the types of inputs; and the
//! lists of names that they accept. They take a tree of `al_tree`; spans are bytes of its file.
//!
//! # Examples
//!
//! The rules alone:
//!
//! ```rust
//! use al_rules::rules;
//! use al_text::{Fault, fault_list};
//! use al_tree::Tree;
//! use std::alloc::{AllocError, Global};
//!
//! /// The faults of a file by the rules of a single file, in the order of reports.
//! fn rule_faults(alloc: Global, tree: &Tree) -> Result<Vec<Fault>, AllocError> {
//!     let mut faults = Vec::new(alloc);
//!     rules(alloc, tree, &mut faults)?;
//!     Ok(fault_list(faults))
//! }
//! ```
#![tactic(auto)]

mod actions;
mod events;
mod examples;
mod files;
mod laws;
mod names;
mod needs;
mod sections;
mod workflows;

pub use al_rules_settings::{PERMISSIONS, SCOPE_VALUES, SHELLS, WHOLE_VALUES};
pub use events::check_on;
pub use examples::rows;
pub use files::rules;
pub use laws::spans;
pub use names::{CALL_TYPES, DISPATCH_TYPES, activities_of};
