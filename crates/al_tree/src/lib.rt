//! Workflows and actions: which files they are, their trees, the faults of a tree against GitHub's
//! syntax, and what a file declares by names.
//!
//! The syntax is a table of sections (`rule_of`), from GitHub's pages "Workflow syntax for GitHub
//! Actions" and "Metadata syntax for GitHub Actions". `text_under(step, "shell")` gives the value
//! under a key of any node. Inputs, secrets and outputs are declared by names, which are the same
//! in any ASCII case; of equal ones the first counts.
//!
//! # Examples
//!
//! The keys of a workflow, and its faults:
//!
//! ```rust
//! use al_text::Fault;
//! use al_tree::{members_under, read_workflow};
//! use al_yaml::Doc;
//! use std::alloc::{AllocError, Global};
//!
//! /// Adds the ids of a workflow's jobs to a list, and gives the faults by GitHub's syntax.
//! fn job_ids(alloc: Global, doc: Doc, ids: &mut Vec<String>) -> Result<Vec<Fault>, AllocError> {
//!     let (workflow, faults) = read_workflow(alloc, doc)?;
//!     for job in &members_under(alloc, &workflow.root, "jobs")? {
//!         ids.push(String::from_utf8_lossy(alloc, job.key.text())?)?;
//!     }
//!     Ok(faults)
//! }
//! ```
#![tactic(auto)]

mod below;
mod check;
mod declarations;
mod examples;
mod files;
mod inputs;
mod keys;
mod kinds;
mod names;
mod scalars;
mod sections;
mod standings;
mod table;
mod values;

pub use below::{action_steps, has_value, is_composite, value_below_three, value_below_two};
pub use check::shape_faults;
pub use declarations::{declared_at, declared_in, is_named_among};
pub use examples::rows;
pub use files::{
    Action, FileKind, Tree, Workflow, document_faults, read_action, read_workflow, root_shape,
};
pub use inputs::{InputType, input_of};
pub use keys::{EntryKey, FEW_KEYS, KeyIndex, KeySet, key_of};
pub use kinds::{file_kind, is_action, is_workflow, is_workflow_name};
pub use names::{event_names, is_combination_key, is_event};
pub use scalars::{contains_chunk, is_null_scalar, scalar_fault};
pub use standings::{NODE_VERSIONS, Standing, refine, runs_of, standing_of};
pub use table::{
    Clash, Keys, Need, Others, ScalarSet, SectionKey, Shape, ShapeRule, Trigger, rule_of,
};
pub use values::{
    Member, items, items_under, key, key_texts, member_positions, members, members_under, text,
    text_under, texts, texts_under, value,
};
