//! What a session requires of a linter, and what calls name.
#![tactic(auto)]

mod lint;
mod paths;
mod targets;

pub use lint::{Lint, Refused, Site, Target};
pub use paths::owned_path;
