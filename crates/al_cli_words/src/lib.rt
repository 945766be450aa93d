//! The linter's command line, and what it asks for.
#![tactic(auto)]

mod examples;
mod words;

pub use examples::rows;
pub use words::{Usage, Words, parse_words};
