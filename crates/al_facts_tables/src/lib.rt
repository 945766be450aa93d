//! Answers about the linter itself: the tables of what it accepts, and its codes and limits.
#![tactic(auto)]

mod shapes;
mod tables;
mod types;

pub use tables::push_tables;
