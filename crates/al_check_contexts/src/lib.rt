//! What an expression can refer to at each place of a workflow or an action: the types of contexts,
//! which refer to the file's table of types, and which contexts and special functions are
//! available.
#![tactic(auto)]

mod basis;
mod caches;
mod env;
mod job_lists;
mod jobs;
mod known;
mod owners;
mod scopes;
mod sections;
mod start;
mod steps;

pub use env::{Env, File};
pub use known::{Answer, Answers};
pub use scopes::available_at;
