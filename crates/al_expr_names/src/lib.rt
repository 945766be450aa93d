//! The names of contexts and functions, what a place makes available, and what functions take and
//! return.
#![tactic(auto)]

mod names;
mod scope;
mod signatures;

pub use names::{CONTEXTS, Context, Function};
pub use scope::{Available, SPECIAL_FUNCTIONS};
pub use signatures::{Parameters, Returned, Signature, Wanted, signature_of};
