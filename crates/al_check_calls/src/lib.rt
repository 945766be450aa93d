//! The calls of a file with their answers, which are the interfaces of the called files: what is
//! known from them of outputs, which expressions see, and the faults of the calls, given the types
//! of the values that jobs give.
#![tactic(auto)]

mod answers;
mod comparisons;
mod examples;
mod faults;
mod known;
mod laws;
mod missing;
mod reports;
mod types;
mod undefined;
mod values;

pub use answers::{Answered, with_answers};
pub use examples::rows;
pub use faults::check_calls;
pub use known::{KnownOutputs, known_outputs};
pub use laws::faults_lie;
