//! The texts of workflows and actions that have expressions, each with its place: which contexts
//! and functions are available there, and where it is.
#![tactic(auto)]

mod laws;
mod positions;
mod table;
mod walk;
mod ways;

pub use laws::placed_scalars;
pub use positions::{Position, Section, Seen};
pub use table::{AvailabilityRow, Key, available, rows as available_rows};
pub use walk::{Place, places};
pub use ways::{CONDITIONS, NOT_IN_RUNS, NOT_IN_WORKFLOW, OF_CALL, OF_INTERFACE, SCRIPTS, WayStep};
