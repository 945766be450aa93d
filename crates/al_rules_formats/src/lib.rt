//! The small languages in the texts of workflows and actions: filter patterns, schedules and names.
#![tactic(auto)]

mod names;
mod patterns;
mod schedules;
mod texts;
mod worked;

pub use names::{is_id, is_variable};
pub use patterns::{Filter, is_pattern};
pub use schedules::{Item, is_too_often, schedule};
pub use texts::has_part;
pub use worked::{part_rows, pattern_rows, schedule_rows};
