//! The rules of single settings, wherever they are: ids, matrices, shells, permissions, environment
//! variables, passwords, scripts and conditions. Also how rules report faults that name a text of
//! the file.
#![tactic(auto)]

mod commands;
mod ids;
mod matrix;
mod names;
mod reports;
mod settings;

pub use commands::check_script;
pub use ids::check_ids;
pub use matrix::check_matrix;
pub use names::{PERMISSIONS, SCOPE_VALUES, SHELLS, WHOLE_VALUES};
pub use reports::{Named, named_text, report, report_unless, report_unless_among};
pub use settings::{check_condition, check_credentials, check_env, check_permissions, check_shell};
