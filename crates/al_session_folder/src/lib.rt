//! A folder of files that may call one another, as a session keeps it: what it requires of a
//! linter, the files that were read, the index of their callers, which files a change affects,
//! which calls are on a call cycle, and which faults a report lists of each file.
#![tactic(auto)]

mod affected;
mod callers;
mod calls;
mod cycles;
mod joining;
mod kept;
mod missing;
mod paths;
mod place;
mod same_calls;
mod seed;
mod view;

pub use affected::PlannedChange;
pub use al_lint::{Lint, Refused, Site, Target, owned_path};
pub use callers::{drop_callers, reindex};
pub use calls::calls_of;
pub use cycles::{CallGraph, LinkedFiles, call_graph};
pub use joining::{find_call_cycle_faults, has_call_cycles, join_files};
pub use kept::{Callers, Calls, Files, KeptFile, Names};
pub use missing::missing_paths;
pub use paths::Paths;
pub use place::{file_number, place_in};
pub use same_calls::has_same_calls;
pub use seed::Seed;
pub use view::FolderView;
