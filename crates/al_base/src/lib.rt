//! What all other crates build on. Six jobs, each with its modules:
//!
//! - faults, in `codes`, `args`, `faults`, `sink` and `lists`: a span, a code and the texts of a
//!   message; where they go as they are found; their order, and a file's list of them
//! - names in which case does not count, in `names`, and the first positions of texts and names in
//!   a list, in `name_positions` and `sorted_texts`
//! - paths, in `paths`: which texts name a file of a folder
//! - control bytes of texts that are printed, in `controls`
//! - positions, in `positions` and `lines`: the line and the column of an offset
//! - the limits of the product, in `limits`
//! - readers and writers that count, in `streams`, and why their callers stop, in `stops`
//!
//! How a fault is printed is `al_text`'s, with the words that `specs/Codes.antt` has for its code.
#![tactic(auto)]

mod args;
mod codes;
mod controls;
mod examples;
mod faults;
pub mod limits;
mod lines;
mod lists;
mod name_positions;
mod names;
mod paths;
mod positions;
mod sink;
mod sorted_texts;
mod stops;
mod streams;

pub use args::Args;
pub use codes::{CallCode, Caller, Code, ExpressionCode, KeyCode, RuleCode, YamlCode};
pub use controls::{first_control, printable};
pub use examples::rows;
pub use faults::{Fault, Span};
pub use lines::Lines;
pub use lists::{add_copies, fault_list, fault_lists};
pub use name_positions::{NamePositions, TextPositions, in_lower_case};
pub use names::{is_among, is_same_name};
pub use paths::{Path, PathFault, path_fault};
pub use positions::{Location, is_char_start, location_of, position};
pub use sink::FaultSink;
pub use sorted_texts::last_bytes;
pub use stops::Stop;
pub use streams::{Input, Output};
