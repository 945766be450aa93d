//! Faults as a report prints them, and what all crates have in common: faults and their codes,
//! paths, spans and positions, limits, and readers and writers that count. These come from
//! `al_base`, so that users of the public crates need only this one.
//!
//! - `wordings`: the message and the kind of each fault code
//! - `printing` and `snippets`: the line of a fault, and the source line with marks below it
//! - `printer`: the faults of a file one after another
//!
//! Spans and offsets are bytes of a file, from 0; lines and columns count from 1, columns in
//! characters.
//!
//! # Examples
//!
//! Printing a fault in each format:
//!
//! ```rust
//! use al_text::limits::LARGEST_FILE;
//! use al_text::{Fault, Output, PrintedFile, Stop, write_fault};
//! use std::alloc::Global;
//!
//! /// A fault of this file as a report prints it; `None` if it isn't in the file.
//! fn show(alloc: Global, file: &PrintedFile<'_>, fault: &Fault) -> Result<Option<Vec<u8>>, Stop> {
//!     let (length, span) = (file.bytes.len(), fault.span);
//!     if length > LARGEST_FILE || span.start > span.end || span.end as usize > length {
//!         return Ok(None);
//!     }
//!     let mut text = Vec::new(alloc);
//!     write_fault(&mut Output::new(&mut text), file, fault)?;
//!     Ok(Some(text))
//! }
//! ```
#![tactic(auto)]

mod printer;
mod printing;
mod snippets;
mod wordings;

// Worked rows:
mod examples;

pub use al_base::{
    Args, CallCode, Caller, Code, ExpressionCode, Fault, FaultSink, Input, KeyCode, Lines,
    Location, NamePositions, Output, Path, PathFault, RuleCode, Span, Stop, YamlCode, add_copies,
    fault_list, fault_lists, first_control, is_char_start, is_same_name, limits, location_of,
    path_fault, position, printable, rows,
};
pub use examples::snippet_rows;
pub use printer::{FaultPrinter, write_faults};
pub use printing::{Format, PrintedFile, write_fault};
pub use wordings::kind;
