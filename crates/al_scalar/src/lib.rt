//! One YAML scalar: its style, its class, and its decoded text, each byte of which has the file
//! offset it came from (YAML 1.2.2, 5.7, 7.3, 8.1 and 10.3.2). `lines` has what a reader of YAML
//! asks of a line. Offsets are bytes of a file, from 0.
//!
//! # Examples
//!
//! Decoding a scalar, with the offset of each byte:
//!
//! ```rust
//! use al_scalar::{ScalarContext, read_scalar};
//! use al_text::limits::LARGEST_FILE;
//! use std::alloc::{AllocError, Global};
//!
//! /// The file offset of each byte of the text of the value that begins at byte `at`, as one does
//! /// at byte 3 of `a: "x\u00e9"`; none if it has a fault.
//! fn offsets(alloc: Global, file: &[u8], at: usize) -> Result<Vec<u32>, AllocError> {
//!     let mut offsets = Vec::new(alloc);
//!     if file.len() > LARGEST_FILE || at > file.len() {
//!         return Ok(offsets);
//!     }
//!     if let Ok(read) = read_scalar(alloc, file, at, ScalarContext::BlockFromIndent(1))? {
//!         for i in 0..read.scalar.text().len() {
//!             offsets.push(read.scalar.locate(i))?;
//!         }
//!     }
//!     Ok(offsets)
//! }
//! ```
#![tactic(auto)]

mod block;
mod class;
mod examples;
mod faults;
mod folding;
mod header;
pub mod lines;
mod plain;
mod quoted;
mod reader;
mod reads;
mod scalars;
mod styles;
mod texts;

pub use examples::rows;
pub use faults::{FaultAt, YamlFault, fault_at};
pub use reader::read_scalar;
pub use scalars::{Scalar, ScalarContext, ScalarRead};
pub use styles::{Class, Style};
