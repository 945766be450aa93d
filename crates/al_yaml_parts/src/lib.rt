//! The parts from which the collections of a YAML file are read: its bytes and lines, scalars,
//! keys, anchors and aliases, and nodes up to a bracket; with the limits, and the stack of open
//! collections.
#![tactic(auto)]

pub mod anchors;
pub mod bytes;
pub mod content;
pub mod document_edges;
pub mod faults;
pub mod file;
pub mod flow_nodes;
pub mod frames;
pub mod keys;
pub mod limits;
pub mod lines;
pub mod part;
pub mod scalars;
pub mod slots;
pub mod stack;
pub mod starts;
mod sums;
