//! YAML documents: the tree of a file's nodes, and laws of the definitions that read it.
#![tactic(auto)]

mod access;
mod laws;
mod node;
mod worked;

pub use laws::{tree_spans, tree_texts};
pub use node::{
    Doc, Entry, Node, entry_of, mapping_node, scalar_node, sequence_node, sharable, shared_node,
};
pub use worked::rows;
