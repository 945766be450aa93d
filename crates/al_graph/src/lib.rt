//! Directed graphs as adjacency lists: for each node, by number, the nodes that its edges lead to.
#![tactic(auto)]

mod finishing;
mod labelling;
mod laws;
mod turning;

pub use labelling::strongly_connected_components;
pub use laws::walk_laws;
pub use turning::transpose;
