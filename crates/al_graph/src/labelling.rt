//! Strongly connected components, as labels of nodes: two nodes have the same label if each can be
//! reached from the other.
//!
//! They are found by two searches (Kosaraju's algorithm). The first follows the edges backward and
//! yields a postorder of the nodes. The second goes through that order from the end: each node
//! without a label passes its own to all nodes without one that can be reached from it.

ghost use Rattle.al_graph.specs.Private.Labelling.{IsBackward, IsLabelling, Labels};
ghost use Rattle.al_graph.specs.Graphs.{Edge, StronglyConnected, edges_of};
ghost use Rattle.std.specs.Prelude.{◌≡◌, ℕ, ◌<◌, ◌+◌, ◌↔◌, ◌∷◌, [], None, length, slice_index_or};
ghost use Rattle.std.specs.Prelude.{vec_len, IfOk, OnOk};

use crate::finishing::finish_order;
use crate::turning::transpose;
use std::alloc::{AllocError, Global};

/// Labels a node, and adds it to a list, unless it has a label.
fn label_node(
    node: usize,
    label: usize,
    labels: &mut Vec<Option<usize>>,
    waiting: &mut Vec<usize>,
) -> Result<(), AllocError>
    requires { node < length labels.old.items }
    ensures { OnOk result
        (Labels (node
        ∷ []) label labels.old.items labels.new.items waiting.old.items waiting.new.items) }
{
    if labels[node].is_none() {
        labels[node] = Some(label);
        waiting.push(node)?;
    }
    Ok(())
}

/// Labels the node at this position of the order and all nodes without a label that can be reached
/// from it, unless it has a label. The list of waiting nodes is empty before and after.
fn label_from(
    graph: &[Vec<usize>],
    order: &[usize],
    at: usize,
    labels: &mut Vec<Option<usize>>,
    waiting: &mut Vec<usize>,
) -> Result<(), AllocError>
    requires edges_in { (j k : ℕ) → Edge (edges_of graph.now) j k → k < length graph.now }
    requires order { IsBackward (edges_of graph.now) order.now }
    requires at_in { at < length order.now }
    requires labels { IsLabelling (edges_of graph.now) order.now labels.old.items (at + 1) [] }
    requires empty { waiting.old.items ≡ [] }
    ensures labels { OnOk result
        (IsLabelling (edges_of graph.now) order.now labels.new.items at []) }
    ensures emptied { OnOk result (waiting.new.items ≡ []) }
{
    if labels[order[at]].is_some() {
        return Ok(());
    }
    label_node(order[at], at, labels, waiting)?;
    while let Some(node) = waiting.pop() {
        for next in graph[node].as_slice() {
            label_node(*next, at, labels, waiting)?;
        }
    }
    Ok(())
}

/// A label for each node of a graph, the same for two nodes if and only if they are in one strongly
/// connected component. No label is `None`.
///
/// Takes time linear in nodes and edges. Fails with `AllocError` when out of memory.
pub fn strongly_connected_components(
    alloc: Global,
    graph: &[Vec<usize>],
) -> Result<Vec<Option<usize>>, AllocError>
    requires { (j k : ℕ) → Edge (edges_of graph.now) j k → k < length graph.now }
    ensures len { IfOk result (λ labels. vec_len labels ≡ length graph.now) }
    ensures exact { IfOk result (λ labels. (j k : ℕ) → j < length graph.now → k < length graph.now
        → (slice_index_or labels.items j None ≡ slice_index_or labels.items k None)
        ↔ StronglyConnected (edges_of graph.now) j k) }
{
    let back = transpose(alloc, graph)?;
    let order = finish_order(alloc, back.as_slice())?;
    let mut labels = vec![in alloc; None; graph.len()]?;
    let mut waiting = Vec::new(alloc);
    for at in (0..order.len()).rev() {
        label_from(graph, order.as_slice(), at, &mut labels, &mut waiting)?;
    }
    Ok(labels)
}
