//! A postorder of a graph: the order in which a depth-first search finishes its nodes.

ghost use Rattle.al_graph.specs.Private.Finishing.{IsFinished, IsSearch, frames_of};
ghost use Rattle.al_graph.specs.Graphs.{Edge, edges_of};
ghost use Rattle.al_graph.specs.Private.Marks.{Marked};
ghost use Rattle.std.specs.Prelude.{◌≡◌, ℕ, ◌<◌, ◌++◌, ◌∷◌, [], false, true, length};
ghost use Rattle.std.specs.Prelude.{slice_index_or, set, IfOk, OnOk};

use std::alloc::{AllocError, Global};

/// A node that the search has entered, and those of its successors that it hasn't visited yet.
#[derive(Clone, Copy)]
struct Frame<'a> {
    node: usize,
    rest: &'a [usize],
}

/// Enters a node.
fn enter<'a>(
    graph: &'a [Vec<usize>],
    node: usize,
    seen: &mut Vec<bool>,
    frames: &mut Vec<Frame<'a>>,
) -> Result<(), AllocError>
    requires node_in { node < length graph.now }
    requires size { length seen.old.items ≡ length graph.now }
    ensures seen { OnOk result (seen.new.items ≡ set seen.old.items node true) }
    ensures frames { OnOk result (frames_of frames.new.items
        ≡ frames_of frames.old.items ++ (node, slice_index_or (edges_of graph.now) node []) ∷ []) }
{
    seen[node] = true;
    let rest = graph[node].as_slice();
    frames.push(Frame { node, rest })?;
    Ok(())
}

/// Searches from a node, unless it was seen, until everything reachable from it is finished. The
/// stack of frames is empty before and after.
fn finish_from<'a>(
    graph: &'a [Vec<usize>],
    from: usize,
    seen: &mut Vec<bool>,
    frames: &mut Vec<Frame<'a>>,
    order: &mut Vec<usize>,
) -> Result<(), AllocError>
    requires edges_in { (j k : ℕ) → Edge (edges_of graph.now) j k → k < length graph.now }
    requires from_in { from < length graph.now }
    requires empty { frames.old.items ≡ [] }
    requires search { IsSearch (edges_of graph.now) seen.old.items [] order.old.items }
    ensures search { OnOk result (IsSearch (edges_of graph.now) seen.new.items [] order.new.items) }
    ensures kept { OnOk result ((k : ℕ) → Marked seen.old.items k → Marked seen.new.items k) }
    ensures from_seen { OnOk result (Marked seen.new.items from) }
    ensures emptied { OnOk result (frames.new.items ≡ []) }
{
    if seen[from] {
        return Ok(());
    }
    enter(graph, from, seen, frames)?;
    while let Some(frame) = frames.pop() {
        let [next, rest @ ..] = frame.rest else {
            order.push(frame.node)?;
            continue;
        };
        let node = frame.node;
        frames.push(Frame { node, rest })?;
        if seen[*next] {
            continue;
        }
        enter(graph, *next, seen, frames)?;
    }
    Ok(())
}

/// The nodes in an order in which a depth-first search finishes them: each after those reachable
/// from it, except those from which it can be reached.
///
/// Takes time linear in nodes and edges. Fails with `AllocError` when out of memory.
pub(crate) fn finish_order(alloc: Global, graph: &[Vec<usize>]) -> Result<Vec<usize>, AllocError>
    requires { (j k : ℕ) → Edge (edges_of graph.now) j k → k < length graph.now }
    ensures { IfOk result (λ order. IsFinished (edges_of graph.now) order.items) }
{
    let mut seen = vec![in alloc; false; graph.len()]?;
    let mut frames = Vec::new(alloc);
    let mut order = Vec::with_capacity(alloc, graph.len())?;
    for node in 0..graph.len() {
        finish_from(graph, node, &mut seen, &mut frames, &mut order)?;
    }
    Ok(order)
}
