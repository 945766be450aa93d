//! The transpose of a graph.

ghost use Rattle.al_graph.specs.Graphs.{Edge, IsTranspose, edges_of};
ghost use Rattle.std.specs.Prelude.{◌≡◌, ℕ, ◌<◌, length, vec_len, IfOk};

use std::alloc::{AllocError, Global};

/// How many edges lead to each node, which is the length of its list in the transpose. Only
/// capacities depend on these numbers.
fn edge_counts(alloc: Global, graph: &[Vec<usize>]) -> Result<Vec<usize>, AllocError>
    requires { (j k : ℕ) → Edge (edges_of graph.now) j k → k < length graph.now }
    ensures { IfOk result (λ counts. vec_len counts ≡ length graph.now) }
{
    let mut counts = vec![in alloc; 0usize; graph.len()]?;
    for nodes in graph {
        for node in nodes {
            counts[*node] = counts[*node].saturating_add(1);
        }
    }
    Ok(counts)
}

/// The transpose of a graph: the same nodes, with each edge reversed.
///
/// Takes time linear in nodes and edges. Fails with `AllocError` when out of memory.
pub fn transpose(alloc: Global, graph: &[Vec<usize>]) -> Result<Vec<Vec<usize>>, AllocError>
    requires { (j k : ℕ) → Edge (edges_of graph.now) j k → k < length graph.now }
    ensures len { IfOk result (λ v. vec_len v ≡ length graph.now) }
    ensures transpose { IfOk result (λ v. IsTranspose (edges_of graph.now) (edges_of v.items)) }
{
    let counts = edge_counts(alloc, graph)?;
    let mut transpose = Vec::with_capacity(alloc, graph.len())?;
    for count in &counts {
        transpose.push(Vec::with_capacity(alloc, *count)?)?;
    }
    for (node, nodes) in graph.iter().enumerate() {
        for to in nodes {
            transpose[*to].push(node)?;
        }
    }
    Ok(transpose)
}
