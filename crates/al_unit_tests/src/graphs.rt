//! Graphs.

use al_graph::{strongly_connected_components, transpose};
use std::alloc::AllocError;

// Whether an edge leads from one node to another.
fn leads(graph: &[Vec<usize>], from: usize, to: usize) -> bool {
    match graph.get(from) {
        Some(nodes) => nodes.as_slice().contains(&to),
        None => false,
    }
}

#[test]
fn walks(rt: HostRuntime) -> Result<(), AllocError> {
    let alloc = rt.alloc();
    // 0 leads to 1 and 2, 1 to 2, and 2 to 1; 3 leads to 0
    let mut graph = Vec::new(alloc);
    graph.push(Vec::from_slice(alloc, &[1, 2])?)?;
    graph.push(Vec::from_slice(alloc, &[2])?)?;
    graph.push(Vec::from_slice(alloc, &[1])?)?;
    graph.push(Vec::from_slice(alloc, &[0])?)?;
    let labels = strongly_connected_components(alloc, graph.as_slice())?;
    assert_eq!(rt; labels.len(), 4);
    for (node, other, together) in [
        (1, 2, true),
        (0, 1, false),
        (0, 2, false),
        (0, 3, false),
        (2, 3, false),
    ] {
        assert_eq!(rt; labels[node] == labels[other], together);
    }
    let other = transpose(alloc, graph.as_slice())?;
    assert_eq!(rt; other.len(), 4);
    for (from, to) in [(1, 0), (2, 0), (2, 1), (1, 2), (0, 3)] {
        assert!(rt; leads(other.as_slice(), from, to));
        assert!(rt; !leads(other.as_slice(), to, from) || leads(graph.as_slice(), from, to));
    }
    Ok(())
}
