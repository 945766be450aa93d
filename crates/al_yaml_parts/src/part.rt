//! What was read of a node, and how far.

ghost use Rattle.al_base.specs.Spans as spans;
ghost use Rattle.al_yaml_tree.specs.Node as tree;
ghost use Rattle.al_yaml_tree.specs.View.{entries_of, entry_view, nodes_of, view};
ghost use Rattle.std.specs.Prelude.{map, ◌<◌, ◌^◌, ◌≡◌};

use al_base::Span;
use al_yaml_tree::{Entry, Node, mapping_node, sequence_node};

/// A node that was read, the end of its written form, and the offset of what is left.
#[derive(Drop)]
pub struct Part {
    pub node: Node,
    pub end: usize,
    pub next: usize,
}

/// Moves the elements to a list without spare capacity, since most mappings have few entries. The
/// room in which they were read is then free for the next collection. If memory runs out, they stay
/// in their list.
fn fit<T: Drop>(elements: Vec<T>) -> Vec<T>
    ensures { result.items ≡ elements.items }
{
    let mut list = elements;
    if let Ok(mut fitting) = Vec::with_capacity(*list.allocator(), list.len()) {
        if fitting.append(&mut list).is_ok() {
            return fitting;
        }
    }
    list
}

/// A sequence, read from one offset to another.
pub fn sequence_part(items: Vec<Node>, start: usize, end: usize, next: usize) -> Part
    requires start { start < 2 ^ 32 }
    requires end { end < 2 ^ 32 }
    ensures node { view result.node
        ≡ tree.sequence (nodes_of (map view items.items)) (spans.span start end) }
    ensures end { result.end ≡ end }
    ensures next { result.next ≡ next }
{
    let span = Span {
        start: start as u32,
        end: end as u32,
    };
    let node = sequence_node(fit(items), span);
    Part { node, end, next }
}

/// A mapping, read from one offset to another.
pub fn mapping_part(entries: Vec<Entry>, start: usize, end: usize, next: usize) -> Part
    requires start { start < 2 ^ 32 }
    requires end { end < 2 ^ 32 }
    ensures node { view result.node
        ≡ tree.mapping (entries_of (map entry_view entries.items)) (spans.span start end) }
    ensures end { result.end ≡ end }
    ensures next { result.next ≡ next }
{
    let span = Span {
        start: start as u32,
        end: end as u32,
    };
    let node = mapping_node(fit(entries), span);
    Part { node, end, next }
}
