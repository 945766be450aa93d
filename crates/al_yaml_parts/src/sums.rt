//! What an alias counts of its node (YAML 1.2.2, 7.1): a loop over the nodes in it, with its own
//! stack.

ghost use Rattle.al_yaml_tree.specs.Limits.{most_counted};
ghost use Rattle.al_yaml_tree.specs.Node as tree;
ghost use Rattle.al_yaml_tree.specs.Reading as reading;
ghost use Rattle.al_yaml_parts.specs.Private.Sums.{IsOwn, IsSums, inside, members, node_view};
ghost use Rattle.al_yaml_parts.specs.Private.Sums.{uncounted_view, within};
ghost use Rattle.al_yaml_tree.specs.View.{entry_view, view};
ghost use Rattle.std.specs.Prelude.{IfOk, map, ◌++◌, ◌+◌, ◌≡◌};

use al_scalar::Scalar;
use al_yaml_tree::{Entry, Node};
use std::alloc::{AllocError, Global};

/// What an alias counts of its node: the nodes in it, the bytes of their texts, and the depth of
/// collections in it. All counts saturate.
#[derive(Clone, Copy)]
pub struct Sums {
    pub nodes: u32,
    pub text: u32,
    pub levels: u32,
}

impl Sums {
    /// The counts of a scalar, which is inside this many collections.
    fn of_scalar(scalar: &Scalar, levels: u32) -> Sums
        ensures { IsOwn (tree.scalar scalar.now, levels) result }
    {
        Sums {
            nodes: 1,
            text: scalar.text().len().min(u32::MAX as usize) as u32,
            levels,
        }
    }

    /// The counts of a collection itself, which is inside this many others.
    fn of_collection(levels: u32) -> Sums
        ensures nodes { result.nodes ≡ 1 }
        ensures text { result.text ≡ 0 }
        ensures levels { result.levels ≡ most_counted (levels + 1) }
    {
        Sums {
            nodes: 1,
            text: 0,
            levels: levels.saturating_add(1),
        }
    }
}

/// The key of an entry, or any other node.
#[derive(Clone, Copy)]
pub enum KeyOrNode<'a> {
    Key(&'a Scalar),
    Node(&'a Node),
}

/// What is still to be counted, and how many of the counted collections it is inside.
#[derive(Clone, Copy)]
pub struct Uncounted<'a> {
    pub node: KeyOrNode<'a>,
    pub levels: u32,
}

/// What an alias counts of a node. Takes time linear in the nodes in it, and memory for those that
/// are left.
///
/// Fails with `AllocError` when out of memory.
pub fn sums_of(alloc: Global, node: &Node) -> Result<Sums, AllocError>
    ensures { IfOk result (IsSums (view node.now)) }
{
    let mut sums = Sums {
        nodes: 0,
        text: 0,
        levels: 0,
    };
    let mut left = Vec::new(alloc);
    left.push(Uncounted {
        node: KeyOrNode::Node(node),
        levels: 0,
    })?;
    'nodes: while let Some(next) = left.pop() {
        let own = count(next, &mut left)?;
        sums = Sums {
            nodes: sums.nodes.saturating_add(own.nodes),
            text: sums.text.saturating_add(own.text),
            levels: sums.levels.max(own.levels),
        };
    }
    Ok(sums)
}

/// Counts a key or a node itself, and leaves those in it to be counted.
fn count<'a>(next: Uncounted<'a>, left: &mut Vec<Uncounted<'a>>) -> Result<Sums, AllocError>
    ensures own { IfOk result (IsOwn (uncounted_view next.entry)) }
    ensures left { IfOk result (λ sums. map uncounted_view left.new.items
        ≡ map uncounted_view left.old.items
        ++ within sums.levels (inside (node_view (next.entry).node))) }
{
    match next.node {
        KeyOrNode::Key(scalar) => Ok(Sums::of_scalar(scalar, next.levels)),
        KeyOrNode::Node(node) => count_node(node, next.levels, left),
    }
}

/// Counts a node itself, which is inside this many collections, and leaves those in it to be
/// counted. A node is shared at most once, as an alias has no anchor of its own (7.1), so this
/// recurs at most once.
fn count_node<'a>(
    node: &'a Node,
    levels: u32,
    left: &mut Vec<Uncounted<'a>>,
) -> Result<Sums, AllocError>
    ensures own { IfOk result (IsOwn (view node.now, levels)) }
    ensures left { IfOk result (λ sums. map uncounted_view left.new.items
        ≡ map uncounted_view left.old.items ++ within sums.levels (inside (view node.now))) }
{
    match node {
        Node::Scalar(scalar) => Ok(Sums::of_scalar(scalar, levels)),
        Node::Sequence { items, .. } => {
            let own = Sums::of_collection(levels);
            leave_items(items.as_slice(), own.levels, left)?;
            Ok(own)
        }
        Node::Mapping { entries, .. } => {
            let own = Sums::of_collection(levels);
            leave_entries(entries.as_slice(), own.levels, left)?;
            Ok(own)
        }
        Node::Shared(shared) => count_node(shared, levels, left),
    }
}

/// Leaves the items of a sequence to be counted.
fn leave_items<'a>(
    items: &'a [Node],
    levels: u32,
    left: &mut Vec<Uncounted<'a>>,
) -> Result<(), AllocError>
    ensures { IfOk result (λ _. map uncounted_view left.new.items
        ≡ map uncounted_view left.old.items ++ within levels (map view items.now)) }
{
    'items: for node in items {
        left.push(Uncounted {
            node: KeyOrNode::Node(node),
            levels,
        })?;
    }
    Ok(())
}

/// Leaves the keys and values of a mapping to be counted.
fn leave_entries<'a>(
    entries: &'a [Entry],
    levels: u32,
    left: &mut Vec<Uncounted<'a>>,
) -> Result<(), AllocError>
    ensures { IfOk result (λ _. map uncounted_view left.new.items
        ≡ map uncounted_view left.old.items
        ++ within levels (members (map entry_view entries.now))) }
{
    'entries: for entry in entries {
        let Entry { key, value } = entry;
        left.push(Uncounted {
            node: KeyOrNode::Key(key),
            levels,
        })?;
        left.push(Uncounted {
            node: KeyOrNode::Node(value),
            levels,
        })?;
    }
    Ok(())
}

/// The depth of the deepest collection in a node with this depth and this many levels. The count
/// saturates.
pub fn deepest(depth: u32, levels: u32) -> u32
    ensures { result ≡ most_counted (reading.deepest depth levels) }
{
    if levels == 0 {
        return 0;
    }
    depth.saturating_add(levels - 1)
}
