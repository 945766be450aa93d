//! The tree of nodes.

ghost use Rattle.al_yaml_tree.specs.Node as tree;
ghost use Rattle.al_yaml_tree.specs.View.{entries_of, entry_view, nodes_of, view};
ghost use Rattle.std.specs.Prelude.{IfOk, map, ◌≡◌};

use al_base::Span;
use al_scalar::Scalar;
use std::alloc::{AllocError, Global};
use std::rc::Rc;

/// A node (YAML 1.2.2, 3.2.1.1), with the span of its written form in bytes of the file. A node
/// with an anchor is shared by its own place and those of its aliases; the methods see the node
/// itself, so that only a `match` has to know [`Node::Shared`].
#[cycle(node)]
#[derive(Drop)]
pub enum Node {
    /// A scalar; of an empty node too, which is a plain scalar without text.
    Scalar(Scalar),
    /// A sequence: its items in order, and its span, which includes the brackets of `[..]`.
    Sequence { items: Vec<Node>, span: Span },
    /// A mapping: its entries in order, those with equal keys too, and its span, which includes the
    /// brackets of `{..}`.
    Mapping { entries: Vec<Entry>, span: Span },
    /// A node with an anchor, at its own place and at that of each alias.
    Shared(Rc<Node>),
}

/// A key of a mapping, and its value. A key is a scalar; any other is a fault.
#[cycle(node)]
#[derive(Drop)]
pub struct Entry {
    /// The key.
    pub key: Scalar,
    /// The value; an empty scalar if none is written.
    pub value: Node,
}

/// A document, which has one root.
#[derive(Drop)]
pub struct Doc {
    /// The root; an empty scalar at the file's end if the file has no node.
    pub root: Node,
}

/// A scalar node.
pub fn scalar_node(scalar: Scalar) -> Node
    ensures { view result ≡ tree.scalar scalar }
{
    Node::Scalar(scalar)
}

/// A sequence node with these items.
pub fn sequence_node(items: Vec<Node>, span: Span) -> Node
    ensures { view result ≡ tree.sequence (nodes_of (map view items.items)) span }
{
    Node::Sequence { items, span }
}

/// A mapping node with these entries.
pub fn mapping_node(entries: Vec<Entry>, span: Span) -> Node
    ensures { view result ≡ tree.mapping (entries_of (map entry_view entries.items)) span }
{
    Node::Mapping { entries, span }
}

/// One more owner of a shared node. Fails with `AllocError` if it has too many.
pub fn shared_node(node: &Rc<Node>) -> Result<Node, AllocError>
    ensures { IfOk result (λ n. view n ≡ view node.now.value) }
{
    Ok(Node::Shared(node.clone()?))
}

/// A node made sharable. Fails with `AllocError` when out of memory.
pub fn sharable(alloc: Global, node: Node) -> Result<Rc<Node>, AllocError>
    ensures { IfOk result (λ n. n.value ≡ node) }
{
    Ok(Rc::new(alloc, node)?)
}

/// An entry with this key and this value.
pub fn entry_of(key: Scalar, value: Node) -> Entry
    ensures { entry_view result ≡ (key, view value) }
{
    Entry { key, value }
}
