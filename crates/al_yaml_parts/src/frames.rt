//! Collections that wait while a node in them is read.

use crate::flow_nodes::Bracket;
use crate::slots::Cursor;
use al_scalar::ScalarRead;
use al_yaml_tree::{Entry, Node};

/// The part of an open flow mapping read so far, and the key whose value is the collection being
/// read.
#[derive(Drop)]
pub struct OpenMapping {
    pub entries: Vec<Entry>,
    pub waits: Option<ScalarRead>,
}

/// The part of an open flow collection read so far, up to an item, an entry or the closing bracket.
#[derive(Drop)]
pub enum Open {
    Items(Vec<Node>),
    Entries(OpenMapping),
}

/// A flow collection that waits for a collection inside it, whose bracket was found: as an item, as
/// the value of its key, or in place of a key.
#[derive(Drop)]
pub struct FlowFrame {
    pub opening: usize,
    pub has: Open,
    pub inner: Bracket,
}

/// What a block collection keeps while a node in it is read: the items before it, or the entries
/// before it and the key whose value it is.
#[derive(Drop)]
pub enum BlockWaiting {
    Item(bool, Vec<Node>),
    Value(Vec<Entry>, ScalarRead),
}

/// Where a block collection begins, and the offset of its own anchor if it has one.
#[derive(Clone, Copy)]
pub struct BlockStart {
    pub start: Cursor,
    pub anchor: Option<usize>,
}

/// A block collection that waits for a node: where it begins, and what it keeps.
#[derive(Drop)]
pub struct BlockFrame {
    pub begun: BlockStart,
    pub waiting: BlockWaiting,
}
