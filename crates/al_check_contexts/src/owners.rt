//! Steps, and the job or action that they belong to.

use al_yaml_tree::Node;

/// Steps, and the key of the job that they belong to; `None` for an action.
#[derive(Clone, Copy)]
pub(crate) struct Owner<'a> {
    pub(crate) job: Option<&'a [u8]>,
    pub(crate) steps: &'a [Node],
}

/// A step: the key of the job that it belongs to, or `None` for an action; its index among the
/// steps; and its node.
#[derive(Clone, Copy)]
pub(crate) struct Step<'a> {
    pub(crate) job: Option<&'a [u8]>,
    pub(crate) index: usize,
    pub(crate) node: &'a Node,
}
