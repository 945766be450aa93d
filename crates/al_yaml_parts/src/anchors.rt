//! Anchors (YAML 1.2.2, 6.9.2), the nodes that they name, and the aliases that stand for them
//! (7.1).

ghost use Rattle.al_scalar.specs.Places.{lines_at, text_at};
ghost use Rattle.al_scalar.specs.LineEnds.{cells_between, with_cells_before};
ghost use Rattle.al_yaml_tree.specs.Content as content;
ghost use Rattle.al_yaml_parts.specs.Files.{left_at, size};
ghost use Rattle.al_yaml_tree.specs.Reading as reading;
ghost use Rattle.al_yaml_tree.specs.Reading.{with_anchor, no_anchors};
ghost use Rattle.al_yaml_parts.specs.Reads.{IsRead, IsStopInside, anchor_at, anchors_view};
ghost use Rattle.al_yaml_parts.specs.Reads.{state_of};
ghost use Rattle.al_yaml_tree.specs.View.{view};
ghost use Rattle.std.specs.Prelude.{IfErr, IfOk, length, true, ◌+◌, ◌<◌, ◌≡◌, ◌≤◌};

use crate::faults::ReadError;
use crate::file::File;
use crate::limits::State;
use crate::lines::is_text_end;
use crate::starts::begins_flow_indicator;
use crate::sums::{deepest, sums_of};
use al_base::YamlCode;
use al_scalar::lines::is_blank_or_end;
use al_yaml_tree::{Node, sharable, shared_node};
use std::alloc::{AllocError, Global};
use std::collections::BTreeMap;
use std::rc::Rc;

/// A node with an anchor, and the offset of the anchor.
#[derive(Drop)]
pub struct AnchoredNode {
    pub at: usize,
    pub node: Rc<Node>,
}

/// The anchors whose nodes are complete; of several with one name, the last in the file. Adding and
/// finding one takes time logarithmic in their number, and linear in the name's length.
#[derive(Drop)]
pub struct Anchors {
    pub latest: BTreeMap<Vec<u8>, AnchoredNode>,
}

/// Whether a name ends at an offset: at a blank, the line's end or one of `,[]{}`.
fn ends_name(bytes: &[u8], at: usize) -> bool
    requires { at ≤ length bytes.now }
    ensures { result ≡ content.ends_name (text_at bytes.now at) }
{
    is_blank_or_end(bytes, at) || begins_flow_indicator(bytes, at)
}

/// Where the name at an offset ends.
pub fn name_end(bytes: &[u8], at: usize) -> usize
    requires { at ≤ length bytes.now }
    ensures from { at ≤ result }
    ensures inside { result ≤ length bytes.now }
    ensures cells { content.anchor_cells (text_at bytes.now at)
        ≡ cells_between bytes.now at result }
    ensures lines { lines_at bytes.now at
        ≡ with_cells_before (cells_between bytes.now at result) (lines_at bytes.now result) }
{
    let mut i = at;
    'name: while !ends_name(bytes, i) {
        i += 1;
    }
    i
}

/// The name of the anchor or alias whose indicator is at an offset.
fn name_at(bytes: &[u8], at: usize) -> &[u8]
    ensures { result.now ≡ content.anchor_name (lines_at bytes.now at) }
{
    if at >= bytes.len() || is_text_end(bytes, at) {
        return &bytes[..0];
    }
    &bytes[at + 1..name_end(bytes, at + 1)]
}

/// Whether the indicator at an offset is not followed by a name.
pub fn has_no_name(bytes: &[u8], at: usize) -> bool
    requires inside { at ≤ length bytes.now }
    requires property { content.is_property (text_at bytes.now at) ≡ true }
    ensures { result ≡ content.has_no_name (lines_at bytes.now at) }
{
    ends_name(bytes, at + 1)
}

/// The end of the anchor or alias whose indicator is at an offset.
pub fn property_end(bytes: &[u8], at: usize) -> usize
    requires inside { at ≤ length bytes.now }
    requires property { content.is_property (text_at bytes.now at) ≡ true }
    ensures from { at < result }
    ensures inside { result ≤ length bytes.now }
    ensures lines { content.after_name (lines_at bytes.now at) ≡ lines_at bytes.now result }
    ensures line { content.same_line (lines_at bytes.now at) (lines_at bytes.now result) ≡ true }
{
    name_end(bytes, at + 1)
}

impl Anchors {
    /// No anchors. Doesn't allocate.
    pub fn new(alloc: Global) -> Anchors
        ensures { anchors_view result ≡ no_anchors }
    {
        Anchors {
            latest: BTreeMap::new(alloc),
        }
    }

    /// Adds the anchor whose indicator is at an offset, with its complete node, which is shared
    /// from here on.
    ///
    /// Fails with `AllocError` when out of memory.
    #[inline(never)]
    pub fn complete(&mut self, file: &File, at: usize, node: Node) -> Result<Node, AllocError>
        ensures node { IfOk result (λ n. view n ≡ view node) }
        ensures known { IfOk result (λ _. anchors_view self.new
            ≡ with_anchor (anchor_at file.now.bytes.now at (view node)) (anchors_view self.old)) }
    {
        let node = sharable(file.alloc, node)?;
        let result = shared_node(&node)?;
        let name = Vec::from_slice(file.alloc, name_at(file.bytes, at))?;
        if self
            .latest
            .get(name.as_slice())
            .is_some_and(|found| at < found.at)
        {
            return Ok(result);
        }
        self.latest.insert(name, AnchoredNode { at, node })?;
        Ok(result)
    }
}

impl State {
    /// The node of the alias at an offset. All nodes in it are counted.
    pub fn alias(&mut self, file: &File, at: usize, depth: u32) -> Result<Node, ReadError>
        requires { at ≤ size file.now }
        ensures fault { IfErr result (IsStopInside (size file.now)) }
        ensures is { IsRead view
            (reading.alias (content.anchor_name (left_at file.now at)) at depth)
            (state_of self.old) result (state_of self.new) }
    {
        let Some(found) = self.anchors.latest.get(name_at(file.bytes, at)) else {
            return Err(ReadError::at(YamlCode::UnknownAlias, at));
        };
        let sums = sums_of(file.alloc, &found.node)?;
        let node = shared_node(&found.node)?;
        self.text = self.text.saturating_add(sums.text);
        self.start(at, sums.nodes, deepest(depth, sums.levels))?;
        Ok(node)
    }
}
