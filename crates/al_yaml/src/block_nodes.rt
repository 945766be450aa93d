//! Nodes in block context that are read in one step, and the beginnings of collections.

ghost use Rattle.al_scalar.specs.Places.{text_at};
ghost use Rattle.al_yaml.specs.Private.BlockFrames.{Begins, IsBegun, IsDashHere, IsFlowHere};
ghost use Rattle.al_yaml.specs.Private.BlockFrames.{IsKeyHere, IsNodeHere, IsPropertyHere};
ghost use Rattle.al_yaml.specs.Private.BlockFrames.{node_at};
ghost use Rattle.al_yaml.specs.Private.Lying.{LiesInStack, LiesOrStops};
ghost use Rattle.al_yaml_parts.specs.Answers.{completing};
ghost use Rattle.al_yaml_parts.specs.BlockReads.{key_seen, slot_of, spot_of};
ghost use Rattle.al_yaml_tree.specs.Blocks as block;
ghost use Rattle.al_yaml_tree.specs.Content as content;
ghost use Rattle.al_yaml_parts.specs.Files.{left_at, size};
ghost use Rattle.al_yaml_tree.specs.Flow as flow;
ghost use Rattle.al_yaml_tree.specs.Keys as keys;
ghost use Rattle.al_yaml_parts.specs.Reads.{IsPartAfter, IsRead, part_of, state_of};
ghost use Rattle.al_yaml_parts.specs.Stacks.{depth_in};
ghost use Rattle.std.specs.Prelude.{IfOk, length, not, suc, true, ℕ, ◌&&◌, ◌+◌, ◌<◌};
ghost use Rattle.std.specs.Prelude.{◌||◌, ◌≡◌, ◌≤◌};

use crate::block::{BlockOpen, BlockTask, NodePlace, OpenBlock, find_rest};
use crate::flow::read_flow_collection;
use al_base::YamlCode;
use al_scalar::lines::begins;
use al_yaml_parts::anchors::{has_no_name, property_end};
use al_yaml_parts::content::{is_dash, line_after};
use al_yaml_parts::faults::ReadError;
use al_yaml_parts::file::{File, Progress};
use al_yaml_parts::flow_nodes::{complete, read_alias};
use al_yaml_parts::frames::BlockStart;
use al_yaml_parts::keys::{Key, has_colon, is_on_key, is_short_key, key_at};
use al_yaml_parts::lines::is_same_line;
use al_yaml_parts::part::Part;
use al_yaml_parts::scalars::read_line_scalar;
use al_yaml_parts::slots::{Spot, is_after_key, tab_before};
use al_yaml_parts::starts::{block_fault, is_block_start, is_flow_start, is_property};
use std::alloc::AllocError;

/// Whether a scalar here can't be a key: it is a block scalar, or a value on the line of its key.
fn is_no_key(bytes: &[u8], spot: Spot, at: usize) -> bool
    requires { at ≤ length bytes.now }
    ensures { result ≡
        (keys.is_block_start (text_at bytes.now at) || block.is_after_key (spot_of spot)) }
{
    is_block_start(bytes, at) || is_after_key(spot)
}

/// Whether an anchor or alias is on a key, as none on the line of its own key does.
fn is_on_block_key(file: &File, spot: Spot, at: usize) -> Result<bool, AllocError>
    requires inside { at ≤ size file.now }
    requires property { content.is_property (text_at file.now.bytes.now at) ≡ true }
    ensures { IfOk result (λ b. b ≡
        (not (block.is_after_key (spot_of spot)) && keys.is_on_key (left_at file.now at))) }
{
    if is_after_key(spot) {
        return Ok(false);
    }
    is_on_key(file, at)
}

/// Reads a flow collection in block context and the rest of its line.
fn read_line_flow(
    file: &File,
    progress: &mut Progress,
    spot: Spot,
    at: usize,
) -> Result<Part, ReadError>
    requires { IsFlowHere file.now.bytes.now progress.old.stack at }
    ensures is { (bound : ℕ) → size file.now < bound + at
        → IsRead (part_of file.now.bytes.now) (block.flow_at (flow.flow_collection bound)
        (spot_of spot) (depth_in progress.old.stack) (left_at file.now at))
        (state_of progress.old.state) result (state_of progress.new.state) }
    ensures within { LiesOrStops (size file.now)
        (LiesInStack (IsPartAfter file.now.bytes.now at) progress.old.stack progress.new.stack)
        result }
{
    let depth = progress.stack.depth();
    let part = read_flow_collection(file, progress, depth, at)?;
    if !is_after_key(spot) && has_colon(file.bytes, part.next) {
        return Err(ReadError::at(YamlCode::WrongKey, at));
    }
    let next = line_after(file.bytes, part.next)?;
    Ok(Part { next, ..part })
}

/// Reads a node in block context, starting at its first character. If it is a block collection,
/// begins that collection.
pub fn read_node(
    file: &File,
    progress: &mut Progress,
    node: NodePlace,
) -> Result<BlockTask, ReadError>
    requires { IsNodeHere file.now.bytes.now progress.old.stack node }
    ensures is { (bound : ℕ) → size file.now < suc bound + node.start.at
        → Begins file.now.bytes.now bound (depth_in progress.old.stack)
        (node_at file.now.bytes.now (suc bound) (depth_in progress.old.stack) node)
        (state_of progress.old.state) result (state_of progress.new.state) }
    ensures within { LiesOrStops (size file.now) (LiesInStack
        (IsBegun file.now.bytes.now node.start.at (depth_in progress.old.stack))
        progress.old.stack progress.new.stack) result }
{
    if is_property(file.bytes, node.start.at) {
        return read_property(file, progress, node);
    }
    if is_dash(file.bytes, node.start.at) {
        return begin_sequence(file, progress, node);
    }
    if let Some(code) = block_fault(file.bytes, node.start.at) {
        return Err(ReadError::at(code, node.start.at));
    }
    if is_flow_start(file.bytes, node.start.at) {
        let part = read_line_flow(file, progress, node.slot.spot, node.start.at)?;
        let part = complete(file, &mut progress.state, node.anchor, part)?;
        return Ok(BlockTask::Read(part));
    }
    if !is_no_key(file.bytes, node.slot.spot, node.start.at) {
        if let Some(key) = key_at(file, node.start.at)? {
            return begin_mapping(file, progress, node, key);
        }
    }
    let part = read_line_scalar(file, &mut progress.state, node.slot.within, node.start.at)?;
    let part = complete(file, &mut progress.state, node.anchor, part)?;
    Ok(BlockTask::Read(part))
}

/// Reads an alias, or finds the node after an anchor. An anchor can't be followed by another anchor
/// or an alias.
fn read_property(
    file: &File,
    progress: &mut Progress,
    node: NodePlace,
) -> Result<BlockTask, ReadError>
    requires { IsPropertyHere file.now.bytes.now progress.old.stack node }
    ensures is { (bound : ℕ) → Begins file.now.bytes.now bound (depth_in progress.old.stack)
        (node_at file.now.bytes.now (suc bound) (depth_in progress.old.stack) node)
        (state_of progress.old.state) result (state_of progress.new.state) }
    ensures within { LiesOrStops (size file.now) (LiesInStack
        (IsBegun file.now.bytes.now node.start.at (depth_in progress.old.stack))
        progress.old.stack progress.new.stack) result }
{
    if node.anchor.is_some() || has_no_name(file.bytes, node.start.at) {
        return Err(ReadError::at(YamlCode::UnexpectedCharacter, node.start.at));
    }
    let on_key = is_on_block_key(file, node.slot.spot, node.start.at)?;
    if on_key {
        return Err(ReadError::at(YamlCode::AnchorOrAlias, node.start.at));
    }
    if begins(file.bytes, node.start.at, b'*') {
        let depth = progress.stack.depth();
        let part = read_alias(file, &mut progress.state, node.start.at, depth)?;
        let next = line_after(file.bytes, part.next)?;
        return Ok(BlockTask::Read(Part { next, ..part }));
    }
    let rest = property_end(file.bytes, node.start.at);
    let anchor = Some(node.start.at);
    let node = NodePlace { anchor, ..node };
    find_rest(file, &mut progress.state, node, rest)
}

/// Begins the sequence whose first dash is at an offset.
fn begin_sequence(
    file: &File,
    progress: &mut Progress,
    node: NodePlace,
) -> Result<BlockTask, ReadError>
    requires { IsDashHere file.now.bytes.now progress.old.stack node }
    ensures is { (bound : ℕ)
        → Begins file.now.bytes.now bound (depth_in progress.old.stack)
        (completing file.now.bytes.now node.anchor
        (block.block_sequence (block.block_node bound) (flow.flow_collection (suc bound))
        (suc bound) (slot_of node.slot)
        (depth_in progress.old.stack) node.start.column (left_at file.now node.start.at)))
        (state_of progress.old.state) result (state_of progress.new.state) }
    ensures within { LiesOrStops (size file.now) (LiesInStack
        (IsBegun file.now.bytes.now node.start.at (depth_in progress.old.stack))
        progress.old.stack progress.new.stack) result }
{
    let NodePlace { start, anchor, .. } = node;
    if is_after_key(node.slot.spot) {
        return Err(ReadError::at(YamlCode::UnexpectedCharacter, start.at));
    }
    if let Some(tab) = tab_before(node.slot.spot) {
        return Err(ReadError::at(YamlCode::TabInIndentation, tab));
    }
    let depth = progress.stack.depth();
    progress.state.start(start.at, 1, depth)?;
    Ok(BlockTask::Inside(OpenBlock {
        begun: BlockStart { start, anchor },
        has: BlockOpen::Items(node.slot.in_mapping, Vec::new(file.alloc)),
        at: start.at,
    }))
}

/// Begins the mapping whose first key was read from an offset on.
fn begin_mapping(
    file: &File,
    progress: &mut Progress,
    node: NodePlace,
    key: Key,
) -> Result<BlockTask, ReadError>
    requires { IsKeyHere file.now.bytes.now progress.old.stack node key }
    ensures is { (bound : ℕ)
        → Begins file.now.bytes.now bound (depth_in progress.old.stack)
        (completing file.now.bytes.now node.anchor
        (block.block_mapping (block.block_node bound) (flow.flow_collection (suc bound))
        (suc bound) (spot_of node.slot.spot)
        (depth_in progress.old.stack) node.start.column (left_at file.now node.start.at)
        (key_seen file.now.bytes.now key)))
        (state_of progress.old.state) result (state_of progress.new.state) }
    ensures within { LiesOrStops (size file.now) (LiesInStack
        (IsBegun file.now.bytes.now node.start.at (depth_in progress.old.stack))
        progress.old.stack progress.new.stack) result }
{
    let NodePlace { start, anchor, .. } = node;
    let wrong = ReadError::at(YamlCode::WrongKey, start.at);
    if !is_same_line(file.bytes, start.at, key.read.next) {
        return Err(wrong);
    }
    if let Some(tab) = tab_before(node.slot.spot) {
        return Err(ReadError::at(YamlCode::TabInIndentation, tab));
    }
    if !is_short_key(file.bytes, start.at, &key.read) {
        return Err(wrong);
    }
    let depth = progress.stack.depth();
    progress.state.start(start.at, 2, depth)?;
    Ok(BlockTask::Inside(OpenBlock {
        begun: BlockStart { start, anchor },
        has: BlockOpen::Entries(Vec::new(file.alloc), key),
        at: start.at,
    }))
}
