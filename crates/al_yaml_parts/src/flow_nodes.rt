//! Nodes and keys in flow collections that are read in one step, and brackets where one is
//! expected.

ghost use Rattle.al_scalar.specs.ReadScalar.{read_of};
ghost use Rattle.al_scalar.specs.Line as line;
ghost use Rattle.al_scalar.specs.Places.{lines_at, text_at};
ghost use Rattle.al_yaml_parts.specs.Files.{left_at, size};
ghost use Rattle.al_yaml_tree.specs.Flow as flow;
ghost use Rattle.al_yaml_tree.specs.Content as content;
ghost use Rattle.al_yaml_parts.specs.FlowReads.{Finds, FindsKey, IsBare, IsFound, IsFoundKey};
ghost use Rattle.al_yaml_parts.specs.FlowReads.{flow_slot, IsColonInside, IsKeyInside};
ghost use Rattle.al_yaml_parts.specs.Reads.{alias_part, IsPartAfter, IsRead, IsStopInside};
ghost use Rattle.al_yaml_parts.specs.Reads.{state_with_anchor_at, part_of, state_of};
ghost use Rattle.al_yaml_parts.specs.Places.{IsReadInside, Shows, option_lines};
ghost use Rattle.al_yaml_parts.specs.FlowReads.{flow_key_of};
ghost use Rattle.al_yaml_tree.specs.View.{view};
ghost use Rattle.std.specs.Prelude.{IfErr, IfOk, IfSome, false, length, true, ℕ, ◌<◌, ◌||◌, ◌≡◌};
ghost use Rattle.std.specs.Prelude.{◌≤◌};

use crate::anchors::{has_no_name, property_end};
use crate::content::gap_end;
use crate::faults::ReadError;
use crate::file::File;
use crate::keys::{after_flow_colon, is_late_colon, is_simple_key};
use crate::limits::State;
use crate::lines::is_text_end;
use crate::part::Part;
use crate::scalars::{empty_part, scalar_at, scalar_part};
use crate::starts::{flow_fault, is_flow_start, is_property, is_quote};
use al_base::YamlCode;
use al_scalar::lines::begins;
use al_scalar::{FaultAt, ScalarContext, ScalarRead};
use std::alloc::AllocError;

/// The key of a flow mapping's entry, and the offset after its colon if it has one.
#[derive(Drop)]
pub struct FlowKey {
    pub read: ScalarRead,
    pub colon: Option<usize>,
}

/// The beginning of a collection: the offset of its bracket, and that of its anchor if it has one.
#[derive(Clone, Copy)]
pub struct Bracket {
    pub at: usize,
    pub anchor: Option<usize>,
}

/// A place in a flow collection where a node is expected: where the collection opens, and where an
/// empty node would be, if one is allowed.
#[derive(Clone, Copy)]
pub struct FlowSlot {
    pub opening: usize,
    pub empty: Option<usize>,
}

/// What was found where a node is expected in a flow collection: an alias, a scalar or an empty
/// node, which was read, or the bracket of a collection.
#[derive(Drop)]
pub enum FoundNode {
    Node(Part),
    Opens(Bracket),
}

/// What was found where a key is expected in a flow mapping: a scalar, which was read, or the
/// bracket of a collection.
#[derive(Drop)]
pub enum FoundKey {
    Key(FlowKey),
    Opens,
}

/// The offset after the colon of a scalar that is a key in a flow mapping, if it has one.
fn key_colon(bytes: &[u8], at: usize, read: &ScalarRead) -> Result<Option<usize>, FaultAt>
    requires at { at ≤ length bytes.now }
    requires inside { IsReadInside bytes.now at read.now }
    ensures fault { IfErr result (λ f. f.at ≤ length bytes.now) }
    ensures is { Shows (option_lines bytes.now)
        (flow.key_colon (lines_at bytes.now at) (read_of bytes.now read.now)) result }
    ensures inside { IfOk result (λ colon. IsColonInside read.now.next (length bytes.now) colon) }
{
    let wrong = FaultAt::new(YamlCode::WrongKey, at);
    if !is_simple_key(bytes, at, read) {
        return Err(wrong);
    }
    match after_flow_colon(bytes, read.next, is_quote(bytes, at)) {
        None if is_late_colon(bytes, read.next) => Err(wrong),
        colon => Ok(colon),
    }
}

/// Reads the key of a flow mapping's entry, unless a collection is there.
pub fn read_flow_key(file: &File, state: &mut State, at: usize) -> Result<FoundKey, ReadError>
    requires inside { at ≤ size file.now }
    ensures fault { IfErr result (IsStopInside (size file.now)) }
    ensures is { (depth : ℕ) →
        FindsKey file.now.bytes.now at
        (λ collection. flow.flow_key collection depth (left_at file.now at)) depth
        (state_of state.old) result (state_of state.new) }
    ensures within { IfOk result (λ key. IsFoundKey file.now.bytes.now at key) }
{
    if let Some(code) = flow_fault(file.bytes, at) {
        return Err(ReadError::at(code, at));
    }
    if is_property(file.bytes, at) {
        if has_no_name(file.bytes, at) {
            return Err(ReadError::at(YamlCode::UnexpectedCharacter, at));
        }
        return Err(ReadError::at(YamlCode::AnchorOrAlias, at));
    }
    if is_flow_start(file.bytes, at) {
        return Ok(FoundKey::Opens);
    }
    let read = scalar_at(file.alloc, file.bytes, at, ScalarContext::Flow)?;
    let colon = key_colon(file.bytes, at, &read)?;
    state.start(at, 1, 0)?;
    Ok(FoundKey::Key(FlowKey { read, colon }))
}

/// Whether a comma or a closing brace is at an offset.
fn ends_value(bytes: &[u8], at: usize) -> bool
    requires { at ≤ length bytes.now }
    ensures { result ≡
        (line.begins 44 (text_at bytes.now at) || line.begins 125 (text_at bytes.now at)) }
{
    begins(bytes, at, b',') || begins(bytes, at, b'}')
}

/// Reads a node without anchor in a flow collection, unless it is a collection.
#[inline(always)]
fn read_flow_content(file: &File, state: &mut State, at: usize) -> Result<FoundNode, ReadError>
    requires inside { at ≤ size file.now }
    requires plain { false ≡ content.is_property (text_at file.now.bytes.now at) }
    ensures fault { IfErr result (IsStopInside (size file.now)) }
    ensures is { (depth : ℕ) (slot : flow.FlowSlot)
        → Finds file.now.bytes.now (λ collection. flow.flow_content collection slot depth
        (left_at file.now at)) depth (state_of state.old) result (state_of state.new) }
    ensures within { IfOk result (λ found. IsFound file.now.bytes.now at found) }
    ensures bare { IfOk result IsBare }
{
    // a bracket has no fault
    if is_flow_start(file.bytes, at) {
        return Ok(FoundNode::Opens(Bracket { at, anchor: None }));
    }
    if let Some(code) = flow_fault(file.bytes, at) {
        return Err(ReadError::at(code, at));
    }
    state.start(at, 1, 0)?;
    let read = scalar_at(file.alloc, file.bytes, at, ScalarContext::Flow)?;
    Ok(FoundNode::Node(scalar_part(read.next, read)))
}

/// Reads an alias.
pub fn read_alias(file: &File, state: &mut State, at: usize, depth: u32) -> Result<Part, ReadError>
    requires inside { at ≤ size file.now }
    requires property { content.is_property (text_at file.now.bytes.now at) ≡ true }
    ensures fault { IfErr result (IsStopInside (size file.now)) }
    ensures is { IsRead (part_of file.now.bytes.now) (alias_part depth (left_at file.now at))
        (state_of state.old) result (state_of state.new) }
    ensures within { IfOk result (λ part. IsPartAfter file.now.bytes.now at part) }
{
    let node = state.alias(file, at, depth)?;
    let end = property_end(file.bytes, at);
    Ok(Part {
        node,
        end,
        next: end,
    })
}

/// Reads an alias, or an anchor and its node, unless that is a collection.
fn read_flow_property(
    file: &File,
    state: &mut State,
    slot: FlowSlot,
    at: usize,
    depth: u32,
) -> Result<FoundNode, ReadError>
    requires inside { at ≤ size file.now }
    requires property { content.is_property (text_at file.now.bytes.now at) ≡ true }
    requires opening { slot.opening ≤ size file.now }
    requires empty { IfSome slot.empty (λ i. i ≤ at) }
    ensures fault { IfErr result (IsStopInside (size file.now)) }
    ensures is { Finds file.now.bytes.now
        (λ collection. flow.flow_property collection (flow_slot slot) depth
        (left_at file.now at)) depth (state_of state.old) result (state_of state.new) }
    ensures within { IfOk result (λ found. IsFound file.now.bytes.now at found) }
{
    if has_no_name(file.bytes, at) {
        return Err(ReadError::at(YamlCode::UnexpectedCharacter, at));
    }
    if begins(file.bytes, at, b'*') {
        return Ok(FoundNode::Node(read_alias(file, state, at, depth)?));
    }
    let start = gap_end(file.bytes, property_end(file.bytes, at));
    let anchor = Some(at);
    if is_text_end(file.bytes, start) {
        return Err(ReadError::at(YamlCode::UnclosedFlow, slot.opening));
    }
    if ends_value(file.bytes, start) {
        let Some(empty) = slot.empty else {
            return Err(ReadError::at(YamlCode::UnexpectedCharacter, start));
        };
        let part = empty_part(file, state, empty, start)?;
        return Ok(FoundNode::Node(complete(file, state, anchor, part)?));
    }
    if is_property(file.bytes, start) {
        return Err(ReadError::at(YamlCode::UnexpectedCharacter, start));
    }
    match read_flow_content(file, state, start)? {
        FoundNode::Node(part) => Ok(FoundNode::Node(complete(file, state, anchor, part)?)),
        FoundNode::Opens(Bracket { at, .. }) => Ok(FoundNode::Opens(Bracket { at, anchor })),
    }
}

/// Adds the anchor of a node that was read, if it has one.
#[inline(always)]
pub fn complete(
    file: &File,
    state: &mut State,
    anchor: Option<usize>,
    part: Part,
) -> Result<Part, AllocError>
    ensures part { IfOk result
        (λ p. part_of file.now.bytes.now p ≡ part_of file.now.bytes.now part) }
    ensures end { IfOk result (λ p. p.end ≡ part.end) }
    ensures next { IfOk result (λ p. p.next ≡ part.next) }
    ensures state { IfOk result
        (λ _. state_of state.new
        ≡ state_with_anchor_at file.now.bytes.now anchor (view part.node) (state_of state.old)) }
{
    match anchor {
        None => Ok(part),
        Some(at) => Ok(Part {
            node: state.anchors.complete(file, at, part.node)?,
            ..part
        }),
    }
}

/// Reads a node in a flow collection, unless it is a collection.
#[inline(always)]
pub fn read_flow_node(
    file: &File,
    state: &mut State,
    slot: FlowSlot,
    at: usize,
    depth: u32,
) -> Result<FoundNode, ReadError>
    requires inside { at ≤ size file.now }
    requires opening { slot.opening ≤ size file.now }
    requires empty { IfSome slot.empty (λ i. i ≤ at) }
    ensures fault { IfErr result (IsStopInside (size file.now)) }
    ensures is { Finds file.now.bytes.now
        (λ collection. flow.flow_node_over collection (flow_slot slot) depth
        (left_at file.now at)) depth (state_of state.old) result (state_of state.new) }
    ensures within { IfOk result (λ found. IsFound file.now.bytes.now at found) }
{
    if is_property(file.bytes, at) {
        return read_flow_property(file, state, slot, at, depth);
    }
    read_flow_content(file, state, at)
}

/// Reads the value of a flow mapping's entry, which may be empty, unless it is a collection.
pub fn read_flow_value(
    file: &File,
    state: &mut State,
    opening: usize,
    key: &FlowKey,
    depth: u32,
) -> Result<FoundNode, ReadError>
    requires inside { IsKeyInside file.now.bytes.now key.now.read.scalar.span.start key.now }
    requires opening { opening ≤ size file.now }
    ensures fault { IfErr result (IsStopInside (size file.now)) }
    ensures is { Finds file.now.bytes.now
        (λ collection. flow.flow_entry_value (flow.flow_node_over collection) opening depth
        (flow_key_of file.now.bytes.now key.now)) depth (state_of state.old) result
        (state_of state.new) }
    ensures within { IfOk result
        (λ found. IsFound file.now.bytes.now key.now.read.scalar.span.start found) }
{
    let Some(colon) = key.colon else {
        let end = key.read.scalar.span().end as usize;
        let part = empty_part(file, state, end, key.read.next)?;
        return Ok(FoundNode::Node(part));
    };
    let at = gap_end(file.bytes, colon);
    if is_text_end(file.bytes, at) {
        return Err(ReadError::at(YamlCode::UnclosedFlow, opening));
    }
    if ends_value(file.bytes, at) {
        return Ok(FoundNode::Node(empty_part(file, state, colon, at)?));
    }
    let empty = Some(colon);
    let slot = FlowSlot { opening, empty };
    read_flow_node(file, state, slot, at, depth)
}
