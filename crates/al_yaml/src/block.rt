//! Reading nodes in block context from front to back: the loop over the open block collections, and
//! its steps.

ghost use Rattle.al_yaml.specs.Private.BlockFrames.{Enters, FindsBlock, IsEntered, IsEntryOn};
ghost use Rattle.al_yaml.specs.Private.BlockFrames.{IsFoundFrom, IsLineBelow, IsNextInside};
ghost use Rattle.al_yaml.specs.Private.BlockFrames.{IsNodeAt, IsOpenAt, IsReadFor, IsRestAt};
ghost use Rattle.al_yaml.specs.Private.BlockFrames.{IsResumed, ResumesBlock};
ghost use Rattle.al_yaml.specs.Private.BlockFrames.{block_open_of, block_rest, block_waiting_of};
ghost use Rattle.al_yaml.specs.Private.Lying.{IsOutside, LiesInStack, LiesOrFails, LiesOrStops};
ghost use Rattle.al_yaml_parts.specs.BlockReads.{next_found, slot_of};
ghost use Rattle.al_yaml_tree.specs.Blocks as block;
ghost use Rattle.al_yaml_parts.specs.Files.{left_at, size};
ghost use Rattle.al_yaml_parts.specs.Places.{Shows, next_of, option_lines};
ghost use Rattle.al_yaml_parts.specs.Reads.{IsPartAfter, IsRead, part_of, state_of};
ghost use Rattle.al_yaml_parts.specs.Stacks.{depth_in};
ghost use Rattle.std.specs.Prelude.{IfSome, Ok, length, suc, ℕ, ◌+◌, ◌<◌};

use crate::block_nodes::read_node;
use crate::entries::{entry_key, no_entry};
use al_base::YamlCode;
use al_scalar::FaultAt;
use al_scalar::lines::blanks_end;
use al_yaml_parts::content::{Next, is_dash, is_skipped, next_content};
use al_yaml_parts::faults::ReadError;
use al_yaml_parts::file::{File, Progress};
use al_yaml_parts::flow_nodes::complete;
use al_yaml_parts::frames::{BlockFrame, BlockStart, BlockWaiting};
use al_yaml_parts::keys::Key;
use al_yaml_parts::limits::State;
use al_yaml_parts::lines::{characters, next_line};
use al_yaml_parts::part::{Part, mapping_part, sequence_part};
use al_yaml_parts::scalars::empty_part;
use al_yaml_parts::slots::{Cursor, Slot, Spot, is_deeper, spot_after};
use al_yaml_tree::{Entry, Node, entry_of};

/// The part of an open block collection read so far: for a sequence, the items before a dash, and
/// whether it is the value of a mapping entry; for a mapping, the entries before a key, and the
/// key.
#[derive(Drop)]
pub enum BlockOpen {
    Items(bool, Vec<Node>),
    Entries(Vec<Entry>, Key),
}

/// A node that was read, and the next content line after it.
#[derive(Drop)]
pub struct PartBefore {
    pub part: Part,
    pub next: Next,
}

/// Where a node begins, at its first character or after its anchor.
#[derive(Clone, Copy)]
pub struct NodePlace {
    pub slot: Slot,
    pub start: Cursor,
    pub anchor: Option<usize>,
}

/// An open block collection, at a dash or a key.
#[derive(Drop)]
pub struct OpenBlock {
    pub begun: BlockStart,
    pub has: BlockOpen,
    pub at: usize,
}

/// What is read next: a node; the innermost collection; or what follows a node that was read, with
/// or without the next content line.
#[derive(Drop)]
pub enum BlockTask {
    Node(NodePlace),
    Inside(OpenBlock),
    Read(Part),
    Found(PartBefore),
}

/// Finds the node after a dash, a colon or an anchor, on its line or else below it; or reads the
/// empty node.
#[inline(always)]
pub fn find_rest(
    file: &File,
    state: &mut State,
    node: NodePlace,
    rest: usize,
) -> Result<BlockTask, ReadError>
    requires { IsRestAt file.now.bytes.now node.slot node.start rest }
    ensures is { (reader : block.BlockReader) (depth : ℕ)
        → FindsBlock file.now.bytes.now reader node.anchor depth
        (block.rest_node reader (slot_of node.slot) depth node.start.column
        (left_at file.now node.start.at) (left_at file.now rest))
        (state_of state.old) result (state_of state.new) }
    ensures within { LiesOrStops (size file.now) (IsFoundFrom file.now.bytes.now rest) result }
{
    if is_skipped(file.bytes, rest) {
        let at = next_line(file.bytes, rest);
        let start = Cursor { at, column: 0 };
        return find_below(file, state, NodePlace { start, ..node });
    }
    let at = blanks_end(file.bytes, rest);
    let spot = spot_after(file.bytes, rest, node.slot.spot);
    let column = node.start.column + characters(file.bytes, node.start.at, at);
    Ok(BlockTask::Node(NodePlace {
        slot: Slot { spot, ..node.slot },
        start: Cursor { at, column },
        ..node
    }))
}

/// Finds the node on the next content line, from the start of a line on, if it is there; otherwise
/// reads the empty node.
fn find_below(file: &File, state: &mut State, node: NodePlace) -> Result<BlockTask, ReadError>
    requires { IsLineBelow file.now.bytes.now node }
    ensures is { (reader : block.BlockReader) (depth : ℕ)
        → FindsBlock file.now.bytes.now reader node.anchor depth
        (block.node_below reader (slot_of node.slot) depth (left_at file.now node.start.at))
        (state_of state.old) result (state_of state.new) }
    ensures within { LiesOrStops (size file.now)
        (IsFoundFrom file.now.bytes.now node.start.at) result }
{
    let found = next_content(file.bytes, node.start.at)?;
    match found {
        Next::Line { indent: column, at } if is_deeper(file.bytes, node.slot, column, at) => {
            let spot = Spot::OwnLine;
            Ok(BlockTask::Node(NodePlace {
                slot: Slot { spot, ..node.slot },
                start: Cursor { at, column },
                ..node
            }))
        }
        _ => {
            let empty = empty_part(file, state, node.slot.empty, node.start.at)?;
            let part = complete(file, state, node.anchor, empty)?;
            Ok(BlockTask::Found(PartBefore { part, next: found }))
        }
    }
}

/// Continues the innermost collection at a dash or a key: gives the waiting collection, and the
/// node it waits for.
fn enter(
    file: &File,
    state: &mut State,
    inside: OpenBlock,
) -> Result<(BlockWaiting, BlockTask), ReadError>
    requires { IsOpenAt file.now.bytes.now inside.begun.start.column inside.at inside.has }
    ensures is { (bound turns depth : ℕ)
        → Enters file.now.bytes.now bound turns depth inside.begun.start.at
        inside.begun.start.column
        (block_rest (suc turns) bound depth inside.begun.start.at inside.begun.start.column
        (block_open_of file.now.bytes.now inside.has)
        (left_at file.now inside.at)) (state_of state.old) result (state_of state.new) }
    ensures within { LiesOrStops (size file.now) (IsEntered file.now.bytes.now inside.at) result }
{
    let OpenBlock { begun, has, at } = inside;
    let column = begun.start.column;
    match has {
        BlockOpen::Items(in_mapping, items) => {
            let slot = Slot {
                spot: Spot::Compact(None),
                within: column + 1,
                in_mapping: false,
                empty: at + 1,
            };
            let place = NodePlace {
                slot,
                start: Cursor { at, column },
                anchor: None,
            };
            let task = find_rest(file, state, place, at + 1)?;
            Ok((BlockWaiting::Item(in_mapping, items), task))
        }
        BlockOpen::Entries(entries, key) => {
            let at = key.after;
            let slot = Slot {
                spot: Spot::AfterKey,
                within: column + 1,
                in_mapping: true,
                empty: at,
            };
            let place = NodePlace {
                slot,
                start: Cursor { at, column: 0 },
                anchor: None,
            };
            let task = find_rest(file, state, place, at)?;
            Ok((BlockWaiting::Value(entries, key.read), task))
        }
    }
}

/// The next entry of a collection at a column of the next content line, if the collection continues
/// there.
fn entry_on(bytes: &[u8], column: usize, next: Next) -> Result<Option<usize>, FaultAt>
    requires { IsNextInside (length bytes.now) next }
    ensures is { Shows (option_lines bytes.now)
        (next_found column (next_of bytes.now next)) result }
    ensures within { LiesOrFails (length bytes.now)
        (λ found. IfSome found (IsEntryOn (length bytes.now) column next)) result }
{
    match next {
        Next::Line { indent, at } if indent == column => Ok(Some(at)),
        Next::Line { indent, at } if indent > column => {
            Err(FaultAt::new(YamlCode::WrongIndentation, at))
        }
        _ => Ok(None),
    }
}

/// Continues after a node for which a collection waited.
fn resume_block(
    file: &File,
    progress: &mut Progress,
    frame: BlockFrame,
    read: PartBefore,
) -> Result<BlockTask, ReadError>
    requires { IsReadFor file.now.bytes.now progress.old.stack frame read }
    ensures is { (bound turns : ℕ) → size file.now < suc bound + read.part.next
        → ResumesBlock file.now.bytes.now bound turns
        (depth_in progress.old.stack + 1) frame.begun.start.at
        frame.begun.start.column frame.begun.anchor
        (block_waiting_of file.now.bytes.now frame.waiting)
        (part_of file.now.bytes.now read.part) (state_of progress.old.state) result
        (state_of progress.new.state) }
    ensures within { LiesOrStops (size file.now)
        (LiesInStack (IsResumed file.now.bytes.now read.part.next)
        progress.old.stack progress.new.stack) result }
{
    let BlockFrame { begun, waiting } = frame;
    let PartBefore { part, next } = read;
    match waiting {
        BlockWaiting::Item(in_mapping, mut items) => {
            items.push(part.node)?;
            match entry_on(file.bytes, begun.start.column, next)? {
                Some(at) if is_dash(file.bytes, at) => Ok(BlockTask::Inside(OpenBlock {
                    begun,
                    has: BlockOpen::Items(in_mapping, items),
                    at,
                })),
                Some(at) if !in_mapping => Err(no_entry(file, progress, at)),
                _ => {
                    let part = sequence_part(items, begun.start.at, part.end, part.next);
                    let part = complete(file, &mut progress.state, begun.anchor, part)?;
                    Ok(BlockTask::Found(PartBefore { part, next }))
                }
            }
        }
        BlockWaiting::Value(mut entries, key) => {
            entries.push(entry_of(key.scalar, part.node))?;
            let Some(at) = entry_on(file.bytes, begun.start.column, next)? else {
                let part = mapping_part(entries, begun.start.at, part.end, part.next);
                let part = complete(file, &mut progress.state, begun.anchor, part)?;
                return Ok(BlockTask::Found(PartBefore { part, next }));
            };
            let key = entry_key(file, progress, at)?;
            Ok(BlockTask::Inside(OpenBlock {
                begun,
                has: BlockOpen::Entries(entries, key),
                at,
            }))
        }
    }
}

/// Reads a node in block context, starting at its first character.
///
/// The stack holds the collections that are open in the node, and must be empty at first.
pub fn read_block_node(
    file: &File,
    progress: &mut Progress,
    slot: Slot,
    start: Cursor,
) -> Result<Part, ReadError>
    requires { IsOutside (IsNodeAt file.now.bytes.now slot start) progress.old.stack }
    ensures is { (bound : ℕ) → size file.now < bound + start.at
        → IsRead (part_of file.now.bytes.now)
        (block.block_node bound (slot_of slot) 1 start.column (left_at file.now start.at))
        (state_of progress.old.state) result (state_of progress.new.state) }
    ensures within { LiesOrStops (size file.now)
        (IsPartAfter file.now.bytes.now start.at) result }
{
    let mut task = BlockTask::Node(NodePlace {
        slot,
        start,
        anchor: None,
    });
    'nodes: loop {
        match task {
            BlockTask::Node(place) => task = read_node(file, progress, place)?,
            BlockTask::Inside(inside) => {
                let begun = inside.begun;
                let (waiting, inner) = enter(file, &mut progress.state, inside)?;
                progress.stack.push_block(BlockFrame { begun, waiting })?;
                task = inner;
            }
            BlockTask::Read(part) => {
                if progress.stack.len() == 0 {
                    return Ok(part);
                }
                let next = next_content(file.bytes, part.next)?;
                task = BlockTask::Found(PartBefore { part, next });
            }
            BlockTask::Found(read) => {
                let Some(frame) = progress.stack.pop_block() else {
                    return Ok(read.part);
                };
                task = resume_block(file, progress, frame, read)?;
            }
        }
    }
}
