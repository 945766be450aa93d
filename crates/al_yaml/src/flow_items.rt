//! One step in an open flow collection: the next item or entry, and what follows it.

ghost use Rattle.al_scalar.specs.ReadScalar.{read_of};
ghost use Rattle.al_scalar.specs.Places.{lines_at};
ghost use Rattle.al_yaml_parts.specs.Files.{left_at, size};
ghost use Rattle.al_yaml.specs.Private.FlowFrames.{IsEntryIn, IsOpenIn, IsPut, IsPutIn, IsStep};
ghost use Rattle.al_yaml.specs.Private.FlowFrames.{Resumes, Steps, after_of, closer_of, open_of};
ghost use Rattle.al_yaml.specs.Private.FlowFrames.{waiting_of};
ghost use Rattle.al_yaml.specs.Private.Frames as frames;
ghost use Rattle.al_yaml.specs.Private.Lying.{LiesOrFails, LiesOrStops};
ghost use Rattle.al_yaml_parts.specs.Places.{Shows};
ghost use Rattle.al_yaml_parts.specs.Reads as reads;
ghost use Rattle.al_yaml_parts.specs.Reads.{part_of, state_of};
ghost use Rattle.al_yaml_tree.specs.View.{entries_of, entry_view, nodes_of, view};
ghost use Rattle.al_yaml_parts.specs.declared.frames.Open.TheVariants as open_code;
ghost use Rattle.std.specs.Prelude.{length, map, ℕ, ◌≡◌};

use al_base::YamlCode;
use al_scalar::lines::begins;
use al_scalar::{FaultAt, ScalarRead};
use al_yaml_parts::content::gap_end;
use al_yaml_parts::faults::ReadError;
use al_yaml_parts::file::File;
use al_yaml_parts::flow_nodes::{
    Bracket, FlowSlot, FoundKey, FoundNode, read_flow_key, read_flow_node, read_flow_value,
};
use al_yaml_parts::frames::{FlowFrame, Open, OpenMapping};
use al_yaml_parts::limits::State;
use al_yaml_parts::lines::is_text_end;
use al_yaml_parts::part::Part;
use al_yaml_tree::{Entry, Node, entry_of};

/// What follows an item: a comma, with the offset of what comes next, or the closing bracket, with
/// the offset after it.
#[derive(Clone, Copy)]
pub enum After {
    GoesOn(usize),
    Closes(usize),
}

/// The position in an open flow collection: where it begins, where reading continues, and the depth
/// of a nested collection.
#[derive(Clone, Copy)]
pub struct FlowPlace {
    pub opening: usize,
    pub at: usize,
    pub depth: u32,
}

/// An entry of a flow mapping that was read: its key, and its value with what follows it.
#[derive(Drop)]
pub struct EntryRead {
    pub key: ScalarRead,
    pub part: Part,
}

/// How far one step reads: up to what follows a node, or to the opening bracket of a nested
/// collection.
#[derive(Clone, Copy)]
pub enum FlowStep {
    AfterNode(After),
    Opens(Bracket),
}

/// What follows an item or entry and the gap after it.
#[inline(always)]
fn after_item(bytes: &[u8], opening: usize, close: u8, at: usize) -> Result<After, FaultAt>
    requires { IsOpenIn (length bytes.now) opening at }
    ensures is { Shows (after_of bytes.now)
        (frames.after_item opening close (lines_at bytes.now at)) result }
    ensures within { LiesOrFails (length bytes.now) (IsPut (length bytes.now) at) result }
{
    if is_text_end(bytes, at) {
        return Err(FaultAt::new(YamlCode::UnclosedFlow, opening));
    }
    if begins(bytes, at, b',') {
        return Ok(After::GoesOn(gap_end(bytes, at + 1)));
    }
    if begins(bytes, at, close) {
        return Ok(After::Closes(at + 1));
    }
    Err(FaultAt::new(YamlCode::UnexpectedCharacter, at))
}

/// Adds an item to its sequence, and reads what follows it.
#[inline(always)]
fn put_item(
    file: &File,
    opening: usize,
    items: &mut Vec<Node>,
    part: Part,
) -> Result<After, ReadError>
    requires { IsOpenIn (size file.now) opening part.next }
    ensures is { (depth : ℕ) (s : reads.State) →
        Resumes file.now.bytes.now depth opening (frames.item (nodes_of (map view items.old.items)))
        (part_of file.now.bytes.now part) s
        (frames.items (nodes_of (map view items.new.items))) result }
    ensures within { LiesOrStops (size file.now) (IsPut (size file.now) part.next) result }
{
    items.push(part.node)?;
    Ok(after_item(file.bytes, opening, b']', gap_end(file.bytes, part.next))?)
}

/// Adds an entry, whose value was read, to its mapping, and reads what follows it.
#[inline(always)]
fn put_entry(
    file: &File,
    opening: usize,
    entries: &mut Vec<Entry>,
    entry: EntryRead,
) -> Result<After, ReadError>
    requires { IsOpenIn (size file.now) opening entry.part.next }
    ensures is { (depth : ℕ) (s : reads.State) → Resumes file.now.bytes.now depth opening
        (frames.value (entries_of (map entry_view entries.old.items))
        (read_of file.now.bytes.now entry.key))
        (part_of file.now.bytes.now entry.part) s
        (frames.entries (entries_of (map entry_view entries.new.items))) result }
    ensures within { LiesOrStops (size file.now) (IsPut (size file.now) entry.part.next) result }
{
    let EntryRead { key, part } = entry;
    entries.push(entry_of(key.scalar, part.node))?;
    Ok(after_item(file.bytes, opening, b'}', gap_end(file.bytes, part.next))?)
}

/// Reads an open mapping, not at its closing bracket, up to what follows its next entry or to an
/// opening bracket in it.
#[inline(never)]
fn read_entry(
    file: &File,
    state: &mut State,
    mapping: &mut OpenMapping,
    place: FlowPlace,
) -> Result<FlowStep, ReadError>
    requires { IsEntryIn file.now.bytes.now place }
    ensures is { Steps file.now.bytes.now place.depth
        place.opening (λ c t. frames.open_rest c t place.depth place.opening (frames.entries
        (entries_of (map entry_view mapping.old.entries.items))) (left_at file.now place.at))
        (state_of state.old) (open_code.Entries mapping.new) result (state_of state.new) }
    ensures within { LiesOrStops (size file.now) (IsStep file.now.bytes.now place.at) result }
{
    let FlowPlace { opening, at, depth } = place;
    let key = match read_flow_key(file, state, at)? {
        FoundKey::Key(key) => key,
        FoundKey::Opens => {
            mapping.waits = None;
            return Ok(FlowStep::Opens(Bracket { at, anchor: None }));
        }
    };
    match read_flow_value(file, state, opening, &key, depth)? {
        FoundNode::Node(part) => {
            let key = key.read;
            let after = put_entry(file, opening, &mut mapping.entries, EntryRead { key, part })?;
            Ok(FlowStep::AfterNode(after))
        }
        FoundNode::Opens(bracket) => {
            mapping.waits = Some(key.read);
            Ok(FlowStep::Opens(bracket))
        }
    }
}

/// The character that closes a collection.
#[inline(always)]
fn closer(has: &Open) -> u8
    ensures { result ≡ closer_of (open_of has.now) }
{
    match has {
        Open::Items(_) => b']',
        Open::Entries(_) => b'}',
    }
}

/// Reads an open collection up to what follows its next node, to its closing bracket, or to an
/// opening bracket in it.
pub fn read_inside(
    file: &File,
    state: &mut State,
    has: &mut Open,
    place: FlowPlace,
) -> Result<FlowStep, ReadError>
    requires { IsOpenIn (size file.now) place.opening place.at }
    ensures is { Steps file.now.bytes.now place.depth
        place.opening (λ c t. frames.open_rest c t place.depth place.opening (open_of has.old)
        (left_at file.now place.at)) (state_of state.old) has.new result (state_of state.new) }
    ensures within { LiesOrStops (size file.now) (IsStep file.now.bytes.now place.at) result }
{
    if is_text_end(file.bytes, place.at) {
        return Err(ReadError::at(YamlCode::UnclosedFlow, place.opening));
    }
    if begins(file.bytes, place.at, closer(has)) {
        return Ok(FlowStep::AfterNode(After::Closes(place.at + 1)));
    }
    match has {
        Open::Items(items) => {
            let slot = FlowSlot {
                opening: place.opening,
                empty: None,
            };
            match read_flow_node(file, state, slot, place.at, place.depth)? {
                FoundNode::Node(part) => {
                    Ok(FlowStep::AfterNode(put_item(file, place.opening, items, part)?))
                }
                FoundNode::Opens(bracket) => Ok(FlowStep::Opens(bracket)),
            }
        }
        Open::Entries(mapping) => read_entry(file, state, mapping, place),
    }
}

/// Passes a complete collection to the one that waited for it, and reads what follows it.
#[inline(always)]
pub fn resume(file: &File, frame: &mut FlowFrame, part: Part) -> Result<After, ReadError>
    requires { IsPutIn (size file.now) frame.old part }
    ensures is { (depth : ℕ) (s : reads.State) →
        Resumes file.now.bytes.now depth frame.old.opening
        (waiting_of file.now.bytes.now frame.old.inner.at frame.old.has)
        (part_of file.now.bytes.now part) s (open_of frame.new.has) result }
    ensures within { LiesOrStops (size file.now) (IsPut (size file.now) part.next) result }
    ensures kept { frame.new ≡ record frame.old { has = frame.new.has } }
{
    let opening = frame.opening;
    match &mut frame.has {
        Open::Items(items) => put_item(file, opening, items, part),
        Open::Entries(mapping) => match mapping.waits.take() {
            Some(key) => { put_entry(file, opening, &mut mapping.entries, EntryRead { key, part }) }
            None => Err(ReadError::at(YamlCode::WrongKey, frame.inner.at)),
        },
    }
}
