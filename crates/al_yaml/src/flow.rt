//! Reading flow collections from front to back: the loop over the open ones.

ghost use Rattle.al_yaml_parts.specs.Files.{left_at, size};
ghost use Rattle.al_yaml_tree.specs.Flow as flow;
ghost use Rattle.al_yaml.specs.Private.FlowAnswers.{Answers, AfterNode, Inside, NodeAnswer};
ghost use Rattle.al_yaml.specs.Private.FlowFrames.{IsCollectionAt, IsFurther, IsMadeOf, IsOn};
ghost use Rattle.al_yaml.specs.Private.FlowFrames.{IsOpenHere, IsPutIn, Opens, frame_of, open_of};
ghost use Rattle.al_yaml.specs.Private.Lying.{LiesInStack, LiesOrStops};
ghost use Rattle.al_yaml_parts.specs.FlowReads.{IsBracket};
ghost use Rattle.al_yaml_tree.specs.Limits.{broken_limit};
ghost use Rattle.al_yaml_tree.specs.Reading.{start_of};
ghost use Rattle.al_yaml_parts.specs.declared.frames.FlowFrame as frame_code;
ghost use Rattle.al_yaml_parts.specs.Reads as reads;
ghost use Rattle.al_yaml_parts.specs.Reads.{IsPartAfter, IsRead, part_of, state_of, with_nodes};
ghost use Rattle.std.specs.Prelude.{List, None, [], length, map, ℕ, ◌+◌, ◌<◌, ◌^◌, ◌∷◌, ◌≡◌};

use crate::flow_items::{After, FlowPlace, FlowStep, read_inside, resume};
use al_scalar::lines::begins;
use al_yaml_parts::content::gap_end;
use al_yaml_parts::faults::ReadError;
use al_yaml_parts::file::{File, Progress};
use al_yaml_parts::flow_nodes::complete;
use al_yaml_parts::frames::{FlowFrame, Open, OpenMapping};
use al_yaml_parts::limits::State;
use al_yaml_parts::part::{Part, mapping_part, sequence_part};

/// An open flow collection: the part read so far, and what comes next in it.
#[derive(Drop)]
pub struct OpenFlow {
    pub opening: usize,
    pub has: Open,
    pub next: After,
}

/// The collection whose opening bracket is at an offset, still empty, and what comes first in it.
#[inline(always)]
fn open_at(file: &File, opening: usize) -> OpenFlow
    requires { IsBracket file.now.bytes.now opening opening }
    ensures is { (depth : ℕ) (s t : reads.State)
        → broken_limit s.nodes s.text (start_of opening 1 depth ∷ []) ≡ None → t ≡ with_nodes 1 s →
        Opens file.now.bytes.now depth opening s (open_of result.has) result.next t }
    ensures within { IsOn (size file.now) opening opening result }
{
    let next = After::GoesOn(gap_end(file.bytes, opening + 1));
    if begins(file.bytes, opening, b'[') {
        let has = Open::Items(Vec::new(file.alloc));
        return OpenFlow { opening, has, next };
    }
    let has = Open::Entries(OpenMapping {
        entries: Vec::new(file.alloc),
        waits: None,
    });
    OpenFlow { opening, has, next }
}

/// The complete collection, from its opening to its closing bracket.
#[inline(always)]
fn closed_part(collection: OpenFlow, end: usize) -> Part
    requires start { collection.opening < 2 ^ 32 }
    requires end { end < 2 ^ 32 }
    ensures { IsMadeOf collection.opening (open_of collection.has) end result }
{
    let opening = collection.opening;
    match collection.has {
        Open::Items(items) => sequence_part(items, opening, end, end),
        Open::Entries(mapping) => mapping_part(mapping.entries, opening, end, end),
    }
}

/// Passes a complete collection, with its anchor, to the one that waited for it.
#[inline(always)]
fn resume_outer(
    file: &File,
    state: &mut State,
    frame: FlowFrame,
    part: Part,
) -> Result<OpenFlow, ReadError>
    requires { IsPutIn (size file.now) frame part }
    ensures is { (depth : ℕ) (whole : NodeAnswer) (outer : List frame_code.FlowFrame)
        → AfterNode file.now.bytes.now depth whole
        (map (frame_of file.now.bytes.now) (frame ∷ outer))
        (state_of state.old) part
        → Answers file.now.bytes.now depth whole outer result (state_of state.new) }
    ensures within { LiesOrStops (size file.now)
        (IsOn (size file.now) frame.opening part.next) result }
{
    let opening = frame.opening;
    let mut frame = frame;
    let part = complete(file, state, frame.inner.anchor, part)?;
    let next = resume(file, &mut frame, part)?;
    let has = frame.has;
    Ok(OpenFlow { opening, has, next })
}

/// Continues in an open collection: up to what follows its next node, or to what comes first in a
/// nested collection.
#[inline(always)]
fn read_on(
    file: &File,
    progress: &mut Progress,
    has: Open,
    place: FlowPlace,
) -> Result<OpenFlow, ReadError>
    requires { IsOpenHere (size file.now) progress.old.stack place }
    ensures is { (first : ℕ) (whole : NodeAnswer)
        → place.depth ≡ first + length progress.old.stack.flows + 1
        → Inside file.now.bytes.now first whole
        (map (frame_of file.now.bytes.now) progress.old.stack.flows)
        (state_of progress.old.state) place.opening (open_of has) place.at
        → Answers file.now.bytes.now first whole progress.new.stack.flows result
        (state_of progress.new.state) }
    ensures within { LiesOrStops (size file.now)
        (IsFurther (size file.now) place progress.old.stack progress.new.stack) result }
{
    let opening = place.opening;
    let mut has = has;
    let step = read_inside(file, &mut progress.state, &mut has, place)?;
    match step {
        FlowStep::AfterNode(next) => Ok(OpenFlow { opening, has, next }),
        FlowStep::Opens(inner) => {
            progress.state.start(inner.at, 1, place.depth)?;
            progress.stack.push_flow(FlowFrame {
                opening,
                has,
                inner,
            })?;
            Ok(open_at(file, inner.at))
        }
    }
}

/// Reads the flow collection whose opening bracket is at an offset.
///
/// The stack holds the collections that are open while one inside them is read.
pub fn read_flow_collection(
    file: &File,
    progress: &mut Progress,
    depth: u32,
    at: usize,
) -> Result<Part, ReadError>
    requires { IsCollectionAt file.now.bytes.now progress.old.stack depth at }
    ensures is { (bound : ℕ) → size file.now < bound + at →
        IsRead (part_of file.now.bytes.now) (flow.flow_collection bound depth (left_at file.now at))
        (state_of progress.old.state) result (state_of progress.new.state) }
    ensures within { LiesOrStops (size file.now)
        (LiesInStack (IsPartAfter file.now.bytes.now at) progress.old.stack progress.new.stack)
        result }
{
    progress.state.start(at, 1, depth)?;
    let outside = progress.stack.len();
    let mut collection = open_at(file, at);
    'nodes: loop {
        match collection.next {
            After::Closes(end) => {
                let part = closed_part(collection, end);
                let Some(frame) = progress.stack.pop_flow() else {
                    return Ok(part);
                };
                collection = resume_outer(file, &mut progress.state, frame, part)?;
            }
            After::GoesOn(from) => {
                let place = FlowPlace {
                    opening: collection.opening,
                    at: from,
                    depth: depth + 1 + (progress.stack.len() - outside) as u32,
                };
                collection = read_on(file, progress, collection.has, place)?;
            }
        }
    }
}
