//! Positions in a file, as far as the types of contexts depend on them.
ghost use Rattle.std.specs.Prelude.{◌≡◌, map};
ghost use Rattle.al_check_places.specs.Positions as positions;
ghost use Rattle.al_check_places.specs.Positions.{position_view, section_view};
ghost use Rattle.al_check_places.specs.Ways.{way_step_view};

use crate::ways::WayStep;
use crate::ways::WayStep::{Nth, Under};
use al_tree::FileKind;

/// Below `on`, in a job with a key, or anywhere else.
#[derive(Clone, Copy)]
pub enum Section<'a> {
    /// Neither below `on` nor in a job; anywhere in an action.
    Apart,
    /// Below `on` of a workflow.
    On,
    /// In the job with this key.
    Job(&'a [u8]),
}

/// The steps that an expression sees: none, those before a step, or all.
#[derive(Clone, Copy)]
pub enum Seen {
    /// None.
    Nothing,
    /// Those with an index, from 0, below this one.
    Before(usize),
    /// All.
    Everything,
}

/// A position in a file, as far as the types of contexts depend on it.
#[derive(Clone, Copy)]
pub struct Position<'a> {
    /// The section it is in.
    pub section: Section<'a>,
    /// The steps of the section that an expression there sees.
    pub seen: Seen,
}

fn section_at<'a>(way: &[WayStep<'a>]) -> Section<'a>
    ensures { section_view result ≡ positions.section_of (map way_step_view way.now) }
{
    match way {
        [Under(key), Under(_), ..] if *key == b"on".as_slice() => Section::On,
        [Under(key), Under(job), ..] if *key == b"jobs".as_slice() => Section::Job(job),
        _ => Section::Apart,
    }
}

/// The steps seen from an item of the sequence under a key: those before it, if the key is `steps`.
fn seen_in_item(key: &[u8], i: usize) -> Seen
    ensures { result ≡ positions.seen_in_item key.now i }
{
    if key == b"steps".as_slice() {
        Seen::Before(i)
    } else {
        Seen::Nothing
    }
}

/// The steps seen below two keys: all in `outputs` and `environment.url`.
fn seen_below(first: &[u8], second: &[u8]) -> Seen
    ensures { result ≡ positions.seen_below first.now second.now }
{
    if first == b"outputs".as_slice()
        || first == b"environment".as_slice() && second == b"url".as_slice()
    {
        Seen::Everything
    } else {
        Seen::Nothing
    }
}

/// The steps seen at the end of a way in a file of a kind.
fn seen_at(kind: FileKind, way: &[WayStep<'_>]) -> Seen
    ensures { result ≡ positions.seen_at kind (map way_step_view way.now) }
{
    match kind {
        FileKind::Workflow => match way {
            [_, _, Under(first), Nth(i), ..] => seen_in_item(first, *i),
            [_, _, Under(first), Under(second), ..] => seen_below(first, second),
            _ => Seen::Nothing,
        },
        FileKind::Action => match way {
            [Under(_), Under(first), Nth(i), ..] => seen_in_item(first, *i),
            [Under(first), Under(second), ..] => seen_below(first, second),
            _ => Seen::Nothing,
        },
    }
}

/// The position at the end of a way in a file of a kind.
pub(crate) fn position_at<'a>(kind: FileKind, way: &[WayStep<'a>]) -> Position<'a>
    ensures { position_view result ≡ positions.position_of kind (map way_step_view way.now) }
{
    Position {
        section: section_at(way),
        seen: seen_at(kind, way),
    }
}
