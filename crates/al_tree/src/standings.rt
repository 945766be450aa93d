//! The standing of a key in its mapping: known, unknown, repeated, or beside a key that excludes
//! it.

ghost use Rattle.al_tree.specs.Faults.{clash_with};
ghost use Rattle.al_tree.specs.Faults.{is_needed as needed, mapping_shape};
ghost use Rattle.al_tree.specs.Faults.{runs_of as runs, standing as stands, standing_view};
ghost use Rattle.al_tree.specs.Faults.{takes_null as null_taken};
ghost use Rattle.al_tree.specs.Keys.{holds};
ghost use Rattle.al_tree.specs.Table.{clash_of, field_view, keys_view, need_of};
ghost use Rattle.al_yaml_tree.specs.View.{entry_view};
ghost use Rattle.std.specs.Bool.{then_some};
ghost use Rattle.std.specs.Prelude.{◌≡◌, find, map, option_map};
ghost use Rattle.std.specs.Str.{bytes_eq};

use crate::keys::{EntryKey, KeySet, entry_among};
use crate::names::is_event;
use crate::table::{Clash, Keys, Need, Others, SectionKey, Shape, Trigger};
use al_base::is_among;
use al_yaml_tree::Entry;

/// The values of `using` of an action that Node runs.
pub const NODE_VERSIONS: [&str; 4] = ["node12", "node16", "node20", "node24"];

/// The section of `runs`, depending on the text of `using`, compared exactly (GitHub, "Metadata
/// syntax", `runs`). For an unknown one it is [`Shape::Runs`].
pub fn runs_of(using_text: &[u8]) -> Shape
    ensures { result ≡ runs using_text.now }
{
    if is_among(using_text, &NODE_VERSIONS) {
        Shape::NodeRuns
    } else if using_text == "composite".as_bytes() {
        Shape::CompositeRuns
    } else if using_text == "docker".as_bytes() {
        Shape::DockerRuns
    } else {
        Shape::Runs
    }
}

/// The section that a mapping with these entries is checked against. It is `shape` itself, but for
/// [`Shape::Runs`] it is the one that [`runs_of`] gives for its `using`.
#[inline(always)]
pub fn refine(shape: Shape, entries: &[Entry]) -> Shape
    ensures { result ≡ mapping_shape shape (map entry_view entries.now) }
{
    match shape {
        Shape::Runs => match entry_among(entries, "using").and_then(|entry| entry.value.scalar()) {
            Some(scalar) => runs_of(scalar.text()),
            None => Shape::Runs,
        },
        _ => shape,
    }
}

/// Whether the value of a key with this shape may be null.
pub(crate) fn takes_null(shape: Shape) -> bool
    ensures { result ≡ null_taken shape }
{
    !matches!(shape, Shape::On(Trigger::Events) | Shape::Jobs | Shape::Job)
}

/// The row of a key.
#[inline(always)]
fn row_at<'a>(rows: &'a [SectionKey], key: &[u8]) -> Option<&'a SectionKey>
    ensures { option_map (λ r. field_view r.now) result
        ≡ find (λ f. bytes_eq f.key key.now) (map field_view rows.now) }
{
    rows.iter().find(|row| row.key.as_bytes() == key)
}

/// Whether a key is required in a mapping with these keys.
pub(crate) fn is_needed(need: Need, all: KeySet<'_>) -> bool
    ensures { result ≡ needed (need_of need) (holds all.entry) }
{
    match need {
        Need::May => false,
        Need::Must => true,
        Need::Unless(other) => !all.contains(other.as_bytes()),
    }
}

/// What an entry is in its mapping: what [`standing_of`] gives.
#[derive(Clone, Copy)]
pub enum Standing {
    /// An earlier entry has the same key.
    Repeated,
    /// The mapping doesn't have this key. The text is a key that is present and that the entry
    /// can't stand beside.
    Unexpected(Option<&'static str>),
    /// The entry isn't checked.
    Ignored,
    /// The value should have this shape. The text is a key that is present and that the entry can't
    /// stand beside.
    Expected(Shape, Option<&'static str>),
}

/// A key, if it is in a set.
fn if_in(set: KeySet<'_>, key: &'static str) -> Option<&'static str>
    ensures { option_map (λ k. k.now) result ≡ then_some (holds set.entry key.now) key.now }
{
    set.contains(key.as_bytes()).then_some(key)
}

/// The key that a key can't stand beside, if that is present.
fn clash(clash: Clash, seen: KeySet<'_>, all: KeySet<'_>) -> Option<&'static str>
    ensures { option_map (λ k. k.now) result
        ≡ clash_with (clash_of clash) (holds seen.entry) (holds all.entry) }
{
    match clash {
        Clash::Never => None,
        Clash::After(other) => if_in(seen, other),
        Clash::Beside(other) => if_in(all, other),
    }
}

/// What an entry is in a mapping that accepts `keys`, where `all` are the keys of the whole
/// mapping, and `key` has those before the entry.
#[inline(always)]
pub fn standing_of(keys: Keys, key: EntryKey<'_>, all: KeySet<'_>) -> Standing
    ensures { standing_view result
        ≡ stands (keys_view keys) (holds (key.entry).seen) (holds all.entry) (key.entry).key.now }
{
    match keys {
        Keys::No => Standing::Ignored,
        Keys::Free(_) if key.is_repeated => Standing::Repeated,
        Keys::Free(shape) => Standing::Expected(shape, None),
        Keys::These(rows, others) => match (row_at(rows, key.key), others) {
            (None, Others::Unchecked) => Standing::Ignored,
            _ if key.is_repeated => Standing::Repeated,
            (Some(row), _) => Standing::Expected(row.shape, clash(row.clash, key.seen, all)),
            (None, Others::Wrong) => Standing::Unexpected(None),
            (None, Others::WrongBeside(other)) => Standing::Unexpected(if_in(all, other)),
            (None, Others::Events) if is_event(key.key) => {
                Standing::Expected(Shape::On(Trigger::Event), None)
            }
            (None, Others::Events) => Standing::Expected(Shape::Any, None),
        },
    }
}
