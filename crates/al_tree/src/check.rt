//! Checking a node against the shape that its place requires.

ghost use Rattle.al_tree.specs.Faults.{beside_faults, entries_faults, entry_faults};
ghost use Rattle.al_tree.specs.Faults.{faults as faults_of};
ghost use Rattle.al_tree.specs.Faults.{is_empty_node as empty, items_faults};
ghost use Rattle.al_tree.specs.Faults.{missing_fault, root_faults, standing_view};
ghost use Rattle.al_tree.specs.Faults.{takes_null as null_taken};
ghost use Rattle.al_base.specs.Growth.{SameSet};
ghost use Rattle.al_tree.specs.Keys.{IsIndexOf, holds, key_of as key_in, keys_in};
ghost use Rattle.al_base.specs.Names.{among};
ghost use Rattle.al_tree.specs.Private.Demands.{demanded_faults, mapping_faults};
ghost use Rattle.al_tree.specs.Table.{field_view, keys_view};
ghost use Rattle.al_yaml_tree.specs.Node.{scalar as scalar_node};
ghost use Rattle.al_yaml_tree.specs.View.{entries_of, entry_view, nodes_of, view};
ghost use Rattle.std.specs.List.{flat_map};
ghost use Rattle.std.specs.Prelude.{◌≡◌, [], ◌++◌, map, option_map, IfOk, OnOk};

use crate::keys::{KeyIndex, KeySet, key_of};
use crate::scalars::{is_null_scalar, scalar_fault};
use crate::standings::{Standing, is_needed, refine, standing_of, takes_null};
use crate::table::{Keys, SectionKey, Shape, rule_of};
use al_base::{Code, Fault, FaultSink, KeyCode, Span};
use al_scalar::{Scalar, Style};
use al_yaml_tree::{Entry, Node};
use std::alloc::{AllocError, Global};

/// What the place of a node requires: a shape, and whether null is accepted, below a key, which
/// faults name.
#[derive(Clone, Copy)]
struct Demand<'a> {
    shape: Shape,
    takes_null: bool,
    above: &'a [u8],
}

/// Adds the faults of all required keys that are missing.
fn check_missing(
    rows: &[SectionKey],
    all: KeySet<'_>,
    at: Span,
    faults: &mut FaultSink,
) -> Result<(), AllocError>
    ensures { OnOk result (faults.new
        ≡ faults.old ++ flat_map (missing_fault at (holds all.entry)) (map field_view rows.now)) }
{
    let start = Span {
        start: at.start,
        end: at.start,
    };
    for row in rows {
        let key = row.key.as_bytes();
        if is_needed(row.need, all) && !all.contains(key) {
            faults.report_text(start, Code::Key(KeyCode::Missing), key)?;
        }
    }
    Ok(())
}

/// Adds the fault of a key that can't stand beside another.
#[inline(always)]
fn check_beside(
    other: Option<&'static str>,
    key: &Scalar,
    faults: &mut FaultSink,
) -> Result<(), AllocError>
    ensures { OnOk result (faults.new
        ≡ faults.old ++ beside_faults (option_map (λ k. k.now) other.entry) key.now) }
{
    match other {
        None => Ok(()),
        Some(other) => faults.report_two(
            key.span(),
            Code::Key(KeyCode::NotBeside),
            key.text(),
            other.as_bytes(),
        ),
    }
}

/// Adds the fault of a scalar at a place.
fn check_scalar(
    demand: Demand<'_>,
    scalar: &Scalar,
    faults: &mut FaultSink,
) -> Result<(), AllocError>
    ensures { OnOk result (faults.new
        ≡ faults.old ++ demanded_faults demand.entry (scalar_node scalar.now)) }
{
    if demand.takes_null && is_null_scalar(scalar) {
        return Ok(());
    }
    match rule_of(demand.shape).and_then(|rule| scalar_fault(rule.scalars, scalar)) {
        None => Ok(()),
        Some(key) => faults.report_text(scalar.span(), Code::Key(key), demand.above),
    }
}

/// Adds the faults of a key with this standing in its mapping.
fn check_key(standing: Standing, key: &Scalar, faults: &mut FaultSink) -> Result<(), AllocError>
    ensures { OnOk result (faults.new
        ≡ faults.old ++ entry_faults (standing_view standing) key.now (λ s. [])) }
{
    match standing {
        Standing::Repeated => {
            faults.report_text(key.span(), Code::Key(KeyCode::Repeated), key.text())
        }
        Standing::Unexpected(other) => {
            faults.report_text(key.span(), Code::Key(KeyCode::Unexpected), key.text())?;
            check_beside(other, key, faults)
        }
        Standing::Ignored => Ok(()),
        Standing::Expected(_, other) => check_beside(other, key, faults),
    }
}

/// Adds the faults of a node at a place.
#[tactic(auto, using(crate::proofs::Shapes::faults_mapping, crate::proofs::Shapes::faults_sequence))]
#[cycle(checks)]
fn check(demand: Demand<'_>, node: &Node, faults: &mut FaultSink) -> Result<(), AllocError>
    ensures { OnOk result (faults.new
        ≡ faults.old ++ demanded_faults demand.entry (view node.now)) }
{
    match node {
        Node::Scalar(scalar) => check_scalar(demand, scalar, faults),
        Node::Sequence { items, span } => match rule_of(demand.shape).map(|rule| rule.items) {
            None => Ok(()),
            Some(None) => faults.report_text(*span, Code::Key(KeyCode::WrongKind), demand.above),
            Some(Some(inner)) => check_items(inner, demand.above, items.as_slice(), faults),
        },
        Node::Mapping { entries, span } => check_mapping(demand, entries.as_slice(), *span, faults),
        Node::Shared(inner) => check(demand, inner, faults),
    }
}

/// Adds the faults of a mapping at a place.
#[tactic(auto, using(crate::proofs::KeyLemmas::all_keys))]
#[cycle(checks)]
fn check_mapping(
    demand: Demand<'_>,
    entries: &[Entry],
    at: Span,
    faults: &mut FaultSink,
) -> Result<(), AllocError>
    ensures { OnOk result (faults.new
        ≡ faults.old ++ mapping_faults demand.entry at (map entry_view entries.now)) }
{
    let Some(rule) = rule_of(refine(demand.shape, entries)) else {
        return Ok(());
    };
    if let Keys::No = rule.keys {
        return faults.report_text(at, Code::Key(KeyCode::WrongKind), demand.above);
    }
    let index = KeyIndex::of(faults.alloc(), entries)?;
    if let Keys::These(rows, _) = rule.keys {
        check_missing(rows, index.first(entries.len()), at, faults)?;
    }
    check_entries(rule.keys, entries, &index, faults)
}

/// Adds the faults of the items of a sequence below a key.
#[cycle(checks)]
fn check_items(
    shape: Shape,
    above: &[u8],
    nodes: &[Node],
    faults: &mut FaultSink,
) -> Result<(), AllocError>
    ensures { OnOk result (faults.new
        ≡ faults.old ++ items_faults shape above.now (nodes_of (map view nodes.now))) }
{
    for node in nodes {
        let demand = Demand {
            shape,
            takes_null: false,
            above,
        };
        check(demand, node, faults)?;
    }
    Ok(())
}

/// Adds the faults of the entries of a mapping.
#[cycle(checks)]
fn check_entries(
    keys: Keys,
    entries: &[Entry],
    index: &KeyIndex<'_>,
    faults: &mut FaultSink,
) -> Result<(), AllocError>
    requires { IsIndexOf index.now entries.now }
    ensures { OnOk result (faults.new ≡ faults.old
        ++ entries_faults (keys_view keys) [] (among (keys_in (map entry_view entries.now)))
        (entries_of (map entry_view entries.now))) }
{
    let all = index.first(entries.len());
    for (i, entry) in entries.iter().enumerate() {
        let standing = standing_of(keys, index.key_at(i), all);
        check_entry(standing, entry, faults)?;
    }
    Ok(())
}

/// Adds the faults of an entry with this standing in its mapping.
#[tactic(auto, using(al_yaml_tree::proofs::ViewLemmas::entry_parts))]
#[cycle(checks)]
fn check_entry(standing: Standing, entry: &Entry, faults: &mut FaultSink) -> Result<(), AllocError>
    ensures { OnOk result (faults.new
        ≡ faults.old ++ entry_faults (standing_view standing) (entry_view entry.now).0
        (λ s. faults_of s (null_taken s) (key_in (entry_view entry.now))
        (entry_view entry.now).1)) }
{
    check_key(standing, &entry.key, faults)?;
    let Standing::Expected(shape, _) = standing else {
        return Ok(());
    };
    let demand = Demand {
        shape,
        takes_null: takes_null(shape),
        above: key_of(entry),
    };
    check(demand, &entry.value, faults)
}

/// Whether a root is empty, as that of a file without a node.
fn is_empty(node: &Node) -> bool
    ensures { result ≡ empty (view node.now) }
{
    node.scalar().is_some_and(|scalar| scalar.style() == Style::Plain && scalar.text().is_empty())
}

/// The faults of the root of a file against the shape it should have, in the order of the file's
/// entries.
///
/// Takes time proportional to the size of the tree, times the logarithm of the number of entries in
/// its mappings.
///
/// # Errors
///
/// `AllocError` if memory runs out.
#[tactic(auto, using(al_base::proofs::Growing::same_set))]
pub fn shape_faults(alloc: Global, shape: Shape, root: &Node) -> Result<Vec<Fault>, AllocError>
    ensures list { IfOk result (λ found. found.items ≡ root_faults shape (view root.now)) }
    ensures set { IfOk result (λ found. SameSet found.items (root_faults shape (view root.now))) }
{
    let mut faults = FaultSink::new(alloc);
    if is_empty(root) {
        let span = Span { start: 0, end: 0 };
        faults.report_plain(span, Code::Key(KeyCode::EmptyFile))?;
    } else {
        let demand = Demand {
            shape,
            takes_null: false,
            above: b"file",
        };
        check(demand, root, &mut faults)?;
    }
    Ok(faults.into_faults())
}
