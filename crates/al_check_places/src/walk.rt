//! The walk that finds the scalars with expressions.
ghost use Rattle.std.specs.Prelude.{◌≡◌, ◌++◌, ◌∷◌, [], false, map, option_map, IfOk, OnOk};
ghost use Rattle.al_tree.specs.Faults.{standing_view};
ghost use Rattle.al_tree.specs.Keys.{key_of as key_in, keys_in};
ghost use Rattle.al_base.specs.Names.{among};
ghost use Rattle.al_tree.specs.Table.{keys_view, rule_view, rule as table_rule};
ghost use Rattle.al_check_places.specs.Availability.{row_view};
ghost use Rattle.al_check_places.specs.Places as places;
ghost use Rattle.al_check_places.specs.Places.{row_of_way, entry_places, place_of, places_of_node};
ghost use Rattle.al_check_places.specs.Places.{places_of_entries};
ghost use Rattle.al_check_places.specs.Places.{places_of_items, places_of, rule_or_any};
ghost use Rattle.al_check_places.specs.Places.{scalar_places};
ghost use Rattle.al_check_places.specs.Private.Walks as walks;
ghost use Rattle.al_check_places.specs.Private.Walks.{places_in, way_in};
ghost use Rattle.al_check_places.specs.Ways.{under, way_step_view};
ghost use Rattle.al_yaml_tree.specs.View.{entries_of, entry_view, nodes_of, view};

use crate::positions::{Position, position_at};
use crate::table::{AvailabilityRow, available};
use crate::ways::{Way, is_checked, is_condition, is_script};
use al_scalar::Scalar;
use al_tree::{
    FEW_KEYS, FileKind, KeyIndex, Keys, ScalarSet, Shape, ShapeRule, Standing, contains_chunk,
    is_null_scalar, key_of, refine, root_shape, rule_of, scalar_fault, standing_of,
};
use al_yaml_tree::{Entry, Node};
use std::alloc::{AllocError, Global};

/// A scalar with expressions, and what their checks depend on.
#[derive(Clone, Copy)]
pub struct Place<'a> {
    /// The scalar.
    pub scalar: &'a Scalar,
    /// Whether only a scalar is accepted there.
    pub is_scalar_only: bool,
    /// The row of the contexts and special functions that are available there; `None` in a workflow
    /// where all contexts and no special functions are, and in an action.
    pub available: Option<&'static AvailabilityRow>,
    /// Whether it is a condition: without `${{`, its whole text is an expression.
    pub is_condition: bool,
    /// Whether it is a step's script, of which untrusted text would become part.
    pub is_script: bool,
    /// Where it is, as far as the types of contexts depend on that.
    pub position: Position<'a>,
}

/// A walk through a file of a kind: the way from the root to the current node, and the places found
/// so far, in the order of the file.
#[derive(Drop)]
struct Walk<'a> {
    alloc: Global,
    kind: FileKind,
    way: Way<'a>,
    found: Vec<Place<'a>>,
}

/// The rule of a shape; one that isn't checked accepts anything.
fn rule_at(shape: Shape) -> ShapeRule
    ensures { rule_view result ≡ rule_or_any (table_rule shape) }
{
    rule_of(shape).unwrap_or(ShapeRule {
        scalars: ScalarSet::AnyScalar,
        items: Some(Shape::Any),
        keys: Keys::Free(Shape::Any),
    })
}

fn takes_scalars_only(rule: ShapeRule) -> bool
    ensures { result ≡ places.takes_scalars_only (rule_view rule) }
{
    matches!(rule.keys, Keys::No) && rule.items.is_none()
}

/// What is available at the end of a way.
fn available_in(kind: FileKind, way: &Way<'_>) -> Option<&'static AvailabilityRow>
    ensures { option_map (λ r. row_view r.now) result
        ≡ row_of_way kind (map way_step_view way.now.steps.items) }
{
    match kind {
        FileKind::Workflow => available(way.keys()),
        FileKind::Action => None,
    }
}

/// The place of a scalar at which a walk is.
fn place_at<'a>(walk: &Walk<'a>, is_scalar_only: bool, scalar: &'a Scalar) -> Place<'a>
    ensures { place_of result ≡ places.place_at walk.now.kind (way_in walk.now)
        is_scalar_only scalar.now }
{
    Place {
        scalar,
        is_scalar_only,
        available: available_in(walk.kind, &walk.way),
        is_condition: is_condition(&walk.way),
        is_script: is_script(&walk.way),
        position: position_at(walk.kind, walk.way.steps.as_slice()),
    }
}

/// Adds the place of a scalar, if it is checked and has an expression.
fn find_scalar<'a>(
    shape: Shape,
    is_item: bool,
    scalar: &'a Scalar,
    walk: &mut Walk<'a>,
) -> Result<(), AllocError>
    ensures found { OnOk result (places_in walk.new ≡ places_in walk.old
        ++ scalar_places walk.old.kind (rule_or_any (table_rule shape)) is_item
        (way_in walk.old) scalar.now) }
    ensures way { OnOk result (walk.new.way.steps.items ≡ walk.old.way.steps.items) }
    ensures kind { OnOk result (walk.new.kind ≡ walk.old.kind) }
{
    // Most scalars have none, and need no further tests.
    if !is_condition(&walk.way) && !contains_chunk(scalar.text()) {
        return Ok(());
    }
    let rule = rule_at(shape);
    if is_null_scalar(scalar) || scalar_fault(rule.scalars, scalar).is_some() {
        return Ok(());
    }
    if !is_checked(walk.kind, &walk.way) {
        return Ok(());
    }
    let is_scalar_only = takes_scalars_only(rule) && !is_item;
    let place = place_at(walk, is_scalar_only, scalar);
    walk.found.push(place)?;
    Ok(())
}

/// Adds the places of a node that should have a shape, and that may be an item of a sequence.
#[tactic(auto, using(crate::proofs::Nodes::places_of_sequence, crate::proofs::Nodes::places_of_mapping))]
#[cycle(finds)]
fn find<'a>(
    shape: Shape,
    is_item: bool,
    node: &'a Node,
    walk: &mut Walk<'a>,
) -> Result<(), AllocError>
    ensures found { OnOk result (places_in walk.new ≡ places_in walk.old
        ++ places_of_node walk.old.kind shape is_item (way_in walk.old) (view node.now)) }
    ensures way { OnOk result (walk.new.way.steps.items ≡ walk.old.way.steps.items) }
    ensures kind { OnOk result (walk.new.kind ≡ walk.old.kind) }
{
    match node {
        Node::Scalar(scalar) => find_scalar(shape, is_item, scalar, walk),
        Node::Sequence { items, .. } => match rule_at(shape).items {
            None => Ok(()),
            Some(inner) => find_items(inner, items.as_slice(), walk),
        },
        Node::Mapping { entries, .. } => find_entries(
            rule_at(refine(shape, entries.as_slice())).keys,
            entries.as_slice(),
            walk,
        ),
        Node::Shared(inner) => find(shape, is_item, inner, walk),
    }
}

/// Adds the places of the items of a sequence.
#[cycle(finds)]
fn find_items<'a>(shape: Shape, nodes: &'a [Node], walk: &mut Walk<'a>) -> Result<(), AllocError>
    ensures found { OnOk result (places_in walk.new ≡ places_in walk.old
        ++ places_of_items walk.old.kind shape (way_in walk.old) 0
        (nodes_of (map view nodes.now))) }
    ensures way { OnOk result (walk.new.way.steps.items ≡ walk.old.way.steps.items) }
    ensures kind { OnOk result (walk.new.kind ≡ walk.old.kind) }
{
    let mut i = 0;
    for node in nodes {
        walk.way.enter_item(i)?;
        find(shape, true, node, walk)?;
        walk.way.leave();
        i += 1;
    }
    Ok(())
}

/// Whether an entry may have an expression: a scalar without `${{` has none, unless its key ends in
/// `if`, like those of conditions.
#[inline(always)]
fn may_have_expression(entry: &Entry) -> bool
    ensures { result ≡ walks.may_have_expression (entry_view entry.now) }
{
    match entry.value.scalar() {
        None => true,
        Some(scalar) => key_of(entry).ends_with(b"if") || contains_chunk(scalar.text()),
    }
}

/// Adds the places of the entries of a mapping that accepts these keys.
#[cycle(finds)]
fn find_entries<'a>(
    takes: Keys,
    entries: &'a [Entry],
    walk: &mut Walk<'a>,
) -> Result<(), AllocError>
    ensures found { OnOk result (places_in walk.new ≡ places_in walk.old
        ++ places_of_entries walk.old.kind (keys_view takes) []
        (among (keys_in (map entry_view entries.now))) (way_in walk.old)
        (entries_of (map entry_view entries.now))) }
    ensures way { OnOk result (walk.new.way.steps.items ≡ walk.old.way.steps.items) }
    ensures kind { OnOk result (walk.new.kind ≡ walk.old.kind) }
{
    // Many keys are sorted only if there may be an expression.
    if entries.len() > FEW_KEYS && !entries.iter().any(may_have_expression) {
        return Ok(());
    }
    let index = KeyIndex::of(walk.alloc, entries)?;
    let all = index.first(entries.len());
    for (i, entry) in entries.iter().enumerate() {
        if may_have_expression(entry) {
            let standing = standing_of(takes, index.key_at(i), all);
            find_entry(standing, entry, walk)?;
        }
    }
    Ok(())
}

/// Adds the places of an entry with this standing in its mapping.
#[tactic(auto, using(al_yaml_tree::proofs::ViewLemmas::entry_parts))]
#[cycle(finds)]
fn find_entry<'a>(
    standing: Standing,
    entry: &'a Entry,
    walk: &mut Walk<'a>,
) -> Result<(), AllocError>
    ensures found { OnOk result (places_in walk.new ≡ places_in walk.old
        ++ entry_places (standing_view standing)
        (λ s. places_of_node walk.old.kind s false
        (way_in walk.old ++ under (key_in (entry_view entry.now)) ∷ [])
        (entry_view entry.now).1)) }
    ensures way { OnOk result (walk.new.way.steps.items ≡ walk.old.way.steps.items) }
    ensures kind { OnOk result (walk.new.kind ≡ walk.old.kind) }
{
    let Standing::Expected(shape, _) = standing else {
        return Ok(());
    };
    walk.way.enter_value(key_of(entry))?;
    find(shape, false, &entry.value, walk)?;
    walk.way.leave();
    Ok(())
}

/// The scalars of a file that have expressions, in the order of the file: conditions, and texts
/// with `${{`. Other texts have no fault of an expression.
///
/// # Errors
///
/// `AllocError` if memory runs out.
pub fn places(alloc: Global, kind: FileKind, root: &Node) -> Result<Vec<Place<'_>>, AllocError>
    ensures { IfOk result (λ v. map place_of v.items ≡ places_of kind (view root.now)) }
{
    let mut walk = Walk {
        alloc,
        kind,
        way: Way::new(alloc),
        found: Vec::new(alloc),
    };
    find(root_shape(kind), false, root, &mut walk)?;
    Ok(walk.found)
}
