//! The matrix of a job.

ghost use Rattle.al_base.specs.NamePlaces.{name_place, name_position};
ghost use Rattle.al_rules_settings.specs.Matrix.{are_combinations as all_combinations};
ghost use Rattle.al_rules_settings.specs.Matrix.{exclude_faults, exclude_keys};
ghost use Rattle.al_rules_settings.specs.Matrix.{is_combination as combination};
ghost use Rattle.al_rules_settings.specs.Matrix.{is_dynamic as dynamic};
ghost use Rattle.al_rules_settings.specs.Matrix.{is_null_node as null_node};
ghost use Rattle.al_rules_settings.specs.Matrix.{is_row_value as row_value};
ghost use Rattle.al_rules_settings.specs.Matrix.{matrix_faults, row_names as names_of_rows};
ghost use Rattle.al_rules_settings.specs.Words.{of_scalar};
ghost use Rattle.al_tree.specs.Values.{entries_in, member_of};
ghost use Rattle.al_yaml_tree.specs.View.{view};
ghost use Rattle.std.specs.List.{flat_map};
ghost use Rattle.std.specs.Prelude.{◌≡◌, ◌++◌, map, IfOk, OnOk};

use crate::reports::{Named, named_text, report_unless};
use al_base::{FaultSink, NamePositions, RuleCode};
use al_tree::{Member, contains_chunk, is_combination_key, is_null_scalar, items_under, members};
use al_yaml_tree::Node;
use std::alloc::{AllocError, Global};

/// Whether a node is null.
fn is_null_node(node: &Node) -> bool
    ensures { result ≡ null_node (view node.now) }
{
    node.scalar().is_some_and(|scalar| is_null_scalar(scalar))
}

/// Whether a node is a scalar with an expression.
fn is_dynamic(node: &Node) -> bool
    ensures { result ≡ dynamic (view node.now) }
{
    node.scalar()
        .is_some_and(|scalar| contains_chunk(scalar.text()))
}

/// Whether `include` and `exclude` can have a node as item.
fn is_combination(node: &Node) -> bool
    ensures { result ≡ combination (view node.now) }
{
    node.mapping().is_some() || is_dynamic(node)
}

/// Whether a node is a sequence of such items.
fn are_combinations(node: &Node) -> bool
    ensures { result ≡ all_combinations (view node.now) }
{
    let Some(items) = node.sequence() else {
        return false;
    };
    items.iter().all(is_combination)
}

/// Whether a key of a matrix can have a value.
fn is_row_value(key: &[u8], value: &Node) -> bool
    ensures { result ≡ row_value key.now (view value.now) }
{
    if is_null_node(value) || is_dynamic(value) {
        return true;
    }
    if is_combination_key(key) {
        are_combinations(value)
    } else {
        value.sequence().is_some()
    }
}

/// The names of the rows: all keys except `include` and `exclude`.
fn row_names<'a>(alloc: Global, rows: &[Member<'a>]) -> Result<Vec<&'a [u8]>, AllocError>
    ensures { IfOk result (λ v. map (λ t. t.now) v.items
        ≡ names_of_rows (map member_of rows.now)) }
{
    let keys = rows.iter().map(|row| row.key.text());
    keys.filter(|key| !is_combination_key(key)).collect(alloc)
}

/// Adds the faults of the keys of an item of `exclude`, given the positions of the rows.
fn check_excluded(
    rows: &NamePositions,
    item: &Node,
    faults: &mut FaultSink,
) -> Result<(), AllocError>
    ensures { OnOk result (faults.new ≡ faults.old
        ++ flat_map (exclude_faults (name_position rows.now))
        (map (λ m. of_scalar m.0) (entries_in (view item.now)))) }
{
    for member in &members(faults.alloc(), item)? {
        let key = named_text(member.key);
        let row = rows.get(key.text)?;
        report_unless(row.is_some(), RuleCode::UnknownMatrixRow, key, faults)?;
    }
    Ok(())
}

/// Adds the faults of the keys of `exclude`, given the rows. Most matrices have none, and the rows
/// aren't looked up.
fn check_excludes(
    rows: &[Member<'_>],
    items: &[Node],
    faults: &mut FaultSink,
) -> Result<(), AllocError>
    ensures { OnOk result (faults.new ≡ faults.old
        ++ flat_map (exclude_faults (name_place (names_of_rows (map member_of rows.now))))
        (exclude_keys (map view items.now))) }
{
    if items.is_empty() {
        return Ok(());
    }
    let alloc = faults.alloc();
    let names = row_names(alloc, rows)?;
    let positions = NamePositions::of(alloc, names.as_slice())?;
    for item in items {
        check_excluded(&positions, item, faults)?;
    }
    Ok(())
}

/// Adds the faults of a matrix: those of its rows, and of keys of `exclude` that aren't rows.
///
/// Fails with `AllocError` when out of memory.
pub fn check_matrix(node: &Node, faults: &mut FaultSink) -> Result<(), AllocError>
    ensures { OnOk result (faults.new ≡ faults.old ++ matrix_faults (view node.now)) }
{
    if node.mapping().is_none() {
        let right = is_null_node(node) || is_dynamic(node);
        let name = Named {
            text: b"matrix",
            span: node.span(),
        };
        return report_unless(right, RuleCode::WrongMatrix, name, faults);
    }
    let rows = members(faults.alloc(), node)?;
    for row in &rows {
        let name = Named {
            text: row.key.text(),
            span: row.value.span(),
        };
        let right = is_row_value(name.text, row.value);
        report_unless(right, RuleCode::WrongMatrix, name, faults)?;
    }
    check_excludes(rows.as_slice(), items_under(node, "exclude"), faults)
}
