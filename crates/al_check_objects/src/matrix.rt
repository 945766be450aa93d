//! The type of `matrix`.
ghost use Rattle.std.specs.Prelude.{◌≡◌, is_some, map, IfOk, List, OnOk, true};
ghost use Rattle.al_base.specs.Growth.{BeginsWith};
ghost use Rattle.al_check_objects.specs.Matrix as matrix;
ghost use Rattle.al_check_objects.specs.Matrix.{fields_of, include_all, items_type, rows_of};
ghost use Rattle.al_check_objects.specs.Objects.{strictly};
ghost use Rattle.al_check_objects.specs.Numbers.{Makes, Means};
ghost use Rattle.al_check_objects.specs.Scalars.{scalar_type_with};
ghost use Rattle.al_expr_types.specs.Tables.{is_known, objects_of};
ghost use Rattle.al_expr_types.specs.declared.types.Types as declared;
ghost use Rattle.al_types.specs.Puts.{TypedName, firsts};
ghost use Rattle.al_types.specs.Types.{Absent, Any, option_of, or_any};
ghost use Rattle.al_yaml_tree.specs.Access.{scalar_in};
ghost use Rattle.al_yaml_tree.specs.View.{entries_of, entry_view, nodes_of, view};

use crate::field_lists::FieldList;
use crate::objects::object_of;
use crate::scalars::class_type_of;
use al_expr_grammar::{Around, is_lone_chunk};
use al_expr_types::{Join, Ty, Types};
use al_scalar::Scalar;
use al_tree::{contains_chunk, is_combination_key, items, key_of, members, value, value_below_two};
use al_yaml_tree::{Entry, Node};
use std::alloc::{AllocError, Global};

/// The type of a scalar. Fails with `AllocError` when out of memory, as everything here does.
fn scalar_type(alloc: Global, scalar: &Scalar) -> Result<Ty, AllocError>
    ensures { IfOk result
        (λ t. (types : declared.Types) → Means types t (scalar_type_with Any scalar.now)) }
{
    if !contains_chunk(scalar.text()) {
        return Ok(Ty::scalar(class_type_of(scalar.class())));
    }
    let is_lone = is_lone_chunk(alloc, Around::Nothing, scalar.text())?;
    Ok(if is_lone { Ty::ANY } else { Ty::STRING })
}

/// The type of a value.
#[cycle(values)]
fn node_type<'a>(types: &mut Types<'a>, node: &'a Node) -> Result<Ty, AllocError>
    ensures { Makes types.old types.new result (matrix.node_type (view node.entry.now)) }
{
    match node {
        Node::Scalar(scalar) => scalar_type(types.alloc(), scalar),
        Node::Sequence { items, .. } => {
            let ty = items_type(types, items.as_slice())?;
            ty.in_arrays(1)
        }
        Node::Mapping { entries, .. } => entries_type(types, entries.as_slice()),
        Node::Shared(inner) => node_type(types, inner),
    }
}

/// What the types of some values have in common; any type if there are no values.
#[cycle(values)]
fn items_type<'a>(types: &mut Types<'a>, nodes: &'a [Node]) -> Result<Ty, AllocError>
    ensures { Makes types.old types.new result
        (or_any (option_of (items_type Absent (nodes_of (map view nodes.entry.now))))) }
{
    let mut all = Join::Nothing;
    for node in nodes {
        let ty = node_type(types, node)?;
        all = all.and(types.alloc(), ty)?;
    }
    types.type_or_any(all)
}

/// The type of a mapping with these entries; of equal names the first counts.
#[cycle(values)]
fn entries_type<'a>(types: &mut Types<'a>, entries: &'a [Entry]) -> Result<Ty, AllocError>
    ensures { Makes types.old types.new result
        (strictly (firsts (fields_of (entries_of (map entry_view entries.entry.now))))) }
{
    let mut fields = FieldList::new(types.alloc());
    for entry in entries {
        let ty = node_type(types, &entry.value)?;
        fields = fields.and(key_of(entry), ty)?;
    }
    fields.into_type(types, None)
}

/// The object of a matrix's rows.
fn rows_type<'a>(types: &mut Types<'a>, node: &'a Node) -> Result<Ty, AllocError>
    ensures { Makes types.old types.new result (strictly (rows_of (view node.entry.now))) }
{
    let mut rows = FieldList::new(types.alloc());
    let entries = members(types.alloc(), node)?;
    for entry in entries.as_slice() {
        if is_combination_key(entry.key.text()) {
            continue;
        }
        let ty = items_type(types, items(entry.value))?;
        rows = rows.and(entry.key.text(), ty)?;
    }
    rows.into_type(types, None)
}

/// What the object of the rows and those of the combinations have in common. A combination that
/// isn't a mapping has no fields.
fn include<'a>(types: &mut Types<'a>, rows: Ty, nodes: &'a [Node]) -> Result<Ty, AllocError>
    requires { is_known types.old rows ≡ true }
    ensures ty { IfOk result (λ t. (ts : List TypedName) → Means types.old rows (strictly ts)
        → Means types.new t (strictly (include_all ts (map view nodes.entry.now)))) }
    ensures kept { OnOk result (BeginsWith (objects_of types.new) (objects_of types.old)) }
{
    let mut all = Join::One(rows);
    for node in nodes {
        let ty = entries_type(types, node.mapping().unwrap_or(&[]))?;
        all = all.and(types.alloc(), ty)?;
    }
    types.type_or_any(all)
}

fn is_scalar(node: &Node) -> bool
    ensures { result ≡ is_some (scalar_in (view node.now)) }
{
    node.scalar().is_some()
}

/// Whether `include` is known only when the workflow runs: it is a scalar, or one of its items is.
fn is_open_include(combinations: &Node) -> bool
    ensures { result ≡ matrix.is_open_include (view combinations.now) }
{
    is_scalar(combinations) || items(combinations).iter().any(is_scalar)
}

/// The type of `matrix` in a job; without a matrix an object without fields.
pub fn matrix_type<'a>(types: &mut Types<'a>, job: &'a Node) -> Result<Ty, AllocError>
    ensures { Makes types.old types.new result (matrix.matrix_type (view job.entry.now)) }
{
    let Some(node) = value_below_two(job, "strategy", "matrix") else {
        return object_of(types, &[], None);
    };
    if is_scalar(node) {
        return object_of(types, &[], Some(Ty::ANY));
    }
    let rows = rows_type(types, node)?;
    let Some(combinations) = value(node, "include") else {
        return Ok(rows);
    };
    if is_open_include(combinations) {
        return object_of(types, &[], Some(Ty::ANY));
    }
    include(types, rows, items(combinations))
}
