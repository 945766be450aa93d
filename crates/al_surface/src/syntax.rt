//! `al_tree`: the table of GitHub's syntax, and scalars against it.

use crate::trees::document;
use al_text::KeyCode;
use al_tree::{
    FileKind, InputType, Keys, ScalarSet, Shape, action_steps, contains_chunk, event_names,
    input_of, is_composite, is_null_scalar, is_workflow_name, root_shape, rule_of, runs_of,
    scalar_fault, shape_faults,
};
use al_yaml::Node;
use std::alloc::{AllocError, Global};

/// Whether a shape accepts booleans, and neither sequences nor mappings.
fn accepts_booleans(shape: Shape) -> bool {
    match rule_of(shape) {
        Some(rule) => {
            matches!(rule.scalars, ScalarSet::Bools)
                && matches!(rule.keys, Keys::No)
                && rule.items.is_none()
        }
        None => false,
    }
}

#[test]
fn what_a_shape_accepts(rt: HostRuntime) {
    assert!(rt; accepts_booleans(Shape::Flag) && rule_of(Shape::Any).is_none());
}

#[test]
fn shapes_of_files(rt: HostRuntime) {
    assert!(rt; matches!(root_shape(FileKind::Action), Shape::Action));
    assert!(rt; matches!(runs_of(b"docker"), Shape::DockerRuns));
}

#[test]
fn names_of_workflows_and_events(rt: HostRuntime) {
    assert!(rt; is_workflow_name(b"a.yml") && !is_workflow_name(b".yml"));
    assert!(rt; event_names().contains(&"push") && !event_names().contains(&"include"));
}

#[test]
fn texts_with_an_expression(rt: HostRuntime) {
    assert!(rt; contains_chunk(b"a ${{ b") && !contains_chunk(b"$ {{ b }}"));
}

/// An action whose root also has the keys of an input.
fn action_with_type() -> &'static [u8] {
    b"type: boolean\nruns: {using: composite, steps: [{run: a, shell: sh}]}\n"
}

fn is_composite_with_a_step(root: &Node) -> bool {
    is_composite(root) && action_steps(root).len() == 1 && input_of(root) == InputType::Boolean
}

fn reads_action(alloc: Global, file: &[u8]) -> Result<bool, AllocError> {
    let doc = document(alloc, file)?;
    Ok(is_composite_with_a_step(&doc.root))
}

#[test]
fn steps_of_an_action(rt: HostRuntime) {
    assert!(rt; reads_action(rt.alloc(), action_with_type()) == Ok(true));
}

/// Whether a node is a scalar that is no boolean, and not null.
fn is_no_boolean(node: &Node) -> bool {
    match node.scalar() {
        Some(scalar) => {
            scalar_fault(ScalarSet::Bools, scalar) == Some(KeyCode::WrongType)
                && !is_null_scalar(scalar)
        }
        None => false,
    }
}

/// Whether this is the only fault of a file that should be a boolean.
fn has_wrong_type(alloc: Global, file: &[u8]) -> Result<bool, AllocError> {
    let doc = document(alloc, file)?;
    let faults = shape_faults(alloc, Shape::Flag, &doc.root)?.len();
    Ok(is_no_boolean(&doc.root) && faults == 1)
}

#[test]
fn a_scalar_that_is_no_boolean(rt: HostRuntime) {
    assert!(rt; has_wrong_type(rt.alloc(), b"yes\n") == Ok(true));
}
