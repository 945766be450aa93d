//! What files declare.

use crate::files::document;
use al_tree::{
    InputType, Member, declared_at, declared_in, has_value, input_of, is_composite, is_named_among,
    value_below_three, value_below_two,
};
use al_yaml_tree::Node;
use std::alloc::{AllocError, Global};

const CALLED: &[u8] = b"on:
  workflow_call:
    inputs: {Size: {type: number}, dry: {type: boolean}, size: {}, pick: {type: choice}, plain: ~}
jobs: {}
";

const ACTION: &[u8] = b"runs: {using: composite, steps: []}
inputs: {a: {default: 1}}
";

static INPUTS: [(&str, InputType); 4] = [
    ("Size", InputType::Number),
    ("dry", InputType::Boolean),
    ("pick", InputType::String),
    ("plain", InputType::String),
];

fn expected_inputs() -> &'static [(&'static str, InputType)] {
    &INPUTS
}

fn is_expected(input: &Member<'_>, name: &str, ty: InputType) -> bool {
    input.key.text() == name.as_bytes() && input_of(input.value) == ty
}

fn are_expected(found: &[Member<'_>], expected: &[(&str, InputType)]) -> bool {
    if found.len() != expected.len() {
        return false;
    }
    for (input, (name, ty)) in found.iter().zip(expected) {
        if !is_expected(input, name, *ty) {
            return false;
        }
    }
    true
}

fn has_inputs(alloc: Global, root: &Node) -> Result<bool, AllocError> {
    let below = value_below_three(root, "on", "workflow_call", "inputs");
    Ok(are_expected(&declared_at(alloc, below)?, expected_inputs()))
}

fn has_no_push(alloc: Global, root: &Node) -> Result<bool, AllocError> {
    Ok(declared_at(alloc, value_below_two(root, "on", "push"))?.is_empty())
}

fn declares_inputs(alloc: Global, root: &Node) -> Result<bool, AllocError> {
    Ok(has_inputs(alloc, root)? && has_no_push(alloc, root)? && !is_composite(root))
}

fn reads_inputs(alloc: Global) -> Result<bool, AllocError> {
    match document(alloc, CALLED)? {
        Some(doc) => declares_inputs(alloc, &doc.root),
        None => Ok(false),
    }
}

#[test]
fn inputs(rt: HostRuntime) -> Result<(), AllocError> {
    assert!(rt; reads_inputs(rt.alloc())?);
    Ok(())
}

fn count_of_declared(alloc: Global, root: &Node) -> Result<usize, AllocError> {
    Ok(declared_in(alloc, root)?.len())
}

fn is_action(alloc: Global, root: &Node) -> Result<bool, AllocError> {
    Ok(
        is_composite(root)
            && has_value(root, "inputs")
            && !has_value(root, "outputs")
            && count_of_declared(alloc, root)? == 2,
    )
}

fn reads_action(alloc: Global) -> Result<bool, AllocError> {
    match document(alloc, ACTION)? {
        Some(doc) => is_action(alloc, &doc.root),
        None => Ok(false),
    }
}

#[test]
fn actions(rt: HostRuntime) -> Result<(), AllocError> {
    assert!(rt; reads_action(rt.alloc())?);
    Ok(())
}

fn are_named(names: &[&[u8]], name: &[u8]) -> bool {
    is_named_among(names, name)
}

#[test]
fn names(rt: HostRuntime) {
    assert!(rt; are_named(&[b"a", b"B"], b"b"));
    assert!(rt; !are_named(&[b"a", b"B"], b"c"));
}
