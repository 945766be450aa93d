//! Trees of YAML.

use crate::scalars::push_scalar;
use al_json::Json;
use al_text::Span;
use al_yaml::{Entry, Node};
use std::alloc::AllocError;

/// Which form trees have.
#[derive(Clone, Copy)]
pub enum Form {
    /// That of answers, which docs/FACTS.md describes.
    Answers,
    /// That of tests, with the offset of each byte.
    Tests,
}

fn sequence_word(form: Form) -> &'static str {
    match form {
        Form::Answers => "sequence",
        Form::Tests => "list",
    }
}

// Whether a shared node is marked.
fn marks_shared(form: Form) -> bool {
    match form {
        Form::Answers => true,
        Form::Tests => false,
    }
}

/// Ends a node: where it is, and whether an anchor and its aliases share it.
pub fn push_end(json: &mut Json, span: Span, is_shared: bool) -> Result<(), AllocError> {
    json.number_at("start", span.start)?;
    json.number_at("end", span.end)?;
    if is_shared {
        json.flag_at("shared", true)?;
    }
    json.close('}')
}

/// Writes a node.
#[cycle(nodes)]
pub fn push_node(
    json: &mut Json,
    form: Form,
    node: &Node,
    is_shared: bool,
) -> Result<(), AllocError> {
    match node {
        Node::Scalar(scalar) => push_scalar(json, form, scalar, is_shared),
        Node::Sequence { items, span } => {
            json.open('{')?;
            json.text_at("kind", sequence_word(form))?;
            json.list_at("items")?;
            for item in items {
                push_node(json, form, item, false)?;
            }
            json.close(']')?;
            push_end(json, *span, is_shared)
        }
        Node::Mapping { entries, span } => {
            json.open('{')?;
            json.text_at("kind", "mapping")?;
            json.list_at("entries")?;
            for entry in entries {
                push_entry(json, form, entry)?;
            }
            json.close(']')?;
            push_end(json, *span, is_shared)
        }
        Node::Shared(node) => push_node(json, form, node, marks_shared(form)),
    }
}

/// Writes a key and its value.
#[cycle(nodes)]
fn push_entry(json: &mut Json, form: Form, entry: &Entry) -> Result<(), AllocError> {
    json.open('[')?;
    push_scalar(json, form, &entry.key, false)?;
    push_node(json, form, &entry.value, false)?;
    json.close(']')
}
