//! Scalars of YAML.

use crate::nodes::{Form, push_end};
use al_json::Json;
use al_yaml::{Class, Scalar, Style};
use std::alloc::AllocError;

fn style_name(style: Style) -> &'static str {
    match style {
        Style::Plain => "plain",
        Style::SingleQuoted => "single",
        Style::DoubleQuoted => "double",
        Style::Literal => "literal",
        Style::Folded => "folded",
    }
}

fn class_name(class: Class) -> &'static str {
    match class {
        Class::Null => "null",
        Class::Bool => "bool",
        Class::Int => "int",
        Class::Float => "float",
        Class::Str => "str",
    }
}

/// The lowest four bits as a digit.
fn hex_digit(bits: u8) -> char {
    let n = bits % 16;
    let digit = if n < 10 { b'0' + n } else { b'a' + (n - 10) };
    digit as char
}

// Writes bytes as hexadecimal digits.
fn push_hex(json: &mut Json, bytes: &[u8]) -> Result<(), AllocError> {
    let mut digits = String::new(json.alloc());
    for byte in bytes {
        digits.push(hex_digit(*byte >> 4))?;
        digits.push(hex_digit(*byte))?;
    }
    json.text_at("text", digits.as_str())
}

// Writes the offset of each byte of the text, and of its end.
fn push_offsets(json: &mut Json, scalar: &Scalar) -> Result<(), AllocError> {
    json.list_at("offsets")?;
    for i in 0..scalar.text().len() {
        json.number(u64::from(scalar.locate(i)))?;
    }
    let end = scalar.locate(scalar.text().len());
    json.number(u64::from(end))?;
    json.close(']')
}

// Writes that the bytes of a text from an index on come from an offset on.
fn push_place(json: &mut Json, index: usize, offset: u32) -> Result<(), AllocError> {
    json.open('[')?;
    json.number(index as u64)?;
    json.number(u64::from(offset))?;
    json.close(']')
}

// Writes where the bytes of the text come from: each index whose byte doesn't come from right
// behind the one before it.
fn push_places(json: &mut Json, scalar: &Scalar) -> Result<(), AllocError> {
    json.list_at("places")?;
    let mut behind = None;
    for i in 0..scalar.text().len() {
        let offset = scalar.locate(i);
        if behind != Some(offset) {
            push_place(json, i, offset)?;
        }
        behind = Some(offset.saturating_add(1));
    }
    json.close(']')
}

fn push_text(json: &mut Json, form: Form, scalar: &Scalar) -> Result<(), AllocError> {
    match form {
        Form::Answers => {
            json.key("text")?;
            json.bytes(scalar.text())?;
            push_places(json, scalar)
        }
        Form::Tests => {
            push_hex(json, scalar.text())?;
            push_offsets(json, scalar)
        }
    }
}

/// Writes a scalar.
pub fn push_scalar(
    json: &mut Json,
    form: Form,
    scalar: &Scalar,
    is_shared: bool,
) -> Result<(), AllocError> {
    json.open('{')?;
    json.text_at("kind", "scalar")?;
    json.text_at("style", style_name(scalar.style()))?;
    json.text_at("class", class_name(scalar.class()))?;
    push_text(json, form, scalar)?;
    push_end(json, scalar.span(), is_shared)
}
