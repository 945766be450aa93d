//! What a reader makes of standard input, for tests: each answer is one line.

use al_expr::{Chunk, chunks, parse_expr};
use al_facts_trees::{Form, push_expr, push_node, push_scalar};
use al_json::{Json, identifier};
use al_scalar::{ScalarContext, YamlFault, read_scalar};
use al_text::limits::{LARGEST_FILE, LONGEST_TEXT};
use al_text::{Code, Fault, Span};
use al_yaml::{Doc, read_yaml};
use std::alloc::{AllocError, Global};
use std::io;

/// The readers that an argument can name.
#[derive(Clone, Copy)]
pub enum Reader {
    /// The tree of an expression, or its fault.
    Content,
    /// The chunks of a text.
    Chunks,
    /// The scalar at a file's start, in block context.
    Start,
    /// The tree of a file, or its fault.
    Document,
}

/// The reader with a name.
pub fn reader_named(word: &str) -> Option<Reader> {
    match word {
        "expr" => Some(Reader::Content),
        "chunks" => Some(Reader::Chunks),
        "scalar" => Some(Reader::Start),
        "yaml" => Some(Reader::Document),
        _ => None,
    }
}

fn push_span(json: &mut Json, span: Span) -> Result<(), AllocError> {
    json.number_at("start", span.start)?;
    json.number_at("end", span.end)
}

fn push_code(json: &mut Json, code: Code) -> Result<(), AllocError> {
    let name = identifier(json.alloc(), code)?;
    json.text_at("code", name.as_str())
}

// Writes a fault of an expression.
fn push_fault(json: &mut Json, fault: &Fault) -> Result<(), AllocError> {
    json.open('{')?;
    push_code(json, fault.code)?;
    push_span(json, fault.span)?;
    json.list_at("args")?;
    if let Some(first) = fault.args.first() {
        json.text(first)?;
    }
    if let Some(second) = fault.args.second() {
        json.text(second)?;
    }
    json.close(']')?;
    json.close('}')
}

// Writes the first fault of a file.
fn push_yaml_fault(json: &mut Json, fault: YamlFault) -> Result<(), AllocError> {
    json.key("fault")?;
    json.open('{')?;
    push_code(json, Code::Yaml(fault.code))?;
    push_span(json, fault.span)?;
    json.close('}')
}

fn push_content(json: &mut Json, content: &str) -> Result<(), AllocError> {
    match parse_expr(json.alloc(), content)? {
        Ok(expr) => {
            let mut tree = String::new(json.alloc());
            push_expr(&mut tree, content.as_bytes(), &expr)?;
            json.text_at("tree", tree.as_str())
        }
        Err(fault) => {
            json.key("fault")?;
            push_fault(json, &fault)
        }
    }
}

// Writes the spans of the contents of chunks.
fn push_chunks(json: &mut Json, chunks: &[Chunk<'_>]) -> Result<(), AllocError> {
    json.list_at("chunks")?;
    for chunk in chunks {
        json.open('[')?;
        json.number(u64::from(chunk.span.start))?;
        json.number(u64::from(chunk.span.end))?;
        json.close(']')?;
    }
    json.close(']')
}

fn push_text(json: &mut Json, text: &str) -> Result<(), AllocError> {
    if text.len() > LONGEST_TEXT {
        return Ok(());
    }
    let (found, fault) = chunks(json.alloc(), text)?;
    push_chunks(json, &found)?;
    json.key("fault")?;
    match fault {
        Some(fault) => push_fault(json, &fault),
        None => json.null(),
    }
}

fn push_start(json: &mut Json, file: &[u8]) -> Result<(), AllocError> {
    if file.len() > LARGEST_FILE {
        return Ok(());
    }
    match read_scalar(json.alloc(), file, 0, ScalarContext::BlockFromIndent(0))? {
        Ok(read) => {
            json.key("tree")?;
            push_scalar(json, Form::Tests, &read.scalar, false)
        }
        Err(fault) => push_yaml_fault(json, fault),
    }
}

fn push_document(json: &mut Json, doc: &Doc) -> Result<(), AllocError> {
    json.key("tree")?;
    push_node(json, Form::Tests, &doc.root, false)
}

fn push_file(json: &mut Json, file: &[u8]) -> Result<(), AllocError> {
    if file.len() > LARGEST_FILE {
        return Ok(());
    }
    match read_yaml(json.alloc(), file)? {
        Ok(doc) => push_document(json, &doc),
        Err(fault) => push_yaml_fault(json, fault),
    }
}

fn text_of(bytes: &[u8]) -> io::Result<&str> {
    match str::from_utf8(bytes) {
        Ok(text) => Ok(text),
        Err(_) => Err(io::Error::from(io::ErrorKind::InvalidData)),
    }
}

/// What a reader makes of some bytes. Expressions and texts are UTF-8, a file may hold any bytes.
pub fn read(alloc: Global, reader: Reader, bytes: &[u8]) -> io::Result<Json> {
    let mut json = Json::new(alloc);
    json.open('{')?;
    match reader {
        Reader::Content => push_content(&mut json, text_of(bytes)?)?,
        Reader::Chunks => push_text(&mut json, text_of(bytes)?)?,
        Reader::Start => push_start(&mut json, bytes)?,
        Reader::Document => push_file(&mut json, bytes)?,
    }
    json.close('}')?;
    Ok(json)
}
