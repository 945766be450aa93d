//! Keys: what can be one, and the colon after it.

ghost use Rattle.al_scalar.specs.ReadScalar.{read_of};
ghost use Rattle.al_scalar.specs.Line as line;
ghost use Rattle.al_scalar.specs.Places.{lines_at, text_at};
ghost use Rattle.al_yaml_parts.specs.BlockReads.{IsOptionKey, after_colon_in_block, option_key};
ghost use Rattle.al_yaml_tree.specs.Content as content;
ghost use Rattle.al_yaml_parts.specs.Files.{left_at, size};
ghost use Rattle.al_yaml_tree.specs.Flow as flow;
ghost use Rattle.al_yaml_tree.specs.Keys as keys;
ghost use Rattle.al_yaml_parts.specs.Places.{IsColon, IsReadInside};
ghost use Rattle.al_yaml_parts.specs.Reads.{Answers, IsStopInside};
ghost use Rattle.std.specs.Prelude.{IfErr, IfOk, length, true, ◌&&◌, ◌<◌, ◌≡◌, ◌≤◌};

use crate::anchors::{has_no_name, property_end};
use crate::content::{gap_end, is_dash, is_skipped};
use crate::faults::ReadError;
use crate::file::File;
use crate::lines::{characters, is_same_line};
use crate::scalars::scalar_at;
use crate::starts::{
    begins_flow_indicator, block_fault, is_block_start, is_flow_start, is_property, is_quote,
};
use al_base::YamlCode;
use al_base::limits::LONGEST_KEY;
use al_scalar::lines::{begins, blanks_end, is_blank_or_end, line_end};
use al_scalar::{ScalarContext, ScalarRead};
use std::alloc::AllocError;

/// Whether a scalar read from an offset on can be a key: it is on one line, with at most 1,024
/// characters.
pub fn is_simple_key(bytes: &[u8], at: usize, read: &ScalarRead) -> bool
    requires { IsReadInside bytes.now at read.now }
    ensures { result ≡ content.is_simple_key (lines_at bytes.now at) (read_of bytes.now read.now) }
{
    is_same_line(bytes, at, read.next) && is_short_key(bytes, at, read)
}

/// Whether a scalar on one line, read from an offset on, has at most 1,024 characters.
pub fn is_short_key(bytes: &[u8], at: usize, read: &ScalarRead) -> bool
    requires inside { IsReadInside bytes.now at read.now }
    requires line { content.same_line (lines_at bytes.now at) (lines_at bytes.now read.now.next)
        ≡ true }
    ensures { result ≡ content.is_short_key (lines_at bytes.now at) (read_of bytes.now read.now) }
{
    let end = read.scalar.span().end as usize;
    // no more characters than bytes
    end - at <= LONGEST_KEY || characters(bytes, at, end) <= LONGEST_KEY
}

/// The offset after the colon that separates a block mapping's key from its value, if one follows.
pub fn after_colon(bytes: &[u8], at: usize) -> Option<usize>
    requires { at ≤ length bytes.now }
    ensures { IsColon (after_colon_in_block (lines_at bytes.now at)) bytes.now at result }
{
    let solid = blanks_end(bytes, at);
    (begins(bytes, solid, b':') && is_blank_or_end(bytes, solid + 1)).then_some(solid + 1)
}

/// Whether a colon follows that separates a block mapping's key from its value.
pub fn has_colon(bytes: &[u8], at: usize) -> bool
    requires { at ≤ length bytes.now }
    ensures { result ≡ keys.has_colon (lines_at bytes.now at) }
{
    after_colon(bytes, at).is_some()
}

/// The offset after the colon that separates a flow mapping's key from its value, if one follows on
/// the line.
pub fn after_flow_colon(bytes: &[u8], at: usize, after_quote: bool) -> Option<usize>
    requires { at ≤ length bytes.now }
    ensures { IsColon (flow.after_colon_in_flow after_quote (lines_at bytes.now at)) bytes.now at
        result }
{
    // a colon right after a quoted key needs no blank after it
    if after_quote && begins(bytes, at, b':') {
        return Some(at + 1);
    }
    let solid = blanks_end(bytes, at);
    let is_colon = begins(bytes, solid, b':')
        && (is_blank_or_end(bytes, solid + 1) || begins_flow_indicator(bytes, solid + 1));
    is_colon.then_some(solid + 1)
}

/// Whether the next character in a flow mapping is a colon on a later line.
pub fn is_late_colon(bytes: &[u8], at: usize) -> bool
    requires { at ≤ length bytes.now }
    ensures { result ≡ flow.is_late_colon (lines_at bytes.now at) }
{
    let next = gap_end(bytes, at);
    begins(bytes, next, b':') && !is_same_line(bytes, at, next)
}

/// A key of a block mapping, and the offset after its colon.
#[derive(Drop)]
pub struct Key {
    pub read: ScalarRead,
    pub after: usize,
}

/// Reads a scalar as far as it tells whether a key begins here: a quoted one whole, a plain one on
/// its line.
fn key_scalar(file: &File, at: usize) -> Result<ScalarRead, ReadError>
    requires inside { at ≤ size file.now }
    ensures fault { IfErr result (IsStopInside (size file.now)) }
    ensures is { Answers (read_of file.now.bytes.now)
        (keys.key_scalar (left_at file.now at)) result }
    ensures inside { IfOk result (λ read. IsReadInside file.now.bytes.now at read) }
{
    let place = ScalarContext::BlockFromIndent(0);
    if is_quote(file.bytes, at) {
        return scalar_at(file.alloc, file.bytes, at, place);
    }
    let end = line_end(file.bytes, at);
    scalar_at(file.alloc, &file.bytes[..end], at, place)
}

/// The key that begins at an offset, if one does. It may still be too long or span several lines.
#[inline(always)]
pub fn key_at(file: &File, at: usize) -> Result<Option<Key>, ReadError>
    requires inside { at ≤ size file.now }
    ensures fault { IfErr result (IsStopInside (size file.now)) }
    ensures is { Answers (option_key file.now.bytes.now)
        (keys.key_here (left_at file.now at)) result }
    ensures inside { IfOk result (λ found. IsOptionKey file.now.bytes.now at found) }
{
    let read = key_scalar(file, at)?;
    Ok(after_colon(file.bytes, read.next).map(|after| Key { read, after }))
}

/// Whether the first character at an offset can begin a key.
fn is_key_start(bytes: &[u8], at: usize) -> bool
    requires { at ≤ length bytes.now }
    ensures { result ≡ keys.is_key_start (text_at bytes.now at) }
{
    !(is_skipped(bytes, at)
        || is_dash(bytes, at)
        || is_property(bytes, at)
        || is_block_start(bytes, at)
        || is_flow_start(bytes, at)
        || block_fault(bytes, at).is_some())
}

/// Whether the anchor or alias at an offset belongs to a key: the alias itself, or what follows the
/// anchor on its line.
pub fn is_on_key(file: &File, at: usize) -> Result<bool, AllocError>
    requires inside { at ≤ size file.now }
    requires property { content.is_property (text_at file.now.bytes.now at) ≡ true }
    ensures { IfOk result (λ b. b ≡ keys.is_on_key (left_at file.now at)) }
{
    let rest = property_end(file.bytes, at);
    if begins(file.bytes, at, b'*') {
        return Ok(has_colon(file.bytes, rest));
    }
    let solid = blanks_end(file.bytes, rest);
    if !is_key_start(file.bytes, solid) {
        return Ok(false);
    }
    match key_at(file, solid) {
        Ok(Some(key)) => Ok(is_same_line(file.bytes, solid, key.read.next)),
        Ok(None) | Err(ReadError::Fault(_)) => Ok(false),
        Err(ReadError::Memory) => Err(AllocError),
    }
}

/// The fault of an anchor or alias where an entry of an open mapping is expected.
pub fn property_fault(file: &File, at: usize) -> Result<YamlCode, AllocError>
    requires inside { at ≤ size file.now }
    requires property { content.is_property (text_at file.now.bytes.now at) ≡ true }
    ensures { IfOk result (λ code. code ≡ keys.property_fault (left_at file.now at)) }
{
    if !has_no_name(file.bytes, at) && is_on_key(file, at)? {
        return Ok(YamlCode::AnchorOrAlias);
    }
    Ok(YamlCode::UnexpectedCharacter)
}
