//! Faults, with their places.

use crate::codes::{push_code, push_message};
use crate::json::Json;
use crate::owners::{Owners, push_owner};
use al_text::limits::LARGEST_FILE;
use al_text::{Args, Fault, Location, location_of};
use std::alloc::{AllocError, Global};

/// A byte offset of a file with its line and column, both from 1, and the offset at which the line
/// begins.
#[derive(Clone, Copy)]
pub struct Spot {
    at: u32,
    line: u32,
    column: u32,
    line_start: u32,
}

/// The start of a file.
pub fn first_spot() -> Spot {
    Spot {
        at: 0,
        line: 1,
        column: 1,
        line_start: 0,
    }
}

// The location of an offset, or of the end, in some bytes.
fn location_in(bytes: &[u8], offset: u32) -> Location {
    if bytes.len() > LARGEST_FILE {
        return location_of(&[], 0);
    }
    location_of(bytes, offset.min(bytes.len() as u32))
}

/// The place of an offset, counted on from an earlier one of the same bytes. An offset past the end
/// counts as the end.
pub fn spot_after(bytes: &[u8], from: Spot, offset: u32) -> Spot {
    let start = from.at as usize;
    if start > bytes.len() {
        return from;
    }
    let found = location_in(&bytes[start..], offset.saturating_sub(from.at));
    let at = offset.max(from.at);
    if found.line == 1 {
        return Spot {
            at,
            column: from.column.saturating_add(found.column.saturating_sub(1)),
            ..from
        };
    }
    Spot {
        at,
        line: from.line.saturating_add(found.line.saturating_sub(1)),
        column: found.column,
        line_start: from.at.saturating_add(found.start),
    }
}

/// The bytes of the line on which a spot is, without its line break.
pub fn line_at(bytes: &[u8], spot: Spot) -> &[u8] {
    let start = (spot.line_start as usize).min(bytes.len());
    let rest = &bytes[start..];
    match rest.iter().position(|b| *b == b'\n' || *b == b'\r') {
        Some(end) => &rest[..end],
        None => rest,
    }
}

fn push_arguments(json: &mut Json, args: &Args) -> Result<(), AllocError> {
    json.list_at("arguments")?;
    if let Some(first) = args.first() {
        json.text(first)?;
    }
    if let Some(second) = args.second() {
        json.text(second)?;
    }
    json.close(']')
}

fn push_start(json: &mut Json, spot: Spot) -> Result<(), AllocError> {
    json.number_at("line", spot.line)?;
    json.number_at("column", spot.column)
}

fn push_end(json: &mut Json, spot: Spot) -> Result<(), AllocError> {
    json.number_at("end_line", spot.line)?;
    json.number_at("end_column", spot.column)
}

fn push_what(json: &mut Json, fault: &Fault) -> Result<(), AllocError> {
    push_code(json, fault.code)?;
    let args = fault.args.copy(json.alloc())?;
    push_message(json, fault.code, args)?;
    push_arguments(json, &fault.args)?;
    json.number_at("start", fault.span.start)?;
    json.number_at("end", fault.span.end)
}

/// Writes a fault without its line and column.
pub fn push_fault(json: &mut Json, fault: &Fault) -> Result<(), AllocError> {
    json.open('{')?;
    push_what(json, fault)?;
    json.close('}')
}

/// A file, and those of its faults that are written.
#[derive(Clone, Copy)]
pub struct FileFaults<'a> {
    /// The path of the file.
    pub path: &'a str,
    /// Its bytes.
    pub bytes: &'a [u8],
    /// The faults, in the order of reports.
    pub faults: &'a [&'a Fault],
    /// What the undefined properties among them are read from.
    pub owners: &'a Owners,
}

/// Writes the keys of a fault whose start is at a spot.
pub fn push_fault_keys(
    json: &mut Json,
    file: FileFaults<'_>,
    fault: &Fault,
    spot: Spot,
) -> Result<(), AllocError> {
    push_what(json, fault)?;
    push_owner(json, file.owners, fault)?;
    push_start(json, spot)?;
    push_end(json, spot_after(file.bytes, spot, fault.span.end))
}

/// Writes the key `faults` with a list of the faults of a file.
pub fn push_faults(json: &mut Json, file: FileFaults<'_>) -> Result<(), AllocError> {
    let mut spot = first_spot();
    json.list_at("faults")?;
    for fault in file.faults {
        spot = spot_after(file.bytes, spot, fault.span.start);
        json.open('{')?;
        push_fault_keys(json, file, *fault, spot)?;
        json.close('}')?;
    }
    json.close(']')
}

/// The faults of two lists in the order of reports, each once.
pub fn join_faults<'a>(
    alloc: Global,
    own: &'a [Fault],
    more: &'a [Fault],
) -> Result<Vec<&'a Fault>, AllocError> {
    let mut joined: Vec<&Fault> = own.iter().chain(more).collect(alloc)?;
    if !more.is_empty() {
        joined.sort_unstable();
        joined.dedup();
    }
    Ok(joined)
}
