//! A report in which each fault is a line of its own.

use crate::faults::{FileFaults, Spot, first_spot, line_at, push_fault_keys, spot_after};
use crate::json::Json;
use crate::lines::write_line;
use al_text::Fault;
use std::alloc::{AllocError, Global};
use std::io;
use std::io::Write;

/// What a line has of a fault.
#[derive(Clone, Copy, PartialEq, Eq)]
pub enum Detail {
    /// The fault alone.
    Fault,
    /// The fault, and the line of the file at which it starts.
    Source,
}

fn fault_object(
    alloc: Global,
    file: FileFaults<'_>,
    fault: &Fault,
    spot: Spot,
    detail: Detail,
) -> Result<Json, AllocError> {
    let mut json = Json::new(alloc);
    json.open('{')?;
    json.text_at("path", file.path)?;
    push_fault_keys(&mut json, file, fault, spot)?;
    if detail == Detail::Source {
        json.key("source")?;
        json.bytes(line_at(file.bytes, spot))?;
    }
    json.close('}')?;
    Ok(json)
}

/// Writes a line for each of the faults of a file.
///
/// # Errors
///
/// That of the writer, or out of memory. The lines of the faults before it are written.
pub fn write_fault_lines<W: Write>(
    alloc: Global,
    writer: &mut W,
    file: FileFaults<'_>,
    detail: Detail,
) -> io::Result<()> {
    let mut spot = first_spot();
    for fault in file.faults {
        spot = spot_after(file.bytes, spot, fault.span.start);
        let json = fault_object(alloc, file, *fault, spot, detail)?;
        write_line(writer, json.as_str())?;
    }
    Ok(())
}

/// Writes the last line of a report, which has its status.
///
/// # Errors
///
/// That of the writer, or out of memory.
pub fn write_status<W: Write>(alloc: Global, writer: &mut W, status: u8) -> io::Result<()> {
    let mut json = Json::new(alloc);
    json.open('{')?;
    json.number_at("status", u32::from(status))?;
    json.close('}')?;
    write_line(writer, json.as_str())
}
