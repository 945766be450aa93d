//! Printing the faults of a file one after another.
ghost use Rattle.std.specs.Prelude.{◌≡◌, ◌≤◌, length};
ghost use Rattle.std.specs.List.{AllByRecursion, flat_map};
ghost use Rattle.al_base.specs.Limits.{largest_file};
ghost use Rattle.al_base.specs.LineStarts.{line_starts};
ghost use Rattle.al_base.specs.Positions.{line_at, column_at, BeginsLine};
ghost use Rattle.al_base.specs.Spans.{LiesIn};
ghost use Rattle.al_base.specs.Streams.{WritesOrFails};
ghost use Rattle.al_text.specs.Snippets.{text_in};

use crate::printing::{PrintedFile, write_fault_at};
use al_base::{Fault, Lines, Location, Output, Stop};
use std::io::Write;

/// Prints faults of a file by its table of line starts, so that finding a position needs no walk
/// from the start of the file.
///
/// If the faults are in report order, the columns of all faults on one line are counted in a single
/// walk over that line.
#[derive(Drop)]
pub struct FaultPrinter<'a> {
    file: PrintedFile<'a>,
    lines: &'a Lines,
    // An offset, which is the start of the fault before, and its location.
    at: u32,
    location: Location,
    ghost small: { length file.bytes.now ≤ largest_file },
    ghost made: { lines.now ≡ line_starts file.bytes.now },
    ghost line: { location.line ≡ line_at file.bytes.now at },
    ghost column: { location.column ≡ column_at file.bytes.now at },
    ghost start: { BeginsLine file.bytes.now at location.start },
}

impl<'a> FaultPrinter<'a> {
    /// A printer that has written nothing. Doesn't allocate.
    ///
    /// # Requires
    ///
    /// The file has at most 1,048,576 bytes, and the table of line starts was made from them.
    pub fn new(file: &PrintedFile<'a>, lines: &'a Lines) -> Self
        requires made { lines.now ≡ line_starts file.now.bytes.now }
        requires small { length file.now.bytes.now ≤ largest_file }
        ensures { result.file ≡ file.now }
    {
        FaultPrinter {
            file: *file,
            lines,
            at: 0,
            location: Location {
                line: 1,
                column: 1,
                start: 0,
            },
        }
    }

    /// Writes a fault of the file as [`write_fault`](crate::write_fault) does. Doesn't allocate.
    ///
    /// # Requires
    ///
    /// The span of the fault lies in the file.
    ///
    /// # Errors
    ///
    /// [`Stop::WriteFault`] if the writer fails; it then holds a prefix of the text.
    pub fn write_fault<W: Write>(
        &mut self,
        writer: &mut Output<W>,
        fault: &Fault,
    ) -> Result<(), Stop>
        requires within { LiesIn (length self.old.file.bytes.now) fault.now.span }
        ensures written { WritesOrFails W.contents writer.old writer.new result
            (text_in self.old.file fault.now) }
        ensures file { self.new.file ≡ self.old.file }
    {
        let start = fault.span.start;
        let location = self
            .lines
            .location_after(self.file.bytes, self.at, self.location, start);
        self.at = start;
        self.location = location;
        write_fault_at(writer, &self.file, fault, location)
    }
}

/// Writes faults of this file one after another, each as [`write_fault`](crate::write_fault) does.
///
/// If the faults are in report order, the columns of all faults on one line are counted in a single
/// walk over that line. Doesn't allocate.
///
/// # Requires
///
/// The file has at most 1,048,576 bytes; the table of line starts was made from them, and the span
/// of each fault lies in it.
///
/// # Errors
///
/// [`Stop::WriteFault`] if the writer fails; it then holds a prefix of the text.
pub fn write_faults<'a, W: Write>(
    writer: &mut Output<W>,
    file: &PrintedFile<'a>,
    lines: &'a Lines,
    faults: &[Fault],
) -> Result<(), Stop>
    requires made { lines.now ≡ line_starts file.now.bytes.now }
    requires within { AllByRecursion (λ fault. LiesIn (length file.now.bytes.now) fault.span)
        faults.now }
    requires small { length file.now.bytes.now ≤ largest_file }
    ensures { WritesOrFails W.contents writer.old writer.new result
        (flat_map (text_in file.now) faults.now) }
{
    let mut printer = FaultPrinter::new(file, lines);
    for fault in faults {
        printer.write_fault(writer, fault)?;
    }
    Ok(())
}
