//! What a report prints of a folder's files.

ghost use Rattle.std.specs.Prelude.{◌≡◌, ◌≤◌, not, length, ◌==◌};
ghost use Rattle.std.specs.List.{AllByRecursion, enumerate_from, flat_map, list_any};
ghost use Rattle.al_base.specs.Limits.{largest_file};
ghost use Rattle.al_base.specs.LineStarts.{line_starts};
ghost use Rattle.al_base.specs.Spans.{LiesIn};
ghost use Rattle.al_base.specs.Streams.{WritesOrFails};
ghost use Rattle.al_text.specs.Snippets.{text_in};
ghost use Rattle.al_session_folder.specs.Kept.{folder_of, referents};
ghost use Rattle.al_session_folder.specs.Printing.{AreListed, ArePrintable, IsPrintable};
ghost use Rattle.al_session_folder.specs.Printing.{joined_or_own};
ghost use Rattle.al_session.specs.Private.Printing.{lines_of, numbered_lines};

use al_base::{Fault, Lines, Output, Stop};
use al_lint::Lint;
use al_session_folder::{Files, KeptFile, file_number};
use al_text::{FaultPrinter, Format, PrintedFile, write_faults};
use std::io::Write;

/// Whether any file has a fault of its own, not of a call cycle. Doesn't allocate.
pub fn has_faults<U, I>(files: &Files<U, I>) -> bool
    ensures { result ≡ list_any (λ e. not (length e.1.faults.items == 0)) files.now.entries }
{
    files.iter().any(|(_, file)| !file.faults.is_empty())
}

/// Writes the faults that a report lists, file by file in order of path, each in this format. The
/// lists are those of [`join_files`](al_session_folder::join_files). Doesn't allocate.
///
/// # Errors
///
/// [`Stop::WriteFault`] if the writer fails; it then holds a prefix of the output. No other stop is
/// returned.
pub fn write_files<L: Lint, W: Write>(
    writer: &mut Output<W>,
    files: &Files<L::Unit, L::Iface>,
    joined: &[Vec<&Fault>],
    format: Format,
) -> Result<(), Stop>
    requires listed { AreListed L.meaning files.now.entries joined.now }
    requires printable { ArePrintable L.meaning files.now.entries }
    ensures { WritesOrFails W.contents writer.old writer.new result
        (flat_map (numbered_lines format L.meaning (folder_of files.now.entries))
        (enumerate_from 0 files.now.entries)) }
{
    for index in 0..files.len() {
        let (path, file) = file_number(files, index);
        let listing = Listing {
            path: path.as_str(),
            file,
            format,
        };
        write_file(writer, &listing, &joined[index])?;
    }
    Ok(())
}

// A file whose faults are listed, and the format of each.
#[derive(Drop)]
struct Listing<'a, U, I> {
    path: &'a str,
    file: &'a KeptFile<U, I>,
    format: Format,
}

// Writes the listed faults of one file: the joined ones, or its own if there are none.
fn write_file<U, I, W: Write>(
    writer: &mut Output<W>,
    listing: &Listing<'_, U, I>,
    joined: &[&Fault],
) -> Result<(), Stop>
    requires { IsPrintable listing.now.file.now (joined_or_own listing.now.file.now joined.now) }
    ensures { WritesOrFails W.contents writer.old writer.new result
        (lines_of listing.now.format listing.now.path.now listing.now.file.now
        (joined_or_own listing.now.file.now joined.now)) }
{
    let file = listing.file;
    let printed = PrintedFile {
        path: listing.path,
        bytes: &file.bytes,
        format: listing.format,
    };
    if !joined.is_empty() {
        return write_referred(writer, &printed, &file.lines, joined);
    }
    write_faults(writer, &printed, &file.lines, &file.faults)
}

// Writes faults of a file, given by reference, as `write_faults` does.
fn write_referred<'a, W: Write>(
    writer: &mut Output<W>,
    file: &PrintedFile<'a>,
    lines: &'a Lines,
    faults: &[&Fault],
) -> Result<(), Stop>
    requires made { lines.now ≡ line_starts file.now.bytes.now }
    requires within { AllByRecursion (λ fault. LiesIn (length file.now.bytes.now) fault.span)
        (referents faults.now) }
    requires small { length file.now.bytes.now ≤ largest_file }
    ensures { WritesOrFails W.contents writer.old writer.new result
        (flat_map (text_in file.now) (referents faults.now)) }
{
    let mut printer = FaultPrinter::new(file, lines);
    for fault in faults {
        printer.write_fault(writer, *fault)?;
    }
    Ok(())
}
