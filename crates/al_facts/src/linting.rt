//! A run of the linter over a folder of the disk, whose report has a line of JSON for each fault.

use al_check::Actions;
use al_cli::{Disk, Ending, Gathered, Usage, Words, load, parse_words, say_skipped};
use al_facts_trees::property_owners;
use al_json::{Detail, FileFaults, join_faults, write_fault_lines, write_status};
use al_session::Session;
use al_text::{Fault, Stop};
use std::alloc::{AllocError, Global};
use std::io::{ErrorKind, Write};
use std::{io, mem};

/// The name of the program in what is said about wrong arguments.
const NAME: &str = "actionlint-facts lint";

/// What is wrong with arguments that ask for a session.
const NO_SESSION: &str = "actionlint-facts: lint takes no --session\n";

const HELP: &str = "Lints as actionlint does, and prints each fault as a line of JSON, and then the
status.

Usage: actionlint-facts lint [--oneline] [--root DIR] [FILE]...

The arguments, the exit status and what standard error says are those of
actionlint: see actionlint --help. With --oneline a line doesn't have the source
line of its fault. docs/FACTS.md describes the lines.
";

/// Lints as the linter does with these arguments, and writes a line for each fault and then one
/// with the status. It ends as the linter does, and says the same to `errors`. The memory of the
/// session is not given back, as the program ends.
pub fn lint<D: Disk, W: Write, E: Write>(
    alloc: Global,
    arguments: &[String],
    disk: &mut D,
    writer: &mut W,
    errors: &mut E,
) -> Ending {
    let Ok(command_line) = with_name(alloc, arguments) else {
        return Ending::Stopped(Stop::Memory);
    };
    match parse_words(alloc, command_line.as_slice()) {
        Ok(words) if words.session => Ending::NoRun(no_session(alloc)),
        Ok(words) => lint_folder(alloc, &words, disk, writer, errors),
        Err(usage) => end_usage(writer, usage),
    }
}

// The name of the program, and these arguments.
fn with_name(alloc: Global, arguments: &[String]) -> Result<Vec<&str>, AllocError> {
    let mut words = Vec::new(alloc);
    words.push(NAME)?;
    for argument in arguments {
        words.push(argument.as_str())?;
    }
    Ok(words)
}

fn no_session(alloc: Global) -> Usage {
    match String::from_str(alloc, NO_SESSION) {
        Ok(text) => Usage::Clap(text),
        Err(_) => Usage::Memory,
    }
}

// Prints help: not the linter's, which is of another program. Other usages are for standard error.
fn end_usage<W: Write>(writer: &mut W, usage: Usage) -> Ending {
    let printed = match &usage {
        Usage::Help(_) => write_text(writer, HELP),
        _ => Ok(()),
    };
    match printed {
        Ok(()) => Ending::NoRun(usage),
        Err(error) => Ending::Stopped(stop_of(&error)),
    }
}

fn write_text<W: Write>(writer: &mut W, text: &str) -> io::Result<()> {
    writer.write_all(text.as_bytes())?;
    writer.flush()
}

fn stop_of(error: &io::Error) -> Stop {
    match error.kind() {
        ErrorKind::OutOfMemory => Stop::Memory,
        _ => Stop::WriteFault,
    }
}

fn lint_folder<D: Disk, W: Write, E: Write>(
    alloc: Global,
    words: &Words<'_>,
    disk: &mut D,
    writer: &mut W,
    errors: &mut E,
) -> Ending {
    match load(alloc, disk, words) {
        Ok(gathered) => end_report(alloc, gathered, writer, errors, detail_of(words)),
        Err(unread) => Ending::Unread(unread),
    }
}

fn detail_of(words: &Words<'_>) -> Detail {
    if words.oneline {
        return Detail::Fault;
    }
    Detail::Source
}

fn end_report<W: Write, E: Write>(
    alloc: Global,
    gathered: Gathered,
    writer: &mut W,
    errors: &mut E,
    detail: Detail,
) -> Ending {
    // If standard error fails, nothing is left to do.
    let _ = say_skipped(errors, &gathered.outside);
    let Ok(mut session) = gathered.files.build() else {
        return Ending::Stopped(Stop::Memory);
    };
    let written = write_report(alloc, &mut session, writer, detail);
    // The program ends, and the system frees all of its memory at once.
    mem::forget(session);
    match written {
        Ok(status) => Ending::Reported(status),
        Err(error) => Ending::Stopped(stop_of(&error)),
    }
}

fn write_report<W: Write>(
    alloc: Global,
    session: &mut Session<Actions>,
    writer: &mut W,
    detail: Detail,
) -> io::Result<u8> {
    let status = session.status()?;
    let cycles = session.call_cycle_faults()?;
    write_files(alloc, session, cycles.as_slice(), writer, detail)?;
    write_status(alloc, writer, status)?;
    writer.flush()?;
    Ok(status)
}

// Writes the faults of the files in order of path. The lists of faults of call cycles are in the
// same order.
fn write_files<W: Write>(
    alloc: Global,
    session: &Session<Actions>,
    cycles: &[Vec<Fault>],
    writer: &mut W,
    detail: Detail,
) -> io::Result<()> {
    for (number, found) in cycles.iter().enumerate() {
        let Some(file) = file_at(session, number) else {
            return Err(io::Error::from(ErrorKind::NotFound));
        };
        write_file(alloc, file, found.as_slice(), writer, detail)?;
    }
    Ok(())
}

/// A file of the folder, and the faults of its own.
#[derive(Clone, Copy)]
struct File<'a> {
    path: &'a str,
    bytes: &'a [u8],
    own: &'a [Fault],
}

// The file with this number, in order of path.
fn file_at(session: &Session<Actions>, number: usize) -> Option<File<'_>> {
    let path = session.path_at(number)?;
    Some(File {
        path,
        bytes: session.bytes(path)?,
        own: session.faults(path)?,
    })
}

// Writes the faults of a file, those of its calls on a call cycle included.
fn write_file<W: Write>(
    alloc: Global,
    file: File<'_>,
    cycles: &[Fault],
    writer: &mut W,
    detail: Detail,
) -> io::Result<()> {
    let File { path, bytes, own } = file;
    let joined = join_faults(alloc, own, cycles)?;
    let faults = joined.as_slice();
    let owners = &property_owners(alloc, path, bytes, faults)?;
    let written = FileFaults {
        path,
        bytes,
        faults,
        owners,
    };
    write_fault_lines(alloc, writer, written, detail)
}
