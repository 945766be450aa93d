//! A run of the program, from its arguments to how it ends, over any disk, input and output.

ghost use Rattle.std.specs.Prelude.{◌≡◌, [], IfErr, IfOk, OnOk, map};
ghost use Rattle.al_base.specs.Streams.{Writes, WritesOrFails, bytes_written};
ghost use Rattle.al_session.specs.Report.{report_of, status_of};
ghost use Rattle.al_check.specs.Linting.{linting};
ghost use Rattle.al_cli_scripts.specs.Replies as replies;
ghost use Rattle.al_cli_scripts.specs.Runs.{Runs};
ghost use Rattle.al_cli.specs.Linted.{ReportStops};
ghost use Rattle.al_cli.specs.Private.Endings.{FlushEnds, ReportEnds};
ghost use Rattle.al_cli.specs.Program.{FolderEnds, RunEnds, ScriptEnds, UsageEnds, WordsEnd};
ghost use Rattle.al_cli.specs.Program.{format_of, help_of};

use crate::disk::Disk;
use crate::ending::Ending;
use crate::gathering::{Gathered, Loaded, load};
use crate::linted::write_report;
use al_base::{Input, Output, Stop};
use al_check::Actions;
use al_cli_scripts::run_commands;
use al_cli_words::{Usage, Words, parse_words};
use al_session::{Seed, Session};
use al_text::Format;
use std::alloc::Global;
use std::convert::AsStr;
use std::io::{Read, Write};
use std::{io, mem};

/// Runs the program with these arguments, the first of which is its name: prints help, runs the
/// script that the reader gives, or writes the report of the files of a folder, and flushes the
/// writer. What is skipped is said to `errors`; [`say_why`](crate::say_why) says there why a run
/// ended.
///
/// The memory of a session is not given back, as the program ends.
pub fn run<S: AsStr, D: Disk, R: Read, W: Write, E: Write>(
    alloc: Global,
    arguments: &[S],
    disk: &mut D,
    reader: &mut Input<R>,
    writer: &mut Output<W>,
    errors: &mut E,
) -> Ending
    ensures { RunEnds (map S.text arguments.entry.now) (D.holds disk.old) R.remaining W.contents
        reader.old reader.new writer.old writer.new result }
{
    match parse_words(alloc, arguments) {
        Ok(words) => run_words(alloc, &words, disk, reader, writer, errors),
        Err(usage) => end_usage(writer, usage),
    }
}

// The run that words ask for.
fn run_words<D: Disk, R: Read, W: Write, E: Write>(
    alloc: Global,
    words: &Words<'_>,
    disk: &mut D,
    reader: &mut Input<R>,
    writer: &mut Output<W>,
    errors: &mut E,
) -> Ending
    ensures { WordsEnd words.now (D.holds disk.old) R.remaining W.contents
        reader.old reader.new writer.old writer.new result }
{
    if words.session {
        return answer_script(alloc, disk.seed(), reader, writer, format_in(words));
    }
    lint_folder(alloc, words, disk, writer, errors)
}

// The format that words ask for.
fn format_in(words: &Words<'_>) -> Format
    ensures { result ≡ format_of words.now }
{
    if words.oneline {
        return Format::Oneline;
    }
    Format::Snippet
}

// Prints help. Other usages are for standard error.
fn end_usage<W: Write>(writer: &mut Output<W>, usage: Usage) -> Ending
    ensures { UsageEnds usage (bytes_written W.contents writer.old)
        (bytes_written W.contents writer.new) result }
{
    match print(writer, help_in(&usage)) {
        Ok(()) => Ending::NoRun(usage),
        Err(stop) => Ending::Stopped(stop),
    }
}

fn help_in(usage: &Usage) -> &str
    ensures { result.now ≡ help_of usage.now }
{
    match usage {
        Usage::Help(text) => text.as_str(),
        Usage::Clap(_) => "",
        Usage::Session => "",
        Usage::Memory => "",
    }
}

// Writes a text, and flushes the writer.
fn print<W: Write>(writer: &mut Output<W>, text: &str) -> Result<(), Stop>
    ensures { WritesOrFails W.contents writer.old writer.new result text.now }
{
    writer.write_all(text.as_bytes())?;
    writer.flush()
}

fn answer_script<R: Read, W: Write>(
    alloc: Global,
    seed: Seed,
    reader: &mut Input<R>,
    writer: &mut Output<W>,
    format: Format,
) -> Ending
    ensures { ScriptEnds format R.remaining W.contents
        reader.old reader.new writer.old writer.new result }
{
    match run_script(alloc, seed, reader, writer, format) {
        Ok(status) => end_script(writer, status),
        Err(stop) => Ending::Stopped(stop),
    }
}

// Runs the script from the reader in a new session.
fn run_script<R: Read, W: Write>(
    alloc: Global,
    seed: Seed,
    reader: &mut Input<R>,
    writer: &mut Output<W>,
    format: Format,
) -> Result<u8, Stop>
    ensures { Runs (replies.session format) [] R.remaining W.contents reader.old reader.new
        writer.old writer.new result }
{
    let mut session = Session::open_seeded(alloc, Actions::new(), seed);
    let answer = run_commands(alloc, &mut session, reader, writer, format);
    // The program ends, and the system frees all of its memory at once.
    mem::forget(session);
    answer
}

// Flushes the output of a script that ended.
fn end_script<W: Write>(writer: &mut Output<W>, status: u8) -> Ending
    ensures { FlushEnds W.contents writer.old writer.new status result }
{
    match writer.flush() {
        Ok(()) => Ending::Answered(status),
        Err(stop) => Ending::Stopped(stop),
    }
}

fn lint_folder<D: Disk, W: Write, E: Write>(
    alloc: Global,
    words: &Words<'_>,
    disk: &mut D,
    writer: &mut Output<W>,
    errors: &mut E,
) -> Ending
    ensures { FolderEnds words.now (D.holds disk.old) (bytes_written W.contents writer.old)
        (bytes_written W.contents writer.new) result }
{
    match load(alloc, disk, words) {
        Ok(gathered) => report_gathered(gathered, writer, errors, format_in(words)),
        Err(unread) => Ending::Unread(unread),
    }
}

fn report_gathered<W: Write, E: Write>(
    gathered: Gathered,
    writer: &mut Output<W>,
    errors: &mut E,
    format: Format,
) -> Ending
    ensures { ReportEnds format gathered.files.folder (bytes_written W.contents writer.old)
        (bytes_written W.contents writer.new) result }
{
    // If standard error fails, nothing is left to do.
    let _ = say_skipped(errors, &gathered.outside);
    match report(gathered.files, writer, format) {
        Ok(status) => Ending::Reported(status),
        Err(stop) => Ending::Stopped(stop),
    }
}

/// Says which paths of [`Gathered::outside`](crate::Gathered) were skipped, one a line.
///
/// # Errors
///
/// That of the writer.
pub fn say_skipped<E: Write>(errors: &mut E, paths: &[String]) -> io::Result<()> {
    for path in paths {
        writeln!(
            errors,
            "actionlint: skipped {path}: symbolic link points outside the folder"
        )?;
    }
    Ok(())
}

// Checks the files, and writes their report.
fn report<W: Write>(files: Loaded, writer: &mut Output<W>, format: Format) -> Result<u8, Stop>
    ensures status { IfOk result (λ status. status ≡ status_of linting files.folder) }
    ensures report { OnOk result
        (Writes W.contents writer.old writer.new (report_of format linting files.folder)) }
    ensures stopped { IfErr result (ReportStops format files.folder
        (bytes_written W.contents writer.old) (bytes_written W.contents writer.new)) }
{
    let mut session = files.build()?;
    let answer = write_report(&mut session, writer, format);
    // The program ends, and the system frees all of its memory at once.
    mem::forget(session);
    answer
}
