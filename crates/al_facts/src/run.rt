//! Commands read, and their answers written, each as one line.

ghost use Rattle.std.specs.Prelude.{OnOk};
ghost use Rattle.al_json.specs.Lines.{HasOneMoreLine};

use crate::answers::{answer, wrong_answer};
use crate::commands::{Command, Next, Wrong, next_command};
use al_check::Actions;
use al_json::{Json, send};
use al_session::Session;
use al_text::limits::LARGEST_READ;
use std::alloc::{AllocError, Global};
use std::io;
use std::io::{Read, Write};

/// The line in place of an answer for which memory ran out.
const NO_MEMORY: &str = "{\"error\":\"out of memory\"}";

// An answer, or the line in its place.
fn line_of(answer: &Result<Json, AllocError>) -> &str {
    match answer {
        Ok(json) => json.as_str(),
        Err(_) => NO_MEMORY,
    }
}

/// Answers a command by one line, unless the writer fails.
fn reply<W: Write>(
    alloc: Global,
    session: &mut Session<Actions>,
    writer: &mut W,
    command: Command<'_>,
) -> io::Result<()>
    ensures { OnOk result (HasOneMoreLine (W.contents writer.old) (W.contents writer.new)) }
{
    let answered = answer(alloc, session, command);
    send(writer, line_of(&answered))
}

/// Answers what isn't a command by one line, unless the writer fails.
fn reply_wrong<W: Write>(alloc: Global, writer: &mut W, wrong: Wrong) -> io::Result<()>
    ensures { OnOk result (HasOneMoreLine (W.contents writer.old) (W.contents writer.new)) }
{
    let answered = wrong_answer(alloc, wrong);
    send(writer, line_of(&answered))
}

/// The bytes that wait for the rest of a command.
#[derive(Drop)]
struct Feed {
    waiting: Vec<u8>,
    // Room for one read.
    piece: Vec<u8>,
    // Whether the rest of a line is skipped, up to its line feed.
    skips: bool,
}

// A step: how many waiting bytes were read, and whether the rest of a line is then skipped.
#[derive(Clone, Copy)]
struct Step {
    done: usize,
    skips: bool,
    // Whether the bytes may be the beginning of a command.
    waits: bool,
}

fn step_by(done: usize, skips: bool) -> Step {
    Step {
        done,
        skips,
        waits: false,
    }
}

// Skips the rest of a line.
fn skip_line(bytes: &[u8]) -> Step {
    match bytes.iter().position(|b| *b == b'\n') {
        Some(end) => step_by(end.saturating_add(1), false),
        None => step_by(bytes.len(), true),
    }
}

// Whether the rest of the line after what isn't a command is skipped.
fn cuts_line(wrong: Wrong) -> bool {
    matches!(wrong, Wrong::LongLine | Wrong::NoLineFeed)
}

// Answers what the bytes begin with, if it is whole.
fn take_step<W: Write>(
    alloc: Global,
    session: &mut Session<Actions>,
    writer: &mut W,
    bytes: &[u8],
    skips: bool,
) -> io::Result<Step> {
    if skips {
        return Ok(skip_line(bytes));
    }
    match next_command(bytes) {
        Next::Whole(command, count) => {
            reply(alloc, session, writer, command)?;
            Ok(step_by(count, false))
        }
        Next::Wrong(wrong, count) => {
            reply_wrong(alloc, writer, wrong)?;
            Ok(step_by(count, cuts_line(wrong)))
        }
        Next::Pending => Ok(Step {
            done: 0,
            skips: false,
            waits: true,
        }),
    }
}

// Answers each whole command at the beginning of the bytes.
fn answer_all<W: Write>(
    alloc: Global,
    session: &mut Session<Actions>,
    writer: &mut W,
    bytes: &[u8],
    skips: bool,
) -> io::Result<Step> {
    let mut taken = step_by(0, skips);
    // Each step takes at least one byte.
    for _step in 0..bytes.len() {
        if taken.done >= bytes.len() || taken.waits {
            return Ok(taken);
        }
        let next = take_step(alloc, session, writer, &bytes[taken.done..], taken.skips)?;
        taken = Step {
            done: taken.done.saturating_add(next.done),
            skips: next.skips,
            waits: next.waits,
        };
    }
    Ok(taken)
}

// Answers what is left at the end of the input: nothing, or a command that is cut.
fn end_input<W: Write>(alloc: Global, writer: &mut W, feed: &Feed) -> io::Result<()> {
    if feed.waiting.is_empty() {
        return Ok(());
    }
    reply_wrong(alloc, writer, Wrong::Cut)
}

// Makes one read, and answers the commands in it. Returns whether the input goes on.
fn take_turn<R: Read, W: Write>(
    alloc: Global,
    session: &mut Session<Actions>,
    reader: &mut R,
    writer: &mut W,
    feed: &mut Feed,
) -> io::Result<bool> {
    let count = reader.read(&mut feed.piece)?;
    if count == 0 || count > feed.piece.len() {
        end_input(alloc, writer, feed)?;
        return Ok(false);
    }
    feed.waiting.extend_from_slice(&feed.piece[..count])?;
    let taken = answer_all(alloc, session, writer, &feed.waiting, feed.skips)?;
    let done = taken.done.min(feed.waiting.len());
    feed.waiting.drain(..done);
    feed.skips = taken.skips;
    Ok(true)
}

// Room for one read. It has no clauses, so that no proof computes the zeros.
fn read_room(alloc: Global) -> Result<Vec<u8>, AllocError> {
    Ok(vec![in alloc; 0u8; LARGEST_READ]?)
}

/// Answers the commands of the reader over a session until the input ends.
///
/// # Errors
///
/// That of a read or a write that failed, and out of memory if a command could not be read.
pub fn answer_commands<R: Read, W: Write>(
    alloc: Global,
    session: &mut Session<Actions>,
    reader: &mut R,
    writer: &mut W,
) -> io::Result<()> {
    let mut feed = Feed {
        waiting: Vec::new(alloc),
        piece: read_room(alloc)?,
        skips: false,
    };
    for _turn in 0..u64::MAX {
        if !take_turn(alloc, session, reader, writer, &mut feed)? {
            return Ok(());
        }
    }
    Ok(())
}
