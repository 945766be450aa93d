//! A script run over a session: commands read, replies and reports written.

ghost use Rattle.std.specs.Prelude.{Err, None, max, ◌≡◌, ◌≢◌, [], ◌++◌, ◌⊎◌, length};
ghost use Rattle.std.specs.Prelude.{codes, IfOk, OnOk, OnErr, IfErr, IsErrOf, decimal};
ghost use Rattle.al_base.specs.Counted.{count_after};
ghost use Rattle.al_base.specs.Streams.{bytes_left, turns_of, read_failures, largest_ask};
ghost use Rattle.al_base.specs.Streams.{bytes_written, write_failures};
ghost use Rattle.al_base.specs.Streams.{Writes, WritesOrFails, WritesPrefix};
ghost use Rattle.al_cli_scripts.specs.Private.Next.{meaning};
ghost use Rattle.al_cli_scripts.specs.Script.{IsPending};
ghost use Rattle.al_cli_scripts.specs.Runs.{CountsFailures, LeavesFolder, Runs, Turns, run_state};
ghost use Rattle.al_cli_scripts.specs.Replies as replies;
ghost use Rattle.al_session.specs.declared.lint.Refused.TheVariants as refused;
ghost use Rattle.al_cli_scripts.specs.Private.Answered.{Progresses, IsStuck};
ghost use Rattle.al_base.specs.declared.stops.Stop.TheVariants.{ReadFault, WriteFault, Memory};
ghost use Rattle.al_base.specs.declared.stops.Stop.TheVariants.{TooManyTurns};
ghost use Rattle.al_base.specs.Limits.{largest_read};

use super::commands::{Command, NextCommand, next_command};
use al_base::limits::{LARGEST_READ, MOST_READS};
use al_base::{Input, Output, Stop};
use al_check::Actions;
use al_session::{Edit, Refused, Session};
use al_text::Format;
use itoa::Buffer;
use std::alloc::{AllocError, Global};
use std::io::{Read, Write};

/// What is left of the unread bytes once each whole command is answered.
#[derive(Clone, Copy)]
pub(crate) enum Progress {
    /// This many bytes were commands; the rest is the beginning of one, or empty.
    Waits(usize),
    /// The rest isn't a command, and the error was reported.
    Bad,
}

/// Runs the script that the reader gives in a new session, whose folder is empty, as
/// [`run_commands`] does.
///
/// # Errors
///
/// Those of [`run_commands`].
pub fn run_session<R: Read, W: Write>(
    alloc: Global,
    reader: &mut Input<R>,
    writer: &mut Output<W>,
    format: Format,
) -> Result<u8, Stop>
    ensures runs { Runs (replies.session format) [] R.remaining W.contents reader.old reader.new
        writer.old writer.new result }
{
    let mut session = Session::open(alloc, Actions::new());
    run_commands(alloc, &mut session, reader, writer, format)
}

/// Runs the script that the reader gives over a session, which then has the folder that its
/// commands leave, with faults in this format. Returns the session's status if the input ends with
/// no command begun, and otherwise 2, for a bad command.
///
/// Each read is for 65,536 bytes. None follows the one at which the input ends or a command turns
/// out to be bad.
///
/// # Errors
///
/// - [`Stop::ReadFault`] if a read failed, and [`Stop::TooManyTurns`] if the script didn't end
///   within 1,048,576 reads. The writer has the replies to all whole commands read so far, and what
///   was read after these isn't a bad command.
/// - [`Stop::WriteFault`] if a write or a flush failed, and [`Stop::Memory`] if memory ran out. The
///   writer has a prefix of the output of the whole script.
///
/// After an error the session has carried out the script up to some command; which one isn't
/// promised.
pub fn run_commands<R: Read, W: Write>(
    alloc: Global,
    session: &mut Session<Actions>,
    reader: &mut Input<R>,
    writer: &mut Output<W>,
    format: Format,
) -> Result<u8, Stop>
    ensures runs { Runs (replies.session format) session.old.folder R.remaining W.contents
        reader.old reader.new writer.old writer.new result }
    ensures folder { OnOk result (LeavesFolder (replies.session format) session.old.folder []
        (bytes_left R.remaining reader.old) session.new.folder) }
{
    let mut run = Run::new(alloc, format)?;
    for _turn in 0..MOST_READS {
        match run.take_turn(session, reader, writer)? {
            Some(answer) => return Ok(answer),
            None => {}
        }
    }
    Err(Stop::TooManyTurns)
}

// A run of a script.
#[derive(Drop)]
struct Run {
    format: Format,
    // The bytes after the last whole command.
    waiting: Vec<u8>,
    // Room for one read.
    piece: Vec<u8>,
}

impl Run {
    // A run that hasn't read anything. The clauses leave the zeros out: a tactic that sees
    // `replicate 65536 0` computes it.
    fn new(alloc: Global, format: Format) -> Result<Run, AllocError>
        ensures format { IfOk result (λ run. run.format ≡ format) }
        ensures waiting { IfOk result (λ run. run.waiting.items ≡ []) }
        ensures room { IfOk result (λ run. length run.piece.items ≡ largest_read) }
    {
        Ok(Run {
            format,
            waiting: Vec::new(alloc),
            piece: vec![in alloc; 0u8; LARGEST_READ]?,
        })
    }

    // Makes one read, and answers the commands in it. `Some` is the result of a run that has ended.
    fn take_turn<R: Read, W: Write>(
        &mut self,
        session: &mut Session<Actions>,
        reader: &mut Input<R>,
        writer: &mut Output<W>,
    ) -> Result<Option<u8>, Stop>
        requires room { length self.old.piece.items ≡ largest_read }
        requires pending { IsPending self.old.waiting.items }
        ensures turn { Turns (replies.session self.old.format)
            (run_state session.old.folder self.old.waiting.items
            (bytes_left R.remaining reader.old) (bytes_written W.contents writer.old))
            (run_state session.new.folder self.new.waiting.items
            (bytes_left R.remaining reader.new) (bytes_written W.contents writer.new))
            result }
        ensures format { self.new.format ≡ self.old.format }
        ensures room { length self.new.piece.items ≡ largest_read }
        ensures turns { turns_of reader.new ≡ count_after (turns_of reader.old) 1 }
        ensures asked { largest_ask reader.new ≡ max (largest_ask reader.old) largest_read }
        ensures read_failures { CountsFailures result Stop.ReadFault (read_failures reader.old)
            (read_failures reader.new) }
        ensures write_failures { CountsFailures result Stop.WriteFault
            (write_failures writer.old) (write_failures writer.new) }
    {
        let count = reader.read(&mut self.piece)?;
        if count == 0 {
            if self.waiting.is_empty() {
                return Ok(Some(session.status()?));
            }
            writer.write_all(b"bad command\n")?;
            return Ok(Some(2));
        }
        self.waiting.extend_from_slice(&self.piece[..count])?;
        match answer_all(session, &self.waiting, writer, self.format)? {
            Progress::Bad => Ok(Some(2)),
            Progress::Waits(done) => {
                self.waiting.drain(..done);
                writer.flush()?;
                Ok(None)
            }
        }
    }
}

// Answers each whole command at the beginning of the bytes, and a bad one.
fn answer_all<W: Write>(
    session: &mut Session<Actions>,
    waiting: &[u8],
    writer: &mut Output<W>,
    format: Format,
) -> Result<Progress, Stop>
    ensures ok { IfOk result
        (λ progress. Progresses
        (replies.session format) session.old.folder session.new.folder waiting.now progress
        (bytes_written W.contents writer.old) (bytes_written W.contents writer.new)) }
    ensures err { OnErr result (IsStuck (replies.session format) session.old.folder waiting.now
        (bytes_written W.contents writer.old) (bytes_written W.contents writer.new)) }
    ensures failures { CountsFailures result Stop.WriteFault
        (write_failures writer.old) (write_failures writer.new) }
    ensures only { IfErr result (λ e. (e ≡ WriteFault) ⊎ (e ≡ Memory)) }
{
    let mut done = 0;
    while done < waiting.len() {
        match next_command(&waiting[done..]) {
            NextCommand::Whole(command, count) => {
                answer(session, command, writer, format)?;
                done += count;
            }
            NextCommand::Pending => return Ok(Progress::Waits(done)),
            NextCommand::Wrong => {
                writer.write_all(b"bad command\n")?;
                return Ok(Progress::Bad);
            }
        }
    }
    Ok(Progress::Waits(done))
}

// Answers one command.
fn answer<W: Write>(
    session: &mut Session<Actions>,
    command: Command<'_>,
    writer: &mut Output<W>,
    format: Format,
) -> Result<(), Stop>
    ensures after { OnOk result
        (session.new.folder ≡ replies.after_command session.old.folder (meaning command.entry)) }
    ensures ok { OnOk result
        (Writes W.contents writer.old writer.new
        (replies.reply_to format session.old.folder (meaning command.entry))) }
    ensures err { OnErr result
        (WritesPrefix W.contents writer.old writer.new
        (replies.reply_to format session.old.folder (meaning command.entry))) }
    ensures failures { CountsFailures result Stop.WriteFault
        (write_failures writer.old) (write_failures writer.new) }
    ensures only { IfErr result (λ e. (e ≡ WriteFault) ⊎ (e ≡ Memory)) }
    ensures memory { IsErrOf result Stop.Memory
        → replies.refusal_of session.old.folder (meaning command.entry) ≡ None }
{
    match command {
        Command::Put(path, bytes) => reply_to_edit(writer, session.put(path, bytes)),
        Command::Delete(path) => reply_to_edit(writer, session.delete(path)),
        Command::Report => {
            session.report(writer, format)?;
            let status = session.status()?;
            write_number(writer, b"status ", u64::from(status))
        }
    }
}

// Writes the reply to an edit. If memory ran out, writes none and ends the run.
fn reply_to_edit<W: Write>(writer: &mut Output<W>, reply: Result<Edit, Refused>) -> Result<(), Stop>
    ensures ok { OnOk result ((reply ≢ Err refused.Memory)
        × Writes W.contents writer.old writer.new
        (replies.reply_bytes reply)) }
    ensures err { IfErr result
        (replies.ReplyStops reply (bytes_written W.contents writer.old)
        (bytes_written W.contents writer.new)) }
    ensures failures { CountsFailures result Stop.WriteFault
        (write_failures writer.old) (write_failures writer.new) }
{
    match reply {
        Ok(edit) => write_number(writer, b"ok ", edit.rechecked.as_slice().len() as u64),
        Err(Refused::Memory) => Err(Stop::Memory),
        Err(refused) => write_number(writer, b"refused E", number_of(refused)),
    }
}

/// The number of a refusal: 1 to 6, for E1 to E6.
pub fn number_of(refused: Refused) -> u64
    ensures { result ≡ replies.refusal_number refused }
{
    match refused {
        Refused::BadPath => 1,
        Refused::NotAccepted => 2,
        Refused::TooLarge => 3,
        Refused::Full => 4,
        Refused::NoSuchFile => 5,
        Refused::Memory => 6,
    }
}

// Writes a line with a word and a number.
fn write_number<W: Write>(writer: &mut Output<W>, word: &[u8], number: u64) -> Result<(), Stop>
    ensures { WritesOrFails W.contents writer.old writer.new result
        (word.now ++ decimal number ++ codes "\n") }
{
    let mut digits = Buffer::new();
    writer.write_all(word)?;
    writer.write_all(digits.format(number).as_bytes())?;
    writer.write_all(b"\n")
}
