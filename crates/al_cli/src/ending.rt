//! How a run of the program ends: its exit status, and what it says on standard error.

ghost use Rattle.std.specs.Prelude.{◌≡◌, ◌≢◌};
ghost use Rattle.al_base.specs.declared.stops.Stop.TheVariants.{Memory};
ghost use Rattle.al_cli.specs.Ending.{exit_status, usage_status};
ghost use Rattle.al_cli.specs.declared.ending.Ending.TheVariants.{NotText, Stopped};

use crate::gathering::Unread;
use al_base::Stop;
use al_cli_scripts::number_of;
use al_cli_words::Usage;
use std::io;
use std::io::{ErrorKind, Write};

/// How a run ended.
#[derive(Drop)]
pub enum Ending {
    /// The report of a folder was written. Its status is 0 if no file has a fault, otherwise 1.
    Reported(u8),
    /// A script was answered. Its status is that of the folder that it leaves, or 2 for a bad
    /// command.
    Answered(u8),
    /// An argument isn't UTF-8.
    NotText,
    /// The arguments ask for help, or for nothing that there is.
    NoRun(Usage),
    /// A file can't be read, or is refused.
    Unread(Unread),
    /// Reading or writing failed, or memory ran out.
    Stopped(Stop),
}

impl Ending {
    /// How a run ends whose arguments can't be read.
    pub fn of_unreadable(kind: ErrorKind) -> Ending
        ensures memory { kind ≡ ErrorKind.OutOfMemory → result ≡ Stopped Memory }
        ensures other { kind ≢ ErrorKind.OutOfMemory → result ≡ NotText }
    {
        match kind {
            ErrorKind::OutOfMemory => Ending::Stopped(Stop::Memory),
            _ => Ending::NotText,
        }
    }

    /// The exit status.
    pub fn status(&self) -> u8
        ensures { result ≡ exit_status self.now }
    {
        match self {
            Ending::Reported(status) => *status,
            Ending::Answered(status) => *status,
            Ending::NotText => 2,
            Ending::NoRun(usage) => status_of_usage(usage),
            Ending::Unread(_) => 3,
            Ending::Stopped(_) => 3,
        }
    }
}

fn status_of_usage(usage: &Usage) -> u8
    ensures { result ≡ usage_status usage.now }
{
    match usage {
        Usage::Help(_) => 0,
        Usage::Clap(_) => 2,
        Usage::Session => 2,
        Usage::Memory => 3,
    }
}

/// Says why a run ended, unless it ended with a report, the answers to a script, or help.
///
/// # Errors
///
/// That of the writer.
pub fn say_why<E: Write>(errors: &mut E, ending: &Ending) -> io::Result<()> {
    match ending {
        Ending::Reported(_) | Ending::Answered(_) => Ok(()),
        Ending::NotText => writeln!(errors, "actionlint: arguments are not valid UTF-8"),
        Ending::NoRun(usage) => say_usage(errors, usage),
        Ending::Unread(unread) => say_unread(errors, unread),
        Ending::Stopped(stop) => writeln!(errors, "actionlint: {stop}"),
    }
}

fn say_usage<E: Write>(errors: &mut E, usage: &Usage) -> io::Result<()> {
    match usage {
        Usage::Help(_) => Ok(()),
        Usage::Clap(text) => errors.write_all(text.as_bytes()),
        Usage::Session | Usage::Memory => writeln!(errors, "actionlint: {usage}"),
    }
}

fn say_unread<E: Write>(errors: &mut E, unread: &Unread) -> io::Result<()> {
    match unread {
        Unread::Refused(path, refused) => {
            let number = number_of(*refused);
            writeln!(errors, "actionlint: {path}: refused E{number}")
        }
        Unread::Unreadable(_) | Unread::Memory => writeln!(errors, "actionlint: {unread}"),
    }
}
