//! The program: answers questions from standard input, each by one line of JSON.
#![tactic(auto)]

mod answers;
mod calls;
mod commands;
mod developers;
mod linting;
mod run;

use al_check::Actions;
use al_cli::{Ending, SystemDisk, WaitingInput, WaitingOutput, say_why};
use al_session::Session;
use al_text::Stop;
use developers::{Reader, reader_named};
use linting::lint;
use run::answer_commands;
use std::io::{BufWriter, Read};
use std::process::ExitCode;
use std::{env, io, mem};

/// The exit status for invalid arguments.
const BAD_WORDS: u8 = 2;

/// The exit status of a run that could not go on.
const FATAL: u8 = 3;

/// The argument that asks for a report. Those of the linter follow.
const LINT: &str = "lint";

/// What the arguments ask for.
#[derive(Clone, Copy)]
enum Asked {
    /// Answers to the commands of standard input.
    Facts,
    /// A report of a folder.
    Report,
    /// What a reader makes of standard input.
    Reading(Reader),
    Help,
    Unknown,
}

fn main(rt: HostRuntime) -> ExitCode {
    match arguments_of(&rt) {
        Ok(arguments) => answer_arguments(&rt, &arguments),
        Err(error) => say_ending(&rt, &Ending::of_unreadable(error.kind())),
    }
}

fn arguments_of(rt: &HostRuntime) -> io::Result<Vec<String>> {
    Ok(env::args(rt)?.collect(rt.alloc())?)
}

// Runs the program with these arguments, the first of which is its name.
fn answer_arguments(rt: &HostRuntime, arguments: &[String]) -> ExitCode {
    match asked_by(arguments) {
        Asked::Facts => exit_code(rt, answer_input(rt)),
        Asked::Report => say_ending(rt, &lint_here(rt, arguments)),
        Asked::Reading(reader) => exit_code(rt, read_input(rt, reader)),
        Asked::Help => exit_code(rt, print_help(rt)),
        Asked::Unknown => say_usage(rt),
    }
}

fn asked_by(arguments: &[String]) -> Asked {
    match arguments {
        [] | [_] => Asked::Facts,
        [_, word, ..] if word.as_str() == LINT => Asked::Report,
        [_, word] => asked_by_word(word.as_str()),
        _ => Asked::Unknown,
    }
}

fn asked_by_word(word: &str) -> Asked {
    if word == "--help" {
        return Asked::Help;
    }
    match reader_named(word) {
        Some(reader) => Asked::Reading(reader),
        None => Asked::Unknown,
    }
}

// Answers the commands of standard input.
fn answer_input(rt: &HostRuntime) -> io::Result<()> {
    let mut writer = BufWriter::new(rt.alloc(), WaitingOutput::new(rt.stdout(), rt))?;
    let mut session = Session::open(rt.alloc(), Actions::new());
    let mut reader = WaitingInput::new(rt.stdin(), rt);
    let answered = answer_commands(rt.alloc(), &mut session, &mut reader, &mut writer);
    // The program ends, and the system frees all of its memory at once.
    mem::forget(session);
    answered
}

// Prints what a reader makes of standard input.
fn read_input(rt: &HostRuntime, reader: Reader) -> io::Result<()> {
    let mut bytes = Vec::new(rt.alloc());
    WaitingInput::new(rt.stdin(), rt).read_to_end(&mut bytes)?;
    let json = developers::read(rt.alloc(), reader, &bytes)?;
    let line = json.as_str();
    println!(rt; "{line}")
}

// Lints the folder that the arguments after `lint` ask for.
fn lint_here(rt: &HostRuntime, arguments: &[String]) -> Ending {
    let Ok(mut writer) = BufWriter::new(rt.alloc(), WaitingOutput::new(rt.stdout(), rt)) else {
        return Ending::Stopped(Stop::Memory);
    };
    lint(
        rt.alloc(),
        &arguments[arguments.len().min(2)..],
        &mut SystemDisk::new(rt),
        &mut writer,
        &mut rt.stderr(),
    )
}

// Says why a report ended, and gives its exit status.
fn say_ending(rt: &HostRuntime, ending: &Ending) -> ExitCode {
    // If standard error fails, nothing is left to do.
    let _ = say_why(&mut rt.stderr(), ending);
    ExitCode::from(ending.status())
}

// The exit status of a run.
fn exit_code(rt: &HostRuntime, answered: io::Result<()>) -> ExitCode {
    match answered {
        Ok(()) => ExitCode::SUCCESS,
        Err(error) => {
            let _ = eprintln!(rt; "actionlint-facts: {error}");
            ExitCode::from(FATAL)
        }
    }
}

const HELP: &str = "Answers questions about the workflows and actions of a folder.

Usage: actionlint-facts
       actionlint-facts lint [ARGUMENTS]
       actionlint-facts expr|chunks|scalar|yaml

Takes commands from standard input, and answers each by a line of JSON. The
command help lists them, and docs/FACTS.md describes the answers. With lint it
does what actionlint does with these arguments, and prints each fault as a line
of JSON. With the name of a reader it prints what that makes of standard input,
for tests.

Options:
      --help  Print help
";

fn print_help(rt: &HostRuntime) -> io::Result<()> {
    let text = HELP;
    print!(rt; "{text}")
}

fn say_usage(rt: &HostRuntime) -> ExitCode {
    let _ = eprintln!(rt;
        "actionlint-facts takes lint with arguments, or one argument: expr, chunks, scalar, yaml or --help"
    );
    ExitCode::from(BAD_WORDS)
}
