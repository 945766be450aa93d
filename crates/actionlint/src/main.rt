//! The program: runs the linter over the system's disk and streams.
#![tactic(auto)]

use al_base::{Input, Output, Stop};
use al_cli::{Ending, SystemDisk, WaitingInput, WaitingOutput, run, say_why};
use std::io::BufWriter;
use std::process::ExitCode;
use std::{env, io};

fn main(rt: HostRuntime) -> ExitCode {
    let ending = run_here(&rt);
    // If standard error fails, nothing is left to do.
    let _ = say_why(&mut rt.stderr(), &ending);
    ExitCode::from(ending.status())
}

// Runs the program. Output that is left in the buffer is written at the end.
fn run_here(rt: &HostRuntime) -> Ending {
    let arguments = match arguments_of(rt) {
        Ok(arguments) => arguments,
        Err(error) => return Ending::of_unreadable(error.kind()),
    };
    let Ok(buffer) = BufWriter::new(rt.alloc(), WaitingOutput::new(rt.stdout(), rt)) else {
        return Ending::Stopped(Stop::Memory);
    };
    run(
        rt.alloc(),
        &arguments,
        &mut SystemDisk::new(rt),
        &mut Input::new(WaitingInput::new(rt.stdin(), rt)),
        &mut Output::new(buffer),
        &mut rt.stderr(),
    )
}

fn arguments_of(rt: &HostRuntime) -> io::Result<Vec<String>> {
    Ok(env::args(rt)?.collect(rt.alloc())?)
}
