//! Readers and writers that fail once and then work again: no failure goes unnoticed.

use crate::fakes::{FailsOnce, Pieces};
use al_base::{Input, Output, Stop};
use al_cli_scripts::run_session;
use al_text::Format;
use std::alloc::Global;
use std::io::{Read, Write};

// Functions without a contract keep the proofs of tests from computing what a run of a script does.

fn script() -> &'static [u8] {
    b"report\nput .github/workflows/a.yml 0\n\nreport\n"
}

fn replies() -> &'static [u8] {
    b"status 0\nok 1\n.github/workflows/a.yml:1:1: file is empty [syntax-check]\nstatus 1\n"
}

fn run<R: Read, W: Write>(
    alloc: Global,
    reader: &mut Input<R>,
    writer: &mut Output<W>,
) -> Result<u8, Stop> {
    run_session(alloc, reader, writer, Format::Oneline)
}

fn is_front(output: &[u8]) -> bool {
    replies().starts_with(output)
}

/// Whether a run stops at the first failing read, after this many others, and makes no further
/// read.
fn stops_at_read(alloc: Global, before: u32) -> bool {
    let mut reader = Input::new(FailsOnce::new(alloc, script(), before));
    let mut output = Vec::new(alloc);
    let answer = run(alloc, &mut reader, &mut Output::new(&mut output));
    answer == Err(Stop::ReadFault)
        && (reader.turns(), reader.failures()) == (u64::from(before) + 1, 1)
        && is_front(&output)
}

// The 45 bytes of the script take 15 reads; the next read returns no bytes.
#[test]
fn no_failed_read_is_tried_again(rt: HostRuntime) {
    for before in 0..16 {
        assert!(rt; stops_at_read(rt.alloc(), before));
    }
}

/// How a run ends if its writer fails after this many calls.
#[derive(Clone, Copy, PartialEq, Eq)]
enum End {
    /// It makes fewer calls, and writes all replies.
    Whole,
    /// It stops at the failing call, having written a prefix of the replies.
    Stopped,
    Wrong,
}

fn end_of(answer: Result<u8, Stop>, failures: u64, writer: &FailsOnce<'_>) -> End {
    match (answer, failures, writer.before) {
        (Ok(1), 0, Some(_)) if writer.taken.as_slice() == replies() => End::Whole,
        (Err(Stop::WriteFault), 1, None) if is_front(&writer.taken) => End::Stopped,
        _ => End::Wrong,
    }
}

fn end_with(alloc: Global, before: u32) -> End {
    let mut fails = FailsOnce::new(alloc, b"", before);
    let mut writer = Output::new(&mut fails);
    let answer = run(alloc, &mut Input::new(script()), &mut writer);
    let failures = writer.failures();
    end_of(answer, failures, &fails)
}

/// How many calls a run makes of its writer; `None` if a failure goes unnoticed.
fn calls(alloc: Global) -> Option<u32> {
    for before in 0..1_000 {
        match end_with(alloc, before) {
            End::Whole => return Some(before),
            End::Stopped => {}
            End::Wrong => return None,
        }
    }
    None
}

// Each reply takes at least one write, and each read but the first follows a flush.
#[test]
fn no_failed_write_or_flush_is_passed_over(rt: HostRuntime) {
    match calls(rt.alloc()) {
        Some(calls) => assert!(rt; calls >= 6),
        None => panic!(rt; "a failure that nothing tells of"),
    }
}

/// How many reads a run makes of a script if each returns at most this many bytes.
fn turns_of(alloc: Global, step: usize) -> Option<u64> {
    let mut reader = Input::new(Pieces {
        bytes: script(),
        step,
        fails: false,
    });
    let mut output = Vec::new(alloc);
    match run(alloc, &mut reader, &mut Output::new(&mut output)) {
        Ok(_) => Some(reader.turns()),
        Err(_) => None,
    }
}

/// The pieces of the script, and one read that returns no bytes.
fn pieces(step: usize) -> u64 {
    let length = script().len();
    match (length.checked_div(step), length.checked_rem(step)) {
        (Some(whole), Some(0)) => (whole as u64).saturating_add(1),
        (Some(whole), Some(_)) => (whole as u64).saturating_add(2),
        _ => 0,
    }
}

#[test]
fn a_run_reads_each_piece_once(rt: HostRuntime) {
    for step in 1..50 {
        assert!(rt; turns_of(rt.alloc(), step) == Some(pieces(step)));
    }
}

fn counts_the_read(alloc: Global) -> bool {
    let mut reader = Input::new(FailsOnce::new(alloc, b"ab", 1));
    let mut buffer = [0u8; 1];
    let answers = (
        reader.read(&mut buffer),
        reader.read(&mut buffer),
        reader.read(&mut buffer),
    );
    answers == (Ok(1), Err(Stop::ReadFault), Ok(1))
        && (reader.turns(), reader.failures(), reader.largest_ask()) == (3, 1, 1)
}

fn counts_the_write(alloc: Global) -> bool {
    let mut fails = FailsOnce::new(alloc, b"", 1);
    let mut writer = Output::new(&mut fails);
    let answers = (
        writer.write_all(b"a"),
        writer.write_all(b"b"),
        writer.write_all(b"c"),
    );
    let failures = writer.failures();
    answers == (Ok(()), Err(Stop::WriteFault), Ok(()))
        && failures == 1
        && fails.taken.as_slice() == b"ac".as_slice()
}

fn counts_the_flush(alloc: Global) -> bool {
    let mut fails = FailsOnce::new(alloc, b"", 1);
    let mut writer = Output::new(&mut fails);
    let answers = (writer.flush(), writer.flush(), writer.flush());
    let failures = writer.failures();
    answers == (Ok(()), Err(Stop::WriteFault), Ok(())) && failures == 1
}

#[test]
fn each_failure_is_counted(rt: HostRuntime) {
    assert!(rt; counts_the_read(rt.alloc()));
    assert!(rt; counts_the_write(rt.alloc()));
    assert!(rt; counts_the_flush(rt.alloc()));
}
