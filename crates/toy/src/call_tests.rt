//! Tests of what calls make a session recheck and report.

use crate::linter::Toy;
use crate::steps::{Step, ends, follows, misses, open, status};
use al_base::Stop;
use al_session::{Change, Session};
use std::alloc::Global;

const NEED: &[u8] = b"need b.toy c.toy";

const ABSENT: &[u8] = b"a.toy:1:1: unexpected key \"b.toy\" [syntax-check]\n";

const EMPTY: &[u8] = b"a.toy:1:1: wrong kind of value for \"b.toy\" [syntax-check]\n";

static NEEDED: [Step; 1] = [(Change::Put("a.toy", NEED), &["a.toy"], ABSENT)];

static ANSWERED: [Step; 2] = [
    (Change::Put("c.toy", b""), &["a.toy", "c.toy"], EMPTY),
    (Change::Put("b.toy", b"have x"), &["a.toy", "b.toy"], b""),
];

fn need_steps() -> &'static [Step] {
    &NEEDED
}

fn answer_steps() -> &'static [Step] {
    &ANSWERED
}

fn answers_calls(alloc: Global, session: &mut Session<Toy>) -> Result<bool, Stop> {
    Ok(
        follows(alloc, session, need_steps())?
            && misses(session, &["b.toy", "c.toy"])?
            && follows(alloc, session, answer_steps())?,
    )
}

fn answers_calls_anew(alloc: Global) -> Result<bool, Stop> {
    answers_calls(alloc, &mut open(alloc))
}

#[test]
fn calls_are_answered(rt: HostRuntime) -> Result<(), Stop> {
    assert!(rt; answers_calls_anew(rt.alloc())?);
    Ok(())
}

const LATER_ABSENT: &[u8] = b"b.toy:1:1: unexpected key \"c.toy\" [syntax-check]\n";

const CYCLE: &[u8] = b"a.toy:1:1: call of \"b.toy\" leads back to this file [workflow-call]
b.toy:1:1: call of \"c.toy\" leads back to this file [workflow-call]
c.toy:1:1: call of \"a.toy\" leads back to this file [workflow-call]
";

static CHAIN: [Step; 3] = [
    (
        Change::Put("a.toy", b"need b.toy\nhave x"),
        &["a.toy"],
        ABSENT,
    ),
    (
        Change::Put("b.toy", b"need c.toy\nhave x"),
        &["a.toy", "b.toy"],
        LATER_ABSENT,
    ),
    (Change::Put("c.toy", b"have x"), &["b.toy", "c.toy"], b""),
];

static RING: [Step; 1] = [(
    Change::Put("c.toy", b"need a.toy\nhave x"),
    &["c.toy"],
    CYCLE,
)];

// A file of a call cycle is changed and calls the same, a call into the cycle is added, and a file
// of the cycle is deleted.
static BESIDE_THE_RING: [Step; 3] = [
    (
        Change::Put("c.toy", b"need a.toy\nhave x\n# e"),
        &["c.toy"],
        CYCLE,
    ),
    (Change::Put("d/a.toy", b"need a.toy"), &["d/a.toy"], CYCLE),
    (Change::Delete("b.toy"), &["a.toy"], ABSENT),
];

fn chain() -> &'static [Step] {
    &CHAIN
}

fn ring() -> &'static [Step] {
    &RING
}

fn beside_the_ring() -> &'static [Step] {
    &BESIDE_THE_RING
}

// Whether a file exists and has no faults of its own.
fn is_faultless(session: &Session<Toy>, path: &str) -> bool {
    match session.faults(path) {
        Some(faults) => faults.is_empty(),
        None => false,
    }
}

// Whether a call cycle is reported when it closes, which changes no file's own faults.
fn tells_of_the_ring(alloc: Global, session: &mut Session<Toy>) -> Result<bool, Stop> {
    Ok(
        follows(alloc, session, ring())?
            && status(session)? == 1
            && session.meter() == 6
            && is_faultless(session, "b.toy"),
    )
}

fn finds_call_cycles(alloc: Global, session: &mut Session<Toy>) -> Result<bool, Stop> {
    Ok(
        follows(alloc, session, chain())?
            && status(session)? == 0
            && tells_of_the_ring(alloc, session)?
            && follows(alloc, session, beside_the_ring())?,
    )
}

fn finds_call_cycles_anew(alloc: Global) -> Result<bool, Stop> {
    finds_call_cycles(alloc, &mut open(alloc))
}

#[test]
fn call_cycles_are_reported(rt: HostRuntime) -> Result<(), Stop> {
    assert!(rt; finds_call_cycles_anew(rt.alloc())?);
    Ok(())
}

const CALLER: &[u8] = b"need d/a.toy d/b.toy";

const ABSENT_CALL: &[u8] = b"c.toy:1:1: unexpected key \"d/a.toy\" [syntax-check]\n";

const EMPTY_CALL: &[u8] = b"c.toy:1:1: wrong kind of value for \"d/a.toy\" [syntax-check]\n";

// A call of a missing file, which is then put and offers nothing, beside a file without calls.
static CALLED: [Step; 3] = [
    (Change::Put("z.toy", b"have z"), &["z.toy"], b""),
    (Change::Put("c.toy", CALLER), &["c.toy"], ABSENT_CALL),
    (
        Change::Put("d/a.toy", b""),
        &["c.toy", "d/a.toy"],
        EMPTY_CALL,
    ),
];

fn candidate_steps() -> &'static [Step] {
    &CALLED
}

static SECOND_COMES: [Step; 2] = [
    (Change::Put("d/b.toy", b"have x"), &["d/b.toy"], EMPTY_CALL),
    (Change::Delete("d/a.toy"), &["c.toy"], b""),
];

fn second_comes() -> &'static [Step] {
    &SECOND_COMES
}

#[test]
fn the_second_candidate_comes_to_answer(rt: HostRuntime) -> Result<(), Stop> {
    assert!(rt; ends(rt.alloc(), candidate_steps(), second_comes(), 0)?);
    Ok(())
}

static SAME_INTERFACE: [Step; 2] = [
    (Change::Put("d/a.toy", b"# e"), &["d/a.toy"], EMPTY_CALL),
    (Change::Put("d/a.toy", b"# e"), &[], EMPTY_CALL),
];

fn same_interface() -> &'static [Step] {
    &SAME_INTERFACE
}

#[test]
fn other_bytes_with_the_same_interface_check_no_caller(rt: HostRuntime) -> Result<(), Stop> {
    assert!(rt; ends(rt.alloc(), candidate_steps(), same_interface(), 1)?);
    Ok(())
}

static EQUAL_ANSWER: [Step; 4] = [
    (Change::Put("d/b.toy", b""), &["d/b.toy"], EMPTY_CALL),
    (Change::Delete("d/a.toy"), &[], EMPTY_CALL),
    (Change::Put("d/a.toy", b""), &["d/a.toy"], EMPTY_CALL),
    (
        Change::Put("d/a.toy", b"have x"),
        &["c.toy", "d/a.toy"],
        b"",
    ),
];

fn equal_answer() -> &'static [Step] {
    &EQUAL_ANSWER
}

#[test]
fn an_equal_answer_checks_no_caller(rt: HostRuntime) -> Result<(), Stop> {
    assert!(rt; ends(rt.alloc(), candidate_steps(), equal_answer(), 0)?);
    Ok(())
}

static STOPPED_CALLING: [Step; 3] = [
    (Change::Put("c.toy", b"have c"), &["c.toy"], b""),
    (Change::Put("d/a.toy", b"have x"), &["d/a.toy"], b""),
    (Change::Delete("d/a.toy"), &[], b""),
];

fn stopped_calling() -> &'static [Step] {
    &STOPPED_CALLING
}

#[test]
fn files_that_stopped_calling_are_not_checked(rt: HostRuntime) -> Result<(), Stop> {
    assert!(rt; ends(rt.alloc(), candidate_steps(), stopped_calling(), 0)?);
    Ok(())
}

const OWN_CYCLE: &[u8] = b"r.toy:1:1: call of \"r.toy\" leads back to this file [workflow-call]\n";

const OWN_CALL: &[u8] = b"r.toy:1:1: wrong kind of value for \"r.toy\" [syntax-check]
r.toy:1:1: call of \"r.toy\" leads back to this file [workflow-call]
";

static CALLS_ITSELF: [Step; 3] = [
    (
        Change::Put("r.toy", b"need r.toy\nhave x"),
        &["r.toy"],
        OWN_CYCLE,
    ),
    (Change::Put("r.toy", b"need r.toy"), &["r.toy"], OWN_CALL),
    (Change::Delete("r.toy"), &[], b""),
];

fn calls_itself() -> &'static [Step] {
    &CALLS_ITSELF
}

#[test]
fn a_file_that_calls_itself_has_its_new_interface(rt: HostRuntime) -> Result<(), Stop> {
    assert!(rt; ends(rt.alloc(), &[], calls_itself(), 0)?);
    Ok(())
}
