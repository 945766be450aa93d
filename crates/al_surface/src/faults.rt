//! `al_text`: the texts of faults, and lists of faults.

use al_text::{Args, Code, Fault, FaultSink, KeyCode, NamePositions, Span, add_copies, printable};
use std::alloc::{AllocError, Global};

const CODE: Code = Code::Key(KeyCode::Unexpected);

const SPAN: Span = Span { start: 1, end: 2 };

fn are_texts(args: &Args, first: Option<&str>, second: Option<&str>) -> bool {
    args.first() == first && args.second() == second
}

fn copies_both(alloc: Global, first: &str, second: &str) -> Result<bool, AllocError> {
    let args = Args::two(alloc, first, second)?;
    let copy = args.copy(alloc)?;
    Ok(are_texts(&copy, Some(first), Some(second)))
}

#[test]
fn a_copy_of_texts(rt: HostRuntime) {
    assert!(rt; copies_both(rt.alloc(), "a", "é") == Ok(true));
}

fn replaces_byte(alloc: Global, text: &[u8], wanted: &str) -> Result<bool, AllocError> {
    let one = Args::one_lossy(alloc, text)?;
    let two = Args::two_lossy(alloc, b"a", text)?;
    Ok(are_texts(&one, Some(wanted), None) && are_texts(&two, Some("a"), Some(wanted)))
}

#[test]
fn texts_that_are_not_utf8(rt: HostRuntime) {
    assert!(rt; replaces_byte(rt.alloc(), b"b\xff", "b\u{fffd}") == Ok(true));
}

fn prints(alloc: Global, text: &str, wanted: &str) -> Result<bool, AllocError> {
    Ok(printable(alloc, text)?.as_str() == wanted)
}

#[test]
fn a_printed_text(rt: HostRuntime) {
    assert!(rt; prints(rt.alloc(), "a\n\u{7f}é", "a??é") == Ok(true));
}

fn prints_texts(alloc: Global, text: &str, wanted: &str) -> Result<bool, AllocError> {
    let args = Args::one(String::from_str(alloc, text)?);
    let printed = args.printable(alloc)?;
    Ok(!args.is_plain() && are_texts(&printed, Some(wanted), None))
}

#[test]
fn printed_texts_of_a_fault(rt: HostRuntime) {
    assert!(rt; prints_texts(rt.alloc(), "a\tb", "a?b") == Ok(true));
}

/// Reports a fault with each number of texts.
fn report_all(sink: &mut FaultSink) -> Result<(), AllocError> {
    sink.report_plain(SPAN, CODE)?;
    sink.report_text(SPAN, CODE, b"a")?;
    sink.report_two(SPAN, CODE, b"a", b"b")?;
    let args = Args::one(String::from_str(sink.alloc(), "c")?);
    sink.report(SPAN, CODE, args)
}

fn is_reported(fault: &Fault, first: Option<&str>, second: Option<&str>) -> bool {
    fault.span == SPAN && fault.code == CODE && are_texts(&fault.args, first, second)
}

fn are_reported(faults: &[Fault]) -> bool {
    match faults {
        [none, one, two, other] => {
            is_reported(none, None, None)
                && is_reported(one, Some("a"), None)
                && is_reported(two, Some("a"), Some("b"))
                && is_reported(other, Some("c"), None)
        }
        _ => false,
    }
}

fn gives_all(mut sink: FaultSink) -> Result<bool, AllocError> {
    report_all(&mut sink)?;
    Ok(are_reported(&sink.into_faults()))
}

#[test]
fn the_faults_of_a_sink(rt: HostRuntime) {
    assert!(rt; gives_all(FaultSink::new(rt.alloc())) == Ok(true));
}

/// How many faults a list has after a fault was appended, and then copies of the list.
fn count_appended(alloc: Global, faults: &mut Vec<Fault>) -> Result<usize, AllocError> {
    let mut sink = FaultSink::new(alloc);
    sink.push(Fault {
        span: SPAN,
        code: CODE,
        args: Args::none(),
    })?;
    sink.append_to(faults)?;
    let mut both = Vec::new(alloc);
    add_copies(alloc, faults, &mut both)?;
    add_copies(alloc, faults, &mut both)?;
    Ok(both.len())
}

#[test]
fn faults_at_the_end_of_a_list(rt: HostRuntime) {
    assert!(rt; count_appended(rt.alloc(), &mut Vec::new(rt.alloc())) == Ok(2));
}

/// Whether the third of three names is the first again, in another case.
fn repeats_first(alloc: Global, names: &[&[u8]]) -> Result<bool, AllocError> {
    let positions = NamePositions::of(alloc, names)?;
    Ok(positions.is_first(1) && !positions.is_first(2) && positions.get(b"a")? == Some(0))
}

#[test]
fn positions_of_names(rt: HostRuntime) {
    let names = [b"a".as_slice(), b"B".as_slice(), b"A".as_slice()];
    assert!(rt; repeats_first(rt.alloc(), &names) == Ok(true));
}
