//! `al_text`: paths, positions, printed faults, and readers and writers.

ghost use Rattle.std.specs.Prelude.{◌≡◌, ◌≤◌, length, true};

use al_text::limits::LARGEST_FILE;
use al_text::{
    Args, CallCode, Caller, Code, ExpressionCode, Fault, FaultPrinter, Format, Input, KeyCode,
    Lines, Output, Path, PathFault, PrintedFile, RuleCode, Span, Stop, YamlCode, kind, path_fault,
    position, write_fault, write_faults,
};
use std::alloc::{AllocError, Global};
use std::io::Write;

static PATHS: [(&str, Option<PathFault>); 10] = [
    ("a/action.yml", None),
    ("", Some(PathFault::Empty)),
    ("/../\n", Some(PathFault::Absolute)),
    ("a//b\n", Some(PathFault::BadPart)),
    ("a/./b", Some(PathFault::BadPart)),
    ("a/../b", Some(PathFault::BadPart)),
    ("../x.yml", Some(PathFault::BadPart)),
    ("a\\b", Some(PathFault::BadByte)),
    ("a/b\u{7f}", Some(PathFault::BadByte)),
    ("a//\\", Some(PathFault::BadPart)),
];

fn paths() -> &'static [(&'static str, Option<PathFault>)] {
    &PATHS
}

fn is_path(alloc: Global, text: &str, wanted: Option<PathFault>) -> bool {
    match Path::new(alloc, text) {
        Ok(path) => wanted.is_none() && path.as_str() == text,
        Err(fault) => wanted == Some(fault),
    }
}

#[test]
fn texts_are_paths_or_not(rt: HostRuntime) {
    for (text, wanted) in paths() {
        assert!(rt; path_fault(text) == *wanted && is_path(rt.alloc(), text, *wanted));
    }
}

/// This many letters.
fn letters(alloc: Global, count: u32) -> Result<String, AllocError> {
    let mut text = String::new(alloc);
    for _ in 0..count {
        text.push('a')?;
    }
    Ok(text)
}

/// Whether a path of this many letters has this fault.
fn has_fault(alloc: Global, count: u32, wanted: Option<PathFault>) -> Result<bool, AllocError> {
    let path = letters(alloc, count)?;
    Ok(path_fault(path.as_str()) == wanted)
}

#[test]
fn a_path_has_1024_bytes(rt: HostRuntime) {
    assert!(rt; has_fault(rt.alloc(), 1_024, None) == Ok(true));
    assert!(rt; has_fault(rt.alloc(), 1_025, Some(PathFault::TooLong)) == Ok(true));
}

/// One break, and characters of two and three bytes.
const TEXT: &str = "a\r\né\u{20ac}b\rc";

static PLACES: [(u32, (u32, u32)); 6] = [
    (0, (1, 1)),
    (2, (1, 3)),
    (3, (2, 1)),
    (5, (2, 2)),
    (8, (2, 3)),
    (10, (3, 1)),
];

fn places() -> &'static [(u32, (u32, u32))] {
    &PLACES
}

fn is_at(bytes: &[u8], offset: u32, place: (u32, u32)) -> bool {
    offset as usize <= bytes.len()
        && bytes.len() <= LARGEST_FILE
        && position(bytes, offset) == place
}

#[test]
fn offsets_have_positions(rt: HostRuntime) {
    for (offset, place) in places() {
        assert!(rt; is_at(TEXT.as_bytes(), *offset, *place));
    }
}

static KINDS: [(Code, &str); 6] = [
    (Code::Yaml(YamlCode::NotUtf8), "syntax-check"),
    (Code::Key(KeyCode::EmptyFile), "syntax-check"),
    (Code::Rule(RuleCode::WrongPattern), "glob"),
    (Code::Expression(ExpressionCode::Untrusted), "expression"),
    (Code::Call(CallCode::MissingInput, Caller::Step), "action"),
    (
        Code::Call(CallCode::MissingInput, Caller::Job),
        "workflow-call",
    ),
];

fn kinds() -> &'static [(Code, &'static str)] {
    &KINDS
}

#[test]
fn codes_have_kinds(rt: HostRuntime) {
    for (code, wanted) in kinds() {
        assert!(rt; kind(*code) == *wanted);
    }
}

const PATH: &str = ".github/workflows/a.yml";

fn misspelled() -> &'static [u8] {
    b"on: push
jobs:
  a:
    runs-on: ubuntu-latest
    steps:
      - run: echo ${{ github.reff }}
"
}

fn printed() -> &'static [u8] {
    b".github/workflows/a.yml:6:30: property \"reff\" is not defined [expression]
  |
6 |       - run: echo ${{ github.reff }}
  |                              ^~~~
"
}

fn fault(alloc: Global) -> Result<Fault, AllocError> {
    Ok(Fault {
        span: Span { start: 87, end: 91 },
        code: Code::Expression(ExpressionCode::UndefinedProperty),
        args: Args::one(String::from_str(alloc, "reff")?),
    })
}

/// Whether a span lies in a file.
fn is_within(bytes: &[u8], span: Span) -> bool
    ensures ordered { result ≡ true → span.start ≤ span.end }
    ensures inside { result ≡ true → span.end ≤ length bytes.now }
{
    span.start <= span.end && span.end as usize <= bytes.len()
}

/// A file with these bytes, whose faults are printed with their lines.
fn printed_file(bytes: &[u8]) -> PrintedFile<'_>
    ensures { result.bytes.now ≡ bytes.now }
{
    PrintedFile {
        path: PATH,
        bytes,
        format: Format::Snippet,
    }
}

fn is_printed(alloc: Global, bytes: &[u8], fault: &Fault, wanted: &[u8]) -> bool {
    if bytes.len() > LARGEST_FILE || !is_within(bytes, fault.span) {
        return false;
    }
    let file = printed_file(bytes);
    let mut text = Vec::new(alloc);
    let result = write_fault(&mut Output::new(&mut text), &file, fault);
    result.is_ok() && text.as_slice() == wanted
}

/// The same by a table of lines.
fn is_printed_by_lines(
    alloc: Global,
    bytes: &[u8],
    fault: &Fault,
    wanted: &[u8],
) -> Result<bool, AllocError> {
    if bytes.len() > LARGEST_FILE || !is_within(bytes, fault.span) {
        return Ok(false);
    }
    let lines = Lines::of(alloc, bytes)?;
    let mut text = Vec::new(alloc);
    let mut printer = FaultPrinter::new(&printed_file(bytes), &lines);
    let result = printer.write_fault(&mut Output::new(&mut text), fault);
    Ok(result.is_ok() && text.as_slice() == wanted)
}

fn prints_fault(alloc: Global, bytes: &[u8], wanted: &[u8]) -> Result<bool, AllocError> {
    let fault = fault(alloc)?;
    let is_by_lines = is_printed_by_lines(alloc, bytes, &fault, wanted) == Ok(true);
    Ok(is_by_lines && is_printed(alloc, bytes, &fault, wanted))
}

#[test]
fn a_fault_is_printed_with_its_line(rt: HostRuntime) {
    assert!(rt; prints_fault(rt.alloc(), misspelled(), printed()) == Ok(true));
}

/// Whether a list of one fault is printed so.
fn are_printed(
    alloc: Global,
    bytes: &[u8],
    fault: Fault,
    wanted: &[u8],
) -> Result<bool, AllocError> {
    if bytes.len() > LARGEST_FILE || !is_within(bytes, fault.span) {
        return Ok(false);
    }
    let lines = Lines::of(alloc, bytes)?;
    let mut text = Vec::new(alloc);
    let file = printed_file(bytes);
    let result = write_faults(&mut Output::new(&mut text), &file, &lines, &[fault]);
    Ok(result.is_ok() && text.as_slice() == wanted)
}

fn prints_list(alloc: Global, bytes: &[u8], wanted: &[u8]) -> Result<bool, AllocError> {
    are_printed(alloc, bytes, fault(alloc)?, wanted)
}

#[test]
fn a_list_of_faults_is_printed(rt: HostRuntime) {
    assert!(rt; prints_list(rt.alloc(), misspelled(), printed()) == Ok(true));
}

/// Whether an offset has a position, counted from another one.
fn is_counted_on(
    alloc: Global,
    bytes: &[u8],
    from: u32,
    offset: u32,
    place: (u32, u32),
) -> Result<bool, AllocError> {
    let length = bytes.len();
    if length > LARGEST_FILE || from as usize > length || offset as usize > length {
        return Ok(false);
    }
    let lines = Lines::of(alloc, bytes)?;
    let known = lines.location(bytes, from);
    let location = lines.location_after(bytes, from, known, offset);
    let is_there = lines.position(bytes, offset) == place;
    Ok(is_there && (location.line, location.column) == place)
}

#[test]
fn a_position_after_another(rt: HostRuntime) {
    assert!(rt; is_counted_on(rt.alloc(), TEXT.as_bytes(), 3, 8, (2, 3)) == Ok(true));
}

fn counts_reads(bytes: &[u8]) -> Result<bool, Stop> {
    let mut reader = Input::new(bytes);
    let mut buffer = [0u8; 4];
    let first = reader.read(&mut buffer)?;
    let end = reader.read(&mut buffer)?;
    let asked = reader.largest_ask() == 4;
    Ok(first == 2 && end == 0 && asked && reader.turns() == 2 && reader.failures() == 0)
}

/// How many calls of a writer failed, if it took all bytes.
fn count_failures<W: Write>(writer: &mut Output<W>, bytes: &[u8]) -> Result<u64, Stop> {
    writer.write_all(bytes)?;
    writer.flush()?;
    Ok(writer.failures())
}

fn counts_no_failure(alloc: Global, bytes: &[u8]) -> Result<bool, Stop> {
    let mut output = Vec::new(alloc);
    let failures = count_failures(&mut Output::new(&mut output), bytes)?;
    Ok(failures == 0 && output.as_slice() == bytes)
}

#[test]
fn a_reader_counts(rt: HostRuntime) {
    assert!(rt; counts_reads(b"ab") == Ok(true));
}

#[test]
fn a_writer_counts(rt: HostRuntime) {
    assert!(rt; counts_no_failure(rt.alloc(), b"ab") == Ok(true));
}
