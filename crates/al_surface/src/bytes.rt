//! Bytes and lines: `al_text`, `al_scalar` and `al_yaml`.

use al_scalar::lines::{
    after_break, begins, blank_line_end, blanks_end, first_byte, indent, is_blank, is_blank_or_end,
    is_break_at, is_document_marker, is_flow_indicator, is_line_end, is_marker, line_end,
    spaces_end,
};
use al_scalar::{FaultAt, fault_at};
use al_text::limits::LARGEST_FILE;
use al_text::{Location, YamlCode, first_control, is_char_start, location_of};
use al_yaml::{YamlFault, byte_fault, document_end, document_start, mark_end};

fn is_at(location: Location, line: u32, column: u32, start: u32) -> bool {
    location.line == line && location.column == column && location.start == start
}

/// Whether an offset of a file is at a place.
fn is_place(file: &[u8], offset: u32, line: u32, column: u32, start: u32) -> bool {
    offset as usize <= file.len()
        && file.len() <= LARGEST_FILE
        && is_at(location_of(file, offset), line, column, start)
}

#[test]
fn the_location_of_an_offset(rt: HostRuntime) {
    assert!(rt; is_place("a\né\u{20ac}b".as_bytes(), 7, 2, 3, 2));
}

fn has_control(text: &[u8], wanted: Option<usize>) -> bool {
    first_control(text) == wanted
}

#[test]
fn control_bytes(rt: HostRuntime) {
    assert!(rt; has_control(b"ab\x7f\t", Some(2)) && has_control("é ".as_bytes(), None));
}

/// Whether a byte begins a character, and another one doesn't.
fn begins_alone(first: u8, second: u8) -> bool {
    is_char_start(first) && !is_char_start(second)
}

#[test]
fn bytes_that_begin_characters(rt: HostRuntime) {
    assert!(rt; begins_alone(0xc3, 0xa9) && begins_alone(b'a', 0x80));
}

/// Whether the line that begins at an offset is indented so and ends there.
fn is_line(file: &[u8], at: usize, spaces: usize, end: usize) -> bool {
    at <= file.len() && indent(file, at) == spaces && line_end(file, at) == end
}

/// Whether a marker of three `-` at an offset begins a document.
fn begins_document(file: &[u8], at: usize) -> bool {
    at <= file.len() && is_marker(file, at, b'-') && is_document_marker(file, at)
}

#[test]
fn lines_of_a_file(rt: HostRuntime) {
    assert!(rt; is_line(b"a:\n  b: c\r\n", 3, 2, 9));
    assert!(rt; begins_document(b"---\na", 0) && !begins_document(b"---\na", 4));
}

#[test]
fn bytes_of_a_line(rt: HostRuntime) {
    assert!(rt; is_blank(b'\t') && !is_blank(b'\n'));
    assert!(rt; is_flow_indicator(b'{') && !is_flow_indicator(b':'));
}

/// Whether a line ends at an offset, and the next one begins at another.
fn breaks_to(file: &[u8], at: usize, next: usize) -> bool {
    at < file.len() && is_line_end(file, at) && after_break(file, at) == next
}

#[test]
fn breaks_of_lines(rt: HostRuntime) {
    assert!(rt; breaks_to(b"a\r\nb", 1, 3) && breaks_to(b"a\n\nb", 1, 2));
    assert!(rt; is_break_at(b"a\r", 1) && !is_break_at(b"a", 1));
}

/// Where the first three spaces at an offset end, and all blanks.
fn have_ends(file: &[u8], at: usize, spaces: usize, blanks: usize) -> bool {
    at <= file.len() && spaces_end(file, at, 3) == spaces && blanks_end(file, at) == blanks
}

#[test]
fn ends_of_spaces_and_blanks(rt: HostRuntime) {
    assert!(rt; have_ends(b"a    \t#", 1, 4, 6));
}

/// The end of the line, if only blanks come before it.
fn is_blank_to(file: &[u8], at: usize, end: Option<usize>) -> bool {
    at <= file.len() && blank_line_end(file, at) == end
}

#[test]
fn the_end_of_a_blank_line(rt: HostRuntime) {
    assert!(rt; is_blank_to(b"a \t\nb", 1, Some(3)) && is_blank_to(b"a b", 1, None));
}

/// The byte at an offset of a line, as the three functions tell it.
fn has_byte(file: &[u8], at: usize, byte: u8) -> bool {
    at <= file.len() && first_byte(file, at) == Some(byte) && begins(file, at, byte)
}

fn is_followed_by_blank(file: &[u8], at: usize) -> bool {
    at <= file.len() && is_blank_or_end(file, at)
}

#[test]
fn bytes_at_offsets(rt: HostRuntime) {
    assert!(rt; has_byte(b"- a", 0, b'-') && !has_byte(b"-\n", 1, b'\n'));
    assert!(rt; is_followed_by_blank(b"a:", 2) && !is_followed_by_blank(b"a:b", 2));
}

/// Whether a fault at an offset has the span of a character.
fn is_character(file: &[u8], at: FaultAt, end: u32) -> bool {
    file.len() <= LARGEST_FILE
        && at.at <= file.len()
        && fault_at(file, at.at, at.code).span.end == end
}

#[test]
fn a_fault_at_a_character(rt: HostRuntime) {
    assert!(rt;
        is_character(
            "aé".as_bytes(),
            FaultAt::new(YamlCode::UnexpectedCharacter, 1),
            3
        )
    );
}

fn is_fault(fault: Option<YamlFault>, code: YamlCode, start: u32, end: u32) -> bool {
    match fault {
        Some(fault) => fault.code == code && (fault.span.start, fault.span.end) == (start, end),
        None => false,
    }
}

fn has_bytes_fault(file: &[u8], code: YamlCode, start: u32, end: u32) -> bool {
    file.len() <= LARGEST_FILE && is_fault(byte_fault(file), code, start, end)
}

#[test]
fn bytes_that_are_no_yaml(rt: HostRuntime) {
    assert!(rt; has_bytes_fault(b"a: \x00\xff", YamlCode::NotUtf8, 4, 5));
    assert!(rt; has_bytes_fault(b"a: \xc2\x80", YamlCode::ControlCharacter, 3, 5));
}

/// Whether the root of a file begins on the line that begins at an offset.
fn begins_at(file: &[u8], wanted: usize) -> bool {
    match document_start(file, mark_end(file)) {
        Ok(at) => at == wanted,
        Err(_) => false,
    }
}

#[test]
fn the_start_of_a_document(rt: HostRuntime) {
    assert!(rt; begins_at(b"\xef\xbb\xbf# a\n---\nb\n", 11));
}

/// Whether nothing but the end of a document comes after an offset.
fn ends_at(file: &[u8], at: usize) -> bool {
    at <= file.len() && document_end(file, at).is_ok()
}

#[test]
fn the_end_of_a_document(rt: HostRuntime) {
    assert!(rt; ends_at(b"a\n...\n# b\n", 2) && !ends_at(b"a\n--- b\n", 2));
}
