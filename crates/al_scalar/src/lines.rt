//! What a line has at an offset of the file, which is at most the length of the file.

ghost use Rattle.std.specs.Prelude.{◌≡◌, ◌≢◌, ◌∷◌, ◌+◌, ◌<◌, ◌≤◌, length, IsTrue, ◌↔◌, slice_index};
ghost use Rattle.al_scalar.specs.Line as line;
ghost use Rattle.al_scalar.specs.Plain as plain;
ghost use Rattle.al_scalar.specs.Places.{first_end, lines_at, text_at};
ghost use Rattle.al_scalar.specs.LineEnds.{cells_between, with_cells_before, broken_line, AreBlank};
ghost use Rattle.al_scalar.specs.LineEnds.{AreSpaces, IsBlankByte, IsLineEnd, IsBreakAt, OnLine};
ghost use Rattle.al_scalar.specs.LineEnds.{BlankTo, FirstByte};

use memchr::memchr2;

/// Whether the text of the line has ended at an offset: there is a line break (LF, CRLF or CR; YAML
/// 1.2.2, 5.4) or the end of the file.
///
/// # Requires
///
/// `at` is at most the number of bytes.
pub fn is_line_end(bytes: &[u8], at: usize) -> bool
    requires { at ≤ length bytes.now }
    ensures { IsTrue result ↔ IsLineEnd bytes.now at }
{
    at == bytes.len() || bytes[at] == b'\n' || bytes[at] == b'\r'
}

/// Whether there is a line break at an offset. It is `false` at the end of the file and beyond it.
pub fn is_break_at(bytes: &[u8], at: usize) -> bool
    ensures { IsTrue result ↔ IsBreakAt bytes.now at }
{
    at < bytes.len() && (bytes[at] == b'\n' || bytes[at] == b'\r')
}

/// The offset after the line break at an offset; a CRLF is one break.
///
/// # Requires
///
/// There is a break at `at`.
pub fn after_break(bytes: &[u8], at: usize) -> usize
    requires inside { at < length bytes.now }
    requires is_break { IsLineEnd bytes.now at }
    ensures after { at < result }
    ensures inside { result ≤ length bytes.now }
    ensures lines { lines_at bytes.now at ≡ broken_line at ∷ lines_at bytes.now result }
{
    if bytes[at] == b'\r' && at + 1 < bytes.len() && bytes[at + 1] == b'\n' {
        at + 2
    } else {
        at + 1
    }
}

/// Whether a byte is a space or a tab.
pub fn is_blank(byte: u8) -> bool
    ensures { IsTrue result ↔ IsBlankByte byte }
{
    byte == b' ' || byte == b'\t'
}

/// Whether a byte is one of `,[]{}`.
pub fn is_flow_indicator(byte: u8) -> bool
    ensures { result ≡ plain.is_flow_indicator byte }
{
    byte == b',' || byte == b'[' || byte == b']' || byte == b'{' || byte == b'}'
}

/// The offset after the blanks at an offset, of which there may be none.
///
/// # Requires
///
/// `at` is at most the number of bytes.
#[tactic(auto, using(crate::proofs::LineParts::drops_blanks))]
pub fn blanks_end(bytes: &[u8], at: usize) -> usize
    requires { at ≤ length bytes.now }
    ensures from { at ≤ result }
    ensures inside { result ≤ length bytes.now }
    ensures blanks { AreBlank (cells_between bytes.now at result) }
    ensures not_blank { result < length bytes.now → IsBlankByte (slice_index bytes.now result) → ⊥ }
    ensures lines { lines_at bytes.now at
        ≡ with_cells_before (cells_between bytes.now at result) (lines_at bytes.now result) }
    ensures dropped { line.blanks_dropped (lines_at bytes.now at) ≡ lines_at bytes.now result }
{
    let mut i = at;
    while i < bytes.len() && is_blank(bytes[i]) {
        i += 1;
    }
    i
}

/// The offset after the spaces at an offset, of which at most `most` are skipped.
///
/// # Requires
///
/// `at` is at most the number of bytes.
pub fn spaces_end(bytes: &[u8], at: usize, most: usize) -> usize
    requires { at ≤ length bytes.now }
    ensures from { at ≤ result }
    ensures inside { result ≤ length bytes.now }
    ensures most { result ≤ at + most }
    ensures spaces { AreSpaces (cells_between bytes.now at result) }
    ensures stops { result < length bytes.now → result < at + most
        → slice_index bytes.now result ≢ 32 }
    ensures lines { lines_at bytes.now at
        ≡ with_cells_before (cells_between bytes.now at result) (lines_at bytes.now result) }
{
    let mut i = at;
    while i < bytes.len() && i - at < most && bytes[i] == b' ' {
        i += 1;
    }
    i
}

/// The offset at which the text of the line ends that an offset is on: that of its break, or of the
/// end of the file.
///
/// # Requires
///
/// `at` is at most the number of bytes.
pub fn line_end(bytes: &[u8], at: usize) -> usize
    requires { at ≤ length bytes.now }
    ensures is_end { IsLineEnd bytes.now result }
    ensures on_line { OnLine bytes.now at result }
    ensures text { text_at bytes.now at ≡ cells_between bytes.now at result }
    ensures end { first_end (lines_at bytes.now at) ≡ result }
{
    // often a scalar has just been read up to the end of its line
    if is_line_end(bytes, at) {
        return at;
    }
    match memchr2(b'\n', b'\r', &bytes[at..]) {
        Some(break_at) => at + break_at,
        None => bytes.len(),
    }
}

/// The end of the line, if from `at` to there all is blanks; otherwise `None`.
///
/// # Requires
///
/// `at` is at most the number of bytes.
pub fn blank_line_end(bytes: &[u8], at: usize) -> Option<usize>
    requires { at ≤ length bytes.now }
    ensures { BlankTo bytes.now at result }
{
    let solid = blanks_end(bytes, at);
    if is_line_end(bytes, solid) {
        Some(solid)
    } else {
        None
    }
}

/// The byte at an offset; `None` if the line ends there.
///
/// # Requires
///
/// `at` is at most the number of bytes.
pub fn first_byte(bytes: &[u8], at: usize) -> Option<u8>
    requires { at ≤ length bytes.now }
    ensures { FirstByte bytes.now at result }
{
    if is_line_end(bytes, at) {
        None
    } else {
        Some(bytes[at])
    }
}

/// The number of spaces at an offset.
///
/// # Requires
///
/// `at` is at most the number of bytes.
pub fn indent(bytes: &[u8], at: usize) -> usize
    requires { at ≤ length bytes.now }
    ensures is { result ≡ line.indent (text_at bytes.now at) }
    ensures inside { at + result ≤ length bytes.now }
    ensures dropped { line.spaces_dropped (lines_at bytes.now at)
        ≡ lines_at bytes.now (at + result) }
{
    spaces_end(bytes, at, bytes.len()) - at
}

/// Whether there is a blank or the end of the line at an offset.
///
/// # Requires
///
/// `at` is at most the number of bytes.
pub fn is_blank_or_end(bytes: &[u8], at: usize) -> bool
    requires { at ≤ length bytes.now }
    ensures { result ≡ line.is_blank_or_end (text_at bytes.now at) }
{
    is_line_end(bytes, at) || is_blank(bytes[at])
}

/// Whether the text of the line has this byte at an offset; never if the byte is a CR or LF.
///
/// # Requires
///
/// `at` is at most the number of bytes.
pub fn begins(bytes: &[u8], at: usize, byte: u8) -> bool
    requires { at ≤ length bytes.now }
    ensures value { result ≡ line.begins byte (text_at bytes.now at) }
    ensures inside { IsTrue result → at < length bytes.now }
{
    !is_line_end(bytes, at) && bytes[at] == byte
}

/// Whether a byte occurs three times at an offset, followed by a blank or the end of the line. The
/// offset needn't be at the start of a line.
///
/// # Requires
///
/// `at` is at most the number of bytes.
pub fn is_marker(bytes: &[u8], at: usize, byte: u8) -> bool
    requires { at ≤ length bytes.now }
    ensures { result ≡ line.is_marker byte (text_at bytes.now at) }
{
    if !begins(bytes, at, byte) {
        return false;
    }
    if !begins(bytes, at + 1, byte) {
        return false;
    }
    if !begins(bytes, at + 2, byte) {
        return false;
    }
    is_blank_or_end(bytes, at + 3)
}

/// Whether there is a document marker at an offset, `---` or `...` before a blank or the end of the
/// line (YAML 1.2.2, 9.1.2). It is one only at the start of a line, which the caller knows.
///
/// # Requires
///
/// `at` is at most the number of bytes.
pub fn is_document_marker(bytes: &[u8], at: usize) -> bool
    requires { at ≤ length bytes.now }
    ensures { result ≡ line.is_document_marker (text_at bytes.now at) }
{
    is_marker(bytes, at, b'-') || is_marker(bytes, at, b'.')
}
