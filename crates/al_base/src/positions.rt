//! Lines and columns, counted from the file's start.
ghost use Rattle.std.specs.Prelude.{◌≡◌, ◌≤◌, length, ◌<◌};
ghost use Rattle.al_base.specs.Limits.{largest_file};
ghost use Rattle.al_base.specs.Positions.{line_at, column_at, ends_break, begins_char, BeginsLine};

/// The location of an offset: its line and column, both from 1, and the offset at which that line
/// begins.
#[derive(Clone, Copy)]
pub struct Location {
    /// The line, from 1.
    pub line: u32,
    /// The column in characters, from 1.
    pub column: u32,
    /// The byte offset at which the line begins.
    pub start: u32,
}

/// The line and the column of a byte offset, both from 1.
///
/// The line is 1 plus the number of line breaks (LF, CRLF or CR; YAML 1.2.2, 5.4) that end at or
/// before the offset; the column is 1 plus the number of characters of that line before it. Walks
/// over the bytes from the start of the file up to the offset. Doesn't allocate.
///
/// # Requires
///
/// At most 1,048,576 bytes, and an offset of at most their number.
pub fn position(bytes: &[u8], offset: u32) -> (u32, u32)
    requires within { offset ≤ length bytes.now }
    requires small { length bytes.now ≤ largest_file }
    ensures line { result.0 ≡ line_at bytes.now offset }
    ensures column { result.1 ≡ column_at bytes.now offset }
{
    let location = location_of(bytes, offset);
    (location.line, location.column)
}

/// The location of a byte offset, which [`position`] counts. Doesn't allocate.
///
/// # Requires
///
/// At most 1,048,576 bytes, and an offset of at most their number.
pub fn location_of(bytes: &[u8], offset: u32) -> Location
    requires within { offset ≤ length bytes.now }
    requires small { length bytes.now ≤ largest_file }
    ensures line { result.line ≡ line_at bytes.now offset }
    ensures column { result.column ≡ column_at bytes.now offset }
    ensures start { BeginsLine bytes.now offset result.start }
{
    let mut line = 1;
    let mut column = 1;
    let mut start = 0;
    for at in 0..offset {
        if is_break_end(bytes, at as usize) {
            line += 1;
            column = 1;
            start = at + 1;
        } else if is_char_start(bytes[at as usize]) {
            column += 1;
        }
    }
    Location {
        line,
        column,
        start,
    }
}

// Whether a break ends right after this byte: at an LF, or at a CR that no LF follows.
pub(crate) fn is_break_end(bytes: &[u8], at: usize) -> bool
    requires within { at < length bytes.now }
    requires small { length bytes.now ≤ largest_file }
    ensures { result ≡ ends_break bytes.now at }
{
    match bytes[at] {
        b'\n' => true,
        b'\r' => at + 1 >= bytes.len() || bytes[at + 1] != b'\n',
        _ => false,
    }
}

/// Whether a byte of UTF-8 begins a character: any but 0x80 to 0xBF.
pub fn is_char_start(byte: u8) -> bool
    ensures { result ≡ begins_char byte }
{
    byte < 0x80 || byte >= 0xc0
}
