//! The table of line starts, and positions by it.
ghost use Rattle.std.specs.Prelude.{◌≡◌, ℕ, ◌≤◌, ◌<◌, length, slice_index, IfOk};
ghost use Rattle.std.specs.List.Sorted.{IsNonDecreasing};
ghost use Rattle.al_base.specs.Limits.{largest_file};
ghost use Rattle.al_base.specs.Positions.{line_at, column_at, BeginsLine};
ghost use Rattle.al_base.specs.LineStarts.{line_starts};

use super::positions::{Location, is_break_end, is_char_start};
use memchr::memchr2_iter;
use std::alloc::{AllocError, Global};
use std::marker::Model;

/// A table of the byte offsets at which a file's lines begin, so that a position needs no walk from
/// the file's start.
///
/// It belongs to the bytes that it was made from: its methods take just these. Contracts see the
/// list of offsets, in ascending order; the first is 0.
#[derive(Drop)]
pub struct Lines {
    starts: Vec<u32>,
}

impl Model for Lines {
    ghost use Rattle.std.specs.Prelude.{ℕ, List};

    ghost Value = { List ℕ };

    ghost view = { λ lines. lines.starts.items };
}

impl Lines {
    /// The table of a file's bytes. Takes one pass over them.
    ///
    /// # Requires
    ///
    /// At most 1,048,576 bytes.
    ///
    /// # Errors
    ///
    /// `AllocError` if memory runs out.
    pub fn of(alloc: Global, bytes: &[u8]) -> Result<Lines, AllocError>
        requires { length bytes.now ≤ largest_file }
        ensures { IfOk result (λ lines. lines ≡ line_starts bytes.now) }
    {
        let mut starts = Vec::new(alloc);
        starts.push(0)?;
        // A break ends at one of these two bytes, and most bytes are neither.
        for at in memchr2_iter(b'\n', b'\r', bytes) {
            if is_break_end(bytes, at) {
                starts.push(at as u32 + 1)?;
            }
        }
        Ok(Lines { starts })
    }

    /// The line and the column of a byte offset, both from 1, as [`position`](crate::position)
    /// counts them. Doesn't allocate.
    ///
    /// # Requires
    ///
    /// The table was made from `bytes`, of which there are at most 1,048,576, and `offset` is at
    /// most their number.
    pub fn position(&self, bytes: &[u8], offset: u32) -> (u32, u32)
        requires made { self.now ≡ line_starts bytes.now }
        requires within { offset ≤ length bytes.now }
        requires small { length bytes.now ≤ largest_file }
        ensures line { result.0 ≡ line_at bytes.now offset }
        ensures column { result.1 ≡ column_at bytes.now offset }
    {
        let location = self.location(bytes, offset);
        (location.line, location.column)
    }

    /// The location of a byte offset. Takes time logarithmic in the number of lines, and linear in
    /// the length of the line. Doesn't allocate.
    ///
    /// # Requires
    ///
    /// As for [`Lines::position`].
    pub fn location(&self, bytes: &[u8], offset: u32) -> Location
        requires made { self.now ≡ line_starts bytes.now }
        requires within { offset ≤ length bytes.now }
        requires small { length bytes.now ≤ largest_file }
        ensures line { result.line ≡ line_at bytes.now offset }
        ensures column { result.column ≡ column_at bytes.now offset }
        ensures start { BeginsLine bytes.now offset result.start }
    {
        let line = self.count_up_to(offset);
        let start = self.starts[line - 1];
        let column = column_from(bytes, start, 1, offset);
        Location {
            line: line as u32,
            column,
            start,
        }
    }

    /// The location of a byte offset. If the offset `from`, whose location is `known`, is at or
    /// before it on the same line, the column is counted on from there. Doesn't allocate.
    ///
    /// # Requires
    ///
    /// As for [`Lines::position`]; and `known` is the location of `from` in these bytes.
    pub fn location_after(&self, bytes: &[u8], from: u32, known: Location, offset: u32) -> Location
        requires made { self.now ≡ line_starts bytes.now }
        requires within { offset ≤ length bytes.now }
        requires small { length bytes.now ≤ largest_file }
        requires known_line { known.line ≡ line_at bytes.now from }
        requires known_column { known.column ≡ column_at bytes.now from }
        requires known_start { BeginsLine bytes.now from known.start }
        ensures line { result.line ≡ line_at bytes.now offset }
        ensures column { result.column ≡ column_at bytes.now offset }
        ensures start { BeginsLine bytes.now offset result.start }
    {
        if offset < from || self.count_up_to(offset) as u32 != known.line {
            return self.location(bytes, offset);
        }
        Location {
            line: known.line,
            column: column_from(bytes, from, known.column, offset),
            start: known.start,
        }
    }

    // How many lines begin at or before an offset.
    fn count_up_to(&self, offset: u32) -> usize
        requires { IsNonDecreasing self.now }
        ensures bound { result ≤ length self.now }
        ensures up_to { (k : ℕ) → k < result → slice_index self.now k ≤ offset }
        ensures after { (k : ℕ) → result ≤ k → k < length self.now
            → offset < slice_index self.now k }
    {
        self.starts.partition_point(|start| *start <= offset)
    }
}

// The column of an offset, counted on from the column of another one at or before it on the same
// line.
fn column_from(bytes: &[u8], from: u32, known: u32, offset: u32) -> u32
    requires order { from ≤ offset }
    requires within { offset ≤ length bytes.now }
    requires small { length bytes.now ≤ largest_file }
    requires known { known ≡ column_at bytes.now from }
    requires line { line_at bytes.now from ≡ line_at bytes.now offset }
    ensures { result ≡ column_at bytes.now offset }
{
    let bytes = &bytes[from as usize..offset as usize];
    known + bytes.iter().filter(|byte| is_char_start(**byte)).count() as u32
}
