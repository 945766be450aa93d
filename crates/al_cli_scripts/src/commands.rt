//! The commands of a script, as bytes.

ghost use Rattle.std.specs.Prelude.{◌≡◌, ◌<◌, ◌≤◌, ◌+◌, MatchOption, length, take, slice_index};
ghost use Rattle.al_base.specs.Limits.{longest_line};
ghost use Rattle.al_cli_scripts.specs.Private.Next.{IsNext, IsLineOf, IsPutOf, IsLengthOf};
ghost use Rattle.al_cli_scripts.specs.Private.Next.{IsPutLine, IsDeleteOf};
ghost use Rattle.al_cli_scripts.specs.Script.{HasNoBreak, IsPathText};

use al_base::limits::LONGEST_LINE;
use itoa::Buffer;

/// A command of a script.
#[derive(Clone, Copy)]
pub enum Command<'a> {
    /// A path, and the bytes to put there.
    Put(&'a str, &'a [u8]),
    /// The path of the file to delete.
    Delete(&'a str),
    Report,
}

/// What the unread bytes of a script begin with.
#[derive(Clone, Copy)]
pub enum NextCommand<'a> {
    /// A command, and its length in bytes.
    Whole(Command<'a>, usize),
    /// No whole command yet, but possibly the beginning of one.
    Pending,
    /// No command, whatever comes after.
    Wrong,
}

/// One more than the greatest length of seven digits.
const LENGTHS: u32 = 10_000_000;

// A command's line.
#[derive(Clone, Copy)]
pub(crate) enum Line<'a> {
    Put(&'a str, usize),
    Delete(&'a str),
    Report,
}

/// The command that these bytes begin with.
pub fn next_command(bytes: &[u8]) -> NextCommand<'_>
    ensures { IsNext bytes.now result }
{
    let Some(end) = find_break(bytes) else {
        return if bytes.len() > LONGEST_LINE {
            NextCommand::Wrong
        } else {
            NextCommand::Pending
        };
    };
    match read_line(&bytes[..end]) {
        None => NextCommand::Wrong,
        Some(Line::Report) => NextCommand::Whole(Command::Report, end + 1),
        Some(Line::Delete(path)) => NextCommand::Whole(Command::Delete(path), end + 1),
        Some(Line::Put(path, length)) => next_put(bytes, end, path, length),
    }
}

// The `put` whose line ends at `end`.
fn next_put<'a>(bytes: &'a [u8], end: usize, path: &'a str, length: usize) -> NextCommand<'a>
    requires line { IsPutLine bytes.now end path.now length }
    ensures { IsNext bytes.now result }
{
    let body = &bytes[end + 1..];
    if body.len() <= length {
        NextCommand::Pending
    } else if body[length] != b'\n' {
        NextCommand::Wrong
    } else {
        NextCommand::Whole(Command::Put(path, &body[..length]), end + 1 + length + 1)
    }
}

// The offset of the first line feed, if the line before it isn't too long.
fn find_break(bytes: &[u8]) -> Option<usize>
    ensures { MatchOption result (HasNoBreak (take (longest_line + 1) bytes.now))
        (λ end. (end < length bytes.now) × (end ≤ longest_line) × HasNoBreak (take end bytes.now)
        × (slice_index bytes.now end ≡ 10)) }
{
    let start = &bytes[..bytes.len().min(LONGEST_LINE + 1)];
    start.iter().position(|b| *b == b'\n')
}

// The command line with these bytes.
fn read_line(line: &[u8]) -> Option<Line<'_>>
    requires one { HasNoBreak line.now }
    requires short { length line.now ≤ longest_line }
    ensures { IsLineOf line.now result }
{
    if line == b"report".as_slice() {
        return Some(Line::Report);
    }
    match line.strip_prefix(b"put ") {
        Some(rest) => read_put(rest).map(|(path, length)| Line::Put(path, length)),
        None => read_delete(line),
    }
}

// The path of a `delete` line.
fn read_delete(line: &[u8]) -> Option<Line<'_>>
    requires { HasNoBreak line.now }
    ensures { IsDeleteOf line.now result }
{
    match line.strip_prefix(b"delete ") {
        None => None,
        Some(rest) => read_path(rest).map(|path| Line::Delete(path)),
    }
}

// The path and length of a `put` line, which its last space separates.
fn read_put(rest: &[u8]) -> Option<(&str, usize)>
    requires { HasNoBreak rest.now }
    ensures { IsPutOf rest.now result }
{
    match rest.iter().rposition(|b| *b == b' ') {
        None => None,
        Some(space) => read_path(&rest[..space]).zip(read_length(&rest[space + 1..])),
    }
}

// The text of a path: UTF-8, and not empty.
fn read_path(bytes: &[u8]) -> Option<&str>
    requires { HasNoBreak bytes.now }
    ensures { MatchOption result (IsPathText bytes.now → ⊥)
        (λ path. (path.now ≡ bytes.now) × IsPathText bytes.now) }
{
    if bytes.is_empty() {
        return None;
    }
    str::from_utf8(bytes).ok()
}

// The number below ten million with these digits.
fn read_length(digits: &[u8]) -> Option<usize>
    ensures { IsLengthOf digits.now result }
{
    let Ok(text) = str::from_utf8(digits) else {
        return None;
    };
    let Ok(length) = text.parse::<u32>() else {
        return None;
    };
    // Signs and leading zeros aren't allowed: a number has one spelling.
    let mut spelling = Buffer::new();
    (length < LENGTHS && spelling.format(length) == text).then_some(length as usize)
}
