//! The commands of standard input, as bytes.

ghost use Rattle.std.specs.Prelude.{◌<◌, IfSome, length};

use al_text::limits::LONGEST_LINE;

/// A command.
#[derive(Clone, Copy)]
pub enum Command<'a> {
    Help,
    /// The path, and the bytes to put there.
    Put(&'a str, &'a [u8]),
    /// The path of the file to delete.
    Delete(&'a str),
    /// The path of the file whose faults are asked for.
    Faults(&'a str),
    /// The same for its first faults, and how many of these at most.
    First(&'a str, usize),
    Report,
    Cycles,
    Lacks,
    Tables,
    /// A question about the file with a path.
    Of(Question, &'a str),
    /// A question about bytes that aren't put, and the path by which they are read.
    OfBytes(Question, &'a str, &'a [u8]),
}

/// What is asked about a single file, whatever else is in the folder.
#[derive(Clone, Copy)]
pub enum Question {
    Tree,
    Expressions,
    Calls,
}

/// Why bytes aren't a command.
#[derive(Clone, Copy, PartialEq, Eq)]
pub enum Wrong {
    Unknown,
    NotUtf8,
    LongLine,
    NoNumber,
    NoLineFeed,
    Cut,
}

/// What the unread bytes begin with.
#[derive(Clone, Copy)]
pub enum Next<'a> {
    /// A command, and its length in bytes.
    Whole(Command<'a>, usize),
    /// Bytes that aren't a command, and their length.
    Wrong(Wrong, usize),
    /// The beginning of a command, possibly.
    Pending,
}

// What the bytes after a line are for.
#[derive(Clone, Copy)]
enum Use {
    Put,
    Ask(Question),
}

// A command's line.
#[derive(Clone, Copy)]
enum Line<'a> {
    Whole(Command<'a>),
    /// A path, and the number of the bytes after the line.
    WithBytes(Use, &'a str, usize),
    Wrong(Wrong),
}

/// The offset of the first line feed, if the line before it isn't too long.
fn line_end(bytes: &[u8]) -> Option<usize>
    ensures { IfSome result (λ end. end < length bytes.now) }
{
    let start = &bytes[..bytes.len().min(LONGEST_LINE + 1)];
    start.iter().position(|b| *b == b'\n')
}

/// What these bytes begin with.
pub fn next_command(bytes: &[u8]) -> Next<'_> {
    match line_end(bytes) {
        Some(end) => command_at(bytes, end),
        None if bytes.len() > LONGEST_LINE => Next::Wrong(Wrong::LongLine, LONGEST_LINE + 1),
        None => Next::Pending,
    }
}

// The command whose line ends at `end`.
fn command_at(bytes: &[u8], end: usize) -> Next<'_>
    requires { end < length bytes.now }
{
    match read_line(&bytes[..end]) {
        Line::Whole(command) => Next::Whole(command, end + 1),
        Line::WithBytes(purpose, path, length) => {
            next_with_bytes(bytes, end, (purpose, path), length)
        }
        Line::Wrong(wrong) => Next::Wrong(wrong, end + 1),
    }
}

// The command with these bytes.
fn command_with<'a>(purpose: Use, path: &'a str, bytes: &'a [u8]) -> Command<'a> {
    match purpose {
        Use::Put => Command::Put(path, bytes),
        Use::Ask(question) => Command::OfBytes(question, path, bytes),
    }
}

// The command with a number of bytes whose line, with a path, ends at `end`.
fn next_with_bytes<'a>(bytes: &'a [u8], end: usize, line: (Use, &'a str), size: usize) -> Next<'a>
    requires { end < length bytes.now }
{
    let body = &bytes[end + 1..];
    if body.len() <= size {
        Next::Pending
    } else if body[size] != b'\n' {
        Next::Wrong(Wrong::NoLineFeed, end + 1 + size)
    } else {
        let (purpose, path) = line;
        Next::Whole(
            command_with(purpose, path, &body[..size]),
            end + 1 + size + 1,
        )
    }
}

fn read_line(line: &[u8]) -> Line<'_> {
    let Ok(text) = str::from_utf8(line) else {
        return Line::Wrong(Wrong::NotUtf8);
    };
    match text.split_once(' ') {
        None => read_word(text),
        Some((word, rest)) => read_path(word, rest),
    }
}

// A command without a path.
fn read_word(word: &str) -> Line<'_> {
    Line::Whole(match word {
        "help" => Command::Help,
        "report" => Command::Report,
        "cycles" => Command::Cycles,
        "lacks" => Command::Lacks,
        "tables" => Command::Tables,
        _ => return Line::Wrong(Wrong::Unknown),
    })
}

// A command with a path.
fn read_path<'a>(word: &str, path: &'a str) -> Line<'a> {
    if let Some(question) = question_named(word) {
        return Line::Whole(Command::Of(question, path));
    }
    match word {
        "put" => read_sized(Use::Put, path),
        "delete" => Line::Whole(Command::Delete(path)),
        "faults" => Line::Whole(Command::Faults(path)),
        "first" => read_first(path),
        "bytes" => read_bytes(path),
        _ => Line::Wrong(Wrong::Unknown),
    }
}

fn question_named(word: &str) -> Option<Question> {
    match word {
        "tree" => Some(Question::Tree),
        "expressions" => Some(Question::Expressions),
        "calls" => Some(Question::Calls),
        _ => None,
    }
}

// The path and number of faults of a `first`.
fn read_first(rest: &str) -> Line<'_> {
    match read_numbered(rest) {
        Some((path, most)) => Line::Whole(Command::First(path, most)),
        None => Line::Wrong(Wrong::NoNumber),
    }
}

// The question, path and length of a `bytes`.
fn read_bytes(rest: &str) -> Line<'_> {
    let Some((word, sized)) = rest.split_once(' ') else {
        return Line::Wrong(Wrong::Unknown);
    };
    match question_named(word) {
        Some(question) => read_sized(Use::Ask(question), sized),
        None => Line::Wrong(Wrong::Unknown),
    }
}

// The path and length of a command with bytes.
fn read_sized(purpose: Use, rest: &str) -> Line<'_> {
    match read_numbered(rest) {
        Some((path, length)) => Line::WithBytes(purpose, path, length),
        None => Line::Wrong(Wrong::NoNumber),
    }
}

// A path and a number, which the last space separates.
fn read_numbered(rest: &str) -> Option<(&str, usize)> {
    let (path, digits) = rest.rsplit_once(' ')?;
    Some((path, read_number(digits)?))
}

// The number with these digits, of which there are at most seven, and no needless zeros.
fn read_number(digits: &str) -> Option<usize> {
    if digits.len() > 7 || digits.len() > 1 && digits.starts_with('0') {
        return None;
    }
    if !digits.bytes().all(|digit| digit.is_ascii_digit()) {
        return None;
    }
    match digits.parse::<u32>() {
        Ok(number) => Some(number as usize),
        Err(_) => None,
    }
}
