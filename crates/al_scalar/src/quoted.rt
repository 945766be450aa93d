//! Quoted scalars and their escapes (YAML 1.2.2, 5.7, 7.3.1 and 7.3.2).

ghost use Rattle.std.specs.Prelude.{◌≡◌, ◌==◌, ◌+◌, ◌<◌, ◌≤◌, ◌^◌, suc, length, IfOk, IfSome};
ghost use Rattle.std.specs.Prelude.{slice_index, IsTrue, ◌↔◌, Some, None};
ghost use Rattle.al_scalar.specs.Places.{lines_at};
ghost use Rattle.al_scalar.specs.LineEnds.{cells_between};
ghost use Rattle.al_scalar.specs.Quoted.{escape_table, digits_table};
ghost use Rattle.std.specs.Map.{lookup};
ghost use Rattle.al_scalar.specs.Private.Reads.{Gives, StaysWithin};
ghost use Rattle.al_scalar.specs.Private.QuotedRead.{IsMarkByte, ReadsOn, EndsRun, GivesMark};
ghost use Rattle.al_scalar.specs.Private.QuotedRead.{GivesDigits, quoted_in};
ghost use Rattle.al_scalar.specs.declared.quoted.Quotes.TheVariants.{Single, Double};

use crate::faults::FaultAt;
use crate::folding::fold_break;
use crate::lines::{begins, blanks_end, is_break_at, is_line_end};
use crate::reads::Taken;
use crate::texts::Text;
use al_base::YamlCode;
use std::alloc::{AllocError, Global};

/// The quotes around a scalar.
#[derive(Clone, Copy)]
pub enum Quotes {
    Single,
    Double,
}

/// Whether a byte doesn't stand for itself in quotes: a quote, or in double quotes a backslash.
fn is_mark(byte: u8, quotes: Quotes) -> bool
    ensures { IsTrue result ↔ IsMarkByte quotes byte }
{
    match quotes {
        Quotes::Single => byte == b'\'',
        Quotes::Double => byte == b'"' || byte == b'\\',
    }
}

/// A run of characters that stand for themselves: the offset after its last character, and that of
/// the quote, backslash, break or end of file that follows. Only blanks before the end of a line
/// lie between the two.
#[derive(Clone, Copy)]
struct Run {
    end: usize,
    next: usize,
}

/// Reads the characters that stand for themselves, starting at an offset.
fn literal_run(bytes: &[u8], at: usize, quotes: Quotes) -> Run
    requires { at ≤ length bytes.now }
    ensures from { at ≤ result.end }
    ensures order { result.end ≤ result.next }
    ensures inside { result.next ≤ length bytes.now }
    ensures ends { EndsRun quotes bytes.now result.next }
    ensures reads { ReadsOn quotes bytes.now at (cells_between bytes.now at result.end)
        result.next }
{
    let mut end = at;
    'characters: loop {
        let solid = blanks_end(bytes, end);
        if is_line_end(bytes, solid) {
            return Run { end, next: solid };
        }
        if is_mark(bytes[solid], quotes) {
            return Run {
                end: solid,
                next: solid,
            };
        }
        end = solid + 1;
    }
}

/// What ends a run of characters that stand for themselves.
enum Mark {
    /// The closing quote.
    Quote,
    /// An escaped character, and the offset after the escape.
    Character { character: char, next: usize },
    /// A break at an offset.
    Break { end: usize, escaped: bool },
    /// A backslash that doesn't begin an escape.
    WrongEscape,
    /// The end of the file, which may cut an escape.
    FileEnd,
}

/// The character that a letter after a backslash stands for (YAML 1.2.2, 5.7).
fn escaped_character(letter: u8) -> Option<char>
    ensures { result ≡ lookup (λ k. k == letter) escape_table }
{
    match letter {
        b'0' => Some('\0'),
        b'a' => Some('\u{7}'),
        b'b' => Some('\u{8}'),
        b't' | b'\t' => Some('\t'),
        b'n' => Some('\n'),
        b'v' => Some('\u{b}'),
        b'f' => Some('\u{c}'),
        b'r' => Some('\r'),
        b'e' => Some('\u{1b}'),
        b' ' => Some(' '),
        b'"' => Some('"'),
        b'/' => Some('/'),
        b'\\' => Some('\\'),
        b'N' => Some('\u{85}'),
        b'_' => Some('\u{a0}'),
        b'L' => Some('\u{2028}'),
        b'P' => Some('\u{2029}'),
        _ => None,
    }
}

/// How many hexadecimal digits follow a letter after a backslash (YAML 1.2.2, 5.7).
fn digit_count(letter: u8) -> Option<usize>
    ensures value { result ≡ lookup (λ k. k == letter) digits_table }
    ensures few { IfSome result (λ count. count ≤ 8) }
{
    match letter {
        b'x' => Some(2),
        b'u' => Some(4),
        b'U' => Some(8),
        _ => None,
    }
}

/// The hexadecimal digits of an escape.
enum Digits {
    /// All of them, and their value.
    Code(u32),
    /// A character that isn't a digit.
    Wrong,
    /// Too few digits, up to the end of the line at an offset.
    Short(usize),
}

/// Reads a given number of hexadecimal digits at an offset.
fn read_digits(bytes: &[u8], from: usize, count: usize) -> Digits
    requires inside { from ≤ length bytes.now }
    requires size { length bytes.now < 2 ^ 32 }
    requires few { count ≤ 8 }
    ensures { GivesDigits bytes.now from count result }
{
    let mut value = 0;
    for i in from..from + count {
        if is_line_end(bytes, i) {
            return Digits::Short(i);
        }
        match (bytes[i] as char).to_digit(16) {
            Some(digit) => value = 16 * value + digit,
            None => return Digits::Wrong,
        }
    }
    Digits::Code(value)
}

/// Reads the escape of a character by its number: a backslash, a letter and a given number of
/// hexadecimal digits.
fn numeric_escape(bytes: &[u8], backslash: usize, count: usize) -> Mark
    requires inside { backslash + 1 < length bytes.now }
    requires size { length bytes.now < 2 ^ 32 }
    requires escape { slice_index bytes.now backslash ≡ 92 }
    requires other { lookup (λ k. k == slice_index bytes.now (backslash + 1)) escape_table ≡ None }
    requires letter { lookup (λ k. k == slice_index bytes.now (backslash + 1)) digits_table
        ≡ Some count }
    requires few { count ≤ 8 }
    ensures { GivesMark Double bytes.now backslash result }
{
    let letter = backslash + 1;
    let from = letter + 1;
    let code = match read_digits(bytes, from, count) {
        Digits::Code(code) => code,
        Digits::Wrong => return Mark::WrongEscape,
        Digits::Short(end) if end == bytes.len() => return Mark::FileEnd,
        Digits::Short(_) => return Mark::WrongEscape,
    };
    match char::from_u32(code) {
        Some(character) => Mark::Character {
            character,
            next: from + count,
        },
        None => Mark::WrongEscape,
    }
}

/// Reads the escape that begins with a backslash at an offset.
fn escape_at(bytes: &[u8], backslash: usize) -> Mark
    requires inside { backslash < length bytes.now }
    requires size { length bytes.now < 2 ^ 32 }
    requires escape { slice_index bytes.now backslash ≡ 92 }
    ensures { GivesMark Double bytes.now backslash result }
{
    let at = backslash + 1;
    if at == bytes.len() {
        return Mark::FileEnd;
    }
    if is_break_at(bytes, at) {
        return Mark::Break {
            end: at,
            escaped: true,
        };
    }
    let letter = bytes[at];
    if let Some(character) = escaped_character(letter) {
        return Mark::Character {
            character,
            next: at + 1,
        };
    }
    match digit_count(letter) {
        Some(count) => numeric_escape(bytes, backslash, count),
        None => Mark::WrongEscape,
    }
}

/// Reads what ends a run of characters that stand for themselves. Two single quotes stand for one.
fn mark_at(bytes: &[u8], at: usize, quotes: Quotes) -> Mark
    requires inside { at ≤ length bytes.now }
    requires size { length bytes.now < 2 ^ 32 }
    requires ends { EndsRun quotes bytes.now at }
    ensures { GivesMark quotes bytes.now at result }
{
    if at == bytes.len() {
        return Mark::FileEnd;
    }
    if is_line_end(bytes, at) {
        return Mark::Break {
            end: at,
            escaped: false,
        };
    }
    match quotes {
        Quotes::Single if begins(bytes, at + 1, b'\'') => Mark::Character {
            character: '\'',
            next: at + 2,
        },
        Quotes::Single => Mark::Quote,
        Quotes::Double if bytes[at] == b'"' => Mark::Quote,
        Quotes::Double => escape_at(bytes, at),
    }
}

/// Reads a quoted scalar, starting at its opening quote (YAML 1.2.2, 7.3.1 and 7.3.2).
///
/// The fault is `UnclosedQuote` at the opening quote if the file ends before the closing one, even
/// within an escape, and `WrongEscape` at the backslash of an escape that YAML doesn't have or
/// whose number isn't that of a character.
pub fn read_quoted(
    alloc: Global,
    bytes: &[u8],
    quote: usize,
    quotes: Quotes,
) -> Result<Result<Taken, FaultAt>, AllocError>
    requires inside { quote < length bytes.now }
    requires size { length bytes.now < 2 ^ 32 }
    ensures gives { IfOk result
        (λ read. Gives bytes.now (quoted_in quotes quote (lines_at bytes.now (suc quote))) read) }
    ensures within { IfOk result (λ read. StaysWithin bytes.now quote read) }
{
    let mut text = Text::new(alloc, quote);
    let mut at = quote + 1;
    'runs: loop {
        let run = literal_run(bytes, at, quotes);
        text.push_run(bytes, at, run.end)?;
        at = match mark_at(bytes, run.next, quotes) {
            Mark::Quote => {
                let next = run.next + 1;
                return Ok(Ok(Taken {
                    text,
                    end: next,
                    next,
                }));
            }
            Mark::Character { character, next } => {
                let mut buffer = [0; 4];
                text.push_escape(character.encode_utf8(&mut buffer).as_bytes(), run.next)?;
                next
            }
            Mark::Break { end, escaped } => fold_break(&mut text, bytes, end, escaped)?,
            Mark::WrongEscape => {
                return Ok(Err(FaultAt {
                    code: YamlCode::WrongEscape,
                    at: run.next,
                }));
            }
            Mark::FileEnd => {
                return Ok(Err(FaultAt {
                    code: YamlCode::UnclosedQuote,
                    at: quote,
                }));
            }
        };
    }
}
