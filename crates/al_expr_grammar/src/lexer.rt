//! The tokens of a content, or the character at which they end early.

ghost use Rattle.std.specs.Prelude.{map, IfOk, IfSome, All, MatchOption, MatchResult, drop};
ghost use Rattle.std.specs.Prelude.{not, slice_index};
ghost use Rattle.std.specs.Prelude.{◌+◌, ◌≡◌, ◌≢◌, ◌≤◌, ◌<◌, Some, length};
ghost use Rattle.std.specs.List.{prefix_len};
ghost use Rattle.al_expr_grammar.specs.Lexeme.{seen};
ghost use Rattle.al_base.specs.Limits.{longest_text};
ghost use Rattle.al_base.specs.Positions.{begins_char};
ghost use Rattle.al_expr_grammar.specs.Tokens.{goes_on_name, is_blank_byte, mark, word_kind};
ghost use Rattle.al_expr_grammar.specs.Tokens.{text_tail, read, tokens_of, AllRead};
ghost use Rattle.al_expr_grammar.specs.Refusal.{fault_of_lexed};

use crate::faults::{plain_fault, unclosed_text};
use crate::number::number_len;
use crate::token::{Keyword, Operator, Token, TokenKind};
use al_base::{ExpressionCode, Fault, Span, is_char_start};
use std::alloc::{AllocError, Global};

/// What the rest of a content begins with.
#[derive(Clone, Copy)]
enum Read {
    /// A byte between tokens.
    Blank,
    /// A token with this many bytes.
    Token(TokenKind, usize),
    /// A character that begins no token.
    BadCharacter,
    /// A string that is never closed.
    OpenText,
}

/// Whether a byte separates tokens: a blank or a part of a break.
fn is_blank(b: u8) -> bool
    ensures { result ≡ is_blank_byte b }
{
    matches!(b, b' ' | b'\t' | b'\n' | b'\r')
}

/// The length of the name at the start.
fn name_len(bytes: &[u8]) -> usize
    ensures value { result ≡ prefix_len goes_on_name bytes.now }
    ensures within { result ≤ length bytes.now }
{
    bytes
        .iter()
        .take_while(|b| b.is_ascii_alphanumeric() || **b == b'_' || **b == b'-')
        .count()
}

/// The number of bytes at the start that continue a character.
fn inside_len(bytes: &[u8]) -> usize
    ensures value { result ≡ prefix_len (λ b. not (begins_char b)) bytes.now }
    ensures within { result ≤ length bytes.now }
{
    bytes.iter().take_while(|b| !is_char_start(**b)).count()
}

/// The kind of a name: a keyword or any other name.
fn name_kind(name: &[u8]) -> TokenKind
    ensures { result ≡ word_kind name.now }
{
    match name {
        b"null" => TokenKind::Keyword(Keyword::Null),
        b"true" => TokenKind::Keyword(Keyword::True),
        b"false" => TokenKind::Keyword(Keyword::False),
        _ => TokenKind::Name,
    }
}

/// The number of bytes after the opening quote of a string, the closing one included; `None` if it
/// is never closed. A doubled quote is part of the string.
fn text_len(bytes: &[u8]) -> Option<usize>
    ensures value { result ≡ text_tail bytes.now }
    ensures within { IfSome result (λ n. n ≤ length bytes.now) }
{
    let mut closes = false;
    for (i, b) in bytes.iter().enumerate() {
        if *b == b'\'' {
            closes = !closes;
        } else if closes {
            return Some(i);
        }
    }
    if closes { Some(bytes.len()) } else { None }
}

/// The mark at the start; the longer one, if there are two.
fn mark_at(bytes: &[u8]) -> Read
    ensures { result ≡ mark bytes.now }
{
    match bytes {
        [b'(', ..] => Read::Token(TokenKind::Open, 1),
        [b')', ..] => Read::Token(TokenKind::Close, 1),
        [b'[', ..] => Read::Token(TokenKind::OpenIndex, 1),
        [b']', ..] => Read::Token(TokenKind::CloseIndex, 1),
        [b'.', ..] => Read::Token(TokenKind::Dot, 1),
        [b',', ..] => Read::Token(TokenKind::Comma, 1),
        [b'*', ..] => Read::Token(TokenKind::Star, 1),
        [b'!', b'=', ..] => Read::Token(TokenKind::Infix(Operator::NotEqual), 2),
        [b'!', ..] => Read::Token(TokenKind::Bang, 1),
        [b'<', b'=', ..] => Read::Token(TokenKind::Infix(Operator::LessEqual), 2),
        [b'<', ..] => Read::Token(TokenKind::Infix(Operator::Less), 1),
        [b'>', b'=', ..] => Read::Token(TokenKind::Infix(Operator::GreaterEqual), 2),
        [b'>', ..] => Read::Token(TokenKind::Infix(Operator::Greater), 1),
        [b'=', b'=', ..] => Read::Token(TokenKind::Infix(Operator::Equal), 2),
        [b'&', b'&', ..] => Read::Token(TokenKind::Infix(Operator::And), 2),
        [b'|', b'|', ..] => Read::Token(TokenKind::Infix(Operator::Or), 2),
        _ => Read::BadCharacter,
    }
}

/// What the bytes begin with.
fn read_at(bytes: &[u8]) -> Read
    ensures { result ≡ read bytes.now }
{
    let [first, rest @ ..] = bytes else {
        return Read::BadCharacter;
    };
    if is_blank(*first) {
        Read::Blank
    } else if first.is_ascii_alphabetic() || *first == b'_' {
        let len = name_len(bytes);
        Read::Token(name_kind(&bytes[..len]), len)
    } else if *first == b'\'' {
        match text_len(rest) {
            Some(len) => Read::Token(TokenKind::Text, 1 + len),
            None => Read::OpenText,
        }
    } else if first.is_ascii_digit() || *first == b'+' || *first == b'-' {
        match number_len(bytes) {
            0 => Read::BadCharacter,
            len => Read::Token(TokenKind::Number, len),
        }
    } else {
        mark_at(bytes)
    }
}

/// The offset of the last quote.
pub fn last_quote(bytes: &[u8]) -> Option<usize>
    ensures { MatchOption result (All (λ b. b ≢ 39) bytes.now)
        (λ i. (i < length bytes.now) × (slice_index bytes.now i ≡ 39)
        × All (λ b. b ≢ 39) (drop (i + 1) bytes.now)) }
{
    bytes.iter().rposition(|b| *b == b'\'')
}

/// The tokens of a content, in order, with their texts and spans in it.
///
/// The inner `Err` is the content's fault: X1 at the first character that begins no token, or X2 at
/// the content's last quote if a string is never closed.
///
/// # Requires
///
/// At most 4,194,304 bytes.
///
/// # Errors
///
/// `AllocError` if memory runs out.
#[tactic(auto, using(crate::proofs::Lexing::past_blank))]
pub fn lex(alloc: Global, content: &str) -> Result<Result<Vec<Token>, Fault>, AllocError>
    requires { length content.now ≤ longest_text }
    ensures { IfOk result
        (λ r. MatchResult r (λ v. tokens_of content.now ≡ AllRead (map seen v.items))
        (λ f. fault_of_lexed content.now (tokens_of content.now) ≡ Some f)) }
{
    let mut tokens = Vec::new(alloc);
    let mut start = 0;
    let mut rest = content;
    'tokens: while !rest.is_empty() {
        match read_at(rest.as_bytes()) {
            Read::Blank => {
                start += 1;
                rest = &rest[1..];
            }
            Read::Token(kind, len) => {
                let end = start + len as u32;
                let (text, after) = rest.split_at(len);
                let span = Span { start, end };
                tokens.push(Token { kind, text, span })?;
                start = end;
                rest = after;
            }
            Read::BadCharacter => {
                let end = start + 1 + inside_len(&rest.as_bytes()[1..]) as u32;
                let span = Span { start, end };
                return Ok(Err(plain_fault(ExpressionCode::BadCharacter, span)));
            }
            Read::OpenText => {
                let Some(quote) = last_quote(content.as_bytes()) else {
                    unreachable!()
                };
                return Ok(Err(unclosed_text(quote)));
            }
        }
    }
    Ok(Ok(tokens))
}
