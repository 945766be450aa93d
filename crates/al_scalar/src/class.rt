//! The class of a plain scalar: null, a boolean, an integer, a float or a string (YAML 1.2.2,
//! 10.3.2).

ghost use Rattle.std.specs.Prelude.{◌≡◌, IsTrue};
ghost use Rattle.std.specs.Char.{is_ascii_digit};
ghost use Rattle.al_scalar.specs.Class.{is_integer, is_float, is_decimal, is_fraction};
ghost use Rattle.al_scalar.specs.Class.{is_pure_fraction};
ghost use Rattle.al_scalar.specs.Class.{is_exponent, after_digits, is_prefixed, without_sign};
ghost use Rattle.al_scalar.specs.Class.{are_digits, is_digit_in};
ghost use Rattle.al_scalar.specs.Class.{class_of};
ghost use Rattle.al_base.specs.FirstBytes.{first_is};

use crate::styles::Class;
use al_base::is_among;

/// The texts of null.
const NULLS: [&str; 5] = ["", "null", "Null", "NULL", "~"];

/// The texts of true and false.
const BOOLEANS: [&str; 6] = ["true", "True", "TRUE", "false", "False", "FALSE"];

/// The texts of infinity, which may have a sign.
const INFINITIES: [&str; 3] = [".inf", ".Inf", ".INF"];

/// The texts of "not a number".
const NOT_NUMBERS: [&str; 3] = [".nan", ".NaN", ".NAN"];

/// The base of a number's digits.
#[derive(Clone, Copy)]
enum Base {
    Octal,
    Decimal,
    Hexadecimal,
}

/// Whether a byte is a digit.
fn is_digit(base: Base, byte: u8) -> bool
    ensures { result ≡ is_digit_in base byte }
{
    match base {
        Base::Octal => matches!(byte, b'0'..=b'7'),
        Base::Decimal => byte.is_ascii_digit(),
        Base::Hexadecimal => byte.is_ascii_hexdigit(),
    }
}

/// Whether a text consists of one or more digits.
fn are_digits(base: Base, text: &[u8]) -> bool
    ensures { result ≡ are_digits base text.now }
{
    !text.is_empty() && text.iter().all(|byte| is_digit(base, *byte))
}

/// A text without its sign.
fn without_sign(text: &[u8]) -> &[u8]
    ensures { result.now ≡ without_sign text.now }
{
    match text {
        [b'+' | b'-', rest @ ..] => rest,
        _ => text,
    }
}

/// Whether a text is a zero, a letter and digits.
fn is_prefixed(letter: u8, base: Base, text: &[u8]) -> bool
    ensures { result ≡ is_prefixed letter base text.now }
{
    matches!(text, [b'0', second, digits @ ..] if *second == letter && are_digits(base, digits))
}

/// Whether a text is an integer.
fn is_integer(text: &[u8]) -> bool
    ensures { result ≡ is_integer text.now }
{
    are_digits(Base::Decimal, without_sign(text))
        || is_prefixed(b'o', Base::Octal, text)
        || is_prefixed(b'x', Base::Hexadecimal, text)
}

/// The rest of a text after its leading decimal digits.
fn after_digits(text: &[u8]) -> &[u8]
    ensures { result.now ≡ after_digits text.now }
{
    let mut rest = text;
    'digits: while let [b'0'..=b'9', more @ ..] = rest {
        rest = more;
    }
    rest
}

/// Whether a text begins with a decimal digit.
fn begins_digit(text: &[u8]) -> bool
    ensures { result ≡ first_is is_ascii_digit text.now }
{
    matches!(text, [b'0'..=b'9', ..])
}

/// Whether a text is empty or an exponent.
fn is_exponent(text: &[u8]) -> bool
    ensures { result ≡ is_exponent text.now }
{
    match text {
        [] => true,
        [b'e' | b'E', power @ ..] => are_digits(Base::Decimal, without_sign(power)),
        _ => false,
    }
}

/// Whether a text may follow the digits of a float.
fn is_fraction(text: &[u8]) -> bool
    ensures { result ≡ is_fraction text.now }
{
    match text {
        [b'.', digits @ ..] => is_exponent(after_digits(digits)),
        _ => is_exponent(text),
    }
}

/// Whether a text is a float that begins with its point.
fn is_pure_fraction(text: &[u8]) -> bool
    ensures { result ≡ is_pure_fraction text.now }
{
    matches!(text, [b'.', rest @ ..] if begins_digit(rest) && is_exponent(after_digits(rest)))
}

/// Whether a text is a float in decimal digits, without a sign.
fn is_decimal(text: &[u8]) -> bool
    ensures { result ≡ is_decimal text.now }
{
    is_pure_fraction(text) || (begins_digit(text) && is_fraction(after_digits(text)))
}

/// Whether a text is a float, in digits or as a word.
fn is_float(text: &[u8]) -> bool
    ensures { result ≡ is_float text.now }
{
    let number = without_sign(text);
    is_decimal(number) || is_among(number, &INFINITIES) || is_among(text, &NOT_NUMBERS)
}

/// Whether the first byte of a text shows that it is a string, as is the case for most texts.
#[tactic(auto, using(crate::proofs::ClassLemmas::is_string))]
fn begins_string(text: &[u8]) -> bool
    ensures { IsTrue result → class_of text.now ≡ Class.Str }
{
    !matches!(
        text,
        [] | [
            b'0'..=b'9' | b'+' | b'-' | b'.' | b'~' | b'n' | b'N' | b't' | b'T' | b'f' | b'F',
            ..
        ]
    )
}

/// The class of a plain scalar with this text, by the core schema (YAML 1.2.2, 10.3.2).
pub fn class_of(text: &[u8]) -> Class
    ensures { result ≡ class_of text.now }
{
    if begins_string(text) {
        Class::Str
    } else if is_among(text, &NULLS) {
        Class::Null
    } else if is_among(text, &BOOLEANS) {
        Class::Bool
    } else if is_integer(text) {
        Class::Int
    } else if is_float(text) {
        Class::Float
    } else {
        Class::Str
    }
}
