//! The length of a number.

ghost use Rattle.std.specs.Prelude.{◌≡◌, ◌≤◌, ◌<◌, ◌+◌, ◌^◌, length};
ghost use Rattle.std.specs.Char.{is_ascii_digit, is_ascii_hexdigit};
ghost use Rattle.std.specs.List.{prefix_len};
ghost use Rattle.al_expr_grammar.specs.Tokens.{with_digits, fraction_len, exponent_len, hex_len};
ghost use Rattle.al_expr_grammar.specs.Tokens.{decimal_len};
ghost use Rattle.al_expr_grammar.specs.Tokens.{unsigned_len, number_len};

/// The number of digits at the start.
fn digits_len(bytes: &[u8]) -> usize
    ensures value { result ≡ prefix_len is_ascii_digit bytes.now }
    ensures within { result ≤ length bytes.now }
{
    bytes.iter().take_while(|b| b.is_ascii_digit()).count()
}

/// The number of hexadecimal digits at the start, in either case.
fn hex_digits_len(bytes: &[u8]) -> usize
    ensures value { result ≡ prefix_len is_ascii_hexdigit bytes.now }
    ensures within { result ≤ length bytes.now }
{
    bytes.iter().take_while(|b| b.is_ascii_hexdigit()).count()
}

/// The length of a part that needs at least one digit: this many bytes, then digits.
fn with_digits(lead: usize, digits: usize) -> usize
    requires { lead + digits < 2 ^ 64 }
    ensures { result ≡ with_digits lead digits }
{
    if digits == 0 { 0 } else { lead + digits }
}

/// The length of a dot with digits at the start, or 0.
fn fraction_len(bytes: &[u8]) -> usize
    ensures value { result ≡ fraction_len bytes.now }
    ensures within { result ≤ length bytes.now }
{
    match bytes {
        [b'.', rest @ ..] => with_digits(1, digits_len(rest)),
        _ => 0,
    }
}

/// The length of an exponent at the start, or 0.
fn exponent_len(bytes: &[u8]) -> usize
    ensures value { result ≡ exponent_len bytes.now }
    ensures within { result ≤ length bytes.now }
{
    match bytes {
        [b'e' | b'E', b'+' | b'-', rest @ ..] => with_digits(2, digits_len(rest)),
        [b'e' | b'E', rest @ ..] => with_digits(1, digits_len(rest)),
        _ => 0,
    }
}

/// The length of a hexadecimal number at the start, or 0.
fn hex_len(bytes: &[u8]) -> usize
    ensures value { result ≡ hex_len bytes.now }
    ensures within { result ≤ length bytes.now }
{
    match bytes {
        [b'0', b'x', rest @ ..] => with_digits(2, hex_digits_len(rest)),
        _ => 0,
    }
}

/// The length of a decimal number at the start, or 0.
fn decimal_len(bytes: &[u8]) -> usize
    ensures value { result ≡ decimal_len bytes.now }
    ensures within { result ≤ length bytes.now }
{
    let whole = digits_len(bytes);
    if whole == 0 {
        return 0;
    }
    let rest = &bytes[whole..];
    let part = fraction_len(rest);
    whole + part + exponent_len(&rest[part..])
}

/// The length of a number without a sign at the start, or 0.
fn unsigned_len(bytes: &[u8]) -> usize
    ensures value { result ≡ unsigned_len bytes.now }
    ensures within { result ≤ length bytes.now }
{
    hex_len(bytes).max(decimal_len(bytes))
}

/// The length of the longest number at the start, or 0 if there is none.
pub fn number_len(bytes: &[u8]) -> usize
    ensures value { result ≡ number_len bytes.now }
    ensures within { result ≤ length bytes.now }
{
    match bytes {
        [b'+' | b'-', rest @ ..] => with_digits(1, unsigned_len(rest)),
        _ => unsigned_len(bytes),
    }
}
