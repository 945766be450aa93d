//! The names of jobs, steps and environment variables.

ghost use Rattle.al_expr_grammar.specs.Tokens.{begins_name, goes_on_name};
ghost use Rattle.al_rules_formats.specs.Names.{is_id as id, is_variable as variable};
ghost use Rattle.std.specs.Prelude.{◌≡◌};

/// Whether an id can begin with a byte.
fn begins(byte: u8) -> bool
    ensures { result ≡ begins_name byte }
{
    byte.is_ascii_alphabetic() || byte == b'_'
}

/// Whether an id can have a byte after its first.
fn continues(byte: u8) -> bool
    ensures { result ≡ goes_on_name byte }
{
    begins(byte) || byte.is_ascii_digit() || byte == b'-'
}

/// Whether a text is an id of a job or a step: an ASCII letter or `_`, then ASCII letters, digits,
/// `_` and `-`.
pub fn is_id(text: &[u8]) -> bool
    ensures { result ≡ id text.now }
{
    matches!(text, [first, rest @ ..] if begins(*first) && rest.iter().all(|byte| continues(*byte)))
}

/// Whether a text is the name of an environment variable: it isn't empty, and has no space, `=` or
/// `&`.
pub fn is_variable(text: &[u8]) -> bool
    ensures { result ≡ variable text.now }
{
    !text.is_empty() && text.iter().all(|byte| !matches!(*byte, b' ' | b'=' | b'&'))
}
