//! Tests of tokens, which no case in `tests/expressions` shows.

use crate::{Token, TokenKind, lex};
use std::alloc::{AllocError, Global};
use std::test::Fail;

/// Ends in a text that contains a quote.
const CONTENT: &str = "a.'it''s'";

/// Whether the third of three tokens is the text that contains a quote.
fn ends_in_text(tokens: &[Token<'_>]) -> bool {
    match tokens {
        [_, _, last] => {
            last.kind == TokenKind::Text && last.text == "'it''s'" && last.span.start == 2
        }
        _ => false,
    }
}

fn reads_text(alloc: Global) -> Result<bool, AllocError> {
    match lex(alloc, CONTENT)? {
        Ok(tokens) => Ok(ends_in_text(tokens.as_slice())),
        Err(_) => Ok(false),
    }
}

#[test]
fn tokens(rt: HostRuntime) -> Result<(), Fail> {
    assert!(rt; reads_text(rt.alloc())?);
    Ok(())
}
