//! A printed fault whose arguments have control bytes.

use al_base::{Args, Code, Fault, KeyCode, Output, Span, Stop};
use al_text::{Format, PrintedFile, write_fault};
use std::alloc::{AllocError, Global};

fn args_of(alloc: Global, text: &str) -> Result<Args, AllocError> {
    Ok(Args::one(String::from_str(alloc, text)?))
}

fn printed(alloc: Global, args: Args) -> Result<Vec<u8>, Stop> {
    let fault = Fault {
        span: Span { start: 3, end: 4 },
        code: Code::Key(KeyCode::Unexpected),
        args,
    };
    let mut output = Vec::new(alloc);
    let file = PrintedFile {
        path: "x.yml",
        bytes: b"a\r\nb",
        format: Format::Oneline,
    };
    write_fault(&mut Output::new(&mut output), &file, &fault)?;
    Ok(output)
}

const PRINTED: &[u8] = b"x.yml:2:1: unexpected key \"a?b?\" [syntax-check]\n";

fn wanted() -> &'static [u8] {
    PRINTED
}

fn is_printed(alloc: Global, text: &str) -> Result<bool, Stop> {
    let found = printed(alloc, args_of(alloc, text)?)?;
    Ok(found.as_slice() == wanted())
}

#[test]
fn control_bytes_are_not_printed(rt: HostRuntime) -> Result<(), Stop> {
    assert!(rt; is_printed(rt.alloc(), "a\tb\u{7f}")?);
    Ok(())
}
