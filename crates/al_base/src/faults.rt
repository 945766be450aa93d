//! A fault: its span, its code and the texts that its message names; the order of reports.
use crate::args::Args;
use crate::codes::Code;

/// The bytes of a file from `start` up to, and without, `end`: byte offsets from 0, with `start` at
/// most `end`.
#[derive(Clone, Copy, PartialEq, Eq, PartialOrd, Ord, Debug)]
pub struct Span {
    /// The offset of the first byte.
    pub start: u32,
    /// The offset after the last byte.
    pub end: u32,
}

/// What is wrong at a place of a file.
///
/// Faults are ordered as a report lists them: by where they start, where they end, their code, and
/// then their arguments, text by text and byte by byte.
#[derive(Drop, PartialEq, Eq, PartialOrd, Ord)]
pub struct Fault {
    /// The bytes of the file that are wrong.
    pub span: Span,
    /// What is wrong with them.
    pub code: Code,
    /// The texts that the message names, in its order; how many there are depends on the code.
    pub args: Args,
}
