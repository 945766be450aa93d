//! The paths of a folder's files.
ghost use Rattle.std.specs.Prelude.{◌≡◌, OnOk, IfOk, IfErr, None, unwrap_or};
ghost use Rattle.std.specs.List.{list_any};
ghost use Rattle.al_base.specs.Paths.{path_fault_of, bad_part, is_bad_byte, parts};
ghost use Rattle.al_base.specs.declared.paths.PathFault.TheVariants as fault;

use super::limits::LONGEST_PATH;
use super::names::is_among;
use std::alloc::{AllocError, Global};
use std::marker::Model;
use thiserror::Error;

/// Why a text isn't the path of a file in a folder (P1 to P5, in the order in which they are
/// checked), or that memory ran out.
#[derive(Clone, Copy, PartialEq, Eq, Debug, Error)]
pub enum PathFault {
    /// P1: the text is empty.
    #[error("empty path")]
    Empty,
    /// P2: the first byte is a slash.
    #[error("leading slash")]
    Absolute,
    /// P3: a part between slashes is empty, `.` or `..`.
    #[error("empty, `.` or `..` part")]
    BadPart,
    /// P4: a byte is a control byte (below 32, or 127) or a backslash.
    #[error("control byte or backslash")]
    BadByte,
    /// P5: the text has more than 1,024 bytes.
    #[error("too long")]
    TooLong,
    /// The text is a path, but memory ran out.
    #[error("out of memory")]
    Memory,
}

impl From<AllocError> for PathFault {
    ghost from_gives = { λ _ e. e ≡ fault.Memory };

    fn from(_: AllocError) -> PathFault {
        PathFault::Memory
    }
}

/// The path of a file of a folder: UTF-8, at most 1,024 bytes, with single slashes between its
/// parts, and none of the faults P1 to P5 ([`PathFault`]). Contracts see its bytes.
#[derive(Drop)]
pub struct Path {
    text: String,
}

impl Model for Path {
    ghost use Rattle.std.specs.Prelude.{◌≡◌, ℕ, List, string_bytes, None};
    ghost use Rattle.al_base.specs.Paths.{path_fault_of};

    ghost Value = { List ℕ };

    ghost view = { λ p. string_bytes p.text };

    ghost invariant = { λ p. path_fault_of (string_bytes p.text) ≡ None };
}

impl Path {
    /// The path with a copy of this text.
    ///
    /// # Errors
    ///
    /// The first reason by [`path_fault`] if the text isn't a path; [`PathFault::Memory`] if it is
    /// one, but memory runs out.
    pub fn new(alloc: Global, text: &str) -> Result<Path, PathFault>
        ensures path { IfOk result (λ path. path ≡ text.now) }
        ensures accepted { OnOk result (path_fault_of text.now ≡ None) }
        ensures refused { IfErr result (λ e. e ≡ unwrap_or (path_fault_of text.now) fault.Memory) }
    {
        match path_fault(text) {
            Some(fault) => Err(fault),
            None => Ok(Path {
                text: String::from_str(alloc, text)?,
            }),
        }
    }

    /// The path's text. Doesn't allocate.
    pub fn as_str(&self) -> &str
        ensures text { result.now ≡ self.now }
        ensures valid { path_fault_of result.now ≡ None }
    {
        self.text.as_str()
    }
}

/// The first reason, P1 to P5, why a text isn't the path of a file in a folder; `None` if it is
/// one. Doesn't allocate.
pub fn path_fault(path: &str) -> Option<PathFault>
    ensures { result ≡ path_fault_of path.now }
{
    match path.as_bytes() {
        [] => Some(PathFault::Empty),
        [b'/', ..] => Some(PathFault::Absolute),
        bytes if has_bad_part(bytes) => Some(PathFault::BadPart),
        bytes if has_bad_byte(bytes) => Some(PathFault::BadByte),
        bytes if bytes.len() > LONGEST_PATH => Some(PathFault::TooLong),
        _ => None,
    }
}

fn has_bad_part(path: &[u8]) -> bool
    ensures { result ≡ list_any bad_part (parts path.now) }
{
    path.split(|b| *b == b'/')
        .any(|part| is_among(part, &["", ".", ".."]))
}

fn has_bad_byte(path: &[u8]) -> bool
    ensures { result ≡ list_any is_bad_byte path.now }
{
    path.iter().any(|b| b.is_ascii_control() || *b == b'\\')
}
