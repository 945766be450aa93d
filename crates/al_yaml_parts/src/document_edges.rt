//! What comes before and after a document's root.

ghost use Rattle.al_scalar.specs.Places.{lines_at};
ghost use Rattle.al_yaml_tree.specs.Document as document;
ghost use Rattle.al_yaml_parts.specs.Places.{Shows};
ghost use Rattle.std.specs.Prelude.{◌≤◌, IfErr, IfOk, length};

use crate::content::{line_after, next_text_line};
use al_base::YamlCode;
use al_scalar::FaultAt;
use al_scalar::lines::{begins, blanks_end, indent, is_marker};

/// The byte offset at which the lines of the root begin: the start of the first line that isn't
/// empty or a comment, or if that begins with `---`, of the line after it; the file's length if
/// there is no such line (YAML 1.2.2, 9.1).
///
/// `at` should be the start of a line: [`mark_end`](crate::bytes::mark_end) for a whole file.
/// Doesn't allocate.
///
/// # Requires
///
/// `at` is at most the number of bytes.
///
/// # Errors
///
/// A directive (Y10) at its `%`, or a character after `---` that doesn't begin a comment (Y13).
pub fn document_start(bytes: &[u8], at: usize) -> Result<usize, FaultAt>
    requires { at ≤ length bytes.now }
    ensures fault { IfErr result (λ f. f.at ≤ length bytes.now) }
    ensures is { Shows (lines_at bytes.now)
        (document.document_start (lines_at bytes.now at)) result }
    ensures inside { IfOk result (λ next. next ≤ length bytes.now) }
    ensures from { IfOk result (λ next. at ≤ next) }
{
    let line = next_text_line(bytes, at);
    if begins(bytes, line, b'%') {
        return Err(FaultAt::new(YamlCode::Directive, line));
    }
    if is_marker(bytes, line, b'-') {
        return line_after(bytes, line + 3);
    }
    Ok(line)
}

/// Whether only what may end a document comes after the root: empty lines and comments, or a `...`
/// with nothing but those after it (YAML 1.2.2, 9.1.2).
///
/// `at` should be where the rest of the file begins after the root. Doesn't allocate.
///
/// # Requires
///
/// `at` is at most the number of bytes.
///
/// # Errors
///
/// A second document (Y11), at its `---` or at what comes after `...`; or content that belongs to
/// no open collection: a tab after its line's spaces (Y3), or its first character (Y4).
pub fn document_end(bytes: &[u8], at: usize) -> Result<(), FaultAt>
    requires { at ≤ length bytes.now }
    ensures fault { IfErr result (λ f. f.at ≤ length bytes.now) }
    ensures is { Shows (λ _. tt) (document.document_end (lines_at bytes.now at)) result }
{
    let line = next_text_line(bytes, at);
    if line == bytes.len() {
        return Ok(());
    }
    if is_marker(bytes, line, b'-') {
        return Err(FaultAt::new(YamlCode::SecondDocument, line));
    }
    if is_marker(bytes, line, b'.') {
        let after = next_text_line(bytes, line + 3);
        if after == bytes.len() {
            return Ok(());
        }
        return Err(FaultAt::new(YamlCode::SecondDocument, blanks_end(bytes, after)));
    }
    let solid = line + indent(bytes, line);
    if begins(bytes, solid, b'\t') {
        return Err(FaultAt::new(YamlCode::TabInIndentation, solid));
    }
    Err(FaultAt::new(YamlCode::WrongIndentation, solid))
}
