//! Writing answers, each as one line.

ghost use Rattle.std.specs.Prelude.{◌++◌, ◌∷◌, [], OnOk};
ghost use Rattle.std.specs.Io.KnownBytes.{Appends};
ghost use Rattle.al_json.specs.Lines.{HasOneMoreLine};

use al_text::first_control;
use std::io;
use std::io::Write;

// Writes a text and a line feed.
fn write_text<W: Write>(writer: &mut W, text: &str) -> io::Result<()>
    ensures { OnOk result (Appends (W.contents writer.old) (W.contents writer.new)
        (text.now ++ 10 ∷ [])) }
{
    writer.write_all(text.as_bytes())?;
    writer.write_all(b"\n")
}

/// Writes a text as one line.
///
/// # Errors
///
/// That of the writer, or invalid data if the text has a control byte, as JSON in ASCII has none.
pub fn write_line<W: Write>(writer: &mut W, line: &str) -> io::Result<()>
    ensures { OnOk result (HasOneMoreLine (W.contents writer.old) (W.contents writer.new)) }
{
    if first_control(line.as_bytes()).is_some() {
        return Err(io::Error::from(io::ErrorKind::InvalidData));
    }
    write_text(writer, line)
}

/// Writes a text as one line, and flushes the writer.
///
/// # Errors
///
/// Those of [`write_line`].
pub fn send<W: Write>(writer: &mut W, line: &str) -> io::Result<()>
    ensures { OnOk result (HasOneMoreLine (W.contents writer.old) (W.contents writer.new)) }
{
    write_line(writer, line)?;
    writer.flush()
}
