//! A scalar, and the result of reading one.

ghost use Rattle.std.specs.Prelude.{◌≡◌, ◌<◌, ◌≤◌, ◌^◌, length, IfOk, IsUtf8};
ghost use Rattle.al_scalar.specs.Private.Forms as forms;
ghost use Rattle.al_scalar.specs.Scalar.{offset_of, text_of};

use crate::reads::Taken;
use crate::styles::{Class, Style};
use crate::texts::{Form, LongText, ShortText, Text};
use al_base::Span;
use std::alloc::{AllocError, Global};
use std::marker::Model;

/// The context in which a scalar is read.
#[derive(Clone, Copy, PartialEq, Eq, Debug)]
pub enum ScalarContext {
    /// Block context. Further lines of a plain scalar, and the content of a block scalar, are
    /// indented by at least this many columns: one more than the enclosing collection, or 0 at the
    /// root.
    BlockFromIndent(u32),
    /// In a flow collection, where `,[]{}` end a plain scalar (YAML 1.2.2, 7.3.3).
    Flow,
    /// An empty node: there is nothing to read.
    Empty,
}

/// A scalar: its style, its class, and its decoded text, each byte of which has the file offset it
/// came from.
///
/// A byte that stands for itself has its own offset, a byte from an escape that of the backslash, a
/// quote written as `''` that of the first quote, and a space or line feed from a line break that
/// of the first byte of the break. Contracts see the style, the class, the span, and the list of
/// bytes with their offsets.
#[derive(Drop)]
pub struct Scalar {
    form: ScalarForm,
}

/// The style and the class of a scalar.
#[derive(Clone, Copy)]
pub struct ScalarKind {
    pub style: Style,
    pub class: Class,
}

/// How a scalar is stored. Most have a short text, which is all of the written form but its quotes,
/// so that the span follows from the text.
#[derive(Drop)]
enum ScalarForm {
    Short {
        text: ShortText,
        kind: ScalarKind,
    },
    Long {
        text: Box<LongText>,
        kind: ScalarKind,
        span: Span,
    },
}

/// The number of bytes of each quote around a scalar of a style.
fn quote_len(style: Style) -> u32
    ensures { result ≡ forms.quote_len style }
{
    match style {
        Style::SingleQuoted | Style::DoubleQuoted => 1,
        Style::Plain | Style::Literal | Style::Folded => 0,
    }
}

impl Model for Scalar {
    ghost use Rattle.al_scalar.specs.Scalar.{Scalar as ScalarValue};
    ghost use Rattle.al_scalar.specs.Private.Forms.{scalar_of, IsSoundScalar};

    ghost Value = { ScalarValue };

    ghost view = { λ s. scalar_of s.form };

    ghost invariant = { λ s. IsSoundScalar s.form };
}

impl Scalar {
    /// How the scalar is written (YAML 1.2.2, 7.3 and 8.1).
    pub fn style(&self) -> Style
        ensures { result ≡ (self.now).style }
    {
        match &self.form {
            ScalarForm::Short { kind, .. } => kind.style,
            ScalarForm::Long { kind, .. } => kind.style,
        }
    }

    /// The span of the written form, in bytes of the file, including quotes; that of a block scalar
    /// extends from its indicator to the end of the text of its last line.
    pub fn span(&self) -> Span
        ensures { result ≡ (self.now).span }
    {
        match &self.form {
            ScalarForm::Short { text, kind } => text.span_with(quote_len(kind.style)),
            ScalarForm::Long { span, .. } => *span,
        }
    }

    /// The class of the scalar by the core schema (YAML 1.2.2, 10.3.2): of a plain scalar by its
    /// text, of any other always [`Class::Str`].
    pub fn class(&self) -> Class
        ensures { result ≡ (self.now).class }
    {
        match &self.form {
            ScalarForm::Short { kind, .. } => kind.class,
            ScalarForm::Long { kind, .. } => kind.class,
        }
    }

    /// The decoded bytes, without quotes, escapes and indentation. They are UTF-8 if the file is.
    pub fn text(&self) -> &[u8]
        ensures { result.now ≡ text_of self.now }
    {
        match &self.form {
            ScalarForm::Short { text, .. } => text.as_bytes(),
            ScalarForm::Long { text, .. } => text.as_bytes(),
        }
    }

    /// The decoded bytes as text, without a check.
    ///
    /// # Requires
    ///
    /// The bytes are UTF-8, as they are in a scalar of a file that is.
    pub fn as_str(&self) -> &str
        requires { IsUtf8 (text_of self.now) }
        ensures { result.now ≡ text_of self.now }
    {
        // The bytes are UTF-8, by the precondition.
        unsafe { str::from_utf8_unchecked(self.text()) }
    }

    /// The file offset, in bytes, from which the byte at index `i` of the text came; for the length
    /// of the text, the end of the scalar's span. Takes time logarithmic in the number of escapes
    /// and line breaks of the text.
    ///
    /// # Requires
    ///
    /// `i` is at most the length of [`text`](Scalar::text).
    pub fn locate(&self, i: usize) -> u32
        requires { i ≤ length (text_of self.now) }
        ensures { result ≡ offset_of self.now i }
    {
        if i == self.text().len() {
            return self.span().end;
        }
        match &self.form {
            ScalarForm::Short { text, .. } => text.locate(i),
            ScalarForm::Long { text, .. } => text.locate(i),
        }
    }
}

/// The result of reading a scalar.
#[derive(Drop)]
pub struct ScalarRead {
    /// The scalar.
    pub scalar: Scalar,
    /// The byte offset at which the rest of the file begins: for a block scalar, the start of the
    /// line that ends it or the end of the file; otherwise the end of the span.
    pub next: usize,
}

/// How a scalar with a text and a span is stored. Fails with `AllocError` when out of memory.
fn form_of(
    alloc: Global,
    kind: ScalarKind,
    span: Span,
    text: Text,
) -> Result<ScalarForm, AllocError>
    ensures scalar { IfOk result (λ form. forms.scalar_of form
        ≡ record { style = kind.style; class = kind.class; cells = text; span = span }) }
    ensures sound { IfOk result forms.IsSoundScalar }
{
    match text.into_form() {
        Form::Short(text) if text.fills(quote_len(kind.style), span) => {
            Ok(ScalarForm::Short { text, kind })
        }
        Form::Short(short) => {
            let text = Box::new(alloc, short.to_long(alloc)?)?;
            Ok(ScalarForm::Long { text, kind, span })
        }
        Form::Long(text) => Ok(ScalarForm::Long { text, kind, span }),
    }
}

/// The scalar made of what was read from an offset on. Fails with `AllocError` when out of memory.
pub fn scalar_read(
    alloc: Global,
    at: usize,
    kind: ScalarKind,
    taken: Taken,
) -> Result<ScalarRead, AllocError>
    requires start { at < 2 ^ 32 }
    requires end { taken.end < 2 ^ 32 }
    ensures scalar { IfOk result (λ read. read.scalar
        ≡ record {
          style = kind.style;
          class = kind.class;
          cells = taken.text;
          span = record { start = at; end = taken.end };
        }) }
    ensures next { IfOk result (λ read. read.next ≡ taken.next) }
{
    let span = Span {
        start: at as u32,
        end: taken.end as u32,
    };
    let form = form_of(alloc, kind, span, taken.text)?;
    Ok(ScalarRead {
        scalar: Scalar { form },
        next: taken.next,
    })
}
