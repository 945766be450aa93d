//! Decoded texts, each byte with the file offset it came from.

ghost use Rattle.std.specs.Prelude.{◌≡◌, ℕ, ◌+◌, ◌<◌, ◌≤◌, ◌^◌, List, [], ◌∷◌, ◌++◌, length, map};
ghost use Rattle.std.specs.Prelude.{slice_index_or, true, IsTrue, IfOk};
ghost use Rattle.al_scalar.specs.Line.{Cell};
ghost use Rattle.al_scalar.specs.LineEnds.{cells_between};
ghost use Rattle.al_scalar.specs.Scalar.{offset_or};
ghost use Rattle.al_scalar.specs.Private.Segments.{first_run, offset_in, offset_at, cells_from};
ghost use Rattle.al_scalar.specs.Private.Segments.{AreUpTo, AreInRange, IsRising};
ghost use Rattle.al_scalar.specs.Private.Segments.{IsOrdered, GoesOn, run_cells};
ghost use Rattle.al_scalar.specs.Private.Forms.{cells_of, short_cells, short_span, IsSound};
ghost use Rattle.al_scalar.specs.declared.texts.Form.TheVariants.{Short};

use al_base::Span;
use std::alloc::{AllocError, Global};
use std::marker::Model;

/// A run of decoded bytes, from an index up to the start of the next run. Their offsets either
/// increase with the index or, if one escape gave all of them, are all the same.
#[derive(Clone, Copy)]
pub struct Segment {
    index: usize,
    offset: u32,
    moves: bool,
}

impl Segment {
    /// A moving run that begins at index 0.
    fn first(offset: u32) -> Self
        ensures { result ≡ first_run offset }
    {
        Segment {
            index: 0,
            offset,
            moves: true,
        }
    }

    /// The offset of the byte at an index in the run.
    fn locate(self, i: usize) -> u32
        requires after { self.index ≤ i }
        requires fits { offset_in self i < 2 ^ 32 }
        ensures { result ≡ offset_in self i }
    {
        if self.moves {
            self.offset + (i - self.index) as u32
        } else {
            self.offset
        }
    }
}

/// The runs of a text. The first run moves, begins at index 0 and needs no allocation; usually it
/// is the only one.
#[derive(Drop)]
struct Runs {
    first: u32,
    rest: Vec<Segment>,
}

impl Model for Runs {
    ghost use Rattle.std.specs.Prelude.{List, ◌∷◌};
    ghost use Rattle.al_scalar.specs.Private.Segments.{first_run};
    ghost use Rattle.al_scalar.specs.declared.texts.Segment.{Segment};

    ghost Value = { List Segment };

    ghost view = { λ r. first_run r.first ∷ r.rest.items };
}

impl Runs {
    /// The run with a number: 0 for the first one.
    fn run(&self, number: usize) -> Segment
        requires { number < length self.now }
        ensures { result ≡ slice_index_or self.now number result }
    {
        if number == 0 {
            return Segment::first(self.first);
        }
        self.rest[number - 1]
    }

    /// Whether an offset continues those of the last run, which extends to an index.
    fn goes_on(&self, index: usize, at: u32) -> bool
        requires { AreUpTo index self.now }
        ensures { IsTrue result → GoesOn self.now index at true }
    {
        let last = self.run(self.rest.len());
        last.moves && last.offset <= at && (at - last.offset) as usize == index - last.index
    }

    /// Sets the offset of the next byte, at an index; those of the bytes after it increase from
    /// there or are the same.
    fn begin(&mut self, index: usize, at: u32, moves: bool) -> Result<(), AllocError>
        requires { IsOrdered index self.old }
        ensures order { IsOrdered index self.new }
        ensures cells { (bs : List ℕ) → length bs ≡ index
            → cells_from 0 bs self.new ≡ cells_from 0 bs self.old }
        ensures next { IfOk result (λ _. GoesOn self.new index at moves) }
    {
        if moves && index == 0 && self.rest.is_empty() {
            self.first = at;
            return Ok(());
        }
        if moves && self.goes_on(index, at) {
            return Ok(());
        }
        self.rest.push(Segment {
            index,
            offset: at,
            moves,
        })?;
        Ok(())
    }

    /// The run that contains an index: the last one that begins at or before it.
    fn run_of(&self, i: usize) -> Segment
        requires { IsRising self.now }
        ensures up_to { result.index ≤ i }
        ensures offset { offset_in result i ≡ offset_at self.now i }
    {
        self.run(self.rest.partition_point(|run| run.index <= i))
    }
}

/// Decoded bytes of several runs, or more bytes than fit inline.
#[derive(Drop)]
pub struct LongText {
    bytes: Vec<u8>,
    runs: Runs,
}

impl Model for LongText {
    ghost use Rattle.std.specs.Prelude.{List, length};
    ghost use Rattle.al_scalar.specs.Line.{Cell};
    ghost use Rattle.al_scalar.specs.Private.Segments.{cells_from, IsOrdered, AreInRange};

    ghost Value = { List Cell };

    ghost view = { λ t. cells_from 0 t.bytes.items t.runs };

    ghost invariant = { λ t. IsOrdered (length t.bytes.items) t.runs
        × AreInRange (cells_from 0 t.bytes.items t.runs) };
}

impl LongText {
    /// Adds bytes, of which the first came from an offset, and each further one from the next or,
    /// in an escape, the same.
    fn push(&mut self, bytes: &[u8], at: u32, moves: bool) -> Result<(), AllocError>
        requires { AreInRange (run_cells at moves 0 bytes.now) }
        ensures { IfOk result (λ _. self.new ≡ self.old ++ run_cells at moves 0 bytes.now) }
    {
        self.runs.begin(self.bytes.len(), at, moves)?;
        self.bytes.extend_from_slice(bytes)?;
        Ok(())
    }

    /// The decoded bytes.
    pub fn as_bytes(&self) -> &[u8]
        ensures { result.now ≡ map (λ (c : Cell). c.0) self.now }
    {
        self.bytes.as_slice()
    }

    /// The offset from which the byte at an index came.
    pub fn locate(&self, i: usize) -> u32
        requires { i < length self.now }
        ensures { (end : ℕ) → result ≡ offset_or self.now end i }
    {
        self.runs.run_of(i).locate(i)
    }
}

/// The number of bytes stored inline: most keys and values fit, and need no allocation.
const SHORT: usize = 23;

/// The bytes of a text of one moving run, and the offset at which it begins, even if it is empty.
#[derive(Clone, Copy)]
pub struct ShortText {
    bytes: [u8; SHORT],
    count: u8,
    first: u32,
}

impl ShortText {
    /// The decoded bytes.
    pub fn as_bytes(&self) -> &[u8]
        requires { IsSound (Short self.now) }
        ensures { result.now ≡ map (λ (c : Cell). c.0) (short_cells self.now) }
    {
        &self.bytes[..self.count as usize]
    }

    /// The offset from which the byte at an index came.
    pub fn locate(&self, i: usize) -> u32
        requires sound { IsSound (Short self.now) }
        requires inside { i < length (short_cells self.now) }
        ensures { (end : ℕ) → result ≡ offset_or (short_cells self.now) end i }
    {
        Segment::first(self.first).locate(i)
    }

    /// The span of the text with so many bytes before and after it.
    pub fn span_with(&self, around: u32) -> Span
        requires before { around ≤ self.now.first }
        requires after { self.now.first + self.now.count + around < 2 ^ 32 }
        ensures { result ≡ short_span around self.now }
    {
        Span {
            start: self.first - around,
            end: self.first + self.count as u32 + around,
        }
    }

    /// Whether the text, with so many bytes before and after it, is all of a span.
    pub fn fills(&self, around: u32, span: Span) -> bool
        requires { IsSound (Short self.now) }
        ensures before { IsTrue result → around ≤ self.now.first }
        ensures span { IsTrue result → span ≡ short_span around self.now }
    {
        self.first as usize == span.start as usize + around as usize
            && span.end as usize == self.first as usize + self.count as usize + around as usize
    }

    /// The same text, in the form that can hold any bytes. Fails with `AllocError` if memory runs
    /// out.
    pub fn to_long(&self, alloc: Global) -> Result<LongText, AllocError>
        requires { IsSound (Short self.now) }
        ensures { IfOk result (λ text. text ≡ short_cells self.now) }
    {
        let mut bytes = Vec::new(alloc);
        bytes.extend_from_slice(&self.bytes[..self.count as usize])?;
        let runs = Runs {
            first: self.first,
            rest: Vec::new(alloc),
        };
        Ok(LongText { bytes, runs })
    }
}

/// How a text is stored.
#[derive(Drop)]
pub enum Form {
    Short(ShortText),
    Long(Box<LongText>),
}

/// Decoded bytes, each with the file offset it came from.
#[derive(Drop)]
pub struct Text {
    alloc: Global,
    form: Form,
}

impl Model for Text {
    ghost use Rattle.std.specs.Prelude.{List};
    ghost use Rattle.al_scalar.specs.Line.{Cell};
    ghost use Rattle.al_scalar.specs.Private.Forms.{cells_of, IsSound};

    ghost Value = { List Cell };

    ghost view = { λ t. cells_of t.form };

    ghost invariant = { λ t. IsSound t.form };
}

impl Text {
    /// The empty text at an offset. Doesn't allocate.
    pub fn new(alloc: Global, at: usize) -> Self
        requires { at < 2 ^ 32 }
        ensures { result ≡ [] }
    {
        let none = ShortText {
            bytes: [0; SHORT],
            count: 0,
            first: at as u32,
        };
        Text {
            alloc,
            form: Form::Short(none),
        }
    }

    /// Adds bytes, of which the first came from an offset, and each further one from the next or,
    /// in an escape, the same.
    fn extend(&mut self, bytes: &[u8], at: u32, moves: bool) -> Result<(), AllocError>
        requires { AreInRange (run_cells at moves 0 bytes.now) }
        ensures { IfOk result (λ _. self.new ≡ self.old ++ run_cells at moves 0 bytes.now) }
    {
        match &mut self.form {
            Form::Long(text) => text.push(bytes, at, moves),
            Form::Short(short) => {
                let mut text = short.to_long(self.alloc)?;
                text.push(bytes, at, moves)?;
                self.form = Form::Long(Box::new(self.alloc, text)?);
                Ok(())
            }
        }
    }

    /// Adds a byte that came from an offset.
    pub fn push(&mut self, byte: u8, at: usize) -> Result<(), AllocError>
        requires { at < 2 ^ 32 }
        ensures { IfOk result (λ _. self.new ≡ self.old ++ (byte, at) ∷ []) }
    {
        self.extend(&[byte], at as u32, true)
    }

    /// Adds the bytes of a file from an offset up to another one.
    pub fn push_run(&mut self, file: &[u8], from: usize, to: usize) -> Result<(), AllocError>
        requires order { from ≤ to }
        requires inside { to ≤ length file.now }
        requires size { length file.now < 2 ^ 32 }
        ensures { IfOk result (λ _. self.new ≡ self.old ++ cells_between file.now from to) }
    {
        let count = to - from;
        if let Form::Short(short) = &mut self.form {
            if short.count == 0 && count <= SHORT {
                short.first = from as u32;
                short.count = count as u8;
                short.bytes[..count].copy_from_slice(&file[from..to]);
                return Ok(());
            }
        }
        self.extend(&file[from..to], from as u32, true)
    }

    /// Adds the bytes that an escape at an offset stands for.
    pub fn push_escape(&mut self, decoded: &[u8], at: usize) -> Result<(), AllocError>
        requires { at < 2 ^ 32 }
        ensures { IfOk result (λ _. self.new ≡ self.old ++ map (λ b. (b, at)) decoded.now) }
    {
        self.extend(decoded, at as u32, false)
    }

    /// The decoded bytes.
    pub fn as_bytes(&self) -> &[u8]
        ensures { result.now ≡ map (λ (c : Cell). c.0) self.now }
    {
        match &self.form {
            Form::Short(short) => short.as_bytes(),
            Form::Long(text) => text.as_bytes(),
        }
    }

    /// How the text is stored.
    pub fn into_form(self) -> Form
        ensures cells { cells_of result ≡ self }
        ensures sound { IsSound result }
    {
        self.form
    }
}
