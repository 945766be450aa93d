//! Writing JSON, in ASCII on one line.

use std::alloc::{AllocError, Global};

/// A line of JSON as it is written. Commas between values are written with the value that follows.
#[derive(Drop)]
pub struct Json {
    alloc: Global,
    line: String,
}

/// The lowest four bits as a digit.
fn hex_digit(bits: u16) -> char {
    let n = (bits % 16) as u8;
    let digit = if n < 10 { b'0' + n } else { b'a' + (n - 10) };
    digit as char
}

/// A code unit of UTF-16 as `\uXXXX`.
fn push_unit(out: &mut String, unit: u16) -> Result<(), AllocError> {
    out.push_str("\\u")?;
    out.push(hex_digit(unit >> 12))?;
    out.push(hex_digit(unit >> 8))?;
    out.push(hex_digit(unit >> 4))?;
    out.push(hex_digit(unit))?;
    Ok(())
}

fn push_units(out: &mut String, c: char) -> Result<(), AllocError> {
    let mut units = [0u16; 2];
    for unit in c.encode_utf16(&mut units).iter() {
        push_unit(out, *unit)?;
    }
    Ok(())
}

fn push_char(out: &mut String, c: char) -> Result<(), AllocError> {
    match c {
        '"' => out.push_str("\\\"")?,
        '\\' => out.push_str("\\\\")?,
        '\n' => out.push_str("\\n")?,
        '\r' => out.push_str("\\r")?,
        '\t' => out.push_str("\\t")?,
        ' '..='~' => out.push(c)?,
        _ => push_units(out, c)?,
    }
    Ok(())
}

/// A text in quotes.
fn push_quoted(out: &mut String, text: &str) -> Result<(), AllocError> {
    out.push('"')?;
    for c in text.chars() {
        push_char(out, c)?;
    }
    out.push('"')?;
    Ok(())
}

impl Json {
    /// Nothing written yet. Doesn't allocate.
    pub fn new(alloc: Global) -> Json {
        Json {
            alloc,
            line: String::new(alloc),
        }
    }

    /// The allocator of the line.
    pub fn alloc(&self) -> Global {
        self.alloc
    }

    /// What is written so far.
    pub fn as_str(&self) -> &str {
        self.line.as_str()
    }

    // A comma, unless the next value is the first of its list or object, or follows its key.
    fn separate(&mut self) -> Result<(), AllocError> {
        match self.line.as_bytes().last() {
            None | Some(b'[') | Some(b'{') | Some(b':') => {}
            Some(_) => self.line.push(',')?,
        }
        Ok(())
    }

    /// Begins a list or an object, by its bracket.
    pub fn open(&mut self, bracket: char) -> Result<(), AllocError> {
        self.separate()?;
        self.line.push(bracket)?;
        Ok(())
    }

    /// Ends a list or an object, by its bracket.
    pub fn close(&mut self, bracket: char) -> Result<(), AllocError> {
        self.line.push(bracket)?;
        Ok(())
    }

    /// The key of the next value.
    pub fn key(&mut self, key: &str) -> Result<(), AllocError> {
        self.text(key)?;
        self.line.push(':')?;
        Ok(())
    }

    /// A text.
    pub fn text(&mut self, text: &str) -> Result<(), AllocError> {
        self.separate()?;
        push_quoted(&mut self.line, text)
    }

    /// A text of UTF-8. Bytes of it that aren't UTF-8 become U+FFFD.
    pub fn bytes(&mut self, bytes: &[u8]) -> Result<(), AllocError> {
        match str::from_utf8(bytes) {
            Ok(text) => self.text(text),
            Err(_) => {
                let text = String::from_utf8_lossy(self.alloc, bytes)?;
                self.text(text.as_str())
            }
        }
    }

    // A number or a word, as it is.
    fn word(&mut self, word: &str) -> Result<(), AllocError> {
        self.separate()?;
        self.line.push_str(word)
    }

    /// A number.
    pub fn number(&mut self, number: u64) -> Result<(), AllocError> {
        let digits = format!(in self.alloc; "{number}")?;
        self.word(digits.as_str())
    }

    /// `true` or `false`.
    pub fn flag(&mut self, flag: bool) -> Result<(), AllocError> {
        self.word(if flag { "true" } else { "false" })
    }

    /// `null`.
    pub fn null(&mut self) -> Result<(), AllocError> {
        self.word("null")
    }

    /// A key with a text.
    pub fn text_at(&mut self, key: &str, text: &str) -> Result<(), AllocError> {
        self.key(key)?;
        self.text(text)
    }

    /// A key with a number.
    pub fn number_at(&mut self, key: &str, number: u32) -> Result<(), AllocError> {
        self.key(key)?;
        self.number(u64::from(number))
    }

    /// A key with `true` or `false`.
    pub fn flag_at(&mut self, key: &str, flag: bool) -> Result<(), AllocError> {
        self.key(key)?;
        self.flag(flag)
    }

    /// A key whose value is a list, which begins.
    pub fn list_at(&mut self, key: &str) -> Result<(), AllocError> {
        self.key(key)?;
        self.open('[')
    }

    /// A key whose value is an object, which begins.
    pub fn object_at(&mut self, key: &str) -> Result<(), AllocError> {
        self.key(key)?;
        self.open('{')
    }
}
