//! The result of reading a scalar in one style.

use crate::texts::Text;

/// What was read: the text, the end of the written form, and where the rest of the file begins.
#[derive(Drop)]
pub struct Taken {
    pub text: Text,
    pub end: usize,
    pub next: usize,
}
