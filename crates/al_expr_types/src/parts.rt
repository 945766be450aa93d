//! The parts of an object that can be looked up.

/// A part of an object: the field with a name, the type of fields beside its own, or what all of
/// them have in common.
#[derive(Clone, Copy)]
pub enum Part<'n> {
    Named(&'n [u8]),
    Rest,
    All,
}
