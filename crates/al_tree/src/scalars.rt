//! Which scalars are accepted where one is expected.

ghost use Rattle.al_tree.specs.Faults.{has_chunk, is_null};
ghost use Rattle.al_tree.specs.Faults as faults;
ghost use Rattle.std.specs.Prelude.{◌≡◌};

use crate::table::ScalarSet;
use al_base::KeyCode;
use al_scalar::{Class, Scalar};
use memchr::memchr;

/// Whether a text has a `${{` anywhere, closed or not. Doesn't allocate.
pub fn contains_chunk(text: &[u8]) -> bool
    ensures { result ≡ has_chunk text.now }
{
    let mut rest = text;
    'dollars: while let Some(at) = memchr(b'$', rest) {
        let found = &rest[at..];
        if found.starts_with(b"${{") {
            return true;
        }
        rest = &found[1..];
    }
    false
}

/// Whether a scalar is null by its class: plain, and empty or one of the words for null.
pub fn is_null_scalar(scalar: &Scalar) -> bool
    ensures { result ≡ is_null scalar.now }
{
    scalar.class() == Class::Null
}

/// The code of the fault of a scalar at a place that accepts only the scalars of a set; `None` if
/// it is in the set. A scalar where none is accepted is of the wrong kind (K4), as is one without
/// `${{` where only those with it are; in the other sets it has the wrong type (K5).
#[inline(always)]
pub fn scalar_fault(scalars: ScalarSet, scalar: &Scalar) -> Option<KeyCode>
    ensures { result ≡ faults.scalar_fault scalars scalar.now }
{
    match scalars {
        ScalarSet::AnyScalar => None,
        ScalarSet::NoScalar => Some(KeyCode::WrongKind),
        ScalarSet::NotNull => is_null_scalar(scalar).then_some(KeyCode::WrongType),
        ScalarSet::Bools => {
            let is_bool = scalar.class() == Class::Bool || contains_chunk(scalar.text());
            (!is_bool).then_some(KeyCode::WrongType)
        }
        ScalarSet::Numbers => {
            let is_number = matches!(scalar.class(), Class::Int | Class::Float)
                || contains_chunk(scalar.text());
            (!is_number).then_some(KeyCode::WrongType)
        }
        ScalarSet::Chunks => (!contains_chunk(scalar.text())).then_some(KeyCode::WrongKind),
    }
}
