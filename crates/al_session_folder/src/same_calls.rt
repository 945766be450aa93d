//! Comparing the calls of two files.

ghost use Rattle.std.specs.Prelude.{◌≡◌};
ghost use Rattle.std.specs.Bool.{Decides};

use al_lint::Target;

/// Whether two lists of calls are equal: pair by pair they have the same candidates.
pub fn has_same_calls(one: &[Target], other: &[Target]) -> bool
    ensures { Decides result (one.now ≡ other.now) }
{
    one == other
}
