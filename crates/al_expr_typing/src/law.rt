//! A law of the definitions: where the faults of a meaning lie.

ghost use Rattle.al_expr_typing.specs.Inside.{MeaningFaultsLie};

/// Where the faults of a meaning lie.
///
/// Each fault that [`type_of`](crate::type_of) adds for a tree that a content spells lies in the
/// content. Does nothing at run time.
pub fn all_lie_in_content()
    ensures { MeaningFaultsLie }
{}
