//! Laws of the definitions.
ghost use Rattle.al_check_expressions.specs.FileExpressions.{ExpressionFaultsLie};
ghost use Rattle.al_check_expressions.specs.FileExpressions.{PlainTextsAreRight};

/// Each fault of an expression lies in the file if the tree's nodes lie in one another and in the
/// file, and each byte of its texts comes from there. Does nothing at run time.
pub fn all_lie_in_file()
    ensures { ExpressionFaultsLie }
{}

/// A text without `${{` that isn't a condition has no fault, wherever it is, so it needs no place.
/// Does nothing at run time.
pub fn plain_texts_are_right()
    ensures { PlainTextsAreRight }
{}
