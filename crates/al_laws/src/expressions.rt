//! The laws of the bounds on the parts of texts and expressions.

ghost use Rattle.al_laws.specs.Expressions.{BoundFindsChunks, BoundFindsPlaceholders};
ghost use Rattle.al_laws.specs.Expressions.{BoundReadsTokens};

/// The definitions of a content's tokens, of a text's chunks and of the placeholders of a format
/// text have the length in bytes as a bound on their number. With any greater bound they give the
/// same. Does nothing at run time.
pub fn expression_bounds()
    ensures tokens { BoundReadsTokens }
    ensures chunks { BoundFindsChunks }
    ensures placeholders { BoundFindsPlaceholders }
{}
