//! Laws of the definitions: what the grammar derives, and where spans lie.

ghost use Rattle.al_expr_grammar.specs.Inside.{ChunksLie, ContentFaultLies, EndFaultLies};
ghost use Rattle.al_expr_grammar.specs.Inside.{ExtentLies, TokenFaultLies};
ghost use Rattle.al_expr_grammar.specs.Law.{FaultsSpellNothing, NoWayOn, OneTree, SomeTree};
ghost use Rattle.al_expr_grammar.specs.Law.{TreeIsSpelled};

/// The law of the grammar and the table of next steps, for proofs; does nothing at run time.
///
/// A list of tokens in which the table finds no fault spells exactly one tree. One with an
/// unexpected token, or that ends too early, spells none, and neither does any list that begins
/// with the tokens up to and including that one. The tree by which a content without a fault is
/// checked is the one that it spells.
pub fn grammar()
    ensures refused { FaultsSpellNothing }
    ensures nothing { NoWayOn }
    ensures one { OneTree }
    ensures some { SomeTree }
    ensures tree { TreeIsSpelled }
{}

/// Where chunks, expressions and faults lie.
///
/// The content of each chunk of a text lies in the text, and so does the fault at its end. The
/// fault of a content, of its tokens and of its tree, lies in the content, and so does an
/// expression that it spells. Does nothing at run time.
pub fn all_lie_inside()
    ensures chunks { ChunksLie }
    ensures end { EndFaultLies }
    ensures tokens { TokenFaultLies }
    ensures content { ContentFaultLies }
    ensures extent { ExtentLies }
{}
