//! The law of the bound on the nodes of a file.

ghost use Rattle.al_laws.specs.Documents.{BoundGivesTree, BoundReadsAll};

/// The definition of a file's tree reads nodes, and their items and entries, with the file's length
/// plus one as a bound on their nesting and on their number. With any greater bound it reads the
/// same nodes, and gives the same tree or the same fault. Does nothing at run time.
pub fn document_bound()
    ensures reads { BoundReadsAll }
    ensures tree { BoundGivesTree }
{}
