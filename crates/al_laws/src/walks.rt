//! The law of the bound on walks through a graph.

ghost use Rattle.al_laws.specs.Walks.{LongerWalksLeadNowhereElse};

/// Whether one node leads to another is tested by walks of at most one edge more than there are
/// nodes. Tests of longer walks have the same answer. Does nothing at run time.
pub fn walk_bound()
    ensures { LongerWalksLeadNowhereElse }
{}
