//! Laws that relate the definitions.

ghost use Rattle.al_graph.specs.Within.{LeadsTellsWalks};

/// If a walk leads from one node to another, one with at most one step more than there are nodes
/// does, so the definitions only try these. Does nothing at run time.
pub fn walk_laws()
    ensures { LeadsTellsWalks }
{}
