//! Laws of the definitions that recurse on a bound: it is always enough, since with any greater one
//! they give the same.
#![tactic(auto)]

mod documents;
mod expressions;
mod walks;

pub use documents::document_bound;
pub use expressions::expression_bounds;
pub use walks::walk_bound;
