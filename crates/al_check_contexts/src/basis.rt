//! What the types of contexts are made from.
ghost use Rattle.std.specs.Prelude.{◌≡◌};
ghost use Rattle.al_check_contexts.specs.Answered.{known_of};
ghost use Rattle.al_check_contexts.specs.Lookups.{known_by};

use crate::env::File;
use crate::job_lists::JobList;
use crate::known::Outputs;
use al_expr_types::Ty;

/// What the types of contexts are made from, as far as it is the same everywhere in a file.
#[derive(Drop)]
pub(crate) struct Basis<'a> {
    pub(crate) file: File<'a>,
    pub(crate) jobs: JobList<'a>,
    /// What is known of the outputs of calls.
    pub(crate) outputs: Outputs<'a>,
    /// The type of `strategy` in jobs.
    pub(crate) strategy: Ty,
    ghost known: { known_by outputs ≡ known_of file.known },
}
