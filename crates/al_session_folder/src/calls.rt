//! The calls of a file, as a session keeps them.

ghost use Rattle.std.specs.Prelude.{IfOk};
ghost use Rattle.al_session_folder.specs.Kept.{AreCalls};

use crate::callers::candidates_of;
use crate::kept::Calls;
use crate::seed::Seed;
use al_lint::Target;
use std::alloc::AllocError;

/// The calls of a file with these targets, in order. The seed is that of the folder's files.
///
/// # Errors
///
/// [`AllocError`] if memory runs out.
pub fn calls_of(targets: Vec<Target>, seed: Seed) -> Result<Calls, AllocError>
    ensures { IfOk result (AreCalls targets.items) }
{
    Ok(Calls {
        candidates: candidates_of(*targets.allocator(), &targets, seed)?,
        targets,
    })
}
