//! Paths with memory of their own.

ghost use Rattle.std.specs.Prelude.{◌≡◌, IfOk, None};
ghost use Rattle.al_base.specs.Paths.{path_fault_of};

use al_base::Path;
use std::alloc::{AllocError, Global};

/// The path with this text, which must be a path.
///
/// # Errors
///
/// `AllocError` if memory runs out.
pub fn owned_path(alloc: Global, text: &str) -> Result<Path, AllocError>
    requires { path_fault_of text.now ≡ None }
    ensures { IfOk result (λ path. path ≡ text.now) }
{
    Path::new(alloc, text).map_err(|_| AllocError)
}
