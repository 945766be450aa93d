//! A cache of types.

use al_expr_types::Ty;
use std::alloc::{AllocError, Global};

/// Types by position, as far as they were made, so that each is made once.
#[derive(Drop)]
pub(crate) struct TypeCache {
    pub(crate) made: Vec<Option<Ty>>,
}

impl TypeCache {
    ghost use Rattle.std.specs.Prelude.{ℕ, IfOk, IfSome};
    ghost use Rattle.al_types.specs.Types.{Type'};
    ghost use Rattle.al_check_contexts.specs.Caches.{Keeps};
    ghost use Rattle.al_check_objects.specs.Numbers.{Means};
    ghost use Rattle.al_expr_types.specs.declared.types.Types as declared;

    /// An empty cache for this many positions. Fails with `AllocError` when out of memory.
    pub(crate) fn new(alloc: Global, len: usize) -> Result<TypeCache, AllocError>
        ensures { IfOk result (λ c. (types : declared.Types) (at : ℕ → Type') → Keeps types at c) }
    {
        let mut made = Vec::new(alloc);
        for _i in 0..len {
            made.push(None)?;
        }
        Ok(TypeCache { made })
    }

    /// The type at a position, if it was made.
    pub(crate) fn get(&self, i: usize) -> Option<Ty>
        ensures { IfSome result
            (λ t. (types : declared.Types) (at : ℕ → Type') → Keeps types at self.now
            → Means types t (at i)) }
    {
        if i >= self.made.len() {
            return None;
        }
        self.made[i]
    }

    /// Stores the type at a position.
    pub(crate) fn set(&mut self, i: usize, ty: Ty)
        ensures { (types : declared.Types) (at : ℕ → Type') → Keeps types at self.old
            → Means types ty (at i) → Keeps types at self.new }
    {
        if i < self.made.len() {
            self.made[i] = Some(ty);
        }
    }
}
