//! The index of callers: which files call a path, whether or not the path has a file.

ghost use Rattle.std.specs.Prelude.{◌≡◌, ℕ, List, [], ◌∷◌, Bool, true, not, ◌&&◌, ◌||◌, bytes_eq};
ghost use Rattle.std.specs.Prelude.{cond, IfOk, OnOk, OnErr};
ghost use Rattle.indexmap.specs.IndexSet.{contains_text};
ghost use Rattle.al_lint.specs.Meaning.{is_candidate};
ghost use Rattle.al_session_folder.specs.Kept.{is_caller};

use crate::kept::{Callers, Names};
use crate::seed::Seed;
use al_lint::Target;
use indexmap::IndexSet;
use std::alloc::{AllocError, Global};

/// The candidates of these calls, each once.
pub(crate) fn candidates_of(
    alloc: Global,
    targets: &[Target],
    seed: Seed,
) -> Result<Names, AllocError>
    ensures { IfOk result
        (λ names. (c : List ℕ) → contains_text names c ≡ is_candidate targets.now c) }
{
    let mut names = IndexSet::with_hasher(alloc, seed);
    for target in targets {
        add_names_of(&mut names, target)?;
    }
    Ok(names)
}

// Adds the candidates of one call.
fn add_names_of(names: &mut Names, target: &Target) -> Result<(), AllocError>
    ensures { OnOk result ((c : List ℕ)
        → contains_text names.new c
        ≡ (is_candidate (target.now ∷ []) c || contains_text names.old c)) }
{
    match target {
        Target::Only(path) => add_name(names, path.as_str()),
        Target::FirstOf(first, second) => {
            add_name(names, first.as_str())?;
            add_name(names, second.as_str())
        }
    }
}

// Inserts a text unless it is there already. On failure the texts are unchanged.
fn add_name(names: &mut Names, name: &str) -> Result<(), AllocError>
    ensures added { OnOk result ((c : List ℕ)
        → contains_text names.new c ≡ (bytes_eq c name.now || contains_text names.old c)) }
    ensures as_before { OnErr result
        ((c : List ℕ) → contains_text names.new c ≡ contains_text names.old c) }
{
    if !names.contains(name) {
        names.insert(String::from_str(*names.allocator(), name)?)?;
    }
    Ok(())
}

/// Makes a file a caller of a candidate. On failure the callers are unchanged.
pub(crate) fn add_caller(
    callers: &mut Callers,
    candidate: &str,
    path: &str,
) -> Result<(), AllocError>
    ensures added { OnOk result ((c q : List ℕ) → is_caller callers.new c q
        ≡ ((bytes_eq c candidate.now && bytes_eq q path.now) || is_caller callers.old c q)) }
    ensures as_before { OnErr result
        ((c q : List ℕ) → is_caller callers.new c q ≡ is_caller callers.old c q) }
{
    match callers.get_mut(candidate) {
        Some(known) => add_name(known, path),
        None => {
            let alloc = *callers.allocator();
            let mut known = IndexSet::with_hasher(alloc, *callers.hasher());
            add_name(&mut known, path)?;
            callers.insert(String::from_str(alloc, candidate)?, known)?;
            Ok(())
        }
    }
}

/// Removes a file from the callers of a candidate.
pub(crate) fn drop_caller(callers: &mut Callers, candidate: &str, path: &str)
    ensures { (c q : List ℕ) → is_caller callers.new c q
        ≡ (not (bytes_eq c candidate.now && bytes_eq q path.now) && is_caller callers.old c q) }
{
    let Some(known) = callers.get_mut(candidate) else {
        return;
    };
    known.swap_remove(path);
    if known.is_empty() {
        callers.swap_remove(candidate);
    }
}

/// Makes a file a caller of all these candidates. On failure it may have become a caller of some of
/// them.
fn add_callers(callers: &mut Callers, names: &Names, path: &str) -> Result<(), AllocError>
    ensures added { OnOk result ((c q : List ℕ) → is_caller callers.new c q
        ≡ ((bytes_eq q path.now && contains_text names.now c) || is_caller callers.old c q)) }
    ensures some { OnErr result
        ((added : List ℕ → Bool)
        × ((c : List ℕ) → added c ≡ true → contains_text names.now c ≡ true)
        × ((c q : List ℕ) → is_caller callers.new c q
        ≡ ((bytes_eq q path.now && added c) || is_caller callers.old c q))) }
{
    for name in names.as_slice() {
        add_caller(callers, name.as_str(), path)?;
    }
    Ok(())
}

/// Removes a file from the callers of those candidates that aren't among the others. Doesn't
/// allocate.
pub fn drop_callers(callers: &mut Callers, names: &Names, others: &Names, path: &str)
    ensures { (c q : List ℕ) → is_caller callers.new c q
        ≡ (not (bytes_eq q path.now
        && (contains_text names.now c && not (contains_text others.now c)))
        && is_caller callers.old c q) }
{
    for name in names.as_slice() {
        if !others.contains(name.as_str()) {
            drop_caller(callers, name.as_str(), path);
        }
    }
}

/// Makes a file, so far a caller of the candidates `before`, a caller of exactly those in `after`.
///
/// # Errors
///
/// [`AllocError`] if memory runs out. The callers are then unchanged.
pub fn reindex(
    callers: &mut Callers,
    path: &str,
    before: &Names,
    after: &Names,
) -> Result<(), AllocError>
    requires { (c : List ℕ) → is_caller callers.old c path.now ≡ contains_text before.now c }
    ensures moved { OnOk result ((c q : List ℕ) → is_caller callers.new c q
        ≡ cond (bytes_eq q path.now) (contains_text after.now c) (is_caller callers.old c q)) }
    ensures as_before { OnErr result
        ((c q : List ℕ) → is_caller callers.new c q ≡ is_caller callers.old c q) }
{
    if let Err(error) = add_callers(callers, after, path) {
        drop_callers(callers, after, before, path);
        return Err(error);
    }
    drop_callers(callers, before, after, path);
    Ok(())
}
