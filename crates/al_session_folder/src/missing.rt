//! The candidates of calls that aren't in the folder.

ghost use Rattle.std.specs.Prelude.{◌≡◌, ◌++◌, ◌∷◌, [], ℕ, List, filter, IfOk, OnOk};
ghost use Rattle.std.specs.List.Sorted.{IsStrictlySortedBy};
ghost use Rattle.std.specs.Ordering.{nat_cmp};
ghost use Rattle.std.specs.Cmp.Lexicographic.{slice_cmp};
ghost use Rattle.al_base.specs.InOrder.{in_order};
ghost use Rattle.al_session_folder.specs.Affected.{is_among};
ghost use Rattle.al_session_folder.specs.Kept.{AreKept, folder_of, referents};
ghost use Rattle.al_lint.specs.Meaning.{candidates};
ghost use Rattle.al_session_folder.specs.Missing.{is_absent, is_missing, absent_candidates};
ghost use Rattle.al_session_folder.specs.Missing.{missing_in};

use crate::kept::Files;
use crate::place::file_number;
use al_base::Path;
use al_lint::{Lint, Target, owned_path};
use std::alloc::AllocError;

/// The candidates of the files' calls that aren't in the folder, in order of path, each once.
///
/// # Errors
///
/// [`AllocError`] if memory runs out.
pub fn missing_paths<L: Lint>(files: &Files<L::Unit, L::Iface>) -> Result<Vec<Path>, AllocError>
    requires { AreKept L.meaning L.is_unit files.now.entries }
    ensures paths { IfOk result
        (λ paths. paths.items ≡ missing_in L.meaning (folder_of files.now.entries)) }
    ensures sorted { IfOk result (λ paths. IsStrictlySortedBy (slice_cmp nat_cmp) paths.items) }
    ensures members { IfOk result (λ paths. (p : List ℕ)
        → is_among p paths.items ≡ is_missing L.meaning (folder_of files.now.entries) p) }
{
    let alloc = *files.allocator();
    let mut missing = Vec::new(alloc);
    for index in 0..files.len() {
        let (_, file) = file_number(files, index);
        add_absent(files, &file.calls.targets, &mut missing)?;
    }
    put_in_order(&mut missing);
    let mut paths = Vec::with_capacity(alloc, missing.len())?;
    for path in &missing {
        paths.push(owned_path(alloc, path.as_str())?)?;
    }
    Ok(paths)
}

// Adds the missing candidates of some calls.
fn add_absent<'a, U, I>(
    files: &Files<U, I>,
    targets: &'a [Target],
    missing: &mut Vec<&'a Path>,
) -> Result<(), AllocError>
    ensures { OnOk result (referents missing.new.items ≡ referents missing.old.items
        ++ absent_candidates (folder_of files.now.entries) targets.now) }
{
    for target in targets {
        add_candidates(files, target, missing)?;
    }
    Ok(())
}

// Adds the missing candidates of a call.
fn add_candidates<'a, U, I>(
    files: &Files<U, I>,
    target: &'a Target,
    missing: &mut Vec<&'a Path>,
) -> Result<(), AllocError>
    ensures { OnOk result (referents missing.new.items ≡ referents missing.old.items
        ++ filter (is_absent (folder_of files.now.entries)) (candidates target.now)) }
{
    match target {
        Target::Only(path) => add_if_absent(files, path, missing),
        Target::FirstOf(first, second) => {
            add_if_absent(files, first, missing)?;
            add_if_absent(files, second, missing)
        }
    }
}

// Adds a path, unless it is in the folder.
fn add_if_absent<'a, U, I>(
    files: &Files<U, I>,
    path: &'a Path,
    missing: &mut Vec<&'a Path>,
) -> Result<(), AllocError>
    ensures { OnOk result (referents missing.new.items ≡ referents missing.old.items
        ++ filter (is_absent (folder_of files.now.entries)) (path.now ∷ [])) }
{
    if files.contains_key(path.as_str()) {
        return Ok(());
    }
    missing.push(path)?;
    Ok(())
}

// Sorts paths, and removes repeated ones.
fn put_in_order(paths: &mut Vec<&Path>)
    ensures { referents paths.new.items
        ≡ in_order (slice_cmp nat_cmp) (referents paths.old.items) }
{
    paths.sort_unstable_by(|one, other| one.as_str().cmp(other.as_str()));
    paths.dedup_by(|one, other| one.as_str() == other.as_str());
}
