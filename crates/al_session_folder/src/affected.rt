//! Which files a change of one path affects.

ghost use Rattle.std.specs.Prelude.{◌≡◌, ◌≢◌, ℕ, List, [], ◌∷◌, ◌++◌, not, ◌&&◌, ◌||◌};
ghost use Rattle.std.specs.Prelude.{bytes_eq, string_bytes, cond, None, IfOk, OnOk};
ghost use Rattle.std.specs.List.{list_all, list_any};
ghost use Rattle.std.specs.List.Sorted.{IsStrictlySortedBy};
ghost use Rattle.std.specs.Ordering.{nat_cmp};
ghost use Rattle.std.specs.Cmp.Lexicographic.{slice_cmp};
ghost use Rattle.std.specs.Option.{option_copied, option_eq};
ghost use Rattle.al_base.specs.Paths.{path_fault_of};
ghost use Rattle.al_session_folder.specs.Affected.{is_affected, is_among};
ghost use Rattle.al_lint.specs.Meaning.{is_candidate};
ghost use Rattle.al_session_folder.specs.Folder.{answer, bytes_at, interface_in, paths_of};
ghost use Rattle.al_session_folder.specs.Kept.{IsCallerIndex, IsView};
ghost use Rattle.al_session_folder.specs.FolderViews.{affected_by, change_of, changed_by};

use crate::kept::{Callers, Files, KeptFile};
use crate::paths::put_paths_in_order;
use crate::view::FolderView;
use al_base::Path;
use al_lint::{Lint, Target, owned_path};
use std::alloc::{AllocError, Global};
use std::marker::Model;

/// A change of one path that isn't made yet: the current files, and the file that the path will
/// have, if any. Contracts see the folder before the change, the path, and the bytes that the path
/// will have.
#[derive(Drop)]
pub struct PlannedChange<'a, L: Lint> {
    files: &'a Files<L::Unit, L::Iface>,
    path: &'a str,
    next: Option<&'a KeptFile<L::Unit, L::Iface>>,
}

impl<'a, L: Lint> Model for PlannedChange<'a, L> {
    ghost use Rattle.std.specs.Option.{option_copied};
    ghost use Rattle.al_session_folder.specs.FolderViews.{FolderChange, IsChange, change_of};

    ghost Value = { FolderChange };

    ghost view = { λ c. change_of c.files.now.entries c.path.now (option_copied c.next) };

    ghost invariant = { λ c. IsChange L.meaning L.is_unit c.files.now.entries c.path.now
        (option_copied c.next) };
}

// Whether two answers are the same.
fn is_same<I: Eq>(one: Option<&I>, other: Option<&I>) -> bool
    ensures { result ≡ option_eq I.eq (option_copied one.entry) (option_copied other.entry) }
{
    one == other
}

// Whether a call has this path as a candidate.
fn has_candidate(target: &Target, path: &str) -> bool
    ensures { result ≡ is_candidate (target.now ∷ []) path.now }
{
    match target {
        Target::Only(only) => path == only.as_str(),
        Target::FirstOf(first, second) => path == first.as_str() || path == second.as_str(),
    }
}

impl<'a, L: Lint> PlannedChange<'a, L> {
    /// The change after which a path has this file, or none.
    pub fn new(
        files: &'a Files<L::Unit, L::Iface>,
        path: &'a str,
        next: Option<&'a KeptFile<L::Unit, L::Iface>>,
    ) -> PlannedChange<'a, L>
        requires view { IsView L.meaning L.is_unit files.now.entries path.now (option_copied next) }
        requires valid { path_fault_of path.now ≡ None }
        ensures { result ≡ change_of files.now.entries path.now (option_copied next.entry) }
    {
        PlannedChange { files, path, next }
    }

    /// The folder before the change.
    fn as_is(&self) -> FolderView<'a, L>
        ensures { result ≡ self.now.before }
    {
        FolderView::of(self.files)
    }

    /// The folder after the change.
    #[tactic(auto, using(crate::proofs::Affecting::changed_sorted))]
    pub fn after(&self) -> FolderView<'a, L>
        ensures folder { result ≡ changed_by self.now }
        ensures ordered { IsStrictlySortedBy (slice_cmp nat_cmp) (paths_of result) }
    {
        FolderView::with(self.files, self.path, self.next)
    }

    // Whether the interface at the path of the change stays the same, or there is no file before
    // and after.
    fn has_same_interface(&self) -> bool
        ensures { result ≡ option_eq L.Iface.eq
            (interface_in L.meaning self.now.before self.now.path)
            (interface_in L.meaning (changed_by self.now) self.now.path) }
    {
        let before = self.as_is().interface(self.path);
        is_same(before, self.after().interface(self.path))
    }

    // Whether a call keeps its answer. One that doesn't have the path of the change as a candidate
    // does.
    fn has_same_answer(&self, target: &Target) -> bool
        ensures { result ≡ option_eq L.Iface.eq (answer L.meaning self.now.before target.now)
            (answer L.meaning (changed_by self.now) target.now) }
    {
        if !has_candidate(target, self.path) {
            return true;
        }
        let before = self.as_is().answer(target);
        is_same(before, self.after().answer(target))
    }

    // Whether all these calls keep their answers.
    fn has_same_answers(&self, targets: &[Target]) -> bool
        ensures { result ≡ list_all
            (λ t. option_eq L.Iface.eq (answer L.meaning self.now.before t)
            (answer L.meaning (changed_by self.now) t)) targets.now }
    {
        targets.iter().all(|target| self.has_same_answer(target))
    }

    // Appends the path of a caller if the change affects it.
    fn add_if_affected(&self, name: &str, paths: &mut Vec<Path>) -> Result<(), AllocError>
        ensures { OnOk result (paths.new.items ≡ cond (not (bytes_eq name.now self.now.path)
            && is_affected L.Iface.eq L.meaning self.now.before (changed_by self.now) name.now)
            (paths.old.items ++ name.now ∷ []) paths.old.items) }
    {
        if name == self.path {
            return Ok(());
        }
        match self.files.get(name) {
            Some(file) => {
                if self.has_same_answers(&file.calls.targets) {
                    return Ok(());
                }
                paths.push(owned_path(*paths.allocator(), name)?)?;
                Ok(())
            }
            None => Ok(()),
        }
    }

    // Appends the paths of those callers that the change affects, in no particular order.
    fn add_affected(&self, names: &[String], mut paths: Vec<Path>) -> Result<Vec<Path>, AllocError>
        ensures { IfOk result
            (λ r. (q : List ℕ) → is_among q r.items ≡ (((not (bytes_eq q self.now.path)
            && is_affected L.Iface.eq L.meaning self.now.before (changed_by self.now) q)
            && list_any (λ k. bytes_eq q (string_bytes k)) names.now) || is_among q paths.items)) }
    {
        for name in names {
            self.add_if_affected(name.as_str(), &mut paths)?;
        }
        Ok(paths)
    }

    /// The paths of the files that the change affects, in order, each once: those that are new,
    /// whose bytes change, or that have a call whose answer changes. The path must not keep its
    /// bytes. Looks only at the file at the path and at its callers.
    ///
    /// # Errors
    ///
    /// [`AllocError`] if memory runs out.
    pub fn affected_paths(&self, callers: &Callers) -> Result<Vec<Path>, AllocError>
        requires index { IsCallerIndex L.meaning self.now.before callers.now }
        requires other { self.now.bytes ≢ bytes_at self.now.before self.now.path }
        ensures { IfOk result (λ paths. paths.items ≡ affected_by L.Iface.eq L.meaning self.now) }
    {
        let paths = first_path(*callers.allocator(), self.path, self.next.is_some())?;
        if self.has_same_interface() {
            return Ok(paths);
        }
        match callers.get(self.path) {
            Some(known) => {
                let mut affected = self.add_affected(known.as_slice(), paths)?;
                put_paths_in_order(&mut affected);
                Ok(affected)
            }
            None => Ok(paths),
        }
    }
}

// The path of the change if a file is put, otherwise none.
fn first_path(alloc: Global, path: &str, is_put: bool) -> Result<Vec<Path>, AllocError>
    requires { path_fault_of path.now ≡ None }
    ensures { IfOk result (λ paths. paths.items ≡ cond is_put (path.now ∷ []) []) }
{
    let mut paths = Vec::new(alloc);
    if is_put {
        paths.push(owned_path(alloc, path)?)?;
    }
    Ok(paths)
}
