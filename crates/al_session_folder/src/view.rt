//! A view of a folder's files, either as they are or with one path changed: what they answer to
//! calls, and checking them.

ghost use Rattle.std.specs.Prelude.{◌≡◌, IsSome, length, map, IfOk, IfSome, OnOk, OnErr};
ghost use Rattle.std.specs.List.{AllByRecursion};
ghost use Rattle.std.specs.Option.{option_copied, option_map};
ghost use Rattle.al_lint.specs.Meaning.{IsUpTo};
ghost use Rattle.al_base.specs.Counted.{count_after};
ghost use Rattle.al_session_folder.specs.Folder.{answer, bytes_at, interface_in};
ghost use Rattle.al_session_folder.specs.Kept.{next_folder, faults_of, folder_of, AreKept, IsKept};
ghost use Rattle.al_session_folder.specs.Kept.{IsView};

use crate::kept::{Files, KeptFile};
use al_base::{Fault, Path};
use al_lint::{Lint, Target};
use std::alloc::AllocError;
use std::marker::Model;

/// The files of a folder, either as they are or with another file, or none, at one path. Contracts
/// see the folder.
#[derive(Drop)]
pub struct FolderView<'a, L: Lint> {
    files: &'a Files<L::Unit, L::Iface>,
    // The path that has another file, or none.
    path: Option<&'a str>,
    next: Option<&'a KeptFile<L::Unit, L::Iface>>,
}

impl<'a, L: Lint> Model for FolderView<'a, L> {
    ghost use Rattle.std.specs.Option.{option_copied};
    ghost use Rattle.al_session_folder.specs.Folder.{Folder};
    ghost use Rattle.al_session_folder.specs.FolderViews.{IsViewIf, folder_in_view};

    ghost Value = { Folder };

    ghost view = { λ v. folder_in_view v.files.now.entries (option_copied v.path)
        (option_copied v.next) };

    ghost invariant = { λ v. IsViewIf L.meaning L.is_unit v.files.now.entries (option_copied v.path)
        (option_copied v.next) };
}

impl<'a, L: Lint> FolderView<'a, L> {
    /// The files as they are.
    pub fn of(files: &'a Files<L::Unit, L::Iface>) -> FolderView<'a, L>
        requires { AreKept L.meaning L.is_unit files.now.entries }
        ensures { result ≡ folder_of files.now.entries }
    {
        FolderView {
            files,
            path: None,
            next: None,
        }
    }

    /// The files with this file, or none, at a path.
    pub(crate) fn with(
        files: &'a Files<L::Unit, L::Iface>,
        path: &'a str,
        next: Option<&'a KeptFile<L::Unit, L::Iface>>,
    ) -> FolderView<'a, L>
        requires { IsView L.meaning L.is_unit files.now.entries path.now (option_copied next) }
        ensures { result ≡ next_folder files.now.entries path.now (option_copied next.entry) }
    {
        FolderView {
            files,
            path: Some(path),
            next,
        }
    }

    /// The file at a path.
    pub(crate) fn file(&self, at: &str) -> Option<&'a KeptFile<L::Unit, L::Iface>>
        ensures bytes { option_map (λ file. file.bytes.items) (option_copied result)
            ≡ bytes_at self.now at.now }
        ensures kept { IfSome result (λ file. IsKept L.meaning L.is_unit at.now file.now) }
    {
        match self.path {
            Some(path) if at == path => self.next,
            _ => self.files.get(at),
        }
    }

    /// The interface of the file at a path, if there is one.
    pub(crate) fn interface(&self, at: &str) -> Option<&'a L::Iface>
        ensures { option_copied result ≡ interface_in L.meaning self.now at.now }
    {
        self.file(at).map(|file| &file.iface)
    }

    /// The answer of a call: the interface of its first candidate that is in the folder.
    #[tactic(auto, using(crate::proofs::Answering::or_none), unfolding(crate::specs::Folder::answer))]
    pub(crate) fn answer(&self, target: &Target) -> Option<&'a L::Iface>
        ensures { option_copied result ≡ answer L.meaning self.now target.now }
    {
        match target {
            Target::Only(only) => self.interface(only.as_str()),
            Target::FirstOf(first, second) => self
                .interface(first.as_str())
                .or_else(|| self.interface(second.as_str())),
        }
    }

    // The answers of calls, in order.
    fn answers(&self, targets: &[Target]) -> Result<Vec<Option<&'a L::Iface>>, AllocError>
        ensures { IfOk result (λ found. map (λ a. option_copied a) found.items
            ≡ map (answer L.meaning self.now) targets.now) }
    {
        let mut found = Vec::new(*self.files.allocator());
        for target in targets {
            found.push(self.answer(target))?;
        }
        Ok(found)
    }

    /// The faults of the file at a path. Makes at most one check, and reads nothing.
    ///
    /// # Errors
    ///
    /// [`AllocError`] if memory runs out.
    pub fn check_path(&self, lint: &mut L, at: &str) -> Result<Vec<Fault>, AllocError>
        requires { IsSome (bytes_at self.now at.now) }
        ensures faults { IfOk result (λ fs. fs.items ≡ faults_of L.meaning self.now at.now) }
        ensures checks { OnOk result (L.checks_of lint.new ≡ count_after (L.checks_of lint.old) 1) }
        ensures bound { OnErr result (IsUpTo (L.checks_of lint.old) (L.checks_of lint.new) 1) }
        ensures reads { L.reads_of lint.new ≡ L.reads_of lint.old }
    {
        let Some(file) = self.file(at) else {
            unreachable!();
        };
        let found = self.answers(&file.calls.targets)?;
        let alloc = *self.files.allocator();
        Ok(lint.check(alloc, at, &file.bytes, &file.unit, &found)?)
    }

    /// The faults of the files at these paths: a list for each file, in order. Checks each file
    /// once, and reads none.
    ///
    /// # Errors
    ///
    /// [`AllocError`] if memory runs out. At most as many checks as there are paths have then been
    /// counted.
    pub fn check_paths(&self, lint: &mut L, paths: &[Path]) -> Result<Vec<Vec<Fault>>, AllocError>
        requires { AllByRecursion (λ q. IsSome (bytes_at self.now q)) paths.now }
        ensures faults { IfOk result (λ lists. map (λ faults. faults.items) lists.items
            ≡ map (faults_of L.meaning self.now) paths.now) }
        ensures checks { OnOk result
            (L.checks_of lint.new ≡ count_after (L.checks_of lint.old) (length paths.now)) }
        ensures bound { OnErr result
            (IsUpTo (L.checks_of lint.old) (L.checks_of lint.new) (length paths.now)) }
        ensures reads { L.reads_of lint.new ≡ L.reads_of lint.old }
    {
        let mut lists = Vec::new(*self.files.allocator());
        for at in paths {
            let faults = self.check_path(lint, at.as_str())?;
            lists.push(faults)?;
        }
        Ok(lists)
    }
}
