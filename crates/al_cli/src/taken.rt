//! The files of a run, read and put one after another.

ghost use Rattle.std.specs.Prelude.{◌≡◌, ◌++◌, [], ◌∷◌, map, IfOk, OnOk, OnErr, None, is_some};
ghost use Rattle.al_session.specs.Folder.{bytes_at};
ghost use Rattle.al_tree.specs.Kinds.{is_accepted};
ghost use Rattle.al_cli.specs.Linted.{folder_with};
ghost use Rattle.al_cli.specs.Private.Kept.{AreKept, entries_in};
ghost use Rattle.al_cli.specs.Private.Turns.{calls_at};
ghost use Rattle.al_cli.specs.Taken.{AreGathered, owned_entry};

use crate::gathering::Loaded;
use al_base::{Path, PathFault};
use al_check::Actions;
use al_session::{Refused, Seed, Target};
use std::alloc::{AllocError, Global};
use std::marker::Model;

/// Files that were read and put one after another, each path once, but not yet checked. Contracts
/// see their paths and bytes, in the order in which they were put.
#[derive(Drop)]
pub(crate) struct TakenFiles {
    files: Loaded,
    order: Vec<Path>,
}

impl Model for TakenFiles {
    ghost use Rattle.std.specs.Prelude.{ℕ, List};
    ghost use Rattle.al_cli.specs.Private.Kept.{AreKept, entries_in};

    ghost Value = { List (List ℕ × List ℕ) };

    ghost view = { λ t. entries_in t.files.folder t.order.items };

    ghost invariant = { λ t. AreKept t.files.folder t.files.checks t.order.items };
}

impl TakenFiles {
    /// No files. Doesn't allocate.
    pub(crate) fn new(alloc: Global, seed: Seed) -> TakenFiles
        ensures { result ≡ [] }
    {
        TakenFiles {
            files: Loaded::seeded(alloc, Actions::for_one_report(), seed),
            order: Vec::new(alloc),
        }
    }

    /// Their allocator.
    pub(crate) fn alloc(&self) -> Global {
        *self.order.allocator()
    }

    /// How many files there are.
    pub(crate) fn len(&self) -> usize {
        self.order.len()
    }

    /// Whether the linter accepts a file with this path.
    pub(crate) fn accepts(&self, path: &str) -> bool
        ensures { result ≡ is_accepted path.now }
    {
        self.files.accepts(path)
    }

    /// Whether a file has this path.
    pub(crate) fn has(&self, path: &str) -> bool
        ensures { result ≡ is_some (bytes_at (folder_with [] self.now) path.now) }
    {
        self.files.bytes(path).is_some()
    }

    /// The calls of the file with this number; none if there is no such file.
    pub(crate) fn calls(&self, number: usize) -> &[Target]
        ensures { result.now ≡ calls_at self.now number }
    {
        match self.order.get(number) {
            Some(path) => self.files.calls(path.as_str()).unwrap_or(&[]),
            None => &[],
        }
    }

    /// Puts a file after the others, none of which may have its path.
    ///
    /// # Errors
    ///
    /// Those of [`SessionBuilder::put`](al_session::SessionBuilder::put). The files are then
    /// unchanged.
    pub(crate) fn put(&mut self, path: &str, bytes: Vec<u8>) -> Result<(), Refused>
        requires { bytes_at (folder_with [] self.old) path.now ≡ None }
        ensures put { OnOk result (self.new ≡ self.old ++ (path.now, bytes.items) ∷ []) }
        ensures as_before { OnErr result (self.new ≡ self.old) }
    {
        let owned = match Path::new(self.alloc(), path) {
            Ok(owned) => owned,
            Err(PathFault::Memory) => return Err(Refused::Memory),
            Err(_) => return Err(Refused::BadPath),
        };
        put_after(&mut self.files, &mut self.order, owned, bytes)
    }

    /// The folder that the files make when they are put one after another, not yet checked.
    pub(crate) fn into_loaded(self) -> Loaded
        ensures gathered { AreGathered self }
        ensures folder { result.folder ≡ folder_with [] self }
        ensures checks { result.checks ≡ 0 }
    {
        self.files
    }

    /// The files with their bytes, in the order in which they were put.
    ///
    /// # Errors
    ///
    /// `AllocError` if memory runs out.
    pub(crate) fn into_list(self) -> Result<Vec<(Path, Vec<u8>)>, AllocError>
        ensures gathered { AreGathered self }
        ensures list { IfOk result (λ files. map owned_entry files.items ≡ self) }
    {
        let TakenFiles { files, order } = self;
        with_bytes(&files, order)
    }
}

// Puts a file after those at these paths, none of which is its own. On failure the files and the
// paths are unchanged.
fn put_after(
    files: &mut Loaded,
    order: &mut Vec<Path>,
    path: Path,
    bytes: Vec<u8>,
) -> Result<(), Refused>
    requires kept { AreKept files.old.folder files.old.checks order.old.items }
    requires new { bytes_at (folder_with [] (entries_in files.old.folder order.old.items)) path
        ≡ None }
    ensures kept { AreKept files.new.folder files.new.checks order.new.items }
    ensures put { OnOk result (entries_in files.new.folder order.new.items
        ≡ entries_in files.old.folder order.old.items ++ (path, bytes.items) ∷ []) }
    ensures as_before { OnErr result (entries_in files.new.folder order.new.items
        ≡ entries_in files.old.folder order.old.items) }
{
    if order.reserve(1).is_err() {
        return Err(Refused::Memory);
    }
    files.put(path.as_str(), bytes)?;
    // There is room for it.
    let _ = order.push(path);
    Ok(())
}

// The files at these paths, with their bytes.
fn with_bytes(files: &Loaded, paths: Vec<Path>) -> Result<Vec<(Path, Vec<u8>)>, AllocError>
    ensures { IfOk result
        (λ list. map owned_entry list.items ≡ entries_in files.now.folder paths.items) }
{
    let alloc = *paths.allocator();
    let mut list = Vec::with_capacity(alloc, paths.len())?;
    for path in paths {
        let bytes = Vec::from_slice(alloc, files.bytes(path.as_str()).unwrap_or(&[]))?;
        list.push((path, bytes))?;
    }
    Ok(list)
}
