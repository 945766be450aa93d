//! The kept files of a folder, with the index of their callers.

ghost use Rattle.std.specs.Prelude.{◌≡◌, []};
ghost use Rattle.std.specs.Option.{option_copied};
ghost use Rattle.al_session_folder.specs.Folder.{bytes_at};
ghost use Rattle.al_session_folder.specs.Kept.{folder_of};

use al_session_folder::{Callers, Files, Seed};
use indexmap::IndexMap;
use std::alloc::Global;

/// The files by path, and the index of their callers.
#[derive(Drop)]
pub struct IndexedFiles<U, I> {
    pub files: Files<U, I>,
    pub callers: Callers,
}

impl<U, I> IndexedFiles<U, I> {
    /// No files. Doesn't allocate.
    pub(crate) fn new(alloc: Global, seed: Seed) -> IndexedFiles<U, I>
        ensures files { result.files.entries ≡ [] }
        ensures callers { result.callers.entries ≡ [] }
    {
        IndexedFiles {
            files: IndexMap::with_hasher(alloc, seed),
            callers: IndexMap::with_hasher(alloc, seed),
        }
    }

    /// The allocator of the files.
    pub(crate) fn alloc(&self) -> Global {
        *self.files.allocator()
    }

    /// The seed of the hashes of paths.
    pub(crate) fn seed(&self) -> Seed {
        *self.files.hasher()
    }

    /// The bytes of a file; `None` if no file has this path. Doesn't allocate.
    #[tactic(auto, using(al_session_folder::proofs::Views::bytes_kept))]
    pub(crate) fn bytes(&self, path: &str) -> Option<&[u8]>
        ensures { option_copied result ≡ bytes_at (folder_of self.now.files.entries) path.now }
    {
        self.files.get(path).map(|file| file.bytes.as_slice())
    }
}
