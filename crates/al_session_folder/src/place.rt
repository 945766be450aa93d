//! Positions among the files, which are in order of path.

ghost use Rattle.std.specs.Prelude.{◌≡◌, ◌<◌, Some, length, slice_get, string_bytes};
ghost use Rattle.std.specs.List.Sorted.{IsStrictlySortedBy};
ghost use Rattle.std.specs.Ordering.{nat_cmp};
ghost use Rattle.std.specs.Cmp.Lexicographic.{slice_cmp};
ghost use Rattle.al_session_folder.specs.Folder.{paths_of};
ghost use Rattle.al_session_folder.specs.Place.{path_place};
ghost use Rattle.al_session_folder.specs.Kept.{folder_of};

use crate::kept::{Files, KeptFile};
use std::cmp::Ordering;

/// `Ok` with the index of the file with a path, or `Err` with the index at which it would be
/// inserted.
pub fn place_in<U, I>(files: &Files<U, I>, path: &str) -> Result<usize, usize>
    requires { IsStrictlySortedBy (slice_cmp nat_cmp) (paths_of (folder_of files.now.entries)) }
    ensures { result ≡ path_place (paths_of (folder_of files.now.entries)) path.now }
{
    files.binary_search_by(
        |name: &String, _file: &KeptFile<U, I>| -> Ordering
            ensures { result ≡ slice_cmp nat_cmp (string_bytes name.now) path.entry.now }
        { name.as_str().cmp(path) },
    )
}

/// The file at an index, with its path.
pub fn file_number<U, I>(files: &Files<U, I>, index: usize) -> (&String, &KeptFile<U, I>)
    requires { index < length files.now.entries }
    ensures { slice_get files.now.entries index ≡ Some (result.0.now, result.1.now) }
{
    files.get_index(index).unwrap()
}
