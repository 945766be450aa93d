//! Why an edit is refused.

ghost use Rattle.std.specs.Prelude.{◌≡◌, is_some, None, IfNone, IsSome};
ghost use Rattle.al_base.specs.Paths.{path_fault_of};
ghost use Rattle.al_session_folder.specs.Folder.{bytes_at, delete_refusal, put_refusal};
ghost use Rattle.al_session_folder.specs.Kept.{folder_of};
ghost use Rattle.al_session.specs.Private.Edits.{IsAllowed};

use al_base::limits::{LARGEST_FILE, MOST_FILES};
use al_base::path_fault;
use al_session_folder::{Files, Lint, Refused};

/// Why a file with this path and these bytes is refused, given the files that are there, other than
/// for lack of memory.
#[tactic(auto, using(std::proofs::lemmas::Bool::Decides::nat_tests), unfolding(al_session_folder::specs::Folder::put_refusal))]
pub(crate) fn put_refused<L: Lint>(
    lint: &L,
    files: &Files<L::Unit, L::Iface>,
    path: &str,
    bytes: &[u8],
) -> Option<Refused>
    ensures refusal { result
        ≡ put_refusal L.meaning (folder_of files.now.entries) path.now bytes.now }
    ensures allowed { IfNone result
        (IsAllowed L.meaning (folder_of files.now.entries) path.now bytes.now) }
{
    if path_fault(path).is_some() {
        return Some(Refused::BadPath);
    }
    if !lint.accepts(path) {
        return Some(Refused::NotAccepted);
    }
    if bytes.len() > LARGEST_FILE {
        return Some(Refused::TooLarge);
    }
    if files.len() >= MOST_FILES && !has_file(files, path) {
        return Some(Refused::Full);
    }
    None
}

/// Why a delete of the file with this path is refused, given the files that are there, other than
/// for lack of memory.
#[tactic(auto, using(std::proofs::lemmas::Bool::Decides::nat_tests), unfolding(al_session_folder::specs::Folder::delete_refusal))]
pub(crate) fn delete_refused<L: Lint>(
    lint: &L,
    files: &Files<L::Unit, L::Iface>,
    path: &str,
) -> Option<Refused>
    ensures refusal { result ≡ delete_refusal L.meaning (folder_of files.now.entries) path.now }
    ensures valid { IfNone result (path_fault_of path.now ≡ None) }
    ensures there { IfNone result (IsSome (bytes_at (folder_of files.now.entries) path.now)) }
{
    if path_fault(path).is_some() {
        return Some(Refused::BadPath);
    }
    if !lint.accepts(path) {
        return Some(Refused::NotAccepted);
    }
    if !has_file(files, path) {
        return Some(Refused::NoSuchFile);
    }
    None
}

// Whether one of the files has this path.
fn has_file<U, I>(files: &Files<U, I>, path: &str) -> bool
    ensures { result ≡ is_some (bytes_at (folder_of files.now.entries) path.now) }
{
    files.contains_key(path)
}
