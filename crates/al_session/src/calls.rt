//! The graph of calls that a session keeps beside its files.

ghost use Rattle.std.specs.Prelude.{◌≡◌, IsSome, OnOk, OnErr};
ghost use Rattle.al_session_folder.specs.Folder.{with_file};
ghost use Rattle.al_session_folder.specs.Kept.{AreKept, IsKept, folder_of};
ghost use Rattle.al_session.specs.Private.Graphs.{IsGraphIf};

use al_session_folder::{
    CallGraph, Files, KeptFile, LinkedFiles, Lint, call_graph, has_same_calls,
};
use std::alloc::AllocError;

/// Computes the graph of calls of these files, if it isn't known. On failure nothing changes.
pub(crate) fn find_graph<L: Lint>(
    files: &Files<L::Unit, L::Iface>,
    calls: &mut Option<CallGraph>,
) -> Result<(), AllocError>
    requires kept { AreKept L.meaning L.is_unit files.now.entries }
    requires graph { IsGraphIf L.meaning (folder_of files.now.entries) calls.old }
    ensures graph { IsGraphIf L.meaning (folder_of files.now.entries) calls.new }
    ensures found { OnOk result (IsSome calls.new) }
    ensures as_before { OnErr result (calls.new ≡ calls.old) }
{
    if calls.is_none() {
        *calls = Some(call_graph::<L>(files)?);
    }
    Ok(())
}

/// These files with the graph of their calls, which was computed before.
pub(crate) fn linked_files<'a, L: Lint>(
    files: &'a Files<L::Unit, L::Iface>,
    calls: &'a Option<CallGraph>,
) -> LinkedFiles<'a, L>
    requires kept { AreKept L.meaning L.is_unit files.now.entries }
    requires graph { IsGraphIf L.meaning (folder_of files.now.entries) calls.now }
    requires found { IsSome calls.now }
    ensures { result ≡ folder_of files.now.entries }
{
    match calls {
        Some(found) => LinkedFiles::new(files, found),
        None => unreachable!(),
    }
}

/// Forgets the graph of calls before a file is put, unless the file replaces one with the same
/// calls.
pub(crate) fn forget_unless_same<L: Lint>(
    files: &Files<L::Unit, L::Iface>,
    path: &str,
    file: &KeptFile<L::Unit, L::Iface>,
    calls: &mut Option<CallGraph>,
)
    requires kept { AreKept L.meaning L.is_unit files.now.entries }
    requires file { IsKept L.meaning L.is_unit path.now file.now }
    requires graph { IsGraphIf L.meaning (folder_of files.now.entries) calls.old }
    ensures before { IsGraphIf L.meaning (folder_of files.now.entries) calls.new }
    ensures after { IsGraphIf L.meaning
        (with_file (folder_of files.now.entries) path.now file.now.bytes.items) calls.new }
{
    if let Some(old) = files.get(path) {
        if has_same_calls(&old.calls.targets, &file.calls.targets) {
            return;
        }
    }
    *calls = None;
}
