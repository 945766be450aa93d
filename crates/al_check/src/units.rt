//! What is kept of files after they were read.
ghost use Rattle.std.specs.Prelude.{◌≡◌, ℕ, List, IfOk, length};
ghost use Rattle.al_tree.specs.declared.files.FileKind.{FileKind};
ghost use Rattle.al_check.specs.Reading.{IsRead};
ghost use Rattle.al_check.specs.Units.{calls_kept, IsBriefOf, IsCheckedOf};

use crate::files::{ReadFile, Source, file_faults, file_interface};
use al_base::Fault;
use al_check_interfaces::{FolderCall, Interface};
use std::alloc::{AllocError, Global};

/// The part of a file that a report and the file's callers need.
#[derive(Drop)]
pub struct Brief {
    pub(crate) interface: Interface,
    pub(crate) calls: Vec<FolderCall>,
}

/// The interface of a file that calls no file in the folder, and all of its faults.
#[derive(Drop)]
pub struct Checked {
    pub(crate) interface: Interface,
    pub(crate) faults: Vec<Fault>,
}

/// What is kept of a file after it was read. Only the linter that made it knows what to do with it.
#[derive(Drop)]
pub enum Unit {
    /// Everything that was read.
    Whole(ReadFile),
    /// Only what a report and the file's callers need; to check the file, it is read again.
    Brief(Brief),
    /// What was found in a file whose faults depend on no other file.
    Checked(Checked),
}

/// The part of this file that a report and its callers need.
pub(crate) fn brief_of(alloc: Global, file: ReadFile) -> Result<Brief, AllocError>
    ensures { IfOk result (λ brief. (kind : FileKind) (bytes : List ℕ) → IsRead file kind bytes
        → IsBriefOf brief kind bytes) }
{
    let interface = file_interface(alloc, &file)?;
    let calls = file.calls;
    Ok(Brief { interface, calls })
}

/// Checks a file that was read from this source and calls no file in the folder.
pub(crate) fn check_alone(
    alloc: Global,
    source: Source<'_>,
    file: &ReadFile,
) -> Result<Checked, AllocError>
    requires read { IsRead file.now source.kind source.bytes.now }
    requires alone { length file.now.calls.items ≡ 0 }
    ensures { IfOk result
        (λ checked. IsCheckedOf checked (source.entry).kind (source.entry).bytes.now) }
{
    let interface = file_interface(alloc, file)?;
    let faults = file_faults(alloc, source, file, &[])?;
    Ok(Checked { interface, faults })
}

/// The calls of files in the folder.
pub(crate) fn calls_of(unit: &Unit) -> &[FolderCall]
    ensures { result.now ≡ calls_kept unit.now }
{
    match unit {
        Unit::Whole(file) => file.calls.as_slice(),
        Unit::Brief(brief) => brief.calls.as_slice(),
        Unit::Checked(_) => &[],
    }
}
