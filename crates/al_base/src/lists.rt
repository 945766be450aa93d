//! A file's faults as a report lists them, the laws of such lists, and copies of faults.
ghost use Rattle.std.specs.Prelude.{◌≡◌, ◌++◌, OnOk};
ghost use Rattle.al_base.specs.FaultLists.{fault_list};
ghost use Rattle.al_base.specs.FaultLaws.{OrderTells, ListIsSorted, ListHasEachOnce};
ghost use Rattle.al_base.specs.FaultLaws.{ListKeepsFaults, OneListForSameFaults};
ghost use Rattle.al_base.specs.Growth.{BeginsWith};

use super::faults::Fault;
use std::alloc::{AllocError, Global};

/// A file's list of faults: these faults in the order of reports, each once, in whatever order they
/// were found. Doesn't allocate.
pub fn fault_list(mut faults: Vec<Fault>) -> Vec<Fault>
    ensures { result.items ≡ fault_list faults.items }
{
    faults.sort_unstable();
    faults.dedup();
    faults
}

/// The laws of lists of faults, for proofs; does nothing at run time.
///
/// The order of reports is total and tells different faults apart. A list of faults is sorted by
/// it, has no fault twice, and has exactly the faults that it was made from, so it depends only on
/// which they are.
pub fn fault_lists()
    ensures order { OrderTells }
    ensures sorted { ListIsSorted }
    ensures once { ListHasEachOnce }
    ensures members { ListKeepsFaults }
    ensures one { OneListForSameFaults }
{}

/// Appends copies of faults to a list.
///
/// # Errors
///
/// `AllocError` if memory runs out. The list then still begins with what it held, and may have some
/// of the copies after that.
pub fn add_copies(alloc: Global, faults: &[Fault], out: &mut Vec<Fault>) -> Result<(), AllocError>
    ensures all { OnOk result (out.new.items ≡ out.old.items ++ faults.now) }
    ensures begins { BeginsWith out.new.items out.old.items }
{
    for fault in faults {
        let args = fault.args.copy(alloc)?;
        out.push(Fault { args, ..*fault })?;
    }
    Ok(())
}
