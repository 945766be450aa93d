//! The faults of calls on a call cycle, merged with the file's own faults.

ghost use Rattle.std.specs.Prelude.{◌≡◌, ◌==◌, IfOk, length, not};
ghost use Rattle.std.specs.List.{enumerate_from, list_any};
ghost use Rattle.al_session_folder.specs.Kept.{folder_of, referents};
ghost use Rattle.al_session_folder.specs.Cycles as cycles;
ghost use Rattle.al_session_folder.specs.Checked.{AllChecked};
ghost use Rattle.al_session_folder.specs.Printing.{AreListed, AreCycleFaults, joined_faults};

use crate::{Files, LinkedFiles, Lint, file_number};
use al_base::Fault;
use std::alloc::{AllocError, Global};

// A file's own faults and those of its calls on a call cycle, in the order of reports, each once.
// Empty if no call is on a cycle.
fn join_faults<'a>(
    alloc: Global,
    own: &'a [Fault],
    call_cycle_faults: &'a [Fault],
) -> Result<Vec<&'a Fault>, AllocError>
    ensures { IfOk result (λ joined. referents joined.items
        ≡ joined_faults own.now call_cycle_faults.now) }
{
    if call_cycle_faults.is_empty() {
        return Ok(Vec::new(alloc));
    }
    // The file's own faults are sorted, and few come after its first call, so appending the others
    // makes sorting fast.
    let mut joined: Vec<&Fault> = own.iter().chain(call_cycle_faults).collect(alloc)?;
    joined.sort_unstable();
    joined.dedup();
    Ok(joined)
}

/// The faults of the calls on a call cycle, for each file in order.
///
/// # Errors
///
/// [`AllocError`] if memory runs out.
pub fn find_call_cycle_faults<L: Lint>(
    lint: &L,
    linked: &LinkedFiles<'_, L>,
) -> Result<Vec<Vec<Fault>>, AllocError>
    ensures { IfOk result (λ all. AreCycleFaults L.meaning linked.now all.items) }
{
    let mut all = Vec::with_capacity(linked.alloc(), linked.count())?;
    for index in 0..linked.count() {
        all.push(linked.call_cycle_faults(lint, index)?)?;
    }
    Ok(all)
}

/// What a report lists of each file, in order of path, given the faults of calls on a call cycle.
/// Empty for a file without such faults, of which the report lists its own faults.
///
/// # Errors
///
/// [`AllocError`] if memory runs out.
pub fn join_files<'a, L: Lint>(
    files: &'a Files<L::Unit, L::Iface>,
    call_cycle_faults: &'a [Vec<Fault>],
) -> Result<Vec<Vec<&'a Fault>>, AllocError>
    requires checked { AllChecked L.meaning (folder_of files.now.entries) files.now.entries }
    requires call_cycle_faults { AreCycleFaults L.meaning (folder_of files.now.entries)
        call_cycle_faults.now }
    ensures { IfOk result (λ joined. AreListed L.meaning files.now.entries joined.items) }
{
    let alloc = *files.allocator();
    let mut joined = Vec::with_capacity(alloc, files.len())?;
    for index in 0..files.len() {
        let (_, file) = file_number(files, index);
        joined.push(join_faults(alloc, &file.faults, &call_cycle_faults[index])?)?;
    }
    Ok(joined)
}

/// Whether any file has a call on a call cycle. Doesn't allocate.
pub fn has_call_cycles<L: Lint>(linked: &LinkedFiles<'_, L>) -> bool
    ensures { result ≡ list_any
        (λ x. not (length (cycles.call_cycle_faults L.meaning linked.now x.0 x.1.0 x.1.1) == 0))
        (enumerate_from 0 linked.now) }
{
    for index in 0..linked.count() {
        if linked.has_call_on_cycle(index) {
            return true;
        }
    }
    false
}
