//! The calls of files in the folder, as kept with a file that was read.
ghost use Rattle.std.specs.Prelude.{◌≡◌, ◌++◌, [], map, slice_get, IfOk, List, OnOk, Some};
ghost use Rattle.std.specs.List.{cons_option, filter_map, flat_map};
ghost use Rattle.al_check_interfaces.specs.FolderCalls.{as_folder_call, folder_call};
ghost use Rattle.al_check_interfaces.specs.CallViews.{call_of};
ghost use Rattle.al_check_interfaces.specs.Uses as calling;

use crate::forms::{Form, form_by};
use crate::sites::{Call, caller_of};
use al_base::{Args, CallCode, Code, Fault, FaultSink};
use al_lint::Target;
use std::alloc::AllocError;

/// A call of a file in the folder.
#[derive(Drop)]
pub struct FolderCall {
    /// Its number among all calls of its file, from 0.
    pub number: usize,
    /// What it calls.
    pub target: Target,
    /// The fault to report if it is on a call cycle: C9, at its `uses`, with its text.
    pub fault: Fault,
}

/// Adds a call to those that are kept, if it names a file in the folder, or the fault of an invalid
/// `uses`.
fn add_call(
    number: usize,
    call: Call<'_>,
    kept: &mut Vec<FolderCall>,
    faults: &mut FaultSink,
) -> Result<(), AllocError>
    ensures calls { let c = call_of call.entry in OnOk result ((all : List calling.Call)
        → slice_get all number ≡ Some c → map (folder_call all) kept.new.items
        ≡ map (folder_call all) kept.old.items ++ cons_option (as_folder_call c) []) }
    ensures faults { let c = call_of call.entry in OnOk result
        (faults.new ≡ faults.old ++ calling.wrong_uses c) }
{
    let alloc = faults.alloc();
    let caller = caller_of(call.site);
    let span = call.uses.span();
    let uses = call.uses.text();
    match form_by(alloc, caller, uses)? {
        Form::Local(target) => {
            let fault = Fault {
                span,
                code: Code::Call(CallCode::CallCycle, caller),
                args: Args::one_lossy(alloc, uses)?,
            };
            kept.push(FolderCall {
                number,
                target,
                fault,
            })?;
            Ok(())
        }
        Form::Other => Ok(()),
        Form::Wrong => faults.report_text(span, Code::Call(CallCode::WrongUses, caller), uses),
    }
}

/// Of all calls of a file, those of files in the folder, in order. Adds the faults of invalid
/// `uses`, C7, which depend on no other file.
///
/// Fails with `AllocError` when out of memory.
pub fn folder_calls(
    calls: &[Call<'_>],
    faults: &mut FaultSink,
) -> Result<Vec<FolderCall>, AllocError>
    ensures calls { IfOk result (λ v. map (folder_call (map call_of calls.now)) v.items
        ≡ filter_map as_folder_call (map call_of calls.now)) }
    ensures faults { OnOk result
        (faults.new ≡ faults.old ++ flat_map calling.wrong_uses (map call_of calls.now)) }
{
    let mut kept = Vec::new(faults.alloc());
    for number in 0..calls.len() {
        add_call(number, calls[number], &mut kept, faults)?;
    }
    Ok(kept)
}
