//! The calls of a file, each with its answer.
ghost use Rattle.std.specs.Prelude.{◌≡◌, map, IfOk};
ghost use Rattle.std.specs.Option.{option_copied};
ghost use Rattle.al_check_calls.specs.Answers as answering;
ghost use Rattle.al_check_calls.specs.CallFaults as meant;
ghost use Rattle.al_check_calls.specs.AnswerViews.{answered_of};
ghost use Rattle.al_tree.specs.declared.files.FileKind.{FileKind};
ghost use Rattle.al_check_interfaces.specs.FolderCalls.{AreCallsOf};
ghost use Rattle.al_check_interfaces.specs.CallViews.{call_of};
ghost use Rattle.al_check_interfaces.specs.Uses as uses;
ghost use Rattle.al_yaml_tree.specs.Node.{Node};

use al_base::Caller;
use al_check_interfaces::{Call, FolderCall, Interface, Role, Signature, caller_of};
use std::alloc::{AllocError, Global};

/// A call of a file in the folder with its answer: the interface of its first candidate that
/// exists, or `None`.
#[derive(Clone, Copy)]
pub struct Answered<'a> {
    pub(crate) call: Call<'a>,
    pub(crate) answer: Option<&'a Interface>,
}

/// The kept calls of files in the folder, each with its answer. `calls` are all calls of the file;
/// `answers` are those of the kept calls, in order, and a call past their end has `None`.
///
/// Fails with `AllocError` when out of memory.
pub fn with_answers<'a>(
    alloc: Global,
    calls: &[Call<'a>],
    kept: &[FolderCall],
    answers: &[Option<&'a Interface>],
) -> Result<Vec<Answered<'a>>, AllocError>
    ensures { (kind : FileKind) (root : Node) → map call_of calls.now ≡ uses.calls_in kind root
        → AreCallsOf kind root kept.now
        → IfOk result (λ v. map answered_of v.items
        ≡ answering.calls_with_answers (uses.calls_in kind root)
        (map (λ a. option_copied a) answers.now)) }
{
    let mut found = Vec::new(alloc);
    for (i, kept_call) in kept.iter().enumerate() {
        let Some(call) = calls.get(kept_call.number) else {
            continue;
        };
        let answer = answers.get(i).copied().unwrap_or(None);
        found.push(Answered {
            call: *call,
            answer,
        })?;
    }
    Ok(found)
}

/// Whether a step or a job can call a file with this role.
pub(crate) fn is_callable(caller: Caller, role: Role) -> bool
    ensures { result ≡ meant.is_callable caller role }
{
    matches!(
        (caller, role),
        (Caller::Step, Role::Composite | Role::Action) | (Caller::Job, Role::Callable)
    )
}

/// The signature that a call is compared with, if it can call the file that answers it.
pub(crate) fn called_signature<'a>(answered: Answered<'a>) -> Option<&'a Signature>
    ensures { let a = answered_of answered.entry in option_copied result
        ≡ meant.callable_signature (uses.site_caller a.call.site) a.answer }
{
    let caller = caller_of(answered.call.site);
    match answered.answer {
        Some(Interface::Readable(called)) if is_callable(caller, called.role) => Some(called),
        _ => None,
    }
}
