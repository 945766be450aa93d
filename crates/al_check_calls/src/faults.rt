//! The faults of the calls of a file.
ghost use Rattle.std.specs.Prelude.{◌≡◌, ◌++◌, map, All, OnOk};
ghost use Rattle.std.specs.List.{flat_map};
ghost use Rattle.al_base.specs.Growth.{SameSet};
ghost use Rattle.al_check_calls.specs.Answers.{answered_faults};
ghost use Rattle.al_check_calls.specs.CallFaults as meant;
ghost use Rattle.al_check_calls.specs.Preconditions.{AreShort, AreToldByUses};
ghost use Rattle.al_check_calls.specs.AnswerViews.{answered_of, typing_in};
ghost use Rattle.al_check_calls.specs.Private.Comparing.{faults_but_names};
ghost use Rattle.al_check_contexts.specs.Environments.{HasMoved, IsAtPosition, file_of};
ghost use Rattle.al_yaml_tree.specs.View.{view};

use crate::answers::{Answered, called_signature, is_callable};
use crate::comparisons::all_comparisons;
use crate::missing::check_missing;
use crate::reports::report_uses;
use crate::undefined::check_undefined;
use crate::values::check_values;
use al_base::{CallCode, Caller, FaultSink};
use al_check_contexts::Env;
use al_check_interfaces::{Interface, caller_of};
use std::alloc::AllocError;

/// C1 and C8.
fn check_uses(answered: Answered<'_>, faults: &mut FaultSink) -> Result<(), AllocError>
    ensures { let a = answered_of answered.entry in OnOk result
        (faults.new ≡ faults.old ++ meant.uses_faults a.call a.answer) }
{
    let call = answered.call;
    let caller = caller_of(call.site);
    match answered.answer {
        None if caller == Caller::Job => report_uses(call, CallCode::NoWorkflow, faults),
        Some(Interface::Readable(called)) if !is_callable(caller, called.role) => {
            report_uses(call, CallCode::NotCallable, faults)
        }
        _ => Ok(()),
    }
}

/// Adds the faults of a call, except those of names: C1, C4 and C8. The values of a step aren't
/// checked.
fn check_call<'a>(
    env: &mut Env<'a>,
    answered: Answered<'a>,
    faults: &mut FaultSink,
) -> Result<(), AllocError>
    requires at { IsAtPosition env.old }
    requires short { AreShort (view answered.call.site.node.now) }
    ensures moved { OnOk result (HasMoved env.new env.old) }
    ensures faults { OnOk result (faults.new ≡ faults.old
        ++ faults_but_names (typing_in (file_of env.old)) (answered_of answered.entry)) }
{
    check_uses(answered, faults)?;
    let call = answered.call;
    match called_signature(answered) {
        Some(signature) if call.site.step.is_none() => {
            check_values(env, call, &signature.inputs, faults)
        }
        _ => Ok(()),
    }
}

/// Adds the faults of some calls of the environment's file, C1 to C6 and C8, and moves the
/// environment to them. Of equal faults, as of calls by aliases, at least one is added. Finding the
/// faults of names takes time proportional to what the calls give, and to the mandatory parameters
/// once for each `uses`.
///
/// The texts of nodes that call are UTF-8 and at most 4,194,304 bytes long. Steps, or jobs, that
/// call by the same text have the same answer. Fails with `AllocError` when out of memory; what the
/// sink holds then is unspecified.
pub fn check_calls<'a>(
    env: &mut Env<'a>,
    answered: &[Answered<'a>],
    faults: &mut FaultSink,
) -> Result<(), AllocError>
    requires at { IsAtPosition env.old }
    requires short { All (λ a. AreShort (view a.call.site.node.now)) answered.now }
    requires answers { AreToldByUses (map answered_of answered.now) }
    ensures { OnOk result (SameSet faults.new (faults.old
        ++ flat_map (answered_faults (typing_in (file_of env.old)))
        (map answered_of answered.now))) }
{
    for one in answered {
        check_call(env, *one, faults)?;
    }
    let comparisons = all_comparisons(faults.alloc(), answered)?;
    check_undefined(comparisons.as_slice(), faults)?;
    check_missing(comparisons, faults)
}
