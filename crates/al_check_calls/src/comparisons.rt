//! Calls whose names are compared with those of a signature.
ghost use Rattle.std.specs.Prelude.{◌≡◌, ◌++◌, [], map, IfOk, OnOk};
ghost use Rattle.std.specs.List.{cons_option, flat_map};
ghost use Rattle.al_check_calls.specs.CallFaults as faults;
ghost use Rattle.al_check_interfaces.specs.Uses.{site_caller};
ghost use Rattle.al_check_calls.specs.AnswerViews.{answered_of};
ghost use Rattle.al_check_calls.specs.Private.ComparisonViews.{compared_of};
ghost use Rattle.al_check_interfaces.specs.CallViews.{call_of};
ghost use Rattle.al_check_calls.specs.Private.Comparing as comparing;
ghost use Rattle.al_tree.specs.Values.{member_of};
ghost use Rattle.al_yaml_tree.specs.View.{view};

use crate::answers::{Answered, called_signature};
use crate::reports::uses_text;
use al_base::Caller;
use al_check_interfaces::{Call, ParameterKind, Signature, caller_of};
use al_tree::{Member, members_under, text_under};
use al_yaml_tree::Node;
use std::alloc::{AllocError, Global};

/// A call whose names of a kind are compared with those of a signature.
#[derive(Clone, Copy)]
pub(crate) struct Comparison<'a> {
    pub(crate) kind: ParameterKind,
    pub(crate) call: Call<'a>,
    pub(crate) signature: &'a Signature,
}

/// The parameters of a kind that a step or a job gives.
pub(crate) fn given_by<'a>(
    alloc: Global,
    kind: ParameterKind,
    node: &'a Node,
) -> Result<Vec<Member<'a>>, AllocError>
    ensures { IfOk result (λ v. map member_of v.items ≡ faults.given_by kind (view node.now)) }
{
    match kind {
        ParameterKind::Input => members_under(alloc, node, "with"),
        ParameterKind::Secret => members_under(alloc, node, "secrets"),
    }
}

/// Whether a job passes all its secrets on to the called workflow, by `secrets: inherit`.
fn is_inherit(job: &Node) -> bool
    ensures { result ≡ faults.is_inherit (view job.now) }
{
    text_under(job, "secrets").is_some_and(|secrets| secrets.text() == b"inherit".as_slice())
}

/// Whether names of a kind are compared: not the secrets of a step, nor those that a job passes on.
fn is_compared(kind: ParameterKind, call: Call<'_>) -> bool
    ensures { result
        ≡ comparing.is_compared kind (site_caller (call_of call.entry).site)
        (call_of call.entry).site.node }
{
    match (kind, caller_of(call.site)) {
        (ParameterKind::Input, _) => true,
        (ParameterKind::Secret, Caller::Step) => false,
        (ParameterKind::Secret, Caller::Job) => !is_inherit(call.site.node),
    }
}

/// Adds a call, if its names of a kind are compared.
fn add_comparison<'a>(
    kind: ParameterKind,
    answered: Answered<'a>,
    found: &mut Vec<Comparison<'a>>,
) -> Result<(), AllocError>
    ensures { OnOk result (map compared_of found.new.items
        ≡ map compared_of found.old.items
        ++ cons_option (comparing.comparison_of kind (answered_of answered.entry)) []) }
{
    let call = answered.call;
    match called_signature(answered) {
        Some(signature) if is_compared(kind, call) => {
            found.push(Comparison {
                kind,
                call,
                signature,
            })?;
            Ok(())
        }
        _ => Ok(()),
    }
}

/// The calls whose names are compared: by inputs, then by secrets.
pub(crate) fn all_comparisons<'a>(
    alloc: Global,
    answered: &[Answered<'a>],
) -> Result<Vec<Comparison<'a>>, AllocError>
    ensures { IfOk result (λ v. map compared_of v.items
        ≡ flat_map comparing.comparisons (map answered_of answered.now)) }
{
    let mut found = Vec::new(alloc);
    for one in answered {
        add_comparison(ParameterKind::Input, *one, &mut found)?;
        add_comparison(ParameterKind::Secret, *one, &mut found)?;
    }
    Ok(found)
}

/// Whether two steps, or two jobs, call by the same text, and names of the same kind are compared.
pub(crate) fn call_alike(one: Comparison<'_>, other: Comparison<'_>) -> bool
    ensures { result ≡ comparing.call_alike (compared_of one.entry) (compared_of other.entry) }
{
    one.kind == other.kind
        && caller_of(one.call.site) == caller_of(other.call.site)
        && uses_text(one.call) == uses_text(other.call)
}
