//! Mandatory parameters that calls don't give: C3 and C6. The fault is at `uses` and names only the
//! parameter. So for calls behind aliases of one `uses`, a parameter is looked up until one of them
//! doesn't give it, and reported once.
ghost use Rattle.std.specs.Prelude.{◌≡◌, ◌++◌, map, IfOk, IfSome, OnOk};
ghost use Rattle.std.specs.List.{flat_map};
ghost use Rattle.al_base.specs.Growth.{SameSet};
ghost use Rattle.al_check_calls.specs.CallFaults as meant;
ghost use Rattle.al_check_calls.specs.Private.ComparisonViews.{compared_of};
ghost use Rattle.al_check_calls.specs.Private.Comparing as comparing;
ghost use Rattle.al_check_calls.specs.Private.Comparing.{HaveOneSignature, IsSaid, TellSignatures};

use crate::comparisons::{Comparison, call_alike, given_by};
use crate::reports::{called_name, code_at};
use al_base::{CallCode, FaultSink};
use al_check_interfaces::{Call, Parameter, ParameterKind, caller_of};
use al_tree::member_positions;
use std::alloc::AllocError;

fn missing_code(kind: ParameterKind) -> CallCode
    ensures { result ≡ meant.missing_code kind }
{
    match kind {
        ParameterKind::Input => CallCode::MissingInput,
        ParameterKind::Secret => CallCode::MissingSecret,
    }
}

/// Adds C3 and C6 of these parameters, and returns those that the call gives. If there are no
/// parameters, what the call gives isn't looked at.
fn check_parameters<'a>(
    call: Comparison<'_>,
    parameters: &[&'a Parameter],
    faults: &mut FaultSink,
) -> Result<Vec<&'a Parameter>, AllocError>
    ensures faults { OnOk result (faults.new ≡ faults.old
        ++ flat_map (comparing.fault_unless_given (compared_of call.entry))
        (map (λ p. p.now) parameters.now)) }
    ensures left { IfOk result (λ v. map (λ p. p.now) v.items
        ≡ flat_map (comparing.parameter_if_given (compared_of call.entry))
        (map (λ p. p.now) parameters.now)) }
{
    let alloc = faults.alloc();
    let mut left = Vec::new(alloc);
    if let [] = parameters {
        return Ok(left);
    }
    let given = given_by(alloc, call.kind, call.call.site.node)?;
    let names = member_positions(alloc, given.as_slice())?;
    for parameter in parameters {
        let name = parameter.name.as_bytes();
        if names.get(name)?.is_some() {
            left.push(*parameter)?;
            continue;
        }
        let code = code_at(call.call, missing_code(call.kind));
        let called = called_name(call.call, call.signature);
        faults.report_two(call.call.uses.span(), code, name, called)?;
    }
    Ok(left)
}

/// Whether two calls with the same text are by one `uses`.
fn is_by_same_uses(one: Comparison<'_>, other: Comparison<'_>) -> bool
    ensures { result ≡ comparing.is_by_same_uses (compared_of one.entry) (compared_of other.entry) }
{
    call_alike(one, other) && one.call.uses.span() == other.call.uses.span()
}

/// Adds C3 and C6 of a call. After a call by the same `uses`, only the parameters that are left are
/// looked up. Returns those that are left now.
fn check_next<'a>(
    previous: Option<Comparison<'a>>,
    left: &[&'a Parameter],
    call: Comparison<'a>,
    faults: &mut FaultSink,
) -> Result<Vec<&'a Parameter>, AllocError>
    requires alike { IfSome previous (λ p. HaveOneSignature (compared_of p) (compared_of call)) }
    requires said { IfSome previous
        (λ p. IsSaid (compared_of p) (map (λ q. q.now) left.now) faults.old) }
    ensures faults { OnOk result (SameSet faults.new (faults.old
        ++ comparing.missing_of (compared_of call.entry))) }
    ensures said { IfOk result
        (λ v. IsSaid (compared_of call.entry) (map (λ q. q.now) v.items) faults.new) }
{
    match previous {
        Some(before) if is_by_same_uses(before, call) => check_parameters(call, left, faults),
        _ => {
            let all = call.signature.parameters(call.kind).mandatory()?;
            check_parameters(call, all.as_slice(), faults)
        }
    }
}

/// Adds C3 and C6 of calls, of equal faults at least one. Takes time proportional to what the calls
/// give, and to the mandatory parameters once for each `uses`.
pub(crate) fn check_missing(
    mut comparisons: Vec<Comparison<'_>>,
    faults: &mut FaultSink,
) -> Result<(), AllocError>
    requires { TellSignatures (map compared_of comparisons.items) }
    ensures { OnOk result (SameSet faults.new
        (faults.old ++ flat_map comparing.missing_of (map compared_of comparisons.entry.items))) }
{
    // Calls by one `uses` are then adjacent.
    comparisons.sort_unstable_by_key(|one| {
        let Call { site, uses } = one.call;
        (uses.span().start, caller_of(site), one.kind)
    });
    let mut previous = None;
    let mut left = Vec::new(faults.alloc());
    for call in &comparisons {
        left = check_next(previous, left.as_slice(), *call, faults)?;
        previous = Some(*call);
    }
    Ok(())
}
