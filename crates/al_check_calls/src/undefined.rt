//! Names that calls give but the called files don't declare: C2 and C5. The fault is at the name.
//! So calls that give one name at one place, as behind an alias, have the same fault, and it is
//! reported once.
ghost use Rattle.std.specs.Prelude.{◌≡◌, ◌++◌, map, IfOk, IfSome, OnOk};
ghost use Rattle.std.specs.List.{flat_map};
ghost use Rattle.al_base.specs.Growth.{SameSet};
ghost use Rattle.al_check_calls.specs.CallFaults as meant;
ghost use Rattle.al_check_calls.specs.Private.ComparisonViews.{compared_of, name_of};
ghost use Rattle.al_check_calls.specs.Private.Comparing as comparing;
ghost use Rattle.al_check_calls.specs.Private.Comparing.{AreThere, HaveOneSignature};
ghost use Rattle.al_check_calls.specs.Private.Comparing.{TellSignatures};

use crate::comparisons::{Comparison, call_alike, given_by};
use crate::reports::{called_name, code_at, uses_text};
use al_base::{CallCode, Caller, FaultSink};
use al_check_interfaces::{ParameterKind, caller_of};
use al_tree::{Member, is_named_among};
use std::alloc::{AllocError, Global};

/// A name that a call gives.
#[derive(Clone, Copy)]
struct GivenName<'a> {
    by: Comparison<'a>,
    member: Member<'a>,
}

/// Whether a name needs no parameter of the called file, as what a step gives to a container.
fn is_free_for(kind: ParameterKind, caller: Caller, name: &[u8]) -> bool
    ensures { result ≡ meant.is_free_for kind caller name.now }
{
    kind == ParameterKind::Input
        && caller == Caller::Step
        && is_named_among(&[b"args".as_slice(), b"entrypoint".as_slice()], name)
}

/// Whether a call can give a name.
fn is_taken(by: Comparison<'_>, name: &[u8]) -> Result<bool, AllocError>
    ensures { let q = compared_of by.entry in IfOk result (λ b. b
        ≡ meant.is_taken q.kind q.call q.signature name.now) }
{
    let is_declared = by.signature.parameters(by.kind).has(name)?;
    Ok(is_declared || is_free_for(by.kind, caller_of(by.call.site), name))
}

fn undefined_code(kind: ParameterKind) -> CallCode
    ensures { result ≡ meant.undefined_code kind }
{
    match kind {
        ParameterKind::Input => CallCode::UndefinedInput,
        ParameterKind::Secret => CallCode::UndefinedSecret,
    }
}

/// Adds C2 or C5 of a name.
fn check_name(name: GivenName<'_>, faults: &mut FaultSink) -> Result<(), AllocError>
    ensures { OnOk result (faults.new ≡ faults.old ++ comparing.undefined_at (name_of name.entry)) }
{
    let text = name.member.key.text();
    if is_taken(name.by, text)? {
        return Ok(());
    }
    let code = code_at(name.by.call, undefined_code(name.by.kind));
    let called = called_name(name.by.call, name.by.signature);
    faults.report_two(name.member.key.span(), code, text, called)
}

/// Whether calls by the same text give one name at one place.
fn is_same_name_given(one: GivenName<'_>, other: GivenName<'_>) -> bool
    ensures { result ≡ comparing.is_same_name_given (name_of one.entry) (name_of other.entry) }
{
    call_alike(one.by, other.by)
        && one.member.key.text() == other.member.key.text()
        && one.member.key.span() == other.member.key.span()
}

/// Adds C2 or C5 of a name, unless the one before it is the same.
fn check_next_name(
    previous: Option<GivenName<'_>>,
    name: GivenName<'_>,
    faults: &mut FaultSink,
) -> Result<(), AllocError>
    requires alike { IfSome previous (λ p. HaveOneSignature (name_of p).by (name_of name).by) }
    requires there { IfSome previous
        (λ p. AreThere (comparing.undefined_at (name_of p)) faults.old) }
    ensures { OnOk result (SameSet faults.new (faults.old
        ++ comparing.undefined_at (name_of name.entry))) }
{
    match previous {
        Some(before) if is_same_name_given(before, name) => Ok(()),
        _ => check_name(name, faults),
    }
}

/// The names that calls give.
fn names_given<'a>(
    alloc: Global,
    calls: &[Comparison<'a>],
) -> Result<Vec<GivenName<'a>>, AllocError>
    ensures { IfOk result (λ v. map name_of v.items
        ≡ flat_map comparing.names_by (map compared_of calls.now)) }
{
    let mut found = Vec::new(alloc);
    for by in calls {
        for member in &given_by(alloc, by.kind, by.call.site.node)? {
            let (by, member) = (*by, *member);
            found.push(GivenName { by, member })?;
        }
    }
    Ok(found)
}

/// Adds C2 and C5 of the names that calls give, of equal faults at least one.
pub(crate) fn check_undefined(
    calls: &[Comparison<'_>],
    faults: &mut FaultSink,
) -> Result<(), AllocError>
    requires { TellSignatures (map compared_of calls.now) }
    ensures { OnOk result (SameSet faults.new (faults.old
        ++ flat_map comparing.undefined_of (map compared_of calls.now))) }
{
    let mut given = names_given(faults.alloc(), calls)?;
    // Equal names are then adjacent.
    given.sort_unstable_by_key(|name| {
        let Comparison { kind, call, .. } = name.by;
        let place = name.member.key.span().start;
        (place, kind, caller_of(call.site), uses_text(call))
    });
    let mut previous = None;
    for name in &given {
        check_next_name(previous, *name, faults)?;
        previous = Some(*name);
    }
    Ok(())
}
