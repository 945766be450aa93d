//! How faults of calls are reported.
ghost use Rattle.std.specs.Prelude.{◌≡◌, ◌++◌, ◌∷◌, [], OnOk};
ghost use Rattle.al_check_calls.specs.CallFaults as meant;
ghost use Rattle.al_check_interfaces.specs.Uses.{site_caller, that_uses};
ghost use Rattle.al_check_interfaces.specs.CallViews.{call_of};

use al_base::{CallCode, Code, FaultSink};
use al_check_interfaces::{Call, Signature, caller_of};
use std::alloc::AllocError;

/// The text of `uses`.
pub(crate) fn uses_text<'a>(call: Call<'a>) -> &'a [u8]
    ensures { result.now ≡ (call_of call.entry).text }
{
    call.uses.text()
}

/// How faults name the called file.
pub(crate) fn called_name<'a>(call: Call<'a>, signature: &'a Signature) -> &'a [u8]
    ensures { result.now ≡ meant.called_name (call_of call.entry) signature.now }
{
    let name = signature.name.as_ref();
    name.map_or(uses_text(call), |name| name.as_bytes())
}

/// The code of a fault of a call, which names who calls.
pub(crate) fn code_at(call: Call<'_>, code: CallCode) -> Code
    ensures { result ≡ Code.Call code (site_caller (call_of call.entry).site) }
{
    Code::Call(code, caller_of(call.site))
}

/// Adds a fault at the `uses` of a call that names its text.
pub(crate) fn report_uses(
    call: Call<'_>,
    code: CallCode,
    faults: &mut FaultSink,
) -> Result<(), AllocError>
    ensures { OnOk result (faults.new ≡ faults.old ++ that_uses code (call_of call.entry) ∷ []) }
{
    faults.report_text(call.uses.span(), code_at(call, code), uses_text(call))
}
