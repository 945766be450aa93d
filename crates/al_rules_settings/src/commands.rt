//! Deprecated commands in scripts (GitHub, "Workflow commands").

ghost use Rattle.al_rules_settings.specs.Commands.{one_command};
ghost use Rattle.al_rules_settings.specs.Settings.{script_faults};
ghost use Rattle.std.specs.Option.{option_copied};
ghost use Rattle.std.specs.Prelude.{◌≡◌, ◌++◌, OnOk};

use al_base::{Code, FaultSink, RuleCode, Span};
use al_scalar::Scalar;
use memchr::{memchr, memmem};
use std::alloc::AllocError;

/// Adds the faults of a deprecated command in a script, by the text that it begins with.
fn check_command(
    script: &Scalar,
    start: &str,
    name: &str,
    faults: &mut FaultSink,
) -> Result<(), AllocError>
    ensures { OnOk result (faults.new ≡ faults.old
        ++ one_command script.now (start.now, name.now)) }
{
    for at in memmem::find_iter(script.text(), start.as_bytes()) {
        let last = (at + start.len()).saturating_sub(1);
        let span = Span {
            start: script.locate(at),
            end: script.locate(last).saturating_add(1),
        };
        let code = Code::Rule(RuleCode::DeprecatedCommand);
        faults.report_text(span, code, name.as_bytes())?;
    }
    Ok(())
}

/// Adds the faults of a script: each deprecated command in it.
///
/// Fails with `AllocError` when out of memory.
pub fn check_script(run: Option<&Scalar>, faults: &mut FaultSink) -> Result<(), AllocError>
    ensures { OnOk result (faults.new ≡ faults.old ++ script_faults (option_copied run.entry)) }
{
    let Some(script) = run else {
        return Ok(());
    };
    // Each command begins with a colon, which most scripts don't have.
    if memchr(b':', script.text()).is_none() {
        return Ok(());
    }
    check_command(script, "::set-output name=", "set-output", faults)?;
    check_command(script, "::save-state name=", "save-state", faults)?;
    check_command(script, "::set-env name=", "set-env", faults)?;
    check_command(script, "::add-path::", "add-path", faults)
}
