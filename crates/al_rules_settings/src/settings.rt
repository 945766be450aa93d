//! Shells, permissions, environment variables, credentials and conditions.

ghost use Rattle.al_rules_settings.specs.Settings.{condition_faults, credentials_faults};
ghost use Rattle.al_rules_settings.specs.Settings.{env_faults};
ghost use Rattle.al_rules_settings.specs.Settings.{is_password as password, is_shell as shell};
ghost use Rattle.al_rules_settings.specs.Settings.{permission_value_faults, permissions_faults};
ghost use Rattle.al_rules_settings.specs.Settings.{shell_faults};
ghost use Rattle.al_yaml_tree.specs.View.{view};
ghost use Rattle.std.specs.Option.{option_copied};
ghost use Rattle.std.specs.Prelude.{◌≡◌, ◌++◌, map, IfOk, OnOk};

use crate::names::{PERMISSIONS, SCOPE_VALUES, SHELLS, WHOLE_VALUES};
use crate::reports::{named_text, report_unless, report_unless_among};
use al_base::{Code, FaultSink, RuleCode, is_among};
use al_expr_grammar::{Around, is_lone_chunk};
use al_rules_formats::{has_part, is_variable};
use al_scalar::Scalar;
use al_tree::{contains_chunk, is_null_scalar, key_of, members, text, value, value_below_two};
use al_yaml_tree::Node;
use std::alloc::{AllocError, Global};

/// Whether a text is accepted as a shell: it has an expression or `{0}`, the place of the script,
/// or is a known name.
fn is_shell(text: &[u8]) -> bool
    ensures { result ≡ shell text.now }
{
    contains_chunk(text) || has_part(b"{0}", text) || is_among(text, SHELLS)
}

/// Adds the fault of a shell that is unknown, and has neither an expression nor `{0}`.
///
/// Fails with `AllocError` when out of memory.
pub fn check_shell(shell: Option<&Scalar>, faults: &mut FaultSink) -> Result<(), AllocError>
    ensures { OnOk result (faults.new ≡ faults.old ++ shell_faults (option_copied shell.entry)) }
{
    let Some(shell) = shell else {
        return Ok(());
    };
    let name = named_text(shell);
    report_unless(is_shell(name.text), RuleCode::UnknownShell, name, faults)
}

/// Adds the fault of a value of permissions that isn't one of these.
fn check_value(values: &[&str], node: &Node, faults: &mut FaultSink) -> Result<(), AllocError>
    ensures { OnOk result (faults.new ≡ faults.old
        ++ permission_value_faults (map (λ n. n.now) values.now) (view node.now)) }
{
    let Some(value) = text(node) else {
        return Ok(());
    };
    report_unless_among(RuleCode::WrongPermission, values, named_text(value), faults)
}

/// Adds the faults of the permissions of a workflow or a job: unknown scopes, and wrong values.
///
/// Fails with `AllocError` when out of memory.
pub fn check_permissions(section: &Node, faults: &mut FaultSink) -> Result<(), AllocError>
    ensures { OnOk result (faults.new ≡ faults.old ++ permissions_faults (view section.now)) }
{
    let Some(node) = value(section, "permissions") else {
        return Ok(());
    };
    check_value(WHOLE_VALUES, node, faults)?;
    for scope in &members(faults.alloc(), node)? {
        let name = named_text(scope.key);
        report_unless_among(RuleCode::UnknownPermission, PERMISSIONS, name, faults)?;
        check_value(SCOPE_VALUES, scope.value, faults)?;
    }
    Ok(())
}

/// Adds the faults of `env` of a section: invalid names of environment variables.
///
/// Fails with `AllocError` when out of memory.
pub fn check_env(section: &Node, faults: &mut FaultSink) -> Result<(), AllocError>
    ensures { OnOk result (faults.new ≡ faults.old ++ env_faults (view section.now)) }
{
    let Some(node) = value(section, "env") else {
        return Ok(());
    };
    let Some(entries) = node.mapping() else {
        return Ok(());
    };
    // If all names are valid there is no fault, whichever keys are repeated.
    if entries.iter().all(|entry| is_variable(key_of(entry))) {
        return Ok(());
    }
    for variable in &members(faults.alloc(), node)? {
        let name = named_text(variable.key);
        let right = is_variable(name.text);
        report_unless(right, RuleCode::WrongVariable, name, faults)?;
    }
    Ok(())
}

/// Whether a node is allowed as a password: null, or one expression.
fn is_password(alloc: Global, node: &Node) -> Result<bool, AllocError>
    ensures { IfOk result (λ r. r ≡ password (view node.now)) }
{
    match node.scalar() {
        None => Ok(false),
        Some(scalar) if is_null_scalar(scalar) => Ok(true),
        Some(scalar) => is_lone_chunk(alloc, Around::Nothing, scalar.text()),
    }
}

/// Adds the fault of the credentials of a container or a service: a password that isn't one
/// expression.
///
/// Fails with `AllocError` when out of memory.
pub fn check_credentials(container: &Node, faults: &mut FaultSink) -> Result<(), AllocError>
    ensures { OnOk result (faults.new ≡ faults.old ++ credentials_faults (view container.now)) }
{
    let Some(password) = value_below_two(container, "credentials", "password") else {
        return Ok(());
    };
    if is_password(faults.alloc(), password)? {
        return Ok(());
    }
    faults.report_plain(password.span(), Code::Rule(RuleCode::PasswordNotExpression))
}

/// Adds the fault of a condition that is always true: an expression with other text beside it.
///
/// Fails with `AllocError` when out of memory.
pub fn check_condition(condition: Option<&Scalar>, faults: &mut FaultSink) -> Result<(), AllocError>
    ensures { OnOk result (faults.new
        ≡ faults.old ++ condition_faults (option_copied condition.entry)) }
{
    let Some(condition) = condition else {
        return Ok(());
    };
    let text = condition.text();
    if !contains_chunk(text) {
        return Ok(());
    }
    if is_lone_chunk(faults.alloc(), Around::Blanks, text)? {
        return Ok(());
    }
    faults.report_plain(condition.span(), Code::Rule(RuleCode::AlwaysTrue))
}
