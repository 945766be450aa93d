//! Rules of actions, depending on `using`.

ghost use Rattle.al_rules.specs.Rules.{action_faults, composite_faults, hooks_faults};
ghost use Rattle.al_rules.specs.Rules.{scalar_of_value};
ghost use Rattle.al_rules_settings.specs.Views.{named_of};
ghost use Rattle.al_tree.specs.Values.{value_at};
ghost use Rattle.al_yaml_tree.specs.View.{view};
ghost use Rattle.std.specs.Prelude.{◌≡◌, ◌++◌, codes, option_and_then, option_map, OnOk};

use crate::sections::check_steps;
use al_base::{Code, FaultSink, RuleCode};
use al_rules_settings::{Named, check_condition, check_env, named_text, report};
use al_tree::{Shape, items_under, key, members_under, runs_of, text_under, value};
use al_yaml_tree::Node;
use std::alloc::AllocError;

/// Adds the faults of a composite action: those of its steps, scripts that name no shell, and
/// outputs without a value.
fn check_composite(root: &Node, runs: &Node, faults: &mut FaultSink) -> Result<(), AllocError>
    ensures { OnOk result (faults.new ≡ faults.old
        ++ composite_faults (view root.now) (view runs.now)) }
{
    let steps = items_under(runs, "steps");
    check_steps(steps, faults)?;
    for step in steps {
        if value(step, "shell").is_some() {
            continue;
        }
        if let Some(key) = key(step, "run") {
            faults.report_plain(key.span(), Code::Rule(RuleCode::MissingShell))?;
        }
    }
    for output in &members_under(faults.alloc(), root, "outputs")? {
        if value(output.value, "value").is_none() {
            report(RuleCode::MissingOutputValue, named_text(output.key), faults)?;
        }
    }
    Ok(())
}

/// Adds the faults of the conditions `pre-if` and `post-if` of an action.
fn check_hooks(runs: &Node, faults: &mut FaultSink) -> Result<(), AllocError>
    ensures { OnOk result (faults.new ≡ faults.old ++ hooks_faults (view runs.now)) }
{
    check_condition(text_under(runs, "pre-if"), faults)?;
    check_condition(text_under(runs, "post-if"), faults)
}

/// The value of `using`, null or not.
fn using_of(runs: &Node) -> Option<Named<'_>>
    ensures { option_map named_of result
        ≡ option_and_then scalar_of_value (value_at (codes "using") (view runs.now)) }
{
    Some(named_text(value(runs, "using")?.scalar()?))
}

/// Adds the faults of an action, depending on `using`.
pub(crate) fn check_action(root: &Node, faults: &mut FaultSink) -> Result<(), AllocError>
    ensures { OnOk result (faults.new ≡ faults.old ++ action_faults (view root.now)) }
{
    let Some(runs) = value(root, "runs") else {
        return Ok(());
    };
    let Some(name) = using_of(runs) else {
        return Ok(());
    };
    match runs_of(name.text) {
        Shape::NodeRuns => check_hooks(runs, faults),
        Shape::DockerRuns => {
            check_env(runs, faults)?;
            check_hooks(runs, faults)
        }
        Shape::CompositeRuns => check_composite(root, runs, faults),
        _ => report(RuleCode::UnknownUsing, name, faults),
    }
}
