//! Rules of events: their names, activity types, filters, schedules, and the types of inputs.

ghost use Rattle.al_rules.specs.Events.{activity_type_faults, cron_faults, event_faults};
ghost use Rattle.al_rules.specs.Events.{filter_faults, filters_faults};
ghost use Rattle.al_rules.specs.Events.{inputs_faults, on_faults};
ghost use Rattle.al_yaml_tree.specs.View.{view};
ghost use Rattle.std.specs.Prelude.{◌≡◌, ◌++◌, map, OnOk};

use crate::names::{CALL_TYPES, DISPATCH_TYPES, activities_of};
use al_base::{FaultSink, RuleCode};
use al_rules_formats::{Filter, is_pattern, is_too_often, schedule};
use al_rules_settings::{named_text, report, report_unless, report_unless_among};
use al_tree::{is_event, items, members, members_under, text_under, texts, texts_under};
use al_yaml_tree::Node;
use std::alloc::AllocError;

/// Adds the faults of the activity types under an event that it doesn't have.
fn check_activities(name: &[u8], event: &Node, faults: &mut FaultSink) -> Result<(), AllocError>
    ensures { OnOk result (faults.new ≡ faults.old
        ++ activity_type_faults name.now (view event.now)) }
{
    let Some(types) = activities_of(name) else {
        return Ok(());
    };
    for scalar in &texts_under(faults.alloc(), event, "types")? {
        let name = named_text(*scalar);
        report_unless_among(RuleCode::UnknownActivity, types, name, faults)?;
    }
    Ok(())
}

/// Adds the faults of the filters under a key of an event that aren't patterns.
fn check_filter(
    filter: Filter,
    event: &Node,
    key: &str,
    faults: &mut FaultSink,
) -> Result<(), AllocError>
    ensures { OnOk result (faults.new ≡ faults.old
        ++ filter_faults filter (view event.now) key.now) }
{
    for scalar in &texts_under(faults.alloc(), event, key)? {
        let name = named_text(*scalar);
        let right = is_pattern(faults.alloc(), filter, name.text)?;
        report_unless(right, RuleCode::WrongPattern, name, faults)?;
    }
    Ok(())
}

/// Adds the faults of the filters of an event.
fn check_filters(event: &Node, faults: &mut FaultSink) -> Result<(), AllocError>
    ensures { OnOk result (faults.new ≡ faults.old ++ filters_faults (view event.now)) }
{
    check_filter(Filter::Names, event, "branches", faults)?;
    check_filter(Filter::Names, event, "branches-ignore", faults)?;
    check_filter(Filter::Names, event, "tags", faults)?;
    check_filter(Filter::Names, event, "tags-ignore", faults)?;
    check_filter(Filter::Paths, event, "paths", faults)?;
    check_filter(Filter::Paths, event, "paths-ignore", faults)
}

/// Adds the fault of an item of `schedule`: a cron expression that is invalid, or runs too often.
fn check_cron(entry: &Node, faults: &mut FaultSink) -> Result<(), AllocError>
    ensures { OnOk result (faults.new ≡ faults.old ++ cron_faults (view entry.now)) }
{
    let Some(cron) = text_under(entry, "cron") else {
        return Ok(());
    };
    let name = named_text(cron);
    let Some(minutes) = schedule(faults.alloc(), name.text)? else {
        return report(RuleCode::WrongSchedule, name, faults);
    };
    let often = is_too_often(faults.alloc(), minutes.as_slice())?;
    report_unless(!often, RuleCode::ScheduleTooOften, name, faults)
}

/// Adds the faults of the inputs of an event that are of none of some types.
fn check_inputs(types: &[&str], event: &Node, faults: &mut FaultSink) -> Result<(), AllocError>
    ensures { OnOk result (faults.new ≡ faults.old
        ++ inputs_faults (map (λ n. n.now) types.now) (view event.now)) }
{
    for input in &members_under(faults.alloc(), event, "inputs")? {
        if let Some(kind) = text_under(input.value, "type") {
            report_unless_among(RuleCode::UnknownInputType, types, named_text(kind), faults)?;
        }
    }
    Ok(())
}

/// Adds the faults of a known event.
fn check_event(name: &[u8], event: &Node, faults: &mut FaultSink) -> Result<(), AllocError>
    ensures { OnOk result (faults.new ≡ faults.old ++ event_faults name.now (view event.now)) }
{
    if name == b"schedule".as_slice() {
        for entry in items(event) {
            check_cron(entry, faults)?;
        }
        Ok(())
    } else if name == b"workflow_call".as_slice() {
        check_inputs(CALL_TYPES, event, faults)
    } else if name == b"workflow_dispatch".as_slice() {
        check_inputs(DISPATCH_TYPES, event, faults)
    } else if name == b"image_version".as_slice() {
        Ok(())
    } else {
        check_activities(name, event, faults)?;
        check_filters(event, faults)
    }
}

/// Adds the faults of the value of `on`: unknown events, and for each other event its activity
/// types, filters, schedules and types of inputs (G1 to G5 and G19; GitHub, "Events that trigger
/// workflows").
///
/// # Errors
///
/// `AllocError` if memory runs out.
pub fn check_on(on: &Node, faults: &mut FaultSink) -> Result<(), AllocError>
    ensures { OnOk result (faults.new ≡ faults.old ++ on_faults (view on.now)) }
{
    for name in &texts(faults.alloc(), on)? {
        let name = named_text(*name);
        report_unless(is_event(name.text), RuleCode::UnknownEvent, name, faults)?;
    }
    for event in &members(faults.alloc(), on)? {
        let name = named_text(event.key);
        if is_event(name.text) {
            check_event(name.text, event.value, faults)?;
        } else {
            report(RuleCode::UnknownEvent, name, faults)?;
        }
    }
    Ok(())
}
