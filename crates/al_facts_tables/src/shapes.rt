//! The table of the syntax: what each shape of a value accepts.

use al_json::Json;
use al_tree::{
    Clash, Keys, NODE_VERSIONS, Need, Others, ScalarSet, SectionKey, Shape, ShapeRule, Trigger,
    rule_of, runs_of,
};
use std::alloc::AllocError;

static SHAPES: [Shape; 40] = [
    Shape::Any,
    Shape::Text,
    Shape::Flag,
    Shape::Number,
    Shape::Texts,
    Shape::TextList,
    Shape::TextMap,
    Shape::TextOrMap,
    Shape::AnyMap,
    Shape::Env,
    Shape::Workflow,
    Shape::On(Trigger::Events),
    Shape::On(Trigger::Event),
    Shape::On(Trigger::Schedule),
    Shape::On(Trigger::Cron),
    Shape::On(Trigger::Dispatch),
    Shape::On(Trigger::DispatchInputs),
    Shape::On(Trigger::DispatchInput),
    Shape::On(Trigger::Call),
    Shape::On(Trigger::CallInputs),
    Shape::On(Trigger::CallInput),
    Shape::On(Trigger::CallSecrets),
    Shape::On(Trigger::CallSecret),
    Shape::On(Trigger::CallOutputs),
    Shape::On(Trigger::CallOutput),
    Shape::Defaults,
    Shape::RunDefaults,
    Shape::Concurrency,
    Shape::Jobs,
    Shape::Job,
    Shape::RunsOn,
    Shape::Strategy,
    Shape::Container,
    Shape::Steps,
    Shape::Step,
    Shape::Action,
    Shape::Runs,
    Shape::NodeRuns,
    Shape::CompositeRuns,
    Shape::DockerRuns,
];

fn shapes() -> &'static [Shape] {
    &SHAPES
}

fn trigger_name(trigger: Trigger) -> &'static str {
    match trigger {
        Trigger::Events => "Events",
        Trigger::Event => "Event",
        Trigger::Schedule => "Schedule",
        Trigger::Cron => "Cron",
        Trigger::Dispatch => "Dispatch",
        Trigger::DispatchInputs => "DispatchInputs",
        Trigger::DispatchInput => "DispatchInput",
        Trigger::Call => "Call",
        Trigger::CallInputs => "CallInputs",
        Trigger::CallInput => "CallInput",
        Trigger::CallSecrets => "CallSecrets",
        Trigger::CallSecret => "CallSecret",
        Trigger::CallOutputs => "CallOutputs",
        Trigger::CallOutput => "CallOutput",
    }
}

fn shape_name(shape: Shape) -> &'static str {
    match shape {
        Shape::Any => "Any",
        Shape::Text => "Text",
        Shape::Flag => "Flag",
        Shape::Number => "Number",
        Shape::Texts => "Texts",
        Shape::TextList => "TextList",
        Shape::TextMap => "TextMap",
        Shape::TextOrMap => "TextOrMap",
        Shape::AnyMap => "AnyMap",
        Shape::Env => "Env",
        Shape::Workflow => "Workflow",
        Shape::On(trigger) => trigger_name(trigger),
        Shape::Defaults => "Defaults",
        Shape::RunDefaults => "RunDefaults",
        Shape::Concurrency => "Concurrency",
        Shape::Jobs => "Jobs",
        Shape::Job => "Job",
        Shape::RunsOn => "RunsOn",
        Shape::Strategy => "Strategy",
        Shape::Container => "Container",
        Shape::Steps => "Steps",
        Shape::Step => "Step",
        Shape::Action => "Action",
        Shape::Runs => "Runs",
        Shape::NodeRuns => "NodeRuns",
        Shape::CompositeRuns => "CompositeRuns",
        Shape::DockerRuns => "DockerRuns",
    }
}

fn scalars_name(scalars: ScalarSet) -> &'static str {
    match scalars {
        ScalarSet::NoScalar => "none",
        ScalarSet::AnyScalar => "any",
        ScalarSet::NotNull => "not null",
        ScalarSet::Bools => "boolean",
        ScalarSet::Numbers => "number",
        ScalarSet::Chunks => "expression",
    }
}

fn push_need(json: &mut Json, need: Need) -> Result<(), AllocError> {
    match need {
        Need::May => json.text_at("need", "may"),
        Need::Must => json.text_at("need", "must"),
        Need::Unless(other) => {
            json.text_at("need", "must")?;
            json.text_at("unless", other)
        }
    }
}

fn push_clash(json: &mut Json, clash: Clash) -> Result<(), AllocError> {
    match clash {
        Clash::Never => Ok(()),
        Clash::After(other) => json.text_at("not_after", other),
        Clash::Beside(other) => json.text_at("not_beside", other),
    }
}

fn push_row(json: &mut Json, row: &SectionKey) -> Result<(), AllocError> {
    json.object_at(row.key)?;
    json.text_at("shape", shape_name(row.shape))?;
    push_need(json, row.need)?;
    push_clash(json, row.clash)?;
    json.close('}')
}

fn push_others(json: &mut Json, others: Others) -> Result<(), AllocError> {
    match others {
        Others::Wrong => json.text_at("others", "wrong"),
        Others::WrongBeside(other) => {
            json.text_at("others", "wrong")?;
            json.text_at("others_not_beside", other)
        }
        Others::Unchecked => json.text_at("others", "unchecked"),
        Others::Events => json.text_at("others", "events"),
    }
}

fn push_rows(json: &mut Json, rows: &[SectionKey], others: Others) -> Result<(), AllocError> {
    json.object_at("keys")?;
    for row in rows {
        push_row(json, row)?;
    }
    json.close('}')?;
    push_others(json, others)
}

fn push_keys(json: &mut Json, keys: Keys) -> Result<(), AllocError> {
    match keys {
        Keys::No => Ok(()),
        Keys::Free(shape) => json.text_at("any_key", shape_name(shape)),
        Keys::These(rows, others) => push_rows(json, rows, others),
    }
}

fn push_rule(json: &mut Json, rule: ShapeRule) -> Result<(), AllocError> {
    json.text_at("scalars", scalars_name(rule.scalars))?;
    if let Some(items) = rule.items {
        json.text_at("items", shape_name(items))?;
    }
    push_keys(json, rule.keys)
}

fn push_shape(json: &mut Json, shape: Shape) -> Result<(), AllocError> {
    json.object_at(shape_name(shape))?;
    match rule_of(shape) {
        Some(rule) => push_rule(json, rule)?,
        // Anything is accepted.
        None => {
            json.text_at("scalars", "any")?;
            json.text_at("items", "Any")?;
            json.text_at("any_key", "Any")?;
        }
    }
    json.close('}')
}

fn push_using(json: &mut Json, using: &str) -> Result<(), AllocError> {
    json.text_at(using, shape_name(runs_of(using.as_bytes())))
}

/// Writes what each shape accepts, and the shape of `runs` by its `using`.
pub fn push_shapes(json: &mut Json) -> Result<(), AllocError> {
    json.object_at("shapes")?;
    for shape in shapes() {
        push_shape(json, *shape)?;
    }
    json.close('}')?;
    json.object_at("runs_by_using")?;
    for using in &NODE_VERSIONS {
        push_using(json, *using)?;
    }
    push_using(json, "composite")?;
    push_using(json, "docker")?;
    json.close('}')
}
