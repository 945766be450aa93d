//! The tables of the linter.

use crate::shapes::push_shapes;
use crate::types::push_types;
use al_check::{
    AvailabilityRow, CONDITIONS, Key, NOT_IN_RUNS, NOT_IN_WORKFLOW, OF_CALL, OF_INTERFACE, SCRIPTS,
    available_at, available_rows,
};
use al_expr::{CONTEXTS, Function, Parameters, Returned, SPECIAL_FUNCTIONS, Signature, Wanted};
use al_json::{Json, push_code, push_contexts, push_functions, push_template, rows_of_codes};
use al_rules::{
    CALL_TYPES, DISPATCH_TYPES, PERMISSIONS, SCOPE_VALUES, SHELLS, WHOLE_VALUES, activities_of,
};
use al_text::limits;
use al_tree::{FileKind, event_names};
use std::alloc::AllocError;

fn push_names(json: &mut Json, key: &str, names: &[&str]) -> Result<(), AllocError> {
    json.list_at(key)?;
    for name in names {
        json.text(*name)?;
    }
    json.close(']')
}

// An event with its activity types; `null` if any text is accepted.
fn push_event(json: &mut Json, event: &str) -> Result<(), AllocError> {
    match activities_of(event.as_bytes()) {
        Some(types) => push_names(json, event, types),
        None => {
            json.key(event)?;
            json.null()
        }
    }
}

fn push_events(json: &mut Json) -> Result<(), AllocError> {
    json.object_at("events")?;
    for event in event_names() {
        push_event(json, *event)?;
    }
    json.close('}')?;
    json.object_at("input_types")?;
    push_names(json, "workflow_call", CALL_TYPES)?;
    push_names(json, "workflow_dispatch", DISPATCH_TYPES)?;
    json.close('}')
}

// Writes the keys of a path; `*` is any key.
fn push_path(json: &mut Json, path: &[Key]) -> Result<(), AllocError> {
    json.open('[')?;
    for key in path {
        match key {
            Key::Named(name) => json.text(*name)?,
            Key::Id => json.text("*")?,
        }
    }
    json.close(']')
}

fn push_paths(json: &mut Json, key: &str, paths: &[&[Key]]) -> Result<(), AllocError> {
    json.list_at(key)?;
    for path in paths {
        push_path(json, *path)?;
    }
    json.close(']')
}

fn push_place(json: &mut Json, row: &AvailabilityRow) -> Result<(), AllocError> {
    json.open('{')?;
    json.key("path")?;
    push_path(json, row.path)?;
    push_contexts(json, row.contexts)?;
    push_functions(json, row.special)?;
    json.close('}')
}

// What is available at places without a row.
fn push_elsewhere(
    json: &mut Json,
    key: &str,
    kind: FileKind,
    is_condition: bool,
) -> Result<(), AllocError> {
    let available = available_at(kind, None, is_condition);
    json.object_at(key)?;
    push_contexts(json, available.contexts)?;
    push_functions(json, available.special)?;
    json.close('}')
}

fn push_places(json: &mut Json) -> Result<(), AllocError> {
    json.list_at("places")?;
    for row in available_rows() {
        push_place(json, row)?;
    }
    json.close(']')?;
    json.object_at("other_places")?;
    push_elsewhere(json, "workflow", FileKind::Workflow, false)?;
    push_elsewhere(json, "action", FileKind::Action, false)?;
    push_elsewhere(json, "condition of an action", FileKind::Action, true)?;
    json.close('}')
}

// Which places have expressions.
fn push_checked(json: &mut Json) -> Result<(), AllocError> {
    push_paths(json, "conditions", CONDITIONS)?;
    push_paths(json, "scripts", SCRIPTS)?;
    json.object_at("expressions")?;
    push_paths(json, "only_below_on", OF_CALL)?;
    push_paths(json, "not_in_workflow", NOT_IN_WORKFLOW)?;
    push_paths(json, "only_outside_runs", OF_INTERFACE)?;
    push_paths(json, "not_in_runs", NOT_IN_RUNS)?;
    json.close('}')
}

static FUNCTIONS: [Function; 12] = [
    Function::Contains,
    Function::StartsWith,
    Function::EndsWith,
    Function::Format,
    Function::Join,
    Function::ToJson,
    Function::FromJson,
    Function::HashFiles,
    Function::Success,
    Function::Always,
    Function::Cancelled,
    Function::Failure,
];

fn functions() -> &'static [Function] {
    &FUNCTIONS
}

fn wanted_name(wanted: Wanted) -> &'static str {
    match wanted {
        Wanted::Any => "any",
        Wanted::NotObject => "not object",
        Wanted::NotCollection => "not array or object",
        Wanted::String => "string",
        Wanted::ArrayOrString => "array or string",
    }
}

fn returned_name(returned: Returned) -> &'static str {
    match returned {
        Returned::Any => "any",
        Returned::Bool => "bool",
        Returned::String => "string",
    }
}

// Writes the types of the first parameters, and how many arguments there have to be.
fn push_wanted(json: &mut Json, wanted: &[Wanted], least: u32) -> Result<(), AllocError> {
    json.list_at("parameters")?;
    for one in wanted {
        json.text(wanted_name(*one))?;
    }
    json.close(']')?;
    json.number_at("least", least)
}

fn push_parameters(json: &mut Json, parameters: Parameters) -> Result<(), AllocError> {
    match parameters {
        Parameters::Zero => push_wanted(json, &[], 0),
        Parameters::One(first) => push_wanted(json, &[first], 1),
        Parameters::Two(first, second) => push_wanted(json, &[first, second], 2),
        Parameters::OneOrTwo(first, second) => push_wanted(json, &[first, second], 1),
        Parameters::OneOrMore(first, more) => push_wanted(json, &[first, more], 1),
    }
}

// Whether the last parameter stands for any number of arguments.
fn takes_more(parameters: Parameters) -> bool {
    matches!(parameters, Parameters::OneOrMore(_, _))
}

fn push_signature(json: &mut Json, signature: Signature) -> Result<(), AllocError> {
    push_parameters(json, signature.parameters)?;
    json.flag_at("more", takes_more(signature.parameters))?;
    json.text_at("returns", returned_name(signature.returned))
}

fn push_function(json: &mut Json, function: Function) -> Result<(), AllocError> {
    json.object_at(function.name())?;
    push_signature(json, function.signature())?;
    json.flag_at("everywhere", !SPECIAL_FUNCTIONS.contains(&function))?;
    json.close('}')
}

fn push_all_functions(json: &mut Json) -> Result<(), AllocError> {
    json.object_at("signatures")?;
    for function in functions() {
        push_function(json, *function)?;
    }
    json.close('}')
}

fn push_settings(json: &mut Json) -> Result<(), AllocError> {
    json.object_at("permissions")?;
    push_names(json, "scopes", PERMISSIONS)?;
    push_names(json, "values", SCOPE_VALUES)?;
    push_names(json, "whole", WHOLE_VALUES)?;
    json.close('}')?;
    push_names(json, "shells", SHELLS)
}

fn push_limit(json: &mut Json, key: &str, limit: usize) -> Result<(), AllocError> {
    json.key(key)?;
    json.number(limit as u64)
}

fn push_limits(json: &mut Json) -> Result<(), AllocError> {
    json.object_at("limits")?;
    push_limit(json, "bytes_of_file", limits::LARGEST_FILE)?;
    push_limit(json, "files", limits::MOST_FILES)?;
    push_limit(json, "bytes_of_path", limits::LONGEST_PATH)?;
    json.number_at("nodes", limits::MOST_NODES)?;
    json.number_at("bytes_of_aliases", limits::MOST_ALIAS_TEXT)?;
    json.number_at("depth_of_collections", limits::DEEPEST_COLLECTION)?;
    push_limit(json, "characters_of_key", limits::LONGEST_KEY)?;
    push_limit(json, "bytes_of_expression", limits::LONGEST_EXPRESSION)?;
    json.number_at("depth_of_expression", limits::DEEPEST_EXPRESSION)?;
    push_limit(json, "bytes_of_line", limits::LONGEST_LINE)?;
    json.close('}')
}

fn push_codes(json: &mut Json) -> Result<(), AllocError> {
    json.list_at("codes")?;
    for (code, arity) in rows_of_codes() {
        json.open('{')?;
        push_code(json, *code)?;
        push_template(json, *code, *arity)?;
        json.close('}')?;
    }
    json.close(']')
}

/// Writes all tables, each under its key.
pub fn push_tables(json: &mut Json) -> Result<(), AllocError> {
    push_shapes(json)?;
    push_events(json)?;
    push_contexts(json, &CONTEXTS)?;
    push_types(json)?;
    push_places(json)?;
    push_checked(json)?;
    push_all_functions(json)?;
    push_settings(json)?;
    push_limits(json)?;
    push_codes(json)
}
