//! The keys of each section of GitHub's syntax for workflows and actions, one row per key.
//! `specs/Table.antt` has the same rows.

use crate::table::Clash::{After, Beside, Never};
use crate::table::Need::{May, Must, Unless};
use crate::table::SectionKey;
use crate::table::Shape::{
    Any, AnyMap, Concurrency, Container, Defaults, Env, Flag, Jobs, Number, On, RunDefaults, Runs,
    RunsOn, Steps, Strategy, Text, TextList, TextMap, TextOrMap, Texts,
};
use crate::table::Trigger::{
    Call, CallInputs, CallOutputs, CallSecrets, Dispatch, DispatchInputs, Events, Schedule,
};

// An optional key of its section, with the shape of its value, and the key it can't stand beside.
macro_rules! may {
    ($key:literal, $shape:expr) => {
        may!($key, $shape, Never)
    };
    ($key:literal, $shape:expr, $clash:expr) => {
        SectionKey {
            key: $key,
            shape: $shape,
            need: May,
            clash: $clash,
        }
    };
}

// A required key, or one that is required unless another key is there.
macro_rules! must {
    ($key:literal, $shape:expr) => {
        must!($key, $shape, Must, Never)
    };
    ($key:literal, $shape:expr, $need:expr, $clash:expr) => {
        SectionKey {
            key: $key,
            shape: $shape,
            need: $need,
            clash: $clash,
        }
    };
}

/// A workflow.
pub const WORKFLOW: &[SectionKey] = &[
    may!("name", Text),
    may!("run-name", Text),
    must!("on", On(Events)),
    may!("permissions", TextOrMap),
    may!("env", Env),
    may!("defaults", Defaults),
    may!("concurrency", Concurrency),
    must!("jobs", Jobs),
];

/// `defaults` of a workflow or job.
pub const DEFAULTS: &[SectionKey] = &[may!("run", RunDefaults)];

/// `run` in `defaults`.
pub const RUN_DEFAULTS: &[SectionKey] = &[may!("shell", Text), may!("working-directory", Text)];

/// `concurrency` of a workflow or job.
pub const CONCURRENCY: &[SectionKey] = &[must!("group", Text), may!("cancel-in-progress", Flag)];

/// A job. A job with `uses` has only the keys that can stand beside it.
pub const JOB: &[SectionKey] = &[
    may!("name", Text),
    may!("permissions", TextOrMap),
    may!("needs", Texts),
    may!("if", Text),
    must!("runs-on", RunsOn, Unless("uses"), Beside("uses")),
    may!("environment", Any, Beside("uses")),
    may!("concurrency", Concurrency),
    may!("outputs", TextMap, Beside("uses")),
    may!("env", Env, Beside("uses")),
    may!("defaults", Defaults, Beside("uses")),
    may!("steps", Steps, Beside("uses")),
    may!("timeout-minutes", Number, Beside("uses")),
    may!("strategy", Strategy),
    may!("continue-on-error", Flag, Beside("uses")),
    may!("container", Container, Beside("uses")),
    may!("services", Any, Beside("uses")),
    may!("uses", Text),
    may!("with", TextMap),
    may!("secrets", TextOrMap),
    may!("snapshot", Any, Beside("uses")),
];

/// `runs-on` as a mapping.
pub const RUNS_ON: &[SectionKey] = &[may!("group", Text), may!("labels", Texts)];

/// A job's `strategy`.
pub const STRATEGY: &[SectionKey] = &[
    may!("matrix", Any),
    may!("fail-fast", Flag),
    may!("max-parallel", Number),
];

/// A job's `container` as a mapping.
pub const CONTAINER: &[SectionKey] = &[
    may!("image", Text),
    may!("credentials", Any),
    may!("env", Env),
    may!("ports", Any),
    may!("volumes", Any),
    may!("options", Text),
];

/// A step of a job or of a composite action.
pub const STEP: &[SectionKey] = &[
    may!("id", Text),
    may!("if", Text),
    may!("name", Text),
    may!("uses", Text, After("run")),
    must!("run", Text, Unless("uses"), After("uses")),
    may!("working-directory", Text),
    may!("shell", Text),
    may!("with", TextMap),
    may!("env", Env),
    may!("continue-on-error", Flag),
    may!("timeout-minutes", Number),
];

/// `on` as a mapping; these events have shapes of their own.
pub const ON: &[SectionKey] = &[
    may!("schedule", On(Schedule)),
    may!("workflow_dispatch", On(Dispatch)),
    may!("workflow_call", On(Call)),
    may!("image_version", Any),
];

/// An entry of `schedule`.
pub const CRON: &[SectionKey] = &[must!("cron", Text), may!("timezone", Text)];

/// `workflow_dispatch`.
pub const DISPATCH: &[SectionKey] = &[may!("inputs", On(DispatchInputs))];

/// An input of `workflow_dispatch`.
pub const DISPATCH_INPUT: &[SectionKey] = &[
    may!("description", Text),
    may!("required", Flag),
    may!("default", Text),
    may!("type", Text),
    may!("options", TextList),
    may!("deprecationMessage", Text),
];

/// `workflow_call`.
pub const CALL: &[SectionKey] = &[
    may!("inputs", On(CallInputs)),
    may!("secrets", On(CallSecrets)),
    may!("outputs", On(CallOutputs)),
];

/// An input of `workflow_call`.
pub const CALL_INPUT: &[SectionKey] = &[
    may!("description", Text),
    may!("required", Flag),
    may!("default", Text),
    must!("type", Text),
    may!("deprecationMessage", Text),
];

/// A secret of `workflow_call`.
pub const CALL_SECRET: &[SectionKey] = &[may!("description", Text), may!("required", Flag)];

/// An output of `workflow_call`.
pub const CALL_OUTPUT: &[SectionKey] = &[may!("description", Text), must!("value", Text)];

/// Every other event. A filter can't stand beside its `-ignore`.
pub const EVENT: &[SectionKey] = &[
    may!("types", Texts),
    may!("workflows", Texts),
    may!("branches", Texts, After("branches-ignore")),
    may!("branches-ignore", Texts, After("branches")),
    may!("tags", Texts, After("tags-ignore")),
    may!("tags-ignore", Texts, After("tags")),
    may!("paths", Texts, After("paths-ignore")),
    may!("paths-ignore", Texts, After("paths")),
];

/// An action.
pub const ACTION: &[SectionKey] = &[
    must!("name", Text),
    may!("author", Text),
    must!("description", Text),
    may!("inputs", AnyMap),
    may!("outputs", AnyMap),
    must!("runs", Runs),
    may!("branding", Any),
];

/// `runs` with an unknown `using`.
pub const RUNS: &[SectionKey] = &[must!("using", Text)];

/// `runs` of a Node action.
pub const NODE_RUNS: &[SectionKey] = &[
    must!("using", Text),
    must!("main", Text),
    may!("pre", Text),
    may!("pre-if", Text),
    may!("post", Text),
    may!("post-if", Text),
];

/// `runs` of a composite action.
pub const COMPOSITE_RUNS: &[SectionKey] = &[must!("using", Text), must!("steps", Steps)];

/// `runs` of a Docker action.
pub const DOCKER_RUNS: &[SectionKey] = &[
    must!("using", Text),
    must!("image", Text),
    may!("env", TextMap),
    may!("entrypoint", Text),
    may!("pre-entrypoint", Text),
    may!("post-entrypoint", Text),
    may!("args", Any),
    may!("pre-if", Text),
    may!("post-if", Text),
];
