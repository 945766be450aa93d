//! The rules of all places of workflows and actions, as one table.

ghost use Rattle.al_tree.specs.Table.{rule, rule_view};
ghost use Rattle.al_tree.specs.declared.table.Shape.TheVariants.{On};
ghost use Rattle.std.specs.Prelude.{◌≡◌, Some, option_map};

use crate::sections::{
    ACTION, CALL, CALL_INPUT, CALL_OUTPUT, CALL_SECRET, COMPOSITE_RUNS, CONCURRENCY, CONTAINER,
    CRON, DEFAULTS, DISPATCH, DISPATCH_INPUT, DOCKER_RUNS, EVENT, JOB, NODE_RUNS, ON, RUN_DEFAULTS,
    RUNS, RUNS_ON, STEP, STRATEGY, WORKFLOW,
};

/// What a value should be: a section of the syntax, or a simple kind of value (GitHub, "Workflow
/// syntax for GitHub Actions" and "Metadata syntax for GitHub Actions"). [`rule_of`] says what each
/// accepts.
#[derive(Clone, Copy)]
pub enum Shape {
    /// Anything.
    Any,
    /// A scalar.
    Text,
    /// A boolean, or a scalar with `${{`.
    Flag,
    /// A number, or a scalar with `${{`.
    Number,
    /// A scalar, or a sequence of scalars.
    Texts,
    /// A sequence of scalars.
    TextList,
    /// A mapping of any keys to scalars.
    TextMap,
    /// A scalar, or a mapping of any keys to scalars.
    TextOrMap,
    /// A mapping of any keys to anything.
    AnyMap,
    /// A mapping of any keys to scalars, or a scalar with `${{`.
    Env,
    /// The root of a workflow.
    Workflow,
    /// `on` of a workflow, or a section in it.
    On(Trigger),
    /// `defaults` of a workflow or job.
    Defaults,
    /// `run` in `defaults`.
    RunDefaults,
    /// `concurrency` of a workflow or job: a scalar or a mapping.
    Concurrency,
    /// `jobs`: a mapping of any keys to jobs.
    Jobs,
    /// A job.
    Job,
    /// `runs-on` of a job: a scalar, a sequence of scalars, or a mapping.
    RunsOn,
    /// `strategy` of a job: a mapping, or a scalar with `${{`.
    Strategy,
    /// `container` of a job: a scalar or a mapping.
    Container,
    /// `steps`: a sequence of steps.
    Steps,
    /// A step of a job or of a composite action.
    Step,
    /// The root of an action.
    Action,
    /// `runs` of an action, whose `using` isn't known.
    Runs,
    /// `runs` of an action that Node runs.
    NodeRuns,
    /// `runs` of a composite action.
    CompositeRuns,
    /// `runs` of a Docker action.
    DockerRuns,
}

/// A section for what triggers a workflow: `on` itself, which has events, or a section in it.
#[derive(Clone, Copy)]
pub enum Trigger {
    /// `on`: an event, a sequence of events, or a mapping of events.
    Events,
    /// The value of an event without a section of its own, with its filters.
    Event,
    /// `on.schedule`: a sequence of schedules.
    Schedule,
    /// A schedule, with `cron`.
    Cron,
    /// `on.workflow_dispatch`.
    Dispatch,
    /// `on.workflow_dispatch.inputs`.
    DispatchInputs,
    /// An input of `workflow_dispatch`.
    DispatchInput,
    /// `on.workflow_call`.
    Call,
    /// `on.workflow_call.inputs`.
    CallInputs,
    /// An input of `workflow_call`.
    CallInput,
    /// `on.workflow_call.secrets`.
    CallSecrets,
    /// A secret of `workflow_call`.
    CallSecret,
    /// `on.workflow_call.outputs`.
    CallOutputs,
    /// An output of `workflow_call`.
    CallOutput,
}

/// Which scalars a shape accepts.
#[derive(Clone, Copy)]
pub enum ScalarSet {
    /// No scalar: each is of the wrong kind.
    NoScalar,
    /// Every scalar.
    AnyScalar,
    /// Every scalar that isn't null.
    NotNull,
    /// Booleans, and scalars with `${{`.
    Bools,
    /// Integers, floats, and scalars with `${{`.
    Numbers,
    /// Scalars with `${{`.
    Chunks,
}

/// Whether a key is required in its mapping.
#[derive(Clone, Copy)]
pub enum Need {
    /// The key is optional.
    May,
    /// The key is required.
    Must,
    /// The key is required unless this key is there.
    Unless(&'static str),
}

/// The key that a key can't stand beside, if that comes before it or is anywhere in the mapping.
#[derive(Clone, Copy)]
pub enum Clash {
    /// The key can stand beside every other.
    Never,
    /// The key can't come after this key.
    After(&'static str),
    /// The key can't stand beside this key, wherever that is in the mapping.
    Beside(&'static str),
}

/// A key of a section: the shape of its value, whether it is required, and the key it can't stand
/// beside.
#[derive(Clone, Copy)]
pub struct SectionKey {
    /// The key, compared exactly.
    pub key: &'static str,
    /// What its value should be.
    pub shape: Shape,
    /// Whether it is required.
    pub need: Need,
    /// The key that it can't stand beside.
    pub clash: Clash,
}

/// The meaning of keys without a row.
#[derive(Clone, Copy)]
pub enum Others {
    /// They are unexpected.
    Wrong,
    /// They are unexpected, and can't stand beside this key either.
    WrongBeside(&'static str),
    /// They aren't checked.
    Unchecked,
    /// They are events.
    Events,
}

/// Which mappings a shape accepts: none, those with any keys, or those with the keys of rows.
#[derive(Clone, Copy)]
pub enum Keys {
    /// No mapping.
    No,
    /// Mappings with any keys, whose values have this shape.
    Free(Shape),
    /// Mappings with the keys of these rows, and other keys with the given meaning.
    These(&'static [SectionKey], Others),
}

/// What a shape accepts: scalars, sequences of items with a shape (none if there is no such shape),
/// and mappings.
#[derive(Clone, Copy)]
pub struct ShapeRule {
    /// The scalars that it accepts.
    pub scalars: ScalarSet,
    /// The shape of the items of a sequence; `None` if no sequence is accepted.
    pub items: Option<Shape>,
    /// The mappings that it accepts.
    pub keys: Keys,
}

// What a shape accepts: which scalars; the shape of the items of a sequence; and for a mapping,
// either any key with values of a shape, or the keys of a section and the meaning of all others.
macro_rules! rule {
    ($scalars:ident) => {
        rule!(@ $scalars, None, Keys::No)
    };
    ($scalars:ident, items $item:ident $(($trigger:ident))?) => {
        rule!(@ $scalars, Some(Shape::$item $((Trigger::$trigger))?), Keys::No)
    };
    ($scalars:ident, any key $value:ident $(($trigger:ident))?) => {
        rule!(@ $scalars, None, Keys::Free(Shape::$value $((Trigger::$trigger))?))
    };
    ($scalars:ident, keys $rows:ident, others $others:ident $(($beside:literal))?) => {
        rule!(@ $scalars, None, Keys::These($rows, Others::$others $(($beside))?))
    };
    ($scalars:ident, items $item:ident, keys $rows:ident, others $others:ident) => {
        rule!(@ $scalars, Some(Shape::$item), Keys::These($rows, Others::$others))
    };
    (@ $scalars:ident, $items:expr, $keys:expr) => {
        ShapeRule {
            scalars: ScalarSet::$scalars,
            items: $items,
            keys: $keys,
        }
    };
}

/// What a section of `on` accepts.
fn trigger_rule(trigger: Trigger) -> ShapeRule
    ensures { Some (rule_view result) ≡ rule (On trigger) }
{
    match trigger {
        Trigger::Events => rule!(NotNull, items Text, keys ON, others Events),
        Trigger::Event => rule!(NoScalar, keys EVENT, others Wrong),
        Trigger::Schedule => rule!(NoScalar, items On(Cron)),
        Trigger::Cron => rule!(NoScalar, keys CRON, others Wrong),
        Trigger::Dispatch => rule!(NoScalar, keys DISPATCH, others Wrong),
        Trigger::DispatchInputs => rule!(NoScalar, any key On(DispatchInput)),
        Trigger::DispatchInput => rule!(NoScalar, keys DISPATCH_INPUT, others Wrong),
        Trigger::Call => rule!(NoScalar, keys CALL, others Wrong),
        Trigger::CallInputs => rule!(NoScalar, any key On(CallInput)),
        Trigger::CallInput => rule!(NoScalar, keys CALL_INPUT, others Wrong),
        Trigger::CallSecrets => rule!(NoScalar, any key On(CallSecret)),
        Trigger::CallSecret => rule!(NoScalar, keys CALL_SECRET, others Wrong),
        Trigger::CallOutputs => rule!(NoScalar, any key On(CallOutput)),
        Trigger::CallOutput => rule!(NoScalar, keys CALL_OUTPUT, others Wrong),
    }
}

/// What a shape accepts; `None` if it accepts anything.
pub fn rule_of(shape: Shape) -> Option<ShapeRule>
    ensures { option_map rule_view result ≡ rule shape }
{
    Some(match shape {
        Shape::Any => return None,
        Shape::Text => rule!(AnyScalar),
        Shape::Flag => rule!(Bools),
        Shape::Number => rule!(Numbers),
        Shape::Texts => rule!(AnyScalar, items Text),
        Shape::TextList => rule!(NoScalar, items Text),
        Shape::TextMap => rule!(NoScalar, any key Text),
        Shape::TextOrMap => rule!(AnyScalar, any key Text),
        Shape::AnyMap => rule!(NoScalar, any key Any),
        Shape::Env => rule!(Chunks, any key Text),
        Shape::Workflow => rule!(NoScalar, keys WORKFLOW, others Wrong),
        Shape::On(trigger) => trigger_rule(trigger),
        Shape::Defaults => rule!(NoScalar, keys DEFAULTS, others Wrong),
        Shape::RunDefaults => rule!(NoScalar, keys RUN_DEFAULTS, others Wrong),
        Shape::Concurrency => rule!(AnyScalar, keys CONCURRENCY, others Wrong),
        Shape::Jobs => rule!(NoScalar, any key Job),
        Shape::Job => rule!(NoScalar, keys JOB, others WrongBeside("uses")),
        Shape::RunsOn => rule!(AnyScalar, items Text, keys RUNS_ON, others Wrong),
        Shape::Strategy => rule!(Chunks, keys STRATEGY, others Wrong),
        Shape::Container => rule!(AnyScalar, keys CONTAINER, others Wrong),
        Shape::Steps => rule!(NoScalar, items Step),
        Shape::Step => rule!(NoScalar, keys STEP, others Wrong),
        Shape::Action => rule!(NoScalar, keys ACTION, others Wrong),
        Shape::Runs => rule!(NoScalar, keys RUNS, others Unchecked),
        Shape::NodeRuns => rule!(NoScalar, keys NODE_RUNS, others Wrong),
        Shape::CompositeRuns => rule!(NoScalar, keys COMPOSITE_RUNS, others Wrong),
        Shape::DockerRuns => rule!(NoScalar, keys DOCKER_RUNS, others Wrong),
    })
}
