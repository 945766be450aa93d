//! Ways from the root of a file to a scalar, and which of them lead to expressions.
ghost use Rattle.std.specs.Prelude.{◌≡◌, [], ◌∷◌, map};
ghost use Rattle.al_check_places.specs.Paths.{key_view};
ghost use Rattle.al_check_places.specs.Ways as ways;
ghost use Rattle.al_check_places.specs.Ways.{begins_one, is_one, keys_of, way_step_view};

use crate::table::Key::{Id, Named};
use crate::table::{Key, begins_keys, is_path};
use al_tree::FileKind;
use std::alloc::{AllocError, Global};

/// A step of a way: to the value under a key, or to an item of a sequence.
#[derive(Clone, Copy)]
pub enum WayStep<'a> {
    Under(&'a [u8]),
    Nth(usize),
}

/// The way from the root of a file to a node.
#[derive(Drop)]
pub(crate) struct Way<'a> {
    pub(crate) steps: Vec<WayStep<'a>>,
    /// The keys of its steps; steps to items have none.
    keys: Vec<&'a [u8]>,
    ghost keyed: { map (λ k. k.now) keys.items ≡ keys_of (map way_step_view steps.items) },
}

impl<'a> Way<'a> {
    ghost use Rattle.std.specs.Prelude.{◌-◌, ◌++◌, OnOk, take, vec_len};
    ghost use Rattle.al_check_places.specs.declared.ways.WayStep.TheVariants.{Nth, Under};

    /// The way to the root.
    pub(crate) fn new(alloc: Global) -> Way<'a>
        ensures { result.steps.items ≡ [] }
    {
        Way {
            steps: Vec::new(alloc),
            keys: Vec::new(alloc),
        }
    }

    /// Goes on to the value under a key. Fails with `AllocError` when out of memory, as below.
    pub(crate) fn enter_value(&mut self, key: &'a [u8]) -> Result<(), AllocError>
        ensures { OnOk result (self.new.steps.items ≡ self.old.steps.items ++ Under key.entry
            ∷ []) }
    {
        self.keys.reserve(1)?;
        self.steps.push(WayStep::Under(key))?;
        self.keys.push(key)?;
        Ok(())
    }

    /// Goes on to an item of a sequence.
    pub(crate) fn enter_item(&mut self, i: usize) -> Result<(), AllocError>
        ensures { OnOk result (self.new.steps.items ≡ self.old.steps.items ++ Nth i ∷ []) }
    {
        self.steps.push(WayStep::Nth(i))?;
        Ok(())
    }

    /// Goes back one step.
    pub(crate) fn leave(&mut self)
        ensures { self.new.steps.items ≡ take (vec_len self.old.steps - 1) self.old.steps.items }
    {
        match self.steps.pop() {
            Some(WayStep::Under(_)) => {
                self.keys.pop();
            }
            Some(WayStep::Nth(_)) => {}
            None => {}
        }
    }

    /// The keys of its steps.
    pub(crate) fn keys(&self) -> &[&'a [u8]]
        ensures { map (λ k. k.now) result.now
            ≡ keys_of (map way_step_view self.now.steps.items) }
    {
        self.keys.as_slice()
    }
}

/// Below `on` of a workflow, only what is at these paths or below them has expressions.
pub const OF_CALL: &[&[Key]] = &[
    &[
        Named("on"),
        Named("workflow_call"),
        Named("inputs"),
        Id,
        Named("default"),
    ],
    &[
        Named("on"),
        Named("workflow_call"),
        Named("outputs"),
        Id,
        Named("value"),
    ],
];

/// What is at these paths of a workflow, or below them, has no expressions.
pub const NOT_IN_WORKFLOW: &[&[Key]] = &[
    &[Named("jobs"), Id, Named("needs")],
    &[Named("jobs"), Id, Named("uses")],
    &[Named("jobs"), Id, Named("steps"), Named("id")],
    &[Named("jobs"), Id, Named("steps"), Named("uses")],
];

/// Outside `runs` of an action, only what is at these paths or below them has expressions.
pub const OF_INTERFACE: &[&[Key]] = &[
    &[Named("inputs"), Id, Named("default")],
    &[Named("outputs"), Id, Named("value")],
];

/// What is at these paths of an action, in its `runs`, or below them, has no expressions.
pub const NOT_IN_RUNS: &[&[Key]] = &[
    &[Named("runs"), Named("using")],
    &[Named("runs"), Named("steps"), Named("id")],
    &[Named("runs"), Named("steps"), Named("uses")],
];

/// The paths of conditions: their whole text is an expression, if it has no `${{` (GitHub,
/// "Evaluate expressions in workflows and actions").
pub const CONDITIONS: &[&[Key]] = &[
    &[Named("jobs"), Id, Named("if")],
    &[Named("jobs"), Id, Named("steps"), Named("if")],
    &[Named("runs"), Named("steps"), Named("if")],
    &[Named("runs"), Named("pre-if")],
    &[Named("runs"), Named("post-if")],
];

/// The paths of the scripts of steps, of which untrusted text would become part (GitHub, "Script
/// injections").
pub const SCRIPTS: &[&[Key]] = &[
    &[Named("jobs"), Id, Named("steps"), Named("run")],
    &[Named("runs"), Named("steps"), Named("run")],
];

/// Whether the keys begin with one of these paths.
fn begins_any(paths: &[&[Key]], keys: &[&[u8]]) -> bool
    ensures { result
        ≡ begins_one (map (λ p. map key_view p.now) paths.now) (map (λ k. k.now) keys.now) }
{
    paths.iter().any(|path| begins_keys(path, keys))
}

/// Whether the keys are one of these paths.
fn is_any(paths: &[&[Key]], keys: &[&[u8]]) -> bool
    ensures { result ≡ is_one (map (λ p. map key_view p.now) paths.now)
        (map (λ k. k.now) keys.now) }
{
    paths.iter().any(|path| is_path(path, keys))
}

/// Whether the node at the end of a way is checked.
pub(crate) fn is_checked(kind: FileKind, way: &Way<'_>) -> bool
    ensures { result ≡ ways.is_checked kind (map way_step_view way.now.steps.items) }
{
    let keys = way.keys();
    match kind {
        FileKind::Workflow if begins_keys(&[Named("on")], keys) => begins_any(OF_CALL, keys),
        FileKind::Workflow => !begins_any(NOT_IN_WORKFLOW, keys),
        FileKind::Action if begins_keys(&[Named("runs")], keys) => !begins_any(NOT_IN_RUNS, keys),
        FileKind::Action => begins_any(OF_INTERFACE, keys) && way.steps.len() == 3,
    }
}

/// Whether the node at the end of a way is a condition.
pub(crate) fn is_condition(way: &Way<'_>) -> bool
    ensures { result ≡ is_one ways.conditions (keys_of (map way_step_view way.now.steps.items)) }
{
    is_any(CONDITIONS, way.keys())
}

/// Whether the node at the end of a way is a step's script.
pub(crate) fn is_script(way: &Way<'_>) -> bool
    ensures { result ≡ is_one ways.scripts (keys_of (map way_step_view way.now.steps.items)) }
{
    is_any(SCRIPTS, way.keys())
}
