//! Which contexts and special functions are available where: the table, and finding a row.
ghost use Rattle.std.specs.Prelude.{◌≡◌, ◌&&◌, ◌==◌, find, length, map, option_map, true};
ghost use Rattle.al_check_places.specs.Availability.{availability, row_view, table};
ghost use Rattle.al_check_places.specs.Paths.{is_path_prefix, key_view};
ghost use Rattle.std.specs.Option.{option_map_or};
ghost use Rattle.std.specs.Str.{bytes_eq};

use al_expr_names::{Context, Function};

/// A key of a path: a name, or any key.
#[derive(Clone, Copy)]
pub enum Key {
    /// This key, compared exactly.
    Named(&'static str),
    /// Any key, as the id of a job or an input is.
    Id,
}

/// What is available at the places whose keys begin with a path; the indices of sequences aren't
/// keys (GitHub, "Contexts reference", "Context availability").
#[derive(Clone, Copy)]
pub struct AvailabilityRow {
    /// The path from the root of a workflow.
    pub path: &'static [Key],
    /// The contexts that are available.
    pub contexts: &'static [Context],
    /// The special functions that are available.
    pub special: &'static [Function],
}

use Context::{
    Env, Github, Inputs, Job, Jobs, Matrix, Needs, Runner, Secrets, Steps, Strategy, Vars,
};
use Function::{Always, Cancelled, Failure, HashFiles, Success};
use Key::{Id, Named};

const BASIC: &[Context] = &[Github, Needs, Vars, Inputs];

const OF_STRATEGY: &[Context] = &[Github, Needs, Vars, Inputs, Strategy, Matrix];

const OF_STEP: &[Context] = &[
    Github, Needs, Vars, Inputs, Strategy, Matrix, Job, Runner, Env, Secrets, Steps,
];

macro_rules! key {
    (*) => {
        Id
    };
    ($name:literal) => {
        Named($name)
    };
}

/// A row: the keys of its path, in which `*` is any key; its contexts; and its special functions.
macro_rules! row {
    ([$($key:tt)+], $contexts:expr, $special:expr) => {
        AvailabilityRow { path: &[$(key!($key)),+], contexts: $contexts, special: $special }
    };
}

const TABLE: &[AvailabilityRow] = &[
    row!(["run-name"], &[Github, Inputs, Vars], &[]),
    row!(["concurrency"], &[Github, Inputs, Vars], &[]),
    row!(["on" "workflow_call" "inputs" * "default"], &[Github, Inputs, Vars], &[]),
    row!(["env"], &[Github, Secrets, Inputs, Vars], &[]),
    row!(["on" "workflow_call" "outputs" * "value"], &[Github, Jobs, Vars, Inputs], &[]),
    row!(
        ["jobs" * "if"],
        BASIC,
        &[Always, Cancelled, Success, Failure]
    ),
    row!(["jobs" * "strategy"], BASIC, &[]),
    row!(["jobs" * "concurrency"], OF_STRATEGY, &[]),
    row!(["jobs" * "container"], OF_STRATEGY, &[]),
    row!(["jobs" * "container" "image"], OF_STRATEGY, &[]),
    row!(["jobs" * "continue-on-error"], OF_STRATEGY, &[]),
    row!(["jobs" * "environment"], OF_STRATEGY, &[]),
    row!(["jobs" * "name"], OF_STRATEGY, &[]),
    row!(["jobs" * "runs-on"], OF_STRATEGY, &[]),
    row!(["jobs" * "services"], OF_STRATEGY, &[]),
    row!(["jobs" * "timeout-minutes"], OF_STRATEGY, &[]),
    row!(["jobs" * "with" *], OF_STRATEGY, &[]),
    row!(["jobs" * "defaults" "run"], &[Github, Needs, Vars, Inputs, Strategy, Matrix, Env], &[]),
    row!(
        ["jobs" * "env"],
        &[Github, Needs, Vars, Inputs, Strategy, Matrix, Secrets],
        &[]
    ),
    row!(["jobs" * "secrets" *], &[Github, Needs, Vars, Inputs, Strategy, Matrix, Secrets], &[]),
    row!(
        ["jobs" * "container" "credentials"],
        &[Github, Needs, Vars, Inputs, Strategy, Matrix, Env, Secrets],
        &[]
    ),
    row!(
        ["jobs" * "services" * "credentials"],
        &[Github, Needs, Vars, Inputs, Strategy, Matrix, Env, Secrets],
        &[]
    ),
    row!(
        ["jobs" * "container" "env" *],
        &[Github, Needs, Vars, Inputs, Strategy, Matrix, Job, Runner, Env, Secrets],
        &[]
    ),
    row!(
        ["jobs" * "services" * "env" *],
        &[Github, Needs, Vars, Inputs, Strategy, Matrix, Job, Runner, Env, Secrets],
        &[]
    ),
    row!(
        ["jobs" * "environment" "url"],
        &[Github, Needs, Vars, Inputs, Strategy, Matrix, Job, Runner, Env, Steps],
        &[]
    ),
    row!(["jobs" * "outputs" *], OF_STEP, &[]),
    row!(["jobs" * "steps" "continue-on-error"], OF_STEP, &[HashFiles]),
    row!(["jobs" * "steps" "env"], OF_STEP, &[HashFiles]),
    row!(["jobs" * "steps" "name"], OF_STEP, &[HashFiles]),
    row!(["jobs" * "steps" "run"], OF_STEP, &[HashFiles]),
    row!(["jobs" * "steps" "timeout-minutes"], OF_STEP, &[HashFiles]),
    row!(["jobs" * "steps" "with"], OF_STEP, &[HashFiles]),
    row!(["jobs" * "steps" "working-directory"], OF_STEP, &[HashFiles]),
    row!(
        ["jobs" * "steps" "if"],
        &[Github, Needs, Vars, Inputs, Strategy, Matrix, Job, Runner, Env, Steps],
        &[Always, Cancelled, Success, Failure, HashFiles]
    ),
];

/// The rows of the table of availability in workflows. Doesn't allocate. Of several rows whose
/// paths a place begins with, the one with the longest path counts.
pub fn rows() -> &'static [AvailabilityRow]
    ensures { map row_view result.now ≡ table }
{
    TABLE
}

fn key_fits(key: &Key, name: &[u8]) -> bool
    ensures { result ≡ option_map_or (λ n. bytes_eq n name.now) (key_view key.now) true }
{
    match key {
        Key::Id => true,
        Key::Named(text) => text.as_bytes() == name,
    }
}

/// Whether the keys begin with a path.
pub(crate) fn begins_keys(path: &[Key], keys: &[&[u8]]) -> bool
    ensures { result ≡ is_path_prefix (map key_view path.now) (map (λ k. k.now) keys.now) }
{
    if path.len() > keys.len() {
        return false;
    }
    // From the last key, since most paths differ there.
    let mut count = path.len();
    'keys: while count > 0 {
        count -= 1;
        if !key_fits(&path[count], &keys[count]) {
            return false;
        }
    }
    true
}

/// Whether the keys are a path.
pub(crate) fn is_path(path: &[Key], keys: &[&[u8]]) -> bool
    ensures { let ks = map (λ k. k.now) keys.now in let p = map key_view path.now in
        result ≡ ((length p == length ks) && is_path_prefix p ks) }
{
    path.len() == keys.len() && begins_keys(path, keys)
}

/// The row whose path the keys are.
fn row_of(keys: &[&[u8]]) -> Option<&'static AvailabilityRow>
    ensures { let ks = map (λ k. k.now) keys.now in option_map (λ r. row_view r.now) result
        ≡ find (λ r. (length r.path == length ks) && is_path_prefix r.path ks) table }
{
    rows().iter().find(|row| is_path(row.path, keys))
}

/// No path of the table has more keys.
const LONGEST: usize = 6;

/// The row of a place, by the keys on the way to it; `None` if everything is available.
// Not inlined: the walk is slower for each node with this in it, and asks it only at expressions.
#[inline(never)]
pub fn available(keys: &[&[u8]]) -> Option<&'static AvailabilityRow>
    ensures { option_map (λ r. row_view r.now) result ≡ availability (map (λ k. k.now) keys.now) }
{
    for count in (0..keys.len().min(LONGEST) + 1).rev() {
        let row = row_of(&keys[..count]);
        if row.is_some() {
            return row;
        }
    }
    None
}
