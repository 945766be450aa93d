//! What a place makes available.
ghost use Rattle.std.specs.Prelude.{◌≡◌, option_map};
ghost use Rattle.al_check_contexts.specs.Scopes as scopes;
ghost use Rattle.al_check_places.specs.Availability.{row_view};
ghost use Rattle.al_expr_names.specs.Scopes.{available_of};

use al_check_places::AvailabilityRow;
use al_expr_names::{Available, CONTEXTS, Context, Function, SPECIAL_FUNCTIONS};
use al_tree::FileKind;

/// The contexts of an action: all but `secrets`.
const OF_ACTION: &[Context] = &[
    Context::Github,
    Context::Env,
    Context::Vars,
    Context::Runner,
    Context::Job,
    Context::Strategy,
    Context::Needs,
    Context::Jobs,
    Context::Steps,
    Context::Matrix,
    Context::Inputs,
];

/// What a place with a row of the table makes available (GitHub, "Contexts reference", "Context
/// availability"): in a workflow the contexts and special functions of the row, and without a row
/// all contexts and no special function. In an action it doesn't depend on the row: the contexts of
/// actions and `hashFiles`, and in conditions the functions that tell the status of the job so far.
pub fn available_at(
    kind: FileKind,
    row: Option<&'static AvailabilityRow>,
    is_condition: bool,
) -> Available
    ensures { available_of result
        ≡ scopes.available_at kind (option_map (λ r. row_view r.now) row.entry) is_condition }
{
    match (kind, row) {
        (FileKind::Workflow, Some(row)) => Available {
            contexts: row.contexts,
            special: row.special,
        },
        (FileKind::Workflow, None) => Available {
            contexts: &CONTEXTS,
            special: &[],
        },
        (FileKind::Action, _) if is_condition => Available {
            contexts: OF_ACTION,
            special: &SPECIAL_FUNCTIONS,
        },
        (FileKind::Action, _) => Available {
            contexts: OF_ACTION,
            special: &[Function::HashFiles],
        },
    }
}
