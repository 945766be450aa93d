//! The names of activity types, and of the types of inputs.

ghost use Rattle.al_rules.specs.Names.{activities_of as activities_named};
ghost use Rattle.std.specs.Prelude.{◌≡◌, map, option_map};

use al_base::is_among;

/// Some events, and the activity types that each of them has.
#[derive(Clone, Copy)]
pub(crate) struct Activities {
    events: &'static [&'static str],
    types: &'static [&'static str],
}

macro_rules! activities {
    ($($event:literal)+ => $($activity:literal)+) => {
        Activities { events: &[$($event),+], types: &[$($activity),+] }
    };
}

/// The activity types (GitHub, "Events that trigger workflows").
const ACTIVITIES: &[Activities] = &[
    activities!("branch_protection_rule" "discussion_comment" "issue_comment" "label"
        "pull_request_review_comment" => "created" "edited" "deleted"),
    activities!("discussion" => "created" "edited" "deleted" "transferred" "pinned" "unpinned"
        "labeled" "unlabeled" "locked" "unlocked" "category_changed" "answered" "unanswered"),
    activities!("issues" => "opened" "edited" "deleted" "transferred" "pinned" "unpinned" "closed"
        "reopened" "assigned" "unassigned" "labeled" "unlabeled" "locked" "unlocked" "milestoned"
        "demilestoned" "typed" "untyped"),
    activities!("milestone" => "created" "closed" "opened" "edited" "deleted"),
    activities!("pull_request" "pull_request_target" => "assigned" "unassigned" "labeled"
        "unlabeled" "opened" "edited" "closed" "reopened" "synchronize" "converted_to_draft"
        "locked" "unlocked" "enqueued" "dequeued" "milestoned" "demilestoned" "ready_for_review"
        "review_requested" "review_request_removed" "auto_merge_enabled" "auto_merge_disabled"),
    activities!("pull_request_review" => "submitted" "edited" "dismissed"),
    activities!("release" => "published" "unpublished" "created" "edited" "deleted" "prereleased"
        "released"),
    activities!("workflow_run" => "completed" "requested" "in_progress"),
];

/// The types of the inputs of `workflow_call` (GitHub, "Workflow syntax",
/// `on.workflow_call.inputs.<input_id>.type`).
pub const CALL_TYPES: &[&str] = &["boolean", "number", "string"];

/// The types of the inputs of `workflow_dispatch` (GitHub, "Workflow syntax",
/// `on.workflow_dispatch.inputs.<input_id>.type`).
pub const DISPATCH_TYPES: &[&str] = &["boolean", "number", "string", "choice", "environment"];

/// The activity types of an event; `None` if any text is accepted, as it is for an event that isn't
/// known (GitHub, "Events that trigger workflows"). The name of the event is compared exactly.
pub fn activities_of(event: &[u8]) -> Option<&'static [&'static str]>
    ensures { option_map (λ ts. map (λ n. n.now) ts.now) result ≡ activities_named event.now }
{
    for row in ACTIVITIES {
        if is_among(event, row.events) {
            return Some(row.types);
        }
    }
    None
}
