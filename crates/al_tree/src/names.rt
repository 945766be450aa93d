//! The keys of a matrix that aren't rows, and the names of the events.

ghost use Rattle.al_tree.specs.Names.{event_names as names, is_combination_key as combination_key};
ghost use Rattle.al_tree.specs.Names.{is_event as event};
ghost use Rattle.std.specs.Prelude.{◌≡◌, map};

use al_base::is_among;

/// The events that trigger workflows (GitHub, "Events that trigger workflows").
const EVENTS: [&str; 37] = [
    "branch_protection_rule",
    "discussion_comment",
    "issue_comment",
    "label",
    "pull_request_review_comment",
    "discussion",
    "issues",
    "milestone",
    "pull_request",
    "pull_request_target",
    "pull_request_review",
    "release",
    "workflow_run",
    "check_run",
    "check_suite",
    "create",
    "delete",
    "deployment",
    "deployment_status",
    "fork",
    "gollum",
    "image_version",
    "merge_group",
    "page_build",
    "project",
    "project_card",
    "project_column",
    "public",
    "pull_request_comment",
    "push",
    "registry_package",
    "repository_dispatch",
    "schedule",
    "status",
    "watch",
    "workflow_call",
    "workflow_dispatch",
];

/// Whether a key of a matrix isn't a row: `include` or `exclude` (GitHub, "Workflow syntax",
/// `jobs.<job_id>.strategy.matrix`).
pub fn is_combination_key(key: &[u8]) -> bool
    ensures { result ≡ combination_key key.now }
{
    is_among(key, &["include", "exclude"])
}

/// The names of the events (GitHub, "Events that trigger workflows"). Doesn't allocate.
pub fn event_names() -> &'static [&'static str]
    ensures { map (λ n. n.now) result.now ≡ names }
{
    &EVENTS
}

/// Whether a text is the name of an event (GitHub, "Events that trigger workflows"), compared
/// exactly.
pub fn is_event(text: &[u8]) -> bool
    ensures { result ≡ event text.now }
{
    is_among(text, &EVENTS)
}
