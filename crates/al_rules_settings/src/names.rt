//! The names of permissions, their values, and shells.

/// The scopes of permissions (GitHub, "Workflow syntax", `permissions`).
pub const PERMISSIONS: &[&str] = &[
    "actions",
    "artifact-metadata",
    "attestations",
    "checks",
    "contents",
    "deployments",
    "discussions",
    "id-token",
    "issues",
    "models",
    "packages",
    "pages",
    "pull-requests",
    "repository-projects",
    "security-events",
    "statuses",
];

/// The shells that GitHub knows by name (GitHub, "Workflow syntax",
/// `jobs.<job_id>.steps[*].shell`).
pub const SHELLS: &[&str] = &["bash", "sh", "pwsh", "powershell", "python", "cmd"];

/// The values of a scope of permissions, whichever scope it is.
pub const SCOPE_VALUES: &[&str] = &["read", "write", "none"];

/// The values of `permissions` as a whole.
pub const WHOLE_VALUES: &[&str] = &["read-all", "write-all"];
