//! The types of contexts that are the same in every file.
ghost use Rattle.al_check_objects.specs.Fixed as fixed;
ghost use Rattle.al_check_objects.specs.Numbers.{Makes};

use crate::objects::object_of;
use al_expr_types::{Base, Scalar, Ty, Types};
use std::alloc::AllocError;

const BOOL: Ty = Ty {
    arrays: 0,
    of: Base::Scalar(Scalar::Bool),
};

const GITHUB: &[(&[u8], Ty)] = &[
    (b"event", Ty::ANY),
    (b"ref_protected", BOOL),
    (b"action", Ty::STRING),
    (b"action_path", Ty::STRING),
    (b"action_ref", Ty::STRING),
    (b"action_repository", Ty::STRING),
    (b"action_status", Ty::STRING),
    (b"actor", Ty::STRING),
    (b"actor_id", Ty::STRING),
    (b"api_url", Ty::STRING),
    (b"artifact_cache_size_limit", Ty::STRING),
    (b"base_ref", Ty::STRING),
    (b"env", Ty::STRING),
    (b"event_name", Ty::STRING),
    (b"event_path", Ty::STRING),
    (b"graphql_url", Ty::STRING),
    (b"head_ref", Ty::STRING),
    (b"job", Ty::STRING),
    (b"output", Ty::STRING),
    (b"path", Ty::STRING),
    (b"ref", Ty::STRING),
    (b"ref_name", Ty::STRING),
    (b"ref_type", Ty::STRING),
    (b"repository", Ty::STRING),
    (b"repository_id", Ty::STRING),
    (b"repository_owner", Ty::STRING),
    (b"repository_owner_id", Ty::STRING),
    (b"repositoryUrl", Ty::STRING),
    (b"repository_visibility", Ty::STRING),
    (b"retention_days", Ty::STRING),
    (b"run_attempt", Ty::STRING),
    (b"run_id", Ty::STRING),
    (b"run_number", Ty::STRING),
    (b"secret_source", Ty::STRING),
    (b"server_url", Ty::STRING),
    (b"sha", Ty::STRING),
    (b"state", Ty::STRING),
    (b"step_summary", Ty::STRING),
    (b"token", Ty::STRING),
    (b"triggering_actor", Ty::STRING),
    (b"workflow", Ty::STRING),
    (b"workflow_ref", Ty::STRING),
    (b"workflow_sha", Ty::STRING),
    (b"workspace", Ty::STRING),
];

const NUMBER: Ty = Ty {
    arrays: 0,
    of: Base::Scalar(Scalar::Number),
};

const RUNNER: &[(&[u8], Ty)] = &[
    (b"name", Ty::STRING),
    (b"os", Ty::STRING),
    (b"arch", Ty::STRING),
    (b"temp", Ty::STRING),
    (b"tool_cache", Ty::STRING),
    (b"debug", Ty::STRING),
    (b"environment", Ty::STRING),
];

const JOB: &[(&[u8], Ty)] = &[(b"status", Ty::STRING)];

const STRATEGY: &[(&[u8], Ty)] = &[
    (b"fail-fast", BOOL),
    (b"job-index", NUMBER),
    (b"job-total", NUMBER),
    (b"max-parallel", NUMBER),
];

/// The type of `github`. Fails with `AllocError` when out of memory, as everything here does.
pub fn github_type(types: &mut Types<'_>) -> Result<Ty, AllocError>
    ensures { Makes types.old types.new result fixed.github_type }
{
    object_of(types, GITHUB, None)
}

/// The type of `runner`.
pub fn runner_type(types: &mut Types<'_>) -> Result<Ty, AllocError>
    ensures { Makes types.old types.new result fixed.runner_type }
{
    object_of(types, RUNNER, Some(Ty::ANY))
}

/// The type of `job`.
pub fn job_type(types: &mut Types<'_>) -> Result<Ty, AllocError>
    ensures { Makes types.old types.new result fixed.job_type }
{
    object_of(types, JOB, Some(Ty::ANY))
}

/// The type of `strategy` in a job.
pub fn strategy_type(types: &mut Types<'_>) -> Result<Ty, AllocError>
    ensures { Makes types.old types.new result fixed.strategy_type }
{
    object_of(types, STRATEGY, None)
}
