//! What an expression can refer to at its place, with types as trees.

use crate::trees::Ty;
use al_expr_names::Available;

/// What an expression can refer to at its place in a workflow or an action. A caller makes one from
/// the types of the contexts, of which those that it knows nothing of are [`Ty::Any`].
#[derive(Drop)]
pub struct Scope {
    /// The type of each context, available or not.
    pub types: ContextTypes,
    /// The contexts and special functions that may be named here.
    pub available: Available,
    /// Whether the place is a step's `run`, where untrusted text would become part of a script.
    pub in_run: bool,
}

/// The type of each context.
#[derive(Drop)]
pub struct ContextTypes {
    /// The type of `github`.
    pub github: Ty,
    /// The type of `env`.
    pub env: Ty,
    /// The type of `vars`.
    pub vars: Ty,
    /// The type of `secrets`.
    pub secrets: Ty,
    /// The type of `runner`.
    pub runner: Ty,
    /// The type of `job`.
    pub job: Ty,
    /// The type of `strategy`.
    pub strategy: Ty,
    /// The type of `needs`.
    pub needs: Ty,
    /// The type of `jobs`.
    pub jobs: Ty,
    /// The type of `steps`.
    pub steps: Ty,
    /// The type of `matrix`.
    pub matrix: Ty,
    /// The type of `inputs`.
    pub inputs: Ty,
}
