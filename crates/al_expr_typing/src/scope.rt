//! What an expression can refer to at its place.

ghost use Rattle.std.specs.Prelude.{◌≡◌};
ghost use Rattle.al_expr_typing.specs.Scopes.{context_number};

use al_expr_names::{Available, Context};
use al_expr_types::Ty;

/// What an expression can refer to at its place in a workflow or an action, with the types of a
/// table.
#[derive(Clone, Copy)]
pub struct Scope {
    /// The type of each context, available or not.
    pub types: ContextTypes,
    /// The contexts and special functions that may be named here.
    pub available: Available,
    /// Whether the place is a step's `run`, where untrusted text would become part of a script.
    pub in_run: bool,
}

/// The type of each context.
#[derive(Clone, Copy)]
pub struct ContextTypes {
    /// The type of `github`.
    pub github: Ty,
    /// The type of `env`.
    pub env: Ty,
    /// The type of `vars`.
    pub vars: Ty,
    /// The type of `secrets`.
    pub secrets: Ty,
    /// The type of `runner`.
    pub runner: Ty,
    /// The type of `job`.
    pub job: Ty,
    /// The type of `strategy`.
    pub strategy: Ty,
    /// The type of `needs`.
    pub needs: Ty,
    /// The type of `jobs`.
    pub jobs: Ty,
    /// The type of `steps`.
    pub steps: Ty,
    /// The type of `matrix`.
    pub matrix: Ty,
    /// The type of `inputs`.
    pub inputs: Ty,
}

impl ContextTypes {
    /// The type of a context.
    pub fn get(self, context: Context) -> Ty
        ensures { result ≡ context_number self context }
    {
        match context {
            Context::Github => self.github,
            Context::Env => self.env,
            Context::Vars => self.vars,
            Context::Secrets => self.secrets,
            Context::Runner => self.runner,
            Context::Job => self.job,
            Context::Strategy => self.strategy,
            Context::Needs => self.needs,
            Context::Jobs => self.jobs,
            Context::Steps => self.steps,
            Context::Matrix => self.matrix,
            Context::Inputs => self.inputs,
        }
    }
}
