//! The names of contexts and functions, which are case-insensitive.

ghost use Rattle.std.specs.Prelude.{◌≡◌};
ghost use Rattle.al_expr_names.specs.Names as names;

use al_base::is_same_name;

/// A context of GitHub Actions, such as `github` or `steps` (GitHub, "Contexts reference").
#[derive(Clone, Copy, PartialEq, Eq, Debug)]
pub enum Context {
    /// `github`: the run, and the event that triggered it.
    Github,
    /// `env`: environment variables.
    Env,
    /// `vars`: configuration variables.
    Vars,
    /// `secrets`.
    Secrets,
    /// `runner`: the machine that runs the job.
    Runner,
    /// `job`: the job that runs.
    Job,
    /// `strategy`: how the jobs of the matrix run.
    Strategy,
    /// `needs`: the jobs that the job waits for, with their outputs.
    Needs,
    /// `jobs`: all jobs, for the outputs of a workflow that is called.
    Jobs,
    /// `steps`: the steps with an id that have run in the job.
    Steps,
    /// `matrix`: the job's values of the matrix.
    Matrix,
    /// `inputs` of a workflow or an action.
    Inputs,
}

/// A function that an expression can call, such as `contains` (GitHub, "Evaluate expressions in
/// workflows and actions").
#[derive(Clone, Copy, PartialEq, Eq, Debug)]
pub enum Function {
    /// `contains(search, item)`.
    Contains,
    /// `startsWith(searchString, searchValue)`.
    StartsWith,
    /// `endsWith(searchString, searchValue)`.
    EndsWith,
    /// `format(string, value0, ..)`.
    Format,
    /// `join(array, separator)`; the separator is optional.
    Join,
    /// `toJSON(value)`.
    ToJson,
    /// `fromJSON(value)`.
    FromJson,
    /// `hashFiles(path, ..)`; special.
    HashFiles,
    /// `success()`; special.
    Success,
    /// `always()`; special.
    Always,
    /// `cancelled()`; special.
    Cancelled,
    /// `failure()`; special.
    Failure,
}

/// All contexts, in the order of the variants.
pub const CONTEXTS: [Context; 12] = [
    Context::Github,
    Context::Env,
    Context::Vars,
    Context::Secrets,
    Context::Runner,
    Context::Job,
    Context::Strategy,
    Context::Needs,
    Context::Jobs,
    Context::Steps,
    Context::Matrix,
    Context::Inputs,
];

const FUNCTIONS: [Function; 12] = [
    Function::Contains,
    Function::StartsWith,
    Function::EndsWith,
    Function::Format,
    Function::Join,
    Function::ToJson,
    Function::FromJson,
    Function::HashFiles,
    Function::Success,
    Function::Always,
    Function::Cancelled,
    Function::Failure,
];

impl Context {
    /// The context's name as GitHub writes it.
    pub fn name(self) -> &'static str
        ensures { result.now ≡ names.context_name self }
    {
        match self {
            Context::Github => "github",
            Context::Env => "env",
            Context::Vars => "vars",
            Context::Secrets => "secrets",
            Context::Runner => "runner",
            Context::Job => "job",
            Context::Strategy => "strategy",
            Context::Needs => "needs",
            Context::Jobs => "jobs",
            Context::Steps => "steps",
            Context::Matrix => "matrix",
            Context::Inputs => "inputs",
        }
    }

    /// The context with a name, ignoring ASCII case; `None` if there is none.
    pub fn from_name(name: &str) -> Option<Context>
        ensures { result ≡ names.context_of name.now }
    {
        let name = name.as_bytes();
        CONTEXTS
            .iter()
            .copied()
            .find(|context| is_same_name(context.name().as_bytes(), name))
    }
}

impl Function {
    /// The function's name as GitHub writes it.
    pub fn name(self) -> &'static str
        ensures { result.now ≡ names.function_name self }
    {
        match self {
            Function::Contains => "contains",
            Function::StartsWith => "startsWith",
            Function::EndsWith => "endsWith",
            Function::Format => "format",
            Function::Join => "join",
            Function::ToJson => "toJSON",
            Function::FromJson => "fromJSON",
            Function::HashFiles => "hashFiles",
            Function::Success => "success",
            Function::Always => "always",
            Function::Cancelled => "cancelled",
            Function::Failure => "failure",
        }
    }

    /// The function with a name, ignoring ASCII case; `None` if there is none.
    pub fn from_name(name: &str) -> Option<Function>
        ensures { result ≡ names.function_of name.now }
    {
        let name = name.as_bytes();
        FUNCTIONS
            .iter()
            .copied()
            .find(|function| is_same_name(function.name().as_bytes(), name))
    }
}
