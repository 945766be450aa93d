//! The interfaces of files. They have no spans and no descriptions, so an edit that callers can't
//! see leaves the interface the same.
ghost use Rattle.std.specs.Prelude.{◌≡◌};
ghost use Rattle.al_check_interfaces.specs.Kinds.{parameters_of};

use crate::lists::Parameters;
use al_expr_types::{Name, NameList};
use al_tree::InputType;

/// What a file is to its callers.
#[derive(Clone, Copy, Debug, PartialEq, Eq)]
pub enum Role {
    /// A workflow that no job can call.
    Workflow,
    /// A workflow whose `on` names `workflow_call`.
    Callable,
    /// A composite action, `runs.using: composite`.
    Composite,
    /// Another action.
    Action,
}

/// An input or a secret that a file declares.
#[derive(Drop, PartialEq, Eq)]
pub struct Parameter {
    /// Its name, as the file spells it.
    pub name: Name,
    /// Whether the text of `required` is `true`, ignoring ASCII case, in any style.
    pub required: bool,
    /// Whether there is a key `default`; `false` for a secret.
    pub has_default: bool,
    /// Its type; inputs of actions and secrets are strings.
    pub takes: InputType,
}

/// The kind of a parameter: inputs, which a call gives under `with`, or secrets, which it gives
/// under `secrets`.
#[derive(Clone, Copy, PartialEq, Eq, PartialOrd, Ord)]
pub enum ParameterKind {
    /// An input.
    Input,
    /// A secret.
    Secret,
}

/// The interface of a file whose root is a mapping. Of names that differ only in ASCII case, each
/// list has only the first.
#[derive(Drop, PartialEq, Eq)]
pub struct Signature {
    /// The text of `name`, if it is a scalar and not null.
    pub name: Option<Name>,
    /// What the file is to its callers.
    pub role: Role,
    /// The inputs, in order.
    pub inputs: Parameters,
    /// The secrets, in order; empty for an action.
    pub secrets: Parameters,
    /// The names of the outputs, in order.
    pub outputs: NameList,
}

impl Signature {
    /// The parameters of a kind.
    pub fn parameters(&self, kind: ParameterKind) -> &Parameters
        ensures { result.now ≡ parameters_of kind self.now }
    {
        match kind {
            ParameterKind::Input => &self.inputs,
            ParameterKind::Secret => &self.secrets,
        }
    }
}

/// What callers see of a file. Two interfaces that compare equal are the same to every caller.
#[derive(Drop, PartialEq, Eq)]
pub enum Interface {
    /// The file isn't YAML, or its root isn't a mapping.
    Unreadable,
    /// The root is a mapping, which declares this.
    Readable(Signature),
}
