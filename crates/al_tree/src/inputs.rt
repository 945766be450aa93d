//! The types that inputs are declared with.
ghost use Rattle.std.specs.Prelude.{◌≡◌};
ghost use Rattle.al_tree.specs.Inputs as inputs;
ghost use Rattle.al_yaml_tree.specs.View.{view};

use crate::values::text_under;
use al_yaml_tree::Node;

/// The type of an input, as far as expressions tell types apart (GitHub, "Workflow syntax",
/// `on.workflow_call.inputs.<input_id>.type`).
#[derive(Clone, Copy, Debug, PartialEq, Eq)]
pub enum InputType {
    /// `boolean`.
    Boolean,
    /// `number`.
    Number,
    /// `string`, and any other text, such as `choice` and `environment`; no type too.
    String,
}

/// The type under `type` in the mapping that declares an input; a string if there is none. The text
/// is compared exactly.
pub fn input_of(node: &Node) -> InputType
    ensures { result ≡ inputs.input_of (view node.now) }
{
    match text_under(node, "type").map(|name| name.text()) {
        Some(name) if name == b"boolean".as_slice() => InputType::Boolean,
        Some(name) if name == b"number".as_slice() => InputType::Number,
        // Any other text is a string's, as `choice` and `environment` are.
        _ => InputType::String,
    }
}
