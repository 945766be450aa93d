//! The interface of a file, from its root.
ghost use Rattle.std.specs.Prelude.{◌≡◌, [], map, option_map, IfOk};
ghost use Rattle.std.specs.Option.{option_map_or};
ghost use Rattle.al_tree.specs.Declarations.{declared_in};
ghost use Rattle.al_tree.specs.Keys.{keys_in};
ghost use Rattle.al_tree.specs.Values.{member_of};
ghost use Rattle.al_tree.specs.declared.files.FileKind.TheVariants as kind;
ghost use Rattle.al_yaml_tree.specs.View.{view};
ghost use Rattle.al_check_interfaces.specs.Interfaces as interfaces;

use crate::interfaces::{Interface, Parameter, Role, Signature};
use crate::lists::Parameters;
use al_base::is_same_name;
use al_expr_types::{Name, NameList};
use al_tree::{
    FileKind, InputType, Member, declared_at, has_value, input_of, is_composite, text_under, texts,
    value, value_below_three,
};
use al_yaml_tree::Node;
use std::alloc::{AllocError, Global};

/// How parameters are declared.
#[derive(Clone, Copy)]
enum Declaring {
    /// As inputs of a callable workflow.
    CallInputs,
    /// As inputs of an action.
    ActionInputs,
    /// As secrets of a callable workflow.
    Secrets,
}

/// Whether the parameter that a node declares is required: the text of `required` is `true`,
/// ignoring ASCII case.
fn is_required(node: &Node) -> bool
    ensures { result ≡ interfaces.is_required (view node.now) }
{
    value(node, "required")
        .and_then(|required| required.scalar())
        .is_some_and(|scalar| is_same_name(scalar.text(), b"true"))
}

/// Whether the parameter that a node declares has a default.
fn has_default(by: Declaring, node: &Node) -> bool
    ensures { result ≡ interfaces.has_default by (view node.now) }
{
    !matches!(by, Declaring::Secrets) && has_value(node, "default")
}

/// The type of the parameter that a node declares.
fn type_taken(by: Declaring, node: &Node) -> InputType
    ensures { result ≡ interfaces.type_taken by (view node.now) }
{
    match by {
        Declaring::CallInputs => input_of(node),
        Declaring::ActionInputs | Declaring::Secrets => InputType::String,
    }
}

/// The parameter that a member declares.
fn parameter(alloc: Global, by: Declaring, member: Member<'_>) -> Result<Parameter, AllocError>
    ensures { IfOk result (λ p. p ≡ interfaces.parameter by (member_of member.entry)) }
{
    Ok(Parameter {
        name: Name::new(alloc, member.key.text())?,
        required: is_required(member.value),
        has_default: has_default(by, member.value),
        takes: type_taken(by, member.value),
    })
}

/// The parameters that a node declares, if there is one.
fn parameters(alloc: Global, by: Declaring, node: Option<&Node>) -> Result<Parameters, AllocError>
    ensures { IfOk result (λ ps. ps
        ≡ map (interfaces.parameter by)
        (option_map_or declared_in (option_map (λ n. view n.now) node.entry) [])) }
{
    let mut found = Vec::new(alloc);
    for member in &declared_at(alloc, node)? {
        found.push(parameter(alloc, by, *member)?)?;
    }
    Parameters::new(found)
}

/// The names that a node declares, if there is one.
fn declared_names(alloc: Global, node: Option<&Node>) -> Result<NameList, AllocError>
    ensures { IfOk result (λ ns. ns
        ≡ keys_in (option_map_or declared_in (option_map (λ n. view n.now) node.entry) [])) }
{
    let mut names = Vec::new(alloc);
    for member in &declared_at(alloc, node)? {
        names.push(Name::new(alloc, member.key.text())?)?;
    }
    NameList::new(names)
}

/// The `name` of a file.
fn name_of(alloc: Global, root: &Node) -> Result<Option<Name>, AllocError>
    ensures { IfOk result (λ n. n ≡ interfaces.name_of (view root.now)) }
{
    text_under(root, "name")
        .map(|name| Name::new(alloc, name.text()))
        .transpose()
}

/// Whether the value of `on` names `workflow_call`.
fn names_call(alloc: Global, on: &Node) -> Result<bool, AllocError>
    ensures { IfOk result (λ b. b ≡ interfaces.names_call (view on.now)) }
{
    for event in &texts(alloc, on)? {
        if event.text() == b"workflow_call".as_slice() {
            return Ok(true);
        }
    }
    Ok(has_value(on, "workflow_call"))
}

/// What a workflow is to its callers.
fn workflow_role(alloc: Global, root: &Node) -> Result<Role, AllocError>
    ensures { IfOk result (λ r. r
        ≡ (interfaces.signature_of kind.Workflow (view root.now)).role) }
{
    match value(root, "on") {
        Some(on) if names_call(alloc, on)? => Ok(Role::Callable),
        _ => Ok(Role::Workflow),
    }
}

/// The signature of a workflow.
fn workflow_signature(alloc: Global, root: &Node) -> Result<Signature, AllocError>
    ensures { IfOk result (λ s. s ≡ interfaces.signature_of kind.Workflow (view root.now)) }
{
    let of_call = |key| value_below_three(root, "on", "workflow_call", key);
    Ok(Signature {
        name: name_of(alloc, root)?,
        role: workflow_role(alloc, root)?,
        inputs: parameters(alloc, Declaring::CallInputs, of_call("inputs"))?,
        secrets: parameters(alloc, Declaring::Secrets, of_call("secrets"))?,
        outputs: declared_names(alloc, of_call("outputs"))?,
    })
}

/// The signature of an action.
fn action_signature(alloc: Global, root: &Node) -> Result<Signature, AllocError>
    ensures { IfOk result (λ s. s ≡ interfaces.signature_of kind.Action (view root.now)) }
{
    let name = name_of(alloc, root)?;
    let inputs = parameters(alloc, Declaring::ActionInputs, value(root, "inputs"))?;
    let outputs = declared_names(alloc, value(root, "outputs"))?;
    let role = if is_composite(root) {
        Role::Composite
    } else {
        Role::Action
    };
    Ok(Signature {
        name,
        role,
        inputs,
        secrets: Parameters::new(Vec::new(alloc))?,
        outputs,
    })
}

/// The interface of a file with this root. (A file that isn't YAML has no root, and is unreadable.)
///
/// Fails with `AllocError` when out of memory.
pub fn interface_of(alloc: Global, kind: FileKind, root: &Node) -> Result<Interface, AllocError>
    ensures { IfOk result (λ i. i ≡ interfaces.interface_of kind (view root.now)) }
{
    if root.mapping().is_none() {
        return Ok(Interface::Unreadable);
    }
    match kind {
        FileKind::Workflow => Ok(Interface::Readable(workflow_signature(alloc, root)?)),
        FileKind::Action => Ok(Interface::Readable(action_signature(alloc, root)?)),
    }
}
