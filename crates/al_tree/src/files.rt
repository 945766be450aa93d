//! A document as a workflow or an action, and the faults of its keys and shapes.

ghost use Rattle.al_tree.specs.Faults.{root_faults};
ghost use Rattle.al_base.specs.Growth.{SameSet};
ghost use Rattle.al_tree.specs.declared.table.Shape.TheVariants.{Action as ActionShape};
ghost use Rattle.al_tree.specs.declared.table.Shape.TheVariants.{Workflow as WorkflowShape};
ghost use Rattle.al_tree.specs.Files.{key_faults, kind_in, root_of, shape_of};
ghost use Rattle.al_yaml_tree.specs.View.{view};
ghost use Rattle.std.specs.Prelude.{◌≡◌, IfOk};

use crate::{Shape, shape_faults};
use al_base::{Fault, fault_list};
use al_yaml_tree::{Doc, Node};
use std::alloc::{AllocError, Global};

/// A workflow, given by the root of its file (GitHub, "Workflow syntax for GitHub Actions").
#[derive(Drop)]
pub struct Workflow {
    /// The root of the file.
    pub root: Node,
}

/// An action, given by the root of its file (GitHub, "Metadata syntax for GitHub Actions").
#[derive(Drop)]
pub struct Action {
    /// The root of the file.
    pub root: Node,
}

/// A workflow or an action, by what it is read as; its faults are another matter.
#[derive(Drop)]
pub enum Tree {
    /// A workflow.
    Workflow(Workflow),
    /// An action.
    Action(Action),
}

/// What a file is read as.
#[derive(Clone, Copy)]
pub enum FileKind {
    /// As a workflow.
    Workflow,
    /// As an action.
    Action,
}

impl Tree {
    /// What the file is read as.
    pub fn kind(&self) -> FileKind
        ensures { result ≡ kind_in self.now }
    {
        match self {
            Tree::Workflow(_) => FileKind::Workflow,
            Tree::Action(_) => FileKind::Action,
        }
    }

    /// The root of the file.
    pub fn root(&self) -> &Node
        ensures { view result.now ≡ root_of self.now }
    {
        match self {
            Tree::Workflow(workflow) => &workflow.root,
            Tree::Action(action) => &action.root,
        }
    }
}

/// Reads a document as a workflow, with the faults against the syntax of workflows (K1 to K7;
/// GitHub, "Workflow syntax for GitHub Actions"), in the order of the document. These are exactly
/// the faults that the table of the syntax gives ([`rule_of`](crate::rule_of)). The tree is kept
/// whatever is wrong with it.
///
/// An argument of a fault is a key as the file has it, control bytes included.
///
/// # Errors
///
/// `AllocError` if memory runs out.
#[tactic(auto, using(al_base::proofs::Growing::same_set))]
pub fn read_workflow(alloc: Global, doc: Doc) -> Result<(Workflow, Vec<Fault>), AllocError>
    ensures tree { IfOk result (λ r. view r.0.root ≡ view doc.root) }
    ensures list { IfOk result (λ r. r.1.items ≡ root_faults WorkflowShape (view doc.root)) }
    ensures set { IfOk result (λ r. SameSet r.1.items (root_faults WorkflowShape (view doc.root))) }
{
    let faults = shape_faults(alloc, Shape::Workflow, &doc.root)?;
    Ok((Workflow { root: doc.root }, faults))
}

/// Reads a document as an action, with the faults against the syntax of actions (K1 to K7; GitHub,
/// "Metadata syntax for GitHub Actions"), in the order of the document. These are exactly the
/// faults that the table of the syntax gives ([`rule_of`](crate::rule_of)). The tree is kept
/// whatever is wrong with it.
///
/// An argument of a fault is a key as the file has it, control bytes included.
///
/// # Errors
///
/// `AllocError` if memory runs out.
#[tactic(auto, using(al_base::proofs::Growing::same_set))]
pub fn read_action(alloc: Global, doc: Doc) -> Result<(Action, Vec<Fault>), AllocError>
    ensures tree { IfOk result (λ r. view r.0.root ≡ view doc.root) }
    ensures list { IfOk result (λ r. r.1.items ≡ root_faults ActionShape (view doc.root)) }
    ensures set { IfOk result (λ r. SameSet r.1.items (root_faults ActionShape (view doc.root))) }
{
    let faults = shape_faults(alloc, Shape::Action, &doc.root)?;
    Ok((Action { root: doc.root }, faults))
}

/// The section that the root of a file should be: [`Shape::Workflow`] or [`Shape::Action`].
pub fn root_shape(kind: FileKind) -> Shape
    ensures { result ≡ shape_of kind }
{
    match kind {
        FileKind::Workflow => Shape::Workflow,
        FileKind::Action => Shape::Action,
    }
}

/// The faults of a document against the syntax of workflows or of actions: those of its keys and
/// values, in report order, each once.
///
/// # Errors
///
/// `AllocError` if memory runs out.
pub fn document_faults(alloc: Global, kind: FileKind, doc: &Doc) -> Result<Vec<Fault>, AllocError>
    ensures { IfOk result (λ found. found.items ≡ key_faults kind (view doc.now.root)) }
{
    Ok(fault_list(shape_faults(alloc, root_shape(kind), &doc.root)?))
}
