//! The rules of a single file.

ghost use Rattle.al_base.specs.Growth.{BeginsWith, SameSet};
ghost use Rattle.al_rules.specs.Rules.{rule_faults};
ghost use Rattle.al_tree.specs.Files.{kind_in, root_of};
ghost use Rattle.std.specs.Prelude.{◌++◌, OnOk};

use crate::actions::check_action;
use crate::workflows::check_workflow;
use al_base::{Fault, FaultSink};
use al_tree::Tree;
use std::alloc::{AllocError, Global};

/// Adds to a list the faults of a workflow or an action by the rules of a single file, G1 to G22,
/// in no particular order. Their spans are byte offsets of the file, and their arguments texts of
/// the file, control bytes included. `fault_list` of `al_text` sorts the list and removes
/// repetitions.
///
/// The rules are those of GitHub's pages "Workflow syntax for GitHub Actions", "Events that trigger
/// workflows" and "Metadata syntax for GitHub Actions". Keys and values of the wrong kind are no
/// fault here: `read_workflow` and `read_action` of `al_tree` give those.
///
/// # Errors
///
/// `AllocError` if memory runs out. The list then still begins with what it held before.
#[tactic(auto, using(al_base::proofs::Growing::growth))]
pub fn rules(alloc: Global, tree: &Tree, out: &mut Vec<Fault>) -> Result<(), AllocError>
    ensures rules { OnOk result (SameSet out.new.items
        (out.old.items ++ rule_faults (kind_in tree.now) (root_of tree.now))) }
    ensures begins { BeginsWith out.new.items out.old.items }
{
    let mut faults = FaultSink::new(alloc);
    match tree {
        Tree::Workflow(workflow) => check_workflow(&workflow.root, &mut faults)?,
        Tree::Action(action) => check_action(&action.root, &mut faults)?,
    }
    faults.append_to(out)?;
    Ok(())
}
