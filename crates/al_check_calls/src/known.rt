//! What is known of outputs from the answers of calls.
ghost use Rattle.std.specs.Prelude.{◌≡◌, map, is_some, IfOk};
ghost use Rattle.std.specs.Option.{option_copied};
ghost use Rattle.al_check_calls.specs.Outputs.{called_outputs, known_from_calls};
ghost use Rattle.al_check_calls.specs.AnswerViews.{answered_of, outputs_known};
ghost use Rattle.al_check_contexts.specs.Answered.{known_of};
ghost use Rattle.al_check_calls.specs.Private.KnownLists.{ArePlaced, Naming, Takes};
ghost use Rattle.al_check_calls.specs.Preconditions.{AreToldByUses};
ghost use Rattle.al_yaml_tree.specs.View.{view};

use crate::answers::{Answered, called_signature};
use crate::reports::uses_text;
use al_check_contexts::{Answer, Answers, File};
use al_check_interfaces::{NameList, Role, Site};
use al_tree::FileKind;
use al_yaml_tree::Node;
use std::alloc::{AllocError, Global};
use std::collections::BTreeMap;

/// The names of the outputs of the step or job that calls, by its answer: those of a composite
/// action for a step, those of a callable workflow for a job. `None` if nothing is known of them.
fn outputs_of<'a>(answered: Answered<'a>) -> Option<&'a NameList>
    ensures { option_copied result ≡ called_outputs (answered_of answered.entry) }
{
    let signature = called_signature(answered)?;
    // The code of an action that isn't composite can set outputs that aren't declared.
    (signature.role != Role::Action).then_some(&signature.outputs)
}

/// The lists of names of the outputs of calls. Steps that call by the same text share a list, and
/// so do jobs.
#[derive(Drop)]
struct Lists<'a> {
    /// The positions of the lists, by whether a step calls, and by which text.
    positions: BTreeMap<(bool, &'a [u8]), usize>,
    lists: Vec<&'a NameList>,
}

impl<'a> Lists<'a> {
    fn new(alloc: Global) -> Lists<'a>
        ensures { (naming : Naming) → ArePlaced naming result }
    {
        Lists {
            positions: BTreeMap::new(alloc),
            lists: Vec::new(alloc),
        }
    }

    /// The position of the outputs of a call; `None` if nothing is known of them. Fails with
    /// `AllocError` when out of memory.
    fn position(&mut self, answered: Answered<'a>) -> Result<Option<usize>, AllocError>
        ensures { let a = answered_of answered.entry in IfOk result
            (λ position. Takes self.old self.new (is_some a.call.site.step) a.call.text
            (called_outputs a) position) }
    {
        let Some(names) = outputs_of(answered) else {
            return Ok(None);
        };
        let key = (answered.call.site.step.is_some(), uses_text(answered.call));
        if let Some(known) = self.positions.get(&key) {
            return Ok(Some(*known));
        }
        let position = self.lists.len();
        self.lists.push(names)?;
        self.positions.insert(key, position)?;
        Ok(Some(position))
    }
}

/// What is known of the outputs of the calls of a file.
#[derive(Drop)]
pub struct KnownOutputs<'a> {
    answers: Vec<Answer<'a>>,
    lists: Lists<'a>,
}

impl KnownOutputs<'_> {
    /// The file of the calls, given its kind and its root, with what is known.
    pub fn file<'k>(&'k self, kind: FileKind, root: &'k Node) -> File<'k>
        ensures kind { result.kind ≡ kind }
        ensures root { view result.root.now ≡ view root.now }
        ensures known { known_of result.known ≡ outputs_known self.now }
    {
        let answers = self.answers.as_slice();
        let lists = self.lists.lists.as_slice();
        let known = Answers { answers, lists };
        File { kind, root, known }
    }
}

/// What is known of the outputs of some calls from their answers. Steps, or jobs, that call by the
/// same text have the same answer, and so their outputs are listed once.
///
/// Fails with `AllocError` when out of memory.
pub fn known_outputs<'a>(
    alloc: Global,
    answered: &[Answered<'a>],
) -> Result<KnownOutputs<'a>, AllocError>
    requires { AreToldByUses (map answered_of answered.now) }
    ensures { IfOk result
        (λ known. outputs_known known ≡ known_from_calls (map answered_of answered.now)) }
{
    let mut lists = Lists::new(alloc);
    let mut answers = Vec::new(alloc);
    for one in answered {
        let names = lists.position(*one)?;
        let Site { job, step, .. } = one.call.site;
        answers.push(Answer { job, step, names })?;
    }
    Ok(KnownOutputs { answers, lists })
}
