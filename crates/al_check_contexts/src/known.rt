//! What is known of the outputs of calls.
ghost use Rattle.std.specs.Prelude.{◌≡◌, IfOk, length, option_map};
ghost use Rattle.std.specs.Option.{option_copied};
ghost use Rattle.al_check_contexts.specs.Answered.{known_of};
ghost use Rattle.al_check_contexts.specs.Lookups.{known_by, list_at, lists_of};

use al_expr_types::NameList;
use std::alloc::{AllocError, Global};
use std::collections::BTreeMap;

/// What is known of the outputs of a call: of a job, by its key; of a step of a job, by the job's
/// key and the step's index; of a step of an action, by its index. Of several answers at one place
/// the first counts.
#[derive(Clone, Copy)]
pub struct Answer<'a> {
    /// The key of the job; `None` for a step of an action.
    pub job: Option<&'a [u8]>,
    /// The index of the step, from 0; `None` if the job itself calls.
    pub step: Option<usize>,
    /// The position of the names of the outputs in `Answers::lists`, from 0; `None` if nothing is
    /// known of them. A position without a list means the same.
    pub names: Option<usize>,
}

/// What is known of the outputs of the calls of a file. Calls with the same position in `lists`
/// have the same outputs, whose type is made once.
#[derive(Clone, Copy)]
pub struct Answers<'a> {
    /// The answers; only the order of those at the same place matters.
    pub answers: &'a [Answer<'a>],
    /// The lists of names to which the positions in answers refer.
    pub lists: &'a [&'a NameList],
}

/// What is known from answers, by the place of the call.
#[derive(Drop)]
pub(crate) struct Outputs<'a> {
    /// The positions of the names in `lists`.
    positions: BTreeMap<(Option<&'a [u8]>, Option<usize>), Option<usize>>,
    lists: &'a [&'a NameList],
}

impl<'a> Outputs<'a> {
    /// What is known from these answers. Fails with `AllocError` when out of memory.
    pub(crate) fn of(alloc: Global, known: Answers<'a>) -> Result<Outputs<'a>, AllocError>
        ensures { IfOk result (λ o. known_by o ≡ known_of known.entry) }
    {
        let mut positions = BTreeMap::new(alloc);
        let mut rest = known.answers.len();
        while rest > 0 {
            rest -= 1;
            let answer = known.answers[rest];
            positions.insert((answer.job, answer.step), answer.names)?;
        }
        Ok(Outputs {
            positions,
            lists: known.lists,
        })
    }

    /// The number of lists, which serves as the position of unknown outputs.
    pub(crate) fn unknown_position(&self) -> usize
        ensures { result ≡ length (lists_of self.now) }
    {
        self.lists.len()
    }

    /// The position of the list of the outputs of a call, or `unknown`. Calls with the same
    /// position have the same outputs.
    pub(crate) fn position(&self, job: Option<&'a [u8]>, step: Option<usize>) -> usize
        ensures { list_at self.now result ≡ known_by self.now (option_copied job.entry) step }
    {
        let found = self.positions.get(&(job, step)).copied();
        found.flatten().unwrap_or(self.unknown_position())
    }

    /// The list of names at a position.
    pub(crate) fn list(&self, position: usize) -> Option<&'a NameList>
        ensures { option_map (λ l. l.now) result ≡ list_at self.now position }
    {
        self.lists.get(position).copied()
    }
}
