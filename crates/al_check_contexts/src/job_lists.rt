//! The jobs of a workflow, by key.
ghost use Rattle.std.specs.Prelude.{◌≡◌, ◌<◌, IfOk, length, map, option_map, slice_get};
ghost use Rattle.al_base.specs.NamePlaces.{first_at, name_place, name_position, text_place};
ghost use Rattle.al_base.specs.NamePlaces.{text_position};
ghost use Rattle.al_base.specs.Names.{same_name};
ghost use Rattle.al_check_places.specs.Positions.{section_view};
ghost use Rattle.al_tree.specs.Keys.{key_of, keys_in};
ghost use Rattle.al_tree.specs.Values.{member_of};
ghost use Rattle.al_tree.specs.Files.{jobs_of};
ghost use Rattle.al_yaml_tree.specs.View.{view};
ghost use Rattle.al_check_contexts.specs.Contexts.{job_in};

use al_base::{NamePositions, TextPositions};
use al_check_places::Section;
use al_tree::{Member, key_texts, members_under};
use al_yaml_tree::Node;
use std::alloc::{AllocError, Global};

/// The jobs of a workflow. Finding one takes time logarithmic in their number.
#[derive(Drop)]
pub(crate) struct JobList<'a> {
    members: Vec<Member<'a>>,
    /// The first position of each key. Two jobs can have keys that differ only in ASCII case.
    keys: TextPositions<'a>,
    /// The first position of each key, ignoring ASCII case.
    names: NamePositions,
    ghost by_key: { text_position keys ≡ text_place (keys_in (map member_of members.items)) },
    ghost by_name: { name_position names ≡ name_place (keys_in (map member_of members.items)) },
}

impl<'a> JobList<'a> {
    /// The jobs of a workflow. Fails with `AllocError` when out of memory.
    pub(crate) fn of(alloc: Global, root: &'a Node) -> Result<JobList<'a>, AllocError>
        ensures { IfOk result (λ l. map member_of l.members.items ≡ jobs_of (view root.now)) }
    {
        let members = members_under(alloc, root, "jobs")?;
        let texts = key_texts(alloc, members.as_slice())?;
        let keys = TextPositions::of(alloc, texts.as_slice())?;
        let names = NamePositions::of(alloc, texts.as_slice())?;
        Ok(JobList {
            members,
            keys,
            names,
        })
    }

    /// The jobs in order.
    pub(crate) fn as_slice(&self) -> &[Member<'a>]
        ensures { map member_of result.now ≡ map member_of self.now.members.items }
    {
        self.members.as_slice()
    }

    /// The job at a position.
    pub(crate) fn job_at(&self, i: usize) -> Member<'a>
        requires { i < length self.now.members.items }
        ensures { slice_get (map member_of self.now.members.items) i ≡ Some (member_of result) }
    {
        self.members[i]
    }

    /// The job of a section.
    pub(crate) fn job_of(&self, section: Section<'_>) -> Option<Member<'a>>
        ensures { option_map member_of result
            ≡ job_in (map member_of self.now.members.items) (section_view section.entry) }
    {
        match section {
            Section::Apart | Section::On => None,
            Section::Job(key) => match self.keys.get(key) {
                Some(i) => Some(self.members[i]),
                None => None,
            },
        }
    }

    /// The position of the first job with a name, ignoring ASCII case. Fails with `AllocError` when
    /// out of memory.
    pub(crate) fn position_of(&self, name: &[u8]) -> Result<Option<usize>, AllocError>
        ensures { IfOk result (λ i. i ≡ first_at (λ j. same_name (key_of j) name.now)
            (map member_of self.now.members.items)) }
    {
        self.names.get(name)
    }
}
