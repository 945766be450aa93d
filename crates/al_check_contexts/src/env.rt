//! The types of contexts along a walk through a file.
ghost use Rattle.std.specs.Prelude.{◌≡◌, IfOk, OnOk, IsTrue};
ghost use Rattle.al_check_contexts.specs.Scopes as scopes;
ghost use Rattle.al_check_places.specs.Places.{place_of};
ghost use Rattle.al_check_places.specs.Positions.{section_view};
ghost use Rattle.al_check_contexts.specs.Answered.{known_of};
ghost use Rattle.al_check_contexts.specs.Environments.{HasMoved, IsAtPosition, file_of, types_at};
ghost use Rattle.al_check_contexts.specs.Table.{Shows, position};
ghost use Rattle.al_expr_typing.specs.Scopes.{IsShown, scope_view};
ghost use Rattle.al_yaml_tree.specs.View.{view};

use crate::basis::Basis;
use crate::caches::TypeCache;
use crate::job_lists::JobList;
use crate::jobs::JobTypes;
use crate::known::{Answers, Outputs};
use crate::scopes::available_at;
use crate::sections::{owner_at, section_types};
use crate::start::first_types;
use crate::steps::StepFields;
use al_check_objects::strategy_type;
use al_check_places::{Place, Section, Seen};
use al_expr_names::Available;
use al_expr_types::Types;
use al_expr_typing::Scope;
use al_tree::FileKind;
use al_yaml_tree::Node;
use std::alloc::{AllocError, Global};

/// A file: its kind, its tree, and what is known of the outputs of its calls.
#[derive(Clone, Copy)]
pub struct File<'a> {
    /// What the file is read as.
    pub kind: FileKind,
    /// The root of its tree.
    pub root: &'a Node,
    /// The outputs of its calls; with two empty lists nothing is known of them.
    pub known: Answers<'a>,
}

/// The types of contexts at a position, and the table that they refer to. From one position to the
/// next, only what changes is made anew.
#[derive(Drop)]
pub struct Env<'a> {
    basis: Basis<'a>,
    section: Section<'a>,
    seen: usize,
    /// The fields of `steps` in the section.
    steps: StepFields<'a>,
    job_types: JobTypes,
    /// The types of steps, by the position of their lists of outputs.
    step_types: TypeCache,
    /// The file's types. Expressions may add objects.
    pub types: Types<'a>,
    /// What an expression can refer to at the place of the last `go_to`.
    pub scope: Scope,
}

/// Whether two sections are the same.
fn is_same_section(a: Section<'_>, b: Section<'_>) -> bool
    ensures { IsTrue result → section_view a.entry ≡ section_view b.entry }
{
    match (a, b) {
        (Section::Apart, Section::Apart) | (Section::On, Section::On) => true,
        (Section::Job(x), Section::Job(y)) => x == y,
        _ => false,
    }
}

impl<'a> Env<'a> {
    /// The environment at the start of a file: outside its jobs, where no step is seen and nothing
    /// is available.
    ///
    /// # Errors
    ///
    /// `AllocError` if memory runs out.
    pub fn new(alloc: Global, file: File<'a>) -> Result<Env<'a>, AllocError>
        ensures at { IfOk result (λ e. IsAtPosition e) }
        ensures file { IfOk result (λ e. file_of e ≡ file.entry) }
    {
        let jobs = JobList::of(alloc, file.root)?;
        let outputs = Outputs::of(alloc, file.known)?;
        // The last position stands for unknown outputs.
        let positions = outputs.unknown_position().saturating_add(1);
        let job_types = JobTypes::new(alloc, positions, jobs.as_slice().len())?;
        let mut step_types = TypeCache::new(alloc, positions)?;
        let mut types = Types::new(alloc);
        let strategy = strategy_type(&mut types)?;
        let basis = Basis {
            file,
            jobs,
            outputs,
            strategy,
        };
        let owner = owner_at(file.kind, file.root, None);
        let mut steps = StepFields::of(&mut types, &basis, &mut step_types, owner)?;
        let none_seen = steps.first(&mut types, 0)?;
        let contexts = first_types(&mut types, file, none_seen)?;
        Ok(Env {
            basis,
            section: Section::Apart,
            seen: 0,
            steps,
            job_types,
            step_types,
            types,
            scope: Scope {
                types: contexts,
                available: Available {
                    contexts: &[],
                    special: &[],
                },
                in_run: false,
            },
        })
    }

    /// The allocator, for whatever else a check of the file allocates.
    pub fn alloc(&self) -> Global {
        self.types.alloc()
    }

    /// The file.
    pub fn file(&self) -> File<'a>
        ensures { result ≡ file_of self.now }
    {
        self.basis.file
    }

    /// Moves to a section: to where no step is seen, unless it is there already.
    #[tactic(auto, using(al_base::proofs::Growing::growth))]
    fn enter(&mut self, section: Section<'a>) -> Result<(), AllocError>
        requires { IsAtPosition self.old }
        ensures moved { OnOk result (HasMoved self.new self.old) }
        ensures same { OnOk result (section_view (self.new).section ≡ section_view section.entry) }
    {
        if is_same_section(self.section, section) {
            return Ok(());
        }
        let basis = &self.basis;
        let job = basis.jobs.job_of(section);
        let owner = owner_at(basis.file.kind, basis.file.root, job);
        let made = section_types(&mut self.types, basis, &mut self.job_types, section, job)?;
        let mut steps = StepFields::of(&mut self.types, basis, &mut self.step_types, owner)?;
        let none_seen = steps.first(&mut self.types, 0)?;
        self.scope.types.strategy = made.strategy;
        self.scope.types.needs = made.needs;
        self.scope.types.jobs = made.jobs;
        self.scope.types.matrix = made.matrix;
        self.scope.types.steps = none_seen;
        self.steps = steps;
        self.seen = 0;
        self.section = section;
        Ok(())
    }

    /// Moves to where these steps are seen, in the same section.
    fn see(&mut self, seen: Seen) -> Result<(), AllocError>
        requires { IsAtPosition self.old }
        ensures moved { OnOk result (HasMoved self.new self.old) }
        ensures shows { OnOk result (Shows (self.new).types (self.new).scope.types
            (types_at (file_of self.new) (position (section_view (self.old).section) seen))) }
    {
        let count = self.steps.seen_count(seen);
        if count == self.seen {
            return Ok(());
        }
        let steps = self.steps.first(&mut self.types, count)?;
        self.scope.types.steps = steps;
        self.seen = count;
        Ok(())
    }

    /// Moves to a place of the file: `scope` is then what an expression can refer to there. Only
    /// what changes is made anew, which is least if places come in the order of the file. Types
    /// made before stay valid. The place is one of [`places`](al_check_places::places), for the
    /// kind and the root of the file.
    ///
    /// # Requires
    ///
    /// The environment is as [`Env::new`] or the last `go_to` left it: it has the types of a
    /// position of the file. `types` may have more objects since.
    ///
    /// # Errors
    ///
    /// `AllocError` if memory runs out; the environment can't be used any more then.
    #[tactic(auto, using(crate::proofs::Environments::moved_further))]
    pub fn go_to(&mut self, place: Place<'a>) -> Result<(), AllocError>
        requires { IsAtPosition self.old }
        ensures moved { OnOk result (HasMoved self.new self.old) }
        ensures shown { OnOk result (IsShown (self.new).types (self.new).scope) }
        ensures scope { let f = file_of self.old in OnOk result
            (scope_view (self.new).types (self.new).scope
            ≡ scopes.scope_at f.kind (known_of f.known) (view f.root.now) (place_of place.entry)) }
    {
        self.enter(place.position.section)?;
        self.see(place.position.seen)?;
        let kind = self.basis.file.kind;
        self.scope.available = available_at(kind, place.available, place.is_condition);
        self.scope.in_run = place.is_script;
        Ok(())
    }
}
