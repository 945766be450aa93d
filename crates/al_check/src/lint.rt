//! The linter, as an `impl Lint` for sessions.
ghost use Rattle.std.specs.Prelude.{◌≡◌, Option};
ghost use Rattle.al_tree.specs.Kinds.{file_kind};
ghost use Rattle.al_check.specs.Linting.{linting};
ghost use Rattle.al_check.specs.Units.{IsUnit};
ghost use Rattle.al_check_interfaces.proofs.Exact.{exact};
ghost use Rattle.al_check.specs.Proofs.Laws.{each_sited, faults_inside, faults_ordered};
ghost use Rattle.al_check.specs.Proofs.Laws.{sites_inside};

use crate::files::{Source, file_faults, file_interface, read_file};
use crate::units::{Unit, brief_of, calls_of, check_alone};
use al_base::{Fault, add_copies};
use al_check_interfaces::Interface;
use al_lint::{Lint, Site, Target};
use al_tree::{file_kind, is_action, is_workflow};
use std::alloc::{AllocError, Global};

// A linter for one report keeps the trees of files up to this many bytes in total.
const KEPT_BYTES: usize = 2_097_152;

// It keeps the faults of a file beside the report if there are at most this many.
const KEPT_FAULTS: usize = 1_024;

/// The linter of workflows and actions, with its counts of reads and checks. It is used by a
/// session or a builder of `al_session`, or through its methods of [`Lint`]: `read` a file, then
/// `check` it with the interfaces that answer its calls.
#[derive(Drop)]
pub struct Actions {
    checks: u64,
    reads: u64,
    // The bytes of files whose trees may still be kept; `None` if all trees are kept.
    room: Option<usize>,
}

impl Actions {
    /// A linter that has read and checked nothing. It keeps everything it reads, as a session that
    /// takes edits needs. Doesn't allocate.
    pub fn new() -> Actions
        ensures checks { result.checks ≡ 0 }
        ensures reads { result.reads ≡ 0 }
    {
        Actions {
            checks: 0,
            reads: 0,
            room: None,
        }
    }

    /// A linter that has read and checked nothing, for one report on a folder. It checks a file
    /// that calls no file in the folder when it reads it, and keeps no tree of it, but its faults,
    /// up to 1,024. Of the first other files with at most 1,024 faults that depend on no other file
    /// it keeps the trees, up to 2,097,152 bytes of files. Of all others it keeps only what a
    /// report and their callers need, and reads them again to check them; these reads aren't
    /// counted. Doesn't allocate.
    pub fn for_one_report() -> Actions
        ensures checks { result.checks ≡ 0 }
        ensures reads { result.reads ≡ 0 }
    {
        Actions {
            checks: 0,
            reads: 0,
            room: Some(KEPT_BYTES),
        }
    }

    // Whether the tree of a file with this many bytes is kept; if so, they are subtracted from the
    // remaining room.
    fn keeps_tree(&mut self, bytes: usize) -> bool
        ensures checks { self.new.checks ≡ self.old.checks }
        ensures reads { self.new.reads ≡ self.old.reads }
    {
        let Some(room) = self.room else {
            return true;
        };
        if bytes > room {
            return false;
        }
        self.room = Some(room - bytes);
        true
    }
}

impl Lint for Actions {
    type Unit = Unit;

    type Iface = Interface;

    ghost meaning = { linting };

    ghost is_unit = { λ unit path bytes. IsUnit unit (file_kind path) bytes };

    ghost checks_of = { λ lint. lint.checks };

    ghost reads_of = { λ lint. lint.reads };

    fn accepts(&self, path: &str) -> bool {
        is_workflow(path.as_bytes()) || is_action(path.as_bytes())
    }

    fn read(&mut self, alloc: Global, path: &str, bytes: &[u8]) -> Result<Unit, AllocError> {
        self.reads = self.reads.saturating_add(1);
        let kind = file_kind(path.as_bytes());
        let source = Source { kind, bytes };
        let file = read_file(alloc, source)?;
        if self.room.is_none() {
            return Ok(Unit::Whole(file));
        }
        if file.calls.is_empty() {
            let checked = check_alone(alloc, source, &file)?;
            if checked.faults.len() <= KEPT_FAULTS {
                return Ok(Unit::Checked(checked));
            }
        }
        if file.own.len() <= KEPT_FAULTS && self.keeps_tree(bytes.len()) {
            return Ok(Unit::Whole(file));
        }
        Ok(Unit::Brief(brief_of(alloc, file)?))
    }

    fn iface(&self, alloc: Global, path: &str, unit: &Unit) -> Result<Interface, AllocError> {
        match unit {
            Unit::Whole(file) => file_interface(alloc, file),
            Unit::Brief(brief) => brief.interface.copy(alloc),
            Unit::Checked(checked) => checked.interface.copy(alloc),
        }
    }

    fn calls(&self, alloc: Global, path: &str, unit: &Unit) -> Result<Vec<Target>, AllocError> {
        let mut targets = Vec::new(alloc);
        for call in calls_of(unit) {
            targets.push(call.target.copy(alloc)?)?;
        }
        Ok(targets)
    }

    fn check(
        &mut self,
        alloc: Global,
        path: &str,
        bytes: &[u8],
        unit: &Unit,
        answers: &[Option<&Interface>],
    ) -> Result<Vec<Fault>, AllocError> {
        self.checks = self.checks.saturating_add(1);
        let kind = file_kind(path.as_bytes());
        let source = Source { kind, bytes };
        match unit {
            Unit::Whole(file) => file_faults(alloc, source, file, answers),
            Unit::Brief(_) => {
                let file = read_file(alloc, source)?;
                file_faults(alloc, source, &file, answers)
            }
            Unit::Checked(checked) => {
                let mut faults = Vec::new(alloc);
                add_copies(alloc, &checked.faults, &mut faults)?;
                Ok(faults)
            }
        }
    }

    fn site<'a>(&self, unit: &'a Unit, call: usize) -> Site<'a> {
        let fault = &calls_of(unit)[call].fault;
        Site {
            code: fault.code,
            span: fault.span,
            text: fault.args.first().unwrap_or(""),
        }
    }

    fn checks(&self) -> u64 {
        self.checks
    }

    fn reads(&self) -> u64 {
        self.reads
    }

    ghost exact = { exact };

    ghost inside = { λ path bytes answers small. faults_inside (file_kind path) bytes answers small };

    ghost ordered = { λ path bytes answers. faults_ordered (file_kind path) bytes answers };

    ghost sited = { λ path bytes. each_sited (file_kind path) bytes };

    ghost sites_inside = { λ path bytes small. sites_inside (file_kind path) bytes };
}
