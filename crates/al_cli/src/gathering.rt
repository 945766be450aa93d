//! The files that a run without a script lints: those that it is given, and those that they call.

ghost use Rattle.std.specs.Prelude.{◌≡◌, ◌<◌, ◌≤◌, [], IfErr, IfOk, IsErrAnd, OnOk, Ok, None};
ghost use Rattle.std.specs.Prelude.{length, map, string_bytes, true};
ghost use Rattle.std.specs.List.{AllByRecursion};
ghost use Rattle.std.specs.List.Sorted.{IsStrictlySortedBy};
ghost use Rattle.std.specs.Ordering.{nat_cmp};
ghost use Rattle.std.specs.Cmp.Lexicographic.{slice_cmp};
ghost use Rattle.al_base.specs.Limits.{largest_file, most_files};
ghost use Rattle.al_session.specs.Affected.{is_among};
ghost use Rattle.al_session.specs.Folder.{paths_of};
ghost use Rattle.al_cli.specs.Disk.{TellsListing};
ghost use Rattle.al_cli.specs.Private.Reasons.{IsFailure, IsRefusal, IsTooMany, TellsAlso};
ghost use Rattle.al_cli.specs.Private.Turns.{AreAmong, IsCalling, IsFoundAt, IsTakenAs};
ghost use Rattle.al_cli.specs.Private.Turns.{IsTakenIfThere, KeepsHeld};
ghost use Rattle.al_cli.specs.Taken.{AreAsked, AreGathered, AreHeld, AreInOrder, AreListedFiles};
ghost use Rattle.al_cli.specs.Taken.{IsGathered, called_by, each_once, owned_entry, path_named};

use crate::disk::{Disk, DiskError, Entry, SystemDisk, WORKFLOWS};
use crate::taken::TakenFiles;
use al_base::limits::MOST_FILES;
use al_base::{Path, path_fault, printable};
use al_check::Actions;
use al_cli_words::Words;
use al_session::{Refused, SessionBuilder, Target};
use std::alloc::{AllocError, AllocFailed, Global};
use std::collections::BTreeSet;
use std::random::RandomSource;
use std::rt::Files;
use thiserror::Error;

/// Files that were read but not yet checked.
pub type Loaded = SessionBuilder<Actions>;

/// What a run without a script lints, and what it skipped.
#[derive(Drop)]
pub struct Gathered {
    /// The files, read but not yet checked.
    pub files: Loaded,
    /// The paths at which links point outside the folder, in the order in which they were tried,
    /// with a `?` for each control character.
    pub outside: Vec<String>,
}

/// Why files were not gathered. A path is as a fatal line has it, with a `?` for each control
/// character.
#[derive(Debug, Drop, Error)]
pub enum Unread {
    /// The file or folder at this path can't be read.
    #[error("cannot read {0}")]
    Unreadable(String),
    /// The file at this path was refused.
    #[error("{0}: {1}")]
    Refused(String, Refused),
    /// Memory ran out.
    #[error("out of memory")]
    Memory,
}

impl From<AllocError> for Unread {
    fn from(_: AllocError) -> Unread {
        Unread::Memory
    }
}

impl<T: Drop> From<AllocFailed<T>> for Unread {
    fn from(_: AllocFailed<T>) -> Unread {
        Unread::Memory
    }
}

/// The files that a run without a script lints, each with its path and its bytes.
///
/// First come those that the command line names, in its order, or without any the workflows of the
/// folder in byte order of their paths; then, one after another, each file that those before it
/// call and that is there. Each path is in the list once. Only regular files are taken, with links
/// followed. A listed or called file whose symbolic links point outside the folder is skipped, and
/// can't be read if the command line names it.
///
/// [`lint_all`](crate::lint_all) accepts each of the files; the folder that they make there is the
/// one of [`load`]. The contract says how the files follow from one another; that they and their
/// bytes are those of the disk is only tested.
///
/// # Errors
///
/// [`Unread`], for the first file that can't be read or is refused, or if memory runs out. A path
/// is refused before it is read, a folder that lists more than 4,096 workflows before any of them
/// is, and of a file at most 1,048,577 bytes are asked for.
#[tactic(auto, using(crate::proofs::Turns::all_small))]
pub fn gather<R: Files + RandomSource + AllocGlobal + Clone + Drop>(
    rt: &R,
    alloc: Global,
    words: &Words,
) -> Result<Vec<(Path, Vec<u8>)>, Unread>
    ensures gathered { IfOk result (λ files. AreGathered (map owned_entry files.items)) }
    ensures ordered { IfOk result (λ files.
        AreInOrder None (map (λ file. file.now) words.now.files.items)
        (map owned_entry files.items)) }
    ensures small { IfOk result (λ files.
        AllByRecursion (λ e. length e.1 ≤ largest_file) (map owned_entry files.items)) }
{
    let gathering = gather_from(alloc, &mut SystemDisk::new(rt), words)?;
    Ok(gathering.files.into_list()?)
}

/// The files of a disk that such a run lints, as a builder that has read them and checked none, and
/// the paths that were skipped.
///
/// # Errors
///
/// Those of [`gather`].
pub fn load<D: Disk>(alloc: Global, disk: &mut D, words: &Words) -> Result<Gathered, Unread>
    ensures gathered { IfOk result (λ loaded.
        IsGathered (D.holds disk.old words.now.root.now)
        (map (λ file. file.now) words.now.files.items) loaded.files.folder) }
    ensures unchecked { IfOk result (λ loaded. loaded.files.checks ≡ 0) }
{
    let gathering = gather_from(alloc, disk, words)?;
    Ok(Gathered {
        files: gathering.files.into_loaded(),
        outside: gathering.outside,
    })
}

// Takes the files that the command line asks for, and then those that they call.
fn gather_from<D: Disk>(alloc: Global, disk: &mut D, words: &Words) -> Result<Gathering, Unread>
    ensures { IfOk result (λ gathering.
        AreInOrder (D.holds disk.old words.now.root.now)
        (map (λ file. file.now) words.now.files.items) gathering.files) }
{
    let mut gathering = Gathering {
        files: TakenFiles::new(alloc, disk.seed()),
        candidates: Candidates {
            waiting: BTreeSet::new(alloc),
            absent: BTreeSet::new(alloc),
        },
        outside: Vec::new(alloc),
    };
    gathering.take_asked(disk, words)?;
    gathering.take_called(disk, words.root)?;
    Ok(gathering)
}

// A path argument without its leading `./`.
fn without_dot(file: &str) -> &str
    ensures { result.now ≡ path_named file.now }
{
    file.strip_prefix("./").unwrap_or(file)
}

// The candidates of calls that aren't among the taken files.
#[derive(Drop)]
struct Candidates {
    // those that haven't been tried
    waiting: BTreeSet<String>,
    // those that have no file, or none in the folder
    absent: BTreeSet<String>,
}

impl Candidates {
    // Adds a path to those that wait, unless its file was taken or it was tried.
    fn add(&mut self, files: &TakenFiles, path: &Path) -> Result<(), Unread>
        requires waiting { AreAmong (called_by files.now) self.old.waiting.keys }
        requires called { is_among path.now (called_by files.now) ≡ true }
        ensures { OnOk result (AreAmong (called_by files.now) self.new.waiting.keys) }
    {
        let text = path.as_str();
        if files.has(text) || self.waiting.contains(text) || self.absent.contains(text) {
            return Ok(());
        }
        self.waiting.insert(String::from_str(files.alloc(), text)?)?;
        Ok(())
    }

    // Lets the candidates wait that the file of this number calls.
    fn add_calls(&mut self, files: &TakenFiles, number: usize) -> Result<(), Unread>
        requires { AreAmong (called_by files.now) self.old.waiting.keys }
        ensures { OnOk result (AreAmong (called_by files.now) self.new.waiting.keys) }
    {
        for call in files.calls(number) {
            match call {
                Target::Only(path) => self.add(files, path)?,
                Target::FirstOf(first, second) => {
                    self.add(files, first)?;
                    self.add(files, second)?;
                }
            }
        }
        Ok(())
    }
}

// What was found at a path.
#[derive(Clone, Copy)]
enum Found {
    // a file, now taken
    File,
    Absent,
    Outside,
}

// The files that were taken, and what is known of those that they call.
#[derive(Drop)]
struct Gathering {
    files: TakenFiles,
    candidates: Candidates,
    // the paths that lead out of the folder, in printable form
    outside: Vec<String>,
}

impl Gathering {
    // Takes the files that the command line names, or else those that the folder lists.
    fn take_asked<D: Disk>(&mut self, disk: &mut D, words: &Words) -> Result<(), Unread>
        requires files { (self.old).files ≡ [] }
        ensures asked { OnOk result (AreAsked (D.holds disk.old words.now.root.now)
            (map (λ file. file.now) words.now.files.items) (paths_of (self.new).files)) }
        ensures held { OnOk result
            (AreHeld (D.holds disk.old words.now.root.now) (self.new).files) }
        ensures stays { OnOk result
            (D.holds disk.new words.now.root.now ≡ D.holds disk.old words.now.root.now) }
        ensures waiting { OnOk result
            ((self.new).candidates.waiting.keys ≡ (self.old).candidates.waiting.keys) }
    {
        if words.files.is_empty() {
            return self.take_listed(disk, words.root);
        }
        self.take_named(disk, words.root, &words.files)
    }

    // Takes the files that the folder lists.
    fn take_listed<D: Disk>(&mut self, disk: &mut D, root: &str) -> Result<(), Unread>
        requires files { (self.old).files ≡ [] }
        ensures files { OnOk result
            (IsStrictlySortedBy (slice_cmp nat_cmp) (paths_of (self.new).files)) }
        ensures listed { OnOk result
            (AreListedFiles (D.holds disk.old root.now) (paths_of (self.new).files)) }
        ensures held { OnOk result (AreHeld (D.holds disk.old root.now) (self.new).files) }
        ensures stays { OnOk result (D.holds disk.new root.now ≡ D.holds disk.old root.now) }
        ensures waiting { OnOk result
            ((self.new).candidates.waiting.keys ≡ (self.old).candidates.waiting.keys) }
    {
        match disk.workflows(self.files.alloc(), root) {
            Ok(listed) => self.take_each(disk, root, &listed),
            Err(error) => Err(self.disk_failure(WORKFLOWS, error)),
        }
    }

    // Takes the files at the paths that the folder lists.
    fn take_each<D: Disk>(
        &mut self,
        disk: &mut D,
        root: &str,
        listed: &BTreeSet<String>,
    ) -> Result<(), Unread>
        requires files { (self.old).files ≡ [] }
        requires listed { TellsListing (D.holds disk.old root.now) (Ok listed.now) }
        ensures files { OnOk result
            (IsStrictlySortedBy (slice_cmp nat_cmp) (paths_of (self.new).files)) }
        ensures listed { OnOk result
            (AreListedFiles (D.holds disk.old root.now) (paths_of (self.new).files)) }
        ensures held { OnOk result (AreHeld (D.holds disk.old root.now) (self.new).files) }
        ensures stays { OnOk result (D.holds disk.new root.now ≡ D.holds disk.old root.now) }
        ensures waiting { OnOk result
            ((self.new).candidates.waiting.keys ≡ (self.old).candidates.waiting.keys) }
        ensures refused { most_files < length listed.now.keys
            → IsErrAnd result (IsTooMany listed.now.keys) }
        ensures unread { most_files < length listed.now.keys → disk.new ≡ disk.old }
    {
        self.check_count(listed)?;
        for path in listed {
            let path = path.as_str();
            match self.take(disk, root, path)? {
                Found::File => {}
                Found::Outside => self.pass_over(path)?,
                Found::Absent => return Err(self.disk_failure(path, DiskError::Unreadable)),
            }
        }
        Ok(())
    }

    // Refuses the first path for which those before it leave no room.
    fn check_count(&self, listed: &BTreeSet<String>) -> Result<(), Unread>
        ensures few { OnOk result (length listed.now.keys ≤ most_files) }
        ensures many { IfErr result (IsTooMany listed.now.keys) }
    {
        match listed.iter().nth(MOST_FILES) {
            Some(path) => Err(self.refusal(path.as_str(), Refused::Full)),
            None => Ok(()),
        }
    }

    // Takes the files that the command line names, which must exist.
    fn take_named<D: Disk>(
        &mut self,
        disk: &mut D,
        root: &str,
        files: &[&str],
    ) -> Result<(), Unread>
        requires files { (self.old).files ≡ [] }
        ensures files { OnOk result (paths_of (self.new).files
            ≡ each_once (map path_named (map (λ file. file.now) files.now))) }
        ensures held { OnOk result (AreHeld (D.holds disk.old root.now) (self.new).files) }
        ensures stays { OnOk result (D.holds disk.new root.now ≡ D.holds disk.old root.now) }
        ensures waiting { OnOk result
            ((self.new).candidates.waiting.keys ≡ (self.old).candidates.waiting.keys) }
    {
        for file in files {
            let path = without_dot(file);
            match self.take(disk, root, path)? {
                Found::File => {}
                _ => return Err(self.disk_failure(path, DiskError::Unreadable)),
            }
        }
        Ok(())
    }

    // Takes each called file that exists: each time the first path that hasn't been tried.
    fn take_called<D: Disk>(&mut self, disk: &mut D, root: &str) -> Result<(), Unread>
        requires waiting { (self.old).candidates.waiting.keys ≡ [] }
        requires held { AreHeld (D.holds disk.old root.now) (self.old).files }
        ensures calling { OnOk result (IsCalling (self.old).files (self.new).files
            (self.new).candidates.waiting.keys) }
        ensures held { OnOk result (AreHeld (D.holds disk.old root.now) (self.new).files) }
    {
        for number in 0..self.files.len() {
            self.candidates.add_calls(&self.files, number)?;
        }
        for _ in 0..u64::MAX {
            match self.candidates.waiting.pop_first() {
                Some(path) => self.take_candidate(disk, root, path)?,
                None => break,
            }
        }
        Ok(())
    }

    // Takes a called file, if it exists.
    fn take_candidate<D: Disk>(
        &mut self,
        disk: &mut D,
        root: &str,
        path: String,
    ) -> Result<(), Unread>
        requires waiting { AreAmong (called_by (self.old).files)
            (self.old).candidates.waiting.keys }
        requires called { is_among (string_bytes path) (called_by (self.old).files) ≡ true }
        ensures taken { OnOk result (IsTakenIfThere (string_bytes path)
            (self.old).files (self.new).files) }
        ensures held { OnOk result (KeepsHeld (D.holds disk.old root.now)
            (self.old).files (self.new).files) }
        ensures stays { OnOk result (D.holds disk.new root.now ≡ D.holds disk.old root.now) }
        ensures waiting { OnOk result (AreAmong (called_by (self.new).files)
            (self.new).candidates.waiting.keys) }
    {
        let number = self.files.len();
        match self.take(disk, root, path.as_str())? {
            Found::File => self.candidates.add_calls(&self.files, number),
            Found::Outside => {
                self.pass_over(path.as_str())?;
                Ok(())
            }
            Found::Absent => {
                self.candidates.absent.insert(path)?;
                Ok(())
            }
        }
    }

    // Skips a path whose symbolic links point outside the folder, for good.
    fn pass_over(&mut self, path: &str) -> Result<(), Unread>
        ensures told { OnOk result
            (TellsAlso (self.old).outside.items (self.new).outside.items path.now) }
        ensures files { (self.new).files ≡ (self.old).files }
        ensures waiting { (self.new).candidates.waiting.keys
            ≡ (self.old).candidates.waiting.keys }
    {
        let alloc = self.files.alloc();
        self.outside.push(printable(alloc, path)?)?;
        let path = String::from_str(alloc, path)?;
        self.candidates.absent.insert(path)?;
        Ok(())
    }

    // Takes a file unless it was taken before; returns whether it exists.
    fn take<D: Disk>(&mut self, disk: &mut D, root: &str, path: &str) -> Result<Found, Unread>
        ensures taken { IfOk result (λ found.
            IsTakenAs found path.now (self.old).files (self.new).files) }
        ensures told { IfOk result (λ found. IsFoundAt (D.holds disk.old root.now) path.now found) }
        ensures held { OnOk result (KeepsHeld (D.holds disk.old root.now)
            (self.old).files (self.new).files) }
        ensures stays { OnOk result (D.holds disk.new root.now ≡ D.holds disk.old root.now) }
        ensures waiting { (self.new).candidates.waiting.keys
            ≡ (self.old).candidates.waiting.keys }
    {
        if path_fault(path).is_some() {
            return Err(self.refusal(path, Refused::BadPath));
        }
        if !self.files.accepts(path) {
            return Err(self.refusal(path, Refused::NotAccepted));
        }
        if self.files.has(path) {
            return Ok(Found::File);
        }
        match disk.read(self.files.alloc(), root, path) {
            Ok(Entry::File(bytes)) => match self.files.put(path, bytes) {
                Ok(()) => Ok(Found::File),
                Err(reason) => Err(self.refusal(path, reason)),
            },
            Ok(Entry::Absent) => Ok(Found::Absent),
            Ok(Entry::Outside) => Ok(Found::Outside),
            Err(error) => Err(self.disk_failure(path, error)),
        }
    }

    fn disk_failure(&self, path: &str, error: DiskError) -> Unread
        ensures { IsFailure path.now error result }
    {
        match (error, printable(self.files.alloc(), path)) {
            (DiskError::Unreadable, Ok(path)) => Unread::Unreadable(path),
            _ => Unread::Memory,
        }
    }

    fn refusal(&self, path: &str, reason: Refused) -> Unread
        ensures { IsRefusal path.now reason result }
    {
        match (reason, printable(self.files.alloc(), path)) {
            (Refused::Memory, _) | (_, Err(_)) => Unread::Memory,
            (reason, Ok(path)) => Unread::Refused(path, reason),
        }
    }
}
