//! A folder of files, kept linted.

ghost use Rattle.std.specs.Prelude.{◌≡◌, ◌≢◌, ℕ, List, [], Err, None, Some, length, slice_get};
ghost use Rattle.std.specs.Prelude.{IfOk, OnOk, OnErr, IfErr, IfSome};
ghost use Rattle.std.specs.List.{AllByRecursion};
ghost use Rattle.std.specs.List.Sorted.{IsStrictlySortedBy};
ghost use Rattle.std.specs.Ordering.{nat_cmp};
ghost use Rattle.std.specs.Cmp.Lexicographic.{slice_cmp};
ghost use Rattle.std.specs.Io.KnownBytes.{Appends, Keeps};
ghost use Rattle.std.specs.Option.{option_copied};
ghost use Rattle.al_base.specs.Counted.{HasRisen, AppendsPrefix};
ghost use Rattle.al_base.specs.FaultLists.{fault_cmp};
ghost use Rattle.al_base.specs.Spans.{LiesIn};
ghost use Rattle.al_base.specs.Streams.{bytes_written, write_failures};
ghost use Rattle.al_session_folder.specs.Folder.{bytes_at, faults_at, put_refusal, delete_refusal};
ghost use Rattle.al_session_folder.specs.Folder.{with_file};
ghost use Rattle.al_session_folder.specs.Folder.{without_file, paths_of, refusal_or_memory};
ghost use Rattle.std.specs.Bool.{Decides};
ghost use Rattle.al_session_folder.specs.Affected.{affected_paths, is_among};
ghost use Rattle.al_lint.specs.Meaning.{IsUpTo};
ghost use Rattle.al_base.specs.Counted.{count_after};
ghost use Rattle.al_session_folder.specs.Missing.{is_missing, missing_in};
ghost use Rattle.al_session.specs.Report.{status_of, report_of};
ghost use Rattle.al_session_folder.specs.Printing.{AreCycleFaults};
ghost use Rattle.al_session.specs.EditLaws.{OthersKeepFaults, PutsInAnyOrder};
ghost use Rattle.al_session.specs.EditLaws.{SamePutChangesNothing};
ghost use Rattle.al_session.specs.Session.{IsLinted, ReadsForPut, folder_in};

use crate::calls::{find_graph, linked_files};
use crate::edit::{put_file, remove_file};
use crate::indexed::IndexedFiles;
use crate::refused::{delete_refused, put_refused};
use crate::report::{has_faults, write_files};
use al_base::{Fault, Output, Path, Stop};
use al_session_folder::{
    CallGraph, Lint, Paths, Refused, Seed, find_call_cycle_faults, has_call_cycles, join_files,
    missing_paths,
};
use al_text::Format;
use std::alloc::{AllocError, Global};
use std::io::Write;
use std::marker::Model;

/// The reply to an accepted edit.
#[derive(Drop)]
pub struct Edit {
    /// The files that were rechecked, in order of path, each once: those that are new, whose bytes
    /// changed, or that have a call whose answer changed.
    pub rechecked: Paths,
}

/// A folder of files, kept linted.
///
/// Contracts see its folder, a list of paths and bytes in order of path, and the linter's two
/// counts. What [`faults`](Session::faults), [`status`](Session::status),
/// [`report`](Session::report) and [`missing`](Session::missing) return depends on that folder
/// alone. Report and status also include the calls on a call cycle, which one edit can change for
/// files that it doesn't recheck.
#[derive(Drop)]
pub struct Session<L: Lint> {
    lint: L,
    kept: IndexedFiles<L::Unit, L::Iface>,
    // The graph of calls of these files, if it was computed since calls or paths last changed.
    calls: Option<CallGraph>,
}

impl<L: Lint> Model for Session<L> {
    ghost use Rattle.al_session_folder.specs.Kept.{folder_of};
    ghost use Rattle.al_session.specs.Session.{IsLinted, SessionState, folder_in};
    ghost use Rattle.al_session.specs.Private.Graphs.{IsGraphIf};

    ghost Value = { SessionState };

    ghost view = { λ s. record {
      folder = folder_of s.kept.files.entries;
      checks = L.checks_of s.lint;
      reads = L.reads_of s.lint;
    } };

    ghost invariant = { λ s. IsLinted L.meaning L.is_unit s.kept
        × IsGraphIf L.meaning (folder_in s.kept) s.calls };
}

impl<L: Lint> Session<L> {
    /// A session over the empty folder. Doesn't allocate; later calls allocate from `alloc`. Paths
    /// whose hashes are equal can be found by who knows this program: see `open_seeded`.
    pub fn open(alloc: Global, lint: L) -> Session<L>
        ensures folder { result.folder ≡ [] }
        ensures checks { result.checks ≡ L.checks_of lint }
        ensures reads { result.reads ≡ L.reads_of lint }
    {
        Session::open_seeded(alloc, lint, Seed::fixed())
    }

    /// A session over the empty folder whose hashes of paths start with this seed: a random one if
    /// a stranger names the files.
    pub fn open_seeded(alloc: Global, lint: L, seed: Seed) -> Session<L>
        ensures folder { result.folder ≡ [] }
        ensures checks { result.checks ≡ L.checks_of lint }
        ensures reads { result.reads ≡ L.reads_of lint }
    {
        Session::of(lint, IndexedFiles::new(alloc, seed))
    }

    /// A session of files that were read and checked. Doesn't allocate.
    pub(crate) fn of(lint: L, kept: IndexedFiles<L::Unit, L::Iface>) -> Session<L>
        requires { IsLinted L.meaning L.is_unit kept }
        ensures folder { result.folder ≡ folder_in kept }
        ensures checks { result.checks ≡ L.checks_of lint }
        ensures reads { result.reads ≡ L.reads_of lint }
    {
        Session {
            lint,
            kept,
            calls: None,
        }
    }

    /// The number of checks the linter has made, including those of refused edits. It saturates at
    /// 2^64 - 1. Doesn't allocate.
    pub fn meter(&self) -> u64
        ensures { result ≡ self.now.checks }
    {
        self.lint.checks()
    }

    /// The bytes of a file; `None` if no file has this path. Doesn't allocate.
    pub fn bytes(&self, path: &str) -> Option<&[u8]>
        ensures { option_copied result ≡ bytes_at self.now.folder path.now }
    {
        self.kept.bytes(path)
    }

    /// The faults of a file in report order, each once, with byte spans that lie in the file;
    /// `None` if no file has this path. Faults of call cycles aren't included. Doesn't allocate.
    pub fn faults(&self, path: &str) -> Option<&[Fault]>
        ensures value { option_copied result ≡ faults_at L.meaning self.now.folder path.now }
        ensures spans { IfSome result
            (λ faults. (b : List ℕ) → bytes_at self.now.folder path.now ≡ Some b
            → AllByRecursion (λ fault. LiesIn (length b) fault.span) faults.now) }
        ensures ordered { IfSome result (λ faults. IsStrictlySortedBy fault_cmp faults.now) }
    {
        match self.kept.files.get(path) {
            Some(file) => Some(file.faults.as_slice()),
            None => None,
        }
    }

    // Whether a file has exactly these bytes.
    fn has_bytes(&self, path: &str, bytes: &[u8]) -> bool
        ensures { Decides result (bytes_at self.now.folder path.now ≡ Some bytes.now) }
    {
        self.bytes(path) == Some(bytes)
    }

    /// Sets the bytes of a file, which is new or replaces the one with its path, and checks the
    /// files that this affects. Reads only the file that is put, and not even that if it already
    /// has these bytes.
    ///
    /// # Errors
    ///
    /// The first of E1 to E4 that applies; if none does, E6 if memory ran out. The folder and
    /// everything that depends on it are then unchanged. After E1 to E4 the meter is unchanged;
    /// after E6 it has risen by at most the number of files that the edit would have checked.
    pub fn put(&mut self, path: &str, bytes: &[u8]) -> Result<Edit, Refused>
        ensures accepted { OnOk result
            (put_refusal L.meaning self.old.folder path.now bytes.now ≡ None) }
        ensures folder { OnOk result
            (self.new.folder ≡ with_file self.old.folder path.now bytes.now) }
        ensures rechecked { IfOk result (λ edit.
            edit.rechecked ≡ affected_paths L.Iface.eq L.meaning self.old.folder self.new.folder) }
        ensures meter { IfOk result (λ edit.
            self.new.checks ≡ count_after self.old.checks (length edit.rechecked)) }
        ensures refused { IfErr result (λ refused.
            refused ≡ refusal_or_memory
            (put_refusal L.meaning self.old.folder path.now bytes.now)) }
        ensures as_before { OnErr result (self.new.folder ≡ self.old.folder) }
        ensures no_check { IfErr result
            (λ refused. refused ≢ Refused.Memory → self.new.checks ≡ self.old.checks) }
        ensures few_checks { OnErr result (IsUpTo self.old.checks self.new.checks
            (length (affected_paths L.Iface.eq L.meaning self.old.folder
            (with_file self.old.folder path.now bytes.now)))) }
        ensures reads { ReadsForPut L.meaning self.old.folder path.now bytes.now self.old.reads
            self.new.reads }
        ensures no_read { IfErr result
            (λ refused. refused ≢ Refused.Memory → self.new.reads ≡ self.old.reads) }
    {
        if let Some(refused) = put_refused(&self.lint, &self.kept.files, path, bytes) {
            return Err(refused);
        }
        if self.has_bytes(path, bytes) {
            return Ok(Edit {
                rechecked: Paths::new(Vec::new(self.kept.alloc())),
            });
        }
        match put_file(&mut self.lint, &mut self.kept, &mut self.calls, path, bytes) {
            Ok(rechecked) => Ok(Edit { rechecked }),
            Err(_) => Err(Refused::Memory),
        }
    }

    /// Removes a file from the folder, and checks the files that this affects. Reads no file.
    ///
    /// # Errors
    ///
    /// The first of E1, E2 and E5 that applies; if none does, E6 if memory ran out. The folder and
    /// everything that depends on it are then unchanged. After E1, E2 and E5 the meter is
    /// unchanged; after E6 it has risen by at most the number of files that the edit would have
    /// checked.
    pub fn delete(&mut self, path: &str) -> Result<Edit, Refused>
        ensures accepted { OnOk result (delete_refusal L.meaning self.old.folder path.now ≡ None) }
        ensures folder { OnOk result (self.new.folder ≡ without_file self.old.folder path.now) }
        ensures rechecked { IfOk result (λ edit.
            edit.rechecked ≡ affected_paths L.Iface.eq L.meaning self.old.folder self.new.folder) }
        ensures meter { IfOk result (λ edit.
            self.new.checks ≡ count_after self.old.checks (length edit.rechecked)) }
        ensures refused { IfErr result (λ refused.
            refused ≡ refusal_or_memory (delete_refusal L.meaning self.old.folder path.now)) }
        ensures as_before { OnErr result (self.new.folder ≡ self.old.folder) }
        ensures no_check { IfErr result
            (λ refused. refused ≢ Refused.Memory → self.new.checks ≡ self.old.checks) }
        ensures few_checks { OnErr result (IsUpTo self.old.checks self.new.checks
            (length (affected_paths L.Iface.eq L.meaning self.old.folder
            (without_file self.old.folder path.now)))) }
        ensures reads { self.new.reads ≡ self.old.reads }
    {
        if let Some(refused) = delete_refused(&self.lint, &self.kept.files, path) {
            return Err(refused);
        }
        // Removing the file changes the numbers of those after it.
        self.calls = None;
        match remove_file(&mut self.lint, &mut self.kept, path) {
            Ok(rechecked) => Ok(Edit { rechecked }),
            Err(_) => Err(Refused::Memory),
        }
    }

    /// 0 if no file has a fault and no call is on a call cycle, otherwise 1. Allocates only if no
    /// file has a fault and the graph of calls isn't known, and then keeps that graph.
    ///
    /// # Errors
    ///
    /// `AllocError` if memory runs out.
    pub fn status(&mut self) -> Result<u8, AllocError>
        ensures status { IfOk result (λ status. status ≡ status_of L.meaning self.old.folder) }
        ensures unchanged { self.new ≡ self.old }
    {
        if has_faults(&self.kept.files) {
            return Ok(1);
        }
        find_graph::<L>(&self.kept.files, &mut self.calls)?;
        let linked = linked_files::<L>(&self.kept.files, &self.calls);
        if has_call_cycles::<L>(&linked) {
            return Ok(1);
        }
        Ok(0)
    }

    /// Writes the faults of all files, including those of calls on a call cycle, file by file in
    /// order of path, each in this format. The graph of calls is computed if it isn't known, and
    /// kept for the next report. The folder and both counts are unchanged.
    ///
    /// # Errors
    ///
    /// [`Stop::WriteFault`] if the writer fails; it then holds a prefix of the report.
    /// [`Stop::Memory`] if memory runs out, which happens only before the first byte. No other stop
    /// is returned.
    pub fn report<W: Write>(&mut self, writer: &mut Output<W>, format: Format) -> Result<(), Stop>
        ensures all { OnOk result
            (Appends (bytes_written W.contents writer.old) (bytes_written W.contents writer.new)
            (report_of format L.meaning self.old.folder)) }
        ensures prefix { OnErr result
            (AppendsPrefix (bytes_written W.contents writer.old)
            (bytes_written W.contents writer.new)
            (report_of format L.meaning self.old.folder)) }
        ensures memory { result ≡ Err Stop.Memory
            → Keeps (bytes_written W.contents writer.old) (bytes_written W.contents writer.new) }
        ensures failures { result ≢ Err Stop.WriteFault
            → write_failures writer.new ≡ write_failures writer.old }
        ensures failed { result ≡ Err Stop.WriteFault
            → HasRisen (write_failures writer.old) (write_failures writer.new) }
        ensures no_read { (result ≢ Err Stop.ReadFault) × (result ≢ Err Stop.TooManyTurns) }
        ensures unchanged { self.new ≡ self.old }
    {
        find_graph::<L>(&self.kept.files, &mut self.calls)?;
        let linked = linked_files::<L>(&self.kept.files, &self.calls);
        let call_cycle_faults = find_call_cycle_faults(&self.lint, &linked)?;
        let joined = join_files::<L>(&self.kept.files, &call_cycle_faults)?;
        write_files::<L, W>(writer, &self.kept.files, &joined, format)
    }

    /// The path of the file with this number, from 0, in order of path; `None` if there are fewer
    /// files. Doesn't allocate.
    pub fn path_at(&self, number: usize) -> Option<&str>
        ensures { option_copied result ≡ slice_get (paths_of self.now.folder) number }
    {
        match self.kept.files.get_index(number) {
            Some((path, _)) => Some(path.as_str()),
            None => None,
        }
    }

    /// For each file, in order of path, the faults of its calls on a call cycle. The graph of calls
    /// is computed if it isn't known, and kept for the next report. The folder and both counts are
    /// unchanged.
    ///
    /// # Errors
    ///
    /// `AllocError` if memory runs out.
    pub fn call_cycle_faults(&mut self) -> Result<Vec<Vec<Fault>>, AllocError>
        ensures faults { IfOk result (λ all. AreCycleFaults L.meaning self.old.folder all.items) }
        ensures unchanged { self.new ≡ self.old }
    {
        find_graph::<L>(&self.kept.files, &mut self.calls)?;
        let linked = linked_files::<L>(&self.kept.files, &self.calls);
        find_call_cycle_faults(&self.lint, &linked)
    }

    /// The paths of all candidates of calls that aren't in the folder, in order of path, each once.
    ///
    /// # Errors
    ///
    /// `AllocError` if memory runs out.
    pub fn missing(&self) -> Result<Vec<Path>, AllocError>
        ensures paths { IfOk result
            (λ paths. paths.items ≡ missing_in L.meaning self.now.folder) }
        ensures sorted { IfOk result
            (λ paths. IsStrictlySortedBy (slice_cmp nat_cmp) paths.items) }
        ensures members { IfOk result (λ paths. (p : List ℕ)
            → is_among p paths.items ≡ is_missing L.meaning self.now.folder p) }
    {
        missing_paths::<L>(&self.kept.files)
    }

    /// A law: the files of the folder, and so the lines of a report, are in order of path, each
    /// path once. Does nothing at run time.
    pub fn sorted_paths(&self)
        ensures { IsStrictlySortedBy (slice_cmp nat_cmp) (paths_of self.now.folder) }
    {
        // The prover knows the invariant of the files once they are named.
        let _ = &self.kept.files;
    }

    /// Laws of edits. Does nothing at run time.
    ///
    /// Putting the bytes that are already there changes nothing and affects no file. Two files make
    /// the same folder, whichever is put first, so faults, report and status don't depend on the
    /// order. A file that a change doesn't affect keeps its faults.
    pub fn edit_laws(&self)
        ensures same { SamePutChangesNothing L.Iface.eq L.meaning self.now.folder }
        ensures order { PutsInAnyOrder self.now.folder }
        ensures others { OthersKeepFaults L.Iface.eq L.meaning self.now.folder }
    {
        let _ = &self.kept.files;
    }
}
