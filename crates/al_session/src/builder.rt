//! Files that are read one after another, and checked once all of them are there.

ghost use Rattle.std.specs.Prelude.{◌≡◌, ◌≢◌, [], None, length, IfOk, OnOk, OnErr, IfErr};
ghost use Rattle.std.specs.Option.{option_copied, option_map};
ghost use Rattle.al_base.specs.Counted.{count_after};
ghost use Rattle.al_session_folder.specs.Folder.{bytes_at, put_refusal, refusal_or_memory};
ghost use Rattle.al_session_folder.specs.Folder.{with_file};
ghost use Rattle.al_session_folder.specs.Kept.{folder_of};
ghost use Rattle.al_lint.specs.Meaning.{IsUpTo};
ghost use Rattle.al_session.specs.Builder.{IsLoaded};
ghost use Rattle.al_session.specs.Private.Edits.{IsAllowed};
ghost use Rattle.al_session.specs.Session.{IsLinted, folder_in};

use crate::edit::{file_of, keep_file, set_faults};
use crate::indexed::IndexedFiles;
use crate::refused::put_refused;
use crate::session::Session;
use al_session_folder::{FolderView, Lint, Refused, Seed, Target, file_number, owned_path};
use std::alloc::{AllocError, Global};
use std::marker::Model;

/// Builds the session of a folder from its files.
///
/// Each file is read when it is put, and checked once, when the session is built. So it doesn't
/// matter whether a file is put before or after those it calls, whereas a session rechecks the
/// callers of each file that is put. As for a session, contracts see the folder and the linter's
/// two counts.
#[derive(Drop)]
pub struct SessionBuilder<L: Lint> {
    lint: L,
    kept: IndexedFiles<L::Unit, L::Iface>,
}

impl<L: Lint> Model for SessionBuilder<L> {
    ghost use Rattle.al_session.specs.Builder.{IsLoaded};
    ghost use Rattle.al_session_folder.specs.Kept.{folder_of};
    ghost use Rattle.al_session.specs.Session.{SessionState};

    ghost Value = { SessionState };

    ghost view = { λ s. record {
      folder = folder_of s.kept.files.entries;
      checks = L.checks_of s.lint;
      reads = L.reads_of s.lint;
    } };

    ghost invariant = { λ s. IsLoaded L.meaning L.is_unit s.kept };
}

impl<L: Lint> SessionBuilder<L> {
    /// A builder without files. Doesn't allocate; later calls allocate from `alloc`. Paths whose
    /// hashes are equal can be found by who knows this program: see `seeded`.
    pub fn new(alloc: Global, lint: L) -> SessionBuilder<L>
        ensures folder { result.folder ≡ [] }
        ensures checks { result.checks ≡ L.checks_of lint }
        ensures reads { result.reads ≡ L.reads_of lint }
    {
        SessionBuilder::seeded(alloc, lint, Seed::fixed())
    }

    /// A builder without files whose hashes of paths start with this seed: a random one if a
    /// stranger names the files.
    pub fn seeded(alloc: Global, lint: L, seed: Seed) -> SessionBuilder<L>
        ensures folder { result.folder ≡ [] }
        ensures checks { result.checks ≡ L.checks_of lint }
        ensures reads { result.reads ≡ L.reads_of lint }
    {
        SessionBuilder {
            lint,
            kept: IndexedFiles::new(alloc, seed),
        }
    }

    /// Whether the linter takes a file with this path. Doesn't allocate.
    pub fn accepts(&self, path: &str) -> bool
        ensures { result ≡ L.meaning.accepts path.now }
    {
        self.lint.accepts(path)
    }

    /// The bytes of a file; `None` if no file has this path. Doesn't allocate.
    pub fn bytes(&self, path: &str) -> Option<&[u8]>
        ensures { option_copied result ≡ bytes_at self.now.folder path.now }
    {
        self.kept.bytes(path)
    }

    /// The calls of a file, in order; `None` if no file has this path. Doesn't allocate.
    pub fn calls(&self, path: &str) -> Option<&[Target]>
        ensures { option_copied result
            ≡ option_map (L.meaning.calls path.now) (bytes_at self.now.folder path.now) }
    {
        let file = self.kept.files.get(path);
        file.map(|file| file.calls.targets.as_slice())
    }

    /// Sets the bytes of a file, which is new or replaces the one with its path, and reads it.
    /// Checks no file, as the linter counts: one that is made for one report may check a file as it
    /// reads it.
    ///
    /// # Errors
    ///
    /// The first of E1 to E4 that applies; if none does, E6 if memory ran out. The folder is then
    /// unchanged.
    pub fn put(&mut self, path: &str, bytes: Vec<u8>) -> Result<(), Refused>
        ensures accepted { OnOk result
            (put_refusal L.meaning self.old.folder path.now bytes.items ≡ None) }
        ensures folder { OnOk result
            (self.new.folder ≡ with_file self.old.folder path.now bytes.items) }
        ensures refused { IfErr result (λ refused.
            refused ≡ refusal_or_memory
            (put_refusal L.meaning self.old.folder path.now bytes.items)) }
        ensures as_before { OnErr result (self.new.folder ≡ self.old.folder) }
        ensures meter { self.new.checks ≡ self.old.checks }
        ensures reads { OnOk result (self.new.reads ≡ count_after self.old.reads 1) }
        ensures few_reads { IsUpTo self.old.reads self.new.reads 1 }
        ensures no_read { IfErr result
            (λ refused. refused ≢ Refused.Memory → self.new.reads ≡ self.old.reads) }
    {
        if let Some(refused) = put_refused(&self.lint, &self.kept.files, path, &bytes) {
            return Err(refused);
        }
        load_file(&mut self.lint, &mut self.kept, path, bytes).map_err(|_| Refused::Memory)
    }

    /// The session of these files. As the linter counts, checks each file once and reads none: one
    /// that is made for one report may read a file again to check it.
    ///
    /// # Errors
    ///
    /// `AllocError` if memory runs out. The files are then gone.
    pub fn build(self) -> Result<Session<L>, AllocError>
        ensures folder { IfOk result (λ session. session.folder ≡ self.folder) }
        ensures meter { IfOk result
            (λ session. session.checks ≡ count_after self.checks (length self.folder)) }
        ensures reads { IfOk result (λ session. session.reads ≡ self.reads) }
    {
        let SessionBuilder { mut lint, mut kept } = self;
        check_all(&mut lint, &mut kept)?;
        Ok(Session::of(lint, kept))
    }
}

// Reads a file and keeps it, without checking it. On failure only the count of reads changes.
fn load_file<L: Lint>(
    lint: &mut L,
    kept: &mut IndexedFiles<L::Unit, L::Iface>,
    path: &str,
    bytes: Vec<u8>,
) -> Result<(), AllocError>
    requires loaded { IsLoaded L.meaning L.is_unit kept.old }
    requires allowed { IsAllowed L.meaning (folder_in kept.old) path.now bytes.items }
    ensures loaded { IsLoaded L.meaning L.is_unit kept.new }
    ensures folder { OnOk result
        (folder_in kept.new ≡ with_file (folder_in kept.old) path.now bytes.items) }
    ensures as_before { OnErr result (kept.new.files.entries ≡ kept.old.files.entries) }
    ensures checks { L.checks_of lint.new ≡ L.checks_of lint.old }
    ensures reads { L.reads_of lint.new ≡ count_after (L.reads_of lint.old) 1 }
{
    let unit = lint.read(kept.alloc(), path, &bytes)?;
    let file = file_of(lint, path, bytes, unit, kept.seed())?;
    keep_file::<L>(kept, path, file)?;
    Ok(())
}

// Checks all files, and stores the faults of each.
fn check_all<L: Lint>(
    lint: &mut L,
    kept: &mut IndexedFiles<L::Unit, L::Iface>,
) -> Result<(), AllocError>
    requires { IsLoaded L.meaning L.is_unit kept.old }
    ensures linted { OnOk result (IsLinted L.meaning L.is_unit kept.new) }
    ensures folder { OnOk result (folder_in kept.new ≡ folder_in kept.old) }
    ensures checks { OnOk result
        (L.checks_of lint.new ≡ count_after (L.checks_of lint.old) (length (folder_in kept.old))) }
    ensures reads { L.reads_of lint.new ≡ L.reads_of lint.old }
{
    let mut paths = Vec::new(kept.alloc());
    for index in 0..kept.files.len() {
        let (name, _) = file_number(&kept.files, index);
        paths.push(owned_path(kept.alloc(), name.as_str())?)?;
    }
    let lists = FolderView::of(&kept.files).check_paths(lint, &paths)?;
    set_faults(&mut kept.files, &paths, lists);
    Ok(())
}
