//! What a session requires of a linter, and why an edit of the folder is refused.

ghost use Rattle.std.specs.Prelude.{◌≡◌, ℕ, ◌≤◌, ◌<◌, List, Option, Some, length, map, slice_get};
ghost use Rattle.std.specs.Prelude.{true, IfOk};
ghost use Rattle.std.specs.Option.{option_copied};
ghost use Rattle.std.specs.List.{AllByRecursion};
ghost use Rattle.std.specs.List.Sorted.{IsStrictlySortedBy};
ghost use Rattle.al_base.specs.FaultLists.{fault_cmp};
ghost use Rattle.al_base.specs.Limits.{largest_file};
ghost use Rattle.al_base.specs.Spans.{LiesIn};
ghost use Rattle.al_lint.specs.Meaning.{AreAnswers, Meaning};
ghost use Rattle.al_lint.specs.Sites.{site_fault};
ghost use Rattle.al_base.specs.Counted.{count_after};

use crate::paths::owned_path;
use al_base::{Code, Fault, Path, Span};
use std::alloc::{AllocError, Global};
use thiserror::Error;

/// What a call names: candidate paths, of which the first that is in the folder answers the call.
#[derive(Drop)]
pub enum Target {
    /// This path alone.
    Only(Path),
    /// The first path, or if it isn't in the folder the second.
    FirstOf(Path, Path),
}

impl Target {
    /// A copy, with memory of its own.
    ///
    /// # Errors
    ///
    /// `AllocError` if memory runs out.
    pub fn copy(&self, alloc: Global) -> Result<Target, AllocError>
        ensures { IfOk result (λ copy. copy ≡ self.now) }
    {
        match self {
            Target::Only(path) => Ok(Target::Only(owned_path(alloc, path.as_str())?)),
            Target::FirstOf(first, second) => {
                let first = owned_path(alloc, first.as_str())?;
                let second = owned_path(alloc, second.as_str())?;
                Ok(Target::FirstOf(first, second))
            }
        }
    }
}

/// Where a call is in its file, and the fault to report if it is on a call cycle.
#[derive(Clone, Copy)]
pub struct Site<'a> {
    /// The code of that fault.
    pub code: Code,
    /// The call's span, which lies inside the file.
    pub span: Span,
    /// The text that names what is called: the fault's argument.
    pub text: &'a str,
}

/// Why an edit is refused, in the order in which the reasons are checked.
#[derive(Clone, Copy, Debug, Drop, PartialEq, Eq, Error)]
pub enum Refused {
    /// E1: the text isn't a path.
    #[error("no path of a folder (E1)")]
    BadPath,
    /// E2: the linter accepts no file with this path.
    #[error("no file of this path is linted (E2)")]
    NotAccepted,
    /// E3: the file has more than 1,048,576 bytes.
    #[error("more than 1,048,576 bytes (E3)")]
    TooLarge,
    /// E4: the folder has 4,096 files, none of them with this path.
    #[error("4,096 other files are there (E4)")]
    Full,
    /// E5: no file has this path.
    #[error("no such file (E5)")]
    NoSuchFile,
    /// E6: memory ran out.
    #[error("out of memory (E6)")]
    Memory,
}

/// A linter of files that may call one another.
///
/// Its [`Unit`](Lint::Unit) is the result of reading a file, its [`Iface`](Lint::Iface) the
/// interface that callers of a file see. The faults of a file depend only on its path, its bytes
/// and the interfaces that answer its calls.
///
/// An `impl` also gives its `meaning` as data, which contracts see: the paths that it takes, and
/// the calls, their sites, the interface and the faults of a file. Its methods are proved to return
/// just these, and laws hold of them: the faults and the sites of a file lie in it, its faults are
/// in report order, each once, and interfaces that compare equal are the same.
pub trait Lint: Drop {
    /// A file that was read.
    type Unit: Drop;

    /// What a file offers to its callers.
    type Iface: Eq + Drop;

    /// What this linter computes: which paths it accepts, and the calls, interface and faults of a
    /// file. It is the same for every value of the linter.
    ghost meaning: { Meaning Self.Iface };

    /// Whether a unit is the result of reading the file with this path and these bytes.
    ghost is_unit: { Self.Unit → List ℕ → List ℕ → Type 0 };

    /// How many checks were made; the count saturates.
    ghost checks_of: { Self → ℕ };

    /// How many files were read; the count saturates.
    ghost reads_of: { Self → ℕ };

    /// Whether the linter accepts a file with this path. Doesn't allocate.
    fn accepts(&self, path: &str) -> bool
        ensures { result ≡ meaning.accepts path.now };

    /// Reads a file. Counts as one read, even if it fails.
    ///
    /// # Requires
    ///
    /// At most 1,048,576 bytes.
    ///
    /// # Errors
    ///
    /// `AllocError` if memory runs out.
    fn read(&mut self, alloc: Global, path: &str, bytes: &[u8]) -> Result<Self::Unit, AllocError>
        requires small { length bytes.now ≤ largest_file }
        ensures unit { IfOk result (λ u. is_unit u path.now bytes.now) }
        ensures reads { reads_of self.new ≡ count_after (reads_of self.old) 1 }
        ensures checks { checks_of self.new ≡ checks_of self.old };

    /// What a file that was read as `unit` offers to its callers.
    ///
    /// # Errors
    ///
    /// `AllocError` if memory runs out.
    fn iface(&self, alloc: Global, path: &str, unit: &Self::Unit) -> Result<Self::Iface, AllocError>
        ensures { (b : List ℕ) → is_unit unit.now path.now b
            → IfOk result (λ i. i ≡ meaning.interface path.now b) };

    /// The calls of a file that was read as `unit`, in order.
    ///
    /// # Errors
    ///
    /// `AllocError` if memory runs out.
    fn calls(&self, alloc: Global, path: &str, unit: &Self::Unit) -> Result<Vec<Target>, AllocError>
        ensures { (b : List ℕ) → is_unit unit.now path.now b
            → IfOk result (λ ts. ts.items ≡ meaning.calls path.now b) };

    /// The faults of a file in the order of reports, each once. The answers are those of its calls,
    /// in order: the interface of the file that answers, or `None` if no candidate is in the
    /// folder. Counts as one check, even if it fails.
    ///
    /// # Requires
    ///
    /// At most 1,048,576 bytes, of which `unit` was read, with this path; as many answers as calls,
    /// and equal ones for calls with the same candidates.
    ///
    /// # Errors
    ///
    /// `AllocError` if memory runs out.
    fn check(
        &mut self,
        alloc: Global,
        path: &str,
        bytes: &[u8],
        unit: &Self::Unit,
        answers: &[Option<&Self::Iface>],
    ) -> Result<Vec<Fault>, AllocError>
        requires small { length bytes.now ≤ largest_file }
        requires unit { is_unit unit.now path.now bytes.now }
        requires answers { AreAnswers (meaning.calls path.now bytes.now)
            (map (λ a. option_copied a) answers.now) }
        ensures faults { IfOk result (λ fs. fs.items
            ≡ meaning.faults path.now bytes.now (map (λ a. option_copied a) answers.now)) }
        ensures checks { checks_of self.new ≡ count_after (checks_of self.old) 1 }
        ensures reads { reads_of self.new ≡ reads_of self.old };

    /// The site of a call, by its number in the order of [`calls`](Lint::calls), from 0. Doesn't
    /// allocate.
    ///
    /// # Requires
    ///
    /// `unit` was read from some file, and `call` is less than the number of its calls.
    fn site<'a>(&self, unit: &'a Self::Unit, call: usize) -> Site<'a>
        requires { (p : List ℕ) × (b : List ℕ) × is_unit unit.now p b
            × (call < length (meaning.calls p b)) }
        ensures { (p b : List ℕ) → is_unit unit.now p b
            → slice_get (meaning.sites p b) call ≡ Some (site_fault result) };

    /// How many checks were made so far; the count saturates at 2^64 - 1. Doesn't allocate.
    fn checks(&self) -> u64
        ensures { result ≡ checks_of self.now };

    /// How many files were read so far; the count saturates at 2^64 - 1. Doesn't allocate.
    fn reads(&self) -> u64
        ensures { result ≡ reads_of self.now };

    /// Interfaces that compare equal are equal.
    ghost exact: { (a b : Self.Iface) → Self.Iface.eq a b ≡ true → a ≡ b };

    /// Each fault of a file lies in the file, for every path, all bytes that a file can have, and
    /// all answers.
    ghost inside: { (p b : List ℕ) (given : List (Option Self.Iface)) → length b ≤ largest_file →
        AllByRecursion (λ fault. LiesIn (length b) fault.span) (meaning.faults p b given) };

    /// Each call of a file has one site, for every path and all bytes.
    ghost sited: { (p b : List ℕ) → length (meaning.sites p b) ≡ length (meaning.calls p b) };

    /// Each site lies in its file, for every path and all bytes that a file can have.
    ghost sites_inside: { (p b : List ℕ) → length b ≤ largest_file →
        AllByRecursion (λ site. LiesIn (length b) site.span) (meaning.sites p b) };

    /// The faults of a file are in the order of reports, each once, for every path, all bytes and
    /// all answers.
    ghost ordered: { (p b : List ℕ) (given : List (Option Self.Iface)) →
        IsStrictlySortedBy fault_cmp (meaning.faults p b given) };
}
