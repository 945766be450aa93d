//! Where faults go as they are found.

ghost use Rattle.std.specs.Prelude.{◌≡◌, [], ◌∷◌, ◌++◌, if◌then◌else◌, is_ok, OnOk};
ghost use Rattle.std.specs.Str.Lossy.{utf8_lossy};
ghost use Rattle.al_base.specs.Sink.{fault_from};

use crate::args::Args;
use crate::codes::Code;
use crate::faults::{Fault, Span};
use std::alloc::{AllocError, Global};
use std::marker::Model;

/// The faults found so far, in the order in which they were found, with the allocator for more.
/// Contracts see the list.
///
/// A report that fails leaves the sink with an unspecified content: its maker drops it, and the
/// list that the faults were meant for is unchanged.
#[derive(Drop)]
pub struct FaultSink {
    alloc: Global,
    faults: Vec<Fault>,
}

impl Model for FaultSink {
    ghost use Rattle.std.specs.Prelude.{List};
    ghost use Rattle.al_base.specs.declared.faults.Fault.{Fault};

    ghost Value = { List Fault };

    ghost view = { λ s. s.faults.items };
}

impl FaultSink {
    /// An empty sink, which allocates its faults by `alloc`. Doesn't allocate.
    pub fn new(alloc: Global) -> FaultSink
        ensures { result ≡ [] }
    {
        FaultSink {
            alloc,
            faults: Vec::new(alloc),
        }
    }

    /// The allocator of the faults, for whatever else a check allocates.
    pub fn alloc(&self) -> Global {
        self.alloc
    }

    /// Adds a fault.
    ///
    /// # Errors
    ///
    /// `AllocError` if memory runs out.
    pub fn push(&mut self, fault: Fault) -> Result<(), AllocError>
        ensures { OnOk result (self.new ≡ self.old ++ fault ∷ []) }
    {
        self.faults.push(fault)?;
        Ok(())
    }

    /// Adds a fault whose message names these texts.
    ///
    /// # Errors
    ///
    /// `AllocError` if memory runs out.
    pub fn report(&mut self, span: Span, code: Code, args: Args) -> Result<(), AllocError>
        ensures { OnOk result (self.new ≡ self.old ++ fault_from span code args ∷ []) }
    {
        self.push(Fault { span, code, args })
    }

    /// Adds a fault whose message names no text.
    ///
    /// # Errors
    ///
    /// `AllocError` if memory runs out.
    pub fn report_plain(&mut self, span: Span, code: Code) -> Result<(), AllocError>
        ensures { OnOk result (self.new ≡ self.old ++ fault_from span code [] ∷ []) }
    {
        self.report(span, code, Args::none())
    }

    /// Adds a fault whose message names one text. Bytes of it that aren't UTF-8 become U+FFFD.
    ///
    /// # Errors
    ///
    /// `AllocError` if memory runs out.
    pub fn report_text(&mut self, span: Span, code: Code, text: &[u8]) -> Result<(), AllocError>
        ensures { OnOk result
            (self.new ≡ self.old ++ fault_from span code (utf8_lossy text.now ∷ []) ∷ []) }
    {
        let args = Args::one_lossy(self.alloc, text)?;
        self.report(span, code, args)
    }

    /// Adds a fault whose message names two texts, in this order. Bytes of them that aren't UTF-8
    /// become U+FFFD.
    ///
    /// # Errors
    ///
    /// `AllocError` if memory runs out.
    pub fn report_two(
        &mut self,
        span: Span,
        code: Code,
        first: &[u8],
        second: &[u8],
    ) -> Result<(), AllocError>
        ensures { OnOk result
            (self.new
            ≡ self.old ++ fault_from span code (utf8_lossy first.now ∷ utf8_lossy second.now ∷ [])
            ∷ []) }
    {
        let args = Args::two_lossy(self.alloc, first, second)?;
        self.report(span, code, args)
    }

    /// The faults. Doesn't allocate.
    pub fn into_faults(self) -> Vec<Fault>
        ensures { result.items ≡ self }
    {
        self.faults
    }

    /// Appends the faults to a list.
    ///
    /// # Errors
    ///
    /// `AllocError` if memory runs out; the list is then unchanged.
    pub fn append_to(mut self, out: &mut Vec<Fault>) -> Result<(), AllocError>
        ensures { out.new.items ≡ (if is_ok result then out.old.items ++ self else out.old.items) }
    {
        out.append(&mut self.faults)
    }
}
