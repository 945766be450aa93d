//! The texts that a fault's message names.
ghost use Rattle.std.specs.Prelude.{◌≡◌, [], ◌∷◌, None, map, slice_get, string_bytes, IfOk, IsTrue};
ghost use Rattle.std.specs.Option.{option_copied};
ghost use Rattle.std.specs.Cmp.Rules.{comparing};
ghost use Rattle.std.specs.Str.Lossy.{utf8_lossy};
ghost use Rattle.std.proofs.Common.{rules};
ghost use Rattle.al_base.specs.Printable.{printable};

use crate::controls::{first_control, printable};
use std::alloc::{AllocError, Global};
use std::cmp::Ordering;
use std::marker::Model;

/// The texts that a fault's message names, at most two, each in UTF-8. Contracts see a list of byte
/// lists.
///
/// They take one allocation, and none where there is no text: a report can have millions of faults.
#[derive(Drop)]
pub struct Args {
    texts: Texts,
}

/// How the texts are stored. Two share one string; the number is the byte at which the second
/// begins.
#[derive(Drop)]
enum Texts {
    None,
    One(String),
    Two(String, usize),
}

impl Model for Args {
    ghost use Rattle.std.specs.Prelude.{ℕ, List};
    ghost use Rattle.al_base.specs.Private.JoinedTexts.{texts_of, IsCut};

    ghost Value = { List (List ℕ) };

    ghost view = { λ a. texts_of a.texts };

    ghost invariant = { λ a. IsCut a.texts };
}

impl Args {
    /// No texts. Doesn't allocate.
    pub fn none() -> Args
        ensures { result ≡ [] }
    {
        Args { texts: Texts::None }
    }

    /// One text. Doesn't allocate.
    pub fn one(text: String) -> Args
        ensures { result ≡ string_bytes text ∷ [] }
    {
        Args {
            texts: Texts::One(text),
        }
    }

    /// Copies of two texts, in the order in which the message names them.
    ///
    /// # Errors
    ///
    /// `AllocError` if memory runs out.
    pub fn two(alloc: Global, first: &str, second: &str) -> Result<Args, AllocError>
        ensures { IfOk result (λ args. args ≡ first.now ∷ second.now ∷ []) }
    {
        let mut text = String::with_capacity(alloc, first.len().saturating_add(second.len()))?;
        text.push_str(first)?;
        text.push_str(second)?;
        Ok(Args {
            texts: Texts::Two(text, first.len()),
        })
    }

    /// A copy of one text. Bytes of it that aren't UTF-8 become U+FFFD.
    ///
    /// # Errors
    ///
    /// `AllocError` if memory runs out.
    pub fn one_lossy(alloc: Global, text: &[u8]) -> Result<Args, AllocError>
        ensures { IfOk result (λ args. args ≡ utf8_lossy text.now ∷ []) }
    {
        Ok(Args::one(String::from_utf8_lossy(alloc, text)?))
    }

    /// Like [`Args::two`], but bytes of the texts that aren't UTF-8 become U+FFFD.
    ///
    /// # Errors
    ///
    /// `AllocError` if memory runs out.
    pub fn two_lossy(alloc: Global, first: &[u8], second: &[u8]) -> Result<Args, AllocError>
        ensures { IfOk result (λ args. args ≡ utf8_lossy first.now ∷ utf8_lossy second.now ∷ []) }
    {
        match (str::from_utf8(first), str::from_utf8(second)) {
            (Ok(first), Ok(second)) => Args::two(alloc, first, second),
            _ => {
                let first = String::from_utf8_lossy(alloc, first)?;
                let second = String::from_utf8_lossy(alloc, second)?;
                Args::two(alloc, first.as_str(), second.as_str())
            }
        }
    }

    /// The first text, if there is one. Doesn't allocate.
    pub fn first(&self) -> Option<&str>
        ensures is { option_copied result ≡ slice_get self.now 0 }
        ensures few { slice_get self.now 2 ≡ None }
    {
        match &self.texts {
            Texts::None => None,
            Texts::One(text) => Some(text.as_str()),
            Texts::Two(text, at) => Some(text.as_str().split_at(*at).0),
        }
    }

    /// The second text, if there is one. Doesn't allocate.
    pub fn second(&self) -> Option<&str>
        ensures { option_copied result ≡ slice_get self.now 1 }
    {
        match &self.texts {
            Texts::None | Texts::One(_) => None,
            Texts::Two(text, at) => Some(text.as_str().split_at(*at).1),
        }
    }

    /// A copy, with memory of its own.
    ///
    /// # Errors
    ///
    /// `AllocError` if memory runs out.
    pub fn copy(&self, alloc: Global) -> Result<Args, AllocError>
        ensures { IfOk result (λ args. args ≡ self.now) }
    {
        let texts = match &self.texts {
            Texts::None => Texts::None,
            Texts::One(text) => Texts::One(String::from_str(alloc, text.as_str())?),
            Texts::Two(text, at) => Texts::Two(String::from_str(alloc, text.as_str())?, *at),
        };
        Ok(Args { texts })
    }

    /// `true` only if each text is printed unchanged, that is, has no control byte; `false`
    /// promises nothing. Doesn't allocate.
    #[tactic(auto, using(crate::proofs::PrintableTexts::printable_unchanged, crate::proofs::TwoTexts::parts_printable))]
    pub fn is_plain(&self) -> bool
        ensures { IsTrue result → map printable self.now ≡ self.now }
    {
        match &self.texts {
            Texts::None => true,
            Texts::One(text) | Texts::Two(text, _) => first_control(text.as_bytes()).is_none(),
        }
    }

    /// The texts as they are printed, with a `?` for each control byte (0 to 31, and 127). These
    /// texts are unchanged.
    ///
    /// # Errors
    ///
    /// `AllocError` if memory runs out.
    #[tactic(auto, using(crate::proofs::PrintableTexts::printable_boundary, crate::proofs::TwoTexts::parts_printed))]
    pub fn printable(&self, alloc: Global) -> Result<Args, AllocError>
        ensures { IfOk result (λ args. args ≡ map printable self.now) }
    {
        let texts = match &self.texts {
            Texts::None => Texts::None,
            Texts::One(text) => Texts::One(printable(alloc, text.as_str())?),
            Texts::Two(text, at) => Texts::Two(printable(alloc, text.as_str())?, *at),
        };
        Ok(Args { texts })
    }
}

impl PartialEq for Args {
    ghost use Rattle.al_base.specs.Orders.{args_eq};

    ghost eq = { args_eq };

    ghost laws = { Prim.search (comparing, rules) };

    fn eq(&self, other: &Args) -> bool {
        self.cmp(other).is_eq()
    }
}

impl Eq for Args {
    ghost laws = { Prim.search (comparing, rules) };
}

impl PartialOrd for Args {
    ghost use Rattle.std.specs.Cmp.{partial_order_from_own_ties};
    ghost use Rattle.al_base.specs.Orders.{args_partial_cmp};

    ghost partial_cmp = { args_partial_cmp };

    ghost laws = { partial_order_from_own_ties (Prim.search (comparing, rules)) (Prim.search (comparing, rules)) };

    fn partial_cmp(&self, other: &Args) -> Option<Ordering> {
        Some(self.cmp(other))
    }
}

impl Ord for Args {
    ghost use Rattle.al_base.specs.Orders.{args_cmp};
    ghost use Rattle.al_base.specs.Proofs.Orders.{args_total};

    ghost cmp = { args_cmp };

    ghost total = { args_total };

    ghost matches_partial_cmp = { Prim.search (comparing, rules) };

    ghost matches_eq = { Prim.search (comparing, rules) };

    fn cmp(&self, other: &Args) -> Ordering {
        self.first()
            .cmp(&other.first())
            .then_with(|| self.second().cmp(&other.second()))
    }
}
