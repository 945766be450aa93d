//! Faults that name a text of the file.

ghost use Rattle.al_rules_settings.specs.Views.{named_of};
ghost use Rattle.al_rules_settings.specs.Words.{about, of_scalar, unless, unless_among};
ghost use Rattle.std.specs.Prelude.{◌≡◌, ◌++◌, map, OnOk};

use al_base::{Code, FaultSink, RuleCode, Span, is_among};
use al_scalar::Scalar;
use std::alloc::AllocError;

/// A text of a file, and its span.
#[derive(Clone, Copy)]
pub struct Named<'a> {
    /// The text without quotes, its escapes decoded.
    pub text: &'a [u8],
    /// Its span, quotes included.
    pub span: Span,
}

/// The text and the span of a scalar.
pub fn named_text(scalar: &Scalar) -> Named<'_>
    ensures { named_of result ≡ of_scalar scalar.now }
{
    Named {
        text: scalar.text(),
        span: scalar.span(),
    }
}

/// Adds a fault that has the span of a text and names it. Fails with `AllocError` when out of
/// memory.
pub fn report(rule: RuleCode, named: Named<'_>, faults: &mut FaultSink) -> Result<(), AllocError>
    ensures { OnOk result (faults.new ≡ faults.old ++ about rule (named_of named.entry)) }
{
    faults.report_text(named.span, Code::Rule(rule), named.text)
}

/// Adds the fault of a text, unless the text is valid. Fails with `AllocError` when out of memory.
pub fn report_unless(
    right: bool,
    rule: RuleCode,
    named: Named<'_>,
    faults: &mut FaultSink,
) -> Result<(), AllocError>
    ensures { OnOk result (faults.new ≡ faults.old ++ unless right rule (named_of named.entry)) }
{
    if right {
        return Ok(());
    }
    report(rule, named, faults)
}

/// Adds the fault of a text, unless it is one of some names. Fails with `AllocError` when out of
/// memory.
pub fn report_unless_among(
    rule: RuleCode,
    names: &[&str],
    named: Named<'_>,
    faults: &mut FaultSink,
) -> Result<(), AllocError>
    ensures { OnOk result (faults.new ≡ faults.old
        ++ unless_among rule (map (λ n. n.now) names.now) (named_of named.entry)) }
{
    report_unless(is_among(named.text, names), rule, named, faults)
}
