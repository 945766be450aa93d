//! The faults of the expressions in one scalar, with their spans in the file.
#![tactic(auto, using(al_base::proofs::Growing::growth, al_expr_typing::proofs::Shown::shown))]

ghost use Rattle.std.specs.Prelude.{true, ◌≡◌, ◌++◌, ◌<◌, ◌^◌, map, OnOk};
ghost use Rattle.al_scalar.specs.Scalar.{offset_of, text_of};
ghost use Rattle.al_expr_grammar.specs.View.{expr_view};
ghost use Rattle.al_expr_types.specs.Tables.{objects_of};
ghost use Rattle.al_expr_typing.specs.Scopes.{IsShown, scope_view};
ghost use Rattle.al_check_expressions.specs.Contents as contents;
ghost use Rattle.al_check_expressions.specs.Contents.{chunked_faults, content_faults};
ghost use Rattle.al_check_expressions.specs.Contents.{fault_in_file, place_faults};
ghost use Rattle.al_check_expressions.specs.Contents.{tree_faults, HasRoom};
ghost use Rattle.al_check_expressions.specs.Inside.{IsReadable};
ghost use Rattle.al_expr_grammar.specs.Chunks.{chunks_of};
ghost use Rattle.al_check_places.specs.Places.{place_of};
ghost use Rattle.al_base.specs.Growth.{BeginsWith};

use al_base::{Code, ExpressionCode, Fault, FaultSink, Span};
use al_check_places::Place;
use al_expr_grammar::{Around, Expr, chunks, extent, is_lone, parse_expr};
use al_expr_types::Types;
use al_expr_typing::{Scope, type_of};
use al_scalar::Scalar;
use al_tree::contains_chunk;
use std::alloc::AllocError;

/// The offset in the file of an index of a scalar's text; at the text's end, the end of the scalar.
#[tactic(auto, using(crate::proofs::EndLemmas::offset_by_end))]
fn offset(scalar: &Scalar, i: usize) -> u32
    ensures { result ≡ offset_of scalar.now i }
{
    scalar.locate(i.min(scalar.text().len()))
}

/// The span in the file of the bytes of a scalar's text between two indexes.
fn span_in_file(scalar: &Scalar, i: usize, j: usize) -> Span
    requires { HasRoom scalar.now }
    ensures { result ≡ contents.span_in_file scalar.now i j }
{
    let start = offset(scalar, i);
    if i == j {
        return Span { start, end: start };
    }
    let end = offset(scalar, j.saturating_sub(1)) + 1;
    Span { start, end }
}

/// A scalar, and what the check of an expression in it depends on.
#[derive(Clone, Copy)]
struct Text<'s> {
    scope: &'s Scope,
    scalar: &'s Scalar,
    /// Whether the expression is all of its text.
    is_lone: bool,
    /// Whether only a scalar is accepted at its place.
    is_scalar_only: bool,
}

/// Adds the faults of an expression's tree: those of its meaning, then that it is an object or
/// array where neither is allowed.
fn check_tree(
    types: &mut Types<'_>,
    text: &Text<'_>,
    expr: &Expr<'_>,
    faults: &mut FaultSink,
) -> Result<(), AllocError>
    requires { IsShown types.old text.now.scope.now }
    ensures ok { OnOk result
        (faults.new ≡ faults.old ++ tree_faults (scope_view types.old text.now.scope.now)
        text.now.is_lone text.now.is_scalar_only (expr_view expr.now)) }
    ensures kept { BeginsWith (objects_of types.new) (objects_of types.old) }
{
    let ty = type_of(types, text.scope, expr, faults)?;
    if ty.is_collection() && (!text.is_lone || text.is_scalar_only) {
        faults.report_plain(extent(expr), Code::Expression(ExpressionCode::NotText))?;
    }
    Ok(())
}

/// Adds the faults of an expression, with spans relative to its start.
fn check_content(
    types: &mut Types<'_>,
    text: &Text<'_>,
    content: &str,
    faults: &mut FaultSink,
) -> Result<(), AllocError>
    requires { IsShown types.old text.now.scope.now }
    ensures ok { OnOk result
        (faults.new ≡ faults.old ++ content_faults (scope_view types.old text.now.scope.now)
        text.now.is_lone text.now.is_scalar_only content.now) }
    ensures kept { BeginsWith (objects_of types.new) (objects_of types.old) }
{
    match parse_expr(faults.alloc(), content)? {
        Ok(expr) => check_tree(types, text, &expr, faults),
        Err(fault) => faults.push(fault),
    }
}

/// A fault of an expression that begins at an index, with its span in the file.
fn move_fault(scalar: &Scalar, by: usize, fault: Fault) -> Fault
    requires room { HasRoom scalar.now }
    requires fits { by < 2 ^ 32 }
    ensures { result ≡ fault_in_file scalar.now by fault }
{
    let start = by + fault.span.start as usize;
    let span = span_in_file(scalar, start, by + fault.span.end as usize);
    Fault { span, ..fault }
}

/// Adds the faults of an expression that begins at an index of a text, with their spans in the
/// file.
fn check_expression(
    types: &mut Types<'_>,
    text: &Text<'_>,
    content: &str,
    start: usize,
    faults: &mut FaultSink,
) -> Result<(), AllocError>
    requires shown { IsShown types.old text.now.scope.now }
    requires room { HasRoom text.now.scalar.now }
    requires fits { start < 2 ^ 32 }
    ensures ok { OnOk result (faults.new ≡ faults.old
        ++ map (fault_in_file text.now.scalar.now start) (content_faults
        (scope_view types.old text.now.scope.now) text.now.is_lone text.now.is_scalar_only
        content.now)) }
    ensures kept { BeginsWith (objects_of types.new) (objects_of types.old) }
{
    let mut found = FaultSink::new(faults.alloc());
    check_content(types, text, content, &mut found)?;
    for fault in found.into_faults() {
        faults.push(move_fault(text.scalar, start, fault))?;
    }
    Ok(())
}

/// Adds the faults of the chunks of the text at a place.
fn check_chunks(
    types: &mut Types<'_>,
    scope: &Scope,
    place: &Place<'_>,
    faults: &mut FaultSink,
) -> Result<(), AllocError>
    requires shown { IsShown types.old scope.now }
    requires readable { IsReadable (place_of place.now) }
    ensures ok { OnOk result
        (faults.new ≡ faults.old ++ chunked_faults (scope_view types.old scope.now)
        place.now.is_scalar_only place.now.scalar.now (chunks_of (text_of place.now.scalar.now))) }
    ensures kept { BeginsWith (objects_of types.new) (objects_of types.old) }
{
    let content = place.scalar.as_str();
    let (found, unclosed) = chunks(faults.alloc(), content)?;
    let text = Text {
        scope,
        scalar: place.scalar,
        is_lone: is_lone(
            Around::Nothing,
            content.as_bytes(),
            found.as_slice(),
            &unclosed,
        ),
        is_scalar_only: place.is_scalar_only,
    };
    for chunk in &found {
        let start = chunk.span.start as usize;
        check_expression(types, &text, chunk.content, start, faults)?;
    }
    match unclosed {
        Some(fault) => faults.push(move_fault(place.scalar, 0, fault)),
        None => Ok(()),
    }
}

/// Whether the whole text at a place is one expression: the place is a condition, and the text has
/// no chunk.
pub(crate) fn is_whole(place: &Place<'_>) -> bool
    ensures { result ≡ contents.is_whole (place_of place.now) }
{
    place.is_condition && !contains_chunk(place.scalar.text())
}

/// Adds the faults of the expressions at a place.
pub(crate) fn check_place(
    types: &mut Types<'_>,
    scope: &Scope,
    place: &Place<'_>,
    faults: &mut FaultSink,
) -> Result<(), AllocError>
    requires shown { IsShown types.old scope.now }
    requires readable { IsReadable (place_of place.now) }
    ensures ok { OnOk result
        (faults.new ≡ faults.old
        ++ place_faults (scope_view types.old scope.now) (place_of place.now)) }
    ensures kept { BeginsWith (objects_of types.new) (objects_of types.old) }
{
    if !is_whole(place) {
        return check_chunks(types, scope, place, faults);
    }
    let text = Text {
        scope,
        scalar: place.scalar,
        is_lone: true,
        is_scalar_only: place.is_scalar_only,
    };
    check_expression(types, &text, place.scalar.as_str(), 0, faults)
}
