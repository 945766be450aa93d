//! The type of a scalar that is given to an input: that of its expression if it is one, otherwise
//! by its class.
ghost use Rattle.std.specs.Prelude.{◌≡◌, ◌≤◌, ◌-◌, false, true, length, map, slice_range};
ghost use Rattle.std.specs.Prelude.{All, IfOk, IsUtf8, MatchOption};
ghost use Rattle.al_base.specs.Growth.{BeginsWith};
ghost use Rattle.al_base.specs.Limits.{longest_text};
ghost use Rattle.al_check_calls.specs.Types as meant;
ghost use Rattle.al_expr_grammar.specs.Chunks.{IsCutFrom, chunks_of, span_of_chunk};
ghost use Rattle.al_expr_types.specs.Tables.{objects_of, type_at};
ghost use Rattle.al_expr_typing.specs.Scopes.{IsShown, scope_view};
ghost use Rattle.al_scalar.specs.Scalar.{text_of};
ghost use Rattle.al_expr_grammar.specs.Lone.{is_lone as lone};
ghost use Rattle.al_expr_grammar.specs.declared.lone.Around.TheVariants.{Nothing};

use al_base::{Fault, FaultSink};
use al_check_objects::class_type_of;
use al_expr_grammar::{Around, Chunk, chunks, is_lone, parse_expr};
use al_expr_types::{Ty, Types};
use al_expr_typing::{Scope, type_of};
use al_scalar::Scalar;
use al_tree::contains_chunk;
use std::alloc::AllocError;

/// The type of an expression: any type if the expression has a fault, which is reported at the
/// expression.
#[tactic(auto, using(al_base::proofs::Growing::growth))]
fn content_type(types: &mut Types<'_>, scope: &Scope, content: &str) -> Result<Ty, AllocError>
    requires { IsShown types.old scope.now }
    ensures ty { IfOk result (λ t. type_at types.new t
        ≡ meant.content_type (scope_view types.old scope.now) content.now) }
    ensures kept { BeginsWith (objects_of types.new) (objects_of types.old) }
{
    let Ok(expr) = parse_expr(types.alloc(), content)? else {
        return Ok(Ty::ANY);
    };
    let mut faults = FaultSink::new(types.alloc());
    type_of(types, scope, &expr, &mut faults)
}

/// The content of a text with these chunks and the fault after them, if it is one expression.
fn content_of<'a>(text: &[u8], chunks: &[Chunk<'a>], fault: &Option<Fault>) -> Option<&'a str>
    requires cut { All (IsCutFrom text.now) chunks.now }
    requires found { map span_of_chunk chunks.now ≡ (chunks_of text.now).chunks }
    ensures { MatchOption result
        (lone Nothing text.now (map span_of_chunk chunks.now) fault.now ≡ false)
        (λ c. (lone Nothing text.now (map span_of_chunk chunks.now) fault.now ≡ true)
        × (c.now ≡ slice_range text.now 3 (length text.now - 2))) }
{
    if !is_lone(Around::Nothing, text, chunks, fault) {
        return None;
    }
    Some(chunks.first()?.content)
}

/// The type of a scalar that is given to an input.
#[tactic(auto, using(al_base::proofs::Growing::growth))]
pub(crate) fn scalar_type(
    types: &mut Types<'_>,
    scope: &Scope,
    scalar: &Scalar,
) -> Result<Ty, AllocError>
    requires shown { IsShown types.old scope.now }
    requires utf8 { IsUtf8 (text_of scalar.now) }
    requires small { length (text_of scalar.now) ≤ longest_text }
    ensures ty { IfOk result (λ t. type_at types.new t
        ≡ meant.type_of_given (scope_view types.old scope.now) scalar.now) }
    ensures kept { BeginsWith (objects_of types.new) (objects_of types.old) }
{
    if !contains_chunk(scalar.text()) {
        return Ok(Ty::scalar(class_type_of(scalar.class())));
    }
    let (found, fault) = chunks(types.alloc(), scalar.as_str())?;
    match content_of(scalar.text(), found.as_slice(), &fault) {
        None => Ok(Ty::STRING),
        Some(content) => content_type(types, scope, content),
    }
}
