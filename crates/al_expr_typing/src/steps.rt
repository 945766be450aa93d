//! The types that property, index and `.*` steps lead to.

ghost use Rattle.std.specs.Prelude.{◌≡◌, ◌<◌, IfOk, List, None, length, true, ℕ};
ghost use Rattle.al_base.specs.Growth.{BeginsWith};
ghost use Rattle.al_expr_typing.specs.Meaning.{typed, faults_then, property_of, filter_of, index_of};
ghost use Rattle.al_expr_typing.specs.Meaning.{not_indexable};
ghost use Rattle.al_types.specs.Types.{Parts};
ghost use Rattle.al_expr_typing.specs.Steps.{is_index};
ghost use Rattle.al_expr_types.specs.Tables.{is_known, objects_of, type_at};
ghost use Rattle.al_expr_types.specs.Types.{base_type, is_base_below, is_below, scalar_type};
ghost use Rattle.al_expr_types.specs.Types.{type_in};

use crate::reports::report_text;
use al_base::{Code, ExpressionCode, FaultSink, Span};
use al_expr_types::{Base, Scalar, Ty, Types};
use al_types::Form;
use std::alloc::AllocError;

/// A step to a property.
#[derive(Clone, Copy)]
pub(crate) struct PropertyStep<'a> {
    pub name: &'a str,
    /// The span of the name.
    pub at: Span,
    /// The span of the whole step, with the dot or the brackets.
    pub whole: Span,
}

/// The type of a property of a value of this type.
#[tactic(auto, using(al_base::proofs::Growing::growth))]
pub(crate) fn property(
    types: &mut Types<'_>,
    ty: Ty,
    step: PropertyStep<'_>,
    faults: &mut FaultSink,
) -> Result<Ty, AllocError>
    requires { is_known types.old ty ≡ true }
    ensures ok { IfOk result (λ t. typed (type_at types.new t) faults.new
        ≡ faults_then faults.old
        (property_of (step.entry).name.now (step.entry).at (step.entry).whole
        (type_at types.old ty))) }
    ensures known { IfOk result (λ t. is_known types.new t ≡ true) }
    ensures kept { BeginsWith (objects_of types.new) (objects_of types.old) }
{
    base_property(types, ty.of, step, faults)?.in_arrays(ty.arrays)
}

// The same for a type that isn't an array. A property that an object doesn't have is any, with a
// fault.
#[tactic(auto, using(al_base::proofs::Growing::growth, crate::proofs::TypedSteps::typing))]
fn base_property(
    types: &mut Types<'_>,
    base: Base,
    step: PropertyStep<'_>,
    faults: &mut FaultSink,
) -> Result<Ty, AllocError>
    requires { is_base_below (length types.old.objects.items) base ≡ true }
    ensures ok { IfOk result (λ t. typed (type_at types.new t) faults.new
        ≡ faults_then faults.old
        (property_of (step.entry).name.now (step.entry).at (step.entry).whole
        (base_type (objects_of types.old) base))) }
    ensures known { IfOk result (λ t. is_known types.new t ≡ true) }
    ensures kept { BeginsWith (objects_of types.new) (objects_of types.old) }
{
    match base {
        Base::Object(n) => match types.property(n, step.name.as_bytes())? {
            Some(of) => Ok(of),
            None => {
                report_text(
                    step.at,
                    ExpressionCode::UndefinedProperty,
                    step.name,
                    faults,
                )?;
                Ok(Ty::ANY)
            }
        },
        Base::Scalar(scalar) => scalar_step(scalar, step.whole, faults),
    }
}

// The type after any step from a scalar: any, with a fault unless the scalar has the type any.
#[tactic(auto, using(crate::proofs::TypedSteps::typing))]
fn scalar_step(scalar: Scalar, whole: Span, faults: &mut FaultSink) -> Result<Ty, AllocError>
    ensures ok { IfOk result (λ t. (ms : List Parts) → typed (type_in ms t) faults.new
        ≡ faults_then faults.old (filter_of whole (scalar_type scalar))) }
    ensures known { IfOk result (λ t. (k : ℕ) → is_below k t ≡ true) }
{
    match scalar {
        Scalar::Any => Ok(Ty::ANY),
        _ => not_indexable(whole, faults),
    }
}

fn not_indexable(whole: Span, faults: &mut FaultSink) -> Result<Ty, AllocError>
    ensures ok { IfOk result (λ t. (ms : List Parts) → typed (type_in ms t) faults.new
        ≡ faults_then faults.old (not_indexable whole)) }
    ensures known { IfOk result (λ t. (k : ℕ) → is_below k t ≡ true) }
{
    faults.report_plain(whole, Code::Expression(ExpressionCode::NotIndexable))?;
    Ok(Ty::ANY)
}

/// The type of the element of a value of this type that an index of the type `by` names.
#[tactic(auto, using(crate::proofs::TypedSteps::typing, crate::proofs::Forms::scalar_steps))]
pub(crate) fn element(ty: Ty, by: Ty, whole: Span, faults: &mut FaultSink) -> Result<Ty, AllocError>
    ensures ok { IfOk result (λ t. (ms : List Parts) → typed (type_in ms t) faults.new
        ≡ faults_then faults.old (index_of whole (type_in ms ty) (type_in ms by))) }
    ensures known { IfOk result (λ t. (k : ℕ) → is_below k ty ≡ true → is_below k t ≡ true) }
{
    if ty.arrays > 0 {
        if !is_index(by) {
            return not_indexable(whole, faults);
        }
        let arrays = ty.arrays - 1;
        return Ok(Ty { arrays, ..ty });
    }
    match ty.of {
        Base::Object(_) => Ok(Ty::ANY),
        Base::Scalar(scalar) => scalar_step(scalar, whole, faults),
    }
}

// Whether a value of this type is an index.
fn is_index(by: Ty) -> bool
    ensures { (ms : List Parts) → result ≡ is_index (type_in ms by) }
{
    matches!(by.form(), Form::Any | Form::Number)
}

/// The type of `.*` of a value of this type: an array of what its elements, or its fields, have in
/// common.
#[tactic(auto, using(al_base::proofs::Growing::growth, crate::proofs::TypedSteps::typing))]
pub(crate) fn all(
    types: &mut Types<'_>,
    ty: Ty,
    whole: Span,
    faults: &mut FaultSink,
) -> Result<Ty, AllocError>
    requires { is_known types.old ty ≡ true }
    ensures ok { IfOk result (λ t. typed (type_at types.new t) faults.new
        ≡ faults_then faults.old (filter_of whole (type_at types.old ty))) }
    ensures known { IfOk result (λ t. is_known types.new t ≡ true) }
    ensures kept { BeginsWith (objects_of types.new) (objects_of types.old) }
{
    if ty.arrays > 0 {
        return Ok(ty);
    }
    match ty.of {
        Base::Object(n) => types.common(n)?.unwrap_or(Ty::ANY).in_arrays(1),
        Base::Scalar(scalar) => scalar_step(scalar, whole, faults),
    }
}
