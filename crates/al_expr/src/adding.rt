//! Adding trees to a table of types.

ghost use Rattle.std.specs.Prelude.{◌≡◌, IfOk, length, map, true};
ghost use Rattle.al_base.specs.Growth.{BeginsWith};
ghost use Rattle.al_types.specs.Puts.{firsts};
ghost use Rattle.al_expr_types.specs.FieldMaps.{fields_in, is_map_below};
ghost use Rattle.al_expr_types.specs.Tables.{is_known, objects_of, type_at};
ghost use Rattle.al_expr_types.specs.Types.{is_rest_below, rest_in};
ghost use Rattle.al_expr_typing.specs.Scopes.{IsShown, scope_view};
ghost use Rattle.al_expr.specs.Scopes.{StandFor, scope_of};
ghost use Rattle.al_expr.specs.Trees.{field_of, rest_of, ty_of};

use crate::scope::{ContextTypes, Scope};
use crate::trees::{Field, Ty};
use al_expr_types::{FieldMap, Scalar, Types};
use std::alloc::AllocError;

/// Adds the objects of a tree to a table, and returns the type that the tree stands for. Fails with
/// `AllocError` when out of memory, as everything here does.
#[tactic(auto, using(al_base::proofs::Growing::growth))]
#[cycle(adding)]
fn add<'a>(types: &mut Types<'a>, ty: &'a Ty) -> Result<al_expr_types::Ty, AllocError>
    ensures ty { IfOk result (λ t. type_at types.new t ≡ ty_of ty.now) }
    ensures known { IfOk result (λ t. is_known types.new t ≡ true) }
    ensures kept { BeginsWith (objects_of types.new) (objects_of types.old) }
{
    match ty {
        Ty::Any => Ok(al_expr_types::Ty::scalar(Scalar::Any)),
        Ty::Null => Ok(al_expr_types::Ty::scalar(Scalar::Null)),
        Ty::Number => Ok(al_expr_types::Ty::scalar(Scalar::Number)),
        Ty::Bool => Ok(al_expr_types::Ty::scalar(Scalar::Bool)),
        Ty::String => Ok(al_expr_types::Ty::scalar(Scalar::String)),
        Ty::Array(of) => add(types, of)?.in_arrays(1),
        Ty::Object { fields, rest } => {
            let map = add_fields(types, fields)?;
            let others = add_rest(types, rest)?;
            types.fields(map, others)
        }
    }
}

// Adds the objects of fields.
#[tactic(auto, using(al_base::proofs::Growing::growth))]
#[cycle(adding)]
fn add_fields<'a>(types: &mut Types<'a>, fields: &'a [Field]) -> Result<FieldMap<'a>, AllocError>
    ensures fields { IfOk result
        (λ m. fields_in (objects_of types.new) m ≡ firsts (map field_of fields.now)) }
    ensures known { IfOk result
        (λ m. is_map_below (length types.new.objects.items) m ≡ true) }
    ensures kept { BeginsWith (objects_of types.new) (objects_of types.old) }
{
    let mut map = FieldMap::new(types.alloc());
    for field in fields {
        let ty = add(types, &field.ty)?;
        map = map.and(field.name.as_bytes(), ty)?;
    }
    Ok(map)
}

// Adds the objects of the type of other fields, if others are possible.
#[tactic(auto, using(al_base::proofs::Growing::growth))]
#[cycle(adding)]
fn add_rest<'a>(
    types: &mut Types<'a>,
    rest: &'a Option<Box<Ty>>,
) -> Result<Option<al_expr_types::Ty>, AllocError>
    ensures ty { IfOk result (λ t. rest_in (objects_of types.new) t ≡ rest_of rest.now) }
    ensures known { IfOk result (λ t. is_rest_below (length types.new.objects.items) t ≡ true) }
    ensures kept { BeginsWith (objects_of types.new) (objects_of types.old) }
{
    match rest {
        Some(ty) => Ok(Some(add(types, ty)?)),
        None => Ok(None),
    }
}

/// Adds the types of all contexts.
#[tactic(auto, using(al_base::proofs::Growing::growth))]
fn add_contexts<'a>(
    types: &mut Types<'a>,
    contexts: &'a ContextTypes,
) -> Result<al_expr_typing::ContextTypes, AllocError>
    ensures { IfOk result (λ t. StandFor types.new t contexts.now) }
{
    Ok(al_expr_typing::ContextTypes {
        github: add(types, &contexts.github)?,
        env: add(types, &contexts.env)?,
        vars: add(types, &contexts.vars)?,
        secrets: add(types, &contexts.secrets)?,
        runner: add(types, &contexts.runner)?,
        job: add(types, &contexts.job)?,
        strategy: add(types, &contexts.strategy)?,
        needs: add(types, &contexts.needs)?,
        jobs: add(types, &contexts.jobs)?,
        steps: add(types, &contexts.steps)?,
        matrix: add(types, &contexts.matrix)?,
        inputs: add(types, &contexts.inputs)?,
    })
}

/// Adds the types of a scope.
pub(crate) fn add_scope<'a>(
    types: &mut Types<'a>,
    scope: &'a Scope,
) -> Result<al_expr_typing::Scope, AllocError>
    ensures same { IfOk result (λ s. scope_view types.new s ≡ scope_of scope.now) }
    ensures shown { IfOk result (λ s. IsShown types.new s) }
{
    Ok(al_expr_typing::Scope {
        types: add_contexts(types, &scope.types)?,
        available: scope.available,
        in_run: scope.in_run,
    })
}
