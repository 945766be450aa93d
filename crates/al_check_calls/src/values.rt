//! The values under `with` of a job, which have to be of the types of the inputs that they are
//! given to: C4.
ghost use Rattle.std.specs.Prelude.{◌≡◌, ◌++◌, IfOk, OnOk};
ghost use Rattle.std.specs.List.{flat_map};
ghost use Rattle.al_check_calls.specs.CallFaults as meant;
ghost use Rattle.al_check_calls.specs.Preconditions.{AreShort};
ghost use Rattle.al_check_calls.specs.Types as value_types;
ghost use Rattle.al_check_calls.specs.Types.{value_type_in_job};
ghost use Rattle.al_check_calls.specs.AnswerViews.{typing_in};
ghost use Rattle.al_check_calls.specs.Private.Comparing.{wrong_value};
ghost use Rattle.al_check_contexts.specs.Answered.{known_of};
ghost use Rattle.al_check_contexts.specs.Environments.{HasMoved, IsAtPosition, file_of};
ghost use Rattle.al_check_interfaces.specs.CallViews.{call_of};
ghost use Rattle.al_check_interfaces.specs.declared.interfaces.ParameterKind.TheVariants.{Input};
ghost use Rattle.al_check_places.specs.Places.{place_of};
ghost use Rattle.al_expr_types.specs.Tables.{type_at};
ghost use Rattle.al_tree.specs.Values.{member_of};
ghost use Rattle.al_yaml_tree.specs.View.{view};

use crate::reports::code_at;
use crate::types::scalar_type;
use al_base::{CallCode, FaultSink};
use al_check_contexts::Env;
use al_check_interfaces::{Call, Parameters};
use al_check_objects::type_of_input;
use al_check_places::{Place, Position, Section, Seen, available};
use al_expr_types::Ty;
use al_scalar::Scalar;
use al_tree::{InputType, Member, members_under};
use std::alloc::AllocError;

/// The place of the value of a key under `with` of a job.
fn place_of_value<'a>(job: &'a [u8], key: &'a Scalar, scalar: &'a Scalar) -> Place<'a>
    ensures { place_of result ≡ value_types.place_of_value job.now key.now scalar.now }
{
    Place {
        scalar,
        is_scalar_only: true,
        available: available(&[b"jobs".as_slice(), job, b"with".as_slice(), key.text()]),
        is_condition: false,
        is_script: false,
        position: Position {
            section: Section::Job(job),
            seen: Seen::Nothing,
        },
    }
}

/// The type of a value under `with` of a job, whose key has this text: any type if it isn't a
/// scalar.
#[tactic(auto, using(al_base::proofs::Growing::growth))]
fn value_type<'a>(env: &mut Env<'a>, job: &'a [u8], member: Member<'a>) -> Result<Ty, AllocError>
    requires at { IsAtPosition env.old }
    requires short { AreShort (member_of member).1 }
    ensures moved { OnOk result (HasMoved env.new env.old) }
    ensures ty { let f = file_of env.old in IfOk result
        (λ t. type_at (env.new).types t
        ≡ meant.given_type (value_type_in_job f.kind (known_of f.known) (view f.root.now) job.now)
        (member_of member.entry)) }
{
    let Some(scalar) = member.value.scalar() else {
        return Ok(Ty::ANY);
    };
    env.go_to(place_of_value(job, member.key, scalar))?;
    scalar_type(&mut env.types, &env.scope, scalar)
}

fn type_name(takes: InputType) -> &'static [u8]
    ensures { result.now ≡ meant.type_name takes }
{
    match takes {
        InputType::Boolean => b"boolean",
        InputType::Number => b"number",
        InputType::String => b"string",
    }
}

/// Adds C4 of a value that a job gives.
fn check_value<'a>(
    env: &mut Env<'a>,
    call: Call<'a>,
    inputs: &Parameters,
    member: Member<'a>,
    faults: &mut FaultSink,
) -> Result<(), AllocError>
    requires at { IsAtPosition env.old }
    requires short { AreShort (member_of member).1 }
    ensures moved { OnOk result (HasMoved env.new env.old) }
    ensures faults { OnOk result (faults.new ≡ faults.old
        ++ wrong_value (typing_in (file_of env.old)) (call_of call.entry) inputs.now
        (member_of member.entry)) }
{
    let Some(input) = inputs.find(member.key.text())? else {
        return Ok(());
    };
    let job = call.site.job.unwrap_or(&[]);
    let ty = value_type(env, job, member)?;
    if ty.is_assignable_to(Ty::scalar(type_of_input(input.takes))) {
        return Ok(());
    }
    let code = code_at(call, CallCode::WrongInput);
    let span = member.value.span();
    faults.report_two(span, code, input.name.as_bytes(), type_name(input.takes))
}

/// Adds C4 of the values that a job gives to a workflow with these inputs. Moves the environment to
/// the values.
pub(crate) fn check_values<'a>(
    env: &mut Env<'a>,
    call: Call<'a>,
    inputs: &Parameters,
    faults: &mut FaultSink,
) -> Result<(), AllocError>
    requires at { IsAtPosition env.old }
    requires short { AreShort (view call.site.node.now) }
    ensures moved { OnOk result (HasMoved env.new env.old) }
    ensures faults { let c = call_of call.entry in OnOk result (faults.new ≡ faults.old
        ++ flat_map (wrong_value (typing_in (file_of env.old)) c inputs.now)
        (meant.given_by Input c.site.node)) }
{
    for member in &members_under(env.alloc(), call.site.node, "with")? {
        check_value(env, call, inputs, *member, faults)?;
    }
    Ok(())
}
