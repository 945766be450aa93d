//! The type of `steps`: its fields are made once for all steps of a job or an action, and each step
//! sees some first of them.
ghost use Rattle.std.specs.Prelude.{◌≡◌, ◌-◌, ◌≤◌, [], IfOk, List, None, Option, OnOk, length};
ghost use Rattle.std.specs.Prelude.{option_map, true};
ghost use Rattle.std.specs.Option.{option_copied, option_map_or, option_to_list};
ghost use Rattle.al_base.specs.Growth.{BeginsWith};
ghost use Rattle.al_check_contexts.specs.Contexts.{OutputNames, Owner as StepOwner, step_field};
ghost use Rattle.al_check_contexts.specs.Contexts.{steps_type};
ghost use Rattle.al_check_places.specs.declared.positions.Seen.TheVariants.{Before as before};
ghost use Rattle.al_check_contexts.specs.Lookups.{step_at};
ghost use Rattle.al_check_contexts.specs.Made.{known_from};
ghost use Rattle.al_check_contexts.specs.Caches.{Keeps};
ghost use Rattle.al_check_objects.specs.Numbers.{Lists, Makes, Means};
ghost use Rattle.al_check_contexts.specs.Steps.{ArePrefixes, AreStepsOf};
ghost use Rattle.al_check_contexts.specs.Private.Owners.{owner_view};
ghost use Rattle.al_expr_types.specs.Tables.{is_known, objects_of, type_at};
ghost use Rattle.al_expr_types.specs.declared.types.Types as declared;
ghost use Rattle.al_types.specs.Puts.{TypedName, put_all, put_new};
ghost use Rattle.al_types.specs.Strings.{named_strings};
ghost use Rattle.al_types.specs.Types.{Present, object_with};
ghost use Rattle.al_yaml_tree.specs.View.{view};

use crate::basis::Basis;
use crate::caches::TypeCache;
use crate::owners::{Owner, Step};
use al_check_objects::{FieldList, object_of};
use al_check_places::Seen;
use al_expr_types::{FieldMap, NameList, Prefixes, Ty, Types};
use al_tree::text_under;
use std::alloc::AllocError;

/// The fields of `steps` if all steps of a job or an action are seen, and how many of them are if
/// fewer steps are.
#[derive(Drop)]
pub(crate) struct StepFields<'a> {
    prefixes: Prefixes<'a>,
    /// How many fields there are, by the number of steps seen. Empty if there are no steps to see.
    counts: Vec<usize>,
}

/// The type of the outputs of a step or a job, by what is known of them. If nothing is, it is an
/// object whose fields have this type.
pub(crate) fn outputs_type<'a>(
    types: &mut Types<'a>,
    outputs: Option<&'a NameList>,
    others: Ty,
) -> Result<Ty, AllocError>
    requires { is_known types.old others ≡ true }
    ensures { Makes types.old types.new result
        (option_map_or named_strings (option_map (λ l. l.now) outputs.entry)
        (object_with [] (Present (type_at types.old others)))) }
{
    match outputs {
        None => object_of(types, &[], Some(others)),
        Some(names) => types.strings(names),
    }
}

/// The type of a step, by the position of its list of outputs, which is made once.
#[tactic(auto, using(al_base::proofs::Growing::growth))]
fn step_type<'a>(
    types: &mut Types<'a>,
    basis: &Basis<'a>,
    made: &mut TypeCache,
    position: usize,
) -> Result<Ty, AllocError>
    requires { Keeps types.old (step_at basis.now.outputs) made.old }
    ensures made { Makes types.old types.new result (step_at basis.now.outputs position) }
    ensures keeps { OnOk result (Keeps types.new (step_at basis.now.outputs) made.new) }
{
    if let Some(ty) = made.get(position) {
        return Ok(ty);
    }
    let outputs = outputs_type(types, basis.outputs.list(position), Ty::STRING)?;
    let ty = object_of(
        types,
        &[
            (b"conclusion", Ty::STRING),
            (b"outcome", Ty::STRING),
            (b"outputs", outputs),
        ],
        None,
    )?;
    made.set(position, ty);
    Ok(ty)
}

/// Appends the field of a step, if the step has an id and no field has it.
fn and_step<'a>(
    types: &mut Types<'a>,
    basis: &Basis<'a>,
    made: &mut TypeCache,
    step: Step<'a>,
    fields: FieldList<'a>,
) -> Result<FieldList<'a>, AllocError>
    requires { Keeps types.old (step_at basis.now.outputs) made.old }
    ensures fields { IfOk result
        (λ l. (ts : List TypedName) → Lists types.old fields.entry ts → Lists types.new l
        (put_all put_new ts (option_to_list
        (step_field (known_from basis.now) (option_copied (step.entry).job)
        ((step.entry).index, view (step.entry).node.now))))) }
    ensures keeps { OnOk result (Keeps types.new (step_at basis.now.outputs) made.new) }
    ensures kept { OnOk result (BeginsWith (objects_of types.new) (objects_of types.old)) }
{
    let Some(id) = text_under(step.node, "id") else {
        return Ok(fields);
    };
    let position = basis.outputs.position(step.job, Some(step.index));
    let ty = step_type(types, basis, made, position)?;
    fields.and(id.text(), ty)
}

impl<'a> StepFields<'a> {
    /// The fields for the steps of an owner, if there is one.
    pub(crate) fn of(
        types: &mut Types<'a>,
        basis: &Basis<'a>,
        made: &mut TypeCache,
        owner: Option<Owner<'a>>,
    ) -> Result<StepFields<'a>, AllocError>
        requires { Keeps types.old (step_at basis.now.outputs) made.old }
        ensures steps { IfOk result (λ s.
            AreStepsOf types.new (known_from basis.now) (option_map owner_view owner.entry) s) }
        ensures prefixes { IfOk result (λ s. ArePrefixes types.new s) }
        ensures keeps { OnOk result (Keeps types.new (step_at basis.now.outputs) made.new) }
        ensures kept { OnOk result (BeginsWith (objects_of types.new) (objects_of types.old)) }
    {
        let Some(owner) = owner else {
            let prefixes = Prefixes::new(FieldMap::new(types.alloc()))?;
            let counts = Vec::new(types.alloc());
            return Ok(StepFields { prefixes, counts });
        };
        let steps = owner.steps;
        let mut fields = FieldList::new(types.alloc());
        let mut counts = Vec::with_capacity(types.alloc(), steps.len().saturating_add(1))?;
        counts.push(0)?;
        for (i, node) in steps.iter().enumerate() {
            let step = Step {
                job: owner.job,
                index: i,
                node,
            };
            let more = and_step(types, basis, made, step, fields)?;
            counts.push(more.len())?;
            fields = more;
        }
        let prefixes = Prefixes::new(fields.into_map())?;
        Ok(StepFields { prefixes, counts })
    }

    /// How many steps are seen.
    pub(crate) fn seen_count(&self, seen: Seen) -> usize
        ensures seen { (types : declared.Types) (known : OutputNames) (o : Option StepOwner)
            → AreStepsOf types known o self.now
            → steps_type known o seen ≡ steps_type known o (before result) }
        ensures inside { result ≤ length self.now.counts.items - 1 }
    {
        let all = self.counts.len().saturating_sub(1);
        match seen {
            Seen::Nothing => 0,
            Seen::Before(n) => n.min(all),
            Seen::Everything => all,
        }
    }

    /// The type of `steps` if this many steps are seen.
    pub(crate) fn first(&mut self, types: &mut Types<'a>, count: usize) -> Result<Ty, AllocError>
        requires prefixes { ArePrefixes types.old self.old }
        requires inside { count ≤ length (self.old).counts.items - 1 }
        ensures ty { IfOk result
            (λ t. (known : OutputNames) (o : Option StepOwner)
            → AreStepsOf types.old known o self.old
            → Means types.new t (steps_type known o (before count))) }
        ensures steps { OnOk result
            ((known : OutputNames) (o : Option StepOwner) → AreStepsOf types.old known o self.old
            → AreStepsOf types.new known o self.new) }
        ensures prefixes { OnOk result (ArePrefixes types.new self.new) }
        ensures kept { OnOk result (BeginsWith (objects_of types.new) (objects_of types.old)) }
    {
        if self.counts.is_empty() {
            return Ok(Ty::ANY);
        }
        self.prefixes.first(types, self.counts[count])
    }
}
