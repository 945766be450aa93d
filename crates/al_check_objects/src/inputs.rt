//! The types of `inputs`.
ghost use Rattle.al_check_objects.specs.Inputs as inputs;
ghost use Rattle.al_check_objects.specs.Objects.{strictly};
ghost use Rattle.al_check_objects.specs.Numbers.{Makes};
ghost use Rattle.al_expr_types.specs.declared.types.Types as declared;
ghost use Rattle.al_tree.specs.declared.files.FileKind.TheVariants as kind;
ghost use Rattle.al_types.specs.Puts.{firsts};
ghost use Rattle.al_yaml_tree.specs.View.{view};

use crate::field_lists::FieldList;
use crate::objects::declared_strings;
use crate::scalars::type_of_input;
use al_expr_types::{Ty, Types};
use al_tree::{FileKind, declared_at, input_of, value, value_below_three};
use al_yaml_tree::Node;
use std::alloc::AllocError;

/// The object of the inputs that an event of a workflow declares. Fails with `AllocError` when out
/// of memory, as everything here does.
fn event_inputs<'a>(types: &mut Types<'a>, root: &'a Node, event: &str) -> Result<Ty, AllocError>
    ensures { Makes types.old types.new result
        (strictly (firsts (inputs.event_inputs event.now (view root.entry.now)))) }
{
    let declared = declared_at(
        types.alloc(),
        value_below_three(root, "on", event, "inputs"),
    )?;
    let mut fields = FieldList::new(types.alloc());
    for input in declared.as_slice() {
        let ty = Ty::scalar(type_of_input(input_of(input.value)));
        fields = fields.and(input.key.text(), ty)?;
    }
    fields.into_type(types, None)
}

/// The type of `inputs` in a file: in a workflow, what the object of its call inputs and that of
/// its dispatch inputs have in common.
#[tactic(auto, using(al_base::proofs::Growing::growth, al_expr_types::proofs::Returned::begins_ok))]
pub fn inputs_type<'a>(
    types: &mut Types<'a>,
    kind: FileKind,
    root: &'a Node,
) -> Result<Ty, AllocError>
    ensures { Makes types.old types.new result (inputs.inputs_type kind (view root.entry.now)) }
{
    match kind {
        FileKind::Workflow => {
            let call = event_inputs(types, root, "workflow_call")?;
            let dispatch = event_inputs(types, root, "workflow_dispatch")?;
            types.join(call, dispatch)
        }
        FileKind::Action => {
            let declared = declared_at(types.alloc(), value(root, "inputs"))?;
            declared_strings(types, declared.as_slice())
        }
    }
}
