//! The types of contexts, as far as they are the same in every file.

use al_check::{Answers, Env, File, places};
use al_expr::{CONTEXTS, Field, Ty, tree_of};
use al_json::Json;
use al_text::limits::LARGEST_FILE;
use al_tree::FileKind;
use al_yaml::{Node, read_yaml};
use std::alloc::AllocError;

/// A workflow with one expression, in a job that needs itself, after a step with an id. It declares
/// nothing else, and its only name is `*`, which stands for any.
fn sample() -> &'static [u8] {
    b"{jobs: {'*': {needs: '*', steps: [{id: '*'}, {run: '${{ 0 }}'}]}}}"
}

#[cycle(types)]
fn push_type(json: &mut Json, ty: &Ty) -> Result<(), AllocError> {
    match ty {
        Ty::Any => json.text("any"),
        Ty::Null => json.text("null"),
        Ty::Number => json.text("number"),
        Ty::Bool => json.text("bool"),
        Ty::String => json.text("string"),
        Ty::Array(of) => {
            json.open('{')?;
            json.key("items")?;
            push_type(json, of)?;
            json.close('}')
        }
        Ty::Object { fields, rest } => {
            json.open('{')?;
            push_fields(json, fields)?;
            push_others(json, rest)?;
            json.close('}')
        }
    }
}

#[cycle(types)]
fn push_fields(json: &mut Json, fields: &[Field]) -> Result<(), AllocError> {
    json.object_at("properties")?;
    for field in fields {
        json.key(field.name.as_str())?;
        push_type(json, &field.ty)?;
    }
    json.close('}')
}

// Writes the type of other properties; `null` if there are none.
#[cycle(types)]
fn push_others(json: &mut Json, rest: &Option<Box<Ty>>) -> Result<(), AllocError> {
    json.key("others")?;
    match rest {
        Some(ty) => push_type(json, ty),
        None => json.null(),
    }
}

/// What is known of calls: nothing.
fn nothing_known() -> Answers<'static> {
    Answers {
        answers: &[],
        lists: &[],
    }
}

// Writes the type of each context at the first expression of a workflow.
fn push_types_in(json: &mut Json, root: &Node) -> Result<(), AllocError> {
    let alloc = json.alloc();
    let file = File {
        kind: FileKind::Workflow,
        root,
        known: nothing_known(),
    };
    let mut env = Env::new(alloc, file)?;
    let found = places(alloc, FileKind::Workflow, root)?;
    if let Some(place) = found.first() {
        env.go_to(*place)?;
    }
    for context in &CONTEXTS {
        json.key(context.name())?;
        let ty = tree_of(&env.types, env.scope.types.get(*context))?;
        push_type(json, &ty)?;
    }
    Ok(())
}

// Writes the type of each context at the first expression of a workflow that is small enough.
fn push_types_of(json: &mut Json, workflow: &[u8]) -> Result<(), AllocError> {
    if workflow.len() > LARGEST_FILE {
        return Ok(());
    }
    match read_yaml(json.alloc(), workflow)? {
        Ok(doc) => push_types_in(json, &doc.root),
        Err(_) => Ok(()),
    }
}

/// Writes the type of each context in a step of a job. The names of jobs and of steps with an id
/// are `*`; names that a file declares aren't there.
pub fn push_types(json: &mut Json) -> Result<(), AllocError> {
    json.object_at("types")?;
    push_types_of(json, sample())?;
    json.close('}')
}
