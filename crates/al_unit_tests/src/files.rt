//! The trees of files, and the environment at the place with a given text.

ghost use Rattle.std.specs.Prelude.{IfOk, IfSome};
ghost use Rattle.al_expr_typing.specs.Scopes.{IsShown};

use al_check_contexts::{Answers, Env, File};
use al_check_places::places;
use al_yaml::read_yaml;
use al_yaml_tree::Doc;
use std::alloc::{AllocError, Global};

/// The answers of a file without calls: nothing is known of any outputs.
pub(crate) fn nothing_known() -> Answers<'static> {
    Answers {
        answers: &[],
        lists: &[],
    }
}

/// The document of a text; `None` if it has a fault.
pub(crate) fn document(alloc: Global, text: &[u8]) -> Result<Option<Doc>, AllocError> {
    if text.len() > 1_048_576 {
        return Ok(None);
    }
    match read_yaml(alloc, text)? {
        Ok(doc) => Ok(Some(doc)),
        Err(_) => Ok(None),
    }
}

/// The environment at the first place of a file whose scalar has this text, reached from place to
/// place; `None` if there is none.
pub(crate) fn env_at<'a>(
    alloc: Global,
    file: File<'a>,
    text: &str,
) -> Result<Option<Env<'a>>, AllocError>
    ensures { IfOk result (λ found. IfSome found (λ e. IsShown e.types e.scope)) }
{
    let mut env = Env::new(alloc, file)?;
    let found = places(alloc, file.kind, file.root)?;
    for place in found.as_slice() {
        env.go_to(*place)?;
        if place.scalar.text() == text.as_bytes() {
            return Ok(Some(env));
        }
    }
    Ok(None)
}
