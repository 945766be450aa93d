//! What a `uses` names.
ghost use Rattle.std.specs.Prelude.{◌≡◌, [], ◌∷◌, ◌++◌, ◌&&◌, map, IfOk};
ghost use Rattle.std.specs.List.{list_all};
ghost use Rattle.al_check_interfaces.specs.Forms as forms;

use al_base::{Caller, Path, PathFault};
use al_lint::Target;
use al_tree::{contains_chunk, is_workflow, is_workflow_name};
use std::alloc::{AllocError, Global};

/// What the text of a `uses` names.
#[derive(Drop)]
pub(crate) enum Form {
    /// A file in the folder, by candidate paths, of which the first that exists answers.
    Local(Target),
    /// Something else: an image, an action or a workflow of another repository, or a folder that
    /// can't contain a file.
    Other,
    /// Nothing: the `uses` is invalid.
    Wrong,
}

fn is_workflow_path(first: &[u8], second: &[u8], file: &[u8]) -> bool
    ensures { result ≡ forms.is_workflow_parts (first.now ∷ second.now ∷ file.now ∷ []) }
{
    first == b".github".as_slice() && second == b"workflows".as_slice() && is_workflow_name(file)
}

/// What is before a byte of a text: the parts that slashes end, whether all of these are non-empty,
/// and the part after the last slash.
#[derive(Clone, Copy)]
struct Before<'d, 'a> {
    done: &'d [&'a [u8]],
    whole: bool,
    last: &'a [u8],
    ghost known: { whole ≡ list_all forms.is_some_text (map (λ p. p.now) done.now) },
}

/// Whether the text before a byte names an action of another repository, for a step, or a workflow
/// of one, for a job.
#[tactic(auto, using(crate::proofs::Cuts::all_more))]
fn is_remote(caller: Caller, before: Before<'_, '_>) -> bool
    ensures { result
        ≡ forms.is_remote caller (map (λ p. p.now) (before.entry).done.now
        ++ (before.entry).last.now ∷ []) }
{
    if !are_texts(before.whole, before.last) {
        return false;
    }
    match caller {
        Caller::Step => !before.done.is_empty(),
        Caller::Job => match before.done {
            [_, _, first, second] => is_workflow_path(first, second, before.last),
            _ => false,
        },
    }
}

/// Whether this byte separates a REF, and the text before it names something that can be called.
fn is_cut(caller: Caller, before: Before<'_, '_>, byte: u8, rest: &[u8]) -> bool
    ensures { result
        ≡ forms.is_cut (forms.is_remote caller) (map (λ p. p.now) (before.entry).done.now
        ++ (before.entry).last.now ∷ []) byte rest.now }
{
    byte == b'@' && !rest.is_empty() && is_remote(caller, before)
}

/// Whether some parts, of which it is known, and one more are all non-empty.
fn are_texts(whole: bool, part: &[u8]) -> bool
    ensures { result ≡ (whole && forms.is_some_text part.now) }
{
    whole && !part.is_empty()
}

/// Whether some byte of a text does. Goes over the text once, collecting its parts.
fn is_some_cut(alloc: Global, caller: Caller, text: &[u8]) -> Result<bool, AllocError>
    ensures { IfOk result (λ b. b ≡ forms.is_some_cut (forms.is_remote caller) text.now) }
{
    let mut done = Vec::new(alloc);
    let mut whole = true;
    let mut start = 0;
    for (i, byte) in text.iter().enumerate() {
        let last = &text[start..i];
        let before = Before {
            done: done.as_slice(),
            whole,
            last,
        };
        if is_cut(caller, before, *byte, &text[i + 1..]) {
            return Ok(true);
        }
        if *byte == b'/' {
            whole = are_texts(whole, last);
            done.push(last)?;
            start = i + 1;
        }
    }
    Ok(false)
}

/// The path with these bytes, if they are one. Bytes that aren't UTF-8, which no text of a file
/// has, aren't a path.
#[tactic(auto, using(crate::proofs::Paths::no_text, crate::proofs::Paths::as_text))]
fn path_in(alloc: Global, bytes: &[u8]) -> Result<Option<Path>, AllocError>
    ensures { IfOk result (λ p. p ≡ forms.path_in bytes.now) }
{
    match std::str::from_utf8(bytes) {
        Err(_) => Ok(None),
        Ok(text) => match Path::new(alloc, text) {
            Ok(path) => Ok(Some(path)),
            Err(PathFault::Memory) => Err(AllocError),
            Err(_) => Ok(None),
        },
    }
}

/// A folder without its trailing slash.
fn folder_of(rest: &[u8]) -> &[u8]
    ensures { result.now ≡ forms.without_slash rest.now }
{
    rest.strip_suffix(b"/").unwrap_or(rest)
}

/// The path of a file in a folder or at the root, if it is a path.
fn file_in(alloc: Global, folder: &[u8], file: &[u8]) -> Result<Option<Path>, AllocError>
    ensures { IfOk result (λ p. p ≡ forms.file_in folder.now file.now) }
{
    let mut path = Vec::from_slice(alloc, folder)?;
    if !folder.is_empty() {
        path.push(b'/')?;
    }
    path.extend_from_slice(file)?;
    path_in(alloc, path.as_slice())
}

fn local_step(alloc: Global, folder: &[u8]) -> Result<Form, AllocError>
    ensures { IfOk result (λ f. f ≡ forms.local_step folder.now) }
{
    let first = file_in(alloc, folder, b"action.yml")?;
    let second = file_in(alloc, folder, b"action.yaml")?;
    match (first, second) {
        (Some(first), Some(second)) => Ok(Form::Local(Target::FirstOf(first, second))),
        _ => Ok(Form::Other),
    }
}

fn is_image(text: &[u8]) -> bool
    ensures { result ≡ forms.is_image text.now }
{
    text.starts_with(b"docker://") && text.len() > 9
}

fn local_job(alloc: Global, rest: &[u8]) -> Result<Form, AllocError>
    ensures { IfOk result (λ f. f ≡ forms.local_job rest.now) }
{
    if !is_workflow(rest) {
        return Ok(Form::Wrong);
    }
    match path_in(alloc, rest)? {
        Some(path) => Ok(Form::Local(Target::Only(path))),
        None => Ok(Form::Wrong),
    }
}

/// What the text of a `uses` names.
pub(crate) fn form_by(alloc: Global, caller: Caller, text: &[u8]) -> Result<Form, AllocError>
    ensures { IfOk result (λ f. f ≡ forms.form_by caller text.now) }
{
    if contains_chunk(text) {
        return Ok(Form::Wrong);
    }
    let is_local = text.starts_with(b"./");
    match caller {
        Caller::Step if is_local => local_step(alloc, folder_of(&text[2..])),
        Caller::Job if is_local => local_job(alloc, &text[2..]),
        Caller::Step if is_image(text) => Ok(Form::Other),
        _ if is_some_cut(alloc, caller, text)? => Ok(Form::Other),
        _ => Ok(Form::Wrong),
    }
}
