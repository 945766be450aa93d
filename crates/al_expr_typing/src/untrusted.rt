//! Paths to text that outsiders can write, which must not get into a script.

ghost use Rattle.std.specs.Prelude.{◌≡◌, ◌∷◌, IfOk, find, map, option_map, string_bytes};
ghost use Rattle.std.specs.Cmp.Lexicographic.{pointwise};
ghost use Rattle.std.specs.List.{join_with_byte};
ghost use Rattle.al_base.specs.Ascii.{ascii};
ghost use Rattle.al_expr_typing.specs.Untrusted.{untrusted_chain, chain_part};
ghost use Rattle.al_base.specs.Names.{same_name};
ghost use Rattle.al_expr_grammar.specs.View.{step_of};

use crate::literals::literal_text;
use al_base::is_same_name;
use al_expr_grammar::PathStep;
use std::alloc::{AllocError, Global};

type Parts = &'static [&'static str];

/// Chains whose text is untrusted, such as the title of an issue or the name of a branch.
const UNTRUSTED: [Parts; 18] = [
    &["github", "head_ref"],
    &["github", "event", "issue", "title"],
    &["github", "event", "issue", "body"],
    &["github", "event", "pull_request", "title"],
    &["github", "event", "pull_request", "body"],
    &["github", "event", "pull_request", "head", "ref"],
    &["github", "event", "pull_request", "head", "label"],
    &["github", "event", "comment", "body"],
    &["github", "event", "review", "body"],
    &["github", "event", "discussion", "title"],
    &["github", "event", "discussion", "body"],
    &["github", "event", "pages", "*", "page_name"],
    &["github", "event", "commits", "*", "message"],
    &["github", "event", "commits", "*", "author", "name"],
    &["github", "event", "commits", "*", "author", "email"],
    &["github", "event", "head_commit", "message"],
    &["github", "event", "head_commit", "author", "name"],
    &["github", "event", "head_commit", "author", "email"],
];

/// The untrusted chain that a name with these steps is, with dots between its parts.
pub(crate) fn untrusted_chain(
    alloc: Global,
    name: &str,
    steps: &[PathStep<'_>],
) -> Result<Option<String>, AllocError>
    ensures { IfOk result (λ c. option_map string_bytes c
        ≡ untrusted_chain (name.now ∷ map chain_part (map step_of steps.now))) }
{
    let found = find_chain(alloc, &UNTRUSTED, name, steps)?;
    chain_text(alloc, found)
}

#[tactic(auto, using(crate::proofs::ChainTexts::joined))]
fn chain_text(alloc: Global, chain: Option<Parts>) -> Result<Option<String>, AllocError>
    ensures { IfOk result
        (λ c. option_map string_bytes c ≡ option_map (join_with_byte (ascii "."))
        (option_map (λ p. map (λ q. q.now) p.now) chain.entry)) }
{
    match chain {
        Some(parts) => Ok(Some(parts.join(alloc, ".")?)),
        None => Ok(None),
    }
}

fn find_chain<'c>(
    alloc: Global,
    chains: &'c [Parts],
    name: &str,
    steps: &[PathStep<'_>],
) -> Result<Option<Parts>, AllocError>
    ensures { IfOk result (λ c. option_map (λ p. map (λ q. q.now) p.now) c
        ≡ find (λ p. pointwise same_name p (name.now ∷ map chain_part (map step_of steps.now)))
        (map (λ p. map (λ q. q.now) p.now) chains.now)) }
{
    for chain in chains {
        if is_chain(alloc, chain, name, steps)? {
            return Ok(Some(*chain));
        }
    }
    Ok(None)
}

fn is_chain(
    alloc: Global,
    chain: &[&str],
    name: &str,
    steps: &[PathStep<'_>],
) -> Result<bool, AllocError>
    ensures { IfOk result
        (λ b. b ≡ pointwise same_name (map (λ p. p.now) chain.now)
        (name.now ∷ map chain_part (map step_of steps.now))) }
{
    let [first, rest @ ..] = chain else {
        return Ok(false);
    };
    if rest.len() != steps.len() {
        return Ok(false);
    }
    if !is_same_name(first.as_bytes(), name.as_bytes()) {
        return Ok(false);
    }
    for (index, step) in steps.iter().enumerate() {
        if !is_part(alloc, rest[index], step)? {
            return Ok(false);
        }
    }
    Ok(true)
}

#[tactic(auto, using(al_expr_grammar::proofs::TreeViews::step_views))]
fn is_part(alloc: Global, part: &str, step: &PathStep<'_>) -> Result<bool, AllocError>
    ensures { IfOk result (λ b. b ≡ same_name part.now (chain_part (step_of step.now))) }
{
    let part = part.as_bytes();
    match step {
        PathStep::Property(_, name) => Ok(is_same_name(part, name.text.as_bytes())),
        PathStep::All(_, _) => Ok(is_same_name(part, b"*")),
        PathStep::Index(_, index, _) => match literal_text(alloc, index)? {
            Some(literal) => Ok(is_same_name(part, literal.value.as_bytes())),
            None => Ok(is_same_name(part, b"*")),
        },
    }
}
