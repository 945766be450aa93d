//! What the undefined properties of a file are read from, by the trees of its expressions.

use crate::contents::{Origin, contents, offset_in_file};
use al_check::{Place, places};
use al_expr::{Expr, PathStep, Word, parse_expr};
use al_json::Owners;
use al_text::Fault;
use al_text::limits::LARGEST_FILE;
use al_tree::file_kind;
use al_yaml::read_yaml;
use std::alloc::{AllocError, Global};

/// The string literal that an index is, in brackets or not.
fn literal<'a>(index: &Expr<'a>) -> Option<Word<'a>> {
    match index {
        Expr::Text(word) => Some(*word),
        Expr::Group(inner, _, _) => literal(inner),
        _ => None,
    }
}

/// The name or the string literal of a step to a property.
fn property<'a>(path_step: &PathStep<'a>) -> Option<Word<'a>> {
    match path_step {
        PathStep::Property(_, word) => Some(*word),
        PathStep::All(_, _) => None,
        PathStep::Index(_, index, _) => literal(index),
    }
}

/// A name, or the value of a string literal.
fn name_of(alloc: Global, word: Word<'_>) -> Result<String, AllocError> {
    match word.text.strip_prefix('\'') {
        None => String::from_str(alloc, word.text),
        Some(rest) => rest
            .strip_suffix('\'')
            .unwrap_or(rest)
            .replace(alloc, "''", "'"),
    }
}

// The name of a step, or `*`.
fn step_name(alloc: Global, path_step: &PathStep<'_>) -> Result<String, AllocError> {
    match property(path_step) {
        Some(word) => name_of(alloc, word),
        None => String::from_str(alloc, "*"),
    }
}

/// The names of a context and of the steps from it.
fn names_of(
    alloc: Global,
    context: Word<'_>,
    steps: &[PathStep<'_>],
) -> Result<Vec<String>, AllocError> {
    let mut names = Vec::new(alloc);
    names.push(name_of(alloc, context)?)?;
    for path_step in steps {
        names.push(step_name(alloc, path_step)?)?;
    }
    Ok(names)
}

/// Sets the names before the undefined property of a path, if it has one. A path has at most one,
/// since what follows can be anything.
fn set_in_path(
    alloc: Global,
    owners: &mut Owners,
    origin: Origin<'_>,
    base: &Expr<'_>,
    steps: &[PathStep<'_>],
) -> Result<(), AllocError> {
    let Expr::Name(context) = base else {
        return Ok(());
    };
    for (number, path_step) in steps.iter().enumerate() {
        if let Some(word) = property(path_step) {
            let offset = offset_in_file(origin, word.span.start);
            if owners.has(offset) {
                owners.set(offset, names_of(alloc, *context, &steps[..number])?);
            }
        }
    }
    Ok(())
}

/// Sets the names before the undefined properties of an expression.
#[cycle(owners)]
fn set_in_expr(
    alloc: Global,
    owners: &mut Owners,
    origin: Origin<'_>,
    expr: &Expr<'_>,
) -> Result<(), AllocError> {
    match expr {
        Expr::Keyword(_, _) | Expr::Number(_) | Expr::Text(_) | Expr::Name(_) => Ok(()),
        Expr::Group(inner, _, _) => set_in_expr(alloc, owners, origin, inner),
        Expr::Not(_, operand) => set_in_expr(alloc, owners, origin, operand),
        Expr::Call(_, arguments, _) => {
            for argument in arguments {
                set_in_expr(alloc, owners, origin, argument)?;
            }
            Ok(())
        }
        Expr::Path(base, steps) => {
            set_in_path(alloc, owners, origin, base, steps.as_slice())?;
            set_in_expr(alloc, owners, origin, base)?;
            for path_step in steps {
                set_in_step(alloc, owners, origin, path_step)?;
            }
            Ok(())
        }
        Expr::Chain(first, operands) => {
            set_in_expr(alloc, owners, origin, first)?;
            for operand in operands {
                set_in_expr(alloc, owners, origin, &operand.expr)?;
            }
            Ok(())
        }
    }
}

#[cycle(owners)]
fn set_in_step(
    alloc: Global,
    owners: &mut Owners,
    origin: Origin<'_>,
    path_step: &PathStep<'_>,
) -> Result<(), AllocError> {
    match path_step {
        PathStep::Property(_, _) | PathStep::All(_, _) => Ok(()),
        PathStep::Index(_, index, _) => set_in_expr(alloc, owners, origin, index),
    }
}

fn set_in_place(alloc: Global, owners: &mut Owners, place: &Place<'_>) -> Result<(), AllocError> {
    let (found, _) = contents(alloc, place)?;
    for chunk in &found {
        let origin = Origin {
            scalar: place.scalar,
            start: chunk.span.start,
        };
        if let Ok(expr) = parse_expr(alloc, chunk.content)? {
            set_in_expr(alloc, owners, origin, &expr)?;
        }
    }
    Ok(())
}

/// What the undefined properties among some faults of a file are read from. The file is read again
/// if there are any.
pub fn property_owners(
    alloc: Global,
    path: &str,
    bytes: &[u8],
    faults: &[&Fault],
) -> Result<Owners, AllocError> {
    let mut owners = Owners::of(alloc, faults)?;
    if owners.is_empty() || bytes.len() > LARGEST_FILE {
        return Ok(owners);
    }
    if let Ok(doc) = read_yaml(alloc, bytes)? {
        for place in &places(alloc, file_kind(path.as_bytes()), &doc.root)? {
            set_in_place(alloc, &mut owners, place)?;
        }
    }
    Ok(owners)
}
