//! All expressions of a file.
ghost use Rattle.std.specs.Prelude.{◌≡◌, ◌++◌, ◌+◌, OnOk};
ghost use Rattle.al_check_expressions.specs.FileExpressions.{expression_faults as faults_in};
ghost use Rattle.al_check_contexts.specs.Answered.{known_of};
ghost use Rattle.al_check_contexts.specs.Environments.{HasMoved, IsAtPosition, file_of};
ghost use Rattle.al_base.specs.Limits.{largest_file};
ghost use Rattle.al_yaml_tree.specs.Spans.{IsLaid};
ghost use Rattle.al_yaml_tree.specs.Texts.{HasTexts};
ghost use Rattle.al_yaml_tree.specs.View.{view};

use crate::contents::check_place;
use al_base::FaultSink;
use al_check_contexts::Env;
use al_check_places::places;
use std::alloc::AllocError;

/// Adds the faults of all expressions of the environment's file, X1 to X20, with spans in the file,
/// given what is known of the outputs of its calls. Moves the environment to the last place with an
/// expression.
///
/// Offsets of the file's nodes are at most 1,048,576, and its texts are UTF-8. Fails with
/// `AllocError` when out of memory; what the sink holds then is unspecified.
pub fn expression_faults(env: &mut Env<'_>, faults: &mut FaultSink) -> Result<(), AllocError>
    requires at { IsAtPosition env.old }
    requires laid { IsLaid largest_file (view (file_of env.old).root.now) }
    requires texts { HasTexts (view (file_of env.old).root.now) }
    ensures moved { OnOk result (HasMoved env.new env.old) }
    ensures ok { let f = file_of env.old in OnOk result (faults.new ≡ faults.old
        ++ faults_in f.kind (known_of f.known) (view f.root.now)) }
{
    let file = env.file();
    let found = places(env.alloc(), file.kind, file.root)?;
    for place in &found {
        env.go_to(*place)?;
        check_place(&mut env.types, &env.scope, place, faults)?;
    }
    Ok(())
}
