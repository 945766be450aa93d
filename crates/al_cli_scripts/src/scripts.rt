//! The laws of scripts: each has exactly one output.

ghost use Rattle.al_cli_scripts.specs.ScriptLaws.{BeginsInOneWay, StaysWrong, PutsInOneWay};
ghost use Rattle.al_cli_scripts.specs.ScriptLaws.{PutsSomething};

/// A script begins with at most one command; a beginning that is wrong stays wrong, whatever
/// follows it; and each script has exactly one output and answer. So what
/// [`run_session`](crate::run_session) promises is one text and one answer.
pub fn script_laws()
    ensures command { BeginsInOneWay }
    ensures wrong { StaysWrong }
    ensures one_output { PutsInOneWay }
    ensures some_output { PutsSomething }
{}
