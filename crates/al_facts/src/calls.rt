//! The calls of a file: where each is, and which files it can name.

use al_json::Json;
use al_session::{Lint, Site, Target};
use al_text::limits::LARGEST_FILE;
use al_text::{Caller, Code};
use std::alloc::AllocError;

// The name of what makes the call with this code.
fn caller_name(code: Code) -> &'static str {
    match code {
        Code::Call(_, Caller::Job) => "job",
        _ => "step",
    }
}

fn push_paths(json: &mut Json, target: &Target) -> Result<(), AllocError> {
    json.list_at("paths")?;
    match target {
        Target::Only(path) => json.text(path.as_str())?,
        Target::FirstOf(first, second) => {
            json.text(first.as_str())?;
            json.text(second.as_str())?;
        }
    }
    json.close(']')
}

fn push_call(json: &mut Json, site: Site<'_>, target: &Target) -> Result<(), AllocError> {
    json.open('{')?;
    json.text_at("caller", caller_name(site.code))?;
    json.text_at("uses", site.text)?;
    push_paths(json, target)?;
    json.number_at("start", site.span.start)?;
    json.number_at("end", site.span.end)?;
    json.close('}')
}

/// Writes the calls of files in the folder, in the order of the linter.
pub fn push_calls<L: Lint>(
    json: &mut Json,
    linter: &mut L,
    path: &str,
    bytes: &[u8],
) -> Result<(), AllocError> {
    if bytes.len() > LARGEST_FILE {
        return Ok(());
    }
    let unit = linter.read(json.alloc(), path, bytes)?;
    let targets = linter.calls(json.alloc(), path, &unit)?;
    json.list_at("calls")?;
    for number in 0..targets.len() {
        push_call(json, linter.site(&unit, number), &targets[number])?;
    }
    json.close(']')
}
