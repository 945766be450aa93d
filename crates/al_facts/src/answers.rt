//! The answer to each command.

use crate::calls::push_calls;
use crate::commands::{Command, Question, Wrong};
use al_check::Actions;
use al_cli::number_of;
use al_facts_tables::push_tables;
use al_facts_trees::{Form, property_owners, push_node, push_places};
use al_json::{FileFaults, Json, join_faults, push_faults};
use al_session::{Edit, Refused, Session};
use al_text::limits::{LARGEST_FILE, MOST_FILES};
use al_text::{Args, Code, Fault, Path};
use al_tree::file_kind;
use al_yaml::{Node, YamlFault, read_yaml};
use std::alloc::{AllocError, Global};

/// The commands, as `help` lists them.
static COMMANDS: [&str; 13] = [
    "help",
    "put PATH LENGTH",
    "delete PATH",
    "faults PATH",
    "first PATH COUNT",
    "report",
    "cycles",
    "lacks",
    "tree PATH",
    "expressions PATH",
    "calls PATH",
    "bytes QUESTION PATH LENGTH",
    "tables",
];

fn commands() -> &'static [&'static str] {
    &COMMANDS
}

/// Why bytes aren't a command, in words.
fn words_of(wrong: Wrong) -> &'static str {
    match wrong {
        Wrong::Unknown => "unknown command",
        Wrong::NotUtf8 => "the line is not UTF-8",
        Wrong::LongLine => "the line has more than 2048 bytes",
        Wrong::NoNumber => "the command needs a path and a number of at most seven digits",
        Wrong::NoLineFeed => "no line feed follows the bytes",
        Wrong::Cut => "the input ends before the command does",
    }
}

/// An error, with the reason.
fn error(alloc: Global, reason: &str) -> Result<Json, AllocError> {
    let mut json = Json::new(alloc);
    json.open('{')?;
    json.text_at("error", reason)?;
    json.close('}')?;
    Ok(json)
}

/// The answer to what isn't a command.
pub fn wrong_answer(alloc: Global, wrong: Wrong) -> Result<Json, AllocError> {
    error(alloc, words_of(wrong))
}

fn help(alloc: Global) -> Result<Json, AllocError> {
    let mut json = Json::new(alloc);
    json.open('{')?;
    json.list_at("commands")?;
    for command in commands() {
        json.text(*command)?;
    }
    json.close(']')?;
    json.close('}')?;
    Ok(json)
}

// An object with a list of paths under a key.
fn paths(alloc: Global, key: &str, paths: &[Path]) -> Result<Json, AllocError> {
    let mut json = Json::new(alloc);
    json.open('{')?;
    json.list_at(key)?;
    for path in paths {
        json.text(path.as_str())?;
    }
    json.close(']')?;
    json.close('}')?;
    Ok(json)
}

fn refusal(alloc: Global, refused: Refused) -> Result<Json, AllocError> {
    let number = number_of(refused);
    let code = format!(in alloc; "E{number}")?;
    let reason = format!(in alloc; "{refused}")?;
    let mut json = Json::new(alloc);
    json.open('{')?;
    json.text_at("refused", code.as_str())?;
    json.text_at("reason", reason.as_str())?;
    json.close('}')?;
    Ok(json)
}

fn edited(alloc: Global, edit: &Result<Edit, Refused>) -> Result<Json, AllocError> {
    match edit {
        Ok(edit) => paths(alloc, "rechecked", edit.rechecked.as_slice()),
        Err(reason) => refusal(alloc, *reason),
    }
}

fn lacks(alloc: Global, session: &Session<Actions>) -> Result<Json, AllocError> {
    let missing = session.missing()?;
    paths(alloc, "lacks", missing.as_slice())
}

/// The number of a file in order of path.
fn number_at(session: &Session<Actions>, path: &str) -> Option<usize> {
    for number in 0..MOST_FILES {
        if session.path_at(number) == Some(path) {
            return Some(number);
        }
    }
    None
}

// The faults of a file's calls on a call cycle.
fn cycles_at<'a>(cycles: &'a [Vec<Fault>], number: Option<usize>) -> &'a [Fault] {
    match number {
        Some(number) if number < cycles.len() => cycles[number].as_slice(),
        _ => &[],
    }
}

/// Bytes, and the path by which they are read.
#[derive(Clone, Copy)]
struct Source<'a> {
    path: &'a str,
    bytes: &'a [u8],
}

// Writes the key `faults` with these faults of a file, in the order of reports.
fn push_listed(json: &mut Json, source: Source<'_>, faults: &[&Fault]) -> Result<(), AllocError> {
    let Source { path, bytes } = source;
    let owners = &property_owners(json.alloc(), path, bytes, faults)?;
    push_faults(
        json,
        FileFaults {
            path,
            bytes,
            faults,
            owners,
        },
    )
}

// Writes the key `faults` with the faults of a file and those of its calls on a call cycle: all, or
// the first ones, and then the number of the others.
fn push_found(
    json: &mut Json,
    source: Source<'_>,
    own: &[Fault],
    cycles: &[Fault],
    most: Option<usize>,
) -> Result<(), AllocError> {
    let mut joined = join_faults(json.alloc(), own, cycles)?;
    let Some(most) = most else {
        return push_listed(json, source, joined.as_slice());
    };
    let others = joined.len().saturating_sub(most);
    joined.truncate(most);
    push_listed(json, source, joined.as_slice())?;
    json.key("more")?;
    json.number(others as u64)
}

/// The faults of a file, those of call cycles included: all of them, or the first ones and the
/// number of the others.
fn file_faults(
    alloc: Global,
    session: &mut Session<Actions>,
    path: &str,
    most: Option<usize>,
) -> Result<Json, AllocError> {
    let all_cycles = session.call_cycle_faults()?;
    let cycles = cycles_at(all_cycles.as_slice(), number_at(session, path));
    let (Some(bytes), Some(own)) = (session.bytes(path), session.faults(path)) else {
        return error(alloc, "no file has this path");
    };
    let mut json = Json::new(alloc);
    json.open('{')?;
    push_found(&mut json, Source { path, bytes }, own, cycles, most)?;
    json.close('}')?;
    Ok(json)
}

// Writes a file and its faults, if it has some.
fn push_file(
    json: &mut Json,
    session: &Session<Actions>,
    path: &str,
    own: &[Fault],
    cycles: &[Fault],
) -> Result<(), AllocError> {
    if own.is_empty() && cycles.is_empty() {
        return Ok(());
    }
    let bytes = session.bytes(path).unwrap_or(&[]);
    json.open('{')?;
    json.text_at("path", path)?;
    push_found(json, Source { path, bytes }, own, cycles, None)?;
    json.close('}')
}

/// Which faults a list of files has.
#[derive(Clone, Copy)]
enum Listing {
    All,
    Cycles,
}

// The faults of a file of its own that are listed.
fn own_faults<'a>(session: &'a Session<Actions>, listing: Listing, path: &str) -> &'a [Fault] {
    match listing {
        Listing::All => session.faults(path).unwrap_or(&[]),
        Listing::Cycles => &[],
    }
}

/// The files with faults, in order of path.
fn files(
    alloc: Global,
    session: &Session<Actions>,
    listing: Listing,
    cycles: &[Vec<Fault>],
) -> Result<Json, AllocError> {
    let mut json = Json::new(alloc);
    json.open('{')?;
    json.list_at("files")?;
    for number in 0..MOST_FILES {
        if let Some(path) = session.path_at(number) {
            let own = own_faults(session, listing, path);
            push_file(
                &mut json,
                session,
                path,
                own,
                cycles_at(cycles, Some(number)),
            )?;
        }
    }
    json.close(']')?;
    json.close('}')?;
    Ok(json)
}

/// The first fault of a file, because of which it has no tree.
fn push_yaml_fault(
    json: &mut Json,
    source: Source<'_>,
    fault: YamlFault,
) -> Result<(), AllocError> {
    let fault = Fault {
        span: fault.span,
        code: Code::Yaml(fault.code),
        args: Args::none(),
    };
    push_listed(json, source, &[&fault])
}

// Writes what is asked about bytes with this tree.
fn push_answer(
    json: &mut Json,
    question: Question,
    source: Source<'_>,
    root: &Node,
) -> Result<(), AllocError> {
    match question {
        Question::Expressions => push_places(json, file_kind(source.path.as_bytes()), root),
        Question::Calls => push_calls(json, &mut Actions::new(), source.path, source.bytes),
        Question::Tree => {
            json.key("tree")?;
            push_node(json, Form::Answers, root, false)
        }
    }
}

/// What is asked about bytes, or the fault because of which they have no tree.
fn read_source(alloc: Global, question: Question, source: Source<'_>) -> Result<Json, AllocError> {
    if source.bytes.len() > LARGEST_FILE {
        return error(alloc, "more than 1,048,576 bytes");
    }
    let mut json = Json::new(alloc);
    json.open('{')?;
    match read_yaml(alloc, source.bytes)? {
        Ok(doc) => push_answer(&mut json, question, source, &doc.root)?,
        Err(fault) => push_yaml_fault(&mut json, source, fault)?,
    }
    json.close('}')?;
    Ok(json)
}

/// What is asked about a file of the folder.
fn read_file(
    alloc: Global,
    session: &Session<Actions>,
    question: Question,
    path: &str,
) -> Result<Json, AllocError> {
    match session.bytes(path) {
        Some(bytes) => read_source(alloc, question, Source { path, bytes }),
        None => error(alloc, "no file has this path"),
    }
}

fn tables(alloc: Global) -> Result<Json, AllocError> {
    let mut json = Json::new(alloc);
    json.open('{')?;
    push_tables(&mut json)?;
    json.close('}')?;
    Ok(json)
}

fn listed(
    alloc: Global,
    session: &mut Session<Actions>,
    listing: Listing,
) -> Result<Json, AllocError> {
    let cycles = session.call_cycle_faults()?;
    files(alloc, session, listing, cycles.as_slice())
}

/// The answer to a command, or [`AllocError`]. Edits are carried out as a whole or not at all.
pub fn answer(
    alloc: Global,
    session: &mut Session<Actions>,
    command: Command<'_>,
) -> Result<Json, AllocError> {
    match command {
        Command::Help => help(alloc),
        Command::Put(path, bytes) => edited(alloc, &session.put(path, bytes)),
        Command::Delete(path) => edited(alloc, &session.delete(path)),
        Command::Faults(path) => file_faults(alloc, session, path, None),
        Command::First(path, most) => file_faults(alloc, session, path, Some(most)),
        Command::Report => listed(alloc, session, Listing::All),
        Command::Cycles => listed(alloc, session, Listing::Cycles),
        Command::Lacks => lacks(alloc, session),
        Command::Tables => tables(alloc),
        Command::Of(question, path) => read_file(alloc, session, question, path),
        Command::OfBytes(question, path, bytes) => {
            read_source(alloc, question, Source { path, bytes })
        }
    }
}
