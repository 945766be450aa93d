//! `al_cli`: command lines, scripts, and the files of a folder on disk.

use crate::files::{ACTION, CALLER, action, caller, missing_input};
use al_check::Actions;
use al_cli::{
    Disk, DiskError, Ending, Entry, Fatal, SystemDisk, Unread, Usage, WaitingInput, WaitingOutput,
    Words, gather, lint_all, load, number_of, parse_words, run, run_commands, run_session,
    say_skipped, say_why,
};
use al_session::{Refused, Session};
use al_text::{Format, Input, Output, Path, Stop, path_fault};
use al_tree::is_action;
use std::alloc::{AllocError, Global};
use std::fs;
use std::io::ErrorKind;
use std::random::RandomSource;
use std::rt::Files;
use std::test::Fail;
use std::time::Clock;

fn asks_for_a_file(words: &Words<'_>) -> bool {
    words.oneline
        && !words.session
        && words.root == "d"
        && words.files.as_slice() == ["a/action.yml"].as_slice()
}

fn takes(alloc: Global, given: &[&str]) -> bool {
    match parse_words(alloc, given) {
        Ok(words) => asks_for_a_file(&words),
        Err(_) => false,
    }
}

fn refuses_files(alloc: Global, given: &[&str]) -> bool {
    match parse_words(alloc, given) {
        Err(Usage::Session) => true,
        _ => false,
    }
}

#[test]
fn words(rt: HostRuntime) {
    let given = ["actionlint", "--oneline", "--root", "d", "a/action.yml"];
    assert!(rt; takes(rt.alloc(), &given));
}

#[test]
fn words_that_ask_for_no_run(rt: HostRuntime) {
    assert!(rt; refuses_files(rt.alloc(), &["actionlint", "--session", "a/action.yml"]));
}

fn script() -> &'static [u8] {
    b"put .github/workflows/a.yml 0\n\nreport\n"
}

fn replies() -> &'static [u8] {
    b"ok 1\n.github/workflows/a.yml:1:1: file is empty [syntax-check]\nstatus 1\n"
}

fn answers(alloc: Global, script: &[u8], wanted: &[u8]) -> Result<bool, Stop> {
    let mut output = Vec::new(alloc);
    let status = run_session(
        alloc,
        &mut Input::new(script),
        &mut Output::new(&mut output),
        Format::Oneline,
    )?;
    Ok(status == 1 && output.as_slice() == wanted)
}

#[test]
fn a_script(rt: HostRuntime) {
    assert!(rt; answers(rt.alloc(), script(), replies()) == Ok(true));
}

fn run_over(
    alloc: Global,
    session: &mut Session<Actions>,
    script: &[u8],
    output: &mut Vec<u8>,
) -> Result<u8, Stop> {
    run_commands(
        alloc,
        session,
        &mut Input::new(script),
        &mut Output::new(output),
        Format::Oneline,
    )
}

/// Whether a script starts with the folder that the one before it left.
fn goes_on(
    alloc: Global,
    session: &mut Session<Actions>,
    first: &[u8],
    second: &[u8],
    wanted: &[u8],
) -> Result<bool, Stop> {
    let mut output = Vec::new(alloc);
    run_over(alloc, session, first, &mut output)?;
    let status = run_over(alloc, session, second, &mut output)?;
    Ok(status == 1 && output.as_slice() == wanted)
}

fn opens_and_goes_on(alloc: Global, wanted: &[u8]) -> Result<bool, Stop> {
    let put = b"put .github/workflows/a.yml 0\n\n";
    goes_on(
        alloc,
        &mut Session::open(alloc, Actions::new()),
        put,
        b"report\n",
        wanted,
    )
}

#[test]
fn two_scripts_over_a_session(rt: HostRuntime) {
    assert!(rt; opens_and_goes_on(rt.alloc(), replies()) == Ok(true));
}

static REFUSED: [(&str, &[u8]); 2] = [(CALLER, b""), ("x.yml", b"")];

fn refused() -> &'static [(&'static str, &'static [u8])] {
    &REFUSED
}

fn is_refused(alloc: Global, files: &[(&str, &[u8])]) -> bool {
    let mut output = Vec::new(alloc);
    let answer = lint_all(alloc, files, &mut Output::new(&mut output), Format::Oneline);
    answer == Err(Fatal::Refused(1, Refused::NotAccepted)) && output.is_empty()
}

#[test]
fn a_list_with_a_wrong_path(rt: HostRuntime) {
    assert!(rt; is_refused(rt.alloc(), refused()));
}

const ROOT: &str = "al_surface_folder";

fn make_folder<R: Files + AllocGlobal>(rt: &R) -> Result<(), Fail> {
    let _ = fs::remove_dir_all(rt, ROOT);
    fs::create_dir_all(rt, "al_surface_folder/.github/workflows")?;
    fs::create_dir_all(rt, "al_surface_folder/a")?;
    fs::write(rt, "al_surface_folder/.github/workflows/c.yml", caller())?;
    fs::write(rt, "al_surface_folder/a/action.yml", action())?;
    Ok(())
}

/// The report on files, and its status.
fn report(alloc: Global, files: &[(Path, Vec<u8>)]) -> Result<(u8, Vec<u8>), Fatal> {
    let mut listed: Vec<(&str, &[u8])> = Vec::new(alloc);
    for (path, bytes) in files {
        if listed.push((path.as_str(), bytes.as_slice())).is_err() {
            return Err(Fatal::Stopped(Stop::Memory));
        }
    }
    let mut output = Vec::new(alloc);
    let status = lint_all(
        alloc,
        &listed,
        &mut Output::new(&mut output),
        Format::Oneline,
    )?;
    Ok((status, output))
}

fn are_both(files: &[(Path, Vec<u8>)]) -> bool {
    match files {
        [(first, _), (second, _)] => first.as_str() == CALLER && second.as_str() == ACTION,
        _ => false,
    }
}

fn is_reported(alloc: Global, files: &[(Path, Vec<u8>)], wanted: &[u8]) -> bool {
    match report(alloc, files) {
        Ok((status, output)) => are_both(files) && status == 1 && output.as_slice() == wanted,
        Err(_) => false,
    }
}

/// What a run over a whole folder is asked for.
fn words_for(alloc: Global, root: &str) -> Words<'_> {
    Words {
        oneline: true,
        session: false,
        root,
        files: Vec::new(alloc),
    }
}

/// Whether the files of the folder are its only workflow and the action that this calls, and their
/// report is this one.
fn gathers<R: Files + RandomSource + AllocGlobal + Clone + Drop>(rt: &R, wanted: &[u8]) -> bool {
    match gather(rt, rt.alloc(), &words_for(rt.alloc(), ROOT)) {
        Ok(files) => is_reported(rt.alloc(), &files, wanted),
        Err(_) => false,
    }
}

/// Whether listing a missing folder fails.
fn is_unread<R: Files + RandomSource + AllocGlobal + Clone + Drop>(rt: &R) -> bool {
    match gather(
        rt,
        rt.alloc(),
        &words_for(rt.alloc(), "al_surface_no_folder"),
    ) {
        Err(Unread::Unreadable(path)) => path.as_str() == ".github/workflows",
        _ => false,
    }
}

/// Whether loading the folder from a disk reads the action.
fn loads_action<D: Disk>(alloc: Global, disk: &mut D) -> bool {
    match load(alloc, disk, &words_for(alloc, ROOT)) {
        Ok(loaded) => loaded.files.bytes(ACTION) == Some(action()) && loaded.outside.is_empty(),
        Err(_) => false,
    }
}

/// Whether a session under the seed of a disk begins without files.
fn is_empty<D: Disk>(alloc: Global, disk: &D) -> bool {
    let session = Session::open_seeded(alloc, Actions::new(), disk.seed());
    session.path_at(0).is_none()
}

fn lists_workflow<D: Disk>(alloc: Global, disk: &mut D) -> Result<bool, DiskError> {
    let listed = disk.workflows(alloc, ROOT)?;
    Ok(listed.len() == 1 && listed.contains(CALLER))
}

fn is_file(entry: &Entry, wanted: &[u8]) -> bool {
    match entry {
        Entry::File(bytes) => bytes.as_slice() == wanted,
        _ => false,
    }
}

/// Whether a disk has an action at a path of the folder.
fn holds_action<D: Disk>(alloc: Global, disk: &mut D, path: &str) -> Result<bool, DiskError> {
    if path_fault(path).is_some() || !is_action(path.as_bytes()) {
        return Ok(false);
    }
    let entry = disk.read(alloc, ROOT, path)?;
    Ok(is_file(&entry, action()))
}

fn arguments() -> &'static [&'static str] {
    &["actionlint", "--oneline", "--root", ROOT]
}

/// Whether a run over the folder writes this report.
fn runs<D: Disk, C: Clock>(alloc: Global, disk: &mut D, clock: &C, wanted: &[u8]) -> bool {
    let mut text = Vec::new(alloc);
    let mut errors = Vec::new(alloc);
    let ending = run(
        alloc,
        arguments(),
        disk,
        &mut Input::new(WaitingInput::new(b"".as_slice(), clock)),
        &mut Output::new(WaitingOutput::new(&mut text, clock)),
        &mut errors,
    );
    ending.status() == 1 && text.as_slice() == wanted && errors.is_empty()
}

#[test]
fn a_folder_of_the_disk(rt: HostRuntime) -> Result<(), Fail> {
    make_folder(&rt)?;
    assert!(rt; gathers(&rt, missing_input()));
    assert!(rt; is_unread(&rt));
    assert!(rt; loads_action(rt.alloc(), &mut SystemDisk::new(&rt)));
    assert!(rt; lists_workflow(rt.alloc(), &mut SystemDisk::new(&rt)) == Ok(true));
    assert!(rt; holds_action(rt.alloc(), &mut SystemDisk::new(&rt), ACTION) == Ok(true));
    assert!(rt; is_empty(rt.alloc(), &SystemDisk::new(&rt)));
    assert!(rt; runs(rt.alloc(), &mut SystemDisk::new(&rt), &rt, missing_input()));
    fs::remove_dir_all(&rt, ROOT)?;
    Ok(())
}

fn says_skipped(alloc: Global, path: &str, wanted: &[u8]) -> Result<bool, AllocError> {
    let mut text = Vec::new(alloc);
    let paths = [String::from_str(alloc, path)?];
    Ok(say_skipped(&mut text, &paths).is_ok() && text.as_slice() == wanted)
}

#[test]
fn what_a_run_skipped(rt: HostRuntime) {
    let wanted = b"actionlint: skipped a/action.yml: symbolic link points outside the folder\n";
    assert!(rt; says_skipped(rt.alloc(), ACTION, wanted) == Ok(true));
}

fn says(alloc: Global, ending: &Ending, wanted: &[u8]) -> bool {
    let mut text = Vec::new(alloc);
    say_why(&mut text, ending).is_ok() && text.as_slice() == wanted
}

#[test]
fn why_a_run_ended(rt: HostRuntime) {
    let wanted = b"actionlint: arguments are not valid UTF-8\n";
    assert!(rt;
        says(
            rt.alloc(),
            &Ending::of_unreadable(ErrorKind::InvalidData),
            wanted
        )
    );
}

#[test]
fn statuses_and_numbers(rt: HostRuntime) {
    assert!(rt; Ending::of_unreadable(ErrorKind::OutOfMemory).status() == 3);
    assert!(rt; number_of(Refused::NotAccepted) == 2);
}
