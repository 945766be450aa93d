//! Which files a run takes from a disk, and in which order.

ghost use Rattle.std.specs.Prelude.{IfOk};
ghost use Rattle.al_cli.specs.Disk.{IsBounded};

use al_base::Path;
use al_base::limits::LARGEST_FILE;
use al_cli::{Disk, DiskError, Entry, Gathered, Unread, Words, gather, load};
use al_session::Refused;
use std::alloc::{AllocError, Global};
use std::collections::BTreeSet;
use std::fs;
use std::random::RandomSource;
use std::rt::Files as DiskFiles;
use std::test::Fail;

// A folder's files, by their paths and bytes.
type Files = &'static [(&'static str, &'static [u8])];

// A disk in memory that records the paths it is asked for. A file with the content `outside` stands
// for a link out of the folder.
#[derive(Drop)]
struct Held {
    files: Files,
    asked: Vec<String>,
}

impl Disk for Held {
    fn workflows(&mut self, alloc: Global, _root: &str) -> Result<BTreeSet<String>, DiskError> {
        let mut listed = BTreeSet::new(alloc);
        for (path, _) in self.files {
            if path.starts_with(".github/workflows/") {
                listed.insert(String::from_str(alloc, path)?)?;
            }
        }
        Ok(listed)
    }

    fn read(&mut self, alloc: Global, _root: &str, path: &str) -> Result<Entry, DiskError> {
        self.asked.push(String::from_str(alloc, path)?)?;
        for (held, bytes) in self.files {
            if *held == path {
                return entry_of(alloc, bytes);
            }
        }
        Ok(Entry::Absent)
    }
}

fn entry_of(alloc: Global, bytes: &[u8]) -> Result<Entry, DiskError>
    ensures { IfOk result IsBounded }
{
    if bytes == b"outside".as_slice() {
        return Ok(Entry::Outside);
    }
    let most = bytes.len().min(LARGEST_FILE + 1);
    Ok(Entry::File(Vec::from_slice(alloc, &bytes[..most])?))
}

// A workflow that calls two actions, the second of which calls itself and an action beside the
// first. The first action is outside the folder, and so is a workflow that a job calls.
static FOLDER: [(&str, &[u8]); 6] = [
    (
        ".github/workflows/a.yml",
        b"on: push\njobs: {a: {runs-on: x, steps: [{uses: ./y}, {uses: ./x}, {uses: ./x}]}, b: {uses: ./.github/workflows/b.yml}}\n",
    ),
    (
        "x/action.yml",
        b"name: x\ndescription: x\nruns: {using: composite, steps: [{uses: ./w}, {uses: ./x}]}\n",
    ),
    (
        "w/action.yaml",
        b"name: w\ndescription: w\nruns: {using: composite, steps: []}\n",
    ),
    (".github/workflows/b.yml", b"outside"),
    ("y/action.yml", b"outside"),
    ("z/action.yml", b"not called"),
];

fn folder() -> Files {
    &FOLDER
}

// First the workflows, then, one after another, the first candidate in order of path that hasn't
// been tried.
static READS: [&str; 8] = [
    ".github/workflows/a.yml",
    ".github/workflows/b.yml",
    "x/action.yaml",
    "x/action.yml",
    "w/action.yaml",
    "w/action.yml",
    "y/action.yaml",
    "y/action.yml",
];

fn reads() -> &'static [&'static str] {
    &READS
}

// The paths that lead out of the folder, in the order in which they were read.
static OUTSIDE: [&str; 2] = [".github/workflows/b.yml", "y/action.yml"];

fn outside() -> &'static [&'static str] {
    &OUTSIDE
}

fn are_these(texts: &[String], paths: &[&str]) -> bool {
    if texts.len() != paths.len() {
        return false;
    }
    for (text, path) in texts.iter().zip(paths) {
        if text.as_str() != *path {
            return false;
        }
    }
    true
}

fn are_read_in_order(alloc: Global, words: &Words<'_>) -> bool {
    let mut disk = Held {
        files: folder(),
        asked: Vec::new(alloc),
    };
    match load(alloc, &mut disk, words) {
        Ok(gathered) => {
            are_these(&disk.asked, reads()) && are_these(&gathered.outside, outside())
        }
        Err(_) => false,
    }
}

fn are_read_of_a_folder(alloc: Global) -> bool {
    let words = Words {
        oneline: false,
        session: false,
        root: ".",
        files: Vec::new(alloc),
    };
    are_read_in_order(alloc, &words)
}

#[test]
fn called_files_are_read_once_in_order(rt: HostRuntime) {
    assert!(rt; are_read_of_a_folder(rt.alloc()));
}

fn named<'a>(alloc: Global, files: &[&'a str]) -> Result<Words<'a>, AllocError> {
    let files = Vec::from_slice(alloc, files)?;
    Ok(Words {
        oneline: false,
        session: false,
        root: ".",
        files,
    })
}

// Whether the files at these paths were taken, and none was checked: the session built from them
// checks each file once.
fn are_taken(gathered: Gathered, paths: &[&str]) -> Result<bool, AllocError> {
    for path in paths {
        if gathered.files.bytes(path).is_none() {
            return Ok(false);
        }
    }
    let session = gathered.files.build()?;
    Ok(session.meter() == paths.len() as u64)
}

// Two named files, the first of which calls another.
fn takes_named(alloc: Global) -> Result<bool, AllocError> {
    let mut disk = Held {
        files: folder(),
        asked: Vec::new(alloc),
    };
    let words = named(alloc, &["./x/action.yml", "z/action.yml"])?;
    match load(alloc, &mut disk, &words) {
        Ok(gathered) => are_taken(gathered, &["x/action.yml", "w/action.yaml", "z/action.yml"]),
        Err(_) => Ok(false),
    }
}

#[test]
fn named_and_called_files_are_taken(rt: HostRuntime) -> Result<(), AllocError> {
    assert!(rt; takes_named(rt.alloc())?);
    Ok(())
}

// Whether a run on a file with this path stops for this reason, without reading it.
fn is_refused_unread(alloc: Global, path: &str, wanted: Refused) -> Result<bool, AllocError> {
    let mut disk = Held {
        files: folder(),
        asked: Vec::new(alloc),
    };
    let words = named(alloc, &[path])?;
    match load(alloc, &mut disk, &words) {
        Err(Unread::Refused(text, reason)) => {
            Ok(text.as_str() == path && reason == wanted && disk.asked.is_empty())
        }
        _ => Ok(false),
    }
}

#[test]
fn refused_paths_are_not_read(rt: HostRuntime) -> Result<(), AllocError> {
    assert!(rt; is_refused_unread(rt.alloc(), "../x.yml", Refused::BadPath)?);
    assert!(rt; is_refused_unread(rt.alloc(), "z/x.yml", Refused::NotAccepted)?);
    Ok(())
}

// Whether a file that is named twice is read once.
fn reads_once(alloc: Global) -> Result<bool, AllocError> {
    let mut disk = Held {
        files: folder(),
        asked: Vec::new(alloc),
    };
    let words = named(alloc, &["z/action.yml", "./z/action.yml"])?;
    let answer = load(alloc, &mut disk, &words);
    Ok(answer.is_ok() && are_these(&disk.asked, &["z/action.yml"]))
}

#[test]
fn a_file_that_is_named_twice_is_read_once(rt: HostRuntime) -> Result<(), AllocError> {
    assert!(rt; reads_once(rt.alloc())?);
    Ok(())
}

const LARGE: &str = "al_tests_folder/action.yml";

// A comment with this many bytes.
fn comment(alloc: Global, length: u32) -> Result<Vec<u8>, AllocError> {
    let mut bytes = Vec::new(alloc);
    for _ in 0..length {
        bytes.push(b'#')?;
    }
    Ok(bytes)
}

fn write_large<R: DiskFiles + AllocGlobal>(rt: &R, length: u32) -> Result<(), Fail> {
    let _ = fs::remove_dir_all(rt, "al_tests_folder");
    fs::create_dir(rt, "al_tests_folder")?;
    let bytes = comment(rt.alloc(), length)?;
    fs::write(rt, LARGE, bytes.as_slice())?;
    Ok(())
}

// The result of a run on the large file.
#[derive(Clone, Copy, PartialEq, Eq)]
enum Answer {
    Taken(usize),
    TooLarge,
    Other,
}

fn answer_with(files: &[(Path, Vec<u8>)]) -> Answer {
    match files {
        [(_, bytes)] => Answer::Taken(bytes.len()),
        _ => Answer::Other,
    }
}

fn answer_without(unread: &Unread) -> Answer {
    match unread {
        Unread::Refused(path, Refused::TooLarge) if path.as_str() == LARGE => Answer::TooLarge,
        _ => Answer::Other,
    }
}

fn answer_to_large<R: DiskFiles + RandomSource + AllocGlobal + Clone + Drop>(
    rt: &R,
) -> Result<Answer, AllocError> {
    let words = named(rt.alloc(), &[LARGE])?;
    match gather(rt, rt.alloc(), &words) {
        Ok(files) => Ok(answer_with(files.as_slice())),
        Err(unread) => Ok(answer_without(&unread)),
    }
}

#[test]
fn a_large_file_of_the_disk_is_not_cut(rt: HostRuntime) -> Result<(), Fail> {
    write_large(&rt, 1_048_576)?;
    assert!(rt; answer_to_large(&rt)? == Answer::Taken(1_048_576));
    write_large(&rt, 1_048_577)?;
    assert!(rt; answer_to_large(&rt)? == Answer::TooLarge);
    fs::remove_dir_all(&rt, "al_tests_folder")?;
    Ok(())
}
