//! Files as they were read, and their faults.
ghost use Rattle.std.specs.List.{flat_map};
ghost use Rattle.std.specs.Prelude.{◌≡◌, ◌≤◌, ◌++◌, length, map, IfOk, OnOk};
ghost use Rattle.std.specs.Option.{option_copied};
ghost use Rattle.al_tree.specs.Faults.{root_faults};
ghost use Rattle.al_base.specs.FaultLists.{fault_list};
ghost use Rattle.al_base.specs.Growth.{SameSet};
ghost use Rattle.al_base.specs.Limits.{largest_file};
ghost use Rattle.al_tree.specs.Files.{kind_in, root_of, shape_of};
ghost use Rattle.al_yaml_tree.specs.Spans.{IsLaid};
ghost use Rattle.al_yaml_tree.specs.Texts.{HasTexts};
ghost use Rattle.al_yaml_tree.specs.View.{view};
ghost use Rattle.al_check_interfaces.specs.FolderCalls.{AreCallsOf};
ghost use Rattle.al_check_interfaces.specs.Uses as uses;
ghost use Rattle.al_lint.specs.Meaning.{AreAnswers};
ghost use Rattle.al_check.specs.FileFaults as meant;
ghost use Rattle.al_check.specs.Calling as calling;
ghost use Rattle.al_check.specs.Calling.{shown_by};
ghost use Rattle.al_tree.specs.declared.files.FileKind.{FileKind};
ghost use Rattle.al_check.specs.Reading.{IsRead};

use crate::printed_args::with_printed_args;
use al_base::{Code, Fault, FaultSink, add_copies, fault_list};
use al_check_calls::{check_calls, known_outputs, with_answers};
use al_check_contexts::Env;
use al_check_expressions::expression_faults;
use al_check_interfaces::{FolderCall, Interface, calls_in, folder_calls, interface_of};
use al_rules::rules;
use al_scalar::YamlFault;
use al_tree::{FileKind, Tree, read_action, read_workflow};
use al_yaml::read_yaml;
use al_yaml_tree::Doc;
use std::alloc::{AllocError, Global};

/// The bytes of a file, and whether they are read as a workflow or an action.
#[derive(Clone, Copy)]
pub(crate) struct Source<'a> {
    pub(crate) kind: FileKind,
    pub(crate) bytes: &'a [u8],
}

/// A file as it was read: a workflow or an action, or its YAML fault; its faults that depend on no
/// other file (syntax, rules, and every invalid `uses`); and its calls of files in the folder.
#[derive(Drop)]
pub struct ReadFile {
    pub(crate) tree: Result<Tree, YamlFault>,
    pub(crate) own: Vec<Fault>,
    pub(crate) calls: Vec<FolderCall>,
}

/// A document as a workflow or an action, with the faults of its keys and values.
fn tree_as(alloc: Global, kind: FileKind, doc: Doc) -> Result<(Tree, Vec<Fault>), AllocError>
    ensures root { IfOk result (λ r. root_of r.0 ≡ view doc.root) }
    ensures kind { IfOk result (λ r. kind_in r.0 ≡ kind) }
    ensures faults { IfOk result (λ r. r.1.items ≡ root_faults (shape_of kind) (view doc.root)) }
{
    match kind {
        FileKind::Workflow => {
            let (workflow, faults) = read_workflow(alloc, doc)?;
            Ok((Tree::Workflow(workflow), faults))
        }
        FileKind::Action => {
            let (action, faults) = read_action(alloc, doc)?;
            Ok((Tree::Action(action), faults))
        }
    }
}

/// The calls of files in the folder that a document makes. Adds the fault of every invalid `uses`.
fn document_calls(
    alloc: Global,
    tree: &Tree,
    own: &mut Vec<Fault>,
) -> Result<Vec<FolderCall>, AllocError>
    ensures calls { IfOk result
        (λ calls. AreCallsOf (kind_in tree.now) (root_of tree.now) calls.items) }
    ensures own { OnOk result (own.new.items ≡ own.old.items
        ++ flat_map uses.wrong_uses (uses.calls_in (kind_in tree.now) (root_of tree.now))) }
{
    let calls = calls_in(alloc, tree.kind(), tree.root())?;
    let mut wrong = FaultSink::new(alloc);
    let kept = folder_calls(calls.as_slice(), &mut wrong)?;
    wrong.append_to(own)?;
    Ok(kept)
}

/// Reads the bytes of a file as a workflow or an action.
pub(crate) fn read_file(alloc: Global, source: Source<'_>) -> Result<ReadFile, AllocError>
    requires { length source.bytes.now ≤ largest_file }
    ensures { IfOk result (λ file. IsRead file (source.entry).kind (source.entry).bytes.now) }
{
    let doc = match read_yaml(alloc, source.bytes)? {
        Ok(doc) => doc,
        Err(fault) => {
            return Ok(ReadFile {
                tree: Err(fault),
                own: Vec::new(alloc),
                calls: Vec::new(alloc),
            });
        }
    };
    let (tree, mut own) = tree_as(alloc, source.kind, doc)?;
    rules(alloc, &tree, &mut own)?;
    let calls = document_calls(alloc, &tree, &mut own)?;
    Ok(ReadFile {
        tree: Ok(tree),
        own,
        calls,
    })
}

/// Adds the faults of a file that depend on the answers of its calls, X1 to X20, C1 to C6 and C8:
/// those of its expressions, which see the outputs known from the answers, and those of its calls.
/// Calls with the same candidates have the same answer. Of equal faults, as of calls by aliases, at
/// least one is added.
fn faults_with_answers(
    tree: &Tree,
    kept: &[FolderCall],
    answers: &[Option<&Interface>],
    faults: &mut FaultSink,
) -> Result<(), AllocError>
    requires laid { IsLaid largest_file (root_of tree.now) }
    requires texts { HasTexts (root_of tree.now) }
    requires calls { AreCallsOf (kind_in tree.now) (root_of tree.now) kept.now }
    requires answers { let calls = uses.calls_in (kind_in tree.now) (root_of tree.now) in
        AreAnswers (uses.targets_of calls) (map (λ a. option_copied a) answers.now) }
    ensures { OnOk result (SameSet faults.new (faults.old
        ++ meant.faults_with_answers (kind_in tree.now) (root_of tree.now)
        (map (λ a. option_copied a) answers.now))) }
{
    let alloc = faults.alloc();
    let calls = calls_in(alloc, tree.kind(), tree.root())?;
    let answered = with_answers(alloc, calls.as_slice(), kept, answers)?;
    let known = known_outputs(alloc, answered.as_slice())?;
    let mut env = Env::new(alloc, known.file(tree.kind(), tree.root()))?;
    expression_faults(&mut env, faults)?;
    check_calls(&mut env, answered.as_slice(), faults)
}

/// The faults of a file that was read from this source, given the answers of its calls of files in
/// the folder: its one YAML fault, or else all faults of the document, in report order, each once.
pub(crate) fn file_faults(
    alloc: Global,
    source: Source<'_>,
    file: &ReadFile,
    answers: &[Option<&Interface>],
) -> Result<Vec<Fault>, AllocError>
    requires read { IsRead file.now source.kind source.bytes.now }
    requires answers { AreAnswers (calling.file_targets source.kind source.bytes.now)
        (map (λ a. option_copied a) answers.now) }
    ensures { IfOk result (λ found. found.items
        ≡ meant.file_faults (source.entry).kind (source.entry).bytes.now
        (map (λ a. option_copied a) answers.now)) }
{
    let mut faults = FaultSink::new(alloc);
    let tree = match &file.tree {
        Ok(tree) => tree,
        Err(fault) => {
            faults.report_plain(fault.span, Code::Yaml(fault.code))?;
            return Ok(faults.into_faults());
        }
    };
    faults_with_answers(tree, file.calls.as_slice(), answers, &mut faults)?;
    // The file's own faults, which are few, are appended to those found, which can be millions.
    let mut found = faults.into_faults();
    add_copies(alloc, &file.own, &mut found)?;
    Ok(fault_list(with_printed_args(alloc, found)?))
}

/// The interface that a file shows to its callers.
pub(crate) fn file_interface(alloc: Global, file: &ReadFile) -> Result<Interface, AllocError>
    ensures { IfOk result (λ i. i ≡ shown_by file.now) }
{
    match &file.tree {
        Err(_) => Ok(Interface::Unreadable),
        Ok(tree) => interface_of(alloc, tree.kind(), tree.root()),
    }
}
