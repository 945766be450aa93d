//! Call cycles.

ghost use Rattle.std.specs.Prelude.{◌≡◌, ◌<◌, ◌++◌, ◌==◌, [], ◌∷◌, ℕ, List, None, Some, Contains};
ghost use Rattle.std.specs.Prelude.{cond, length, not};
ghost use Rattle.std.specs.Prelude.{nat_eq, slice_get, slice_index_or};
ghost use Rattle.std.specs.Prelude.{IfOk, IfSome, OnOk};
ghost use Rattle.std.specs.List.{filter_map, list_any};
ghost use Rattle.std.specs.Option.{option_eq};
ghost use Rattle.al_graph.specs.Graphs.{edges_of};
ghost use Rattle.al_session_folder.specs.Kept.{AreKept, folder_of};
ghost use Rattle.al_session_folder.specs.Cycles as cycles;
ghost use Rattle.al_session_folder.specs.CallGraphs.{AreLinked, IsCallGraph, IsCalledBy};
ghost use Rattle.al_session_folder.specs.CallGraphs.{TellCycles};
ghost use Rattle.al_lint.specs.Sites.{site_fault};

use crate::kept::Files;
use crate::place::file_number;
use al_base::{Args, Fault, FaultSink, Path};
use al_graph::strongly_connected_components;
use al_lint::{Lint, Site, Target};
use std::alloc::{AllocError, Global};
use std::marker::Model;

/// The calls between the files of a folder, which are numbered in order of path. It depends only on
/// the paths of the files and on their calls.
#[derive(Drop)]
pub struct CallGraph {
    // For each file the numbers of the files that its calls lead to.
    graph: Vec<Vec<usize>>,
    // A label for each file. If calls lead from one file to another, the two have the same label if
    // and only if calls also lead from the other to the first.
    labels: Vec<Option<usize>>,
}

/// The number of the file with a path, if there is one.
fn number_of<U, I>(files: &Files<U, I>, path: &Path) -> Option<usize>
    ensures number { result ≡ cycles.number_of_path (folder_of files.now.entries) path.now }
    ensures inside { IfSome result (λ number. number < length files.now.entries) }
{
    files.get_index_of(path.as_str())
}

/// The number of the file that a call leads to: the first candidate that is in the folder.
fn callee<U, I>(files: &Files<U, I>, target: &Target) -> Option<usize>
    ensures number { result ≡ cycles.callee (folder_of files.now.entries) target.now }
    ensures inside { IfSome result (λ number. number < length files.now.entries) }
{
    match target {
        Target::Only(path) => number_of(files, path),
        Target::FirstOf(first, second) => {
            number_of(files, first).or_else(|| number_of(files, second))
        }
    }
}

/// The numbers of the files that calls lead to, in order.
fn callees<U, I>(files: &Files<U, I>, targets: &[Target]) -> Result<Vec<usize>, AllocError>
    ensures { IfOk result
        (λ numbers. numbers.items
        ≡ filter_map (cycles.callee (folder_of files.now.entries)) targets.now) }
{
    targets
        .iter()
        .filter_map(|target| callee(files, target))
        .collect(*files.allocator())
}

/// For each file the numbers of the files that its calls lead to.
fn calls_graph<L: Lint>(files: &Files<L::Unit, L::Iface>) -> Result<Vec<Vec<usize>>, AllocError>
    requires { AreKept L.meaning L.is_unit files.now.entries }
    ensures { IfOk result
        (λ graph. edges_of graph.items
        ≡ cycles.calls_graph L.meaning (folder_of files.now.entries)) }
{
    let mut graph = Vec::with_capacity(*files.allocator(), files.len())?;
    for index in 0..files.len() {
        let (_, file) = file_number(files, index);
        graph.push(callees(files, &file.calls.targets)?)?;
    }
    Ok(graph)
}

/// The calls between the files, with the strongly connected components of their graph.
///
/// Takes time proportional to the files and calls; candidates are looked up by hash.
///
/// # Errors
///
/// [`AllocError`] if memory runs out.
pub fn call_graph<L: Lint>(files: &Files<L::Unit, L::Iface>) -> Result<CallGraph, AllocError>
    requires { AreKept L.meaning L.is_unit files.now.entries }
    ensures { IfOk result
        (λ calls. IsCallGraph L.meaning
        (folder_of files.now.entries) calls.graph.items calls.labels.items) }
{
    let graph = calls_graph::<L>(files)?;
    let labels = strongly_connected_components(*graph.allocator(), graph.as_slice())?;
    Ok(CallGraph { graph, labels })
}

/// Whether one of these nodes has the label of a node.
fn has_label_of(nodes: &[usize], labels: &[Option<usize>], node: usize) -> bool
    requires nodes { (k : ℕ) → Contains nodes.now k → k < length labels.now }
    requires node { node < length labels.now }
    ensures { result ≡ list_any
        (λ k. option_eq nat_eq (slice_index_or labels.now k None)
        (slice_index_or labels.now node None)) nodes.now }
{
    let label = labels[node];
    for other in nodes {
        if labels[*other] == label {
            return true;
        }
    }
    false
}

/// Whether a call of the file with this number is on a call cycle, by the number of the file that
/// the call leads to.
fn is_on_cycle(labels: &[Option<usize>], index: usize, to: Option<usize>) -> bool
    requires index { index < length labels.now }
    requires to { IfSome to (λ number. number < length labels.now) }
    ensures { (graph : List (List ℕ)) → TellCycles graph labels.now → IsCalledBy graph index to
        → result ≡ cycles.is_on_cycle graph index to }
{
    match to {
        None => false,
        Some(to) => labels[to] == labels[index],
    }
}

/// Adds the fault of a call, if it is on a cycle.
fn add_fault_if(is_on_cycle: bool, site: Site<'_>, faults: &mut FaultSink) -> Result<(), AllocError>
    ensures { OnOk result
        (faults.new ≡ faults.old ++ cond is_on_cycle (site_fault site.entry ∷ []) []) }
{
    if is_on_cycle {
        let args = Args::one(String::from_str(faults.alloc(), site.text)?);
        faults.report(site.span, site.code, args)?;
    }
    Ok(())
}

/// The files of a folder, with the graph of their calls. Contracts see the folder.
#[derive(Drop)]
pub struct LinkedFiles<'a, L: Lint> {
    files: &'a Files<L::Unit, L::Iface>,
    calls: &'a CallGraph,
}

impl<'a, L: Lint> Model for LinkedFiles<'a, L> {
    ghost use Rattle.al_session_folder.specs.Folder.{Folder};
    ghost use Rattle.al_session_folder.specs.Kept.{folder_of};
    ghost use Rattle.al_session_folder.specs.CallGraphs.{AreLinked};

    ghost Value = { Folder };

    ghost view = { λ l. folder_of l.files.now.entries };

    ghost invariant = { λ l. AreLinked L.meaning L.is_unit l.files.now.entries
        l.calls.now.graph.items l.calls.now.labels.items };
}

impl<'a, L: Lint> LinkedFiles<'a, L> {
    /// These files with the graph of their calls.
    pub fn new(files: &'a Files<L::Unit, L::Iface>, calls: &'a CallGraph) -> LinkedFiles<'a, L>
        requires { AreLinked L.meaning L.is_unit files.now.entries calls.now.graph.items
            calls.now.labels.items }
        ensures { result ≡ folder_of files.now.entries }
    {
        LinkedFiles { files, calls }
    }

    /// The allocator of the files.
    pub(crate) fn alloc(&self) -> Global {
        *self.files.allocator()
    }

    /// How many files there are.
    pub(crate) fn count(&self) -> usize
        ensures { result ≡ length self.now }
    {
        self.files.len()
    }

    /// Whether any call of the file with this number is on a call cycle, that is, leads to a file
    /// in its strongly connected component. Looks at no file.
    pub fn has_call_on_cycle(&self, index: usize) -> bool
        requires { index < length self.now }
        ensures { (p b : List ℕ) → slice_get self.now index ≡ Some (p, b) → result
            ≡ not (length (cycles.call_cycle_faults L.meaning self.now index p b) == 0) }
    {
        let row = self.calls.graph[index].as_slice();
        has_label_of(row, &self.calls.labels, index)
    }

    /// The faults of the calls of the file with this number that are on a call cycle, in the order
    /// of the calls. If none is, no candidate is looked up.
    ///
    /// # Errors
    ///
    /// [`AllocError`] if memory runs out.
    pub fn call_cycle_faults(&self, lint: &L, index: usize) -> Result<Vec<Fault>, AllocError>
        requires { index < length self.now }
        ensures { (p b : List ℕ) → slice_get self.now index ≡ Some (p, b)
            → IfOk result (λ faults. faults.items
            ≡ cycles.call_cycle_faults L.meaning self.now index p b) }
    {
        let mut faults = FaultSink::new(self.alloc());
        if !self.has_call_on_cycle(index) {
            return Ok(faults.into_faults());
        }
        let (_, file) = file_number(self.files, index);
        let targets = file.calls.targets.as_slice();
        for call in 0..targets.len() {
            let to = callee(self.files, &targets[call]);
            let is_on_cycle = is_on_cycle(&self.calls.labels, index, to);
            add_fault_if(is_on_cycle, lint.site(&file.unit, call), &mut faults)?;
        }
        Ok(faults.into_faults())
    }
}
