//! From a graph's name to the graph with its takes.
ghost use Rattle.std.specs.Prelude.{◌≡◌, ◌≤◌, ◌+◌, ◌⊎◌, Some, Ok, IfOk, IfErr, OnOk, length};
ghost use Rattle.fx_outside.specs.Outside.{SameFiles};
ghost use Rattle.fx_seq.specs.Filling.{IsQuiet};
ghost use Rattle.fx_text.specs.Answers.{Refuses};
ghost use Rattle.fx_text.specs.declared.raw.TheConstants.{MOST_TAKES};
ghost use Rattle.fx_scene.specs.Scenes.{graph_shown};
ghost use Rattle.fx_modes.specs.Graphs.{accepted_of, file_shown, graph_of, graph_under, raw_of};
ghost use Rattle.fx_proxy.specs.Reduced.{IsScale};
ghost use Rattle.fx_modes.specs.Reels.{ordered_file, scaled_file, takes_for};
ghost use Rattle.fx_modes.specs.Takes.{AreTakesOf};
ghost use Rattle.fx_modes.specs.Steps.{graph_fault, GraphCause, GraphFetch};
ghost use Rattle.fx_modes.specs.declared.graph.GraphFailure.TheVariants.{Memory as OutOfMemory, Read as NotRead};

use fx_base::limits::{MOST_NODES, MOST_SIDE};
use fx_base::{Memory, Name};
use fx_graph::{Graph, accept};
use fx_group::expand;
use fx_outside::{FetchFault, Library};
use fx_proxy::laws::lengths_are_described;
use fx_proxy::{scaled, scaled_takes};
use fx_shipped::Shipped;
use fx_takes::{Takes, accept_takes};
use fx_text::{GraphCode, GraphFault, GraphPath, RawGraph, read_graph};
use fx_words::{Mode, Order, RunFault};
use std::alloc::Global;

/// The graph of a file as it is written, and its takes.
#[derive(Drop)]
pub(crate) struct GraphFile {
    pub graph: Graph<Shipped>,
    pub takes: Takes,
}

/// Why there is no graph.
#[derive(Debug, Drop)]
pub(crate) enum GraphFailure {
    /// What has this name could not be read.
    Read(Name),
    /// The bytes are no graph: what is wrong, and where.
    Refused(GraphCode, GraphPath),
    /// Memory was wanting.
    Memory,
}

impl From<Memory> for GraphFailure {
    ghost from_gives = { λ _ e. e ≡ OutOfMemory };

    fn from(_: Memory) -> GraphFailure {
        GraphFailure::Memory
    }
}

impl From<GraphFailure> for RunFault {
    ghost from_gives = { λ failure fault. fault ≡ graph_fault failure };

    fn from(failure: GraphFailure) -> RunFault {
        match failure {
            GraphFailure::Read(name) => RunFault::Read(name),
            GraphFailure::Refused(code, path) => RunFault::Graph(code, path),
            GraphFailure::Memory => RunFault::Memory,
        }
    }
}

/// The graph whose bytes the library has under a name, and its takes.
pub(crate) fn graph_of<L: Library>(
    alloc: Global,
    name: &Name,
    library: &mut L,
) -> Result<GraphFile, GraphFailure>
    ensures ok { L.tells
        → IfOk result (λ file. graph_under (L.file library.old) name.now ≡ Some (Ok (file_shown file))) }
    ensures takes { IfOk result (λ file. AreTakesOf (graph_shown file.graph).nodes file.takes.list.items) }
    ensures quiet { let last = L.last library.new in
        OnOk result (IsQuiet (L.faults library.old) (L.faults library.new) (L.last library.old) last) }
    ensures cause { L.tells → IfErr result (λ e. GraphCause (L.file library.old) name.now e) }
    ensures fetch { let last = L.last library.new in
        IfErr result (λ e. GraphFetch name.now (L.faults library.old) (L.faults library.new) (L.last library.old) last e) }
    ensures same { L.tells → SameFiles (L.file library.old) (L.file library.new) }
    ensures later { L.faults library.old ≤ L.faults library.new }
{
    let bytes = fetch(alloc, name, library)?;
    match graph_in(alloc, &bytes) {
        Ok(file) => Ok(file),
        Err(GraphFault::Refused(code, path)) => Err(GraphFailure::Refused(code, path)),
        Err(GraphFault::Memory) => Err(GraphFailure::Memory),
    }
}

/// How many nodes a graph has.
pub(crate) fn node_count(graph: &Graph<Shipped>) -> u64
    ensures { result ≡ length (graph_shown graph.now).nodes }
{
    graph.nodes.as_slice().len() as u64
}

// The graph that the bytes are.
fn graph_in(alloc: Global, bytes: &[u8]) -> Result<GraphFile, GraphFault>
    ensures ok { IfOk result (λ file. graph_of bytes.now ≡ Ok (file_shown file)) }
    ensures takes { IfOk result (λ file. AreTakesOf (graph_shown file.graph).nodes file.takes.list.items) }
    ensures refused { Refuses result (graph_of bytes.now) }
{
    let raw = raw_of(alloc, bytes)?;
    accepted_of(alloc, raw)
}

/// What the bytes say, with each use of a group replaced by the group's nodes.
pub(crate) fn raw_of(alloc: Global, bytes: &[u8]) -> Result<RawGraph, GraphFault>
    ensures ok { IfOk result (λ raw. raw_of bytes.now ≡ Ok raw) }
    ensures refused { Refuses result (raw_of bytes.now) }
{
    let raw = read_graph(alloc, bytes, MOST_NODES, MOST_SIDE)?;
    expand(alloc, raw)
}

/// The graph that is said so, and its takes.
pub(crate) fn accepted_of(alloc: Global, mut raw: RawGraph) -> Result<GraphFile, GraphFault>
    ensures ok { IfOk result (λ file. accepted_of raw ≡ Ok (file_shown file)) }
    ensures takes { IfOk result (λ file. AreTakesOf (graph_shown file.graph).nodes file.takes.list.items) }
    ensures refused { Refuses result (accepted_of raw) }
{
    let takes = raw.take_takes(alloc);
    let graph = accept::<Shipped>(alloc, raw)?;
    let takes = accept_takes(alloc, &graph, takes)?;
    Ok(GraphFile { graph, takes })
}

/// What is ordered of a file: the graph with those of its takes that are rendered, at the size that is ordered.
pub(crate) fn ordered(alloc: Global, order: &Order, file: GraphFile) -> GraphFile
    requires { AreTakesOf (graph_shown file.graph).nodes file.takes.list.items }
    ensures size { IsScale order.now.scale }
    ensures shown { file_shown result ≡ ordered_file order.now (file_shown file) }
    ensures takes { AreTakesOf (graph_shown result.graph).nodes result.takes.list.items }
{
    scaled_file(ordered_takes(alloc, order.mode, file), order.scale)
}

// The graph and its takes at 1/q of their size.
fn scaled_file(file: GraphFile, q: u32) -> GraphFile
    requires scale { IsScale q }
    requires takes { AreTakesOf (graph_shown file.graph).nodes file.takes.list.items }
    ensures shown { file_shown result ≡ scaled_file q (file_shown file) }
    ensures takes { AreTakesOf (graph_shown result.graph).nodes result.takes.list.items }
{
    let GraphFile { graph, takes } = file;
    lengths_are_described(&graph);
    let takes = scaled_takes(&graph, takes, q);
    match scaled(graph, q) {
        Ok(graph) => GraphFile { graph, takes },
        Err(_) => unreachable!(),
    }
}

// The graph with those of its takes that are rendered in a mode: in mode `takes` all of them, and else none.
fn ordered_takes(alloc: Global, mode: Mode, file: GraphFile) -> GraphFile
    requires { AreTakesOf (graph_shown file.graph).nodes file.takes.list.items }
    ensures shown { let takes = takes_for mode (file_shown file).takes in
        file_shown result ≡ record (file_shown file) { takes = takes } }
    ensures takes { AreTakesOf (graph_shown result.graph).nodes result.takes.list.items }
{
    match mode {
        Mode::Takes => file,
        Mode::Render | Mode::Check | Mode::Bench | Mode::Migrate | Mode::Plan => {
            let GraphFile { graph, .. } = file;
            let takes = Takes {
                list: Vec::new(alloc),
            };
            GraphFile { graph, takes }
        }
    }
}

/// How many takes are rendered in a mode, the graph as written among them.
pub(crate) fn take_count(mode: Mode, file: &GraphFile) -> u64
    requires { length file.now.takes.list.items ≤ MOST_TAKES }
    ensures count { result ≡ length (takes_for mode (file_shown file.now).takes) + 1 }
    ensures few { result ≤ MOST_TAKES + 1 }
{
    match mode {
        Mode::Takes => file.takes.list.len() as u64 + 1,
        Mode::Render | Mode::Check | Mode::Bench | Mode::Migrate | Mode::Plan => 1,
    }
}

/// The bytes that the library has under a graph's name.
pub(crate) fn fetch<L: Library>(
    alloc: Global,
    name: &Name,
    library: &mut L,
) -> Result<Vec<u8>, GraphFailure>
    ensures bytes { L.tells → IfOk result (λ bytes. L.file library.old name.now ≡ Some bytes.items) }
    ensures quiet { let last = L.last library.new in
        OnOk result (IsQuiet (L.faults library.old) (L.faults library.new) (L.last library.old) last) }
    ensures fetch { let last = L.last library.new in
        IfErr result (λ e. GraphFetch name.now (L.faults library.old) (L.faults library.new) (L.last library.old) last e) }
    ensures cause { L.tells → IfErr result (λ e. GraphCause (L.file library.old) name.now e) }
    ensures same { L.tells → SameFiles (L.file library.old) (L.file library.new) }
    ensures later { L.faults library.old ≤ L.faults library.new }
{
    match library.fetch(alloc, name.text()) {
        Ok(bytes) => Ok(bytes),
        Err(FetchFault::Failed) => Err(read_failure(alloc, name)),
        Err(FetchFault::Memory) => Err(GraphFailure::Memory),
    }
}

fn read_failure(alloc: Global, name: &Name) -> GraphFailure
    ensures { (result ≡ NotRead name.now) ⊎ (result ≡ OutOfMemory) }
{
    match name.copied(alloc) {
        Ok(name) => GraphFailure::Read(name),
        Err(Memory) => GraphFailure::Memory,
    }
}
