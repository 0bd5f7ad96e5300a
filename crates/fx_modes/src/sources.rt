//! The source frames of a run.
ghost use Rattle.std.specs.Prelude.{◌≡◌, ◌≤◌, ℕ, IfOk, IfErr};
ghost use Rattle.fx_base.specs.declared.limits.TheConstants.{LAST_FRAME};
ghost use Rattle.fx_scene.specs.Scenes.{graph_shown};
ghost use Rattle.fx_words.specs.declared.fault.RunFault.TheVariants.{Memory as OutOfMemory};
ghost use Rattle.fx_modes.specs.Files.{AreUsesOf};
ghost use Rattle.fx_modes.specs.Graphs.{name_at};
ghost use Rattle.fx_modes.specs.Reels.{plain_reel};
ghost use Rattle.fx_modes.specs.Run.{frame_fault};
ghost use Rattle.fx_modes.specs.Steps.{IsSourceFault, WantsAsMany};

use fx_base::{Memory, Name};
use fx_graph::Graph;
use fx_pam::PamFault;
use fx_seq::{SeqFault, Use};
use fx_shipped::Shipped;
use fx_takes::{Takes, uses};
use fx_words::{FrameFault, RunFault};
use std::alloc::Global;

/// As many bytes as the pixels of the source frames may have together that are held at once.
pub(crate) const MOST_BYTES: u64 = 1 << 31;

/// How many source frames the frames from `first` to `last` want of the graph alone, at whatever size.
pub(crate) fn count_wanted(
    alloc: Global,
    graph: &Graph<Shipped>,
    first: u32,
    last: u32,
) -> Result<u64, RunFault>
    requires { last ≤ LAST_FRAME }
    ensures ok { (q : ℕ) → IfOk result (λ count. WantsAsMany (plain_reel q (graph_shown graph.now) first last) count) }
    ensures err { IfErr result (λ e. e ≡ OutOfMemory) }
{
    let uses = plain_uses(alloc, graph, first, last)?;
    Ok(uses.len() as u64)
}

/// Which source frames the frames from `first` to `last` want of the graph alone, at whatever size.
pub(crate) fn plain_uses(
    alloc: Global,
    graph: &Graph<Shipped>,
    first: u32,
    last: u32,
) -> Result<Vec<Use>, RunFault>
    requires { last ≤ LAST_FRAME }
    ensures ok { (q : ℕ) → let reel = plain_reel q (graph_shown graph.now) first last in
        IfOk result (λ uses. AreUsesOf reel uses.items) }
    ensures err { IfErr result (λ e. e ≡ OutOfMemory) }
{
    let none = Takes {
        list: Vec::new(alloc),
    };
    match uses(alloc, graph, &none, first, last) {
        Ok(uses) => Ok(uses),
        Err(Memory) => Err(RunFault::Memory),
    }
}

/// The fault of a run whose source frames failed so. It tells of a node by its name.
pub(crate) fn source_fault(alloc: Global, graph: &Graph<Shipped>, fault: SeqFault) -> RunFault
    ensures { IsSourceFault (graph_shown graph.now) fault result }
{
    match fault {
        SeqFault::Fetch(_, _, name) => RunFault::Read(name),
        SeqFault::Frame(node, frame, fault) => {
            match (name_at(alloc, graph, node), frame_fault(fault)) {
                (Ok(name), Some(why)) => RunFault::Frame(name, frame, why),
                _ => RunFault::Memory,
            }
        }
        SeqFault::TooLarge(node, frame, sum) => match name_at(alloc, graph, node) {
            Ok(name) => RunFault::Frame(name, frame, FrameFault::TooLarge(sum)),
            Err(Memory) => RunFault::Memory,
        },
        SeqFault::Memory => RunFault::Memory,
    }
}

// The name of a node, as a copy. Frames are wanted of the graph's own nodes, so that there is one.
fn name_at(alloc: Global, graph: &Graph<Shipped>, node: u32) -> Result<Name, Memory>
    ensures { IfOk result (λ name. name_at (graph_shown graph.now) node ≡ Some name) }
{
    match graph.nodes.get(node as usize) {
        Some(node) => node.name.copied(alloc),
        None => Err(Memory),
    }
}

fn frame_fault(fault: PamFault) -> Option<FrameFault>
    ensures { result ≡ frame_fault fault }
{
    match fault {
        PamFault::NotPam => Some(FrameFault::NotPam),
        PamFault::HeaderWrong(line) => Some(FrameFault::HeaderWrong(line)),
        PamFault::SizeOutOfRange(field) => Some(FrameFault::SizeOutOfRange(field)),
        PamFault::Truncated(wanted, had) => Some(FrameFault::Truncated(wanted, had)),
        PamFault::SampleAboveMaxval(place, value) => {
            Some(FrameFault::SampleAboveMaxval(place, value))
        }
        PamFault::Memory => None,
    }
}
