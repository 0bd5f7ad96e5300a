//! The last that reads each node at a frame, after which it is let go.
ghost use Rattle.std.specs.Prelude.{◌≡◌, ◌↔◌, ℕ, ℤ, length, true, Some, IfOk, OnOk};
ghost use Rattle.std.specs.BTreeMap.{get};
ghost use Rattle.fx_scene.specs.Reach.{IsPlace, IsReadBy, has, node_frame_cmp};
ghost use Rattle.fx_scene.specs.Scenes.{graph_nodes, graph_shown, no_images};
ghost use Rattle.fx_eval.specs.Readers.{AreLast, LetsGo, Marks};

use crate::whole::Whole;
use fx_base::Memory;
use fx_effect::Catalogue;
use fx_graph::Graph;
use fx_scene::{NodeFrame, reads_of};
use std::alloc::Global;
use std::collections::{BTreeMap, BTreeSet};

/// For each that these nodes at frames read, the last of them that reads it.
pub(crate) fn last_readers<E: Catalogue>(
    alloc: Global,
    graph: &Graph<E>,
    node_frames: &BTreeSet<NodeFrame>,
) -> Result<BTreeMap<NodeFrame, NodeFrame>, Memory>
    requires { let count = length graph.now.nodes.items in
        (n : ℕ) (t : ℤ) → has node_frames.now n t ≡ true → IsPlace count n t }
    ensures { let nodes = graph_nodes E.meaning (graph_shown graph.now) no_images in
        IfOk result (AreLast nodes node_frames.now) }
{
    let mut last = BTreeMap::new(alloc);
    for node_frame in node_frames {
        mark_reads(alloc, graph, *node_frame, &mut last)?;
    }
    Ok(last)
}

// Marks what a node reads at a frame.
fn mark_reads<E: Catalogue>(
    alloc: Global,
    graph: &Graph<E>,
    reader: NodeFrame,
    last: &mut BTreeMap<NodeFrame, NodeFrame>,
) -> Result<(), Memory>
    requires { IsPlace (length graph.now.nodes.items) reader.node reader.frame }
    ensures { let nodes = graph_nodes E.meaning (graph_shown graph.now) no_images in
        OnOk result (Marks (IsReadBy (nodes reader.node) reader.frame) reader last.old last.new) }
{
    let reads = reads_of(alloc, graph, reader)?;
    mark(&reads, reader, last)
}

fn mark(
    reads: &BTreeSet<NodeFrame>,
    reader: NodeFrame,
    last: &mut BTreeMap<NodeFrame, NodeFrame>,
) -> Result<(), Memory>
    ensures { OnOk result (Marks (λ m f. has reads.now m f ≡ true) reader last.old last.new) }
{
    for read in reads {
        last.insert(*read, reader)?;
    }
    Ok(())
}

/// Lets go what this node at a frame reads as the last.
pub(crate) fn let_go(
    reads: &BTreeSet<NodeFrame>,
    reader: NodeFrame,
    last: &BTreeMap<NodeFrame, NodeFrame>,
    made: &mut BTreeMap<NodeFrame, Whole>,
)
    ensures { LetsGo last.now reader made.old made.new }
{
    for read in reads {
        let_go_read(*read, reader, last, made);
    }
}

fn let_go_read(
    read: NodeFrame,
    reader: NodeFrame,
    last: &BTreeMap<NodeFrame, NodeFrame>,
    made: &mut BTreeMap<NodeFrame, Whole>,
)
    ensures { LetsGo last.now reader made.old made.new }
{
    if is_read_last(last, read, reader) {
        made.remove(&read);
    }
}

fn is_read_last(last: &BTreeMap<NodeFrame, NodeFrame>, read: NodeFrame, reader: NodeFrame) -> bool
    ensures { (result ≡ true) ↔ (get node_frame_cmp last.now read ≡ Some reader) }
{
    match last.get(&read) {
        Some(by) => *by == reader,
        None => false,
    }
}
