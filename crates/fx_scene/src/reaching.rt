//! Which nodes of a graph are reached at which frames.
ghost use Rattle.std.specs.Prelude.{◌≡◌, ◌<◌, ◌≤◌, ◌≤ℤ◌, ℕ, ℤ, pos, neg_ℤ, length, map, slice_index_or, true, Some, None, IfOk, OnOk};
ghost use Rattle.fx_graph.specs.Shown.{GraphShown};
ghost use Rattle.fx_base.specs.declared.limits.TheConstants.{LAST_FRAME};
ghost use Rattle.fx_scene.specs.Scenes.{graph_nodes, graph_shown, no_images};
ghost use Rattle.fx_scene.specs.Frames.{has_frame, items_of};
ghost use Rattle.fx_scene.specs.Rows.{AreRows, HasRow, IsRowAt, graph_with, row_in, rows_in};
ghost use Rattle.fx_scene.specs.Reach.{IsReach, IsReadBy, IsNearFrame, IsPlace, IsClipRead, Adds, has};

use crate::reads::frames_read;
use crate::rows::{row_of, rows_of};
use crate::values::values_with;
use fx_base::Memory;
use fx_effect::Catalogue;
use fx_graph::{Graph, Work};
use fx_params::Param;
use std::alloc::Global;
use std::collections::BTreeSet;

/// A node at a frame. They are ordered by node and then frame.
#[derive(Clone, Copy, Debug, PartialEq, Eq, PartialOrd, Ord, Drop)]
pub struct NodeFrame {
    pub node: u32,
    pub frame: i64,
}

/// The nodes at frames that the output's node reads, itself included, from a first frame to a last: with each
/// effect, the nodes of its clips at the frames that it needs of them. They stand by node and then frame, so
/// all that one reads stands before it. Time grows with what is read, and not with the ways to it. With the
/// first frame above the last there are none. `Memory` comes where memory is wanting.
pub fn reach<E: Catalogue>(
    alloc: Global,
    graph: &Graph<E>,
    first: i64,
    last: i64,
) -> Result<BTreeSet<NodeFrame>, Memory>
    requires low { neg_ℤ (pos LAST_FRAME) ≤ℤ first }
    requires high { last ≤ℤ pos LAST_FRAME }
    ensures least { let nodes = graph_nodes E.meaning (graph_shown graph.now) no_images in
        IfOk result (λ node_frames. IsReach nodes graph.now.output first last (has node_frames)) }
    ensures places { IfOk result (λ node_frames. (n : ℕ) (t : ℤ) → has node_frames n t ≡ true
        → IsPlace (length graph.now.nodes.items) n t) }
{
    let rows = rows_of(alloc, graph)?;
    reach_with(alloc, graph, rows.as_slice(), first, last)
}

/// The same with these parameters in place of the graph's own.
pub(crate) fn reach_with<E: Catalogue>(
    alloc: Global,
    graph: &Graph<E>,
    rows: &[Vec<&Param>],
    first: i64,
    last: i64,
) -> Result<BTreeSet<NodeFrame>, Memory>
    requires rows { AreRows E.meaning (graph_shown graph.now) (rows_in rows.now) }
    requires low { neg_ℤ (pos LAST_FRAME) ≤ℤ first }
    requires high { last ≤ℤ pos LAST_FRAME }
    ensures least { let g = graph_with (graph_shown graph.now) (rows_in rows.now) in
        let nodes = graph_nodes E.meaning g no_images in
        IfOk result (λ node_frames. IsReach nodes graph.now.output first last (has node_frames)) }
    ensures places { IfOk result (λ node_frames. (n : ℕ) (t : ℤ) → has node_frames n t ≡ true
        → IsPlace (length graph.now.nodes.items) n t) }
{
    let mut pending = BTreeSet::new(alloc);
    open_range(graph.output, first, last, &mut pending)?;
    let mut reached = BTreeSet::new(alloc);
    while let Some(node_frame) = pending.pop_last() {
        let row = rows[node_frame.node as usize].as_slice();
        open_reads(alloc, graph, row, node_frame, &mut pending)?;
        reached.insert(node_frame)?;
    }
    Ok(reached)
}

/// What a node of the graph reads at a frame: with an effect, the nodes of its clips at the frames that it needs of
/// them. A source reads none. `Memory` comes where memory is wanting.
pub fn reads_of<E: Catalogue>(
    alloc: Global,
    graph: &Graph<E>,
    node_frame: NodeFrame,
) -> Result<BTreeSet<NodeFrame>, Memory>
    requires { IsPlace (length graph.now.nodes.items) node_frame.node node_frame.frame }
    ensures all { let node = graph_nodes E.meaning (graph_shown graph.now) no_images node_frame.node in
        IfOk result (λ reads. (m : ℕ) (f : ℤ) → IsReadBy node node_frame.frame m f → has reads m f ≡ true) }
    ensures only { let node = graph_nodes E.meaning (graph_shown graph.now) no_images node_frame.node in
        IfOk result (λ reads. (m : ℕ) (f : ℤ) → has reads m f ≡ true → IsReadBy node node_frame.frame m f) }
{
    let row = row_of(alloc, &graph.nodes[node_frame.node as usize].work)?;
    let mut reads = BTreeSet::new(alloc);
    open_reads(alloc, graph, row.as_slice(), node_frame, &mut reads)?;
    Ok(reads)
}

// Opens a node at each frame of a range.
fn open_range(
    node: u32,
    first: i64,
    last: i64,
    pending: &mut BTreeSet<NodeFrame>,
) -> Result<(), Memory>
    requires low { neg_ℤ (pos LAST_FRAME) ≤ℤ first }
    requires high { last ≤ℤ pos LAST_FRAME }
    ensures { OnOk result (Adds (λ n t. (n ≡ node) × (first ≤ℤ t) × (t ≤ℤ last)) pending.old pending.new) }
{
    for frame in first..last + 1 {
        pending.insert(NodeFrame { node, frame })?;
    }
    Ok(())
}

// Opens what a node reads at a frame, with these parameters in place of its own.
fn open_reads<E: Catalogue>(
    alloc: Global,
    graph: &Graph<E>,
    row: &[&Param],
    node_frame: NodeFrame,
    pending: &mut BTreeSet<NodeFrame>,
) -> Result<(), Memory>
    requires place { IsPlace (length graph.now.nodes.items) node_frame.node node_frame.frame }
    requires row { IsRowAt E.meaning (graph_shown graph.now) node_frame.node (row_in row.now) }
    ensures { (h : GraphShown E) → HasRow h (graph_shown graph.now) node_frame.node (row_in row.now)
        → OnOk result (Adds (IsReadBy (graph_nodes E.meaning h no_images node_frame.node) node_frame.frame)
        pending.old pending.new) }
{
    match &graph.nodes[node_frame.node as usize].work {
        Work::Source { .. } => Ok(()),
        Work::Effect {
            effect,
            clips,
            names,
            ..
        } => {
            let values = values_with(
                alloc,
                graph.project,
                clips.as_slice(),
                row,
                node_frame.frame,
            )?;
            let reads = frames_read(alloc, effect, names, &values)?;
            open_clips(clips.as_slice(), reads.as_slice(), pending)
        }
    }
}

// Opens the node of each clip at its frames.
fn open_clips(
    clips: &[Option<u32>],
    reads: &[Vec<i64>],
    pending: &mut BTreeSet<NodeFrame>,
) -> Result<(), Memory>
    requires { length reads.now ≤ length clips.now }
    ensures { OnOk result (Adds (IsClipRead clips.now (map items_of reads.now)) pending.old pending.new) }
{
    for c in 0..reads.len() {
        open_clip(clips[c], reads[c].as_slice(), pending)?;
    }
    Ok(())
}

fn open_clip(
    clip: Option<u32>,
    frames: &[i64],
    pending: &mut BTreeSet<NodeFrame>,
) -> Result<(), Memory>
    ensures { OnOk result (Adds (λ n t. (clip ≡ Some n) × (has_frame frames.now t ≡ true)) pending.old pending.new) }
{
    match clip {
        None => Ok(()),
        Some(node) => open_frames(node, frames, pending),
    }
}

// Opens a node at each of these frames.
fn open_frames(node: u32, frames: &[i64], pending: &mut BTreeSet<NodeFrame>) -> Result<(), Memory>
    ensures { OnOk result (Adds (λ n t. (n ≡ node) × (has_frame frames.now t ≡ true)) pending.old pending.new) }
{
    for frame in frames {
        pending.insert(NodeFrame {
            node,
            frame: *frame,
        })?;
    }
    Ok(())
}
