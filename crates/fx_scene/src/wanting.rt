//! Which source frames a run of a graph wants.
ghost use Rattle.std.specs.Prelude.{◌≡◌, ◌<◌, ◌≤◌, ℕ, ℤ, pos, length, map, true, All, AllPairs, IfOk, OnOk};
ghost use Rattle.std.specs.Option.{option_map};
ghost use Rattle.fx_base.specs.declared.limits.TheConstants.{LAST_FRAME};
ghost use Rattle.fx_seq.specs.Filling.{IsApart};
ghost use Rattle.fx_scene.specs.Reach.{IsPlace, IsReach, has};
ghost use Rattle.fx_scene.specs.Nodes.{Nodes};
ghost use Rattle.fx_scene.specs.Rows.{AreRows, graph_with, rows_in};
ghost use Rattle.fx_scene.specs.Scenes.{graph_nodes, graph_shown, no_images, shown_frame};
ghost use Rattle.fx_scene.specs.Wants.{AreWanted, IsNamedIn, ShowSame, WantsIn, is_last, with_entry};

use crate::reaching::{NodeFrame, reach_with};
use crate::rows::rows_of;
use fx_base::{Memory, Pattern};
use fx_effect::Catalogue;
use fx_graph::{Graph, Work};
use fx_params::Param;
use fx_seq::Wanted;
use std::alloc::Global;
use std::collections::BTreeSet;

/// The source frames that the frames from `first` to `last` want: those that the sources show which are
/// reached, each once, by node and then frame, under the names of their files. Outside its frames a source
/// shows the nearest one where it holds, and else none. With `first` above `last` there are none. `Memory`
/// comes where memory is wanting.
pub fn wants<E: Catalogue>(
    alloc: Global,
    graph: &Graph<E>,
    first: u32,
    last: u32,
) -> Result<Vec<Wanted>, Memory>
    requires { last ≤ LAST_FRAME }
    ensures exact { let nodes = graph_nodes E.meaning (graph_shown graph.now) no_images in
        IfOk result (λ wanted. AreWanted nodes graph.now.output (pos first) (pos last) wanted.items) }
    ensures names { IfOk result (λ wanted. All (IsNamedIn (graph_shown graph.now)) wanted.items) }
    ensures apart { IfOk result (λ wanted. AllPairs IsApart wanted.items) }
{
    let rows = rows_of(alloc, graph)?;
    wants_with(alloc, graph, rows.as_slice(), first, last)
}

/// The same with these parameters in place of the graph's own.
pub(crate) fn wants_with<E: Catalogue>(
    alloc: Global,
    graph: &Graph<E>,
    rows: &[Vec<&Param>],
    first: u32,
    last: u32,
) -> Result<Vec<Wanted>, Memory>
    requires rows { AreRows E.meaning (graph_shown graph.now) (rows_in rows.now) }
    requires end { last ≤ LAST_FRAME }
    ensures exact { let g = graph_with (graph_shown graph.now) (rows_in rows.now) in
        let nodes = graph_nodes E.meaning g no_images in
        IfOk result (λ wanted. AreWanted nodes graph.now.output (pos first) (pos last) wanted.items) }
    ensures names { IfOk result (λ wanted. All (IsNamedIn (graph_shown graph.now)) wanted.items) }
    ensures apart { IfOk result (λ wanted. AllPairs IsApart wanted.items) }
{
    let node_frames = reach_with(alloc, graph, rows, i64::from(first), i64::from(last))?;
    wants_at(alloc, graph, &node_frames)
}

// The frames that sources show at these nodes at frames, which may be reached over other effects.
fn wants_at<E: Catalogue>(
    alloc: Global,
    graph: &Graph<E>,
    node_frames: &BTreeSet<NodeFrame>,
) -> Result<Vec<Wanted>, Memory>
    requires { let count = length graph.now.nodes.items in
        (n : ℕ) (t : ℤ) → has node_frames.now n t ≡ true → IsPlace count n t }
    ensures exact { (nodes : Nodes) → ShowSame nodes (graph_nodes E.meaning (graph_shown graph.now) no_images)
        → (output : ℕ) (first last : ℤ) → IsReach nodes output first last (has node_frames.now)
        → IfOk result (λ wanted. AreWanted nodes output first last wanted.items) }
    ensures names { IfOk result (λ wanted. All (IsNamedIn (graph_shown graph.now)) wanted.items) }
    ensures apart { IfOk result (λ wanted. AllPairs IsApart wanted.items) }
{
    let mut wanted = Vec::new(alloc);
    for node_frame in node_frames {
        want(alloc, graph, *node_frame, &mut wanted)?;
    }
    Ok(wanted)
}

// Wants what a node shows at a frame, where it is a source.
fn want<E: Catalogue>(
    alloc: Global,
    graph: &Graph<E>,
    node_frame: NodeFrame,
    wanted: &mut Vec<Wanted>,
) -> Result<(), Memory>
    requires { node_frame.node < length graph.now.nodes.items }
    ensures { OnOk result (WantsIn (graph_shown graph.now) node_frame wanted.old.items wanted.new.items) }
{
    match &graph.nodes[node_frame.node as usize].work {
        Work::Effect { .. } => Ok(()),
        Work::Source {
            pattern,
            first,
            last,
            hold,
        } => match shown_frame(*first, *last, *hold, node_frame.frame) {
            None => Ok(()),
            Some(frame) => want_frame(alloc, node_frame.node, pattern, frame, wanted),
        },
    }
}

// Wants a frame of a source, unless it is the one that was wanted last.
fn want_frame(
    alloc: Global,
    node: u32,
    pattern: &Pattern,
    frame: u32,
    wanted: &mut Vec<Wanted>,
) -> Result<(), Memory>
    ensures { OnOk result (wanted.new.items ≡ with_entry wanted.old.items node pattern.now frame) }
{
    if is_last(wanted.as_slice(), node, i64::from(frame)) {
        return Ok(());
    }
    wanted.push(Wanted {
        node,
        frame: i64::from(frame),
        name: pattern.name(alloc, frame)?,
    })?;
    Ok(())
}

fn is_last(wanted: &[Wanted], node: u32, frame: i64) -> bool
    ensures { result ≡ is_last wanted.now node frame }
{
    match wanted.last() {
        Some(w) => w.node == node && w.frame == frame,
        None => false,
    }
}

/// The frame that a source shows at a frame: its own where it has it; else the nearest where it holds, and
/// else none.
pub fn shown_frame(first: u32, last: u32, hold: bool, frame: i64) -> Option<u32>
    requires { first ≤ last }
    ensures { option_map pos result ≡ shown_frame first last hold frame }
{
    if frame < i64::from(first) {
        if hold { Some(first) } else { None }
    } else if i64::from(last) < frame {
        if hold { Some(last) } else { None }
    } else {
        Some(frame as u32)
    }
}
