//! Which frames of a graph are ordered.
ghost use Rattle.std.specs.Prelude.{◌≡◌, ◌≤◌};
ghost use Rattle.fx_base.specs.declared.limits.TheConstants.{LAST_FRAME};
ghost use Rattle.fx_scene.specs.Scenes.{graph_shown};
ghost use Rattle.fx_modes.specs.Graphs.{first_of, last_of, frame_count};
ghost use Rattle.fx_modes.specs.Run.{ahead_for};

use fx_graph::Graph;
use fx_shipped::Shipped;
use fx_takes::{first_frame, last_frame};
use fx_words::{Mode, Order};

/// The first frame that is rendered: that of the graph's range, or a later one that is ordered.
pub(crate) fn first_of(graph: &Graph<Shipped>, order: &Order) -> u32
    ensures value { result ≡ first_of (graph_shown graph.now) order.now }
    ensures small { result ≤ LAST_FRAME }
{
    first_frame(graph, order.first)
}

/// The last frame that is rendered. There are none where it is below the first.
pub(crate) fn last_of(graph: &Graph<Shipped>, order: &Order) -> u32
    ensures value { result ≡ last_of (graph_shown graph.now) order.now }
    ensures small { result ≤ LAST_FRAME }
{
    last_frame(graph, order.last)
}

/// How many frames there are from the first to the last.
pub(crate) fn frame_count(first: u32, last: u32) -> u64
    ensures { result ≡ frame_count first last }
{
    (u64::from(last) + 1).saturating_sub(u64::from(first))
}

/// How many moments a block has that is read ahead. In other modes than those that put frames none is: the files of a
/// bench are in memory.
pub(crate) fn ahead_for(mode: Mode, ahead: u32) -> u32
    ensures { result ≡ ahead_for mode ahead }
{
    match mode {
        Mode::Render | Mode::Takes => ahead,
        Mode::Check | Mode::Bench | Mode::Migrate | Mode::Plan => 0,
    }
}
