//! Which frames of a graph's range a run renders.
ghost use Rattle.std.specs.Prelude.{◌≡◌, ◌≤◌, max, min};
ghost use Rattle.fx_base.specs.declared.limits.TheConstants.{LAST_FRAME};

use fx_effect::Catalogue;
use fx_graph::Graph;

/// The first frame that is rendered: that of the graph's range, or a later one that is ordered.
pub fn first_frame<E: Catalogue>(graph: &Graph<E>, ordered: u32) -> u32
    requires { ordered ≤ LAST_FRAME }
    ensures value { result ≡ max graph.now.first ordered }
    ensures small { result ≤ LAST_FRAME }
{
    graph.first.max(ordered)
}

/// The last frame that is rendered: that of the graph's range, or an earlier one that is ordered. There are none where it
/// is below the first.
pub fn last_frame<E: Catalogue>(graph: &Graph<E>, ordered: u32) -> u32
    ensures value { result ≡ min graph.now.last ordered }
    ensures small { result ≤ LAST_FRAME }
{
    graph.last.min(ordered)
}
