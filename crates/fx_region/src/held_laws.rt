//! Ends and needs depend on no frames but those that are wanted.
ghost use Rattle.fx_region.specs.Held.{EndsReached, EndsStay};
ghost use Rattle.fx_scene.specs.Scenes.{graph_shown};

use fx_effect::Catalogue;
use fx_graph::Graph;

/// Where a scene holds what is wanted at a frame, each region of what is reached there ends where it ends over all that
/// was fetched, and needs the same; and it ends in what is reached there. It computes nothing.
pub fn ends_stay<E: Catalogue>(graph: &Graph<E>)
    ensures stay { EndsStay E.meaning (graph_shown graph.now) }
    ensures reached { EndsReached E.meaning (graph_shown graph.now) }
{
    let _nodes = &graph.nodes;
}
