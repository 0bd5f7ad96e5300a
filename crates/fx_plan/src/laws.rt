//! What is known of where regions end.
ghost use Rattle.fx_plan.specs.Agree.{EndsAgree};
ghost use Rattle.fx_scene.specs.Scenes.{graph_shown};

use fx_effect::Catalogue;
use fx_graph::Graph;

/// Where a region of what is reached at a frame ends, and what it needs, depends on no images but those that are wanted
/// there. It computes nothing.
pub fn ends_agree<E: Catalogue>(graph: &Graph<E>)
    ensures { EndsAgree E.meaning (graph_shown graph.now) }
{
    let _nodes = &graph.nodes;
}
