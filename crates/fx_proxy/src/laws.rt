//! What is known of scenes at a fraction of their size.
ghost use Rattle.std.specs.Prelude.{◌≡◌, ℕ, map};
ghost use Rattle.fx_graph.specs.Shown.{shown};
ghost use Rattle.fx_scene.specs.Scenes.{Images as AnyImages, graph_shown};
ghost use Rattle.fx_scene.specs.Takes.{AreEdits, edits_of};
ghost use Rattle.fx_shipped.specs.Shipped.{meaning_of, number_of};
ghost use Rattle.fx_takes.specs.Shown.{take_shown};
ghost use Rattle.fx_proxy.specs.Needs.{AreWhole, MomentsWantSame, SameRendered, WantsSame};
ghost use Rattle.fx_proxy.specs.Proxy.{proxy, rendered_of};
ghost use Rattle.fx_proxy.specs.Scaled.{AreLengths};

use fx_effect::Catalogue;
use fx_graph::Graph;
use fx_scene::Takes;
use fx_shipped::Shipped;

/// In a graph over the effects of the program each length has the definition that its effect describes. It computes
/// nothing.
pub fn lengths_are_described(graph: &Graph<Shipped>)
    ensures { AreLengths number_of (map shown graph.now.nodes.items) }
{
    let _nodes = &graph.nodes;
}

/// At the whole size the proxy of a scene is that scene: its graph, its takes, and the images of its frames. It
/// computes nothing.
pub fn whole_is_itself<E: Catalogue>(graph: &Graph<E>, takes: &Takes)
    requires lengths { AreLengths E.number_of (map shown graph.now.nodes.items) }
    requires edits { AreEdits (map shown graph.now.nodes.items) (edits_of takes.now.list.items) }
    ensures { (images : AnyImages) → AreWhole images
        → (let s = rendered_of (graph_shown graph.now) (map take_shown takes.now.list.items) images in
        SameRendered (proxy E.number_of s 1) s) }
{
    let _nodes = &graph.nodes;
    let _takes = &takes.list;
}

/// The frames that are needed don't change with the size, of the graph and of each of its takes. It computes nothing.
pub fn wants_stay(graph: &Graph<Shipped>)
    ensures graph { (q : ℕ) → WantsSame meaning_of number_of (graph_shown graph.now) q }
    ensures takes { (q : ℕ) → MomentsWantSame meaning_of number_of (graph_shown graph.now) q }
{
    let _nodes = &graph.nodes;
}
