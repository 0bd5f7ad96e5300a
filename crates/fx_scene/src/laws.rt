//! What is known of every list of nodes whose effects keep their laws, and so of every graph and scene.
ghost use Rattle.std.specs.Prelude.{◌<◌, ◌≤◌, ℤ, List, length};
ghost use Rattle.fx_base.specs.declared.limits.TheConstants.{MOST_NODES};
ghost use Rattle.fx_effect.specs.Shape.{IsProject};
ghost use Rattle.fx_scene.specs.Frames.{AreFramesIn, frames_of};
ghost use Rattle.fx_scene.specs.Nodes.{Nodes, AreNodes};
ghost use Rattle.fx_scene.specs.Value.{ValueIsMix};
ghost use Rattle.fx_scene.specs.Areas.{ZeroOutsideArea};
ghost use Rattle.fx_scene.specs.Depends.{PicturesDependOnWanted, ValueDependsOnWanted};
ghost use Rattle.fx_scene.specs.Scenes.{graph_nodes, graph_shown, images_in};
ghost use Rattle.fx_scene.specs.Scripts.{IsScene};

use crate::scene::Scene;
use fx_effect::Catalogue;
use fx_graph::Graph;

/// The value of a node is what its effect makes of the pixels that it reads: the values of the nodes that
/// its clips are, at its own depth and the clips' components. It computes nothing.
pub fn value_is_mix()
    ensures { (nodes : Nodes) → AreNodes nodes → ValueIsMix nodes }
{}

/// Outside its area, which is its region of definition, a node's value is zero. It computes nothing.
pub fn zero_outside_area()
    ensures { (nodes : Nodes) → AreNodes nodes → ZeroOutsideArea nodes }
{}

/// The value of a node depends on no images but those that it wants, and no picture of a run on any other. It
/// computes nothing.
pub fn value_depends_on_reach<E: Catalogue>(graph: &Graph<E>)
    ensures values { ValueDependsOnWanted E.meaning (graph_shown graph.now) }
    ensures pictures { PicturesDependOnWanted E.meaning (graph_shown graph.now) }
{
    let _nodes = &graph.nodes;
}

/// The nodes of a scene are such a list, at most 1,024 with the output's among them, over a lawful extent. It
/// computes nothing.
pub fn scene_nodes<E: Catalogue>(scene: &Scene<E>)
    ensures nodes { AreNodes (graph_nodes E.meaning scene.now.graph (images_in scene.now.store)) }
    ensures project { IsProject scene.now.graph.project }
    ensures few { length scene.now.graph.nodes ≤ MOST_NODES }
    ensures output { scene.now.graph.output < length scene.now.graph.nodes }
{
    let _graph = scene.graph();
    let _store = scene.store();
}

/// What is known of every scene: its graph is that of its take, and what it holds is among what it fetched. It computes
/// nothing.
pub fn scene_is<E: Catalogue>(scene: &Scene<E>)
    ensures { IsScene E.meaning scene.now }
{
    let _store = scene.store();
    scene.is_played();
}

/// The frames of a list of spans are those that lie in one of them, each once and rising. It computes nothing.
pub fn frames_once_and_rising()
    ensures { (spans : List (ℤ × ℤ)) → AreFramesIn spans (frames_of spans) }
{}
