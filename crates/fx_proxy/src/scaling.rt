//! A graph at a fraction of its size.
ghost use Rattle.std.specs.Prelude.{◌≡◌, map, IfOk, IsOk};
ghost use Rattle.fx_effect.specs.Shape.{IsProject};
ghost use Rattle.fx_graph.specs.Shown.{does_of, shown};
ghost use Rattle.fx_scene.specs.Scenes.{graph_shown};
ghost use Rattle.fx_proxy.specs.Reduced.{IsScale, reduced_rect};
ghost use Rattle.fx_proxy.specs.Scaled.{AreLengths, DoesLengths, HasLengths, scaled_graph, scaled_node, scaled_params};

use crate::lengths::scale_param;
use crate::reducing::blocks_in;
use fx_base::{Memory, Rect};
use fx_effect::Catalogue;
use fx_graph::{Graph, Node, Work};
use fx_params::Param;

/// A graph at 1/q of its size: the sides of the project's extent are divided by q and rounded up, and each length of an
/// effect is scaled as `scaled_param` says. Nothing else changes. Each length has the definition that its effect
/// describes, and q is 1, 2, 4 or 8. `Memory` never comes.
pub fn scaled<E: Catalogue>(graph: Graph<E>, q: u32) -> Result<Graph<E>, (Graph<E>, Memory)>
    requires scale { IsScale q }
    requires lengths { AreLengths E.number_of (map shown graph.nodes.items) }
    ensures ok { IsOk result }
    ensures graph { let scaled = scaled_graph E.number_of q (graph_shown graph) in
        IfOk result (λ g. graph_shown g ≡ scaled) }
{
    let Graph {
        project,
        depth,
        components,
        output,
        file,
        format,
        first,
        last,
        mut nodes,
    } = graph;
    scale_nodes(&mut nodes, q);
    Ok(Graph {
        project: scaled_project(project, q),
        depth,
        components,
        output,
        file,
        format,
        first,
        last,
        nodes,
    })
}

fn scaled_project(project: Rect, q: u32) -> Rect
    requires scale { IsScale q }
    requires project { IsProject project }
    ensures { result ≡ reduced_rect q project }
{
    blocks_in(project, q as usize)
}

fn scale_nodes<E: Catalogue>(nodes: &mut Vec<Node<E>>, q: u32)
    requires scale { IsScale q }
    requires lengths { AreLengths E.number_of (map shown nodes.old.items) }
    ensures { map shown nodes.new.items ≡ map (scaled_node E.number_of q) (map shown nodes.old.items) }
{
    for node in nodes.iter_mut() {
        scale_node(node, q);
    }
}

fn scale_node<E: Catalogue>(node: &mut Node<E>, q: u32)
    requires scale { IsScale q }
    requires lengths { DoesLengths E.number_of (does_of node.old.work) }
    ensures { shown node.new ≡ scaled_node E.number_of q (shown node.old) }
{
    match &mut node.work {
        Work::Source { .. } => {}
        Work::Effect { effect, params, .. } => scale_params(effect.number(), params, q),
    }
}

fn scale_params(effect: u32, params: &mut Vec<Param>, q: u32)
    requires scale { IsScale q }
    requires lengths { HasLengths effect 0 params.old.items }
    ensures { params.new.items ≡ scaled_params effect 0 q params.old.items }
{
    for place in 0..params.len() {
        scale_param(effect, place, &mut params[place], q);
    }
}
