//! Takes at a fraction of their graph's size.
ghost use Rattle.std.specs.Prelude.{◌≡◌, map};
ghost use Rattle.std.specs.List.{AllByRecursion};
ghost use Rattle.fx_graph.specs.Shown.{shown};
ghost use Rattle.fx_scene.specs.Takes.{AreEdits, edits_of};
ghost use Rattle.fx_takes.specs.Shown.{edit_shown, take_shown};
ghost use Rattle.fx_proxy.specs.Reduced.{IsScale};
ghost use Rattle.fx_proxy.specs.Scaled.{AreLengths, IsShownEdit, IsShownTake, scaled_edit, scaled_node, scaled_take};

use crate::lengths::scale_param;
use fx_effect::Catalogue;
use fx_graph::{Graph, Work};
use fx_scene::{Edit, Take, Takes};

/// Takes of a graph at 1/q of its size: each value that an edit gives a length is scaled as `scaled_param` says, and
/// nothing else changes. They may be done on the scaled graph. The graph is the one before it is scaled, each length
/// has the definition that its effect describes, and q is 1, 2, 4 or 8.
pub fn scaled_takes<E: Catalogue>(graph: &Graph<E>, mut takes: Takes, q: u32) -> Takes
    requires scale { IsScale q }
    requires lengths { AreLengths E.number_of (map shown graph.now.nodes.items) }
    requires edits { AreEdits (map shown graph.now.nodes.items) (edits_of takes.list.items) }
    ensures takes { let scaled = scaled_take E.number_of q (map shown graph.now.nodes.items) in
        map take_shown result.list.items ≡ map scaled (map take_shown takes.list.items) }
    ensures edits { let nodes = map (scaled_node E.number_of q) (map shown graph.now.nodes.items) in
        AreEdits nodes (edits_of result.list.items) }
{
    scale_each(graph, &mut takes.list, q);
    takes
}

fn scale_each<E: Catalogue>(graph: &Graph<E>, takes: &mut Vec<Take>, q: u32)
    requires scale { IsScale q }
    requires lengths { AreLengths E.number_of (map shown graph.now.nodes.items) }
    requires takes { AllByRecursion (IsShownTake (map shown graph.now.nodes.items)) (map take_shown takes.old.items) }
    ensures { let scaled = scaled_take E.number_of q (map shown graph.now.nodes.items) in
        map take_shown takes.new.items ≡ map scaled (map take_shown takes.old.items) }
{
    for take in takes.iter_mut() {
        scale_take(graph, take, q);
    }
}

fn scale_take<E: Catalogue>(graph: &Graph<E>, take: &mut Take, q: u32)
    requires scale { IsScale q }
    requires lengths { AreLengths E.number_of (map shown graph.now.nodes.items) }
    requires take { IsShownTake (map shown graph.now.nodes.items) (take_shown take.old) }
    ensures { take_shown take.new ≡ scaled_take E.number_of q (map shown graph.now.nodes.items) (take_shown take.old) }
{
    scale_edits(graph, &mut take.edits, q);
}

fn scale_edits<E: Catalogue>(graph: &Graph<E>, edits: &mut Vec<Edit>, q: u32)
    requires scale { IsScale q }
    requires lengths { AreLengths E.number_of (map shown graph.now.nodes.items) }
    requires edits { AllByRecursion (IsShownEdit (map shown graph.now.nodes.items)) (map edit_shown edits.old.items) }
    ensures { let scaled = scaled_edit E.number_of q (map shown graph.now.nodes.items) in
        map edit_shown edits.new.items ≡ map scaled (map edit_shown edits.old.items) }
{
    for edit in edits.iter_mut() {
        scale_edit(graph, edit, q);
    }
}

fn scale_edit<E: Catalogue>(graph: &Graph<E>, edit: &mut Edit, q: u32)
    requires scale { IsScale q }
    requires lengths { AreLengths E.number_of (map shown graph.now.nodes.items) }
    requires edit { IsShownEdit (map shown graph.now.nodes.items) (edit_shown edit.old) }
    ensures { edit_shown edit.new ≡ scaled_edit E.number_of q (map shown graph.now.nodes.items) (edit_shown edit.old) }
{
    match &graph.nodes[edit.node as usize].work {
        Work::Source { .. } => {}
        Work::Effect { effect, .. } => {
            scale_param(effect.number(), edit.param as usize, &mut edit.value, q);
        }
    }
}
