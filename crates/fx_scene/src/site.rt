//! The nodes of a scene's graph in their places.
ghost use Rattle.std.specs.Prelude.{◌≡◌, ◌≤◌, ◌<◌, length, map, IfOk};
ghost use Rattle.std.specs.Option.{option_copied};
ghost use Rattle.fx_base.specs.Bounds.{none};
ghost use Rattle.fx_seq.specs.Held.{held};
ghost use Rattle.fx_scene.specs.Nodes.{AreNodes};
ghost use Rattle.fx_scene.specs.Scenes.{graph_shown, shown_frame};
ghost use Rattle.fx_scene.specs.Sites.{StandsAt, area_shown, image_shown, scene_nodes, seen_in, site_nodes};

use crate::reaching::NodeFrame;
use crate::scene::Scene;
use crate::wanting::shown_frame;
use fx_base::{Memory, Names, Rect};
use fx_effect::{Catalogue, Context, Flags};
use fx_graph::{Graph, Work};
use fx_image::Image;
use fx_params::Param;
use fx_pixel::{Components, Depth};
use fx_seq::Store;
use std::alloc::Global;

/// A graph, and the frames of its sources that were fetched.
#[derive(Drop)]
pub struct Site<'a, E: Catalogue> {
    pub graph: &'a Graph<E>,
    pub store: &'a Store,
}

/// An effect in its place of a graph, with the depth and components of its pixels.
#[derive(Drop)]
pub struct EffectNode<'a, E> {
    pub place: u32,
    pub depth: Depth,
    pub components: Components,
    pub effect: &'a E,
    pub context: Context,
    pub clips: &'a [Option<u32>],
    pub names: &'a Names,
    pub optional: &'a Flags,
    pub masks: &'a Flags,
    pub params: &'a [Param],
}

/// A source in its place of a graph, with the depth and components of its pixels.
#[derive(Clone, Copy, Drop)]
pub struct SourceNode {
    pub depth: Depth,
    pub components: Components,
    pub first: u32,
    pub last: u32,
    pub hold: bool,
}

/// What stands at a place of a graph.
#[derive(Drop)]
pub enum NodeAt<'a, E> {
    Source(SourceNode),
    Effect(EffectNode<'a, E>),
}

/// The graph and the frames of a scene.
pub fn site_of<E: Catalogue>(scene: &Scene<E>) -> Site<'_, E>
    ensures nodes { AreNodes (site_nodes E.meaning result) }
    ensures same { site_nodes E.meaning result ≡ scene_nodes E.meaning scene.now }
    ensures count { length result.graph.now.nodes.items ≡ length scene.now.graph.nodes }
    ensures output { result.graph.now.output ≡ scene.now.graph.output }
{
    Site {
        graph: scene.graph(),
        store: scene.store(),
    }
}

/// What stands at a place of a graph.
pub fn node_at<E: Catalogue>(graph: &Graph<E>, place: u32) -> NodeAt<'_, E>
    requires { place < length graph.now.nodes.items }
    ensures { StandsAt (graph_shown graph.now) place result }
{
    let node = &graph.nodes[place as usize];
    match &node.work {
        Work::Source {
            first,
            last,
            hold,
            ..
        } => NodeAt::Source(SourceNode {
            depth: node.depth,
            components: node.components,
            first: *first,
            last: *last,
            hold: *hold,
        }),
        Work::Effect {
            effect,
            context,
            clips,
            names,
            optional,
            masks,
            params,
        } => NodeAt::Effect(EffectNode {
            place,
            depth: node.depth,
            components: node.components,
            effect,
            context: *context,
            clips: clips.as_slice(),
            names,
            optional,
            masks,
            params: params.as_slice(),
        }),
    }
}

/// The rectangle of the frame that a source shows.
pub fn source_area(store: &Store, node_frame: NodeFrame, source: SourceNode) -> Rect
    requires { source.first ≤ source.last }
    ensures { let named = shown_frame source.first source.last source.hold node_frame.frame in
        result ≡ area_shown (image_shown (held store.now node_frame.node) named) }
{
    match image_shown(store, node_frame, source) {
        None => Rect::of(0, 0, 0, 0),
        Some(image) => image.rect(),
    }
}

/// The image that a source shows at a frame, if it shows one that was fetched.
pub fn image_shown<'s>(
    store: &'s Store,
    node_frame: NodeFrame,
    source: SourceNode,
) -> Option<&'s Image>
    requires { source.first ≤ source.last }
    ensures { let named = shown_frame source.first source.last source.hold node_frame.frame in
        option_copied result ≡ image_shown (held store.now node_frame.node) named }
{
    match shown_frame(source.first, source.last, source.hold, node_frame.frame) {
        None => None,
        Some(frame) => store.frame(node_frame.node, i64::from(frame)),
    }
}

/// The components in which clips are seen: Alpha for a mask, and those of the node for every other.
pub fn seen_components(
    alloc: Global,
    masks: &Flags,
    components: Components,
) -> Result<Vec<Components>, Memory>
    ensures { IfOk result (λ seen. seen.items ≡ map (seen_in components) masks.now) }
{
    let mut seen = Vec::new(alloc);
    for mask in masks.items() {
        seen.push(seen_in(*mask, components))?;
    }
    Ok(seen)
}

fn seen_in(mask: bool, components: Components) -> Components
    ensures { result ≡ seen_in components mask }
{
    if mask { Components::Alpha } else { components }
}
