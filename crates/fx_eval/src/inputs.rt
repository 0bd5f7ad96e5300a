//! What the render of a node reads: pieces over what is made of the nodes that its clips are.
ghost use Rattle.std.specs.Prelude.{◌≡◌, ◌<◌, ◌++◌, ◌∷◌, [], ℕ, Option, Some, length, map, All, IfOk, IfSome, OnOk};
ghost use Rattle.std.specs.Arc.{arc_value};
ghost use Rattle.fx_scene.specs.Nodes.{Effect, clip_node};
ghost use Rattle.fx_scene.specs.Scenes.{graph_shown};
ghost use Rattle.fx_scene.specs.Sites.{AreReads, StandsIn, effect_at, seen_in};
ghost use Rattle.fx_eval.specs.Setups.{IsSetup, setup_nodes};
ghost use Rattle.fx_eval.specs.Wholes.{AreWhole, IsMade, IsReady};
ghost use Rattle.fx_eval.specs.Inputs.{Adds, AreMade, IsOne, IsSomeOf, Reads, blank, piece_of};

use crate::areas::made_of;
use crate::setup::Setup;
use crate::whole::Whole;
use fx_base::Memory;
use fx_effect::{Catalogue, Inputs, Piece, Step, Steps};
use fx_image::Image;
use fx_scene::NodeFrame;
use fx_scene::site::{EffectNode, NodeAt, SourceNode, image_shown, node_at, seen_components};
use std::alloc::Global;
use std::collections::BTreeMap;
use std::sync::Arc;

/// For each clip and each frame that is read, its node's images or its source's frame.
pub(crate) fn inputs_of<'s, E: Catalogue>(
    alloc: Global,
    setup: &'s Setup<'s, E>,
    made: &'s BTreeMap<NodeFrame, Whole>,
    node: &EffectNode<'_, E>,
    frame: i64,
    reads: &[Vec<i64>],
) -> Result<Inputs<'s>, Memory>
    requires setup { IsSetup E.meaning E.number_of setup.now }
    requires there { StandsIn (graph_shown setup.now.graph.now) node.now }
    requires whole { AreWhole (setup_nodes E.meaning setup.now) made.now }
    requires ready { IsReady (Effect (effect_at E.meaning setup.now.graph.now.project node.now)) frame made.now }
    requires reads { AreReads (effect_at E.meaning setup.now.graph.now.project node.now) frame reads.now }
    ensures { let o = effect_at E.meaning setup.now.graph.now.project node.now in
        let seen = map (seen_in node.now.components) node.now.masks.now in
        IfOk result (Adds (setup_nodes E.meaning setup.now) (clip_node o) (Reads o frame (length o.clips))
        (blank node.now.depth seen)) }
{
    let components = seen_components(alloc, node.masks, node.components)?;
    let mut inputs = Inputs::new(alloc, node.depth, components)?;
    for c in 0..reads.len() {
        let frames = reads[c].as_slice();
        add_clip(
            alloc,
            setup,
            made,
            c as u32,
            node.clips[c],
            frames,
            &mut inputs,
        )?;
    }
    Ok(inputs)
}

fn add_clip<'s, E: Catalogue>(
    alloc: Global,
    setup: &'s Setup<'s, E>,
    made: &'s BTreeMap<NodeFrame, Whole>,
    c: u32,
    clip: Option<u32>,
    frames: &[i64],
    inputs: &mut Inputs<'s>,
) -> Result<(), Memory>
    requires setup { IsSetup E.meaning E.number_of setup.now }
    requires there { IfSome clip (λ m. m < length setup.now.graph.now.nodes.items) }
    requires whole { AreWhole (setup_nodes E.meaning setup.now) made.now }
    requires made { AreMade made.now clip frames.now }
    requires clip { c < length inputs.old.components }
    ensures { (node : ℕ → Option ℕ) → node c ≡ clip
        → OnOk result (Adds (setup_nodes E.meaning setup.now) node (IsSomeOf c frames.now) inputs.old inputs.new) }
{
    match clip {
        None => Ok(()),
        Some(m) => add_frames(alloc, setup, made, c, m, frames, inputs),
    }
}

fn add_frames<'s, E: Catalogue>(
    alloc: Global,
    setup: &'s Setup<'s, E>,
    made: &'s BTreeMap<NodeFrame, Whole>,
    c: u32,
    m: u32,
    frames: &[i64],
    inputs: &mut Inputs<'s>,
) -> Result<(), Memory>
    requires setup { IsSetup E.meaning E.number_of setup.now }
    requires there { m < length setup.now.graph.now.nodes.items }
    requires whole { AreWhole (setup_nodes E.meaning setup.now) made.now }
    requires made { All (IsMade made.now m) frames.now }
    requires clip { c < length inputs.old.components }
    ensures { (node : ℕ → Option ℕ) → node c ≡ Some m
        → OnOk result (Adds (setup_nodes E.meaning setup.now) node (IsSomeOf c frames.now) inputs.old inputs.new) }
{
    for f in frames {
        add_frame(alloc, setup, made, c, m, *f, inputs)?;
    }
    Ok(())
}

/// Adds what stands for a node at a frame, as a clip.
pub(crate) fn add_frame<'s, E: Catalogue>(
    alloc: Global,
    setup: &'s Setup<'s, E>,
    made: &'s BTreeMap<NodeFrame, Whole>,
    c: u32,
    m: u32,
    f: i64,
    inputs: &mut Inputs<'s>,
) -> Result<(), Memory>
    requires setup { IsSetup E.meaning E.number_of setup.now }
    requires there { m < length setup.now.graph.now.nodes.items }
    requires whole { AreWhole (setup_nodes E.meaning setup.now) made.now }
    requires made { IsMade made.now m f }
    requires clip { c < length inputs.old.components }
    ensures { (node : ℕ → Option ℕ) → node c ≡ Some m
        → OnOk result (Adds (setup_nodes E.meaning setup.now) node (IsOne c f) inputs.old inputs.new) }
{
    match node_at(setup.graph, m) {
        NodeAt::Source(source) => {
            let at = NodeFrame { node: m, frame: f };
            match image_shown(setup.store, at, source) {
                None => Ok(()),
                Some(image) => add_source(alloc, image, source, c, f, inputs),
            }
        }
        NodeAt::Effect(_) => {
            let images = made_of(made, m, f).images.as_slice();
            add_images(alloc, images, c, f, inputs)
        }
    }
}

// Adds the frame of a source, which is seen at the source's depth and components first.
fn add_source<'s>(
    alloc: Global,
    image: &'s Image,
    source: SourceNode,
    c: u32,
    f: i64,
    inputs: &mut Inputs<'s>,
) -> Result<(), Memory>
    requires { c < length inputs.old.components }
    ensures { let through = record { depth = source.depth; components = source.components } ∷ [] in
        OnOk result (inputs.new
        ≡ record inputs.old { pieces = inputs.old.pieces ++ piece_of c f through image.now ∷ [] }) }
{
    let step = Step {
        depth: source.depth,
        components: source.components,
    };
    let through = Steps::of(vec![in alloc; step]?);
    push_image(alloc, c, f, image, through, inputs)
}

fn add_images<'s>(
    alloc: Global,
    images: &'s [Arc<Image>],
    c: u32,
    f: i64,
    inputs: &mut Inputs<'s>,
) -> Result<(), Memory>
    requires { c < length inputs.old.components }
    ensures { OnOk result (inputs.new
        ≡ record inputs.old { pieces = inputs.old.pieces ++ map (piece_of c f []) (map arc_value images.now) }) }
{
    for image in images {
        push_image(alloc, c, f, image, Steps::of(Vec::new(alloc)), inputs)?;
    }
    Ok(())
}

fn push_image<'s>(
    alloc: Global,
    c: u32,
    f: i64,
    image: &'s Image,
    through: Steps,
    inputs: &mut Inputs<'s>,
) -> Result<(), Memory>
    requires { c < length inputs.old.components }
    ensures { OnOk result (inputs.new
        ≡ record inputs.old { pieces = inputs.old.pieces ++ piece_of c f through image.now ∷ [] }) }
{
    let view = image.view(image.rect());
    inputs.push(alloc, c, f, Piece::Frame { view, through })
}
