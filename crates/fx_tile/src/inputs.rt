//! What a render reads: a piece for each need, over the frame of a source or the image of a render.
ghost use Rattle.std.specs.Prelude.{◌≡◌, ◌≢◌, ◌<◌, ◌++◌, ◌∷◌, [], All, IfOk, OnOk, length, map};
ghost use Rattle.fx_base.specs.Rect.{IsWithin};
ghost use Rattle.fx_region.specs.declared.ends.End.TheVariants as ends;
ghost use Rattle.fx_scene.specs.Sites.{scene_nodes, seen_in};
ghost use Rattle.fx_tile.specs.Setups.{AreTilesOf, IsReady, IsSetup, IsTileOf};
ghost use Rattle.fx_tile.specs.Inputs.{AddsPiece, AreInputs, piece_of};

use crate::setup::Setup;
use fx_base::{Memory, Rect};
use fx_effect::{Catalogue, Inputs, Piece, Steps};
use fx_image::Image;
use fx_region::{End, Need};
use fx_scene::site::{EffectNode, seen_components};
use std::alloc::Global;
use std::sync::Arc;

/// What the render of a node reads, by the frames and the images of its needs.
pub(crate) fn inputs_of<'s, E: Catalogue>(
    alloc: Global,
    setup: &'s Setup<'s, E>,
    node: &EffectNode<'_, E>,
    needs: &[Need],
    tiles: &'s [Option<Arc<Image>>],
) -> Result<Inputs<'s>, Memory>
    requires clips { All (λ need. need.clip < length node.now.masks.now) needs.now }
    requires found { All (λ need. need.end ≢ ends.Void) needs.now }
    requires ready { All (λ need. IsReady E.meaning setup.now node.now.place need.end) needs.now }
    requires tiles { AreTilesOf (scene_nodes E.meaning setup.now.scene.now) needs.now tiles.now }
    ensures { let seen = map (seen_in node.now.components) node.now.masks.now in
        let nodes = scene_nodes E.meaning setup.now.scene.now in
        IfOk result (AreInputs nodes node.now.depth seen needs.now) }
{
    let components = seen_components(alloc, node.masks, node.components)?;
    let mut inputs = Inputs::new(alloc, node.depth, components)?;
    for i in 0..needs.len() {
        add_piece(alloc, setup, node.place, &needs[i], &tiles[i], &mut inputs)?;
    }
    Ok(inputs)
}

/// Adds the piece of a need.
pub(crate) fn add_piece<'s, E: Catalogue>(
    alloc: Global,
    setup: &'s Setup<'s, E>,
    _before: u32,
    need: &Need,
    tile: &'s Option<Arc<Image>>,
    inputs: &mut Inputs<'s>,
) -> Result<(), Memory>
    requires clip { need.now.clip < length inputs.old.components }
    requires found { need.now.end ≢ ends.Void }
    requires ready { IsReady E.meaning setup.now _before need.now.end }
    requires tile { IsTileOf (scene_nodes E.meaning setup.now.scene.now) need.now.end tile.now }
    ensures { OnOk result
        (AddsPiece (scene_nodes E.meaning setup.now.scene.now) need.now inputs.old inputs.new) }
{
    match &need.end {
        End::Void => unreachable!(),
        End::Frame {
            node,
            frame,
            region,
            through,
        } => {
            let Some(image) = setup.store.frame(*node, *frame) else {
                unreachable!()
            };
            push_view(
                alloc, need.clip, need.frame, image, *region, through, inputs,
            )
        }
        End::Render {
            node: _,
            frame: _,
            region: _,
            cut,
            through,
        } => {
            let Some(image) = tile else { unreachable!() };
            push_view(alloc, need.clip, need.frame, image, *cut, through, inputs)
        }
    }
}

// Adds a region of an image, which goes through these conversions.
fn push_view<'s>(
    alloc: Global,
    clip: u32,
    frame: i64,
    image: &'s Image,
    region: Rect,
    through: &Steps,
    inputs: &mut Inputs<'s>,
) -> Result<(), Memory>
    requires clip { clip < length inputs.old.components }
    requires within { IsWithin region image.now.rect }
    ensures { OnOk result (inputs.new
        ≡ record inputs.old { pieces = inputs.old.pieces ++ piece_of clip frame region through.now image.now ∷ [] }) }
{
    let through = Steps::of(Vec::from_slice(alloc, through.items())?);
    let view = image.view(region);
    inputs.push(alloc, clip, frame, Piece::Frame { view, through })
}
