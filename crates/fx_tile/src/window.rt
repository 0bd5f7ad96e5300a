//! A tile of the picture of a frame.
ghost use Rattle.std.specs.Prelude.{◌≡◌, ◌+◌, ◌≤◌, ◌∷◌, [], None, ℤ, IfOk, OnOk, length};
ghost use Rattle.fx_base.specs.Bounds.{IsRect};
ghost use Rattle.fx_base.specs.Rect.{IsWithin};
ghost use Rattle.fx_image.specs.Part.{IsPart, IsWritten, SamePart, narrowed};
ghost use Rattle.fx_image.specs.Image.{pixel_at};
ghost use Rattle.fx_effect.specs.Given.{row_pixel};
ghost use Rattle.fx_pam.specs.Laws.{components_for};
ghost use Rattle.fx_region.specs.Ends.{end_of, end_pixel, end_shown};
ghost use Rattle.fx_scene.specs.Right.{HasWanted};
ghost use Rattle.fx_scene.specs.Sites.{scene_nodes};
ghost use Rattle.fx_region.specs.Tables.{AreRegions};
ghost use Rattle.fx_scene.specs.Scenes.{images_in, picture};
ghost use Rattle.fx_tile.specs.Counts.{CountsEnd, CountsRises};
ghost use Rattle.fx_life.specs.Posts.{HasLife};
ghost use Rattle.fx_tile.specs.Kept.{HasRows, KeepsSeat, made_of};
ghost use Rattle.fx_tile.specs.Moments.{IsFoundTile};
ghost use Rattle.fx_tile.specs.Setups.{IsReady, IsTileOf, end_renders};
ghost use Rattle.fx_tile.specs.Tiles.{IsRegion};

use crate::count::TileCount;
use crate::found::{FoundTile, found_tile};
use crate::inputs::add_piece;
use crate::setup::Setup;
use crate::share::{Shared, TileSeat};
use fx_base::{Memory, Rect};
use fx_effect::{Catalogue, Inputs};
use fx_image::{Image, Part};
use fx_life::Life;
use fx_pixel::{Components, Depth};
use fx_region::{End, Need, Regions};
use fx_scene::Scene;
use std::alloc::Global;
use std::rt::Clock;
use std::sync::{Arc, Wait};

/// Writes the pixels of a tile of the picture of a frame into a part, and no others. The tile lies within the
/// project's extent and the part, which has the picture's depth and components; the regions are those of the scene at
/// that frame, and it holds what the frame wants; the life is that of its graph, and the name of both directories is that
/// of the scene; there are gates for 64 plug-ins and each node. The seat is one of both directories and of the gates, and
/// has no flight and no gate, before and after. What is rendered of an effect that supports no tiles is its whole region
/// of definition, and is kept among whole images (OpenFX 1.4, kOfxImageEffectPropSupportsTiles). `Memory` comes where
/// memory is wanting: then the pixels of the tile may be anything, and each flight of the call was dropped. Where another
/// renders what is needed it is waited for. A render holds the gate of its node, once what it reads is there, and
/// releases it before it lands.
pub fn window_tile<R: Wait + Clock, E: Catalogue + Drop>(
    rt: &R,
    alloc: Global,
    scene: &Scene<E>,
    regions: &Regions,
    life: &Life<E>,
    shared: &Shared<E>,
    seat: &mut TileSeat<E>,
    frame: i64,
    tile: Rect,
    out: &mut Part<'_>,
) -> Result<TileCount, Memory>
    requires life { HasLife E.number_of scene.now.graph life.now }
    requires regions { let nodes = scene_nodes E.meaning scene.now in let g = scene.now.graph in
        AreRegions nodes (length g.nodes) g.output frame regions.now }
    requires holds { HasWanted E.meaning scene.now.graph (images_in scene.now.store) scene.now.graph.output frame }
    requires name { shared.now.directory.name.scene.value ≡ scene.now }
    requires whole_name { shared.now.wholes.name.scene.value ≡ scene.now }
    requires seat { HasRows shared.now seat.old }
    requires free { (seat.old.directory.aloft ≡ []) × (seat.old.wholes.aloft ≡ []) }
    requires gates { 64 + length scene.now.graph.nodes ≤ shared.now.gates.gates }
    requires gate_seat { (seat.old.gates.row ≡ shared.now.gates) × (seat.old.gates.turn ≡ None) }
    requires tile { IsRegion tile }
    requires project { IsWithin tile scene.now.graph.project }
    requires part { IsPart out.old }
    requires within { IsWithin tile out.old.rect }
    requires depth { out.old.image.now.depth ≡ scene.now.graph.depth }
    requires components { out.old.image.now.components ≡ components_for scene.now.graph.format }
    ensures part { SamePart out.old out.new }
    ensures pixels { let shown = picture E.meaning scene.now.graph (images_in scene.now.store) frame in
        OnOk result (IsWritten (narrowed out.old tile) (narrowed out.new tile) (pixel_at shown)) }
    ensures count { let g = scene.now.graph in
        IfOk result (CountsEnd (end_of (scene_nodes E.meaning scene.now) g.output frame tile)) }
    ensures rises { let g = scene.now.graph in let nodes = scene_nodes E.meaning scene.now in
        let r = end_renders nodes shared.now.grid (end_of nodes g.output frame tile) in
        IfOk result (CountsRises r (made_of seat.old) (made_of seat.new)) }
    ensures seat { KeepsSeat seat.old seat.new }
{
    let setup = Setup::of(scene, regions, life, shared);
    let found = found_tile(rt, alloc, &setup, seat, frame, tile)?;
    show(alloc, &setup, &found, tile, out)?;
    Ok(found.count)
}

/// Writes what a tile that was found shows of the picture of its frame into a place of a part, and no other pixel. The
/// place lies in the tile, the part and the project's extent, and the part has the picture's depth and components.
pub(crate) fn show<E: Catalogue>(
    alloc: Global,
    setup: &Setup<'_, E>,
    found: &FoundTile,
    place: Rect,
    out: &mut Part<'_>,
) -> Result<(), Memory>
    requires found { IsFoundTile E.meaning setup.now found.now.need.frame found.now }
    requires in_tile { IsWithin place found.now.tile }
    requires project { IsWithin place setup.now.scene.now.graph.project }
    requires bounds { IsRect place }
    requires part { IsPart out.old }
    requires within { IsWithin place out.old.rect }
    requires depth { out.old.image.now.depth ≡ setup.now.scene.now.graph.depth }
    requires components { out.old.image.now.components ≡ components_for setup.now.scene.now.graph.format }
    ensures part { SamePart out.old out.new }
    ensures pixels { let s = setup.now.scene.now in
        let shown = picture E.meaning s.graph (images_in s.store) found.now.need.frame in
        OnOk result (IsWritten (narrowed out.old place) (narrowed out.new place) (pixel_at shown)) }
{
    let inputs = one_clip(
        alloc,
        setup,
        out.depth(),
        out.components(),
        &found.need,
        &found.image,
    )?;
    copy_rows(&inputs, found.need.frame, place, out);
    Ok(())
}

// One clip, which shows what a need is found to be.
fn one_clip<'s, E: Catalogue>(
    alloc: Global,
    setup: &'s Setup<'s, E>,
    depth: Depth,
    components: Components,
    need: &Need,
    image: &'s Option<Arc<Image>>,
) -> Result<Inputs<'s>, Memory>
    requires clip { need.now.clip ≡ 0 }
    requires ready { IsReady E.meaning setup.now (setup.now.graph.now.output + 1) need.now.end }
    requires image { IsTileOf (scene_nodes E.meaning setup.now.scene.now) need.now.end image.now }
    ensures depth { IfOk result (λ inputs. inputs.depth ≡ depth) }
    ensures components { IfOk result (λ inputs. inputs.components ≡ components ∷ []) }
    ensures pixels { let nodes = scene_nodes E.meaning setup.now.scene.now in
        let shown = end_pixel nodes (end_shown need.now.end) depth components in
        IfOk result (λ inputs. (x y : ℤ) → row_pixel inputs 0 need.now.frame x y ≡ shown x y) }
{
    let mut inputs = Inputs::new(alloc, depth, vec![in alloc; components]?)?;
    match &need.end {
        End::Void => Ok(inputs),
        _ => {
            add_piece(
                alloc,
                setup,
                setup.graph.output + 1,
                need,
                image,
                &mut inputs,
            )?;
            Ok(inputs)
        }
    }
}

// Writes what the inputs show of their one clip at a frame into a tile of a part, row by row.
fn copy_rows(inputs: &Inputs<'_>, frame: i64, tile: Rect, out: &mut Part<'_>)
    requires depth { inputs.now.depth ≡ out.old.image.now.depth }
    requires components { inputs.now.components ≡ out.old.image.now.components ∷ [] }
    requires part { IsPart out.old }
    requires bounds { IsRect tile }
    requires within { IsWithin tile out.old.rect }
    ensures part { SamePart out.old out.new }
    ensures pixels { IsWritten (narrowed out.old tile) (narrowed out.new tile) (row_pixel inputs.now 0 frame) }
{
    for y in tile.y1..tile.y2 {
        inputs.read_row(0, frame, tile, y, out.row_within_mut(tile, y));
    }
}
