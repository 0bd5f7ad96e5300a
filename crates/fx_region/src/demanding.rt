//! What a region of a node needs.
ghost use Rattle.std.specs.Prelude.{◌≡◌, ◌<◌, ◌≤ℤ◌, ◌++◌, Some, false, length, map, negsuc, pos, All, IfOk, OnOk};
ghost use Rattle.std.specs.List.{flat_map};
ghost use Rattle.fx_base.specs.Rect.{IsNear, IsWithin, is_empty};
ghost use Rattle.fx_effect.specs.Asked.{IsWindow};
ghost use Rattle.fx_scene.specs.Areas.{area};
ghost use Rattle.fx_scene.specs.Nodes.{AreNodes, Effect, EffectNode as Effects};
ghost use Rattle.fx_scene.specs.Reach.{IsNearFrame};
ghost use Rattle.fx_scene.specs.Scenes.{graph_shown};
ghost use Rattle.fx_region.specs.Ends.{end_of, end_shown};
ghost use Rattle.fx_region.specs.Needs.{clip_needs, frame_needs, need_shown, needed, needs_of, node_needs, tile_needs};
ghost use Rattle.fx_scene.specs.Sites.{AreReads, StandsIn, effect_at, scene_nodes, site_nodes};
ghost use Rattle.fx_region.specs.Stands.{NeedStands};
ghost use Rattle.fx_region.specs.Suffice.{ShowsTaps};
ghost use Rattle.fx_region.specs.Tables.{Has, HasClip, HasReads, IsAskedSo, IsInterest, IsMadeOf, IsTable};

use crate::ends::Need;
use crate::regions::{Asked, Regions};
use crate::tiles::add_tiles;
use fx_actions::Asking;
use fx_base::{Grid, Memory, Rect};
use fx_effect::Catalogue;
use fx_scene::Scene;
use fx_scene::site::{EffectNode, NodeAt, Site, node_at, site_of};
use std::alloc::Global;

// Room for so many needs is made at once: a region of the size of a tile seldom has more.
const NEEDS_AT_FIRST: usize = 8;

/// What a region of a node at a frame needs, tile by tile: for each clip in the order in which its effect describes
/// them, each frame that it needs of the clip, rising, and each tile of the grid that meets its region of interest
/// within the region of definition of the clip's node, by rising row and column, where that tile is found
/// (OpenFX 1.4, kOfxImageEffectActionGetRegionsOfInterest and kOfxImageEffectActionGetFramesNeeded). A tile is cut to
/// the region of definition, and one that is found nowhere is left out. A source needs nothing. Regions are those of
/// the scene, the node is reached at the frame, and the region lies within its region of definition. `Memory` comes
/// where memory is wanting.
pub fn demand<E: Catalogue>(
    alloc: Global,
    scene: &Scene<E>,
    regions: &Regions,
    node: u32,
    frame: i64,
    region: Rect,
    grid: Grid,
) -> Result<Vec<Need>, Memory>
    requires regions { IsMadeOf E.meaning scene.now regions.now }
    requires reached { Has regions.now node frame }
    requires within { IsWithin region (area (scene_nodes E.meaning scene.now) node frame) }
    ensures needs { let nodes = scene_nodes E.meaning scene.now in
        IfOk result (λ needs. map need_shown needs.items ≡ needs_of nodes grid node frame region) }

    // Of each tap of a pixel of the region the value is zero or a need has its place, and the first such need shows it.
    ensures shows { let nodes = scene_nodes E.meaning scene.now in (o : Effects) → nodes node ≡ Effect o
        → IfOk result (λ needs. ShowsTaps nodes o frame region (map need_shown needs.items)) }

    // Each is at a node before this one.
    ensures stand { let nodes = scene_nodes E.meaning scene.now in
        IfOk result (λ needs. All (NeedStands nodes regions.now node) (map need_shown needs.items)) }
{
    let mut asking = Asking::new(alloc)?;
    demand_by(
        alloc,
        &mut asking,
        scene,
        regions,
        node,
        frame,
        region,
        grid,
    )
}

/// What `demand` answers, by arguments that are kept from one call to the next.
pub fn demand_by<E: Catalogue>(
    alloc: Global,
    asking: &mut Asking,
    scene: &Scene<E>,
    regions: &Regions,
    node: u32,
    frame: i64,
    region: Rect,
    grid: Grid,
) -> Result<Vec<Need>, Memory>
    requires regions { IsMadeOf E.meaning scene.now regions.now }
    requires reached { Has regions.now node frame }
    requires within { IsWithin region (area (scene_nodes E.meaning scene.now) node frame) }
    ensures needs { let nodes = scene_nodes E.meaning scene.now in
        IfOk result (λ needs. map need_shown needs.items ≡ needs_of nodes grid node frame region) }

    // Of each tap of a pixel of the region the value is zero or a need has its place, and the first such need shows it.
    ensures shows { let nodes = scene_nodes E.meaning scene.now in (o : Effects) → nodes node ≡ Effect o
        → IfOk result (λ needs. ShowsTaps nodes o frame region (map need_shown needs.items)) }

    // Each is at a node before this one.
    ensures stand { let nodes = scene_nodes E.meaning scene.now in
        IfOk result (λ needs. All (NeedStands nodes regions.now node) (map need_shown needs.items)) }
{
    let site = site_of(scene);
    needs_in(alloc, asking, &site, regions, node, frame, region, grid)
}

// The same in the graph of a scene.
fn needs_in<E: Catalogue>(
    alloc: Global,
    asking: &mut Asking,
    site: &Site<'_, E>,
    regions: &Regions,
    node: u32,
    frame: i64,
    region: Rect,
    grid: Grid,
) -> Result<Vec<Need>, Memory>
    requires nodes { AreNodes (site_nodes E.meaning site.now) }
    requires table { IsTable (site_nodes E.meaning site.now) (length site.now.graph.now.nodes.items) regions.now }
    requires reached { Has regions.now node frame }
    requires window { IsWindow region }
    ensures { let nodes = site_nodes E.meaning site.now in
        IfOk result (λ needs. map need_shown needs.items ≡ needs_of nodes grid node frame region) }
{
    match node_at(site.graph, node) {
        NodeAt::Source(_) => Ok(Vec::new(alloc)),
        NodeAt::Effect(used) => {
            let asked = regions.known(node, frame).of_effect();
            effect_needs(
                alloc, asking, site, regions, asked, &used, frame, region, grid,
            )
        }
    }
}

fn effect_needs<E: Catalogue>(
    alloc: Global,
    asking: &mut Asking,
    site: &Site<'_, E>,
    regions: &Regions,
    asked: &Asked,
    node: &EffectNode<'_, E>,
    frame: i64,
    region: Rect,
    grid: Grid,
) -> Result<Vec<Need>, Memory>
    requires nodes { AreNodes (site_nodes E.meaning site.now) }
    requires table { IsTable (site_nodes E.meaning site.now) (length site.now.graph.now.nodes.items) regions.now }
    requires there { StandsIn (graph_shown site.now.graph.now) node.now }
    requires near { IsNearFrame node.now.place frame }
    requires reads { HasReads regions.now (Effect (effect_at E.meaning site.now.graph.now.project node.now)) frame }
    requires asked { let o = effect_at E.meaning site.now.graph.now.project node.now in
        IsAskedSo (Effect o) frame (Some asked.now) }
    requires window { IsWindow region }
    ensures { let nodes = site_nodes E.meaning site.now in
        let o = effect_at E.meaning site.now.graph.now.project node.now in
        IfOk result (λ needs.
        map need_shown needs.items ≡ node_needs (end_of nodes) (area nodes) grid (Effect o) frame region) }
{
    let interest = asking.regions_of_interest(
        alloc,
        node.effect,
        node.names,
        &asked.values,
        region,
    )?;
    needs_of_clips(
        alloc,
        asking,
        site,
        regions,
        node,
        frame,
        region,
        grid,
        interest.as_slice(),
        asked.reads.as_slice(),
    )
}

// What is needed of each clip, by its region of interest and the frames that are read of it.
fn needs_of_clips<E: Catalogue>(
    alloc: Global,
    asking: &mut Asking,
    site: &Site<'_, E>,
    regions: &Regions,
    node: &EffectNode<'_, E>,
    frame: i64,
    _region: Rect,
    grid: Grid,
    interest: &[Rect],
    reads: &[Vec<i64>],
) -> Result<Vec<Need>, Memory>
    requires nodes { AreNodes (site_nodes E.meaning site.now) }
    requires table { IsTable (site_nodes E.meaning site.now) (length site.now.graph.now.nodes.items) regions.now }
    requires there { HasReads regions.now (Effect (effect_at E.meaning site.now.graph.now.project node.now)) frame }
    requires few { length node.now.clips.now < 65536 }
    requires interest { let o = effect_at E.meaning site.now.graph.now.project node.now in
        IsInterest o frame _region interest.now }
    requires reads { AreReads (effect_at E.meaning site.now.graph.now.project node.now) frame reads.now }
    ensures { let nodes = site_nodes E.meaning site.now in
        let o = effect_at E.meaning site.now.graph.now.project node.now in
        IfOk result (λ needs.
        map need_shown needs.items ≡ node_needs (end_of nodes) (area nodes) grid (Effect o) frame _region) }
{
    let mut needs = Vec::with_capacity(alloc, NEEDS_AT_FIRST)?;
    for c in 0..reads.len() {
        let frames = reads[c].as_slice();
        add_clip(
            alloc,
            asking,
            site,
            regions,
            grid,
            c as u32,
            node.clips[c],
            frames,
            interest[c],
            &mut needs,
        )?;
    }
    Ok(needs)
}

// Adds what is needed of a clip, if it is connected.
fn add_clip<E: Catalogue>(
    alloc: Global,
    asking: &mut Asking,
    site: &Site<'_, E>,
    regions: &Regions,
    grid: Grid,
    clip: u32,
    node: Option<u32>,
    frames: &[i64],
    interest: Rect,
    needs: &mut Vec<Need>,
) -> Result<(), Memory>
    requires nodes { AreNodes (site_nodes E.meaning site.now) }
    requires table { IsTable (site_nodes E.meaning site.now) (length site.now.graph.now.nodes.items) regions.now }
    requires there { HasClip regions.now node frames.now }
    ensures { let nodes = site_nodes E.meaning site.now in
        OnOk result (map need_shown needs.new.items ≡ map need_shown needs.old.items
        ++ clip_needs (end_of nodes) (area nodes) grid interest clip frames.now node) }
{
    match node {
        None => Ok(()),
        Some(m) => add_frames(
            alloc, asking, site, regions, grid, clip, m, frames, interest, needs,
        ),
    }
}

// Adds what is needed of a node at these frames.
fn add_frames<E: Catalogue>(
    alloc: Global,
    asking: &mut Asking,
    site: &Site<'_, E>,
    regions: &Regions,
    grid: Grid,
    clip: u32,
    m: u32,
    frames: &[i64],
    interest: Rect,
    needs: &mut Vec<Need>,
) -> Result<(), Memory>
    requires nodes { AreNodes (site_nodes E.meaning site.now) }
    requires table { IsTable (site_nodes E.meaning site.now) (length site.now.graph.now.nodes.items) regions.now }
    requires there { All (Has regions.now m) frames.now }
    ensures { let nodes = site_nodes E.meaning site.now in
        OnOk result (map need_shown needs.new.items ≡ map need_shown needs.old.items
        ++ flat_map (frame_needs (end_of nodes) (area nodes) grid interest clip m) frames.now) }
{
    for f in frames {
        add_tiles(
            alloc, asking, site, regions, grid, clip, m, *f, interest, needs,
        )?;
    }
    Ok(())
}
