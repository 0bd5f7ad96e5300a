//! The plan of a frame.
ghost use Rattle.std.specs.Prelude.{◌≡◌, ◌+◌, length, map, All, AllPairs, IfOk, OnOk};
ghost use Rattle.std.specs.List.{flat_map};
ghost use Rattle.fx_base.specs.Bounds.{IsRect};
ghost use Rattle.fx_base.specs.Rect.{IsWithin};
ghost use Rattle.fx_region.specs.Ends.{end_of, end_shown};
ghost use Rattle.fx_region.specs.Needs.{need_shown};
ghost use Rattle.fx_region.specs.Tables.{AreRegions, Has, IsMadeOf};
ghost use Rattle.fx_scene.specs.Areas.{area};
ghost use Rattle.fx_scene.specs.Depends.{AgreeOnWanted, AreImages};
ghost use Rattle.fx_scene.specs.Right.{HasWanted};
ghost use Rattle.fx_scene.specs.Scenes.{Images, images_in};
ghost use Rattle.fx_scene.specs.Sites.{scene_nodes};
ghost use Rattle.fx_plan.specs.Keys.{Adds, AreDemanded, AreRenders, HasRect, IsRenderEntry, KeyHasRect, entry_of, key_region};
ghost use Rattle.fx_plan.specs.Plan.{IsBefore, IsPlanOf, entry_at, need_entry, needed_entries, window_entries};

use crate::entry::{Entry, SortKey};
use crate::laws::ends_agree;
use fx_actions::Asking;
use fx_base::{Grid, Memory, Rect};
use fx_effect::Catalogue;
use fx_region::{End, Need, Regions, demand_by, follow_by};
use fx_scene::Scene;
use fx_scene::laws::{scene_is, scene_nodes};
use std::alloc::Global;
use std::collections::BTreeSet;

/// The renders that a frame demands: those where its window tiles are found, and those that a demanded one needs. Each
/// stands once, by node and frame, and then by the bottom, left, top and right of its region, so that what one needs
/// stands before it. The regions are those of the scene at that frame, and it holds what the frame wants. Time grows with
/// what is demanded, and not with the ways to it. `Memory` comes where memory is wanting.
pub fn plan<E: Catalogue>(
    alloc: Global,
    scene: &Scene<E>,
    regions: &Regions,
    frame: i64,
    grid: Grid,
) -> Result<Vec<Entry>, Memory>
    requires regions { let nodes = scene_nodes E.meaning scene.now in let g = scene.now.graph in
        AreRegions nodes (length g.nodes) g.output frame regions.now }
    requires holds { HasWanted E.meaning scene.now.graph (images_in scene.now.store) scene.now.graph.output frame }
    ensures plan { let g = scene.now.graph in let held = images_in scene.now.store in
        IfOk result (λ entries. IsPlanOf E.meaning g held grid frame entries.items) }

    // It is the same over any images that have the same of what the frame wants.
    ensures agrees { let g = scene.now.graph in let held = images_in scene.now.store in
        IfOk result (λ entries. (other : Images) → AreImages other
        → AgreeOnWanted E.meaning g g.output frame frame held other
        → IsPlanOf E.meaning g other grid frame entries.items) }
{
    let demanded = demanded_keys(alloc, scene, regions, frame, grid)?;
    let entries = entries_of(alloc, &demanded)?;
    // They tell the proof that no other images change an end of what is reached.
    scene_is(scene);
    ends_agree(scene.graph());
    Ok(entries)
}

// What is demanded, by the frames that the scene holds. What an entry needs stands before it, so nothing is taken twice.
fn demanded_keys<E: Catalogue>(
    alloc: Global,
    scene: &Scene<E>,
    regions: &Regions,
    frame: i64,
    grid: Grid,
) -> Result<BTreeSet<SortKey>, Memory>
    requires { let nodes = scene_nodes E.meaning scene.now in let g = scene.now.graph in
        AreRegions nodes (length g.nodes) g.output frame regions.now }
    ensures demanded { let nodes = scene_nodes E.meaning scene.now in let g = scene.now.graph in
        IfOk result (AreDemanded nodes g.output grid g.project frame) }
    ensures renders { let nodes = scene_nodes E.meaning scene.now in let g = scene.now.graph in
        IfOk result (AreRenders nodes regions.now (g.output + 1)) }
{
    // It tells the proof that effects keep their laws.
    scene_nodes(scene);
    let mut asking = Asking::new(alloc)?;
    let mut pending = BTreeSet::new(alloc);
    add_window(
        alloc,
        &mut asking,
        scene,
        regions,
        frame,
        grid,
        &mut pending,
    )?;
    let mut demanded = BTreeSet::new(alloc);
    while let Some(key) = pending.pop_last() {
        add_needs(alloc, &mut asking, scene, regions, grid, key, &mut pending)?;
        demanded.insert(key)?;
    }
    Ok(demanded)
}

// Adds the renders where the window tiles are found: the tiles that hold a pixel of the project's extent, each cut to it.
fn add_window<E: Catalogue>(
    alloc: Global,
    asking: &mut Asking,
    scene: &Scene<E>,
    regions: &Regions,
    frame: i64,
    grid: Grid,
    pending: &mut BTreeSet<SortKey>,
) -> Result<(), Memory>
    requires { let nodes = scene_nodes E.meaning scene.now in let g = scene.now.graph in
        AreRegions nodes (length g.nodes) g.output frame regions.now }
    ensures added { let nodes = scene_nodes E.meaning scene.now in let g = scene.now.graph in
        OnOk result (Adds (window_entries nodes g.output grid g.project frame) pending.old pending.new) }
    ensures renders { let nodes = scene_nodes E.meaning scene.now in let g = scene.now.graph in
        OnOk result (All (IsRenderEntry nodes regions.now (g.output + 1))
        (window_entries nodes g.output grid g.project frame)) }
{
    let graph = scene.graph();
    let output = graph.output;
    let project = graph.project;
    let tiles = grid.tiles_of(alloc, project)?;
    for tile in &tiles {
        let region = project.meet(*tile);
        add_tile(
            alloc, asking, scene, regions, output, frame, region, pending,
        )?;
    }
    Ok(())
}

// Adds the render where a region of a node is found, if it is found in one.
fn add_tile<E: Catalogue>(
    alloc: Global,
    asking: &mut Asking,
    scene: &Scene<E>,
    regions: &Regions,
    node: u32,
    frame: i64,
    region: Rect,
    pending: &mut BTreeSet<SortKey>,
) -> Result<(), Memory>
    requires regions { IsMadeOf E.meaning scene.now regions.now }
    requires reached { Has regions.now node frame }
    ensures added { let end = end_of (scene_nodes E.meaning scene.now) node frame region in
        OnOk result (Adds (entry_at end) pending.old pending.new) }
    ensures renders { let nodes = scene_nodes E.meaning scene.now in
        OnOk result (All (IsRenderEntry nodes regions.now (node + 1)) (entry_at (end_of nodes node frame region))) }
{
    let end = follow_by(alloc, asking, scene, regions, node, frame, region)?;
    add_end(&end, pending)?;
    Ok(())
}

// Adds the renders that an entry needs.
fn add_needs<E: Catalogue>(
    alloc: Global,
    asking: &mut Asking,
    scene: &Scene<E>,
    regions: &Regions,
    grid: Grid,
    key: SortKey,
    pending: &mut BTreeSet<SortKey>,
) -> Result<(), Memory>
    requires regions { IsMadeOf E.meaning scene.now regions.now }
    requires rect { IsRect (key_region key) }
    requires reached { Has regions.now key.node key.frame }
    requires within { IsWithin (key_region key) (area (scene_nodes E.meaning scene.now) key.node key.frame) }
    ensures added { let needed = needed_entries (scene_nodes E.meaning scene.now) grid (entry_of key) in
        OnOk result (Adds needed pending.old pending.new) }
    ensures renders { let nodes = scene_nodes E.meaning scene.now in
        OnOk result (All (IsRenderEntry nodes regions.now key.node) (needed_entries nodes grid (entry_of key))) }
{
    let region = key.region();
    let needs = demand_by(
        alloc, asking, scene, regions, key.node, key.frame, region, grid,
    )?;
    add_each(&needs, pending)?;
    Ok(())
}

// Adds the renders that needs are.
fn add_each(needs: &[Need], pending: &mut BTreeSet<SortKey>) -> Result<(), Memory>
    ensures added { let needed = flat_map need_entry (map need_shown needs.now) in
        OnOk result (Adds needed pending.old pending.new) }
    ensures rects { OnOk result (All HasRect (flat_map need_entry (map need_shown needs.now))) }
{
    for need in needs {
        add_end(&need.end, pending)?;
    }
    Ok(())
}

// Adds the render that an end is, if it is one.
#[tactic(auto, using(crate::proofs::KeyLemmas::adds_none, crate::proofs::KeyLemmas::adds_one))]
fn add_end(end: &End, pending: &mut BTreeSet<SortKey>) -> Result<(), Memory>
    ensures added { OnOk result (Adds (entry_at (end_shown end.now)) pending.old pending.new) }
    ensures rects { All HasRect (entry_at (end_shown end.now)) }
{
    match end {
        End::Void => Ok(()),
        End::Frame { .. } => Ok(()),
        End::Render {
            node,
            frame,
            region,
            ..
        } => {
            pending.insert(SortKey::of(*node, *frame, *region))?;
            Ok(())
        }
    }
}

// The entries of these keys, in their order.
fn entries_of(alloc: Global, keys: &BTreeSet<SortKey>) -> Result<Vec<Entry>, Memory>
    requires { All KeyHasRect keys.now.keys }
    ensures entries { IfOk result (λ entries. entries.items ≡ map entry_of keys.now.keys) }
    ensures order { IfOk result (λ entries. AllPairs IsBefore entries.items) }
{
    let mut entries = Vec::new(alloc);
    for key in keys {
        entries.push(key.entry())?;
    }
    Ok(entries)
}
