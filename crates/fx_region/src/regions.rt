//! The regions of definition of the nodes that are reached.
ghost use Rattle.std.specs.Prelude.{◌≡◌, ◌≤◌, ◌≤ℤ◌, ◌∷◌, ℕ, ℤ, List, pos, neg_ℤ, Some, length, map, All, IfOk, IsSome, OnOk};
ghost use Rattle.std.specs.BTreeMap.{Updates};
ghost use Rattle.fx_base.specs.Rect.{Holds};
ghost use Rattle.fx_base.specs.declared.limits.TheConstants.{LAST_FRAME};
ghost use Rattle.fx_pixel.specs.Pixel.{zero};
ghost use Rattle.fx_graph.specs.Kept.{use_values};
ghost use Rattle.fx_scene.specs.Areas.{area, clip_area, clip_areas, hull_all};
ghost use Rattle.fx_scene.specs.Frames.{frames_of};
ghost use Rattle.fx_scene.specs.Nodes.{AreNodes, Effect, Nodes, components_at};
ghost use Rattle.fx_scene.specs.Reach.{IsNearFrame, IsPlace, node_frame_cmp};
ghost use Rattle.fx_scene.specs.Scenes.{graph_shown};
ghost use Rattle.fx_scene.specs.Value.{value};
ghost use Rattle.fx_scene.specs.Sites.{AreReads, StandsIn, effect_at, scene_nodes, site_nodes};
ghost use Rattle.fx_region.specs.Tables.{AreAreas, AreAreasOf, AreAskedSo, AreRegions, Has, HasClip, HasReads, IsAskedSo, IsOrder, known, look};

use fx_actions::region_of_definition;
use fx_base::{Memory, Rect};
use fx_effect::{Catalogue, ImageEffect, Values};
use fx_scene::site::{EffectNode, NodeAt, Site, node_at, site_of, source_area};
use fx_scene::{NodeFrame, Scene, frames_read, reach, use_values};
use std::alloc::Global;
use std::collections::{BTreeMap, BTreeSet};

/// For each node and each frame at which the output reads it, the region outside of which the node is zero, in
/// pixels, and how an effect is asked there. Contracts see what the table has of a node at a frame.
#[derive(Drop)]
pub struct Regions {
    reached: BTreeMap<NodeFrame, Reached>,
}

/// What is known of a node at a frame: its region of definition, and of an effect how it is asked there.
#[derive(Drop)]
pub(crate) struct Reached {
    pub(crate) area: Rect,
    pub(crate) asked: Option<Asked>,
}

/// The values that an effect is asked with at a frame, and for each clip the frames that it reads.
#[derive(Drop)]
pub(crate) struct Asked {
    pub(crate) values: Values,
    pub(crate) reads: Vec<Vec<i64>>,
}

impl Reached {
    /// How an effect is asked.
    pub(crate) fn of_effect(&self) -> &Asked
        requires { IsSome self.now.asked }
        ensures { self.now.asked ≡ Some result.now }
    {
        match &self.asked {
            Some(asked) => asked,
            None => unreachable!(),
        }
    }
}

impl Regions {
    /// The regions of definition of all nodes and frames that are reached from the output at a frame: of a source
    /// the rectangle of the frame that it shows, and of an effect what it answers for the regions of its clips,
    /// each the hull over the frames that it needs of the clip
    /// (OpenFX 1.4, kOfxImageEffectActionGetRegionOfDefinition). Each is asked for once. `Memory` comes where
    /// memory is wanting.
    pub fn of<E: Catalogue>(alloc: Global, scene: &Scene<E>, frame: i64) -> Result<Regions, Memory>
        requires low { neg_ℤ (pos LAST_FRAME) ≤ℤ frame }
        requires high { frame ≤ℤ pos LAST_FRAME }
        ensures { let nodes = scene_nodes E.meaning scene.now in let count = length scene.now.graph.nodes in
            IfOk result (AreRegions nodes count scene.now.graph.output frame) }
    {
        let site = site_of(scene);
        let node_frames = reach(alloc, site.graph, frame, frame)?;
        fill(alloc, &site, &node_frames)
    }

    /// The region of definition of a node at a frame at which it is reached.
    pub fn rod(&self, node: u32, frame: i64) -> Rect
        requires { Has self.now node frame }
        ensures there { look self.now node frame ≡ Some result }
        ensures area { (nodes : Nodes) → AreAreas nodes self.now → result ≡ area nodes node frame }
        ensures zero { (nodes : Nodes) → AreNodes nodes → AreAreas nodes self.now → (x y : ℤ)
            → (Holds result x y → ⊥) → value nodes node frame x y ≡ zero (components_at nodes node) }
    {
        self.known(node, frame).area
    }

    /// What is known of a node at a frame at which it is reached.
    pub(crate) fn known(&self, node: u32, frame: i64) -> &Reached
        requires { Has self.now node frame }
        ensures there { known self.now node frame ≡ Some result.now }
        ensures area { (nodes : Nodes) → AreAreas nodes self.now → result.now.area ≡ area nodes node frame }
        ensures asked { (nodes : Nodes) → AreAskedSo nodes self.now → IsAskedSo (nodes node) frame result.now.asked }
    {
        match self.reached.get(&NodeFrame { node, frame }) {
            Some(reached) => reached,
            None => unreachable!(),
        }
    }
}

// The regions of these nodes at frames in their order, so that those of what one reads are there before it.
fn fill<E: Catalogue>(
    alloc: Global,
    site: &Site<'_, E>,
    node_frames: &BTreeSet<NodeFrame>,
) -> Result<Regions, Memory>
    requires nodes { AreNodes (site_nodes E.meaning site.now) }
    requires order { IsOrder (site_nodes E.meaning site.now) (length site.now.graph.now.nodes.items) node_frames.now }
    ensures { IfOk result (AreAreasOf (site_nodes E.meaning site.now) node_frames.now) }
{
    let mut regions = Regions {
        reached: BTreeMap::new(alloc),
    };
    for node_frame in node_frames {
        let reached = reached_at(alloc, site, &regions, *node_frame)?;
        put(&mut regions, *node_frame, reached)?;
    }
    Ok(regions)
}

fn put(regions: &mut Regions, node_frame: NodeFrame, reached: Reached) -> Result<(), Memory>
    ensures { OnOk result (Updates node_frame_cmp regions.old.reached regions.new.reached node_frame (Some reached)) }
{
    regions.reached.insert(node_frame, reached)?;
    Ok(())
}

// What is known of a node at a frame, by the regions of what it reads.
fn reached_at<E: Catalogue>(
    alloc: Global,
    site: &Site<'_, E>,
    regions: &Regions,
    node_frame: NodeFrame,
) -> Result<Reached, Memory>
    requires nodes { AreNodes (site_nodes E.meaning site.now) }
    requires place { IsPlace (length site.now.graph.now.nodes.items) node_frame.node node_frame.frame }
    requires right { AreAreas (site_nodes E.meaning site.now) regions.now }
    requires reads { HasReads regions.now (site_nodes E.meaning site.now node_frame.node) node_frame.frame }
    ensures area { IfOk result (λ r. r.area ≡ area (site_nodes E.meaning site.now) node_frame.node node_frame.frame) }
    ensures asked { let node = site_nodes E.meaning site.now node_frame.node in
        IfOk result (λ r. IsAskedSo node node_frame.frame r.asked) }
{
    match node_at(site.graph, node_frame.node) {
        NodeAt::Source(source) => Ok(Reached {
            area: source_area(site.store, node_frame, source),
            asked: None,
        }),
        NodeAt::Effect(node) => effect_reached(alloc, site, regions, &node, node_frame.frame),
    }
}

// What an effect answers for the regions of its clips, with how it is asked.
fn effect_reached<E: Catalogue>(
    alloc: Global,
    site: &Site<'_, E>,
    regions: &Regions,
    node: &EffectNode<'_, E>,
    frame: i64,
) -> Result<Reached, Memory>
    requires nodes { AreNodes (site_nodes E.meaning site.now) }
    requires there { StandsIn (graph_shown site.now.graph.now) node.now }
    requires near { IsNearFrame node.now.place frame }
    requires right { AreAreas (site_nodes E.meaning site.now) regions.now }
    requires reads { HasReads regions.now (Effect (effect_at E.meaning site.now.graph.now.project node.now)) frame }
    ensures area { IfOk result (λ r. r.area ≡ area (site_nodes E.meaning site.now) node.now.place frame) }
    ensures asked { let o = effect_at E.meaning site.now.graph.now.project node.now in
        IfOk result (λ r. IsAskedSo (Effect o) frame r.asked) }
{
    let project = site.graph.project;
    let values = use_values(alloc, project, node.clips, node.params, frame)?;
    let reads = frames_read(alloc, node.effect, node.names, &values)?;
    let areas = clip_areas(alloc, regions, node, project, frame, reads.as_slice())?;
    let area = region_of_definition(
        alloc,
        node.effect,
        node.context,
        node.optional,
        &values,
        areas.as_slice(),
    )?;
    Ok(Reached {
        area,
        asked: Some(Asked { values, reads }),
    })
}

// For each clip the hull of its node's regions at the frames that are read.
fn clip_areas<E: ImageEffect>(
    alloc: Global,
    regions: &Regions,
    node: &EffectNode<'_, E>,
    _project: Rect,
    frame: i64,
    reads: &[Vec<i64>],
) -> Result<Vec<Rect>, Memory>
    requires there { HasReads regions.now (Effect (effect_at E.meaning _project node.now)) frame }
    requires reads { AreReads (effect_at E.meaning _project node.now) frame reads.now }
    ensures { (nodes : Nodes) → AreAreas nodes regions.now →
        IfOk result (λ areas. areas.items ≡ clip_areas (area nodes) (effect_at E.meaning _project node.now) frame) }
{
    let mut areas = Vec::new(alloc);
    for c in 0..reads.len() {
        let frames = reads[c].as_slice();
        areas.push(clip_area(regions, node.clips[c], frames))?;
    }
    Ok(areas)
}

fn clip_area(regions: &Regions, clip: Option<u32>, frames: &[i64]) -> Rect
    requires { HasClip regions.now clip frames.now }
    ensures { (nodes : Nodes) (spans : List (ℤ × ℤ)) → AreAreas nodes regions.now → frames.now ≡ frames_of spans
        → result ≡ clip_area (area nodes) spans clip }
{
    match clip {
        None => Rect::of(0, 0, 0, 0),
        Some(m) => hull_over(regions, m, frames),
    }
}

fn hull_over(regions: &Regions, m: u32, frames: &[i64]) -> Rect
    requires { All (Has regions.now m) frames.now }
    ensures { (nodes : Nodes) → AreAreas nodes regions.now → result ≡ hull_all (map (area nodes m) frames.now) }
{
    let mut hull = Rect::of(0, 0, 0, 0);
    for f in frames {
        hull = hull.hull(regions.rod(m, *f));
    }
    hull
}
