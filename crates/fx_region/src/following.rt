//! Where a region of a node is found.
ghost use Rattle.std.specs.Prelude.{◌≡◌, ◌≢◌, ◌<◌, ◌+◌, ◌++◌, ◌∷◌, [], pos, length, slice_index_or, None, IfOk, if◌then◌else◌};
ghost use Rattle.std.specs.Option.{option_map};
ghost use Rattle.fx_base.specs.Bounds.{none};
ghost use Rattle.fx_base.specs.Rect.{IsFrame};
ghost use Rattle.fx_effect.specs.Asked.{IsWindow};
ghost use Rattle.fx_scene.specs.Areas.{area};
ghost use Rattle.fx_scene.specs.Nodes.{AreNodes, Effect, IsEffectNode, SourceFrames};
ghost use Rattle.fx_scene.specs.Reach.{IsPlace};
ghost use Rattle.fx_region.specs.Ends.{Choice, Ends, chosen, cut_end, effect_end, end_of, end_shown, onward, source_end, source_step, whole_or_cut};
ghost use Rattle.fx_region.specs.Follow.{GoesToRead, clip_stand, stand_end};
ghost use Rattle.fx_scene.specs.Sites.{effect_at, scene_nodes, site_nodes};
ghost use Rattle.fx_region.specs.Stands.{StandsBelow};
ghost use Rattle.fx_region.specs.Suffice.{ShowsEnd};
ghost use Rattle.fx_region.specs.Tables.{Has, IsAskedSo, IsMadeOf, IsTable};

use crate::ends::End;
use crate::regions::{Reached, Regions};
use fx_actions::Asking;
use fx_base::{Memory, Rect};
use fx_effect::{Catalogue, Identity, Step, Steps, Values};
use fx_scene::site::{EffectNode, NodeAt, Site, node_at, site_of};
use fx_scene::{Scene, shown_frame};
use std::alloc::Global;

/// What a region of a node comes to at the node.
#[derive(Drop)]
enum Stand {
    /// It ends here.
    Here(End),
    /// It goes on at this node and frame, and what is found there goes through this step.
    Onward { node: u32, frame: i64, step: Step },
}

/// Where a region of a node at a frame is found. It is cut to the node's region of definition, and it is nowhere where
/// nothing is left. At a source it is in the frame that the source shows. Where the effect is an identity over the cut
/// region (OpenFX 1.4, kOfxImageEffectActionIsIdentity), it is found at the named clip and frame; else it is to be
/// rendered: the cut region, or the whole region of definition where the effect supports no tiles. Regions
/// are those of the scene, and the node is reached at the frame. `Memory` comes where memory is wanting.
pub fn follow<E: Catalogue>(
    alloc: Global,
    scene: &Scene<E>,
    regions: &Regions,
    node: u32,
    frame: i64,
    region: Rect,
) -> Result<End, Memory>
    requires regions { IsMadeOf E.meaning scene.now regions.now }
    requires reached { Has regions.now node frame }
    ensures end { let nodes = scene_nodes E.meaning scene.now in
        IfOk result (λ end. end_shown end ≡ end_of nodes node frame region) }

    // Where it holds a place the value is its pixel there, and elsewhere in the region zero.
    ensures shows { let nodes = scene_nodes E.meaning scene.now in
        IfOk result (λ end. ShowsEnd nodes node frame region (end_shown end)) }

    // It is at this node or one before it, and what is to be rendered there lies in the node's region of definition.
    ensures stands { let nodes = scene_nodes E.meaning scene.now in
        IfOk result (λ end. StandsBelow nodes regions.now (node + 1) (end_shown end)) }
{
    let mut asking = Asking::new(alloc)?;
    follow_by(alloc, &mut asking, scene, regions, node, frame, region)
}

/// What `follow` answers, by arguments that are kept from one call to the next.
pub fn follow_by<E: Catalogue>(
    alloc: Global,
    asking: &mut Asking,
    scene: &Scene<E>,
    regions: &Regions,
    node: u32,
    frame: i64,
    region: Rect,
) -> Result<End, Memory>
    requires regions { IsMadeOf E.meaning scene.now regions.now }
    requires reached { Has regions.now node frame }
    ensures end { let nodes = scene_nodes E.meaning scene.now in
        IfOk result (λ end. end_shown end ≡ end_of nodes node frame region) }

    // Where it holds a place the value is its pixel there, and elsewhere in the region zero.
    ensures shows { let nodes = scene_nodes E.meaning scene.now in
        IfOk result (λ end. ShowsEnd nodes node frame region (end_shown end)) }

    // It is at this node or one before it, and what is to be rendered there lies in the node's region of definition.
    ensures stands { let nodes = scene_nodes E.meaning scene.now in
        IfOk result (λ end. StandsBelow nodes regions.now (node + 1) (end_shown end)) }
{
    let site = site_of(scene);
    find(alloc, asking, &site, regions, node, frame, region)
}

/// The same in the graph of a scene.
pub(crate) fn find<E: Catalogue>(
    alloc: Global,
    asking: &mut Asking,
    site: &Site<'_, E>,
    regions: &Regions,
    node: u32,
    frame: i64,
    region: Rect,
) -> Result<End, Memory>
    requires nodes { AreNodes (site_nodes E.meaning site.now) }
    requires table { IsTable (site_nodes E.meaning site.now) (length site.now.graph.now.nodes.items) regions.now }
    requires reached { Has regions.now node frame }
    ensures { let nodes = site_nodes E.meaning site.now in
        IfOk result (λ end. end_shown end ≡ end_of nodes node frame region) }
{
    let reached = regions.known(node, frame);
    let cut = region.meet(reached.area);
    if cut.is_empty() {
        return Ok(End::Void);
    }
    match stand_of(alloc, asking, site, reached, node, frame, cut)? {
        Stand::Here(end) => Ok(end),
        Stand::Onward {
            node: m,
            frame: f,
            step,
        } => {
            let end = find(alloc, asking, site, regions, m, f, cut)?;
            with_step(end, step)
        }
    }
}

// What a region of a node's area comes to at the node.
fn stand_of<E: Catalogue>(
    alloc: Global,
    asking: &mut Asking,
    site: &Site<'_, E>,
    reached: &Reached,
    node: u32,
    frame: i64,
    cut: Rect,
) -> Result<Stand, Memory>
    requires nodes { AreNodes (site_nodes E.meaning site.now) }
    requires place { IsPlace (length site.now.graph.now.nodes.items) node frame }
    requires area { reached.now.area ≡ area (site_nodes E.meaning site.now) node frame }
    requires asked { IsAskedSo (site_nodes E.meaning site.now node) frame reached.now.asked }
    requires window { IsWindow cut }
    requires some { cut ≢ none }
    ensures end { let nodes = site_nodes E.meaning site.now in (ends : Ends)
        → IfOk result (λ stand. stand_end ends cut stand ≡ cut_end (chosen nodes) ends node (nodes node) frame cut) }
    ensures read { let nodes = site_nodes E.meaning site.now in IfOk result (GoesToRead (nodes node) frame) }
{
    match node_at(site.graph, node) {
        NodeAt::Source(source) => {
            let step = Step {
                depth: source.depth,
                components: source.components,
            };
            let shown = shown_frame(source.first, source.last, source.hold, frame);
            Ok(Stand::Here(source_end(alloc, node, step, shown, cut)?))
        }
        NodeAt::Effect(used) => {
            let values = &reached.of_effect().values;
            let project = site.graph.project;
            let whole = reached.area;
            effect_stand(alloc, asking, values, project, &used, frame, whole, cut)
        }
    }
}

// The end of a region of a source that shows this frame.
fn source_end(
    alloc: Global,
    node: u32,
    step: Step,
    shown: Option<u32>,
    cut: Rect,
) -> Result<End, Memory>
    ensures { (s : SourceFrames) → source_step s ≡ step
        → IfOk result (λ end. end_shown end ≡ source_end node s (option_map pos shown) cut) }
{
    match shown {
        None => Ok(End::Void),
        Some(frame) => Ok(End::Frame {
            node,
            frame: i64::from(frame),
            region: cut,
            through: Steps::of(vec![in alloc; step]?),
        }),
    }
}

// What a region of an effect's area comes to at its node.
fn effect_stand<E: Catalogue>(
    alloc: Global,
    asking: &mut Asking,
    values: &Values,
    _project: Rect,
    node: &EffectNode<'_, E>,
    frame: i64,
    whole: Rect,
    cut: Rect,
) -> Result<Stand, Memory>
    requires effect { IsEffectNode node.now.place (effect_at E.meaning _project node.now) }
    requires values { values.now ≡ (effect_at E.meaning _project node.now).values frame }
    requires frame { IsFrame frame }
    requires window { IsWindow cut }
    requires some { cut ≢ none }
    ensures end { let o = effect_at E.meaning _project node.now in (choose : Choice) (ends : Ends)
        → choose node.now.place frame cut ≡ whole_or_cut (Effect o) whole cut
        → IfOk result (λ stand. stand_end ends cut stand
        ≡ effect_end choose ends node.now.place o frame cut (o.meaning.same (o.values frame) cut)) }
    ensures read { let o = effect_at E.meaning _project node.now in IfOk result (GoesToRead (Effect o) frame) }
{
    let answer = asking.identity(alloc, node.effect, values, cut)?;
    match answer {
        Identity::No => Ok(Stand::Here(End::Render {
            node: node.place,
            frame,
            region: whole_or_cut(node.effect, whole, cut),
            cut,
            through: Steps::of(Vec::new(alloc)),
        })),
        Identity::Same { clip, frame: f } => Ok(passed_on(node, clip, f)),
    }
}

// What is rendered for a cut of an effect's region of definition: all of that where it supports no tiles.
fn whole_or_cut<E: Catalogue>(effect: &E, whole: Rect, cut: Rect) -> Rect
    ensures { result ≡ (if (E.meaning effect.now).shape.tiles then cut else whole) }
{
    if effect.supports_tiles() { cut } else { whole }
}

// The clip's node at the frame, in place of the effect.
fn passed_on<E: Catalogue>(node: &EffectNode<'_, E>, clip: u32, frame: i64) -> Stand
    requires { clip < length node.now.clips.now }
    ensures { let m = slice_index_or node.now.clips.now clip None in
        result ≡ clip_stand node.now.depth node.now.components m frame }
{
    match node.clips[clip as usize] {
        None => Stand::Here(End::Void),
        Some(m) => Stand::Onward {
            node: m,
            frame,
            step: Step {
                depth: node.depth,
                components: node.components,
            },
        },
    }
}

// What is found goes through one step more.
fn with_step(end: End, step: Step) -> Result<End, Memory>
    ensures { IfOk result (λ more. end_shown more ≡ onward step (end_shown end)) }
{
    match end {
        End::Void => Ok(End::Void),
        End::Frame {
            node,
            frame,
            region,
            through,
        } => Ok(End::Frame {
            node,
            frame,
            region,
            through: more_steps(through, step)?,
        }),
        End::Render {
            node,
            frame,
            region,
            cut,
            through,
        } => Ok(End::Render {
            node,
            frame,
            region,
            cut,
            through: more_steps(through, step)?,
        }),
    }
}

fn more_steps(through: Steps, step: Step) -> Result<Steps, Memory>
    ensures { IfOk result (λ steps. steps ≡ through ++ step ∷ []) }
{
    let mut items = through.into_items();
    items.push(step)?;
    Ok(Steps::of(items))
}
