//! A region of an effect's node, rendered over what it needs, under the gate of the node.
ghost use Rattle.std.specs.Prelude.{◌≡◌, ◌≤◌, ◌*◌, All, IfOk, IsTrue, OnOk};
ghost use Rattle.std.specs.Arc.{arc_value};
ghost use Rattle.fx_base.specs.declared.limits.TheConstants.{MOST_SIDE};
ghost use Rattle.fx_base.specs.Rect.{IsNear, columns};
ghost use Rattle.fx_image.specs.Stored.{pixel_size};
ghost use Rattle.fx_scene.specs.Right.{IsTile};
ghost use Rattle.fx_scene.specs.Scenes.{graph_shown};
ghost use Rattle.fx_scene.specs.Sites.{IsAsked, StandsIn, scene_nodes};
ghost use Rattle.fx_scene.specs.Windows.{IsWindowOf};
ghost use Rattle.fx_tile.specs.Tiles.{IsRegion};
ghost use Rattle.fx_tile.specs.Setups.{AreNeeds, AreTilesOf, IsGateSeat, IsReady, IsRenderable, IsSetup};

use crate::inputs::inputs_of;
use crate::setup::Setup;
use fx_base::{Memory, Rect};
use fx_core::Ticket;
use fx_effect::{Catalogue, Inputs, Values};
use fx_gate::GateSeat;
use fx_image::Image;
use fx_pixel::{Components, Depth};
use fx_region::Need;
use fx_scene::site::{EffectNode, NodeAt, node_at};
use fx_scene::use_values;
use std::alloc::Global;
use std::rt::Clock;
use std::sync::{Arc, Wait};

/// The image of a region of an effect's node at a frame, by the images and frames of what it needs.
pub(crate) fn rendered<R: Wait + Clock, E: Catalogue + Drop>(
    rt: &R,
    alloc: Global,
    setup: &Setup<'_, E>,
    seat: &mut GateSeat,
    place: u32,
    frame: i64,
    region: Rect,
    needs: &[Need],
    tiles: &[Option<Arc<Image>>],
    ticket: &mut Ticket,
) -> Result<Arc<Image>, Memory>
    requires setup { IsSetup E.meaning E.number_of setup.now }
    requires renderable { IsRenderable E.meaning setup.now place frame region }
    requires needs { AreNeeds E.meaning setup.now place frame region needs.now }
    requires ready { All (λ need. IsReady E.meaning setup.now place need.end) needs.now }
    requires tiles { AreTilesOf (scene_nodes E.meaning setup.now.scene.now) needs.now tiles.now }
    requires gates { IsGateSeat setup.now seat.old }
    ensures tile { let nodes = scene_nodes E.meaning setup.now.scene.now in
        IfOk result (λ image. IsTile nodes place frame region (arc_value image)) }
    ensures seat { seat.new ≡ seat.old }
    ensures number { ticket.new.number ≡ ticket.old.number }
    ensures stamped { OnOk result (IsTrue ticket.new.stamped) }
{
    match node_at(setup.graph, place) {
        NodeAt::Source(_) => unreachable!(),
        NodeAt::Effect(node) => effect_rendered(
            rt, alloc, setup, seat, &node, frame, region, needs, tiles, ticket,
        ),
    }
}

// The same of an effect in its place.
fn effect_rendered<R: Wait + Clock, E: Catalogue + Drop>(
    rt: &R,
    alloc: Global,
    setup: &Setup<'_, E>,
    seat: &mut GateSeat,
    node: &EffectNode<'_, E>,
    frame: i64,
    region: Rect,
    needs: &[Need],
    tiles: &[Option<Arc<Image>>],
    ticket: &mut Ticket,
) -> Result<Arc<Image>, Memory>
    requires setup { IsSetup E.meaning E.number_of setup.now }
    requires there { StandsIn (graph_shown setup.now.graph.now) node.now }
    requires renderable { IsRenderable E.meaning setup.now node.now.place frame region }
    requires needs { AreNeeds E.meaning setup.now node.now.place frame region needs.now }
    requires ready { All (λ need. IsReady E.meaning setup.now node.now.place need.end) needs.now }
    requires tiles { AreTilesOf (scene_nodes E.meaning setup.now.scene.now) needs.now tiles.now }
    requires gates { IsGateSeat setup.now seat.old }
    ensures tile { let nodes = scene_nodes E.meaning setup.now.scene.now in
        IfOk result (λ image. IsTile nodes node.now.place frame region (arc_value image)) }
    ensures seat { seat.new ≡ seat.old }
    ensures number { ticket.new.number ≡ ticket.old.number }
    ensures stamped { OnOk result (IsTrue ticket.new.stamped) }
{
    let values = use_values(alloc, setup.graph.project, node.clips, node.params, frame)?;
    let inputs = inputs_of(alloc, setup, node, needs, tiles)?;
    let image = window_of(
        rt, alloc, setup, seat, node, region, &values, &inputs, ticket,
    )?;
    Ok(Arc::new(alloc, image)?)
}

// The window, rendered into an image of its own.
fn window_of<R: Wait + Clock, E: Catalogue + Drop>(
    rt: &R,
    alloc: Global,
    setup: &Setup<'_, E>,
    seat: &mut GateSeat,
    node: &EffectNode<'_, E>,
    region: Rect,
    values: &Values,
    inputs: &Inputs<'_>,
    ticket: &mut Ticket,
) -> Result<Image, Memory>
    requires setup { IsSetup E.meaning E.number_of setup.now }
    requires asked { IsAsked (graph_shown setup.now.graph.now) node.now values.now inputs.now }
    requires region { IsRegion region }
    requires gates { IsGateSeat setup.now seat.old }
    ensures window { let m = E.meaning node.now.effect.now in let c = node.now.components in
        IfOk result (IsWindowOf m values.now inputs.now node.now.depth c region) }
    ensures seat { seat.new ≡ seat.old }
    ensures number { ticket.new.number ≡ ticket.old.number }
    ensures stamped { OnOk result (IsTrue ticket.new.stamped) }
{
    let row_bytes = row_bytes_of(region, node.depth, node.components);
    let mut image = Image::new(alloc, region, node.depth, node.components, row_bytes)?;
    setup.life.render_image(
        rt,
        alloc,
        &setup.shared.gates,
        seat,
        node.place,
        values,
        inputs,
        ticket,
        &mut image,
    )?;
    Ok(image)
}

/// How many bytes a row of pixels of a region has.
pub(crate) fn row_bytes_of(region: Rect, depth: Depth, components: Components) -> u32
    requires near { IsNear region }
    requires wide { columns region ≤ MOST_SIDE }
    ensures value { result ≡ columns region * pixel_size depth components }
    ensures small { result ≤ 65536 }
{
    region.width() as u32 * components.count() * depth.size()
}
