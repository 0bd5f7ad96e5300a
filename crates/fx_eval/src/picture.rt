//! The picture of a frame.
ghost use Rattle.std.specs.Prelude.{◌≡◌, ◌+◌, ◌∷◌, [], ◌≤◌, ◌≤ℤ◌, ℤ, pos, neg_ℤ, length, None, IfOk, OnOk, OnErr};
ghost use Rattle.fx_base.specs.declared.limits.TheConstants.{LAST_FRAME};
ghost use Rattle.fx_pam.specs.Laws.{components_for};
ghost use Rattle.fx_image.specs.Image.{SameImage};
ghost use Rattle.fx_image.specs.Stored.{image_of};
ghost use Rattle.fx_effect.specs.Shape.{IsProject};
ghost use Rattle.fx_effect.specs.Given.{row_pixel};
ghost use Rattle.fx_scene.specs.Scenes.{graph_nodes, graph_shown, images_in, picture};
ghost use Rattle.fx_life.specs.Filled.{IsFilled};
ghost use Rattle.fx_life.specs.Posts.{HasLife};
ghost use Rattle.fx_eval.specs.Setups.{IsSetup, setup_nodes};
ghost use Rattle.fx_eval.specs.Wholes.{AreWhole, IsMade};
ghost use Rattle.fx_eval.specs.Flights.{IsIdle, Drops};
ghost use Rattle.fx_eval.specs.Renders.{HasRendered};

use crate::copy::copy_frame;
use crate::inputs::add_frame;
use crate::setup::Setup;
use crate::whole::{Whole, wholes};
use fx_base::{Memory, Rect};
use fx_core::Core;
use fx_effect::{Catalogue, Inputs};
use fx_gate::{GateSeat, Gates};
use fx_image::Image;
use fx_life::Life;
use fx_pixel::{Components, Depth, Format};
use fx_scene::{Key, NodeFrame, Scene, reach};
use std::alloc::Global;
use std::collections::BTreeMap;
use std::rt::Clock;
use std::sync::Wait;

/// The picture of a frame: the value of the output's node over the project's extent, at the project's depth,
/// with Alpha for grey files and RGBA for all others. The life is that of a graph of these nodes. Each node is
/// rendered by its own instance, once at each frame at which the output reads it, over its region of definition
/// in pieces of at most 4,096 by 4,096 pixels, each under the ticket of a flight that the core lends. The core keeps
/// nothing, and nothing flies in it before and after: each flight lands, or at want of memory is dropped. A core that
/// has counted 2^62 asks is asked no more. Each render holds the gate of its node, the one that `Life::gate_of` tells,
/// and no other: what it reads is made before it waits for the gate. The seat is of the row of these gates, of which
/// there is one for each plug-in and each node, and holds none of them before and after. `Memory` comes where memory
/// is wanting.
pub fn frame<R: Wait + Clock, E: Catalogue + Drop>(
    rt: &R,
    alloc: Global,
    scene: &Scene<E>,
    life: &Life<E>,
    core: &mut Core<Key, Image>,
    gates: &Gates,
    seat: &mut GateSeat,
    frame: i64,
) -> Result<Image, Memory>
    requires life { HasLife E.number_of scene.now.graph life.now }
    requires idle { IsIdle core.old }
    requires low { neg_ℤ (pos LAST_FRAME) ≤ℤ frame }
    requires high { frame ≤ℤ pos LAST_FRAME }
    requires row { seat.old.row ≡ gates.now }
    requires free { seat.old.turn ≡ None }
    requires gates { 64 + length scene.now.graph.nodes ≤ gates.now.gates }
    ensures picture { let picture = picture E.meaning scene.now.graph (images_in scene.now.store) frame in
        IfOk result (λ image. SameImage (image_of image) picture) }
    ensures renders { let g = scene.now.graph in let nodes = graph_nodes E.meaning g (images_in scene.now.store) in
        OnOk result (HasRendered nodes g.output frame core.old core.new) }
    ensures drops { OnErr result (Drops core.old core.new) }
    ensures idle { IsIdle core.new }
    ensures seat { seat.new ≡ seat.old }
{
    let setup = Setup {
        scene,
        graph: scene.graph(),
        store: scene.store(),
        life,
        gates,
    };
    let node_frames = reach(alloc, setup.graph, frame, frame)?;
    let made = wholes(rt, alloc, &setup, core, seat, &node_frames)?;
    let mut image = blank(
        alloc,
        setup.graph.project,
        setup.graph.depth,
        setup.graph.format,
    )?;
    show(alloc, &setup, &made, frame, &mut image)?;
    Ok(image)
}

fn blank(alloc: Global, project: Rect, depth: Depth, format: Format) -> Result<Image, Memory>
    requires { IsProject project }
    ensures rect { IfOk result (λ image. image.rect ≡ project) }
    ensures depth { IfOk result (λ image. image.depth ≡ depth) }
    ensures components { IfOk result (λ image. image.components ≡ components_for format) }
{
    let components = components_for(format);
    let row_bytes = (project.x2 - project.x1) as u32 * components.count() * depth.size();
    Image::new(alloc, project, depth, components, row_bytes)
}

fn components_for(format: Format) -> Components
    ensures { result ≡ components_for format }
{
    match format {
        Format::Grayscale => Components::Alpha,
        Format::Rgb | Format::RgbAlpha => Components::Rgba,
    }
}

// Shows the output's node at a frame.
fn show<E: Catalogue>(
    alloc: Global,
    setup: &Setup<'_, E>,
    made: &BTreeMap<NodeFrame, Whole>,
    frame: i64,
    image: &mut Image,
) -> Result<(), Memory>
    requires setup { IsSetup E.meaning E.number_of setup.now }
    requires whole { AreWhole (setup_nodes E.meaning setup.now) made.now }
    requires made { IsMade made.now setup.now.graph.now.output frame }
    requires rect { image.old.rect ≡ setup.now.graph.now.project }
    requires depth { image.old.depth ≡ setup.now.graph.now.depth }
    requires components { image.old.components ≡ components_for setup.now.graph.now.format }
    ensures { let picture = picture E.meaning (graph_shown setup.now.graph.now) (images_in setup.now.store.now) frame in
        OnOk result (SameImage (image_of image.new) picture) }
{
    let mut inputs = Inputs::new(alloc, image.depth(), vec![in alloc; image.components()]?)?;
    add_frame(
        alloc,
        setup,
        made,
        0,
        setup.graph.output,
        frame,
        &mut inputs,
    )?;
    copy_whole(&inputs, frame, image);
    Ok(())
}

fn copy_whole(inputs: &Inputs<'_>, frame: i64, image: &mut Image)
    requires depth { inputs.now.depth ≡ image.old.depth }
    requires components { inputs.now.components ≡ image.old.components ∷ [] }
    ensures { IsFilled image.old image.new (row_pixel inputs.now 0 frame) }
{
    let window = image.rect();
    let mut part = image.part(window);
    copy_frame(inputs, frame, &mut part);
}
