//! Windows of nodes, each rendered under a flight of a core that keeps nothing.
ghost use Rattle.std.specs.Prelude.{◌≡◌, ◌≤◌, ◌*◌, ◌∷◌, [], true, IsTrue, IfOk, OnOk, OnErr};
ghost use Rattle.std.specs.Arc.{arc_value};
ghost use Rattle.fx_base.specs.Rect.{IsNear, columns};
ghost use Rattle.fx_image.specs.Stored.{pixel_size};
ghost use Rattle.fx_scene.specs.Scenes.{graph_shown};
ghost use Rattle.fx_scene.specs.Sites.{IsAsked};
ghost use Rattle.fx_scene.specs.Windows.{IsWindowOf};
ghost use Rattle.fx_eval.specs.Setups.{IsFree, IsSetup};
ghost use Rattle.fx_eval.specs.Cuts.{IsCut};
ghost use Rattle.fx_eval.specs.Flights.{IsIdle, FliesAlone, Drops, after_renders, one_landed, one_dropped};

use crate::setup::Setup;
use fx_base::{Memory, Rect};
use fx_core::{Answer, Core, Flight, Ticket};
use fx_effect::{Catalogue, Inputs, Values};
use fx_gate::GateSeat;
use fx_image::Image;
use fx_pixel::{Components, Depth};
use fx_scene::Key;
use fx_scene::site::EffectNode;
use std::alloc::Global;
use std::rt::Clock;
use std::sync::{Arc, Wait};

/// The most asks that a core counts.
pub(crate) const MOST_ASKS: u64 = 1 << 62;

/// A window of a node in an image of its own, rendered under the ticket of a flight of its key and under a hold of
/// the node's gate. The flight lands, or at want of memory is dropped. A core that has counted all its asks is asked
/// no more, and the ticket is then one of no flight.
pub(crate) fn window_of<R: Wait + Clock, E: Catalogue + Drop>(
    rt: &R,
    alloc: Global,
    setup: &Setup<'_, E>,
    core: &mut Core<Key, Image>,
    seat: &mut GateSeat,
    node: &EffectNode<'_, E>,
    region: Rect,
    values: &Values,
    inputs: &Inputs<'_>,
) -> Result<Arc<Image>, Memory>
    requires setup { IsSetup E.meaning E.number_of setup.now }
    requires asked { IsAsked (graph_shown setup.now.graph.now) node.now values.now inputs.now }
    requires region { IsCut region }
    requires free { IsFree setup.now seat.old }
    requires idle { IsIdle core.old }
    ensures window { let m = E.meaning node.now.effect.now in let c = node.now.components in
        IfOk result (λ image. IsWindowOf m values.now inputs.now node.now.depth c region (arc_value image)) }
    ensures lands { OnOk result (core.new ≡ after_renders core.old 1) }
    ensures drops { OnErr result (Drops core.old core.new) }
    ensures seat { seat.new ≡ seat.old }
{
    if core.totals().asks >= MOST_ASKS {
        return unasked(rt, alloc, setup, seat, node, region, values, inputs);
    }
    let key = setup.scene.key(alloc, node.place, values.frame, region)?;
    match core.ask(alloc, key)? {
        Answer::Fly(flight) => flown(
            rt, alloc, setup, core, seat, node, region, values, inputs, flight,
        ),
        // Nothing is kept.
        Answer::Here(_) => unreachable!(),
        // Nothing else flies.
        Answer::Busy => unreachable!(),
    }
}

// The window, made under a ticket of no flight.
fn unasked<R: Wait + Clock, E: Catalogue + Drop>(
    rt: &R,
    alloc: Global,
    setup: &Setup<'_, E>,
    seat: &mut GateSeat,
    node: &EffectNode<'_, E>,
    region: Rect,
    values: &Values,
    inputs: &Inputs<'_>,
) -> Result<Arc<Image>, Memory>
    requires setup { IsSetup E.meaning E.number_of setup.now }
    requires asked { IsAsked (graph_shown setup.now.graph.now) node.now values.now inputs.now }
    requires region { IsCut region }
    requires free { IsFree setup.now seat.old }
    ensures window { let m = E.meaning node.now.effect.now in let c = node.now.components in
        IfOk result (λ image. IsWindowOf m values.now inputs.now node.now.depth c region (arc_value image)) }
    ensures seat { seat.new ≡ seat.old }
{
    let mut ticket = Ticket {
        scene: setup.scene.number(),
        number: 0,
        stamped: false,
    };
    let window = made(
        rt,
        alloc,
        setup,
        seat,
        node,
        region,
        values,
        inputs,
        &mut ticket,
    );
    let Ticket {
        scene: _,
        number: _,
        stamped: _,
    } = ticket;
    window
}

// The window, made under a flight.
fn flown<R: Wait + Clock, E: Catalogue + Drop>(
    rt: &R,
    alloc: Global,
    setup: &Setup<'_, E>,
    core: &mut Core<Key, Image>,
    seat: &mut GateSeat,
    node: &EffectNode<'_, E>,
    region: Rect,
    values: &Values,
    inputs: &Inputs<'_>,
    flight: Flight<Key>,
) -> Result<Arc<Image>, Memory>
    requires setup { IsSetup E.meaning E.number_of setup.now }
    requires asked { IsAsked (graph_shown setup.now.graph.now) node.now values.now inputs.now }
    requires region { IsCut region }
    requires free { IsFree setup.now seat.old }
    requires alone { FliesAlone core.old flight }
    ensures window { let m = E.meaning node.now.effect.now in let c = node.now.components in
        IfOk result (λ image. IsWindowOf m values.now inputs.now node.now.depth c region (arc_value image)) }
    ensures lands { OnOk result (core.new ≡ one_landed core.old) }
    ensures drops { OnErr result (core.new ≡ one_dropped core.old) }
    ensures seat { seat.new ≡ seat.old }
{
    let mut flight = flight;
    match made(
        rt,
        alloc,
        setup,
        seat,
        node,
        region,
        values,
        inputs,
        &mut flight.ticket,
    ) {
        Ok(image) => landed(alloc, core, flight, image),
        Err(memory) => {
            core.drop_flight(flight);
            Err(memory)
        }
    }
}

// Lands what was made, and hands it back.
fn landed(
    alloc: Global,
    core: &mut Core<Key, Image>,
    flight: Flight<Key>,
    image: Arc<Image>,
) -> Result<Arc<Image>, Memory>
    requires alone { FliesAlone core.old flight }
    requires stamped { IsTrue flight.ticket.stamped }
    ensures same { IfOk result (λ made. made ≡ image) }
    ensures lands { OnOk result (core.new ≡ one_landed core.old) }
    ensures drops { OnErr result (core.new ≡ one_dropped core.old) }
{
    match Arc::try_clone(&image) {
        Ok(shared) => match core.land(alloc, flight, shared) {
            Ok(()) => Ok(image),
            // A core that keeps nothing takes no memory.
            Err(_) => unreachable!(),
        },
        Err(_) => {
            core.drop_flight(flight);
            Err(Memory)
        }
    }
}

// The window, rendered under this ticket.
fn made<R: Wait + Clock, E: Catalogue + Drop>(
    rt: &R,
    alloc: Global,
    setup: &Setup<'_, E>,
    seat: &mut GateSeat,
    node: &EffectNode<'_, E>,
    region: Rect,
    values: &Values,
    inputs: &Inputs<'_>,
    ticket: &mut Ticket,
) -> Result<Arc<Image>, Memory>
    requires setup { IsSetup E.meaning E.number_of setup.now }
    requires asked { IsAsked (graph_shown setup.now.graph.now) node.now values.now inputs.now }
    requires region { IsCut region }
    requires free { IsFree setup.now seat.old }
    ensures window { let m = E.meaning node.now.effect.now in let c = node.now.components in
        IfOk result (λ image. IsWindowOf m values.now inputs.now node.now.depth c region (arc_value image)) }
    ensures number { ticket.new.number ≡ ticket.old.number }
    ensures stamped { OnOk result (IsTrue ticket.new.stamped) }
    ensures seat { seat.new ≡ seat.old }
{
    let row_bytes = row_bytes_of(region, node.depth, node.components);
    let mut image = Image::new(alloc, region, node.depth, node.components, row_bytes)?;
    setup.life.render_image(
        rt,
        alloc,
        setup.gates,
        seat,
        node.place,
        values,
        inputs,
        ticket,
        &mut image,
    )?;
    Ok(Arc::new(alloc, image)?)
}

fn row_bytes_of(region: Rect, depth: Depth, components: Components) -> u32
    requires near { IsNear region }
    requires wide { columns region ≤ 4096 }
    ensures value { result ≡ columns region * pixel_size depth components }
    ensures small { result ≤ 32768 }
{
    region.width() as u32 * components.count() * depth.size()
}
