//! Where images are kept: those of effects that support no tiles in a directory of their own, whole, and
//! all others, the tiles, in another.
ghost use Rattle.std.specs.Prelude.{◌≡◌, ◌<◌, IfErr, IfOk, IsTrue, OnErr, OnOk, length};
ghost use Rattle.std.specs.Arc.{arc_value};
ghost use Rattle.fx_core.specs.Flight.{Stands};
ghost use Rattle.fx_scene.specs.Scripts.{IsRightFor};
ghost use Rattle.fx_scene.specs.Sites.{scene_nodes};
ghost use Rattle.fx_tile.specs.Counts.{Lands};
ghost use Rattle.fx_tile.specs.Kept.{AnswersAsk, HasRows, Loses, is_whole, made_of, row_in, seat_in};
ghost use Rattle.fx_tile.specs.Setups.{IsSetup};

use crate::setup::Setup;
use crate::share::{Shared, TileSeat};
use fx_base::Memory;
use fx_core::{Answer, Flight};
use fx_effect::Catalogue;
use fx_image::Image;
use fx_scene::Key;
use fx_scene::site::{NodeAt, node_at};
use std::alloc::Global;
use std::rt::Clock;
use std::sync::{Arc, Wait};

/// Whether images of a node are kept whole: it is an effect that supports no tiles.
pub(crate) fn is_whole<E: Catalogue>(setup: &Setup<'_, E>, node: u32) -> bool
    requires setup { IsSetup E.meaning E.number_of setup.now }
    requires node { node < length setup.now.graph.now.nodes.items }
    ensures { result ≡ is_whole (scene_nodes E.meaning setup.now.scene.now node) }
{
    match node_at(setup.graph, node) {
        NodeAt::Source(_) => false,
        NodeAt::Effect(node) => !node.effect.supports_tiles(),
    }
}

/// Asks for the image of a key, among whole images or among tiles. Where memory is wanting nothing was asked.
pub(crate) fn ask<R: Wait + Clock, E: Catalogue + Drop>(
    rt: &R,
    alloc: Global,
    shared: &Shared<E>,
    seat: &mut TileSeat<E>,
    whole: bool,
    key: Arc<Key>,
) -> Result<Answer<Key, Image>, Memory>
    requires rows { HasRows shared.now seat.old }
    ensures answer { let scene = (row_in whole shared.now).name.scene.value in
        IfOk result (AnswersAsk E.meaning scene whole (arc_value key) seat.old seat.new) }
    ensures unchanged { OnErr result (seat.new ≡ seat.old) }
{
    if whole {
        shared.wholes.ask(rt, alloc, &mut seat.wholes, key)
    } else {
        shared.directory.ask(rt, alloc, &mut seat.directory, key)
    }
}

/// Lands the image that was made under a flight. Where memory is wanting both come back, and the flight still stands.
pub(crate) fn land<R: Wait + Clock, E: Catalogue + Drop>(
    rt: &R,
    alloc: Global,
    shared: &Shared<E>,
    seat: &mut TileSeat<E>,
    whole: bool,
    flight: Flight<Key>,
    image: Arc<Image>,
) -> Result<(), (Flight<Key>, Arc<Image>, Memory)>
    requires rows { HasRows shared.now seat.old }
    requires own { Stands (seat_in whole seat.old).aloft flight }
    requires stamped { IsTrue flight.ticket.stamped }
    requires right { let scene = (row_in whole shared.now).name.scene.value in
        IsRightFor E.meaning scene (arc_value flight.key) (arc_value image) }
    ensures loses { OnOk result (Loses whole flight seat.old seat.new) }
    ensures lands { OnOk result (Lands (made_of seat.old) (made_of seat.new)) }
    ensures back { IfErr result (λ r. (r.0 ≡ flight) × (r.1 ≡ image)) }
    ensures unchanged { OnErr result (seat.new ≡ seat.old) }
{
    if whole {
        shared
            .wholes
            .land(rt, alloc, &mut seat.wholes, flight, image)
    } else {
        shared
            .directory
            .land(rt, alloc, &mut seat.directory, flight, image)
    }
}

/// Drops a flight.
pub(crate) fn drop_flight<R: Wait + Clock, E: Catalogue + Drop>(
    rt: &R,
    shared: &Shared<E>,
    seat: &mut TileSeat<E>,
    whole: bool,
    flight: Flight<Key>,
)
    requires rows { HasRows shared.now seat.old }
    requires own { Stands (seat_in whole seat.old).aloft flight }
    ensures loses { Loses whole flight seat.old seat.new }
{
    if whole {
        shared.wholes.drop_flight(rt, &mut seat.wholes, flight);
    } else {
        shared
            .directory
            .drop_flight(rt, &mut seat.directory, flight);
    }
}
