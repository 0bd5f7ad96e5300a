//! Turns of a core: each takes the turn, does one event, and gives the turn back.
ghost use Rattle.std.specs.Prelude.{◌≡◌, ◌+◌, ◌<◌, ◌^◌, None, Some, IfOk, OnOk, OnErr, IfErr, IsOk, Ok, IsTrue, ◌∷◌, [], length, vec_len};
ghost use Rattle.std.specs.Arc.{arc_value};
ghost use Rattle.std.specs.List.{list_any};
ghost use Rattle.fx_core.specs.Answer.{IsFreshFor, Joins};
ghost use Rattle.fx_core.specs.Flight.{Stands};
ghost use Rattle.fx_core.specs.State.{start};
ghost use Rattle.fx_turn.specs.Claims.{mark_of};
ghost use Rattle.fx_turn.specs.Seats.{Agrees, first_seat};
ghost use Rattle.fx_directory.specs.Keeps.{AtHome};
ghost use Rattle.fx_directory.specs.Seats.{after_ask, IfHere, IfFly, IsNotHere, AreAtMost, LeavesAlone};
ghost use Rattle.fx_directory.specs.Sitting.{counts_in, flights_in, made_of};

use crate::guarded::Guarded;
use crate::home::Home;
use crate::suits::Suits;
use fx_base::Memory;
use fx_core::{Answer, Core, Flight, Permit};
use fx_turn::{Held, Seat, Turns};
use std::alloc::Global;
use std::hash::Hash;
use std::rt::Clock;
use std::sync::{Arc, Wait};

// Takes the turn. One that finds all asks made is no event: it is given back as it was, and taken again.
fn take_with_room<R: Wait + Clock, N, K: Eq + Hash + Drop, V: Suits<N, K> + Drop>(
    turns: &Turns<Home<N>, Guarded<K, V>>,
    rt: &R,
    seat: &mut Seat<Home<N>, Guarded<K, V>>,
) -> Held<Guarded<K, V>>
    requires one { turns.now.slots ≡ 1 }
    requires row { seat.old.row ≡ turns.now }
    requires free { seat.old.turn ≡ None }
    ensures slot { result.slot ≡ 0 }
    ensures fit { AtHome K.eq V.suits turns.now.name result.value }
    ensures agrees { Agrees counts_in flights_in seat.old result.value }
    ensures six { length seat.old.tally ≡ 6 }
    ensures room { result.value.totals.asks < 2 ^ 62 }
    ensures seat { seat.new ≡ record seat.old { turn = Some (0, result.value) } }
{
    for _ in rt.forever() {
        let held = turns.take(rt, seat, 0);
        if held.value().core.totals().asks < 1 << 62 {
            return held;
        }
        turns.give(seat, held);
    }
    unreachable!()
}

// Asks for a key in one turn.
pub(crate) fn ask<R: Wait + Clock, N, K: Eq + Hash + Drop, V: Suits<N, K> + Drop>(
    turns: &Turns<Home<N>, Guarded<K, V>>,
    rt: &R,
    alloc: Global,
    seat: &mut Seat<Home<N>, Guarded<K, V>>,
    key: Arc<K>,
) -> Result<Answer<K, V>, Memory>
    requires one { turns.now.slots ≡ 1 }
    requires row { seat.old.row ≡ turns.now }
    requires free { seat.old.turn ≡ None }
    ensures row { (seat.new.row ≡ seat.old.row) × (seat.new.parts ≡ seat.old.parts) }
    ensures free { seat.new.turn ≡ None }
    ensures here { IfOk result (IfHere (V.suits turns.now.name.name (arc_value key))) }
    ensures not_here { turns.now.name.capacity ≡ 0 → IfOk result IsNotHere }
    ensures fresh { IfOk result (IsFreshFor turns.now.name.scene (arc_value key)) }
    ensures aloft { IfOk result (Joins seat.old.claims seat.new.claims) }
    ensures number { IfOk result (IfFly (λ n. mark_of n seat.old.claims ≡ None)) }
    ensures made { IfOk result (λ answer. made_of seat.new.tally ≡ after_ask (made_of seat.old.tally) answer) }
    ensures own { IsTrue (list_any (λ f. K.eq (arc_value key) f.1) seat.old.claims) → result ≡ Ok Answer.Busy }
    ensures unchanged { OnErr result (seat.new ≡ seat.old) }
    ensures bound { AreAtMost (2 ^ 62) (made_of seat.new.tally) }
{
    let mut held = take_with_room(turns, rt, seat);
    let answer = held.value_mut().core.ask(alloc, key);
    turns.give(seat, held);
    answer
}

// Lands a flight of the seat in one turn.
pub(crate) fn land<R: Wait + Clock, N, K: Eq + Hash + Drop, V: Suits<N, K> + Drop>(
    turns: &Turns<Home<N>, Guarded<K, V>>,
    rt: &R,
    alloc: Global,
    seat: &mut Seat<Home<N>, Guarded<K, V>>,
    flight: Flight<K>,
    value: Arc<V>,
) -> Result<(), (Flight<K>, Arc<V>, Memory)>
    requires one { turns.now.slots ≡ 1 }
    requires row { seat.old.row ≡ turns.now }
    requires free { seat.old.turn ≡ None }
    requires own { Stands seat.old.claims flight }
    requires stamped { IsTrue flight.ticket.stamped }
    requires suits { V.suits turns.now.name.name (arc_value flight.key) (arc_value value) }
    ensures row { (seat.new.row ≡ seat.old.row) × (seat.new.parts ≡ seat.old.parts) }
    ensures free { seat.new.turn ≡ None }
    ensures no_memory { turns.now.name.capacity ≡ 0 → IsOk result }
    ensures back { IfErr result (λ r. (r.0 ≡ flight) × (r.1 ≡ value)) }
    ensures unchanged { OnErr result (seat.new ≡ seat.old) }
    ensures aloft { OnOk result (LeavesAlone seat.old.claims seat.new.claims flight) }
    ensures made { let old = made_of seat.old.tally in
        OnOk result (made_of seat.new.tally ≡ record old { landed = old.landed + 1 }) }
    ensures bound { AreAtMost (2 ^ 62) (made_of seat.new.tally) }
{
    let mut held = turns.take(rt, seat, 0);
    let landed = held.value_mut().core.land(alloc, flight, value);
    turns.give(seat, held);
    landed
}

// Drops a flight of the seat in one turn.
pub(crate) fn drop_flight<R: Wait + Clock, N, K: Eq + Hash + Drop, V: Suits<N, K> + Drop>(
    turns: &Turns<Home<N>, Guarded<K, V>>,
    rt: &R,
    seat: &mut Seat<Home<N>, Guarded<K, V>>,
    flight: Flight<K>,
)
    requires one { turns.now.slots ≡ 1 }
    requires row { seat.old.row ≡ turns.now }
    requires free { seat.old.turn ≡ None }
    requires own { Stands seat.old.claims flight }
    ensures row { (seat.new.row ≡ seat.old.row) × (seat.new.parts ≡ seat.old.parts) }
    ensures free { seat.new.turn ≡ None }
    ensures aloft { LeavesAlone seat.old.claims seat.new.claims flight }
    ensures made { let old = made_of seat.old.tally in
        made_of seat.new.tally ≡ record old { dropped = old.dropped + 1 } }
    ensures bound { AreAtMost (2 ^ 62) (made_of seat.new.tally) }
{
    let mut held = turns.take(rt, seat, 0);
    held.value_mut().core.drop_flight(flight);
    turns.give(seat, held);
}

// A row of one new core, and its first seat. Where memory is wanting the core ends, and its permit comes back.
pub(crate) fn row_of_one<N: Drop, K: Eq + Hash + Drop, V: Suits<N, K> + Drop>(
    alloc: Global,
    home: Home<N>,
    core: Core<K, V>,
) -> Result<(Turns<Home<N>, Guarded<K, V>>, Seat<Home<N>, Guarded<K, V>>), Permit>
    requires { core ≡ start home.scene home.capacity }
    ensures row { IfOk result (λ r. (r.0.slots ≡ 1) × (r.0.name ≡ home)) }
    ensures seat { IfOk result (λ r. r.1 ≡ first_seat counts_in flights_in r.0 (core ∷ [])) }
    ensures back { IfErr result (λ r. r.scene ≡ home.scene) }
{
    let Ok(mut cores) = Vec::with_capacity(alloc, 1) else {
        return Err(core.finish().0);
    };
    let Ok(core) = Box::new(alloc, core) else {
        return Err(Permit::new(home.scene));
    };
    cores.push_reserved(Guarded { core });
    match Turns::new(alloc, home, cores) {
        Ok(made) => Ok(made),
        Err((cores, _)) => Err(the_core(cores).finish().0),
    }
}

// The core of a row of one.
pub(crate) fn the_core<K: Eq + Hash, V>(mut cores: Vec<Guarded<K, V>>) -> Core<K, V>
    requires { vec_len cores ≡ 1 }
    ensures { cores.items ≡ result ∷ [] }
{
    let Some(Guarded { core }) = cores.pop() else {
        unreachable!()
    };
    cores.destroy_empty();
    Box::into_inner(core)
}
