//! Threads that ask beside each other. Each notes what it was answered and what it did.
ghost use Rattle.std.specs.Prelude.{◌≡◌, ◌+◌, ◌*◌, ◌<◌, [], ◌∷◌, All, IfOk, IfSome, vec_len};
ghost use Rattle.std.specs.Arc.{arc_value};
ghost use Rattle.fx_units.specs.DirectoryAskers.{IsIdle};

use crate::directory::doubles::{Double, DoubleSeat, Doubles, close, fly, land, start};
use crate::same::same;
use fx_base::Memory;
use fx_core::{Answer, Flight, Totals};
use std::alloc::Global;
use std::process::Abort;
use std::rt::Clock;
use std::sync::{Arc, Wait};
use std::thread::{self, Threads};

// A seat, what was noted of it, and where its random numbers are.
#[derive(Drop)]
pub(crate) struct Asker {
    pub(crate) seat: DoubleSeat,
    pub(crate) noted: Totals,
    pub(crate) random: u32,
}

const NOTHING: Totals = Totals {
    asks: 0,
    hits: 0,
    busies: 0,
    flights: 0,
    landed: 0,
    dropped: 0,
    evicted: 0,
};

fn double_of(alloc: Global, key: u32) -> Option<Arc<Double>>
    ensures { IfSome result (λ double. (arc_value double).number ≡ 2 * key) }
{
    let number = 2 * u64::from(key);
    Arc::new(alloc, Double { number }).ok()
}

// Lands a double, where it was made, and else drops the flight. Answers whether it landed.
fn end<R: Wait + Clock>(
    rt: &R,
    alloc: Global,
    doubles: &Doubles,
    seat: &mut DoubleSeat,
    mut flight: Flight<u32>,
    value: Option<Arc<Double>>,
) -> bool
    requires row { seat.old.row ≡ doubles.now }
    requires own { seat.old.aloft ≡ (flight.ticket.number, arc_value flight.key) ∷ [] }
    requires double { IfSome value (λ double. (arc_value double).number ≡ 2 * arc_value flight.key) }
    ensures row { (seat.new.row ≡ seat.old.row) × (seat.new.parts ≡ seat.old.parts) }
    ensures aloft { seat.new.aloft ≡ [] }
{
    let Some(value) = value else {
        doubles.drop_flight(rt, seat, flight);
        return false;
    };
    flight.ticket.stamped = true;
    match doubles.land(rt, alloc, seat, flight, value) {
        Ok(()) => true,
        Err((flight, _value, _memory)) => {
            doubles.drop_flight(rt, seat, flight);
            false
        }
    }
}

// Asks for a key once. What it has to make it lands, or drops.
fn visit<R: Wait + Clock>(
    rt: &R,
    alloc: Global,
    doubles: &Doubles,
    asker: &mut Asker,
    key: u32,
    lands: bool,
)
    requires { IsIdle doubles.now asker.old.seat }
    ensures { IsIdle doubles.now asker.new.seat × (asker.new.seat.parts ≡ asker.old.seat.parts) }
{
    let Ok(shared) = Arc::new(alloc, key) else {
        return;
    };
    let noted = &mut asker.noted;
    match doubles.ask(rt, alloc, &mut asker.seat, shared) {
        Ok(Answer::Here(_)) => noted.hits = noted.hits.wrapping_add(1),
        Ok(Answer::Busy) => noted.busies = noted.busies.wrapping_add(1),
        Ok(Answer::Fly(flight)) => {
            noted.flights = noted.flights.wrapping_add(1);
            let value = if lands { double_of(alloc, key) } else { None };
            if end(rt, alloc, doubles, &mut asker.seat, flight, value) {
                noted.landed = noted.landed.wrapping_add(1);
            } else {
                noted.dropped = noted.dropped.wrapping_add(1);
            }
        }
        Err(_) => return,
    }
    noted.asks = noted.asks.wrapping_add(1);
}

// How often each asks, and for one of how many keys from the first on. Of what it has to make it lands all, or three of
// four.
#[derive(Clone, Copy)]
struct Asking {
    times: u32,
    first: u32,
    keys: u32,
    lands_all: bool,
}

// Asks at random.
fn ask_at_random<R: Wait + Clock>(
    rt: &R,
    alloc: Global,
    doubles: &Doubles,
    mut asker: Asker,
    asking: Asking,
) -> Asker
    requires { IsIdle doubles.now asker.seat }
    ensures { IsIdle doubles.now result.seat × (result.seat.parts ≡ asker.seat.parts) }
{
    for _ in 0..asking.times {
        asker.random = asker
            .random
            .wrapping_mul(1_664_525)
            .wrapping_add(1_013_904_223);
        let key = asking
            .first
            .wrapping_add(asker.random / 65_536 % asking.keys.max(1));
        let lands = asking.lands_all || asker.random / 16_777_216 % 4 > 0;
        visit(rt, alloc, doubles, &mut asker, key, lands);
    }
    asker
}

// So many askers, each with a seat that was split from the first.
fn split_off(
    alloc: Global,
    doubles: &Doubles,
    first: &mut DoubleSeat,
    count: u32,
) -> Result<Vec<Asker>, Memory>
    requires { IsIdle doubles.now first.old × (count < first.old.parts) }
    ensures askers { IfOk result (λ askers. (vec_len askers ≡ count)
        × All (λ a. IsIdle doubles.now a.seat × (a.seat.parts ≡ 1)) askers.items) }
    ensures first { IfOk result (λ _. IsIdle doubles.now first.new × (first.new.parts + count ≡ first.old.parts)) }
{
    let mut askers = Vec::new(alloc);
    for random in 0..count {
        askers.push(Asker {
            seat: doubles.split(alloc, first)?,
            noted: NOTHING,
            random,
        })?;
    }
    Ok(askers)
}

fn add(to: &mut Totals, noted: Totals) {
    to.asks = to.asks.wrapping_add(noted.asks);
    to.hits = to.hits.wrapping_add(noted.hits);
    to.busies = to.busies.wrapping_add(noted.busies);
    to.flights = to.flights.wrapping_add(noted.flights);
    to.landed = to.landed.wrapping_add(noted.landed);
    to.dropped = to.dropped.wrapping_add(noted.dropped);
}

// Puts the seats back into the first, and adds up what was noted.
fn join_all(doubles: &Doubles, first: &mut DoubleSeat, mut askers: Vec<Asker>) -> Totals
    requires first { IsIdle doubles.now first.old }
    requires askers { All (λ a. IsIdle doubles.now a.seat × (a.seat.parts ≡ 1)) askers.items }
    ensures { IsIdle doubles.now first.new × (first.new.parts ≡ first.old.parts + vec_len askers) }
{
    let mut sum = NOTHING;
    while let Some(Asker { seat, noted, .. }) = askers.pop() {
        doubles.join(first, seat);
        add(&mut sum, noted);
    }
    sum
}

// Each asks, all beside each other.
fn all_ask<R: Threads + Wait + Clock + Sync + Abort + AllocGlobal>(
    rt: &R,
    doubles: &Doubles,
    askers: Vec<Asker>,
    asking: Asking,
) -> Vec<Asker>
    requires { All (λ a. IsIdle doubles.now a.seat × (a.seat.parts ≡ 1)) askers.items }
    ensures askers { All (λ a. IsIdle doubles.now a.seat × (a.seat.parts ≡ 1)) result.items }
    ensures count { vec_len result ≡ vec_len askers }
{
    let alloc = rt.alloc();
    thread::map_vec(
        rt,
        askers,
        &|asker| ask_at_random(rt, alloc, doubles, asker, asking),
    )
    .expect(rt, "the askers")
}

// One of six keys.
const AT_RANDOM: Asking = Asking {
    times: 250,
    first: 0,
    keys: 6,
    lands_all: false,
};

#[test]
fn four_threads_ask_at_random(rt: HostRuntime) {
    let (doubles, mut first) = start(&rt, 3);
    let askers = split_off(rt.alloc(), &doubles, &mut first, 4).expect(&rt, "no askers");
    let askers = all_ask(&rt, &doubles, askers, AT_RANDOM);
    let noted = join_all(&doubles, &mut first, askers);
    let totals = close(&rt, doubles, first);
    same(&rt, totals.asks, 1000);
    let evicted = totals.landed.saturating_sub(3);
    same(&rt, totals, Totals { evicted, ..noted });
}

// For the one key 1.
const ONCE: Asking = Asking {
    times: 1,
    first: 1,
    keys: 1,
    lands_all: true,
};

// The first seat flies for a key while each of so many threads asks for it, and once it has landed each asks
// again. How often each answer comes doesn't depend on who comes first.
fn one_flight_for_all<R: Threads + Wait + Clock + Sync + Abort + AllocGlobal>(
    rt: &R,
    count: u32,
) -> Totals {
    let (doubles, mut first) = start(rt, 1);
    let askers = split_off(rt.alloc(), &doubles, &mut first, count).expect(rt, "no askers");
    let flight = fly(rt, &doubles, &mut first, 1, 0);
    let askers = all_ask(rt, &doubles, askers, ONCE);
    land(rt, &doubles, &mut first, flight);
    let askers = all_ask(rt, &doubles, askers, ONCE);
    join_all(&doubles, &mut first, askers);
    close(rt, doubles, first)
}

#[test]
fn two_threads_have_one_flight(rt: HostRuntime) {
    let by_hand = Totals {
        asks: 5,
        hits: 2,
        busies: 2,
        flights: 1,
        landed: 1,
        dropped: 0,
        evicted: 0,
    };
    same(&rt, one_flight_for_all(&rt, 2), by_hand);
}

#[test]
fn eight_threads_have_one_flight(rt: HostRuntime) {
    let by_hand = Totals {
        asks: 17,
        hits: 8,
        busies: 8,
        flights: 1,
        landed: 1,
        dropped: 0,
        evicted: 0,
    };
    same(&rt, one_flight_for_all(&rt, 8), by_hand);
}
