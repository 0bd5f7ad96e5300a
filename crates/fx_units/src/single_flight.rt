//! One script at three capacities, worked by hand: ask for a twice, land it, ask for a, ask for b, land
//! it, ask for a, and drop what still flies. Then one that shows which value goes.
ghost use Rattle.std.specs.Prelude.{◌≡◌, ◌==◌, ◌∷◌, [], ◌++◌, IsTrue};
ghost use Rattle.std.specs.Arc.{arc_value};
ghost use Rattle.std.specs.Map.{remove_entry};
ghost use Rattle.fx_core.specs.Flight.{Stands};
ghost use Rattle.fx_core.specs.Answer.{Joins, IsFreshFor};

use crate::same::{same, same_at, surely_same};
use fx_core::{Answer, Core, Flight, Permit, Totals, every_run};
use std::process::Abort;
use std::sync::Arc;

type Letters = Core<u8, u32>;

fn start(rt: &(impl Abort + AllocGlobal), capacity: u32) -> Letters
    ensures { result.flying ≡ [] }
{
    match Core::new(rt.alloc(), Permit::new(7), capacity) {
        Ok(core) => core,
        Err(_) => panic!(rt; "no memory"),
    }
}

fn ask(rt: &(impl Abort + AllocGlobal), core: &mut Letters, letter: u8) -> Answer<u8, u32>
    ensures flying { Joins core.old.flying core.new.flying result }
    ensures fresh { IsFreshFor core.old.scene letter result }
{
    assert!(rt; core.totals().asks < 1 << 62);
    let key = Arc::new(rt.alloc(), letter).expect(rt, "a key");
    core.ask(rt.alloc(), key).expect(rt, "an answer")
}

// Asks for a key that is neither kept nor flying, and stamps the ticket.
fn fly(rt: &(impl Abort + AllocGlobal), core: &mut Letters, letter: u8, number: u64) -> Flight<u8>
    ensures number { result.ticket.number ≡ number }
    ensures key { arc_value result.key ≡ letter }
    ensures stamped { IsTrue result.ticket.stamped }
    ensures flying { core.new.flying ≡ core.old.flying ++ (number, letter) ∷ [] }
{
    match ask(rt, core, letter) {
        Answer::Fly(mut flight) => {
            surely_same(rt, flight.ticket.number, number);
            let ticket = (flight.ticket.scene, flight.ticket.stamped);
            same_at(rt, &letter, ticket, (7, false));
            flight.ticket.stamped = true;
            flight
        }
        Answer::Here(_) | Answer::Busy => panic!(rt; "kept or flying"),
    }
}

// Asks for a key that is kept with this value, or that flies where there is none.
fn finds(rt: &(impl Abort + AllocGlobal), core: &mut Letters, letter: u8, value: Option<u32>)
    ensures { core.new.flying ≡ core.old.flying }
{
    let kept = match ask(rt, core, letter) {
        Answer::Here(kept) => Some(*kept),
        Answer::Busy => None,
        Answer::Fly(_flight) => panic!(rt; "neither kept nor flying"),
    };
    same_at(rt, &letter, kept, value);
}

fn land(rt: &(impl Abort + AllocGlobal), core: &mut Letters, flight: Flight<u8>, value: u32)
    requires stands { Stands core.old.flying flight }
    requires stamped { IsTrue flight.ticket.stamped }
    ensures { core.new.flying ≡ remove_entry (λ n. n == flight.ticket.number) core.old.flying }
{
    let value = Arc::new(rt.alloc(), value).expect(rt, "a value");
    match core.land(rt.alloc(), flight, value) {
        Ok(()) => {}
        Err(_) => panic!(rt; "no memory"),
    }
}

// Ends a core in which nothing flies.
fn finish(rt: &impl Abort, core: Letters, by_hand: Totals)
    requires { core.flying ≡ [] }
{
    let (permit, totals) = core.finish();
    let Permit { scene } = permit;
    same(rt, scene, 7);
    same(rt, totals, by_hand);
}

// Has what nobody makes yet made under this number: it flies, is asked for once more where it is awaited, and lands.
fn make(
    rt: &(impl Abort + AllocGlobal),
    core: &mut Letters,
    letter: u8,
    number: u64,
    value: u32,
    is_awaited: bool,
)
    requires { core.old.flying ≡ [] }
    ensures { core.new.flying ≡ [] }
{
    let flight = fly(rt, core, letter, number);
    if is_awaited {
        finds(rt, core, letter, None);
    }
    land(rt, core, flight, value);
}

// Has it fly under this number and lets it go.
fn let_go(rt: &(impl Abort + AllocGlobal), core: &mut Letters, letter: u8, number: u64)
    requires { core.old.flying ≡ [] }
    ensures { core.new.flying ≡ [] }
{
    let flight = fly(rt, core, letter, number);
    core.drop_flight(flight);
}

#[test]
fn one_is_kept(rt: HostRuntime) {
    let mut core = start(&rt, 1);
    make(&rt, &mut core, b'a', 0, 10, true);
    finds(&rt, &mut core, b'a', Some(10));
    make(&rt, &mut core, b'b', 1, 20, false);
    let_go(&rt, &mut core, b'a', 2);
    let by_hand = Totals {
        asks: 5,
        hits: 1,
        busies: 1,
        flights: 3,
        landed: 2,
        dropped: 1,
        evicted: 1,
    };
    finish(&rt, core, by_hand);
}

// One flies under 1, is asked for once the other has landed under 2, and is let go.
fn outlasts(rt: &(impl Abort + AllocGlobal), core: &mut Letters, letter: u8, other: u8, value: u32)
    requires { core.old.flying ≡ [] }
    ensures { core.new.flying ≡ [] }
{
    let flight = fly(rt, core, letter, 1);
    let second = fly(rt, core, other, 2);
    land(rt, core, second, value);
    finds(rt, core, letter, None);
    core.drop_flight(flight);
}

#[test]
fn none_is_kept(rt: HostRuntime) {
    let mut core = start(&rt, 0);
    make(&rt, &mut core, b'a', 0, 10, true);
    outlasts(&rt, &mut core, b'a', b'b', 20);
    let by_hand = Totals {
        asks: 5,
        hits: 0,
        busies: 2,
        flights: 3,
        landed: 2,
        dropped: 1,
        evicted: 0,
    };
    finish(&rt, core, by_hand);
}

#[test]
fn two_are_kept(rt: HostRuntime) {
    let mut core = start(&rt, 2);
    make(&rt, &mut core, b'a', 0, 10, true);
    finds(&rt, &mut core, b'a', Some(10));
    make(&rt, &mut core, b'b', 1, 20, false);
    finds(&rt, &mut core, b'a', Some(10));
    let by_hand = Totals {
        asks: 5,
        hits: 2,
        busies: 1,
        flights: 2,
        landed: 2,
        dropped: 0,
        evicted: 0,
    };
    finish(&rt, core, by_hand);
}

// A third value pushes out b, since a was asked for after b had landed.
#[test]
fn the_least_recently_used_goes(rt: HostRuntime) {
    every_run::<u8, u32>();
    let mut core = start(&rt, 2);
    make(&rt, &mut core, b'a', 0, 10, false);
    make(&rt, &mut core, b'b', 1, 20, false);
    finds(&rt, &mut core, b'a', Some(10));
    make(&rt, &mut core, b'c', 2, 30, false);
    finds(&rt, &mut core, b'a', Some(10));
    let_go(&rt, &mut core, b'b', 3);
    let by_hand = Totals {
        asks: 6,
        hits: 2,
        busies: 0,
        flights: 4,
        landed: 3,
        dropped: 1,
        evicted: 1,
    };
    finish(&rt, core, by_hand);
}
