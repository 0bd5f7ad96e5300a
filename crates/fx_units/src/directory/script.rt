//! One script at two capacities, worked by hand: ask for 1 twice, land it, ask for 1, ask for 2, land it, ask
//! for 1, and drop what still flies. Then a directory that goes on under another name.
ghost use Rattle.std.specs.Prelude.{◌≡◌, []};
ghost use Rattle.fx_turn.specs.Seats.{all_parts};

use crate::directory::doubles::{DoubleSeat, Doubles, close, finds, fly, land, let_go, start};
use crate::same::same;
use fx_core::Totals;
use std::process::Abort;
use std::rt::Clock;
use std::sync::Wait;

// Has what nobody makes yet made under this number: it flies, is asked for once more where it is awaited, and lands.
fn make<R: Abort + Wait + Clock + AllocGlobal>(
    rt: &R,
    doubles: &Doubles,
    seat: &mut DoubleSeat,
    key: u32,
    number: u64,
    is_awaited: bool,
)
    requires { (seat.old.row ≡ doubles.now) × (seat.old.aloft ≡ []) }
    ensures row { (seat.new.row ≡ seat.old.row) × (seat.new.parts ≡ seat.old.parts) }
    ensures aloft { seat.new.aloft ≡ [] }
{
    let flight = fly(rt, doubles, seat, key, number);
    if is_awaited {
        finds(rt, doubles, seat, key, None);
    }
    land(rt, doubles, seat, flight);
}

// Has it fly under this number and lets it go.
fn give_up<R: Abort + Wait + Clock + AllocGlobal>(
    rt: &R,
    doubles: &Doubles,
    seat: &mut DoubleSeat,
    key: u32,
    number: u64,
)
    requires { (seat.old.row ≡ doubles.now) × (seat.old.aloft ≡ []) }
    ensures row { (seat.new.row ≡ seat.old.row) × (seat.new.parts ≡ seat.old.parts) }
    ensures aloft { seat.new.aloft ≡ [] }
{
    let flight = fly(rt, doubles, seat, key, number);
    let_go(rt, doubles, seat, flight);
}

#[test]
fn one_is_kept(rt: HostRuntime) {
    let (doubles, mut seat) = start(&rt, 1);
    make(&rt, &doubles, &mut seat, 1, 0, true);
    finds(&rt, &doubles, &mut seat, 1, Some(2));
    make(&rt, &doubles, &mut seat, 2, 1, false);
    give_up(&rt, &doubles, &mut seat, 1, 2);
    let by_hand = Totals {
        asks: 5,
        hits: 1,
        busies: 1,
        flights: 3,
        landed: 2,
        dropped: 1,
        evicted: 1,
    };
    same(&rt, close(&rt, doubles, seat), by_hand);
}

// What landed isn't kept, so that the fourth ask flies too.
#[test]
fn none_is_kept(rt: HostRuntime) {
    let (doubles, mut seat) = start(&rt, 0);
    make(&rt, &doubles, &mut seat, 1, 0, true);
    make(&rt, &doubles, &mut seat, 1, 1, false);
    give_up(&rt, &doubles, &mut seat, 2, 2);
    let by_hand = Totals {
        asks: 4,
        hits: 0,
        busies: 1,
        flights: 3,
        landed: 2,
        dropped: 1,
        evicted: 0,
    };
    same(&rt, close(&rt, doubles, seat), by_hand);
}

// The directory under another name.
fn renamed(
    rt: &(impl Abort + AllocGlobal),
    doubles: Doubles,
    seat: DoubleSeat,
    name: u32,
) -> (Doubles, DoubleSeat)
    requires row { (seat.row ≡ doubles) × (seat.parts ≡ all_parts) }
    requires ended { seat.aloft ≡ [] }
    ensures row { (result.1.row ≡ result.0) × (result.1.parts ≡ all_parts) }
    ensures aloft { result.1.aloft ≡ [] }
{
    match doubles.renew(rt.alloc(), seat, name) {
        Ok(made) => made,
        Err(_) => panic!(rt; "no memory"),
    }
}

#[test]
fn what_is_kept_stays_under_another_name(rt: HostRuntime) {
    let (doubles, mut seat) = start(&rt, 1);
    make(&rt, &doubles, &mut seat, 1, 0, false);
    let (doubles, mut seat) = renamed(&rt, doubles, seat, 6);
    finds(&rt, &doubles, &mut seat, 1, Some(2));
    let by_hand = Totals {
        asks: 2,
        hits: 1,
        busies: 0,
        flights: 1,
        landed: 1,
        dropped: 0,
        evicted: 0,
    };
    same(&rt, close(&rt, doubles, seat), by_hand);
}
