//! Asks of a directory for kept keys, by one thread or by several.
ghost use Rattle.std.specs.Prelude.{◌≡◌, ◌<◌, ◌≤◌, [], ◌∷◌, All, IfOk};
ghost use Rattle.std.specs.Arc.{arc_value};

use crate::kept::{KEPT, keys, next};
use fx_base::Memory;
use fx_core::{Answer, Flight, Permit};
use fx_directory::{DirSeat, Directory, Suits};
use std::alloc::Global;
use std::rt::Clock;
use std::sync::{Arc, Wait};
use std::thread::{self, Threads};

// A kept number, which suits any key.
#[derive(Drop)]
pub(crate) struct Kept {
    pub(crate) number: u32,
}

impl Suits<(), u32> for Kept {
    ghost suits = { λ _ _ _. Unit {0} };

    ghost grown = { λ _ _. Unit {0} };

    ghost same_key = { λ _ _ _ _ _ _. tt };

    ghost still_suits = { λ _ _ _ _ _ _. tt };
}

type Numbers = Directory<(), u32, Kept>;

type Seat = DirSeat<(), u32, Kept>;

/// Asks a directory of 4,096 kept numbers for them so many times, in no order, in each of so many threads. How many
/// were hits.
pub(crate) fn ask_together<R: Wait + Clock + Threads + Sync>(
    rt: &R,
    alloc: Global,
    threads: u32,
    asks: u32,
) -> Result<u64, Memory>
    requires { threads ≤ 64 }
{
    match Directory::new(alloc, (), Permit::new(1), KEPT) {
        Ok((numbers, mut first)) => ask_by_threads(rt, alloc, &numbers, &mut first, threads, asks),
        Err((_, memory)) => Err(memory),
    }
}

// Fills the directory, and asks so often in each of so many threads. How many were hits.
fn ask_by_threads<R: Wait + Clock + Threads + Sync>(
    rt: &R,
    alloc: Global,
    numbers: &Numbers,
    first: &mut Seat,
    threads: u32,
    asks: u32,
) -> Result<u64, Memory>
    requires row { (first.old.row ≡ numbers.now) × (first.old.aloft ≡ []) }
    requires enough { threads < first.old.parts }
{
    fill(rt, alloc, numbers, first)?;
    let seats = split_off(alloc, numbers, first, threads)?;
    let hits = thread::map_vec(rt, seats, &|seat| ask_all(rt, alloc, numbers, seat, asks))?;
    Ok(sum_of(&hits))
}

// Asks for each of the keys, which is then kept.
fn fill<R: Wait + Clock>(
    rt: &R,
    alloc: Global,
    numbers: &Numbers,
    seat: &mut Seat,
) -> Result<(), Memory>
    requires row { (seat.old.row ≡ numbers.now) × (seat.old.aloft ≡ []) }
    ensures row { (seat.new.row ≡ numbers.now) × (seat.new.parts ≡ seat.old.parts) }
    ensures idle { seat.new.aloft ≡ [] }
{
    for key in &keys(alloc)? {
        ask(rt, alloc, numbers, seat, key)?;
    }
    Ok(())
}

// Asks for so many of the keys, in no order. How many were hits, and 0 where memory is wanting.
fn ask_all<R: Wait + Clock>(
    rt: &R,
    alloc: Global,
    numbers: &Numbers,
    mut seat: Seat,
    asks: u32,
) -> u64
    requires row { seat.row ≡ numbers.now }
    requires idle { seat.aloft ≡ [] }
{
    let Ok(keys) = keys(alloc) else {
        return 0;
    };
    let mut number = 1;
    let mut hits = 0u64;
    for _ in 0..asks {
        number = next(number);
        if let Some(key) = keys.get((number >> 16) as usize % KEPT as usize) {
            let hit = ask(rt, alloc, numbers, &mut seat, key);
            hits = hits.wrapping_add(u64::from(matches!(hit, Ok(true))));
        }
    }
    hits
}

// Asks for a key, and lands it where it isn't kept. Whether it was.
fn ask<R: Wait + Clock>(
    rt: &R,
    alloc: Global,
    numbers: &Numbers,
    seat: &mut Seat,
    key: &Arc<u32>,
) -> Result<bool, Memory>
    requires row { seat.old.row ≡ numbers.now }
    requires idle { seat.old.aloft ≡ [] }
    ensures row { (seat.new.row ≡ numbers.now) × (seat.new.parts ≡ seat.old.parts) }
    ensures idle { seat.new.aloft ≡ [] }
{
    match numbers.ask(rt, alloc, seat, Arc::try_clone(key)?)? {
        Answer::Here(_) => Ok(true),
        Answer::Busy => Ok(false),
        Answer::Fly(flight) => land(rt, alloc, numbers, seat, flight, **key),
    }
}

// Lands the one flight with this number, or drops it where memory is wanting.
fn land<R: Wait + Clock>(
    rt: &R,
    alloc: Global,
    numbers: &Numbers,
    seat: &mut Seat,
    mut flight: Flight<u32>,
    number: u32,
) -> Result<bool, Memory>
    requires row { seat.old.row ≡ numbers.now }
    requires one { seat.old.aloft ≡ (flight.ticket.number, arc_value flight.key) ∷ [] }
    ensures row { (seat.new.row ≡ numbers.now) × (seat.new.parts ≡ seat.old.parts) }
    ensures idle { seat.new.aloft ≡ [] }
{
    let Ok(value) = Arc::new(alloc, Kept { number }) else {
        let_go(rt, numbers, seat, flight);
        return Err(Memory);
    };
    flight.ticket.stamped = true;
    match numbers.land(rt, alloc, seat, flight, value) {
        Ok(()) => Ok(false),
        Err((flight, _, memory)) => {
            let_go(rt, numbers, seat, flight);
            Err(memory)
        }
    }
}

// Drops the one flight that stands.
fn let_go<R: Wait + Clock>(rt: &R, numbers: &Numbers, seat: &mut Seat, flight: Flight<u32>)
    requires row { seat.old.row ≡ numbers.now }
    requires one { seat.old.aloft ≡ (flight.ticket.number, arc_value flight.key) ∷ [] }
    ensures row { (seat.new.row ≡ numbers.now) × (seat.new.parts ≡ seat.old.parts) }
    ensures idle { seat.new.aloft ≡ [] }
{
    numbers.drop_flight(rt, seat, flight);
}

// So many seats, each split from the first.
fn split_off(
    alloc: Global,
    numbers: &Numbers,
    first: &mut Seat,
    count: u32,
) -> Result<Vec<Seat>, Memory>
    requires row { first.old.row ≡ numbers.now }
    requires enough { count < first.old.parts }
    ensures { IfOk result (λ seats. All (λ s. (s.row ≡ numbers.now) × (s.aloft ≡ [])) seats.items) }
{
    let mut seats = Vec::new(alloc);
    for _ in 0..count {
        seats.push(numbers.split(alloc, first)?)?;
    }
    Ok(seats)
}

fn sum_of(hits: &[u64]) -> u64 {
    let mut sum = 0u64;
    for number in hits {
        sum = sum.wrapping_add(*number);
    }
    sum
}
