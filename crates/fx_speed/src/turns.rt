//! Turns of one slot that are taken and given, by one thread or by several.
ghost use Rattle.std.specs.Prelude.{◌≡◌, ◌<◌, ◌≤◌, All, IfOk, None};

use crate::number::Number;
use fx_base::Memory;
use fx_turn::{Seat, Turns};
use std::alloc::Global;
use std::rt::Clock;
use std::sync::Wait;
use std::thread::{self, Threads};

type Numbers = Turns<(), Number>;

type NumberSeat = Seat<(), Number>;

/// Takes the turn so many times in each of so many threads, adds one and gives it back. The sum.
pub(crate) fn add_together<R: Wait + Clock + Threads + Sync>(
    rt: &R,
    alloc: Global,
    threads: u32,
    times: u32,
) -> Result<u64, Memory>
    requires { threads ≤ 64 }
{
    let values = vec![in alloc; Number { value: 0 }]?;
    match Turns::new(alloc, (), values) {
        Ok((turns, mut first)) => add_by_threads(rt, alloc, &turns, &mut first, threads, times),
        Err(_) => Err(Memory),
    }
}

// Adds so often in each of so many threads. The sum.
fn add_by_threads<R: Wait + Clock + Threads + Sync>(
    rt: &R,
    alloc: Global,
    turns: &Numbers,
    first: &mut NumberSeat,
    threads: u32,
    times: u32,
) -> Result<u64, Memory>
    requires row { first.old.row ≡ turns.now }
    requires free { first.old.turn ≡ None }
    requires one { turns.now.slots ≡ 1 }
    requires enough { threads < first.old.parts }
{
    let Ok(seats) = split_off(alloc, turns, first, threads) else {
        return Err(Memory);
    };
    thread::map_vec(rt, seats, &|seat| add(rt, turns, seat, times))?;
    let held = turns.take(rt, first, 0);
    let sum = held.value().value;
    turns.give(first, held);
    Ok(sum)
}

// Takes the turn so often, and adds one each time.
fn add<R: Wait + Clock>(rt: &R, turns: &Numbers, mut seat: NumberSeat, times: u32)
    requires row { seat.row ≡ turns.now }
    requires free { seat.turn ≡ None }
    requires one { turns.now.slots ≡ 1 }
{
    for _ in 0..times {
        let mut held = turns.take(rt, &mut seat, 0);
        let number = held.value_mut();
        number.value = number.value.wrapping_add(1);
        turns.give(&mut seat, held);
    }
}

// So many seats, each split from the first.
fn split_off(
    alloc: Global,
    turns: &Numbers,
    first: &mut NumberSeat,
    count: u32,
) -> Result<Vec<NumberSeat>, fx_turn::Memory>
    requires row { first.old.row ≡ turns.now }
    requires free { first.old.turn ≡ None }
    requires enough { count < first.old.parts }
    ensures seats { IfOk result (λ seats. All (λ s. (s.row ≡ turns.now) × (s.turn ≡ None)) seats.items) }
    ensures row { IfOk result (λ _. first.new.row ≡ turns.now) }
    ensures free { IfOk result (λ _. first.new.turn ≡ None) }
{
    let mut seats = Vec::new(alloc);
    for _ in 0..count {
        seats.push(turns.split(alloc, first)?)?;
    }
    Ok(seats)
}
