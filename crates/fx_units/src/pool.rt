ghost use Rattle.std.specs.Prelude.{◌≡◌, ◌≤◌, ◌+◌, ◌%◌, ◌^◌, [], IfOk, length, vec_len};

use crate::same::same;
use fx_base::Memory;
use fx_outside::{FreePace, Pace};
use fx_pool::{Draw, DrawSeat, ItemJob, Job, Worked, WorkedItems, work, work_items};
use std::alloc::{AllocError, Global};
use std::process::Abort;
use std::rt::Clock;
use std::sync::Wait;
use std::sync::atomic::{AtomicBool, AtomicU64, Ordering};
use std::thread::{self, Threads};

// Notes each number in the seat, which weighs as much as it has, and answers it.
struct Notes;

impl Job for Notes {
    type Seat = Vec<u64>;

    type Out = u64;

    ghost fits = { λ _ _. Unit {0} };

    ghost takes = { λ _ _. Unit {0} };

    ghost right = { λ _ index out. out ≡ index };

    ghost weight = { λ seat. (vec_len seat, 0) };

    ghost out_weight = { λ _. (1, 0) };

    fn turn<R: Wait + Clock>(
        &self,
        _rt: &R,
        _alloc: Global,
        seat: &mut Vec<u64>,
        index: u64,
    ) -> Result<u64, Memory> {
        seat.push(index)?;
        Ok(index)
    }
}

// Answers want of memory on its first call.
#[derive(Drop)]
struct FailsFirst {
    called: AtomicBool,
}

impl Job for FailsFirst {
    type Seat = Vec<u64>;

    type Out = u64;

    ghost fits = { λ _ _. Unit {0} };

    ghost takes = { λ _ _. Unit {0} };

    ghost right = { λ _ index out. out ≡ index };

    ghost weight = { λ _. (0, 0) };

    ghost out_weight = { λ _. (0, 0) };

    fn turn<R: Wait + Clock>(
        &self,
        _rt: &R,
        _alloc: Global,
        _seat: &mut Vec<u64>,
        index: u64,
    ) -> Result<u64, Memory> {
        if self.called.swap(true, Ordering::SeqCst) {
            Ok(index)
        } else {
            Err(Memory)
        }
    }
}

// Adds its index to each item, and answers what the item was.
struct AddsIndex;

impl ItemJob<u64> for AddsIndex {
    type Seat = Vec<u64>;

    type Out = u64;

    ghost fits = { λ _ _. Unit {0} };

    ghost takes = { λ _ _ _. Unit {0} };

    ghost right = { λ _ index before after out. (after ≡ (before + index) % 2 ^ 64) × (out ≡ before) };

    ghost weight = { λ seat. (vec_len seat, 0) };

    ghost out_weight = { λ _. (1, 0) };

    fn turn<R: Wait + Clock>(
        &self,
        _rt: &R,
        _alloc: Global,
        seat: &mut Vec<u64>,
        index: u64,
        item: &mut u64,
    ) -> Result<u64, Memory> {
        seat.push(index)?;
        let before = *item;
        *item = before.wrapping_add(index);
        Ok(before)
    }
}

// It lets neither worker 0 nor worker 1 out of its first call before the other has entered its own.
#[derive(Drop)]
struct HoldPace {
    first: AtomicBool,
    second: AtomicBool,
    gave_up: AtomicBool,
}

// How often a held worker looks for the other one before it gives up.
const TURNS: u32 = 100_000_000;

impl HoldPace {
    fn new() -> HoldPace {
        HoldPace {
            first: AtomicBool::new(false),
            second: AtomicBool::new(false),
            gave_up: AtomicBool::new(false),
        }
    }

    // Whether both workers came, and neither gave up.
    fn held_both(&self) -> bool {
        self.first.load(Ordering::SeqCst)
            && self.second.load(Ordering::SeqCst)
            && !self.gave_up.load(Ordering::SeqCst)
    }

    fn hold(&self, mine: &AtomicBool, other: &AtomicBool) {
        if mine.swap(true, Ordering::SeqCst) {
            return;
        }
        for _ in 0..TURNS {
            if other.load(Ordering::SeqCst) {
                return;
            }
            thread::yield_now();
        }
        self.gave_up.store(true, Ordering::SeqCst);
    }
}

impl Pace for HoldPace {
    fn before_draw(&self, worker: u32) {
        match worker {
            0 => self.hold(&self.first, &self.second),
            1 => self.hold(&self.second, &self.first),
            _ => {}
        }
    }
}

// Counts its calls for each worker.
#[derive(Drop)]
struct CountPace {
    calls: Vec<AtomicU64>,
}

impl CountPace {
    fn of(alloc: Global, workers: usize) -> Result<CountPace, AllocError> {
        let mut calls = Vec::new(alloc);
        for _ in 0..workers {
            calls.push(AtomicU64::new(0))?;
        }
        Ok(CountPace { calls })
    }

    // Whether each worker called it once more than it drew a number: its seat has what it drew. The
    // last seat is the first worker's.
    fn was_asked(&self, seats: &[Vec<u64>]) -> bool {
        let mut asked = self.calls.len() == seats.len();
        for (calls, seat) in self.calls.iter().zip(seats.iter().rev()) {
            asked &= calls.load(Ordering::SeqCst) == seat.len() as u64 + 1;
        }
        asked
    }
}

impl Pace for CountPace {
    fn before_draw(&self, worker: u32) {
        if let Some(calls) = self.calls.get(worker as usize) {
            calls.fetch_add(1, Ordering::SeqCst);
        }
    }
}

// So many empty seats.
fn empty_seats(alloc: Global, count: usize) -> Result<Vec<Vec<u64>>, AllocError>
    ensures { IfOk result (λ seats. vec_len seats ≡ count) }
{
    let mut seats = Vec::new(alloc);
    for _ in 0..count {
        seats.push(Vec::new(alloc))?;
    }
    Ok(seats)
}

#[test]
fn each_number_is_drawn_once(rt: HostRuntime) {
    let alloc = rt.alloc();
    let (draw, mut first) = Draw::new(alloc, 3).expect(&rt, "no draw");
    let mut second = draw.split(alloc, &mut first).expect(&rt, "no second seat");
    same(&rt, draw.next(&mut first), Some(0));
    same(&rt, draw.next(&mut second), Some(1));
    draw.join(&mut first, second);
}

// Draws all that is left.
fn draw_out(alloc: Global, draw: &Draw, seat: &mut DrawSeat) -> Result<Vec<u64>, AllocError>
    requires { (seat.old.draw ≡ draw.now) × (seat.old.past ≡ []) }
{
    let mut numbers = Vec::new(alloc);
    for _ in 0..9u8 {
        match draw.next(seat) {
            Some(number) => numbers.push(number)?,
            None => return Ok(numbers),
        }
    }
    Ok(numbers)
}

#[test]
fn none_comes_past_the_count(rt: HostRuntime) {
    let alloc = rt.alloc();
    let (draw, mut seat) = Draw::new(alloc, 3).expect(&rt, "no draw");
    let numbers = draw_out(alloc, &draw, &mut seat).expect(&rt, "no numbers");
    same(&rt, numbers.as_slice(), [0, 1, 2].as_slice());
    let (draw, mut seat) = Draw::new(alloc, 0).expect(&rt, "no draw");
    same(&rt, draw.next(&mut seat), None);
}

// Notes the numbers below this one, by so many workers.
fn noted<R: Threads + Wait + Clock + Sync + Abort + AllocGlobal, P: Pace>(
    rt: &R,
    pace: &P,
    count: u64,
    workers: usize,
) -> Worked<Vec<u64>, u64>
    requires count { count ≤ 2 ^ 32 }
    requires workers { (1 ≤ workers) × (workers ≤ 64) }
{
    let seats = empty_seats(rt.alloc(), workers).expect(rt, "no seats");
    match work(rt, rt.alloc(), pace, count, seats, &Notes) {
        Ok(worked) => worked,
        Err(_refused) => panic!(rt; "no memory"),
    }
}

// Adds their indices to the items, by so many workers.
fn added<R: Threads + Wait + Clock + Sync + Abort + AllocGlobal, P: Pace>(
    rt: &R,
    pace: &P,
    items: &[u64],
    workers: usize,
) -> WorkedItems<Vec<u64>, u64, u64>
    requires items { length items.now ≤ 2 ^ 32 }
    requires workers { (1 ≤ workers) × (workers ≤ 64) }
{
    let seats = empty_seats(rt.alloc(), workers).expect(rt, "no seats");
    let items = items.to_vec(rt.alloc()).expect(rt, "no items");
    match work_items(rt, rt.alloc(), pace, items, seats, &AddsIndex) {
        Ok(worked) => worked,
        Err(_refused) => panic!(rt; "no memory"),
    }
}

#[test]
fn three_numbers_have_their_outs(rt: HostRuntime) {
    let worked = noted(&rt, &FreePace, 3, 8);
    same(
        &rt,
        worked.outs.as_slice(),
        [(0, 0), (1, 1), (2, 2)].as_slice(),
    );
    same(&rt, worked.seats.len(), 8);
}

#[test]
fn no_number_has_no_out(rt: HostRuntime) {
    let worked = noted(&rt, &FreePace, 0, 8);
    same(&rt, worked.outs.len(), 0);
    same(&rt, worked.seats.len(), 8);
}

#[test]
fn want_of_memory_hands_the_seats_back(rt: HostRuntime) {
    let alloc = rt.alloc();
    let seats = empty_seats(alloc, 4).expect(&rt, "no seats");
    let job = FailsFirst {
        called: AtomicBool::new(false),
    };
    match work(&rt, alloc, &FreePace, 3, seats, &job) {
        Ok(_worked) => assert!(rt; false, "memory was wanting"),
        Err((seats, _memory)) => same(&rt, seats.len(), 4),
    }
}

#[test]
fn each_item_has_one_turn(rt: HostRuntime) {
    let worked = added(&rt, &FreePace, &[10, 20, 30], 8);
    same(&rt, worked.items.as_slice(), [10, 21, 32].as_slice());
    same(&rt, worked.outs.as_slice(), [10, 20, 30].as_slice());
    same(&rt, worked.seats.len(), 8);
}

#[test]
fn no_item_has_no_turn(rt: HostRuntime) {
    let worked = added(&rt, &FreePace, &[], 8);
    same(&rt, worked.items.len(), 0);
    same(&rt, worked.outs.len(), 0);
}

#[test]
fn workers_run_beside_each_other(rt: HostRuntime) {
    let pace = HoldPace::new();
    let worked = noted(&rt, &pace, 3, 2);
    same(
        &rt,
        worked.outs.as_slice(),
        [(0, 0), (1, 1), (2, 2)].as_slice(),
    );
    assert!(rt; pace.held_both());
}

#[test]
fn workers_on_items_run_beside_each_other(rt: HostRuntime) {
    let pace = HoldPace::new();
    let worked = added(&rt, &pace, &[10, 20, 30], 2);
    same(&rt, worked.items.as_slice(), [10, 21, 32].as_slice());
    assert!(rt; pace.held_both());
}

// Three workers draw twenty numbers, and then twenty items.
#[test]
fn pace_is_asked_before_each_draw(rt: HostRuntime) {
    let pace = CountPace::of(rt.alloc(), 3).expect(&rt, "no pace");
    let worked = noted(&rt, &pace, 20, 3);
    assert!(rt; pace.was_asked(worked.seats.as_slice()));
    let pace = CountPace::of(rt.alloc(), 3).expect(&rt, "no pace");
    let worked = added(&rt, &pace, &[5; 20], 3);
    assert!(rt; pace.was_asked(worked.seats.as_slice()));
}
