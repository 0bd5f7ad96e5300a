//! Workers: how they are set up, and how what they did is put together.
ghost use Rattle.std.specs.Prelude.{◌≡◌, ℕ, ◌+◌, ◌<◌, ◌≤◌, [], ◌∷◌, ◌++◌, All, IfSome, IsPermutation, OnSome, false, length, reverse, vec_capacity, vec_len};
ghost use Rattle.fx_pool.specs.Draws.{AllDrawn, all_parts};
ghost use Rattle.fx_pool.specs.Working.{HasEnded, IsFresh, numbers_below, numbers_of, outs_of, seats_of};

use crate::draw::{Draw, DrawSeat};
use std::alloc::Global;

/// A worker: its seat of the job, its seat of the draw, what it made with the numbers, and whether
/// memory was wanting.
#[derive(Drop)]
pub(crate) struct Worker<S, D, T> {
    pub(crate) seat: S,
    pub(crate) draw: DrawSeat<D>,
    pub(crate) outs: Vec<(u64, T)>,
    pub(crate) failed: bool,
}

/// What all workers made, and whether memory was wanting.
#[derive(Drop)]
struct Gathered<T> {
    outs: Vec<(u64, T)>,
    failed: bool,
}

// Makes a worker of each seat. The last seat is the first worker's.
pub(crate) fn set_up<S, D, T>(
    alloc: Global,
    draw: &Draw<D>,
    all: &mut DrawSeat<D>,
    seats: &mut Vec<S>,
    workers: &mut Vec<Worker<S, D, T>>,
)
    requires draw { (all.old.draw ≡ draw.now) × (all.old.past ≡ []) }
    requires parts { vec_len seats.old < all.old.parts }
    requires room { (workers.old.items ≡ []) × (vec_len seats.old ≤ vec_capacity workers.old) }
    ensures all { (all.new.draw ≡ draw.now) × (all.new.past ≡ all.old.past) × (all.new.drawn ≡ all.old.drawn)
        × (all.new.parts + vec_len seats.old ≡ all.old.parts) }
    ensures seats { (seats.new.items ≡ []) × (vec_capacity seats.new ≡ vec_capacity seats.old) }
    ensures workers { seats_of workers.new.items ≡ reverse seats.old.items }
    ensures count { vec_len workers.new ≡ vec_len seats.old }
    ensures fresh { All (IsFresh draw.now) workers.new.items }
{
    while let Some(seat) = seats.pop() {
        workers.push_reserved(Worker {
            seat,
            draw: draw.part(all),
            outs: Vec::new(alloc),
            failed: false,
        });
    }
}

// What the workers made, by rising number. `None` comes where memory was wanting.
pub(crate) fn collect<S, D, T: Drop>(
    alloc: Global,
    draw: &Draw<D>,
    all: &mut DrawSeat<D>,
    seats: &mut Vec<S>,
    workers: Vec<Worker<S, D, T>>,
) -> Option<Vec<(u64, T)>>
    requires draw { (all.old.draw ≡ draw.now) × (all.old.drawn ≡ []) × (all.old.past ≡ []) }
    requires parts { (all.old.parts + vec_len workers ≡ all_parts) × (0 < vec_len workers) }
    requires ended { All (HasEnded draw.now) workers.items }
    requires room { (seats.old.items ≡ []) × (vec_len workers ≤ vec_capacity seats.old) }
    ensures seats { seats.new.items ≡ reverse (seats_of workers.items) }
    ensures works { OnSome result (All (λ w. w.failed ≡ false) workers.items) }
    ensures outs { IfSome result (λ outs. IsPermutation (outs_of (reverse workers.items)) outs.items) }
    ensures numbers { IfSome result (λ outs. numbers_of outs.items ≡ numbers_below draw.now.count) }
{
    let mut gathered = gather(alloc, draw, all, seats, workers);
    if gathered.failed {
        return None;
    }
    sort_by_number(&mut gathered.outs);
    Some(gathered.outs)
}

// Takes the workers apart, the last one first: their seats, their seats of the draw, and their outs.
fn gather<S, D, T: Drop>(
    alloc: Global,
    draw: &Draw<D>,
    all: &mut DrawSeat<D>,
    seats: &mut Vec<S>,
    mut workers: Vec<Worker<S, D, T>>,
) -> Gathered<T>
    requires draw { (all.old.draw ≡ draw.now) × (all.old.drawn ≡ []) × (all.old.past ≡ []) }
    requires parts { (all.old.parts + vec_len workers ≡ all_parts) × (0 < vec_len workers) }
    requires ended { All (HasEnded draw.now) workers.items }
    requires room { (seats.old.items ≡ []) × (vec_len workers ≤ vec_capacity seats.old) }
    ensures seats { seats.new.items ≡ reverse (seats_of workers.items) }
    ensures works { result.failed ≡ false → All (λ w. w.failed ≡ false) workers.items }
    ensures outs { result.failed ≡ false → result.outs.items ≡ outs_of (reverse workers.items) }
    ensures numbers { result.failed ≡ false → AllDrawn draw.now.count (numbers_of result.outs.items) }
{
    let mut gathered = Gathered {
        outs: Vec::new(alloc),
        failed: false,
    };
    while let Some(worker) = workers.pop() {
        let Worker {
            seat,
            draw: mine,
            outs,
            failed,
        } = worker;
        seats.push_reserved(seat);
        draw.join(all, mine);
        gathered.add(outs, failed);
    }
    workers.destroy_empty();
    gathered
}

impl<T: Drop> Gathered<T> {
    // Takes in what one worker made. Where memory is wanting it is let go.
    fn add(&mut self, mut outs: Vec<(u64, T)>, failed: bool)
        ensures failed { self.new.failed ≡ false → (self.old.failed ≡ false) × (failed ≡ false) }
        ensures outs { self.new.failed ≡ false → self.new.outs.items ≡ self.old.outs.items ++ outs.items }
    {
        if failed || self.outs.append(&mut outs).is_err() {
            self.failed = true;
        }
    }
}

// Where these are the numbers below a count, each once, they stand in their order afterwards.
fn sort_by_number<T>(outs: &mut Vec<(u64, T)>)
    ensures same { IsPermutation outs.old.items outs.new.items }
    ensures rising { (count : ℕ) → AllDrawn count (numbers_of outs.old.items)
        → numbers_of outs.new.items ≡ numbers_below count }
{
    outs.as_mut_slice().sort_unstable_by_key(|out| out.0);
}
