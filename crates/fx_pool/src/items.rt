//! Workers that take the items of a list one by one, and do the job for each.
ghost use Rattle.std.specs.Prelude.{◌≡◌, ℕ, ◌^◌, ◌<◌, ◌≤◌, All, IfErr, IfOk, Some, length, map, slice_index_or, vec_len};
ghost use Rattle.fx_pool.specs.Draws.{HasItems, IsItem, first_seat};
ghost use Rattle.fx_pool.specs.Weights.{plus, weigh};
ghost use Rattle.fx_pool.specs.Working.{EachRight, HasWorkedItems, Ready};

use crate::draw::{Draw, DrawSeat};
use crate::job::ItemJob;
use crate::worker::{Worker, collect, set_up};
use fx_base::Memory;
use fx_outside::Pace;
use std::alloc::Global;
use std::rt::Clock;
use std::sync::Wait;
use std::thread;
use std::thread::Threads;

/// What came of a job for each item: the seats, the items as the job left them, and an out for each,
/// in the order of the items.
#[derive(Drop)]
pub struct WorkedItems<S, I, T> {
    /// As many as were handed in.
    pub seats: Vec<S>,
    /// The items as their turns left them.
    pub items: Vec<I>,
    /// What the turn of each item made.
    pub outs: Vec<T>,
}

/// Does the job for each item, which takes each under its index, by one worker for each seat. Each worker
/// calls `pace.before_draw` with its number before it draws an item. Where no thread can be made the
/// workers run one after another. `Memory` comes where memory is wanting, once all workers have ended, and
/// hands the seats back; the items are then let go.
pub fn work_items<R: Threads + Wait + Clock + Sync, I: Send + Drop, J: ItemJob<I>, P: Pace>(
    rt: &R,
    alloc: Global,
    pace: &P,
    items: Vec<I>,
    mut seats: Vec<J::Seat>,
    job: &J,
) -> Result<WorkedItems<J::Seat, I, J::Out>, (Vec<J::Seat>, Memory)>
    requires few { vec_len items ≤ 2 ^ 32 }
    requires seats { (1 ≤ vec_len seats) × (vec_len seats ≤ 64) }
    requires fit { All (J.fits job.now) seats.items }
    requires takes { (k : ℕ) (i : I) → k < vec_len items → J.takes job.now k (slice_index_or items.items k i) }
    ensures seats { IfOk result (λ worked.
        (vec_len worked.seats ≡ vec_len seats) × All (J.fits job.now) worked.seats.items) }
    ensures count { IfOk result (λ worked.
        (vec_len worked.items ≡ vec_len items) × (vec_len worked.outs ≡ vec_len items)) }
    ensures right { IfOk result (λ worked.
        EachRight (J.right job.now) items.items worked.items.items worked.outs.items) }
    ensures weighs { IfOk result (λ worked.
        weigh J.weight worked.seats.items
        ≡ plus (weigh J.weight seats.items) (weigh J.out_weight worked.outs.items)) }
    ensures back { IfErr result (λ refused.
        (vec_len refused.0 ≡ vec_len seats) × All (J.fits job.now) refused.0.items) }
{
    let Ok((draw, mut all)) = in_slots(alloc, items) else {
        return Err((seats, Memory));
    };
    let Ok(mut workers) = Vec::with_capacity(alloc, seats.len()) else {
        return Err((seats, Memory));
    };
    set_up(alloc, &draw, &mut all, &mut seats, &mut workers);
    run_all(rt, alloc, pace, &draw, job, &mut workers);
    let Some(made) = collect(alloc, &draw, &mut all, &mut seats, workers) else {
        return Err((seats, Memory));
    };
    match apart(alloc, made) {
        Ok((items, outs)) => Ok(WorkedItems { seats, items, outs }),
        Err(memory) => Err((seats, memory)),
    }
}

// A draw of the items' indices, with each item in the slot of its index.
fn in_slots<I: Drop>(
    alloc: Global,
    items: Vec<I>,
) -> Result<(Draw<Option<I>>, DrawSeat<Option<I>>), Memory>
    requires few { vec_len items ≤ 2 ^ 32 }
    ensures count { IfOk result (λ r. r.0.count ≡ vec_len items) }
    ensures items { IfOk result (λ r. r.0.items ≡ map Some items.items) }
    ensures seat { IfOk result (λ r. r.1 ≡ first_seat r.0) }
{
    let count = items.len() as u64;
    let slots: Vec<Option<I>> = items.into_iter().map(Some).collect(alloc)?;
    match Draw::open(alloc, count, slots) {
        Ok(made) => Ok(made),
        Err(_) => Err(Memory),
    }
}

// Takes items and outs apart, in their order.
fn apart<I: Drop, T: Drop>(
    alloc: Global,
    mut made: Vec<(u64, (I, T))>,
) -> Result<(Vec<I>, Vec<T>), Memory>
    ensures items { IfOk result (λ r. r.0.items ≡ map (λ out. out.1.0) made.items) }
    ensures outs { IfOk result (λ r. r.1.items ≡ map (λ out. out.1.1) made.items) }
{
    let mut items = Vec::with_capacity(alloc, made.len())?;
    let mut outs = Vec::with_capacity(alloc, made.len())?;
    made.reverse();
    while let Some((_, (item, out))) = made.pop() {
        items.push_reserved(item);
        outs.push_reserved(out);
    }
    Ok((items, outs))
}

// Draws items and does the job for each, until none is left or memory is wanting.
fn run<R: Wait + Clock, I: Send + Drop, J: ItemJob<I>, P: Pace>(
    rt: &R,
    alloc: Global,
    pace: &P,
    number: u32,
    draw: &Draw<Option<I>>,
    job: &J,
    worker: &mut Worker<J::Seat, Option<I>, (I, J::Out)>,
)
    requires items { HasItems draw.now }
    requires ready { Ready (J.fits job.now) draw.now worker.old }
    requires takes { (k : ℕ) (i : I) → IsItem draw.now.items k i → J.takes job.now k i }
    ensures { HasWorkedItems (J.right job.now) (J.fits job.now) J.weight J.out_weight draw.now worker.old worker.new }
{
    for _ in rt.forever() {
        if worker.outs.reserve(1).is_err() {
            worker.failed = true;
            return;
        }
        pace.before_draw(number);
        let Some((index, mut item)) = draw.next_item(&mut worker.draw) else {
            return;
        };
        match job.turn(rt, alloc, &mut worker.seat, index, &mut item) {
            Ok(out) => worker.outs.push_reserved((index, (item, out))),
            Err(_) => {
                worker.failed = true;
                return;
            }
        }
    }
    unreachable!()
}

// Runs all workers beside each other.
fn run_all<R: Threads + Wait + Clock + Sync, I: Send + Drop, J: ItemJob<I>, P: Pace>(
    rt: &R,
    alloc: Global,
    pace: &P,
    draw: &Draw<Option<I>>,
    job: &J,
    workers: &mut Vec<Worker<J::Seat, Option<I>, (I, J::Out)>>,
)
    requires items { HasItems draw.now }
    requires some { (0 < vec_len workers.old) × (vec_len workers.old ≤ 64) }
    requires ready { All (Ready (J.fits job.now) draw.now) workers.old.items }
    requires takes { (k : ℕ) (i : I) → IsItem draw.now.items k i → J.takes job.now k i }
    ensures count { length workers.new.items ≡ length workers.old.items }
    ensures len { vec_len workers.new ≡ vec_len workers.old }
    ensures each { (i : ℕ) (d : Worker J.Seat _ (_ × J.Out)) → i < length workers.old.items
        → HasWorkedItems (J.right job.now) (J.fits job.now) J.weight J.out_weight draw.now
        (slice_index_or workers.old.items i d) (slice_index_or workers.new.items i d) }
{
    let threads = workers.len();
    let each = |place: usize, worker: &mut Worker<J::Seat, Option<I>, (I, J::Out)>|
        requires { (place < 64) × HasItems draw.now × Ready (J.fits job.now) draw.now worker.now
            × ((k : ℕ) (i : I) → IsItem draw.now.items k i → J.takes job.now k i) }
        ensures { let now = job.entry.now in
            HasWorkedItems (J.right now) (J.fits now) J.weight J.out_weight draw.entry.now
            worker.entry.now worker.exit.now }
    { run(rt, alloc, pace, place as u32, draw, job, worker) };
    thread::for_each_mut(rt, workers.as_mut_slice(), threads, &each);
}
