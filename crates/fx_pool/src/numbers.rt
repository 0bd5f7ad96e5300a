//! Workers that draw the numbers and do the job for each.
ghost use Rattle.std.specs.Prelude.{◌≡◌, ℕ, ◌^◌, ◌<◌, ◌≤◌, All, IfErr, IfOk, length, slice_index_or, vec_len};
ghost use Rattle.fx_pool.specs.Weights.{plus, weigh};
ghost use Rattle.fx_pool.specs.Working.{HasEnded, IsFresh, HasWorked, Ready, numbers_below, numbers_of};

use crate::draw::Draw;
use crate::job::Job;
use crate::worker::{Worker, collect, set_up};
use fx_base::Memory;
use fx_outside::Pace;
use std::alloc::Global;
use std::rt::Clock;
use std::sync::Wait;
use std::thread;
use std::thread::Threads;

/// What came of a job for each number: the seats, and an out for each number, by rising number.
#[derive(Drop)]
pub struct Worked<S, T> {
    /// As many as were handed in.
    pub seats: Vec<S>,
    /// Each number below the count, rising, with what its turn made.
    pub outs: Vec<(u64, T)>,
}

/// Does the job for each number below `count`, all of which it takes, by one worker for each seat. Each
/// worker calls `pace.before_draw` with its number before each draw. Where no thread can be made the
/// workers run one after another. `Memory` comes where memory is wanting, once all workers have ended, and
/// hands the seats back.
pub fn work<R: Threads + Wait + Clock + Sync, J: Job, P: Pace>(
    rt: &R,
    alloc: Global,
    pace: &P,
    count: u64,
    mut seats: Vec<J::Seat>,
    job: &J,
) -> Result<Worked<J::Seat, J::Out>, (Vec<J::Seat>, Memory)>
    requires few { count ≤ 2 ^ 32 }
    requires seats { (1 ≤ vec_len seats) × (vec_len seats ≤ 64) }
    requires fit { All (J.fits job.now) seats.items }
    requires takes { (k : ℕ) → k < count → J.takes job.now k }
    ensures seats { IfOk result (λ worked.
        (vec_len worked.seats ≡ vec_len seats) × All (J.fits job.now) worked.seats.items) }
    ensures numbers { IfOk result (λ worked. numbers_of worked.outs.items ≡ numbers_below count) }
    ensures right { IfOk result (λ worked. All (λ out. J.right job.now out.0 out.1) worked.outs.items) }
    ensures weighs { IfOk result (λ worked.
        weigh J.weight worked.seats.items
        ≡ plus (weigh J.weight seats.items) (weigh (λ out. J.out_weight out.1) worked.outs.items)) }
    ensures back { IfErr result (λ refused.
        (vec_len refused.0 ≡ vec_len seats) × All (J.fits job.now) refused.0.items) }
{
    let Ok((draw, mut all)) = Draw::new(alloc, count) else {
        return Err((seats, Memory));
    };
    let Ok(mut workers) = Vec::with_capacity(alloc, seats.len()) else {
        return Err((seats, Memory));
    };
    set_up(alloc, &draw, &mut all, &mut seats, &mut workers);
    run_all(rt, alloc, pace, &draw, job, &mut workers);
    match collect(alloc, &draw, &mut all, &mut seats, workers) {
        Some(outs) => Ok(Worked { seats, outs }),
        None => Err((seats, Memory)),
    }
}

// Draws numbers and does the job for each, until none is left or memory is wanting.
fn run<R: Wait + Clock, J: Job, P: Pace>(
    rt: &R,
    alloc: Global,
    pace: &P,
    number: u32,
    draw: &Draw,
    job: &J,
    worker: &mut Worker<J::Seat, (), J::Out>,
)
    requires ready { Ready (J.fits job.now) draw.now worker.old }
    requires takes { (k : ℕ) → k < draw.now.count → J.takes job.now k }
    ensures { HasWorked (J.fits job.now) (J.right job.now) J.weight J.out_weight draw.now worker.old worker.new }
{
    for _ in rt.forever() {
        if worker.outs.reserve(1).is_err() {
            worker.failed = true;
            return;
        }
        pace.before_draw(number);
        let Some(index) = draw.next(&mut worker.draw) else {
            return;
        };
        match job.turn(rt, alloc, &mut worker.seat, index) {
            Ok(out) => worker.outs.push_reserved((index, out)),
            Err(_) => {
                worker.failed = true;
                return;
            }
        }
    }
    unreachable!()
}

// Runs all workers beside each other.
fn run_all<R: Threads + Wait + Clock + Sync, J: Job, P: Pace>(
    rt: &R,
    alloc: Global,
    pace: &P,
    draw: &Draw,
    job: &J,
    workers: &mut Vec<Worker<J::Seat, (), J::Out>>,
)
    requires some { (0 < vec_len workers.old) × (vec_len workers.old ≤ 64) }
    requires ready { All (Ready (J.fits job.now) draw.now) workers.old.items }
    requires takes { (k : ℕ) → k < draw.now.count → J.takes job.now k }
    ensures count { length workers.new.items ≡ length workers.old.items }
    ensures len { vec_len workers.new ≡ vec_len workers.old }
    ensures each { (i : ℕ) (d : Worker J.Seat (Unit {0}) J.Out) → i < length workers.old.items
        → HasWorked (J.fits job.now) (J.right job.now) J.weight J.out_weight draw.now
        (slice_index_or workers.old.items i d) (slice_index_or workers.new.items i d) }
{
    let threads = workers.len();
    let each = |place: usize, worker: &mut Worker<J::Seat, (), J::Out>|
        requires { (place < 64) × Ready (J.fits job.now) draw.now worker.now
            × ((k : ℕ) → k < draw.now.count → J.takes job.now k) }
        ensures { let now = job.entry.now in
            HasWorked (J.fits now) (J.right now) J.weight J.out_weight draw.entry.now worker.entry.now worker.exit.now }
    { run(rt, alloc, pace, place as u32, draw, job, worker) };
    thread::for_each_mut(rt, workers.as_mut_slice(), threads, &each);
}
