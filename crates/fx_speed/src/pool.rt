//! Numbers that are drawn, and workers that do a piece of work for each and share nothing.
ghost use Rattle.std.specs.Prelude.{◌≡◌, ◌≤◌, [], IfOk, vec_len};

use fx_base::Memory;
use fx_outside::FreePace;
use fx_pool::{Draw, DrawSeat, Job, work};
use std::alloc::{AllocError, Global};
use std::rt::Clock;
use std::sync::Wait;
use std::thread::Threads;

// How many steps a piece of work has.
const STEPS: u32 = 100_000;

// A piece of work for each number, by arithmetic alone.
struct Steps;

impl Job for Steps {
    type Seat = ();

    type Out = u64;

    ghost fits = { λ _ _. Unit {0} };

    ghost takes = { λ _ _. Unit {0} };

    ghost right = { λ _ _ _. Unit {0} };

    ghost weight = { λ _. (0, 0) };

    ghost out_weight = { λ _. (0, 0) };

    fn turn<R: Wait + Clock>(
        &self,
        _rt: &R,
        _alloc: Global,
        _seat: &mut (),
        index: u64,
    ) -> Result<u64, Memory> {
        let mut state = index;
        for _ in 0..STEPS {
            state = state
                .wrapping_mul(6_364_136_223_846_793_005)
                .wrapping_add(1);
        }
        Ok(state)
    }
}

/// Draws so many numbers. Their sum.
pub(crate) fn draw_alone(alloc: Global, count: u32) -> Result<u64, Memory> {
    let (draw, mut seat) = Draw::new(alloc, u64::from(count))?;
    Ok(sum_of(&draw, &mut seat, count))
}

fn sum_of(draw: &Draw, seat: &mut DrawSeat, count: u32) -> u64
    requires draw { seat.old.draw ≡ draw.now }
    requires none_yet { seat.old.past ≡ [] }
{
    let mut sum = 0u64;
    for _ in 0..count {
        match draw.next(seat) {
            Some(number) => sum = sum.wrapping_add(number),
            None => return sum,
        }
    }
    sum
}

/// Does a piece of work for each number below the count, with so many workers. The sum of the outs.
pub(crate) fn work_together<R: Wait + Clock + Threads + Sync>(
    rt: &R,
    alloc: Global,
    workers: usize,
    count: u32,
) -> Result<u64, Memory>
    requires { (1 ≤ workers) × (workers ≤ 64) }
{
    let seats = empty_seats(alloc, workers)?;
    match work(rt, alloc, &FreePace, u64::from(count), seats, &Steps) {
        Ok(worked) => Ok(sum_of_outs(&worked.outs)),
        Err((_, memory)) => Err(memory),
    }
}

fn sum_of_outs(outs: &[(u64, u64)]) -> u64 {
    let mut sum = 0u64;
    for out in outs {
        sum = sum.wrapping_add(out.1);
    }
    sum
}

fn empty_seats(alloc: Global, count: usize) -> Result<Vec<()>, AllocError>
    ensures { IfOk result (λ seats. vec_len seats ≡ count) }
{
    let mut seats = Vec::new(alloc);
    for _ in 0..count {
        seats.push(())?;
    }
    Ok(seats)
}
