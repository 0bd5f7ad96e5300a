//! The pipeline.
ghost use Rattle.std.specs.Prelude.{◌≡◌, ◌+◌, ◌≤◌, ◌<◌, ◌^◌, ℕ, IfSome, IfNone, length};
ghost use Rattle.fx_base.specs.declared.limits.TheConstants.{MOST_SIDE};
ghost use Rattle.fx_pipe.specs.Blocks.{fetched_in};
ghost use Rattle.fx_pipe.specs.Ends.{Ended, FlowsIn, State, state_of};
ghost use Rattle.fx_pipe.specs.Moments.{AreDue};
ghost use Rattle.fx_pipe.specs.Reads.{IsSchedule, due_places, kept_size};

use crate::Stage;
use crate::beside::beside;
use crate::end::PipeEnd;
use crate::line::Line;
use crate::put::PutStop;
use crate::schedule::Schedule;
use fx_outside::{Depot, Library};
use fx_seq::Use;
use std::alloc::Global;
use std::collections::VecDeque;
use std::mem;
use std::rt::Clock;
use std::sync::Wait;
use std::thread::Threads;

/// Reads the source frames of moment after moment, hands them to the stage, and puts the file that it makes of each.
/// The moments are cut in order into blocks of `ahead` moments, the last perhaps shorter; 0 is as 1. In each round a
/// block is read, the block before is made, and the one before that is put, beside each other. Frames are read within
/// `limit` bytes and sides of `most_side` pixels, as `read_due` reads them; those that wait for their moment are not
/// counted. After a moment whose frames were not read no more is read, and those before it are still made and put:
/// the end is `Source`. After a file that was not put, or want of memory, the call ends with that round, by `Put` or
/// `Memory`. It is `Done` where every file was put. Where each node's frame stands once among the uses,
/// `laws::reading_is_accepting` tells which frame is refused by what is held at its moment.
pub fn pipe<R: Threads + Wait + Clock + Sync, L: Library + Send, D: Depot + Send, S: Stage>(
    rt: &R,
    alloc: Global,
    library: &mut L,
    depot: &mut D,
    uses: &[Use],
    moments: u64,
    limit: u64,
    most_side: u32,
    ahead: u32,
    stage: &mut S,
) -> PipeEnd
    requires limit { limit ≤ 2 ^ 62 }
    requires side { most_side ≤ MOST_SIDE }
    requires next { S.next stage.old ≡ 0 }
    requires due { (m : ℕ) → m < moments → S.due (S.base stage.old) m ≡ due_places uses.now m }
    ensures base { S.base stage.new ≡ S.base stage.old }
    ensures ends { let see = state_of L.file L.faults L.last D.file D.faults D.last S.seen S.next in
        Ended L.tells D.tells (S.right (S.base stage.old))
        (record { uses = uses.entry; moments = moments; limit = limit; most_side = most_side; ahead = ahead })
        (see library.old depot.old stage.old) (see library.new depot.new stage.new) result }
{
    let schedule = Schedule {
        uses,
        moments,
        limit,
        most_side,
        ahead,
    };
    let mut line = Line::new(alloc);
    for _ in rt.forever() {
        if line.is_over(moments) {
            return line.end();
        }
        let end = round(rt, alloc, library, depot, &schedule, stage, &mut line);
        if let Some(end) = end {
            return end;
        }
    }
    unreachable!()
}

// One round. It is the end where a file was not put or memory was wanting.
fn round<R: Threads + Wait + Clock + Sync, L: Library + Send, D: Depot + Send, S: Stage>(
    rt: &R,
    alloc: Global,
    library: &mut L,
    depot: &mut D,
    schedule: &Schedule<'_>,
    stage: &mut S,
    line: &mut Line,
) -> Option<PipeEnd>
    requires schedule { IsSchedule schedule.now }
    requires reads { line.old.reader.next ≤ schedule.now.moments }
    requires few { let reader = line.old.reader in
        kept_size schedule.now.uses.now reader.next reader.kept.items ≤ schedule.now.limit }
    requires next { line.old.next ≡ S.next stage.old }
    requires count { line.old.next + length (fetched_in line.old.fetched.items) < 2 ^ 64 }
    requires due { AreDue (S.due (S.base stage.old)) line.old.next (fetched_in line.old.fetched.items) }
    ensures base { S.base stage.new ≡ S.base stage.old }
    ensures flows { let see = state_of L.file L.faults L.last D.file D.faults D.last S.seen S.next in
        let right = S.right (S.base stage.old) in
        (start : State)
        → FlowsIn L.tells D.tells right schedule.now start (see library.old depot.old stage.old) line.old
        → IfNone result
        (FlowsIn L.tells D.tells right schedule.now start (see library.new depot.new stage.new) line.new) }
    ensures ends { let see = state_of L.file L.faults L.last D.file D.faults D.last S.seen S.next in
        let right = S.right (S.base stage.old) in
        (start : State)
        → FlowsIn L.tells D.tells right schedule.now start (see library.old depot.old stage.old) line.old
        → IfSome result (Ended L.tells D.tells right schedule.now start (see library.new depot.new stage.new)) }
{
    let mut to_make = mem::replace(&mut line.fetched, VecDeque::new(alloc));
    let mut to_put = mem::replace(&mut line.made, VecDeque::new(alloc));
    let count = to_make.len() as u64;
    let (put, made) = beside(
        rt,
        alloc,
        library,
        depot,
        schedule,
        stage,
        line.next,
        &mut line.reader,
        &mut line.fault,
        &mut line.fetched,
        &mut to_make,
        &mut line.made,
        &mut to_put,
    );
    line.next += count;
    match put {
        Err(PutStop::Failed(name)) => return Some(PipeEnd::Put(name)),
        Err(PutStop::Memory) => return Some(PipeEnd::Memory),
        Ok(()) => {}
    }
    if made && !line.wants_memory() {
        None
    } else {
        Some(PipeEnd::Memory)
    }
}
