//! One round: the three parts beside each other.
ghost use Rattle.std.specs.Prelude.{◌≡◌, ◌+◌, ◌≤◌, ◌<◌, ◌^◌, [], length};
ghost use Rattle.fx_outside.specs.Outside.{SameFiles};
ghost use Rattle.fx_pipe.specs.Blocks.{Makes, Puts, fetched_in};
ghost use Rattle.fx_pipe.specs.Moments.{AreDue};
ghost use Rattle.fx_pipe.specs.Reads.{IsSchedule, ReadsOn, kept_size};

use crate::make::make_block;
use crate::put::{PutStop, put_block};
use crate::read::{Reader, read_on};
use crate::schedule::Schedule;
use crate::{Made, Stage};
use fx_outside::{Depot, Library};
use fx_seq::{SeqFault, SourceFrame};
use std::alloc::Global;
use std::collections::VecDeque;
use std::rt::Clock;
use std::sync::Wait;
use std::thread;
use std::thread::Threads;

/// Reads a block, makes the one that was read before, and puts the one that was made before, beside each other. Where
/// no thread can be made, it is one after another. The answer is how the puts ended, and whether all was made.
pub(crate) fn beside<
    R: Threads + Wait + Clock + Sync,
    L: Library + Send,
    D: Depot + Send,
    S: Stage,
>(
    rt: &R,
    alloc: Global,
    library: &mut L,
    depot: &mut D,
    schedule: &Schedule<'_>,
    stage: &mut S,
    next: u64,
    reader: &mut Reader,
    fault: &mut Option<SeqFault>,
    fetched: &mut VecDeque<Vec<SourceFrame>>,
    to_make: &mut VecDeque<Vec<SourceFrame>>,
    made: &mut VecDeque<Made>,
    to_put: &mut VecDeque<Made>,
) -> (Result<(), PutStop>, bool)
    requires schedule { IsSchedule schedule.now }
    requires reads { reader.old.next ≤ schedule.now.moments }
    requires few { kept_size schedule.now.uses.now reader.old.next reader.old.kept.items ≤ schedule.now.limit }
    requires fetched { fetched.old.items ≡ [] }
    requires next { next ≡ S.next stage.old }
    requires count { next + length (fetched_in to_make.old.items) < 2 ^ 64 }
    requires due { AreDue (S.due (S.base stage.old)) next (fetched_in to_make.old.items) }
    requires made { made.old.items ≡ [] }
    ensures reads { ReadsOn L.tells (L.file library.old) (L.faults library.old) (L.faults library.new)
        (L.last library.old) (L.last library.new) schedule.now reader.old reader.new fault.old fault.new
        (fetched_in fetched.new.items) }
    ensures same { L.tells → SameFiles (L.file library.old) (L.file library.new) }
    ensures puts { Puts D.tells to_put.old.items (D.file depot.old) (D.file depot.new) (D.faults depot.old)
        (D.faults depot.new) (D.last depot.old) (D.last depot.new) result.0 }
    ensures base { S.base stage.new ≡ S.base stage.old }
    ensures makes { Makes (S.right (S.base stage.old)) next (fetched_in to_make.old.items) made.new.items
        (S.seen stage.old) (S.seen stage.new) (S.next stage.new) result.1 }
{
    let ((), both) = thread::join_mut(
        rt,
        &mut ||
            requires { IsSchedule schedule.now × (reader.now.next ≤ schedule.now.moments)
                × (kept_size schedule.now.uses.now reader.now.next reader.now.kept.items ≤ schedule.now.limit)
                × (fetched.now.items ≡ []) }
        { read_on(alloc, library, schedule, reader, fault, fetched) },
        &mut || -> (Result<(), PutStop>, bool)
            requires { (next ≡ S.next stage.now) × (next + length (fetched_in to_make.now.items) < 2 ^ 64)
                × AreDue (S.due (S.base stage.now)) next (fetched_in to_make.now.items) × (made.now.items ≡ []) }
            ensures puts { Puts D.tells to_put.entry.now.items (D.file depot.entry.now) (D.file depot.exit.now)
                (D.faults depot.entry.now) (D.faults depot.exit.now) (D.last depot.entry.now) (D.last depot.exit.now)
                result.0 }
            ensures base { S.base stage.exit.now ≡ S.base stage.entry.now }
            ensures makes { Makes (S.right (S.base stage.entry.now)) next (fetched_in to_make.entry.now.items)
                made.exit.now.items (S.seen stage.entry.now) (S.seen stage.exit.now) (S.next stage.exit.now) result.1 }
        { put_and_make(rt, alloc, depot, stage, next, to_make, made, to_put) },
    );
    both
}

// Puts a block and makes the one behind it, beside each other.
fn put_and_make<R: Threads + Wait + Clock + Sync, D: Depot + Send, S: Stage>(
    rt: &R,
    alloc: Global,
    depot: &mut D,
    stage: &mut S,
    next: u64,
    to_make: &mut VecDeque<Vec<SourceFrame>>,
    made: &mut VecDeque<Made>,
    to_put: &mut VecDeque<Made>,
) -> (Result<(), PutStop>, bool)
    requires next { next ≡ S.next stage.old }
    requires count { next + length (fetched_in to_make.old.items) < 2 ^ 64 }
    requires due { AreDue (S.due (S.base stage.old)) next (fetched_in to_make.old.items) }
    requires made { made.old.items ≡ [] }
    ensures puts { Puts D.tells to_put.old.items (D.file depot.old) (D.file depot.new) (D.faults depot.old)
        (D.faults depot.new) (D.last depot.old) (D.last depot.new) result.0 }
    ensures base { S.base stage.new ≡ S.base stage.old }
    ensures makes { Makes (S.right (S.base stage.old)) next (fetched_in to_make.old.items) made.new.items
        (S.seen stage.old) (S.seen stage.new) (S.next stage.new) result.1 }
{
    let mut spare = VecDeque::new(alloc);
    thread::join_mut(
        rt,
        &mut || put_block(alloc, depot, to_put, &mut spare),
        &mut ||
            requires { (next ≡ S.next stage.now) × (next + length (fetched_in to_make.now.items) < 2 ^ 64)
                × AreDue (S.due (S.base stage.now)) next (fetched_in to_make.now.items) × (made.now.items ≡ []) }
        { make_block(rt, alloc, stage, next, to_make, made) },
    )
}
