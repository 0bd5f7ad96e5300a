//! A round of a pipeline: the source frames of a block of moments are read, the files of the block before it are made,
//! and those of the block before that are put, beside each other.
ghost use Rattle.std.specs.Prelude.{◌≡◌, ◌≢◌, ◌≤◌, [], length, true};
ghost use Rattle.fx_life.specs.Posts.{HasLife};
ghost use Rattle.fx_outside.specs.Outside.{SameFiles};
ghost use Rattle.fx_pipe.specs.Blocks.{Makes, Puts, fetched_in};
ghost use Rattle.fx_pipe.specs.Ends.{State, state_of};
ghost use Rattle.fx_pipe.specs.Reads.{IsSchedule, ReadsOn, kept_size};
ghost use Rattle.fx_shipped.specs.Shipped.{number_of};
ghost use Rattle.fx_modes.specs.Making.{AreDue, MayMake, Plan, next_of, seen_by};
ghost use Rattle.fx_modes.specs.Moments.{IsMomentFile};
ghost use Rattle.fx_modes.specs.Turns.{IsUnderWay, Moves};

use crate::making::Making;
use fx_life::Life;
use fx_outside::{Depot, Library, Pace};
use fx_pipe::{Line, Made, PipeEnd, PutStop, Reader, Schedule, put_block, read_on};
use fx_seq::{SeqFault, SourceFrame, Use};
use fx_shipped::Shipped;
use std::alloc::Global;
use std::collections::VecDeque;
use std::rt::Clock;
use std::sync::Wait;
use std::thread::Threads;
use std::{mem, thread};

/// One round. It is the end where a file was not put or memory was wanting; where both, the file is told.
pub(crate) fn round<R: Threads + Wait + Clock + Sync, L: Library + Send, D: Depot + Send, P: Pace>(
    rt: &R,
    alloc: Global,
    pace: &P,
    life: &Life<Shipped>,
    schedule: &Schedule<'_>,
    making: &mut Making,
    library: &mut L,
    depot: &mut D,
    line: &mut Line,
) -> Option<PipeEnd>
    requires schedule { IsSchedule schedule.now }
    requires blocks { schedule.now.ahead ≢ 0 }
    requires life { HasLife number_of making.old.scene.script.written life.now }
    requires way { let see = state_of L.file L.faults L.last D.file D.faults D.last seen_by next_of in
        let now = see library.old depot.old making.old in
        (p : Plan) × (start : State) × IsUnderWay L.tells D.tells p schedule.now start now line.old making.old }
    ensures moves { let see = state_of L.file L.faults L.last D.file D.faults D.last seen_by next_of in
        Moves L.tells D.tells schedule.now (see library.old depot.old making.old)
        (see library.new depot.new making.new) line.old line.new making.old making.new result }
{
    let mut to_make = mem::replace(&mut line.fetched, VecDeque::new(alloc));
    let mut to_put = mem::replace(&mut line.made, VecDeque::new(alloc));
    let mut spare = VecDeque::new(alloc);
    let (put, made) = beside(
        rt,
        alloc,
        pace,
        life,
        schedule,
        making,
        library,
        depot,
        &mut line.reader,
        &mut line.fault,
        &mut line.fetched,
        &mut to_make,
        &mut line.made,
        &mut to_put,
        &mut spare,
    );
    line.next = making.next;
    making.spare = spare;
    match put {
        Err(PutStop::Failed(name)) => return Some(PipeEnd::Put(name)),
        Err(PutStop::Memory) => return Some(PipeEnd::Memory),
        Ok(()) => {}
    }
    if made && !line.wants_memory() {
        None
    } else {
        Some(PipeEnd::Memory)
    }
}

// Reads a block, makes the one that was read before, and puts the one that was made before, beside each other. Where no
// thread can be made, it is one after another. The answer is how the puts ended, and whether all was made.
fn beside<R: Threads + Wait + Clock + Sync, L: Library + Send, D: Depot + Send, P: Pace>(
    rt: &R,
    alloc: Global,
    pace: &P,
    life: &Life<Shipped>,
    schedule: &Schedule<'_>,
    making: &mut Making,
    library: &mut L,
    depot: &mut D,
    reader: &mut Reader,
    fault: &mut Option<SeqFault>,
    fetched: &mut VecDeque<Vec<SourceFrame>>,
    to_make: &mut VecDeque<Vec<SourceFrame>>,
    made: &mut VecDeque<Made>,
    to_put: &mut VecDeque<Made>,
    spare: &mut VecDeque<Vec<u8>>,
) -> (Result<(), PutStop>, bool)
    requires schedule { IsSchedule schedule.now }
    requires reads { reader.old.next ≤ schedule.now.moments }
    requires few { kept_size schedule.now.uses.now reader.old.next reader.old.kept.items ≤ schedule.now.limit }
    requires fetched { fetched.old.items ≡ [] }
    requires life { HasLife number_of making.old.scene.script.written life.now }
    requires due { AreDue schedule.now.uses.now making.old.next (fetched_in to_make.old.items) }
    requires may { (p : Plan) × MayMake p schedule.now.uses.now (length (fetched_in to_make.old.items)) making.old }
    requires made { made.old.items ≡ [] }
    ensures reads { ReadsOn L.tells (L.file library.old) (L.faults library.old) (L.faults library.new)
        (L.last library.old) (L.last library.new) schedule.now reader.old reader.new fault.old fault.new
        (fetched_in fetched.new.items) }
    ensures same { L.tells → SameFiles (L.file library.old) (L.file library.new) }
    ensures puts { Puts D.tells to_put.old.items (D.file depot.old) (D.file depot.new) (D.faults depot.old)
        (D.faults depot.new) (D.last depot.old) (D.last depot.new) result.0 }
    ensures written { making.new.scene.script.written ≡ making.old.scene.script.written }
    ensures makes { (p : Plan) → MayMake p schedule.now.uses.now (length (fetched_in to_make.old.items)) making.old
        → Makes (IsMomentFile p.reel) making.old.next (fetched_in to_make.old.items) made.new.items
        (seen_by making.old) (seen_by making.new) making.new.next result.1 }
    ensures may { (p : Plan) → MayMake p schedule.now.uses.now (length (fetched_in to_make.old.items)) making.old
        → result.1 ≡ true → MayMake p schedule.now.uses.now 0 making.new }
{
    let uses = schedule.uses;
    let ((), both) = thread::join_mut(
        rt,
        &mut ||
            requires { IsSchedule schedule.now × (reader.now.next ≤ schedule.now.moments)
                × (kept_size schedule.now.uses.now reader.now.next reader.now.kept.items ≤ schedule.now.limit)
                × (fetched.now.items ≡ []) }
        { read_on(alloc, library, schedule, reader, fault, fetched) },
        &mut || -> (Result<(), PutStop>, bool)
            requires { HasLife number_of making.now.scene.script.written life.now
                × AreDue uses.now making.now.next (fetched_in to_make.now.items)
                × ((p : Plan) × MayMake p uses.now (length (fetched_in to_make.now.items)) making.now)
                × (made.now.items ≡ []) }
            ensures puts { Puts D.tells to_put.entry.now.items (D.file depot.entry.now) (D.file depot.exit.now)
                (D.faults depot.entry.now) (D.faults depot.exit.now) (D.last depot.entry.now) (D.last depot.exit.now)
                result.0 }
            ensures written { making.exit.now.scene.script.written ≡ making.entry.now.scene.script.written }
            ensures makes { (p : Plan)
                → MayMake p uses.entry.now (length (fetched_in to_make.entry.now.items)) making.entry.now
                → Makes (IsMomentFile p.reel) making.entry.now.next (fetched_in to_make.entry.now.items)
                made.exit.now.items (seen_by making.entry.now) (seen_by making.exit.now) making.exit.now.next result.1 }
            ensures may { (p : Plan)
                → MayMake p uses.entry.now (length (fetched_in to_make.entry.now.items)) making.entry.now
                → result.1 ≡ true → MayMake p uses.entry.now 0 making.exit.now }
        {
            put_and_make(
                rt, alloc, pace, life, uses, making, depot, to_make, made, to_put, spare,
            )
        },
    );
    both
}

// Puts a block and makes the one behind it, beside each other.
fn put_and_make<R: Threads + Wait + Clock + Sync, D: Depot + Send, P: Pace>(
    rt: &R,
    alloc: Global,
    pace: &P,
    life: &Life<Shipped>,
    uses: &[Use],
    making: &mut Making,
    depot: &mut D,
    to_make: &mut VecDeque<Vec<SourceFrame>>,
    made: &mut VecDeque<Made>,
    to_put: &mut VecDeque<Made>,
    spare: &mut VecDeque<Vec<u8>>,
) -> (Result<(), PutStop>, bool)
    requires life { HasLife number_of making.old.scene.script.written life.now }
    requires due { AreDue uses.now making.old.next (fetched_in to_make.old.items) }
    requires may { (p : Plan) × MayMake p uses.now (length (fetched_in to_make.old.items)) making.old }
    requires made { made.old.items ≡ [] }
    ensures puts { Puts D.tells to_put.old.items (D.file depot.old) (D.file depot.new) (D.faults depot.old)
        (D.faults depot.new) (D.last depot.old) (D.last depot.new) result.0 }
    ensures written { making.new.scene.script.written ≡ making.old.scene.script.written }
    ensures makes { (p : Plan) → MayMake p uses.now (length (fetched_in to_make.old.items)) making.old
        → Makes (IsMomentFile p.reel) making.old.next (fetched_in to_make.old.items) made.new.items
        (seen_by making.old) (seen_by making.new) making.new.next result.1 }
    ensures may { (p : Plan) → MayMake p uses.now (length (fetched_in to_make.old.items)) making.old
        → result.1 ≡ true → MayMake p uses.now 0 making.new }
{
    thread::join_mut(
        rt,
        &mut || put_block(alloc, depot, to_put, spare),
        &mut ||
            requires { HasLife number_of making.now.scene.script.written life.now
                × AreDue uses.now making.now.next (fetched_in to_make.now.items)
                × ((p : Plan) × MayMake p uses.now (length (fetched_in to_make.now.items)) making.now)
                × (made.now.items ≡ []) }
        { making.make_block(rt, alloc, pace, life, uses, to_make, made) },
    )
}
