//! The moments of a run: the source frames of each are read, its picture is rendered, and its file is put before the
//! next; or blocks of moments are, beside each other.
ghost use Rattle.std.specs.Prelude.{◌≡◌, ◌≢◌, ◌≤◌, ◌+◌, ◌*◌, length, [], Some, Ok, IfErr, IfNone, IfOk, IfSome, OnOk};
ghost use Rattle.fx_base.specs.declared.limits.TheConstants.{LAST_FRAME, MOST_SIDE};
ghost use Rattle.fx_life.specs.Posts.{HasLife};
ghost use Rattle.fx_seq.specs.Filling.{IsQuiet};
ghost use Rattle.fx_text.specs.declared.raw.TheConstants.{MOST_TAKES};
ghost use Rattle.fx_pipe.specs.declared.end.PipeEnd.TheVariants.{Done};
ghost use Rattle.fx_pipe.specs.Ends.{Ended, State, state_of};
ghost use Rattle.fx_pipe.specs.Reads.{IsSchedule};
ghost use Rattle.fx_scene.specs.Scenes.{graph_shown};
ghost use Rattle.fx_shipped.specs.Shipped.{number_of};
ghost use Rattle.fx_words.specs.declared.fault.RunFault.TheVariants.{Memory as OutOfMemory};
ghost use Rattle.fx_modes.specs.declared.sources.TheConstants.{MOST_BYTES};
ghost use Rattle.fx_modes.specs.Ended.{calls};
ghost use Rattle.fx_modes.specs.Graphs.{file_shown, frame_count, graph_under};
ghost use Rattle.fx_modes.specs.Making.{IsMaking, MayMake, Plan, next_of, seen_by};
ghost use Rattle.fx_modes.specs.Moments.{HasRendered, IsMomentFile, Stops};
ghost use Rattle.fx_modes.specs.Reels.{moments_in, reel_with};
ghost use Rattle.fx_modes.specs.Takes.{AreTakesOf};
ghost use Rattle.fx_modes.specs.Turns.{IsFinished, IsUnderWay, Moves, QuietAtPut};

use crate::crew::Crew;
use crate::graph::{GraphFile, ordered};
use crate::making::{Making, more_is_same};
use crate::order::{ahead_for, first_of, frame_count, last_of};
use crate::rounds::round;
use crate::sources::{MOST_BYTES, source_fault};
use fx_base::Memory;
use fx_base::limits::MOST_SIDE;
use fx_life::Life;
use fx_outside::{Depot, Library, Pace};
use fx_pipe::{Line, PipeEnd, PutStop, Schedule, put_block, read_on};
use fx_scene::Scene;
use fx_seq::{Store, Use};
use fx_shipped::{Shipped, all_effects};
use fx_takes::uses;
use fx_tile::TileCount;
use fx_words::{Order, RunFault};
use std::alloc::Global;
use std::collections::VecDeque;
use std::mem;
use std::rt::Clock;
use std::sync::Wait;
use std::thread::Threads;

/// Takes the effects of the program through their order of life, and meanwhile reads the source frames of moment after
/// moment, the frames of the graph as it is written and then of each take that is rendered, each just before the first
/// moment that wants it, renders the moment's picture and puts its file, by as many workers, over tiles and with a
/// directory as they are ordered. Where blocks of moments are ordered, one is read and one is put while the moments of
/// the block between them are rendered. A source frame is dropped after the last moment that wants it. Every sequence is
/// ended and every instance destroyed, whatever failed. With no frame there is no sequence. What landed and what was
/// found kept is told by the directories, once they are closed.
pub(crate) fn put_moments<
    R: Threads + Wait + Clock + Sync,
    L: Library + Send,
    D: Depot + Send,
    P: Pace,
>(
    rt: &R,
    alloc: Global,
    pace: &P,
    order: &Order,
    file: GraphFile,
    library: &mut L,
    depot: &mut D,
) -> Result<TileCount, RunFault>
    requires takes { AreTakesOf (graph_shown file.graph).nodes file.takes.list.items }
    ensures done { L.tells → graph_under (L.file library.old) order.now.graph ≡ Some (Ok (file_shown file))
        → IfOk result
        (HasRendered D.tells (Some order.now) (L.file library.old) (D.file depot.old) (D.file depot.new)) }
    ensures quiet_library { let last = L.last library.new in
        OnOk result (IsQuiet (L.faults library.old) (L.faults library.new) (L.last library.old) last) }
    ensures quiet_depot { let last = D.last depot.new in
        OnOk result (IsQuiet (D.faults depot.old) (D.faults depot.new) (D.last depot.old) last) }
    ensures stops { (L.tells → graph_under (L.file library.old) order.now.graph ≡ Some (Ok (file_shown file)))
        → IfErr result (Stops L.tells D.tells (Some order.now) (L.file library.old)
        (calls (L.faults library.old) (L.faults library.new) (L.last library.old) (L.last library.new))
        (calls (D.faults depot.old) (D.faults depot.new) (D.last depot.old) (D.last depot.new))
        (D.file depot.old) (D.file depot.new)) }
{
    let file = ordered(alloc, order, file);
    let first = first_of(&file.graph, order);
    let last = last_of(&file.graph, order);
    let Ok(uses) = uses(alloc, &file.graph, &file.takes, first, last) else {
        return Err(RunFault::Memory);
    };
    if last < first {
        return Ok(TileCount::none());
    }
    more_is_same(&file.graph);
    let moments = moment_count(first, last, &file);
    let Ok((mut making, life)) = begun(alloc, order, file, first, last) else {
        return Err(RunFault::Memory);
    };
    let end = put_each(
        rt,
        alloc,
        pace,
        &life,
        &uses,
        moments,
        ahead_for(order.mode, order.ahead),
        &mut making,
        library,
        depot,
    );
    life.finish();
    finished(alloc, making, end)
}

// How many moments there are: the frames from `first` to `last`, as the graph is written and at each take.
fn moment_count(first: u32, last: u32, file: &GraphFile) -> u64
    requires last { last ≤ LAST_FRAME }
    requires few { length file.now.takes.list.items ≤ MOST_TAKES }
    ensures { result ≡ frame_count first last * (length file.now.takes.list.items + 1) }
{
    frame_count(first, last) * (file.takes.list.len() as u64 + 1)
}

// What stands before the first moment of the frames from `first` to `last`, and the life of the graph's effects. The
// scene remembers all takes before the directories get its name.
fn begun(
    alloc: Global,
    order: &Order,
    file: GraphFile,
    first: u32,
    last: u32,
) -> Result<(Making, Life<Shipped>), Memory>
    requires takes { AreTakesOf (graph_shown file.graph).nodes file.takes.list.items }
    requires order { first ≤ last }
    requires last { last ≤ LAST_FRAME }
    ensures written { IfOk result (λ r. r.0.scene.script.written ≡ graph_shown file.graph) }
    ensures life { IfOk result (λ r. HasLife number_of r.0.scene.script.written r.1) }
    ensures making { let reel = reel_with order.now.scale (graph_shown file.graph) file.takes.list.items first last in
        (p : Plan) → p.reel ≡ reel → p.side ≡ order.now.tile → p.cache ≡ order.now.cache
        → IfOk result (λ r. IsMaking p r.0) }
    ensures next { IfOk result (λ r. r.0.next ≡ 0) }
    ensures seen { IfOk result (λ r. seen_by r.0 ≡ []) }
{
    let GraphFile { graph, takes } = file;
    let (mut scene, permit) = Scene::new(graph, Store::empty(alloc), 0);
    scene.remember(&takes);
    let crew = Crew::of(alloc, &scene, permit, order)?;
    let life = Life::start(alloc, scene.graph(), all_effects(alloc)?, first, last)?;
    let making = Making {
        scene,
        crew: Some(crew),
        sum: TileCount::none(),
        scale: order.scale,
        seen: Vec::new(alloc),
        takes: VecDeque::from(takes.list),
        file: None,
        first,
        last,
        frame: first,
        next: 0,
        spare: VecDeque::new(alloc),
    };
    Ok((making, life))
}

// Reads, makes and puts moment after moment, or block after block of `ahead` moments, up to the first that is not read
// or not put.
fn put_each<R: Threads + Wait + Clock + Sync, L: Library + Send, D: Depot + Send, P: Pace>(
    rt: &R,
    alloc: Global,
    pace: &P,
    life: &Life<Shipped>,
    uses: &[Use],
    moments: u64,
    ahead: u32,
    making: &mut Making,
    library: &mut L,
    depot: &mut D,
) -> PipeEnd
    requires life { HasLife number_of making.old.scene.script.written life.now }
    requires may { (p : Plan) × (moments_in p.reel ≡ moments) × MayMake p uses.now 0 making.old }
    requires next { making.old.next ≡ 0 }
    ensures written { making.new.scene.script.written ≡ making.old.scene.script.written }
    ensures ends { (p : Plan) → moments_in p.reel ≡ moments → MayMake p uses.now 0 making.old
        → (let see = state_of L.file L.faults L.last D.file D.faults D.last seen_by next_of in
        Ended L.tells D.tells (IsMomentFile p.reel)
        (record { uses = uses.entry; moments = moments; limit = MOST_BYTES; most_side = MOST_SIDE; ahead = ahead })
        (see library.old depot.old making.old) (see library.new depot.new making.new) result) }
    ensures quiet { let last = L.last library.new in
        ahead ≡ 0 → QuietAtPut (L.faults library.old) (L.faults library.new) (L.last library.old) last result }
    ensures making { (p : Plan) → moments_in p.reel ≡ moments → MayMake p uses.now 0 making.old
        → result ≡ Done → IsMaking p making.new }
{
    let schedule = Schedule {
        uses,
        moments,
        limit: MOST_BYTES,
        most_side: MOST_SIDE,
        ahead,
    };
    let mut line = Line::new(alloc);
    for _ in rt.forever() {
        if line.is_over(moments) {
            return line.end();
        }
        let end = step(
            rt, alloc, pace, life, &schedule, making, library, depot, &mut line,
        );
        if let Some(end) = end {
            return end;
        }
    }
    unreachable!()
}

// One moment after another, or one round where blocks are ordered.
fn step<R: Threads + Wait + Clock + Sync, L: Library + Send, D: Depot + Send, P: Pace>(
    rt: &R,
    alloc: Global,
    pace: &P,
    life: &Life<Shipped>,
    schedule: &Schedule<'_>,
    making: &mut Making,
    library: &mut L,
    depot: &mut D,
    line: &mut Line,
) -> Option<PipeEnd>
    requires schedule { IsSchedule schedule.now }
    requires life { HasLife number_of making.old.scene.script.written life.now }
    requires way { let see = state_of L.file L.faults L.last D.file D.faults D.last seen_by next_of in
        let now = see library.old depot.old making.old in
        (p : Plan) × (start : State) × IsUnderWay L.tells D.tells p schedule.now start now line.old making.old }
    ensures moves { let see = state_of L.file L.faults L.last D.file D.faults D.last seen_by next_of in
        Moves L.tells D.tells schedule.now (see library.old depot.old making.old)
        (see library.new depot.new making.new) line.old line.new making.old making.new result }
    ensures quiet { let see = state_of L.file L.faults L.last D.file D.faults D.last seen_by next_of in
        let old = see library.old depot.old making.old in let last = L.last library.new in
        schedule.now.ahead ≡ 0 → (p : Plan) (start : State)
        → IsUnderWay L.tells D.tells p schedule.now start old line.old making.old
        → IfSome result (QuietAtPut start.read_faults (L.faults library.new) start.read_last last) }
{
    if schedule.ahead == 0 {
        turn(
            rt, alloc, pace, life, schedule, making, library, depot, line,
        )
    } else {
        round(
            rt, alloc, pace, life, schedule, making, library, depot, line,
        )
    }
}

// One moment: its frames are read, its file is made, and it is put. It is the end where the file was not put or memory
// was wanting.
fn turn<R: Threads + Wait + Clock + Sync, L: Library, D: Depot, P: Pace>(
    rt: &R,
    alloc: Global,
    pace: &P,
    life: &Life<Shipped>,
    schedule: &Schedule<'_>,
    making: &mut Making,
    library: &mut L,
    depot: &mut D,
    line: &mut Line,
) -> Option<PipeEnd>
    requires schedule { IsSchedule schedule.now }
    requires single { schedule.now.ahead ≡ 0 }
    requires life { HasLife number_of making.old.scene.script.written life.now }
    requires way { let see = state_of L.file L.faults L.last D.file D.faults D.last seen_by next_of in
        let now = see library.old depot.old making.old in
        (p : Plan) × (start : State) × IsUnderWay L.tells D.tells p schedule.now start now line.old making.old }
    ensures moves { let see = state_of L.file L.faults L.last D.file D.faults D.last seen_by next_of in
        Moves L.tells D.tells schedule.now (see library.old depot.old making.old)
        (see library.new depot.new making.new) line.old line.new making.old making.new result }
    ensures quiet { let see = state_of L.file L.faults L.last D.file D.faults D.last seen_by next_of in
        let old = see library.old depot.old making.old in let last = L.last library.new in
        (p : Plan) (start : State) → IsUnderWay L.tells D.tells p schedule.now start old line.old making.old
        → IfSome result (QuietAtPut start.read_faults (L.faults library.new) start.read_last last) }
{
    read_on(
        alloc,
        library,
        schedule,
        &mut line.reader,
        &mut line.fault,
        &mut line.fetched,
    );
    if line.wants_memory() {
        return Some(PipeEnd::Memory);
    }
    let made = making.make_block(
        rt,
        alloc,
        pace,
        life,
        schedule.uses,
        &mut line.fetched,
        &mut line.made,
    );
    if !made {
        return Some(PipeEnd::Memory);
    }
    line.next = making.next;
    let mut files = mem::replace(&mut line.made, VecDeque::new(alloc));
    match put_block(alloc, depot, &mut files, &mut making.spare) {
        Ok(()) => None,
        Err(PutStop::Failed(name)) => Some(PipeEnd::Put(name)),
        Err(PutStop::Memory) => Some(PipeEnd::Memory),
    }
}

// The count of a run whose moments ended so, or its fault.
fn finished(alloc: Global, making: Making, end: PipeEnd) -> Result<TileCount, RunFault>
    requires making { end ≡ Done → (p : Plan) × IsMaking p making }
    ensures { IsFinished making.scene.script.written end making.sum result }
{
    // Asking it tells the proof that the nodes of the take have the names of those as written.
    making.scene.is_played();
    match end {
        PipeEnd::Done => closed(alloc, making),
        PipeEnd::Source(fault) => Err(source_fault(alloc, making.scene.graph(), fault)),
        PipeEnd::Put(name) => Err(RunFault::Write(name)),
        PipeEnd::Memory => Err(RunFault::Memory),
    }
}

// The count of a run whose files were all put. What landed and what was found kept is told by the directories, once they
// are closed.
fn closed(alloc: Global, making: Making) -> Result<TileCount, RunFault>
    requires making { (p : Plan) × IsMaking p making }
    ensures count { IfOk result (λ count. count ≡ making.sum) }
    ensures memory { IfErr result (λ e. e ≡ OutOfMemory) }
{
    let Making { crew, sum, .. } = making;
    let Some(crew) = crew else {
        return Err(RunFault::Memory);
    };
    match crew.close(alloc) {
        Ok(totals) => Ok(TileCount {
            landed: totals.landed,
            hits: totals.hits,
            ..sum
        }),
        Err(Memory) => Err(RunFault::Memory),
    }
}
