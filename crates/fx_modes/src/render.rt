//! The modes `render` and `takes`: the frames of a graph, each put under its name, as the graph is written and, in mode
//! `takes`, then at each of its takes.
ghost use Rattle.std.specs.Prelude.{◌≡◌, ℕ, List, Some, IfErr, OnOk};
ghost use Rattle.fx_outside.specs.Outside.{Files};
ghost use Rattle.fx_seq.specs.Filling.{IsQuiet};
ghost use Rattle.fx_words.specs.declared.order.Mode.TheVariants as mode;
ghost use Rattle.fx_modes.specs.Run.{IsAccepted, HasPutAll, HasTold};
ghost use Rattle.fx_modes.specs.Ended.{calls, Ended};

use crate::graph::{graph_of, take_count};
use crate::moments::put_moments;
use crate::order::{first_of, frame_count, last_of};
use crate::report::report_frames;
use fx_outside::{Depot, Library, Pace, Sink};
use fx_words::{Order, RunFault};
use std::alloc::Global;
use std::rt::Clock;
use std::sync::Wait;
use std::thread::Threads;

/// Renders the graph's frames, and those of the takes that are ordered, and puts them.
pub fn render<
    R: Threads + Wait + Clock + Sync,
    L: Library + Send,
    D: Depot + Send,
    O: Sink,
    P: Pace,
>(
    rt: &R,
    alloc: Global,
    pace: &P,
    order: &Order,
    library: &mut L,
    depot: &mut D,
    out: &mut O,
) -> Result<(), RunFault>
    ensures accepted { L.tells → OnOk result (IsAccepted (Some order.now) (L.file library.old)) }
    ensures done { L.tells → D.tells
        → OnOk result (HasPutAll (Some order.now) (L.file library.old) (D.file depot.old) (D.file depot.new)) }
    ensures told { L.tells → O.tells
        → OnOk result (HasTold (Some order.now) (L.file library.old) (O.written out.old) (O.written out.new)) }
    ensures quiet_library { OnOk result
        (IsQuiet (L.faults library.old) (L.faults library.new) (L.last library.old) (L.last library.new)) }
    ensures quiet_depot { OnOk result
        (IsQuiet (D.faults depot.old) (D.faults depot.new) (D.last depot.old) (D.last depot.new)) }
    ensures quiet_out { OnOk result (O.faults out.new ≡ O.faults out.old) }
    ensures ended { let last = L.last library.new in
        let fetches = calls (L.faults library.old) (L.faults library.new) (L.last library.old) last in
        let puts = calls (D.faults depot.old) (D.faults depot.new) (D.last depot.old) (D.last depot.new) in
        let writes : ℕ × ℕ = (O.faults out.old, O.faults out.new) in
        let files : Files × Files = (D.file depot.old, D.file depot.new) in
        let texts : List ℕ × List ℕ = (O.written out.old, O.written out.new) in
        IfErr result (λ e. Ended (Some mode.Render) L.tells D.tells O.tells (Some order.now) (L.file library.old)
        fetches puts writes files texts e) }
{
    let file = graph_of(alloc, &order.graph, library)?;
    let takes = take_count(order.mode, &file);
    let frames = takes * frame_count(first_of(&file.graph, order), last_of(&file.graph, order));
    let count = put_moments(rt, alloc, pace, order, file, library, depot)?;
    report_frames(alloc, out, order.mode, takes, frames, count)?;
    Ok(())
}
