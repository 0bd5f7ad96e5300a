//! The mode `check`: a graph is accepted, and what a render of it takes is told.
ghost use Rattle.std.specs.Prelude.{◌≡◌, ℕ, List, Some, IfErr, OnOk};
ghost use Rattle.fx_outside.specs.Outside.{Files};
ghost use Rattle.fx_seq.specs.Filling.{IsQuiet};
ghost use Rattle.fx_words.specs.declared.order.Mode.TheVariants as mode;
ghost use Rattle.fx_modes.specs.Run.{Job};
ghost use Rattle.fx_modes.specs.Check.{HasChecked};
ghost use Rattle.fx_modes.specs.Ended.{calls, Ended};

use crate::graph::{graph_of, node_count, ordered};
use crate::order::{first_of, frame_count, last_of};
use crate::report::report_lines;
use crate::sources::count_wanted;
use fx_outside::{Library, Sink};
use fx_words::{Order, Report, RunFault};
use std::alloc::Global;

/// Accepts the graph, and reports what a render of it takes.
pub fn check<L: Library, O: Sink>(
    alloc: Global,
    order: &Order,
    library: &mut L,
    out: &mut O,
) -> Result<(), RunFault>
    requires { order.now.mode ≡ mode.Check }
    ensures checked { L.tells → OnOk result (Job (Some order.now) (L.file library.old)) }
    ensures told { L.tells → O.tells
        → OnOk result (HasChecked (Some order.now) (L.file library.old) (O.written out.old) (O.written out.new)) }
    ensures quiet { OnOk result
        (IsQuiet (L.faults library.old) (L.faults library.new) (L.last library.old) (L.last library.new)) }
    ensures quiet_out { OnOk result (O.faults out.new ≡ O.faults out.old) }
    // Whatever depot there is, a check leaves it.
    ensures ended { (depot : Files) (faults : ℕ) (name : List ℕ) →
        let last = L.last library.new in
        let fetches = calls (L.faults library.old) (L.faults library.new) (L.last library.old) last in
        let puts = calls faults faults name name in
        let writes : ℕ × ℕ = (O.faults out.old, O.faults out.new) in
        let files : Files × Files = (depot, depot) in
        let texts : List ℕ × List ℕ = (O.written out.old, O.written out.new) in
        IfErr result (λ e. Ended (Some mode.Check) L.tells (Unit {0}) O.tells (Some order.now) (L.file library.old)
        fetches puts writes files texts e) }
{
    let file = graph_of(alloc, &order.graph, library)?;
    let small = ordered(alloc, order, file);
    let first = first_of(&small.graph, order);
    let last = last_of(&small.graph, order);
    let report = Report::Check {
        nodes: node_count(&small.graph),
        frames: frame_count(first, last),
        wanted: count_wanted(alloc, &small.graph, first, last)?,
    };
    report_lines(alloc, out, &report)?;
    Ok(())
}
