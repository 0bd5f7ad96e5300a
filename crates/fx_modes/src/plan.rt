//! The mode `plan`: what each frame of a graph demands is told, and nothing is rendered.
ghost use Rattle.std.specs.Prelude.{◌≡◌, ℕ, List, Some, IfErr, OnOk};
ghost use Rattle.fx_outside.specs.Outside.{Files};
ghost use Rattle.fx_seq.specs.Filling.{IsQuiet};
ghost use Rattle.fx_words.specs.declared.order.Mode.TheVariants as mode;
ghost use Rattle.fx_modes.specs.Run.{IsAccepted};
ghost use Rattle.fx_modes.specs.Plans.{HasPlanned};
ghost use Rattle.fx_modes.specs.Ended.{calls, Ended};

use crate::graph::graph_of;
use crate::planning::plans_of;
use crate::report::report_lines;
use fx_outside::{Library, Sink};
use fx_words::{Order, Report, RunFault};
use std::alloc::Global;

/// Reads the graph and the source frames of its frames, as a render does, and reports what each frame demands.
pub fn plan<L: Library, O: Sink>(
    alloc: Global,
    order: &Order,
    library: &mut L,
    out: &mut O,
) -> Result<(), RunFault>
    requires { order.now.mode ≡ mode.Plan }
    ensures accepted { L.tells → OnOk result (IsAccepted (Some order.now) (L.file library.old)) }
    ensures told { L.tells → O.tells
        → OnOk result (HasPlanned (Some order.now) (L.file library.old) (O.written out.old) (O.written out.new)) }
    ensures quiet { OnOk result
        (IsQuiet (L.faults library.old) (L.faults library.new) (L.last library.old) (L.last library.new)) }
    ensures quiet_out { OnOk result (O.faults out.new ≡ O.faults out.old) }
    // Whatever depot there is, a plan leaves it.
    ensures ended { (depot : Files) (faults : ℕ) (name : List ℕ) →
        let last = L.last library.new in
        let fetches = calls (L.faults library.old) (L.faults library.new) (L.last library.old) last in
        let puts = calls faults faults name name in
        let writes : ℕ × ℕ = (O.faults out.old, O.faults out.new) in
        let files : Files × Files = (depot, depot) in
        let texts : List ℕ × List ℕ = (O.written out.old, O.written out.new) in
        IfErr result (λ e. Ended (Some mode.Plan) L.tells (Unit {0}) O.tells (Some order.now) (L.file library.old)
        fetches puts writes files texts e) }
{
    let file = graph_of(alloc, &order.graph, library)?;
    let frames = plans_of(alloc, order, file, library)?;
    report_lines(alloc, out, &Report::Plan { frames })?;
    Ok(())
}
