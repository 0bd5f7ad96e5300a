//! The top call: words, and then the steps of what they order.
ghost use Rattle.std.specs.Prelude.{◌≡◌, ◌≢◌, ◌⊎◌, ℕ, List, Some, None, IsTrue, map, string_bytes, IfOk, IfErr, OnOk};
ghost use Rattle.fx_outside.specs.Outside.{AddsPrefix, Files, HasRisen};
ghost use Rattle.fx_seq.specs.Filling.{IsQuiet};
ghost use Rattle.fx_words.specs.Ordered.{Ordered};
ghost use Rattle.fx_words.specs.Texts.{fault_text};
ghost use Rattle.fx_words.specs.declared.order.Mode.TheVariants.{Check, Bench, Migrate, Plan};
ghost use Rattle.fx_words.specs.declared.fault.RunFault.{RunFault};
ghost use Rattle.fx_words.specs.declared.fault.RunFault.TheVariants.{Memory as OutOfMemory, Usage as OtherWords};
ghost use Rattle.fx_words.specs.Order.{order_of};
ghost use Rattle.fx_app.specs.Words.{mode_in, Orders, OrdersFiles};
ghost use Rattle.fx_modes.specs.Texts.{status_of, GainsLine};
ghost use Rattle.fx_modes.specs.Run.{ahead_in, is_status, Job, IsAccepted, NamesNoGraph, HasPutAll, HasTold};
ghost use Rattle.fx_modes.specs.Check.{HasChecked};
ghost use Rattle.fx_modes.specs.Bench.{made_for, HasBenched};
ghost use Rattle.fx_modes.specs.Migrate.{Migration, HasMigrated, HasToldNodes, NamesSlash};
ghost use Rattle.fx_modes.specs.Plans.{HasPlanned};
ghost use Rattle.fx_modes.specs.Ended.{calls, Ended};

use crate::tell::tell;
use fx_modes::bench::bench;
use fx_modes::check::check;
use fx_modes::migrate::migrate;
use fx_modes::plan::plan;
use fx_modes::render::render;
use fx_outside::{Depot, Library, Pace, Sink};
use fx_words::{Mode, Order, RunFault, WordFault, read_words};
use std::alloc::Global;
use std::rt::Clock;
use std::sync::Wait;
use std::thread::Threads;

/// Does what the words order: it renders the frames of a graph and puts their files, as it is written alone or also at
/// each of its takes, checks a graph, writes it again in format 2, renders in memory what is made of a number, or tells
/// which tiles the frames of a graph demand. The answer is the exit status of the program: 0 done, 1 words that are no
/// use of the command, 2 a graph that is refused, 3 a source frame that is refused, 4 a fetch that failed, 5 a put that
/// failed, 6 want of memory, 7 a report that could not be written. Each other than 0 writes its line on `err`. A check
/// fetches the graph alone and puts nothing, a migration puts one file, a bench does neither, and a plan fetches what
/// a render fetches and puts nothing. Frames are rendered one after another, each in tiles of the side that is ordered,
/// by as many workers as are ordered; as many tiles are kept as are ordered. Where blocks of frames are ordered, the
/// source frames of one are read and the files of one are put while the frames of the block between them are rendered;
/// the fault that is told is the first in the order without blocks. These four options change no byte of a file. Each
/// worker calls `pace.before_draw` before each of its draws.
pub fn run<
    R: Threads + Wait + Clock + Sync,
    L: Library + Send,
    D: Depot + Send,
    O: Sink,
    F: Sink,
    P: Pace,
>(
    rt: &R,
    alloc: Global,
    words: &[String],
    library: &mut L,
    depot: &mut D,
    out: &mut O,
    err: &mut F,
    pace: &P,
) -> u8
    // A render, of takes too, at status 0 was accepted; the depot has gained the file of each frame's picture, take by
    // take, and nothing else; the report was written.
    ensures accepted { OrdersFiles (map string_bytes words.now) → L.tells → result ≡ 0
        → IsAccepted (order_of (map string_bytes words.now)) (L.file library.old) }
    ensures frames { OrdersFiles (map string_bytes words.now) → L.tells → D.tells → result ≡ 0
        → HasPutAll (order_of (map string_bytes words.now)) (L.file library.old) (D.file depot.old) (D.file depot.new) }
    ensures reports { OrdersFiles (map string_bytes words.now) → L.tells → O.tells → result ≡ 0
        → HasTold (order_of (map string_bytes words.now)) (L.file library.old) (O.written out.old) (O.written out.new) }
    // Where it is accepted, and no count of faults rose, the status is 0 or want of memory.
    ensures completes { OrdersFiles (map string_bytes words.now) → L.tells
        → IsAccepted (order_of (map string_bytes words.now)) (L.file library.old)
        → (HasRisen (L.faults library.old) (L.faults library.new) → ⊥)
        → (HasRisen (D.faults depot.old) (D.faults depot.new) → ⊥)
        → (HasRisen (O.faults out.old) (O.faults out.new) → ⊥)
        → (result ≡ 0) ⊎ (result ≡ 6) }

    // A check at status 0 has accepted the graph, and its report was written. It leaves the depot as it was, refuses no
    // source frame, and reads nothing but the graph.
    ensures checked { Orders (map string_bytes words.now) Check → L.tells → result ≡ 0
        → Job (order_of (map string_bytes words.now)) (L.file library.old) }
    ensures check_reports { Orders (map string_bytes words.now) Check → L.tells → O.tells → result ≡ 0
        → HasChecked (order_of (map string_bytes words.now)) (L.file library.old)
        (O.written out.old) (O.written out.new) }
    ensures check_keeps { Orders (map string_bytes words.now) Check → depot.new ≡ depot.old }
    ensures check_statuses { Orders (map string_bytes words.now) Check → (result ≢ 3) × (result ≢ 5) }
    ensures check_reads { Orders (map string_bytes words.now) Check → result ≡ 4 → (order : Ordered)
        × (order_of (map string_bytes words.now) ≡ Some order) × (L.last library.new ≡ order.graph) }
    ensures check_completes { Orders (map string_bytes words.now) Check → L.tells
        → Job (order_of (map string_bytes words.now)) (L.file library.old)
        → (HasRisen (L.faults library.old) (L.faults library.new) → ⊥)
        → (HasRisen (O.faults out.old) (O.faults out.new) → ⊥)
        → (result ≡ 0) ⊎ (result ≡ 6) }

    // A bench at status 0 has rendered what is made of the number, and its report was written. It leaves library and
    // depot as they were.
    ensures benched { Orders (map string_bytes words.now) Bench → result ≡ 0
        → IsAccepted (order_of (map string_bytes words.now)) (made_for (order_of (map string_bytes words.now))) }
    ensures bench_reports { Orders (map string_bytes words.now) Bench → O.tells → result ≡ 0
        → HasBenched (order_of (map string_bytes words.now)) (O.written out.old) (O.written out.new) }
    ensures bench_keeps { Orders (map string_bytes words.now) Bench
        → (library.new ≡ library.old) × (depot.new ≡ depot.old) }
    ensures bench_statuses { Orders (map string_bytes words.now) Bench → (result ≢ 4) × (result ≢ 5) }
    ensures bench_completes { Orders (map string_bytes words.now) Bench
        → IsAccepted (order_of (map string_bytes words.now)) (made_for (order_of (map string_bytes words.now)))
        → (HasRisen (O.faults out.old) (O.faults out.new) → ⊥)
        → (result ≡ 0) ⊎ (result ≡ 6) }

    // A migration at status 0 has accepted the graph, and the depot has gained its text in format 2, which is the same
    // graph, and nothing else; its report was written. It reads nothing but the graph, and refuses no source frame.
    // Where a name of format 1 has a slash, the graph is refused.
    ensures migratable { Orders (map string_bytes words.now) Migrate → L.tells → result ≡ 0
        → Migration (order_of (map string_bytes words.now)) (L.file library.old) }
    ensures migrated { Orders (map string_bytes words.now) Migrate → L.tells → D.tells → result ≡ 0
        → HasMigrated (order_of (map string_bytes words.now)) (L.file library.old)
        (D.file depot.old) (D.file depot.new) }
    ensures migrate_reports { Orders (map string_bytes words.now) Migrate → L.tells → O.tells → result ≡ 0
        → HasToldNodes (order_of (map string_bytes words.now)) (L.file library.old)
        (O.written out.old) (O.written out.new) }
    ensures migrate_statuses { Orders (map string_bytes words.now) Migrate → result ≢ 3 }
    ensures migrate_reads { Orders (map string_bytes words.now) Migrate → result ≡ 4 → (order : Ordered)
        × (order_of (map string_bytes words.now) ≡ Some order) × (L.last library.new ≡ order.graph) }
    ensures migrate_completes { Orders (map string_bytes words.now) Migrate → L.tells
        → Migration (order_of (map string_bytes words.now)) (L.file library.old)
        → (HasRisen (L.faults library.old) (L.faults library.new) → ⊥)
        → (HasRisen (D.faults depot.old) (D.faults depot.new) → ⊥)
        → (HasRisen (O.faults out.old) (O.faults out.new) → ⊥)
        → (result ≡ 0) ⊎ (result ≡ 6) }
    ensures refuses_slash { Orders (map string_bytes words.now) Migrate → L.tells
        → NamesSlash (order_of (map string_bytes words.now)) (L.file library.old)
        → (HasRisen (L.faults library.old) (L.faults library.new) → ⊥) → (result ≡ 2) ⊎ (result ≡ 6) }

    // A plan at status 0 was accepted, and its report was written: what each frame demands, exactly and in order. It
    // reads what a render reads, and leaves the depot as it was.
    ensures planned { Orders (map string_bytes words.now) Plan → L.tells → result ≡ 0
        → IsAccepted (order_of (map string_bytes words.now)) (L.file library.old) }
    ensures plan_reports { Orders (map string_bytes words.now) Plan → L.tells → O.tells → result ≡ 0
        → HasPlanned (order_of (map string_bytes words.now)) (L.file library.old)
        (O.written out.old) (O.written out.new) }
    ensures plan_keeps { Orders (map string_bytes words.now) Plan → depot.new ≡ depot.old }
    ensures plan_statuses { Orders (map string_bytes words.now) Plan → result ≢ 5 }
    ensures plan_completes { Orders (map string_bytes words.now) Plan → L.tells
        → IsAccepted (order_of (map string_bytes words.now)) (L.file library.old)
        → (HasRisen (L.faults library.old) (L.faults library.new) → ⊥)
        → (HasRisen (O.faults out.old) (O.faults out.new) → ⊥)
        → (result ≡ 0) ⊎ (result ≡ 6) }

    // At status 0 no line is written. Each other status has a fault, which the outside shows, which has its cause,
    // leaves what it leaves, and is told on `err`. No count of faults rose but where the fault tells of it, at 6 too.
    ensures silent { result ≡ 0 → F.written err.new ≡ F.written err.old }
    ensures ends { let asked = order_of (map string_bytes words.now) in let last = L.last library.new in
        let fetches = calls (L.faults library.old) (L.faults library.new) (L.last library.old) last in
        let puts = calls (D.faults depot.old) (D.faults depot.new) (D.last depot.old) (D.last depot.new) in
        let writes : ℕ × ℕ = (O.faults out.old, O.faults out.new) in
        let files : Files × Files = (D.file depot.old, D.file depot.new) in
        let texts : List ℕ × List ℕ = (O.written out.old, O.written out.new) in
        result ≢ 0 → (fault : RunFault) × ((result ≡ status_of fault) ⊎ (result ≡ 6))
        × Ended (mode_in asked) L.tells D.tells O.tells asked (L.file library.old) fetches puts writes files texts fault
        × (F.tells → result ≢ 6
        → GainsLine (fault_text fault) (F.written err.old) (F.written err.new) (F.faults err.old) (F.faults err.new)) }
    ensures memory_line { F.tells → result ≡ 6
        → AddsPrefix (fault_text OutOfMemory) (F.written err.old) (F.written err.new) }
    // But at 4 and 6 no fetch failed, and but at 5 and 6 no put. Where later moments are read ahead, a fetch may have
    // failed at 5 too.
    ensures fetches { result ≢ 4 → result ≢ 6 → (result ≡ 5 → ahead_in (order_of (map string_bytes words.now)) ≡ 0)
        → IsQuiet (L.faults library.old) (L.faults library.new) (L.last library.old) (L.last library.new) }
    ensures puts { result ≢ 5 → result ≢ 6
        → IsQuiet (D.faults depot.old) (D.faults depot.new) (D.last depot.old) (D.last depot.new) }
    // But at 6 and 7 no write of the report failed.
    ensures writes { result ≢ 6 → result ≢ 7 → O.faults out.new ≡ O.faults out.old }
    ensures causes_usage { (result ≡ 1) → order_of (map string_bytes words.now) ≡ None }
    ensures causes_read { result ≡ 4 → HasRisen (L.faults library.old) (L.faults library.new) }
    ensures causes_write { result ≡ 5 → HasRisen (D.faults depot.old) (D.faults depot.new) }
    ensures causes_report { result ≡ 7 → HasRisen (O.faults out.old) (O.faults out.new) }
    ensures refuses_words { order_of (map string_bytes words.now) ≡ None → (result ≡ 1) ⊎ (result ≡ 6) }
    ensures refuses_graph { (Orders (map string_bytes words.now) Bench → ⊥) → L.tells
        → NamesNoGraph (order_of (map string_bytes words.now)) (L.file library.old)
        → (HasRisen (L.faults library.old) (L.faults library.new) → ⊥) → (result ≡ 2) ⊎ (result ≡ 6) }
    ensures statuses { IsTrue (is_status result) }
{
    match outcome(rt, alloc, pace, words, library, depot, out) {
        Ok(()) => 0,
        Err(fault) => tell(alloc, err, &fault),
    }
}

// The steps of what the words order, up to the first that fails.
fn outcome<R: Threads + Wait + Clock + Sync, L: Library + Send, D: Depot + Send, O: Sink, P: Pace>(
    rt: &R,
    alloc: Global,
    pace: &P,
    words: &[String],
    library: &mut L,
    depot: &mut D,
    out: &mut O,
) -> Result<(), RunFault>
    ensures accepted { OrdersFiles (map string_bytes words.now) → L.tells
        → OnOk result (IsAccepted (order_of (map string_bytes words.now)) (L.file library.old)) }
    ensures done { let asked = order_of (map string_bytes words.now) in
        OrdersFiles (map string_bytes words.now) → L.tells → D.tells
        → OnOk result (HasPutAll asked (L.file library.old) (D.file depot.old) (D.file depot.new)) }
    ensures told { let asked = order_of (map string_bytes words.now) in
        OrdersFiles (map string_bytes words.now) → L.tells → O.tells
        → OnOk result (HasTold asked (L.file library.old) (O.written out.old) (O.written out.new)) }
    ensures checked { Orders (map string_bytes words.now) Check → L.tells
        → OnOk result (Job (order_of (map string_bytes words.now)) (L.file library.old)) }
    ensures check_told { let asked = order_of (map string_bytes words.now) in
        Orders (map string_bytes words.now) Check → L.tells → O.tells
        → OnOk result (HasChecked asked (L.file library.old) (O.written out.old) (O.written out.new)) }
    ensures check_keeps { Orders (map string_bytes words.now) Check → depot.new ≡ depot.old }
    ensures benched { let asked = order_of (map string_bytes words.now) in
        Orders (map string_bytes words.now) Bench → OnOk result (IsAccepted asked (made_for asked)) }
    ensures bench_told { let asked = order_of (map string_bytes words.now) in
        Orders (map string_bytes words.now) Bench → O.tells
        → OnOk result (HasBenched asked (O.written out.old) (O.written out.new)) }
    ensures bench_keeps { Orders (map string_bytes words.now) Bench
        → (library.new ≡ library.old) × (depot.new ≡ depot.old) }
    ensures migratable { let asked = order_of (map string_bytes words.now) in
        Orders (map string_bytes words.now) Migrate → L.tells → OnOk result (Migration asked (L.file library.old)) }
    ensures migrated { let asked = order_of (map string_bytes words.now) in
        Orders (map string_bytes words.now) Migrate → L.tells → D.tells
        → OnOk result (HasMigrated asked (L.file library.old) (D.file depot.old) (D.file depot.new)) }
    ensures migrate_told { let asked = order_of (map string_bytes words.now) in
        Orders (map string_bytes words.now) Migrate → L.tells → O.tells
        → OnOk result (HasToldNodes asked (L.file library.old) (O.written out.old) (O.written out.new)) }
    ensures planned { Orders (map string_bytes words.now) Plan → L.tells
        → OnOk result (IsAccepted (order_of (map string_bytes words.now)) (L.file library.old)) }
    ensures plan_told { let asked = order_of (map string_bytes words.now) in
        Orders (map string_bytes words.now) Plan → L.tells → O.tells
        → OnOk result (HasPlanned asked (L.file library.old) (O.written out.old) (O.written out.new)) }
    ensures plan_keeps { Orders (map string_bytes words.now) Plan → depot.new ≡ depot.old }
    ensures quiet_library { OnOk result
        (IsQuiet (L.faults library.old) (L.faults library.new) (L.last library.old) (L.last library.new)) }
    ensures quiet_depot { OnOk result
        (IsQuiet (D.faults depot.old) (D.faults depot.new) (D.last depot.old) (D.last depot.new)) }
    ensures quiet_out { OnOk result (O.faults out.new ≡ O.faults out.old) }
    ensures ended { let asked = order_of (map string_bytes words.now) in let last = L.last library.new in
        let fetches = calls (L.faults library.old) (L.faults library.new) (L.last library.old) last in
        let puts = calls (D.faults depot.old) (D.faults depot.new) (D.last depot.old) (D.last depot.new) in
        let writes : ℕ × ℕ = (O.faults out.old, O.faults out.new) in
        let files : Files × Files = (D.file depot.old, D.file depot.new) in
        let texts : List ℕ × List ℕ = (O.written out.old, O.written out.new) in
        IfErr result (λ e. Ended (mode_in asked) L.tells D.tells O.tells asked (L.file library.old)
        fetches puts writes files texts e) }
    ensures other_words { order_of (map string_bytes words.now) ≡ None
        → IfErr result (λ e. (e ≡ OtherWords) ⊎ (e ≡ OutOfMemory)) × OnOk result ⊥ }
{
    let order = ordered(alloc, words)?;
    match order.mode {
        Mode::Render | Mode::Takes => render(rt, alloc, pace, &order, library, depot, out),
        Mode::Check => check(alloc, &order, library, out),
        Mode::Bench => bench(rt, alloc, pace, &order, out),
        Mode::Migrate => migrate(alloc, &order, library, depot, out),
        Mode::Plan => plan(alloc, &order, library, out),
    }
}

// What the words order.
fn ordered(alloc: Global, words: &[String]) -> Result<Order, RunFault>
    ensures ok { IfOk result (λ order. order_of (map string_bytes words.now) ≡ Some order) }
    ensures err { IfErr result
        (λ e. ((e ≡ OtherWords) × (order_of (map string_bytes words.now) ≡ None)) ⊎ (e ≡ OutOfMemory)) }
{
    match read_words(alloc, words) {
        Ok(order) => Ok(order),
        Err(WordFault::Usage) => Err(RunFault::Usage),
        Err(WordFault::Memory) => Err(RunFault::Memory),
    }
}
