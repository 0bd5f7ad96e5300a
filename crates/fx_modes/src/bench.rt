//! The mode `bench`: what is made of a number is rendered in memory, and what its files come to is told.
ghost use Rattle.std.specs.Prelude.{◌≡◌, ◌≤◌, ◌+◌, ◌*◌, ℕ, List, map, length, sum, Some, IsTrue, IfOk, IfErr, OnOk};
ghost use Rattle.std.specs.List.{flat_map, range_with_len};
ghost use Rattle.fx_base.specs.Pattern.{name_of};
ghost use Rattle.fx_base.specs.declared.limits.TheConstants.{LAST_FRAME};
ghost use Rattle.fx_outside.specs.Outside.{Files};
ghost use Rattle.fx_outside.specs.Sure.{sure_library_files, sure_depot_files};
ghost use Rattle.fx_bench.specs.Frames.{file_of};
ghost use Rattle.fx_scene.specs.Scenes.{graph_shown};
ghost use Rattle.fx_words.specs.Order.{is_bench_number};
ghost use Rattle.fx_words.specs.Texts.{report_text};
ghost use Rattle.fx_words.specs.declared.order.Mode.TheVariants as mode;
ghost use Rattle.fx_words.specs.declared.fault.RunFault.TheVariants.{Memory as OutOfMemory};
ghost use Rattle.fx_modes.specs.Graphs.{frame_count};
ghost use Rattle.fx_modes.specs.Bench.{number_of, made_files, made_of, IsBenchReport, HasBenched};
ghost use Rattle.fx_modes.specs.Ended.{calls, Ended};
ghost use Rattle.fx_modes.specs.Run.{IsAccepted};
ghost use Rattle.fx_modes.specs.Steps.{HasFiles, IsMakingFault, bytes_under, AreShort};
ghost use Rattle.fx_modes.specs.declared.graph.GraphFailure.TheVariants.{Memory as NoGraph};

use crate::graph::{GraphFailure, graph_of};
use crate::moments::put_moments;
use crate::order::{first_of, frame_count, last_of};
use crate::report::report_lines;
use fx_base::{Memory, Name, Pattern};
use fx_bench::make;
use fx_graph::Graph;
use fx_outside::{Pace, Sink, SureDepot, SureLibrary};
use fx_shipped::Shipped;
use fx_words::{Order, Report, RunFault};
use std::alloc::Global;
use std::rt::Clock;
use std::sync::Wait;
use std::thread::Threads;

/// As many bytes as a file of a frame may have.
pub(crate) const MOST_FILE_BYTES: u64 = 1 << 30;

/// Renders what is made of a number, in memory, and reports what was put.
pub fn bench<R: Threads + Wait + Clock + Sync, O: Sink, P: Pace>(
    rt: &R,
    alloc: Global,
    pace: &P,
    order: &Order,
    out: &mut O,
) -> Result<(), RunFault>
    requires number { IsTrue (is_bench_number order.now.graph) }
    requires in_mode { order.now.mode ≡ mode.Bench }
    ensures benched { OnOk result (IsAccepted (Some order.now) (made_of order.now.graph)) }
    ensures told { O.tells → OnOk result (HasBenched (Some order.now) (O.written out.old) (O.written out.new)) }
    ensures quiet_out { OnOk result (O.faults out.new ≡ O.faults out.old) }
    // Whatever library and depot there are, a bench leaves them.
    ensures ended { (library depot : Files) (reads puts : ℕ) (read put : List ℕ) →
        let writes : ℕ × ℕ = (O.faults out.old, O.faults out.new) in
        let files : Files × Files = (depot, depot) in
        let texts : List ℕ × List ℕ = (O.written out.old, O.written out.new) in
        IfErr result (λ e. Ended (Some mode.Bench) (Unit {0}) (Unit {0}) O.tells (Some order.now) library
        (calls reads reads read read) (calls puts puts put put) writes files texts e) }
{
    let report = bench_report(rt, alloc, pace, order)?;
    report_lines(alloc, out, &report)?;
    Ok(())
}

// What a bench reports. The graph that is made is rendered as every other.
fn bench_report<R: Threads + Wait + Clock + Sync, P: Pace>(
    rt: &R,
    alloc: Global,
    pace: &P,
    order: &Order,
) -> Result<Report, RunFault>
    requires number { IsTrue (is_bench_number order.now.graph) }
    requires in_mode { order.now.mode ≡ mode.Bench }
    ensures ok { IfOk result (λ report. IsBenchReport (Some order.now) (report_text report)) }
    ensures cause { IfErr result (λ e. IsMakingFault (Some order.now) e) }
{
    let mut library = made_of(alloc, &order.graph)?;
    let mut depot = SureDepot::new(alloc);
    let file = graph_of(alloc, &order.graph, &mut library)?;
    let first = first_of(&file.graph, order);
    let last = last_of(&file.graph, order);
    let names = file_names(alloc, &file.graph, first, last)?;
    put_moments(rt, alloc, pace, order, file, &mut library, &mut depot)?;
    let totals = totals_of(&names, &depot);
    Ok(Report::Bench {
        frames: frame_count(first, last),
        size: totals.size,
        sum: totals.sum,
    })
}

// What is made of the number that a word writes: its graph under the word, and the graph's source frames.
fn made_of(alloc: Global, word: &Name) -> Result<SureLibrary, GraphFailure>
    requires { IsTrue (is_bench_number word.now) }
    ensures ok { IfOk result (λ library. (name : List ℕ) → sure_library_files library name ≡ made_of word.now name) }
    ensures err { IfErr result (λ e. e ≡ NoGraph) }
{
    let files = files_of(alloc, word)?;
    Ok(SureLibrary::new(alloc, files))
}

fn files_of(alloc: Global, word: &Name) -> Result<Vec<(Name, Vec<u8>)>, Memory>
    requires { IsTrue (is_bench_number word.now) }
    ensures { IfOk result (λ files. map file_of files.items ≡ made_files word.now) }
{
    let made = make(alloc, number_of(word.text()))?;
    let mut files = made.frames;
    files.insert(0, (word.copied(alloc)?, made.graph))?;
    Ok(files)
}

// The number that one to six digits write.
fn number_of(word: &str) -> u32
    requires { IsTrue (is_bench_number word.now) }
    ensures value { result ≡ number_of word.now }
    ensures small { result ≤ 999999 }
{
    word.parse::<u32>().unwrap_or(0)
}

// The names of the files of the frames from `first` to `last`.
fn file_names(
    alloc: Global,
    graph: &Graph<Shipped>,
    first: u32,
    last: u32,
) -> Result<Vec<Name>, RunFault>
    requires { last ≤ LAST_FRAME }
    ensures names { let n = frame_count first last in
        IfOk result (λ names. names.items ≡ map (name_of (graph_shown graph.now).file) (range_with_len first n)) }
    ensures files { HasFiles (graph_shown graph.now) }
    ensures err { IfErr result (λ e. e ≡ OutOfMemory) }
{
    match names_of(alloc, &graph.file, first, last) {
        Ok(names) => Ok(names),
        Err(Memory) => Err(RunFault::Memory),
    }
}

fn names_of(alloc: Global, file: &Pattern, first: u32, last: u32) -> Result<Vec<Name>, Memory>
    requires { last ≤ LAST_FRAME }
    ensures { let n = frame_count first last in
        IfOk result (λ names. names.items ≡ map (name_of file.now) (range_with_len first n)) }
{
    let mut names = Vec::new(alloc);
    for frame in first..last + 1 {
        names.push(file.name(alloc, frame)?)?;
    }
    Ok(names)
}

// How many bytes files have together, and the sum of these bytes.
#[derive(Clone, Copy, Debug, PartialEq, Eq)]
struct Totals {
    size: u64,
    sum: u64,
}

// The totals of the files of these names.
fn totals_of(names: &[Name], depot: &SureDepot) -> Totals
    requires few { length names.now ≤ LAST_FRAME + 1 }
    requires short { AreShort (sure_depot_files depot.now) }
    ensures size { result.size ≡ length (flat_map (bytes_under (sure_depot_files depot.now)) names.now) }
    ensures sum { result.sum ≡ sum (flat_map (bytes_under (sure_depot_files depot.now)) names.now) }
{
    let mut totals = Totals { size: 0, sum: 0 };
    for name in names {
        totals = with_file(totals, bytes_of(depot, name));
    }
    totals
}

// The bytes of the file of a name: none where there is no such file.
fn bytes_of<'a>(depot: &'a SureDepot, name: &Name) -> &'a [u8]
    ensures { result.now ≡ bytes_under (sure_depot_files depot.now) name.now }
{
    depot.get(name.text()).unwrap_or(&[])
}

// With the bytes of one file more.
fn with_file(totals: Totals, bytes: &[u8]) -> Totals
    requires short { length bytes.now ≤ MOST_FILE_BYTES }
    requires size { totals.size ≤ MOST_FILE_BYTES * LAST_FRAME }
    requires sum { totals.sum ≤ 255 * (MOST_FILE_BYTES * LAST_FRAME) }
    ensures size { result.size ≡ totals.size + length bytes.now }
    ensures sum { result.sum ≡ totals.sum + sum bytes.now }
    ensures small { sum bytes.now ≤ 255 * length bytes.now }
{
    Totals {
        size: totals.size + bytes.len() as u64,
        sum: totals.sum + sum_of(bytes),
    }
}

fn sum_of(bytes: &[u8]) -> u64
    requires { length bytes.now ≤ MOST_FILE_BYTES }
    ensures value { result ≡ sum bytes.now }
    ensures small { result ≤ 255 * length bytes.now }
{
    let mut sum = 0u64;
    for byte in bytes {
        sum += u64::from(*byte);
    }
    sum
}
