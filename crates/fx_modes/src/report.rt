//! The report of a run.
ghost use Rattle.std.specs.Prelude.{◌≡◌, ◌++◌, IfOk, IfErr, IfSome, OnOk};
ghost use Rattle.fx_words.specs.Texts.{report_text};
ghost use Rattle.fx_modes.specs.Tiles.{report_of};
ghost use Rattle.fx_modes.specs.Steps.{report_fault, BeginsReport, ReportRose};

use fx_base::Memory;
use fx_outside::{PutFault, Sink};
use fx_tile::TileCount;
use fx_words::{Mode, Report, RunFault, report_text};
use std::alloc::Global;

/// Why the report was not written.
#[derive(Clone, Copy, Debug, PartialEq, Eq)]
pub(crate) enum ReportFailure {
    /// Writing failed.
    Report,
    /// Memory was wanting.
    Memory,
}

impl From<Memory> for ReportFailure {
    ghost use Rattle.fx_modes.specs.declared.report.ReportFailure.TheVariants.{Memory as OutOfMemory};

    ghost from_gives = { λ _ e. e ≡ OutOfMemory };

    fn from(_: Memory) -> ReportFailure {
        ReportFailure::Memory
    }
}

impl From<ReportFailure> for RunFault {
    ghost from_gives = { λ failure fault. fault ≡ report_fault failure };

    fn from(failure: ReportFailure) -> RunFault {
        match failure {
            ReportFailure::Report => RunFault::Report,
            ReportFailure::Memory => RunFault::Memory,
        }
    }
}

/// Writes how many frames were rendered and what became of their window tiles, in one write; in mode `takes` also how
/// many takes were. `Memory` comes too where there are more tiles than can be counted.
pub(crate) fn report_frames<O: Sink>(
    alloc: Global,
    out: &mut O,
    mode: Mode,
    takes: u64,
    frames: u64,
    count: TileCount,
) -> Result<(), ReportFailure>
    ensures ok { let text = report_text (report_of mode takes frames count) in
        O.tells → OnOk result (O.written out.new ≡ O.written out.old ++ text) }
    ensures leaves { let text = report_text (report_of mode takes frames count) in
        O.tells → IfErr result (λ e. BeginsReport text e (O.written out.old) (O.written out.new)) }
    ensures rose { IfErr result (λ e. ReportRose (O.faults out.old) (O.faults out.new) e) }
    ensures quiet { OnOk result (O.faults out.new ≡ O.faults out.old) }
{
    match report_of(mode, takes, frames, count) {
        Some(report) => report_lines(alloc, out, &report),
        None => Err(ReportFailure::Memory),
    }
}

// The report of so many takes and frames, where their tiles can be counted.
fn report_of(mode: Mode, takes: u64, frames: u64, count: TileCount) -> Option<Report>
    ensures { IfSome result (λ report. report ≡ report_of mode takes frames count) }
{
    let TileCount {
        void_tiles,
        passed,
        asked,
        landed,
        hits,
    } = count;
    let found = void_tiles.checked_add(passed)?;
    let tiles = found.checked_add(asked)?;
    Some(match mode {
        Mode::Takes => Report::Takes {
            takes,
            frames,
            tiles,
            void_tiles,
            passed,
            asked,
            landed,
            hits,
        },
        Mode::Render | Mode::Check | Mode::Bench | Mode::Migrate | Mode::Plan => Report::Render {
            frames,
            tiles,
            void_tiles,
            passed,
            asked,
            landed,
            hits,
        },
    })
}

/// Writes a report's lines, in one write.
pub(crate) fn report_lines<O: Sink>(
    alloc: Global,
    out: &mut O,
    report: &Report,
) -> Result<(), ReportFailure>
    ensures ok { O.tells → OnOk result (O.written out.new ≡ O.written out.old ++ report_text report.now) }
    ensures leaves { let text = report_text report.now in
        O.tells → IfErr result (λ e. BeginsReport text e (O.written out.old) (O.written out.new)) }
    ensures rose { IfErr result (λ e. ReportRose (O.faults out.old) (O.faults out.new) e) }
    ensures quiet { OnOk result (O.faults out.new ≡ O.faults out.old) }
{
    let text = lines_of(alloc, report)?;
    written(alloc, out, &text)
}

fn written<O: Sink>(alloc: Global, out: &mut O, text: &[u8]) -> Result<(), ReportFailure>
    ensures ok { O.tells → OnOk result (O.written out.new ≡ O.written out.old ++ text.now) }
    ensures leaves { O.tells → IfErr result (λ e. BeginsReport text.now e (O.written out.old) (O.written out.new)) }
    ensures rose { IfErr result (λ e. ReportRose (O.faults out.old) (O.faults out.new) e) }
    ensures quiet { OnOk result (O.faults out.new ≡ O.faults out.old) }
{
    match out.write(alloc, text) {
        Ok(()) => Ok(()),
        Err(PutFault::Failed) => Err(ReportFailure::Report),
        Err(PutFault::Memory) => Err(ReportFailure::Memory),
    }
}

fn lines_of(alloc: Global, report: &Report) -> Result<Vec<u8>, Memory>
    ensures { IfOk result (λ text. text.items ≡ report_text report.now) }
{
    let mut text = Vec::new(alloc);
    report_text(alloc, report, &mut text)?;
    Ok(text)
}
