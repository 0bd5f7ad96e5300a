//! What a run reports at its end.
ghost use Rattle.std.specs.Prelude.{◌≡◌, ◌++◌, codes, decimal, string_bytes, IfOk, OnOk, OnErr};
ghost use Rattle.fx_words.specs.Texts.{tiles_text, landed_text, render_text, takes_text, check_text, bench_text, migrate_text, report_text};

use crate::plan::{PlanFrames, plan_lines};
use fx_base::Memory;
use std::alloc::{AllocError, Global};

/// What a run reports, by its mode.
#[derive(Debug, Drop)]
pub enum Report {
    /// Frames rendered and window tiles over them all, of which so many were void, passed on to another node's
    /// frame, or asked for; and how many tiles were landed and how often a kept one served.
    Render {
        frames: u64,
        tiles: u64,
        void_tiles: u64,
        passed: u64,
        asked: u64,
        landed: u64,
        hits: u64,
    },
    /// Nodes of the graph, frames to be rendered, and source frames that these want.
    Check {
        nodes: u64,
        frames: u64,
        wanted: u64,
    },
    /// Frames rendered, the bytes of their files, and the sum of these bytes as numbers.
    Bench {
        frames: u64,
        size: u64,
        sum: u64,
    },
    /// Nodes of the graph, when its groups are expanded.
    Migrate {
        nodes: u64,
    },
    /// The takes that were rendered, the graph as written among them, and over them all what a render reports.
    Takes {
        takes: u64,
        frames: u64,
        tiles: u64,
        void_tiles: u64,
        passed: u64,
        asked: u64,
        landed: u64,
        hits: u64,
    },
    /// What each of the frames demands.
    Plan {
        frames: PlanFrames,
    },
}

// Appends a text, or nothing where memory is wanting.
pub(crate) fn push(out: &mut Vec<u8>, text: &str) -> Result<(), Memory>
    ensures ok { OnOk result (out.new.items ≡ out.old.items ++ text.now) }
    ensures err { OnErr result (out.new.items ≡ out.old.items) }
{
    out.extend_from_slice(text.as_bytes())?;
    Ok(())
}

fn tiles_line(
    alloc: Global,
    tiles: u64,
    void: u64,
    passed: u64,
    asked: u64,
) -> Result<String, AllocError>
    ensures { IfOk result (λ text. string_bytes text ≡ tiles_text tiles void passed asked) }
{
    format!(in alloc; "tiles {tiles} void {void} passed {passed} asked {asked}\n")
}

fn landed_line(alloc: Global, landed: u64, hits: u64) -> Result<String, AllocError>
    ensures { IfOk result (λ text. string_bytes text ≡ landed_text landed hits) }
{
    format!(in alloc; "landed {landed} hits {hits}\n")
}

fn frames_lines(alloc: Global, frames: u64, tiles: &str, landed: &str) -> Result<String, AllocError>
    ensures { let lines = codes "frames " ++ (decimal frames ++ (codes "\n" ++ (tiles.now ++ landed.now)))
        in IfOk result (λ text. string_bytes text ≡ lines) }
{
    format!(in alloc; "frames {frames}\n{tiles}{landed}")
}

fn render_lines(
    alloc: Global,
    frames: u64,
    tiles: u64,
    void: u64,
    passed: u64,
    asked: u64,
    landed: u64,
    hits: u64,
) -> Result<String, AllocError>
    ensures { IfOk result (λ text. string_bytes text ≡ render_text frames tiles void passed asked landed hits) }
{
    let tiles = tiles_line(alloc, tiles, void, passed, asked)?;
    let landed = landed_line(alloc, landed, hits)?;
    frames_lines(alloc, frames, tiles.as_str(), landed.as_str())
}

fn takes_lines(alloc: Global, takes: u64, render: &str) -> Result<String, AllocError>
    ensures { let lines = codes "takes " ++ (decimal takes ++ (codes "\n" ++ render.now))
        in IfOk result (λ text. string_bytes text ≡ lines) }
{
    format!(in alloc; "takes {takes}\n{render}")
}

fn check_lines(alloc: Global, nodes: u64, frames: u64, wanted: u64) -> Result<String, AllocError>
    ensures { IfOk result (λ text. string_bytes text ≡ check_text nodes frames wanted) }
{
    format!(in alloc; "nodes {nodes}\nframes {frames}\nwanted {wanted}\n")
}

fn bench_lines(alloc: Global, frames: u64, size: u64, sum: u64) -> Result<String, AllocError>
    ensures { IfOk result (λ text. string_bytes text ≡ bench_text frames size sum) }
{
    format!(in alloc; "frames {frames}\nbytes {size}\nsum {sum}\n")
}

fn migrate_line(alloc: Global, nodes: u64) -> Result<String, AllocError>
    ensures { IfOk result (λ text. string_bytes text ≡ migrate_text nodes) }
{
    format!(in alloc; "nodes {nodes}\n")
}

fn lines_of(alloc: Global, report: &Report) -> Result<String, AllocError>
    ensures { IfOk result (λ text. string_bytes text ≡ report_text report.now) }
{
    match report {
        Report::Render {
            frames,
            tiles,
            void_tiles,
            passed,
            asked,
            landed,
            hits,
        } => render_lines(
            alloc,
            *frames,
            *tiles,
            *void_tiles,
            *passed,
            *asked,
            *landed,
            *hits,
        ),
        Report::Check {
            nodes,
            frames,
            wanted,
        } => check_lines(alloc, *nodes, *frames, *wanted),
        Report::Bench { frames, size, sum } => bench_lines(alloc, *frames, *size, *sum),
        Report::Migrate { nodes } => migrate_line(alloc, *nodes),
        Report::Takes {
            takes,
            frames,
            tiles,
            void_tiles,
            passed,
            asked,
            landed,
            hits,
        } => {
            let render = render_lines(
                alloc,
                *frames,
                *tiles,
                *void_tiles,
                *passed,
                *asked,
                *landed,
                *hits,
            )?;
            takes_lines(alloc, *takes, render.as_str())
        }
        Report::Plan { frames } => plan_lines(alloc, frames.items()),
    }
}

/// Appends the report's lines. At want of memory nothing of them is appended.
pub fn report_text(alloc: Global, report: &Report, out: &mut Vec<u8>) -> Result<(), Memory>
    ensures ok { OnOk result (out.new.items ≡ out.old.items ++ report_text report.now) }
    ensures err { OnErr result (out.new.items ≡ out.old.items) }
{
    let lines = lines_of(alloc, report)?;
    push(out, lines.as_str())
}
