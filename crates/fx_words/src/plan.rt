//! What a plan reports: the renders that each frame demands.
ghost use Rattle.std.specs.Prelude.{◌≡◌, ◌++◌, string_bytes, IfOk, OnOk};
ghost use Rattle.std.specs.List.{flat_map};
ghost use Rattle.fx_words.specs.Texts.{plan_line_text, plan_frame_text, plan_text};

use fx_base::Rect;
use std::alloc::{AllocError, Global};
use std::marker::Model;

/// A region of a node, by its place in the graph's list, that is to be rendered at a frame.
#[derive(Clone, Copy, Debug, PartialEq, Eq, Drop)]
pub struct PlanLine {
    pub node: u32,
    pub frame: i64,
    pub region: Rect,
}

/// What is to be rendered for one frame, in order.
#[derive(Debug, Drop)]
pub struct PlanLines {
    items: Vec<PlanLine>,
}

impl Model for PlanLines {
    ghost use Rattle.std.specs.Prelude.{List};
    ghost use Rattle.fx_words.specs.declared.plan.PlanLine.{PlanLine};

    ghost Value = { List PlanLine };

    ghost view = { λ lines. lines.items.items };
}

impl PlanLines {
    /// These lines, in this order.
    pub fn of(items: Vec<PlanLine>) -> PlanLines
        ensures { result ≡ items.items }
    {
        PlanLines { items }
    }

    /// The lines in order.
    pub fn items(&self) -> &[PlanLine]
        ensures { result.now ≡ self.now }
    {
        self.items.as_slice()
    }

    /// The lines in order, given away.
    pub fn into_items(self) -> Vec<PlanLine>
        ensures { result.items ≡ self }
    {
        self.items
    }
}

/// A frame, and what it demands.
#[derive(Debug, Drop)]
pub struct PlanFrame {
    pub frame: u64,
    pub entries: PlanLines,
}

/// What each frame of a run demands, in order.
#[derive(Debug, Drop)]
pub struct PlanFrames {
    items: Vec<PlanFrame>,
}

impl Model for PlanFrames {
    ghost use Rattle.std.specs.Prelude.{List};
    ghost use Rattle.fx_words.specs.declared.plan.PlanFrame.{PlanFrame};

    ghost Value = { List PlanFrame };

    ghost view = { λ frames. frames.items.items };
}

impl PlanFrames {
    /// These frames, in this order.
    pub fn of(items: Vec<PlanFrame>) -> PlanFrames
        ensures { result ≡ items.items }
    {
        PlanFrames { items }
    }

    /// The frames in order.
    pub fn items(&self) -> &[PlanFrame]
        ensures { result.now ≡ self.now }
    {
        self.items.as_slice()
    }

    /// The frames in order, given away.
    pub fn into_items(self) -> Vec<PlanFrame>
        ensures { result.items ≡ self }
    {
        self.items
    }
}

/// The lines of a plan's report.
pub(crate) fn plan_lines(alloc: Global, frames: &[PlanFrame]) -> Result<String, AllocError>
    ensures { IfOk result (λ text. string_bytes text ≡ plan_text frames.now) }
{
    let count = frames.len();
    let mut text = format!(in alloc; "frames {count}\n")?;
    for frame in frames {
        add_frame(alloc, frame, &mut text)?;
    }
    Ok(text)
}

// Appends the lines of one frame.
fn add_frame(alloc: Global, frame: &PlanFrame, text: &mut String) -> Result<(), AllocError>
    ensures { OnOk result (string_bytes text.new ≡ string_bytes text.old ++ plan_frame_text frame.now) }
{
    let number = frame.frame;
    let entries = frame.entries.items();
    let count = entries.len();
    text.push_str(format!(in alloc; "frame {number} entries {count}\n")?.as_str())?;
    add_entries(alloc, entries, text)
}

fn add_entries(alloc: Global, entries: &[PlanLine], text: &mut String) -> Result<(), AllocError>
    ensures { OnOk result (string_bytes text.new ≡ string_bytes text.old ++ flat_map plan_line_text entries.now) }
{
    for entry in entries {
        text.push_str(entry_line(alloc, *entry)?.as_str())?;
    }
    Ok(())
}

fn entry_line(alloc: Global, entry: PlanLine) -> Result<String, AllocError>
    ensures { IfOk result (λ text. string_bytes text ≡ plan_line_text entry) }
{
    let PlanLine {
        node,
        frame,
        region,
    } = entry;
    let (x1, y1, x2, y2) = (region.x1, region.y1, region.x2, region.y2);
    format!(in alloc; "{node} {frame} {x1} {y1} {x2} {y2}\n")
}
