//! What ends a run early, and the line that tells of it.
ghost use Rattle.std.specs.Prelude.{◌≡◌, ◌++◌, string_bytes, IfOk, OnOk, OnErr};
ghost use Rattle.fx_words.specs.Texts.{code_text, path_text, field_text, frame_text, name_text, graph_text, source_text, fault_text};

use crate::report::push;
use fx_base::{Memory, Name};
use fx_pam::PamField;
use fx_text::{GraphCode, GraphPath};
use std::alloc::{AllocError, Global};

// The line of words that are no use of the command.
const USAGE: &str =
    "usage: ofxr MODE GRAPH [--first N] [--last N] [--tile N] [--cache N] [--workers N] [--ahead N] [--scale N]\n";

/// Why a source frame is refused.
#[derive(Clone, Copy, Debug, PartialEq, Eq)]
pub enum FrameFault {
    /// P1: the file doesn't begin as a PAM file.
    NotPam,
    /// P2: the header's line with this number, from 1, is wrong.
    HeaderWrong(u64),
    /// P3: this field's number is out of range.
    SizeOutOfRange(PamField),
    /// P4: the raster should have so many bytes, and has so many.
    Truncated(u64, u64),
    /// P5: the sample at this place of the raster, from 0, has this value, which is above MAXVAL.
    SampleAboveMaxval(u64, u32),
    /// P6: the bytes of all held frames together, this one among them, are this sum, which is above 2^31.
    TooLarge(u64),
}

/// What ends a run early.
#[derive(Debug, Drop)]
pub enum RunFault {
    /// The words are no use of the command.
    Usage,
    /// The graph is refused: what is wrong, and where.
    Graph(GraphCode, GraphPath),
    /// A source's frame is refused: the node's name, the frame, and why.
    Frame(Name, i64, FrameFault),
    /// What has this name could not be read.
    Read(Name),
    /// The file of this name could not be written.
    Write(Name),
    /// Memory was wanting.
    Memory,
    /// The report could not be written.
    Report,
}

/// The code of a graph's fault, G1 to G18.
fn code_text(code: GraphCode) -> &'static str
    ensures { result.now ≡ code_text code }
{
    match code {
        GraphCode::NotJson => "G1",
        GraphCode::WrongForm => "G2",
        GraphCode::NumberOutOfRange => "G3",
        GraphCode::NameRepeated => "G4",
        GraphCode::UnknownEffect => "G5",
        GraphCode::ContextNotSupported => "G6",
        GraphCode::UnknownClip => "G7",
        GraphCode::ClipMissing => "G8",
        GraphCode::NoEarlierNode => "G9",
        GraphCode::UnknownParam => "G10",
        GraphCode::ParamRefused => "G11",
        GraphCode::KeysNotRising => "G12",
        GraphCode::UnknownOutput => "G13",
        GraphCode::PatternWrong => "G14",
        GraphCode::EditOfNoEffect => "G15",
        GraphCode::UnknownGroup => "G16",
        GraphCode::TooManyNodes => "G17",
        GraphCode::SlashInName => "G18",
    }
}

fn field_text(field: PamField) -> &'static str
    ensures { result.now ≡ field_text field }
{
    match field {
        PamField::Width => "WIDTH",
        PamField::Height => "HEIGHT",
        PamField::Depth => "DEPTH",
        PamField::Maxval => "MAXVAL",
    }
}

// What stands behind the code: a blank and the path, or nothing for the whole file.
fn path_text(alloc: Global, path: &str) -> Result<String, AllocError>
    ensures { IfOk result (λ text. string_bytes text ≡ path_text path.now) }
{
    if path.is_empty() {
        Ok(String::new(alloc))
    } else {
        format!(in alloc; " {path}")
    }
}

fn frame_text(alloc: Global, fault: FrameFault) -> Result<String, AllocError>
    ensures { IfOk result (λ text. string_bytes text ≡ frame_text fault) }
{
    match fault {
        FrameFault::NotPam => String::from_str(alloc, "P1"),
        FrameFault::HeaderWrong(line) => format!(in alloc; "P2 {line}"),
        FrameFault::SizeOutOfRange(field) => {
            let word = field_text(field);
            format!(in alloc; "P3 {word}")
        }
        FrameFault::Truncated(wanted, had) => format!(in alloc; "P4 {wanted} {had}"),
        FrameFault::SampleAboveMaxval(place, value) => format!(in alloc; "P5 {place} {value}"),
        FrameFault::TooLarge(sum) => format!(in alloc; "P6 {sum}"),
    }
}

fn graph_line(alloc: Global, code: GraphCode, path: &str) -> Result<String, AllocError>
    ensures { IfOk result (λ text. string_bytes text ≡ graph_text code path.now) }
{
    let code = code_text(code);
    let path = path_text(alloc, path)?;
    format!(in alloc; "ofxr: graph: {code}{path}\n")
}

fn frame_line(
    alloc: Global,
    node: &str,
    frame: i64,
    fault: FrameFault,
) -> Result<String, AllocError>
    ensures { IfOk result (λ text. string_bytes text ≡ source_text node.now frame fault) }
{
    let why = frame_text(alloc, fault)?;
    format!(in alloc; "ofxr: frame: {node} {frame} {why}\n")
}

fn name_line(alloc: Global, what: &str, name: &str) -> Result<String, AllocError>
    ensures { IfOk result (λ text. string_bytes text ≡ name_text what.now name.now) }
{
    format!(in alloc; "ofxr: {what}: {name}\n")
}

fn line_of(alloc: Global, fault: &RunFault) -> Result<String, AllocError>
    ensures { IfOk result (λ text. string_bytes text ≡ fault_text fault.now) }
{
    match fault {
        RunFault::Usage => String::from_str(alloc, USAGE),
        RunFault::Graph(code, path) => graph_line(alloc, *code, path.text()),
        RunFault::Frame(node, frame, fault) => frame_line(alloc, node.text(), *frame, *fault),
        RunFault::Read(name) => name_line(alloc, "read", name.text()),
        RunFault::Write(name) => name_line(alloc, "write", name.text()),
        RunFault::Memory => String::from_str(alloc, "ofxr: memory\n"),
        RunFault::Report => String::from_str(alloc, "ofxr: report\n"),
    }
}

/// Appends the line that tells of a fault. At want of memory nothing of it is appended.
pub fn fault_text(alloc: Global, fault: &RunFault, out: &mut Vec<u8>) -> Result<(), Memory>
    ensures ok { OnOk result (out.new.items ≡ out.old.items ++ fault_text fault.now) }
    ensures err { OnErr result (out.new.items ≡ out.old.items) }
{
    let line = line_of(alloc, fault)?;
    push(out, line.as_str())
}
