use crate::same::{same, same_at};
use fx_base::{Name, Rect};
use fx_pam::PamField;
use fx_text::{GraphCode, GraphPath};
use fx_words::{
    FrameFault, Mode, Order, PlanFrame, PlanFrames, PlanLine, PlanLines, Report, RunFault,
    WordFault, fault_text, options_in_any_order, read_words, report_text,
};
use std::alloc::{AllocError, Global};
use std::process::Abort;

// What a line's words order: the mode and the numbers, or that they are no use of the command.
fn ordered(alloc: Global, line: &str) -> Result<String, AllocError> {
    let mut words = Vec::new(alloc);
    for word in line.split(' ') {
        words.push(word.to_string(alloc)?)?;
    }
    told(alloc, &read_words(alloc, words.as_slice()))
}

// The words of an order, or why there is none.
fn told(alloc: Global, read: &Result<Order, WordFault>) -> Result<String, AllocError> {
    match read {
        Ok(order) => {
            let mode = word_of(order.mode);
            let (graph, first, last) = (order.graph.text(), order.first, order.last);
            let (tile, cache) = (order.tile, order.cache);
            let (workers, ahead, scale) = (order.workers, order.ahead, order.scale);
            format!(in alloc;
                "{mode} {graph} {first} {last} {tile} {cache} {workers} {ahead} {scale}"
            )
        }
        Err(WordFault::Usage) => format!(in alloc; "usage"),
        Err(WordFault::Memory) => format!(in alloc; "memory"),
    }
}

fn word_of(mode: Mode) -> &'static str {
    match mode {
        Mode::Render => "render",
        Mode::Check => "check",
        Mode::Bench => "bench",
        Mode::Migrate => "migrate",
        Mode::Takes => "takes",
        Mode::Plan => "plan",
    }
}

// Words with a blank between two of them, so that two blanks have an empty word between them.
const OF_MODES: &[(&str, &str)] = &[
    ("render g.json", "render g.json 0 999999 64 4096 4 0 1"),
    ("check g.json", "check g.json 0 999999 64 4096 4 0 1"),
    ("bench 0", "bench 0 0 999999 64 4096 4 0 1"),
    ("bench 123456", "bench 123456 0 999999 64 4096 4 0 1"),
    ("bench 1234567", "usage"),
    ("bench 12a", "usage"),
    ("bench", "usage"),
    ("migrate g.json", "migrate g.json 0 999999 64 4096 4 0 1"),
    ("migrate 7 --tile 16", "migrate 7 0 999999 16 4096 4 0 1"),
    ("migrate", "usage"),
    ("migrates g.json", "usage"),
    ("takes g.json", "takes g.json 0 999999 64 4096 4 0 1"),
    (
        "--workers 2 --cache 0 takes --tile 16 g.json --first 3 --last 7",
        "takes g.json 3 7 16 0 2 0 1",
    ),
    ("takes 7", "takes 7 0 999999 64 4096 4 0 1"),
    ("takes", "usage"),
    ("take g.json", "usage"),
    ("takes g.json more", "usage"),
    ("plan g.json", "plan g.json 0 999999 64 4096 4 0 1"),
    (
        "--tile 32 plan --first 2 7 --last 3",
        "plan 7 2 3 32 4096 4 0 1",
    ),
    ("plan", "usage"),
    ("plans g.json", "usage"),
    ("plan g.json more", "usage"),
    ("paint g.json", "usage"),
    ("render", "usage"),
    ("", "usage"),
    (" g.json", "usage"),
    ("render g.json more", "usage"),
];

// Both ends of each range, and one past.
const OF_RANGES: &[(&str, &str)] = &[
    (
        "render g.json --first 999999 --last 0",
        "render g.json 999999 0 64 4096 4 0 1",
    ),
    ("render g.json --first 1000000", "usage"),
    (
        "render g.json --last 999999 --first 0",
        "render g.json 0 999999 64 4096 4 0 1",
    ),
    ("render g.json --last 1000000", "usage"),
    (
        "render g.json --tile 1",
        "render g.json 0 999999 1 4096 4 0 1",
    ),
    (
        "render g.json --tile 1024",
        "render g.json 0 999999 1024 256 4 0 1",
    ),
    (
        "render g.json --tile 256",
        "render g.json 0 999999 256 4096 4 0 1",
    ),
    (
        "render g.json --tile 257",
        "render g.json 0 999999 257 4064 4 0 1",
    ),
    ("render g.json --tile 0", "usage"),
    ("render g.json --tile 1025", "usage"),
    (
        "render g.json --cache 0",
        "render g.json 0 999999 64 0 4 0 1",
    ),
    (
        "render g.json --cache 65536 --tile 64",
        "render g.json 0 999999 64 65536 4 0 1",
    ),
    ("render g.json --cache 65536 --tile 65", "usage"),
    (
        "render g.json --cache 256 --tile 1024",
        "render g.json 0 999999 1024 256 4 0 1",
    ),
    ("render g.json --cache 257 --tile 1024", "usage"),
    ("render g.json --cache 65537 --tile 1", "usage"),
    (
        "render g.json --workers 1",
        "render g.json 0 999999 64 4096 1 0 1",
    ),
    (
        "render g.json --workers 64",
        "render g.json 0 999999 64 4096 64 0 1",
    ),
    ("render g.json --workers 0", "usage"),
    ("render g.json --workers 65", "usage"),
    (
        "render g.json --ahead 0",
        "render g.json 0 999999 64 4096 4 0 1",
    ),
    (
        "--ahead 4 takes g.json",
        "takes g.json 0 999999 64 4096 4 4 1",
    ),
    (
        "check --ahead=1 g.json",
        "check g.json 0 999999 64 4096 4 1 1",
    ),
    ("render g.json --ahead 5", "usage"),
    ("render g.json --ahead", "usage"),
    ("render g.json --ahead 2 --ahead 2", "usage"),
];

// By what the sides are divided.
const OF_SCALES: &[(&str, &str)] = &[
    (
        "render g.json --scale 1",
        "render g.json 0 999999 64 4096 4 0 1",
    ),
    (
        "--scale 2 takes g.json",
        "takes g.json 0 999999 64 4096 4 0 2",
    ),
    (
        "plan --scale=4 g.json",
        "plan g.json 0 999999 64 4096 4 0 4",
    ),
    ("bench 9 --scale 8", "bench 9 0 999999 64 4096 4 0 8"),
    (
        "check g.json --scale +2",
        "check g.json 0 999999 64 4096 4 0 2",
    ),
    ("render g.json --scale 0", "usage"),
    ("render g.json --scale 3", "usage"),
    ("render g.json --scale 5", "usage"),
    ("render g.json --scale 6", "usage"),
    ("render g.json --scale 7", "usage"),
    ("render g.json --scale 9", "usage"),
    ("render g.json --scale 16", "usage"),
    ("render g.json --scale 1/2", "usage"),
    ("render g.json --scale", "usage"),
    ("render g.json --scale 2 --scale 2", "usage"),
];

// How clap reads words.
const OF_CLAP: &[(&str, &str)] = &[
    (
        "--tile=16 render --first=5 g.json --workers 2",
        "render g.json 5 999999 16 4096 2 0 1",
    ),
    (
        "--workers 2 --first 5 --tile 16 -- render g.json",
        "render g.json 5 999999 16 4096 2 0 1",
    ),
    ("render -- g.json --first 5", "usage"),
    ("render g.json --first 5 --first 5", "usage"),
    (
        "render g.json --first +5",
        "render g.json 5 999999 64 4096 4 0 1",
    ),
    (
        "render g.json --first 05",
        "render g.json 5 999999 64 4096 4 0 1",
    ),
    ("render g.json --first  5", "usage"),
    ("render g.json --first -1", "usage"),
    ("render g.json --first 5x", "usage"),
    ("render g.json --first", "usage"),
    ("render g.json --first=", "usage"),
    ("render g.json --fir 5", "usage"),
    ("render g.json --help", "usage"),
    ("render g.json -V", "usage"),
];

#[test]
fn words_are_an_order_or_usage(rt: HostRuntime) {
    lines_are_read(&rt, OF_MODES);
    lines_are_read(&rt, OF_RANGES);
    lines_are_read(&rt, OF_SCALES);
    lines_are_read(&rt, OF_CLAP);
    let none: Vec<String> = Vec::new(rt.alloc());
    assert!(rt;
        matches!(
            read_words(rt.alloc(), none.as_slice()),
            Err(WordFault::Usage)
        )
    );
    options_in_any_order();
}

// Of each of these lines this is read.
fn lines_are_read(rt: &(impl Abort + AllocGlobal), lines: &[(&str, &str)]) {
    for (line, wanted) in lines {
        let order = ordered(rt.alloc(), line).expect(rt, "no order");
        same_at(rt, &line, order.as_str(), *wanted);
    }
}

// A line behind what was there.
fn told_as(rt: &(impl Abort + AllocGlobal), fault: &RunFault, wanted: &[u8]) {
    let mut out = Vec::new(rt.alloc());
    out.push(b'>').expect(rt, "no memory");
    fault_text(rt.alloc(), fault, &mut out).expect(rt, "no line");
    same(rt, out.as_slice(), wanted);
}

fn text(rt: &(impl Abort + AllocGlobal), text: &str) -> String {
    String::from_str(rt.alloc(), text).expect(rt, "no memory")
}

// Each code with a path, and without one.
const CODES: &[(GraphCode, &str, &[u8])] = &[
    (GraphCode::NotJson, "", b">ofxr: graph: G1\n"),
    (GraphCode::WrongForm, "ofxr", b">ofxr: graph: G2 ofxr\n"),
    (
        GraphCode::NumberOutOfRange,
        "project.width",
        b">ofxr: graph: G3 project.width\n",
    ),
    (
        GraphCode::NameRepeated,
        "nodes[1].name",
        b">ofxr: graph: G4 nodes[1].name\n",
    ),
    (GraphCode::UnknownEffect, "e", b">ofxr: graph: G5 e\n"),
    (GraphCode::ContextNotSupported, "c", b">ofxr: graph: G6 c\n"),
    (GraphCode::UnknownClip, "c", b">ofxr: graph: G7 c\n"),
    (GraphCode::ClipMissing, "c", b">ofxr: graph: G8 c\n"),
    (GraphCode::NoEarlierNode, "c", b">ofxr: graph: G9 c\n"),
    (GraphCode::UnknownParam, "p", b">ofxr: graph: G10 p\n"),
    (GraphCode::ParamRefused, "p", b">ofxr: graph: G11 p\n"),
    (GraphCode::KeysNotRising, "p", b">ofxr: graph: G12 p\n"),
    (
        GraphCode::UnknownOutput,
        "output.node",
        b">ofxr: graph: G13 output.node\n",
    ),
    (
        GraphCode::PatternWrong,
        "output.file",
        b">ofxr: graph: G14 output.file\n",
    ),
    (
        GraphCode::EditOfNoEffect,
        "takes[0].edits[0].node",
        b">ofxr: graph: G15 takes[0].edits[0].node\n",
    ),
    (GraphCode::UnknownGroup, "g", b">ofxr: graph: G16 g\n"),
    (
        GraphCode::TooManyNodes,
        "nodes",
        b">ofxr: graph: G17 nodes\n",
    ),
    (GraphCode::SlashInName, "n", b">ofxr: graph: G18 n\n"),
];

#[test]
fn graph_faults_are_told(rt: HostRuntime) {
    for (code, path, wanted) in CODES {
        let path = GraphPath::of(text(&rt, path));
        told_as(&rt, &RunFault::Graph(*code, path), wanted);
    }
}

const FRAMES: &[(FrameFault, &[u8])] = &[
    (FrameFault::NotPam, b">ofxr: frame: s -3 P1\n"),
    (FrameFault::HeaderWrong(3), b">ofxr: frame: s -3 P2 3\n"),
    (
        FrameFault::SizeOutOfRange(PamField::Width),
        b">ofxr: frame: s -3 P3 WIDTH\n",
    ),
    (
        FrameFault::SizeOutOfRange(PamField::Height),
        b">ofxr: frame: s -3 P3 HEIGHT\n",
    ),
    (
        FrameFault::SizeOutOfRange(PamField::Depth),
        b">ofxr: frame: s -3 P3 DEPTH\n",
    ),
    (
        FrameFault::SizeOutOfRange(PamField::Maxval),
        b">ofxr: frame: s -3 P3 MAXVAL\n",
    ),
    (FrameFault::Truncated(8, 7), b">ofxr: frame: s -3 P4 8 7\n"),
    (
        FrameFault::SampleAboveMaxval(5, 101),
        b">ofxr: frame: s -3 P5 5 101\n",
    ),
    (
        FrameFault::TooLarge(2147483656),
        b">ofxr: frame: s -3 P6 2147483656\n",
    ),
];

#[test]
fn frame_faults_are_told(rt: HostRuntime) {
    for (fault, wanted) in FRAMES {
        let node = Name::of(text(&rt, "s"));
        told_as(&rt, &RunFault::Frame(node, -3, *fault), wanted);
    }
}

#[test]
fn other_faults_are_told(rt: HostRuntime) {
    let usage =
        b">usage: ofxr MODE GRAPH [--first N] [--last N] [--tile N] [--cache N] [--workers N] [--ahead N] [--scale N]\n";
    told_as(&rt, &RunFault::Usage, usage);
    let read = RunFault::Read(Name::of(text(&rt, "g.json")));
    told_as(&rt, &read, b">ofxr: read: g.json\n");
    let write = RunFault::Write(Name::of(text(&rt, "o0.pam")));
    told_as(&rt, &write, b">ofxr: write: o0.pam\n");
    told_as(&rt, &RunFault::Memory, b">ofxr: memory\n");
    told_as(&rt, &RunFault::Report, b">ofxr: report\n");
}

// A report behind what was there.
fn reported_as(rt: &(impl Abort + AllocGlobal), report: &Report, wanted: &[u8]) {
    let mut out = Vec::new(rt.alloc());
    out.push(b'>').expect(rt, "no memory");
    report_text(rt.alloc(), report, &mut out).expect(rt, "no report");
    same(rt, out.as_slice(), wanted);
}

#[test]
fn reports_are_lines(rt: HostRuntime) {
    let render = Report::Render {
        frames: 2,
        tiles: 1020,
        void_tiles: 3,
        passed: 4,
        asked: 1013,
        landed: 1018,
        hits: 6,
    };
    let wanted = b">frames 2\ntiles 1020 void 3 passed 4 asked 1013\nlanded 1018 hits 6\n";
    reported_as(&rt, &render, wanted);
    let check = Report::Check {
        nodes: 12,
        frames: 24,
        wanted: 23,
    };
    let wanted = b">nodes 12\nframes 24\nwanted 23\n";
    reported_as(&rt, &check, wanted);
    let bench = Report::Bench {
        frames: 4,
        size: 1229076,
        sum: 18446744073709551615,
    };
    let wanted = b">frames 4\nbytes 1229076\nsum 18446744073709551615\n";
    reported_as(&rt, &bench, wanted);
    let migrate = Report::Migrate { nodes: 1024 };
    reported_as(&rt, &migrate, b">nodes 1024\n");
}

#[test]
fn reports_of_takes_are_lines(rt: HostRuntime) {
    let two = Report::Takes {
        takes: 2,
        frames: 2,
        tiles: 2,
        void_tiles: 0,
        passed: 0,
        asked: 2,
        landed: 2,
        hits: 0,
    };
    let wanted = b">takes 2\nframes 2\ntiles 2 void 0 passed 0 asked 2\nlanded 2 hits 0\n";
    reported_as(&rt, &two, wanted);
    let many = Report::Takes {
        takes: 65,
        frames: 6500000,
        tiles: 6500000,
        void_tiles: 1,
        passed: 2,
        asked: 6499997,
        landed: 100000,
        hits: 6399997,
    };
    let wanted =
        b">takes 65\nframes 6500000\ntiles 6500000 void 1 passed 2 asked 6499997\nlanded 100000 hits 6399997\n";
    reported_as(&rt, &many, wanted);
}

fn planned_as(rt: &(impl Abort + AllocGlobal), frames: Vec<PlanFrame>, wanted: &[u8]) {
    let frames = PlanFrames::of(frames);
    reported_as(rt, &Report::Plan { frames }, wanted);
}

#[test]
fn a_plan_of_nothing_is_told(rt: HostRuntime) {
    planned_as(&rt, Vec::new(rt.alloc()), b">frames 0\n");
    let entries = PlanLines::of(Vec::new(rt.alloc()));
    let mut frames = Vec::new(rt.alloc());
    add_frame(&rt, &mut frames, 0, entries);
    planned_as(&rt, frames, b">frames 1\nframe 0 entries 0\n");
}

fn add_frame(rt: &impl Abort, frames: &mut Vec<PlanFrame>, frame: u64, entries: PlanLines) {
    frames
        .push(PlanFrame { frame, entries })
        .expect(rt, "no frame");
}

fn entry(node: u32, frame: i64, x1: i64, y1: i64, x2: i64, y2: i64) -> PlanLine {
    let region = Rect::of(x1, y1, x2, y2);
    PlanLine {
        node,
        frame,
        region,
    }
}

#[test]
fn plans_are_told(rt: HostRuntime) {
    let first = [
        entry(0, -1, -64, 0, 0, 64),
        entry(0, 8, 0, -128, 64, -64),
        entry(1023, 7, -9, -8, 7, 6),
    ];
    let first = lines(&rt, &first);
    same(&rt, first.items().len(), 3);
    let second = lines(&rt, &[entry(4, 999999, 64, 128, 128, 192)]);
    let second = PlanLines::of(second.into_items());
    let mut frames = Vec::new(rt.alloc());
    add_frame(&rt, &mut frames, 7, first);
    add_frame(&rt, &mut frames, 999999, second);
    let frames = PlanFrames::of(frames).into_items();
    let wanted =
        b">frames 2\nframe 7 entries 3\n0 -1 -64 0 0 64\n0 8 0 -128 64 -64\n1023 7 -9 -8 7 6\nframe 999999 entries 1\n4 999999 64 128 128 192\n";
    planned_as(&rt, frames, wanted);
}

fn lines(rt: &(impl Abort + AllocGlobal), entries: &[PlanLine]) -> PlanLines {
    PlanLines::of(entries.to_vec(rt.alloc()).expect(rt, "no lines"))
}
