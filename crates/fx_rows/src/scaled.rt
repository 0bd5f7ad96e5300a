//! Graphs and takes over the effects of the program: the extent, each length, and what is no length.
use crate::engines::accepted;
use crate::same::{same, same_at};
use fx_base::Rect;
use fx_graph::{Graph, Work, accept, param_named};
use fx_params::{Param, ParamDef, ParamValue};
use fx_proxy::laws::lengths_are_described;
use fx_proxy::{scaled, scaled_param, scaled_takes};
use fx_shipped::Shipped;
use fx_takes::{Takes, accept_takes};
use fx_text::{GraphFault, read_graph};
use std::alloc::{AllocError, Global};
use std::process::Abort;

// A source, and an effect of these clips whose parameter has this value, in a project of a size.
fn text(
    alloc: Global,
    size: (u32, u32),
    effect: (&str, &str),
    param: (&str, &str),
    takes: &str,
) -> Result<String, AllocError> {
    let (width, height) = size;
    let (effect, clips) = effect;
    let (name, value) = param;
    format!(in alloc;
        r#"{{"ofxr":1,"project":{{"width":{width},"height":{height},"depth":"byte","components":"RGBA"}},"output":{{"node":"n","file":"o#.pam","format":"RGB_ALPHA"}},"range":{{"first":0,"last":9}},"nodes":[{{"name":"s","source":"s#.pam","first":0,"last":9}},{{"name":"n","effect":"{effect}","clips":{{{clips}}},"params":{{"{name}":{value}}}}}],"takes":[{takes}]}}"#
    )
}

const SOURCE: &str = r#""Source":"s""#;

const BOTH: &str = r#""SourceFrom":"s","SourceTo":"s""#;

// The effect and its clips, a parameter and its value, a frame, and the parameter's number there at a half, a quarter
// and an eighth: v/2, v/4 and v/8 to the nearest, halves up.
type Case = (
    &'static str,
    &'static str,
    &'static str,
    &'static str,
    i64,
    [i64; 3],
);

const LENGTHS: &[Case] = &[
    // The size of checker is 1 at least.
    ("checker", "", "size", "16", 0, [8, 4, 2]),
    ("checker", "", "size", "1", 0, [1, 1, 1]),
    ("checker", "", "size", "2", 0, [1, 1, 1]),
    ("checker", "", "size", "3", 0, [2, 1, 1]),
    ("checker", "", "size", "4096", 0, [2048, 1024, 512]),
    ("boxblur", SOURCE, "rx", "1", 0, [1, 0, 0]),
    ("boxblur", SOURCE, "rx", "64", 0, [32, 16, 8]),
    ("boxblur", SOURCE, "ry", "5", 0, [3, 1, 1]),
    ("boxblur", SOURCE, "ry", "0", 0, [0, 0, 0]),
    ("erode", SOURCE, "radius", "3", 0, [2, 1, 0]),
    ("dilate", SOURCE, "radius", "6", 0, [3, 2, 1]),
    // Halves go up, also below 0: -2.5 to -2, -1.25 to -1, -0.625 to -1.
    ("crop", SOURCE, "x", "-5", 0, [-2, -1, -1]),
    ("crop", SOURCE, "x", "-16384", 0, [-8192, -4096, -2048]),
    ("crop", SOURCE, "y", "7", 0, [4, 2, 1]),
    ("crop", SOURCE, "width", "16384", 0, [8192, 4096, 2048]),
    ("crop", SOURCE, "height", "9", 0, [5, 2, 1]),
    // In units of 1/65536: -0.5 is -32768, 1.25 is 81920, and 0.00005 is 3.
    (
        "translate",
        SOURCE,
        "dx",
        r#""-0.5""#,
        0,
        [-16384, -8192, -4096],
    ),
    (
        "translate",
        SOURCE,
        "dx",
        r#""1.25""#,
        0,
        [40960, 20480, 10240],
    ),
    ("translate", SOURCE, "dy", r#""0.00005""#, 0, [2, 1, 0]),
    ("translate", SOURCE, "dy", r#""-0.00005""#, 0, [-1, -1, 0]),
    (
        "translate",
        SOURCE,
        "dy",
        "-16384",
        0,
        [-536870912, -268435456, -134217728],
    ),
];

// Keys keep their frames: from -5 at frame 0 to 7 at frame 10 is at a half from -2 to 4, so 1 at frame 5.
const KEYED: &[Case] = &[
    (
        "crop",
        SOURCE,
        "x",
        r#"{"keys":[[0,-5],[10,7]]}"#,
        0,
        [-2, -1, -1],
    ),
    (
        "crop",
        SOURCE,
        "x",
        r#"{"keys":[[0,-5],[10,7]]}"#,
        5,
        [1, 0, 0],
    ),
    (
        "crop",
        SOURCE,
        "x",
        r#"{"keys":[[0,-5],[10,7]]}"#,
        10,
        [4, 2, 1],
    ),
    (
        "checker",
        "",
        "size",
        r#"{"keys":[[3,1],[4,40]],"step":true}"#,
        3,
        [1, 1, 1],
    ),
    (
        "checker",
        "",
        "size",
        r#"{"keys":[[3,1],[4,40]],"step":true}"#,
        4,
        [20, 10, 5],
    ),
    (
        "timeoffset",
        SOURCE,
        "offset",
        r#"{"keys":[[0,4],[8,12]]}"#,
        8,
        [12, 12, 12],
    ),
];

// No lengths: levels, colours, factors, and what counts frames.
const OTHERS: &[Case] = &[
    ("solid", "", "r", r#""0.5""#, 0, [32768, 32768, 32768]),
    ("checker", "", "level", r#""0.5""#, 0, [32768, 32768, 32768]),
    ("ramp", "", "axis", r#""y""#, 0, [1, 1, 1]),
    ("grain", "", "seed", "40", 0, [40, 40, 40]),
    ("gain", SOURCE, "gain", "8", 0, [524288, 524288, 524288]),
    (
        "saturation",
        SOURCE,
        "amount",
        "2",
        0,
        [131072, 131072, 131072],
    ),
    ("posterise", SOURCE, "levels", "16", 0, [16, 16, 16]),
    ("convolve3", SOURCE, "k1", "8", 0, [8, 8, 8]),
    ("convolve3", SOURCE, "divisor", "16", 0, [16, 16, 16]),
    ("mirror", SOURCE, "axis", r#""y""#, 0, [1, 1, 1]),
    ("timeoffset", SOURCE, "offset", "-8", 0, [-8, -8, -8]),
    ("frameblend", SOURCE, "radius", "8", 0, [8, 8, 8]),
    ("framediff", SOURCE, "gap", "8", 0, [8, 8, 8]),
    ("echo", SOURCE, "count", "8", 0, [8, 8, 8]),
    ("echo", SOURCE, "gap", "8", 0, [8, 8, 8]),
    (
        "wipe",
        BOTH,
        "Transition",
        r#""0.5""#,
        0,
        [32768, 32768, 32768],
    ),
];

// The size of a project, and that of the scaled one.
const SIZES: &[((u32, u32), &[(i64, i64)])] = &[
    ((4, 2), &[(2, 1), (1, 1), (1, 1)]),
    ((3, 1), &[(2, 1), (1, 1), (1, 1)]),
    ((1, 1), &[(1, 1), (1, 1), (1, 1)]),
    ((17, 9), &[(9, 5), (5, 3), (3, 2)]),
    ((8192, 16), &[(4096, 8), (2048, 4), (1024, 2)]),
];

// The scales by their places in the tables.
const SCALES: [u32; 3] = [2, 4, 8];

fn scaled_text(rt: &(impl Abort + AllocGlobal), text: &str, q: u32) -> Graph<Shipped> {
    let graph = accepted(rt, text);
    assert!(rt; q > 0);
    assert!(rt; q <= 8);
    lengths_are_described(&graph);
    scaled(graph, q).ok().expect(rt, "no memory")
}

// The number of a parameter of the effect at a frame.
fn number_in(graph: &Graph<Shipped>, name: &str, frame: i64) -> Option<i64> {
    let (place, _) = param_named(graph, 1, name)?;
    match &graph.nodes.get(1)?.work {
        Work::Source { .. } => None,
        Work::Effect { params, .. } => Some(params.get(place as usize)?.value_at(frame)),
    }
}

fn scaled_number(rt: &(impl Abort + AllocGlobal), case: &Case, q: u32) -> Option<i64> {
    let (effect, clips, name, value, frame, _) = *case;
    let text = text(rt.alloc(), (5, 3), (effect, clips), (name, value), "").expect(rt, "no text");
    let graph = scaled_text(rt, text.as_str(), q);
    number_in(&graph, name, frame)
}

fn numbers_are(rt: &(impl Abort + AllocGlobal), cases: &[Case]) {
    for case in cases {
        for (q, expected) in SCALES.iter().zip(&case.5) {
            let number = scaled_number(rt, case, *q);
            same_at(rt, &(case.0, case.2, case.3, *q), number, Some(*expected));
        }
    }
}

#[test]
fn lengths_are_divided(rt: HostRuntime) {
    numbers_are(&rt, LENGTHS);
}

#[test]
fn keys_are_divided(rt: HostRuntime) {
    numbers_are(&rt, KEYED);
}

#[test]
fn other_parameters_stay(rt: HostRuntime) {
    numbers_are(&rt, OTHERS);
}

fn scaled_size(rt: &(impl Abort + AllocGlobal), size: (u32, u32), q: u32) -> Rect {
    let text = text(rt.alloc(), size, ("checker", ""), ("size", "16"), "").expect(rt, "no text");
    scaled_text(rt, text.as_str(), q).project
}

#[test]
fn extents_are_divided(rt: HostRuntime) {
    for (size, scaled) in SIZES {
        for (q, (width, height)) in SCALES.iter().zip(*scaled) {
            let rect = scaled_size(&rt, *size, *q);
            same_at(&rt, &(*size, *q), rect, Rect::of(0, 0, *width, *height));
        }
    }
}

// Edits of both radii, of which one has keys, and of what is no length.
const TAKES: &str =
    r#"{"file":"u#.pam","edits":[{"node":"n","param":"rx","value":9},{"node":"n","param":"ry","value":{"keys":[[0,1],[4,6]]}}]},{"file":"v#.pam","edits":[{"node":"n","param":"rx","value":3}]}"#;

const SHIFTS: &str = r#"{"file":"u#.pam","edits":[{"node":"n","param":"offset","value":9}]}"#;

// The effect with a parameter and its value, the takes, and of each edit its node and parameter by their places and its
// numbers at the frames 0 and 4, at a half, a quarter and an eighth.
const EDITED: &[((&str, &str), &str, [&str; 3])] = &[
    (
        ("boxblur", "rx"),
        TAKES,
        [
            "1 0: 5 5, 1 1: 1 3, 1 0: 2 2, ",
            "1 0: 2 2, 1 1: 0 2, 1 0: 1 1, ",
            "1 0: 1 1, 1 1: 0 1, 1 0: 0 0, ",
        ],
    ),
    (
        ("timeoffset", "offset"),
        SHIFTS,
        ["1 0: 9 9, ", "1 0: 9 9, ", "1 0: 9 9, "],
    ),
];

fn taken(rt: &(impl Abort + AllocGlobal), text: &str, q: u32) -> Takes {
    let alloc = rt.alloc();
    let read = read_graph(alloc, text.as_bytes(), 1024, 8192);
    let mut raw = read.ok().expect(rt, "not read");
    let raw_takes = raw.take_takes(alloc);
    let graph: Result<Graph<Shipped>, GraphFault> = accept(alloc, raw);
    let graph = graph.ok().expect(rt, "refused");
    let takes = accept_takes(alloc, &graph, raw_takes);
    let takes = takes.ok().expect(rt, "no takes");
    assert!(rt; q > 0);
    assert!(rt; q <= 8);
    lengths_are_described(&graph);
    scaled_takes(&graph, takes, q)
}

fn told(rt: &(impl Abort + AllocGlobal), takes: &Takes) -> String {
    let alloc = rt.alloc();
    let mut text = String::new(alloc);
    for take in &takes.list {
        for edit in &take.edits {
            let (node, param) = (edit.node, edit.param);
            let (first, last) = (edit.value.value_at(0), edit.value.value_at(4));
            let one = format!(in alloc; "{node} {param}: {first} {last}, ").expect(rt, "no edit");
            text.push_str(one.as_str()).expect(rt, "no text");
        }
    }
    text
}

#[test]
fn values_in_takes_are_divided(rt: HostRuntime) {
    for ((effect, param), takes, expected) in EDITED {
        for (q, expected) in SCALES.iter().zip(expected) {
            let text = text(rt.alloc(), (5, 3), (*effect, SOURCE), (*param, "1"), takes);
            let text = text.expect(&rt, "no text");
            let takes = taken(&rt, text.as_str(), *q);
            let told = told(&rt, &takes);
            same_at(&rt, &(*effect, *q), told.as_str(), *expected);
        }
    }
}

// Erode's radius of 5 and the seed of grain, which is no length, at a half.
#[test]
fn one_parameter_is_divided(rt: HostRuntime) {
    let alloc = rt.alloc();
    let def = ParamDef::int(alloc, "radius", 0, 32, 1).expect(&rt, "no definition");
    let mut radius = Param::new(alloc, def).expect(&rt, "no radius");
    same(&rt, radius.set_value(ParamValue::Int(5)), Ok(()));
    let radius = scaled_param(12, 0, radius, 2).ok().expect(&rt, "no memory");
    same(&rt, radius.plain(), 3);
    let def = ParamDef::int(alloc, "seed", 0, 99, 5).expect(&rt, "no definition");
    let seed = Param::new(alloc, def).expect(&rt, "no seed");
    let seed = scaled_param(3, 0, seed, 2).ok().expect(&rt, "no memory");
    same(&rt, seed.plain(), 5);
}
