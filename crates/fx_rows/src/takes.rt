//! When the moments of runs with takes use their source frames, over the effects that are shipped, worked by hand.
ghost use Rattle.std.specs.Prelude.{◌<◌, length, map};
ghost use Rattle.fx_graph.specs.Shown.{shown};
ghost use Rattle.fx_scene.specs.Takes.{AreEdits, edits_of};

use crate::same::same_at;
use fx_base::Rect;
use fx_graph::{Graph, accept};
use fx_scene::{Scene, Takes};
use fx_seq::{Store, Use};
use fx_shipped::Shipped;
use fx_takes::{accept_takes, uses};
use fx_text::read_graph;
use std::process::Abort;

// As written the node n shows the source's frame before its own.
fn text(rt: &(impl Abort + AllocGlobal), takes: &str) -> String {
    format!(in rt.alloc();
        r#"{{"ofxr":1,"project":{{"width":4,"height":2,"depth":"byte","components":"RGBA"}},"output":{{"node":"n","file":"o#.pam","format":"RGB"}},"range":{{"first":0,"last":9}},"nodes":[{{"name":"s","source":"s#.pam","first":0,"last":9}},{{"name":"o","effect":"timeoffset","clips":{{"Source":"s"}},"params":{{"offset":1}}}},{{"name":"n","effect":"frameblend","clips":{{"Source":"o"}},"params":{{"radius":0}}}}],"takes":[{takes}]}}"#
    ).expect(rt, "no text")
}

// A take that shows the frame itself, and one that blends it with its neighbours.
const TWO: &str =
    r#"{"file":"u#.pam","edits":[{"node":"o","param":"offset","value":0}]},{"file":"v#.pam","edits":[{"node":"n","param":"radius","value":1}]}"#;

// Edits of one parameter in one take, an offset that goes from 0 at frame 0 to -5 at frame 10, an edit that leaves all
// as it is, and one behind which no frame is there.
const TWICE: &str =
    r#"{"file":"u#.pam","edits":[{"node":"o","param":"offset","value":2},{"node":"o","param":"offset","value":-1}]}"#;

const KEYED: &str =
    r#"{"file":"u#.pam","edits":[{"node":"o","param":"offset","value":{"keys":[[0,0],[10,-5]]}}]}"#;

const SAME: &str = r#"{"file":"u#.pam","edits":[{"node":"o","param":"offset","value":1}]}"#;

const AWAY: &str = r#"{"file":"u#.pam","edits":[{"node":"o","param":"offset","value":100}]}"#;

// The takes, the first and last frame of a run, and the node and frame of each use with its first and last moment.
const CASES: &[(&str, u32, u32, &str)] = &[
    ("", 3, 4, "0 2: 0 to 0, 0 3: 1 to 1, "),
    // The frames 2 and 3, then 3 and 4, and then 2 to 4 and 3 to 5: edits add up.
    (
        TWO,
        3,
        4,
        "0 2: 0 to 4, 0 3: 1 to 5, 0 4: 3 to 5, 0 5: 5 to 5, ",
    ),
    (TWO, 4, 3, ""),
    (TWICE, 3, 3, "0 2: 0 to 0, 0 4: 1 to 1, "),
    (KEYED, 4, 4, "0 3: 0 to 0, 0 6: 1 to 1, "),
    (SAME, 3, 3, "0 2: 0 to 1, "),
    (AWAY, 3, 4, "0 2: 0 to 0, 0 3: 1 to 1, "),
];

// The graph with these takes, and the takes.
fn graph_and_takes(rt: &(impl Abort + AllocGlobal), takes: &str) -> (Graph<Shipped>, Takes)
    ensures { AreEdits (map shown result.0.nodes.items) (edits_of result.1.list.items) }
{
    let text = text(rt, takes);
    let mut raw = read_graph(rt.alloc(), text.as_bytes(), 256, 4096).expect(rt, "refused");
    let raw_takes = raw.take_takes(rt.alloc());
    let graph: Graph<Shipped> = accept(rt.alloc(), raw).expect(rt, "refused");
    let takes = accept_takes(rt.alloc(), &graph, raw_takes).expect(rt, "refused");
    (graph, takes)
}

// The uses of a run with these takes to this last frame.
fn used_by(rt: &(impl Abort + AllocGlobal), takes: &str, first: u32, last: u32) -> Vec<Use> {
    let (graph, takes) = graph_and_takes(rt, takes);
    assert!(rt; last <= 999_999);
    assert!(rt; takes.list.len() <= 64);
    uses(rt.alloc(), &graph, &takes, first, last).expect(rt, "no uses")
}

fn told(rt: &(impl Abort + AllocGlobal), uses: &[Use]) -> String {
    let mut text = String::new(rt.alloc());
    for used in uses {
        let (node, frame) = (used.wanted.node, used.wanted.frame);
        let (from, until) = (used.from, used.until);
        let one = format!(in rt.alloc(); "{node} {frame}: {from} to {until}, ");
        let one = one.expect(rt, "no text");
        text.push_str(one.as_str()).expect(rt, "no text");
    }
    text
}

#[test]
fn takes_use_what_their_edits_reach(rt: HostRuntime) {
    for (takes, first, last, expected) in CASES {
        let uses = used_by(&rt, takes, *first, *last);
        let told = told(&rt, &uses);
        same_at(&rt, &(&first, &last, &takes), told.as_str(), *expected);
    }
}

// The era under which a node is kept at frame 3.
fn era_of(rt: &(impl Abort + AllocGlobal), scene: &Scene<Shipped>, node: u32) -> u32
    requires { node < length scene.now.graph.nodes }
{
    let place = Rect::of(0, 0, 1, 1);
    let key = scene.key(rt.alloc(), node, 3, place).expect(rt, "no key");
    key.era
}

// The eras under which the three nodes are kept at frame 3, and how many frames ago node o shows.
fn eras_of(rt: &(impl Abort + AllocGlobal), scene: &Scene<Shipped>) -> String {
    assert!(rt; scene.graph().nodes.len() >= 3);
    let source = era_of(rt, scene, 0);
    let blend = era_of(rt, scene, 2);
    let place = Rect::of(0, 0, 1, 1);
    let shift = scene.key(rt.alloc(), 1, 3, place).expect(rt, "no key");
    let (era, ago) = (shift.era, shift.values.numbers.items());
    format!(in rt.alloc(); "{source} {era} {blend}, {ago:?}").expect(rt, "no text")
}

// The eras at the graph as it is written and at the first take.
fn eras_told(rt: &(impl Abort + AllocGlobal), takes: &str) -> String {
    let (graph, takes) = graph_and_takes(rt, takes);
    assert!(rt; takes.list.len() <= 64);
    let (mut scene, _permit) = Scene::new(graph, Store::empty(rt.alloc()), 0);
    scene.remember(&takes);
    let before = eras_of(rt, &scene);
    let Some(first) = takes.list.into_iter().next() else {
        return before;
    };
    assert!(rt; scene.next_take(first.edits).is_ok());
    let after = eras_of(rt, &scene);
    format!(in rt.alloc(); "{before}; {after}").expect(rt, "no text")
}

// Takes, and the eras; the second take of two edits node n alone, and the first one node o, which node n reads.
const ERAS: &[(&str, &str)] = &[
    ("", "0 0 0, [1]"),
    (TWO, "0 0 0, [1]; 0 1 1, [0]"),
    (TWICE, "0 0 0, [1]; 0 1 1, [-1]"),
    (KEYED, "0 0 0, [1]; 0 1 1, [-2]"),
];

#[test]
fn a_take_raises_what_its_edits_reach(rt: HostRuntime) {
    for (takes, expected) in ERAS {
        let told = eras_told(&rt, takes);
        same_at(&rt, takes, told.as_str(), *expected);
    }
}
