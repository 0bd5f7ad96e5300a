//! Which source frames a run wants, and what each node reads, over the effects that are shipped, worked by hand.
use crate::engines::accepted;
use crate::same::{same, same_at};
use crate::worked::Whole;
use fx_graph::Graph;
use fx_scene::laws::{value_depends_on_reach, value_is_mix, zero_outside_area};
use fx_scene::{NodeFrame, reach, reads_of, shown_frame, wants};
use fx_seq::Wanted;
use fx_shipped::Shipped;
use std::collections::BTreeSet;
use std::process::Abort;

// A source of the frames 3 to 5, black or held outside of them, and one of the frames 0 to 9.
const BLACK: &str = r#"{"name":"s","source":"s##.pam","first":3,"last":5}"#;

const HELD: &str = r#"{"name":"s","source":"s##.pam","first":3,"last":5,"outside":"hold"}"#;

const TEN: &str = r#"{"name":"s","source":"s##.pam","first":0,"last":9}"#;

// The source that is the output.
const LAST_BLACK: &str = r#"{"name":"n","source":"s##.pam","first":3,"last":5}"#;

const LAST_HELD: &str = r#"{"name":"n","source":"s##.pam","first":3,"last":5,"outside":"hold"}"#;

// A blend of three frames over the source, and over another blend.
const OVER: &str =
    r#",{"name":"n","effect":"frameblend","clips":{"Source":"s"},"params":{"radius":1}}"#;

const TWICE: &str =
    r#",{"name":"y","effect":"frameblend","clips":{"Source":"s"},"params":{"radius":1}},{"name":"n","effect":"frameblend","clips":{"Source":"y"},"params":{"radius":1}}"#;

// Two blends, each of which is merged with itself.
const DIAMOND: &str =
    r#",{"name":"a","effect":"frameblend","clips":{"Source":"s"},"params":{"radius":1}},{"name":"y","effect":"merge","clips":{"A":"a","B":"a"}},{"name":"b","effect":"frameblend","clips":{"Source":"y"},"params":{"radius":1}},{"name":"n","effect":"merge","clips":{"A":"b","B":"b"}}"#;

// Blends of two sources, and of one beside which the other stands.
const OTHER: &str =
    r#",{"name":"u","source":"u.pam","first":4,"last":4},{"name":"a","effect":"frameblend","clips":{"Source":"u"},"params":{"radius":1}},{"name":"b","effect":"frameblend","clips":{"Source":"s"},"params":{"radius":1}},{"name":"n","effect":"merge","clips":{"A":"a","B":"b"}}"#;

const APART: &str =
    r#",{"name":"u","source":"u.pam","first":4,"last":4},{"name":"n","effect":"frameblend","clips":{"Source":"u"},"params":{"radius":1}}"#;

// The graph of these nodes, whose output is the node n.
fn graph_of(rt: &(impl Abort + AllocGlobal), source: &str, effects: &str) -> Graph<Shipped> {
    let nodes = format!(in rt.alloc(); "{source}{effects}").expect(rt, "no text");
    let whole = Whole {
        project: r#""width":4,"height":2,"depth":"byte","components":"RGBA""#,
        format: "RGB",
        last: 9,
        nodes: nodes.as_str(),
    };
    let text = whole.text(rt);
    accepted(rt, text.as_str())
}

// The source's node, the effects behind it, the first and last frame of a run, and what it wants: node, frame
// and name of each.
const CASES: &[(&str, &str, u32, u32, &str)] = &[
    // A source alone: black wants nothing outside of its frames, and hold the nearest.
    (
        LAST_BLACK,
        "",
        2,
        6,
        "0 3 s03.pam, 0 4 s04.pam, 0 5 s05.pam, ",
    ),
    (LAST_BLACK, "", 6, 9, ""),
    (LAST_BLACK, "", 5, 3, ""),
    (LAST_BLACK, "", 4, 4, "0 4 s04.pam, "),
    (LAST_HELD, "", 0, 1, "0 3 s03.pam, "),
    (LAST_HELD, "", 7, 9, "0 5 s05.pam, "),
    (LAST_HELD, "", 2, 4, "0 3 s03.pam, 0 4 s04.pam, "),
    (LAST_HELD, "", 999_999, 999_999, "0 5 s05.pam, "),
    // An effect that reads the frames round its own.
    (BLACK, OVER, 4, 4, "0 3 s03.pam, 0 4 s04.pam, 0 5 s05.pam, "),
    (BLACK, OVER, 3, 3, "0 3 s03.pam, 0 4 s04.pam, "),
    (HELD, OVER, 3, 3, "0 3 s03.pam, 0 4 s04.pam, "),
    (HELD, OVER, 0, 0, "0 3 s03.pam, "),
    (BLACK, OVER, 7, 7, ""),
    // Two of them, one over the other, and over both clips.
    (
        TEN,
        TWICE,
        7,
        8,
        "0 5 s05.pam, 0 6 s06.pam, 0 7 s07.pam, 0 8 s08.pam, 0 9 s09.pam, ",
    ),
    (
        TEN,
        DIAMOND,
        4,
        4,
        "0 2 s02.pam, 0 3 s03.pam, 0 4 s04.pam, 0 5 s05.pam, 0 6 s06.pam, ",
    ),
    // Two sources, by node, and one that nothing reads.
    (
        TEN,
        OTHER,
        4,
        4,
        "0 3 s03.pam, 0 4 s04.pam, 0 5 s05.pam, 1 4 u.pam, ",
    ),
    (TEN, APART, 4, 4, "1 4 u.pam, "),
];

// What a run to this last frame wants.
fn wanted_by(
    rt: &(impl Abort + AllocGlobal),
    graph: &Graph<Shipped>,
    first: u32,
    last: u32,
) -> Vec<Wanted> {
    assert!(rt; last <= 999_999);
    wants(rt.alloc(), graph, first, last).expect(rt, "no memory")
}

// Node, frame and name of each.
fn told(rt: &(impl Abort + AllocGlobal), wanted: &[Wanted]) -> String {
    let mut text = String::new(rt.alloc());
    for w in wanted {
        let (node, frame, name) = (w.node, w.frame, w.name.text());
        let one = format!(in rt.alloc(); "{node} {frame} {name}, ");
        let one = one.expect(rt, "no text");
        text.push_str(one.as_str()).expect(rt, "no text");
    }
    text
}

#[test]
fn the_frames_that_are_reached_are_wanted(rt: HostRuntime) {
    for (source, effects, first, last, expected) in CASES {
        let graph = graph_of(&rt, source, effects);
        let wanted = wanted_by(&rt, &graph, *first, *last);
        let told = told(&rt, &wanted);
        same_at(
            &rt,
            &(&first, &last, &source, &effects),
            told.as_str(),
            *expected,
        );
    }
}

// Node and frame of each.
fn told_node_frames(rt: &(impl Abort + AllocGlobal), node_frames: &BTreeSet<NodeFrame>) -> String {
    let mut text = String::new(rt.alloc());
    for node_frame in node_frames {
        let (node, frame) = (node_frame.node, node_frame.frame);
        let one = format!(in rt.alloc(); "{node} {frame}, ");
        let one = one.expect(rt, "no text");
        text.push_str(one.as_str()).expect(rt, "no text");
    }
    text
}

#[test]
fn what_is_reached_stands_by_node_and_frame(rt: HostRuntime) {
    let alloc = rt.alloc();
    let graph = graph_of(&rt, TEN, TWICE);
    let node_frames = reach(alloc, &graph, 4, 4).expect(&rt, "no memory");
    let told = told_node_frames(&rt, &node_frames);
    let expected = "0 2, 0 3, 0 4, 0 5, 0 6, 1 3, 1 4, 1 5, 2 4, ";
    same(&rt, told.as_str(), expected);
    let none = reach(alloc, &graph, 4, 3).expect(&rt, "no memory");
    same(&rt, none.len(), 0);
    value_depends_on_reach(&graph);
    value_is_mix();
    zero_outside_area();
}

// A source beside the first one, and an effect over both, without a mask and with one.
const MIXED: &str =
    r#",{"name":"u","source":"u.pam","first":4,"last":4},{"name":"n","effect":"keymix","clips":{"A":"s","B":"u"}}"#;

const MASKED: &str =
    r#",{"name":"u","source":"u.pam","first":4,"last":4},{"name":"n","effect":"keymix","clips":{"A":"u","B":"s","Mask":"s"}}"#;

// An offset that goes from 0 at frame 0 to -5 at frame 10, and a radius that goes from 0 to 5.
const KEYED: &str =
    r#",{"name":"n","effect":"timeoffset","clips":{"Source":"s"},"params":{"offset":{"keys":[[0,0],[10,-5]]}}}"#;

const GROWING: &str =
    r#",{"name":"n","effect":"frameblend","clips":{"Source":"s"},"params":{"radius":{"keys":[[0,0],[10,5]]}}}"#;

// Frames between which others lie.
const DIFFERENCE: &str =
    r#",{"name":"n","effect":"framediff","clips":{"Source":"s"},"params":{"gap":2}}"#;

const ECHO: &str =
    r#",{"name":"n","effect":"echo","clips":{"Source":"s"},"params":{"count":2,"gap":3}}"#;

const SOLID: &str = r#",{"name":"n","effect":"solid"}"#;

// What stands behind the black source, the node that reads, its frame, and what it reads: node and frame of each.
const READS: &[(&str, u32, i64, &str)] = &[
    // Three frames of a clip, before frame 0 too.
    (OVER, 1, 4, "0 3, 0 4, 0 5, "),
    (OVER, 1, 0, "0 -1, 0 0, 0 1, "),
    // Two clips and one that is not connected, and then three, by node.
    (MIXED, 2, 4, "0 4, 1 4, "),
    (MASKED, 2, -9, "0 -9, 1 -9, "),
    // The same node on both clips is read once.
    (DIAMOND, 2, 7, "1 7, "),
    (DIAMOND, 3, 7, "2 6, 2 7, 2 8, "),
    // At frame 4 the offset is -2 and the radius 2, and from frame 10 on they are -5 and 5.
    (KEYED, 1, 0, "0 0, "),
    (KEYED, 1, 4, "0 6, "),
    (KEYED, 1, 12, "0 17, "),
    (GROWING, 1, 0, "0 0, "),
    (GROWING, 1, 4, "0 2, 0 3, 0 4, 0 5, 0 6, "),
    (
        GROWING,
        1,
        12,
        "0 7, 0 8, 0 9, 0 10, 0 11, 0 12, 0 13, 0 14, 0 15, 0 16, 0 17, ",
    ),
    // 4 - 2 and 4; 7 - 2 * 3, 7 - 3 and 7.
    (DIFFERENCE, 1, 4, "0 2, 0 4, "),
    (ECHO, 1, 7, "0 1, 0 4, 0 7, "),
    // A source, and a generator.
    (MIXED, 0, 4, ""),
    (SOLID, 1, 4, ""),
];

// What a node of the graph reads at a frame from -9 to 99.
fn read_by(
    rt: &(impl Abort + AllocGlobal),
    graph: &Graph<Shipped>,
    node: u32,
    frame: i64,
) -> BTreeSet<NodeFrame> {
    assert!(rt; (node as usize) < graph.nodes.len());
    assert!(rt; -9 <= frame);
    assert!(rt; frame <= 99);
    reads_of(rt.alloc(), graph, NodeFrame { node, frame }).expect(rt, "no memory")
}

#[test]
fn a_node_reads_its_clips(rt: HostRuntime) {
    for (effects, node, frame, expected) in READS {
        let graph = graph_of(&rt, BLACK, effects);
        let reads = read_by(&rt, &graph, *node, *frame);
        let told = told_node_frames(&rt, &reads);
        same_at(&rt, &(&node, &frame, &effects), told.as_str(), *expected);
    }
}

/// The source `n0`, and so many levels of effects: each blends three frames of the one before and merges the blend with
/// itself. The node `n` merges the last with itself. With k levels, 2 * 6^k ways lead to the source.
pub(crate) fn deep_diamond(rt: &(impl Abort + AllocGlobal), source: &str, levels: u32) -> String {
    let mut nodes = String::from_str(rt.alloc(), source).expect(rt, "no text");
    let mut below = 0;
    for level in 1..=levels {
        add_level(rt, &mut nodes, below, level);
        below = level;
    }
    add_last(rt, &mut nodes, levels);
    nodes
}

// Appends the blend of a level and the merge of it.
fn add_level(rt: &(impl Abort + AllocGlobal), nodes: &mut String, below: u32, level: u32) {
    let blend = format!(in rt.alloc();
        r#",{{"name":"m{level}","effect":"frameblend","clips":{{"Source":"n{below}"}}}}"#
    ).expect(rt, "no text");
    nodes.push_str(blend.as_str()).expect(rt, "no text");
    let merge = format!(in rt.alloc();
        r#",{{"name":"n{level}","effect":"merge","clips":{{"A":"m{level}","B":"m{level}"}}}}"#
    ).expect(rt, "no text");
    nodes.push_str(merge.as_str()).expect(rt, "no text");
}

// Appends the merge of the last level.
fn add_last(rt: &(impl Abort + AllocGlobal), nodes: &mut String, level: u32) {
    let merge = format!(in rt.alloc();
        r#",{{"name":"n","effect":"merge","clips":{{"A":"n{level}","B":"n{level}"}}}}"#
    ).expect(rt, "no text");
    nodes.push_str(merge.as_str()).expect(rt, "no text");
}

fn frame_at(wanted: &[Wanted], row: usize) -> Option<i64> {
    Some(wanted.get(row)?.frame)
}

#[test]
fn a_deep_diamond_is_reached_by_its_edges(rt: HostRuntime) {
    let alloc = rt.alloc();
    let source = r#"{"name":"n0","source":"s###.pam","first":0,"last":999}"#;
    let nodes = deep_diamond(&rt, source, 63);
    let graph = graph_of(&rt, nodes.as_str(), "");
    // The blend and the merge of the level that is k below the highest are reached at 2 k + 1 frames, in all at
    // 2 * 63^2 nodes at frames; the output at one, and the source at 127.
    let reached = reach(alloc, &graph, 300, 300).expect(&rt, "no memory");
    same(&rt, reached.len(), 8066);
    let wanted = wants(alloc, &graph, 300, 300).expect(&rt, "no memory");
    same(&rt, wanted.len(), 127);
    same(&rt, frame_at(&wanted, 0), Some(237));
    same(&rt, frame_at(&wanted, 126), Some(363));
}

// A frame, whether a source of the frames 3 to 5 holds, and what it shows.
const SHOWN: &[(i64, bool, Option<u32>)] = &[
    (2, false, None),
    (2, true, Some(3)),
    (-7, true, Some(3)),
    (3, false, Some(3)),
    (4, true, Some(4)),
    (5, false, Some(5)),
    (6, false, None),
    (6, true, Some(5)),
];

#[test]
fn a_source_shows_its_frames(rt: HostRuntime) {
    for (frame, hold, shown) in SHOWN {
        same_at(
            &rt,
            &(&frame, &hold),
            shown_frame(3, 5, *hold, *frame),
            *shown,
        );
    }
}
