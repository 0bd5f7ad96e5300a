//! Groups and takes of a graph file.
use crate::same::{same, same_at};
use crate::text::{changed_in, repeated, tells};
use fx_text::{
    GraphFault, RawGroup, RawNode, RawScalar, RawTake, RawValue, RawWork, migrated, names_rise,
    read_graph,
};
use std::process::Abort;

// A graph with a group, a use of it, and a take.
const GROUPED: &str =
    r#"{"ofxr":2,"project":{"width":4,"height":2,"depth":"short","components":"Alpha"},"output":{"node":"u","file":"o#.pam","format":"RGB"},"range":{"first":7,"last":9},"groups":[{"name":"soft","inputs":["in"],"nodes":[{"name":"b","effect":"boxblur","clips":{"Source":"in"},"params":{"rx":1}}],"output":"b"}],"nodes":[{"name":"s","source":"s#.pam","first":3,"last":5},{"name":"u","group":"soft","clips":{"in":"s"}}],"takes":[{"file":"t#.pam","edits":[{"node":"u/b","param":"rx","value":2}]}]}"#;

// Each text of that graph, what stands there instead, and what is then read.
const OF_GROUPS: &[(&str, &str, &str)] = &[
    (r#""ofxr":2"#, r#""ofxr":2"#, "2"),
    // In format 1 there are no groups, and no uses of any.
    (r#""ofxr":2"#, r#""ofxr":1"#, "G2 groups"),
    (r#""ofxr":2"#, r#""ofxr":2.0"#, "G2 groups"),
    // Groups.
    (r#""groups":[{"#, r#""groups":1,"x":[{"#, "G2 x"),
    (r#""name":"soft","#, "", "G2 groups[0].name"),
    (r#""name":"soft""#, r#""name":"""#, "G3 groups[0].name"),
    (r#""name":"soft""#, r#""name":7"#, "G2 groups[0].name"),
    (
        r#""name":"soft""#,
        r#""name":"soft","zebra":1"#,
        "G2 groups[0].zebra",
    ),
    (r#""inputs":["in"],"#, "", "G2 groups[0].inputs"),
    (
        r#""inputs":["in"]"#,
        r#""inputs":{}"#,
        "G2 groups[0].inputs",
    ),
    (r#""inputs":["in"]"#, r#""inputs":[]"#, "2"),
    (
        r#""inputs":["in"]"#,
        r#""inputs":["in",1]"#,
        "G2 groups[0].inputs[1]",
    ),
    (
        r#""inputs":["in"]"#,
        r#""inputs":["in",""]"#,
        "G3 groups[0].inputs[1]",
    ),
    (r#""output":"b""#, r#""output":1"#, "G2 groups[0].output"),
    (r#","output":"b""#, "", "G2 groups[0].output"),
];

// Nodes of a group.
const OF_NODES: &[(&str, &str, &str)] = &[
    (
        r#""rx":1"#,
        r#""rx":1.5"#,
        "G2 groups[0].nodes[0].params.rx",
    ),
    (
        r#""effect":"boxblur""#,
        r#""effect":1"#,
        "G2 groups[0].nodes[0].effect",
    ),
    (
        r#""Source":"in""#,
        r#""Source":1"#,
        "G2 groups[0].nodes[0].clips.Source",
    ),
    // A use has a name, a group and clips.
    (r#""group":"soft""#, r#""group":1"#, "G2 nodes[1].group"),
    (
        r#""group":"soft""#,
        r#""group":"soft","params":{}"#,
        "G2 nodes[1].params",
    ),
    (
        r#""group":"soft""#,
        r#""group":"soft","source":"s#.pam""#,
        "G2 nodes[1].source",
    ),
    (
        r#""clips":{"in":"s"}"#,
        r#""clips":{"in":1}"#,
        "G2 nodes[1].clips.in",
    ),
    (
        r#""clips":{"in":"s"}"#,
        r#""clips":[]"#,
        "G2 nodes[1].clips",
    ),
];

// Takes.
const OF_TAKES: &[(&str, &str, &str)] = &[
    (r#""takes":[{"#, r#""takes":[1,{"#, "G2 takes[0]"),
    (r#""file":"t#.pam","#, "", "G2 takes[0].file"),
    (r#""file":"t#.pam""#, r#""file":1"#, "G2 takes[0].file"),
    (
        r#""file":"t#.pam""#,
        r#""file":"t#.pam","zebra":1"#,
        "G2 takes[0].zebra",
    ),
    (
        r#""edits":[{"node":"u/b","param":"rx","value":2}]"#,
        r#""edits":[]"#,
        "G3 takes[0].edits",
    ),
    (
        r#","edits":[{"node":"u/b","param":"rx","value":2}]"#,
        "",
        "G2 takes[0].edits",
    ),
    (r#""node":"u/b","#, "", "G2 takes[0].edits[0].node"),
    (
        r#""param":"rx""#,
        r#""param":1"#,
        "G2 takes[0].edits[0].param",
    ),
    (
        r#""param":"rx""#,
        r#""param":"rx","step":true"#,
        "G2 takes[0].edits[0].step",
    ),
    (r#","value":2"#, "", "G2 takes[0].edits[0].value"),
    (
        r#""value":2"#,
        r#""value":2.5"#,
        "G2 takes[0].edits[0].value",
    ),
    (
        r#""value":2"#,
        r#""value":{"keys":[]}"#,
        "G3 takes[0].edits[0].value",
    ),
    (
        r#""value":2"#,
        r#""value":{"keys":[[1000000,1]]}"#,
        "G3 takes[0].edits[0].value",
    ),
    // The order: groups come before nodes, and nodes before takes.
    (
        r#","output":"b"}],"nodes":["#,
        r#"}],"nodes":[1,"#,
        "G2 groups[0].output",
    ),
    (
        r#"{"name":"u","group":"soft","clips":{"in":"s"}}],"takes":[{"#,
        r#"1],"takes":[1,{"#,
        "G2 nodes[1]",
    ),
];

#[test]
fn each_change_of_groups_and_takes_is_told(rt: HostRuntime) {
    changes_are_told(&rt, OF_GROUPS);
    changes_are_told(&rt, OF_NODES);
    changes_are_told(&rt, OF_TAKES);
}

// Of that graph with each of these changes this is read.
fn changes_are_told(rt: &(impl Abort + AllocGlobal), changes: &[(&str, &str, &str)]) {
    for (old, new, wanted) in changes {
        let text = changed_in(rt.alloc(), GROUPED, old, new).expect(rt, "no text");
        tells(rt, &(old, new), text.as_bytes(), wanted);
    }
}

// Lists at both ends of their lengths: what is replaced, the item, how many of it, and what is then read.
const LENGTHS: &[(&str, &str, u32, &str)] = &[
    (r#"["in"]"#, r#""i""#, 16, "2"),
    (r#"["in"]"#, r#""i""#, 17, "G3 groups[0].inputs"),
    (
        r#"[{"node":"u/b","param":"rx","value":2}]"#,
        r#"{"node":"u/b","param":"rx","value":2}"#,
        64,
        "2",
    ),
    (
        r#"[{"node":"u/b","param":"rx","value":2}]"#,
        r#"{"node":"u/b","param":"rx","value":2}"#,
        65,
        "G3 takes[0].edits",
    ),
    (
        r#"[{"name":"b","effect":"boxblur","clips":{"Source":"in"},"params":{"rx":1}}]"#,
        r#"{"name":"b","effect":"e"}"#,
        256,
        "2",
    ),
    (
        r#"[{"name":"b","effect":"boxblur","clips":{"Source":"in"},"params":{"rx":1}}]"#,
        r#"{"name":"b","effect":"e"}"#,
        257,
        "G3 groups[0].nodes",
    ),
    (
        r#"[{"name":"b","effect":"boxblur","clips":{"Source":"in"},"params":{"rx":1}}]"#,
        r#"{"name":"b","effect":"e"}"#,
        0,
        "G3 groups[0].nodes",
    ),
    (
        r#"[{"file":"t#.pam","edits":[{"node":"u/b","param":"rx","value":2}]}]"#,
        r#"{"file":"t#.pam","edits":[{"node":"u/b","param":"rx","value":2}]}"#,
        64,
        "2",
    ),
    (
        r#"[{"file":"t#.pam","edits":[{"node":"u/b","param":"rx","value":2}]}]"#,
        r#"{"file":"t#.pam","edits":[{"node":"u/b","param":"rx","value":2}]}"#,
        65,
        "G3 takes",
    ),
    (
        r#"[{"name":"soft","inputs":["in"],"nodes":[{"name":"b","effect":"boxblur","clips":{"Source":"in"},"params":{"rx":1}}],"output":"b"}]"#,
        r#"{"name":"g","inputs":[],"nodes":[{"name":"b","effect":"e"}],"output":"b"}"#,
        64,
        "2",
    ),
    (
        r#"[{"name":"soft","inputs":["in"],"nodes":[{"name":"b","effect":"boxblur","clips":{"Source":"in"},"params":{"rx":1}}],"output":"b"}]"#,
        r#"{"name":"g","inputs":[],"nodes":[{"name":"b","effect":"e"}],"output":"b"}"#,
        65,
        "G3 groups",
    ),
];

#[test]
fn lists_of_groups_and_takes_have_limits(rt: HostRuntime) {
    for (old, item, count, wanted) in LENGTHS {
        let list = repeated(rt.alloc(), "[", item, *count, "]").expect(&rt, "no list");
        let text = changed_in(rt.alloc(), GROUPED, old, list.as_str()).expect(&rt, "no text");
        tells(&rt, &(item, count), text.as_bytes(), wanted);
    }
}

#[test]
fn groups_and_takes_are_read(rt: HostRuntime) {
    let alloc = rt.alloc();
    let mut graph = read_graph(alloc, GROUPED.as_bytes(), 256, 4096).expect(&rt, "no graph");
    names_rise(&graph);
    same(&rt, graph.format, 2);
    soft_groups(&rt, graph.groups.items());
    same(&rt, uses_in(graph.nodes.items()), 1);
    let takes = graph.take_takes(alloc);
    same(&rt, (takes.len(), graph.takes.items().len()), (1, 0));
    takes_of_two(&rt, takes.as_slice());
}

// Each is the group of the graph.
fn soft_groups(rt: &impl Abort, groups: &[RawGroup]) {
    for group in groups {
        same(rt, (group.name.text(), group.output.text()), ("soft", "b"));
        for input in group.inputs.items() {
            same(rt, input.text(), "in");
        }
        for node in group.nodes.items() {
            same(rt, node.name.text(), "b");
            same(rt, node.path.text(), "groups[0].nodes[0]");
        }
    }
}

fn uses_in(nodes: &[RawNode]) -> usize {
    nodes
        .iter()
        .filter(|node| matches!(&node.work, RawWork::GroupUse { .. }))
        .count()
}

// Each is the take of the graph.
fn takes_of_two(rt: &impl Abort, takes: &[RawTake]) {
    for take in takes {
        same(rt, (take.file.text(), take.edits.len()), ("t#.pam", 1));
        for edit in &take.edits {
            same(rt, (edit.node.text(), edit.param.text()), ("u/b", "rx"));
            let is_two = matches!(&edit.value, RawValue::Plain(RawScalar::Int(2)));
            same(rt, is_two, true);
        }
    }
}

// A graph's bytes, and its text in format 2: members in the order of their names, with no blanks.
const MIGRATED: &[(&str, &str)] = &[
    (
        r#" { "ofxr" : 1, "a":[1, "x", true], "b": {"z":-1,"y":null} }"#,
        r#"{"a":[1,"x",true],"b":{"y":null,"z":-1},"ofxr":2}"#,
    ),
    (r#"{"ofxr":2}"#, r#"{"ofxr":2}"#),
    (r#"{}"#, r#"{"ofxr":2}"#),
];

#[test]
fn migrated_text_is_compact(rt: HostRuntime) {
    let alloc = rt.alloc();
    for (text, wanted) in MIGRATED {
        let answer = migrated(alloc, text.as_bytes()).expect(&rt, "no text");
        same_at(&rt, text, answer.as_str(), *wanted);
    }
    let refused = match migrated(alloc, b"{") {
        Ok(_text) => false,
        Err(fault) => match fault {
            GraphFault::Refused(_code, path) => path.text().is_empty(),
            GraphFault::Memory => false,
        },
    };
    same(&rt, refused, true);
}
