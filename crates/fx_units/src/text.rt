use crate::same::{same, same_at};
use fx_pixel::{Components, Depth, Format};
use fx_text::{
    GraphCode, GraphFault, RawContext, RawGraph, RawNode, RawParam, RawScalar, RawValue, RawWork,
    names_rise, printed_graph_reads_back, read_graph,
};
use std::alloc::{AllocError, Global};
use std::fmt::Debug;
use std::process::Abort;

// The first graph that a newcomer sees: one solid.
const FIRST: &str =
    r#"{"ofxr":1,"project":{"width":2,"height":1,"depth":"byte","components":"RGBA"},"output":{"node":"s","file":"o#.pam","format":"RGB_ALPHA"},"range":{"first":0,"last":0},"nodes":[{"name":"s","effect":"solid","params":{"r":1,"g":"0.5","b":0,"a":1}}]}"#;

// A graph that has every member of the format.
const WHOLE: &str =
    r#"{"ofxr":1,"project":{"width":4,"height":2,"depth":"short","components":"Alpha"},"output":{"node":"b","file":"o#.pam","format":"RGB"},"range":{"first":7,"last":9},"nodes":[{"name":"s","source":"s#.pam","first":3,"last":5,"outside":"hold","depth":"byte","components":"RGBA"},{"name":"b","effect":"blend","context":"filter","clips":{"Source":"s","Back":"s"},"params":{"rx":{"keys":[[-5,1],[6,"0.5"]],"step":true},"on":false}}]}"#;

const SHORT: &str = "0123456789012345678901234567890123456789012345678901234567890123";

// What is read of bytes: the number of nodes, or the code and the path.
pub(crate) fn told(alloc: Global, bytes: &[u8]) -> Result<String, AllocError> {
    match read_graph(alloc, bytes, 256, 4096) {
        Ok(graph) => format!(in alloc; "{}", graph.nodes.items().len()),
        Err(GraphFault::Memory) => format!(in alloc; "memory"),
        Err(GraphFault::Refused(code, path)) => {
            let (number, text) = (number_of(code), path.text());
            format!(in alloc; "G{number} {text}")
        }
    }
}

fn number_of(code: GraphCode) -> u32 {
    match code {
        GraphCode::NotJson => 1,
        GraphCode::WrongForm => 2,
        GraphCode::NumberOutOfRange => 3,
        _ => 0,
    }
}

// What is read of bytes is this. The row is of a table.
pub(crate) fn tells<L: Debug>(
    rt: &(impl Abort + AllocGlobal),
    row: &L,
    bytes: &[u8],
    wanted: &str,
) {
    let answer = told(rt.alloc(), bytes).expect(rt, "no answer");
    same_at(rt, row, answer.as_str(), wanted);
}

// A graph, with a text of it replaced.
pub(crate) fn changed_in(
    alloc: Global,
    whole: &str,
    old: &str,
    new: &str,
) -> Result<String, AllocError> {
    match whole.split_once(old) {
        Some((before, after)) => format!(in alloc; "{before}{new}{after}"),
        None => format!(in alloc; "no {old}"),
    }
}

// The whole graph, with a text of it replaced.
fn changed(alloc: Global, old: &str, new: &str) -> Result<String, AllocError> {
    changed_in(alloc, WHOLE, old, new)
}

// A text with another one between two of its own, so many times.
pub(crate) fn repeated(
    alloc: Global,
    before: &str,
    item: &str,
    count: u32,
    after: &str,
) -> Result<String, AllocError> {
    let mut text = before.to_string(alloc)?;
    for k in 0..count {
        if k > 0 {
            text.push_str(",")?;
        }
        text.push_str(item)?;
    }
    text.push_str(after)?;
    Ok(text)
}

// Each text of the whole graph, what stands there instead, and what is then read: first of the top.
const OF_TOP: &[(&str, &str, &str)] = &[
    (r#""ofxr":1"#, r#""ofxr":1"#, "2"),
    (r#""ofxr":1,"#, "", "G2 ofxr"),
    (r#""ofxr":1"#, r#""ofxr":0"#, "G3 ofxr"),
    (r#""ofxr":1"#, r#""ofxr":2"#, "2"),
    (r#""ofxr":1"#, r#""ofxr":3"#, "G3 ofxr"),
    (r#""ofxr":1"#, r#""ofxr":1,"groups":[]"#, "G2 groups"),
    (r#""ofxr":1"#, r#""ofxr":3,"groups":[]"#, "G2 groups"),
    (r#""ofxr":1,"#, r#""groups":[],"#, "G2 groups"),
    (r#""ofxr":1"#, r#""ofxr":-1"#, "G3 ofxr"),
    (r#""ofxr":1"#, r#""ofxr":"1""#, "G2 ofxr"),
    (r#""ofxr":1"#, r#""ofxr":1e0"#, "G2 ofxr"),
    (r#""ofxr":1"#, r#""ofxr":1.0"#, "G2 ofxr"),
    (r#""ofxr":1"#, r#""ofxr":-0"#, "G2 ofxr"),
    (r#""ofxr":1"#, r#""ofxr":9223372036854775808"#, "G3 ofxr"),
    (r#""ofxr":1"#, r#""ofxr":18446744073709551615"#, "G3 ofxr"),
    (r#""ofxr":1"#, r#""ofxr":18446744073709551616"#, "G2 ofxr"),
    (r#""ofxr":1"#, r#""ofxr":2,"ofxr":1"#, "2"),
    (r#""ofxr":1"#, r#""ofxr":1,"zebra":1,"apple":2"#, "G2 apple"),
];

// The project.
const OF_PROJECT: &[(&str, &str, &str)] = &[
    (
        r#""project":{"width":4,"height":2,"depth":"short","components":"Alpha"},"#,
        "",
        "G2 project",
    ),
    (
        r#""project":{"width":4"#,
        r#""project":{"wide":4"#,
        "G2 project.wide",
    ),
    (r#""width":4,"#, "", "G2 project.width"),
    (r#""width":4"#, r#""width":0"#, "G3 project.width"),
    (r#""width":4"#, r#""width":1"#, "2"),
    (r#""width":4"#, r#""width":4096"#, "2"),
    (r#""width":4"#, r#""width":4097"#, "G3 project.width"),
    (r#""width":4"#, r#""width":null"#, "G2 project.width"),
    (r#""height":2,"#, "", "G2 project.height"),
    (r#""height":2"#, r#""height":0"#, "G3 project.height"),
    (r#""height":2"#, r#""height":4096"#, "2"),
    (r#""height":2"#, r#""height":4097"#, "G3 project.height"),
    (r#""height":2"#, r#""height":true"#, "G2 project.height"),
    (r#""depth":"short","#, "", "G2 project.depth"),
    (
        r#""depth":"short""#,
        r#""depth":"Byte""#,
        "G2 project.depth",
    ),
    (r#""depth":"short""#, r#""depth":8"#, "G2 project.depth"),
    (r#","components":"Alpha""#, "", "G2 project.components"),
    (
        r#""components":"Alpha""#,
        r#""components":"RGB""#,
        "G2 project.components",
    ),
];

// The output.
const OF_OUTPUT: &[(&str, &str, &str)] = &[
    (
        r#""output":{"node":"b","file":"o#.pam","format":"RGB"},"#,
        "",
        "G2 output",
    ),
    (
        r#""output":{"node":"b","file":"o#.pam","format":"RGB"}"#,
        r#""output":[]"#,
        "G2 output",
    ),
    (r#""node":"b","#, "", "G2 output.node"),
    (r#""node":"b""#, r#""node":1"#, "G2 output.node"),
    (r#""node":"b""#, r#""node":"""#, "2"),
    (r#""file":"o#.pam","#, "", "G2 output.file"),
    (r#""file":"o#.pam""#, r#""file":null"#, "G2 output.file"),
    (r#""file":"o#.pam""#, r#""file":"""#, "2"),
    (r#","format":"RGB""#, "", "G2 output.format"),
    (r#""format":"RGB""#, r#""format":"GRAYSCALE""#, "2"),
    (r#""format":"RGB""#, r#""format":"RGB_ALPHA""#, "2"),
    (r#""format":"RGB""#, r#""format":"rgb""#, "G2 output.format"),
];

// The range.
const OF_RANGE: &[(&str, &str, &str)] = &[
    (r#""range":{"first":7,"last":9},"#, "", "G2 range"),
    (
        r#""range":{"first":7"#,
        r#""range":{"from":7"#,
        "G2 range.from",
    ),
    (r#""first":7,"#, "", "G2 range.first"),
    (r#""first":7"#, r#""first":-1"#, "G3 range.first"),
    (r#""first":7"#, r#""first":"7""#, "G2 range.first"),
    (r#""first":7,"last":9"#, r#""first":0,"last":0"#, "2"),
    (
        r#""first":7,"last":9"#,
        r#""first":999999,"last":999999"#,
        "2",
    ),
    (
        r#""first":7,"last":9"#,
        r#""first":1000000,"last":1000000"#,
        "G3 range.first",
    ),
    (r#""first":7,"last":9"#, r#""first":7"#, "G2 range.last"),
    (r#""last":9"#, r#""last":6"#, "G3 range.last"),
    (r#""last":9"#, r#""last":7"#, "2"),
    (r#""last":9"#, r#""last":100006"#, "2"),
    (r#""last":9"#, r#""last":100007"#, "G3 range.last"),
    (
        r#""first":7,"last":9"#,
        r#""first":999998,"last":1000000"#,
        "G3 range.last",
    ),
    (r#""last":9"#, r#""last":[]"#, "G2 range.last"),
];

// A source.
const OF_SOURCE: &[(&str, &str, &str)] = &[
    (r#""nodes":["#, r#""nodes":[1,"#, "G2 nodes[0]"),
    (
        r#"{"name":"s","source""#,
        r#"{"source""#,
        "G2 nodes[0].name",
    ),
    (r#""name":"s""#, r#""name":"""#, "G3 nodes[0].name"),
    (r#""name":"s""#, r#""name":7"#, "G2 nodes[0].name"),
    (
        r#""source":"s#.pam""#,
        r#""source":[]"#,
        "G2 nodes[0].source",
    ),
    (
        r#""source":"s#.pam""#,
        r#""source":"s#.pam","step":1"#,
        "G2 nodes[0].step",
    ),
    (
        r#""source":"s#.pam""#,
        r#""source":"s#.pam","effect":"solid""#,
        "G2 nodes[0].effect",
    ),
    (r#""first":3,"#, "", "G2 nodes[0].first"),
    (r#""first":3"#, r#""first":-1"#, "G3 nodes[0].first"),
    (r#""first":3,"last":5"#, r#""first":0,"last":999999"#, "2"),
    (
        r#""first":3,"last":5"#,
        r#""first":1000000,"last":5"#,
        "G3 nodes[0].first",
    ),
    (r#","last":5"#, "", "G2 nodes[0].last"),
    (r#""last":5"#, r#""last":2"#, "G3 nodes[0].last"),
    (r#""last":5"#, r#""last":3"#, "2"),
    (r#""last":5"#, r#""last":1000000"#, "G3 nodes[0].last"),
    (r#""last":5"#, r#""last":"x""#, "G2 nodes[0].last"),
    (r#""outside":"hold","#, "", "2"),
    (r#""outside":"hold""#, r#""outside":"black""#, "2"),
    (
        r#""outside":"hold""#,
        r#""outside":"white""#,
        "G2 nodes[0].outside",
    ),
    (
        r#""outside":"hold""#,
        r#""outside":true"#,
        "G2 nodes[0].outside",
    ),
    (r#""depth":"byte","#, "", "2"),
    (
        r#""depth":"byte""#,
        r#""depth":"float""#,
        "G2 nodes[0].depth",
    ),
    (r#","components":"RGBA""#, "", "2"),
    (
        r#""components":"RGBA""#,
        r#""components":null"#,
        "G2 nodes[0].components",
    ),
];

// An effect.
const OF_EFFECT: &[(&str, &str, &str)] = &[
    (r#"{"name":"b","#, "{", "G2 nodes[1].name"),
    (r#""effect":"blend","#, "", "G2 nodes[1].effect"),
    (
        r#""effect":"blend""#,
        r#""effect":false"#,
        "G2 nodes[1].effect",
    ),
    (r#""context":"filter","#, "", "2"),
    (r#""context":"filter""#, r#""context":"general""#, "2"),
    (
        r#""context":"filter""#,
        r#""context":"paint""#,
        "G2 nodes[1].context",
    ),
    (
        r#""context":"filter""#,
        r#""context":null"#,
        "G2 nodes[1].context",
    ),
    (r#""clips":{"Source":"s","Back":"s"},"#, "", "2"),
    (
        r#"{"Source":"s","Back":"s"}"#,
        r#"["s"]"#,
        "G2 nodes[1].clips",
    ),
    (
        r#"{"Source":"s","Back":"s"}"#,
        r#"{"Source":1,"Back":2}"#,
        "G2 nodes[1].clips.Back",
    ),
    (
        r#""params":{"rx":{"keys":[[-5,1],[6,"0.5"]],"step":true},"on":false}"#,
        r#""params":[]"#,
        "G2 nodes[1].params",
    ),
    (r#""on":false"#, r#""on":null"#, "G2 nodes[1].params.on"),
    (r#""on":false"#, r#""on":0.5"#, "G2 nodes[1].params.on"),
    (r#""on":false"#, r#""on":-9223372036854775808"#, "2"),
    (
        r#""on":false"#,
        r#""on":9223372036854775808"#,
        "G3 nodes[1].params.on",
    ),
    (r#""on":false"#, r#""on":{}"#, "G2 nodes[1].params.on"),
];

// Keys.
const OF_KEYS: &[(&str, &str, &str)] = &[
    (r#""step":true"#, r#""step":1"#, "G2 nodes[1].params.rx"),
    (r#","step":true"#, "", "2"),
    (r#""step":true"#, r#""stop":true"#, "G2 nodes[1].params.rx"),
    (r#"[[-5,1],[6,"0.5"]]"#, "[]", "G3 nodes[1].params.rx"),
    (r#"[[-5,1],[6,"0.5"]]"#, "[[-999999,true],[999999,-7]]", "2"),
    (r#"[-5,1]"#, "[-1000000,1]", "G3 nodes[1].params.rx"),
    (r#"[-5,1]"#, "[1000000,1]", "G3 nodes[1].params.rx"),
    (r#"[-5,1]"#, "[1000000,null]", "G2 nodes[1].params.rx"),
    (
        r#"[-5,1]"#,
        "[0.5,18446744073709551615]",
        "G2 nodes[1].params.rx",
    ),
    (
        r#"[-5,1]"#,
        "[18446744073709551615,9223372036854775808]",
        "G3 nodes[1].params.rx",
    ),
    (r#"[-5,1]"#, "[0,1,2]", "G2 nodes[1].params.rx"),
];

#[test]
fn each_member_is_read_or_refused(rt: HostRuntime) {
    changes_are_told(&rt, OF_TOP);
    changes_are_told(&rt, OF_PROJECT);
    changes_are_told(&rt, OF_OUTPUT);
    changes_are_told(&rt, OF_RANGE);
    changes_are_told(&rt, OF_SOURCE);
    changes_are_told(&rt, OF_EFFECT);
    changes_are_told(&rt, OF_KEYS);
}

// Of the whole graph with each of these changes this is read.
fn changes_are_told(rt: &(impl Abort + AllocGlobal), changes: &[(&str, &str, &str)]) {
    for (old, new, wanted) in changes {
        let text = changed(rt.alloc(), old, new).expect(rt, "no text");
        tells(rt, &new, text.as_bytes(), wanted);
    }
}

// Whether a value of the whole graph is what stands there.
fn is_given(value: &RawValue) -> bool {
    match value {
        RawValue::Plain(RawScalar::Flag(on)) => !*on,
        RawValue::Plain(_) => false,
        RawValue::Keyed { keys, step } => *step
            && keys
                .items()
                .iter()
                .all(|key| key.frame == -5 || key.frame == 6),
    }
}

#[test]
fn a_whole_graph_is_read(rt: HostRuntime) {
    let graph = read_graph(rt.alloc(), WHOLE.as_bytes(), 256, 4096).expect(&rt, "no graph");
    names_rise(&graph);
    whole_head(&rt, &graph);
    for node in graph.nodes.items() {
        whole_node(&rt, node);
    }
}

// What stands beside the nodes is that of the whole graph.
fn whole_head(rt: &impl Abort, graph: &RawGraph) {
    same(rt, (graph.format, graph.first, graph.last), (1, 7, 9));
    same(rt, (graph.project.width, graph.project.height), (4, 2));
    same(rt, graph.project.depth, Depth::Short);
    same(rt, graph.project.components, Components::Alpha);
    let (node, file) = (graph.output.node.text(), graph.output.file.text());
    same(rt, (node, file), ("b", "o#.pam"));
    same(rt, graph.output.format, Format::Rgb);
}

// The node is the source or the effect of the whole graph.
fn whole_node(rt: &impl Abort, node: &RawNode) {
    match &node.work {
        RawWork::Source {
            pattern,
            first,
            last,
            hold,
            depth,
            components,
        } => {
            same(rt, (node.name.text(), pattern.text()), ("s", "s#.pam"));
            same(rt, (*first, *last, *hold), (3, 5, true));
            same(rt, (*depth, *components), (Depth::Byte, Components::Rgba));
        }
        RawWork::Effect {
            effect,
            context,
            clips,
            params,
        } => {
            same(rt, (node.name.text(), effect.text()), ("b", "blend"));
            same(rt, *context, Some(RawContext::Filter));
            same(rt, clips.items().len(), 2);
            same(rt, given_in(params.items()), 2);
        }
        RawWork::GroupUse { group, .. } => same(rt, group.text(), ""),
    }
}

fn given_in(params: &[RawParam]) -> usize {
    params.iter().filter(|param| is_given(&param.value)).count()
}

// Two faults in one file: which one counts.
const ORDER: &[(&str, &str)] = &[
    (r#"{"ofxr":2,"zebra":1}"#, "G2 zebra"),
    (r#"{"zebra":1,"Zebra":1}"#, "G2 Zebra"),
    (r#"{"project":1}"#, "G2 ofxr"),
    (r#"{"ofxr":2,"project":1}"#, "G2 project"),
    (r#"{"ofxr":3,"project":1}"#, "G3 ofxr"),
    (
        r#"{"ofxr":1,"project":{"width":0},"nodes":1}"#,
        "G3 project.width",
    ),
    (r#"{"ofxr":1,"project":{"width":0,"a":1}}"#, "G2 project.a"),
    (
        r#"{"ofxr":1,"project":{"height":0,"depth":1}}"#,
        "G2 project.width",
    ),
    (r#"{"ofxr":9223372036854775808}"#, "G3 ofxr"),
    ("{", "G1 "),
    ("[]", "G2 "),
    ("", "G1 "),
    ("\u{feff}{}", "G1 "),
];

#[test]
fn the_first_fault_counts(rt: HostRuntime) {
    for (text, wanted) in ORDER {
        tells(&rt, &text, text.as_bytes(), wanted);
    }
    let bytes = FIRST.as_bytes();
    for end in 0..bytes.len() {
        tells(&rt, &end, &bytes[..end], "G1 ");
    }
    printed_graph_reads_back();
}

// Lists at both ends of their lengths, and names at theirs.
#[test]
fn lengths_have_limits(rt: HostRuntime) {
    names_have_limits(&rt);
    nodes_have_limits(&rt);
    keys_have_limits(&rt);
}

fn names_have_limits(rt: &(impl Abort + AllocGlobal)) {
    for (end, wanted) in [("", "2"), ("4", "G3 nodes[0].name")] {
        let name = format!(in rt.alloc(); "\"name\":\"{SHORT}{end}\"").expect(rt, "no name");
        let text = changed(rt.alloc(), "\"name\":\"s\"", name.as_str()).expect(rt, "no text");
        tells(rt, &end, text.as_bytes(), wanted);
    }
}

// A node, how many of it stand in a graph, and what is then read.
const NODES: &[(&str, u32, &str)] = &[
    (r#"{"name":"n","effect":"e"}"#, 0, "G3 nodes"),
    (r#"{"name":"n","effect":"e"}"#, 1, "1"),
    (r#"{"name":"n","effect":"e"}"#, 256, "256"),
    (r#"{"name":"n","effect":"e"}"#, 257, "G3 nodes"),
    ("1", 257, "G3 nodes"),
];

fn nodes_have_limits(rt: &(impl Abort + AllocGlobal)) {
    let (before, _) = FIRST.split_once("[{").unwrap_or(("", ""));
    for (item, count, wanted) in NODES {
        let nodes = repeated(rt.alloc(), "[", item, *count, "]}").expect(rt, "no nodes");
        let text = format!(in rt.alloc(); "{before}{nodes}").expect(rt, "no text");
        tells(rt, &(count, item), text.as_bytes(), wanted);
    }
}

// The same, of the keys of a parameter.
const KEYS: &[(&str, u32, &str)] = &[
    ("[0,1]", 1000, "2"),
    ("[0,1]", 1001, "G3 nodes[1].params.rx"),
    ("1", 1001, "G3 nodes[1].params.rx"),
];

fn keys_have_limits(rt: &(impl Abort + AllocGlobal)) {
    for (item, count, wanted) in KEYS {
        let keys = repeated(rt.alloc(), "[", item, *count, "]").expect(rt, "no keys");
        let text = changed(rt.alloc(), r#"[[-5,1],[6,"0.5"]]"#, keys.as_str()).expect(
            rt, "no text",
        );
        tells(rt, &count, text.as_bytes(), wanted);
    }
}

fn add(rt: &impl Abort, text: &mut String, bracket: &str, count: u32) {
    for _ in 0..count {
        text.push_str(bracket).expect(rt, "no memory");
    }
}

// A value of JSON that nests so deep, in the place of a parameter's.
#[test]
fn deep_values_are_no_json(rt: HostRuntime) {
    // The value stands in the graph, its nodes, a node and the parameters: four deep.
    for (depth, wanted) in [(123, "G2 nodes[1].params.on"), (124, "G1 ")] {
        let mut value = String::new(rt.alloc());
        add(&rt, &mut value, "[", depth);
        add(&rt, &mut value, "]", depth);
        let value = format!(in rt.alloc(); "\"on\":{value}").expect(&rt, "no value");
        let text = changed(rt.alloc(), "\"on\":false", value.as_str()).expect(&rt, "no text");
        tells(&rt, &depth, text.as_bytes(), wanted);
    }
    let mut open = String::new(rt.alloc());
    add(&rt, &mut open, "[", 1000);
    tells(&rt, &1000, open.as_bytes(), "G1 ");
}
