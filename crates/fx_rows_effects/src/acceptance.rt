//! What graph files that are accepted over the effects of the program become: the form of each node, and what it holds.
//! Which are accepted, and what is told of the others, is said by cases of fx_cases.
use crate::graphs::{file_of, graph_of};
use crate::same::same;
use fx_effect::Context;
use fx_graph::{Graph, Node, Work};
use fx_pixel::{Components, Depth};
use fx_shipped::Shipped;
use std::alloc::{AllocError, Global};

const PROJECT: &str = r#"{"width":4,"height":2,"depth":"byte","components":"RGBA"}"#;

// Sources of each form, and effects over them in a project of bytes and RGBA.
const FORMED: &str =
    r#"{"name":"br","source":"s","first":0,"last":0},{"name":"ba","source":"s","first":0,"last":0,"components":"Alpha"},{"name":"sr","source":"s","first":0,"last":0,"depth":"short"},{"name":"sa","source":"s","first":0,"last":0,"depth":"short","components":"Alpha"},{"name":"a","effect":"grain"},{"name":"b","effect":"gain","clips":{"Source":"sa"}},{"name":"c","effect":"posterise","clips":{"Source":"sr"}},{"name":"d","effect":"invert","clips":{"Source":"ba"}},{"name":"e","effect":"dissolve","clips":{"SourceFrom":"ba","SourceTo":"br"}},{"name":"f","effect":"dissolve","clips":{"SourceFrom":"br","SourceTo":"sa"}},{"name":"g","effect":"keymix","clips":{"A":"ba","B":"ba","Mask":"sr"}},{"name":"z","effect":"merge","clips":{"A":"ba","B":"ba"}}"#;

// Each of these nodes with its form.
const FORMS: &[(&str, Depth, Components)] = &[
    ("br", Depth::Byte, Components::Rgba),
    ("ba", Depth::Byte, Components::Alpha),
    ("sr", Depth::Short, Components::Rgba),
    ("sa", Depth::Short, Components::Alpha),
    // No input tells, so it has the project's.
    ("a", Depth::Byte, Components::Rgba),
    // As its clip; bytes alone; RGBA alone.
    ("b", Depth::Short, Components::Alpha),
    ("c", Depth::Byte, Components::Rgba),
    ("d", Depth::Byte, Components::Rgba),
    // The deepest depth, and RGBA where one clip has it.
    ("e", Depth::Byte, Components::Rgba),
    ("f", Depth::Short, Components::Rgba),
    // A mask tells a depth, and no components.
    ("g", Depth::Short, Components::Alpha),
    ("z", Depth::Byte, Components::Alpha),
];

#[test]
fn forms_are_negotiated(rt: HostRuntime) {
    let alloc = rt.alloc();
    let text = file_of(alloc, PROJECT, "o#.pam", FORMED).expect(&rt, "no text");
    let graph = graph_of(alloc, text.as_str()).ok().expect(&rt, "refused");
    same(&rt, graph.nodes.len(), FORMS.len());
    for (at, (name, depth, components)) in FORMS.iter().enumerate() {
        let node = graph.nodes.get(at).expect(&rt, "no node");
        same(
            &rt,
            (node.name.text(), node.depth, node.components),
            (*name, *depth, *components),
        );
    }
}

// A blur of two parameters, an effect with a choice, and one with four levels.
const MADE: &str =
    r#"{"name":"s","source":"s#.pam","first":3,"last":5,"outside":"hold"},{"name":"z","effect":"boxblur","context":"general","clips":{"Source":"s"},"params":{"rx":{"keys":[[-1,0],[9,5]]}}},{"name":"y","effect":"mirror","clips":{"Source":"z"},"params":{"axis":"y"}},{"name":"x","effect":"solid","params":{"g":"0.25"}}"#;

// What the node of the blur holds.
fn is_blur(node: &Node<Shipped>) -> bool {
    match &node.work {
        Work::Source { .. } => false,
        Work::Effect {
            effect,
            context,
            clips,
            names,
            optional,
            masks,
            params,
        } => {
            *effect == Shipped::Boxblur
                && *context == Context::General
                && clips.as_slice() == [Some(0)].as_slice()
                && names.items().iter().all(|name| name.text() == "Source")
                && optional.items() == [false].as_slice()
                && masks.items() == [false].as_slice()
                && params.len() == 2
        }
    }
}

// The values of all parameters of a graph at a frame, in their order.
fn numbers_at(alloc: Global, graph: &Graph<Shipped>, frame: i64) -> Result<Vec<i64>, AllocError> {
    let mut numbers = Vec::new(alloc);
    for node in &graph.nodes {
        if let Work::Effect { params, .. } = &node.work {
            for param in params {
                numbers.push(param.value_at(frame))?;
            }
        }
    }
    Ok(numbers)
}

// Half way from frame -1 to frame 9 a whole number between 0 and 5 is rounded down to 2; a level of 0.25 is 16,384.
const NUMBERS: &[i64] = &[2, 1, 1, 0, 16_384, 0, 65_536];

#[test]
fn a_graph_is_made(rt: HostRuntime) {
    let alloc = rt.alloc();
    let text = file_of(alloc, PROJECT, "o.##.pam", MADE).expect(&rt, "no text");
    let graph = graph_of(alloc, text.as_str()).ok().expect(&rt, "refused");
    same(&rt, (graph.output, graph.first, graph.last), (1, 0, 9));
    let name = graph.file.name(alloc, 8).expect(&rt, "no name");
    same(&rt, name.text(), "o.08.pam");
    same(&rt, (graph.project.x2, graph.project.y2), (4, 2));
    same(&rt, graph.nodes.len(), 4);
    assert!(rt; graph.nodes.iter().any(is_blur));
    let numbers = numbers_at(alloc, &graph, 4).expect(&rt, "no numbers");
    same(&rt, numbers.as_slice(), NUMBERS);
}
