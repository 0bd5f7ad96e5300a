//! Reads the objects of a graph file, each as its definition says it: first that it is an object and has no
//! unknown member, then its members in the order of the format.
ghost use Rattle.std.specs.Prelude.{◌≡◌, ◌≤◌, ◌+◌, ◌-◌, [], Ok, IfOk, length};
ghost use Rattle.fx_base.specs.declared.limits.TheConstants.{LAST_FRAME, MOST_FRAMES, MOST_NODES, MOST_SIDE};
ghost use Rattle.serde_json.specs.View.{view, items_view};
ghost use Rattle.fx_text.specs.Answers.{Answers, Refuses};
ghost use Rattle.fx_text.specs.Json.{depth_of, components_of, format_of, depth_at, components_at, format_at};
ghost use Rattle.fx_text.specs.Json.{outside_of, hold_at, depth_or, components_or};
ghost use Rattle.fx_text.specs.Paths.{inside};
ghost use Rattle.fx_text.specs.Objects.{project_of, output_of, range_of, context_of, context_at, source_of};
ghost use Rattle.fx_text.specs.Objects.{source_frames, taking_of, source_work, effect_work};
ghost use Rattle.fx_text.specs.Objects.{project_at, output_at, frames_at, nodes_at};
ghost use Rattle.fx_text.specs.Objects.{clips_at, params_at, effect_of, use_of, node_of, nodes_of, is_grouped, top_keys, graph_of};
ghost use Rattle.fx_text.specs.Objects.{graph_from, read_graph};
ghost use Rattle.fx_text.specs.Nodes.{AreFrames, IsInRange};
ghost use Rattle.fx_text.specs.Raw.{IsHead};
ghost use Rattle.fx_text.specs.Json.{check_object};

use crate::fault::{GraphCode, GraphFault};
use crate::group::groups_at;
use crate::json::{
    JsonFault, check_object, fault_at, has, integer_at, list_at, member_at, name_at, short_at,
    text_at, value_of, whole_at, word_at,
};
use crate::params::{clips_in, params_in};
use crate::path::{inside, joined};
use crate::raw::{
    RawClips, RawContext, RawGraph, RawHead, RawNode, RawNodes, RawOutput, RawParams, RawProject,
    RawRange, RawWork, Taking,
};
use crate::takes::takes_at;
use fx_base::Name;
use fx_base::limits::{LAST_FRAME, MOST_FRAMES};
use fx_pixel::{Components, Depth, Format};
use serde_json::Value;
use std::alloc::Global;

fn depth_of(text: &str) -> Option<Depth>
    ensures { result ≡ depth_of text.now }
{
    match text {
        "byte" => Some(Depth::Byte),
        "short" => Some(Depth::Short),
        _ => None,
    }
}

fn components_of(text: &str) -> Option<Components>
    ensures { result ≡ components_of text.now }
{
    match text {
        "RGBA" => Some(Components::Rgba),
        "Alpha" => Some(Components::Alpha),
        _ => None,
    }
}

fn depth_at(alloc: Global, path: &str, key: &str, value: &Value) -> Result<Depth, GraphFault>
    ensures { Answers result (depth_at path.now key.now (view value.now)) }
{
    let text = text_at(alloc, path, key, value)?;
    word_at(alloc, path, key, depth_of(text))
}

fn components_at(
    alloc: Global,
    path: &str,
    key: &str,
    value: &Value,
) -> Result<Components, GraphFault>
    ensures { Answers result (components_at path.now key.now (view value.now)) }
{
    let text = text_at(alloc, path, key, value)?;
    word_at(alloc, path, key, components_of(text))
}

fn format_of(text: &str) -> Option<Format>
    ensures { result ≡ format_of text.now }
{
    match text {
        "RGB_ALPHA" => Some(Format::RgbAlpha),
        "RGB" => Some(Format::Rgb),
        "GRAYSCALE" => Some(Format::Grayscale),
        _ => None,
    }
}

fn format_at(alloc: Global, path: &str, key: &str, value: &Value) -> Result<Format, GraphFault>
    ensures { Answers result (format_at path.now key.now (view value.now)) }
{
    let text = text_at(alloc, path, key, value)?;
    word_at(alloc, path, key, format_of(text))
}

// The output.
fn output_of(alloc: Global, path: &str, value: &Value) -> Result<RawOutput, GraphFault>
    ensures { Answers result (output_of path.now (view value.now)) }
{
    check_object(alloc, path, &["node", "file", "format"], value)?;
    let node = name_at(alloc, path, "node", value)?;
    let file = name_at(alloc, path, "file", value)?;
    let format = format_at(alloc, path, "format", value)?;
    Ok(RawOutput { node, file, format })
}

// The project.
fn project_of(
    alloc: Global,
    path: &str,
    most_side: u32,
    value: &Value,
) -> Result<RawProject, GraphFault>
    requires { most_side ≤ MOST_SIDE }
    ensures { Answers result (project_of path.now most_side (view value.now)) }
{
    check_object(
        alloc,
        path,
        &["width", "height", "depth", "components"],
        value,
    )?;
    let width = whole_at(alloc, path, "width", 1, most_side, value)?;
    let height = whole_at(alloc, path, "height", 1, most_side, value)?;
    let depth = depth_at(alloc, path, "depth", value)?;
    let components = components_at(alloc, path, "components", value)?;
    Ok(RawProject {
        width,
        height,
        depth,
        components,
    })
}

// The range of frames.
fn range_of(alloc: Global, path: &str, value: &Value) -> Result<RawRange, GraphFault>
    ensures order { IfOk result (λ r. r.first ≤ r.last) }
    ensures few { IfOk result (λ r. r.last ≤ r.first + (MOST_FRAMES - 1)) }
    ensures end { IfOk result (λ r. r.last ≤ LAST_FRAME) }
    ensures answer { Answers result (range_of path.now (view value.now)) }
{
    check_object(alloc, path, &["first", "last"], value)?;
    let first = whole_at(alloc, path, "first", 0, LAST_FRAME, value)?;
    let last = whole_at(
        alloc,
        path,
        "last",
        first,
        LAST_FRAME.min(first + (MOST_FRAMES - 1)),
        value,
    )?;
    Ok(RawRange { first, last })
}

fn outside_of(text: &str) -> Option<bool>
    ensures { result ≡ outside_of text.now }
{
    match text {
        "black" => Some(false),
        "hold" => Some(true),
        _ => None,
    }
}

fn hold_at(alloc: Global, path: &str, key: &str, value: &Value) -> Result<bool, GraphFault>
    ensures { Answers result (hold_at path.now key.now (view value.now)) }
{
    if !has(key, value) {
        return Ok(false);
    }
    let text = text_at(alloc, path, key, value)?;
    word_at(alloc, path, key, outside_of(text))
}

fn depth_or(
    alloc: Global,
    path: &str,
    key: &str,
    default: Depth,
    value: &Value,
) -> Result<Depth, GraphFault>
    ensures { Answers result (depth_or path.now key.now default (view value.now)) }
{
    if has(key, value) {
        depth_at(alloc, path, key, value)
    } else {
        Ok(default)
    }
}

fn components_or(
    alloc: Global,
    path: &str,
    key: &str,
    default: Components,
    value: &Value,
) -> Result<Components, GraphFault>
    ensures { Answers result (components_or path.now key.now default (view value.now)) }
{
    if has(key, value) {
        components_at(alloc, path, key, value)
    } else {
        Ok(default)
    }
}

fn context_of(text: &str) -> Option<RawContext>
    ensures { result ≡ context_of text.now }
{
    match text {
        "generator" => Some(RawContext::Generator),
        "filter" => Some(RawContext::Filter),
        "transition" => Some(RawContext::Transition),
        "general" => Some(RawContext::General),
        _ => None,
    }
}

fn context_at(
    alloc: Global,
    path: &str,
    key: &str,
    value: &Value,
) -> Result<Option<RawContext>, GraphFault>
    ensures { Answers result (context_at path.now key.now (view value.now)) }
{
    if !has(key, value) {
        return Ok(None);
    }
    let text = text_at(alloc, path, key, value)?;
    Ok(Some(word_at(alloc, path, key, context_of(text))?))
}

// What an effect does.
fn effect_work(alloc: Global, path: &str, value: &Value) -> Result<RawWork, GraphFault>
    ensures value { Answers result (effect_work path.now (view value.now)) }
    ensures range { IfOk result (λ work. IsInRange work) }
{
    let effect = name_at(alloc, path, "effect", value)?;
    let context = context_at(alloc, path, "context", value)?;
    let clips = clips_at(alloc, path, value)?;
    let params = params_at(alloc, path, value)?;
    Ok(RawWork::Effect {
        effect,
        context,
        clips,
        params,
    })
}

// The node of this name at a path.
fn node_with(alloc: Global, path: &str, name: Name, work: RawWork) -> Result<RawNode, GraphFault>
    requires { IsInRange work }
    ensures { Answers result (Ok (record { name = name; path = path.now; work = work })) }
{
    let path = Name::of(path.to_string(alloc)?);
    Ok(RawNode { name, path, work })
}

// A node that is an effect.
fn effect_of(alloc: Global, path: &str, value: &Value) -> Result<RawNode, GraphFault>
    ensures { Answers result (effect_of path.now (view value.now)) }
{
    check_object(
        alloc,
        path,
        &["name", "effect", "context", "clips", "params"],
        value,
    )?;
    let name = short_at(alloc, path, "name", value)?;
    let work = effect_work(alloc, path, value)?;
    node_with(alloc, path, name, work)
}

fn clips_at(alloc: Global, path: &str, value: &Value) -> Result<RawClips, GraphFault>
    ensures { Answers result (clips_at path.now (view value.now)) }
{
    let path = joined(alloc, path, "clips")?;
    clips_in(alloc, path.as_str(), value.get("clips"))
}

fn params_at(alloc: Global, path: &str, value: &Value) -> Result<RawParams, GraphFault>
    ensures { Answers result (params_at path.now (view value.now)) }
{
    let path = joined(alloc, path, "params")?;
    params_in(alloc, path.as_str(), value.get("params"))
}

// A use of a group.
fn use_of(alloc: Global, path: &str, value: &Value) -> Result<RawNode, GraphFault>
    ensures { Answers result (use_of path.now (view value.now)) }
{
    check_object(alloc, path, &["name", "group", "clips"], value)?;
    let name = short_at(alloc, path, "name", value)?;
    let group = name_at(alloc, path, "group", value)?;
    let clips = clips_at(alloc, path, value)?;
    node_with(alloc, path, name, RawWork::GroupUse { group, clips })
}

// A node: where there may be groups, a use where it has a member `group`; else a source where it has a member
// `source`, and else an effect.
fn node_of(
    alloc: Global,
    path: &str,
    grouped: bool,
    project: RawProject,
    value: &Value,
) -> Result<RawNode, GraphFault>
    ensures { Answers result (node_of path.now grouped project (view value.now)) }
{
    if grouped && has("group", value) {
        use_of(alloc, path, value)
    } else if has("source", value) {
        source_of(alloc, path, project, value)
    } else {
        effect_of(alloc, path, value)
    }
}

// The frames of a source, the first and the last of them.
fn source_frames(alloc: Global, path: &str, value: &Value) -> Result<RawRange, GraphFault>
    ensures range { IfOk result (λ r. AreFrames r.first r.last) }
    ensures answer { Answers result (source_frames path.now (view value.now)) }
{
    let first = whole_at(alloc, path, "first", 0, LAST_FRAME, value)?;
    let last = whole_at(alloc, path, "last", first, LAST_FRAME, value)?;
    Ok(RawRange { first, last })
}

// How a source's frames are taken.
fn taking_of(
    alloc: Global,
    path: &str,
    project: RawProject,
    value: &Value,
) -> Result<Taking, GraphFault>
    ensures { Answers result (taking_of path.now project (view value.now)) }
{
    let hold = hold_at(alloc, path, "outside", value)?;
    let depth = depth_or(alloc, path, "depth", project.depth, value)?;
    let components = components_or(alloc, path, "components", project.components, value)?;
    Ok(Taking {
        hold,
        depth,
        components,
    })
}

// What a source does.
fn source_work(
    alloc: Global,
    path: &str,
    project: RawProject,
    value: &Value,
) -> Result<RawWork, GraphFault>
    ensures value { Answers result (source_work path.now project (view value.now)) }
    ensures range { IfOk result (λ work. IsInRange work) }
{
    let pattern = name_at(alloc, path, "source", value)?;
    let frames = source_frames(alloc, path, value)?;
    let taking = taking_of(alloc, path, project, value)?;
    Ok(RawWork::Source {
        pattern,
        first: frames.first,
        last: frames.last,
        hold: taking.hold,
        depth: taking.depth,
        components: taking.components,
    })
}

// A node that is a source.
fn source_of(
    alloc: Global,
    path: &str,
    project: RawProject,
    value: &Value,
) -> Result<RawNode, GraphFault>
    ensures { Answers result (source_of path.now project (view value.now)) }
{
    check_object(
        alloc,
        path,
        &[
            "name",
            "source",
            "first",
            "last",
            "outside",
            "depth",
            "components",
        ],
        value,
    )?;
    let name = short_at(alloc, path, "name", value)?;
    let work = source_work(alloc, path, project, value)?;
    node_with(alloc, path, name, work)
}

// The node at a place of a list.
fn node_at(
    alloc: Global,
    path: &str,
    k: usize,
    grouped: bool,
    project: RawProject,
    value: &Value,
) -> Result<RawNode, GraphFault>
    ensures { Answers result (node_of (inside path.now k) grouped project (view value.now)) }
{
    let path = inside(alloc, path, k)?;
    node_of(alloc, path.as_str(), grouped, project, value)
}

// The nodes of a list.
pub(crate) fn nodes_of(
    alloc: Global,
    path: &str,
    grouped: bool,
    project: RawProject,
    values: &[Value],
) -> Result<Vec<RawNode>, GraphFault>
    ensures ok { let wanted = nodes_of path.now grouped project (items_view values.now)
        in IfOk result (λ nodes. wanted ≡ Ok nodes.items) }
    ensures count { IfOk result (λ nodes. length nodes.items ≡ length values.now) }
    ensures err { Refuses result (nodes_of path.now grouped project (items_view values.now)) }
{
    let mut nodes = Vec::new(alloc);
    for (k, value) in values.iter().enumerate() {
        let node = node_at(alloc, path, k, grouped, project, value)?;
        nodes.push(node)?;
    }
    Ok(nodes)
}

// Whether there may be groups: `ofxr` is the whole number 2.
fn is_grouped(value: &Value) -> bool
    ensures { result ≡ is_grouped (view value.now) }
{
    match integer_at("ofxr", value) {
        Some(number) => number == 2,
        None => false,
    }
}

// That the whole is an object with no other members than the format's.
fn check_top(alloc: Global, grouped: bool, value: &Value) -> Result<(), GraphFault>
    ensures { Answers result (check_object [] (top_keys grouped) (view value.now)) }
{
    if grouped {
        check_object(
            alloc,
            "",
            &[
                "groups", "ofxr", "project", "output", "range", "nodes", "takes",
            ],
            value,
        )
    } else {
        check_object(
            alloc,
            "",
            &["ofxr", "project", "output", "range", "nodes", "takes"],
            value,
        )
    }
}

// The member `project`.
fn project_at(alloc: Global, most_side: u32, value: &Value) -> Result<RawProject, GraphFault>
    requires { most_side ≤ MOST_SIDE }
    ensures { Answers result (project_at most_side (view value.now)) }
{
    let project = member_at(alloc, "", "project", value)?;
    project_of(alloc, "project", most_side, project)
}

// The member `output`.
fn output_at(alloc: Global, value: &Value) -> Result<RawOutput, GraphFault>
    ensures { Answers result (output_at (view value.now)) }
{
    let output = member_at(alloc, "", "output", value)?;
    output_of(alloc, "output", output)
}

// The member `range`.
fn frames_at(alloc: Global, value: &Value) -> Result<RawRange, GraphFault>
    ensures order { IfOk result (λ r. r.first ≤ r.last) }
    ensures few { IfOk result (λ r. r.last ≤ r.first + (MOST_FRAMES - 1)) }
    ensures end { IfOk result (λ r. r.last ≤ LAST_FRAME) }
    ensures answer { Answers result (frames_at (view value.now)) }
{
    let range = member_at(alloc, "", "range", value)?;
    range_of(alloc, "range", range)
}

// The member `nodes`.
fn nodes_at(
    alloc: Global,
    most_nodes: u32,
    grouped: bool,
    project: RawProject,
    value: &Value,
) -> Result<RawNodes, GraphFault>
    requires { most_nodes ≤ MOST_NODES }
    ensures { Answers result (nodes_at most_nodes grouped project (view value.now)) }
{
    let values = list_at(alloc, "", "nodes", 1, most_nodes as usize, value)?;
    let nodes = nodes_of(alloc, "nodes", grouped, project, values)?;
    Ok(RawNodes::of(nodes))
}

// The graph with this head: its groups, nodes and takes are read.
fn graph_from(
    alloc: Global,
    most_nodes: u32,
    grouped: bool,
    head: RawHead,
    value: &Value,
) -> Result<RawGraph, GraphFault>
    requires nodes { most_nodes ≤ MOST_NODES }
    requires head { IsHead head.format head.range.first head.range.last }
    ensures { Answers result (graph_from most_nodes grouped head (view value.now)) }
{
    let groups = groups_at(alloc, head.project, value)?;
    let nodes = nodes_at(alloc, most_nodes, grouped, head.project, value)?;
    let takes = takes_at(alloc, value)?;
    Ok(RawGraph {
        format: head.format,
        project: head.project,
        output: head.output,
        first: head.range.first,
        last: head.range.last,
        groups,
        nodes,
        takes,
    })
}

// The graph.
fn graph_of(
    alloc: Global,
    most_nodes: u32,
    most_side: u32,
    value: &Value,
) -> Result<RawGraph, GraphFault>
    requires nodes { most_nodes ≤ MOST_NODES }
    requires side { most_side ≤ MOST_SIDE }
    ensures { Answers result (graph_of most_nodes most_side (view value.now)) }
{
    let grouped = is_grouped(value);
    check_top(alloc, grouped, value)?;
    let format = whole_at(alloc, "", "ofxr", 1, 2, value)?;
    let project = project_at(alloc, most_side, value)?;
    let output = output_at(alloc, value)?;
    let range = frames_at(alloc, value)?;
    let head = RawHead {
        format,
        project,
        output,
        range,
    };
    graph_from(alloc, most_nodes, grouped, head, value)
}

/// The graph that a file's bytes say, or the first fault: `NotJson` at the empty path where they are no JSON
/// text that `serde_json` reads; else the file is walked in the order of the format, and `WrongForm` or
/// `NumberOutOfRange` come with the path of where. A graph has at most `most_nodes` nodes and sides of at
/// most `most_side` pixels.
pub fn read_graph(
    alloc: Global,
    bytes: &[u8],
    most_nodes: u32,
    most_side: u32,
) -> Result<RawGraph, GraphFault>
    requires nodes { most_nodes ≤ MOST_NODES }
    requires side { most_side ≤ MOST_SIDE }
    ensures { Answers result (read_graph bytes.now most_nodes most_side) }
{
    match value_of(alloc, bytes) {
        Ok(value) => graph_of(alloc, most_nodes, most_side, &value),
        Err(JsonFault::NotJson) => Err(fault_at(GraphCode::NotJson, "".to_string(alloc)?)),
        Err(JsonFault::Memory) => Err(GraphFault::Memory),
    }
}
