//! From a raw graph to a graph, node by node.
ghost use Rattle.std.specs.Prelude.{◌≡◌, ◌≤◌, ◌<◌, ◌++◌, ◌∷◌, ℕ, List, true, [], length, map, position, if◌then◌else◌};
ghost use Rattle.std.specs.Prelude.{None, Some, Ok, IfOk, IfErr, OnOk, codes};
ghost use Rattle.std.specs.BTreeMap.{get_by_text};
ghost use Rattle.std.specs.Str.{bytes_eq};
ghost use Rattle.fx_base.specs.declared.limits.TheConstants.{MOST_NODES};
ghost use Rattle.fx_text.specs.Answers.{Refuses};
ghost use Rattle.fx_text.specs.Nodes.{IsInRange};
ghost use Rattle.fx_text.specs.declared.fault.GraphCode.TheVariants.{UnknownOutput};
ghost use Rattle.fx_effect.specs.Shape.{IsProject};
ghost use Rattle.fx_graph.specs.Refusal.{found_or, Tells, TellsErr};
ghost use Rattle.fx_graph.specs.Shown.{shown, names_of};
ghost use Rattle.fx_graph.specs.Nodes.{place_of, is_source, names_frames, wrong_source, repeated, work_of, node_of, nodes_of, IsIndex};
ghost use Rattle.fx_graph.specs.Graphs.{extent, graph_of, is_output, wrong_file};
ghost use Rattle.fx_graph.specs.Kept.{AreNodes, IsNode};

use crate::effect::accept_effect;
use crate::graph::Graph;
use crate::node::{Node, Work};
use crate::places::{add, place};
use crate::refuse::{refuse, refuse_at};
use fx_base::{Memory, Name, Pattern, Rect};
use fx_effect::Catalogue;
use fx_pixel::{Components, Depth};
use fx_text::{GraphCode, GraphFault, RawGraph, RawNode, RawProject, RawWork};
use std::alloc::Global;
use std::collections::BTreeMap;

/// The graph that a raw graph stands for, over a catalogue of effects. Else it is refused by the first fault
/// of the nodes in their order, and then of the output: of its node, and then of its file. Of a node the
/// order is name, pattern, effect, context, clips that the effect hasn't, clips that are missing, clips that
/// name no earlier node, and parameter by parameter one that the effect hasn't, a value that it refuses, and
/// keys that don't rise.
pub fn accept<E: Catalogue + Drop>(alloc: Global, raw: RawGraph) -> Result<Graph<E>, GraphFault>
    ensures accepted { IfOk result (λ g. graph_of E.find E.meaning raw ≡ Ok (record {
      project = g.project;
      depth = g.depth;
      components = g.components;
      output = g.output;
      file = g.file;
      format = g.format;
      first = g.first;
      last = g.last;
      nodes = map shown g.nodes.items;
    })) }
    ensures refused { Refuses result (graph_of E.find E.meaning raw) }
{
    accept_graph(alloc, &raw)
}

// The graph that a raw graph stands for, which is the caller's to let go.
fn accept_graph<E: Catalogue + Drop>(alloc: Global, raw: &RawGraph) -> Result<Graph<E>, GraphFault>
    ensures accepted { IfOk result (λ g. graph_of E.find E.meaning raw.now ≡ Ok (record {
      project = g.project;
      depth = g.depth;
      components = g.components;
      output = g.output;
      file = g.file;
      format = g.format;
      first = g.first;
      last = g.last;
      nodes = map shown g.nodes.items;
    })) }
    ensures refused { Refuses result (graph_of E.find E.meaning raw.now) }
{
    let project = raw.project;
    let form = (project.depth, project.components);
    let nodes = accept_nodes(alloc, form, raw.nodes.items())?;
    let output = output_node(alloc, &nodes, raw.output.node.text())?;
    let file = output_file(alloc, raw.output.file.text())?;
    Ok(Graph {
        project: extent_of(project),
        depth: form.0,
        components: form.1,
        output,
        file,
        format: raw.output.format,
        first: raw.first,
        last: raw.last,
        nodes,
    })
}

// The project's extent.
fn extent_of(project: RawProject) -> Rect
    ensures value { result ≡ extent project }
    ensures lawful { IsProject result }
{
    Rect::of(0, 0, i64::from(project.width), i64::from(project.height))
}

fn accept_nodes<E: Catalogue + Drop>(
    alloc: Global,
    project: (Depth, Components),
    raws: &[RawNode],
) -> Result<Vec<Node<E>>, GraphFault>
    requires few { length raws.now ≤ MOST_NODES }
    ensures ok { IfOk result (λ nodes. nodes_of E.find E.meaning project [] raws.now ≡ Ok (map shown nodes.items)) }
    ensures err { IfErr result (λ e. TellsErr (nodes_of E.find E.meaning project [] raws.now) e) }
    ensures kept { IfOk result (λ nodes. AreNodes E.meaning project (map shown nodes.items)) }
    ensures few { IfOk result (λ nodes. length nodes.items ≤ MOST_NODES) }
{
    let mut places = BTreeMap::new(alloc);
    let mut nodes = Vec::new(alloc);
    for raw in raws {
        let node = accept_node(alloc, project, &places, &nodes, raw)?;
        put_node(alloc, &mut places, &mut nodes, node)?;
    }
    Ok(nodes)
}

// Puts a node behind the others, and its place under its name.
fn put_node<E: Drop>(
    alloc: Global,
    places: &mut BTreeMap<String, u32>,
    nodes: &mut Vec<Node<E>>,
    node: Node<E>,
) -> Result<(), Memory>
    requires { length nodes.old.items < MOST_NODES }
    ensures place { let here = length nodes.old.items in
        OnOk result ((n : List ℕ) → get_by_text places.new n
        ≡ (if bytes_eq node.name n then Some here else get_by_text places.old n)) }
    ensures node { OnOk result (nodes.new.items ≡ nodes.old.items ++ node ∷ []) }
{
    add(alloc, places, node.name.text(), nodes.len() as u32)?;
    nodes.push(node)?;
    Ok(())
}

fn accept_node<E: Catalogue + Drop>(
    alloc: Global,
    project: (Depth, Components),
    places: &BTreeMap<String, u32>,
    before: &[Node<E>],
    raw: &RawNode,
) -> Result<Node<E>, GraphFault>
    requires index { IsIndex places.now (names_of (map shown before.now)) }
    ensures ok { let nodes = map shown before.now in
        IfOk result (λ node. node_of E.find E.meaning project nodes raw.now ≡ Ok (shown node)) }
    ensures err { let nodes = map shown before.now in
        IfErr result (λ e. TellsErr (node_of E.find E.meaning project nodes raw.now) e) }
    ensures fresh { IfOk result (λ node. place_of (names_of (map shown before.now)) node.name ≡ None) }
    ensures kept { IfOk result (λ node. IsNode E.meaning project (map shown before.now) (shown node)) }
{
    check_name(alloc, places, before, raw.path.text(), raw.name.text())?;
    accept_work(
        alloc,
        project,
        places,
        before,
        raw.path.text(),
        raw.name.text(),
        &raw.work,
    )
}

// No earlier node has the name.
fn check_name<E: Catalogue + Drop>(
    alloc: Global,
    places: &BTreeMap<String, u32>,
    before: &[Node<E>],
    path: &str,
    name: &str,
) -> Result<(), GraphFault>
    requires index { IsIndex places.now (names_of (map shown before.now)) }
    ensures fresh { OnOk result (place_of (names_of (map shown before.now)) name.now ≡ None) }
    ensures err { IfErr result (λ e. Tells (repeated (map shown before.now) path.now name.now) e) }
{
    match place(places, name) {
        None => Ok(()),
        Some(_) => Err(refuse(alloc, GraphCode::NameRepeated, path, "name")),
    }
}

fn accept_work<E: Catalogue + Drop>(
    alloc: Global,
    project: (Depth, Components),
    places: &BTreeMap<String, u32>,
    before: &[Node<E>],
    path: &str,
    name: &str,
    work: &RawWork,
) -> Result<Node<E>, GraphFault>
    requires index { IsIndex places.now (names_of (map shown before.now)) }
    requires range { IsInRange work.now }
    ensures ok { let nodes = map shown before.now in
        IfOk result (λ node. work_of E.find E.meaning project nodes path.now name.now work.now ≡ Ok (shown node)) }
    ensures err { let nodes = map shown before.now in
        IfErr result (λ e. TellsErr (work_of E.find E.meaning project nodes path.now name.now work.now) e) }
    ensures name { IfOk result (λ node. node.name ≡ name.now) }
    ensures kept { IfOk result (λ node. IsNode E.meaning project (map shown before.now) (shown node)) }
{
    match work {
        RawWork::Source {
            pattern,
            first,
            last,
            hold,
            depth,
            components,
        } => {
            let pattern = source_pattern(alloc, path, pattern, *first, *last)?;
            Ok(Node {
                name: Name::of(String::from_str(alloc, name)?),
                depth: *depth,
                components: *components,
                work: Work::Source {
                    pattern,
                    first: *first,
                    last: *last,
                    hold: *hold,
                },
            })
        }
        RawWork::Effect {
            effect,
            context,
            clips,
            params,
        } => accept_effect(
            alloc,
            project,
            places,
            before,
            path,
            name,
            effect,
            *context,
            clips.items(),
            params.items(),
        ),
        RawWork::GroupUse { .. } => Err(refuse(alloc, GraphCode::UnknownGroup, path, "group")),
    }
}

fn source_pattern(
    alloc: Global,
    path: &str,
    text: &Name,
    first: u32,
    last: u32,
) -> Result<Pattern, GraphFault>
    ensures pattern { IfOk result (λ pattern. pattern ≡ text.now) }
    ensures ok { OnOk result (is_source text.now first last ≡ true) }
    ensures err { IfErr result (λ e. Tells (wrong_source path.now text.now first last) e) }
{
    match Pattern::of(alloc, text.text())? {
        Some(pattern) => {
            if names_frames(&pattern, first, last) {
                Ok(pattern)
            } else {
                Err(refuse(alloc, GraphCode::PatternWrong, path, "source"))
            }
        }
        None => Err(refuse(alloc, GraphCode::PatternWrong, path, "source")),
    }
}

fn names_frames(pattern: &Pattern, first: u32, last: u32) -> bool
    ensures { result ≡ names_frames first last (Some pattern.now) }
{
    first == last || pattern.runs() == 1
}

// The place of the node that is rendered.
fn output_node<E: Catalogue + Drop>(
    alloc: Global,
    nodes: &[Node<E>],
    name: &str,
) -> Result<u32, GraphFault>
    requires { length nodes.now ≤ MOST_NODES }
    ensures ok { IfOk result (λ output. place_of (names_of (map shown nodes.now)) name.now ≡ Some output) }
    ensures there { IfOk result (λ output. output < length nodes.now) }
    ensures err { let found = place_of (names_of (map shown nodes.now)) name.now in
        IfErr result (λ e. TellsErr (found_or UnknownOutput (codes "output.node") found) e) }
{
    match node_named(nodes, name) {
        Some(place) => Ok(place as u32),
        None => Err(refuse_at(alloc, GraphCode::UnknownOutput, "output.node")),
    }
}

fn node_named<E: Catalogue + Drop>(nodes: &[Node<E>], name: &str) -> Option<usize>
    ensures { result ≡ position (λ node. bytes_eq node.name name.now) nodes.now }
{
    nodes.iter().position(|node| node.name.text() == name)
}

fn output_file(alloc: Global, text: &str) -> Result<Pattern, GraphFault>
    ensures pattern { IfOk result (λ pattern. pattern ≡ text.now) }
    ensures ok { OnOk result (is_output text.now ≡ true) }
    ensures err { IfErr result (λ e. Tells (wrong_file text.now) e) }
{
    match Pattern::of(alloc, text)? {
        Some(pattern) => {
            if pattern.runs() == 1 {
                Ok(pattern)
            } else {
                Err(refuse_at(alloc, GraphCode::PatternWrong, "output.file"))
            }
        }
        None => Err(refuse_at(alloc, GraphCode::PatternWrong, "output.file")),
    }
}
