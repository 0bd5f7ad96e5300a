//! The acceptance of takes over a graph.
ghost use Rattle.std.specs.Prelude.{◌≡◌, ◌<◌, map, length, true, codes, Ok, IfOk, IfErr, OnOk};
ghost use Rattle.fx_effect.specs.Shape.{IsParam};
ghost use Rattle.fx_text.specs.Answers.{Refuses};
ghost use Rattle.fx_text.specs.Paths.{inside};
ghost use Rattle.fx_text.specs.declared.fault.GraphCode.TheVariants as code;
ghost use Rattle.fx_graph.specs.Graphs.{is_output};
ghost use Rattle.fx_graph.specs.Refusal.{Tells, TellsErr, node_path, where_so};
ghost use Rattle.fx_graph.specs.Shown.{shown};
ghost use Rattle.fx_scene.specs.Takes.{AreEdits};
ghost use Rattle.fx_scene.specs.Takes as scene;
ghost use Rattle.fx_takes.specs.Shown.{edit_shown, take_shown};
ghost use Rattle.fx_takes.specs.Accepted.{param_edit, node_edit, edit_of, edits_of, take_of, takes_of};
ghost use Rattle.std.specs.Prelude.{not};

use fx_base::Pattern;
use fx_effect::Catalogue;
use fx_graph::refuse::refuse;
use fx_graph::{Graph, effect_named, param_given, param_named, value_fault};
use fx_params::{Param, ParamDef};
use fx_scene::{Edit, Take, Takes};
use fx_text::{GraphCode, GraphFault, RawEdit, RawTake, RawValue};
use std::alloc::Global;

/// The takes that a graph's raw takes stand for. Else they are refused by the first fault, take by take: `PatternWrong`
/// where its file is no pattern with exactly one run of `#`; and edit by edit `EditOfNoEffect` where no effect's node
/// has the name, `UnknownParam` where that effect hasn't the parameter, `ParamRefused` and `KeysNotRising` as for a node.
pub fn accept_takes<E: Catalogue>(
    alloc: Global,
    graph: &Graph<E>,
    raw: Vec<RawTake>,
) -> Result<Takes, GraphFault>
    ensures accepted { let wanted = takes_of (map shown graph.now.nodes.items) raw.items in
        IfOk result (λ takes. wanted ≡ Ok (map take_shown takes.list.items)) }
    ensures edits { let nodes = map shown graph.now.nodes.items in
        IfOk result (λ takes. AreEdits nodes (scene.edits_of takes.list.items)) }
    ensures refused { Refuses result (takes_of (map shown graph.now.nodes.items) raw.items) }
{
    let list = takes_of(alloc, graph, &raw)?;
    Ok(Takes { list })
}

fn takes_of<E: Catalogue>(
    alloc: Global,
    graph: &Graph<E>,
    raws: &[RawTake],
) -> Result<Vec<Take>, GraphFault>
    ensures ok { let wanted = takes_of (map shown graph.now.nodes.items) raws.now in
        IfOk result (λ list. wanted ≡ Ok (map take_shown list.items)) }
    ensures err { IfErr result (λ e. TellsErr (takes_of (map shown graph.now.nodes.items) raws.now) e) }
{
    let mut list = Vec::new(alloc);
    for k in 0..raws.len() {
        let take = take_at(alloc, graph, k, &raws[k])?;
        list.push(take)?;
    }
    Ok(list)
}

fn take_at<E: Catalogue>(
    alloc: Global,
    graph: &Graph<E>,
    k: usize,
    raw: &RawTake,
) -> Result<Take, GraphFault>
    ensures ok { let wanted = take_of (map shown graph.now.nodes.items) (inside (codes "takes") k) raw.now in
        IfOk result (λ take. wanted ≡ Ok (take_shown take)) }
    ensures err { let wanted = take_of (map shown graph.now.nodes.items) (inside (codes "takes") k) raw.now in
        IfErr result (λ e. TellsErr wanted e) }
{
    let path = format!(in alloc; "takes[{k}]")?;
    take_of(alloc, graph, path.as_str(), raw)
}

fn take_of<E: Catalogue>(
    alloc: Global,
    graph: &Graph<E>,
    path: &str,
    raw: &RawTake,
) -> Result<Take, GraphFault>
    ensures ok { let wanted = take_of (map shown graph.now.nodes.items) path.now raw.now in
        IfOk result (λ take. wanted ≡ Ok (take_shown take)) }
    ensures err { let wanted = take_of (map shown graph.now.nodes.items) path.now raw.now in
        IfErr result (λ e. TellsErr wanted e) }
{
    let file = take_file(alloc, path, raw.file.text())?;
    let edits = edits_under(alloc, graph, path, &raw.edits)?;
    Ok(Take { file, edits })
}

fn take_file(alloc: Global, path: &str, text: &str) -> Result<Pattern, GraphFault>
    ensures pattern { IfOk result (λ pattern. pattern ≡ text.now) }
    ensures ok { OnOk result (is_output text.now ≡ true) }
    ensures err { let row = where_so (not (is_output text.now)) code.PatternWrong (node_path path.now (codes "file")) in
        IfErr result (λ e. Tells row e) }
{
    match Pattern::of(alloc, text)? {
        Some(pattern) => {
            if pattern.runs() == 1 {
                Ok(pattern)
            } else {
                Err(refuse(alloc, GraphCode::PatternWrong, path, "file"))
            }
        }
        None => Err(refuse(alloc, GraphCode::PatternWrong, path, "file")),
    }
}

fn edits_under<E: Catalogue>(
    alloc: Global,
    graph: &Graph<E>,
    path: &str,
    raws: &[RawEdit],
) -> Result<Vec<Edit>, GraphFault>
    ensures ok { let nodes = map shown graph.now.nodes.items in
        let wanted = edits_of nodes (node_path path.now (codes "edits")) raws.now in
        IfOk result (λ edits. wanted ≡ Ok (map edit_shown edits.items)) }
    ensures err { let nodes = map shown graph.now.nodes.items in
        let wanted = edits_of nodes (node_path path.now (codes "edits")) raws.now in
        IfErr result (λ e. TellsErr wanted e) }
{
    let path = format!(in alloc; "{path}.edits")?;
    edits_of(alloc, graph, path.as_str(), raws)
}

fn edits_of<E: Catalogue>(
    alloc: Global,
    graph: &Graph<E>,
    path: &str,
    raws: &[RawEdit],
) -> Result<Vec<Edit>, GraphFault>
    ensures ok { let wanted = edits_of (map shown graph.now.nodes.items) path.now raws.now in
        IfOk result (λ edits. wanted ≡ Ok (map edit_shown edits.items)) }
    ensures err { IfErr result (λ e. TellsErr (edits_of (map shown graph.now.nodes.items) path.now raws.now) e) }
{
    let mut edits = Vec::new(alloc);
    for k in 0..raws.len() {
        let edit = edit_at(alloc, graph, path, k, &raws[k])?;
        edits.push(edit)?;
    }
    Ok(edits)
}

fn edit_at<E: Catalogue>(
    alloc: Global,
    graph: &Graph<E>,
    path: &str,
    k: usize,
    raw: &RawEdit,
) -> Result<Edit, GraphFault>
    ensures ok { let wanted = edit_of (map shown graph.now.nodes.items) (inside path.now k) raw.now in
        IfOk result (λ edit. wanted ≡ Ok (edit_shown edit)) }
    ensures err { let wanted = edit_of (map shown graph.now.nodes.items) (inside path.now k) raw.now in
        IfErr result (λ e. TellsErr wanted e) }
{
    let path = format!(in alloc; "{path}[{k}]")?;
    edit_of(alloc, graph, path.as_str(), raw)
}

fn edit_of<E: Catalogue>(
    alloc: Global,
    graph: &Graph<E>,
    path: &str,
    raw: &RawEdit,
) -> Result<Edit, GraphFault>
    ensures ok { let nodes = map shown graph.now.nodes.items in
        IfOk result (λ edit. edit_of nodes path.now raw.now ≡ Ok (edit_shown edit)) }
    ensures err { IfErr result (λ e. TellsErr (edit_of (map shown graph.now.nodes.items) path.now raw.now) e) }
{
    match effect_named(graph, raw.node.text()) {
        None => Err(refuse(alloc, GraphCode::EditOfNoEffect, path, "node")),
        Some(node) => node_edit(alloc, graph, path, node, raw),
    }
}

fn node_edit<E: Catalogue>(
    alloc: Global,
    graph: &Graph<E>,
    path: &str,
    node: u32,
    raw: &RawEdit,
) -> Result<Edit, GraphFault>
    ensures ok { let wanted = node_edit (map shown graph.now.nodes.items) path.now node raw.now in
        IfOk result (λ edit. wanted ≡ Ok (edit_shown edit)) }
    ensures err { IfErr result (λ e. TellsErr (node_edit (map shown graph.now.nodes.items) path.now node raw.now) e) }
{
    match param_named(graph, node, raw.param.text()) {
        None => Err(refuse(alloc, GraphCode::UnknownParam, path, "param")),
        Some((param, def)) => param_edit(alloc, path, node, param, def, &raw.value),
    }
}

fn param_edit(
    alloc: Global,
    path: &str,
    node: u32,
    param: u32,
    def: &ParamDef,
    value: &RawValue,
) -> Result<Edit, GraphFault>
    requires { IsParam def.now }
    ensures ok { IfOk result (λ edit. param_edit path.now node param def.now value.now ≡ Ok (edit_shown edit)) }
    ensures err { IfErr result (λ e. TellsErr (param_edit path.now node param def.now value.now) e) }
{
    match value_fault(def, value) {
        Some(code) => Err(refuse(alloc, code, path, "value")),
        None => Ok(edit_with(node, param, param_given(alloc, def, value)?)),
    }
}

fn edit_with(node: u32, param: u32, value: Param) -> Edit
    ensures { edit_shown result ≡ record { node = node; param = param; value = value } }
{
    // Asking it tells the proof that the parameter is sound.
    let _def = value.def();
    Edit { node, param, value }
}
