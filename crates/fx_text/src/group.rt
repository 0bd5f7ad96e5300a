//! Reads the groups of a graph file.
ghost use Rattle.std.specs.Prelude.{◌≡◌, ◌≤◌, Ok, IfOk, length, codes};
ghost use Rattle.serde_json.specs.View.{view, items_view};
ghost use Rattle.fx_text.specs.Answers.{Answers, Refuses};
ghost use Rattle.fx_text.specs.Json.{short_of};
ghost use Rattle.fx_text.specs.Paths.{inside};
ghost use Rattle.fx_text.specs.declared.raw.TheConstants.{MOST_GROUP_NODES, MOST_INPUTS};
ghost use Rattle.fx_text.specs.Objects.{inputs_of, inputs_at, group_nodes_at, group_of, groups_of, groups_at};

use crate::fault::GraphFault;
use crate::json::{check_object, list_at, list_or, name_at, short_at, short_of};
use crate::object::nodes_of;
use crate::path::{inside, joined};
use crate::raw::{
    MOST_GROUP_NODES, MOST_GROUPS, MOST_INPUTS, RawGroup, RawGroups, RawNodes, RawProject,
};
use fx_base::{Name, Names};
use serde_json::Value;
use std::alloc::Global;

fn input_at(alloc: Global, path: &str, k: usize, value: &Value) -> Result<Name, GraphFault>
    ensures { Answers result (short_of (inside path.now k) (view value.now)) }
{
    let path = inside(alloc, path, k)?;
    short_of(alloc, path.as_str(), value)
}

fn inputs_of(alloc: Global, path: &str, values: &[Value]) -> Result<Vec<Name>, GraphFault>
    ensures ok { IfOk result (λ names. inputs_of path.now (items_view values.now) ≡ Ok names.items) }
    ensures count { IfOk result (λ names. length names.items ≡ length values.now) }
    ensures err { Refuses result (inputs_of path.now (items_view values.now)) }
{
    let mut names = Vec::new(alloc);
    for (k, value) in values.iter().enumerate() {
        let name = input_at(alloc, path, k, value)?;
        names.push(name)?;
    }
    Ok(names)
}

// A group's inputs.
fn inputs_at(alloc: Global, path: &str, value: &Value) -> Result<Names, GraphFault>
    ensures answer { Answers result (inputs_at path.now (view value.now)) }
    ensures few { IfOk result (λ names. length names ≤ MOST_INPUTS) }
{
    let inputs_path = joined(alloc, path, "inputs")?;
    let values = list_at(alloc, path, "inputs", 0, MOST_INPUTS, value)?;
    let inputs = inputs_of(alloc, inputs_path.as_str(), values)?;
    Ok(Names::of(inputs))
}

// A group's nodes.
fn group_nodes_at(
    alloc: Global,
    path: &str,
    project: RawProject,
    value: &Value,
) -> Result<RawNodes, GraphFault>
    ensures answer { Answers result (group_nodes_at path.now project (view value.now)) }
    ensures few { IfOk result (λ nodes. length nodes ≤ MOST_GROUP_NODES) }
{
    let nodes_path = joined(alloc, path, "nodes")?;
    let values = list_at(alloc, path, "nodes", 1, MOST_GROUP_NODES, value)?;
    let nodes = nodes_of(alloc, nodes_path.as_str(), true, project, values)?;
    Ok(RawNodes::of(nodes))
}

// A group.
fn group_of(
    alloc: Global,
    path: &str,
    project: RawProject,
    value: &Value,
) -> Result<RawGroup, GraphFault>
    ensures { Answers result (group_of path.now project (view value.now)) }
{
    check_object(alloc, path, &["name", "inputs", "nodes", "output"], value)?;
    let name = short_at(alloc, path, "name", value)?;
    let inputs = inputs_at(alloc, path, value)?;
    let nodes = group_nodes_at(alloc, path, project, value)?;
    let output = name_at(alloc, path, "output", value)?;
    Ok(RawGroup {
        name,
        inputs,
        nodes,
        output,
    })
}

fn group_at(
    alloc: Global,
    k: usize,
    project: RawProject,
    value: &Value,
) -> Result<RawGroup, GraphFault>
    ensures { Answers result (group_of (inside (codes "groups") k) project (view value.now)) }
{
    let path = inside(alloc, "groups", k)?;
    group_of(alloc, path.as_str(), project, value)
}

fn groups_of(
    alloc: Global,
    project: RawProject,
    values: &[Value],
) -> Result<Vec<RawGroup>, GraphFault>
    ensures ok { IfOk result (λ groups. groups_of project (items_view values.now) ≡ Ok groups.items) }
    ensures count { IfOk result (λ groups. length groups.items ≡ length values.now) }
    ensures err { Refuses result (groups_of project (items_view values.now)) }
{
    let mut groups = Vec::new(alloc);
    for (k, value) in values.iter().enumerate() {
        let group = group_at(alloc, k, project, value)?;
        groups.push(group)?;
    }
    Ok(groups)
}

/// The groups of a graph, of which there are none where the member is absent.
pub(crate) fn groups_at(
    alloc: Global,
    project: RawProject,
    value: &Value,
) -> Result<RawGroups, GraphFault>
    ensures { Answers result (groups_at project (view value.now)) }
{
    let values = list_or(alloc, "", "groups", 0, MOST_GROUPS, value)?;
    let groups = groups_of(alloc, project, values)?;
    Ok(RawGroups::of(groups))
}
