//! Expands the groups of a graph.
ghost use Rattle.std.specs.Prelude.{◌≡◌, ◌≤◌, ℕ, List, Option, nat_eq, nat_lt, false, [], None, codes, length, OnOk, IfOk, IfErr};
ghost use Rattle.fx_base.specs.declared.limits.TheConstants.{MOST_NODES};
ghost use Rattle.fx_text.specs.Answers.{Refuses};
ghost use Rattle.fx_text.specs.declared.fault.GraphCode.TheVariants as code;
ghost use Rattle.fx_effect.specs.Meaning.{Meaning};
ghost use Rattle.fx_graph.specs.Refusal.{Tells, where_so};
ghost use Rattle.fx_group.specs.Expansion.{meant, most_nodes};
ghost use Rattle.fx_group.specs.Graph.{list_expanded, expand_of, lists_fault, AreInstancesOf};
ghost use Rattle.fx_group.specs.Shown.{ShowsInstances};
ghost use Rattle.fx_group.specs.Sizes.{nodes_size, group_size};

use crate::check::{check_groups, check_nodes};
use crate::count::{size_of_nodes, sizes_of};
use crate::flatten::{Flattened, expand_nodes};
use crate::names::meant;
use fx_base::Memory;
use fx_base::limits::MOST_NODES;
use fx_graph::refuse::refuse_at;
use fx_text::{GraphCode, GraphFault, RawGraph, RawGroup, RawGroups, RawNode, RawNodes, RawOutput};
use std::alloc::Global;

/// The graph with each use of a group replaced, at its place, by the nodes of the group: each is named by the use, a slash
/// and its own name. A graph of format 1 is given back as it is. Else the first fault, group by group and then through the
/// main list: `SlashInName`, `NameRepeated`, `UnknownGroup`, `UnknownClip`, `ClipMissing`, `NoEarlierNode`,
/// `UnknownOutput`; and `TooManyNodes`, before anything is expanded, where there would be more than 1,024.
pub fn expand(alloc: Global, raw: RawGraph) -> Result<RawGraph, GraphFault>
    ensures expanded { IfOk result (λ g. expand_of raw ≡ Ok g) }
    ensures instances { IfOk result (λ g. AreInstancesOf raw g) }
    ensures shown { IfOk result (λ g. (find : List ℕ → Option Meaning) → ShowsInstances find (λ m. m) raw g) }
    ensures refused { Refuses result (expand_of raw) }
{
    if raw.format == 1 {
        Ok(raw)
    } else {
        expand_two(alloc, raw)
    }
}

fn expand_two(alloc: Global, raw: RawGraph) -> Result<RawGraph, GraphFault>
    requires { nat_eq raw.format 1 ≡ false }
    ensures expanded { IfOk result (λ g. expand_of raw ≡ Ok g) }
    ensures refused { Refuses result (expand_of raw) }
{
    let RawGraph {
        format,
        project,
        output,
        first,
        last,
        groups,
        nodes,
        takes,
    } = raw;
    let mut groups = groups.into_items();
    groups.reverse();
    check_lists(alloc, &groups, nodes.items())?;
    let (flat, output) = expand_list(alloc, &groups, nodes.items(), output)?;
    Ok(RawGraph {
        format,
        project,
        output,
        first,
        last,
        groups: RawGroups::of(Vec::new(alloc)),
        nodes: RawNodes::of(flat),
        takes,
    })
}

// The nodes of the main list, and the output by the name of the node that it is.
fn expand_list(
    alloc: Global,
    groups: &[RawGroup],
    nodes: &[RawNode],
    output: RawOutput,
) -> Result<(Vec<RawNode>, RawOutput), Memory>
    ensures nodes { IfOk result (λ made. made.0.items ≡ (list_expanded groups.now nodes.now).nodes) }
    ensures output { let others = (list_expanded groups.now nodes.now).others in
        IfOk result (λ made. made.1 ≡ record output { node = meant others [] output.node }) }
{
    let mut flat = Flattened {
        nodes: Vec::new(alloc),
        others: Vec::new(alloc),
    };
    expand_nodes(alloc, groups, "", &mut flat, nodes)?;
    let RawOutput { node, file, format } = output;
    let node = meant(alloc, &flat.others, "", node.text())?;
    Ok((flat.nodes, RawOutput { node, file, format }))
}

// Refuses the first group or node that is wrong, and then too many nodes.
fn check_lists(alloc: Global, groups: &[RawGroup], nodes: &[RawNode]) -> Result<(), GraphFault>
    ensures ok { OnOk result (lists_fault groups.now nodes.now ≡ None) }
    ensures err { IfErr result (λ e. Tells (lists_fault groups.now nodes.now) e) }
{
    check_groups(alloc, groups)?;
    check_nodes(alloc, groups, &[], nodes)?;
    check_count(alloc, groups, nodes)
}

fn check_count(alloc: Global, groups: &[RawGroup], nodes: &[RawNode]) -> Result<(), GraphFault>
    ensures ok { let many = nat_lt most_nodes (nodes_size (group_size groups.now) nodes.now) in
        OnOk result (where_so many code.TooManyNodes (codes "nodes") ≡ None) }
    ensures err { let many = nat_lt most_nodes (nodes_size (group_size groups.now) nodes.now) in
        IfErr result (λ e. Tells (where_so many code.TooManyNodes (codes "nodes")) e) }
{
    let sizes = sizes_of(alloc, groups)?;
    if size_of_nodes(groups, &sizes, nodes) <= MOST_NODES {
        Ok(())
    } else {
        Err(refuse_at(alloc, GraphCode::TooManyNodes, "nodes"))
    }
}
