//! What a graph of format 1 may not have where it is to be one of format 2.
ghost use Rattle.std.specs.Prelude.{◌≡◌, ◌≤◌, None, length, OnOk, IfErr};
ghost use Rattle.std.specs.Option.{option_copied};
ghost use Rattle.std.specs.List.{find};
ghost use Rattle.fx_base.specs.declared.limits.TheConstants.{MOST_NODES};
ghost use Rattle.fx_text.specs.declared.fault.GraphCode.TheVariants as code;
ghost use Rattle.fx_graph.specs.Refusal.{Tells, at_first};
ghost use Rattle.fx_group.specs.Names.{has_slash};
ghost use Rattle.fx_group.specs.Plain.{name_path, slash_fault};

use crate::names::has_slash;
use fx_graph::refuse::refuse;
use fx_text::{GraphCode, GraphFault, RawGraph, RawNode};
use std::alloc::Global;

/// Refuses a graph of format 1 that has a slash in the name of a node, with `SlashInName` at the first such name: in
/// format 2 a slash joins the names of a use and of a node in its group.
pub fn check_names(alloc: Global, raw: &RawGraph) -> Result<(), GraphFault>
    ensures ok { OnOk result (slash_fault raw.now ≡ None) }
    ensures err { IfErr result (λ e. Tells (slash_fault raw.now) e) }
    ensures few { length raw.now.nodes ≤ MOST_NODES }
{
    let nodes = raw.nodes.items();
    if raw.format == 1 {
        check_names_of(alloc, nodes)
    } else {
        Ok(())
    }
}

fn first_slashed(nodes: &[RawNode]) -> Option<&RawNode>
    ensures { option_copied result ≡ find (λ n. has_slash n.name) nodes.now }
{
    nodes.iter().find(|node| has_slash(node.name.text()))
}

fn check_names_of(alloc: Global, nodes: &[RawNode]) -> Result<(), GraphFault>
    ensures ok { OnOk result (at_first (λ n. has_slash n.name) nodes.now code.SlashInName name_path ≡ None) }
    ensures err { IfErr result
        (λ e. Tells (at_first (λ n. has_slash n.name) nodes.now code.SlashInName name_path) e) }
{
    match first_slashed(nodes) {
        None => Ok(()),
        Some(node) => Err(refuse(alloc, GraphCode::SlashInName, node.path.text(), "name")),
    }
}
