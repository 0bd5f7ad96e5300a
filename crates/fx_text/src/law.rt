//! What the reading of a graph file keeps.
ghost use Rattle.std.specs.Prelude.{All};
ghost use Rattle.fx_text.specs.Nodes.{NamesRise};
ghost use Rattle.fx_text.specs.Migrated.{StaysTheSame};
ghost use Rattle.fx_text.specs.Printed.{PrintedReadsBack};

use crate::raw::{RawGraph, RawGroup, RawNode, RawWork};

/// A raw graph that a printer writes, in whatever layout, is read back as the same graph.
pub fn printed_graph_reads_back()
    ensures { PrintedReadsBack }
{}

/// A value that is a graph is the same graph with its member `ofxr` set to 2, in format 2.
pub fn stays_in_format_two()
    ensures { StaysTheSame }
{}

/// In a raw graph, and in each of its groups, the clips of each effect and use rise strictly in the byte order of
/// their names, and so do an effect's parameters.
pub fn names_rise(graph: &RawGraph)
    ensures nodes { All (λ node. NamesRise node.work) graph.now.nodes }
    ensures groups { All (λ group. All (λ node. NamesRise node.work) group.nodes) graph.now.groups }
{
    names_of_nodes_rise(graph.nodes.items());
    names_of_groups_rise(graph.groups.items());
}

fn names_of_groups_rise(groups: &[RawGroup])
    ensures { All (λ group. All (λ node. NamesRise node.work) group.nodes) groups.now }
{
    for group in groups {
        names_of_nodes_rise(group.nodes.items());
    }
}

fn names_of_nodes_rise(nodes: &[RawNode])
    ensures { All (λ node. NamesRise node.work) nodes.now }
{
    for node in nodes {
        names_of_node_rise(node);
    }
}

fn names_of_node_rise(node: &RawNode)
    ensures { NamesRise node.now.work }
{
    match &node.work {
        RawWork::Source { .. } => {}
        RawWork::Effect { clips, params, .. } => {
            let _clips = clips.items();
            let _params = params.items();
        }
        RawWork::GroupUse { clips, .. } => {
            let _clips = clips.items();
        }
    }
}
