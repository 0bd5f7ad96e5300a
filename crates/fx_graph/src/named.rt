//! The nodes of a graph and their parameters by name.
ghost use Rattle.std.specs.Prelude.{◌≡◌, ◌<◌, ◌&&◌, map, length, position, slice_get, IfSome, All};
ghost use Rattle.std.specs.Option.{option_map, option_copied};
ghost use Rattle.std.specs.Str.{bytes_eq};
ghost use Rattle.fx_effect.specs.Shape.{IsParam};
ghost use Rattle.fx_graph.specs.Shown.{shown, does_of};
ghost use Rattle.fx_graph.specs.Named.{is_effect, effect_named, params_of, params_in, params_at, param_named};

use crate::graph::Graph;
use crate::node::{Node, Work};
use fx_effect::Catalogue;
use fx_params::{Param, ParamDef};

/// The place of the effect's node that has a name.
pub fn effect_named<E: Catalogue>(graph: &Graph<E>, name: &str) -> Option<u32>
    ensures { result ≡ effect_named (map shown graph.now.nodes.items) name.now }
{
    match effect_place(&graph.nodes, name) {
        Some(place) => Some(place as u32),
        None => None,
    }
}

fn effect_place<E>(nodes: &[Node<E>], name: &str) -> Option<usize>
    ensures { result ≡ position (λ n. bytes_eq n.name name.now && is_effect (does_of n.work)) nodes.now }
{
    nodes
        .iter()
        .position(|node| node.name.text() == name && is_effect(&node.work))
}

fn is_effect<E>(work: &Work<E>) -> bool
    ensures { result ≡ is_effect (does_of work.now) }
{
    match work {
        Work::Source { .. } => false,
        Work::Effect { .. } => true,
    }
}

/// The parameter of a name of the node at a place: its place among the node's and its definition, whose start is in its
/// range. A source has none, nor has a place where no node is.
pub fn param_named<'a, E: Catalogue>(
    graph: &'a Graph<E>,
    node: u32,
    name: &str,
) -> Option<(u32, &'a ParamDef)>
    ensures value { let found = param_named (params_at (map shown graph.now.nodes.items) node) name.now in
        option_map (λ r. (r.0, r.1.now)) result ≡ found }
    ensures lawful { IfSome result (λ r. IsParam r.1.now) }
{
    param_in(params_in(node_in(&graph.nodes, node)), name)
}

fn node_in<E>(nodes: &[Node<E>], place: u32) -> Option<&Node<E>>
    ensures { option_map shown (option_copied result) ≡ slice_get (map shown nodes.now) place }
{
    nodes.get(place as usize)
}

fn param_in<'a>(params: &'a [Param], name: &str) -> Option<(u32, &'a ParamDef)>
    requires few { length params.now < 65536 }
    requires lawful { All (λ p. IsParam p.def) params.now }
    ensures value { option_map (λ r. (r.0, r.1.now)) result ≡ param_named params.now name.now }
    ensures lawful { IfSome result (λ r. IsParam r.1.now) }
{
    match param_place(params, name) {
        Some(place) => Some((place as u32, params[place].def())),
        None => None,
    }
}

fn params_in<E>(node: Option<&Node<E>>) -> &[Param]
    ensures { result.now ≡ params_in (option_map shown (option_copied node.entry)) }
{
    match node {
        Some(node) => params_of(&node.work),
        None => &[],
    }
}

fn params_of<E>(work: &Work<E>) -> &[Param]
    ensures { result.now ≡ params_of (does_of work.now) }
{
    match work {
        Work::Source { .. } => &[],
        Work::Effect { params, .. } => params.as_slice(),
    }
}

fn param_place(params: &[Param], name: &str) -> Option<usize>
    ensures value { result ≡ position (λ p. bytes_eq p.def.name name.now) params.now }
    ensures within { IfSome result (λ place. place < length params.now) }
{
    params
        .iter()
        .position(|param| param.def().name.text() == name)
}
