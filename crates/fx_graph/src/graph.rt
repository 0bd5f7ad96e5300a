//! A graph over a catalogue of effects, and what it keeps by its type.
ghost use Rattle.std.specs.Prelude.{◌≡◌, ℕ, ℤ, map, length, IsTrue, Some, slice_get};
ghost use Rattle.fx_effect.specs.Shape.{IsProject};
ghost use Rattle.fx_graph.specs.declared.node.Node.{Node as AnyNode};
ghost use Rattle.fx_graph.specs.Edits.{HasParam, edited};
ghost use Rattle.fx_graph.specs.Shown.{shown, does_of};
ghost use Rattle.fx_graph.specs.Graphs.{is_output};
ghost use Rattle.fx_graph.specs.Kept.{AreNodes, HasOutput, IsRange, HasLawfulValues, RendersForm};
ghost use Rattle.fx_graph.specs.KeptLaws.{nodes_prop};

use crate::node::{Node, Work};
use fx_base::{Pattern, Rect};
use fx_effect::Catalogue;
use fx_params::Param;
use fx_pixel::{Components, Depth, Format};

/// A graph: the project's extent, whose sides are from 1 to 8,192 pixels, and the depth and components of
/// nodes without input; the place of the node that is rendered, the pattern of its files, which has a run of
/// `#`, and their format; the frames to render, at most 100,000 of 0 to 999,999; and 1 to 1,024 nodes. Each
/// clip of a node is an earlier one or unconnected, those that aren't optional are connected, and names,
/// flags and parameters are those that the effect describes in the context.
#[derive(Drop)]
pub struct Graph<E: Catalogue> {
    pub project: Rect,
    pub depth: Depth,
    pub components: Components,
    pub output: u32,
    pub file: Pattern,
    pub format: Format,
    pub first: u32,
    pub last: u32,
    pub nodes: Vec<Node<E>>,
    ghost extent: { IsProject project },
    ghost named: { IsTrue (is_output file) },
    ghost range: { IsRange first last },
    ghost rendered: { HasOutput (length nodes.items) output },
    pub ghost kept: { AreNodes E.meaning (depth, components) (map shown nodes.items) } by { nodes_prop E.meaning (depth, components) (map shown nodes.items) },
}

impl<E: Catalogue> Graph<E> {
    ghost use Rattle.fx_graph.specs.Edits.{IsEditOf, with_edit};
    ghost use Rattle.fx_graph.specs.Beside.{SameBesideNodes};

    /// Puts a parameter in the place of one of a node's that has the same definition.
    pub fn set_param(&mut self, node: u32, param: u32, value: Param)
        requires { IsEditOf (map shown self.old.nodes.items) node param value }
        ensures nodes { map shown self.new.nodes.items ≡ with_edit node param value (map shown self.old.nodes.items) }
        ensures others { SameBesideNodes self.old self.new }
    {
        // Asking it tells the proof that the parameter is sound.
        let _def = value.def();
        put_param(&mut self.nodes[node as usize], param, value);
    }
}

// Puts a parameter in the place of one of a node's.
fn put_param<E>(node: &mut Node<E>, param: u32, value: Param)
    requires { HasParam (does_of node.old.work) param value.def }
    ensures { shown node.new ≡ edited param value (shown node.old) }
{
    match &mut node.work {
        Work::Source { .. } => unreachable!(),
        Work::Effect { params, .. } => params[param as usize] = value,
    }
}

/// At every frame the values of an effect are lawful in its context.
pub fn lawful_values<E: Catalogue>(graph: &Graph<E>)
    ensures { (k : ℕ) (node : AnyNode E) (t : ℤ) → slice_get graph.now.nodes.items k ≡ Some node
        → HasLawfulValues E.meaning graph.now.project t (does_of node.work) }
{
    let _nodes = &graph.nodes;
}

/// An effect renders images of the depth and components of its node.
pub fn rendered_forms<E: Catalogue>(graph: &Graph<E>)
    ensures { (k : ℕ) (node : AnyNode E) → slice_get graph.now.nodes.items k ≡ Some node
        → RendersForm E.meaning (node.depth, node.components) (does_of node.work) }
{
    let _nodes = &graph.nodes;
}
