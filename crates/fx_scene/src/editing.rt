//! Edits of a graph's parameters.
ghost use Rattle.std.specs.Prelude.{◌≡◌, map};
ghost use Rattle.std.specs.List.{AllByRecursion};
ghost use Rattle.fx_graph.specs.Beside.{SameBesideNodes};
ghost use Rattle.fx_graph.specs.Shown.{shown};
ghost use Rattle.fx_scene.specs.Takes.{IsEdit, edited_all};

use crate::take::Edit;
use fx_effect::Catalogue;
use fx_graph::Graph;

/// Does the edits in order.
pub(crate) fn edit_all<E: Catalogue>(graph: &mut Graph<E>, edits: Vec<Edit>)
    requires { AllByRecursion (IsEdit (map shown graph.old.nodes.items)) edits.items }
    ensures nodes { map shown graph.new.nodes.items ≡ edited_all edits.items (map shown graph.old.nodes.items) }
    ensures others { SameBesideNodes graph.old graph.new }
{
    for edit in edits {
        let Edit { node, param, value } = edit;
        graph.set_param(node, param, value);
    }
}
