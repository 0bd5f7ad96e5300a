//! When the moments of a run with takes use its source frames.
ghost use Rattle.std.specs.Prelude.{◌≤◌, ◌+◌, ◌-◌, ◌*◌, length, map, All, IfOk};
ghost use Rattle.fx_base.specs.declared.limits.TheConstants.{LAST_FRAME};
ghost use Rattle.fx_text.specs.declared.raw.TheConstants.{MOST_TAKES};
ghost use Rattle.fx_graph.specs.Shown.{shown};
ghost use Rattle.fx_scene.specs.Scenes.{graph_shown};
ghost use Rattle.fx_scene.specs.Takes.{AreEdits, edits_of};
ghost use Rattle.fx_scene.specs.Uses.{AreUses, wanting};
ghost use Rattle.fx_scene.specs.Wants.{IsNamedIn};

use fx_base::Memory;
use fx_effect::Catalogue;
use fx_graph::Graph;
use fx_scene::{Takes, uses_of_takes};
use fx_seq::Use;
use std::alloc::Global;

/// The source frames that the moments of a run want, each once, by node and then frame, with the first and the last
/// moment that wants it. The moments are the frames from `first` to `last` at take 0, which is the graph as written,
/// and then those at each take after it, numbered from 0. With `first` above `last` there are none. `Memory` comes
/// where memory is wanting.
pub fn uses<E: Catalogue>(
    alloc: Global,
    graph: &Graph<E>,
    takes: &Takes,
    first: u32,
    last: u32,
) -> Result<Vec<Use>, Memory>
    requires end { last ≤ LAST_FRAME }
    requires few { length takes.now.list.items ≤ MOST_TAKES }
    requires edits { AreEdits (map shown graph.now.nodes.items) (edits_of takes.now.list.items) }
    ensures exact { let edits = edits_of takes.now.list.items in
        let count = last + 1 - first in
        let W = wanting E.meaning (graph_shown graph.now) edits first count in
        IfOk result (λ uses. AreUses W (count * (length edits + 1)) uses.items) }
    ensures names { IfOk result (λ uses. All (λ u. IsNamedIn (graph_shown graph.now) u.wanted) uses.items) }
{
    uses_of_takes(alloc, graph, takes, first, last)
}
