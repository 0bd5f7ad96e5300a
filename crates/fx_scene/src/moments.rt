//! When the moments of a run use its source frames.
ghost use Rattle.std.specs.Prelude.{◌≡◌, ◌≤◌, ◌+◌, ◌-◌, ◌*◌, List, ◌∷◌, [], length, map, All, IfOk, OnOk};
ghost use Rattle.std.specs.BTreeMap.{IsOrdered, values};
ghost use Rattle.std.specs.Option.{option_map_or};
ghost use Rattle.fx_base.specs.declared.limits.TheConstants.{LAST_FRAME};
ghost use Rattle.fx_scene.specs.Reach.{node_frame_cmp};
ghost use Rattle.fx_text.specs.declared.raw.TheConstants.{MOST_TAKES};
ghost use Rattle.fx_graph.specs.Shown.{shown};
ghost use Rattle.fx_scene.specs.Rows.{AreRows, rows_in, with_rows};
ghost use Rattle.fx_scene.specs.Scenes.{graph_shown};
ghost use Rattle.fx_scene.specs.Takes.{AreEdits, edits_of, nodes_at};
ghost use Rattle.fx_scene.specs.Uses.{AreUses, HasUses, Notes, used_in, wanting};
ghost use Rattle.fx_scene.specs.declared.take.Edit.{Edit as AnyEdit};
ghost use Rattle.fx_scene.specs.Wants.{IsNamedIn};

use crate::reaching::NodeFrame;
use crate::rows::{edit_rows, rows_of};
use crate::take::Takes;
use crate::wanting::wants_with;
use fx_base::Memory;
use fx_effect::Catalogue;
use fx_graph::Graph;
use fx_params::Param;
use fx_seq::{Use, Wanted};
use std::alloc::Global;
use std::collections::BTreeMap;

/// The source frames that the frames from `first` to `last` want, each once, by node and then frame, with the first and
/// the last moment that wants it. The moments are the frames, numbered from 0. With `first` above `last` there are none.
/// `Memory` comes where memory is wanting.
pub fn uses<E: Catalogue>(
    alloc: Global,
    graph: &Graph<E>,
    first: u32,
    last: u32,
) -> Result<Vec<Use>, Memory>
    requires { last ≤ LAST_FRAME }
    ensures exact { let count = last + 1 - first in
        IfOk result (λ uses. AreUses (wanting E.meaning (graph_shown graph.now) [] first count) count uses.items) }
    ensures names { IfOk result (λ uses. All (λ u. IsNamedIn (graph_shown graph.now) u.wanted) uses.items) }
{
    let none = Takes {
        list: Vec::new(alloc),
    };
    uses_of_takes(alloc, graph, &none, first, last)
}

/// The same of a run with takes: its moments are the frames at take 0, which is the graph as written, and then the
/// frames at each take after it, numbered from 0.
pub fn uses_of_takes<E: Catalogue>(
    alloc: Global,
    graph: &Graph<E>,
    takes: &Takes,
    first: u32,
    last: u32,
) -> Result<Vec<Use>, Memory>
    requires end { last ≤ LAST_FRAME }
    requires few { length takes.now.list.items ≤ MOST_TAKES }
    requires edits { AreEdits (map shown graph.now.nodes.items) (edits_of takes.now.list.items) }
    ensures exact { let edits = edits_of takes.now.list.items in
        let count = last + 1 - first in
        let W = wanting E.meaning (graph_shown graph.now) edits first count in
        IfOk result (λ uses. AreUses W (count * (length edits + 1)) uses.items) }
    ensures names { IfOk result (λ uses. All (λ u. IsNamedIn (graph_shown graph.now) u.wanted) uses.items) }
{
    let mut table = BTreeMap::new(alloc);
    let mut rows = rows_of(alloc, graph)?;
    note_take(alloc, graph, rows.as_slice(), first, last, 0, &mut table)?;
    for k in 0..takes.list.len() {
        edit_rows(&mut rows, takes.list[k].edits.as_slice());
        note_take(
            alloc,
            graph,
            rows.as_slice(),
            first,
            last,
            k as u64 + 1,
            &mut table,
        )?;
    }
    listed(alloc, table)
}

// Notes what the frames of a take want, at which the nodes have these parameters.
fn note_take<E: Catalogue>(
    alloc: Global,
    graph: &Graph<E>,
    rows: &[Vec<&Param>],
    first: u32,
    last: u32,
    take: u64,
    table: &mut BTreeMap<NodeFrame, Use>,
) -> Result<(), Memory>
    requires rows { AreRows E.meaning (graph_shown graph.now) (rows_in rows.now) }
    requires end { last ≤ LAST_FRAME }
    requires take { take ≤ MOST_TAKES }
    ensures { let g = graph_shown graph.now in
        let count = last + 1 - first in
        (takes : List (List AnyEdit)) → nodes_at g.nodes takes take ≡ with_rows g.nodes (rows_in rows.now)
        → HasUses (wanting E.meaning g takes first count) (IsNamedIn g) (take * count) table.old
        → OnOk result (HasUses (wanting E.meaning g takes first count) (IsNamedIn g) (take * count + count) table.new) }
{
    let count = (u64::from(last) + 1).saturating_sub(u64::from(first));
    for i in 0..count {
        let frame = first + i as u32;
        let wanted = wants_with(alloc, graph, rows, frame, frame)?;
        note_all(table, wanted, take * count + i)?;
    }
    Ok(())
}

// Notes that the moment wants these frames.
fn note_all(
    table: &mut BTreeMap<NodeFrame, Use>,
    wanted: Vec<Wanted>,
    moment: u64,
) -> Result<(), Memory>
    ensures notes { OnOk result (Notes wanted.items moment table.old table.new) }
    ensures order { IsOrdered node_frame_cmp table.old → OnOk result (IsOrdered node_frame_cmp table.new) }
{
    for one in wanted {
        note(table, one, moment)?;
    }
    Ok(())
}

// Notes that the moment wants this frame.
fn note(table: &mut BTreeMap<NodeFrame, Use>, wanted: Wanted, moment: u64) -> Result<(), Memory>
    ensures notes { OnOk result (Notes (wanted ∷ []) moment table.old table.new) }
    ensures order { OnOk result (IsOrdered node_frame_cmp table.new) }
{
    let key = NodeFrame {
        node: wanted.node,
        frame: wanted.frame,
    };
    let from = first_moment(table, key, moment);
    table.insert(
        key,
        Use {
            wanted,
            from,
            until: moment,
        },
    )?;
    Ok(())
}

// The first moment that wants a node's frame: this one, where the table has no use of it.
fn first_moment(table: &BTreeMap<NodeFrame, Use>, key: NodeFrame, moment: u64) -> u64
    ensures { result ≡ option_map_or (λ u. u.from) (used_in table.now key.node key.frame) moment }
{
    match table.get(&key) {
        Some(used) => used.from,
        None => moment,
    }
}

// The uses of a table in its order.
fn listed(alloc: Global, table: BTreeMap<NodeFrame, Use>) -> Result<Vec<Use>, Memory>
    ensures { IfOk result (λ uses. uses.items ≡ values table) }
{
    let mut uses = Vec::new(alloc);
    for used in table.into_values() {
        uses.push(used)?;
    }
    Ok(uses)
}
