//! The parameters of a graph's nodes, lent: a row for each node, which may be edited while the graph stays as it is.
ghost use Rattle.std.specs.Prelude.{◌≡◌, IfOk};
ghost use Rattle.std.specs.List.{AllByRecursion};
ghost use Rattle.fx_graph.specs.Shown.{does_of};
ghost use Rattle.fx_scene.specs.Rows.{HasPlace, own_row, own_rows, row_in, rows_edited, rows_in, with_param_at};

use crate::take::Edit;
use fx_base::Memory;
use fx_effect::Catalogue;
use fx_graph::{Graph, Work};
use fx_params::Param;
use std::alloc::Global;

/// The graph's own parameters.
pub(crate) fn rows_of<'a, E: Catalogue>(
    alloc: Global,
    graph: &'a Graph<E>,
) -> Result<Vec<Vec<&'a Param>>, Memory>
    ensures { IfOk result (λ rows. rows_in rows.items ≡ own_rows graph.now.nodes.items) }
{
    let mut rows = Vec::new(alloc);
    for node in &graph.nodes {
        rows.push(row_of(alloc, &node.work)?)?;
    }
    Ok(rows)
}

/// What a node does by its own parameters.
pub(crate) fn row_of<'a, E>(alloc: Global, work: &'a Work<E>) -> Result<Vec<&'a Param>, Memory>
    ensures { IfOk result (λ row. row_in row.items ≡ own_row (does_of work.now)) }
{
    match work {
        Work::Source { .. } => Ok(Vec::new(alloc)),
        Work::Effect { params, .. } => lent(alloc, params.as_slice()),
    }
}

// Each of these.
fn lent<'a>(alloc: Global, params: &'a [Param]) -> Result<Vec<&'a Param>, Memory>
    ensures { IfOk result (λ row. row_in row.items ≡ params.now) }
{
    let mut row = Vec::new(alloc);
    for param in params {
        row.push(param)?;
    }
    Ok(row)
}

/// Does the edits in order.
pub(crate) fn edit_rows<'a>(rows: &mut Vec<Vec<&'a Param>>, edits: &'a [Edit])
    requires { AllByRecursion (HasPlace (rows_in rows.old.items)) edits.now }
    ensures { rows_in rows.new.items ≡ rows_edited edits.now (rows_in rows.old.items) }
{
    for edit in edits {
        edit_row(rows, edit);
    }
}

// Does one edit.
fn edit_row<'a>(rows: &mut Vec<Vec<&'a Param>>, edit: &'a Edit)
    requires { HasPlace (rows_in rows.old.items) edit.now }
    ensures { let new = with_param_at edit.now.node edit.now.param edit.now.value (rows_in rows.old.items) in
        rows_in rows.new.items ≡ new }
{
    rows[edit.node as usize][edit.param as usize] = &edit.value;
}
