//! Reads the takes of a graph file.
ghost use Rattle.std.specs.Prelude.{◌≡◌, ◌≤◌, Ok, IfOk, length, codes};
ghost use Rattle.serde_json.specs.View.{view, items_view};
ghost use Rattle.fx_text.specs.Answers.{Answers, Refuses};
ghost use Rattle.fx_text.specs.Paths.{inside, joined};
ghost use Rattle.fx_text.specs.Values.{moved, value_of};
ghost use Rattle.fx_text.specs.Takes.{edit_of, edits_of, take_of, takes_of, takes_at};

use crate::fault::GraphFault;
use crate::json::{check_object, list_at, list_or, member_at, name_at};
use crate::params::{moved, value_of};
use crate::path::{inside, joined};
use crate::raw::{MOST_EDITS, MOST_TAKES, RawEdit, RawTake, RawTakes};
use crate::value::RawValue;
use serde_json::Value;
use std::alloc::Global;

// A value, whose faults all stand at the path of this member.
fn value_in(alloc: Global, path: &str, key: &str, value: &Value) -> Result<RawValue, GraphFault>
    ensures { Answers result (moved (joined path.now key.now) (value_of (view value.now))) }
{
    match value_of(alloc, value) {
        Ok(value) => Ok(value),
        Err(fault) => Err(moved(alloc, path, key, fault)),
    }
}

// An edit.
fn edit_of(alloc: Global, path: &str, value: &Value) -> Result<RawEdit, GraphFault>
    ensures { Answers result (edit_of path.now (view value.now)) }
{
    check_object(alloc, path, &["node", "param", "value"], value)?;
    let node = name_at(alloc, path, "node", value)?;
    let param = name_at(alloc, path, "param", value)?;
    let given = member_at(alloc, path, "value", value)?;
    let value = value_in(alloc, path, "value", given)?;
    Ok(RawEdit { node, param, value })
}

fn edit_at(alloc: Global, path: &str, k: usize, value: &Value) -> Result<RawEdit, GraphFault>
    ensures { Answers result (edit_of (inside path.now k) (view value.now)) }
{
    let path = inside(alloc, path, k)?;
    edit_of(alloc, path.as_str(), value)
}

fn edits_of(alloc: Global, path: &str, values: &[Value]) -> Result<Vec<RawEdit>, GraphFault>
    ensures ok { IfOk result (λ edits. edits_of path.now (items_view values.now) ≡ Ok edits.items) }
    ensures count { IfOk result (λ edits. length edits.items ≡ length values.now) }
    ensures err { Refuses result (edits_of path.now (items_view values.now)) }
{
    let mut edits = Vec::new(alloc);
    for (k, value) in values.iter().enumerate() {
        let edit = edit_at(alloc, path, k, value)?;
        edits.push(edit)?;
    }
    Ok(edits)
}

// A take.
fn take_of(alloc: Global, path: &str, value: &Value) -> Result<RawTake, GraphFault>
    ensures { Answers result (take_of path.now (view value.now)) }
{
    check_object(alloc, path, &["file", "edits"], value)?;
    let file = name_at(alloc, path, "file", value)?;
    let edits_path = joined(alloc, path, "edits")?;
    let values = list_at(alloc, path, "edits", 1, MOST_EDITS, value)?;
    let edits = edits_of(alloc, edits_path.as_str(), values)?;
    Ok(RawTake { file, edits })
}

fn take_at(alloc: Global, k: usize, value: &Value) -> Result<RawTake, GraphFault>
    ensures { Answers result (take_of (inside (codes "takes") k) (view value.now)) }
{
    let path = inside(alloc, "takes", k)?;
    take_of(alloc, path.as_str(), value)
}

fn takes_of(alloc: Global, values: &[Value]) -> Result<Vec<RawTake>, GraphFault>
    ensures ok { IfOk result (λ takes. takes_of (items_view values.now) ≡ Ok takes.items) }
    ensures count { IfOk result (λ takes. length takes.items ≡ length values.now) }
    ensures err { Refuses result (takes_of (items_view values.now)) }
{
    let mut takes = Vec::new(alloc);
    for (k, value) in values.iter().enumerate() {
        let take = take_at(alloc, k, value)?;
        takes.push(take)?;
    }
    Ok(takes)
}

/// The takes of a graph, of which there are none where the member is absent.
pub(crate) fn takes_at(alloc: Global, value: &Value) -> Result<RawTakes, GraphFault>
    ensures { Answers result (takes_at (view value.now)) }
{
    let values = list_or(alloc, "", "takes", 0, MOST_TAKES, value)?;
    let takes = takes_of(alloc, values)?;
    Ok(RawTakes::of(takes))
}
