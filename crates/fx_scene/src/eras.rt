//! Which nodes the edits of a take touch, and the eras of nodes.
ghost use Rattle.std.specs.Prelude.{◌≡◌, ◌<◌, ◌≤◌, ◌+◌, ◌||◌, ℕ, Bool, false, map, length, slice_index_or, if◌then◌else◌, IfOk};
ghost use Rattle.fx_base.specs.declared.limits.TheConstants.{MOST_NODES};
ghost use Rattle.fx_text.specs.declared.raw.TheConstants.{MOST_TAKES};
ghost use Rattle.fx_graph.specs.Shown.{does_of, shown};
ghost use Rattle.fx_scene.specs.Scripts.{era_in};
ghost use Rattle.std.specs.List.{list_any};
ghost use Rattle.fx_scene.specs.Takes.{clip_touched, does_touched, is_touched, names_node};

use crate::take::Edit;
use fx_base::Memory;
use fx_graph::{Node, Work};
use std::alloc::Global;

/// Whether the edits are of a node, or of one that it reaches through clips, for each node.
pub(crate) fn touched_by<E>(
    alloc: Global,
    nodes: &[Node<E>],
    edits: &[Edit],
) -> Result<Vec<bool>, Memory>
    requires { length nodes.now ≤ MOST_NODES }
    ensures length { IfOk result (λ touched. length touched.items ≡ length nodes.now) }
    ensures touched { IfOk result (λ touched. (n : ℕ) → n < length nodes.now
        → slice_index_or touched.items n false ≡ is_touched (map shown nodes.now) edits.now n) }
{
    let mut touched = Vec::new(alloc);
    for n in 0..nodes.len() {
        let is = touches(edits, touched.as_slice(), n as u32, &nodes[n].work);
        touched.push(is)?;
    }
    Ok(touched)
}

// Whether the edits are of a node, or of one that it reaches through clips, where these before it are touched.
fn touches<E>(edits: &[Edit], touched: &[bool], node: u32, work: &Work<E>) -> bool
    ensures { let before : ℕ → Bool = λ m. slice_index_or touched.now m false in
        result ≡ (names_node edits.now node || does_touched before (does_of work.now)) }
{
    names_node(edits, node) || does_touched(touched, work)
}

// Whether one of the edits is of the node.
fn names_node(edits: &[Edit], node: u32) -> bool
    ensures { result ≡ names_node edits.now node }
{
    edits.iter().any(|e| e.node == node)
}

// Whether one of a node's clips is touched.
fn does_touched<E>(touched: &[bool], work: &Work<E>) -> bool
    ensures { result ≡ does_touched (λ m. slice_index_or touched.now m false) (does_of work.now) }
{
    match work {
        Work::Source { .. } => false,
        Work::Effect { clips, .. } => any_touched(touched, clips.as_slice()),
    }
}

fn any_touched(touched: &[bool], clips: &[Option<u32>]) -> bool
    ensures { result ≡ list_any (clip_touched (λ m. slice_index_or touched.now m false)) clips.now }
{
    clips.iter().any(|clip| clip_touched(touched, *clip))
}

fn clip_touched(touched: &[bool], clip: Option<u32>) -> bool
    ensures { result ≡ clip_touched (λ m. slice_index_or touched.now m false) clip }
{
    match clip {
        None => false,
        Some(m) => touched.get(m as usize).copied().unwrap_or(false),
    }
}

/// The eras after a take that touches these nodes.
pub(crate) fn raised(alloc: Global, eras: &[u32], touched: &[bool]) -> Result<Vec<u32>, Memory>
    requires { (n : ℕ) → n < length touched.now → era_in eras.now n < MOST_TAKES }
    ensures { IfOk result (λ new. (n : ℕ) → n < length touched.now
        → era_in new.items n ≡ era_in eras.now n + (if slice_index_or touched.now n false then 1 else 0)) }
{
    let mut new = Vec::new(alloc);
    for n in 0..touched.len() {
        new.push(era_after(era_in(eras, n), touched[n]))?;
    }
    Ok(new)
}

// The era after a take that touches the node, or does not.
fn era_after(era: u32, touched: bool) -> u32
    requires { era < MOST_TAKES }
    ensures { result ≡ era + (if touched then 1 else 0) }
{
    if touched { era + 1 } else { era }
}

/// The era that stands at a node's place, and 0 where none does.
pub(crate) fn era_in(eras: &[u32], node: usize) -> u32
    ensures { result ≡ era_in eras.now node }
{
    eras.get(node).copied().unwrap_or(0)
}
