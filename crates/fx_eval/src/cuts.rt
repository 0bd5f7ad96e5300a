//! A region in pieces of at most 4,096 by 4,096 pixels.
ghost use Rattle.std.specs.Prelude.{◌≡◌, ◌+◌, ◌*◌, ◌≤ℤ◌, ◌<ℤ◌, ◌+ℤ◌, pos, length, All, IfOk, OnOk};
ghost use Rattle.std.specs.Int.{int_min, int_gap};
ghost use Rattle.fx_effect.specs.Asked.{IsWindow};
ghost use Rattle.fx_eval.specs.Cuts.{Cover, IsCut, AddsRow, IsNearSpan, along, pieces};

use fx_base::{Memory, Rect};
use std::alloc::Global;

const SIDE: i64 = 4096;

/// Pieces that together have the region.
pub(crate) fn cut(alloc: Global, r: Rect) -> Result<Vec<Rect>, Memory>
    requires { IsWindow r }
    ensures small { IfOk result (λ cuts. All IsCut cuts.items) }
    ensures cover { IfOk result (λ cuts. Cover cuts.items r) }
    ensures count { IfOk result (λ cuts. length cuts.items ≡ pieces r) }
{
    let mut cuts = Vec::new(alloc);
    let x1 = r.x1;
    let x2 = r.x2;
    let y1 = r.y1;
    let y2 = r.y2;
    for j in 0..count(y1, y2) {
        let bottom = start(y1, j, y2);
        let top = end(bottom, y2);
        add_row(x1, x2, bottom, top, &mut cuts)?;
    }
    Ok(cuts)
}

// How many pieces reach from one place to another.
fn count(from: i64, to: i64) -> u32
    requires { IsNearSpan from to }
    ensures enough { to ≤ℤ (from +ℤ pos (result * 4096)) }
    ensures least { (from +ℤ pos (result * 4096)) <ℤ (to +ℤ pos 4096) }
{
    ((to - from + (SIDE - 1)) / SIDE) as u32
}

// Where a piece begins.
fn start(from: i64, i: u32, _to: i64) -> i64
    requires near { IsNearSpan from _to }
    requires below { (from +ℤ pos (i * 4096)) <ℤ _to }
    ensures { result ≡ from +ℤ pos (i * 4096) }
{
    from + i as i64 * SIDE
}

// Where it ends.
fn end(start: i64, to: i64) -> i64
    requires { IsNearSpan start to }
    ensures { result ≡ int_min (start +ℤ pos 4096) to }
{
    (start + SIDE).min(to)
}

fn add_row(x1: i64, x2: i64, bottom: i64, top: i64, cuts: &mut Vec<Rect>) -> Result<(), Memory>
    requires wide { IsNearSpan x1 x2 }
    requires high { IsNearSpan bottom top }
    requires rises { bottom <ℤ top }
    requires small { top ≤ℤ (bottom +ℤ pos 4096) }
    ensures adds { OnOk result (AddsRow x1 x2 bottom top cuts.old.items cuts.new.items) }
    ensures count { OnOk result (length cuts.new.items ≡ length cuts.old.items + along (int_gap x1 x2)) }
{
    for i in 0..count(x1, x2) {
        let left = start(x1, i, x2);
        let right = end(left, x2);
        cuts.push(Rect::of(left, bottom, right, top))?;
    }
    Ok(())
}
