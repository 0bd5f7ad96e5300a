ghost use Rattle.std.specs.Prelude.{◌≡◌, ◌<◌, None};

use crate::same::same;
use fx_gate::{GateSeat, Gates};
use std::process::Abort;
use std::rt::Clock;
use std::sync::Wait;
use std::thread::{self, Threads};

// Holds a gate, makes room for so many cells in its workspace, and releases it.
fn make_room<R: Wait + Clock + Abort + AllocGlobal>(
    rt: &R,
    gates: &Gates,
    seat: &mut GateSeat,
    gate: u32,
    cells: u32,
)
    requires { (seat.old.row ≡ gates.now) × (seat.old.turn ≡ None) × (gate < gates.now.gates) }
    ensures { seat.new ≡ seat.old }
{
    let mut hold = gates.hold(rt, seat, gate);
    same(rt, hold.gate(), Some(gate));
    let made = hold.workspace().room(rt.alloc(), cells);
    let kept = made.is_ok() && hold.workspace().cells.len() == cells as usize;
    gates.release(seat, hold);
    assert!(rt; kept);
}

#[test]
fn a_gate_is_held_and_released(rt: HostRuntime) {
    let (gates, mut seat) = Gates::new(rt.alloc(), 4).expect(&rt, "no gates");
    make_room(&rt, &gates, &mut seat, 3, 2);
    assert!(rt; gates.close(rt.alloc(), seat).is_ok());
}

#[test]
fn room_keeps_the_old_cells(rt: HostRuntime) {
    let alloc = rt.alloc();
    let mut hold = Gates::free(alloc);
    same(&rt, hold.gate(), None);
    let workspace = hold.workspace();
    workspace.room(alloc, 2).expect(&rt, "no room");
    workspace.cells.clear();
    workspace.cells.push(7).expect(&rt, "no cell");
    workspace.room(alloc, 3).expect(&rt, "no room");
    workspace.room(alloc, 1).expect(&rt, "no room");
    same(&rt, workspace.cells.as_slice(), [7, 0, 0].as_slice());
}

#[test]
fn room_keeps_the_old_bytes(rt: HostRuntime) {
    let alloc = rt.alloc();
    let mut hold = Gates::free(alloc);
    let workspace = hold.workspace();
    workspace.byte_room(alloc, 1).expect(&rt, "no room");
    workspace.bytes.clear();
    workspace.bytes.push(7).expect(&rt, "no byte");
    workspace.byte_room(alloc, 3).expect(&rt, "no room");
    workspace.byte_room(alloc, 1).expect(&rt, "no room");
    same(&rt, workspace.bytes.as_slice(), [7, 0, 0].as_slice());
    same(&rt, workspace.cells.len(), 0);
}

// Holds each gate in turn and counts in its first cell.
fn count<R: Wait + Clock>(rt: &R, gates: &Gates, mut seat: GateSeat, times: u32) -> GateSeat
    requires { (seat.row ≡ gates.now) × (seat.turn ≡ None) × (1 < gates.now.gates) }
    ensures { (result.row ≡ gates.now) × (result.turn ≡ None) × (result.parts ≡ seat.parts) }
{
    for round in 0..times {
        let mut hold = gates.hold(rt, &mut seat, round % 2);
        for cell in hold.workspace().cells.iter_mut() {
            *cell = cell.wrapping_add(1);
        }
        gates.release(&mut seat, hold);
    }
    seat
}

// Two threads count in both gates beside each other.
fn both_count<R: Threads + Wait + Clock + Sync + Abort + AllocGlobal>(
    rt: &R,
    gates: &Gates,
    mut first: GateSeat,
) -> GateSeat
    requires seat { (first.row ≡ gates.now) × (first.turn ≡ None) × (1 < first.parts) }
    requires gates { 1 < gates.now.gates }
    ensures { (result.row ≡ gates.now) × (result.turn ≡ None) × (result.parts ≡ first.parts) }
{
    let second = gates
        .split(rt.alloc(), &mut first)
        .expect(rt, "no second seat");
    let (mut first, second) = thread::join(
        rt,
        || count(rt, gates, first, 1000),
        || count(rt, gates, second, 1000),
    );
    gates.join(&mut first, second);
    first
}

// What the first cell of a gate is.
fn first_cell<R: Wait + Clock>(rt: &R, gates: &Gates, seat: &mut GateSeat, gate: u32) -> Option<u64>
    requires { (seat.old.row ≡ gates.now) × (seat.old.turn ≡ None) × (gate < gates.now.gates) }
    ensures { seat.new ≡ seat.old }
{
    let mut hold = gates.hold(rt, seat, gate);
    let counted = hold.workspace().cells.first().copied();
    gates.release(seat, hold);
    counted
}

#[test]
fn two_threads_hold_two_gates(rt: HostRuntime) {
    let (gates, mut seat) = Gates::new(rt.alloc(), 2).expect(&rt, "no gates");
    make_room(&rt, &gates, &mut seat, 0, 1);
    make_room(&rt, &gates, &mut seat, 1, 1);
    let mut seat = both_count(&rt, &gates, seat);
    same(&rt, first_cell(&rt, &gates, &mut seat, 1), Some(1000));
    assert!(rt; gates.close(rt.alloc(), seat).is_ok());
}
