//! A row of gates and its seats. Contracts see a row as its number of gates, and a seat as its row,
//! its parts and the gate that it has.
ghost use Rattle.std.specs.Prelude.{◌≡◌, ◌+◌, ◌-◌, ◌<◌, [], IfErr, IfOk, IsSome, None, OnErr, Some, vec_len};
ghost use Rattle.fx_turn.specs.Seats.{all_parts};

use crate::hold::Hold;
use crate::workspace::Workspace;
use fx_base::Memory;
use fx_turn::{Seat, Turns};
use std::alloc::Global;
use std::marker::Model;
use std::rt::Clock;
use std::sync::Wait;

/// A row of gates. All its seats have 2^32 parts together.
#[derive(Drop)]
pub struct Gates {
    turns: Turns<(), Workspace>,
}

impl Model for Gates {
    ghost use Rattle.fx_gate.specs.Gates.{GateRow};

    ghost Value = { GateRow };

    ghost use Rattle.fx_gate.specs.Gates.{row_of};

    ghost view = { λ g. row_of g.turns };
}

/// A seat of a row of gates: the right to hold one gate at a time.
#[derive(Drop)]
pub struct GateSeat {
    seat: Seat<(), Workspace>,
}

impl Model for GateSeat {
    ghost use Rattle.fx_gate.specs.Gates.{GateSeatState};

    ghost Value = { GateSeatState };

    ghost use Rattle.fx_gate.specs.Holding.{seat_of};

    ghost view = { λ s. seat_of s.seat };
}

impl Gates {
    /// So many gates, all free, and the first seat.
    pub fn new(alloc: Global, count: u32) -> Result<(Gates, GateSeat), Memory>
        requires { 0 < count }
        ensures row { IfOk result (λ r. r.0.gates ≡ count) }
        ensures seat { IfOk result (λ r. r.1 ≡ record { row = r.0; parts = all_parts; turn = None }) }
    {
        let workspaces = empty_ones(alloc, count)?;
        match Turns::new(alloc, (), workspaces) {
            Ok((turns, seat)) => Ok((Gates { turns }, GateSeat { seat })),
            Err(_) => Err(Memory),
        }
    }

    /// A hold of no gate, with an empty workspace.
    pub fn free(alloc: Global) -> Hold
        ensures { result ≡ record { gate = None; cells = []; bytes = [] } }
    {
        Hold::free(alloc)
    }

    /// Holds a gate, with its workspace. Waits while another seat has it.
    pub fn hold<R: Wait + Clock>(&self, rt: &R, seat: &mut GateSeat, gate: u32) -> Hold
        requires gate { gate < self.now.gates }
        requires row { seat.old.row ≡ self.now }
        requires free { seat.old.turn ≡ None }
        ensures hold { result.gate ≡ Some gate }
        ensures seat { seat.new ≡ record seat.old { turn = Some gate } }
    {
        let turn = self.turns.take(rt, &mut seat.seat, gate);
        Hold::of(gate, turn)
    }

    /// Releases a gate, which this seat has.
    pub fn release(&self, seat: &mut GateSeat, hold: Hold)
        requires row { seat.old.row ≡ self.now }
        requires gate { IsSome hold.gate }
        requires took { seat.old.turn ≡ hold.gate }
        ensures { seat.new ≡ record seat.old { turn = None } }
    {
        self.turns.give(&mut seat.seat, hold.into_turn());
    }

    /// A new seat with one part of this one. At `Memory` the seat is as before.
    pub fn split(&self, alloc: Global, seat: &mut GateSeat) -> Result<GateSeat, Memory>
        requires row { seat.old.row ≡ self.now }
        requires free { seat.old.turn ≡ None }
        requires two { 1 < seat.old.parts }
        ensures new { IfOk result (λ s. s ≡ record { row = self.now; parts = 1; turn = None }) }
        ensures left { IfOk result (λ _. seat.new ≡ record seat.old { parts = seat.old.parts - 1 }) }
        ensures err { OnErr result (seat.new ≡ seat.old) }
    {
        match self.turns.split(alloc, &mut seat.seat) {
            Ok(seat) => Ok(GateSeat { seat }),
            Err(_) => Err(Memory),
        }
    }

    /// Puts a seat into another, with its parts.
    pub fn join(&self, seat: &mut GateSeat, other: GateSeat)
        requires row { seat.old.row ≡ self.now }
        requires free { seat.old.turn ≡ None }
        requires other_row { other.row ≡ self.now }
        requires other_free { other.turn ≡ None }
        ensures { seat.new ≡ record seat.old { parts = seat.old.parts + other.parts } }
    {
        let GateSeat { seat: other } = other;
        self.turns.join(&mut seat.seat, other);
    }

    /// Frees the gates and their workspaces. `Memory` hands the row and its seat back.
    pub fn close(self, alloc: Global, seat: GateSeat) -> Result<(), (Gates, GateSeat, Memory)>
        requires row { seat.row ≡ self }
        requires all { seat.parts ≡ all_parts }
        requires free { seat.turn ≡ None }
        ensures back { IfErr result (λ r. (r.0 ≡ self) × (r.1 ≡ seat)) }
    {
        let Gates { turns } = self;
        let GateSeat { seat } = seat;
        match turns.close(alloc, seat) {
            Ok(_) => Ok(()),
            Err((turns, seat, _)) => Err((Gates { turns }, GateSeat { seat }, Memory)),
        }
    }
}

// So many empty workspaces.
fn empty_ones(alloc: Global, count: u32) -> Result<Vec<Workspace>, Memory>
    ensures { IfOk result (λ v. vec_len v ≡ count) }
{
    let mut workspaces = Vec::with_capacity(alloc, count as usize)?;
    for _ in 0..count {
        workspaces.push_reserved(Workspace::empty(alloc));
    }
    Ok(workspaces)
}
