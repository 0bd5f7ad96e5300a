//! A hold of a gate, or of none. Contracts see it as the gate's number, the cells
//! and the bytes.
ghost use Rattle.std.specs.Prelude.{◌≡◌, [], IsSome, None, Some};
ghost use Rattle.std.specs.Borrow.{Lends, sem};
ghost use Rattle.fx_gate.specs.contracts.hold.Hold.{the_row};
ghost use Rattle.fx_gate.specs.contracts.workspace.Workspace.{the_row as the_workspace};
ghost use Rattle.fx_gate.specs.Holding.{with_workspace};

use crate::workspace::Workspace;
use fx_turn::Held;
use std::alloc::Global;
use std::marker::Model;
use std::mem;

/// A hold of a gate, with the gate's workspace, or of no gate. A hold of a gate has to be released.
pub struct Hold {
    gate: Option<u32>,
    workspace: Workspace,
    turn: Option<Held<Workspace>>,
}

impl Model for Hold {
    ghost use Rattle.std.specs.Prelude.{◌≡◌, option_map};
    ghost use Rattle.fx_gate.specs.Gates.{HoldState};

    ghost Value = { HoldState };

    ghost view = { λ h. record {
      gate = h.gate;
      cells = h.workspace.cells.items;
      bytes = h.workspace.bytes.items;
    } };

    ghost invariant = { λ h. h.gate ≡ option_map (λ t. t.slot) h.turn };
}

impl Drop for Hold {
    fn drop(self)
        requires { self.gate ≡ None }
    {
        let Self {
            gate: _,
            workspace: _,
            turn,
        } = self;
        let None = turn else { unreachable!() };
    }
}

impl Hold {
    // The hold of no gate.
    pub(crate) fn free(alloc: Global) -> Hold
        ensures { (result.gate ≡ None) × (result.cells ≡ []) × (result.bytes ≡ []) }
    {
        Hold {
            gate: None,
            workspace: Workspace::empty(alloc),
            turn: None,
        }
    }

    // The hold of the gate whose turn was taken. The workspace lies in the hold meanwhile.
    pub(crate) fn of(gate: u32, mut turn: Held<Workspace>) -> Hold
        requires { turn.slot ≡ gate }
        ensures { result.gate ≡ Some gate }
    {
        let alloc = *turn.value().cells.allocator();
        let workspace = mem::replace(turn.value_mut(), Workspace::empty(alloc));
        Hold {
            gate: Some(gate),
            workspace,
            turn: Some(turn),
        }
    }

    // The turn, with the workspace in it again.
    pub(crate) fn into_turn(self) -> Held<Workspace>
        requires { IsSome self.gate }
        ensures { Some result.slot ≡ self.gate }
    {
        let Hold {
            gate: _,
            workspace,
            turn,
        } = self;
        let Some(mut turn) = turn else { unreachable!() };
        *turn.value_mut() = workspace;
        turn
    }

    /// The gate's number, or `None` where the hold is of no gate.
    pub fn gate(&self) -> Option<u32>
        ensures { result ≡ self.now.gate }
    {
        self.gate
    }

    /// The workspace, to be used.
    pub fn workspace(&mut self) -> &mut Workspace
        ensures* lends { sem 𝓛 (Lends the_row the_workspace self.entry result (with_workspace self.old)) }
        ensures cells { result.now.cells.items ≡ self.old.cells }
        ensures bytes { result.now.bytes.items ≡ self.old.bytes }
    {
        &mut self.workspace
    }
}
