//! Room for the sums and the rows of a render.
ghost use Rattle.std.specs.Prelude.{◌≡◌, ◌++◌, ◌-◌, ◌≤◌, [], OnErr, OnOk, replicate, vec_len};

use fx_base::Memory;
use fx_turn::Fits;
use std::alloc::Global;

/// Cells and bytes that a render may use. It clears what it uses first: an earlier render may have left
/// anything.
#[derive(Debug, Drop)]
pub struct Workspace {
    pub cells: Vec<u64>,
    pub bytes: Vec<u8>,
}

impl Workspace {
    pub(crate) fn empty(alloc: Global) -> Workspace
        ensures { (result.cells.items ≡ []) × (result.bytes.items ≡ []) }
    {
        Workspace {
            cells: Vec::new(alloc),
            bytes: Vec::new(alloc),
        }
    }

    /// Makes room: at least so many cells, with the old ones and the bytes unchanged. At `Memory` nothing
    /// changed.
    pub fn room(&mut self, _alloc: Global, n: u32) -> Result<(), Memory>
        ensures enough { OnOk result (n ≤ vec_len self.new.cells) }
        ensures cells { let old = self.old.cells in
            OnOk result (self.new.cells.items ≡ old.items ++ replicate (n - vec_len old) 0) }
        ensures err { OnErr result (self.new.cells.items ≡ self.old.cells.items) }
        ensures bytes { self.new.bytes ≡ self.old.bytes }
    {
        let count = n as usize;
        if self.cells.len() < count {
            self.cells.resize(count, 0)?;
        }
        Ok(())
    }

    /// Makes room: at least so many bytes, with the old ones and the cells unchanged. At `Memory` nothing
    /// changed.
    pub fn byte_room(&mut self, _alloc: Global, count: usize) -> Result<(), Memory>
        ensures enough { OnOk result (count ≤ vec_len self.new.bytes) }
        ensures bytes { let old = self.old.bytes in
            OnOk result (self.new.bytes.items ≡ old.items ++ replicate (count - vec_len old) 0) }
        ensures err { OnErr result (self.new.bytes.items ≡ self.old.bytes.items) }
        ensures cells { self.new.cells ≡ self.old.cells }
    {
        if self.bytes.len() < count {
            self.bytes.resize(count, 0)?;
        }
        Ok(())
    }
}

// Any workspace fits, and has nothing to count or to claim.
impl Fits<()> for Workspace {
    ghost use Rattle.std.specs.Prelude.{[]};
    ghost use Rattle.std.proofs.Common.{arith, refl};
    ghost use Rattle.fx_turn.specs.Tallies.{zeros};

    type Mark = ();

    ghost fits = { λ _ _. Unit {0} };

    ghost tally = { λ _. zeros };

    ghost claims = { λ _. [] };

    ghost grown = { λ _ _. Unit {0} };

    ghost six_numbers = { λ _. refl };

    ghost numbers_differ = { λ _ _ _ _. Prim.omega arith };

    ghost still_fits = { λ _ _ _ _ _. tt };
}
