//! The part that puts files.
ghost use Rattle.std.specs.Prelude.{◌≡◌, ◌∷◌, ◌++◌, ◌⊎◌, []};
ghost use Rattle.fx_pipe.specs.Blocks.{IsLeft, Puts, Spares};

use crate::Made;
use fx_base::Name;
use fx_outside::{Depot, PutFault};
use std::alloc::Global;
use std::collections::VecDeque;

/// Why not every file of a block was put.
#[derive(Debug, Drop)]
pub enum PutStop {
    /// The file of this name could not be written.
    Failed(Name),
    /// Memory was wanting.
    Memory,
}

/// Puts the files of a block, one after the other. Where one is not put, those behind it are left. The bytes of those
/// that were put are left in `spare`, whose memory may serve for the next files.
pub fn put_block<D: Depot>(
    alloc: Global,
    depot: &mut D,
    made: &mut VecDeque<Made>,
    spare: &mut VecDeque<Vec<u8>>,
) -> Result<(), PutStop>
    ensures puts { Puts D.tells made.old.items (D.file depot.old) (D.file depot.new) (D.faults depot.old)
        (D.faults depot.new) (D.last depot.old) (D.last depot.new) result }
    ensures left { IsLeft D.tells made.old.items made.new.items (D.file depot.old) (D.file depot.new) result }
    ensures spare { Spares made.old.items made.new.items spare.old.items spare.new.items }
{
    while let Some(one) = made.pop_front() {
        let Made { name, bytes } = one;
        match depot.put(alloc, name.text(), &bytes) {
            Ok(()) => keep(spare, bytes),
            Err(PutFault::Failed) => return Err(PutStop::Failed(name)),
            Err(PutFault::Memory) => return Err(PutStop::Memory),
        }
    }
    Ok(())
}

// Keeps these bytes, where there is memory to do so.
fn keep(spare: &mut VecDeque<Vec<u8>>, bytes: Vec<u8>)
    ensures { let old = spare.old.items in (spare.new.items ≡ old) ⊎ (spare.new.items ≡ old ++ bytes ∷ []) }
{
    let _ = spare.push_back(bytes);
}
