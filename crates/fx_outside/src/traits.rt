//! What the host asks of the outside. Each object may tell what it holds, which is the premise
//! `tells`, and has a count of faults that never falls. A count at the end of its type counts as risen.
ghost use Rattle.std.specs.Prelude.{◌≡◌, ◌≤◌, ◌++◌, ℕ, List, Option, Some, IfOk, OnOk, IsErrOf};
ghost use Rattle.fx_outside.specs.Outside.{SameFiles, SameBut, Sets, HasRisen, AddsPrefix};

use crate::{FetchFault, PutFault};
use std::alloc::Global;

/// Where graphs and source frames are fetched from.
pub trait Library {
    /// It tells the bytes of each name.
    ghost tells: { Type 0 };

    /// The bytes of a name, if it has any.
    ghost file: { Self → List ℕ → Option (List ℕ) };

    /// How often a fetch failed. It never falls.
    ghost faults: { Self → ℕ };

    /// The name of the last fetch that failed.
    ghost last: { Self → List ℕ };

    /// The bytes of a name. `Failed` comes only where the count of faults rose, and then the name is
    /// the last that failed; a name without bytes is never `Ok`.
    fn fetch(&mut self, alloc: Global, name: &str) -> Result<Vec<u8>, FetchFault>
        ensures bytes { tells → IfOk result (λ bytes. file self.old name.now ≡ Some bytes.items) }
        ensures same { tells → SameFiles (file self.old) (file self.new) }
        ensures later { faults self.old ≤ faults self.new }
        ensures failed { IsErrOf result FetchFault.Failed → HasRisen (faults self.old) (faults self.new) }
        ensures named { IsErrOf result FetchFault.Failed → last self.new ≡ name.now }
        ensures last_stays { (IsErrOf result FetchFault.Failed → ⊥) → last self.new ≡ last self.old }
        ensures count_stays { (IsErrOf result FetchFault.Failed → ⊥) → faults self.new ≡ faults self.old };
}

/// Where frames are put.
pub trait Depot {
    /// It tells the bytes of each name.
    ghost tells: { Type 0 };

    /// The bytes of a name, if it has any.
    ghost file: { Self → List ℕ → Option (List ℕ) };

    /// How often a put failed. It never falls.
    ghost faults: { Self → ℕ };

    /// The name of the last put that failed.
    ghost last: { Self → List ℕ };

    /// Sets the bytes of a name, and nothing else. `Failed` comes only where the count of faults rose,
    /// and then the name, which is the last that failed, may hold anything; at `Memory` nothing changed.
    fn put(&mut self, alloc: Global, name: &str, bytes: &[u8]) -> Result<(), PutFault>
        ensures ok { tells → OnOk result (Sets name.now bytes.now (file self.old) (file self.new)) }
        ensures others { tells → SameBut name.now (file self.old) (file self.new) }
        ensures memory { tells → IsErrOf result PutFault.Memory → SameFiles (file self.old) (file self.new) }
        ensures later { faults self.old ≤ faults self.new }
        ensures failed { IsErrOf result PutFault.Failed → HasRisen (faults self.old) (faults self.new) }
        ensures named { IsErrOf result PutFault.Failed → last self.new ≡ name.now }
        ensures last_stays { (IsErrOf result PutFault.Failed → ⊥) → last self.new ≡ last self.old }
        ensures count_stays { (IsErrOf result PutFault.Failed → ⊥) → faults self.new ≡ faults self.old };
}

/// Where reports and error lines are written.
pub trait Sink {
    /// It tells the bytes written.
    ghost tells: { Type 0 };

    /// The bytes written so far.
    ghost written: { Self → List ℕ };

    /// How often a write failed. It never falls.
    ghost faults: { Self → ℕ };

    /// Appends all the bytes. `Failed` comes only where the count of faults rose, and then a front of
    /// them was appended; at `Memory` nothing was.
    fn write(&mut self, alloc: Global, bytes: &[u8]) -> Result<(), PutFault>
        ensures ok { tells → OnOk result (written self.new ≡ written self.old ++ bytes.now) }
        ensures front { tells → AddsPrefix bytes.now (written self.old) (written self.new) }
        ensures memory { tells → IsErrOf result PutFault.Memory → written self.new ≡ written self.old }
        ensures later { faults self.old ≤ faults self.new }
        ensures failed { IsErrOf result PutFault.Failed → HasRisen (faults self.old) (faults self.new) }
        ensures count_stays { (IsErrOf result PutFault.Failed → ⊥) → faults self.new ≡ faults self.old };
}

/// When a worker draws its next piece of work. It does nothing that a contract sees.
pub trait Pace: Sync {
    /// Comes before each draw of the worker with this number.
    fn before_draw(&self, worker: u32);
}

/// It never holds a worker up.
#[derive(Clone, Copy, Debug)]
pub struct FreePace;

impl Pace for FreePace {
    fn before_draw(&self, _worker: u32) {}
}
