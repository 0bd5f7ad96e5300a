//! Why the wanted frames are not held.
ghost use Rattle.std.specs.Prelude.{◌≡◌};
ghost use Rattle.fx_seq.specs.declared.fault.SeqFault.TheVariants.{Memory as OutOfMemory};

use fx_base::{Memory, Name};
use fx_pam::PamFault;
use std::alloc::AllocFailed;

/// Why a wanted frame is not held. Each but `Memory` names its node and frame.
#[derive(Debug, Drop)]
pub enum SeqFault {
    /// Fetching the file of this name failed.
    Fetch(u32, i64, Name),
    /// The file is not a picture that is read.
    Frame(u32, i64, PamFault),
    /// With this frame the frames read so far have so many bytes, which are more than the limit.
    TooLarge(u32, i64, u64),
    /// Memory was wanting.
    Memory,
}

impl From<Memory> for SeqFault {
    ghost from_gives = { λ _ e. e ≡ OutOfMemory };

    fn from(_: Memory) -> SeqFault {
        SeqFault::Memory
    }
}

impl<T: Drop> From<AllocFailed<T>> for SeqFault {
    ghost from_gives = { λ _ e. e ≡ OutOfMemory };

    fn from(_: AllocFailed<T>) -> SeqFault {
        SeqFault::Memory
    }
}
