//! Why a file is not put.
use fx_base::{Memory, Name};
use fx_words::RunFault;

/// Why a file was not put.
#[derive(Debug, Drop)]
pub(crate) enum PutFailure {
    /// The file of this name could not be written.
    Write(Name),
    /// Memory was wanting.
    Memory,
}

impl From<Memory> for PutFailure {
    ghost use Rattle.std.specs.Prelude.{◌≡◌};
    ghost use Rattle.fx_modes.specs.declared.frames.PutFailure.TheVariants.{Memory as OutOfMemory};

    ghost from_gives = { λ _ e. e ≡ OutOfMemory };

    fn from(_: Memory) -> PutFailure {
        PutFailure::Memory
    }
}

impl From<PutFailure> for RunFault {
    ghost use Rattle.std.specs.Prelude.{◌≡◌};
    ghost use Rattle.fx_modes.specs.Steps.{put_fault};

    ghost from_gives = { λ failure fault. fault ≡ put_fault failure };

    fn from(failure: PutFailure) -> RunFault {
        match failure {
            PutFailure::Write(name) => RunFault::Write(name),
            PutFailure::Memory => RunFault::Memory,
        }
    }
}
