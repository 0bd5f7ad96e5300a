//! Why a call of the outside fails.
ghost use Rattle.std.specs.Prelude.{◌≡◌};
ghost use Rattle.fx_outside.specs.declared.fault.FetchFault.TheVariants.{Memory as FetchMemory};
ghost use Rattle.fx_outside.specs.declared.fault.PutFault.TheVariants.{Memory as PutMemory};

use std::alloc::{AllocError, AllocFailed};

/// Why a fetch fails.
#[derive(Clone, Copy, Debug, PartialEq, Eq)]
pub enum FetchFault {
    /// The name has no bytes, or reading them failed.
    Failed,
    /// Memory was wanting.
    Memory,
}

impl From<AllocError> for FetchFault {
    ghost from_gives = { λ _ e. e ≡ FetchMemory };

    fn from(_: AllocError) -> FetchFault {
        FetchFault::Memory
    }
}

/// Why a put or a write fails.
#[derive(Clone, Copy, Debug, PartialEq, Eq)]
pub enum PutFault {
    /// Writing failed.
    Failed,
    /// Memory was wanting.
    Memory,
}

impl From<AllocError> for PutFault {
    ghost from_gives = { λ _ e. e ≡ PutMemory };

    fn from(_: AllocError) -> PutFault {
        PutFault::Memory
    }
}

impl<T: Drop> From<AllocFailed<T>> for PutFault {
    ghost from_gives = { λ _ e. e ≡ PutMemory };

    fn from(_: AllocFailed<T>) -> PutFault {
        PutFault::Memory
    }
}
