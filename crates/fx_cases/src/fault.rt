//! Why a case can't be run.
use hex::FromHexError;
use std::alloc::{AllocError, AllocFailed};

/// Why a file of cases, or a case, isn't run: what is named here isn't of its form, or memory was wanting.
#[derive(Clone, Copy)]
pub(crate) struct CaseFault {
    pub(crate) what: &'static str,
}

/// Memory was wanting.
pub(crate) const MEMORY: CaseFault = CaseFault { what: "memory" };

impl CaseFault {
    /// What is named here isn't of its form.
    pub(crate) fn of(what: &'static str) -> CaseFault {
        CaseFault { what }
    }
}

impl From<AllocError> for CaseFault {
    fn from(_: AllocError) -> CaseFault {
        MEMORY
    }
}

impl<T: Drop> From<AllocFailed<T>> for CaseFault {
    fn from(_: AllocFailed<T>) -> CaseFault {
        MEMORY
    }
}

impl From<FromHexError> for CaseFault {
    fn from(e: FromHexError) -> CaseFault {
        match e {
            FromHexError::OutOfMemory => MEMORY,
            _ => CaseFault::of("hexadecimal digits"),
        }
    }
}
