//! Why a call on a property set is refused.
ghost use Rattle.std.specs.Prelude.{◌≡◌};
ghost use Rattle.fx_props.specs.declared.fault.PropFault.TheVariants as fault;

use std::alloc::{AllocError, AllocFailed};

/// Why a call on a property set was refused.
#[derive(Clone, Copy, Debug, PartialEq, Eq)]
pub enum PropFault {
    /// No property has that name and that kind.
    ErrUnknown,
    /// No value stands at that place, or none can be put there.
    ErrBadIndex,
    /// The value isn't one of those that are allowed.
    ErrValue,
    /// An allocation was refused.
    Memory,
}

impl From<AllocError> for PropFault {
    ghost from_gives = { λ _ given. given ≡ fault.Memory };

    fn from(_: AllocError) -> PropFault {
        PropFault::Memory
    }
}

impl<T: Drop> From<AllocFailed<T>> for PropFault {
    ghost from_gives = { λ _ given. given ≡ fault.Memory };

    fn from(_: AllocFailed<T>) -> PropFault {
        PropFault::Memory
    }
}
