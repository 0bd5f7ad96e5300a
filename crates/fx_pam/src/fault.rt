//! Why bytes are not read as a PAM file.
ghost use Rattle.std.specs.Prelude.{◌≡◌};
ghost use Rattle.fx_pam.specs.declared.fault.PamFault.TheVariants.{Memory as OutOfMemory};

use fx_base::Memory;

/// A number of the header.
#[derive(Clone, Copy, Debug, PartialEq, Eq)]
pub enum PamField {
    Width,
    Height,
    Depth,
    Maxval,
}

/// The first fault of bytes that are not read, in this order.
#[derive(Clone, Copy, Debug, PartialEq, Eq)]
pub enum PamFault {
    /// They don't begin with `P7` and a line feed.
    NotPam,
    /// The number of the first header line that is wrong, counted from 1.
    HeaderWrong(u64),
    /// The first number of the header that is out of its range.
    SizeOutOfRange(PamField),
    /// How many bytes the raster has to have, and how many there are.
    Truncated(u64, u64),
    /// The place of the first sample above the greatest value, counted from 0, and the sample.
    SampleAboveMaxval(u64, u32),
    /// Memory was wanting.
    Memory,
}

impl From<Memory> for PamFault {
    ghost from_gives = { λ _ e. e ≡ OutOfMemory };

    fn from(_: Memory) -> PamFault {
        PamFault::Memory
    }
}
