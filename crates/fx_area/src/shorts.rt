//! Samples of 16 bits, 16 at once, and the 32 bytes of a row that hold them: the more significant byte comes first.
ghost use Rattle.std.specs.Prelude.{◌≡◌, ◌<◌, ℕ, ◌+◌, ◌-◌, ◌*◌, ◌/◌, ◌%◌, length, slice_index};
ghost use Rattle.fx_pixel.specs.declared.Depth.TheVariants.{Short};
ghost use Rattle.fx_image.specs.Stored.{sample_in};

use std::simd::prelude::*;

/// How many samples are taken at once.
pub(crate) const LANES: usize = 16;

/// The samples that the bytes of a row hold.
#[inline(always)]
pub(crate) fn samples_of(bytes: u8x32) -> u16x16
    ensures { (i : ℕ) → i < 16 → slice_index result i ≡ sample_in Short bytes i }
{
    u16x16::from_le_bytes(swapped(bytes))
}

/// The bytes of a row that hold the samples.
#[inline(always)]
pub(crate) fn bytes_of(samples: u16x16) -> u8x32
    ensures len { length result ≡ 32 }
    ensures value { (i : ℕ) → i < 16 → sample_in Short result i ≡ slice_index samples i }
{
    swapped(samples.to_le_bytes())
}

// The bytes with those of each pair in the other order.
#[inline(always)]
fn swapped(bytes: u8x32) -> u8x32
    ensures len { length result ≡ 32 }
    ensures value { (i : ℕ) → i < 32 → slice_index result i ≡ slice_index bytes (2 * (i / 2) + 1 - i % 2) }
{
    bytes.swizzle([
        1, 0, 3, 2, 5, 4, 7, 6, 9, 8, 11, 10, 13, 12, 15, 14, 17, 16, 19, 18, 21, 20, 23, 22, 25,
        24, 27, 26, 29, 28, 31, 30,
    ])
}
