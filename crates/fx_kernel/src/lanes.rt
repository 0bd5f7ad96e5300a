//! Pixels of 8 bits a sample with r, g, b and a, eight at once in 32 lanes.
ghost use Rattle.std.specs.Prelude.{◌≡◌, ◌<◌, ℕ, length, slice_index};
ghost use Rattle.fx_kernel.specs.Blends.{product};
ghost use Rattle.fx_kernel.specs.Lanes.{AreAlphas};

use std::simd::prelude::*;

/// The a of each pixel, at each of its samples.
#[inline(always)]
pub fn alphas(pixels: u8x32) -> u8x32
    ensures len { length result ≡ 32 }
    ensures value { AreAlphas pixels result }
{
    pixels.swizzle([
        3, 3, 3, 3, 7, 7, 7, 7, 11, 11, 11, 11, 15, 15, 15, 15, 19, 19, 19, 19, 23, 23, 23, 23, 27,
        27, 27, 27, 31, 31, 31, 31,
    ])
}

/// The product of two samples at each lane.
#[inline(always)]
pub fn product(a: u8x32, b: u8x32) -> u8x32
    ensures len { length result ≡ 32 }
    ensures value { (i : ℕ) → i < 32 → slice_index result i ≡ product 255 (slice_index a i) (slice_index b i) }
{
    // No sum is more than 255 * 255 + 127, which 16 bits hold.
    let products = a.cast::<u16>() * b.cast::<u16>();
    ((products + u16x32::splat(127)) / u16x32::splat(255)).cast::<u8>()
}
