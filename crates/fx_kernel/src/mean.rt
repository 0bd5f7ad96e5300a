//! Means of many sums of one count.
ghost use Rattle.std.specs.Prelude.{◌≡◌, ◌≤◌, ◌<◌, ◌*◌, ℕ, length, slice_index};
ghost use Rattle.fx_pixel.specs.Pixel.{greatest};
ghost use Rattle.fx_kernel.specs.Factor.{HasByteFactor};
ghost use Rattle.fx_kernel.specs.Samples.{rounded};

use fx_pixel::Depth;
use std::marker::Model;
use std::simd::prelude::*;

/// Divides by one count, to the nearest and halves up. It multiplies in the place of that, since the
/// count is known only when it runs.
#[derive(Clone, Copy, Debug)]
pub struct Mean {
    count: u64,
    factor: u64,
}

impl Model for Mean {
    ghost use Rattle.std.specs.Prelude.{ℕ, ◌+◌, ◌*◌, ◌/◌};
    ghost use Rattle.fx_kernel.specs.Factor.{HasFactor};

    ghost Value = { ℕ };

    ghost view = { λ m. m.count };

    ghost invariant = { λ m. HasFactor m.count m.factor };

    ghost inverse = { λ n. record { count = n; factor = 18446744073709551616 / (2 * n) + 1 } };
}

// The quotients are those of 2^64.
const SHIFT: u32 = 64;

// A reciprocal for means of bytes: 2^shift divided by twice the count, and 1 more. It has 32 bits, so that
// its products have room in the 64 bits of a lane.
#[derive(Clone, Copy)]
pub(crate) struct ByteFactor {
    factor: u32,
    shift: u32,
}

// Below this count a quotient of 2^42 may have more than 32 bits, and far above it those of 2^32 are too coarse.
const MANY: u64 = 1024;

impl Mean {
    /// For sums of so many samples, from 1 to 65,536.
    pub fn of(count: u64) -> Mean
        requires some { 0 < count }
        requires few { count ≤ 65536 }
        ensures { result ≡ count }
    {
        let factor = ((1 << SHIFT) / u128::from(2 * count)) as u64 + 1;
        Mean { count, factor }
    }

    /// The mean of as many samples of the depth, by their sum.
    #[inline(always)]
    pub fn sample(self, depth: Depth, sum: u64) -> u16
        requires { sum ≤ self * greatest depth }
        ensures value { result ≡ rounded sum self }
        ensures bound { result ≤ greatest depth }
    {
        let _bound = depth.greatest();
        self.rounded(sum) as u16
    }

    #[inline(always)]
    fn rounded(self, sum: u64) -> u64
        requires { sum ≤ self * 65535 }
        ensures value { result ≡ rounded sum self }
        ensures small { result ≤ 65535 }
    {
        let product = u128::from(2 * sum + self.count) * u128::from(self.factor);
        (product >> SHIFT) as u64
    }

    // What `bytes` multiplies by.
    #[inline(always)]
    pub(crate) fn byte_factor(self) -> ByteFactor
        ensures { HasByteFactor self result.factor result.shift }
    {
        let twice = 2 * self.count;
        if self.count < MANY {
            ByteFactor {
                factor: ((1 << 32) / twice + 1) as u32,
                shift: 32,
            }
        } else {
            ByteFactor {
                factor: ((1 << 42) / twice + 1) as u32,
                shift: 42,
            }
        }
    }

    // The means of as many bytes, by each of four sums.
    #[inline(always)]
    pub(crate) fn bytes(self, by: ByteFactor, sums: u64x4) -> u8x4
        requires factor { HasByteFactor self by.factor by.shift }
        requires sums { (k : ℕ) → k < 4 → slice_index sums k ≤ self * 255 }
        ensures len { length result ≡ 4 }
        ensures value { (k : ℕ) → k < 4 → slice_index result k ≡ rounded (slice_index sums k) self }
    {
        // The mask changes nothing: with it the processor's product of 32 bits is enough.
        let halves = (sums + sums + u64x4::splat(self.count)) & u64x4::splat(0xffff_ffff);
        let products = halves * u64x4::splat(u64::from(by.factor));
        (products >> u64::from(by.shift)).cast::<u8>()
    }
}
