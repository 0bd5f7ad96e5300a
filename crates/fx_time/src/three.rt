//! The mean of three rows of samples.
ghost use Rattle.std.specs.Prelude.{◌≡◌, ◌≤◌, ◌<◌, ◌+◌, ◌*◌, ℕ, length};
ghost use Rattle.fx_pixel.specs.Pixel.{size};
ghost use Rattle.fx_image.specs.Stored.{sample_in};
ghost use Rattle.fx_kernel.specs.Samples.{rounded};

use fx_image::samples::{sample, set_sample};
use fx_pixel::Depth;

/// Sets each sample of a row of `count` samples to the mean of it and of the samples of two other rows,
/// to the nearest.
pub fn write_mean_of_three(depth: Depth, one: &[u8], two: &[u8], row: &mut [u8], count: usize)
    requires one { length one.now ≡ count * size depth }
    requires two { length two.now ≡ count * size depth }
    requires long { length row.old ≡ count * size depth }
    ensures { (s : ℕ) → s < count → sample_in depth row.new s
        ≡ rounded (sample_in depth one.now s + sample_in depth two.now s + sample_in depth row.old s) 3 }
{
    match depth {
        Depth::Byte => mean_samples(Depth::Byte, one, two, row, count),
        Depth::Short => mean_samples(Depth::Short, one, two, row, count),
    }
}

#[inline(always)]
fn mean_samples(depth: Depth, one: &[u8], two: &[u8], row: &mut [u8], count: usize)
    requires one { length one.now ≡ count * size depth }
    requires two { length two.now ≡ count * size depth }
    requires long { length row.old ≡ count * size depth }
    ensures { (s : ℕ) → s < count → sample_in depth row.new s
        ≡ rounded (sample_in depth one.now s + sample_in depth two.now s + sample_in depth row.old s) 3 }
{
    for s in 0..count {
        let mean = mean_of_three(
            sample(depth, one, s),
            sample(depth, two, s),
            sample(depth, row, s),
        );
        set_sample(depth, row, s, mean);
    }
}

// The divisor is a constant, so that it is multiplied by a reciprocal, of several samples at a time.
#[inline(always)]
fn mean_of_three(a: u16, b: u16, c: u16) -> u16
    ensures value { result ≡ rounded (a + b + c) 3 }
    ensures bound { (m : ℕ) → a ≤ m → b ≤ m → c ≤ m → result ≤ m }
{
    let sum = u32::from(a) + u32::from(b) + u32::from(c);
    ((2 * sum + 3) / 6) as u16
}
