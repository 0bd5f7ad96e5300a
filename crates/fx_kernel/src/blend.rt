//! Rows that are blended sample by sample.
ghost use Rattle.std.specs.Prelude.{◌≡◌, ◌≤◌, ◌<◌, ◌+◌, ◌*◌, ◌^◌, ℕ, length, slice_index};
ghost use Rattle.fx_pixel.specs.Pixel.{size, greatest};
ghost use Rattle.fx_image.specs.Stored.{sample_in};
ghost use Rattle.fx_kernel.specs.Blends.{in_units, blended};

use fx_image::samples::{sample, set_sample};
use fx_pixel::Depth;
use std::simd::prelude::*;

// How many samples of 8 bits are blended at once.
const LANES: usize = 32;

/// A number of units of 1/65536, to the nearest whole number, halves up.
#[inline(always)]
pub fn in_units(n: u64) -> u64
    requires { n < 2 ^ 63 }
    ensures { result ≡ in_units n }
{
    (n + 32768) >> 16
}

/// Blends each sample of a row of `count` samples with that of another row, by a level in units of
/// 1/65536: the row's own at 0, and the other one's at 65536.
pub fn blend_row(depth: Depth, level: u32, other: &[u8], row: &mut [u8], count: usize)
    requires level { level ≤ 65536 }
    requires other { length other.now ≡ count * size depth }
    requires long { length row.old ≡ count * size depth }
    ensures { (s : ℕ) → s < count
        → sample_in depth row.new s ≡ blended level (sample_in depth row.old s) (sample_in depth other.now s) }
{
    match depth {
        Depth::Byte => blend_bytes(level, other, row, count),
        Depth::Short => blend_samples(Depth::Short, level, other, row, 0, count),
    }
}

// The same for samples of 8 bits: 32 at once, and those that are left one by one.
fn blend_bytes(level: u32, other: &[u8], row: &mut [u8], count: usize)
    requires level { level ≤ 65536 }
    requires other { length other.now ≡ count }
    requires long { length row.old ≡ count }
    ensures { (s : ℕ) → s < count
        → slice_index row.new s ≡ blended level (slice_index row.old s) (slice_index other.now s) }
{
    let whole = count / LANES;
    for block in 0..whole {
        let at = LANES * block;
        let from = u8x32::from_slice(&row[at..]);
        let to = u8x32::from_slice(&other[at..]);
        blend_lanes(level, from, to).copy_to_slice(&mut row[at..]);
    }
    blend_samples(Depth::Byte, level, other, row, LANES * whole, count);
}

// Blends the samples from the one with number `first` on.
#[inline(always)]
fn blend_samples(depth: Depth, level: u32, other: &[u8], row: &mut [u8], first: usize, count: usize)
    requires level { level ≤ 65536 }
    requires other { length other.now ≡ count * size depth }
    requires long { length row.old ≡ count * size depth }
    ensures done { (s : ℕ) → first ≤ s → s < count
        → sample_in depth row.new s ≡ blended level (sample_in depth row.old s) (sample_in depth other.now s) }
    ensures left { (s : ℕ) → s < first → sample_in depth row.new s ≡ sample_in depth row.old s }
{
    for s in first..count {
        let from = sample(depth, row, s);
        let to = sample(depth, other, s);
        set_sample(depth, row, s, blended(level, from, to));
    }
}

// What 32 samples of 8 bits are when they are blended with 32 others.
#[inline(always)]
fn blend_lanes(level: u32, from: u8x32, to: u8x32) -> u8x32
    requires { level ≤ 65536 }
    ensures len { length result ≡ 32 }
    ensures value { (i : ℕ) → i < 32
        → slice_index result i ≡ blended level (slice_index from i) (slice_index to i) }
{
    let rest = from.cast::<u32>() * u32x32::splat(65536 - level);
    let sum = rest + to.cast::<u32>() * u32x32::splat(level);
    ((sum + u32x32::splat(32768)) >> 16).cast::<u8>()
}

#[inline(always)]
fn blended(level: u32, from: u16, to: u16) -> u16
    requires { level ≤ 65536 }
    ensures value { result ≡ blended level from to }
    ensures bound { (m : ℕ) → from ≤ m → to ≤ m → result ≤ m }
{
    let sum = u64::from(from) * u64::from(65536 - level) + u64::from(to) * u64::from(level);
    in_units(sum) as u16
}
