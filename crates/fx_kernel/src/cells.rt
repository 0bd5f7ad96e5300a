//! Sums of samples, a cell for each sample of a row.
ghost use Rattle.std.specs.Prelude.{◌≡◌, ◌≤◌, ◌<◌, ◌+◌, ◌*◌, ℕ, length, slice_index};
ghost use Rattle.fx_pixel.specs.Pixel.{size, greatest};
ghost use Rattle.fx_image.specs.Stored.{sample_in};
ghost use Rattle.fx_kernel.specs.Samples.{rounded};
ghost use Rattle.fx_kernel.specs.Window.{AreSmall};

use crate::Mean;
use fx_image::samples::{sample, set_sample};
use fx_pixel::Depth;

/// Sets every cell to 0.
pub fn clear(cells: &mut [u64])
    ensures { (s : ℕ) → slice_index cells.new s ≡ 0 }
{
    for cell in cells.iter_mut() {
        *cell = 0;
    }
}

/// Adds each sample of a row to its cell.
pub fn add_row(depth: Depth, row: &[u8], cells: &mut [u64])
    requires long { length row.now ≡ length cells.old * size depth }
    requires small { AreSmall cells.old }
    ensures { (s : ℕ) → s < length cells.old
        → slice_index cells.new s ≡ slice_index cells.old s + sample_in depth row.now s }
{
    match depth {
        Depth::Byte => add_samples(Depth::Byte, row, cells),
        Depth::Short => add_samples(Depth::Short, row, cells),
    }
}

#[inline(always)]
fn add_samples(depth: Depth, row: &[u8], cells: &mut [u64])
    requires long { length row.now ≡ length cells.old * size depth }
    requires small { AreSmall cells.old }
    ensures { (s : ℕ) → s < length cells.old
        → slice_index cells.new s ≡ slice_index cells.old s + sample_in depth row.now s }
{
    for s in 0..cells.len() {
        cells[s] += u64::from(sample(depth, row, s));
    }
}

/// Takes each sample of a row from its cell.
pub fn take_row(depth: Depth, row: &[u8], cells: &mut [u64])
    requires long { length row.now ≡ length cells.old * size depth }
    requires enough { (s : ℕ) → s < length cells.old → sample_in depth row.now s ≤ slice_index cells.old s }
    ensures { (s : ℕ) → s < length cells.old
        → slice_index cells.new s + sample_in depth row.now s ≡ slice_index cells.old s }
{
    match depth {
        Depth::Byte => take_samples(Depth::Byte, row, cells),
        Depth::Short => take_samples(Depth::Short, row, cells),
    }
}

#[inline(always)]
fn take_samples(depth: Depth, row: &[u8], cells: &mut [u64])
    requires long { length row.now ≡ length cells.old * size depth }
    requires enough { (s : ℕ) → s < length cells.old → sample_in depth row.now s ≤ slice_index cells.old s }
    ensures { (s : ℕ) → s < length cells.old
        → slice_index cells.new s + sample_in depth row.now s ≡ slice_index cells.old s }
{
    for s in 0..cells.len() {
        cells[s] -= u64::from(sample(depth, row, s));
    }
}

/// Sets each sample of a row to the mean of its cell.
pub fn write_means(depth: Depth, mean: Mean, cells: &[u64], row: &mut [u8])
    requires long { length row.old ≡ length cells.now * size depth }
    requires small { (s : ℕ) → s < length cells.now → slice_index cells.now s ≤ mean * greatest depth }
    ensures { (s : ℕ) → s < length cells.now
        → sample_in depth row.new s ≡ rounded (slice_index cells.now s) mean }
{
    match depth {
        Depth::Byte => mean_samples(Depth::Byte, mean, cells, row),
        Depth::Short => mean_samples(Depth::Short, mean, cells, row),
    }
}

#[inline(always)]
fn mean_samples(depth: Depth, mean: Mean, cells: &[u64], row: &mut [u8])
    requires long { length row.old ≡ length cells.now * size depth }
    requires small { (s : ℕ) → s < length cells.now → slice_index cells.now s ≤ mean * greatest depth }
    ensures { (s : ℕ) → s < length cells.now
        → sample_in depth row.new s ≡ rounded (slice_index cells.now s) mean }
{
    for s in 0..cells.len() {
        set_sample(depth, row, s, mean.sample(depth, cells[s]));
    }
}
