//! Means of windows of cells that slide along a row.
ghost use Rattle.std.specs.Prelude.{◌≡◌, ◌≢◌, ◌≤◌, ◌<◌, ◌+◌, ◌*◌, ℕ, length, slice_index};
ghost use Rattle.fx_pixel.specs.Pixel.{size, greatest};
ghost use Rattle.fx_image.specs.Stored.{sample_in};
ghost use Rattle.fx_kernel.specs.Samples.{rounded};
ghost use Rattle.fx_kernel.specs.Window.{AreSmall, window, strided};

use crate::Mean;
use fx_image::samples::set_sample;
use fx_pixel::Depth;
use std::simd::prelude::*;

/// A window for each of `count` pixels of `step` samples: the cell of the sample's own place, and `more`
/// behind it, each `step` behind the one before it.
#[derive(Clone, Copy, Debug)]
pub struct Windows {
    pub step: usize,
    pub count: usize,
    pub more: usize,
}

/// Sets each sample of a row to the mean of the cells of its window. A pixel has 1 to 4 samples, and
/// `more` is at most 128.
pub fn write_window_means(depth: Depth, mean: Mean, cells: &[u64], windows: Windows, row: &mut [u8])
    requires step { (0 < windows.step) × (windows.step ≤ 4) }
    requires few { windows.more ≤ 128 }
    requires long { length row.old ≡ windows.count * windows.step * size depth }
    requires cells { (windows.count + windows.more) * windows.step ≡ length cells.now }
    requires small { AreSmall cells.now }
    requires bound { (i k : ℕ) → i < windows.count → k < windows.step
        → window (strided cells.now windows.step (k + windows.step * i)) (windows.more + 1) ≤ mean * greatest depth }
    ensures { (i k : ℕ) → i < windows.count → k < windows.step → let s = k + windows.step * i in
        sample_in depth row.new s ≡ rounded (window (strided cells.now windows.step s) (windows.more + 1)) mean }
{
    match depth {
        Depth::Byte => each_byte(mean, cells, windows, row),
        Depth::Short => each_sample(Depth::Short, mean, cells, windows, row),
    }
}

// The same for samples of 8 bits: pixels of four have a faster way.
fn each_byte(mean: Mean, cells: &[u64], windows: Windows, row: &mut [u8])
    requires step { (0 < windows.step) × (windows.step ≤ 4) }
    requires few { windows.more ≤ 128 }
    requires long { length row.old ≡ windows.count * windows.step }
    requires cells { (windows.count + windows.more) * windows.step ≡ length cells.now }
    requires small { AreSmall cells.now }
    requires bound { (i k : ℕ) → i < windows.count → k < windows.step
        → window (strided cells.now windows.step (k + windows.step * i)) (windows.more + 1) ≤ mean * 255 }
    ensures { (i k : ℕ) → i < windows.count → k < windows.step → let s = k + windows.step * i in
        slice_index row.new s ≡ rounded (window (strided cells.now windows.step s) (windows.more + 1)) mean }
{
    if windows.step == 4 {
        slide_fours(mean, cells, windows.count, windows.more, row);
    } else {
        each_sample(Depth::Byte, mean, cells, windows, row);
    }
}

// The means of pixels of four bytes: their four sums go along the row at once.
fn slide_fours(mean: Mean, cells: &[u64], count: usize, more: usize, row: &mut [u8])
    requires few { more ≤ 128 }
    requires long { length row.old ≡ 4 * count }
    requires cells { 4 * (count + more) ≡ length cells.now }
    requires small { AreSmall cells.now }
    requires bound { (i k : ℕ) → i < count → k < 4
        → window (strided cells.now 4 (k + 4 * i)) (more + 1) ≤ mean * 255 }
    ensures { (i k : ℕ) → i < count → k < 4 → let s = k + 4 * i in
        slice_index row.new s ≡ rounded (window (strided cells.now 4 s) (more + 1)) mean }
{
    let factor = mean.byte_factor();
    let last = 4 * more;
    let mut sums = window_fours(cells, more);
    for i in 0..count {
        let at = 4 * i;
        sums += u64x4::from_slice(&cells[at + last..]);
        mean.bytes(factor, sums).copy_to_slice(&mut row[at..]);
        sums -= u64x4::from_slice(&cells[at..]);
    }
}

// The sums of so many cells for each of four samples, each cell 4 behind the one before it.
fn window_fours(cells: &[u64], count: usize) -> u64x4
    requires few { count ≤ 128 }
    requires small { AreSmall cells.now }
    requires room { 4 * count ≤ length cells.now }
    ensures len { length result ≡ 4 }
    ensures value { (k : ℕ) → k < 4 → slice_index result k ≡ window (strided cells.now 4 k) count }
{
    let mut sums = u64x4::splat(0);
    for t in 0..count {
        sums += u64x4::from_slice(&cells[4 * t..]);
    }
    sums
}

#[inline(always)]
fn each_sample(depth: Depth, mean: Mean, cells: &[u64], windows: Windows, row: &mut [u8])
    requires step { (0 < windows.step) × (windows.step ≤ 4) }
    requires few { windows.more ≤ 128 }
    requires long { length row.old ≡ windows.count * windows.step * size depth }
    requires cells { (windows.count + windows.more) * windows.step ≡ length cells.now }
    requires small { AreSmall cells.now }
    requires bound { (i k : ℕ) → i < windows.count → k < windows.step
        → window (strided cells.now windows.step (k + windows.step * i)) (windows.more + 1) ≤ mean * greatest depth }
    ensures { (i k : ℕ) → i < windows.count → k < windows.step → let s = k + windows.step * i in
        sample_in depth row.new s ≡ rounded (window (strided cells.now windows.step s) (windows.more + 1)) mean }
{
    for first in 0..windows.step {
        slide(depth, mean, cells, windows, first, row);
    }
}

// The means of one sample of each pixel: the sum loses a cell and gains one from each window to the next.
#[inline(always)]
fn slide(depth: Depth, mean: Mean, cells: &[u64], windows: Windows, first: usize, row: &mut [u8])
    requires first { first < windows.step }
    requires step { windows.step ≤ 4 }
    requires few { windows.more ≤ 128 }
    requires long { length row.old ≡ windows.count * windows.step * size depth }
    requires cells { (windows.count + windows.more) * windows.step ≡ length cells.now }
    requires small { AreSmall cells.now }
    requires bound { (i : ℕ) → i < windows.count → let s = first + windows.step * i in
        window (strided cells.now windows.step s) (windows.more + 1) ≤ mean * greatest depth }
    ensures done { (i : ℕ) → i < windows.count → let s = first + windows.step * i in
        sample_in depth row.new s ≡ rounded (window (strided cells.now windows.step s) (windows.more + 1)) mean }
    ensures others { (s : ℕ) → ((i : ℕ) → s ≢ first + windows.step * i)
        → sample_in depth row.new s ≡ sample_in depth row.old s }
{
    let Windows { step, count, more } = windows;
    let last = step * more;
    let mut sum = window_sum(cells, step, more, first);
    for i in 0..count {
        let s = first + step * i;
        sum += cells[s + last];
        set_sample(depth, row, s, mean.sample(depth, sum));
        sum -= cells[s];
    }
}

// The sum of so many cells, each `step` behind the one before it.
fn window_sum(cells: &[u64], step: usize, count: usize, first: usize) -> u64
    requires step { (0 < step) × (step ≤ 4) }
    requires few { count ≤ 128 }
    requires small { AreSmall cells.now }
    requires first { first < step }
    requires room { step * count ≤ length cells.now }
    ensures { result ≡ window (strided cells.now step first) count }
{
    let mut sum = 0;
    for t in 0..count {
        sum += cells[first + step * t];
    }
    sum
}
