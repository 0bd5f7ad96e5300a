//! Means of square blocks of pixels.
ghost use Rattle.std.specs.Prelude.{◌≡◌, ◌≤◌, ◌<◌, ◌+◌, ◌*◌, ◌^◌, ℕ, pos, ◌*ℤ◌, ◌≤ℤ◌, length, slice_index};
ghost use Rattle.fx_base.specs.Rect.{columns};
ghost use Rattle.fx_pixel.specs.Pixel.{count, greatest, size};
ghost use Rattle.fx_image.specs.Stored.{image_of, sample_in};
ghost use Rattle.fx_kernel.specs.Samples.{rounded};
ghost use Rattle.fx_kernel.specs.Sums.{AreSums};
ghost use Rattle.fx_kernel.specs.Window.{AreSmall, strided, window};
ghost use Rattle.fx_effect.specs.Rows.{IsRow, ShowsRow};
ghost use Rattle.fx_proxy.specs.Blocks.{HasImage, block_sample, first_cell};
ghost use Rattle.fx_proxy.specs.Reduced.{reduced_pixel};

use fx_base::{Rect, offset};
use fx_effect::RowKernel;
use fx_image::View;
use fx_image::samples::set_sample;
use fx_kernel::{Mean, add_row, clear};
use fx_pixel::{Components, Depth};

/// The rows of an image that is reduced: each pixel is the mean of a block of `side` by `side` pixels of the view,
/// which starts at (0, 0). Outside of it they are zero.
#[derive(Drop)]
pub(crate) struct BlockRows<'a> {
    pub(crate) view: View<'a>,
    pub(crate) side: usize,
    pub(crate) mean: Mean,
}

impl<'a> RowKernel for BlockRows<'a> {
    ghost makes = { λ k depth c. HasImage k depth c };

    ghost pixel = { λ k depth c x y. reduced_pixel k.side (image_of k.view.image.now) x y };

    ghost cell_count = { λ k depth c rect. columns k.view.rect * count c };

    ghost ready = { λ k depth c rect y cells. (pos 0 ≤ℤ rect.x1) × (pos 0 ≤ℤ rect.y1) };

    fn fill_row(
        &self,
        depth: Depth,
        components: Components,
        rect: Rect,
        y: i64,
        cells: &mut [u64],
        _bytes: &mut [u8],
        row: &mut [u8],
    ) {
        self.sum(depth, components, y, cells);
        self.write(depth, components, rect, y, cells, row);
    }
}

impl<'a> BlockRows<'a> {
    // Sums the rows that row y is made of, a cell for each sample.
    fn sum(&self, depth: Depth, components: Components, y: i64, cells: &mut [u64])
        requires image { HasImage self.now depth components }
        requires row { (pos 0 ≤ℤ y) × (y ≤ℤ pos 1073741824) }
        requires cells { length cells.old ≡ columns self.now.view.rect * count components }
        ensures { AreSums cells.new (block_sample (image_of self.now.view.image.now) components)
            (pos self.now.side *ℤ y) self.now.side (greatest depth) }
    {
        clear(cells);
        let low = self.side as i64 * y;
        for k in 0..self.side {
            self.add(depth, components, low + k as i64, cells);
        }
    }

    // Adds the samples of a row of the image. Above it they are zero.
    fn add(&self, depth: Depth, components: Components, y: i64, cells: &mut [u64])
        requires image { HasImage self.now depth components }
        requires row { pos 0 ≤ℤ y }
        requires small { AreSmall cells.old }
        requires cells { length cells.old ≡ columns self.now.view.rect * count components }
        ensures sums { (s : ℕ) → s < length cells.old → slice_index cells.new s
            ≡ slice_index cells.old s + block_sample (image_of self.now.view.image.now) components s y }
        ensures bound { (s : ℕ) → s < length cells.old
            → block_sample (image_of self.now.view.image.now) components s y ≤ greatest depth }
    {
        if y < self.view.rect().y2 {
            add_row(depth, self.view.row(y), cells);
        }
    }

    // Writes the means of row y.
    fn write(
        &self,
        depth: Depth,
        components: Components,
        rect: Rect,
        _y: i64,
        cells: &[u64],
        row: &mut [u8],
    )
        requires image { HasImage self.now depth components }
        requires start { (pos 0 ≤ℤ rect.x1) × (pos 0 ≤ℤ rect.y1) }
        requires row { IsRow depth components rect _y row.old }
        requires cells { length cells.now ≡ columns self.now.view.rect * count components }
        requires sums { AreSums cells.now (block_sample (image_of self.now.view.image.now) components)
            (pos self.now.side *ℤ _y) self.now.side (greatest depth) }
        ensures { let pixel = reduced_pixel self.now.side (image_of self.now.view.image.now) in
            ShowsRow depth components rect _y pixel row.new }
    {
        let step = components.count() as usize;
        let first = rect.x1 as usize * step;
        let count = offset(rect.x1, rect.x2) * step;
        self.each_sample(depth, step, first, cells, count, row);
    }

    // Sets each of `count` samples of a row, whose first has this number, to the mean of its block. The sides that a
    // scale has are known to the loop, which then neither counts the cells of a block nor divides by as many.
    fn each_sample(
        &self,
        depth: Depth,
        step: usize,
        first: usize,
        cells: &[u64],
        count: usize,
        row: &mut [u8],
    )
        requires step { (0 < step) × (step ≤ 4) }
        requires side { (1 ≤ self.now.side) × (self.now.side ≤ 8) }
        requires mean { self.now.mean ≡ self.now.side * self.now.side }
        requires first { first ≤ 2 ^ 33 }
        requires few { count ≤ 2 ^ 34 }
        requires long { length row.old ≡ count * size depth }
        requires small { AreSmall cells.now }
        requires bound { (s : ℕ) → s < count
            → window (strided cells.now step (first_cell self.now.side step (first + s))) self.now.side
            ≤ (self.now.side * self.now.side) * greatest depth }
        ensures { (s : ℕ) → s < count → sample_in depth row.new s
            ≡ rounded (window (strided cells.now step (first_cell self.now.side step (first + s))) self.now.side)
            (self.now.side * self.now.side) }
    {
        match self.side {
            2 => self.block_means(2, depth, step, first, cells, count, row),
            4 => self.block_means(4, depth, step, first, cells, count, row),
            8 => self.block_means(8, depth, step, first, cells, count, row),
            side => self.block_means(side, depth, step, first, cells, count, row),
        }
    }

    // Depth and step are known to the loop, too, which then divides by neither.
    #[inline(always)]
    fn block_means(
        &self,
        side: usize,
        depth: Depth,
        step: usize,
        first: usize,
        cells: &[u64],
        count: usize,
        row: &mut [u8],
    )
        requires step { (0 < step) × (step ≤ 4) }
        requires side { (1 ≤ side) × (side ≤ 8) }
        requires mean { self.now.mean ≡ side * side }
        requires first { first ≤ 2 ^ 33 }
        requires few { count ≤ 2 ^ 34 }
        requires long { length row.old ≡ count * size depth }
        requires small { AreSmall cells.now }
        requires bound { (s : ℕ) → s < count
            → window (strided cells.now step (first_cell side step (first + s))) side ≤ (side * side) * greatest depth }
        ensures { (s : ℕ) → s < count → sample_in depth row.new s
            ≡ rounded (window (strided cells.now step (first_cell side step (first + s))) side) (side * side) }
    {
        match (depth, step) {
            (Depth::Byte, 4) => self.samples(side, Depth::Byte, 4, first, cells, count, row),
            (Depth::Short, 4) => self.samples(side, Depth::Short, 4, first, cells, count, row),
            (Depth::Byte, step) => self.samples(side, Depth::Byte, step, first, cells, count, row),
            (Depth::Short, step) => self.samples(
                side,
                Depth::Short,
                step,
                first,
                cells,
                count,
                row,
            ),
        }
    }

    #[inline(always)]
    fn samples(
        &self,
        side: usize,
        depth: Depth,
        step: usize,
        first: usize,
        cells: &[u64],
        count: usize,
        row: &mut [u8],
    )
        requires step { (0 < step) × (step ≤ 4) }
        requires side { (1 ≤ side) × (side ≤ 8) }
        requires mean { self.now.mean ≡ side * side }
        requires first { first ≤ 2 ^ 33 }
        requires few { count ≤ 2 ^ 34 }
        requires long { length row.old ≡ count * size depth }
        requires small { AreSmall cells.now }
        requires bound { (s : ℕ) → s < count
            → window (strided cells.now step (first_cell side step (first + s))) side ≤ (side * side) * greatest depth }
        ensures { (s : ℕ) → s < count → sample_in depth row.new s
            ≡ rounded (window (strided cells.now step (first_cell side step (first + s))) side) (side * side) }
    {
        for s in 0..count {
            let cell = (first + s) / step * side * step + (first + s) % step;
            let sum = block_sum(cells, side, step, cell);
            set_sample(depth, row, s, self.block_mean(side, depth, sum));
        }
    }

    // The mean of a block by its sum: a shift where the loop knows the side, and else no division either.
    #[inline(always)]
    fn block_mean(&self, side: usize, depth: Depth, sum: u64) -> u16
        requires side { (1 ≤ side) × (side ≤ 8) }
        requires mean { self.now.mean ≡ side * side }
        requires sum { sum ≤ (side * side) * greatest depth }
        ensures value { result ≡ rounded sum (side * side) }
        ensures bound { result ≤ greatest depth }
    {
        match side {
            2 | 4 | 8 => {
                let count = (side * side) as u64;
                ((2 * sum + count) / (2 * count)) as u16
            }
            _ => self.mean.sample(depth, sum),
        }
    }
}

// The sum of so many cells from one on, each `step` behind the one before it. Behind the last they are 0.
#[inline(always)]
fn block_sum(cells: &[u64], count: usize, step: usize, first: usize) -> u64
    requires count { count ≤ 8 }
    requires step { step ≤ 4 }
    requires first { first ≤ 2 ^ 40 }
    requires small { AreSmall cells.now }
    ensures { result ≡ window (strided cells.now step first) count }
{
    let mut sum = 0;
    for t in 0..count {
        sum += cell_at(cells, first + step * t);
    }
    sum
}

#[inline(always)]
fn cell_at(cells: &[u64], place: usize) -> u64
    requires { AreSmall cells.now }
    ensures value { result ≡ slice_index cells.now place }
    ensures small { result ≤ 4294967296 }
{
    cells.get(place).copied().unwrap_or(0)
}
