//! The least or the greatest sample of a square. The samples of the whole area are picked in place, first
//! along columns and then along rows: windows of 1, 2, 4 and more samples are each made of two that are
//! half as long, so that the work grows with the logarithm of the radius.
ghost use Rattle.std.specs.Prelude.{◌≡◌, ◌≢◌, ◌≤◌, ◌<◌, ◌+◌, ◌*◌, ℕ, pos, ◌+ℤ◌};
ghost use Rattle.std.specs.Prelude.{length, slice_index, IfOk, OnOk, vec_len};
ghost use Rattle.fx_base.specs.Bounds.{none};
ghost use Rattle.fx_base.specs.Rect.{columns, rows, IsStep, IsUpTo};
ghost use Rattle.fx_pixel.specs.Pixel.{size};
ghost use Rattle.fx_pixel.specs.declared.Depth.TheVariants.{Short};
ghost use Rattle.fx_image.specs.Stored.{pixel_size, sample_in, pixel_in};
ghost use Rattle.fx_image.specs.Part.{IsPart, SamePart, IsWritten};
ghost use Rattle.fx_effect.specs.Given.{ShowsClip};
ghost use Rattle.fx_area.specs.Extreme.{pick};
ghost use Rattle.fx_area.specs.Erode.{radius as radius_of};
ghost use Rattle.fx_area.specs.Gathered.{AreGathered, ArePicked, IsProperArea, ShowsArea, IsCopied, area_pixel, extreme_pixel};

use crate::lines::{Line, lend_line};
use crate::shorts::{LANES, bytes_of, samples_of};
use fx_base::{Memory, Rect, offset};
use fx_effect::{Inputs, RowKernel, Values, fill_with};
use fx_image::Part;
use fx_image::samples::{copy_pixels, pixel_size, sample, set_sample};
use fx_kernel::blank_bytes;
use fx_pixel::{Components, Depth};
use std::alloc::Global;
use std::simd::prelude::*;

// As many samples are picked at once, apart from those that they are picked of.
const BLOCK: usize = 256;

/// Which of two samples is picked.
#[derive(Clone, Copy, Debug, PartialEq, Eq)]
pub(crate) enum Extreme {
    Least,
    Greatest,
}

impl Extreme {
    #[inline(always)]
    fn pick(self, a: u16, b: u16) -> u16
        ensures value { result ≡ pick self a b }
        ensures bound { (m : ℕ) → a ≤ m → b ≤ m → result ≤ m }
    {
        match self {
            Extreme::Least => a.min(b),
            Extreme::Greatest => a.max(b),
        }
    }

    // What is picked at each of 16 places.
    #[inline(always)]
    fn pick_lanes(self, a: u16x16, b: u16x16) -> u16x16
        ensures { (i : ℕ) → i < 16 → slice_index result i ≡ pick self (slice_index a i) (slice_index b i) }
    {
        match self {
            Extreme::Least => a.simd_min(b),
            Extreme::Greatest => a.simd_max(b),
        }
    }
}

/// How far the pixels lie that are picked of, in columns and in rows.
pub(crate) fn radius(values: &Values) -> usize
    requires { radius_of values.now ≤ 32 }
    ensures value { result ≡ radius_of values.now }
    ensures few { result ≤ 32 }
{
    values.number(0).unsigned_abs() as usize
}

/// Fills a part with the least or the greatest of the samples of each square. At want of memory the part is
/// as it was.
pub(crate) fn render_extreme(
    alloc: Global,
    extreme: Extreme,
    values: &Values,
    inputs: &Inputs<'_>,
    out: &mut Part<'_>,
) -> Result<(), Memory>
    requires part { IsPart out.old }
    requires some_window { out.old.rect ≢ none }
    requires source { let image = out.old.image.now in ShowsClip inputs.now 0 image.depth image.components }
    requires few { radius_of values.now ≤ 32 }
    ensures same_part { SamePart out.old out.new }
    ensures ok { let image = out.old.image.now in
        let pixels = extreme_pixel extreme values.now inputs.now image.depth image.components in
        OnOk result (IsWritten out.old out.new pixels) }
{
    inputs.pixels_fit();
    let (depth, components) = (out.depth(), out.components());
    let _near = out.row_bytes();
    let rect = out.rect();
    let radius = radius(values);
    let area = rect.grow(radius as i64, radius as i64);
    let mut bytes = read_area(alloc, inputs, values.frame, depth, components, area)?;
    let (width, height) = (offset(area.x1, area.x2), offset(area.y1, area.y2));
    let squares = bytes.as_mut_slice();
    pick_squares(extreme, depth, components, width, height, radius, squares);
    let rows = AreaRows {
        bytes: bytes.as_slice(),
        left: rect.x1,
        bottom: rect.y1,
        width,
    };
    fill_with(&rows, &mut [], &mut [], out);
    Ok(())
}

// The pixels of an area, row after row from the bottom.
fn read_area(
    alloc: Global,
    inputs: &Inputs<'_>,
    frame: i64,
    depth: Depth,
    components: Components,
    area: Rect,
) -> Result<Vec<u8>, Memory>
    requires source { ShowsClip inputs.now 0 depth components }
    requires area { IsProperArea area }
    ensures long { let size = pixel_size depth components in
        IfOk result (λ bytes. vec_len bytes ≡ rows area * columns area * size) }
    ensures pixels { IfOk result (λ bytes. ShowsArea inputs.now frame depth components area (rows area) bytes.items) }
{
    let row = offset(area.x1, area.x2) * pixel_size(depth, components);
    let Some(count) = offset(area.y1, area.y2).checked_mul(row) else {
        return Err(Memory);
    };
    let mut line = blank_bytes(alloc, row)?;
    let mut bytes = blank_bytes(alloc, count)?;
    let (line, rows) = (line.as_mut_slice(), bytes.as_mut_slice());
    fill_area(inputs, frame, depth, components, area, line, rows);
    Ok(bytes)
}

fn fill_area(
    inputs: &Inputs<'_>,
    frame: i64,
    depth: Depth,
    components: Components,
    area: Rect,
    line: &mut [u8],
    bytes: &mut [u8],
)
    requires source { ShowsClip inputs.now 0 depth components }
    requires area { IsProperArea area }
    requires line { length line.old ≡ columns area * pixel_size depth components }
    requires long { length bytes.old ≡ rows area * columns area * pixel_size depth components }
    ensures { ShowsArea inputs.now frame depth components area (rows area) bytes.new }
{
    let width = offset(area.x1, area.x2);
    for j in 0..offset(area.y1, area.y2) {
        let place = area_line(frame, area, j);
        let pixels = lend_line(&*inputs, depth, components, place, line);
        copy_pixels(depth, components, pixels, bytes, j * width, width);
    }
}

// Row j of an area, from the bottom.
fn area_line(frame: i64, area: Rect, j: usize) -> Line
    requires area { IsProperArea area }
    requires row { j < rows area }
    ensures value { result ≡ record { frame = frame; x = area.x1; y = area.y1 +ℤ pos j; count = columns area } }
    ensures place { IsStep 4294967296 result.x × IsStep 4294967296 result.y }
    ensures some { 0 < result.count }
    ensures few { result.count ≤ 2147483776 }
{
    Line {
        frame,
        x: area.x1,
        y: area.y1 + j as i64,
        count: offset(area.x1, area.x2),
    }
}

// Picks, for each sample of rows of pixels, of the square that it is the first of: along columns, and then
// along rows. Samples with too few behind them hold anything then.
fn pick_squares(
    extreme: Extreme,
    depth: Depth,
    components: Components,
    width: usize,
    height: usize,
    radius: usize,
    bytes: &mut [u8],
)
    requires few { radius ≤ 32 }
    requires wide { 2 * radius + 1 ≤ width }
    requires high { 2 * radius + 1 ≤ height }
    requires long { length bytes.old ≡ height * width * pixel_size depth components }
    ensures { ArePicked extreme depth components width height radius bytes.old bytes.new }
{
    let step = components.count() as usize;
    let count = height * width * step;
    let wanted = 2 * radius + 1;
    gather(extreme, depth, bytes, count, width * step, wanted);
    gather(extreme, depth, bytes, count, step, wanted);
}

// Picks, for each sample, of so many samples, each `stride` behind the one before it. Samples with too few
// behind them hold anything then.
fn gather(
    extreme: Extreme,
    depth: Depth,
    bytes: &mut [u8],
    count: usize,
    stride: usize,
    wanted: usize,
)
    requires long { length bytes.old ≡ count * size depth }
    requires some { 0 < wanted }
    requires room { stride * wanted ≤ count }
    ensures { AreGathered extreme depth count stride wanted bytes.old bytes.new }
{
    let mut have = 1;
    while have < wanted {
        let more = have.min(wanted - have);
        spread(extreme, depth, bytes, count, stride * more);
        have += more;
    }
}

// Picks of each sample and the one `shift` behind it. Which is picked is a constant in each arm, so that the loops
// decide nothing of it.
fn spread(extreme: Extreme, depth: Depth, bytes: &mut [u8], count: usize, shift: usize)
    requires long { length bytes.old ≡ count * size depth }
    ensures { (s : ℕ) → s + shift < count → sample_in depth bytes.new s
        ≡ pick extreme (sample_in depth bytes.old s) (sample_in depth bytes.old (s + shift)) }
{
    match (extreme, depth) {
        (Extreme::Least, Depth::Byte) => {
            spread_blocks(Extreme::Least, Depth::Byte, bytes, count, shift)
        }
        (Extreme::Least, Depth::Short) => spread_shorts(Extreme::Least, bytes, count, shift),
        (Extreme::Greatest, Depth::Byte) => {
            spread_blocks(Extreme::Greatest, Depth::Byte, bytes, count, shift)
        }
        (Extreme::Greatest, Depth::Short) => {
            spread_shorts(Extreme::Greatest, bytes, count, shift)
        }
    }
}

// The same for samples of 16 bits: 16 at once, and those that are left one by one.
#[inline(always)]
fn spread_shorts(extreme: Extreme, bytes: &mut [u8], count: usize, shift: usize)
    requires long { length bytes.old ≡ count * 2 }
    ensures { (s : ℕ) → s + shift < count → sample_in Short bytes.new s
        ≡ pick extreme (sample_in Short bytes.old s) (sample_in Short bytes.old (s + shift)) }
{
    let whole = count.saturating_sub(shift) / LANES;
    for block in 0..whole {
        let at = 2 * LANES * block;
        let here = samples_of(u8x32::from_slice(&bytes[at..]));
        let there = samples_of(u8x32::from_slice(&bytes[at + 2 * shift..]));
        bytes_of(extreme.pick_lanes(here, there)).copy_to_slice(&mut bytes[at..]);
    }
    spread_each(extreme, bytes, LANES * whole, count, shift);
}

// The same for the samples of 16 bits from the one with number `first` on.
#[inline(always)]
fn spread_each(extreme: Extreme, bytes: &mut [u8], first: usize, count: usize, shift: usize)
    requires long { length bytes.old ≡ count * 2 }
    ensures done { (s : ℕ) → first ≤ s → s + shift < count → sample_in Short bytes.new s
        ≡ pick extreme (sample_in Short bytes.old s) (sample_in Short bytes.old (s + shift)) }
    ensures left { (s : ℕ) → s < first → sample_in Short bytes.new s ≡ sample_in Short bytes.old s }
{
    for s in first..count.saturating_sub(shift) {
        let a = sample(Depth::Short, bytes, s);
        let b = sample(Depth::Short, bytes, s + shift);
        set_sample(Depth::Short, bytes, s, extreme.pick(a, b));
    }
}

// The same for samples of 8 bits, block by block: a block is made apart from the samples and then takes their place, so
// that the compiler knows that none of them changes meanwhile, and picks 16 at once.
#[inline(always)]
fn spread_blocks(extreme: Extreme, depth: Depth, bytes: &mut [u8], count: usize, shift: usize)
    requires long { length bytes.old ≡ count * size depth }
    ensures { (s : ℕ) → s + shift < count → sample_in depth bytes.new s
        ≡ pick extreme (sample_in depth bytes.old s) (sample_in depth bytes.old (s + shift)) }
{
    let mut made = [0; 2 * BLOCK];
    let end = count.saturating_sub(shift);
    let mut first = 0;
    while first < end {
        let few = BLOCK.min(end - first);
        let block = &mut made[..few * depth.size() as usize];
        pick_block(extreme, depth, bytes, first, shift, block, few);
        copy_pixels(depth, Components::Alpha, block, bytes, first, few);
        first += few;
    }
}

// Picks of each sample of a block and the one `shift` behind it.
#[inline(always)]
fn pick_block(
    extreme: Extreme,
    depth: Depth,
    bytes: &[u8],
    first: usize,
    shift: usize,
    block: &mut [u8],
    few: usize,
)
    requires long { length block.old ≡ few * size depth }
    requires room { (first + few + shift) * size depth ≤ length bytes.now }
    ensures { (k : ℕ) → k < few → sample_in depth block.new k
        ≡ pick extreme (sample_in depth bytes.now (first + k)) (sample_in depth bytes.now (first + k + shift)) }
{
    for k in 0..few {
        let a = sample(depth, bytes, first + k);
        let b = sample(depth, bytes, first + k + shift);
        set_sample(depth, block, k, extreme.pick(a, b));
    }
}

// The rows of a render: they begin the rows of the area that was gathered.
#[derive(Drop)]
struct AreaRows<'a> {
    bytes: &'a [u8],
    left: i64,
    bottom: i64,
    width: usize,
}

impl<'a> RowKernel for AreaRows<'a> {
    ghost makes = { λ k depth c. k.width ≤ 2147483776 };

    ghost pixel = { λ k depth c x y. area_pixel k.left k.bottom k.width depth c k.bytes.now x y };

    ghost ready = { λ k depth c rect y cells.
        IsCopied rect k.left k.bottom k.width (pixel_size depth c) k.bytes.now };

    fn fill_row(
        &self,
        depth: Depth,
        components: Components,
        rect: Rect,
        y: i64,
        _cells: &mut [u64],
        _bytes: &mut [u8],
        row: &mut [u8],
    ) {
        let first = offset(rect.y1, y) * self.width;
        take_pixels(depth, components, self.bytes, first, row);
    }
}

// Copies as many pixels as the row has, from this one on.
fn take_pixels(depth: Depth, components: Components, bytes: &[u8], first: usize, row: &mut [u8])
    requires room { first * pixel_size depth components + length row.old ≤ length bytes.now }
    ensures { let size = pixel_size depth components in (i : ℕ) → i * size + size ≤ length row.old
        → pixel_in depth components row.new i ≡ pixel_in depth components bytes.now (first + i) }
{
    let start = first * pixel_size(depth, components);
    row.copy_from_slice(&bytes[start..start + row.len()]);
}
