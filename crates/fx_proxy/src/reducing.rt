//! An image at a fraction of its size.
ghost use Rattle.std.specs.Prelude.{◌≡◌, ◌≤◌, ◌*◌, IfOk, IsTrue, length};
ghost use Rattle.fx_base.specs.Rect.{columns, rows, IsNear};
ghost use Rattle.fx_pixel.specs.Pixel.{count};
ghost use Rattle.fx_image.specs.Image.{SameImage};
ghost use Rattle.fx_image.specs.Runs.{row_size};
ghost use Rattle.fx_image.specs.Stored.{image_of};
ghost use Rattle.fx_proxy.specs.Reduced.{over, reduced, reduced_rect, HasBlocks, IsMade, IsScale, IsWhole};

use crate::blocks::BlockRows;
use fx_base::{Memory, Rect, offset};
use fx_effect::fill_with;
use fx_image::Image;
use fx_image::samples::pixel_size;
use fx_kernel::Mean;
use std::alloc::Global;

// The most columns, rows and bytes that an image is made with.
const MOST_COLUMNS: u64 = 1 << 30;

const MOST_BYTES: u64 = 1 << 31;

/// An image at 1/q of its size, rounded up, at its own depth: each sample is the mean of those of a block of q by q
/// pixels, to the nearest and halves up, where the image is zero outside of its rectangle. It starts at (0, 0) and
/// isn't empty, and q is 1, 2, 4 or 8. `Memory` comes where memory is wanting.
pub fn reduce(alloc: Global, image: &Image, q: u32) -> Result<Image, Memory>
    requires scale { IsScale q }
    requires whole { IsWhole image.now.rect }
    ensures value { IfOk result (λ small. SameImage (image_of small) (reduced q (image_of image.now))) }
    ensures narrow { IfOk result (λ small. small.raster.pitch ≡ row_size small small.rect) }
{
    if !is_made(image) {
        return Err(Memory);
    }
    let mut small = blank(alloc, image, q as usize)?;
    let mut cells = Vec::new(alloc);
    cells.resize(cell_count(image), 0)?;
    write_blocks(image, q, cells.as_mut_slice(), &mut small);
    Ok(small)
}

// Every image is, but its type doesn't say so to those that are handed one.
fn is_made(image: &Image) -> bool
    requires { IsWhole image.now.rect }
    ensures { IsTrue result → IsMade image.now }
{
    let rect = image.rect();
    let (columns, rows) = (rect.width(), rect.height());
    let size = pixel_size(image.depth(), image.components()) as u64;
    columns <= MOST_COLUMNS && rows <= MOST_COLUMNS && rows * (columns * size) <= MOST_BYTES
}

// Sets each pixel of the small image to the mean of its block.
fn write_blocks(image: &Image, q: u32, cells: &mut [u64], small: &mut Image)
    requires scale { IsScale q }
    requires whole { IsWhole image.now.rect }
    requires cells { length cells.old ≡ columns image.now.rect * count image.now.components }
    requires rect { small.old.rect ≡ reduced_rect q image.now.rect }
    requires depth { small.old.depth ≡ image.now.depth }
    requires components { small.old.components ≡ image.now.components }
    ensures { HasBlocks q (image_of image.now) small.old small.new }
{
    let window = small.rect();
    let blocks = BlockRows {
        view: image.view(image.rect()),
        side: q as usize,
        mean: Mean::of(u64::from(q * q)),
    };
    let mut part = small.part(window);
    fill_with(&blocks, cells, &mut [], &mut part);
}

// An image of zeros with a pixel for each block, whose rows are no wider than their pixels.
fn blank(alloc: Global, image: &Image, side: usize) -> Result<Image, Memory>
    requires scale { IsScale side }
    requires whole { IsWhole image.now.rect }
    requires made { IsMade image.now }
    ensures rect { IfOk result (λ small. small.rect ≡ reduced_rect side image.now.rect) }
    ensures depth { IfOk result (λ small. small.depth ≡ image.now.depth) }
    ensures components { IfOk result (λ small. small.components ≡ image.now.components) }
    ensures narrow { IfOk result (λ small. small.raster.pitch ≡ row_size small small.rect) }
{
    let rect = blocks_in(image.rect(), side);
    let row_bytes = offset(rect.x1, rect.x2) * pixel_size(image.depth(), image.components());
    Image::new(
        alloc,
        rect,
        image.depth(),
        image.components(),
        row_bytes as u32,
    )
}

// A cell for each sample of a row.
fn cell_count(image: &Image) -> usize
    requires { IsMade image.now }
    ensures { result ≡ columns image.now.rect * count image.now.components }
{
    let rect = image.rect();
    offset(rect.x1, rect.x2) * image.components().count() as usize
}

/// A column and a row for each block, the last perhaps in part.
pub(crate) fn blocks_in(rect: Rect, side: usize) -> Rect
    requires scale { IsScale side }
    requires whole { IsWhole rect }
    requires near { IsNear rect }
    ensures value { result ≡ reduced_rect side rect }
    ensures near { IsNear result }
    ensures narrower { columns result ≤ columns rect }
    ensures lower { rows result ≤ rows rect }
{
    let columns = over(offset(rect.x1, rect.x2), side) as i64;
    let rows = over(offset(rect.y1, rect.y2), side) as i64;
    Rect::of(0, 0, columns, rows)
}

// How many blocks of a side it fills, the last perhaps in part.
fn over(count: usize, side: usize) -> usize
    requires scale { IsScale side }
    requires range { (1 ≤ count) × (count ≤ 1073741824) }
    ensures value { result ≡ over side count }
    ensures least { 1 ≤ result }
    ensures most { result ≤ count }
{
    (count + side - 1) / side
}
