//! An image: a rectangle of pixels of one depth and components.
ghost use Rattle.std.specs.Prelude.{◌≡◌, ◌≤◌, ◌<◌, ◌+◌, ◌*◌, ◌^◌, ℤ, ◌≤ℤ◌, ◌<ℤ◌, IfOk, length, vec_len};
ghost use Rattle.std.specs.Int.{int_gap};
ghost use Rattle.fx_base.specs.Rect.{Holds, IsWithin, columns, rows, IsNear};
ghost use Rattle.fx_pixel.specs.Pixel.{zero, size, components_of, IsOfDepth};
ghost use Rattle.fx_image.specs.Rows.{HasRows};
ghost use Rattle.fx_image.specs.Image.{PixelsFit};
ghost use Rattle.fx_image.specs.Stored.{IsStored, image_of, pixel_size, pixel_in, shown};
ghost use Rattle.fx_image.specs.Runs.{IsRun, run_of, row_size, ShowsPixels, ShowsRows};

use crate::rows::Rows;
use crate::samples::{pixel, pixel_size, set_pixel};
use fx_base::{Memory, Rect};
use fx_pixel::{Components, Depth, Pixel};
use std::alloc::Global;
use std::marker::Model;

/// Pixels of one depth and components for each place of a rectangle. Its rows lie `row_bytes` apart,
/// from the bottom up.
#[derive(Debug, Drop)]
pub struct Image {
    pub(crate) rect: Rect,
    pub(crate) depth: Depth,
    pub(crate) components: Components,
    pub(crate) rows: Rows,
}

impl Model for Image {
    ghost use Rattle.fx_image.specs.Stored.{Stored, IsStored};

    ghost Value = { Stored };

    ghost view = { λ a. record { rect = a.rect; depth = a.depth; components = a.components; raster = a.rows } };

    ghost invariant = { λ a.
        IsStored (record { rect = a.rect; depth = a.depth; components = a.components; raster = a.rows }) };
}

impl Image {
    /// An image whose pixels are all zero, with rows of `row_bytes` bytes.
    pub fn new(
        alloc: Global,
        rect: Rect,
        depth: Depth,
        components: Components,
        row_bytes: u32,
    ) -> Result<Image, Memory>
        requires near { IsNear rect }
        requires rows_fit { columns rect * pixel_size depth components ≤ row_bytes }
        requires small { rows rect * row_bytes ≤ 2 ^ 31 }
        ensures rect { IfOk result (λ image. image.rect ≡ rect) }
        ensures depth { IfOk result (λ image. image.depth ≡ depth) }
        ensures components { IfOk result (λ image. image.components ≡ components) }
        ensures row_bytes { IfOk result (λ image. image.raster.pitch ≡ row_bytes) }
        ensures zero { IfOk result (λ image. (x y : ℤ) → shown image x y ≡ zero components) }
    {
        let rows = Rows::new(alloc, row_bytes as usize, rows_in(rect))?;
        Ok(Image {
            rect,
            depth,
            components,
            rows,
        })
    }

    /// An image of these rows, which follow one another from the bottom without padding. It copies none.
    pub fn of_rows(
        alloc: Global,
        rect: Rect,
        depth: Depth,
        components: Components,
        bytes: Vec<u8>,
    ) -> Result<Image, Memory>
        requires near { IsNear rect }
        requires some { 0 < rows rect }
        requires long { vec_len bytes ≡ rows rect * (columns rect * pixel_size depth components) }
        requires small { vec_len bytes ≤ 2 ^ 31 }
        ensures rect { IfOk result (λ image. image.rect ≡ rect) }
        ensures depth { IfOk result (λ image. image.depth ≡ depth) }
        ensures components { IfOk result (λ image. image.components ≡ components) }
        ensures narrow { IfOk result (λ image. image.raster.pitch ≡ row_size image rect) }
        ensures pixels { IfOk result (λ image. ShowsRows image bytes.items) }
    {
        let pitch = columns_in(rect) * pixel_size(depth, components);
        let rows = Rows::of_bytes(alloc, pitch, rows_in(rect), bytes)?;
        Ok(Image {
            rect,
            depth,
            components,
            rows,
        })
    }

    /// The rectangle of its pixels.
    pub fn rect(&self) -> Rect
        ensures { result ≡ self.now.rect }
    {
        self.rect
    }

    /// How deep its samples are.
    pub fn depth(&self) -> Depth
        ensures { result ≡ self.now.depth }
    {
        self.depth
    }

    /// Which samples its pixels have.
    pub fn components(&self) -> Components
        ensures { result ≡ self.now.components }
    {
        self.components
    }

    /// How many bytes apart its rows lie.
    pub fn row_bytes(&self) -> u32
        ensures { result ≡ self.now.raster.pitch }
    {
        self.rows.pitch() as u32
    }

    /// The pixel at column x and row y, and the zero pixel outside the rectangle.
    pub fn at(&self, x: i64, y: i64) -> Pixel
        ensures { result ≡ shown self.now x y }
    {
        if self.rect.holds(x, y) {
            self.inside(x, y)
        } else {
            Pixel::zero(self.components)
        }
    }

    /// Each pixel is within the image's depth and has its components. It computes nothing.
    pub fn pixels_fit(&self)
        ensures { PixelsFit (image_of self.now) }
    {
        self.rows.are_bytes();
    }

    fn inside(&self, x: i64, y: i64) -> Pixel
        requires { Holds self.now.rect x y }
        ensures { result ≡ shown self.now x y }
    {
        pixel(self.depth, self.components, self.run(x, y, 1), 0)
    }

    // The bytes of row y of a rectangle of the image.
    pub(crate) fn row(&self, rect: Rect, y: i64) -> &[u8]
        requires within { IsWithin rect self.now.rect }
        requires inside { (rect.y1 ≤ℤ y) × (y <ℤ rect.y2) }
        ensures len { length result.now ≡ row_size self.now rect }
        ensures pixels { ShowsPixels self.now rect y result.now }
    {
        // Reading it tells the proof that the rows are there.
        let _stored = self.depth;
        let x = rect.x1;
        self.run(x, y, columns_in(rect))
    }

    // How many bytes a row of a rectangle of the image has.
    pub(crate) fn bytes_in(&self, rect: Rect) -> usize
        requires { IsWithin rect self.now.rect }
        ensures value { result ≡ row_size self.now rect }
        ensures small { result < 2 ^ 32 }
        ensures near { IsNear rect }
    {
        // Reading it tells the proof that its bounds are a rectangle's.
        let _bounds = rect.x1;
        let size = pixel_size(self.depth, self.components);
        columns_in(rect) * size
    }

    // The bytes of n pixels of row y from column x on.
    fn run(&self, x: i64, y: i64, n: usize) -> &[u8]
        requires { IsRun self.now x y n }
        ensures len { length result.now ≡ n * pixel_size self.now.depth self.now.components }
        ensures value { result.now ≡ run_of self.now x y n }
    {
        let size = pixel_size(self.depth, self.components);
        let from = column_in(self.rect, x) * size;
        self.rows.run(row_in(self.rect, y), from, from + n * size)
    }
}

impl Image {
    ghost use Rattle.fx_image.specs.ImageLending.{LendsRow, Puts};
    ghost use Rattle.std.specs.Borrow.{sem};

    // The same bytes, to be written.
    pub(crate) fn run_mut(&mut self, x: i64, y: i64, n: usize) -> &mut [u8]
        requires { IsRun self.old x y n }
        ensures* writes_back { sem 𝓛 (LendsRow self.entry x y result) }
        ensures stored { IsStored self.old }
        ensures rows { HasRows self.old.raster }
        ensures len { length result.now ≡ n * pixel_size self.old.depth self.old.components }
        ensures value { result.now ≡ run_of self.old x y n }
    {
        let size = pixel_size(self.depth, self.components);
        let from = column_in(self.rect, x) * size;
        let row = row_in(self.rect, y);
        self.rows.run_mut(row, from, from + n * size)
    }

    // The bytes of row y of a rectangle of the image, to be written.
    pub(crate) fn row_mut(&mut self, rect: Rect, y: i64) -> &mut [u8]
        requires within { IsWithin rect self.old.rect }
        requires inside { (rect.y1 ≤ℤ y) × (y <ℤ rect.y2) }
        ensures* writes_back { sem 𝓛 (LendsRow self.entry rect.x1 y result) }
        ensures stored { IsStored self.old }
        ensures rows { HasRows self.old.raster }
        ensures len { length result.now ≡ row_size self.old rect }
        ensures pixels { ShowsPixels self.old rect y result.now }
    {
        // Reading it tells the proof that the rows are there.
        let _stored = self.depth;
        let x = rect.x1;
        self.run_mut(x, y, columns_in(rect))
    }
}

impl Image {
    ghost use Rattle.fx_image.specs.ImageLending.{Puts};

    /// Sets the pixel at column x and row y. No other pixel changes.
    pub fn put(&mut self, x: i64, y: i64, p: Pixel)
        requires inside { Holds self.old.rect x y }
        requires components { components_of p ≡ self.old.components }
        requires depth { IsOfDepth self.old.depth p }
        ensures { Puts x y p self.old self.new }
    {
        let depth = self.depth;
        set_pixel(depth, self.run_mut(x, y, 1), 0, p);
    }
}

// The column of x, counted from the left.
fn column_in(rect: Rect, x: i64) -> usize
    requires near { IsNear rect }
    requires inside { (rect.x1 ≤ℤ x) × (x ≤ℤ rect.x2) }
    ensures value { result ≡ int_gap rect.x1 x }
    ensures small { result < 2 ^ 32 }
{
    (x - rect.x1) as usize
}

// The row of y, counted from the bottom.
fn row_in(rect: Rect, y: i64) -> usize
    requires near { IsNear rect }
    requires inside { (rect.y1 ≤ℤ y) × (y ≤ℤ rect.y2) }
    ensures value { result ≡ int_gap rect.y1 y }
    ensures small { result < 2 ^ 32 }
{
    (y - rect.y1) as usize
}

// How many columns it has.
pub(crate) fn columns_in(rect: Rect) -> usize
    requires { IsNear rect }
    ensures value { result ≡ columns rect }
    ensures small { result < 2 ^ 32 }
{
    let right = rect.x2;
    column_in(rect, right)
}

// How many rows it has.
pub(crate) fn rows_in(rect: Rect) -> usize
    requires { IsNear rect }
    ensures value { result ≡ rows rect }
    ensures small { result < 2 ^ 32 }
{
    let top = rect.y2;
    row_in(rect, top)
}
