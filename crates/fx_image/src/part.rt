//! A part of an image, to be written.
ghost use Rattle.std.specs.Prelude.{◌≡◌, ◌<◌, ◌*◌, ◌^◌, ℤ, ◌≤ℤ◌, ◌<ℤ◌, length};
ghost use Rattle.std.specs.Int.{int_gap};
ghost use Rattle.std.specs.Borrow.{sem};
ghost use Rattle.fx_base.specs.Rect.{Holds, IsWithin, columns, IsNear};
ghost use Rattle.fx_pixel.specs.Pixel.{components_of, IsOfDepth};
ghost use Rattle.fx_image.specs.Rows.{HasRows};
ghost use Rattle.fx_image.specs.Image.{PixelsFit};
ghost use Rattle.fx_image.specs.Runs.{row_size, ShowsPixels};
ghost use Rattle.fx_image.specs.Stored.{IsStored, image_of, pixel_size, pixel_in, shown};
ghost use Rattle.fx_image.specs.ImageLending.{Puts};
ghost use Rattle.fx_image.specs.Part.{IsPart, SamePart, part_shown, LendsPartRow};

use crate::Image;
use fx_base::Rect;
use fx_pixel::{Components, Depth, Pixel};

/// A rectangle of an image's pixels, to be written. It copies nothing.
#[derive(Drop)]
pub struct Part<'a> {
    image: &'a mut Image,
    rect: Rect,
}

impl Image {
    /// The part with this rectangle. What is written there is the image's own pixels, and every other
    /// pixel stays.
    pub fn part(&mut self, rect: Rect) -> Part<'_>
        requires { IsWithin rect self.old.rect }
        ensures same_reference { result.image.ghost_name ≡ self.entry.ghost_name }
        ensures value { result.image.now ≡ self.old }
        ensures rect { result.rect ≡ rect }
        ensures part { IsPart result }
    {
        // Reading it tells the proof that its bounds are a rectangle's.
        let _bounds = rect.x1;
        Part { image: self, rect }
    }
}

impl<'a> Part<'a> {
    /// The rectangle of its pixels.
    pub fn rect(&self) -> Rect
        ensures { result ≡ self.now.rect }
    {
        self.rect
    }

    /// How deep its samples are.
    pub fn depth(&self) -> Depth
        ensures { result ≡ self.now.image.now.depth }
    {
        self.image.depth()
    }

    /// Which samples its pixels have.
    pub fn components(&self) -> Components
        ensures { result ≡ self.now.image.now.components }
    {
        self.image.components()
    }

    /// The pixel at column x and row y, and the zero pixel outside the rectangle.
    pub fn at(&self, x: i64, y: i64) -> Pixel
        ensures { result ≡ part_shown self.now x y }
    {
        if self.rect.holds(x, y) {
            self.image.at(x, y)
        } else {
            Pixel::zero(self.image.components())
        }
    }

    /// Each pixel of its image is within the depth and has the components. It computes nothing.
    pub fn pixels_fit(&self)
        ensures { PixelsFit (image_of self.now.image.now) }
    {
        self.image.pixels_fit();
    }

    /// Sets the pixel at column x and row y. No other pixel of the image changes.
    pub fn put(&mut self, x: i64, y: i64, p: Pixel)
        requires part { IsPart self.old }
        requires inside { Holds self.old.rect x y }
        requires components { components_of p ≡ self.old.image.now.components }
        requires depth { IsOfDepth self.old.image.now.depth p }
        ensures same_part { SamePart self.old self.new }
        ensures pixel { Puts x y p self.old.image.now self.new.image.now }
    {
        self.image.put(x, y, p);
    }

    /// How many bytes a row of the part has, without padding.
    pub fn row_bytes(&self) -> usize
        requires { IsPart self.now }
        ensures value { result ≡ row_size self.now.image.now self.now.rect }
        ensures small { result < 2 ^ 32 }
        ensures near { IsNear self.now.rect }
    {
        self.image.bytes_in(self.rect)
    }

    /// The bytes of the part's row y, to be written: its pixels' samples in the order r, g, b, a, a
    /// short sample with the more significant byte first, and no padding.
    pub fn row_mut(&mut self, y: i64) -> &mut [u8]
        requires part { IsPart self.old }
        requires inside { (self.old.rect.y1 ≤ℤ y) × (y <ℤ self.old.rect.y2) }
        ensures* writes_back { sem 𝓛 (LendsPartRow self.entry self.old.rect.x1 y result) }
        ensures stored { IsStored self.old.image.now }
        ensures rows { HasRows self.old.image.now.raster }
        ensures len { length result.now ≡ row_size self.old.image.now self.old.rect }
        ensures pixels { ShowsPixels self.old.image.now self.old.rect y result.now }
    {
        let rect = self.rect;
        self.image.row_mut(rect, y)
    }

    /// The same of row y of a rectangle within the part: so a tile is written into a wider part.
    pub fn row_within_mut(&mut self, rect: Rect, y: i64) -> &mut [u8]
        requires part { IsPart self.old }
        requires within { IsWithin rect self.old.rect }
        requires inside { (rect.y1 ≤ℤ y) × (y <ℤ rect.y2) }
        ensures* writes_back { sem 𝓛 (LendsPartRow self.entry rect.x1 y result) }
        ensures stored { IsStored self.old.image.now }
        ensures rows { HasRows self.old.image.now.raster }
        ensures len { length result.now ≡ row_size self.old.image.now rect }
        ensures pixels { ShowsPixels self.old.image.now rect y result.now }
    {
        self.image.row_mut(rect, y)
    }
}
