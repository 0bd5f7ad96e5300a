//! A part of an image, to be read.
ghost use Rattle.std.specs.Prelude.{◌≡◌, ◌*◌, ℤ, ◌≤ℤ◌, ◌<ℤ◌, length};
ghost use Rattle.std.specs.Int.{int_gap};
ghost use Rattle.fx_base.specs.Rect.{Holds, IsWithin, columns};
ghost use Rattle.fx_image.specs.Stored.{pixel_size, pixel_in, shown};
ghost use Rattle.fx_image.specs.Runs.{row_size, ShowsPixels};
ghost use Rattle.fx_image.specs.View.{IsView, view_shown};

use crate::Image;
use fx_base::Rect;
use fx_pixel::{Components, Depth, Pixel};

/// A rectangle of an image's pixels, to be read. It copies nothing.
#[derive(Clone, Copy)]
pub struct View<'a> {
    image: &'a Image,
    rect: Rect,
}

impl Image {
    /// The view of this rectangle.
    pub fn view(&self, rect: Rect) -> View<'_>
        requires { IsWithin rect self.now.rect }
        ensures value { result.image.now ≡ self.now }
        ensures rect { result.rect ≡ rect }
        ensures view { IsView result }
    {
        // Reading it tells the proof that its bounds are a rectangle's.
        let _bounds = rect.x1;
        self.pixels_fit();
        View { image: self, rect }
    }
}

impl<'a> View<'a> {
    /// The rectangle of its pixels.
    pub fn rect(&self) -> Rect
        ensures { result ≡ self.now.rect }
    {
        self.rect
    }

    /// How deep its samples are.
    pub fn depth(&self) -> Depth
        ensures { result ≡ self.now.image.now.depth }
    {
        self.image.depth()
    }

    /// Which samples its pixels have.
    pub fn components(&self) -> Components
        ensures { result ≡ self.now.image.now.components }
    {
        self.image.components()
    }

    /// The pixel at column x and row y, and the zero pixel outside the rectangle.
    pub fn at(&self, x: i64, y: i64) -> Pixel
        ensures { result ≡ view_shown self.now x y }
    {
        if self.rect.holds(x, y) {
            self.image.at(x, y)
        } else {
            Pixel::zero(self.image.components())
        }
    }

    /// The bytes of the view's row y: its pixels' samples in the order r, g, b, a, a short sample with
    /// the more significant byte first, and no padding.
    pub fn row(&self, y: i64) -> &[u8]
        requires view { IsView self.now }
        requires inside { (self.now.rect.y1 ≤ℤ y) × (y <ℤ self.now.rect.y2) }
        ensures len { length result.now ≡ row_size self.now.image.now self.now.rect }
        ensures pixels { ShowsPixels self.now.image.now self.now.rect y result.now }
    {
        self.image.row(self.rect, y)
    }
}
