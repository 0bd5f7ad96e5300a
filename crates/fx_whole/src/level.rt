//! Pixels over a level.
ghost use Rattle.std.specs.Prelude.{◌≡◌, ◌≤◌, ◌<◌, ◌+◌, ◌*◌, ℕ, max, pos, ◌+ℤ◌, length, slice_index, if◌then◌else◌};
ghost use Rattle.fx_base.specs.Rect.{columns, within};
ghost use Rattle.fx_pixel.specs.Pixel.{greatest, zero, IsOfDepth, components_of};
ghost use Rattle.fx_image.specs.Stored.{pixel_size, pixel_in};
ghost use Rattle.fx_effect.specs.Rows.{IsRow};
ghost use Rattle.fx_whole.specs.Autogain.{levelled, scaled};
ghost use Rattle.fx_whole.specs.Level.{IsLevel};

use fx_base::{Rect, offset};
use fx_image::samples::{pixel, set_pixel};
use fx_kernel::Mean;
use fx_pixel::{Components, Depth, Pixel};

/// The level that r, g and b are over. At byte depth a table stands for the division, made once a render; a table of
/// all shorts would cost more than the products of a small picture.
#[derive(Clone, Copy)]
pub(crate) struct Level {
    level: u16,
    mean: Mean,
    bytes: [u8; 256],
}

impl Level {
    pub(crate) fn of(level: u16) -> Level
        ensures level { result.level ≡ level }
        ensures divides { IsLevel result }
    {
        let mean = Mean::of(u64::from(level.max(1)));
        let bytes = scaled_bytes(level, mean);
        Level { level, mean, bytes }
    }

    #[inline(always)]
    fn sample(&self, depth: Depth, c: u16) -> u16
        requires level { IsLevel self.now }
        requires c { c ≤ greatest depth }
        ensures value { result ≡ scaled (greatest depth) self.now.level c }
        ensures bound { result ≤ greatest depth }
    {
        match depth {
            Depth::Byte => u16::from(self.bytes[c as usize]),
            Depth::Short => scaled(Depth::Short, self.level, self.mean, c),
        }
    }

    #[inline(always)]
    fn levelled(&self, depth: Depth, p: Pixel) -> Pixel
        requires level { IsLevel self.now }
        requires depth { IsOfDepth depth p }
        ensures value { result ≡ levelled (greatest depth) self.now.level p }
        ensures depth { IsOfDepth depth result }
        ensures components { components_of result ≡ components_of p }
    {
        match p {
            Pixel::Rgba { r, g, b, a } => Pixel::Rgba {
                r: self.sample(depth, r),
                g: self.sample(depth, g),
                b: self.sample(depth, b),
                a,
            },
            Pixel::Alpha { a } => Pixel::Alpha { a },
        }
    }

    /// Writes row y of a rectangle: each pixel of the line levelled where `keep` holds its place, and else zero.
    pub(crate) fn level_row(
        &self,
        depth: Depth,
        components: Components,
        keep: Rect,
        rect: Rect,
        y: i64,
        line: &[u8],
        row: &mut [u8],
    )
        requires level { IsLevel self.now }
        requires row { IsRow depth components rect y row.old }
        requires line { length line.now ≡ length row.old }
        ensures { let most = greatest depth in (i : ℕ) → i < columns rect → pixel_in depth components row.new i
            ≡ (if within keep (rect.x1 +ℤ pos i) y
            then levelled most self.now.level (pixel_in depth components line.now i) else zero components) }
    {
        match (depth, components) {
            (Depth::Byte, Components::Rgba) => {
                self.level_each(Depth::Byte, Components::Rgba, keep, rect, y, line, row);
            }
            (Depth::Byte, Components::Alpha) => {
                self.level_each(Depth::Byte, Components::Alpha, keep, rect, y, line, row);
            }
            (Depth::Short, Components::Rgba) => {
                self.level_each(Depth::Short, Components::Rgba, keep, rect, y, line, row);
            }
            (Depth::Short, Components::Alpha) => {
                self.level_each(Depth::Short, Components::Alpha, keep, rect, y, line, row);
            }
        }
    }

    #[inline(always)]
    fn level_each(
        &self,
        depth: Depth,
        components: Components,
        keep: Rect,
        rect: Rect,
        y: i64,
        line: &[u8],
        row: &mut [u8],
    )
        requires level { IsLevel self.now }
        requires row { IsRow depth components rect y row.old }
        requires line { length line.now ≡ length row.old }
        ensures { let most = greatest depth in (i : ℕ) → i < columns rect → pixel_in depth components row.new i
            ≡ (if within keep (rect.x1 +ℤ pos i) y
            then levelled most self.now.level (pixel_in depth components line.now i) else zero components) }
    {
        let left = rect.x1;
        for i in 0..offset(left, rect.x2) {
            let p = self.kept(depth, components, keep, left + i as i64, y, line, i);
            set_pixel(depth, row, i, p);
        }
    }

    // Pixel i of a line, which lies at (x, y), levelled, or zero where `keep` doesn't hold that.
    #[inline(always)]
    fn kept(
        &self,
        depth: Depth,
        components: Components,
        keep: Rect,
        x: i64,
        y: i64,
        line: &[u8],
        i: usize,
    ) -> Pixel
        requires level { IsLevel self.now }
        requires room { let size = pixel_size depth components in i * size + size ≤ length line.now }
        ensures value { let most = greatest depth in result ≡ (if within keep x y
            then levelled most self.now.level (pixel_in depth components line.now i) else zero components) }
        ensures depth { IsOfDepth depth result }
        ensures components { components_of result ≡ components }
    {
        if keep.holds(x, y) {
            self.levelled(depth, pixel(depth, components, line, i))
        } else {
            Pixel::zero(components)
        }
    }
}

// Each sample of byte depth over the level.
fn scaled_bytes(level: u16, mean: Mean) -> [u8; 256]
    requires { mean ≡ max level 1 }
    ensures { (c : ℕ) → c < 256 → slice_index result c ≡ scaled 255 level c }
{
    let mut bytes = [0; 256];
    for c in 0..256 {
        bytes[c] = scaled(Depth::Byte, level, mean, c as u16) as u8;
    }
    bytes
}

// A sample over the level, by what divides by that.
#[inline(always)]
fn scaled(depth: Depth, level: u16, mean: Mean, c: u16) -> u16
    requires mean { mean ≡ max level 1 }
    requires c { c ≤ greatest depth }
    ensures value { result ≡ scaled (greatest depth) level c }
    ensures bound { result ≤ greatest depth }
{
    if level == 0 {
        return c;
    }
    // What is above the level would come to more than the greatest sample.
    let few = c.min(level);
    mean.sample(depth, u64::from(few) * u64::from(depth.greatest()))
}
