//! Lines of the clip Source.
ghost use Rattle.std.specs.Prelude.{◌≡◌, ◌<◌, ◌*◌, ℕ, pos, ◌+ℤ◌, length};
ghost use Rattle.fx_base.specs.Rect.{IsStep};
ghost use Rattle.fx_image.specs.Stored.{pixel_size, pixel_in};
ghost use Rattle.fx_effect.specs.Given.{row_pixel, ShowsClip};

use fx_base::Rect;
use fx_effect::Inputs;
use fx_pixel::{Components, Depth};

/// The place of the clip Source.
pub(crate) const SOURCE: u32 = 0;

/// Where pixels of Source are read: at a frame, from the place (x, y) to the right.
#[derive(Clone, Copy)]
pub(crate) struct Line {
    pub frame: i64,
    pub x: i64,
    pub y: i64,
    pub count: usize,
}

/// The bytes of the pixels of a line, each what `at` gives: lent where one piece has them all and converts
/// nothing, and else written into these.
pub(crate) fn lend_line<'s>(
    inputs: &'s Inputs<'_>,
    depth: Depth,
    components: Components,
    line: Line,
    bytes: &'s mut [u8],
) -> &'s [u8]
    requires source { ShowsClip inputs.now 0 depth components }
    requires place { IsStep 4294967296 line.x × IsStep 4294967296 line.y }
    requires some { 0 < line.count }
    requires few { line.count < 4294967296 }
    requires long { length bytes.old ≡ line.count * pixel_size depth components }
    ensures long { length result.now ≡ line.count * pixel_size depth components }
    ensures pixels { (i : ℕ) → i < line.count → pixel_in depth components result.now i
        ≡ row_pixel inputs.now 0 line.frame (line.x +ℤ pos i) line.y }
{
    let Line { frame, x, y, count } = line;
    let rect = Rect::of(x, y, x + count as i64, y + 1);
    inputs.lend_row(SOURCE, frame, rect, y, bytes)
}

/// Writes the pixels of a line into a row of bytes: each is what `at` gives.
pub(crate) fn read_line(
    inputs: &Inputs<'_>,
    depth: Depth,
    components: Components,
    line: Line,
    row: &mut [u8],
)
    requires source { ShowsClip inputs.now 0 depth components }
    requires place { IsStep 4294967296 line.x × IsStep 4294967296 line.y }
    requires some { 0 < line.count }
    requires few { line.count < 4294967296 }
    requires long { length row.old ≡ line.count * pixel_size depth components }
    ensures { (i : ℕ) → i < line.count → pixel_in depth components row.new i
        ≡ row_pixel inputs.now 0 line.frame (line.x +ℤ pos i) line.y }
{
    let Line { frame, x, y, count } = line;
    let rect = Rect::of(x, y, x + count as i64, y + 1);
    inputs.read_row(SOURCE, frame, rect, y, row);
}
