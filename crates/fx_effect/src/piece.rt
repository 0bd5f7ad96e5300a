//! Pixels that an effect may read, where they stand for a clip at a frame.
ghost use Rattle.std.specs.Prelude.{◌≡◌, ◌*◌, ℤ, ◌≤ℤ◌, ◌<ℤ◌, true, false, IfSome, length, if◌then◌else◌};
ghost use Rattle.std.specs.Int.{int_gap};
ghost use Rattle.fx_base.specs.Rect.{Holds, within, columns};
ghost use Rattle.fx_pixel.specs.Pixel.{IsOfDepth, components_of};
ghost use Rattle.fx_image.specs.Stored.{pixel_size, pixel_in, shown};
ghost use Rattle.fx_image.specs.View.{IsView};
ghost use Rattle.fx_effect.specs.Tap.{tap};
ghost use Rattle.fx_effect.specs.Given.{holds_tap, is_for, image_pixel, piece_pixel};
ghost use Rattle.fx_effect.specs.Rows.{IsLine, ShowsRow};
ghost use Rattle.fx_effect.specs.Placed.{IsBothRow, piece_rect, given_piece, IsPiece};
ghost use Rattle.fx_effect.specs.Placed.{CoversRow, IsPieceRow};

use crate::Steps;
use crate::runs::write_run;
use fx_base::{Rect, offset};
use fx_image::samples::{pixel, pixel_size};
use fx_image::{Image, View};
use fx_pixel::{Components, Depth, Pixel};
use std::sync::Arc;

/// Pixels that an effect may read, without a copy of them.
#[derive(Drop)]
pub enum Piece<'a> {
    /// A rectangle of an image that is lent, whose pixels go through these conversions first.
    Frame {
        view: View<'a>,
        through: Steps,
    },
    /// A rectangle of an image that is shared, in the same way.
    Tile {
        image: Arc<Image>,
        cut: Rect,
        through: Steps,
    },
}

impl<'a> Piece<'a> {
    pub(crate) fn rect(&self) -> Rect
        ensures { result ≡ piece_rect self.now }
    {
        match self {
            Piece::Frame { view, through: _ } => view.rect(),
            Piece::Tile {
                image: _,
                cut,
                through: _,
            } => *cut,
        }
    }
}

/// A piece that stands for a clip at a frame.
#[derive(Drop)]
pub(crate) struct Placed<'a> {
    pub(crate) clip: u32,
    pub(crate) frame: i64,
    pub(crate) piece: Piece<'a>,
}

impl<'a> Placed<'a> {
    // Whether it stands for this clip at this frame.
    fn is_for(&self, clip: u32, frame: i64) -> bool
        ensures { result ≡ is_for (given_piece self.now) clip frame }
    {
        (self.clip == clip) & (self.frame == frame)
    }

    // Whether it has this place of the clip at the frame.
    pub(crate) fn holds(&self, clip: u32, frame: i64, x: i64, y: i64) -> bool
        ensures { result ≡ holds_tap (given_piece self.now) (tap clip frame x y) }
    {
        self.is_for(clip, frame) & self.piece.rect().holds(x, y)
    }

    // Whether it has a place of row y of the rectangle.
    pub(crate) fn meets(&self, clip: u32, frame: i64, rect: Rect, y: i64) -> bool
        ensures is_for { result ≡ true → is_for (given_piece self.now) clip frame ≡ true }
        ensures apart { result ≡ false → (x : ℤ) → Holds rect x y
            → holds_tap (given_piece self.now) (tap clip frame x y) ≡ false }
    {
        self.is_for(clip, frame) && meets_row(self.piece.rect(), rect, y)
    }

    // How far right of `reach` it has row y of this clip at the frame; it is `reach` where it doesn't
    // begin there or before.
    pub(crate) fn reach(&self, clip: u32, frame: i64, y: i64, reach: i64) -> i64
        ensures { (x : ℤ) → reach ≤ℤ x → x <ℤ result → holds_tap (given_piece self.now) (tap clip frame x y) ≡ true }
    {
        if self.is_for(clip, frame) {
            reach_of(self.piece.rect(), y, reach)
        } else {
            reach
        }
    }

    // Its pixel at a place that it has.
    pub(crate) fn pixel(&self, depth: Depth, components: Components, x: i64, y: i64) -> Pixel
        requires piece { IsPiece self.now.piece }
        requires inside { Holds (piece_rect self.now.piece) x y }
        ensures value { result ≡ piece_pixel depth components (given_piece self.now) x y }
        ensures depth { IsOfDepth depth result }
        ensures components { components_of result ≡ components }
    {
        match &self.piece {
            Piece::Frame { view, through } => pixel_of(view, through, depth, components, x, y),
            Piece::Tile {
                image,
                cut,
                through,
            } => {
                let view = image.view(*cut);
                pixel_of(&view, through, depth, components, x, y)
            }
        }
    }

    // The same where it stands for this clip at this frame.
    pub(crate) fn paint_for(
        &self,
        depth: Depth,
        components: Components,
        clip: u32,
        frame: i64,
        rect: Rect,
        y: i64,
        row: &mut [u8],
    )
        requires piece { IsPiece self.now.piece }
        requires row { IsLine depth components rect y row.old }
        ensures { let p = given_piece self.now in (x : ℤ) → Holds rect x y → let i = int_gap rect.x1 x in
            pixel_in depth components row.new i
            ≡ (if holds_tap p (tap clip frame x y) then piece_pixel depth components p x y
            else pixel_in depth components row.old i) }
    {
        if self.is_for(clip, frame) {
            self.paint(depth, components, rect, y, row);
        }
    }

    // Writes those of its pixels that lie in row y of the rectangle into a row of bytes.
    fn paint(&self, depth: Depth, components: Components, rect: Rect, y: i64, row: &mut [u8])
        requires piece { IsPiece self.now.piece }
        requires row { IsLine depth components rect y row.old }
        ensures { let p = given_piece self.now in (x : ℤ) → Holds rect x y → let i = int_gap rect.x1 x in
            pixel_in depth components row.new i
            ≡ (if within p.rect x y then piece_pixel depth components p x y
            else pixel_in depth components row.old i) }
    {
        let both = self.piece.rect().meet(rect);
        if y < both.y1 || both.y2 <= y {
            return;
        }
        self.paint_both(depth, components, rect, both, y, row);
    }

    // The same by the rectangle that both have.
    fn paint_both(
        &self,
        depth: Depth,
        components: Components,
        rect: Rect,
        both: Rect,
        y: i64,
        row: &mut [u8],
    )
        requires piece { IsPiece self.now.piece }
        requires row { length row.old ≡ columns rect * pixel_size depth components }
        requires both { IsBothRow (piece_rect self.now.piece) rect both y }
        ensures { let p = given_piece self.now in (x : ℤ) → Holds rect x y → let i = int_gap rect.x1 x in
            pixel_in depth components row.new i
            ≡ (if within p.rect x y then piece_pixel depth components p x y
            else pixel_in depth components row.old i) }
    {
        match &self.piece {
            Piece::Frame { view, through } => {
                paint_view(view, through, depth, components, rect, both, y, row);
            }
            Piece::Tile {
                image,
                cut,
                through,
            } => {
                let view = image.view(*cut);
                paint_view(&view, through, depth, components, rect, both, y, row);
            }
        }
    }

    // Its bytes of row y of the rectangle, where it lends the whole row and converts nothing.
    pub(crate) fn row(
        &self,
        depth: Depth,
        components: Components,
        rect: Rect,
        y: i64,
    ) -> Option<&[u8]>
        requires { IsPiece self.now.piece }
        ensures { let pixels = piece_pixel depth components (given_piece self.now) in
            IfSome result (λ bytes. IsPieceRow depth components (piece_rect self.now.piece) rect y pixels bytes.now) }
    {
        match &self.piece {
            Piece::Frame { view, through } => frame_row(view, through, depth, components, rect, y),
            Piece::Tile {
                image: _,
                cut: _,
                through: _,
            } => None,
        }
    }
}

// Writes those of a view's pixels that lie in row y of the rectangle into a row of bytes, by the
// rectangle that both have.
fn paint_view(
    view: &View<'_>,
    through: &Steps,
    depth: Depth,
    components: Components,
    rect: Rect,
    both: Rect,
    y: i64,
    row: &mut [u8],
)
    requires view { IsView view.now }
    requires row { length row.old ≡ columns rect * pixel_size depth components }
    requires both { IsBothRow view.now.rect rect both y }
    ensures { let of = image_pixel depth components view.now.image.now through.now in
        (x : ℤ) → Holds rect x y → let i = int_gap rect.x1 x in pixel_in depth components row.new i
        ≡ (if within view.now.rect x y then of x y else pixel_in depth components row.old i) }
{
    let source = row_within(view, both, y);
    let first = offset(rect.x1, both.x1);
    let count = offset(both.x1, both.x2);
    write_run(
        view.depth(),
        view.components(),
        through,
        depth,
        components,
        source,
        first,
        count,
        row,
    );
}

// The pixel of a view at a place that it has, converted.
fn pixel_of(
    view: &View<'_>,
    through: &Steps,
    depth: Depth,
    components: Components,
    x: i64,
    y: i64,
) -> Pixel
    requires view { IsView view.now }
    requires inside { Holds view.now.rect x y }
    ensures value { result ≡ image_pixel depth components view.now.image.now through.now x y }
    ensures depth { IsOfDepth depth result }
    ensures components { components_of result ≡ components }
{
    through.convert(pixel_at(view, x, y), view.depth(), depth, components)
}

// The view's bytes of row y of the rectangle, where it has the whole row and nothing is converted.
fn frame_row<'s>(
    view: &'s View<'_>,
    through: &Steps,
    depth: Depth,
    components: Components,
    rect: Rect,
    y: i64,
) -> Option<&'s [u8]>
    requires { IsView view.now }
    ensures { let pixels = image_pixel depth components view.now.image.now through.now in
        IfSome result (λ bytes. IsPieceRow depth components view.now.rect rect y pixels bytes.now) }
{
    if view.depth() == depth
        && view.components() == components
        && through.keep(depth, components)
        && covers_row(view.rect(), rect, y)
    {
        Some(row_within(view, rect, y))
    } else {
        None
    }
}

// Whether a rectangle has a place of row y of another.
fn meets_row(have: Rect, rect: Rect, y: i64) -> bool
    ensures { result ≡ false → (x : ℤ) → Holds rect x y → within have x y ≡ false }
{
    (have.x1 < rect.x2) & (rect.x1 < have.x2) & (have.y1 <= y) & (y < have.y2)
}

// How far right of `reach` a rectangle has row y; it is `reach` where it doesn't begin there or before.
fn reach_of(rect: Rect, y: i64, reach: i64) -> i64
    ensures { (x : ℤ) → reach ≤ℤ x → x <ℤ result → within rect x y ≡ true }
{
    if (rect.x1 <= reach) & (reach < rect.x2) & (rect.y1 <= y) & (y < rect.y2) {
        rect.x2
    } else {
        reach
    }
}

// Whether a rectangle has the whole of row y of another.
fn covers_row(have: Rect, rect: Rect, y: i64) -> bool
    ensures { result ≡ true → CoversRow have rect y }
{
    (have.x1 <= rect.x1) & (rect.x2 <= have.x2) & (have.y1 <= y) & (y < have.y2)
}

fn pixel_at(view: &View<'_>, x: i64, y: i64) -> Pixel
    requires view { IsView view.now }
    requires inside { Holds view.now.rect x y }
    ensures value { result ≡ shown view.now.image.now x y }
    ensures depth { IsOfDepth view.now.image.now.depth result }
    ensures components { components_of result ≡ view.now.image.now.components }
{
    let left = view.rect().x1;
    let row = view.row(y);
    pixel(view.depth(), view.components(), row, offset(left, x))
}

// The bytes of row y of a rectangle.
fn row_within<'s>(view: &'s View<'_>, rect: Rect, y: i64) -> &'s [u8]
    requires view { IsView view.now }
    requires covers { CoversRow view.now.rect rect y }
    ensures long { let image = view.now.image.now in
        length result.now ≡ columns rect * pixel_size image.depth image.components }
    ensures pixels { let image = view.now.image.now in
        ShowsRow image.depth image.components rect y (shown image) result.now }
{
    let row = view.row(y);
    let size = pixel_size(view.depth(), view.components());
    let left = view.rect().x1;
    let from = offset(left, rect.x1);
    let to = offset(left, rect.x2);
    &row[from * size..to * size]
}
