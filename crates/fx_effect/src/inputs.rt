//! What an effect may read.
ghost use Rattle.std.specs.Prelude.{◌≡◌, ◌≤◌, ◌<◌, ◌*◌, ℕ, slice_index, ℤ, true, [], ◌∷◌, ◌++◌, IfOk, OnOk, OnErr, IfSome, length, map};
ghost use Rattle.std.specs.Int.{int_gap};
ghost use Rattle.fx_base.specs.Rect.{Holds};
ghost use Rattle.fx_base.specs.Rect.{columns};
ghost use Rattle.fx_pixel.specs.Pixel.{IsOfDepth, components_of};
ghost use Rattle.fx_image.specs.Stored.{pixel_size, pixel_in};

use crate::Piece;
use crate::bands::{Band, pieces_in_row, take_piece};
use crate::piece::Placed;
use fx_base::{Memory, Rect};
use fx_pixel::{Components, Depth, Pixel};
use std::alloc::Global;
use std::marker::Model;

/// The pixels of an effect's input clips, all shown at one depth and each clip with its components.
#[derive(Drop)]
pub struct Inputs<'a> {
    depth: Depth,
    components: Vec<Components>,
    pieces: Vec<Placed<'a>>,
    bands: Vec<Band>,
}

impl<'a> Model for Inputs<'a> {
    ghost use Rattle.std.specs.Prelude.{map};
    ghost use Rattle.fx_effect.specs.Given.{Given};

    ghost Value = { Given };

    ghost use Rattle.fx_effect.specs.Placed.{given_piece, ArePlaced};
    ghost use Rattle.fx_effect.specs.Bands.{AreBands};

    ghost view = { λ a. record {
      depth = a.depth;
      components = a.components.items;
      pieces = map given_piece a.pieces.items;
    } };

    ghost invariant = { λ a. ArePlaced a.pieces.items × AreBands a.bands.items a.pieces.items };
}

impl<'a> Inputs<'a> {
    ghost use Rattle.std.specs.Prelude.{map};
    ghost use Rattle.fx_effect.specs.Tap.{tap};
    ghost use Rattle.fx_effect.specs.Given.{input_pixel, clip_components, row_pixel, PixelsFit};
    ghost use Rattle.fx_effect.specs.Rows.{IsLine, ShowsRow};
    ghost use Rattle.fx_effect.specs.Placed.{IsPiece, piece_at};

    /// No pixels yet, for clips of these components.
    pub fn new(
        alloc: Global,
        depth: Depth,
        components: Vec<Components>,
    ) -> Result<Inputs<'a>, Memory>
        ensures { IfOk result (λ inputs. inputs
            ≡ record { depth = depth; components = components.items; pieces = [] }) }
    {
        Ok(Inputs {
            depth,
            components,
            pieces: Vec::new(alloc),
            bands: Vec::new(alloc),
        })
    }

    /// Adds a piece that stands for a clip at a frame, behind the others. At want of memory it isn't
    /// added.
    pub fn push(
        &mut self,
        alloc: Global,
        clip: u32,
        frame: i64,
        piece: Piece<'a>,
    ) -> Result<(), Memory>
        requires clip { clip < length self.old.components }
        requires piece { IsPiece piece }
        ensures ok { let pieces = self.old.pieces ++ piece_at clip frame piece.entry ∷ [] in
            OnOk result (self.new ≡ record self.old { pieces = pieces }) }
        ensures memory { OnErr result (self.new ≡ self.old) }
    {
        self.pieces.reserve(1)?;
        let count = self.pieces.len();
        take_piece(alloc, &mut self.bands, count, clip, frame, piece.rect())?;
        self.pieces.push_reserved(Placed { clip, frame, piece });
        Ok(())
    }

    /// The pixel of the first piece of that clip and frame that has the place, converted, and the zero
    /// pixel where none has.
    pub fn at(&self, clip: u32, frame: i64, x: i64, y: i64) -> Pixel
        requires { clip < length self.now.components }
        ensures value { result ≡ input_pixel self.now (tap clip frame x y) }
        ensures depth { IsOfDepth self.now.depth result }
        ensures components { components_of result ≡ clip_components self.now clip }
    {
        let components = self.components[clip as usize];
        let pieces = self.pieces.as_slice();
        pixel_in_pieces(pieces, self.depth, components, clip, frame, x, y)
    }

    /// Every pixel that `at` gives is of the depth, and of the components of its clip. It computes nothing.
    pub fn pixels_fit(&self)
        ensures { PixelsFit self.now }
    {
        pieces_fit(self.pieces.as_slice());
    }

    /// Writes the pixels of row y of the rectangle into a row of bytes: each is what `at` gives.
    pub fn read_row(&self, clip: u32, frame: i64, rect: Rect, y: i64, row: &mut [u8])
        requires clip { clip < length self.now.components }
        requires row { IsLine self.now.depth (clip_components self.now clip) rect y row.old }
        ensures { let c = clip_components self.now clip in
            ShowsRow self.now.depth c rect y (row_pixel self.now clip frame) row.new }
    {
        let components = self.components[clip as usize];
        let pieces = self.near(clip, frame, rect, y);
        match row_in_pieces(pieces, self.depth, components, clip, frame, rect, y) {
            Some(bytes) => row.copy_from_slice(bytes),
            None => read_pieces(pieces, self.depth, components, clip, frame, rect, y, row),
        }
    }

    /// The bytes of row y of the rectangle, each pixel what `at` gives: lent where one piece has the whole
    /// row and converts nothing, and else written into these bytes.
    pub fn lend_row<'s>(
        &'s self,
        clip: u32,
        frame: i64,
        rect: Rect,
        y: i64,
        bytes: &'s mut [u8],
    ) -> &'s [u8]
        requires clip { clip < length self.now.components }
        requires row { IsLine self.now.depth (clip_components self.now clip) rect y bytes.old }
        ensures long { length result.now ≡ length bytes.old }
        ensures shows { let c = clip_components self.now clip in
            ShowsRow self.now.depth c rect y (row_pixel self.now clip frame) result.now }
    {
        let components = self.components[clip as usize];
        let pieces = self.near(clip, frame, rect, y);
        match row_in_pieces(pieces, self.depth, components, clip, frame, rect, y) {
            Some(lent) => lent,
            None => {
                read_pieces(pieces, self.depth, components, clip, frame, rect, y, bytes);
                bytes
            }
        }
    }

    // The bytes of row y of the rectangle, where one piece lends the whole row and converts nothing; each
    // pixel there is what `at` gives. None says nothing of the pixels.
    pub(crate) fn row(&self, clip: u32, frame: i64, rect: Rect, y: i64) -> Option<&[u8]>
        requires { clip < length self.now.components }
        ensures long { let c = clip_components self.now clip in
            IfSome result (λ bytes. length bytes.now ≡ columns rect * pixel_size self.now.depth c) }
        ensures pixels { let c = clip_components self.now clip in
            IfSome result (λ bytes. ShowsRow self.now.depth c rect y (row_pixel self.now clip frame) bytes.now) }
    {
        let components = self.components[clip as usize];
        let pieces = self.near(clip, frame, rect, y);
        row_in_pieces(pieces, self.depth, components, clip, frame, rect, y)
    }

    // Pieces among which are all that have a place of row y of the rectangle, in their order.
    fn near(&self, clip: u32, frame: i64, rect: Rect, y: i64) -> &[Placed<'a>]
        ensures placed { ArePlaced result.now }
        ensures pixels { (depth : Depths) (c : Samples) (x : ℤ) → Holds rect x y
            → pieces_pixel depth c (map given_piece result.now) clip frame x y
            ≡ pieces_pixel depth c self.now.pieces clip frame x y }
    {
        let bands = self.bands.as_slice();
        let pieces = pieces_in_row(bands, self.pieces.as_slice(), clip, frame, y);
        near_row(pieces, clip, frame, rect, y)
    }
}

ghost use Rattle.fx_effect.specs.Tap.{Tap, tap};
ghost use Rattle.fx_effect.specs.Given.{first_pixel, pieces_pixel, any_holds, pixel_over};
ghost use Rattle.fx_pixel.specs.declared.Depth.{Depth as Depths};
ghost use Rattle.fx_pixel.specs.declared.Components.{Components as Samples};
ghost use Rattle.fx_effect.specs.Rows.{IsLine, ShowsRow};
ghost use Rattle.fx_effect.specs.Placed.{given_piece, ArePlaced};

fn pixel_in_pieces(
    pieces: &[Placed<'_>],
    depth: Depth,
    components: Components,
    clip: u32,
    frame: i64,
    x: i64,
    y: i64,
) -> Pixel
    requires { ArePlaced pieces.now }
    ensures value { result ≡ first_pixel depth components (map given_piece pieces.now) (tap clip frame x y) }
    ensures depth { IsOfDepth depth result }
    ensures components { components_of result ≡ components }
{
    for placed in pieces {
        if placed.holds(clip, frame, x, y) {
            return placed.pixel(depth, components, x, y);
        }
    }
    Pixel::zero(components)
}

// Each pixel that they show is of the depth and the components that are asked for. It computes nothing.
fn pieces_fit(pieces: &[Placed<'_>])
    requires { ArePlaced pieces.now }
    ensures { (depth : Depths) (c : Samples) (t : Tap) → let p = first_pixel depth c (map given_piece pieces.now) t in
        IsOfDepth depth p × (components_of p ≡ c) }
{
    let _len = pieces.len();
}

// The pieces from the first that has a place of row y of the rectangle to the last one: each is asked this
// before anything else, so that those beside the rectangle cost little.
fn near_row<'s, 'a>(
    pieces: &'s [Placed<'a>],
    clip: u32,
    frame: i64,
    rect: Rect,
    y: i64,
) -> &'s [Placed<'a>]
    requires { ArePlaced pieces.now }
    ensures placed { ArePlaced result.now }
    ensures pixels { (depth : Depths) (c : Samples) (x : ℤ) → Holds rect x y
        → pieces_pixel depth c (map given_piece result.now) clip frame x y
        ≡ pieces_pixel depth c (map given_piece pieces.now) clip frame x y }
{
    let mut from = 0;
    let mut to = 0;
    for i in 0..pieces.len() {
        if pieces[i].meets(clip, frame, rect, y) {
            if to == 0 {
                from = i;
            }
            to = i + 1;
        }
    }
    &pieces[from..to]
}

fn row_in_pieces<'s>(
    pieces: &'s [Placed<'_>],
    depth: Depth,
    components: Components,
    clip: u32,
    frame: i64,
    rect: Rect,
    y: i64,
) -> Option<&'s [u8]>
    requires { ArePlaced pieces.now }
    ensures long { IfSome result (λ bytes. length bytes.now ≡ columns rect * pixel_size depth components) }
    ensures pixels { let of = pieces_pixel depth components (map given_piece pieces.now) clip frame in
        IfSome result (λ bytes. ShowsRow depth components rect y of bytes.now) }
{
    for placed in pieces {
        if placed.meets(clip, frame, rect, y) {
            return placed.row(depth, components, rect, y);
        }
    }
    None
}

fn read_pieces(
    pieces: &[Placed<'_>],
    depth: Depth,
    components: Components,
    clip: u32,
    frame: i64,
    rect: Rect,
    y: i64,
    row: &mut [u8],
)
    requires pieces { ArePlaced pieces.now }
    requires row { IsLine depth components rect y row.old }
    ensures { let of = pieces_pixel depth components (map given_piece pieces.now) clip frame in
        ShowsRow depth components rect y of row.new }
{
    if cover_row(pieces, clip, frame, rect, y) {
        paint_pieces(pieces, depth, components, clip, frame, rect, y, row);
    } else {
        clear(row);
        paint_pieces(pieces, depth, components, clip, frame, rect, y, row);
    }
}

// Whether the pieces, taken in their order, have row y of the rectangle from its left to its right: then
// no pixel of it stays as it was. False says nothing.
fn cover_row(pieces: &[Placed<'_>], clip: u32, frame: i64, rect: Rect, y: i64) -> bool
    ensures { result ≡ true → (x : ℤ) → Holds rect x y
        → any_holds (map given_piece pieces.now) (tap clip frame x y) ≡ true }
{
    let mut reach = rect.x1;
    for placed in pieces {
        reach = placed.reach(clip, frame, y, reach);
    }
    rect.x2 <= reach
}

// The last piece is painted first, so that the first one that has a place is seen there.
fn paint_pieces(
    pieces: &[Placed<'_>],
    depth: Depth,
    components: Components,
    clip: u32,
    frame: i64,
    rect: Rect,
    y: i64,
    row: &mut [u8],
)
    requires pieces { ArePlaced pieces.now }
    requires row { IsLine depth components rect y row.old }
    ensures { let given = map given_piece pieces.now in (x : ℤ) → Holds rect x y → let i = int_gap rect.x1 x in
        let was = pixel_in depth components row.old i in
        pixel_in depth components row.new i ≡ pixel_over depth components given (tap clip frame x y) was }
{
    for n in 0..pieces.len() {
        let placed = &pieces[pieces.len() - 1 - n];
        placed.paint_for(depth, components, clip, frame, rect, y, row);
    }
}

fn clear(row: &mut [u8])
    ensures { (i : ℕ) → slice_index row.new i ≡ 0 }
{
    for byte in row.iter_mut() {
        *byte = 0;
    }
}
