//! Pieces behind one another that have the same rows, as those of a row of tiles do.
ghost use Rattle.std.specs.Prelude.{◌≡◌, ◌+◌, ◌<◌, ◌++◌, ◌∷◌, ◌&&◌, [], ℤ, List, length, map, nat_eq, true, false, OnOk, OnErr};
ghost use Rattle.std.specs.Ordering.{int_eq};
ghost use Rattle.fx_base.specs.Rect.{Holds};
ghost use Rattle.fx_pixel.specs.declared.Depth.{Depth as Depths};
ghost use Rattle.fx_pixel.specs.declared.Components.{Components as Samples};
ghost use Rattle.fx_effect.specs.Tap.{tap};
ghost use Rattle.fx_effect.specs.Given.{holds_tap, pieces_pixel};
ghost use Rattle.fx_effect.specs.Placed.{given_piece, ArePlaced, piece_rect};
ghost use Rattle.fx_effect.specs.Bands.{AreBands, IsInBand};
ghost use Rattle.fx_effect.specs.declared.piece.Placed.{Placed as Pieces};

use crate::piece::Placed;
use fx_base::{Memory, Rect};
use std::alloc::Global;

/// The pieces from one to the one before another, which stand for one clip at one frame and have the rows
/// from `bottom` to the one below `top`.
#[derive(Clone, Copy)]
pub(crate) struct Band {
    clip: u32,
    frame: i64,
    bottom: i64,
    top: i64,
    from: usize,
    to: usize,
}

impl Band {
    // Whether its pieces stand for this clip at this frame.
    fn is_for(&self, clip: u32, frame: i64) -> bool
        ensures { result ≡ (nat_eq self.now.clip clip && int_eq self.now.frame frame) }
    {
        (self.clip == clip) & (self.frame == frame)
    }

    // Whether such a piece may be one of it.
    fn takes(&self, clip: u32, frame: i64, rect: Rect) -> bool
        ensures { result ≡ true → (p : Pieces) → p.clip ≡ clip → p.frame ≡ frame → piece_rect p.piece ≡ rect
            → IsInBand self.now p }
    {
        self.is_for(clip, frame) & (self.bottom == rect.y1) & (self.top == rect.y2)
    }

    // Whether its pieces have row y of this clip at the frame.
    fn has_row(&self, clip: u32, frame: i64, y: i64) -> bool
        ensures { result ≡ false → (p : Pieces) → IsInBand self.now p → (x : ℤ)
            → holds_tap (given_piece p) (tap clip frame x y) ≡ false }
    {
        self.is_for(clip, frame) & (self.bottom <= y) & (y < self.top)
    }
}

/// Makes room in the bands for a piece behind the others: in the last one where that has its rows, and else
/// in one of its own. At want of memory the bands are as before.
pub(crate) fn take_piece(
    _alloc: Global,
    bands: &mut Vec<Band>,
    from: usize,
    clip: u32,
    frame: i64,
    rect: Rect,
) -> Result<(), Memory>
    requires { from < usize.MAX }
    ensures ok { OnOk result ((pieces : List Pieces) (p : Pieces) → length pieces ≡ from → p.clip ≡ clip
        → p.frame ≡ frame → piece_rect p.piece ≡ rect → AreBands bands.old.items pieces
        → AreBands bands.new.items (pieces ++ p ∷ [])) }
    ensures memory { OnErr result (bands.new.items ≡ bands.old.items) }
{
    let count = bands.len();
    if count > 0 && bands[count - 1].takes(clip, frame, rect) {
        bands[count - 1].to = from + 1;
    } else {
        bands.push(Band {
            clip,
            frame,
            bottom: rect.y1,
            top: rect.y2,
            from,
            to: from + 1,
        })?;
    }
    Ok(())
}

/// The pieces from the first band that has row y of this clip at the frame to the last one: of many pieces
/// those of other rows are not asked.
pub(crate) fn pieces_in_row<'s, 'a>(
    bands: &[Band],
    pieces: &'s [Placed<'a>],
    clip: u32,
    frame: i64,
    y: i64,
) -> &'s [Placed<'a>]
    requires placed { ArePlaced pieces.now }
    requires bands { AreBands bands.now pieces.now }
    ensures placed { ArePlaced result.now }
    ensures pixels { (depth : Depths) (c : Samples) (x : ℤ)
        → pieces_pixel depth c (map given_piece result.now) clip frame x y
        ≡ pieces_pixel depth c (map given_piece pieces.now) clip frame x y }
{
    let mut from = pieces.len();
    let mut to = 0;
    for band in bands {
        if band.has_row(clip, frame, y) {
            from = from.min(band.from);
            to = to.max(band.to);
        }
    }
    &pieces[from.min(to)..to]
}
