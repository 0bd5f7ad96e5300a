//! Frames of 1,920 by 1,080 pixels of r, g, b and a that are painted, whole or tile by tile.
ghost use Rattle.std.specs.Prelude.{◌≡◌, ◌≢◌, pos, [], ◌∷◌};
ghost use Rattle.fx_base.specs.Bounds.{none};
ghost use Rattle.fx_base.specs.Rect.{IsFrame, IsWithin};
ghost use Rattle.fx_pixel.specs.declared.Depth.{Depth as Depths};
ghost use Rattle.fx_pixel.specs.declared.Components.TheVariants.{Rgba as RgbaSamples};
ghost use Rattle.fx_image.specs.Stored.{SameFrame};
ghost use Rattle.fx_effect.specs.Asked.{MayRender};
ghost use Rattle.fx_effect.specs.Tap.{tap};
ghost use Rattle.fx_effect.specs.Given.{input_pixel};
ghost use Rattle.fx_shipped.specs.Shipped.{meaning_of};

use crate::noise::{COLUMNS, ROWS, blank};
use crate::pam::sum;
use fx_base::{Memory, Rect};
use fx_core::Ticket;
use fx_effect::{ImageEffect, Inputs, RowKernel, Values, fill_with, window_args};
use fx_gate::{Gates, Hold};
use fx_image::Image;
use fx_pixel::{Components, Depth};
use fx_shipped::Shipped;
use std::alloc::Global;

/// The frame that is painted.
pub(crate) const NOW: u32 = 100;

// The side of a tile.
const TILE: i64 = 64;

// How many tiles lie side by side, and how many above one another.
const TILES_ACROSS: u16 = 30;

const TILES_UP: u16 = 17;

/// What paints a rectangle of an image of r, g, b and a.
pub(crate) trait Brush {
    // the depth of the images that it paints
    ghost paints: { Self → Depths → Type 0 };

    fn paint(
        &self,
        alloc: Global,
        hold: &mut Hold,
        image: &mut Image,
        rect: Rect,
    ) -> Result<(), Memory>
        requires depth { paints self.now image.old.depth }
        requires rgba { image.old.components ≡ RgbaSamples }
        ensures frame { SameFrame image.old image.new }
        ensures hold { hold.new.gate ≡ hold.old.gate };
}

/// What an effect renders.
#[derive(Drop)]
pub(crate) struct Painter<'a, 'b> {
    pub(crate) effect: Shipped,
    pub(crate) values: &'a Values,
    pub(crate) inputs: &'a Inputs<'b>,
}

impl<'a, 'b> Brush for Painter<'a, 'b> {
    ghost paints = { λ p depth. IsFrame p.values.now.frame
        × MayRender (meaning_of p.effect).shape p.values.now p.inputs.now depth RgbaSamples };

    fn paint(
        &self,
        alloc: Global,
        hold: &mut Hold,
        image: &mut Image,
        rect: Rect,
    ) -> Result<(), Memory> {
        if rect.is_empty() {
            return Ok(());
        }
        if !rect.within(image.rect()) {
            return Ok(());
        }
        self.render(alloc, hold, image, rect)
    }
}

impl<'a, 'b> Painter<'a, 'b> {
    fn render(
        &self,
        alloc: Global,
        hold: &mut Hold,
        image: &mut Image,
        rect: Rect,
    ) -> Result<(), Memory>
        requires some_window { rect ≢ none }
        requires within { IsWithin rect image.old.rect }
        requires frame { IsFrame self.now.values.now.frame }
        requires may { let p = self.now in
            MayRender (meaning_of p.effect).shape p.values.now p.inputs.now image.old.depth image.old.components }
        ensures frame { SameFrame image.old image.new }
        ensures hold { hold.new.gate ≡ hold.old.gate }
    {
        let args = window_args(alloc, self.values.frame, rect)?;
        let mut ticket = Ticket {
            scene: 1,
            number: 1,
            stamped: false,
        };
        let mut part = image.part(rect);
        let outcome = self.effect.render(
            alloc,
            self.values,
            &args,
            self.inputs,
            hold,
            &mut ticket,
            &mut part,
        );
        let Ticket {
            scene: _,
            number: _,
            stamped: _,
        } = ticket;
        outcome
    }
}

/// A copy of the clip's rows.
#[derive(Drop)]
pub(crate) struct Copier<'a, 'b> {
    pub(crate) inputs: &'a Inputs<'b>,
}

impl<'a, 'b> Brush for Copier<'a, 'b> {
    ghost paints = { λ c depth. (c.inputs.now.depth ≡ depth) × (c.inputs.now.components ≡ RgbaSamples ∷ []) };

    fn paint(
        &self,
        _alloc: Global,
        _hold: &mut Hold,
        image: &mut Image,
        rect: Rect,
    ) -> Result<(), Memory> {
        if rect.within(image.rect()) {
            let mut part = image.part(rect);
            fill_with(self, &mut [], &mut [], &mut part);
        }
        Ok(())
    }
}

impl<'a, 'b> RowKernel for Copier<'a, 'b> {
    ghost makes = { λ k depth c.
        (k.inputs.now.depth ≡ depth) × (k.inputs.now.components ≡ RgbaSamples ∷ []) × (c ≡ RgbaSamples) };

    ghost pixel = { λ k depth c x y. input_pixel k.inputs.now (tap 0 (pos 100) x y) };

    fn fill_row(
        &self,
        _depth: Depth,
        _components: Components,
        rect: Rect,
        y: i64,
        _cells: &mut [u64],
        _bytes: &mut [u8],
        row: &mut [u8],
    ) {
        self.inputs.read_row(0, i64::from(NOW), rect, y, row);
    }
}

/// Paints so many frames, each over the one before, whole or by tiles of 64 by 64 pixels: the sum of the
/// samples in the middle of the last one.
pub(crate) fn paint_frames<B: Brush>(
    alloc: Global,
    brush: &B,
    depth: Depth,
    tiled: bool,
    count: u32,
) -> Result<u64, Memory>
    requires { B.paints brush.now depth }
{
    let mut hold = Gates::free(alloc);
    let mut image = blank(alloc, depth)?;
    for _ in 0..count {
        paint_frame(alloc, brush, &mut hold, &mut image, tiled)?;
    }
    Ok(sum(image.at(COLUMNS / 2, ROWS / 2)))
}

fn paint_frame<B: Brush>(
    alloc: Global,
    brush: &B,
    hold: &mut Hold,
    image: &mut Image,
    tiled: bool,
) -> Result<(), Memory>
    requires depth { B.paints brush.now image.old.depth }
    requires rgba { image.old.components ≡ RgbaSamples }
    ensures frame { SameFrame image.old image.new }
    ensures hold { hold.new.gate ≡ hold.old.gate }
{
    if tiled {
        paint_tiles(alloc, brush, hold, image)
    } else {
        let rect = image.rect();
        brush.paint(alloc, hold, image, rect)
    }
}

fn paint_tiles<B: Brush>(
    alloc: Global,
    brush: &B,
    hold: &mut Hold,
    image: &mut Image,
) -> Result<(), Memory>
    requires depth { B.paints brush.now image.old.depth }
    requires rgba { image.old.components ≡ RgbaSamples }
    ensures frame { SameFrame image.old image.new }
    ensures hold { hold.new.gate ≡ hold.old.gate }
{
    for row in 0..TILES_UP {
        paint_row(alloc, brush, hold, image, row)?;
    }
    Ok(())
}

fn paint_row<B: Brush>(
    alloc: Global,
    brush: &B,
    hold: &mut Hold,
    image: &mut Image,
    row: u16,
) -> Result<(), Memory>
    requires depth { B.paints brush.now image.old.depth }
    requires rgba { image.old.components ≡ RgbaSamples }
    ensures frame { SameFrame image.old image.new }
    ensures hold { hold.new.gate ≡ hold.old.gate }
{
    for column in 0..TILES_ACROSS {
        brush.paint(alloc, hold, image, tile(column, row))?;
    }
    Ok(())
}

fn tile(column: u16, row: u16) -> Rect {
    let left = TILE * i64::from(column);
    let bottom = TILE * i64::from(row);
    Rect::of(left, bottom, left + TILE, (bottom + TILE).min(ROWS))
}
