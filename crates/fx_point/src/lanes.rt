//! Eight pixels of bytes at a time, in vectors of 32 lanes: r, g, b and a of each.
ghost use Rattle.std.specs.Prelude.{ℕ};
ghost use Rattle.fx_pixel.specs.declared.Depth.TheVariants.{Byte};
ghost use Rattle.fx_pixel.specs.declared.Components.TheVariants.{Rgba};
ghost use Rattle.fx_effect.specs.Rows.{MakesRow};
ghost use Rattle.fx_point.specs.Colours.{with_colours};
ghost use Rattle.fx_point.specs.Lanes.{AreMade};

use std::simd::prelude::*;

/// The pixels with other lanes for r, g and b; a is kept.
#[inline(always)]
pub fn recoloured(pixels: u8x32, made: u8x32) -> u8x32
    ensures { (of : ℕ → ℕ → ℕ) → AreMade of pixels made → MakesRow Byte Rgba (with_colours of) pixels result }
{
    made.shuffle(
        pixels,
        [
            0, 1, 2, 35, 4, 5, 6, 39, 8, 9, 10, 43, 12, 13, 14, 47, 16, 17, 18, 51, 20, 21, 22, 55,
            24, 25, 26, 59, 28, 29, 30, 63,
        ],
    )
}
