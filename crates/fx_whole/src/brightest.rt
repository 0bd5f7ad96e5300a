//! The brightest pixel of the project's extent.
ghost use Rattle.std.specs.Prelude.{◌≡◌, ◌*◌, map, max, length, IfOk};
ghost use Rattle.fx_base.specs.Rect.{columns};
ghost use Rattle.fx_image.specs.Stored.{pixel_size};
ghost use Rattle.fx_effect.specs.Given.{ShowsClip, input_pixel};
ghost use Rattle.fx_effect.specs.Shape.{IsProject};
ghost use Rattle.fx_whole.specs.Autogain.{brightest, brightness, extent_taps};
ghost use Rattle.fx_whole.specs.Level.{row_level};

use crate::parts::SOURCE;
use fx_base::{Memory, Rect, offset};
use fx_effect::Inputs;
use fx_image::samples::{pixel, pixel_size};
use fx_kernel::blank_bytes;
use fx_pixel::{Components, Depth, Pixel};
use std::alloc::Global;

/// The greatest of r, g and b of what Source shows over a project's extent at a frame. It is read once, row by row.
pub(crate) fn level_of(
    alloc: Global,
    inputs: &Inputs<'_>,
    frame: i64,
    depth: Depth,
    components: Components,
    project: Rect,
) -> Result<u16, Memory>
    requires source { ShowsClip inputs.now 0 depth components }
    requires project { IsProject project }
    ensures { IfOk result (λ level. level ≡ brightest (map (input_pixel inputs.now) (extent_taps project frame))) }
{
    let width = offset(project.x1, project.x2);
    let mut bytes = blank_bytes(alloc, width * pixel_size(depth, components))?;
    let bytes = bytes.as_mut_slice();
    Ok(level_of_rows(inputs, frame, depth, components, project, width, bytes))
}

// The same, by the bytes of a row to read into.
fn level_of_rows(
    inputs: &Inputs<'_>,
    frame: i64,
    depth: Depth,
    components: Components,
    project: Rect,
    width: usize,
    bytes: &mut [u8],
) -> u16
    requires source { ShowsClip inputs.now 0 depth components }
    requires project { IsProject project }
    requires width { width ≡ columns project }
    requires bytes { length bytes.old ≡ width * pixel_size depth components }
    ensures { result ≡ brightest (map (input_pixel inputs.now) (extent_taps project frame)) }
{
    let bottom = project.y1;
    let mut level = 0;
    for j in 0..offset(bottom, project.y2) {
        let y = bottom + j as i64;
        let line = (&*inputs).lend_row(SOURCE, frame, project, y, bytes);
        level = brighter(depth, components, line, width, level);
    }
    level
}

// The greater of a level and the brightness of a row of `count` pixels.
fn brighter(depth: Depth, components: Components, row: &[u8], count: usize, level: u16) -> u16
    requires { length row.now ≡ count * pixel_size depth components }
    ensures { result ≡ max level (row_level depth components row.now count) }
{
    match (depth, components) {
        (Depth::Byte, Components::Rgba) => {
            brighter_each(Depth::Byte, Components::Rgba, row, count, level)
        }
        (Depth::Byte, Components::Alpha) => {
            brighter_each(Depth::Byte, Components::Alpha, row, count, level)
        }
        (Depth::Short, Components::Rgba) => {
            brighter_each(Depth::Short, Components::Rgba, row, count, level)
        }
        (Depth::Short, Components::Alpha) => {
            brighter_each(Depth::Short, Components::Alpha, row, count, level)
        }
    }
}

#[tactic(auto, using(crate::proofs::LevelLaws::row_level_more))]
#[inline(always)]
fn brighter_each(depth: Depth, components: Components, row: &[u8], count: usize, level: u16) -> u16
    requires { length row.now ≡ count * pixel_size depth components }
    ensures { result ≡ max level (row_level depth components row.now count) }
{
    let mut most = level;
    for i in 0..count {
        most = most.max(brightness(pixel(depth, components, row, i)));
    }
    most
}

#[inline(always)]
fn brightness(p: Pixel) -> u16
    ensures { result ≡ brightness p }
{
    match p {
        Pixel::Rgba { r, g, b, a: _ } => r.max(g.max(b)),
        Pixel::Alpha { a: _ } => 0,
    }
}
