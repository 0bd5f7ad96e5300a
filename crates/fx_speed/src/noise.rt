//! Images of 1,920 by 1,080 pixels of r, g, b and a: blank ones, and ones of no meaning.
ghost use Rattle.std.specs.Prelude.{◌≡◌, ◌≤◌, ◌*◌, pos, IfOk};
ghost use Rattle.fx_pixel.specs.declared.Components.TheVariants.{Rgba as RgbaSamples};
ghost use Rattle.fx_image.specs.Stored.{pixel_size};

use crate::kept::next;
use fx_base::{Memory, Rect};
use fx_image::Image;
use fx_pam::read;
use fx_pixel::{Components, Depth};
use std::alloc::Global;

pub(crate) const COLUMNS: i64 = 1920;

pub(crate) const ROWS: i64 = 1080;

/// The depth of this name.
pub(crate) fn depth_of(name: &str) -> Option<Depth> {
    match name {
        "byte" => Some(Depth::Byte),
        "short" => Some(Depth::Short),
        _ => None,
    }
}

/// An image of zeros.
pub(crate) fn blank(alloc: Global, depth: Depth) -> Result<Image, Memory>
    ensures rect { IfOk result (λ image. image.rect
        ≡ record { x1 = pos 0; y1 = pos 0; x2 = pos 1920; y2 = pos 1080 }) }
    ensures depth { IfOk result (λ image. image.depth ≡ depth) }
    ensures components { IfOk result (λ image. image.components ≡ RgbaSamples) }
{
    let rect = Rect::of(0, 0, COLUMNS, ROWS);
    Image::new(alloc, rect, depth, Components::Rgba, row_bytes(depth))
}

fn row_bytes(depth: Depth) -> u32
    ensures room { 1920 * pixel_size depth RgbaSamples ≤ result }
    ensures small { result ≤ 15360 }
{
    match depth {
        Depth::Byte => 7680,
        Depth::Short => 15360,
    }
}

/// An image of pixels that look random, others for each number.
pub(crate) fn noise(alloc: Global, depth: Depth, number: u32) -> Result<Image, Memory> {
    let maxval = depth.greatest();
    let header = format!(in alloc;
        "P7\nWIDTH {COLUMNS}\nHEIGHT {ROWS}\nDEPTH 4\nMAXVAL {maxval}\nENDHDR\n"
    )?;
    let mut bytes = header.into_bytes();
    let start = bytes.len();
    bytes.resize(start + ROWS as usize * row_bytes(depth) as usize, 0)?;
    scatter(&mut bytes[start..], number);
    match read(alloc, &bytes, 8192) {
        Ok(image) => Ok(image),
        Err(_) => Err(Memory),
    }
}

fn scatter(bytes: &mut [u8], number: u32) {
    let mut state = next(number);
    for byte in bytes.iter_mut() {
        state = next(state);
        *byte = (state >> 24) as u8;
    }
}
