//! From the bytes of a file to its image.
ghost use Rattle.std.specs.Prelude.{◌≡◌, ◌≢◌, ◌≤◌, ◌<◌, ◌*◌, pos, [], IfOk, IfErr, None, Some};
ghost use Rattle.fx_base.specs.declared.limits.TheConstants.{MOST_SIDE};
ghost use Rattle.fx_pixel.specs.declared.Components.TheVariants.{Rgba as RgbaSamples};
ghost use Rattle.fx_image.specs.Stored.{SameFrame, image_of};
ghost use Rattle.fx_image.specs.Runs.{row_size};
ghost use Rattle.fx_pam.specs.declared.fault.PamFault.TheVariants.{Memory as OutOfMemory};
ghost use Rattle.fx_pam.specs.Header.{Reads};
ghost use Rattle.fx_pam.specs.Reading.{header_in, header_with, depth_of, raster_fault, pam_fault, IsPam};
ghost use Rattle.fx_pam.specs.Raster.{IsPlain, IsRanged, IsWhole, IsImageOf};

use crate::PamFault;
use crate::header::read_header;
use crate::numbers::HeaderNumbers;
use crate::raster::{check_raster, fill, rows_upward};
use fx_base::Rect;
use fx_image::Image;
use fx_pixel::Components;
use std::alloc::Global;

/// The first image of a PAM file, as RGBA: byte samples where MAXVAL is below 256, else short ones, each
/// scaled to the nearest. Sides go up to `most_side`. What follows the raster is left unread. The faults
/// come in this order: bytes that don't begin with `P7`, a header line that is wrong, a number out of
/// range, a raster that is cut off, a sample above MAXVAL; nothing of the raster's size is taken from
/// memory before all of them are ruled out. The image's rows are no wider than their pixels.
pub fn read(alloc: Global, bytes: &[u8], most_side: u32) -> Result<Image, PamFault>
    requires { most_side ≤ MOST_SIDE }
    ensures image { IfOk result (λ image. IsPam bytes.now most_side (image_of image)) }
    ensures narrow { IfOk result (λ image. image.raster.pitch ≡ row_size image image.rect) }
    ensures fault { IfErr result (λ e. e ≢ OutOfMemory → pam_fault bytes.now most_side ≡ Some e) }
{
    let (numbers, raster) = read_numbers(bytes, most_side)?;
    check_raster(numbers, raster)?;
    image_of(alloc, numbers, raster)
}

// The numbers of the header, in their ranges, and the bytes behind it.
fn read_numbers(bytes: &[u8], most_side: u32) -> Result<(HeaderNumbers, &[u8]), PamFault>
    requires { most_side ≤ MOST_SIDE }
    ensures reads { IfOk result (λ header. header_in bytes.now ≡ Reads header.0 header.1.now) }
    ensures ranged { IfOk result (λ header. IsRanged MOST_SIDE (header_with header.0 header.1.now)) }
    // The fault that is left is the raster's.
    ensures left { let fault = pam_fault bytes.now most_side in
        IfOk result (λ header. fault ≡ raster_fault (header_with header.0 header.1.now)) }
    ensures fault { IfErr result (λ e. pam_fault bytes.now most_side ≡ Some e) }
{
    if !bytes.starts_with(b"P7\n") {
        return Err(PamFault::NotPam);
    }
    match read_header(&bytes[3..]) {
        Ok((numbers, raster)) => match numbers.out_of_range(most_side) {
            None => Ok((numbers, raster)),
            Some(field) => Err(PamFault::SizeOutOfRange(field)),
        },
        Err(line) => Err(PamFault::HeaderWrong(line)),
    }
}

// The image of a raster.
fn image_of(alloc: Global, numbers: HeaderNumbers, raster: &[u8]) -> Result<Image, PamFault>
    requires { IsWhole MOST_SIDE (header_with numbers raster.now) }
    ensures image { IfOk result (λ image. IsImageOf (header_with numbers raster.now) (image_of image)) }
    ensures narrow { IfOk result (λ image. image.raster.pitch ≡ row_size image image.rect) }
    ensures memory { IfErr result (λ e. e ≡ OutOfMemory) }
{
    if numbers.depth == 4 && numbers.keeps_samples() {
        plain_image(alloc, numbers, raster)
    } else {
        made_image(alloc, numbers, raster)
    }
}

// The image of a raster whose bytes are the image's: its rows are copied, and nothing else is written.
fn plain_image(alloc: Global, numbers: HeaderNumbers, raster: &[u8]) -> Result<Image, PamFault>
    requires whole { IsWhole MOST_SIDE (header_with numbers raster.now) }
    requires plain { IsPlain (header_with numbers raster.now) }
    ensures image { IfOk result (λ image. IsImageOf (header_with numbers raster.now) (image_of image)) }
    ensures narrow { IfOk result (λ image. image.raster.pitch ≡ row_size image image.rect) }
    ensures memory { IfErr result (λ e. e ≡ OutOfMemory) }
{
    let rows = rows_upward(alloc, numbers, raster)?;
    let rect = rect_of(numbers);
    let depth = numbers.sample_depth();
    Ok(Image::of_rows(alloc, rect, depth, Components::Rgba, rows)?)
}

// The image of any raster, each pixel from its samples.
fn made_image(alloc: Global, numbers: HeaderNumbers, raster: &[u8]) -> Result<Image, PamFault>
    requires { IsWhole MOST_SIDE (header_with numbers raster.now) }
    ensures image { IfOk result (λ image. IsImageOf (header_with numbers raster.now) (image_of image)) }
    ensures narrow { IfOk result (λ image. image.raster.pitch ≡ row_size image image.rect) }
    ensures memory { IfErr result (λ e. e ≡ OutOfMemory) }
{
    let rect = rect_of(numbers);
    let depth = numbers.sample_depth();
    let row_bytes = numbers.width * 4 * depth.size();
    let mut image = Image::new(alloc, rect, depth, Components::Rgba, row_bytes)?;
    fill_image(numbers, raster, &mut image);
    Ok(image)
}

// The rectangle from (0, 0) on.
fn rect_of(numbers: HeaderNumbers) -> Rect
    requires { IsRanged MOST_SIDE (header_with numbers []) }
    ensures { result ≡ record { x1 = pos 0; y1 = pos 0; x2 = pos numbers.width; y2 = pos numbers.height } }
{
    Rect::of(0, 0, i64::from(numbers.width), i64::from(numbers.height))
}

fn fill_image(numbers: HeaderNumbers, raster: &[u8], image: &mut Image)
    requires whole { IsWhole MOST_SIDE (header_with numbers raster.now) }
    requires rect { image.old.rect
        ≡ record { x1 = pos 0; y1 = pos 0; x2 = pos numbers.width; y2 = pos numbers.height } }
    requires depth { image.old.depth ≡ depth_of (header_with numbers raster.now) }
    requires components { image.old.components ≡ RgbaSamples }
    ensures image { IsImageOf (header_with numbers raster.now) (image_of image.new) }
    ensures frame { SameFrame image.old image.new }
{
    let mut part = image.part(image.rect());
    fill(numbers, raster, &mut part);
}
