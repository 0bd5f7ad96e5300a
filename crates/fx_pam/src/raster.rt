//! The raster of a PAM file: rows from the top, each pixel from the left, a short sample with the more
//! significant byte first.
ghost use Rattle.std.specs.Prelude.{◌≡◌, ◌≤◌, ◌<◌, ◌+◌, ◌*◌, ℕ, pos, length, vec_len, OnOk, IfOk, IfErr, None, Some};
ghost use Rattle.fx_base.specs.declared.limits.TheConstants.{MOST_SIDE};
ghost use Rattle.fx_pixel.specs.Pixel.{greatest, components_of, IsOfDepth};
ghost use Rattle.fx_pixel.specs.declared.Components.TheVariants.{Rgba as RgbaSamples};
ghost use Rattle.fx_image.specs.Stored.{pixel_size, pixel_in};
ghost use Rattle.fx_image.specs.Part.{IsPart, SamePart, IsWritten};
ghost use Rattle.fx_pam.specs.Reading.{header_with, depth_of, sample_count, raster_length, sample_at, scaled, pixel_of, first_above, sample_fault, raster_fault};
ghost use Rattle.fx_pam.specs.Raster.{IsPlain, IsRanged, IsWhole, RiseTo, row_length, row_at, pixel_from_bottom};

use crate::PamFault;
use crate::numbers::HeaderNumbers;
use fx_base::Memory;
use fx_image::Part;
use fx_image::samples::{are_bytes, sample, set_pixel};
use fx_pixel::Pixel;
use std::alloc::Global;

/// The first fault of a raster: bytes that are wanting, or a sample above the greatest.
pub fn check_raster(numbers: HeaderNumbers, bytes: &[u8]) -> Result<(), PamFault>
    requires { IsRanged MOST_SIDE (header_with numbers bytes.now) }
    ensures ok { OnOk result (raster_fault (header_with numbers bytes.now) ≡ None) }
    ensures whole { OnOk result (IsWhole MOST_SIDE (header_with numbers bytes.now)) }
    ensures fault { IfErr result (λ e. raster_fault (header_with numbers bytes.now) ≡ Some e) }
{
    let wanted = numbers.sample_count() * numbers.sample_depth().size() as usize;
    if bytes.len() < wanted {
        return Err(PamFault::Truncated(wanted as u64, bytes.len() as u64));
    }
    if numbers.keeps_samples() {
        are_bytes(bytes);
        Ok(())
    } else {
        check_samples(numbers, bytes)
    }
}

// A sample above the greatest is a fault.
fn check_samples(numbers: HeaderNumbers, bytes: &[u8]) -> Result<(), PamFault>
    requires ranged { IsRanged MOST_SIDE (header_with numbers bytes.now) }
    requires long { raster_length (header_with numbers bytes.now) ≤ length bytes.now }
    ensures ok { let h = header_with numbers bytes.now in OnOk result (first_above h 0 (sample_count h) ≡ None) }
    ensures fault { let h = header_with numbers bytes.now in
        IfErr result (λ e. sample_fault h (first_above h 0 (sample_count h)) ≡ Some e) }
{
    let depth = numbers.sample_depth();
    for i in 0..numbers.sample_count() {
        let s = u32::from(sample(depth, bytes, i));
        if s > numbers.maxval {
            return Err(PamFault::SampleAboveMaxval(i as u64, s));
        }
    }
    Ok(())
}

/// The rows of a raster whose bytes are the image's as they stand, the last row first.
pub fn rows_upward(alloc: Global, numbers: HeaderNumbers, bytes: &[u8]) -> Result<Vec<u8>, Memory>
    requires whole { IsWhole MOST_SIDE (header_with numbers bytes.now) }
    requires plain { IsPlain (header_with numbers bytes.now) }
    ensures len { IfOk result (λ rows. vec_len rows ≡ numbers.height * row_length (header_with numbers bytes.now)) }
    ensures rows { let h = header_with numbers bytes.now in IfOk result (λ rows. RiseTo h numbers.height rows.items) }
{
    let height = numbers.height as usize;
    let mut rows = Vec::with_capacity(alloc, height * numbers.row_length())?;
    for y in 0..height {
        let row = file_row(numbers, bytes, height - 1 - y);
        shows_row(numbers, row);
        rows.extend_from_slice(row)?;
    }
    Ok(rows)
}

// Such a row has the bytes of the image's pixels. It computes nothing.
fn shows_row(numbers: HeaderNumbers, source: &[u8])
    requires whole { IsWhole MOST_SIDE (header_with (record numbers { height = 1 }) source.now) }
    requires plain { IsPlain (header_with numbers source.now) }
    ensures { let h = header_with numbers source.now in
        (c : ℕ) → c < numbers.width → pixel_in (depth_of h) RgbaSamples source.now c ≡ pixel_of h 0 c }
{}

/// Fills an image with the rows of a raster, the last one at the bottom.
pub fn fill(numbers: HeaderNumbers, bytes: &[u8], out: &mut Part<'_>)
    requires whole { IsWhole MOST_SIDE (header_with numbers bytes.now) }
    requires part { IsPart out.old }
    requires rect { out.old.rect ≡ record { x1 = pos 0; y1 = pos 0; x2 = pos numbers.width; y2 = pos numbers.height } }
    requires depth { out.old.image.now.depth ≡ depth_of (header_with numbers bytes.now) }
    requires components { out.old.image.now.components ≡ RgbaSamples }
    ensures written { IsWritten out.old out.new (pixel_from_bottom (header_with numbers bytes.now)) }
{
    let height = numbers.height as usize;
    for y in 0..height {
        let source = file_row(numbers, bytes, height - 1 - y);
        fill_row(numbers, source, out.row_mut(y as i64));
    }
}

// Row r of the file, from the top.
fn file_row(numbers: HeaderNumbers, bytes: &[u8], r: usize) -> &[u8]
    requires whole { IsWhole MOST_SIDE (header_with numbers bytes.now) }
    requires row { r < numbers.height }
    ensures value { result.now ≡ (row_at (header_with numbers bytes.now) r).behind }
    ensures len { length result.now ≡ row_length (header_with numbers bytes.now) }
{
    let length = numbers.row_length();
    let from = r * length;
    &bytes[from..from + length]
}

// Fills the row of an image with one of the file.
fn fill_row(numbers: HeaderNumbers, source: &[u8], row: &mut [u8])
    requires whole { IsWhole MOST_SIDE (header_with (record numbers { height = 1 }) source.now) }
    requires source { length source.now ≡ row_length (header_with numbers source.now) }
    requires row { length row.old ≡ numbers.width * pixel_size (depth_of (header_with numbers source.now)) RgbaSamples }
    ensures { let h = header_with numbers source.now in
        (c : ℕ) → c < numbers.width → pixel_in (depth_of h) RgbaSamples row.new c ≡ pixel_of h 0 c }
{
    if numbers.depth == 4 && numbers.keeps_samples() {
        row.copy_from_slice(source);
    } else {
        fill_pixels(numbers, source, row);
    }
}

fn fill_pixels(numbers: HeaderNumbers, source: &[u8], row: &mut [u8])
    requires whole { IsWhole MOST_SIDE (header_with (record numbers { height = 1 }) source.now) }
    requires row { length row.old ≡ numbers.width * pixel_size (depth_of (header_with numbers source.now)) RgbaSamples }
    ensures { let h = header_with numbers source.now in
        (c : ℕ) → c < numbers.width → pixel_in (depth_of h) RgbaSamples row.new c ≡ pixel_of h 0 c }
{
    let depth = numbers.sample_depth();
    for c in 0..numbers.width as usize {
        set_pixel(depth, row, c, pixel_of(numbers, source, c));
    }
}

// Pixel c of a row of the file.
fn pixel_of(numbers: HeaderNumbers, source: &[u8], c: usize) -> Pixel
    requires whole { IsWhole MOST_SIDE (header_with (record numbers { height = 1 }) source.now) }
    requires column { c < numbers.width }
    ensures value { result ≡ pixel_of (header_with numbers source.now) 0 c }
    ensures depth { IsOfDepth (depth_of (header_with numbers source.now)) result }
    ensures components { components_of result ≡ RgbaSamples }
{
    let first = c * numbers.depth as usize;
    let greatest = numbers.sample_depth().greatest() as u16;
    let one = scaled(numbers, source, first);
    if numbers.depth == 1 {
        return Pixel::Rgba {
            r: one,
            g: one,
            b: one,
            a: greatest,
        };
    }
    let two = scaled(numbers, source, first + 1);
    if numbers.depth == 2 {
        return Pixel::Rgba {
            r: one,
            g: one,
            b: one,
            a: two,
        };
    }
    let three = scaled(numbers, source, first + 2);
    let a = if numbers.depth == 3 {
        greatest
    } else {
        scaled(numbers, source, first + 3)
    };
    Pixel::Rgba {
        r: one,
        g: two,
        b: three,
        a,
    }
}

// Sample i of a row of the file as one of the image: to the nearest, halves up.
fn scaled(numbers: HeaderNumbers, source: &[u8], i: usize) -> u16
    requires whole { IsWhole MOST_SIDE (header_with (record numbers { height = 1 }) source.now) }
    requires there { i < sample_count (header_with (record numbers { height = 1 }) source.now) }
    ensures value { result ≡ scaled (header_with numbers source.now) (sample_at (header_with numbers source.now) i) }
    ensures bound { result ≤ greatest (depth_of (header_with numbers source.now)) }
{
    let depth = numbers.sample_depth();
    let s = sample(depth, source, i);
    if numbers.keeps_samples() {
        return s;
    }
    let greatest = u64::from(depth.greatest());
    let maxval = u64::from(numbers.maxval);
    ((2 * u64::from(s) * greatest + maxval) / (2 * maxval)) as u16
}
