//! Writes PAM files: a header of lines, and then the rows from the top.
ghost use Rattle.std.specs.Prelude.{◌≡◌, ◌≤◌, ◌++◌, ◌*◌, ◌/◌, ◌≤ℤ◌, ◌<ℤ◌, length, take, OnOk, OnErr, IfOk, ◌-◌, ◌^◌, min, string_bytes};
ghost use Rattle.std.specs.Int.{int_gap};
ghost use Rattle.fx_base.specs.Rect.{columns, rows};
ghost use Rattle.fx_pixel.specs.Pixel.{greatest, size};
ghost use Rattle.fx_image.specs.Stored.{image_of};
ghost use Rattle.fx_pam.specs.Text.{format_depth, format_name, header, row_bytes, raster, pam_text};
ghost use Rattle.fx_pam.specs.Laws.{components_for};
ghost use Rattle.fx_pam.specs.Fronts.{fronts};

use fx_base::Memory;
use fx_image::Image;
use fx_image::samples::are_bytes;
use fx_pixel::{Depth, Format};
use std::alloc::{AllocError, Global};

/// Appends the text of an image to `out`: a header of lines, and then the rows from the top, each from
/// the left and without padding. `RgbAlpha` writes r, g, b and a of each pixel, `Rgb` r, g and b, and
/// `Grayscale` the one sample of an Alpha image. A sample is one byte at depth `Byte`, and two at
/// `Short`, the more significant first. Room for the whole text is reserved in `out` at once, so that no
/// second buffer of its length arises. On `Memory`, which comes where that room or the few bytes of the
/// header are refused, `out` is as it was.
pub fn write(alloc: Global, image: &Image, format: Format, out: &mut Vec<u8>) -> Result<(), Memory>
    requires some_columns { 1 ≤ columns image.now.rect }
    requires components { image.now.components ≡ components_for format }
    ensures ok { OnOk result (out.new.items ≡ out.old.items ++ pam_text format (image_of image.now)) }
    ensures err { OnErr result (out.new.items ≡ out.old.items) }
{
    let before = out.len();
    match push_text(alloc, image, format, out) {
        Ok(()) => Ok(()),
        Err(_) => {
            out.truncate(before);
            Err(Memory)
        }
    }
}

// Where it fails, a part of the text may stand behind what was there.
fn push_text(
    alloc: Global,
    image: &Image,
    format: Format,
    out: &mut Vec<u8>,
) -> Result<(), AllocError>
    requires { image.now.components ≡ components_for format }
    ensures ok { OnOk result (out.new.items ≡ out.old.items ++ pam_text format (image_of image.now)) }
    ensures err { OnErr result (take (length out.old.items) out.new.items ≡ out.old.items) }
{
    let rect = image.rect();
    let width = gap(rect.x1, rect.x2);
    let height = gap(rect.y1, rect.y2);
    let header = header_text(alloc, width, height, format, image.depth().greatest())?;
    let raster = raster_length(width, height, format, image.depth());
    out.reserve_exact(raster.saturating_add(header.len()))?;
    out.extend_from_slice(header.as_bytes())?;
    push_rows(image, format, out)
}

fn gap(low: i64, high: i64) -> u64
    requires { low ≤ℤ high }
    ensures { result ≡ int_gap low high }
{
    low.abs_diff(high)
}

fn header_text(
    alloc: Global,
    width: u64,
    height: u64,
    format: Format,
    maxval: u32,
) -> Result<String, AllocError>
    ensures { IfOk result (λ text. string_bytes text ≡ header width height format maxval) }
{
    let depth = sample_count(format);
    let name = tuple_type(format);
    format!(in alloc;
        "P7\nWIDTH {width}\nHEIGHT {height}\nDEPTH {depth}\nMAXVAL {maxval}\nTUPLTYPE {name}\nENDHDR\n"
    )
}

// How many samples of a pixel are written.
fn sample_count(format: Format) -> u32
    ensures { result ≡ format_depth format }
{
    match format {
        Format::RgbAlpha => 4,
        Format::Rgb => 3,
        Format::Grayscale => 1,
    }
}

fn tuple_type(format: Format) -> &'static str
    ensures { result.now ≡ format_name format }
{
    match format {
        Format::RgbAlpha => "RGB_ALPHA",
        Format::Rgb => "RGB",
        Format::Grayscale => "GRAYSCALE",
    }
}

// How many bytes the rows are, or more than any memory has.
fn raster_length(width: u64, height: u64, format: Format, depth: Depth) -> usize
    ensures { result ≡ min (width * height * (format_depth format * size depth)) (2 ^ 64 - 1) }
{
    let pixel = u64::from(sample_count(format) * depth.size());
    width.saturating_mul(height).saturating_mul(pixel) as usize
}

fn push_rows(image: &Image, format: Format, out: &mut Vec<u8>) -> Result<(), AllocError>
    requires { image.now.components ≡ components_for format }
    ensures ok { let text = raster format (image_of image.now) (rows image.now.rect) in
        OnOk result (out.new.items ≡ out.old.items ++ text) }
    ensures err { OnErr result (take (length out.old.items) out.new.items ≡ out.old.items) }
{
    let rect = image.rect();
    let mut y = rect.y2;
    while rect.y1 < y {
        y -= 1;
        push_row(image, format, y, out)?;
    }
    Ok(())
}

fn push_row(image: &Image, format: Format, y: i64, out: &mut Vec<u8>) -> Result<(), AllocError>
    requires components { image.now.components ≡ components_for format }
    requires inside { (image.now.rect.y1 ≤ℤ y) × (y <ℤ image.now.rect.y2) }
    ensures ok { let row = row_bytes format (image_of image.now) y (columns image.now.rect) in
        OnOk result (out.new.items ≡ out.old.items ++ row) }
    ensures err { OnErr result (take (length out.old.items) out.new.items ≡ out.old.items) }
{
    let view = image.view(image.rect());
    let row = view.row(y);
    are_bytes(row);
    match format {
        Format::RgbAlpha | Format::Grayscale => out.extend_from_slice(row),
        Format::Rgb => push_colours(row, image.depth(), out),
    }
}

// Each pixel of a row of RGBA without its a.
fn push_colours(row: &[u8], depth: Depth, out: &mut Vec<u8>) -> Result<(), AllocError>
    ensures ok { let count = length row.now / (4 * size depth) in
        OnOk result (out.new.items ≡ out.old.items ++ fronts (4 * size depth) (3 * size depth) row.now count) }
    ensures err { OnErr result (take (length out.old.items) out.new.items ≡ out.old.items) }
{
    match depth {
        Depth::Byte => push_fronts(row, 4, 3, out),
        Depth::Short => push_fronts(row, 8, 6, out),
    }
}

// The first `kept` of each `size` bytes.
#[inline]
fn push_fronts(row: &[u8], size: usize, kept: usize, out: &mut Vec<u8>) -> Result<(), AllocError>
    requires some { 1 ≤ size }
    requires fits { kept ≤ size }
    ensures ok { OnOk result (out.new.items ≡ out.old.items ++ fronts size kept row.now (length row.now / size)) }
    ensures err { OnErr result (take (length out.old.items) out.new.items ≡ out.old.items) }
{
    for i in 0..row.len() / size {
        let from = i * size;
        out.extend_from_slice(&row[from..from + kept])?;
    }
    Ok(())
}
