//! PAM files of 1,920 columns that are made and read, and images of that width that are made and
//! written.
ghost use Rattle.std.specs.Prelude.{◌≡◌, ◌≢◌, ◌≤◌, IfOk};
ghost use Rattle.fx_base.specs.Rect.{columns};
ghost use Rattle.fx_pixel.specs.declared.Components.TheVariants.{Rgba as RgbaSamples};
ghost use Rattle.fx_pixel.specs.declared.Format.TheVariants.{Grayscale};

use fx_base::{Memory, Rect};
use fx_image::Image;
use fx_pam::{read, write};
use fx_pixel::{Components, Depth, Format, Pixel};
use std::alloc::Global;

const COLUMNS: u32 = 1920;

// As many rows as an image has here.
const MOST_ROWS: u32 = 8192;

// What a file's pixels are: samples, the greatest of them, and the bytes of a row.
#[derive(Clone, Copy)]
struct Kind {
    depth: u32,
    maxval: u32,
    row: u16,
}

/// Does what the word says, for 1 to 8,192 rows, and gives its number. None where it is another word.
pub(crate) fn done(alloc: Global, word: &str, rows: u32) -> Result<Option<u64>, Memory> {
    let rows = rows.clamp(1, MOST_ROWS);
    let number = match word {
        "image" => make_image(alloc, rows),
        "write" => write_image(alloc, Format::RgbAlpha, rows),
        "write_rgb" => write_image(alloc, Format::Rgb, rows),
        _ => return file_done(alloc, word, rows),
    };
    Ok(Some(number?))
}

// A file is made: its length in bytes. Or it is read too: the sum of the samples in the middle of its last row.
fn file_done(alloc: Global, word: &str, rows: u32) -> Result<Option<u64>, Memory> {
    let (what, kind) = word.split_once('_').unwrap_or((word, "rgba"));
    let Some(kind) = kind_of(kind) else {
        return Ok(None);
    };
    let bytes = file(alloc, kind, rows)?;
    match what {
        "file" => Ok(Some(bytes.len() as u64)),
        "read" => Ok(Some(sum_of_file(alloc, &bytes))),
        _ => Ok(None),
    }
}

// Bytes of r, g, b and a; of r, g and b; of r, g, b and a, of which 100 is the greatest; and short samples.
fn kind_of(name: &str) -> Option<Kind> {
    let (depth, maxval, row) = match name {
        "rgba" => (4, 255, 7680),
        "rgb" => (3, 255, 5760),
        "scaled" => (4, 100, 7680),
        "short" => (4, 65535, 15360),
        _ => return None,
    };
    Some(Kind { depth, maxval, row })
}

// 0 where the file has a fault.
fn sum_of_file(alloc: Global, bytes: &[u8]) -> u64 {
    match read(alloc, bytes, MOST_ROWS) {
        Ok(image) => sum(image.at(i64::from(COLUMNS / 2), 0)),
        Err(_) => 0,
    }
}

fn make_image(alloc: Global, rows: u32) -> Result<u64, Memory>
    requires { (1 ≤ rows) × (rows ≤ 8192) }
{
    Ok(sum(image(alloc, rows)?.at(i64::from(COLUMNS / 2), 0)))
}

// An image of RGBA has no text as Grayscale.
fn write_image(alloc: Global, format: Format, rows: u32) -> Result<u64, Memory>
    requires rows { (1 ≤ rows) × (rows ≤ 8192) }
    requires format { format ≢ Grayscale }
{
    let image = image(alloc, rows)?;
    let mut text = Vec::new(alloc);
    write(alloc, &image, format, &mut text)?;
    Ok(text.len() as u64)
}

fn file(alloc: Global, kind: Kind, rows: u32) -> Result<Vec<u8>, Memory> {
    let Kind { depth, maxval, row } = kind;
    let header = format!(in alloc;
        "P7\nWIDTH {COLUMNS}\nHEIGHT {rows}\nDEPTH {depth}\nMAXVAL {maxval}\nENDHDR\n"
    )?;
    let mut bytes = header.into_bytes();
    let length = bytes.len() + usize::from(row) * rows as usize;
    bytes.resize(length, 50)?;
    Ok(bytes)
}

fn image(alloc: Global, rows: u32) -> Result<Image, Memory>
    requires { (1 ≤ rows) × (rows ≤ 8192) }
    ensures columns { IfOk result (λ image. 1 ≤ columns image.rect) }
    ensures components { IfOk result (λ image. image.components ≡ RgbaSamples) }
{
    let rect = Rect::of(0, 0, i64::from(COLUMNS), i64::from(rows));
    let image = Image::new(alloc, rect, Depth::Byte, Components::Rgba, COLUMNS * 4)?;
    Ok(image)
}

pub(crate) fn sum(p: Pixel) -> u64 {
    match p {
        Pixel::Rgba { r, g, b, a } => u64::from(r) + u64::from(g) + u64::from(b) + u64::from(a),
        Pixel::Alpha { a } => u64::from(a),
    }
}
