//! Runs of pixels that are written into a row of bytes.
ghost use Rattle.std.specs.Prelude.{◌≡◌, ◌≤◌, ◌<◌, ◌⊎◌, ℕ, ◌+◌, ◌*◌, length};
ghost use Rattle.fx_pixel.specs.Pixel.{convert};
ghost use Rattle.fx_image.specs.Stored.{pixel_size, pixel_in};
ghost use Rattle.fx_effect.specs.Given.{converted};
ghost use Rattle.fx_effect.specs.Rows.{SameBeside};

use crate::Steps;
use fx_image::samples::{copy_pixels, pixel, set_pixel};
use fx_pixel::{Components, Depth};

/// Writes `count` pixels of a source, converted, over those from `first` on. It decides once for the run
/// whether the conversions come to one, or to none.
pub(crate) fn write_run(
    from: Depth,
    seen: Components,
    through: &Steps,
    depth: Depth,
    components: Components,
    source: &[u8],
    first: usize,
    count: usize,
    row: &mut [u8],
)
    requires source { length source.now ≡ count * pixel_size from seen }
    requires room { (first + count) * pixel_size depth components ≤ length row.old }
    ensures painted { (i : ℕ) → i < count → pixel_in depth components row.new (first + i)
        ≡ converted from through.now depth components (pixel_in from seen source.now i) }
    ensures others { SameBeside depth components first count row.old row.new }
{
    if through.are_one(from, seen, depth, components) {
        turn_run(from, seen, depth, components, source, first, count, row);
    } else {
        convert_each(
            from, seen, through, depth, components, source, first, count, row,
        );
    }
}

// The same by one conversion.
fn turn_run(
    from: Depth,
    seen: Components,
    depth: Depth,
    components: Components,
    source: &[u8],
    first: usize,
    count: usize,
    row: &mut [u8],
)
    requires source { length source.now ≡ count * pixel_size from seen }
    requires room { (first + count) * pixel_size depth components ≤ length row.old }
    ensures painted { (i : ℕ) → i < count → pixel_in depth components row.new (first + i)
        ≡ convert from depth components (pixel_in from seen source.now i) }
    ensures others { SameBeside depth components first count row.old row.new }
{
    if from == depth && seen == components {
        copy_pixels(depth, components, source, row, first, count);
        return;
    }
    match (from, depth) {
        (Depth::Byte, Depth::Byte) => turn_depths(
            Depth::Byte,
            seen,
            Depth::Byte,
            components,
            source,
            first,
            count,
            row,
        ),
        (Depth::Byte, Depth::Short) => turn_depths(
            Depth::Byte,
            seen,
            Depth::Short,
            components,
            source,
            first,
            count,
            row,
        ),
        (Depth::Short, Depth::Byte) => turn_depths(
            Depth::Short,
            seen,
            Depth::Byte,
            components,
            source,
            first,
            count,
            row,
        ),
        (Depth::Short, Depth::Short) => turn_depths(
            Depth::Short,
            seen,
            Depth::Short,
            components,
            source,
            first,
            count,
            row,
        ),
    }
}

// The components are constants in each arm, as the depths are where this is called, so that the loop
// decides nothing.
#[inline(always)]
fn turn_depths(
    from: Depth,
    seen: Components,
    depth: Depth,
    components: Components,
    source: &[u8],
    first: usize,
    count: usize,
    row: &mut [u8],
)
    requires source { length source.now ≡ count * pixel_size from seen }
    requires room { (first + count) * pixel_size depth components ≤ length row.old }
    ensures painted { (i : ℕ) → i < count → pixel_in depth components row.new (first + i)
        ≡ convert from depth components (pixel_in from seen source.now i) }
    ensures others { SameBeside depth components first count row.old row.new }
{
    match (seen, components) {
        (Components::Rgba, Components::Rgba) => turn_each(
            from,
            Components::Rgba,
            depth,
            Components::Rgba,
            source,
            first,
            count,
            row,
        ),
        (Components::Rgba, Components::Alpha) => turn_each(
            from,
            Components::Rgba,
            depth,
            Components::Alpha,
            source,
            first,
            count,
            row,
        ),
        (Components::Alpha, Components::Rgba) => turn_each(
            from,
            Components::Alpha,
            depth,
            Components::Rgba,
            source,
            first,
            count,
            row,
        ),
        (Components::Alpha, Components::Alpha) => turn_each(
            from,
            Components::Alpha,
            depth,
            Components::Alpha,
            source,
            first,
            count,
            row,
        ),
    }
}

#[inline(always)]
fn turn_each(
    from: Depth,
    seen: Components,
    depth: Depth,
    components: Components,
    source: &[u8],
    first: usize,
    count: usize,
    row: &mut [u8],
)
    requires source { length source.now ≡ count * pixel_size from seen }
    requires room { (first + count) * pixel_size depth components ≤ length row.old }
    ensures painted { (i : ℕ) → i < count → pixel_in depth components row.new (first + i)
        ≡ convert from depth components (pixel_in from seen source.now i) }
    ensures others { SameBeside depth components first count row.old row.new }
{
    for i in 0..count {
        let p = pixel(from, seen, source, i);
        let q = p.convert(from, depth, components);
        set_pixel(depth, row, first + i, q);
    }
}

// The same through conversions of any kind, one after another at each pixel.
fn convert_each(
    from: Depth,
    seen: Components,
    through: &Steps,
    depth: Depth,
    components: Components,
    source: &[u8],
    first: usize,
    count: usize,
    row: &mut [u8],
)
    requires source { length source.now ≡ count * pixel_size from seen }
    requires room { (first + count) * pixel_size depth components ≤ length row.old }
    ensures painted { (i : ℕ) → i < count → pixel_in depth components row.new (first + i)
        ≡ converted from through.now depth components (pixel_in from seen source.now i) }
    ensures others { SameBeside depth components first count row.old row.new }
{
    for i in 0..count {
        let p = pixel(from, seen, source, i);
        let q = through.convert(p, from, depth, components);
        set_pixel(depth, row, first + i, q);
    }
}
