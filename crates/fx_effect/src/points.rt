//! The loop over the pixels of a window that each are made of the pixel at their own place.
ghost use Rattle.std.specs.Prelude.{◌≡◌, length};
ghost use Rattle.fx_pixel.specs.declared.Depth.{Depth};
ghost use Rattle.fx_pixel.specs.declared.Depth.TheVariants.{Byte};
ghost use Rattle.fx_pixel.specs.declared.Components.TheVariants.{Rgba};
ghost use Rattle.fx_pixel.specs.declared.Pixel.{Pixel};
ghost use Rattle.fx_pixel.specs.Pixel.{IsOfDepth, components_of};
ghost use Rattle.fx_image.specs.Part.{IsPart, IsWritten};
ghost use Rattle.fx_effect.specs.Tap.{tap};
ghost use Rattle.fx_effect.specs.Rows.{MakesRow};
ghost use Rattle.fx_effect.specs.Given.{input_pixel, ShowsClip};

use crate::{Inputs, RowKernel, fill_with};
use fx_base::Rect;
use fx_image::Part;
use fx_image::samples::{pixel, pixel_size, set_pixel};
use fx_pixel::{Components, Depth, Pixel};
use std::simd::prelude::*;

/// What makes a pixel of the pixel at its own place.
pub trait PointKernel {
    // what it asks of its own parameters
    ghost is_ready: { Self → Type 0 };

    // the pixel that it makes of one
    ghost of: { Self → Depth → Pixel → Pixel };

    fn point(&self, depth: Depth, p: Pixel) -> Pixel
        requires ready { is_ready self.now }
        requires pixel { IsOfDepth depth p }
        ensures value { result ≡ of self.now depth p }
        ensures depth { IsOfDepth depth result }
        ensures components { components_of result ≡ components_of p };

    /// What it makes of eight pixels at once, of which the vector has r, g, b and a one after another.
    fn eight(&self, pixels: u8x32) -> u8x32
        requires { is_ready self.now }
        ensures { MakesRow Byte Rgba (of self.now Byte) pixels result }
    {
        let mut bytes = pixels.to_array();
        for i in 0..8 {
            let p = pixel(Depth::Byte, Components::Rgba, &bytes, i);
            set_pixel(Depth::Byte, &mut bytes, i, self.point(Depth::Byte, p));
        }
        u8x32::from_array(bytes)
    }
}

// How many bytes eight pixels have.
pub(crate) const EIGHT: usize = 32;

// Makes each pixel of a row anew.
fn each_pixel<K: PointKernel>(kernel: &K, depth: Depth, components: Components, row: &mut [u8])
    requires { K.is_ready kernel.now }
    ensures { MakesRow depth components (K.of kernel.now depth) row.old row.new }
{
    match (depth, components) {
        (Depth::Byte, Components::Rgba) => each(kernel, Depth::Byte, Components::Rgba, row),
        (Depth::Byte, Components::Alpha) => each(kernel, Depth::Byte, Components::Alpha, row),
        (Depth::Short, Components::Rgba) => each(kernel, Depth::Short, Components::Rgba, row),
        (Depth::Short, Components::Alpha) => each(kernel, Depth::Short, Components::Alpha, row),
    }
}

// The same, for a depth and components that are known where it is called.
#[inline(always)]
fn each<K: PointKernel>(kernel: &K, depth: Depth, components: Components, row: &mut [u8])
    requires { K.is_ready kernel.now }
    ensures { MakesRow depth components (K.of kernel.now depth) row.old row.new }
{
    for i in 0..row.len() / pixel_size(depth, components) {
        let p = pixel(depth, components, row, i);
        set_pixel(depth, row, i, kernel.point(depth, p));
    }
}

// Makes each pixel of a row of the pixel at its place in another.
fn each_from<K: PointKernel>(
    kernel: &K,
    depth: Depth,
    components: Components,
    source: &[u8],
    row: &mut [u8],
)
    requires ready { K.is_ready kernel.now }
    requires long { length row.old ≡ length source.now }
    ensures { MakesRow depth components (K.of kernel.now depth) source.now row.new }
{
    match (depth, components) {
        (Depth::Byte, Components::Rgba) => by_eights(kernel, source, row),
        (Depth::Byte, Components::Alpha) => {
            each_of(kernel, Depth::Byte, Components::Alpha, source, row)
        }
        (Depth::Short, Components::Rgba) => {
            each_of(kernel, Depth::Short, Components::Rgba, source, row)
        }
        (Depth::Short, Components::Alpha) => {
            each_of(kernel, Depth::Short, Components::Alpha, source, row)
        }
    }
}

#[inline(always)]
fn each_of<K: PointKernel>(
    kernel: &K,
    depth: Depth,
    components: Components,
    source: &[u8],
    row: &mut [u8],
)
    requires ready { K.is_ready kernel.now }
    requires long { length row.old ≡ length source.now }
    ensures { MakesRow depth components (K.of kernel.now depth) source.now row.new }
{
    for i in 0..source.len() / pixel_size(depth, components) {
        let p = pixel(depth, components, source, i);
        set_pixel(depth, row, i, kernel.point(depth, p));
    }
}

// The same for bytes of r, g, b and a: eight pixels at once, and those that are left one by one.
fn by_eights<K: PointKernel>(kernel: &K, source: &[u8], row: &mut [u8])
    requires ready { K.is_ready kernel.now }
    requires long { length row.old ≡ length source.now }
    ensures { MakesRow Byte Rgba (K.of kernel.now Byte) source.now row.new }
{
    let whole = source.len() / EIGHT;
    for block in 0..whole {
        let at = EIGHT * block;
        let made = kernel.eight(u8x32::from_slice(&source[at..]));
        made.copy_to_slice(&mut row[at..]);
    }
    let rest = EIGHT * whole;
    each_of(
        kernel,
        Depth::Byte,
        Components::Rgba,
        &source[rest..],
        &mut row[rest..],
    );
}

// The rows of a render.
#[derive(Drop)]
struct PointRows<'a, 'b, K> {
    kernel: &'a K,
    inputs: &'a Inputs<'b>,
    clip: u32,
    frame: i64,
}

impl<'a, 'b, K: PointKernel> RowKernel for PointRows<'a, 'b, K> {
    ghost makes = { λ k depth c. K.is_ready k.kernel.now × ShowsClip k.inputs.now k.clip depth c };

    ghost pixel = { λ k depth c x y. K.of k.kernel.now depth (input_pixel k.inputs.now (tap k.clip k.frame x y)) };

    fn fill_row(
        &self,
        depth: Depth,
        components: Components,
        rect: Rect,
        y: i64,
        _cells: &mut [u64],
        _bytes: &mut [u8],
        row: &mut [u8],
    ) {
        match self.inputs.row(self.clip, self.frame, rect, y) {
            Some(source) => each_from(self.kernel, depth, components, source, row),
            None => {
                self.inputs.read_row(self.clip, self.frame, rect, y, row);
                each_pixel(self.kernel, depth, components, row);
            }
        }
    }
}

/// Fills a part with what the kernel makes of a clip at a frame.
pub fn fill_points<K: PointKernel>(
    kernel: &K,
    inputs: &Inputs<'_>,
    clip: u32,
    frame: i64,
    out: &mut Part<'_>,
)
    requires ready { K.is_ready kernel.now }
    requires part { IsPart out.old }
    requires shows { let image = out.old.image.now in ShowsClip inputs.now clip image.depth image.components }
    ensures written { let made = K.of kernel.now out.old.image.now.depth in
        IsWritten out.old out.new (λ x y. made (input_pixel inputs.now (tap clip frame x y))) }
{
    let rows = PointRows {
        kernel,
        inputs,
        clip,
        frame,
    };
    fill_with(&rows, &mut [], &mut [], out);
}
