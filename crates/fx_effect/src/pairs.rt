//! The loop over the pixels of a window that each are made of the pixels of two clips at their own place.
ghost use Rattle.std.specs.Prelude.{◌≡◌, ◌*◌, length, IfOk, OnOk, vec_len};
ghost use Rattle.fx_base.specs.Rect.{columns};
ghost use Rattle.fx_pixel.specs.declared.Depth.{Depth};
ghost use Rattle.fx_pixel.specs.declared.Depth.TheVariants.{Byte};
ghost use Rattle.fx_pixel.specs.declared.Components.TheVariants.{Rgba};
ghost use Rattle.fx_pixel.specs.declared.Pixel.{Pixel};
ghost use Rattle.fx_pixel.specs.Pixel.{IsOfDepth, components_of};
ghost use Rattle.fx_image.specs.Part.{IsPart, SamePart, IsWritten};
ghost use Rattle.fx_image.specs.Stored.{pixel_size};
ghost use Rattle.fx_effect.specs.Rows.{MakesPairs};
ghost use Rattle.fx_effect.specs.Pairs.{ShowsPair, pair_pixel};

use crate::points::EIGHT;
use crate::{Inputs, RowKernel, fill_with};
use fx_base::{Memory, Rect};
use fx_image::Part;
use fx_image::samples::{pixel, pixel_size, set_pixel};
use fx_pixel::{Components, Depth, Pixel};
use std::alloc::Global;
use std::simd::prelude::*;

/// A clip at a frame.
#[derive(Clone, Copy)]
pub struct Reading {
    pub clip: u32,
    pub frame: i64,
}

/// What makes a pixel of the pixels of two clips at its own place.
pub trait PairKernel {
    // what it asks of its own parameters
    ghost is_ready: { Self → Type 0 };

    // the pixel that it makes of two
    ghost of: { Self → Depth → Pixel → Pixel → Pixel };

    fn pair(&self, depth: Depth, p: Pixel, q: Pixel) -> Pixel
        requires ready { is_ready self.now }
        requires first { IsOfDepth depth p }
        requires second { IsOfDepth depth q }
        requires same { components_of q ≡ components_of p }
        ensures value { result ≡ of self.now depth p q }
        ensures depth { IsOfDepth depth result }
        ensures components { components_of result ≡ components_of p };

    /// What it makes of eight pixels and eight others at once: each vector has r, g, b and a one after another.
    fn pair_eight(&self, first: u8x32, second: u8x32) -> u8x32
        requires { is_ready self.now }
        ensures { MakesPairs Byte Rgba (of self.now Byte) first second result }
    {
        let mut bytes = first.to_array();
        let other = second.to_array();
        for i in 0..8 {
            let p = pixel(Depth::Byte, Components::Rgba, &bytes, i);
            let q = pixel(Depth::Byte, Components::Rgba, &other, i);
            set_pixel(Depth::Byte, &mut bytes, i, self.pair(Depth::Byte, p, q));
        }
        u8x32::from_array(bytes)
    }
}

// Makes each pixel of a row anew, with the pixel at its place in another.
fn pair_row<K: PairKernel>(
    kernel: &K,
    depth: Depth,
    components: Components,
    other: &[u8],
    row: &mut [u8],
)
    requires ready { K.is_ready kernel.now }
    requires long { length other.now ≡ length row.old }
    ensures { MakesPairs depth components (K.of kernel.now depth) row.old other.now row.new }
{
    match (depth, components) {
        (Depth::Byte, Components::Rgba) => pair_eights(kernel, other, row),
        (Depth::Byte, Components::Alpha) => {
            pair_each(kernel, Depth::Byte, Components::Alpha, other, row)
        }
        (Depth::Short, Components::Rgba) => {
            pair_each(kernel, Depth::Short, Components::Rgba, other, row)
        }
        (Depth::Short, Components::Alpha) => {
            pair_each(kernel, Depth::Short, Components::Alpha, other, row)
        }
    }
}

#[inline(always)]
fn pair_each<K: PairKernel>(
    kernel: &K,
    depth: Depth,
    components: Components,
    other: &[u8],
    row: &mut [u8],
)
    requires ready { K.is_ready kernel.now }
    requires long { length other.now ≡ length row.old }
    ensures { MakesPairs depth components (K.of kernel.now depth) row.old other.now row.new }
{
    for i in 0..row.len() / pixel_size(depth, components) {
        let p = pixel(depth, components, row, i);
        let q = pixel(depth, components, other, i);
        set_pixel(depth, row, i, kernel.pair(depth, p, q));
    }
}

// The same for bytes of r, g, b and a: eight pixels at once, and those that are left one by one.
fn pair_eights<K: PairKernel>(kernel: &K, other: &[u8], row: &mut [u8])
    requires ready { K.is_ready kernel.now }
    requires long { length other.now ≡ length row.old }
    ensures { MakesPairs Byte Rgba (K.of kernel.now Byte) row.old other.now row.new }
{
    let whole = row.len() / EIGHT;
    for block in 0..whole {
        let at = EIGHT * block;
        let first = u8x32::from_slice(&row[at..]);
        let second = u8x32::from_slice(&other[at..]);
        let made = kernel.pair_eight(first, second);
        made.copy_to_slice(&mut row[at..]);
    }
    let rest = EIGHT * whole;
    pair_each(
        kernel,
        Depth::Byte,
        Components::Rgba,
        &other[rest..],
        &mut row[rest..],
    );
}

// The rows of a render.
#[derive(Drop)]
struct PairRows<'a, 'b, K> {
    kernel: &'a K,
    inputs: &'a Inputs<'b>,
    first: Reading,
    second: Reading,
}

impl<'a, 'b, K: PairKernel> RowKernel for PairRows<'a, 'b, K> {
    ghost makes = { λ k depth c. K.is_ready k.kernel.now × ShowsPair k.inputs.now k.first k.second depth c };

    ghost pixel = { λ k depth c x y. pair_pixel (K.of k.kernel.now depth) k.inputs.now k.first k.second x y };

    ghost byte_count = { λ k depth c rect. columns rect * pixel_size depth c };

    fn fill_row(
        &self,
        depth: Depth,
        components: Components,
        rect: Rect,
        y: i64,
        _cells: &mut [u64],
        bytes: &mut [u8],
        row: &mut [u8],
    ) {
        let (first, second) = (self.first, self.second);
        self.inputs.read_row(first.clip, first.frame, rect, y, row);
        let other = self
            .inputs
            .lend_row(second.clip, second.frame, rect, y, bytes);
        pair_row(self.kernel, depth, components, other, row);
    }
}

/// Fills a part with what the kernel makes of two clips, each at a frame. At want of memory the part is
/// as it was.
pub fn fill_pairs<K: PairKernel>(
    alloc: Global,
    kernel: &K,
    inputs: &Inputs<'_>,
    first: Reading,
    second: Reading,
    out: &mut Part<'_>,
) -> Result<(), Memory>
    requires ready { K.is_ready kernel.now }
    requires part { IsPart out.old }
    requires shows { let image = out.old.image.now in
        ShowsPair inputs.now first second image.depth image.components }
    ensures same_part { SamePart out.old out.new }
    ensures written { let made = K.of kernel.now out.old.image.now.depth in
        OnOk result (IsWritten out.old out.new (pair_pixel made inputs.now first second)) }
{
    let mut bytes = blank_bytes(alloc, out.row_bytes())?;
    let rows = PairRows {
        kernel,
        inputs,
        first,
        second,
    };
    fill_with(&rows, &mut [], bytes.as_mut_slice(), out);
    Ok(())
}

// Bytes to work with.
fn blank_bytes(alloc: Global, count: usize) -> Result<Vec<u8>, Memory>
    ensures { IfOk result (λ bytes. vec_len bytes ≡ count) }
{
    let mut bytes = Vec::new(alloc);
    bytes.resize(count, 0)?;
    Ok(bytes)
}
