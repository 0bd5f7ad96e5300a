//! The effect mirror.
ghost use Rattle.std.specs.Prelude.{◌≡◌, ◌≤◌, ◌<◌, ◌+◌, ◌-◌, ◌*◌, ◌/◌, ℕ, ℤ, pos, length};
ghost use Rattle.fx_base.specs.Rect.{columns, IsUpTo, IsStep};
ghost use Rattle.fx_pixel.specs.declared.Components.TheVariants.{Rgba};
ghost use Rattle.fx_image.specs.Stored.{pixel_size, pixel_in};
ghost use Rattle.fx_effect.specs.Asked.{MayRender};
ghost use Rattle.fx_effect.specs.Meaning.{rendered};
ghost use Rattle.fx_effect.specs.Shape.{IsLawful, IsProject};
ghost use Rattle.fx_move.specs.Mirror.{mirror, mirror_shape, mirrored, turns_columns, opposite};
ghost use Rattle.fx_move.specs.MirrorLaws.{mirror_laws};

use fx_base::{Memory, Rect};
use fx_core::Ticket;
use fx_effect::{
    Context, Description, Identity, ImageEffect, Inputs, Reply, RowKernel, Safety, Values,
    asked_region, clip_set, fill_with, region_of,
};
use fx_gate::Hold;
use fx_image::Part;
use fx_image::samples::{pixel, pixel_size, set_pixel};
use fx_params::ParamDef;
use fx_pixel::{Components, Depth};
use fx_props::names::REGION;
use fx_props::{PropSet, write_interest, write_region};
use std::alloc::Global;
use std::simd::prelude::*;

/// The source with its columns in the other order, or its rows, within the project's extent: a filter. Its
/// parameter axis is x for the columns and y for the rows.
#[derive(Clone, Copy, Debug, PartialEq, Eq)]
pub struct Mirror;

// The place of the clip Source.
const SOURCE: u32 = 0;

// How many bytes are turned at once.
const LANES: usize = 32;

impl ImageEffect for Mirror {
    ghost meaning = { λ _. mirror };

    ghost laws = { λ _. mirror_laws };

    fn describe(&self, alloc: Global, descriptor: &mut PropSet) -> Result<Reply, Memory> {
        let description = Description {
            label: "mirror",
            contexts: &[Context::Filter, Context::General],
            depths: &[Depth::Byte, Depth::Short],
            temporal: false,
            tiles: true,
            safety: Safety::FullySafe,
        };
        description.write(alloc, descriptor)?;
        Ok(Reply::Ok)
    }

    fn describe_in_context(
        &self,
        alloc: Global,
        _context: Context,
        clips: &mut Vec<PropSet>,
        params: &mut Vec<ParamDef>,
    ) -> Result<Reply, Memory> {
        let components = [Components::Rgba, Components::Alpha];
        clips.push(clip_set(alloc, "Source", false, &components)?)?;
        params.push(ParamDef::choice(alloc, "axis", &["x", "y"], 0)?)?;
        Ok(Reply::Ok)
    }

    fn get_region_of_definition(
        &self,
        alloc: Global,
        values: &Values,
        regions: &[Rect],
        _in_args: &PropSet,
        out_args: &mut PropSet,
    ) -> Result<Reply, Memory> {
        let region = mirrored(values, region_of(regions, 0));
        write_region(alloc, out_args, REGION, region)?;
        Ok(Reply::Ok)
    }

    fn get_regions_of_interest(
        &self,
        alloc: Global,
        values: &Values,
        in_args: &PropSet,
        out_args: &mut PropSet,
    ) -> Result<Reply, Memory> {
        let region = mirrored(values, asked_region(in_args));
        write_interest(alloc, out_args, &["Source"], &[region])?;
        Ok(Reply::Ok)
    }

    fn get_frames_needed(
        &self,
        _alloc: Global,
        _values: &Values,
        _in_args: &PropSet,
        _out_args: &mut PropSet,
    ) -> Result<Reply, Memory> {
        Ok(Reply::Default)
    }

    fn is_identity(&self, _values: &Values, _in_args: &PropSet) -> Identity {
        Identity::No
    }

    fn render(
        &self,
        alloc: Global,
        values: &Values,
        _in_args: &PropSet,
        inputs: &Inputs<'_>,
        _hold: &mut Hold,
        ticket: &mut Ticket,
        out: &mut Part<'_>,
    ) -> Result<(), Memory> {
        let mut bytes = Vec::new(alloc);
        bytes.resize(out.row_bytes(), 0)?;
        let rows = MirrorRows { values, inputs };
        fill_with(&rows, &mut [], bytes.as_mut_slice(), out);
        ticket.stamped = true;
        Ok(())
    }
}

// Whether the columns are turned, and not the rows.
fn turns_columns(values: &Values) -> bool
    ensures { result ≡ turns_columns values.now }
{
    values.number(0) == 0
}

// The column or row that has this one's place, where there are `count` of them.
fn opposite(count: i64, place: i64) -> i64
    requires count { IsStep 8192 count }
    requires place { IsStep 2147483648 place }
    ensures { result ≡ opposite count place }
{
    count - 1 - place
}

// The rectangle that a rectangle's pixels read.
fn mirrored(values: &Values, rect: Rect) -> Rect
    requires project { IsProject values.now.project }
    requires near { IsUpTo 2147483648 rect }
    ensures { result ≡ mirrored values.now rect }
{
    let project = values.project;
    if turns_columns(values) {
        Rect::of(project.x2 - rect.x2, rect.y1, project.x2 - rect.x1, rect.y2)
    } else {
        Rect::of(rect.x1, project.y2 - rect.y2, rect.x2, project.y2 - rect.y1)
    }
}

// The rows of a render.
#[derive(Drop)]
struct MirrorRows<'a, 'b> {
    values: &'a Values,
    inputs: &'a Inputs<'b>,
}

impl<'a, 'b> RowKernel for MirrorRows<'a, 'b> {
    ghost makes = { λ k depth c. MayRender mirror_shape k.values.now k.inputs.now depth c };

    ghost pixel = { λ k depth c x y. rendered mirror k.values.now k.inputs.now depth c x y };

    ghost byte_count = { λ k depth c rect. columns rect * pixel_size depth c };

    fn fill_row(
        &self,
        depth: Depth,
        components: Components,
        rect: Rect,
        y: i64,
        _cells: &mut [u64],
        bytes: &mut [u8],
        row: &mut [u8],
    ) {
        let frame = self.values.frame;
        let there = mirrored(self.values, rect);
        if turns_columns(self.values) {
            self.inputs.read_row(SOURCE, frame, there, y, bytes);
            turn_pixels(depth, components, bytes, row);
        } else {
            let project = self.values.project;
            let y = opposite(project.y2, y);
            self.inputs.read_row(SOURCE, frame, there, y, row);
        }
    }
}

// Writes the pixels of one row into another in the other order.
fn turn_pixels(depth: Depth, components: Components, source: &[u8], row: &mut [u8])
    requires { length row.old ≡ length source.now }
    ensures { (n i : ℕ) → n * pixel_size depth components ≡ length source.now → i < n
        → pixel_in depth components row.new i ≡ pixel_in depth components source.now ((n - 1) - i) }
{
    match (depth, components) {
        (Depth::Byte, Components::Rgba) => turn_blocks(Depth::Byte, source, row),
        (Depth::Byte, Components::Alpha) => {
            turn_each(Depth::Byte, Components::Alpha, source, row, 0);
        }
        (Depth::Short, Components::Rgba) => turn_blocks(Depth::Short, source, row),
        (Depth::Short, Components::Alpha) => {
            turn_each(Depth::Short, Components::Alpha, source, row, 0);
        }
    }
}

// The same for pixels of r, g, b and a: 32 bytes at once, and the pixels that are left one by one. The depth is a
// constant, so that the loop decides nothing of it.
#[inline(always)]
fn turn_blocks(depth: Depth, source: &[u8], row: &mut [u8])
    requires { length row.old ≡ length source.now }
    ensures { (n i : ℕ) → n * pixel_size depth Rgba ≡ length source.now → i < n
        → pixel_in depth Rgba row.new i ≡ pixel_in depth Rgba source.now ((n - 1) - i) }
{
    let whole = source.len() / LANES;
    for block in 0..whole {
        let at = LANES * block;
        let pixels = u8x32::from_slice(&source[source.len() - LANES - at..]);
        turned(depth, pixels).copy_to_slice(&mut row[at..]);
    }
    let first = LANES / pixel_size(depth, Components::Rgba) * whole;
    turn_each(depth, Components::Rgba, source, row, first);
}

// The pixels of r, g, b and a that 32 bytes have, in the other order.
#[inline(always)]
fn turned(depth: Depth, pixels: u8x32) -> u8x32
    ensures len { length result ≡ 32 }
    ensures value { let count = 32 / pixel_size depth Rgba in (i : ℕ) → i < count
        → pixel_in depth Rgba result i ≡ pixel_in depth Rgba pixels ((count - 1) - i) }
{
    match depth {
        Depth::Byte => pixels.swizzle([
            28, 29, 30, 31, 24, 25, 26, 27, 20, 21, 22, 23, 16, 17, 18, 19, 12, 13, 14, 15, 8, 9,
            10, 11, 4, 5, 6, 7, 0, 1, 2, 3,
        ]),
        Depth::Short => pixels.swizzle([
            24, 25, 26, 27, 28, 29, 30, 31, 16, 17, 18, 19, 20, 21, 22, 23, 8, 9, 10, 11, 12, 13,
            14, 15, 0, 1, 2, 3, 4, 5, 6, 7,
        ]),
    }
}

// The same from the pixel with number `first` on. The depth and the components are constants, so that the loop decides
// nothing of them.
#[inline(always)]
fn turn_each(depth: Depth, components: Components, source: &[u8], row: &mut [u8], first: usize)
    requires { length row.old ≡ length source.now }
    ensures done { (n i : ℕ) → n * pixel_size depth components ≡ length source.now → i < n → first ≤ i
        → pixel_in depth components row.new i ≡ pixel_in depth components source.now ((n - 1) - i) }
    ensures left { (i : ℕ) → i < first
        → pixel_in depth components row.new i ≡ pixel_in depth components row.old i }
{
    let count = source.len() / pixel_size(depth, components);
    for i in first..count {
        set_pixel(
            depth,
            row,
            i,
            pixel(depth, components, source, count - 1 - i),
        );
    }
}
