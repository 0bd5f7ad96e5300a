//! The effect crop.
ghost use Rattle.std.specs.Prelude.{◌≡◌, ◌<◌, ◌+◌, ◌*◌, ◌≤◌, ℕ, pos, ◌+ℤ◌, [], ◌∷◌, ◌++◌, length, OnOk, if◌then◌else◌};
ghost use Rattle.fx_base.specs.Rect.{within, columns};
ghost use Rattle.fx_pixel.specs.Pixel.{zero, IsOfDepth, components_of};
ghost use Rattle.fx_image.specs.Stored.{pixel_size, pixel_in};
ghost use Rattle.fx_effect.specs.Asked.{MayRender};
ghost use Rattle.fx_effect.specs.Meaning.{rendered};
ghost use Rattle.fx_effect.specs.Rows.{IsRow};
ghost use Rattle.fx_effect.specs.Shape.{IsLawful};
ghost use Rattle.fx_params.specs.Def.{int_def};
ghost use Rattle.fx_move.specs.Crop.{crop, crop_shape, crop_rect};
ghost use Rattle.fx_move.specs.CropLaws.{crop_laws};

use fx_base::{Memory, Rect, offset};
use fx_core::Ticket;
use fx_effect::{
    Context, Description, Identity, ImageEffect, Inputs, Reply, RowKernel, Safety, Values,
    asked_region, asked_window, clip_set, fill_with, region_of,
};
use fx_gate::Hold;
use fx_image::Part;
use fx_image::samples::{pixel, set_pixel};
use fx_params::ParamDef;
use fx_pixel::{Components, Depth, Pixel};
use fx_props::names::REGION;
use fx_props::{PropSet, write_interest, write_region};
use std::alloc::Global;

/// The source inside a rectangle, and zero outside it: a filter. Its parameters are the rectangle's first
/// column x and row y, from -16,384 to 16,384, and its width and height, from 0 to 16,384, in pixels.
#[derive(Clone, Copy, Debug, PartialEq, Eq)]
pub struct Crop;

// The place of the clip Source.
const SOURCE: u32 = 0;

impl ImageEffect for Crop {
    ghost meaning = { λ _. crop };

    ghost laws = { λ _. crop_laws };

    fn describe(&self, alloc: Global, descriptor: &mut PropSet) -> Result<Reply, Memory> {
        let description = Description {
            label: "crop",
            contexts: &[Context::Filter, Context::General],
            depths: &[Depth::Byte, Depth::Short],
            temporal: false,
            tiles: true,
            safety: Safety::FullySafe,
        };
        description.write(alloc, descriptor)?;
        Ok(Reply::Ok)
    }

    fn describe_in_context(
        &self,
        alloc: Global,
        _context: Context,
        clips: &mut Vec<PropSet>,
        params: &mut Vec<ParamDef>,
    ) -> Result<Reply, Memory> {
        let components = [Components::Rgba, Components::Alpha];
        clips.push(clip_set(alloc, "Source", false, &components)?)?;
        add_int(alloc, params, "x", -16384, 16384, 0)?;
        add_int(alloc, params, "y", -16384, 16384, 0)?;
        add_int(alloc, params, "width", 0, 16384, 16384)?;
        add_int(alloc, params, "height", 0, 16384, 16384)?;
        Ok(Reply::Ok)
    }

    fn get_region_of_definition(
        &self,
        alloc: Global,
        values: &Values,
        regions: &[Rect],
        _in_args: &PropSet,
        out_args: &mut PropSet,
    ) -> Result<Reply, Memory> {
        let region = region_of(regions, 0).meet(crop_rect(values));
        write_region(alloc, out_args, REGION, region)?;
        Ok(Reply::Ok)
    }

    fn get_regions_of_interest(
        &self,
        alloc: Global,
        values: &Values,
        in_args: &PropSet,
        out_args: &mut PropSet,
    ) -> Result<Reply, Memory> {
        let region = asked_region(in_args).meet(crop_rect(values));
        write_interest(alloc, out_args, &["Source"], &[region])?;
        Ok(Reply::Ok)
    }

    fn get_frames_needed(
        &self,
        _alloc: Global,
        _values: &Values,
        _in_args: &PropSet,
        _out_args: &mut PropSet,
    ) -> Result<Reply, Memory> {
        Ok(Reply::Default)
    }

    fn is_identity(&self, values: &Values, in_args: &PropSet) -> Identity {
        if asked_window(in_args).within(crop_rect(values)) {
            Identity::Same {
                clip: SOURCE,
                frame: values.frame,
            }
        } else {
            Identity::No
        }
    }

    fn render(
        &self,
        _alloc: Global,
        values: &Values,
        _in_args: &PropSet,
        inputs: &Inputs<'_>,
        _hold: &mut Hold,
        ticket: &mut Ticket,
        out: &mut Part<'_>,
    ) -> Result<(), Memory> {
        let crop = crop_rect(values);
        let rows = CropRows {
            values,
            inputs,
            crop,
        };
        fill_with(&rows, &mut [], &mut [], out);
        ticket.stamped = true;
        Ok(())
    }
}

// Adds the parameter of a whole number.
fn add_int(
    alloc: Global,
    params: &mut Vec<ParamDef>,
    name: &str,
    least: i64,
    greatest: i64,
    start: i64,
) -> Result<(), Memory>
    ensures { OnOk result (params.new.items ≡ params.old.items ++ int_def name.now least greatest start ∷ []) }
{
    params.push(ParamDef::int(alloc, name, least, greatest, start)?)?;
    Ok(())
}

// The rectangle that is kept.
fn crop_rect(values: &Values) -> Rect
    requires { IsLawful crop_shape values.now }
    ensures { result ≡ crop_rect values.now }
{
    let x = values.number(0);
    let y = values.number(1);
    let width = values.number(2);
    let height = values.number(3);
    Rect::of(x, y, x + width, y + height)
}

// The rows of a render.
#[derive(Drop)]
struct CropRows<'a, 'b> {
    values: &'a Values,
    inputs: &'a Inputs<'b>,
    crop: Rect,
}

impl<'a, 'b> RowKernel for CropRows<'a, 'b> {
    ghost makes = { λ k depth c.
        MayRender crop_shape k.values.now k.inputs.now depth c × (k.crop ≡ crop_rect k.values.now) };

    ghost pixel = { λ k depth c x y. rendered crop k.values.now k.inputs.now depth c x y };

    fn fill_row(
        &self,
        depth: Depth,
        components: Components,
        rect: Rect,
        y: i64,
        _cells: &mut [u64],
        _bytes: &mut [u8],
        row: &mut [u8],
    ) {
        self.inputs
            .read_row(SOURCE, self.values.frame, rect, y, row);
        clear_outside(depth, components, self.crop, rect, y, row);
    }
}

// Clears those pixels of row y of the rectangle that `keep` doesn't hold.
fn clear_outside(
    depth: Depth,
    components: Components,
    keep: Rect,
    rect: Rect,
    y: i64,
    row: &mut [u8],
)
    requires { IsRow depth components rect y row.old }
    ensures { (i : ℕ) → i < columns rect → pixel_in depth components row.new i
        ≡ (if within keep (rect.x1 +ℤ pos i) y then pixel_in depth components row.old i else zero components) }
{
    let left = rect.x1;
    for i in 0..offset(left, rect.x2) {
        let p = kept(depth, components, keep, left + i as i64, y, row, i);
        set_pixel(depth, row, i, p);
    }
}

// Pixel i of a row, which lies at (x, y), or zero where `keep` doesn't hold that.
#[inline(always)]
fn kept(
    depth: Depth,
    components: Components,
    keep: Rect,
    x: i64,
    y: i64,
    row: &[u8],
    i: usize,
) -> Pixel
    requires { i * pixel_size depth components + pixel_size depth components ≤ length row.now }
    ensures value { result ≡ (if within keep x y then pixel_in depth components row.now i else zero components) }
    ensures depth { IsOfDepth depth result }
    ensures components { components_of result ≡ components }
{
    if keep.holds(x, y) {
        pixel(depth, components, row, i)
    } else {
        Pixel::zero(components)
    }
}
