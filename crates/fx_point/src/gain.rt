//! The effect gain.
ghost use Rattle.std.specs.Prelude.{◌≡◌, ◌≤◌, ◌<◌, ◌*◌, ◌≤ℤ◌, min, pos, ℕ, slice_index};
ghost use Rattle.fx_pixel.specs.Pixel.{greatest};
ghost use Rattle.fx_kernel.specs.Blends.{in_units};
ghost use Rattle.fx_point.specs.Gain.{gain, gained, gained_pixel};
ghost use Rattle.fx_point.specs.GainLaws.{gain_laws};

use crate::filter::describe;
use crate::lanes::recoloured;
use fx_base::{Fix, Memory, Rect};
use fx_core::Ticket;
use fx_effect::{
    Context, Identity, ImageEffect, Inputs, PointKernel, Reply, Values, clip_set, fill_points,
};
use fx_gate::Hold;
use fx_image::Part;
use fx_kernel::in_units;
use fx_params::ParamDef;
use fx_pixel::{Components, Depth, Pixel};
use fx_props::PropSet;
use std::alloc::Global;
use std::simd::prelude::*;

/// Multiplies r, g and b of an RGBA pixel, and keeps its a; multiplies a of an Alpha pixel: a filter. It
/// has one clip, Source, and the parameter gain, a number from 0 to 16.
#[derive(Clone, Copy, Debug, PartialEq, Eq)]
pub struct Gain;

// The place of the clip Source.
const SOURCE: u32 = 0;

// The numbers 0, 1 and 16.
const NONE: Fix = Fix { raw: 0 };

const ONE: Fix = Fix { raw: 65536 };

const MOST: Fix = Fix { raw: 1048576 };

impl ImageEffect for Gain {
    ghost meaning = { λ _. gain };

    ghost laws = { λ _. gain_laws };

    fn describe(&self, alloc: Global, descriptor: &mut PropSet) -> Result<Reply, Memory> {
        describe(alloc, "gain", &[Depth::Byte, Depth::Short], descriptor)
    }

    fn describe_in_context(
        &self,
        alloc: Global,
        _context: Context,
        clips: &mut Vec<PropSet>,
        params: &mut Vec<ParamDef>,
    ) -> Result<Reply, Memory> {
        let components = [Components::Rgba, Components::Alpha];
        clips.push(clip_set(alloc, "Source", false, &components)?)?;
        params.push(ParamDef::fix(alloc, "gain", NONE, MOST, ONE)?)?;
        Ok(Reply::Ok)
    }

    fn get_region_of_definition(
        &self,
        _alloc: Global,
        _values: &Values,
        _regions: &[Rect],
        _in_args: &PropSet,
        _out_args: &mut PropSet,
    ) -> Result<Reply, Memory> {
        // The default is the region of Source, and so is that of the general context.
        Ok(Reply::Default)
    }

    fn get_regions_of_interest(
        &self,
        _alloc: Global,
        _values: &Values,
        _in_args: &PropSet,
        _out_args: &mut PropSet,
    ) -> Result<Reply, Memory> {
        // A pixel reads Source at its own place, which the default region of interest has.
        Ok(Reply::Default)
    }

    fn get_frames_needed(
        &self,
        _alloc: Global,
        _values: &Values,
        _in_args: &PropSet,
        _out_args: &mut PropSet,
    ) -> Result<Reply, Memory> {
        Ok(Reply::Default)
    }

    fn is_identity(&self, values: &Values, _in_args: &PropSet) -> Identity {
        if values.number(0) == ONE.raw {
            Identity::Same {
                clip: SOURCE,
                frame: values.frame,
            }
        } else {
            Identity::No
        }
    }

    fn render(
        &self,
        _alloc: Global,
        values: &Values,
        _in_args: &PropSet,
        inputs: &Inputs<'_>,
        _hold: &mut Hold,
        ticket: &mut Ticket,
        out: &mut Part<'_>,
    ) -> Result<(), Memory> {
        let level = values.number(0);
        fill_points(&Gaining { level }, inputs, SOURCE, values.frame, out);
        ticket.stamped = true;
        Ok(())
    }
}

// What is made of a pixel, by the gain in units of 1/65536.
#[derive(Clone, Copy)]
struct Gaining {
    level: i64,
}

impl PointKernel for Gaining {
    ghost is_ready = { λ k. (pos 0 ≤ℤ k.level) × (k.level ≤ℤ pos 1048576) };

    ghost of = { λ k depth p. gained_pixel k.level (greatest depth) p };

    fn point(&self, depth: Depth, p: Pixel) -> Pixel {
        match p {
            Pixel::Rgba { r, g, b, a } => Pixel::Rgba {
                r: gained(depth, self.level, r),
                g: gained(depth, self.level, g),
                b: gained(depth, self.level, b),
                a,
            },
            Pixel::Alpha { a } => Pixel::Alpha {
                a: gained(depth, self.level, a),
            },
        }
    }

    fn eight(&self, pixels: u8x32) -> u8x32 {
        recoloured(pixels, times(pixels, self.level as u32))
    }
}

#[inline(always)]
fn gained(depth: Depth, level: i64, c: u16) -> u16
    requires { (pos 0 ≤ℤ level) × (level ≤ℤ pos 1048576) }
    ensures value { result ≡ gained (greatest depth) level c }
    ensures bound { result ≤ greatest depth }
{
    let made = in_units(u64::from(c) * level as u64);
    made.min(u64::from(depth.greatest())) as u16
}

// Each byte by the gain, and no greater than the greatest.
#[inline(always)]
fn times(lanes: u8x32, level: u32) -> u8x32
    requires { level ≤ 1048576 }
    ensures { (j : ℕ) → j < 32 → slice_index result j ≡ min 255 (in_units (slice_index lanes j * level)) }
{
    let made = (lanes.cast::<u32>() * u32x32::splat(level) + u32x32::splat(32768)) >> 16;
    made.simd_min(u32x32::splat(255)).cast::<u8>()
}
