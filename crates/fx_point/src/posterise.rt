//! The effect posterise.
ghost use Rattle.std.specs.Prelude.{◌≡◌, ◌≤◌, ◌<◌, ◌*◌, ◌≤ℤ◌, pos, ℕ, slice_index};
ghost use Rattle.fx_kernel.specs.Samples.{rounded};
ghost use Rattle.fx_point.specs.Levels.{HasLevels, HasSteps, of_depth, reciprocal};
ghost use Rattle.fx_point.specs.Posterise.{posterise, posterised};
ghost use Rattle.fx_point.specs.PosteriseLaws.{posterise_laws};

use crate::filter::describe;
use crate::lanes::recoloured;
use fx_base::{Memory, Rect};
use fx_core::Ticket;
use fx_effect::{
    Context, Identity, ImageEffect, Inputs, PointKernel, Reply, Values, clip_set, fill_points,
};
use fx_gate::Hold;
use fx_image::Part;
use fx_kernel::lanes;
use fx_params::ParamDef;
use fx_pixel::{Components, Depth, Pixel};
use fx_props::PropSet;
use std::alloc::Global;
use std::simd::prelude::*;

/// Brings each of r, g and b to the nearest of some levels, and keeps a: a filter for RGBA at byte depth.
/// It has one clip, Source, and the parameter levels, from 2 to 256.
#[derive(Clone, Copy, Debug, PartialEq, Eq)]
pub struct Posterise;

// The place of the clip Source.
const SOURCE: u32 = 0;

impl ImageEffect for Posterise {
    ghost meaning = { λ _. posterise };

    ghost laws = { λ _. posterise_laws };

    fn describe(&self, alloc: Global, descriptor: &mut PropSet) -> Result<Reply, Memory> {
        describe(alloc, "posterise", &[Depth::Byte], descriptor)
    }

    fn describe_in_context(
        &self,
        alloc: Global,
        _context: Context,
        clips: &mut Vec<PropSet>,
        params: &mut Vec<ParamDef>,
    ) -> Result<Reply, Memory> {
        clips.push(clip_set(alloc, "Source", false, &[Components::Rgba])?)?;
        params.push(ParamDef::int(alloc, "levels", 2, 256, 256)?)?;
        Ok(Reply::Ok)
    }

    fn get_region_of_definition(
        &self,
        _alloc: Global,
        _values: &Values,
        _regions: &[Rect],
        _in_args: &PropSet,
        _out_args: &mut PropSet,
    ) -> Result<Reply, Memory> {
        // The default is the region of Source, and so is that of the general context.
        Ok(Reply::Default)
    }

    fn get_regions_of_interest(
        &self,
        _alloc: Global,
        _values: &Values,
        _in_args: &PropSet,
        _out_args: &mut PropSet,
    ) -> Result<Reply, Memory> {
        // A pixel reads Source at its own place, which the default region of interest has.
        Ok(Reply::Default)
    }

    fn get_frames_needed(
        &self,
        _alloc: Global,
        _values: &Values,
        _in_args: &PropSet,
        _out_args: &mut PropSet,
    ) -> Result<Reply, Memory> {
        Ok(Reply::Default)
    }

    fn is_identity(&self, values: &Values, _in_args: &PropSet) -> Identity {
        if values.number(0) == 256 {
            Identity::Same {
                clip: SOURCE,
                frame: values.frame,
            }
        } else {
            Identity::No
        }
    }

    fn render(
        &self,
        _alloc: Global,
        values: &Values,
        _in_args: &PropSet,
        inputs: &Inputs<'_>,
        _hold: &mut Hold,
        ticket: &mut Ticket,
        out: &mut Part<'_>,
    ) -> Result<(), Memory> {
        let posterising = Posterising::of(values.number(0));
        fill_points(&posterising, inputs, SOURCE, values.frame, out);
        ticket.stamped = true;
        Ok(())
    }
}

// What is made of a pixel of bytes, by the levels and what they make of each byte, and of eight pixels by
// the place of the last level and what divides by it. The effect renders no other pixels, and those stay.
#[derive(Clone, Copy)]
struct Posterising {
    levels: i64,
    table: [u8; 256],
    last: u8,
    factor: u32,
}

impl PointKernel for Posterising {
    ghost is_ready = { λ k. HasLevels k.levels k.table × HasSteps k.levels k.last k.factor };

    ghost of = { λ k depth p. of_depth k.levels depth p };

    fn point(&self, depth: Depth, p: Pixel) -> Pixel {
        match (depth, p) {
            (Depth::Byte, Pixel::Rgba { r, g, b, a }) => Pixel::Rgba {
                r: u16::from(self.table[r as usize]),
                g: u16::from(self.table[g as usize]),
                b: u16::from(self.table[b as usize]),
                a,
            },
            _ => p,
        }
    }

    fn eight(&self, pixels: u8x32) -> u8x32 {
        let places = lanes::product(pixels, u8x32::splat(self.last));
        recoloured(pixels, samples(places, self.last, self.factor))
    }
}

impl Posterising {
    fn of(levels: i64) -> Posterising
        requires { (pos 2 ≤ℤ levels) × (levels ≤ℤ pos 256) }
        ensures levels { result.levels ≡ levels }
        ensures table { HasLevels levels result.table }
        ensures steps { HasSteps levels result.last result.factor }
    {
        let mut table = [0; 256];
        for c in 0..256 {
            table[c] = posterised(levels, c as u64);
        }
        let last = (levels - 1) as u8;
        let factor = (1 << 24) / u32::from(last) + 1;
        Posterising {
            levels,
            table,
            last,
            factor,
        }
    }
}

fn posterised(levels: i64, c: u64) -> u8
    requires levels { (pos 2 ≤ℤ levels) × (levels ≤ℤ pos 256) }
    requires c { c ≤ 255 }
    ensures { result ≡ posterised 255 levels c }
{
    let last = levels as u64 - 1;
    let place = (2 * c * last + 255) / 510;
    ((2 * place * 255 + last) / (2 * last)) as u8
}

// The samples of levels, by their places from 0 to the last.
#[inline(always)]
fn samples(places: u8x32, last: u8, factor: u32) -> u8x32
    requires some { 0 < last }
    requires factor { factor ≡ reciprocal last }
    requires places { (j : ℕ) → j < 32 → slice_index places j ≤ last }
    ensures { (j : ℕ) → j < 32 → slice_index result j ≡ rounded (slice_index places j * 255) last }
{
    let half = u32x32::splat(u32::from(last / 2));
    let raised = places.cast::<u32>() * u32x32::splat(255) + half;
    ((raised * u32x32::splat(factor)) >> 24).cast::<u8>()
}
