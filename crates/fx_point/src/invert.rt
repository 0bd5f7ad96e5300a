//! The effect invert.
ghost use Rattle.std.specs.Prelude.{◌≡◌};
ghost use Rattle.fx_point.specs.Invert.{invert, inverted};
ghost use Rattle.fx_point.specs.InvertLaws.{invert_laws};

use crate::filter::describe;
use crate::lanes::recoloured;
use fx_base::{Memory, Rect};
use fx_core::Ticket;
use fx_effect::{
    Context, Identity, ImageEffect, Inputs, PointKernel, Reply, Values, clip_set, fill_points,
};
use fx_gate::Hold;
use fx_image::Part;
use fx_kernel::lanes::alphas;
use fx_params::ParamDef;
use fx_pixel::{Components, Depth, Pixel};
use fx_props::PropSet;
use std::alloc::Global;
use std::simd::prelude::*;

/// Takes each of r, g and b from a, down to 0, and keeps a: a filter for RGBA. It has one clip, Source,
/// and no parameters.
#[derive(Clone, Copy, Debug, PartialEq, Eq)]
pub struct Invert;

// The place of the clip Source.
const SOURCE: u32 = 0;

impl ImageEffect for Invert {
    ghost meaning = { λ _. invert };

    ghost laws = { λ _. invert_laws };

    fn describe(&self, alloc: Global, descriptor: &mut PropSet) -> Result<Reply, Memory> {
        describe(alloc, "invert", &[Depth::Byte, Depth::Short], descriptor)
    }

    fn describe_in_context(
        &self,
        alloc: Global,
        _context: Context,
        clips: &mut Vec<PropSet>,
        _params: &mut Vec<ParamDef>,
    ) -> Result<Reply, Memory> {
        clips.push(clip_set(alloc, "Source", false, &[Components::Rgba])?)?;
        Ok(Reply::Ok)
    }

    fn get_region_of_definition(
        &self,
        _alloc: Global,
        _values: &Values,
        _regions: &[Rect],
        _in_args: &PropSet,
        _out_args: &mut PropSet,
    ) -> Result<Reply, Memory> {
        // The default is the region of Source, and so is that of the general context.
        Ok(Reply::Default)
    }

    fn get_regions_of_interest(
        &self,
        _alloc: Global,
        _values: &Values,
        _in_args: &PropSet,
        _out_args: &mut PropSet,
    ) -> Result<Reply, Memory> {
        // A pixel reads Source at its own place, which the default region of interest has.
        Ok(Reply::Default)
    }

    fn get_frames_needed(
        &self,
        _alloc: Global,
        _values: &Values,
        _in_args: &PropSet,
        _out_args: &mut PropSet,
    ) -> Result<Reply, Memory> {
        Ok(Reply::Default)
    }

    fn is_identity(&self, _values: &Values, _in_args: &PropSet) -> Identity {
        Identity::No
    }

    fn render(
        &self,
        _alloc: Global,
        values: &Values,
        _in_args: &PropSet,
        inputs: &Inputs<'_>,
        _hold: &mut Hold,
        ticket: &mut Ticket,
        out: &mut Part<'_>,
    ) -> Result<(), Memory> {
        fill_points(&Inverting, inputs, SOURCE, values.frame, out);
        ticket.stamped = true;
        Ok(())
    }
}

// What is made of a pixel.
#[derive(Clone, Copy)]
struct Inverting;

impl PointKernel for Inverting {
    ghost is_ready = { λ _. Unit {0} };

    ghost of = { λ _ depth p. inverted p };

    fn point(&self, _depth: Depth, p: Pixel) -> Pixel {
        match p {
            Pixel::Rgba { r, g, b, a } => Pixel::Rgba {
                r: a.saturating_sub(r),
                g: a.saturating_sub(g),
                b: a.saturating_sub(b),
                a,
            },
            Pixel::Alpha { a } => Pixel::Alpha { a },
        }
    }

    fn eight(&self, pixels: u8x32) -> u8x32 {
        recoloured(pixels, alphas(pixels).saturating_sub(pixels))
    }
}
