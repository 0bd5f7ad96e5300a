//! The effect premult.
ghost use Rattle.std.specs.Prelude.{◌≡◌};
ghost use Rattle.fx_pixel.specs.Pixel.{greatest};
ghost use Rattle.fx_point.specs.Premult.{premult, premultiplied};
ghost use Rattle.fx_point.specs.PremultLaws.{premult_laws};

use crate::filter::describe;
use crate::lanes::recoloured;
use fx_base::{Memory, Rect};
use fx_core::Ticket;
use fx_effect::{
    Context, Identity, ImageEffect, Inputs, PointKernel, Reply, Values, clip_set, fill_points,
};
use fx_gate::Hold;
use fx_image::Part;
use fx_kernel::{lanes, product};
use fx_params::ParamDef;
use fx_pixel::{Components, Depth, Pixel};
use fx_props::PropSet;
use std::alloc::Global;
use std::simd::prelude::*;

/// Multiplies each of r, g and b by a, and keeps a: a filter for RGBA. It has one clip, Source, and no
/// parameters.
#[derive(Clone, Copy, Debug, PartialEq, Eq)]
pub struct Premult;

// The place of the clip Source.
const SOURCE: u32 = 0;

impl ImageEffect for Premult {
    ghost meaning = { λ _. premult };

    ghost laws = { λ _. premult_laws };

    fn describe(&self, alloc: Global, descriptor: &mut PropSet) -> Result<Reply, Memory> {
        describe(alloc, "premult", &[Depth::Byte, Depth::Short], descriptor)
    }

    fn describe_in_context(
        &self,
        alloc: Global,
        _context: Context,
        clips: &mut Vec<PropSet>,
        _params: &mut Vec<ParamDef>,
    ) -> Result<Reply, Memory> {
        clips.push(clip_set(alloc, "Source", false, &[Components::Rgba])?)?;
        Ok(Reply::Ok)
    }

    fn get_region_of_definition(
        &self,
        _alloc: Global,
        _values: &Values,
        _regions: &[Rect],
        _in_args: &PropSet,
        _out_args: &mut PropSet,
    ) -> Result<Reply, Memory> {
        // The default is the region of Source, and so is that of the general context.
        Ok(Reply::Default)
    }

    fn get_regions_of_interest(
        &self,
        _alloc: Global,
        _values: &Values,
        _in_args: &PropSet,
        _out_args: &mut PropSet,
    ) -> Result<Reply, Memory> {
        // A pixel reads Source at its own place, which the default region of interest has.
        Ok(Reply::Default)
    }

    fn get_frames_needed(
        &self,
        _alloc: Global,
        _values: &Values,
        _in_args: &PropSet,
        _out_args: &mut PropSet,
    ) -> Result<Reply, Memory> {
        Ok(Reply::Default)
    }

    fn is_identity(&self, _values: &Values, _in_args: &PropSet) -> Identity {
        Identity::No
    }

    fn render(
        &self,
        _alloc: Global,
        values: &Values,
        _in_args: &PropSet,
        inputs: &Inputs<'_>,
        _hold: &mut Hold,
        ticket: &mut Ticket,
        out: &mut Part<'_>,
    ) -> Result<(), Memory> {
        fill_points(&Multiplying, inputs, SOURCE, values.frame, out);
        ticket.stamped = true;
        Ok(())
    }
}

// What is made of a pixel.
#[derive(Clone, Copy)]
struct Multiplying;

impl PointKernel for Multiplying {
    ghost is_ready = { λ _. Unit {0} };

    ghost of = { λ _ depth p. premultiplied (greatest depth) p };

    fn point(&self, depth: Depth, p: Pixel) -> Pixel {
        match p {
            Pixel::Rgba { r, g, b, a } => Pixel::Rgba {
                r: product(depth, r, a),
                g: product(depth, g, a),
                b: product(depth, b, a),
                a,
            },
            Pixel::Alpha { a } => Pixel::Alpha { a },
        }
    }

    fn eight(&self, pixels: u8x32) -> u8x32 {
        recoloured(pixels, lanes::product(pixels, lanes::alphas(pixels)))
    }
}
