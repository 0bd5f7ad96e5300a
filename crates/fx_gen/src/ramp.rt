//! The effect ramp.
ghost use Rattle.std.specs.Prelude.{◌≡◌, ◌≤◌, ◌+◌, ◌≤ℤ◌, ℕ, ℤ, pos, if◌then◌else◌};
ghost use Rattle.fx_pixel.specs.Pixel.{greatest};
ghost use Rattle.fx_effect.specs.Shape.{IsLawful};
ghost use Rattle.fx_gen.specs.Grey.{grey as grey_pixel};
ghost use Rattle.fx_gen.specs.Ramp.{ramp, ramp_shape, shade, ramp_shade, IsSide};
ghost use Rattle.fx_gen.specs.RampLaws.{ramp_laws};

use crate::generator::{describe, grey, write_project};
use fx_base::{Memory, Rect};
use fx_core::Ticket;
use fx_effect::{Context, Identity, ImageEffect, Inputs, PlaceKernel, Reply, Values, fill_places};
use fx_gate::Hold;
use fx_image::Part;
use fx_kernel::Mean;
use fx_params::ParamDef;
use fx_pixel::{Components, Depth, Pixel};
use fx_props::PropSet;
use std::alloc::Global;

/// Greys from black at the first column, or row, to white at the last, over the project's extent: a
/// generator. Its parameter axis is x or y.
#[derive(Clone, Copy, Debug, PartialEq, Eq)]
pub struct Ramp;

impl ImageEffect for Ramp {
    ghost meaning = { λ _. ramp };

    ghost laws = { λ _. ramp_laws };

    fn describe(&self, alloc: Global, descriptor: &mut PropSet) -> Result<Reply, Memory> {
        describe(alloc, "ramp", descriptor)
    }

    fn describe_in_context(
        &self,
        alloc: Global,
        _context: Context,
        _clips: &mut Vec<PropSet>,
        params: &mut Vec<ParamDef>,
    ) -> Result<Reply, Memory> {
        params.push(ParamDef::choice(alloc, "axis", &["x", "y"], 0)?)?;
        Ok(Reply::Ok)
    }

    fn get_region_of_definition(
        &self,
        alloc: Global,
        values: &Values,
        _regions: &[Rect],
        _in_args: &PropSet,
        out_args: &mut PropSet,
    ) -> Result<Reply, Memory> {
        write_project(alloc, values.project, out_args)
    }

    fn get_regions_of_interest(
        &self,
        _alloc: Global,
        _values: &Values,
        _in_args: &PropSet,
        _out_args: &mut PropSet,
    ) -> Result<Reply, Memory> {
        Ok(Reply::Default)
    }

    fn get_frames_needed(
        &self,
        _alloc: Global,
        _values: &Values,
        _in_args: &PropSet,
        _out_args: &mut PropSet,
    ) -> Result<Reply, Memory> {
        Ok(Reply::Default)
    }

    fn is_identity(&self, _values: &Values, _in_args: &PropSet) -> Identity {
        Identity::No
    }

    fn render(
        &self,
        _alloc: Global,
        values: &Values,
        _in_args: &PropSet,
        _inputs: &Inputs<'_>,
        _hold: &mut Hold,
        ticket: &mut Ticket,
        out: &mut Part<'_>,
    ) -> Result<(), Memory> {
        fill_places(&along(values), values.project, out);
        ticket.stamped = true;
        Ok(())
    }
}

// The way along a side of the project, whose last place is `last`.
#[derive(Clone, Copy)]
struct Shading {
    along_x: bool,
    last: u64,
    mean: Mean,
}

impl PlaceKernel for Shading {
    ghost is_ready = { λ k depth c. IsSide k.last k.mean };

    ghost of = { λ k depth c x y.
        let m = greatest depth in grey_pixel c m (shade m (pos (k.last + 1)) (if k.along_x then x else y)) };

    fn place(&self, depth: Depth, components: Components, x: i64, y: i64) -> Pixel {
        let place = if self.along_x { x } else { y };
        grey(depth, components, self.shade(depth, place))
    }
}

impl Shading {
    fn of(along_x: bool, side: i64) -> Shading
        requires { (pos 1 ≤ℤ side) × (side ≤ℤ pos 8192) }
        ensures along { result.along_x ≡ along_x }
        ensures side { pos (result.last + 1) ≡ side }
        ensures ready { IsSide result.last result.mean }
    {
        let last = side as u64 - 1;
        Shading {
            along_x,
            last,
            mean: Mean::of(last.max(1)),
        }
    }

    #[inline(always)]
    fn shade(&self, depth: Depth, place: i64) -> u16
        requires { IsSide self.now.last self.now.mean }
        ensures value { result ≡ shade (greatest depth) (pos (self.now.last + 1)) place }
        ensures bound { result ≤ greatest depth }
    {
        let place = place.clamp(0, self.last as i64) as u64;
        self.mean.sample(depth, place * u64::from(depth.greatest()))
    }
}

fn along(values: &Values) -> Shading
    requires { IsLawful ramp_shape values.now }
    ensures ready { IsSide result.last result.mean }
    ensures shade { (m : ℕ) (x y : ℤ) →
        shade m (pos (result.last + 1)) (if result.along_x then x else y) ≡ ramp_shade values.now m x y }
{
    if values.number(0) == 0 {
        Shading::of(true, values.project.x2)
    } else {
        Shading::of(false, values.project.y2)
    }
}
