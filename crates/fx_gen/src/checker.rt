//! The effect checker.
ghost use Rattle.std.specs.Prelude.{◌≡◌, ◌≤◌, ◌<◌, ◌^◌, ◌≤ℤ◌, pos, if◌then◌else◌};
ghost use Rattle.fx_pixel.specs.Pixel.{greatest};
ghost use Rattle.fx_gen.specs.Factor.{HasFactor};
ghost use Rattle.fx_gen.specs.Grey.{grey as grey_pixel};
ghost use Rattle.fx_gen.specs.Checker.{checker, square, is_even};
ghost use Rattle.fx_gen.specs.CheckerLaws.{checker_laws};

use crate::generator::{describe, grey, write_project};
use crate::solid::{FULL, NONE, scale};
use fx_base::{Memory, Rect};
use fx_core::Ticket;
use fx_effect::{Context, Identity, ImageEffect, Inputs, PlaceKernel, Reply, Values, fill_places};
use fx_gate::Hold;
use fx_image::Part;
use fx_params::ParamDef;
use fx_pixel::{Components, Depth, Pixel};
use fx_props::PropSet;
use std::alloc::Global;

/// Squares of a size, by turns of a level and black, over the project's extent: a generator. Its
/// parameters are size, from 1 to 4,096 pixels, and level, from 0 to 1.
#[derive(Clone, Copy, Debug, PartialEq, Eq)]
pub struct Checker;

impl ImageEffect for Checker {
    ghost meaning = { λ _. checker };

    ghost laws = { λ _. checker_laws };

    fn describe(&self, alloc: Global, descriptor: &mut PropSet) -> Result<Reply, Memory> {
        describe(alloc, "checker", descriptor)
    }

    fn describe_in_context(
        &self,
        alloc: Global,
        _context: Context,
        _clips: &mut Vec<PropSet>,
        params: &mut Vec<ParamDef>,
    ) -> Result<Reply, Memory> {
        params.push(ParamDef::int(alloc, "size", 1, 4096, 16)?)?;
        params.push(ParamDef::fix(alloc, "level", NONE, FULL, FULL)?)?;
        Ok(Reply::Ok)
    }

    fn get_region_of_definition(
        &self,
        alloc: Global,
        values: &Values,
        _regions: &[Rect],
        _in_args: &PropSet,
        out_args: &mut PropSet,
    ) -> Result<Reply, Memory> {
        write_project(alloc, values.project, out_args)
    }

    fn get_regions_of_interest(
        &self,
        _alloc: Global,
        _values: &Values,
        _in_args: &PropSet,
        _out_args: &mut PropSet,
    ) -> Result<Reply, Memory> {
        Ok(Reply::Default)
    }

    fn get_frames_needed(
        &self,
        _alloc: Global,
        _values: &Values,
        _in_args: &PropSet,
        _out_args: &mut PropSet,
    ) -> Result<Reply, Memory> {
        Ok(Reply::Default)
    }

    fn is_identity(&self, _values: &Values, _in_args: &PropSet) -> Identity {
        Identity::No
    }

    fn render(
        &self,
        _alloc: Global,
        values: &Values,
        _in_args: &PropSet,
        _inputs: &Inputs<'_>,
        _hold: &mut Hold,
        ticket: &mut Ticket,
        out: &mut Part<'_>,
    ) -> Result<(), Memory> {
        let light = scale(out.depth(), values.number(1));
        let squares = Squares::of(values.number(0), light);
        fill_places(&squares, values.project, out);
        ticket.stamped = true;
        Ok(())
    }
}

// Squares and the sample of the even ones. A product with a reciprocal stands for the division by the size.
#[derive(Clone, Copy)]
struct Squares {
    size: u64,
    factor: u64,
    light: u16,
}

impl PlaceKernel for Squares {
    ghost is_ready = { λ k depth c. HasFactor k.size k.factor × (k.light ≤ greatest depth) };

    ghost of = { λ k depth c x y. grey_pixel c (greatest depth) (if is_even (pos k.size) x y then k.light else 0) };

    fn place(&self, depth: Depth, components: Components, x: i64, y: i64) -> Pixel {
        let light = if self.is_even(x, y) { self.light } else { 0 };
        grey(depth, components, light)
    }
}

impl Squares {
    fn of(size: i64, light: u16) -> Squares
        requires { (pos 1 ≤ℤ size) × (size ≤ℤ pos 4096) }
        ensures size { pos result.size ≡ size }
        ensures factor { HasFactor result.size result.factor }
        ensures light { result.light ≡ light }
    {
        let size = size as u64;
        let factor = (1 << 32) / size + 1;
        Squares {
            size,
            factor,
            light,
        }
    }

    #[inline(always)]
    fn is_even(&self, x: i64, y: i64) -> bool
        requires { HasFactor self.now.size self.now.factor }
        ensures { result ≡ is_even (pos self.now.size) x y }
    {
        (self.square(x) + self.square(y)) % 2 == 0
    }

    // No place of a project is beyond 8,192.
    #[inline(always)]
    fn square(&self, place: i64) -> u64
        requires { HasFactor self.now.size self.now.factor }
        ensures value { result ≡ square (pos self.now.size) place }
        ensures few { result < 2 ^ 63 }
    {
        if place < 0 {
            0
        } else if place < 8192 {
            (place as u64 * self.factor) >> 32
        } else {
            place as u64 / self.size
        }
    }
}
