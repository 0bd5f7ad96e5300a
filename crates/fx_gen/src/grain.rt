//! The effect grain.
ghost use Rattle.std.specs.Prelude.{◌≡◌, ◌≤◌, ◌<◌, ◌*◌, ◌/◌, ◌^◌, ◌≤ℤ◌, pos};
ghost use Rattle.fx_pixel.specs.Pixel.{greatest};
ghost use Rattle.fx_gen.specs.Grey.{grey as grey_pixel};
ghost use Rattle.fx_gen.specs.Grain.{grain, wrapped, mixed_in, squared, turned, noise, grain_shade};
ghost use Rattle.fx_gen.specs.GrainLaws.{grain_laws};

use crate::generator::{describe, grey, write_project};
use crate::solid::{FULL, NONE, scale};
use fx_base::{Memory, Rect};
use fx_core::Ticket;
use fx_effect::{Context, Identity, ImageEffect, Inputs, PlaceKernel, Reply, Values, fill_places};
use fx_gate::Hold;
use fx_image::Part;
use fx_params::ParamDef;
use fx_pixel::{Components, Depth, Pixel};
use fx_props::PropSet;
use std::alloc::Global;

/// Greys that look random, which the place, the frame and a seed decide, over the project's extent: a
/// generator. Its parameters are seed, from 0 to 999,999, and amount, a level from 0 to 1.
#[derive(Clone, Copy, Debug, PartialEq, Eq)]
pub struct Grain;

impl ImageEffect for Grain {
    ghost meaning = { λ _. grain };

    ghost laws = { λ _. grain_laws };

    fn describe(&self, alloc: Global, descriptor: &mut PropSet) -> Result<Reply, Memory> {
        describe(alloc, "grain", descriptor)
    }

    fn describe_in_context(
        &self,
        alloc: Global,
        _context: Context,
        _clips: &mut Vec<PropSet>,
        params: &mut Vec<ParamDef>,
    ) -> Result<Reply, Memory> {
        params.push(ParamDef::int(alloc, "seed", 0, 999999, 0)?)?;
        params.push(ParamDef::fix(alloc, "amount", NONE, FULL, FULL)?)?;
        Ok(Reply::Ok)
    }

    fn get_region_of_definition(
        &self,
        alloc: Global,
        values: &Values,
        _regions: &[Rect],
        _in_args: &PropSet,
        out_args: &mut PropSet,
    ) -> Result<Reply, Memory> {
        write_project(alloc, values.project, out_args)
    }

    fn get_regions_of_interest(
        &self,
        _alloc: Global,
        _values: &Values,
        _in_args: &PropSet,
        _out_args: &mut PropSet,
    ) -> Result<Reply, Memory> {
        Ok(Reply::Default)
    }

    fn get_frames_needed(
        &self,
        _alloc: Global,
        _values: &Values,
        _in_args: &PropSet,
        _out_args: &mut PropSet,
    ) -> Result<Reply, Memory> {
        Ok(Reply::Default)
    }

    fn is_identity(&self, _values: &Values, _in_args: &PropSet) -> Identity {
        Identity::No
    }

    fn render(
        &self,
        _alloc: Global,
        values: &Values,
        _in_args: &PropSet,
        _inputs: &Inputs<'_>,
        _hold: &mut Hold,
        ticket: &mut Ticket,
        out: &mut Part<'_>,
    ) -> Result<(), Memory> {
        let grains = Grains {
            seed: values.number(0),
            frame: values.frame,
            most: scale(out.depth(), values.number(1)),
        };
        fill_places(&grains, values.project, out);
        ticket.stamped = true;
        Ok(())
    }
}

// The noise of a frame, and the greatest sample of it.
#[derive(Clone, Copy)]
struct Grains {
    seed: i64,
    frame: i64,
    most: u16,
}

impl PlaceKernel for Grains {
    ghost is_ready = { λ k depth c. (pos 0 ≤ℤ k.seed) × (k.seed ≤ℤ pos 999999) × (k.most ≤ greatest depth) };

    ghost of = { λ k depth c x y. grey_pixel c (greatest depth) (grain_shade k.most k.seed x y k.frame) };

    fn place(&self, depth: Depth, components: Components, x: i64, y: i64) -> Pixel {
        let noise = noise(mixed_in(self.seed, x, y, self.frame));
        grey(depth, components, shade(noise, self.most))
    }
}

#[inline(always)]
fn shade(noise: u32, most: u16) -> u16
    requires { noise ≤ 65535 }
    ensures value { result ≡ noise * most / 65535 }
    ensures bound { result ≤ most }
{
    (noise * u32::from(most) / 65535) as u16
}

#[inline(always)]
fn mixed_in(seed: i64, x: i64, y: i64, frame: i64) -> u64
    requires { (pos 0 ≤ℤ seed) × (seed ≤ℤ pos 999999) }
    ensures value { result ≡ mixed_in seed x y frame }
    ensures low { result < 2 ^ 32 }
{
    let sum = wrapped(x) * 73856093 + wrapped(y) * 19349663 + wrapped(frame) * 83492791;
    (sum + seed as u64) % (1 << 32)
}

#[inline(always)]
fn wrapped(z: i64) -> u64
    ensures value { result ≡ wrapped z }
    ensures low { result < 2 ^ 32 }
{
    z.rem_euclid(1 << 32) as u64
}

#[inline(always)]
fn noise(h: u64) -> u32
    requires { h < 2 ^ 32 }
    ensures value { result ≡ noise h }
    ensures few { result ≤ 65535 }
{
    (squared(turned(squared(h))) >> 16) as u32
}

#[inline(always)]
fn squared(h: u64) -> u64
    requires { h < 2 ^ 32 }
    ensures value { result ≡ squared h }
    ensures low { result < 2 ^ 32 }
{
    (u128::from(h) * u128::from(2 * h + 1) % (1 << 32)) as u64
}

#[inline(always)]
fn turned(h: u64) -> u64
    requires { h < 2 ^ 32 }
    ensures value { result ≡ turned h }
    ensures low { result < 2 ^ 32 }
{
    h / 65536 + 65536 * (h % 65536)
}
