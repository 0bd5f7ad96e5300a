//! The effect saturation.
ghost use Rattle.std.specs.Prelude.{◌≡◌, ◌≤◌, ℕ, ◌≤ℤ◌, ◌*ℤ◌, pos, negsuc};
ghost use Rattle.std.specs.Int.{int_div_euclid};
ghost use Rattle.fx_pixel.specs.Pixel.{greatest};
ghost use Rattle.fx_point.specs.Saturation.{saturation, luma, saturated, saturated_pixel};
ghost use Rattle.fx_kernel.specs.Samples.{clamped};
ghost use Rattle.fx_point.specs.SaturationLaws.{saturation_laws};

use crate::filter::describe;
use fx_base::{Fix, Memory, Rect};
use fx_core::Ticket;
use fx_effect::{
    Context, Identity, ImageEffect, Inputs, PointKernel, Reply, Values, clip_set, fill_points,
};
use fx_gate::Hold;
use fx_image::Part;
use fx_params::ParamDef;
use fx_pixel::{Components, Depth, Pixel};
use fx_props::PropSet;
use std::alloc::Global;

/// Moves each of r, g and b away from the pixel's luma, or toward it, and keeps a: a filter for RGBA. It
/// has one clip, Source, and the parameter amount, from 0 (grey) over 1 (as it is) to 4.
#[derive(Clone, Copy, Debug, PartialEq, Eq)]
pub struct Saturation;

// The place of the clip Source.
const SOURCE: u32 = 0;

// The numbers 0, 1 and 4.
const NONE: Fix = Fix { raw: 0 };

const ONE: Fix = Fix { raw: 65536 };

const MOST: Fix = Fix { raw: 262144 };

impl ImageEffect for Saturation {
    ghost meaning = { λ _. saturation };

    ghost laws = { λ _. saturation_laws };

    fn describe(&self, alloc: Global, descriptor: &mut PropSet) -> Result<Reply, Memory> {
        describe(
            alloc,
            "saturation",
            &[Depth::Byte, Depth::Short],
            descriptor,
        )
    }

    fn describe_in_context(
        &self,
        alloc: Global,
        _context: Context,
        clips: &mut Vec<PropSet>,
        params: &mut Vec<ParamDef>,
    ) -> Result<Reply, Memory> {
        clips.push(clip_set(alloc, "Source", false, &[Components::Rgba])?)?;
        params.push(ParamDef::fix(alloc, "amount", NONE, MOST, ONE)?)?;
        Ok(Reply::Ok)
    }

    fn get_region_of_definition(
        &self,
        _alloc: Global,
        _values: &Values,
        _regions: &[Rect],
        _in_args: &PropSet,
        _out_args: &mut PropSet,
    ) -> Result<Reply, Memory> {
        // The default is the region of Source, and so is that of the general context.
        Ok(Reply::Default)
    }

    fn get_regions_of_interest(
        &self,
        _alloc: Global,
        _values: &Values,
        _in_args: &PropSet,
        _out_args: &mut PropSet,
    ) -> Result<Reply, Memory> {
        // A pixel reads Source at its own place, which the default region of interest has.
        Ok(Reply::Default)
    }

    fn get_frames_needed(
        &self,
        _alloc: Global,
        _values: &Values,
        _in_args: &PropSet,
        _out_args: &mut PropSet,
    ) -> Result<Reply, Memory> {
        Ok(Reply::Default)
    }

    fn is_identity(&self, values: &Values, _in_args: &PropSet) -> Identity {
        if values.number(0) == ONE.raw {
            Identity::Same {
                clip: SOURCE,
                frame: values.frame,
            }
        } else {
            Identity::No
        }
    }

    fn render(
        &self,
        _alloc: Global,
        values: &Values,
        _in_args: &PropSet,
        inputs: &Inputs<'_>,
        _hold: &mut Hold,
        ticket: &mut Ticket,
        out: &mut Part<'_>,
    ) -> Result<(), Memory> {
        let amount = values.number(0);
        fill_points(&Saturating { amount }, inputs, SOURCE, values.frame, out);
        ticket.stamped = true;
        Ok(())
    }
}

// What is made of a pixel, by the amount in units of 1/65536.
#[derive(Clone, Copy)]
struct Saturating {
    amount: i64,
}

impl PointKernel for Saturating {
    ghost is_ready = { λ k. (pos 0 ≤ℤ k.amount) × (k.amount ≤ℤ pos 262144) };

    ghost of = { λ k depth p. saturated_pixel k.amount (greatest depth) p };

    fn point(&self, depth: Depth, p: Pixel) -> Pixel {
        match p {
            Pixel::Rgba { r, g, b, a } => {
                let luma = luma(r, g, b);
                Pixel::Rgba {
                    r: saturated(depth, self.amount, luma, r),
                    g: saturated(depth, self.amount, luma, g),
                    b: saturated(depth, self.amount, luma, b),
                    a,
                }
            }
            Pixel::Alpha { a } => Pixel::Alpha { a },
        }
    }
}

#[inline(always)]
fn luma(r: u16, g: u16, b: u16) -> u16
    ensures value { result ≡ luma r g b }
    ensures bound { (m : ℕ) → r ≤ m → g ≤ m → b ≤ m → result ≤ m }
{
    let sum = u32::from(r) * 2126 + u32::from(g) * 7152 + u32::from(b) * 722;
    ((sum + 5000) / 10000) as u16
}

#[inline(always)]
fn saturated(depth: Depth, amount: i64, luma: u16, c: u16) -> u16
    requires amount { (pos 0 ≤ℤ amount) × (amount ≤ℤ pos 262144) }
    requires luma { luma ≤ greatest depth }
    requires sample { c ≤ greatest depth }
    ensures value { result ≡ saturated (greatest depth) amount luma c }
    ensures bound { result ≤ greatest depth }
{
    match depth {
        Depth::Byte => byte_saturated(amount as i32, luma, c),
        Depth::Short => short_saturated(amount, luma, c),
    }
}

// In 32 bits, so that the compiler does four pixels at once.
#[inline(always)]
fn byte_saturated(amount: i32, luma: u16, c: u16) -> u16
    requires amount { (pos 0 ≤ℤ amount) × (amount ≤ℤ pos 262144) }
    requires luma { luma ≤ 255 }
    requires sample { c ≤ 255 }
    ensures value { result ≡ saturated 255 amount luma c }
    ensures bound { result ≤ 255 }
{
    let luma = i32::from(luma);
    byte_clamped(luma + byte_moved(i32::from(c) - luma, amount))
}

// A part of the way between two bytes, rounded down.
#[inline(always)]
fn byte_moved(gap: i32, amount: i32) -> i32
    requires gap { (negsuc 254 ≤ℤ gap) × (gap ≤ℤ pos 255) }
    requires amount { (pos 0 ≤ℤ amount) × (amount ≤ℤ pos 262144) }
    ensures value { result ≡ int_div_euclid (gap *ℤ amount) (pos 65536) }
    ensures low { negsuc 1023 ≤ℤ result }
    ensures high { result ≤ℤ pos 1024 }
{
    (gap * amount) >> 16
}

#[inline(always)]
fn byte_clamped(z: i32) -> u16
    ensures value { result ≡ clamped 255 z }
    ensures bound { result ≤ 255 }
{
    if z < 0 { 0 } else { (z as u32).min(255) as u16 }
}

#[inline(always)]
fn short_saturated(amount: i64, luma: u16, c: u16) -> u16
    requires { (pos 0 ≤ℤ amount) × (amount ≤ℤ pos 262144) }
    ensures value { result ≡ saturated 65535 amount luma c }
    ensures bound { result ≤ 65535 }
{
    let luma = i64::from(luma);
    clamped(65535, luma + moved(i64::from(c) - luma, amount))
}

// A part of the way, rounded down.
#[inline(always)]
fn moved(way: i64, amount: i64) -> i64
    requires way { (negsuc 65534 ≤ℤ way) × (way ≤ℤ pos 65535) }
    requires amount { (pos 0 ≤ℤ amount) × (amount ≤ℤ pos 262144) }
    ensures value { result ≡ int_div_euclid (way *ℤ amount) (pos 65536) }
    ensures low { negsuc 262143 ≤ℤ result }
    ensures high { result ≤ℤ pos 262144 }
{
    (way * amount) >> 16
}

#[inline(always)]
fn clamped(most: u16, z: i64) -> u16
    ensures value { result ≡ clamped most z }
    ensures bound { result ≤ most }
{
    if z < 0 {
        0
    } else {
        (z as u64).min(u64::from(most)) as u16
    }
}
