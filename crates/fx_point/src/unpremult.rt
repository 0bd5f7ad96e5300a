//! The effect unpremult.
ghost use Rattle.std.specs.Prelude.{◌≡◌, ◌≢◌, ◌≤◌, ◌<◌};
ghost use Rattle.fx_pixel.specs.Pixel.{greatest};
ghost use Rattle.fx_kernel.specs.Samples.{rounded as nearest};
ghost use Rattle.fx_point.specs.Factors.{factor_of, HasFactors};
ghost use Rattle.fx_point.specs.Unpremult.{unpremult, quotient, unpremultiplied};
ghost use Rattle.fx_point.specs.UnpremultLaws.{unpremult_laws};

use crate::filter::describe;
use fx_base::{Memory, Rect};
use fx_core::Ticket;
use fx_effect::{
    Context, Identity, ImageEffect, Inputs, PointKernel, Reply, Values, clip_set, fill_points,
};
use fx_gate::Hold;
use fx_image::Part;
use fx_params::ParamDef;
use fx_pixel::{Components, Depth, Pixel};
use fx_props::PropSet;
use std::alloc::Global;

/// Divides each of r, g and b by a, and keeps a; zero where a is 0: a filter for RGBA. It has one clip,
/// Source, and no parameters.
#[derive(Clone, Copy, Debug, PartialEq, Eq)]
pub struct Unpremult;

// The place of the clip Source.
const SOURCE: u32 = 0;

impl ImageEffect for Unpremult {
    ghost meaning = { λ _. unpremult };

    ghost laws = { λ _. unpremult_laws };

    fn describe(&self, alloc: Global, descriptor: &mut PropSet) -> Result<Reply, Memory> {
        describe(alloc, "unpremult", &[Depth::Byte, Depth::Short], descriptor)
    }

    fn describe_in_context(
        &self,
        alloc: Global,
        _context: Context,
        clips: &mut Vec<PropSet>,
        _params: &mut Vec<ParamDef>,
    ) -> Result<Reply, Memory> {
        clips.push(clip_set(alloc, "Source", false, &[Components::Rgba])?)?;
        Ok(Reply::Ok)
    }

    fn get_region_of_definition(
        &self,
        _alloc: Global,
        _values: &Values,
        _regions: &[Rect],
        _in_args: &PropSet,
        _out_args: &mut PropSet,
    ) -> Result<Reply, Memory> {
        // The default is the region of Source, and so is that of the general context.
        Ok(Reply::Default)
    }

    fn get_regions_of_interest(
        &self,
        _alloc: Global,
        _values: &Values,
        _in_args: &PropSet,
        _out_args: &mut PropSet,
    ) -> Result<Reply, Memory> {
        // A pixel reads Source at its own place, which the default region of interest has.
        Ok(Reply::Default)
    }

    fn get_frames_needed(
        &self,
        _alloc: Global,
        _values: &Values,
        _in_args: &PropSet,
        _out_args: &mut PropSet,
    ) -> Result<Reply, Memory> {
        Ok(Reply::Default)
    }

    fn is_identity(&self, _values: &Values, _in_args: &PropSet) -> Identity {
        Identity::No
    }

    fn render(
        &self,
        _alloc: Global,
        values: &Values,
        _in_args: &PropSet,
        inputs: &Inputs<'_>,
        _hold: &mut Hold,
        ticket: &mut Ticket,
        out: &mut Part<'_>,
    ) -> Result<(), Memory> {
        let dividing = Dividing { factors: factors() };
        fill_points(&dividing, inputs, SOURCE, values.frame, out);
        ticket.stamped = true;
        Ok(())
    }
}

// What is made of a pixel. At byte depth a product with a reciprocal stands for the division.
#[derive(Clone, Copy)]
struct Dividing {
    factors: [u64; 256],
}

impl PointKernel for Dividing {
    ghost is_ready = { λ k. HasFactors k.factors };

    ghost of = { λ _ depth p. unpremultiplied (greatest depth) p };

    fn point(&self, depth: Depth, p: Pixel) -> Pixel {
        match p {
            Pixel::Rgba { r, g, b, a } => Pixel::Rgba {
                r: self.quotient(depth, a, r),
                g: self.quotient(depth, a, g),
                b: self.quotient(depth, a, b),
                a,
            },
            Pixel::Alpha { a } => Pixel::Alpha { a },
        }
    }
}

impl Dividing {
    #[inline(always)]
    fn quotient(&self, depth: Depth, a: u16, c: u16) -> u16
        requires ready { HasFactors self.now.factors }
        requires a { a ≤ greatest depth }
        requires c { c ≤ greatest depth }
        ensures value { result ≡ quotient (greatest depth) a c }
        ensures bound { result ≤ greatest depth }
    {
        match depth {
            Depth::Byte => byte_quotient(self.factors[a as usize], a, c),
            Depth::Short => short_quotient(a, c),
        }
    }
}

#[inline(always)]
fn byte_quotient(factor: u64, a: u16, c: u16) -> u16
    requires factor { factor ≡ factor_of a }
    requires a { a ≤ 255 }
    requires c { c ≤ 255 }
    ensures value { result ≡ quotient 255 a c }
    ensures bound { result ≤ 255 }
{
    // No quotient goes above 255, so a sample above a is taken for a: the least is picked before the product, since behind
    // it the compiler makes a branch of that, which the processor can't guess.
    let kept = c.min(a);
    (((u64::from(kept) * 510 + u64::from(a)) * factor) >> 32) as u16
}

// A table of all shorts would cost more than the divisions of a tile.
#[inline(always)]
fn short_quotient(a: u16, c: u16) -> u16
    ensures value { result ≡ quotient 65535 a c }
    ensures bound { result ≤ 65535 }
{
    if a == 0 {
        return 0;
    }
    let whole = u32::from(c) * 65535;
    rounded(whole, u32::from(a)).min(65535) as u16
}

// A quotient to the nearest, halves up.
#[inline(always)]
fn rounded(p: u32, q: u32) -> u32
    requires some { 0 < q }
    requires few { q ≤ 65535 }
    requires room { p ≤ 4294836225 }
    ensures { result ≡ nearest p q }
{
    let rest = p % q;
    if q <= 2 * rest { p / q + 1 } else { p / q }
}

fn factors() -> [u64; 256]
    ensures { HasFactors result }
{
    let mut factors = [0; 256];
    for a in 0..256 {
        factors[a] = factor(a as u64);
    }
    factors
}

fn factor(a: u64) -> u64
    requires { a < 256 }
    ensures { result ≡ factor_of a }
{
    if a == 0 { 0 } else { (1 << 32) / (2 * a) + 1 }
}
