//! The effect framediff.
ghost use Rattle.std.specs.Prelude.{◌≡◌, ◌≤◌};
ghost use Rattle.fx_base.specs.Rect.{IsFrame};
ghost use Rattle.fx_effect.specs.Shape.{IsLawful};
ghost use Rattle.fx_time.specs.Framediff.{framediff, framediff_shape, earlier as earlier_of, apart, differed};
ghost use Rattle.fx_time.specs.FramediffLaws.{framediff_laws};

use crate::parts::SOURCE;
use fx_base::{Memory, Rect};
use fx_core::Ticket;
use fx_effect::{
    Context, Description, Identity, ImageEffect, Inputs, PairKernel, Reading, Reply, Safety,
    Values, clip_set, fill_pairs,
};
use fx_gate::Hold;
use fx_image::Part;
use fx_params::ParamDef;
use fx_pixel::{Components, Depth, Pixel};
use fx_props::{PropSet, write_frames};
use std::alloc::Global;
use std::simd::prelude::*;

/// How far the pixels of the current frame and of one some frames before it are apart, sample by sample:
/// a filter. Of RGBA the a is the greater one. Its parameter gap says how many frames.
#[derive(Clone, Copy, Debug, PartialEq, Eq)]
pub struct Framediff;

impl ImageEffect for Framediff {
    ghost meaning = { λ _. framediff };

    ghost laws = { λ _. framediff_laws };

    fn describe(&self, alloc: Global, descriptor: &mut PropSet) -> Result<Reply, Memory> {
        let description = Description {
            label: "framediff",
            contexts: &[Context::Filter, Context::General],
            depths: &[Depth::Byte, Depth::Short],
            temporal: true,
            tiles: true,
            safety: Safety::FullySafe,
        };
        description.write(alloc, descriptor)?;
        Ok(Reply::Ok)
    }

    fn describe_in_context(
        &self,
        alloc: Global,
        _context: Context,
        clips: &mut Vec<PropSet>,
        params: &mut Vec<ParamDef>,
    ) -> Result<Reply, Memory> {
        let components = [Components::Rgba, Components::Alpha];
        clips.push(clip_set(alloc, "Source", false, &components)?)?;
        params.push(ParamDef::int(alloc, "gap", 1, 16, 1)?)?;
        Ok(Reply::Ok)
    }

    fn get_region_of_definition(
        &self,
        _alloc: Global,
        _values: &Values,
        _regions: &[Rect],
        _in_args: &PropSet,
        _out_args: &mut PropSet,
    ) -> Result<Reply, Memory> {
        // The default is the hull of Source's regions over the frames needed.
        Ok(Reply::Default)
    }

    fn get_regions_of_interest(
        &self,
        _alloc: Global,
        _values: &Values,
        _in_args: &PropSet,
        _out_args: &mut PropSet,
    ) -> Result<Reply, Memory> {
        Ok(Reply::Default)
    }

    fn get_frames_needed(
        &self,
        alloc: Global,
        values: &Values,
        _in_args: &PropSet,
        out_args: &mut PropSet,
    ) -> Result<Reply, Memory> {
        let (then, now) = (earlier(values), values.frame);
        write_frames(alloc, out_args, &["Source"], &[&[(then, then), (now, now)]])?;
        Ok(Reply::Ok)
    }

    fn is_identity(&self, _values: &Values, _in_args: &PropSet) -> Identity {
        Identity::No
    }

    fn render(
        &self,
        alloc: Global,
        values: &Values,
        _in_args: &PropSet,
        inputs: &Inputs<'_>,
        _hold: &mut Hold,
        ticket: &mut Ticket,
        out: &mut Part<'_>,
    ) -> Result<(), Memory> {
        let then = Reading {
            clip: SOURCE,
            frame: earlier(values),
        };
        let now = Reading {
            clip: SOURCE,
            frame: values.frame,
        };
        fill_pairs(alloc, &Differing, inputs, then, now, out)?;
        ticket.stamped = true;
        Ok(())
    }
}

// The earlier frame.
fn earlier(values: &Values) -> i64
    requires frame { IsFrame values.now.frame }
    requires lawful { IsLawful framediff_shape values.now }
    ensures { result ≡ earlier_of values.now }
{
    values.frame - values.number(0)
}

// How far two pixels are apart.
#[derive(Clone, Copy)]
struct Differing;

impl PairKernel for Differing {
    ghost is_ready = { λ _. Unit {0} };

    ghost of = { λ _ depth p q. differed p q };

    #[inline(always)]
    fn pair(&self, _depth: Depth, p: Pixel, q: Pixel) -> Pixel {
        match (p, q) {
            (
                Pixel::Rgba { r, g, b, a },
                Pixel::Rgba {
                    r: red,
                    g: green,
                    b: blue,
                    a: alpha,
                },
            ) => Pixel::Rgba {
                r: apart(r, red),
                g: apart(g, green),
                b: apart(b, blue),
                a: a.max(alpha),
            },
            (Pixel::Alpha { a }, Pixel::Alpha { a: alpha }) => Pixel::Alpha { a: apart(a, alpha) },
            _ => unreachable!(),
        }
    }

    #[inline(always)]
    fn pair_eight(&self, first: u8x32, second: u8x32) -> u8x32 {
        // Of each pixel r, g and b of the one vector, and a of the other.
        first.abs_diff(second).shuffle(
            first.simd_max(second),
            [
                0, 1, 2, 35, 4, 5, 6, 39, 8, 9, 10, 43, 12, 13, 14, 47, 16, 17, 18, 51, 20, 21, 22,
                55, 24, 25, 26, 59, 28, 29, 30, 63,
            ],
        )
    }
}

#[inline(always)]
fn apart(a: u16, b: u16) -> u16
    ensures { result ≡ apart a b }
{
    a.max(b) - a.min(b)
}
