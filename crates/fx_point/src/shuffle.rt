//! The effect shuffle.
ghost use Rattle.std.specs.Prelude.{◌≡◌, ◌<◌, ℕ, [], ◌∷◌, ◌++◌, OnOk, slice_index};
ghost use Rattle.fx_params.specs.Def.{choice_def};
ghost use Rattle.fx_point.specs.Shuffle.{shuffle, choices, chosen, shuffled, keeps_all, IsChoice};
ghost use Rattle.fx_point.specs.Picks.{place_of, IsPlace, ArePicked};
ghost use Rattle.fx_point.specs.ShuffleLaws.{shuffle_laws};

use crate::filter::describe;
use fx_base::{Memory, Rect};
use fx_core::Ticket;
use fx_effect::{
    Context, Identity, ImageEffect, Inputs, PointKernel, Reply, Values, clip_set, fill_points,
};
use fx_gate::Hold;
use fx_image::Part;
use fx_params::ParamDef;
use fx_pixel::{Components, Depth, Pixel};
use fx_props::PropSet;
use std::alloc::Global;
use std::simd::prelude::*;

/// Makes each of r, g, b and a one of the pixel's samples, or 0: a filter for RGBA. It has one clip,
/// Source, and the parameters r, g, b and a, each one of the choices r, g, b, a and zero.
#[derive(Clone, Copy, Debug, PartialEq, Eq)]
pub struct Shuffle;

// The place of the clip Source.
const SOURCE: u32 = 0;

// What a sample may be, in the order of the samples in `Shuffling::point`.
const CHOICES: [&str; 5] = ["r", "g", "b", "a", "zero"];

impl ImageEffect for Shuffle {
    ghost meaning = { λ _. shuffle };

    ghost laws = { λ _. shuffle_laws };

    fn describe(&self, alloc: Global, descriptor: &mut PropSet) -> Result<Reply, Memory> {
        describe(alloc, "shuffle", &[Depth::Byte, Depth::Short], descriptor)
    }

    fn describe_in_context(
        &self,
        alloc: Global,
        _context: Context,
        clips: &mut Vec<PropSet>,
        params: &mut Vec<ParamDef>,
    ) -> Result<Reply, Memory> {
        clips.push(clip_set(alloc, "Source", false, &[Components::Rgba])?)?;
        add_choice(alloc, params, "r", 0)?;
        add_choice(alloc, params, "g", 1)?;
        add_choice(alloc, params, "b", 2)?;
        add_choice(alloc, params, "a", 3)?;
        Ok(Reply::Ok)
    }

    fn get_region_of_definition(
        &self,
        _alloc: Global,
        _values: &Values,
        _regions: &[Rect],
        _in_args: &PropSet,
        _out_args: &mut PropSet,
    ) -> Result<Reply, Memory> {
        // The default is the region of Source, and so is that of the general context.
        Ok(Reply::Default)
    }

    fn get_regions_of_interest(
        &self,
        _alloc: Global,
        _values: &Values,
        _in_args: &PropSet,
        _out_args: &mut PropSet,
    ) -> Result<Reply, Memory> {
        // A pixel reads Source at its own place, which the default region of interest has.
        Ok(Reply::Default)
    }

    fn get_frames_needed(
        &self,
        _alloc: Global,
        _values: &Values,
        _in_args: &PropSet,
        _out_args: &mut PropSet,
    ) -> Result<Reply, Memory> {
        Ok(Reply::Default)
    }

    fn is_identity(&self, values: &Values, _in_args: &PropSet) -> Identity {
        if keeps_all(values) {
            Identity::Same {
                clip: SOURCE,
                frame: values.frame,
            }
        } else {
            Identity::No
        }
    }

    fn render(
        &self,
        _alloc: Global,
        values: &Values,
        _in_args: &PropSet,
        inputs: &Inputs<'_>,
        _hold: &mut Hold,
        ticket: &mut Ticket,
        out: &mut Part<'_>,
    ) -> Result<(), Memory> {
        let shuffling = Shuffling {
            r: values.number(0),
            g: values.number(1),
            b: values.number(2),
            a: values.number(3),
        };
        fill_points(&shuffling, inputs, SOURCE, values.frame, out);
        ticket.stamped = true;
        Ok(())
    }
}

// Adds the parameter of a sample, with the place of what it is at the start.
fn add_choice(
    alloc: Global,
    params: &mut Vec<ParamDef>,
    name: &str,
    start: u32,
) -> Result<(), Memory>
    ensures { OnOk result (params.new.items ≡ params.old.items ++ choice_def name.now choices start ∷ []) }
{
    params.push(ParamDef::choice(alloc, name, &CHOICES, start)?)?;
    Ok(())
}

// Whether each sample is its own.
fn keeps_all(values: &Values) -> bool
    ensures { result ≡ keeps_all values.now }
{
    (values.number(0) == 0)
        & (values.number(1) == 1)
        & (values.number(2) == 2)
        & (values.number(3) == 3)
}

// The place that stands for 0 where bytes are picked.
const NO_PLACE: u8 = 128;

// What is made of a pixel, by the places of the choices.
#[derive(Clone, Copy)]
struct Shuffling {
    r: i64,
    g: i64,
    b: i64,
    a: i64,
}

impl PointKernel for Shuffling {
    ghost is_ready = { λ k. IsChoice k.r × IsChoice k.g × IsChoice k.b × IsChoice k.a };

    ghost of = { λ k depth p. shuffled k.r k.g k.b k.a p };

    fn point(&self, _depth: Depth, p: Pixel) -> Pixel {
        match p {
            Pixel::Rgba { r, g, b, a } => {
                let samples = [r, g, b, a, 0];
                Pixel::Rgba {
                    r: chosen(&samples, self.r),
                    g: chosen(&samples, self.g),
                    b: chosen(&samples, self.b),
                    a: chosen(&samples, self.a),
                }
            }
            Pixel::Alpha { a } => Pixel::Alpha { a },
        }
    }

    fn eight(&self, pixels: u8x32) -> u8x32 {
        let places = [place(self.r), place(self.g), place(self.b), place(self.a)];
        picked(pixels, u8x4::from_array(places))
    }
}

// The samples are lent, so that they are stored once a pixel and not once a choice.
#[inline(always)]
fn chosen(samples: &[u16; 5], choice: i64) -> u16
    requires { IsChoice choice }
    ensures { result ≡ chosen samples.now choice }
{
    samples[choice as usize]
}

// The place of a choice among the bytes of a pixel. What is chosen last is 0, and has none: it is put at 128.
#[inline(always)]
fn place(choice: i64) -> u8
    requires { IsChoice choice }
    ensures { result ≡ place_of choice }
{
    if choice == 4 { NO_PLACE } else { choice as u8 }
}

// Of each pixel the bytes at the places, and 0 for no place.
#[inline(always)]
fn picked(pixels: u8x32, places: u8x4) -> u8x32
    requires { (k : ℕ) → k < 4 → IsPlace (slice_index places k) }
    ensures { ArePicked pixels places result }
{
    // A lane is read from its own half of the vector, at a place that is counted from there.
    let firsts = u8x32::from_array([
        0, 0, 0, 0, 4, 4, 4, 4, 8, 8, 8, 8, 12, 12, 12, 12, 0, 0, 0, 0, 4, 4, 4, 4, 8, 8, 8, 8, 12,
        12, 12, 12,
    ]);
    let all = places.swizzle([
        0, 1, 2, 3, 0, 1, 2, 3, 0, 1, 2, 3, 0, 1, 2, 3, 0, 1, 2, 3, 0, 1, 2, 3, 0, 1, 2, 3, 0, 1,
        2, 3,
    ]);
    pixels.swizzle_dyn_within::<16>(all + firsts)
}
