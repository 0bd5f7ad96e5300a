//! The effect merge.
ghost use Rattle.std.specs.Prelude.{◌≡◌, OnOk};
ghost use Rattle.fx_image.specs.Part.{IsPart, SamePart, IsWritten};
ghost use Rattle.fx_pixel.specs.Pixel.{greatest};
ghost use Rattle.fx_effect.specs.Given.{row_pixel};
ghost use Rattle.fx_effect.specs.Shape.{IsLawful};
ghost use Rattle.fx_effect.specs.Numbers.{number};
ghost use Rattle.fx_effect.specs.Pairs.{ShowsPair, pair_pixel};
ghost use Rattle.fx_merge.specs.Merge.{merge, merge_shape, merged, operation_at};
ghost use Rattle.fx_merge.specs.MergeLaws.{merge_laws};

use crate::operation::{Max, Min, Minus, Multiply, Operation, Over, Plus, SampleRule, Screen};
use fx_base::{Memory, Rect};
use fx_core::Ticket;
use fx_effect::{
    Context, Description, Identity, ImageEffect, Inputs, PairKernel, Reading, Reply, Safety,
    Values, clip_set, fill_pairs,
};
use fx_gate::Hold;
use fx_image::Part;
use fx_kernel::lanes;
use fx_params::ParamDef;
use fx_pixel::{Components, Depth, Pixel};
use fx_props::PropSet;
use std::alloc::Global;
use std::simd::prelude::*;

/// Makes each sample, a too, of the samples of its clips A and B, by the operation that its one parameter
/// chooses: over, plus, multiply, screen, min, max or minus. Nothing is tracked of premultiplication.
#[derive(Clone, Copy, Debug, PartialEq, Eq)]
pub struct Merge;

// The places of the clips.
const A: u32 = 0;

const B: u32 = 1;

// The operations, in their order.
const CHOICES: [&str; 7] = ["over", "plus", "multiply", "screen", "min", "max", "minus"];

impl ImageEffect for Merge {
    ghost meaning = { λ _. merge };

    ghost laws = { λ _. merge_laws };

    fn describe(&self, alloc: Global, descriptor: &mut PropSet) -> Result<Reply, Memory> {
        let description = Description {
            label: "merge",
            contexts: &[Context::General],
            depths: &[Depth::Byte, Depth::Short],
            temporal: false,
            tiles: true,
            safety: Safety::FullySafe,
        };
        description.write(alloc, descriptor)?;
        Ok(Reply::Ok)
    }

    fn describe_in_context(
        &self,
        alloc: Global,
        _context: Context,
        clips: &mut Vec<PropSet>,
        params: &mut Vec<ParamDef>,
    ) -> Result<Reply, Memory> {
        let components = [Components::Rgba, Components::Alpha];
        clips.push(clip_set(alloc, "A", false, &components)?)?;
        clips.push(clip_set(alloc, "B", false, &components)?)?;
        params.push(ParamDef::choice(alloc, "operation", &CHOICES, 0)?)?;
        Ok(Reply::Ok)
    }

    fn get_region_of_definition(
        &self,
        _alloc: Global,
        _values: &Values,
        _regions: &[Rect],
        _in_args: &PropSet,
        _out_args: &mut PropSet,
    ) -> Result<Reply, Memory> {
        // The default is the hull of the regions of A and B.
        Ok(Reply::Default)
    }

    fn get_regions_of_interest(
        &self,
        _alloc: Global,
        _values: &Values,
        _in_args: &PropSet,
        _out_args: &mut PropSet,
    ) -> Result<Reply, Memory> {
        Ok(Reply::Default)
    }

    fn get_frames_needed(
        &self,
        _alloc: Global,
        _values: &Values,
        _in_args: &PropSet,
        _out_args: &mut PropSet,
    ) -> Result<Reply, Memory> {
        Ok(Reply::Default)
    }

    fn is_identity(&self, _values: &Values, _in_args: &PropSet) -> Identity {
        Identity::No
    }

    fn render(
        &self,
        alloc: Global,
        values: &Values,
        _in_args: &PropSet,
        inputs: &Inputs<'_>,
        _hold: &mut Hold,
        ticket: &mut Ticket,
        out: &mut Part<'_>,
    ) -> Result<(), Memory> {
        let frame = values.frame;
        merge_by(alloc, operation(values), inputs, frame, out)?;
        ticket.stamped = true;
        Ok(())
    }
}

// The operation that is chosen.
fn operation(values: &Values) -> Operation
    requires { IsLawful merge_shape values.now }
    ensures { result ≡ operation_at (number values.now 0) }
{
    match values.number(0) {
        0 => Operation::Over,
        1 => Operation::Plus,
        2 => Operation::Multiply,
        3 => Operation::Screen,
        4 => Operation::Min,
        5 => Operation::Max,
        _ => Operation::Minus,
    }
}

// Fills a part with what an operation makes of A and B at a frame.
fn merge_by(
    alloc: Global,
    operation: Operation,
    inputs: &Inputs<'_>,
    frame: i64,
    out: &mut Part<'_>,
) -> Result<(), Memory>
    requires part { IsPart out.old }
    requires shows { let image = out.old.image.now in
        ShowsPair inputs.now (record { clip = 0; frame = frame }) (record { clip = 1; frame = frame })
        image.depth image.components }
    ensures same_part { SamePart out.old out.new }
    ensures written { let m = greatest out.old.image.now.depth in
        OnOk result (IsWritten out.old out.new
        (λ x y. merged operation m (row_pixel inputs.now 0 frame x y) (row_pixel inputs.now 1 frame x y))) }
{
    match operation {
        Operation::Over => fill(alloc, Over, inputs, frame, out),
        Operation::Plus => fill(alloc, Plus, inputs, frame, out),
        Operation::Multiply => fill(alloc, Multiply, inputs, frame, out),
        Operation::Screen => fill(alloc, Screen, inputs, frame, out),
        Operation::Min => fill(alloc, Min, inputs, frame, out),
        Operation::Max => fill(alloc, Max, inputs, frame, out),
        Operation::Minus => fill(alloc, Minus, inputs, frame, out),
    }
}

// The same for one operation, for which the loop is made.
fn fill<R: SampleRule + Drop>(
    alloc: Global,
    rule: R,
    inputs: &Inputs<'_>,
    frame: i64,
    out: &mut Part<'_>,
) -> Result<(), Memory>
    requires part { IsPart out.old }
    requires shows { let image = out.old.image.now in
        ShowsPair inputs.now (record { clip = 0; frame = frame }) (record { clip = 1; frame = frame })
        image.depth image.components }
    ensures same_part { SamePart out.old out.new }
    ensures written { let m = greatest out.old.image.now.depth in
        OnOk result (IsWritten out.old out.new
        (λ x y. merged R.operation m (row_pixel inputs.now 0 frame x y) (row_pixel inputs.now 1 frame x y))) }
{
    let first = Reading { clip: A, frame };
    let second = Reading { clip: B, frame };
    fill_pairs(alloc, &Merging { rule }, inputs, first, second, out)
}

// An operation on the samples of two pixels.
#[derive(Clone, Copy)]
struct Merging<R> {
    rule: R,
}

impl<R: SampleRule> PairKernel for Merging<R> {
    ghost is_ready = { λ _. Unit {0} };

    ghost of = { λ _ depth p q. merged R.operation (greatest depth) p q };

    #[inline(always)]
    fn pair(&self, depth: Depth, p: Pixel, q: Pixel) -> Pixel {
        match (p, q) {
            (
                Pixel::Rgba { r, g, b, a },
                Pixel::Rgba {
                    r: red,
                    g: green,
                    b: blue,
                    a: alpha,
                },
            ) => Pixel::Rgba {
                r: self.rule.sample(depth, a, r, red),
                g: self.rule.sample(depth, a, g, green),
                b: self.rule.sample(depth, a, b, blue),
                a: self.rule.sample(depth, a, a, alpha),
            },
            (Pixel::Alpha { a }, Pixel::Alpha { a: alpha }) => Pixel::Alpha {
                a: self.rule.sample(depth, a, a, alpha),
            },
            _ => unreachable!(),
        }
    }

    #[inline(always)]
    fn pair_eight(&self, first: u8x32, second: u8x32) -> u8x32 {
        self.rule.lanes(lanes::alphas(first), first, second)
    }
}
