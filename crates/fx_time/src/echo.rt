//! The effect echo.
ghost use Rattle.std.specs.Prelude.{◌≡◌, ◌≤◌, ◌<◌, ◌*◌, ℕ, suc, max, length, map, slice_index, IfOk};
ghost use Rattle.fx_base.specs.Rect.{columns, IsFrame};
ghost use Rattle.fx_pixel.specs.Pixel.{size};
ghost use Rattle.fx_image.specs.Stored.{pixel_size, sample_in};
ghost use Rattle.fx_effect.specs.Given.{ShowsClip, input_pixel};
ghost use Rattle.fx_effect.specs.Local.{own_taps};
ghost use Rattle.fx_effect.specs.Shape.{IsLawful};
ghost use Rattle.fx_time.specs.Times.{source_at, alone};
ghost use Rattle.fx_time.specs.Echo.{echo, echo_shape, echoed, weighed, moments, back as back_of, count as count_of, gap as gap_of};
ghost use Rattle.fx_time.specs.EchoLaws.{echo_laws};

use crate::parts::SOURCE;
use crate::weight::Weight;
use fx_base::{Memory, Rect, offset};
use fx_core::Ticket;
use fx_effect::{
    Context, Description, Identity, ImageEffect, Inputs, Reply, RowKernel, Safety, Values,
    clip_set, fill_with,
};
use fx_gate::Hold;
use fx_image::Part;
use fx_image::samples::{sample, set_sample};
use fx_kernel::blank_bytes;
use fx_params::ParamDef;
use fx_pixel::{Components, Depth};
use fx_props::{PropSet, write_frames};
use std::alloc::Global;

/// Of the current frame and of some before it the greatest of each sample, where a frame counts for less
/// the further back it is: a filter. Its parameters are count, how many frames before the current one, and
/// gap, how many frames there are from each to the next.
#[derive(Clone, Copy, Debug, PartialEq, Eq)]
pub struct Echo;

impl ImageEffect for Echo {
    ghost meaning = { λ _. echo };

    ghost laws = { λ _. echo_laws };

    fn describe(&self, alloc: Global, descriptor: &mut PropSet) -> Result<Reply, Memory> {
        let description = Description {
            label: "echo",
            contexts: &[Context::Filter, Context::General],
            depths: &[Depth::Byte, Depth::Short],
            temporal: true,
            tiles: true,
            safety: Safety::FullySafe,
        };
        description.write(alloc, descriptor)?;
        Ok(Reply::Ok)
    }

    fn describe_in_context(
        &self,
        alloc: Global,
        _context: Context,
        clips: &mut Vec<PropSet>,
        params: &mut Vec<ParamDef>,
    ) -> Result<Reply, Memory> {
        let components = [Components::Rgba, Components::Alpha];
        clips.push(clip_set(alloc, "Source", false, &components)?)?;
        params.push(ParamDef::int(alloc, "count", 0, 8, 2)?)?;
        params.push(ParamDef::int(alloc, "gap", 1, 8, 1)?)?;
        Ok(Reply::Ok)
    }

    fn get_region_of_definition(
        &self,
        _alloc: Global,
        _values: &Values,
        _regions: &[Rect],
        _in_args: &PropSet,
        _out_args: &mut PropSet,
    ) -> Result<Reply, Memory> {
        // The default is the hull of Source's regions over the frames needed.
        Ok(Reply::Default)
    }

    fn get_regions_of_interest(
        &self,
        _alloc: Global,
        _values: &Values,
        _in_args: &PropSet,
        _out_args: &mut PropSet,
    ) -> Result<Reply, Memory> {
        Ok(Reply::Default)
    }

    fn get_frames_needed(
        &self,
        alloc: Global,
        values: &Values,
        _in_args: &PropSet,
        out_args: &mut PropSet,
    ) -> Result<Reply, Memory> {
        let spans = spans(alloc, values.frame, gap(values), count(values))?;
        write_frames(alloc, out_args, &["Source"], &[spans.as_slice()])?;
        Ok(Reply::Ok)
    }

    fn is_identity(&self, values: &Values, _in_args: &PropSet) -> Identity {
        match count(values) {
            0 => Identity::Same {
                clip: SOURCE,
                frame: values.frame,
            },
            _ => Identity::No,
        }
    }

    fn render(
        &self,
        alloc: Global,
        values: &Values,
        _in_args: &PropSet,
        inputs: &Inputs<'_>,
        _hold: &mut Hold,
        ticket: &mut Ticket,
        out: &mut Part<'_>,
    ) -> Result<(), Memory> {
        let rows = EchoRows {
            inputs,
            frame: values.frame,
            count: count(values),
            gap: gap(values),
        };
        let mut bytes = blank_bytes(alloc, out.row_bytes())?;
        fill_with(&rows, &mut [], bytes.as_mut_slice(), out);
        ticket.stamped = true;
        Ok(())
    }
}

// How many frames are read before the current one.
fn count(values: &Values) -> usize
    requires { IsLawful echo_shape values.now }
    ensures value { result ≡ count_of values.now }
    ensures few { result ≤ 8 }
{
    values.number(0) as usize
}

// How many frames there are from each to the next.
fn gap(values: &Values) -> usize
    requires { IsLawful echo_shape values.now }
    ensures value { result ≡ gap_of values.now }
    ensures few { result ≤ 8 }
{
    values.number(1) as usize
}

// The frame that is k steps back.
fn back(frame: i64, gap: usize, k: usize) -> i64
    requires frame { IsFrame frame }
    requires gap { gap ≤ 8 }
    requires few { k ≤ 8 }
    ensures { result ≡ back_of frame gap k }
{
    frame - (k * gap) as i64
}

// The frames that are read, each as a span, from the farthest on.
fn spans(alloc: Global, frame: i64, gap: usize, count: usize) -> Result<Vec<(i64, i64)>, Memory>
    requires frame { IsFrame frame }
    requires gap { gap ≤ 8 }
    requires few { count ≤ 8 }
    ensures { IfOk result (λ spans. spans.items ≡ map alone (moments frame gap (suc count))) }
{
    let mut spans = Vec::new(alloc);
    for n in 0..count + 1 {
        let frame = back(frame, gap, count - n);
        spans.push((frame, frame))?;
    }
    Ok(spans)
}

// The rows of a render. The bytes have room for a row of one frame.
#[derive(Drop)]
struct EchoRows<'a, 'b> {
    inputs: &'a Inputs<'b>,
    frame: i64,
    count: usize,
    gap: usize,
}

impl<'a, 'b> RowKernel for EchoRows<'a, 'b> {
    ghost makes = { λ k depth c. ShowsClip k.inputs.now 0 depth c × IsFrame k.frame × (k.count ≤ 8) × (k.gap ≤ 8) };

    ghost pixel = { λ k depth c x y. echoed k.count c
        (map (input_pixel k.inputs.now) (own_taps (map source_at (moments k.frame k.gap (suc k.count))) x y)) };

    ghost byte_count = { λ k depth c rect. columns rect * pixel_size depth c };

    fn fill_row(
        &self,
        depth: Depth,
        components: Components,
        rect: Rect,
        y: i64,
        _cells: &mut [u64],
        bytes: &mut [u8],
        row: &mut [u8],
    ) {
        let samples = offset(rect.x1, rect.x2) * components.count() as usize;
        clear(row);
        for k in 0..self.count + 1 {
            let frame = back(self.frame, self.gap, k);
            self.inputs.read_row(SOURCE, frame, rect, y, bytes);
            louder_row(depth, Weight::of(self.count, k), bytes, row, samples);
        }
    }
}

// Sets every byte to 0.
fn clear(row: &mut [u8])
    ensures { (i : ℕ) → slice_index row.new i ≡ 0 }
{
    for byte in row.iter_mut() {
        *byte = 0;
    }
}

// Makes each sample of a row the greater one of it and of the weighed sample of another row.
fn louder_row(depth: Depth, weight: Weight, other: &[u8], row: &mut [u8], count: usize)
    requires other { length other.now ≡ count * size depth }
    requires long { length row.old ≡ count * size depth }
    ensures { (s : ℕ) → s < count → sample_in depth row.new s
        ≡ max (weighed weight.count weight.back (sample_in depth other.now s)) (sample_in depth row.old s) }
{
    match depth {
        Depth::Byte => louder_samples(Depth::Byte, weight, other, row, count),
        Depth::Short => louder_samples(Depth::Short, weight, other, row, count),
    }
}

#[inline(always)]
fn louder_samples(depth: Depth, weight: Weight, other: &[u8], row: &mut [u8], count: usize)
    requires other { length other.now ≡ count * size depth }
    requires long { length row.old ≡ count * size depth }
    ensures { (s : ℕ) → s < count → sample_in depth row.new s
        ≡ max (weighed weight.count weight.back (sample_in depth other.now s)) (sample_in depth row.old s) }
{
    for s in 0..count {
        let weighed = weight.weighed(sample(depth, other, s));
        set_sample(depth, row, s, weighed.max(sample(depth, row, s)));
    }
}
