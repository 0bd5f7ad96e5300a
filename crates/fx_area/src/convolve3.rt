//! The effect convolve3.
ghost use Rattle.std.specs.Prelude.{◌≡◌, ◌≤◌, ◌<◌, ◌+◌, ◌*◌, ◌/◌, ℕ, pos, ◌+ℤ◌, ◌-ℤ◌, ◌*ℤ◌, ◌<ℤ◌, [], ◌∷◌, ◌++◌, length, slice_index, OnOk};
ghost use Rattle.fx_pixel.specs.declared.Depth.TheVariants.{Byte};
ghost use Rattle.std.specs.Ordering.{int_eq};
ghost use Rattle.fx_base.specs.Rect.{columns, IsNear, IsStep};
ghost use Rattle.fx_pixel.specs.Pixel.{size, greatest, count as count_of};
ghost use Rattle.fx_image.specs.Stored.{pixel_size, sample_in, pixel_in};
ghost use Rattle.fx_effect.specs.Asked.{MayRender};
ghost use Rattle.fx_effect.specs.Given.{row_pixel, ShowsClip};
ghost use Rattle.fx_effect.specs.Meaning.{rendered};
ghost use Rattle.fx_effect.specs.Numbers.{number};
ghost use Rattle.fx_effect.specs.Shape.{IsLawful};
ghost use Rattle.fx_area.specs.Convolve3.{convolve3, convolve_shape, divisor, factor, keeps_source, rounded_z};
ghost use Rattle.fx_kernel.specs.Samples.{clamped};
ghost use Rattle.fx_area.specs.Convolve3Laws.{convolve3_laws};
ghost use Rattle.fx_area.specs.ConvolveRows.{
  triple_of,
  factors_of,
  IsTriple,
  AreFactors,
  IsDivisor,
  triple_sum,
  convolved_sample,
  line_size,
};

use crate::lines::{Line, SOURCE, read_line};
use fx_base::{Memory, Rect, offset};
use fx_core::Ticket;
use fx_effect::{
    Context, Description, Identity, ImageEffect, Inputs, Reply, RowKernel, Safety, Values,
    asked_region, clip_set, fill_with, region_of,
};
use fx_gate::Hold;
use fx_image::Part;
use fx_image::samples::{pixel_size, sample, set_sample};
use fx_kernel::Mean;
use fx_params::ParamDef;
use fx_pixel::{Components, Depth};
use fx_props::names::REGION;
use fx_props::{PropSet, write_interest, write_region};
use std::alloc::Global;
use std::simd::prelude::*;

/// The sum of the nine pixels at most one column and one row away, each times a number, divided by a
/// divisor: a filter. The numbers are k1 to k9, by rows from the top, from -256 to 256; the parameter
/// divisor goes from 1 to 65,536.
#[derive(Clone, Copy, Debug, PartialEq, Eq)]
pub struct Convolve3;

impl ImageEffect for Convolve3 {
    ghost meaning = { λ _. convolve3 };

    ghost laws = { λ _. convolve3_laws };

    fn describe(&self, alloc: Global, descriptor: &mut PropSet) -> Result<Reply, Memory> {
        let description = Description {
            label: "convolve3",
            contexts: &[Context::Filter, Context::General],
            depths: &[Depth::Byte, Depth::Short],
            temporal: false,
            tiles: true,
            safety: Safety::FullySafe,
        };
        description.write(alloc, descriptor)?;
        Ok(Reply::Ok)
    }

    fn describe_in_context(
        &self,
        alloc: Global,
        _context: Context,
        clips: &mut Vec<PropSet>,
        params: &mut Vec<ParamDef>,
    ) -> Result<Reply, Memory> {
        let components = [Components::Rgba, Components::Alpha];
        clips.push(clip_set(alloc, "Source", false, &components)?)?;
        add_triple(alloc, params, "k1", "k2", "k3", 0)?;
        add_triple(alloc, params, "k4", "k5", "k6", 1)?;
        add_triple(alloc, params, "k7", "k8", "k9", 0)?;
        params.push(ParamDef::int(alloc, "divisor", 1, 65536, 1)?)?;
        Ok(Reply::Ok)
    }

    fn get_region_of_definition(
        &self,
        alloc: Global,
        _values: &Values,
        regions: &[Rect],
        _in_args: &PropSet,
        out_args: &mut PropSet,
    ) -> Result<Reply, Memory> {
        let region = region_of(regions, 0).grow(1, 1);
        write_region(alloc, out_args, REGION, region)?;
        Ok(Reply::Ok)
    }

    fn get_regions_of_interest(
        &self,
        alloc: Global,
        _values: &Values,
        in_args: &PropSet,
        out_args: &mut PropSet,
    ) -> Result<Reply, Memory> {
        let region = asked_region(in_args).grow(1, 1);
        write_interest(alloc, out_args, &["Source"], &[region])?;
        Ok(Reply::Ok)
    }

    fn get_frames_needed(
        &self,
        _alloc: Global,
        _values: &Values,
        _in_args: &PropSet,
        _out_args: &mut PropSet,
    ) -> Result<Reply, Memory> {
        Ok(Reply::Default)
    }

    fn is_identity(&self, values: &Values, _in_args: &PropSet) -> Identity {
        if keeps_source(values) {
            Identity::Same {
                clip: SOURCE,
                frame: values.frame,
            }
        } else {
            Identity::No
        }
    }

    fn render(
        &self,
        alloc: Global,
        values: &Values,
        _in_args: &PropSet,
        inputs: &Inputs<'_>,
        _hold: &mut Hold,
        ticket: &mut Ticket,
        out: &mut Part<'_>,
    ) -> Result<(), Memory> {
        let mut bytes = Vec::new(alloc);
        let line = out.row_bytes() + 2 * pixel_size(out.depth(), out.components());
        bytes.resize(3 * line, 0)?;
        let divisor = divisor(values);
        let rows = ConvolvedRows {
            values,
            inputs,
            factors: Factors::of(values),
            divisor,
            mean: Mean::of(divisor),
        };
        fill_with(&rows, &mut [], bytes.as_mut_slice(), out);
        ticket.stamped = true;
        Ok(())
    }
}

// Adds the numbers of three places of a row, from the left: 0 at the start, but for the middle one.
fn add_triple(
    alloc: Global,
    params: &mut Vec<ParamDef>,
    left: &str,
    middle: &str,
    right: &str,
    start: i64,
) -> Result<(), Memory>
    ensures { OnOk result (params.new.items ≡ params.old.items
        ++ factor left.now (pos 0) ∷ factor middle.now start ∷ factor right.now (pos 0) ∷ []) }
{
    add_factor(alloc, params, left, 0)?;
    add_factor(alloc, params, middle, start)?;
    add_factor(alloc, params, right, 0)
}

// Adds the number of a place, with what it is at the start.
fn add_factor(
    alloc: Global,
    params: &mut Vec<ParamDef>,
    name: &str,
    start: i64,
) -> Result<(), Memory>
    ensures { OnOk result (params.new.items ≡ params.old.items ++ factor name.now start ∷ []) }
{
    params.push(ParamDef::int(alloc, name, -256, 256, start)?)?;
    Ok(())
}

// Whether the middle number is the divisor, and the others are 0.
fn keeps_source(values: &Values) -> bool
    ensures { result ≡ keeps_source values.now }
{
    let below = is_zero(values, 6) & (is_zero(values, 7) & is_zero(values, 8));
    let beside = is_zero(values, 3) & (is_zero(values, 5) & below);
    let above = is_zero(values, 0) & (is_zero(values, 1) & (is_zero(values, 2) & beside));
    are_equal(values, 4, 9) & above
}

// Whether a parameter's number is 0.
fn is_zero(values: &Values, place: usize) -> bool
    ensures { result ≡ int_eq (number values.now place) (pos 0) }
{
    values.number(place) == 0
}

// Whether two parameters have one number.
fn are_equal(values: &Values, one: usize, other: usize) -> bool
    ensures { result ≡ int_eq (number values.now one) (number values.now other) }
{
    values.number(one) == values.number(other)
}

// What the sums are divided by.
fn divisor(values: &Values) -> u64
    requires { IsLawful convolve_shape values.now }
    ensures value { result ≡ divisor values.now }
    ensures some { 0 < result }
    ensures few { result ≤ 65536 }
{
    values.number(9).unsigned_abs()
}

// How many samples of 8 bits are made at once.
const LANES: usize = 16;

// No sum of three products of samples of 8 bits is further below 0.
const BIAS: u32 = 195840;

// The quotients of samples of 8 bits are those of 2^42.
const SHIFT: u64 = 42;

/// The numbers of three places of a row, from the left.
#[derive(Clone, Copy, Debug)]
pub(crate) struct Triple {
    left: i64,
    middle: i64,
    right: i64,
}

impl Triple {
    // The numbers of three parameters, from this one on.
    fn of(values: &Values, first: usize) -> Triple
        requires lawful { IsLawful convolve_shape values.now }
        requires first { first ≤ 6 }
        ensures value { result ≡ triple_of values.now first }
        ensures few { IsTriple result }
    {
        Triple {
            left: values.number(first),
            middle: values.number(first + 1),
            right: values.number(first + 2),
        }
    }

    // The sum of sample s and those one and two pixels behind it, each times its number.
    #[inline(always)]
    fn sum(self, depth: Depth, step: usize, line: &[u8], s: usize) -> i64
        requires few { IsTriple self }
        requires step { step ≤ 4 }
        requires room { size depth * (s + 2 * step) + size depth ≤ length line.now }
        ensures value { result ≡ triple_sum self depth step line.now s }
        ensures near { IsStep 50331648 result }
    {
        let left = product(self.left, sample(depth, line, s));
        let middle = product(self.middle, sample(depth, line, s + step));
        let right = product(self.right, sample(depth, line, s + 2 * step));
        left + middle + right
    }

    // The sums of sixteen samples of 8 bits from this one on, each with the bias.
    #[inline(always)]
    fn lanes(self, step: usize, line: &[u8], s: usize) -> u32x16
        requires few { IsTriple self }
        requires step { step ≤ 4 }
        requires room { s + 2 * step + 16 ≤ length line.now }
        ensures len { length result ≡ 16 }
        ensures value { (i : ℕ) → i < 16
            → pos (slice_index result i) ≡ triple_sum self Byte step line.now (s + i) +ℤ pos 195840 }
        ensures few { (i : ℕ) → i < 16 → slice_index result i ≤ 391680 }
    {
        // Products of numbers below 0 wrap, and the sum with the bias doesn't.
        let left = lanes_at(line, s) * u32x16::splat((self.left as i32).cast_unsigned());
        let middle = lanes_at(line, s + step) * u32x16::splat((self.middle as i32).cast_unsigned());
        let right = lanes_at(line, s + 2 * step)
            * u32x16::splat((self.right as i32).cast_unsigned());
        u32x16::splat(BIAS) + left + middle + right
    }
}

// Sixteen samples of 8 bits.
#[inline(always)]
fn lanes_at(line: &[u8], at: usize) -> u32x16
    requires { at + 16 ≤ length line.now }
    ensures len { length result ≡ 16 }
    ensures value { (i : ℕ) → i < 16 → slice_index result i ≡ slice_index line.now (at + i) }
    ensures few { (i : ℕ) → i < 16 → slice_index result i ≤ 255 }
{
    u8x16::from_slice(&line[at..]).cast::<u32>()
}

// Sums with three times the bias, each without it divided by the divisor, to the nearest, and brought into the
// range of 8 bits.
#[inline(always)]
fn means(divisor: u32, factor: u64, sums: u32x16) -> u8x16
    requires divisor { IsDivisor divisor }
    requires factor { factor ≡ 4398046511104 / (2 * divisor) + 1 }
    requires sums { (i : ℕ) → i < 16 → slice_index sums i ≤ 1175040 }
    ensures len { length result ≡ 16 }
    ensures value { (i : ℕ) → i < 16
        → slice_index result i ≡ clamped 255 (rounded_z (pos (slice_index sums i) -ℤ pos 587520) divisor) }
{
    let above = sums.saturating_sub(u32x16::splat(3 * BIAS));
    let capped = above.simd_min(u32x16::splat(255 * divisor));
    let halves = (capped + capped + u32x16::splat(divisor)).cast::<u64>();
    ((halves * u64x16::splat(factor)) >> SHIFT).cast::<u8>()
}

// A sample times its number.
#[inline(always)]
fn product(number: i64, sample: u16) -> i64
    requires { IsStep 256 number }
    ensures value { result ≡ number *ℤ pos sample }
    ensures near { IsStep 16776960 result }
{
    number * i64::from(sample)
}

/// The numbers of the nine places, by rows from the top.
#[derive(Clone, Copy, Debug)]
pub(crate) struct Factors {
    top: Triple,
    middle: Triple,
    bottom: Triple,
}

impl Factors {
    fn of(values: &Values) -> Factors
        requires { IsLawful convolve_shape values.now }
        ensures value { result ≡ factors_of values.now }
        ensures few { AreFactors result }
    {
        Factors {
            top: Triple::of(values, 0),
            middle: Triple::of(values, 3),
            bottom: Triple::of(values, 6),
        }
    }
}

// The rows of a render.
#[derive(Drop)]
struct ConvolvedRows<'a, 'b> {
    values: &'a Values,
    inputs: &'a Inputs<'b>,
    factors: Factors,
    divisor: u64,
    mean: Mean,
}

impl<'a, 'b> RowKernel for ConvolvedRows<'a, 'b> {
    ghost makes = { λ k depth c. MayRender convolve_shape k.values.now k.inputs.now depth c
        × (k.factors ≡ factors_of k.values.now) × AreFactors k.factors × (k.divisor ≡ divisor k.values.now)
        × IsDivisor k.divisor × (k.mean ≡ k.divisor) };

    ghost pixel = { λ k depth c x y. rendered convolve3 k.values.now k.inputs.now depth c x y };

    ghost byte_count = { λ k depth c rect. 3 * line_size depth c rect };

    fn fill_row(
        &self,
        depth: Depth,
        components: Components,
        rect: Rect,
        y: i64,
        _cells: &mut [u64],
        bytes: &mut [u8],
        row: &mut [u8],
    ) {
        let line = row.len() + 2 * pixel_size(depth, components);
        let (top, rest) = bytes.split_at_mut(line);
        let (middle, bottom) = rest.split_at_mut(line);
        self.read(depth, components, rect, y + 1, top);
        self.read(depth, components, rect, y, middle);
        self.read(depth, components, rect, y - 1, bottom);
        self.convolve(depth, components, top, middle, bottom, row);
    }
}

impl<'a, 'b> ConvolvedRows<'a, 'b> {
    // Reads the pixels of row y for a row of the rectangle: one more on either side.
    fn read(&self, depth: Depth, components: Components, rect: Rect, y: i64, line: &mut [u8])
        requires source { ShowsClip self.now.inputs.now 0 depth components }
        requires near { IsNear rect }
        requires wide { rect.x1 <ℤ rect.x2 }
        requires row { IsStep 2147483648 y }
        requires long { length line.old ≡ line_size depth components rect }
        ensures { let k = self.now in (i : ℕ) → i < columns rect + 2
            → pixel_in depth components line.new i
            ≡ row_pixel k.inputs.now 0 k.values.now.frame ((rect.x1 -ℤ pos 1) +ℤ pos i) y }
    {
        let pixels = Line {
            frame: self.values.frame,
            x: rect.x1 - 1,
            y,
            count: offset(rect.x1, rect.x2) + 2,
        };
        read_line(self.inputs, depth, components, pixels, line);
    }

    // Writes a row whose samples are made of three of each line.
    fn convolve(
        &self,
        depth: Depth,
        components: Components,
        top: &[u8],
        middle: &[u8],
        bottom: &[u8],
        row: &mut [u8],
    )
        requires factors { AreFactors self.now.factors }
        requires divisor { IsDivisor self.now.divisor }
        requires mean { self.now.mean ≡ self.now.divisor }
        requires top { length top.now ≡ length row.old + 2 * pixel_size depth components }
        requires middle { length middle.now ≡ length row.old + 2 * pixel_size depth components }
        requires bottom { length bottom.now ≡ length row.old + 2 * pixel_size depth components }
        ensures { let k = self.now in (s : ℕ) → s * size depth + size depth ≤ length row.old
            → sample_in depth row.new s ≡ convolved_sample k.factors k.divisor depth (count_of components)
            top.now middle.now bottom.now s }
    {
        match depth {
            Depth::Byte => self.convolve_bytes(components, top, middle, bottom, row),
            Depth::Short => {
                self.convolve_each(Depth::Short, components, top, middle, bottom, row, 0)
            }
        }
    }

    // The same for samples of 8 bits: sixteen at once, and those that are left one by one.
    fn convolve_bytes(
        &self,
        components: Components,
        top: &[u8],
        middle: &[u8],
        bottom: &[u8],
        row: &mut [u8],
    )
        requires factors { AreFactors self.now.factors }
        requires divisor { IsDivisor self.now.divisor }
        requires mean { self.now.mean ≡ self.now.divisor }
        requires top { length top.now ≡ length row.old + 2 * count_of components }
        requires middle { length middle.now ≡ length row.old + 2 * count_of components }
        requires bottom { length bottom.now ≡ length row.old + 2 * count_of components }
        ensures { let k = self.now in (s : ℕ) → s < length row.old
            → slice_index row.new s ≡ convolved_sample k.factors k.divisor Byte (count_of components)
            top.now middle.now bottom.now s }
    {
        let step = components.count() as usize;
        let factors = self.factors;
        let factor = (1 << SHIFT) / (2 * self.divisor) + 1;
        let whole = row.len() / LANES;
        for block in 0..whole {
            let at = LANES * block;
            let high = factors.top.lanes(step, top, at);
            let level = factors.middle.lanes(step, middle, at);
            let low = factors.bottom.lanes(step, bottom, at);
            means(self.divisor as u32, factor, high + level + low).copy_to_slice(&mut row[at..]);
        }
        self.convolve_each(
            Depth::Byte,
            components,
            top,
            middle,
            bottom,
            row,
            LANES * whole,
        );
    }

    // Writes the samples from the one with number `first` on.
    #[inline(always)]
    fn convolve_each(
        &self,
        depth: Depth,
        components: Components,
        top: &[u8],
        middle: &[u8],
        bottom: &[u8],
        row: &mut [u8],
        first: usize,
    )
        requires factors { AreFactors self.now.factors }
        requires divisor { IsDivisor self.now.divisor }
        requires mean { self.now.mean ≡ self.now.divisor }
        requires top { length top.now ≡ length row.old + 2 * pixel_size depth components }
        requires middle { length middle.now ≡ length row.old + 2 * pixel_size depth components }
        requires bottom { length bottom.now ≡ length row.old + 2 * pixel_size depth components }
        ensures left { (s : ℕ) → s < first → sample_in depth row.new s ≡ sample_in depth row.old s }
        ensures done { let k = self.now in (s : ℕ) → first ≤ s → s * size depth + size depth ≤ length row.old
            → sample_in depth row.new s ≡ convolved_sample k.factors k.divisor depth (count_of components)
            top.now middle.now bottom.now s }
    {
        let step = components.count() as usize;
        let factors = self.factors;
        for s in first..row.len() / depth.size() as usize {
            let high = factors.top.sum(depth, step, top, s);
            let level = factors.middle.sum(depth, step, middle, s);
            let low = factors.bottom.sum(depth, step, bottom, s);
            set_sample(depth, row, s, self.divided(depth, high + level + low));
        }
    }

    // A sum divided by the divisor, to the nearest, and brought into the samples' range.
    #[inline(always)]
    fn divided(&self, depth: Depth, sum: i64) -> u16
        requires divisor { IsDivisor self.now.divisor }
        requires mean { self.now.mean ≡ self.now.divisor }
        ensures value { result ≡ clamped (greatest depth) (rounded_z sum self.now.divisor) }
        ensures bound { result ≤ greatest depth }
    {
        let most = u64::from(depth.greatest());
        if sum <= 0 {
            0
        } else if sum.unsigned_abs() >= most * self.divisor {
            most as u16
        } else {
            self.mean.sample(depth, sum.unsigned_abs())
        }
    }
}
