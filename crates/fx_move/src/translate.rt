//! The effect translate.
ghost use Rattle.std.specs.Prelude.{◌≡◌, ◌≤◌, ◌<◌, ◌+◌, ◌-◌, ◌*◌, ℕ, ℤ, pos, neg_ℤ, ◌+ℤ◌, ◌-ℤ◌, ◌≤ℤ◌, ◌<ℤ◌, length, IfOk, OnOk};
ghost use Rattle.fx_base.specs.Rect.{columns, IsNear, IsStep};
ghost use Rattle.fx_pixel.specs.Pixel.{size, count as count_of};
ghost use Rattle.fx_image.specs.Part.{IsPart, SamePart, IsWritten};
ghost use Rattle.fx_image.specs.Stored.{pixel_size, sample_in};
ghost use Rattle.fx_kernel.specs.Blends.{in_units};
ghost use Rattle.fx_effect.specs.Asked.{MayRender};
ghost use Rattle.fx_effect.specs.Meaning.{rendered};
ghost use Rattle.fx_effect.specs.Shape.{IsLawful};
ghost use Rattle.fx_move.specs.Translate.{translate, translate_shape, along, across, upward, extra, is_still, moved_to, moved_from};
ghost use Rattle.fx_move.specs.TranslateLaws.{translate_laws, IsAlong};
ghost use Rattle.fx_move.specs.TranslateRows.{IsWhole, lines_of, four_weights, AreWeights, of_four, weighed_sample};

use fx_base::{Fix, Memory, Rect};
use fx_core::Ticket;
use fx_effect::{
    Context, Description, Identity, ImageEffect, Inputs, Reply, RowKernel, Safety, Values,
    asked_region, clip_set, fill_with, region_of,
};
use fx_gate::Hold;
use fx_image::Part;
use fx_image::samples::{pixel_size, sample, set_sample};
use fx_kernel::in_units;
use fx_params::ParamDef;
use fx_pixel::{Components, Depth};
use fx_props::names::REGION;
use fx_props::{PropSet, write_interest, write_region};
use std::alloc::Global;

/// The source moved by dx columns to the right and dy rows up, from -16,384 to 16,384 pixels and parts of
/// them: a filter. Where a pixel falls between others, it is weighed of two, or of four.
#[derive(Clone, Copy, Debug, PartialEq, Eq)]
pub struct Translate;

// The place of the clip Source.
const SOURCE: u32 = 0;

// As far as a picture moves.
const LEAST: Fix = Fix { raw: -1073741824 };

const GREATEST: Fix = Fix { raw: 1073741824 };

const STILL: Fix = Fix { raw: 0 };

impl ImageEffect for Translate {
    ghost meaning = { λ _. translate };

    ghost laws = { λ _. translate_laws };

    fn describe(&self, alloc: Global, descriptor: &mut PropSet) -> Result<Reply, Memory> {
        let description = Description {
            label: "translate",
            contexts: &[Context::Filter, Context::General],
            depths: &[Depth::Byte, Depth::Short],
            temporal: false,
            tiles: true,
            safety: Safety::FullySafe,
        };
        description.write(alloc, descriptor)?;
        Ok(Reply::Ok)
    }

    fn describe_in_context(
        &self,
        alloc: Global,
        _context: Context,
        clips: &mut Vec<PropSet>,
        params: &mut Vec<ParamDef>,
    ) -> Result<Reply, Memory> {
        let components = [Components::Rgba, Components::Alpha];
        clips.push(clip_set(alloc, "Source", false, &components)?)?;
        params.push(ParamDef::fix(alloc, "dx", LEAST, GREATEST, STILL)?)?;
        params.push(ParamDef::fix(alloc, "dy", LEAST, GREATEST, STILL)?)?;
        Ok(Reply::Ok)
    }

    fn get_region_of_definition(
        &self,
        alloc: Global,
        values: &Values,
        regions: &[Rect],
        _in_args: &PropSet,
        out_args: &mut PropSet,
    ) -> Result<Reply, Memory> {
        let region = moved_to(across(values), upward(values), region_of(regions, 0));
        write_region(alloc, out_args, REGION, region)?;
        Ok(Reply::Ok)
    }

    fn get_regions_of_interest(
        &self,
        alloc: Global,
        values: &Values,
        in_args: &PropSet,
        out_args: &mut PropSet,
    ) -> Result<Reply, Memory> {
        let region = moved_from(across(values), upward(values), asked_region(in_args));
        write_interest(alloc, out_args, &["Source"], &[region])?;
        Ok(Reply::Ok)
    }

    fn get_frames_needed(
        &self,
        _alloc: Global,
        _values: &Values,
        _in_args: &PropSet,
        _out_args: &mut PropSet,
    ) -> Result<Reply, Memory> {
        Ok(Reply::Default)
    }

    fn is_identity(&self, values: &Values, _in_args: &PropSet) -> Identity {
        if is_still(across(values)) && is_still(upward(values)) {
            Identity::Same {
                clip: SOURCE,
                frame: values.frame,
            }
        } else {
            Identity::No
        }
    }

    fn render(
        &self,
        alloc: Global,
        values: &Values,
        _in_args: &PropSet,
        inputs: &Inputs<'_>,
        _hold: &mut Hold,
        ticket: &mut Ticket,
        out: &mut Part<'_>,
    ) -> Result<(), Memory> {
        move_pixels(alloc, values, inputs, out)?;
        ticket.stamped = true;
        Ok(())
    }
}

/// What a pixel reads along an axis: its first column or row, counted from its own, and the share of the
/// next one, in units of 1/256.
#[derive(Clone, Copy, Debug)]
pub(crate) struct Along {
    first: i64,
    share: u64,
}

// What the pixels of a picture read that moves so far, in units of 1/65536.
fn reads_along(distance: i64) -> Along
    requires { IsStep 1073741824 distance }
    ensures value { result ≡ along distance }
    ensures near { IsAlong result }
{
    let first = (-distance).div_euclid(65536);
    let rest = -distance - first * 65536;
    Along {
        first,
        share: rest.unsigned_abs() / 256,
    }
}

fn across(values: &Values) -> Along
    requires { IsLawful translate_shape values.now }
    ensures value { result ≡ across values.now }
    ensures near { IsAlong result }
{
    reads_along(values.number(0))
}

fn upward(values: &Values) -> Along
    requires { IsLawful translate_shape values.now }
    ensures value { result ≡ upward values.now }
    ensures near { IsAlong result }
{
    reads_along(values.number(1))
}

// How many columns or rows are read behind the first.
fn extra(axis: Along) -> i64
    ensures value { result ≡ pos (extra axis) }
    ensures few { IsStep 1 result }
{
    if axis.share == 0 { 0 } else { 1 }
}

fn is_still(axis: Along) -> bool
    ensures { result ≡ is_still axis }
{
    (axis.first == 0) & (axis.share == 0)
}

// What a region moves to.
fn moved_to(across: Along, upward: Along, rect: Rect) -> Rect
    requires near { IsNear rect }
    requires across { IsAlong across }
    requires upward { IsAlong upward }
    ensures { result ≡ moved_to across upward rect }
{
    let right = -across.first;
    let top = -upward.first;
    let high = rect.shift(right, top);
    let low = rect.shift(right - extra(across), top - extra(upward));
    low.hull(high)
}

// What a region is moved from.
fn moved_from(across: Along, upward: Along, rect: Rect) -> Rect
    requires near { IsNear rect }
    requires across { IsAlong across }
    requires upward { IsAlong upward }
    ensures { result ≡ moved_from across upward rect }
{
    let left = across.first;
    let bottom = upward.first;
    let low = rect.shift(left, bottom);
    let high = rect.shift(left + extra(across), bottom + extra(upward));
    low.hull(high)
}

// Rows are copied where the picture moves by whole pixels.
fn move_pixels(
    alloc: Global,
    values: &Values,
    inputs: &Inputs<'_>,
    out: &mut Part<'_>,
) -> Result<(), Memory>
    requires part { IsPart out.old }
    requires may { let image = out.old.image.now in
        MayRender translate_shape values.now inputs.now image.depth image.components }
    ensures same_part { SamePart out.old out.new }
    ensures ok { let image = out.old.image.now in
        OnOk result (IsWritten out.old out.new (rendered translate values.now inputs.now image.depth image.components)) }
{
    if across(values).share == 0 && upward(values).share == 0 {
        copy_rows(values, inputs, out);
        Ok(())
    } else {
        weigh_rows(alloc, values, inputs, out)
    }
}

fn copy_rows(values: &Values, inputs: &Inputs<'_>, out: &mut Part<'_>)
    requires part { IsPart out.old }
    requires may { let image = out.old.image.now in
        MayRender translate_shape values.now inputs.now image.depth image.components }
    requires whole { IsWhole values.now }
    ensures { let image = out.old.image.now in
        IsWritten out.old out.new (rendered translate values.now inputs.now image.depth image.components) }
{
    let rows = WholeRows {
        values,
        inputs,
        across: across(values),
        upward: upward(values),
    };
    fill_with(&rows, &mut [], &mut [], out);
}

fn weigh_rows(
    alloc: Global,
    values: &Values,
    inputs: &Inputs<'_>,
    out: &mut Part<'_>,
) -> Result<(), Memory>
    requires part { IsPart out.old }
    requires may { let image = out.old.image.now in
        MayRender translate_shape values.now inputs.now image.depth image.components }
    ensures same_part { SamePart out.old out.new }
    ensures ok { let image = out.old.image.now in
        OnOk result (IsWritten out.old out.new (rendered translate values.now inputs.now image.depth image.components)) }
{
    let mut bytes = Vec::new(alloc);
    let line = out.row_bytes() + pixel_size(out.depth(), out.components());
    bytes.resize(2 * line, 0)?;
    let rows = WeighedRows {
        values,
        inputs,
        across: across(values),
        upward: upward(values),
    };
    fill_with(&rows, &mut [], bytes.as_mut_slice(), out);
    Ok(())
}

// The rows of a render that moves by whole pixels.
#[derive(Drop)]
struct WholeRows<'a, 'b> {
    values: &'a Values,
    inputs: &'a Inputs<'b>,
    across: Along,
    upward: Along,
}

impl<'a, 'b> RowKernel for WholeRows<'a, 'b> {
    ghost makes = { λ k depth c. MayRender translate_shape k.values.now k.inputs.now depth c × IsWhole k.values.now
        × (k.across ≡ across k.values.now) × (k.upward ≡ upward k.values.now) };

    ghost pixel = { λ k depth c x y. rendered translate k.values.now k.inputs.now depth c x y };

    fn fill_row(
        &self,
        _depth: Depth,
        _components: Components,
        rect: Rect,
        y: i64,
        _cells: &mut [u64],
        _bytes: &mut [u8],
        row: &mut [u8],
    ) {
        self.inputs.pixels_fit();
        let there = rect.shift(self.across.first, self.upward.first);
        let y = y + self.upward.first;
        self.inputs
            .read_row(SOURCE, self.values.frame, there, y, row);
    }
}

// The rows of a render that weighs pixels.
#[derive(Drop)]
struct WeighedRows<'a, 'b> {
    values: &'a Values,
    inputs: &'a Inputs<'b>,
    across: Along,
    upward: Along,
}

impl<'a, 'b> RowKernel for WeighedRows<'a, 'b> {
    ghost makes = { λ k depth c. MayRender translate_shape k.values.now k.inputs.now depth c
        × (k.across ≡ across k.values.now) × (k.upward ≡ upward k.values.now) };

    ghost pixel = { λ k depth c x y. rendered translate k.values.now k.inputs.now depth c x y };

    ghost byte_count = { λ k depth c rect. 2 * ((columns rect + 1) * pixel_size depth c) };

    fn fill_row(
        &self,
        depth: Depth,
        components: Components,
        rect: Rect,
        y: i64,
        _cells: &mut [u64],
        bytes: &mut [u8],
        row: &mut [u8],
    ) {
        let frame = self.values.frame;
        let lines = lines_of(self.across, self.upward, rect, y);
        let (low, high) = bytes.split_at_mut(bytes.len() / 2);
        let y = lines.y1;
        self.inputs.read_row(SOURCE, frame, lines, y, low);
        self.inputs.read_row(SOURCE, frame, lines, y + 1, high);
        let weights = Weights::of(self.across, self.upward);
        weigh_row(depth, components, weights, low, high, row);
    }
}

// The two rows that row y of a rectangle is weighed of.
fn lines_of(across: Along, upward: Along, rect: Rect, y: i64) -> Rect
    requires near { IsNear rect }
    requires wide { rect.x1 <ℤ rect.x2 }
    requires row { (rect.y1 ≤ℤ y) × (y <ℤ rect.y2) }
    requires across { IsAlong across }
    requires upward { IsAlong upward }
    ensures { result ≡ lines_of across upward rect y }
{
    let x1 = rect.x1 + across.first;
    let x2 = rect.x2 + across.first;
    let y = y + upward.first;
    Rect::of(x1, y, x2 + 1, y + 2)
}

/// What the pixels of two columns and two rows weigh, in units of 1/65536.
#[derive(Clone, Copy, Debug)]
pub(crate) struct Weights {
    left_low: u64,
    left_high: u64,
    right_low: u64,
    right_high: u64,
}

impl Weights {
    fn of(across: Along, upward: Along) -> Weights
        requires across { IsAlong across }
        requires upward { IsAlong upward }
        ensures value { result ≡ four_weights across upward }
        ensures whole { AreWeights result }
    {
        let (left, right) = (256 - across.share, across.share);
        let (low, high) = (256 - upward.share, upward.share);
        Weights {
            left_low: left * low,
            left_high: left * high,
            right_low: right * low,
            right_high: right * high,
        }
    }

    #[inline(always)]
    fn weigh(self, left_low: u16, left_high: u16, right_low: u16, right_high: u16) -> u16
        requires { AreWeights self }
        ensures value { result ≡ of_four self left_low left_high right_low right_high }
        ensures bound { (m : ℕ) → left_low ≤ m → left_high ≤ m → right_low ≤ m → right_high ≤ m → result ≤ m }
    {
        let left = self.left_low * u64::from(left_low) + self.left_high * u64::from(left_high);
        let right = self.right_low * u64::from(right_low) + self.right_high * u64::from(right_high);
        in_units(left + right) as u16
    }
}

// Writes a row of pixels that are each weighed of its own and the next pixel of two rows.
fn weigh_row(
    depth: Depth,
    components: Components,
    weights: Weights,
    low: &[u8],
    high: &[u8],
    row: &mut [u8],
)
    requires weights { AreWeights weights }
    requires low { length low.now ≡ length row.old + pixel_size depth components }
    requires high { length high.now ≡ length row.old + pixel_size depth components }
    ensures { (s : ℕ) → s * size depth + size depth ≤ length row.old
        → sample_in depth row.new s
        ≡ weighed_sample depth (count_of components) weights low.now high.now s }
{
    match depth {
        Depth::Byte => weigh_each(Depth::Byte, components, weights, low, high, row),
        Depth::Short => weigh_each(Depth::Short, components, weights, low, high, row),
    }
}

#[inline(always)]
fn weigh_each(
    depth: Depth,
    components: Components,
    weights: Weights,
    low: &[u8],
    high: &[u8],
    row: &mut [u8],
)
    requires weights { AreWeights weights }
    requires low { length low.now ≡ length row.old + pixel_size depth components }
    requires high { length high.now ≡ length row.old + pixel_size depth components }
    ensures { (s : ℕ) → s * size depth + size depth ≤ length row.old
        → sample_in depth row.new s
        ≡ weighed_sample depth (count_of components) weights low.now high.now s }
{
    let step = components.count() as usize;
    for s in 0..row.len() / depth.size() as usize {
        let left_low = sample(depth, low, s);
        let left_high = sample(depth, high, s);
        let right_low = sample(depth, low, s + step);
        let right_high = sample(depth, high, s + step);
        let weighed = weights.weigh(left_low, left_high, right_low, right_high);
        set_sample(depth, row, s, weighed);
    }
}
