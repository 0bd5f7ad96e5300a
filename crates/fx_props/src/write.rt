//! Values that are given to blank properties of a set (OpenFX 1.4, "Image Effect Actions").
ghost use Rattle.std.specs.Prelude.{◌≡◌, ◌≢◌, ◌++◌, [], ◌∷◌, All, AllPairs, IfOk, OnOk, OnErr, None, length};
ghost use Rattle.fx_base.specs.Rect.{IsUpTo};
ghost use Rattle.fx_props.specs.declared.value.PropKind.TheVariants as kind;
ghost use Rattle.fx_props.specs.Property.{IsAnswer};
ghost use Rattle.fx_props.specs.Set.{refusal, Puts};
ghost use Rattle.fx_props.specs.Value.{kind_of};
ghost use Rattle.fx_props.specs.Entries.{IsBlank, AreBlank, AwaitEntries, Wrote, WroteFronts, NamesDiffer, IsModerate, AreModerate};
ghost use Rattle.fx_props.specs.Entries.{whole, range_values, texts_of, spans_of, region_of, region_entry, interest, frame_ranges};

use crate::entry::composed;
use crate::names::{CLIP_FRAMES, CLIP_REGION};
use crate::{PropEntry, PropFault, PropKind, PropSet, PropValue};
use fx_base::{Fix, Memory, Rect};
use std::alloc::Global;

/// Gives the blank properties of a set the values of these entries. At want of memory each of them
/// holds a front of its values.
pub fn write_entries(alloc: Global, set: &mut PropSet, entries: &[PropEntry]) -> Result<(), Memory>
    requires names { NamesDiffer entries.now }
    requires blank { AwaitEntries set.old entries.now }
    ensures written { OnOk result (Wrote entries.now set.old set.new) }
    ensures left { OnErr result (WroteFronts entries.now set.old set.new) }
{
    for entry in entries {
        write_entry(alloc, set, entry)?;
    }
    Ok(())
}

// Gives a blank property its values.
fn write_entry(alloc: Global, set: &mut PropSet, entry: &PropEntry) -> Result<(), Memory>
    requires { IsBlank set.old entry.now.kind entry.now.name }
    ensures written { OnOk result (Wrote (entry.now ∷ []) set.old set.new) }
    ensures left { OnErr result (WroteFronts (entry.now ∷ []) set.old set.new) }
{
    let name = entry.name.text();
    let mut index = 0;
    for value in &entry.values {
        append(alloc, set, name, index, value)?;
        index += 1;
    }
    Ok(())
}

// Puts a value behind those that are there.
fn append(
    alloc: Global,
    set: &mut PropSet,
    name: &str,
    index: u32,
    value: &PropValue,
) -> Result<(), Memory>
    requires { refusal set.old name.now index value.now ≡ None }
    ensures ok { OnOk result (Puts set.old set.new name.now index value.now) }
    ensures err { OnErr result (set.new ≡ set.old) }
{
    match put(alloc, set, name, index, value) {
        Ok(()) => Ok(()),
        Err(PropFault::Memory) => Err(Memory),
        Err(_) => unreachable!(),
    }
}

// Puts a value at a place, or refuses it, as the set does.
fn put(
    alloc: Global,
    set: &mut PropSet,
    name: &str,
    index: u32,
    value: &PropValue,
) -> Result<(), PropFault>
    ensures answer { IsAnswer (refusal set.old name.now index value.now) result }
    ensures ok { OnOk result (Puts set.old set.new name.now index value.now) }
    ensures err { OnErr result (set.new ≡ set.old) }
{
    match value {
        PropValue::Int(n) => set.set_int(alloc, name, index, *n),
        PropValue::Fix(fix) => set.set_fix(alloc, name, index, *fix),
        PropValue::Text(text) => set.set_text(alloc, name, index, text.text()),
    }
}

/// Writes a region: x1, y1, x2 and y2 as fixed-point numbers, which are four zeros where it is empty.
/// At want of memory the property holds a front of them.
pub fn write_region(
    alloc: Global,
    out_args: &mut PropSet,
    name: &str,
    region: Rect,
) -> Result<(), Memory>
    requires blank { IsBlank out_args.old kind.Fix name.now }
    requires near { IsUpTo 2147483648 region }
    ensures written { OnOk result (Wrote (region_entry name.now region ∷ []) out_args.old out_args.new) }
    ensures left { OnErr result (WroteFronts (region_entry name.now region ∷ []) out_args.old out_args.new) }
{
    let bounds = [region.x1, region.y1, region.x2, region.y2];
    let mut index = 0;
    for bound in &bounds {
        put_whole(alloc, out_args, name, index, *bound)?;
        index += 1;
    }
    Ok(())
}

// Puts a whole number as a fixed-point one behind those that are there.
fn put_whole(alloc: Global, set: &mut PropSet, name: &str, index: u32, n: i64) -> Result<(), Memory>
    requires moderate { IsModerate n }
    requires room { refusal set.old name.now index (whole n) ≡ None }
    ensures ok { OnOk result (Puts set.old set.new name.now index (whole n)) }
    ensures err { OnErr result (set.new ≡ set.old) }
{
    let value = whole(n);
    append(alloc, set, name, index, &value)
}

/// Writes each clip's region of interest under its composed name. At want of memory each property
/// holds a front of its values.
pub fn write_interest(
    alloc: Global,
    out_args: &mut PropSet,
    clips: &[&str],
    regions: &[Rect],
) -> Result<(), Memory>
    requires same_number { length regions.now ≡ length clips.now }
    requires names { AllPairs (λ a b. a ≢ b) (texts_of clips.now) }
    requires blank { AreBlank out_args.old CLIP_REGION.now kind.Fix (texts_of clips.now) }
    requires near { All (IsUpTo 2147483648) regions.now }
    ensures written { let entries = interest (texts_of clips.now) (region_of regions.now) in
        OnOk result (Wrote entries out_args.old out_args.new) }
    ensures left { let entries = interest (texts_of clips.now) (region_of regions.now) in
        OnErr result (WroteFronts entries out_args.old out_args.new) }
{
    for (k, clip) in clips.iter().enumerate() {
        let name = composed(alloc, CLIP_REGION, clip)?;
        write_region(alloc, out_args, name.text(), regions[k])?;
    }
    Ok(())
}

/// Writes each clip's frames under its composed name: pairs of a first and a last frame. At want of
/// memory each property holds a front of its values.
pub fn write_frames(
    alloc: Global,
    out_args: &mut PropSet,
    clips: &[&str],
    spans: &[&[(i64, i64)]],
) -> Result<(), Memory>
    requires same_number { length spans.now ≡ length clips.now }
    requires names { AllPairs (λ a b. a ≢ b) (texts_of clips.now) }
    requires blank { AreBlank out_args.old CLIP_FRAMES.now kind.Fix (texts_of clips.now) }
    requires near { All (λ s. All AreModerate s.now) spans.now }
    ensures written { let entries = frame_ranges (texts_of clips.now) (spans_of spans.now) in
        OnOk result (Wrote entries out_args.old out_args.new) }
    ensures left { let entries = frame_ranges (texts_of clips.now) (spans_of spans.now) in
        OnErr result (WroteFronts entries out_args.old out_args.new) }
{
    write_entries(alloc, out_args, &frame_entries(alloc, clips, spans)?)
}

fn frame_entries(
    alloc: Global,
    clips: &[&str],
    spans: &[&[(i64, i64)]],
) -> Result<Vec<PropEntry>, Memory>
    requires same_number { length spans.now ≡ length clips.now }
    requires near { All (λ s. All AreModerate s.now) spans.now }
    ensures { IfOk result (λ entries. entries.items ≡ frame_ranges (texts_of clips.now) (spans_of spans.now)) }
{
    let mut entries = Vec::new(alloc);
    for (k, clip) in clips.iter().enumerate() {
        let values = range_list(alloc, spans[k])?;
        let name = composed(alloc, CLIP_FRAMES, clip)?;
        entries.push(PropEntry::new(name, PropKind::Fix, values)?)?;
    }
    Ok(entries)
}

fn range_list(alloc: Global, spans: &[(i64, i64)]) -> Result<Vec<PropValue>, Memory>
    requires { All AreModerate spans.now }
    ensures values { IfOk result (λ values. values.items ≡ range_values spans.now) }
    ensures of_kind { IfOk result (λ values. All (λ v. kind_of v ≡ kind.Fix) values.items) }
{
    let mut values = Vec::new(alloc);
    for (first, last) in spans {
        values.push(whole(*first))?;
        values.push(whole(*last))?;
    }
    Ok(values)
}

// A whole number as a fixed-point one.
fn whole(n: i64) -> PropValue
    requires { IsModerate n }
    ensures value { result ≡ whole n }
    ensures of_kind { kind_of result ≡ kind.Fix }
{
    PropValue::Fix(Fix { raw: n * 65536 })
}
