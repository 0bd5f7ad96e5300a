//! The property sets that actions are handed.
ghost use Rattle.std.specs.Prelude.{◌≡◌, ◌≢◌, ◌^◌, ◌<◌, ◌∷◌, [], All, IfOk, Some, length, map, vec_len};
ghost use Rattle.fx_base.specs.Rect.{IsFrame};
ghost use Rattle.fx_props.specs.declared.value.PropKind.TheVariants as kind;
ghost use Rattle.fx_props.specs.Value.{kind_of};
ghost use Rattle.fx_props.specs.Property.{IsLawfulDef, property_made};
ghost use Rattle.fx_props.specs.Set.{property};
ghost use Rattle.fx_props.specs.Entries.{IsBlank, whole, window_values};
ghost use Rattle.fx_effect.specs.Asked.{IsWindow, HasTime, HasRegion, HasWindow, HasRange, HasStep, AsksSequence};

use fx_base::{Fix, Memory, Name, Names, Rect};
use fx_props::names::{ASKED_REGION, REGION, SEQUENCE, STEP, TIME, WINDOW};
use fx_props::{PropDef, PropKind, PropList, PropSet, PropValue, blank};
use std::alloc::Global;

/// The arguments of a render and of is_identity: the frame as the time, and the window in pixels
/// (kOfxImageEffectActionRender, kOfxImageEffectActionIsIdentity).
pub fn window_args(alloc: Global, frame: i64, window: Rect) -> Result<PropSet, Memory>
    requires { IsFrame frame }
    ensures time { IfOk result (λ set. HasTime set frame) }
    ensures window { IfOk result (λ set. HasWindow set window) }
{
    let time = wholes_def(alloc, TIME, &[frame])?;
    let window = window_def(alloc, window)?;
    set_of_two(alloc, time, window)
}

/// The arguments of begin and end of a sequence: its first and its last frame, and 1 as the step from one
/// to the next (kOfxImageEffectActionBeginSequenceRender, kOfxImageEffectActionEndSequenceRender).
pub fn sequence_args(alloc: Global, first: i64, last: i64) -> Result<PropSet, Memory>
    requires first { IsFrame first }
    requires last { IsFrame last }
    ensures asks { IfOk result AsksSequence }
    ensures range { IfOk result (λ set. HasRange set first last) }
    ensures step { IfOk result HasStep }
{
    let range = wholes_def(alloc, SEQUENCE, &[first, last])?;
    let step = wholes_def(alloc, STEP, &[1])?;
    set_of_two(alloc, range, step)
}

/// The arguments of an action that is told the frame alone.
pub fn time_args(alloc: Global, frame: i64) -> Result<PropSet, Memory>
    requires { IsFrame frame }
    ensures { IfOk result (λ set. HasTime set frame) }
{
    let time = wholes_def(alloc, TIME, &[frame])?;
    set_of_one(alloc, time)
}

/// The arguments of get_regions_of_interest: the frame as the time, and the region that is asked for.
pub fn interest_args(alloc: Global, frame: i64, region: Rect) -> Result<PropSet, Memory>
    requires frame { IsFrame frame }
    requires region { IsWindow region }
    ensures time { IfOk result (λ set. HasTime set frame) }
    ensures region { IfOk result (λ set. HasRegion set region) }
{
    let time = wholes_def(alloc, TIME, &[frame])?;
    let region = wholes_def(alloc, ASKED_REGION, &corners(region))?;
    set_of_two(alloc, time, region)
}

/// The set that get_region_of_definition writes to.
pub fn region_answer(alloc: Global) -> Result<PropSet, Memory>
    ensures { IfOk result (λ set. IsBlank set kind.Fix REGION.now) }
{
    let region = blank(alloc, REGION, PropKind::Fix)?;
    set_of_one(alloc, region)
}

// The set of one property.
fn set_of_one(alloc: Global, def: PropDef) -> Result<PropSet, Memory>
    requires { IsLawfulDef def }
    ensures { IfOk result (λ set. property set def.name ≡ Some (property_made def)) }
{
    let defs = vec![in alloc; def]?;
    PropSet::new(alloc, defs)
}

// The set of two properties.
fn set_of_two(alloc: Global, first: PropDef, second: PropDef) -> Result<PropSet, Memory>
    requires names { first.name ≢ second.name }
    requires first { IsLawfulDef first }
    requires second { IsLawfulDef second }
    ensures first { IfOk result (λ set. property set first.name ≡ Some (property_made first)) }
    ensures second { IfOk result (λ set. property set second.name ≡ Some (property_made second)) }
{
    let defs = vec![in alloc; first, second]?;
    PropSet::new(alloc, defs)
}

// The numbers that tell a rectangle.
fn corners(r: Rect) -> [i64; 4]
    ensures { result ≡ r.x1 ∷ r.y1 ∷ r.x2 ∷ r.y2 ∷ [] }
{
    [r.x1, r.y1, r.x2, r.y2]
}

// The window in pixels.
fn window_def(alloc: Global, window: Rect) -> Result<PropDef, Memory>
    ensures lawful { IfOk result (λ def. IsLawfulDef def) }
    ensures name { IfOk result (λ def. def.name ≡ WINDOW.now) }
    ensures kind { IfOk result (λ def. def.kind ≡ kind.Int) }
    ensures start { IfOk result (λ def. def.start ≡ window_values window) }
{
    let name = String::from_str(alloc, WINDOW)?;
    let values = vec![in alloc;
        PropValue::Int(window.x1),
        PropValue::Int(window.y1),
        PropValue::Int(window.x2),
        PropValue::Int(window.y2),
    ]?;
    Ok(given(alloc, Name::of(name), PropKind::Int, values))
}

// A property that has these whole numbers as fixed-point ones, and at most as many.
fn wholes_def(alloc: Global, name: &str, numbers: &[i64]) -> Result<PropDef, Memory>
    requires numbers { All IsFrame numbers.now }
    requires few { length numbers.now < 2 ^ 32 }
    ensures lawful { IfOk result (λ def. IsLawfulDef def) }
    ensures name { IfOk result (λ def. def.name ≡ name.now) }
    ensures kind { IfOk result (λ def. def.kind ≡ kind.Fix) }
    ensures start { IfOk result (λ def. def.start ≡ map whole numbers.now) }
{
    let name = String::from_str(alloc, name)?;
    let values = wholes(alloc, numbers)?;
    Ok(given(alloc, Name::of(name), PropKind::Fix, values))
}

// A property that has these values, and at most as many.
fn given(alloc: Global, name: Name, kind: PropKind, values: Vec<PropValue>) -> PropDef
    requires kinds { All (λ v. kind_of v ≡ kind) values.items }
    requires few { vec_len values < 2 ^ 32 }
    ensures lawful { IsLawfulDef result }
    ensures name { result.name ≡ name }
    ensures kind { result.kind ≡ kind }
    ensures start { result.start ≡ values.items }
{
    PropDef {
        name,
        kind,
        most: values.len() as u32,
        allowed: Names::of(Vec::new(alloc)),
        start: PropList::of(values),
    }
}

// Whole numbers as fixed-point ones.
fn wholes(alloc: Global, numbers: &[i64]) -> Result<Vec<PropValue>, Memory>
    requires { All IsFrame numbers.now }
    ensures values { IfOk result (λ values. values.items ≡ map whole numbers.now) }
    ensures kinds { IfOk result (λ values. All (λ v. kind_of v ≡ kind.Fix) values.items) }
{
    let mut values = Vec::new(alloc);
    for n in numbers {
        values.push(whole(*n))?;
    }
    Ok(values)
}

fn whole(n: i64) -> PropValue
    requires { IsFrame n }
    ensures { result ≡ whole n }
{
    PropValue::Fix(Fix::of_whole(n))
}
