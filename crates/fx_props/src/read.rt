//! What stands in a set under a name, as a whole (OpenFX 1.4, "Image Effect Actions").
ghost use Rattle.std.specs.Prelude.{◌≡◌, ◌<◌, ℕ, ℤ, Bool, List, Ok, IsOk, IfOk, length};
ghost use Rattle.fx_base.specs.Bounds.{Bounds, IsRect};
ghost use Rattle.fx_props.specs.declared.value.PropKind.TheVariants as kind;
ghost use Rattle.fx_props.specs.declared.value.PropValue.TheVariants as value;
ghost use Rattle.fx_props.specs.Set.{read};
ghost use Rattle.fx_props.specs.Entries.{HasValues, whole, region_entry, window_entry, frames_entry, flag_entry, text_entry, texts_entry};
ghost use Rattle.fx_props.specs.Entries.{ShowsRegion, ShowsWindow, ShowsFrames, ShowsFlag, ShowsText, ShowsTexts};

use crate::PropSet;
use crate::value::name_of;
use fx_base::{Fix, Memory, Names, Rect};
use std::alloc::Global;

/// The region of a property: the smallest rectangle of pixels that holds the four numbers.
pub fn region_at(set: &PropSet, name: &str) -> Rect
    requires { ShowsRegion set.now name.now }
    ensures { (r : Bounds) → IsRect r → HasValues set.now (region_entry name.now r) → result ≡ r }
{
    Rect::cover(
        fix_at(set, name, 0),
        fix_at(set, name, 1),
        fix_at(set, name, 2),
        fix_at(set, name, 3),
    )
}

/// The window of a property, in pixels.
pub fn window_at(set: &PropSet, name: &str) -> Rect
    requires { ShowsWindow set.now name.now }
    ensures { (r : Bounds) → IsRect r → HasValues set.now (window_entry name.now r) → result ≡ r }
{
    Rect::of(
        int_at(set, name, 0),
        int_at(set, name, 1),
        int_at(set, name, 2),
        int_at(set, name, 3),
    )
}

/// The frames of a property: pairs of a first and a last one.
pub fn frames_at(alloc: Global, set: &PropSet, name: &str) -> Result<Vec<(i64, i64)>, Memory>
    requires { ShowsFrames set.now name.now }
    ensures { (spans : List (ℤ × ℤ)) → HasValues set.now (frames_entry name.now spans) →
        IfOk result (λ found. found.items ≡ spans) }
{
    let count = set.dimension(name).unwrap() / 2;
    let mut spans = Vec::new(alloc);
    for k in 0..count {
        spans.push((frame_at(set, name, 2 * k), frame_at(set, name, 2 * k + 1)))?;
    }
    Ok(spans)
}

/// Whether a property says yes.
pub fn flag_at(set: &PropSet, name: &str) -> bool
    requires { ShowsFlag set.now name.now }
    ensures { (yes : Bool) → HasValues set.now (flag_entry name.now yes) → result ≡ yes }
{
    int_at(set, name, 0) == 1
}

/// The one text of a property.
pub fn text_at<'a>(set: &'a PropSet, name: &str) -> &'a str
    requires { ShowsText set.now name.now }
    ensures { (text : List ℕ) → HasValues set.now (text_entry name.now text) → result.now ≡ text }
{
    set.get_text(name, 0).unwrap()
}

/// The texts of a property, in order.
pub fn texts_at(alloc: Global, set: &PropSet, name: &str) -> Result<Names, Memory>
    requires { ShowsTexts set.now name.now }
    ensures { (items : List (List ℕ)) → HasValues set.now (texts_entry name.now items) →
        IfOk result (λ found. found ≡ items) }
{
    let mut texts = Vec::new(alloc);
    for k in 0..set.dimension(name).unwrap() {
        texts.push(name_of(alloc, set.get_text(name, k).unwrap())?)?;
    }
    Ok(Names::of(texts))
}

// The whole number at a place.
fn frame_at(set: &PropSet, name: &str, index: u32) -> i64
    requires { IsOk (read set.now kind.Fix name.now index) }
    ensures { (t : ℤ) → read set.now kind.Fix name.now index ≡ Ok (whole t) → result ≡ t }
{
    fix_at(set, name, index).raw.div_euclid(65536)
}

fn fix_at(set: &PropSet, name: &str, index: u32) -> Fix
    requires { IsOk (read set.now kind.Fix name.now index) }
    ensures { read set.now kind.Fix name.now index ≡ Ok (value.Fix result) }
{
    set.get_fix(name, index).unwrap()
}

fn int_at(set: &PropSet, name: &str, index: u32) -> i64
    requires { IsOk (read set.now kind.Int name.now index) }
    ensures { read set.now kind.Int name.now index ≡ Ok (value.Int result) }
{
    set.get_int(name, index).unwrap()
}
