//! Rows worked by hand: refusals that leave the set as it was, and each call once with ample memory.
ghost use Rattle.std.specs.Prelude.{◌≡◌, [], ◌∷◌, ◌++◌, codes, IfOk};
ghost use Rattle.fx_props.specs.declared.value.PropKind.TheVariants as kind;
ghost use Rattle.fx_props.specs.Property.{IsLawfulDef};
ghost use Rattle.fx_props.specs.Entries.{AreBlank, HasValues, ShowsFlag, ShowsFrames, ShowsRegion, ShowsText, ShowsTexts, ShowsWindow};

use crate::same::{same, same_at, surely_same};
use fx_base::{Fix, Memory, Name, Names, Rect};
use fx_props::names::{CLIP_FRAMES, CLIP_REGION, CONTEXTS, NAME, REGION, SEQUENCE, TILES, WINDOW};
use fx_props::{
    PropDef, PropEntry, PropFault, PropKind, PropList, PropSet, PropValue, blank,
    clip_set_of_blanks, flag_at, frames_at, region_at, set_of, text_at, texts_at, window_at,
    write_frames, write_interest, write_region,
};
use std::alloc::{AllocError, Global};
use std::process::Abort;

fn name(alloc: Global, text: &str) -> Result<Name, AllocError>
    ensures { IfOk result (λ name. name ≡ text.now) }
{
    Ok(Name::of(String::from_str(alloc, text)?))
}

// Adds the name of a text to these.
fn push_name(rt: &(impl Abort + AllocGlobal), names: &mut Vec<Name>, text: &str)
    ensures { names.new.items ≡ names.old.items ++ text.now ∷ [] }
{
    let name = name(rt.alloc(), text).expect(rt, "no name");
    names.push(name).expect(rt, "no name");
}

// The time: one fixed-point number, 5 at the start.
fn time(alloc: Global) -> Result<PropDef, AllocError>
    ensures name { IfOk result (λ def. def.name ≡ codes "OfxPropTime") }
    ensures lawful { IfOk result (λ def. IsLawfulDef def) }
{
    Ok(PropDef {
        name: name(alloc, "OfxPropTime")?,
        kind: PropKind::Fix,
        most: 1,
        allowed: Names::of(Vec::new(alloc)),
        start: PropList::of(vec![in alloc; PropValue::Fix(Fix { raw: 327680 })]?),
    })
}

// The context: at most one of four texts.
fn context(rt: &(impl Abort + AllocGlobal)) -> PropDef
    ensures name { result.name ≡ codes "OfxImageEffectPropContext" }
    ensures lawful { IsLawfulDef result }
{
    let mut allowed = Vec::new(rt.alloc());
    push_name(rt, &mut allowed, "OfxImageEffectContextGenerator");
    push_name(rt, &mut allowed, "OfxImageEffectContextFilter");
    push_name(rt, &mut allowed, "OfxImageEffectContextTransition");
    push_name(rt, &mut allowed, "OfxImageEffectContextGeneral");
    PropDef {
        name: name(rt.alloc(), "OfxImageEffectPropContext").expect(rt, "no name"),
        kind: PropKind::Text,
        most: 1,
        allowed: Names::of(allowed),
        start: PropList::of(Vec::new(rt.alloc())),
    }
}

// The window: four ints, none at the start.
fn window(alloc: Global) -> Result<PropDef, AllocError>
    ensures name { IfOk result (λ def. def.name ≡ codes "OfxImageEffectPropRenderWindow") }
    ensures lawful { IfOk result (λ def. IsLawfulDef def) }
{
    Ok(PropDef {
        name: name(alloc, "OfxImageEffectPropRenderWindow")?,
        kind: PropKind::Int,
        most: 4,
        allowed: Names::of(Vec::new(alloc)),
        start: PropList::of(Vec::new(alloc)),
    })
}

fn set(rt: &(impl Abort + AllocGlobal)) -> PropSet {
    let alloc = rt.alloc();
    let time = time(alloc).expect(rt, "no time");
    let context = context(rt);
    let window = window(alloc).expect(rt, "no window");
    let defs = vec![in alloc; time, context, window].expect(rt, "no definitions");
    PropSet::new(alloc, defs).expect(rt, "no set")
}

#[test]
fn refuses_and_stays(rt: HostRuntime) {
    let mut set = set(&rt);
    let five = Fix::of_whole(5);
    same(
        &rt,
        set.get_fix("OfxPropTime", 1),
        Err(PropFault::ErrBadIndex),
    );
    same(
        &rt,
        set.get_int("OfxPropTime", 0),
        Err(PropFault::ErrUnknown),
    );
    let refused = set.set_text(
        rt.alloc(),
        "OfxImageEffectPropContext",
        0,
        "OfxImageEffectContextPaint",
    );
    same(&rt, refused, Err(PropFault::ErrValue));
    same(&rt, set.get_fix("OfxPropTime", 0), Ok(five));
    same(&rt, set.dimension("OfxPropTime"), Ok(1));
    same(&rt, set.dimension("OfxImageEffectPropContext"), Ok(0));

    same(
        &rt,
        set.set_fix(rt.alloc(), "OfxPropTime", 0, Fix::of_whole(-2)),
        Ok(()),
    );
    same(&rt, set.get_fix("OfxPropTime", 0), Ok(Fix::of_whole(-2)));
    same(
        &rt,
        set.set_fix(rt.alloc(), "OfxPropTime", 1, five),
        Err(PropFault::ErrBadIndex),
    );
    same(&rt, set.reset(rt.alloc(), "OfxPropTime"), Ok(()));
    same(&rt, set.get_fix("OfxPropTime", 0), Ok(five));
    same(
        &rt,
        set.reset(rt.alloc(), "OfxPropLabel"),
        Err(PropFault::ErrUnknown),
    );
    same(
        &rt,
        set.dimension("OfxPropLabel"),
        Err(PropFault::ErrUnknown),
    );
}

#[test]
fn keeps_texts_and_ints(rt: HostRuntime) {
    keeps_texts(&rt);
    keeps_ints(&rt);
}

fn keeps_texts(rt: &(impl Abort + AllocGlobal)) {
    let mut set = set(rt);
    let context = "OfxImageEffectPropContext";
    same(rt, set.get_text(context, 0), Err(PropFault::ErrBadIndex));
    for text in [
        "OfxImageEffectContextFilter",
        "OfxImageEffectContextGeneral",
    ] {
        same(rt, set.set_text(rt.alloc(), context, 0, text), Ok(()));
        same(rt, set.get_text(context, 0).ok().unwrap_or(""), text);
        same(rt, set.dimension(context), Ok(1));
    }
    same(
        rt,
        set.set_text(rt.alloc(), context, 1, "OfxImageEffectContextFilter"),
        Err(PropFault::ErrBadIndex),
    );
    same(rt, set.reset(rt.alloc(), context), Ok(()));
    same(rt, set.dimension(context), Ok(0));
}

fn keeps_ints(rt: &(impl Abort + AllocGlobal)) {
    let mut set = set(rt);
    let window = "OfxImageEffectPropRenderWindow";
    for (index, value, answer) in [
        (1, 9, Err(PropFault::ErrBadIndex)),
        (0, 10, Ok(())),
        (1, 20, Ok(())),
        (2, 30, Ok(())),
        (0, -1, Ok(())),
        (3, 40, Ok(())),
        (4, 50, Err(PropFault::ErrBadIndex)),
        (5, 50, Err(PropFault::ErrBadIndex)),
    ] {
        same_at(
            rt,
            &index,
            set.set_int(rt.alloc(), window, index, value),
            answer,
        );
    }
    for (index, value) in [(0, -1), (1, 20), (2, 30), (3, 40)] {
        same_at(rt, &index, set.get_int(window, index), Ok(value));
    }
    same(
        rt,
        set.set_fix(rt.alloc(), window, 0, Fix::of_whole(1)),
        Err(PropFault::ErrUnknown),
    );
}

#[test]
fn gives_its_values_away(rt: HostRuntime) {
    let values = vec![in rt.alloc(); PropValue::Int(3), PropValue::Int(4)];
    let list = PropList::of(values.expect(&rt, "no values"));
    same(&rt, list.items().len(), 2);
    same(&rt, list.into_items().len(), 2);
}

// Blank properties of this prefix for the clips A and B.
fn two_clips(rt: &(impl Abort + AllocGlobal), prefix: &str) -> PropSet
    ensures { AreBlank result prefix.now kind.Fix (codes "A" ∷ codes "B" ∷ []) }
{
    let mut clips = Vec::new(rt.alloc());
    push_name(rt, &mut clips, "A");
    push_name(rt, &mut clips, "B");
    clip_set_of_blanks(rt.alloc(), prefix, PropKind::Fix, &Names::of(clips)).expect(rt, "no clips")
}

fn shows(rt: &impl Abort, set: &PropSet, name: &str, raws: &[i64; 4]) {
    for (index, raw) in [(0, raws[0]), (1, raws[1]), (2, raws[2]), (3, raws[3])] {
        same_at(
            rt,
            &(&name, &index),
            set.get_fix(name, index),
            Ok(Fix { raw }),
        );
    }
}

#[test]
fn regions_and_frames_are_written(rt: HostRuntime) {
    regions_are_written(&rt);
    frames_are_written(&rt);
    a_region_is_written(&rt);
}

fn regions_are_written(rt: &(impl Abort + AllocGlobal)) {
    let mut interest = two_clips(rt, CLIP_REGION);
    let regions = [Rect::of(-1, 0, 10, 20), Rect::of(0, 0, 0, 0)];
    let written = write_interest(rt.alloc(), &mut interest, &["A", "B"], &regions);
    same(rt, written, Ok(()));
    let first = [-65536, 0, 655360, 1310720];
    shows(rt, &interest, "OfxImageClipPropRoI_A", &first);
    shows(rt, &interest, "OfxImageClipPropRoI_B", &[0, 0, 0, 0]);
}

fn frames_are_written(rt: &(impl Abort + AllocGlobal)) {
    let mut frames = two_clips(rt, CLIP_FRAMES);
    let spans: [&[(i64, i64)]; 2] = [&[(-2, 5), (7, 7)], &[(0, 1)]];
    let written = write_frames(rt.alloc(), &mut frames, &["A", "B"], &spans);
    same(rt, written, Ok(()));
    let first = [-131072, 327680, 458752, 458752];
    shows(rt, &frames, "OfxImageClipPropFrameRange_A", &first);
    same(rt, frames.dimension("OfxImageClipPropFrameRange_B"), Ok(2));
}

fn a_region_is_written(rt: &(impl Abort + AllocGlobal)) {
    let alloc = rt.alloc();
    let def = blank(alloc, "OfxImageEffectPropRegionOfDefinition", PropKind::Fix).expect(
        rt,
        "no region",
    );
    let defs = vec![in alloc; def].expect(rt, "no region");
    let mut region = PropSet::new(alloc, defs).expect(rt, "no set");
    let written = write_region(alloc, &mut region, REGION, Rect::of(1, 2, 640, 360));
    same(rt, written, Ok(()));
    let bounds = [65536, 131072, 41943040, 23592960];
    shows(rt, &region, "OfxImageEffectPropRegionOfDefinition", &bounds);
}

// A set of one property.
fn set_with(alloc: Global, entry: PropEntry) -> Result<PropSet, Memory>
    ensures { IfOk result (λ set. HasValues set entry) }
{
    set_of(alloc, vec![in alloc; entry]?)
}

// The name Mask.
fn text_set(alloc: Global) -> Result<PropSet, Memory>
    ensures { IfOk result (λ set. ShowsText set NAME.now) }
{
    set_with(alloc, PropEntry::text(alloc, NAME, "Mask")?)
}

// Yes.
fn flag_set(alloc: Global) -> Result<PropSet, Memory>
    ensures { IfOk result (λ set. ShowsFlag set TILES.now) }
{
    set_with(alloc, PropEntry::flag(alloc, TILES, true)?)
}

// Two contexts.
fn texts_set(alloc: Global) -> Result<PropSet, Memory>
    ensures { IfOk result (λ set. ShowsTexts set CONTEXTS.now) }
{
    let mut contexts = Vec::new(alloc);
    contexts.push(PropValue::Text(name(alloc, "OfxImageEffectContextFilter")?))?;
    contexts.push(PropValue::Text(name(alloc, "OfxImageEffectContextGeneral")?))?;
    let entry = PropEntry::new(name(alloc, CONTEXTS)?, PropKind::Text, contexts)?;
    set_with(alloc, entry)
}

// The window (-1, 2, 30, 40).
fn window_set(alloc: Global) -> Result<PropSet, Memory>
    ensures { IfOk result (λ set. ShowsWindow set WINDOW.now) }
{
    let window = vec![in alloc;
        PropValue::Int(-1),
        PropValue::Int(2),
        PropValue::Int(30),
        PropValue::Int(40),
    ]?;
    let entry = PropEntry::new(name(alloc, WINDOW)?, PropKind::Int, window)?;
    set_with(alloc, entry)
}

// The region (-2, 0, 3, 1).
fn region_set(alloc: Global) -> Result<PropSet, Memory>
    ensures { IfOk result (λ set. ShowsRegion set REGION.now) }
{
    let region = vec![in alloc;
        PropValue::Fix(Fix { raw: -131072 }),
        PropValue::Fix(Fix { raw: 0 }),
        PropValue::Fix(Fix { raw: 196608 }),
        PropValue::Fix(Fix { raw: 65536 }),
    ]?;
    let entry = PropEntry::new(name(alloc, REGION)?, PropKind::Fix, region)?;
    set_with(alloc, entry)
}

// The frames -4 to 5.
fn frames_set(alloc: Global) -> Result<PropSet, Memory>
    ensures { IfOk result (λ set. ShowsFrames set SEQUENCE.now) }
{
    let frames = vec![in alloc;
        PropValue::Fix(Fix { raw: -262144 }),
        PropValue::Fix(Fix { raw: 327680 }),
    ]?;
    let entry = PropEntry::new(name(alloc, SEQUENCE)?, PropKind::Fix, frames)?;
    set_with(alloc, entry)
}

#[test]
fn what_stands_in_a_set_is_read(rt: HostRuntime) {
    let alloc = rt.alloc();
    let text = text_set(alloc).expect(&rt, "no text");
    same(&rt, text_at(&text, NAME), "Mask");
    let flag = flag_set(alloc).expect(&rt, "no flag");
    assert!(rt; flag_at(&flag, TILES));
    let window = window_set(alloc).expect(&rt, "no window");
    same(&rt, window_at(&window, WINDOW), Rect::of(-1, 2, 30, 40));
    let region = region_set(alloc).expect(&rt, "no region");
    same(&rt, region_at(&region, REGION), Rect::of(-2, 0, 3, 1));
}

#[test]
fn lists_in_a_set_are_read(rt: HostRuntime) {
    texts_are_read(&rt);
    frames_are_read(&rt);
}

fn texts_are_read(rt: &(impl Abort + AllocGlobal)) {
    let set = texts_set(rt.alloc()).expect(rt, "no texts");
    let contexts = texts_at(rt.alloc(), &set, CONTEXTS).expect(rt, "no contexts");
    let contexts = contexts.into_items();
    surely_same(rt, contexts.len(), 2);
    same(rt, contexts[0].text(), "OfxImageEffectContextFilter");
    same(rt, contexts[1].text(), "OfxImageEffectContextGeneral");
}

fn frames_are_read(rt: &(impl Abort + AllocGlobal)) {
    let set = frames_set(rt.alloc()).expect(rt, "no frames");
    let frames = frames_at(rt.alloc(), &set, SEQUENCE).expect(rt, "no frames");
    same(rt, frames.as_slice(), [(-4, 5)].as_slice());
}
