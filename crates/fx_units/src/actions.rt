//! The five actions asked of an effect that leaves each answer to the host and of one that gives each
//! itself, with answers worked by hand.
ghost use Rattle.std.specs.Prelude.{◌≡◌, [], ◌∷◌, ◌++◌, pos, false, codes, IfOk};
ghost use Rattle.std.specs.List.{AllZip};
ghost use Rattle.fx_base.specs.Bounds.{none};
ghost use Rattle.fx_effect.specs.Shape.{IsLawful, MayBe, optional_flags};
ghost use Rattle.fx_effect.specs.Asked.{IsWindow};
ghost use Rattle.fx_base.specs.Rect.{IsFrame};
ghost use Rattle.fx_units.specs.ActionsToys.{clear_clips, clear_shape};

mod toys;

use crate::actions::toys::{Clear, Wide};
use crate::same::{same, same_at, surely_same};
use fx_actions::{frames_needed, identity, region_of_definition, regions_of_interest};
use fx_base::{Fix, Name, Names, Rect};
use fx_effect::{
    Context, Flags, Identity, ImageEffect, Numbers, Values, descriptor, sequence_args, window_args,
};
use std::alloc::{AllocError, Global};
use std::process::Abort;

const PROJECT: Rect = Rect {
    x1: 0,
    y1: 0,
    x2: 8,
    y2: 6,
};

const LEFT: Rect = Rect {
    x1: 1,
    y1: 1,
    x2: 4,
    y2: 3,
};

const RIGHT: Rect = Rect {
    x1: 3,
    y1: 2,
    x2: 9,
    y2: 5,
};

// Round LEFT and RIGHT.
const BOTH: Rect = Rect {
    x1: 1,
    y1: 1,
    x2: 9,
    y2: 5,
};

const FAR: Rect = Rect {
    x1: -20,
    y1: -20,
    x2: 20,
    y2: 20,
};

const EMPTY: Rect = Rect {
    x1: 0,
    y1: 0,
    x2: 0,
    y2: 0,
};

// The values of an instance at frame 7, on a project of 8 by 6 pixels.
fn values_of(rt: &(impl Abort + AllocGlobal), connected: &[bool]) -> Values
    ensures { result ≡ record {
      frame = pos 7;
      numbers = [];
      connected = connected.now;
      project = record { x1 = pos 0; y1 = pos 0; x2 = pos 8; y2 = pos 6 };
    } }
{
    let connected = connected.to_vec(rt.alloc()).expect(rt, "no flags");
    Values {
        frame: 7,
        numbers: Numbers::of(Vec::new(rt.alloc())),
        connected: Flags::of(connected),
        project: PROJECT,
    }
}

fn flags_of(alloc: Global, optional: bool, context: Context) -> Result<Flags, AllocError>
    ensures { IfOk result (λ flags. flags ≡ optional_flags (clear_shape optional) context) }
{
    let flags = match context {
        Context::Generator => Vec::new(alloc),
        Context::Filter => [false].to_vec(alloc)?,
        Context::Transition => [false, false].to_vec(alloc)?,
        Context::General => [optional, optional, true].to_vec(alloc)?,
    };
    Ok(Flags::of(flags))
}

// The default region of definition is the one that was worked by hand.
fn defaults_to(
    rt: &(impl Abort + AllocGlobal),
    optional: bool,
    context: Context,
    connected: &[bool],
    regions: &[Rect],
    wanted: Rect,
)
    requires connected { AllZip MayBe (clear_clips optional context) connected.now }
    requires regions { AllZip (λ flag r. IsWindow r × (flag ≡ false → r ≡ none)) connected.now regions.now }
{
    let effect = Clear { optional };
    let flags = flags_of(rt.alloc(), optional, context).expect(rt, "no flags");
    let values = values_of(rt, connected);
    let found = region_of_definition(rt.alloc(), &effect, context, &flags, &values, regions);
    same(rt, found.ok(), Some(wanted));
}

#[test]
fn regions_are_those_of_the_context(rt: HostRuntime) {
    defaults_to(&rt, false, Context::Generator, &[], &[], PROJECT);
    defaults_to(&rt, false, Context::Filter, &[true], &[LEFT], LEFT);
}

#[test]
fn a_transition_lies_in_both_clips(rt: HostRuntime) {
    let both = &[true, true];
    defaults_to(&rt, false, Context::Transition, both, &[LEFT, RIGHT], BOTH);
    defaults_to(
        &rt,
        false,
        Context::Transition,
        both,
        &[EMPTY, RIGHT],
        RIGHT,
    );
}

#[test]
fn masks_and_optional_clips_tell_no_region(rt: HostRuntime) {
    let general = Context::General;
    let (all, masked) = (&[true, true, true], &[LEFT, RIGHT, FAR]);
    defaults_to(&rt, false, general, all, masked, BOTH);
    let (unmasked, plain) = (&[true, true, false], &[LEFT, RIGHT, EMPTY]);
    defaults_to(&rt, false, general, unmasked, plain, BOTH);
}

#[test]
fn a_general_effect_of_optional_clips_has_the_project(rt: HostRuntime) {
    let (some, regions) = (&[true, false, true], &[LEFT, EMPTY, FAR]);
    defaults_to(&rt, true, Context::General, some, regions, PROJECT);
}

// Adds the name of a text to these.
fn push_name(rt: &(impl Abort + AllocGlobal), names: &mut Vec<Name>, text: &str)
    ensures { names.new.items ≡ names.old.items ++ text.now ∷ [] }
{
    let name = Name::of(String::from_str(rt.alloc(), text).expect(rt, "no name"));
    names.push(name).expect(rt, "no name");
}

// The names of the clips.
fn source(rt: &(impl Abort + AllocGlobal)) -> Names
    ensures { result ≡ codes "Source" ∷ [] }
{
    let mut names = Vec::new(rt.alloc());
    push_name(rt, &mut names, "Source");
    Names::of(names)
}

fn two_clips(rt: &(impl Abort + AllocGlobal)) -> Names
    ensures { result ≡ codes "A" ∷ codes "B" ∷ [] }
{
    let mut names = Vec::new(rt.alloc());
    push_name(rt, &mut names, "A");
    push_name(rt, &mut names, "B");
    Names::of(names)
}

const WINDOW: Rect = Rect {
    x1: 2,
    y1: 1,
    x2: 5,
    y2: 4,
};

// The effect is the same as this clip and frame over the window.
fn same_over_window<E: ImageEffect>(
    rt: &(impl Abort + AllocGlobal),
    effect: &E,
    values: &Values,
    wanted: Identity,
)
    requires lawful { IsLawful (E.meaning effect.now).shape values.now }
    requires frame { IsFrame values.now.frame }
{
    let args = window_args(rt.alloc(), values.frame, WINDOW).expect(rt, "no arguments");
    same(rt, identity(effect, values, &args), wanted);
}

const CLEAR: Clear = Clear { optional: false };

#[test]
fn answers_that_are_left_are_the_defaults(rt: HostRuntime) {
    let alloc = rt.alloc();
    let (names, values) = (source(&rt), values_of(&rt, &[true]));
    let regions = regions_of_interest(alloc, &CLEAR, &names, &values, WINDOW);
    let regions = regions.expect(&rt, "no regions");
    same(&rt, regions.as_slice(), [WINDOW].as_slice());
    let frames = frames_needed(alloc, &CLEAR, &names, &values).expect(&rt, "no frames");
    surely_same(&rt, frames.len(), 1);
    same(&rt, frames[0].as_slice(), [(7, 7)].as_slice());
}

#[test]
fn an_identity_that_is_left_is_none(rt: HostRuntime) {
    let values = values_of(&rt, &[true]);
    same_over_window(&rt, &CLEAR, &values, Identity::No);
}

#[test]
fn regions_that_are_given_are_read(rt: HostRuntime) {
    let alloc = rt.alloc();
    let values = values_of(&rt, &[true, true]);
    let flags = Flags::of([false, false].to_vec(alloc).expect(&rt, "no flags"));
    let inputs = [LEFT, RIGHT];
    let region = region_of_definition(alloc, &Wide, Context::General, &flags, &values, &inputs);
    same(&rt, region.ok(), Some(Rect::of(0, 0, 10, 6)));
    let regions = regions_of_interest(alloc, &Wide, &two_clips(&rt), &values, WINDOW);
    let regions = regions.expect(&rt, "no regions");
    let wider = Rect::of(0, -1, 7, 6);
    same(&rt, regions.as_slice(), [wider, wider].as_slice());
}

#[test]
fn frames_that_are_given_are_read(rt: HostRuntime) {
    let values = values_of(&rt, &[true, true]);
    let frames = frames_needed(rt.alloc(), &Wide, &two_clips(&rt), &values);
    let frames = frames.expect(&rt, "no frames");
    same(&rt, frames.len(), 2);
    for spans in &frames {
        same(&rt, spans.as_slice(), [(6, 8)].as_slice());
    }
}

#[test]
fn an_identity_that_is_given_is_read(rt: HostRuntime) {
    let values = values_of(&rt, &[true, true]);
    same_over_window(&rt, &Wide, &values, Identity::Same { clip: 0, frame: 7 });
}

// The bounds of the window, by their indices.
const BOUNDS: &[(u32, i64)] = &[(0, -2), (1, 1), (2, 30), (3, 4)];

#[test]
fn a_window_has_its_names(rt: HostRuntime) {
    let window = window_args(rt.alloc(), -3, Rect::of(-2, 1, 30, 4)).expect(&rt, "no arguments");
    let time = window.get_fix("OfxPropTime", 0);
    same(&rt, time, Ok(Fix { raw: -196608 }));
    for &(index, bound) in BOUNDS {
        let found = window.get_int("OfxImageEffectPropRenderWindow", index);
        same_at(&rt, &index, found, Ok(bound));
    }
}

// The first and the last frame and the step of the frames 3 to 9.
const SEQUENCE: &[(&str, u32, i64)] = &[
    ("OfxImageEffectPropFrameRange", 0, 196608),
    ("OfxImageEffectPropFrameRange", 1, 589824),
    ("OfxImageEffectPropFrameStep", 0, 65536),
];

#[test]
fn a_sequence_has_its_names(rt: HostRuntime) {
    let sequence = sequence_args(rt.alloc(), 3, 9).expect(&rt, "no arguments");
    for &(name, index, raw) in SEQUENCE {
        same_at(&rt, &name, sequence.get_fix(name, index), Ok(Fix { raw }));
    }
}

const DESCRIBED: &[&str] = &[
    "OfxPropLabel",
    "OfxImageEffectPropSupportedContexts",
    "OfxImageEffectPropSupportedPixelDepths",
    "OfxImageEffectPropTemporalClipAccess",
    "OfxImageEffectPropSupportsTiles",
    "OfxImageEffectPluginRenderThreadSafety",
];

#[test]
fn a_descriptor_has_its_names(rt: HostRuntime) {
    let described = descriptor(rt.alloc()).expect(&rt, "no descriptor");
    for name in DESCRIBED {
        same_at(&rt, name, described.dimension(name), Ok(0));
    }
}
