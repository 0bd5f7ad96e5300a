//! What an effect says of itself, read from the property sets that it writes (OpenFX 1.4,
//! "kOfxActionDescribe", "kOfxImageEffectActionDescribeInContext").
ghost use Rattle.std.specs.Prelude.{◌≡◌, List, All, IfOk, codes};
ghost use Rattle.std.specs.List.{AllZip, Contains, list_all, list_any};
ghost use Rattle.std.specs.Str.{bytes_eq};
ghost use Rattle.fx_pixel.specs.declared.Depth.TheVariants as depths;
ghost use Rattle.fx_pixel.specs.declared.Components.{Components};
ghost use Rattle.fx_effect.specs.Shape.{Shape, Clip};
ghost use Rattle.fx_effect.specs.Described.{clip_description, DescribesClip};
ghost use Rattle.fx_props.specs.Entries.{HasValues};
ghost use Rattle.fx_graph.specs.Nodes.{has_depth, has_alpha};
ghost use Rattle.fx_graph.specs.Described.{context_of_text, contexts_in, lists_alpha, clip_takes, ShowsClip};

use crate::clips::Input;
use fx_base::{Memory, Name, Names};
use fx_effect::{Context, ImageEffect, descriptor};
use fx_params::ParamDef;
use fx_props::names::{COMPONENTS, CONTEXTS, DEPTHS, NAME, OPTIONAL};
use fx_props::{PropSet, flag_at, text_at, texts_at};
use std::alloc::Global;

/// The contexts that an effect supports, its first one in front, and whether it renders images of each depth.
#[derive(Drop)]
pub(crate) struct About {
    pub(crate) contexts: Vec<Context>,
    pub(crate) byte: bool,
    pub(crate) short: bool,
}

/// What an effect has in a context: its input clips and parameters in order, and whether it renders images
/// of Alpha beside those of RGBA.
#[derive(Drop)]
pub(crate) struct InContext {
    pub(crate) inputs: Vec<Input>,
    pub(crate) alpha: bool,
    pub(crate) params: Vec<ParamDef>,
}

/// Asks an effect to describe itself.
pub(crate) fn description_of<E: ImageEffect>(alloc: Global, effect: &E) -> Result<About, Memory>
    ensures contexts { IfOk result (λ a. a.contexts.items ≡ (E.meaning effect.now).shape.contexts) }
    ensures byte { IfOk result (λ a. a.byte ≡ has_depth (E.meaning effect.now).shape depths.Byte) }
    ensures short { IfOk result (λ a. a.short ≡ has_depth (E.meaning effect.now).shape depths.Short) }
{
    let mut set = descriptor(alloc)?;
    effect.describe(alloc, &mut set)?;
    let contexts = texts_at(alloc, &set, CONTEXTS)?;
    let depths = texts_at(alloc, &set, DEPTHS)?;
    Ok(About {
        contexts: contexts_in(alloc, &contexts)?,
        byte: has_text(&depths, "OfxBitDepthByte"),
        short: has_text(&depths, "OfxBitDepthShort"),
    })
}

/// Asks an effect what it has in a context that it supports.
pub(crate) fn description_in<E: ImageEffect>(
    alloc: Global,
    effect: &E,
    context: Context,
) -> Result<InContext, Memory>
    requires { Contains (E.meaning effect.now).shape.contexts context }
    ensures inputs { IfOk result (λ a. a.inputs.items ≡ (E.meaning effect.now).shape.clips context) }
    ensures alpha { IfOk result (λ a. a.alpha ≡ has_alpha (E.meaning effect.now).shape) }
    ensures params { IfOk result (λ a. a.params.items ≡ (E.meaning effect.now).shape.params context) }
{
    let mut sets = Vec::new(alloc);
    let mut params = Vec::new(alloc);
    effect.describe_in_context(alloc, context, &mut sets, &mut params)?;
    let (inputs, alpha) = clips_of(alloc, &sets)?;
    Ok(InContext {
        inputs,
        alpha,
        params,
    })
}

// The clips that these sets describe, and whether each takes Alpha. A mask does, and every other clip where the
// effect renders it. Without such a clip it renders Alpha.
fn clips_of(alloc: Global, sets: &[PropSet]) -> Result<(Vec<Input>, bool), Memory>
    requires { All ShowsClip sets.now }
    ensures { (s : Shape) (clips : List Clip) → AllZip (DescribesClip s) clips sets.now
        → IfOk result (λ told. (told.0.items ≡ clips) × (told.1 ≡ list_all (clip_takes s) clips)) }
{
    let mut inputs = Vec::new(alloc);
    let mut alpha = true;
    for set in sets {
        inputs.push(input_of(alloc, set)?)?;
        alpha &= takes_alpha(alloc, set)?;
    }
    Ok((inputs, alpha))
}

// The clip that a set describes.
fn input_of(alloc: Global, set: &PropSet) -> Result<Input, Memory>
    requires { ShowsClip set.now }
    ensures { (clip : Clip) (cs : List Components) → All (HasValues set.now) (clip_description clip cs)
        → IfOk result (λ i. i ≡ clip) }
{
    let name = Name::of(String::from_str(alloc, text_at(set, NAME))?);
    Ok(Input {
        name,
        optional: flag_at(set, OPTIONAL),
    })
}

// Whether the clip that a set describes takes Alpha.
fn takes_alpha(alloc: Global, set: &PropSet) -> Result<bool, Memory>
    requires { ShowsClip set.now }
    ensures { (clip : Clip) (cs : List Components) → All (HasValues set.now) (clip_description clip cs)
        → IfOk result (λ alpha. alpha ≡ lists_alpha cs) }
{
    let components = texts_at(alloc, set, COMPONENTS)?;
    Ok(has_text(&components, "OfxImageComponentAlpha"))
}

fn has_text(texts: &Names, text: &str) -> bool
    ensures { result ≡ list_any (λ t. bytes_eq t text.now) texts.now }
{
    texts.items().iter().any(|t| t.text() == text)
}

// The contexts of these texts.
fn contexts_in(alloc: Global, texts: &Names) -> Result<Vec<Context>, Memory>
    ensures { IfOk result (λ found. found.items ≡ contexts_in texts.now) }
{
    let mut found = Vec::new(alloc);
    for text in texts.items() {
        if let Some(context) = context_of_text(text.text()) {
            found.push(context)?;
        }
    }
    Ok(found)
}

fn context_of_text(text: &str) -> Option<Context>
    ensures { result ≡ context_of_text text.now }
{
    match text {
        "OfxImageEffectContextGenerator" => Some(Context::Generator),
        "OfxImageEffectContextFilter" => Some(Context::Filter),
        "OfxImageEffectContextTransition" => Some(Context::Transition),
        "OfxImageEffectContextGeneral" => Some(Context::General),
        _ => None,
    }
}
