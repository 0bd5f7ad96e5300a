//! Which region of each input clip is needed.
ghost use Rattle.std.specs.Prelude.{◌≡◌, ℕ, ◌++◌, IfOk};
ghost use Rattle.fx_base.specs.Bounds.{Bounds, IsRect};
ghost use Rattle.fx_props.specs.Entries.{HasValues, ShowsRegion, region_entry};
ghost use Rattle.fx_effect.specs.Asked.{HasRegion, HasTime, IsWindow};
ghost use Rattle.fx_base.specs.Rect.{IsFrame};
ghost use Rattle.fx_props.specs.declared.names.TheConstants.{CLIP_REGION};
ghost use Rattle.fx_actions.specs.Clips.{NamesClips, each_clip};
ghost use Rattle.fx_actions.specs.Read.{IsInterest, ShowsInterest};

use fx_base::{Memory, Names, Rect};
use fx_effect::{ImageEffect, Reply, Values, interest_args};
use fx_props::names::CLIP_REGION;
use fx_props::{PropKind, PropSet, clip_set_of_blanks, composed, region_at};
use std::alloc::Global;

/// The region of each input clip, in pixels, that the effect needs for the window. The names are those of
/// the clips. An effect that leaves it to the host needs the window of each clip
/// (kOfxImageEffectActionGetRegionsOfInterest).
pub fn regions_of_interest<E: ImageEffect>(
    alloc: Global,
    effect: &E,
    names: &Names,
    values: &Values,
    window: Rect,
) -> Result<Vec<Rect>, Memory>
    requires names { NamesClips (E.meaning effect.now).shape values.now names.now }
    requires frame { IsFrame values.now.frame }
    requires window { IsWindow window }
    ensures { IfOk result
        (λ regions. regions.items ≡ each_clip names.now ((E.meaning effect.now).roi values.now window)) }
{
    let in_args = interest_args(alloc, values.frame, window)?;
    interest_by(alloc, effect, names, values, window, &in_args)
}

/// The same where the arguments are at hand.
pub(crate) fn interest_by<E: ImageEffect>(
    alloc: Global,
    effect: &E,
    names: &Names,
    values: &Values,
    window: Rect,
    in_args: &PropSet,
) -> Result<Vec<Rect>, Memory>
    requires names { NamesClips (E.meaning effect.now).shape values.now names.now }
    requires frame { IsFrame values.now.frame }
    requires window { IsWindow window }
    requires time { HasTime in_args.now values.now.frame }
    requires region { HasRegion in_args.now window }
    ensures { IfOk result
        (λ regions. regions.items ≡ each_clip names.now ((E.meaning effect.now).roi values.now window)) }
{
    let mut out_args = clip_set_of_blanks(alloc, CLIP_REGION, PropKind::Fix, names)?;
    match effect.get_regions_of_interest(alloc, values, in_args, &mut out_args)? {
        Reply::Ok => regions_in(alloc, &out_args, names),
        Reply::Default => Ok(vec![in alloc; window; names.items().len()]?),
    }
}

fn regions_in(alloc: Global, set: &PropSet, names: &Names) -> Result<Vec<Rect>, Memory>
    requires { ShowsInterest set.now names.now }
    ensures { (regions : ℕ → Bounds) → IsInterest set.now names.now regions
        → IfOk result (λ found. found.items ≡ each_clip names.now regions) }
{
    let mut regions = Vec::new(alloc);
    for name in names.items() {
        regions.push(region_in(alloc, set, name.text())?)?;
    }
    Ok(regions)
}

// The region of one clip.
fn region_in(alloc: Global, set: &PropSet, clip: &str) -> Result<Rect, Memory>
    requires { ShowsRegion set.now (CLIP_REGION.now ++ clip.now) }
    ensures { (r : Bounds) → IsRect r → HasValues set.now (region_entry (CLIP_REGION.now ++ clip.now) r)
        → IfOk result (λ found. found ≡ r) }
{
    let property = composed(alloc, CLIP_REGION, clip)?;
    Ok(region_at(set, property.text()))
}
