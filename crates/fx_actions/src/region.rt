//! Where an effect's output may be anything but zero.
ghost use Rattle.std.specs.Prelude.{◌≡◌, Bool, List, length, IfOk, Some, None, if◌then◌else◌};
ghost use Rattle.fx_base.specs.Bounds.{Bounds, none};
ghost use Rattle.fx_effect.specs.Shape.{IsLawfulIn, optional_flags};
ghost use Rattle.fx_effect.specs.Default.{has_required, hull_from, default_rod};
ghost use Rattle.fx_props.specs.Entries.{region_of};
ghost use Rattle.fx_effect.specs.Asked.{AreRegions};
ghost use Rattle.fx_base.specs.Rect.{IsFrame};

use fx_base::{Memory, Rect};
use fx_effect::{Context, Flags, ImageEffect, Reply, Values, region_answer, region_of, time_args};
use fx_props::names::REGION;
use fx_props::region_at;
use std::alloc::Global;

/// The region of definition in a context, in pixels, by the regions of the input clips, each of which is
/// the hull over the frames that are needed of the clip. The flags say which clips are optional. An effect
/// that leaves it to the host has the default of its context
/// (kOfxImageEffectActionGetRegionOfDefinition).
pub fn region_of_definition<E: ImageEffect>(
    alloc: Global,
    effect: &E,
    context: Context,
    optional: &Flags,
    values: &Values,
    regions: &[Rect],
) -> Result<Rect, Memory>
    requires lawful { IsLawfulIn (E.meaning effect.now).shape context values.now }
    requires frame { IsFrame values.now.frame }
    requires optional { optional.now ≡ optional_flags (E.meaning effect.now).shape context }
    requires regions { AreRegions values.now regions.now }
    ensures { IfOk result (λ r. r ≡ (E.meaning effect.now).rod context values.now regions.now) }
{
    let in_args = time_args(alloc, values.frame)?;
    let mut out_args = region_answer(alloc)?;
    match effect.get_region_of_definition(alloc, values, regions, &in_args, &mut out_args)? {
        Reply::Ok => Ok(region_at(&out_args, REGION)),
        Reply::Default => Ok(default_region(context, optional, values, regions)),
    }
}

fn default_region(context: Context, optional: &Flags, values: &Values, regions: &[Rect]) -> Rect
    requires flags { length optional.now ≡ length regions.now }
    requires connected { length values.now.connected ≡ length regions.now }
    ensures { result ≡ default_rod context optional.now values.now regions.now }
{
    match context {
        Context::Generator => values.project,
        Context::Filter => region_of(regions, 0),
        Context::Transition => region_of(regions, 0).hull(region_of(regions, 1)),
        Context::General => {
            let hull = hull_of_required(optional.items(), values.connected.items(), regions);
            hull.unwrap_or(values.project)
        }
    }
}

// The hull of the regions of the connected clips that aren't optional, where there is such a clip.
fn hull_of_required(optional: &[bool], connected: &[bool], regions: &[Rect]) -> Option<Rect>
    requires flags { length optional.now ≡ length regions.now }
    requires connected { length connected.now ≡ length regions.now }
    ensures { result ≡ (if has_required optional.now connected.now
        then Some (hull_from none optional.now connected.now regions.now) else None) }
{
    let mut hull = None;
    for (clip, region) in regions.iter().enumerate() {
        if connected[clip] && !optional[clip] {
            hull = Some(hull.unwrap_or(Rect::of(0, 0, 0, 0)).hull(*region));
        }
    }
    hull
}
