//! Which frames of each input clip are needed.
ghost use Rattle.std.specs.Prelude.{◌≡◌, ℕ, ℤ, List, ◌++◌, IfOk, map};
ghost use Rattle.fx_effect.specs.Default.{default_spans};
ghost use Rattle.fx_props.specs.Entries.{HasValues, ShowsFrames, frames_entry};
ghost use Rattle.fx_base.specs.Rect.{IsFrame};
ghost use Rattle.fx_props.specs.declared.names.TheConstants.{CLIP_FRAMES};
ghost use Rattle.fx_actions.specs.Clips.{NamesClips, each_clip};
ghost use Rattle.fx_actions.specs.Read.{AreFrames, ShowsAllFrames};

use fx_base::{Memory, Names};
use fx_effect::{ImageEffect, Reply, Values, time_args};
use fx_props::names::CLIP_FRAMES;
use fx_props::{PropKind, PropSet, clip_set_of_blanks, composed, frames_at};
use std::alloc::Global;

/// The frames of each input clip that the effect needs, as pairs of a first and a last one. The names are
/// those of the clips. An effect that leaves it to the host needs the current frame of each clip
/// (kOfxImageEffectActionGetFramesNeeded).
pub fn frames_needed<E: ImageEffect>(
    alloc: Global,
    effect: &E,
    names: &Names,
    values: &Values,
) -> Result<Vec<Vec<(i64, i64)>>, Memory>
    requires names { NamesClips (E.meaning effect.now).shape values.now names.now }
    requires frame { IsFrame values.now.frame }
    ensures { IfOk result
        (λ frames. map (λ spans. spans.items) frames.items
        ≡ each_clip names.now ((E.meaning effect.now).spans values.now)) }
{
    let in_args = time_args(alloc, values.frame)?;
    let mut out_args = clip_set_of_blanks(alloc, CLIP_FRAMES, PropKind::Fix, names)?;
    match effect.get_frames_needed(alloc, values, &in_args, &mut out_args)? {
        Reply::Ok => frames_in(alloc, &out_args, names),
        Reply::Default => current_frames(alloc, values, names),
    }
}

fn frames_in(alloc: Global, set: &PropSet, names: &Names) -> Result<Vec<Vec<(i64, i64)>>, Memory>
    requires { ShowsAllFrames set.now names.now }
    ensures { (spans : ℕ → List (ℤ × ℤ)) → AreFrames set.now names.now spans
        → IfOk result (λ found. map (λ s. s.items) found.items ≡ each_clip names.now spans) }
{
    let mut frames = Vec::new(alloc);
    for name in names.items() {
        frames.push(frames_of(alloc, set, name.text())?)?;
    }
    Ok(frames)
}

// The frames of one clip.
fn frames_of(alloc: Global, set: &PropSet, clip: &str) -> Result<Vec<(i64, i64)>, Memory>
    requires { ShowsFrames set.now (CLIP_FRAMES.now ++ clip.now) }
    ensures { (spans : List (ℤ × ℤ)) → HasValues set.now (frames_entry (CLIP_FRAMES.now ++ clip.now) spans)
        → IfOk result (λ found. found.items ≡ spans) }
{
    let property = composed(alloc, CLIP_FRAMES, clip)?;
    frames_at(alloc, set, property.text())
}

fn current_frames(
    alloc: Global,
    values: &Values,
    names: &Names,
) -> Result<Vec<Vec<(i64, i64)>>, Memory>
    ensures { IfOk result (λ frames. map (λ s. s.items) frames.items ≡ each_clip names.now (default_spans values.now)) }
{
    let mut frames = Vec::new(alloc);
    for _ in 0..names.items().len() {
        frames.push(vec![in alloc; (values.frame, values.frame)]?)?;
    }
    Ok(frames)
}
