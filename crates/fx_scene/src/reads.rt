//! Which frames an effect reads.
ghost use Rattle.std.specs.Prelude.{◌≡◌, ◌<◌, ◌≤ℤ◌, pos, neg_ℤ, ◌++◌, ◌∷◌, [], length, map, filter, All, IfOk, OnOk};
ghost use Rattle.fx_base.specs.Rect.{IsFrame};
ghost use Rattle.fx_actions.specs.Clips.{NamesClips, each_clip};
ghost use Rattle.fx_scene.specs.Frames.{frames_of, in_some, first_least, last_greatest, IsSmallSpan, items_of};

use fx_actions::frames_needed;
use fx_base::{Memory, Names};
use fx_effect::{ImageEffect, Values};
use std::alloc::Global;

/// For each input clip the frames that the effect needs of it, each once and rising. The names are those of
/// the clips (OpenFX 1.4, kOfxImageEffectActionGetFramesNeeded).
pub fn frames_read<E: ImageEffect>(
    alloc: Global,
    effect: &E,
    names: &Names,
    values: &Values,
) -> Result<Vec<Vec<i64>>, Memory>
    requires names { NamesClips (E.meaning effect.now).shape values.now names.now }
    requires frame { IsFrame values.now.frame }
    ensures { let spans = (E.meaning effect.now).spans values.now in
        IfOk result (λ reads. map items_of reads.items ≡ each_clip names.now (λ c. frames_of (spans c))) }
{
    let spans = frames_needed(alloc, effect, names, values)?;
    let mut reads = Vec::new(alloc);
    for s in &spans {
        reads.push(frames_in(alloc, s.as_slice())?)?;
    }
    Ok(reads)
}

// Each frame of the spans once and rising.
fn frames_in(alloc: Global, spans: &[(i64, i64)]) -> Result<Vec<i64>, Memory>
    requires { All IsSmallSpan spans.now }
    ensures { IfOk result (λ frames. frames.items ≡ frames_of spans.now) }
{
    let mut frames = Vec::new(alloc);
    if spans.is_empty() {
        return Ok(frames);
    }
    let first = least_of(spans);
    let last = greatest_of(spans);
    for f in first..last + 1 {
        add_if(spans, f, &mut frames)?;
    }
    Ok(frames)
}

// Adds a frame that lies in one of the spans.
fn add_if(spans: &[(i64, i64)], f: i64, frames: &mut Vec<i64>) -> Result<(), Memory>
    ensures { OnOk result (frames.new.items ≡ frames.old.items ++ filter (in_some spans.now) (f ∷ [])) }
{
    if is_in_some(spans, f) {
        frames.push(f)?;
    }
    Ok(())
}

// The least of the first frames.
fn least_of(spans: &[(i64, i64)]) -> i64
    requires { 0 < length spans.now }
    ensures { result ≡ first_least spans.now }
{
    let mut a = spans[0].0;
    for span in spans {
        a = a.min(span.0);
    }
    a
}

// The greatest of the last frames.
fn greatest_of(spans: &[(i64, i64)]) -> i64
    requires some { 0 < length spans.now }
    requires small { All IsSmallSpan spans.now }
    ensures value { result ≡ last_greatest spans.now }
    ensures near { (neg_ℤ (pos 2147483648) ≤ℤ result) × (result ≤ℤ pos 2147483648) }
{
    let mut a = spans[0].1;
    for span in spans {
        a = a.max(span.1);
    }
    a
}

fn is_in_some(spans: &[(i64, i64)], frame: i64) -> bool
    ensures { result ≡ in_some spans.now frame }
{
    for span in spans {
        if (span.0 <= frame) & (frame <= span.1) {
            return true;
        }
    }
    false
}
