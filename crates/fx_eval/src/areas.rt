//! The regions of an effect's clips, by what is made of their nodes.
ghost use Rattle.std.specs.Prelude.{◌≡◌, ℤ, List, Some, length, map, All, IfOk};
ghost use Rattle.fx_scene.specs.Nodes.{Effect, Nodes};
ghost use Rattle.fx_scene.specs.Frames.{frames_of};
ghost use Rattle.fx_scene.specs.Areas.{area, clip_area, clip_areas, hull_all};
ghost use Rattle.fx_scene.specs.Sites.{AreReads, effect_at};
ghost use Rattle.fx_eval.specs.Wholes.{AreWhole, IsMade, IsReady, look};
ghost use Rattle.fx_eval.specs.Inputs.{AreMade};

use crate::whole::Whole;
use fx_base::{Memory, Rect};
use fx_effect::ImageEffect;
use fx_scene::NodeFrame;
use fx_scene::site::EffectNode;
use std::alloc::Global;
use std::collections::BTreeMap;

/// For each clip the hull of its node's regions at the frames that are read.
pub(crate) fn areas_of<E: ImageEffect>(
    alloc: Global,
    made: &BTreeMap<NodeFrame, Whole>,
    node: &EffectNode<'_, E>,
    _project: Rect,
    frame: i64,
    reads: &[Vec<i64>],
) -> Result<Vec<Rect>, Memory>
    requires ready { IsReady (Effect (effect_at E.meaning _project node.now)) frame made.now }
    requires reads { AreReads (effect_at E.meaning _project node.now) frame reads.now }
    ensures { (nodes : Nodes) → AreWhole nodes made.now →
        IfOk result (λ areas. areas.items ≡ clip_areas (area nodes) (effect_at E.meaning _project node.now) frame) }
{
    let mut areas = Vec::new(alloc);
    for c in 0..reads.len() {
        areas.push(area_of(made, node.clips[c], reads[c].as_slice()))?;
    }
    Ok(areas)
}

fn area_of(made: &BTreeMap<NodeFrame, Whole>, clip: Option<u32>, frames: &[i64]) -> Rect
    requires { AreMade made.now clip frames.now }
    ensures { (nodes : Nodes) (spans : List (ℤ × ℤ)) → AreWhole nodes made.now → frames.now ≡ frames_of spans
        → result ≡ clip_area (area nodes) spans clip }
{
    match clip {
        None => Rect::of(0, 0, 0, 0),
        Some(m) => hull_of(made, m, frames),
    }
}

fn hull_of(made: &BTreeMap<NodeFrame, Whole>, m: u32, frames: &[i64]) -> Rect
    requires { All (IsMade made.now m) frames.now }
    ensures { (nodes : Nodes) → AreWhole nodes made.now → result ≡ hull_all (map (area nodes m) frames.now) }
{
    let mut hull = Rect::of(0, 0, 0, 0);
    for f in frames {
        hull = hull.hull(made_of(made, m, *f).area);
    }
    hull
}

/// What is kept of a node at a frame.
pub(crate) fn made_of<'s>(made: &'s BTreeMap<NodeFrame, Whole>, m: u32, f: i64) -> &'s Whole
    requires { IsMade made.now m f }
    ensures { look made.now m f ≡ Some result.now }
{
    match made.get(&NodeFrame { node: m, frame: f }) {
        Some(whole) => whole,
        None => unreachable!(),
    }
}
