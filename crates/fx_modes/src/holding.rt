//! Source frames are held at the size that is rendered.
ghost use Rattle.std.specs.Prelude.{◌≡◌, ◌≤◌, ◌+◌, ◌++◌, ◌⊎◌, OnErr, OnOk};
ghost use Rattle.fx_proxy.specs.Reduced.{IsScale};
ghost use Rattle.fx_scene.specs.Scripts.{HasGrownTo};
ghost use Rattle.fx_seq.specs.Held.{held_frames};
ghost use Rattle.fx_seq.specs.Lists.{AreFramesOf, size_of_all, used_size};
ghost use Rattle.fx_seq.specs.Moments.{AreOnce, due_at};
ghost use Rattle.fx_modes.specs.Making.{HoldsScaled, handed_in};

use fx_base::Memory;
use fx_proxy::scale_frames;
use fx_scene::Scene;
use fx_seq::{Kept, SourceFrame, Use};
use fx_shipped::Shipped;
use std::alloc::Global;

/// Lets the frames go that no moment wants any more, and holds those that this moment is the first to want, at 1/scale of
/// their size. They are counted by the size of their files.
pub(crate) fn hold(
    alloc: Global,
    scene: &mut Scene<Shipped>,
    seen: &mut Vec<Kept<Vec<SourceFrame>>>,
    scale: u32,
    uses: &[Use],
    moment: u64,
    frames: Vec<SourceFrame>,
) -> Result<(), Memory>
    requires scale { IsScale scale }
    requires once { AreOnce uses.now }
    requires read { HoldsScaled scale uses.now moment (handed_in seen.old.items) scene.old.store }
    requires due { AreFramesOf (due_at uses.now moment) frames.items }
    ensures graph { scene.new.graph ≡ scene.old.graph }
    ensures script { scene.new.script ≡ scene.old.script }
    ensures grown { HasGrownTo scene.old scene.new }
    ensures read { OnOk result (HoldsScaled scale uses.now (moment + 1) (handed_in seen.new.items) scene.new.store) }
    ensures size { OnOk result (used_size uses.now (moment + 1) (held_frames scene.new.store)
        ≤ used_size uses.now moment (held_frames scene.old.store) + size_of_all frames.items) }
    ensures seen { OnOk result (handed_in seen.new.items ≡ handed_in seen.old.items ++ frames.items) }
    ensures memory { OnErr result ((handed_in seen.new.items ≡ handed_in seen.old.items)
        ⊎ (handed_in seen.new.items ≡ handed_in seen.old.items ++ frames.items)) }
{
    seen.push(Kept::of(&frames))?;
    let small = scale_frames(alloc, frames, scale)?;
    let Ok(()) = scene.advance(uses, moment, small) else {
        return Err(Memory);
    };
    Ok(())
}
