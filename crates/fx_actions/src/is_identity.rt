//! Whether an effect's output is that of an input clip.
ghost use Rattle.std.specs.Prelude.{◌≡◌};
ghost use Rattle.fx_base.specs.Bounds.{Bounds};
ghost use Rattle.fx_effect.specs.Shape.{IsLawful};
ghost use Rattle.fx_effect.specs.Asked.{IsWindow, HasTime, HasWindow, AsksWindow};
ghost use Rattle.fx_base.specs.Rect.{IsFrame};

use fx_effect::{Identity, ImageEffect, Values};
use fx_props::PropSet;

/// The clip and the frame that the output over a window is the same as, or none. The arguments are those
/// of `window_args` (kOfxImageEffectActionIsIdentity).
pub fn identity<E: ImageEffect>(effect: &E, values: &Values, args: &PropSet) -> Identity
    requires lawful { IsLawful (E.meaning effect.now).shape values.now }
    requires frame { IsFrame values.now.frame }
    requires time { HasTime args.now values.now.frame }
    requires window { AsksWindow args.now }
    ensures { (window : Bounds) → IsWindow window → HasWindow args.now window
        → result ≡ (E.meaning effect.now).same values.now window }
{
    effect.is_identity(values, args)
}
