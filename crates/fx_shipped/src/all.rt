//! The effects of the program, all of them.
ghost use Rattle.std.specs.Prelude.{◌≡◌, IfOk};
ghost use Rattle.fx_shipped.specs.Shipped.{all};

use crate::shipped::Shipped;
use fx_base::Memory;
use std::alloc::Global;

// Each effect once, by its number.
pub(crate) static EFFECTS: [Shipped; 27] = [
    Shipped::Solid,
    Shipped::Checker,
    Shipped::Ramp,
    Shipped::Grain,
    Shipped::Invert,
    Shipped::Gain,
    Shipped::Premult,
    Shipped::Unpremult,
    Shipped::Shuffle,
    Shipped::Saturation,
    Shipped::Posterise,
    Shipped::Boxblur,
    Shipped::Erode,
    Shipped::Dilate,
    Shipped::Convolve3,
    Shipped::Crop,
    Shipped::Translate,
    Shipped::Mirror,
    Shipped::Timeoffset,
    Shipped::Frameblend,
    Shipped::Framediff,
    Shipped::Echo,
    Shipped::Dissolve,
    Shipped::Wipe,
    Shipped::Merge,
    Shipped::Keymix,
    Shipped::Autogain,
];

/// Each effect once, by its number.
pub fn all_effects(alloc: Global) -> Result<Vec<Shipped>, Memory>
    ensures { IfOk result (λ effects. effects.items ≡ all) }
{
    Ok(Vec::from_slice(alloc, &EFFECTS)?)
}
