//! The effects by name, and their numbers.
ghost use Rattle.std.specs.Prelude.{◌≡◌, IfSome};
ghost use Rattle.fx_shipped.specs.Shipped.{name_of, number_of, effect_of};
ghost use Rattle.fx_shipped.specs.ShippedLaws.{one_name_each, one_meaning_each, few_numbers};

use crate::Shipped;
use crate::all::EFFECTS;
use fx_effect::{Catalogue, Safety};

impl Shipped {
    /// Its name in graph files.
    pub fn name(self) -> &'static str
        ensures { result.now ≡ name_of self }
    {
        match self {
            Shipped::Solid => "solid",
            Shipped::Checker => "checker",
            Shipped::Ramp => "ramp",
            Shipped::Grain => "grain",
            Shipped::Invert => "invert",
            Shipped::Gain => "gain",
            Shipped::Premult => "premult",
            Shipped::Unpremult => "unpremult",
            Shipped::Shuffle => "shuffle",
            Shipped::Saturation => "saturation",
            Shipped::Posterise => "posterise",
            Shipped::Boxblur => "boxblur",
            Shipped::Erode => "erode",
            Shipped::Dilate => "dilate",
            Shipped::Convolve3 => "convolve3",
            Shipped::Crop => "crop",
            Shipped::Translate => "translate",
            Shipped::Mirror => "mirror",
            Shipped::Timeoffset => "timeoffset",
            Shipped::Frameblend => "frameblend",
            Shipped::Framediff => "framediff",
            Shipped::Echo => "echo",
            Shipped::Dissolve => "dissolve",
            Shipped::Wipe => "wipe",
            Shipped::Merge => "merge",
            Shipped::Keymix => "keymix",
            Shipped::Autogain => "autogain",
        }
    }
}

impl Catalogue for Shipped {
    ghost called = { name_of };

    ghost number_of = { number_of };

    ghost find = { effect_of };

    ghost one_name = { one_name_each };

    ghost one_meaning = { one_meaning_each };

    ghost few = { few_numbers };

    fn named(name: &str) -> Option<Shipped> {
        for effect in &EFFECTS {
            if name == effect.name() {
                return Some(*effect);
            }
        }
        None
    }

    fn number(&self) -> u32 {
        match self {
            Shipped::Solid => 0,
            Shipped::Checker => 1,
            Shipped::Ramp => 2,
            Shipped::Grain => 3,
            Shipped::Invert => 4,
            Shipped::Gain => 5,
            Shipped::Premult => 6,
            Shipped::Unpremult => 7,
            Shipped::Shuffle => 8,
            Shipped::Saturation => 9,
            Shipped::Posterise => 10,
            Shipped::Boxblur => 11,
            Shipped::Erode => 12,
            Shipped::Dilate => 13,
            Shipped::Convolve3 => 14,
            Shipped::Crop => 15,
            Shipped::Translate => 16,
            Shipped::Mirror => 17,
            Shipped::Timeoffset => 18,
            Shipped::Frameblend => 19,
            Shipped::Framediff => 20,
            Shipped::Echo => 21,
            Shipped::Dissolve => 22,
            Shipped::Wipe => 23,
            Shipped::Merge => 24,
            Shipped::Keymix => 25,
            Shipped::Autogain => 26,
        }
    }

    fn safety(&self) -> Safety {
        match self {
            Shipped::Frameblend => Safety::Unsafe,
            Shipped::Boxblur => Safety::InstanceSafe,
            _ => Safety::FullySafe,
        }
    }

    fn supports_tiles(&self) -> bool {
        match self {
            Shipped::Autogain => false,
            _ => true,
        }
    }
}
