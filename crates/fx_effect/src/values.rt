//! What a render is told beside its pixels.
ghost use Rattle.std.specs.Prelude.{◌≡◌, ℤ, Bool, List};

use fx_base::Rect;
use std::hash::{Hash, Hasher};
use std::marker::Model;

/// The numbers of parameters, one for each in the order in which the effect names them.
#[derive(Debug, Drop)]
pub struct Numbers {
    items: Vec<i64>,
}

impl Model for Numbers {
    ghost Value = { List ℤ };

    ghost view = { λ numbers. numbers.items.items };
}

impl Numbers {
    /// These numbers, in this order.
    pub fn of(items: Vec<i64>) -> Numbers
        ensures { result ≡ items.items }
    {
        Numbers { items }
    }

    /// The numbers in order.
    pub fn items(&self) -> &[i64]
        ensures { result.now ≡ self.now }
    {
        self.items.as_slice()
    }

    /// The numbers in order, given away.
    pub fn into_items(self) -> Vec<i64>
        ensures { result.items ≡ self }
    {
        self.items
    }
}

impl PartialEq for Numbers {
    ghost use Rattle.std.specs.Ordering.{int_eq};
    ghost use Rattle.std.specs.Cmp.Lexicographic.{pointwise};
    ghost use Rattle.std.specs.Cmp.Rules.{comparing};
    ghost use Rattle.std.proofs.Common.{rules};

    ghost eq = { pointwise int_eq };

    ghost laws = { Prim.search (comparing, rules) };

    fn eq(&self, other: &Numbers) -> bool {
        self.items() == other.items()
    }
}

impl Eq for Numbers {
    ghost use Rattle.std.specs.Cmp.Rules.{comparing};
    ghost use Rattle.std.proofs.Common.{rules};

    ghost laws = { Prim.search (comparing, rules) };
}

impl Hash for Numbers {
    ghost use Rattle.std.specs.Hash as fed;
    ghost use Rattle.std.specs.Cmp.Rules.{hashing};
    ghost use Rattle.std.proofs.Common.{rules};

    ghost hash_input = { fed.slice fed.i64 };

    ghost respects_eq = { Prim.search (hashing, rules) };

    fn hash<H: Hasher>(&self, state: &mut H) {
        self.items().hash(state);
    }
}

/// One flag for each input clip, in the order in which the effect names them.
#[derive(Debug, Drop)]
pub struct Flags {
    items: Vec<bool>,
}

impl Model for Flags {
    ghost Value = { List Bool };

    ghost view = { λ flags. flags.items.items };
}

impl Flags {
    /// These flags, in this order.
    pub fn of(items: Vec<bool>) -> Flags
        ensures { result ≡ items.items }
    {
        Flags { items }
    }

    /// The flags in order.
    pub fn items(&self) -> &[bool]
        ensures { result.now ≡ self.now }
    {
        self.items.as_slice()
    }

    /// The flags in order, given away.
    pub fn into_items(self) -> Vec<bool>
        ensures { result.items ≡ self }
    {
        self.items
    }
}

impl PartialEq for Flags {
    ghost use Rattle.std.specs.Bool.{beq};
    ghost use Rattle.std.specs.Cmp.Lexicographic.{pointwise};
    ghost use Rattle.std.specs.Cmp.Rules.{comparing};
    ghost use Rattle.std.proofs.Common.{rules};

    ghost eq = { pointwise beq };

    ghost laws = { Prim.search (comparing, rules) };

    fn eq(&self, other: &Flags) -> bool {
        self.items() == other.items()
    }
}

impl Eq for Flags {
    ghost use Rattle.std.specs.Cmp.Rules.{comparing};
    ghost use Rattle.std.proofs.Common.{rules};

    ghost laws = { Prim.search (comparing, rules) };
}

impl Hash for Flags {
    ghost use Rattle.std.specs.Hash as fed;
    ghost use Rattle.std.specs.Cmp.{booleans_Decides};
    ghost use Rattle.std.specs.Hash.{items_Alike, same_Alike};

    ghost hash_input = { fed.slice fed.bool };

    ghost respects_eq = { (items_Alike (same_Alike fed.bool booleans_Decides)).fed };

    fn hash<H: Hasher>(&self, state: &mut H) {
        self.items().hash(state);
    }
}

/// What a render is told: the frame, the parameters' numbers there (a Fix as its raw number), whether
/// each input clip is connected, and the project's extent in pixels.
#[derive(Debug, Drop, PartialEq, Eq, Hash)]
pub struct Values {
    pub frame: i64,
    pub numbers: Numbers,
    pub connected: Flags,
    pub project: Rect,
}

impl Values {
    ghost use Rattle.fx_effect.specs.Numbers.{number};

    /// The number of the parameter at a place, and 0 past the last one.
    pub fn number(&self, place: usize) -> i64
        ensures { result ≡ number self.now place }
    {
        self.numbers.items().get(place).copied().unwrap_or(0)
    }
}
