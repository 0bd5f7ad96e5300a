//! A number in a slot, which any name fits.
ghost use Rattle.std.specs.Prelude.{[]};
ghost use Rattle.std.proofs.Common.{arith, refl};
ghost use Rattle.fx_turn.specs.Tallies.{zeros};

use fx_turn::Fits;

#[derive(Drop)]
pub(crate) struct Number {
    pub(crate) value: u64,
}

impl Fits<()> for Number {
    type Mark = ();

    ghost fits = { λ _ _. Unit {0} };

    ghost tally = { λ _. zeros };

    ghost claims = { λ _. [] };

    ghost grown = { λ _ _. Unit {0} };

    ghost six_numbers = { λ _. refl };

    ghost numbers_differ = { λ _ _ _ _. Prim.omega arith };

    ghost still_fits = { λ _ _ _ _ _. tt };
}
