//! A value while its turn is taken. Contracts see it as the value and the slot.
ghost use Rattle.std.specs.Prelude.{◌≡◌};
ghost use Rattle.std.specs.Borrow.{Lends, sem};
ghost use Rattle.fx_turn.specs.contracts.held.Held.{the_row};

use std::marker::Model;

/// A value that was taken from a row. It has no `Drop`: it must be given back.
pub struct Held<V> {
    value: V,
    slot: u32,
}

impl<V> Model for Held<V> {
    ghost use Rattle.fx_turn.specs.Seats.{HeldState};

    ghost Value = { HeldState V };

    ghost view = { λ h. record { slot = h.slot; value = h.value } };
}

impl<V> Held<V> {
    pub(crate) fn new(value: V, slot: u32) -> Held<V>
        ensures { result ≡ record { slot = slot; value = value } }
    {
        Held { value, slot }
    }

    pub(crate) fn into_parts(self) -> (V, u32)
        ensures { (result.0 ≡ self.value) × (result.1 ≡ self.slot) }
    {
        let Held { value, slot } = self;
        (value, slot)
    }

    /// The value.
    pub fn value(&self) -> &V
        ensures { result.now ≡ self.now.value }
    {
        &self.value
    }

    /// The value, to be changed.
    pub fn value_mut(&mut self) -> &mut V
        ensures* lends { sem 𝓛 (Lends (the_row V.row) V.row self.entry result (λ v. record self.old { value = v })) }
        ensures value { result.now ≡ self.old.value }
    {
        &mut self.value
    }
}
