//! A seat of a row: the right to take turns. Contracts see it as its row, its parts, its turn, and
//! its part of the row's tally and claims.
use crate::fits::Fits;
use crate::kept::Kept;
use crate::rule::Token;
use std::marker::Model;

/// A seat of a row. All seats of a row have 2^32 parts together, and each has one at least.
#[derive(Drop)]
pub struct Seat<N, V: Fits<N>> {
    pub(crate) name: Kept<N>,
    pub(crate) token: Token<N, V, V::Mark>,
}

impl<N, V: Fits<N>> Model for Seat<N, V> {
    ghost use Rattle.std.specs.Prelude.{◌≡◌, ◌<◌, Some};
    ghost use Rattle.fx_turn.specs.Seats.{SeatState};

    ghost Value = { SeatState N V V.Mark };

    ghost use Rattle.fx_turn.specs.Sitting.{row_of, seat_view, IsSeat};

    ghost view = { λ s. seat_view s.name.value s.token.table_id s.token.me.0 };

    ghost invariant = { λ s. IsSeat s.name.value s.token.table_id s.token.me };
}
