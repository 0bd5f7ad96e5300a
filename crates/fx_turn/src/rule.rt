//! What a seat knows of its row, and the rule that every step on the row keeps. All of it is there
//! for the proofs alone: no value of a `View` is ever made.
ghost use Rattle.std.specs.Prelude.{ℕ};

use crate::fits::Fits;
use crate::kept::Kept;
use atomic_table::{Join, Play, Split, Table, TableRule};
use std::alloc::Global;
use std::collections::LinkedList;

/// The turn that a seat has: none, or that of a slot, with the value as it was taken. The one seat
/// of a new row moves the values in: these are in, and it awaits the next slot's turn, or has it.
pub enum Turn<V> {
    Free,
    Has(u64, V),
    Awaits(LinkedList<V>),
    Fills(LinkedList<V>),
}

/// What a seat knows.
pub struct View<N, V, M> {
    pub name: Option<N>,
    pub parts: u64,
    pub turn: Turn<V>,
    pub tally: LinkedList<u64>,
    pub claims: LinkedList<(u64, M)>,
}

/// A seat as the table has it.
pub type Token<N, V, M> = atomic_table::Seat<Option<V>, View<N, V, M>>;

/// Where the values of a new row come from.
#[derive(Drop)]
pub enum Origin<N, V, M> {
    Values(Kept<Vec<V>>),
    Renewed(Kept<Token<N, V, M>>),
}

/// What a row is told when it is made.
#[derive(Drop)]
pub struct Start<N, V, M> {
    pub name: Kept<N>,
    pub origin: Origin<N, V, M>,
}

/// A row as the table has it: a word for each slot, 1 while its turn is taken.
pub type Slots<N, V> = Table<
    Option<V>,
    View<N, V, <V as Fits<N>>::Mark>,
    Start<N, V, <V as Fits<N>>::Mark>,
    Rule,
    Global,
>;

pub struct Rule;

impl<N, V: Fits<N>> TableRule<Option<V>, View<N, V, V::Mark>, Start<N, V, V::Mark>> for Rule {
    ghost use Rattle.fx_turn.specs.Turning.{Ruled, first_view};

    ghost holds = { λ start. Ruled V.fits V.tally V.claims start.name.value };

    ghost first = { first_view V.tally V.claims };
}

/// Take turn: the word from 0 to 1.
pub struct Takes;

impl<N, V: Fits<N>> Play<Option<V>, View<N, V, V::Mark>> for Takes {
    ghost use Rattle.fx_turn.specs.Turning.{Taken};

    ghost then = { Taken V.fits V.tally V.claims };
}

/// Give turn: the word is 0 again.
pub struct Gives;

impl<N, V: Fits<N>> Play<Option<V>, View<N, V, V::Mark>> for Gives {
    ghost use Rattle.fx_turn.specs.Turning.{Given};

    ghost then = { Given V.fits V.tally V.claims };
}

/// Take turn at a slot that is still empty.
pub struct Reaches;

impl<N, V: Fits<N>> Play<Option<V>, View<N, V, V::Mark>> for Reaches {
    ghost use Rattle.fx_turn.specs.Turning.{Reached};

    ghost then = { Reached V.fits V.tally V.claims };
}

/// Give turn at a slot that has its first value.
pub struct MovesIn;

impl<N, V: Fits<N>> Play<Option<V>, View<N, V, V::Mark>> for MovesIn {
    ghost use Rattle.fx_turn.specs.Turning.{Moved};

    ghost then = { Moved V.fits V.tally V.claims };
}

/// A split gives one part. A join puts both seats together, and leaves nothing of the second.
pub struct OnePart;

impl<N, V, M> Split<View<N, V, M>> for OnePart {
    ghost use Rattle.fx_turn.specs.Turning.{one_less, one_part};

    ghost left = { one_less };

    ghost right = { one_part };
}

impl<N, V, M> Join<View<N, V, M>> for OnePart {
    ghost use Rattle.fx_turn.specs.Turning.{both, spent};

    ghost both = { both };

    ghost spent = { spent };
}
