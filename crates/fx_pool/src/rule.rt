//! What a seat knows of its draw, and the rule that every step on the draw keeps. All of it is there
//! for the proofs alone: no value of a `Hand` is ever made.
ghost use Rattle.std.specs.Prelude.{ℕ};

use atomic_table::{Join, Play, Split, TableRule};
use std::collections::LinkedList;
use std::snapshot::Snapshot;

/// What a seat knows: how many numbers there are, what stands in their slots at first, its parts, the
/// numbers that it drew, and what the word had reached where it drew none.
pub struct Hand<S> {
    pub count: u64,
    pub items: LinkedList<S>,
    pub parts: u64,
    pub drawn: LinkedList<u64>,
    pub past: LinkedList<u64>,
}

/// What a draw is told when it is made.
#[derive(Drop)]
pub struct Start<S> {
    pub count: u64,
    pub items: Snapshot<Vec<S>>,
}

pub struct Rule;

impl<S> TableRule<S, Hand<S>, Start<S>> for Rule {
    ghost use Rattle.fx_pool.specs.Drawing.{Ruled, first_hand};

    ghost holds = { λ start. Ruled start.count start.items.value.items };

    ghost first = { λ start. first_hand start.count start.items.value.items };
}

/// Draw: the word rises by one. What stands in a slot stays there.
pub struct Draws;

impl<S> Play<S, Hand<S>> for Draws {
    ghost use Rattle.fx_pool.specs.Drawing.{Drawn};

    ghost then = { Drawn };
}

/// Item out: a draw, and the number's slot is out with the seat.
pub struct TakesOut;

impl<S> Play<S, Hand<S>> for TakesOut {
    ghost use Rattle.fx_pool.specs.Drawing.{TakenOut};

    ghost then = { TakenOut };
}

/// The slot goes back, whatever is in it by now.
pub struct PutsBack;

impl<S> Play<S, Hand<S>> for PutsBack {
    ghost use Rattle.fx_pool.specs.Drawing.{ReadBack};

    ghost then = { ReadBack };
}

/// A look at the word, by which a seat with all parts learns that all numbers were drawn.
pub struct Learns;

impl<S> Play<S, Hand<S>> for Learns {
    ghost use Rattle.fx_pool.specs.Drawing.{Learnt};

    ghost then = { Learnt };
}

/// A split gives one part. A join puts both seats together, and leaves nothing of the second.
pub struct OnePart;

impl<S> Split<Hand<S>> for OnePart {
    ghost use Rattle.fx_pool.specs.Drawing.{one_less, one_part};

    ghost left = { one_less };

    ghost right = { one_part };
}

impl<S> Join<Hand<S>> for OnePart {
    ghost use Rattle.fx_pool.specs.Drawing.{both, spent};

    ghost both = { both };

    ghost spent = { spent };
}
