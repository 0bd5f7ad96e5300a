//! Numbers that threads draw: each below the count once, over all seats.
ghost use Rattle.std.specs.Prelude.{◌≡◌, ℕ, ◌<◌, ◌≤◌, ◌^◌, [], IfErr, IfNone, IfOk, IfSome, OnErr, vec_len};
ghost use Rattle.fx_pool.specs.Draws.{HasAll, HasItems, IsItem, all_parts, first_seat, joined, new_seat, with_drawn, with_one_part_less, with_past};

use crate::rule::{Draws, Hand, Learns, OnePart, PutsBack, Rule, Start, TakesOut};
use atomic_table::{Refused, Seat, Table};
use fx_base::Memory;
use std::alloc::Global;
use std::marker::Model;
use std::snapshot::Snapshot;

/// The numbers below a count, to be drawn. What is drawn may stand in slots, of type `S`, one for each
/// number. All its seats have 2^32 parts together.
#[derive(Drop)]
pub struct Draw<S = ()> {
    table: Table<S, Hand<S>, Start<S>, Rule, Global>,
    count: u64,
}

impl<S> Model for Draw<S> {
    ghost use Rattle.fx_pool.specs.Draws.{DrawState};
    ghost use Rattle.fx_pool.specs.Drawing.{draw_of, IsDraw};

    ghost Value = { DrawState S };

    ghost view = { λ d. draw_of d.table.shared.table_id d.table.shared.key.count d.table.shared.key.items.value.items };

    ghost invariant = { λ d. IsDraw d.table.shared.table_id d.table.shared.key.count d.count };
}

/// A seat of a draw: the right to draw its numbers. It has a part at least.
#[derive(Drop)]
pub struct DrawSeat<S = ()> {
    token: Seat<S, Hand<S>>,
}

impl<S> Model for DrawSeat<S> {
    ghost use Rattle.fx_pool.specs.Draws.{DrawSeatState};
    ghost use Rattle.fx_pool.specs.Drawing.{seat_view, IsSeat};

    ghost Value = { DrawSeatState S };

    ghost view = { λ s. seat_view s.token.table_id s.token.me.0 };

    ghost invariant = { λ s. IsSeat s.token.me };
}

impl Draw {
    /// A draw of the numbers below `count`, and its first seat. `Memory` comes where memory is wanting.
    pub fn new(alloc: Global, count: u64) -> Result<(Draw, DrawSeat), Memory>
        requires few { count ≤ 2 ^ 32 }
        ensures count { IfOk result (λ r. r.0.count ≡ count) }
        ensures seat { IfOk result (λ r. r.1 ≡ first_seat r.0) }
    {
        match Draw::open(alloc, count, Vec::new(alloc)) {
            Ok(made) => Ok(made),
            Err(_) => Err(Memory),
        }
    }
}

impl<S> Draw<S> {
    // A draw over these slots.
    pub(crate) fn open(
        alloc: Global,
        count: u64,
        slots: Vec<S>,
    ) -> Result<(Draw<S>, DrawSeat<S>), Vec<S>>
        requires few { count ≤ 2 ^ 32 }
        ensures count { IfOk result (λ r. r.0.count ≡ count) }
        ensures items { IfOk result (λ r. r.0.items ≡ slots.items) }
        ensures seat { IfOk result (λ r. r.1 ≡ first_seat r.0) }
        ensures back { IfErr result (λ r. r.items ≡ slots.items) }
    {
        let start = Start {
            count,
            items: Snapshot::of(&slots),
        };
        match Table::new(alloc, &[0], slots, &start) {
            Ok((table, token)) => Ok((Draw { table, count }, DrawSeat { token })),
            Err(Refused { slots }) => Err(slots),
        }
    }

    /// Draws the next number. `None` comes exactly where the word had reached the count.
    pub fn next(&self, seat: &mut DrawSeat<S>) -> Option<u64>
        requires draw { seat.old.draw ≡ self.now }
        requires none_yet { seat.old.past ≡ [] }
        ensures number { IfSome result (λ n. (n < self.now.count) × (seat.new ≡ with_drawn seat.old n)) }
        ensures none { IfNone result ((word : ℕ) × (self.now.count ≤ word) × (seat.new ≡ with_past seat.old word)) }
    {
        let word = self.table.shared.fetch_add::<Draws>(&mut seat.token, 0, 1);
        if word < self.count { Some(word) } else { None }
    }

    /// A new seat with one part of this one. At `Memory` the seat is as before.
    pub fn split(&self, _alloc: Global, seat: &mut DrawSeat<S>) -> Result<DrawSeat<S>, Memory>
        requires draw { seat.old.draw ≡ self.now }
        requires two { 1 < seat.old.parts }
        requires none_yet { seat.old.past ≡ [] }
        ensures new { IfOk result (λ s. s ≡ new_seat seat.old) }
        ensures left { IfOk result (λ _. seat.new ≡ with_one_part_less seat.old) }
        ensures err { OnErr result (seat.new ≡ seat.old) }
    {
        Ok(self.part(seat))
    }

    // A new seat with one part of this one.
    pub(crate) fn part(&self, seat: &mut DrawSeat<S>) -> DrawSeat<S>
        requires draw { seat.old.draw ≡ self.now }
        requires two { 1 < seat.old.parts }
        requires none_yet { seat.old.past ≡ [] }
        ensures new { result ≡ new_seat seat.old }
        ensures left { seat.new ≡ with_one_part_less seat.old }
    {
        let token = self.table.shared.split_seat::<OnePart>(&mut seat.token);
        DrawSeat { token }
    }

    /// Puts a seat into another: its parts, and what it drew. A seat that has all parts then has drawn
    /// the numbers below some number, each once; where one of its draws gave none, all below the count.
    pub fn join(&self, seat: &mut DrawSeat<S>, other: DrawSeat<S>)
        requires draw { seat.old.draw ≡ self.now }
        requires other_draw { other.draw ≡ self.now }
        ensures both { seat.new ≡ joined seat.old other }
        ensures all { seat.new.parts ≡ all_parts → HasAll self.now.count seat.new.drawn seat.new.past }
    {
        let DrawSeat { token } = other;
        self.table
            .shared
            .join_seat::<OnePart>(&mut seat.token, token);
        self.table.shared.load::<Learns>(&mut seat.token, 0);
    }
}

impl<I> Draw<Option<I>> {
    // Draws the next number, and takes the item out of its slot.
    pub(crate) fn next_item(&self, seat: &mut DrawSeat<Option<I>>) -> Option<(u64, I)>
        requires draw { seat.old.draw ≡ self.now }
        requires none_yet { seat.old.past ≡ [] }
        requires items { HasItems self.now }
        ensures item { IfSome result (λ r.
            (r.0 < self.now.count) × IsItem self.now.items r.0 r.1 × (seat.new ≡ with_drawn seat.old r.0)) }
        ensures none { IfNone result ((word : ℕ) × (self.now.count ≤ word) × (seat.new ≡ with_past seat.old word)) }
    {
        let word = self
            .table
            .shared
            .fetch_add::<TakesOut>(&mut seat.token, 0, 1);
        if word >= self.count {
            return None;
        }
        let slot = word as usize;
        let Some(item) = self.table.shared.exchange(&mut seat.token, slot, None) else {
            unreachable!()
        };
        self.table.shared.load::<PutsBack>(&mut seat.token, 0);
        Some((word, item))
    }
}
