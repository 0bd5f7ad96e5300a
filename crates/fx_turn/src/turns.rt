//! The row and its calls.
ghost use Rattle.std.specs.Prelude.{◌≡◌, ◌+◌, ◌-◌, ◌<◌, All, IfErr, IfOk, IsSomeAnd, IfSome, [], None, OnErr, Some, flat_map, length, vec_len};
ghost use Rattle.fx_turn.specs.Tallies.{IsAtMost, tally_of_all};
ghost use Rattle.fx_turn.specs.Claims.{OnlyOwnLeft, SameClaims};
ghost use Rattle.fx_turn.specs.Seats.{Agrees, IsPlain, after_turn, all_parts, first_seat, joined, new_seat, with_one_part_less};
ghost use Rattle.fx_turn.specs.declared.rule.Turn.TheVariants.{Free};
ghost use Rattle.fx_turn.specs.Turning.{Won};

use crate::fill::{empty_out, fill, vacant};
use crate::fits::Fits;
use crate::held::Held;
use crate::kept::Kept;
use crate::memory::Memory;
use crate::pause::Pause;
use crate::rule::{Gives, OnePart, Origin, Slots, Start, Takes, Token};
use crate::seat::Seat;
use std::alloc::Global;
use std::marker::Model;
use std::rt::Clock;
use std::sync::Wait;

/// A row of slots, each with a value and a lock. All its seats have 2^32 parts together.
#[derive(Drop)]
pub struct Turns<N, V: Fits<N>> {
    slots: Slots<N, V>,
}

impl<N, V: Fits<N>> Model for Turns<N, V> {
    ghost use Rattle.std.specs.Prelude.{◌≡◌, ◌<◌};
    ghost use Rattle.fx_turn.specs.Seats.{Row};

    ghost Value = { Row N };

    ghost use Rattle.fx_turn.specs.Sitting.{row_of, IsRow};

    ghost view = { λ t. row_of t.slots.shared.key.name.value t.slots.shared.table_id };

    ghost invariant = { λ t. IsRow t.slots.shared.table_id };
}

impl<N: Drop, V: Fits<N>> Turns<N, V> {
    /// A row with these values, and its first seat. `Memory` hands the values back.
    pub fn new(
        alloc: Global,
        name: N,
        values: Vec<V>,
    ) -> Result<(Turns<N, V>, Seat<N, V>), (Vec<V>, Memory)>
        requires some { 0 < vec_len values }
        requires fit { All (V.fits name) values.items }
        requires plain { 1 < vec_len values → All (IsPlain V.tally V.claims) values.items }
        ensures row { IfOk result (λ r. (r.0.slots ≡ vec_len values) × (r.0.name ≡ name)) }
        ensures seat { IfOk result (λ r. r.1 ≡ first_seat V.tally V.claims r.0 values.items) }
        ensures back { IfErr result (λ r. r.0.items ≡ values.items) }
    {
        let start = Start {
            name: Kept::of(&name),
            origin: Origin::Values(Kept::of(&values)),
        };
        let Ok((slots, mut token)) = vacant(alloc, values.len(), &start) else {
            return Err((values, Memory));
        };
        fill(&slots, &mut token, values);
        let name = Kept::of(&name);
        Ok((Turns { slots }, Seat { name, token }))
    }

    /// The values, in the order of their slots. `Memory` hands the row and its seat back.
    pub fn close(
        self,
        alloc: Global,
        seat: Seat<N, V>,
    ) -> Result<Vec<V>, (Turns<N, V>, Seat<N, V>, Memory)>
        requires row { seat.row ≡ self }
        requires all { seat.parts ≡ all_parts }
        requires free { seat.turn ≡ None }
        ensures count { IfOk result (λ v. vec_len v ≡ self.slots) }
        ensures fit { IfOk result (λ v. All (V.fits self.name) v.items) }
        ensures tally { IfOk result (λ v. tally_of_all V.tally v.items ≡ seat.tally) }
        ensures claims { IfOk result (λ v. SameClaims (flat_map V.claims v.items) seat.claims) }
        ensures back { IfErr result (λ r. (r.0 ≡ self) × (r.1 ≡ seat)) }
    {
        let count = self.slots.slot_count();
        let Ok(mut values) = Vec::with_capacity(alloc, count) else {
            return Err((self, seat, Memory));
        };
        let Turns { slots } = self;
        let Seat { name: _, token } = seat;
        empty_out(slots, token, &mut values, count);
        Ok(values)
    }

    /// The same values under another name, in a row of their own. The new row is made first, and
    /// the values then move in. `Memory` hands all back.
    pub fn renew(
        self,
        alloc: Global,
        seat: Seat<N, V>,
        name: N,
    ) -> Result<(Turns<N, V>, Seat<N, V>), (Turns<N, V>, Seat<N, V>, N, Memory)>
        requires row { seat.row ≡ self }
        requires all { seat.parts ≡ all_parts }
        requires free { seat.turn ≡ None }
        requires grown { V.grown self.name name }
        ensures row { IfOk result (λ r. (r.0.slots ≡ self.slots) × (r.0.name ≡ name)) }
        ensures seat { IfOk result (λ r. r.1 ≡ record seat { row = r.0 }) }
        ensures back { IfErr result (λ r. (r.0 ≡ self) × (r.1 ≡ seat) × (r.2 ≡ name)) }
    {
        let count = self.slots.slot_count();
        let Ok(mut values) = Vec::with_capacity(alloc, count) else {
            return Err((self, seat, name, Memory));
        };
        let start = Start {
            name: Kept::of(&name),
            origin: Origin::Renewed(Kept::of(&seat.token)),
        };
        let Ok((slots, mut token)) = vacant(alloc, count, &start) else {
            values.destroy_empty();
            return Err((self, seat, name, Memory));
        };
        let Turns { slots: old } = self;
        let Seat {
            name: _,
            token: last,
        } = seat;
        empty_out(old, last, &mut values, count);
        fill(&slots, &mut token, values);
        let name = Kept::of(&name);
        Ok((Turns { slots }, Seat { name, token }))
    }
}

impl<N, V: Fits<N>> Turns<N, V> {
    /// Takes the turn of a slot, and its value. Waits while another seat has the turn. What the seat has
    /// of tally and claims is in the value.
    pub fn take<R: Wait + Clock>(&self, rt: &R, seat: &mut Seat<N, V>, slot: u32) -> Held<V>
        requires slot { slot < self.now.slots }
        requires row { seat.old.row ≡ self.now }
        requires free { seat.old.turn ≡ None }
        ensures slot { result.slot ≡ slot }
        ensures fit { V.fits self.now.name result.value }
        ensures agrees { Agrees V.tally V.claims seat.old result.value }
        ensures six { length seat.old.tally ≡ 6 }
        ensures seat { seat.new ≡ record seat.old { turn = Some (slot, result.value) } }
    {
        let place = slot as usize;
        win(&self.slots, rt, &mut seat.token, place);
        let Some(value) = self.slots.shared.exchange(&mut seat.token, place, None) else {
            unreachable!()
        };
        Held::new(value, slot)
    }

    /// Gives a turn back, with its value: what the value's tally and claims gained meanwhile is the
    /// seat's, and the claims that left are not any more.
    pub fn give(&self, seat: &mut Seat<N, V>, held: Held<V>)
        requires row { seat.old.row ≡ self.now }
        requires took { IsSomeAnd seat.old.turn (λ t. t.0 ≡ held.slot) }
        requires fit { V.fits self.now.name held.value }
        requires rises { IfSome seat.old.turn (λ t. IsAtMost (V.tally t.1) (V.tally held.value)) }
        requires leaves { IfSome seat.old.turn (λ t. OnlyOwnLeft seat.old.claims (V.claims t.1) (V.claims held.value)) }
        requires plain { 1 < self.now.slots → IsPlain V.tally V.claims held.value }
        ensures { IfSome seat.old.turn (λ t. seat.new ≡ after_turn V.tally V.claims t.1 held.value seat.old) }
    {
        let (value, slot) = held.into_parts();
        let place = slot as usize;
        let found = self
            .slots
            .shared
            .exchange(&mut seat.token, place, Some(value));
        let None = found else { unreachable!() };
        self.slots.shared.store::<Gives>(&mut seat.token, place, 0);
    }

    /// A new seat with one part of this one. At `Memory` the seat is as before.
    pub fn split(&self, _alloc: Global, seat: &mut Seat<N, V>) -> Result<Seat<N, V>, Memory>
        requires row { seat.old.row ≡ self.now }
        requires free { seat.old.turn ≡ None }
        requires two { 1 < seat.old.parts }
        ensures new { IfOk result (λ s. s ≡ new_seat seat.old) }
        ensures left { IfOk result (λ _. seat.new ≡ with_one_part_less seat.old) }
        ensures err { OnErr result (seat.new ≡ seat.old) }
    {
        let token = self.slots.shared.split_seat::<OnePart>(&mut seat.token);
        Ok(Seat {
            name: seat.name.again(),
            token,
        })
    }

    /// Puts a seat into another: its parts, and what it has of tally and claims.
    pub fn join(&self, seat: &mut Seat<N, V>, other: Seat<N, V>)
        requires row { seat.old.row ≡ self.now }
        requires free { seat.old.turn ≡ None }
        requires other_row { other.row ≡ self.now }
        requires other_free { other.turn ≡ None }
        ensures { seat.new ≡ joined seat.old other }
    {
        let Seat { name: _, token } = other;
        self.slots
            .shared
            .join_seat::<OnePart>(&mut seat.token, token);
    }
}

// Tries until the word was 0, and lets others run between two tries.
fn win<R: Wait + Clock, N, V: Fits<N>>(
    slots: &Slots<N, V>,
    rt: &R,
    token: &mut Token<N, V, V::Mark>,
    place: usize,
)
    requires row { let table = slots.now.shared.table_id in
        (token.old.table_id ≡ table) × (table.words ≡ table.slots) }
    requires place { place < slots.now.shared.table_id.slots }
    requires free { (token.old.me.1 ≡ []) × (0 < token.old.me.0.parts) × (token.old.me.0.turn ≡ Free) }
    ensures row { token.new.table_id ≡ token.old.table_id }
    ensures won { Won V.fits V.tally V.claims place token.old.me.0 token.new.me }
{
    let mut pause = Pause::new();
    for _ in rt.forever() {
        if slots.shared.compare_exchange::<Takes>(token, place, 0, 1) == 0 {
            return;
        }
        pause.wait(rt);
    }
    unreachable!()
}
