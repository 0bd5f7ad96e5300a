//! How values move into a new row, and out of one that is closed.
ghost use Rattle.std.specs.Prelude.{◌≡◌, ℕ, ◌+◌, ◌<◌, ◌≤◌, List, [], ◌∷◌, ◌++◌, length, IfOk, Some, map, vec_len, vec_capacity};
ghost use Rattle.std.specs.Mem.Slots.{IsFull, slots_items, slots_len};
ghost use Rattle.fx_turn.specs.declared.rule.Turn.TheVariants.{Awaits, Free};
ghost use Rattle.fx_turn.specs.Seats.{all_parts};
ghost use Rattle.fx_turn.specs.Turning.{MayMove, MayStand, first_view, stage_of, with_turn};

use crate::fits::Fits;
use crate::memory::Memory;
use crate::rule::{MovesIn, Reaches, Slots, Start, Token};
use atomic_table::{Closed, Table};
use std::alloc::Global;

// A row of empty slots, and its first seat.
pub(crate) fn vacant<N, V: Fits<N>>(
    alloc: Global,
    count: usize,
    start: &Start<N, V, V::Mark>,
) -> Result<(Slots<N, V>, Token<N, V, V::Mark>), Memory>
    ensures count { IfOk result (λ r. (r.0.shared.table_id.words ≡ count) × (r.0.shared.table_id.slots ≡ count)) }
    ensures told { IfOk result (λ r. r.0.shared.key ≡ start.now) }
    ensures seat { IfOk result (λ r.
        (r.1.table_id ≡ r.0.shared.table_id) × (r.1.me ≡ (first_view V.tally V.claims start.now, []))) }
{
    let words = vec![in alloc; 0u64; count]?;
    let made = Table::vacant(alloc, words.as_slice(), count, start)?;
    Ok(made)
}

// Moves the values in, slot by slot.
pub(crate) fn fill<N, V: Fits<N>>(
    slots: &Slots<N, V>,
    token: &mut Token<N, V, V::Mark>,
    mut values: Vec<V>,
)
    requires row { let table = slots.now.shared.table_id in
        (token.old.table_id ≡ table) × (table.words ≡ table.slots) }
    requires count { (vec_len values ≡ slots.now.shared.table_id.slots) × (0 < vec_len values) }
    requires first { (token.old.me.0.turn ≡ Awaits []) × (token.old.me.1 ≡ []) }
    requires stand { let name = slots.now.shared.key.name.value in let seat = token.old.me.0 in
        MayStand V.fits V.tally V.claims name values.items seat.tally seat.claims }
    ensures { (token.new.table_id ≡ token.old.table_id) × (token.new.me ≡ (with_turn token.old.me.0 Free, [])) }
{
    values.reverse();
    let mut place = 0;
    while let Some(value) = values.pop() {
        move_in(slots, token, place, value);
        place += 1;
    }
    values.destroy_empty();
}

// Moves a value into the next slot.
fn move_in<N, V: Fits<N>>(
    slots: &Slots<N, V>,
    token: &mut Token<N, V, V::Mark>,
    place: usize,
    value: V,
)
    requires row { let table = slots.now.shared.table_id in
        (token.old.table_id ≡ table) × (table.words ≡ table.slots) }
    requires place { place < slots.now.shared.table_id.slots }
    requires next { let name = slots.now.shared.key.name.value in let count = slots.now.shared.table_id.slots in
        MayMove V.fits V.tally V.claims name count place value token.old.me }
    ensures row { token.new.table_id ≡ token.old.table_id }
    ensures moved { (moved : List V) → token.old.me.0.turn ≡ Awaits moved
        → (let stage = stage_of slots.now.shared.table_id.slots (moved ++ value ∷ []) in
        token.new.me ≡ (with_turn token.old.me.0 stage, [])) }
{
    slots.shared.compare_exchange::<Reaches>(token, place, 0, 1);
    let found = slots.shared.exchange(token, place, Some(value));
    let None = found else { unreachable!() };
    slots.shared.store::<MovesIn>(token, place, 0);
}

// Takes each value out, in order, and frees the row.
pub(crate) fn empty_out<N, V: Fits<N>>(
    slots: Slots<N, V>,
    token: Token<N, V, V::Mark>,
    values: &mut Vec<V>,
    count: usize,
)
    requires row { (token.table_id ≡ slots.shared.table_id) × (slots.shared.table_id.slots ≡ count) }
    requires all { (token.me.0.parts ≡ all_parts) × (token.me.0.turn ≡ Free) × (length token.me.0.tally ≡ 6) }
    requires room { (values.old.items ≡ []) × (count ≤ vec_capacity values.old) }
    ensures count { vec_len values.new ≡ count }
    ensures stood { let name = slots.shared.key.name.value in let seat = token.me.0 in
        MayStand V.fits V.tally V.claims name values.new.items seat.tally seat.claims }
{
    take_all(slots.close_with(token), values, count);
}

// Takes each value out, in order, and frees the rest.
fn take_all<V>(mut closed: Closed<Option<V>, Global>, values: &mut Vec<V>, count: usize)
    requires slots { (slots_len closed.slots ≡ count) × IsFull closed.slots
        × ((vs : List V) × (slots_items closed.slots ≡ map Some vs)) }
    requires room { (values.old.items ≡ []) × (count ≤ vec_capacity values.old) }
    ensures { (map Some values.new.items ≡ slots_items closed.slots) × (vec_len values.new ≡ count) }
{
    let mut place = 0;
    while place < count {
        let slot = closed.take(place);
        let Some(value) = slot else { unreachable!() };
        values.push_reserved(value);
        place += 1;
    }
    closed.free();
}
