//! The core: what was made is kept until it is the least recently used, and each key is made by one
//! caller at a time. Contracts see it as lists and counts, and each call as one step on them.
ghost use Rattle.std.specs.Prelude.{◌≡◌, ◌≤◌, ◌<◌, ◌+◌, ◌^◌, ◌↔◌, IsTrue, [], IfOk, OnOk, OnErr, IfErr, IsOk, Ok, Some};
ghost use Rattle.std.specs.Arc.{arc_value};
ghost use Rattle.fx_core.specs.State.{start, SameMake};
ghost use Rattle.fx_core.specs.Step.{step, is_flying, Ask, Land, Drop, Done};
ghost use Rattle.fx_core.specs.Sound.{IsSound};
ghost use Rattle.fx_core.specs.Flight.{Stands, Leaves, LeavesLast};
ghost use Rattle.fx_core.specs.Answer.{reply_of, counted, IsKeptFor, IsFreshFor, Joins, KeepsNoMore, KeepsAtMost};

use crate::flight::{Answer, Flight, Permit, Ticket};
use crate::flying::Flying;
use crate::kept::Kept;
use crate::totals::Totals;
use fx_base::Memory;
use std::alloc::Global;
use std::hash::Hash;
use std::marker::Model;
use std::sync::Arc;

/// What was made for a scene, what is being made, and the counts. With capacity 0 nothing is kept.
#[derive(Drop)]
pub struct Core<K: Eq + Hash, V> {
    permit: Permit,
    kept: Kept<K, V>,
    flying: Flying<K>,
    totals: Totals,
}

impl<K: Eq + Hash, V> Model for Core<K, V> {
    ghost use Rattle.std.specs.Prelude.{◌^◌, ◌≤◌};
    ghost use Rattle.fx_core.specs.State.{State};
    ghost use Rattle.fx_core.specs.Sound.{IsSound};
    ghost use Rattle.fx_core.specs.Seen.{state_of};

    ghost Value = { State K V };

    ghost view = { λ c. state_of c.permit.scene c.kept c.flying c.totals };

    ghost invariant = { λ c. let state = state_of c.permit.scene c.kept c.flying c.totals in
        IsSound K.eq state × (c.totals.asks ≤ 2 ^ 62) };
}

// A call that may run out of memory takes the allocator, though a core's lists keep their own.
impl<K: Eq + Hash + Drop, V: Drop> Core<K, V> {
    /// A core of the permit's scene that keeps at most so many values. The permit comes back where
    /// memory is wanting.
    pub fn new(alloc: Global, permit: Permit, capacity: u32) -> Result<Core<K, V>, (Permit, Memory)>
        ensures made { IfOk result (λ core. core ≡ start permit.scene capacity) }
        ensures sound { IfOk result (λ core. IsSound K.eq core) }
        ensures back { IfErr result (λ r. r.0 ≡ permit) }
    {
        match Kept::new(alloc, capacity) {
            Ok(kept) => Ok(Core {
                permit,
                kept,
                flying: Flying::new(alloc),
                totals: Totals::NONE,
            }),
            Err(memory) => Err((permit, memory)),
        }
    }

    /// Asks for a key's value. Where it is kept it comes back, as the most recently used from now on.
    /// Where it is being made the answer is `Busy`, which takes no memory. Else the asker is to make it.
    /// Where memory is wanting nothing was asked.
    pub fn ask(&mut self, _alloc: Global, key: Arc<K>) -> Result<Answer<K, V>, Memory>
        requires { self.old.totals.asks < 2 ^ 62 }
        ensures step { IfOk result (λ answer.
            step K.eq self.old (Ask (arc_value key)) ≡ Some (reply_of answer, self.new)) }
        ensures busy { (result ≡ Ok Answer.Busy) ↔ IsTrue (is_flying K.eq self.old (arc_value key)) }
        ensures unchanged { OnErr result (self.new ≡ self.old) }

        // What follows of what is handed out, and of what stays.
        ensures here { IfOk result (IsKeptFor K.eq self.old.kept (arc_value key)) }
        ensures fresh { IfOk result (IsFreshFor self.old.scene (arc_value key)) }
        ensures joins { IfOk result (Joins self.old.flying self.new.flying) }
        ensures counts { IfOk result (λ answer. self.new.totals ≡ counted self.old.totals answer) }
        ensures kept { KeepsNoMore self.old.kept self.new.kept }
        ensures same { SameMake self.old self.new }
        ensures sound { IsSound K.eq self.new }
        ensures bound { self.new.totals.asks ≤ 2 ^ 62 }
    {
        if let Some(value) = self.kept.find(&key) {
            let value = Arc::try_clone(value)?;
            self.kept.bring_to_front(&key);
            self.totals.asks += 1;
            self.totals.hits += 1;
            return Ok(Answer::Here(value));
        }
        if self.flying.has(&key) {
            self.totals.asks += 1;
            self.totals.busies += 1;
            return Ok(Answer::Busy);
        }
        // Flights are numbered from 0 on.
        let number = self.totals.flights;
        self.flying.begin(number, Arc::try_clone(&key)?)?;
        self.totals.asks += 1;
        self.totals.flights += 1;
        let ticket = Ticket {
            scene: self.permit.scene,
            number,
            stamped: false,
        };
        Ok(Answer::Fly(Flight { key, ticket }))
    }

    /// Lands what was made: the flight ends, and the value is kept as the most recently used. The last
    /// entry goes first where as many are kept as may be. Where memory is wanting, which needs a
    /// capacity above 0, both come back and the flight still stands.
    pub fn land(
        &mut self,
        _alloc: Global,
        flight: Flight<K>,
        value: Arc<V>,
    ) -> Result<(), (Flight<K>, Arc<V>, Memory)>
        requires stands { Stands self.old.flying flight }
        requires stamped { IsTrue flight.ticket.stamped }
        ensures step { OnOk result
            (step K.eq self.old (Land flight.ticket.number (arc_value value)) ≡ Some (Done, self.new)) }
        ensures no_memory { self.old.capacity ≡ 0 → IsOk result }
        ensures back { IfErr result (λ r. (r.0 ≡ flight) × (r.1 ≡ value)) }
        ensures unchanged { OnErr result (self.new ≡ self.old) }

        // What follows of what stays.
        ensures leaves { OnOk result (Leaves self.old.flying self.new.flying flight) }
        ensures last { OnOk result (LeavesLast self.old.flying self.new.flying flight) }
        ensures counts { let old = self.old.totals in let evicted = self.new.totals.evicted in
            OnOk result (self.new.totals ≡ record old { landed = old.landed + 1; evicted = evicted }) }
        ensures kept { KeepsAtMost self.old.kept (arc_value flight.key, arc_value value) self.new.kept }
        ensures same { SameMake self.old self.new }
        ensures sound { IsSound K.eq self.new }
        ensures bound { self.new.totals.asks ≤ 2 ^ 62 }
    {
        let Flight { key, ticket } = flight;
        match self.kept.put(key, value) {
            Ok(evicted) => {
                self.flying.end(spend(ticket));
                self.totals.landed += 1;
                self.totals.evicted += u64::from(evicted);
                Ok(())
            }
            Err((key, value)) => Err((Flight { key, ticket }, value, Memory)),
        }
    }

    /// Drops a flight: it ends, and nothing is kept of it.
    pub fn drop_flight(&mut self, flight: Flight<K>)
        requires { Stands self.old.flying flight }
        ensures step { step K.eq self.old (Drop flight.ticket.number) ≡ Some (Done, self.new) }

        // What follows of what stays.
        ensures leaves { Leaves self.old.flying self.new.flying flight }
        ensures last { LeavesLast self.old.flying self.new.flying flight }
        ensures counts { let old = self.old.totals in self.new.totals ≡ record old { dropped = old.dropped + 1 } }
        ensures kept { self.new.kept ≡ self.old.kept }
        ensures same { SameMake self.old self.new }
        ensures sound { IsSound K.eq self.new }
        ensures bound { self.new.totals.asks ≤ 2 ^ 62 }
    {
        let Flight { key: _, ticket } = flight;
        self.flying.end(spend(ticket));
        self.totals.dropped += 1;
    }

    /// The counts so far.
    pub fn totals(&self) -> Totals
        ensures value { result ≡ self.now.totals }
        ensures sound { IsSound K.eq self.now }
        ensures bound { result.asks ≤ 2 ^ 62 }
    {
        self.totals
    }

    /// Ends a core in which nothing flies. The permit that it was made with comes back, with the counts.
    pub fn finish(self) -> (Permit, Totals)
        requires { self.flying ≡ [] }
        ensures permit { result.0.scene ≡ self.scene }
        ensures totals { result.1 ≡ self.totals }
        ensures sound { IsSound K.eq self }
        ensures bound { result.1.asks ≤ 2 ^ 62 }
    {
        let Core {
            permit,
            kept: _,
            flying: _,
            totals,
        } = self;
        (permit, totals)
    }
}

// The number of a ticket, which is used up.
fn spend(ticket: Ticket) -> u64
    ensures { result ≡ ticket.number }
{
    let Ticket {
        scene: _,
        number,
        stamped: _,
    } = ticket;
    number
}
