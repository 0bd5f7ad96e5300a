//! The directory and its calls.
ghost use Rattle.std.specs.Prelude.{◌≡◌, ◌+◌, ◌-◌, ◌<◌, ◌^◌, [], ◌++◌, IfErr, IfOk, IsOk, IsTrue, None, Ok, OnErr, OnOk};
ghost use Rattle.std.specs.Arc.{arc_value};
ghost use Rattle.std.specs.List.{list_any};
ghost use Rattle.fx_core.specs.Answer.{IsFreshFor, Joins};
ghost use Rattle.fx_core.specs.Flight.{Stands};
ghost use Rattle.fx_turn.specs.Claims.{mark_of};
ghost use Rattle.fx_turn.specs.Seats.{all_parts};
ghost use Rattle.fx_directory.specs.Seats.{AddsUp, AreAtMost, IfFly, IfHere, IsNotHere, LeavesAlone, after_ask, both_made, nothing_made, totals_of};

use crate::guarded::Guarded;
use crate::home::Home;
use crate::seat::DirSeat;
use crate::suits::Suits;
use crate::turn;
use fx_base::Memory;
use fx_core::{Answer, Core, Flight, Permit, Totals};
use fx_turn::Turns;
use std::alloc::Global;
use std::hash::Hash;
use std::marker::Model;
use std::rt::Clock;
use std::sync::{Arc, Wait};

/// A core that many threads ask, one at a time.
#[derive(Drop)]
pub struct Directory<N, K: Eq + Hash, V: Suits<N, K>> {
    turns: Turns<Home<N>, Guarded<K, V>>,
    scene: u64,
    capacity: u32,
}

impl<N, K: Eq + Hash, V: Suits<N, K>> Model for Directory<N, K, V> {
    ghost use Rattle.std.specs.Prelude.{◌≡◌};
    ghost use Rattle.fx_directory.specs.Rows.{DirRow, dir_row_of};

    ghost Value = { DirRow N };

    ghost view = { λ d. dir_row_of d.turns };

    ghost invariant = { λ d. (d.turns.slots ≡ 1) × (d.turns.name.scene ≡ d.scene)
        × (d.turns.name.capacity ≡ d.capacity) };
}

impl<N: Drop, K: Eq + Hash + Drop, V: Suits<N, K> + Drop> Directory<N, K, V> {
    /// An empty directory of the permit's scene that keeps at most so many values, and its first seat.
    /// `Memory` hands the permit back.
    pub fn new(
        alloc: Global,
        name: N,
        permit: Permit,
        capacity: u32,
    ) -> Result<(Directory<N, K, V>, DirSeat<N, K, V>), (Permit, Memory)>
        ensures row { IfOk result (λ r. (r.0.name ≡ name) × (r.0.scene ≡ permit.scene) × (r.0.capacity ≡ capacity)) }
        ensures seat { IfOk result (λ r.
            r.1 ≡ record { row = r.0; parts = all_parts; aloft = []; made = nothing_made }) }
        ensures back { IfErr result (λ r. r.0.scene ≡ permit.scene) }
    {
        let scene = permit.scene;
        let core = Core::new(alloc, permit, capacity)?;
        let home = Home {
            name,
            scene,
            capacity,
        };
        match turn::row_of_one(alloc, home, core) {
            Ok((turns, seat)) => Ok((
                Directory {
                    turns,
                    scene,
                    capacity,
                },
                DirSeat { seat },
            )),
            Err(permit) => Err((permit, Memory)),
        }
    }

    /// Asks for a key's value, in one turn. A value that is here suits the directory's name under this key.
    /// Where the key flies the answer is `Busy`: of the seat's own flights the clause says so. Else the asker
    /// is to make the value, and its flight joins the seat's. Where memory is wanting nothing was asked.
    /// Once 2^62 asks were counted the call doesn't return.
    pub fn ask<R: Wait + Clock>(
        &self,
        rt: &R,
        alloc: Global,
        seat: &mut DirSeat<N, K, V>,
        key: Arc<K>,
    ) -> Result<Answer<K, V>, Memory>
        requires row { seat.old.row ≡ self.now }
        ensures row { (seat.new.row ≡ seat.old.row) × (seat.new.parts ≡ seat.old.parts) }
        ensures made { IfOk result (λ answer. seat.new.made ≡ after_ask seat.old.made answer) }
        ensures aloft { IfOk result (Joins seat.old.aloft seat.new.aloft) }
        ensures unchanged { OnErr result (seat.new ≡ seat.old) }

        // What is handed out.
        ensures here { IfOk result (IfHere (V.suits self.now.name (arc_value key))) }
        ensures not_here { self.now.capacity ≡ 0 → IfOk result IsNotHere }
        ensures fresh { IfOk result (IsFreshFor self.now.scene (arc_value key)) }
        ensures number { IfOk result (IfFly (λ n. mark_of n seat.old.aloft ≡ None)) }
        ensures own { IsTrue (list_any (λ f. K.eq (arc_value key) f.1) seat.old.aloft) → result ≡ Ok Answer.Busy }
        ensures bound { AreAtMost (2 ^ 62) seat.new.made }
    {
        turn::ask(&self.turns, rt, alloc, &mut seat.seat, key)
    }

    /// Lands what was made under a flight of the seat, in one turn: the flight ends, and the value is kept as
    /// the most recently used. Where memory is wanting, which needs a capacity above 0, both come back and the
    /// flight still stands.
    pub fn land<R: Wait + Clock>(
        &self,
        rt: &R,
        alloc: Global,
        seat: &mut DirSeat<N, K, V>,
        flight: Flight<K>,
        value: Arc<V>,
    ) -> Result<(), (Flight<K>, Arc<V>, Memory)>
        requires row { seat.old.row ≡ self.now }
        requires own { Stands seat.old.aloft flight }
        requires stamped { IsTrue flight.ticket.stamped }
        requires suits { V.suits self.now.name (arc_value flight.key) (arc_value value) }
        ensures row { (seat.new.row ≡ seat.old.row) × (seat.new.parts ≡ seat.old.parts) }
        ensures made { let old = seat.old.made in
            OnOk result (seat.new.made ≡ record old { landed = old.landed + 1 }) }
        ensures aloft { OnOk result (LeavesAlone seat.old.aloft seat.new.aloft flight) }
        ensures no_memory { self.now.capacity ≡ 0 → IsOk result }
        ensures back { IfErr result (λ r. (r.0 ≡ flight) × (r.1 ≡ value)) }
        ensures unchanged { OnErr result (seat.new ≡ seat.old) }
        ensures bound { AreAtMost (2 ^ 62) seat.new.made }
    {
        turn::land(&self.turns, rt, alloc, &mut seat.seat, flight, value)
    }

    /// Drops a flight of the seat, in one turn: it ends, and nothing is kept of it.
    pub fn drop_flight<R: Wait + Clock>(
        &self,
        rt: &R,
        seat: &mut DirSeat<N, K, V>,
        flight: Flight<K>,
    )
        requires row { seat.old.row ≡ self.now }
        requires own { Stands seat.old.aloft flight }
        ensures row { (seat.new.row ≡ seat.old.row) × (seat.new.parts ≡ seat.old.parts) }
        ensures made { let old = seat.old.made in seat.new.made ≡ record old { dropped = old.dropped + 1 } }
        ensures aloft { LeavesAlone seat.old.aloft seat.new.aloft flight }
        ensures bound { AreAtMost (2 ^ 62) seat.new.made }
    {
        turn::drop_flight(&self.turns, rt, &mut seat.seat, flight);
    }

    /// A new seat with one part of this one, which has asked nothing yet. At `Memory` the seat is as before.
    pub fn split(
        &self,
        alloc: Global,
        seat: &mut DirSeat<N, K, V>,
    ) -> Result<DirSeat<N, K, V>, Memory>
        requires row { seat.old.row ≡ self.now }
        requires two { 1 < seat.old.parts }
        ensures new { IfOk result (λ s. s ≡ record { row = self.now; parts = 1; aloft = []; made = nothing_made }) }
        ensures left { IfOk result (λ _. seat.new ≡ record seat.old { parts = seat.old.parts - 1 }) }
        ensures err { OnErr result (seat.new ≡ seat.old) }
    {
        match self.turns.split(alloc, &mut seat.seat) {
            Ok(seat) => Ok(DirSeat { seat }),
            Err(_) => Err(Memory),
        }
    }

    /// Puts a seat into another, with its parts, its flights and its counts.
    pub fn join(&self, seat: &mut DirSeat<N, K, V>, other: DirSeat<N, K, V>)
        requires row { seat.old.row ≡ self.now }
        requires other_row { other.row ≡ self.now }
        ensures row { seat.new.row ≡ seat.old.row }
        ensures parts { seat.new.parts ≡ seat.old.parts + other.parts }
        ensures aloft { seat.new.aloft ≡ seat.old.aloft ++ other.aloft }
        ensures made { seat.new.made ≡ both_made seat.old.made other.made }
    {
        let DirSeat { seat: other } = other;
        self.turns.join(&mut seat.seat, other);
    }

    /// Ends a directory in which nothing flies. The permit's scene comes back, with the exact counts: of all
    /// that was asked, landed and dropped through any of its seats. `Memory` hands all back.
    pub fn close(
        self,
        alloc: Global,
        seat: DirSeat<N, K, V>,
    ) -> Result<(Permit, Totals), (Directory<N, K, V>, DirSeat<N, K, V>, Memory)>
        requires row { seat.row ≡ self }
        requires all { seat.parts ≡ all_parts }
        requires ended { seat.aloft ≡ [] }
        ensures permit { IfOk result (λ r. r.0.scene ≡ self.scene) }
        ensures totals { IfOk result (λ r. r.1 ≡ totals_of self.capacity seat.made) }
        ensures sums { IfOk result (λ _. AddsUp seat.made) }
        ensures back { IfErr result (λ r. (r.0 ≡ self) × (r.1 ≡ seat)) }
    {
        let Directory {
            turns,
            scene,
            capacity,
        } = self;
        let DirSeat { seat } = seat;
        match turns.close(alloc, seat) {
            Ok(cores) => Ok(turn::the_core(cores).finish()),
            Err((turns, seat, _)) => Err((
                Directory {
                    turns,
                    scene,
                    capacity,
                },
                DirSeat { seat },
                Memory,
            )),
        }
    }

    /// The same directory under a name that the old one may grow to. What is kept stays, and so does what
    /// the seat has. `Memory` hands all back.
    pub fn renew(
        self,
        alloc: Global,
        seat: DirSeat<N, K, V>,
        name: N,
    ) -> Result<
        (Directory<N, K, V>, DirSeat<N, K, V>),
        (Directory<N, K, V>, DirSeat<N, K, V>, N, Memory),
    >
        requires row { seat.row ≡ self }
        requires all { seat.parts ≡ all_parts }
        requires ended { seat.aloft ≡ [] }
        requires grown { V.grown self.name name }
        ensures row { IfOk result (λ r.
            (r.0.name ≡ name) × (r.0.scene ≡ self.scene) × (r.0.capacity ≡ self.capacity)) }
        ensures seat { IfOk result (λ r. r.1 ≡ record seat { row = r.0 }) }
        ensures back { IfErr result (λ r. (r.0 ≡ self) × (r.1 ≡ seat) × (r.2 ≡ name)) }
    {
        let Directory {
            turns,
            scene,
            capacity,
        } = self;
        let DirSeat { seat } = seat;
        let home = Home {
            name,
            scene,
            capacity,
        };
        match turns.renew(alloc, seat, home) {
            Ok((turns, seat)) => Ok((
                Directory {
                    turns,
                    scene,
                    capacity,
                },
                DirSeat { seat },
            )),
            Err((turns, seat, home, _)) => Err((
                Directory {
                    turns,
                    scene,
                    capacity,
                },
                DirSeat { seat },
                home.name,
                Memory,
            )),
        }
    }
}
