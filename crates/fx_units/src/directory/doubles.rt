//! A directory of doubles, and one step of it after the other.
ghost use Rattle.std.specs.Prelude.{◌≡◌, ◌*◌, [], ◌∷◌, ◌++◌, IsTrue};
ghost use Rattle.std.specs.Arc.{arc_value};
ghost use Rattle.fx_core.specs.Answer.{IsFreshFor, Joins};
ghost use Rattle.fx_turn.specs.Seats.{all_parts};

use crate::same::{same, same_at, surely_same};
use fx_core::{Answer, Flight, Permit, Totals};
use fx_directory::{DirSeat, Directory, Suits};
use std::process::Abort;
use std::rt::Clock;
use std::sync::{Arc, Wait};

// A number that is twice its key.
#[derive(Drop)]
pub(crate) struct Double {
    pub(crate) number: u64,
}

impl Suits<u32, u32> for Double {
    ghost use Rattle.std.specs.Prelude.{◌≡◌, ℕ, ◌*◌};
    ghost use Rattle.std.proofs.Common.{ap, ◌∙◌};
    ghost use Rattle.std.proofs.lemmas.Bool.{eqb-true};

    ghost suits = { λ _ key v. v.number ≡ 2 * key };

    ghost grown = { λ _ _. Unit {0} };

    ghost same_key = { λ _ j k v same twice. twice ∙ ap (λ (i : ℕ). 2 * i) (eqb-true j k same) };

    ghost still_suits = { λ _ _ _ _ _ twice. twice };
}

pub(crate) type Doubles = Directory<u32, u32, Double>;

pub(crate) type DoubleSeat = DirSeat<u32, u32, Double>;

pub(crate) fn start(rt: &(impl Abort + AllocGlobal), capacity: u32) -> (Doubles, DoubleSeat)
    ensures row { (result.1.row ≡ result.0) × (result.1.parts ≡ all_parts) }
    ensures aloft { result.1.aloft ≡ [] }
{
    match Directory::new(rt.alloc(), 5, Permit::new(7), capacity) {
        Ok(made) => made,
        Err(_) => panic!(rt; "no memory"),
    }
}

fn ask<R: Abort + Wait + Clock + AllocGlobal>(
    rt: &R,
    doubles: &Doubles,
    seat: &mut DoubleSeat,
    key: u32,
) -> Answer<u32, Double>
    requires { seat.old.row ≡ doubles.now }
    ensures row { (seat.new.row ≡ seat.old.row) × (seat.new.parts ≡ seat.old.parts) }
    ensures aloft { Joins seat.old.aloft seat.new.aloft result }
    ensures fresh { IsFreshFor doubles.now.scene key result }
{
    let key = Arc::new(rt.alloc(), key).expect(rt, "a key");
    doubles
        .ask(rt, rt.alloc(), seat, key)
        .expect(rt, "an answer")
}

// Asks for a key that is neither kept nor flying, and stamps the ticket.
pub(crate) fn fly<R: Abort + Wait + Clock + AllocGlobal>(
    rt: &R,
    doubles: &Doubles,
    seat: &mut DoubleSeat,
    key: u32,
    number: u64,
) -> Flight<u32>
    requires { seat.old.row ≡ doubles.now }
    ensures row { (seat.new.row ≡ seat.old.row) × (seat.new.parts ≡ seat.old.parts) }
    ensures flight { (result.ticket.number ≡ number) × (arc_value result.key ≡ key) }
    ensures stamped { IsTrue result.ticket.stamped }
    ensures aloft { seat.new.aloft ≡ seat.old.aloft ++ (number, key) ∷ [] }
{
    match ask(rt, doubles, seat, key) {
        Answer::Fly(mut flight) => {
            surely_same(rt, flight.ticket.number, number);
            let ticket = (flight.ticket.scene, flight.ticket.stamped);
            same_at(rt, &key, ticket, (7, false));
            flight.ticket.stamped = true;
            flight
        }
        Answer::Here(_) | Answer::Busy => panic!(rt; "kept or flying"),
    }
}

// Asks for a key that is kept with this number, or that flies where there is none.
pub(crate) fn finds<R: Abort + Wait + Clock + AllocGlobal>(
    rt: &R,
    doubles: &Doubles,
    seat: &mut DoubleSeat,
    key: u32,
    number: Option<u64>,
)
    requires { seat.old.row ≡ doubles.now }
    ensures row { (seat.new.row ≡ seat.old.row) × (seat.new.parts ≡ seat.old.parts) }
    ensures aloft { seat.new.aloft ≡ seat.old.aloft }
{
    let kept = match ask(rt, doubles, seat, key) {
        Answer::Here(kept) => Some(kept.number),
        Answer::Busy => None,
        Answer::Fly(_flight) => panic!(rt; "neither kept nor flying"),
    };
    same_at(rt, &key, kept, number);
}

// Lands the double of its key under the one flight that stands.
pub(crate) fn land<R: Abort + Wait + Clock + AllocGlobal>(
    rt: &R,
    doubles: &Doubles,
    seat: &mut DoubleSeat,
    flight: Flight<u32>,
)
    requires row { seat.old.row ≡ doubles.now }
    requires own { seat.old.aloft ≡ (flight.ticket.number, arc_value flight.key) ∷ [] }
    requires stamped { IsTrue flight.ticket.stamped }
    ensures row { (seat.new.row ≡ seat.old.row) × (seat.new.parts ≡ seat.old.parts) }
    ensures aloft { seat.new.aloft ≡ [] }
{
    let number = 2 * u64::from(*flight.key);
    let value = Arc::new(rt.alloc(), Double { number }).expect(rt, "a value");
    match doubles.land(rt, rt.alloc(), seat, flight, value) {
        Ok(()) => {}
        Err(_) => panic!(rt; "no memory"),
    }
}

// Drops the one flight that stands.
pub(crate) fn let_go<R: Wait + Clock>(
    rt: &R,
    doubles: &Doubles,
    seat: &mut DoubleSeat,
    flight: Flight<u32>,
)
    requires row { seat.old.row ≡ doubles.now }
    requires own { seat.old.aloft ≡ (flight.ticket.number, arc_value flight.key) ∷ [] }
    ensures row { (seat.new.row ≡ seat.old.row) × (seat.new.parts ≡ seat.old.parts) }
    ensures aloft { seat.new.aloft ≡ [] }
{
    doubles.drop_flight(rt, seat, flight);
}

// Ends a directory in which nothing flies, and answers its counts.
pub(crate) fn close(rt: &(impl Abort + AllocGlobal), doubles: Doubles, seat: DoubleSeat) -> Totals
    requires row { (seat.row ≡ doubles) × (seat.parts ≡ all_parts) }
    requires ended { seat.aloft ≡ [] }
{
    match doubles.close(rt.alloc(), seat) {
        Ok((permit, totals)) => {
            same(rt, permit.scene, 7);
            totals
        }
        Err(_) => panic!(rt; "no memory"),
    }
}
