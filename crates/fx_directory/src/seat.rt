//! A seat of a directory. Contracts see it as its directory, its parts, the flights that were asked through
//! it and still stand, and what was asked, landed and dropped through it.
ghost use Rattle.fx_directory.specs.Seats.{FindsNone};

use crate::guarded::Guarded;
use crate::home::Home;
use crate::suits::Suits;
use fx_turn::Seat;
use std::hash::Hash;
use std::marker::Model;

/// A seat of a directory: the right to its turns, one at a time. All seats of a directory have 2^32 parts
/// together.
#[derive(Drop)]
pub struct DirSeat<N, K: Eq + Hash, V: Suits<N, K>> {
    pub(crate) seat: Seat<Home<N>, Guarded<K, V>>,
}

impl<N, K: Eq + Hash, V: Suits<N, K>> Model for DirSeat<N, K, V> {
    ghost use Rattle.std.specs.Prelude.{◌≡◌, None};
    ghost use Rattle.fx_directory.specs.Seats.{DirSeatState};

    ghost Value = { DirSeatState N K };

    ghost use Rattle.fx_directory.specs.Seats.{FindsNone};
    ghost use Rattle.fx_directory.specs.Sitting.{dir_seat_of};

    ghost view = { λ s. dir_seat_of s.seat };

    ghost invariant = { λ s. (s.seat.turn ≡ None) × (s.seat.row.slots ≡ 1) × FindsNone (dir_seat_of s.seat) };
}

impl<N, K: Eq + Hash, V: Suits<N, K>> DirSeat<N, K, V> {
    /// Where the directory may keep nothing, nothing was found kept through the seat. It computes nothing.
    pub fn finds_none(&self)
        ensures { FindsNone self.now }
    {
        // Reading it tells the proof what the seat keeps.
        let _seat = &self.seat;
    }
}
