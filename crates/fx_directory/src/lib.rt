//! The directory of tiles for many threads: a core in a row of one slot. Each change of the core is one
//! turn, and each turn is one event. Among all who ask for a key one makes its value at a time.
#![tactic(auto)]

mod directory;
mod guarded;
mod home;
mod seat;
mod suits;
mod turn;

pub use directory::Directory;
pub use seat::DirSeat;
pub use suits::Suits;
