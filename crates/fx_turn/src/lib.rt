//! The turn lock: a row of slots, each with a value that one caller at a time may hold. Every lock
//! of the host is such a row. A value that is taken fits the row's name and agrees with what the
//! seats of the row have of its tally and its claims, and only who holds it changes it.
#![tactic(auto)]

mod fill;
mod fits;
mod held;
mod kept;
mod memory;
mod pause;
mod rule;
mod seat;
mod turns;

pub use fits::Fits;
pub use held::Held;
pub use memory::Memory;
pub use pause::Pause;
pub use seat::Seat;
pub use turns::Turns;
