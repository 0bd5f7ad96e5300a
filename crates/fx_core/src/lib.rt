//! The pure core of a directory of tiles: what was made is kept until it was the least recently used,
//! each key is made by one caller at a time, and the counts are exact. No thread is in sight.
#![tactic(auto)]

mod flight;
mod flying;
mod kept;
mod laws;
mod single_flight;
mod totals;

pub use flight::{Answer, Flight, Permit, Ticket};
pub use laws::every_run;
pub use single_flight::Core;
pub use totals::Totals;
