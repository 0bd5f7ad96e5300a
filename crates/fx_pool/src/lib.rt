//! Numbers that threads draw, each of them once, and workers that draw them. No worker waits for
//! another: a draw is one step on one word.
#![tactic(auto)]

mod draw;
mod items;
mod job;
mod numbers;
mod rule;
mod worker;

pub use draw::{Draw, DrawSeat};
pub use items::{WorkedItems, work_items};
pub use job::{ItemJob, Job};
pub use numbers::{Worked, work};
