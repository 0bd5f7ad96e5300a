//! Regions of a graph's nodes: where each may be anything but zero, where a region is found once identities are
//! passed on, and what a region of an effect needs of its clips. Evaluating these alone gives every pixel its value.
#![tactic(auto)]

mod demanding;
mod ends;
mod following;
pub mod held_laws;
pub mod laws;
mod regions;
mod tiles;

pub use demanding::{demand, demand_by};
pub use ends::{End, Need};
pub use following::{follow, follow_by};
pub use regions::Regions;
