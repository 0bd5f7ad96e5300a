//! The catalogue of the program: its effects by name and number.
#![tactic(auto)]

mod all;
mod catalogue;
mod shipped;

pub use all::all_effects;
pub use shipped::Shipped;
