//! A graph with its source frames: the value of a node at a place, the picture of a frame, which nodes are
//! reached at which frames, and which source frames a run wants. What stands in a node list has no type of
//! effect in it, so all that is known of values and areas is known for every catalogue.
#![tactic(auto)]

mod editing;
mod eras;
mod key;
pub mod laws;
mod moments;
mod reaching;
mod reads;
mod rows;
mod scene;
pub mod site;
mod take;
pub mod take_laws;
mod values;
mod wanting;

pub use key::Key;
pub use moments::{uses, uses_of_takes};
pub use reaching::{NodeFrame, reach, reads_of};
pub use reads::frames_read;
pub use scene::Scene;
pub use take::{Edit, Take, Takes};
pub use values::use_values;
pub use wanting::{shown_frame, wants};
