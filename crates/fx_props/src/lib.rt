//! Property sets: named lists of values, by which a host and an effect speak to each other in an action
//! (OpenFX 1.4, "The Property Suite"), and what is put into them and read from them as a whole. Contracts
//! see a set as a map from names to properties: a kind, a list of values and its rules, which say how many
//! values there may be, which texts, and those at the start.
#![tactic(auto)]

mod def;
mod entry;
mod fault;
pub mod names;
mod property;
mod read;
mod set;
mod value;
mod write;

pub use def::PropDef;
pub use entry::{PropEntry, blank, clip_set_of_blanks, composed, set_of};
pub use fault::PropFault;
pub use read::{flag_at, frames_at, region_at, text_at, texts_at, window_at};
pub use set::PropSet;
pub use value::{PropKind, PropList, PropValue};
pub use write::{write_entries, write_frames, write_interest, write_region};
