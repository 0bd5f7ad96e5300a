//! The actions as the host asks them: it puts the arguments in property sets, calls the action, and reads
//! what the effect answered or takes the default (OpenFX 1.4, "Image Effect Actions").
#![tactic(auto)]

mod asking;
mod frames;
mod interest;
mod is_identity;
mod region;

pub use asking::Asking;
pub use frames::frames_needed;
pub use interest::regions_of_interest;
pub use is_identity::identity;
pub use region::region_of_definition;
