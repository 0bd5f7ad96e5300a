//! Takes of a graph: edits of parameters that are listed in its file, accepted over the graph or refused with the
//! path of the first fault; and the frames that a run with takes renders, and the source frames that it uses.
#![tactic(auto)]

mod accepting;
mod range;
mod using;

pub use accepting::accept_takes;
pub use fx_scene::{Edit, Take, Takes};
pub use range::{first_frame, last_frame};
pub use using::uses;
