//! Merges: effects that make one picture of the clips A and B, in the general context (OpenFX 1.4,
//! "General Context").
#![tactic(auto)]

mod keymix;
mod merge;
mod operation;

pub use keymix::Keymix;
pub use merge::Merge;
