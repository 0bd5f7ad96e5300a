//! Transitions: effects that go from the clip SourceFrom to the clip SourceTo (OpenFX 1.4, "Transition
//! Context").
#![tactic(auto)]

mod dissolve;
mod parts;
mod wipe;

pub use dissolve::Dissolve;
pub use wipe::Wipe;
