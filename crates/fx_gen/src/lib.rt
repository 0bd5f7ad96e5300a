//! Generators: effects that read no clip (OpenFX 1.4, "Generator Context").
#![tactic(auto)]

mod checker;
mod generator;
mod grain;
mod ramp;
mod solid;

pub use checker::Checker;
pub use grain::Grain;
pub use ramp::Ramp;
pub use solid::Solid;
