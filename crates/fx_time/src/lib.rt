//! Time effects: filters that read other frames of the clip Source, each pixel at its own place (OpenFX
//! 1.4, "kOfxImageEffectActionGetFramesNeeded").
#![tactic(auto)]

mod echo;
mod frameblend;
mod framediff;
mod parts;
mod three;
mod timeoffset;
mod weight;

pub use echo::Echo;
pub use frameblend::Frameblend;
pub use framediff::Framediff;
pub use timeoffset::Timeoffset;
