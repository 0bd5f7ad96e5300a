//! Effects that move pixels: each is made of what its source has at a place that is moved, mirrored or
//! inside a rectangle (OpenFX 1.4, "Filter Context").
#![tactic(auto)]

mod crop;
mod mirror;
mod translate;

pub use crop::Crop;
pub use mirror::Mirror;
pub use translate::Translate;
