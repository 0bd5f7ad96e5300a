//! Effects that render no tiles (OpenFX 1.4, kOfxImageEffectPropSupportsTiles): each of their pixels may read the whole
//! of the source, and so they render whole images. And how many of these are kept.
#![tactic(auto)]

mod autogain;
mod brightest;
mod capacity;
mod level;
mod parts;

pub use autogain::Autogain;
pub use capacity::capacity_for;
