//! Point effects: a pixel is made of the pixel at its own place (OpenFX 1.4, "Filter Context").
#![tactic(auto)]

mod filter;
mod gain;
mod invert;
mod lanes;
mod posterise;
mod premult;
mod saturation;
mod shuffle;
mod unpremult;

pub use gain::Gain;
pub use invert::Invert;
pub use posterise::Posterise;
pub use premult::Premult;
pub use saturation::Saturation;
pub use shuffle::Shuffle;
pub use unpremult::Unpremult;
