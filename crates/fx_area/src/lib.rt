//! Effects of an area: each pixel is made of the pixels round its own place (OpenFX 1.4, "Filter
//! Context").
#![tactic(auto)]

mod boxblur;
mod convolve3;
mod dilate;
mod erode;
mod extreme;
mod lines;
mod shorts;

pub use boxblur::Boxblur;
pub use convolve3::Convolve3;
pub use dilate::Dilate;
pub use erode::Erode;
