//! Scenes at a half, a quarter or an eighth of their size: the project's extent and the frames of sources are reduced,
//! and the lengths of effects and of takes are divided, so that the picture is a small one of the same. So the host does
//! what OpenFX 1.4 leaves to effects that are told a render scale (kOfxImageEffectPropRenderScale).
#![tactic(auto)]

mod blocks;
mod frames;
pub mod laws;
mod lengths;
mod reducing;
mod scaling;
mod taking;

pub use frames::scale_frames;
pub use lengths::scaled_param;
pub use reducing::reduce;
pub use scaling::scaled;
pub use taking::scaled_takes;
