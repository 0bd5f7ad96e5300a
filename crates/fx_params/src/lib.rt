//! Keyed parameters: what an effect's parameter may be, its value, and the keys by which the value
//! changes over the frames (OpenFX 1.4, "The Parameter Suite"). Contracts see a parameter as its
//! definition, its value without keys, a step flag and a list of keys with rising frames, and `value_at`
//! is its value at a frame.
#![tactic(auto)]

mod def;
mod key;
mod param;

pub use def::{ParamDef, ParamFault, ParamKind, ParamValue};
pub use param::Param;
