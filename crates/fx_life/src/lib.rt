//! The order of a plug-in's life (OpenFX 1.4, "The Actions"): a plug-in is loaded, described, and described
//! in its contexts; instances are made in these, each of which begins and ends sequences of renders; and it
//! is unloaded once no instance is left. Each state has its type, whose calls are the actions that OpenFX
//! allows there, and no value can be dropped: an instance has to be destroyed and a plug-in unloaded. A
//! `Life` is that of all plug-ins of a graph.
#![tactic(auto)]

mod described;
mod holding;
mod instance;
mod laws;
mod life;
mod loaded;
mod posts;
mod running;
mod uses;

pub use described::Described;
pub use instance::{InSequence, Instance};
pub use laws::every_life;
pub use life::Life;
pub use loaded::Loaded;
pub use running::Running;
pub use uses::Use;
