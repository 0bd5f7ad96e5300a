//! Gates: what serialises the renders of a plug-in that isn't fully safe for threads (OpenFX 1.4,
//! "Thread Safety": one render at a time for an unsafe plug-in, and for each instance of an
//! instance-safe one). Each gate guards a workspace, which is out with one hold at a time.
#![tactic(auto)]

mod gates;
mod hold;
mod workspace;

pub use gates::{GateSeat, Gates};
pub use hold::Hold;
pub use workspace::Workspace;
