//! Groups of a graph: they are expanded into plain nodes, or the first fault is told with its path.
#![tactic(auto)]

mod check;
mod count;
mod flatten;
mod graph;
mod law;
mod names;
mod plain;

pub use graph::expand;
pub use law::{expanded_are_instances, expanded_shows_instances};
pub use plain::check_names;
