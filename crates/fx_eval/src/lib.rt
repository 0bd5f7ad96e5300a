//! The picture of a frame of a graph, by whole frames on one thread. Each node that the output reads is made
//! once at each frame at which it is read, as images that together have its region of definition; what a node
//! reads is made before it, and let go once the last that reads it is made. Each image is rendered under a flight of a
//! core that keeps nothing, and under a hold of its node's gate.
#![tactic(auto)]

mod areas;
mod copy;
mod cuts;
mod inputs;
mod picture;
mod readers;
mod setup;
mod whole;
mod window;

pub use picture::frame;
