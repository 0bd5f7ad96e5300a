//! Input for measurements: of a number it makes the text of a large valid graph, and the frames of its source, the same
//! ones at each call.
#![tactic(auto)]

mod frames;
mod generator;
mod graph;
mod making;

pub use making::{Bench, make};
