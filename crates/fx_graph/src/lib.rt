//! The acceptance of graphs: from a raw graph, whose texts may mean anything, to a graph over a catalogue of
//! effects, or to the one first refusal with its path. An effect is asked what it is by its actions
//! (OpenFX 1.4, "kOfxActionDescribe", "kOfxImageEffectActionDescribeInContext"). What a graph keeps by its
//! type is all that those who evaluate it need of it.
#![tactic(auto)]

mod accepting;
mod clips;
mod described;
mod effect;
mod graph;
mod named;
mod node;
mod params;
pub mod places;
pub mod refuse;

pub use accepting::accept;
pub use graph::{Graph, lawful_values, rendered_forms};
pub use named::{effect_named, param_named};
pub use node::{Node, Work};
pub use params::{param_given, value_fault};
