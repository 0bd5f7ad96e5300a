//! The text of a graph file: from any bytes to a raw graph, or to the one first fault with its path.
//! JSON is `serde_json`'s; what a graph's objects may have is said once in `specs/`, object by object, and
//! each reader answers exactly that. Whether names, effects and parameters exist is not asked here.
#![tactic(auto)]

mod fault;
mod group;
mod json;
mod law;
mod migrate;
mod object;
mod params;
mod path;
mod raw;
mod takes;
mod value;

pub use fault::{GraphCode, GraphFault};
pub use law::{names_rise, printed_graph_reads_back, stays_in_format_two};
pub use migrate::migrated;
pub use object::read_graph;
pub use path::GraphPath;
pub use raw::{
    MOST_EDITS, MOST_GROUP_NODES, MOST_GROUPS, MOST_INPUTS, MOST_TAKES, RawClips, RawContext,
    RawEdit, RawGraph, RawGroup, RawGroups, RawNode, RawNodes, RawOutput, RawParams, RawProject,
    RawTake, RawTakes, RawWork,
};
pub use value::{RawClip, RawKey, RawKeys, RawParam, RawScalar, RawValue};
