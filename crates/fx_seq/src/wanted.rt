//! The frames that a run reads.
use fx_base::Name;

/// A frame of a source node, and the name of its file.
#[derive(Debug, Drop)]
pub struct Wanted {
    /// The number of the source's node.
    pub node: u32,
    /// The frame that is read.
    pub frame: i64,
    /// The name under which a library has it.
    pub name: Name,
}
