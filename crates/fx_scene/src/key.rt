//! What a tile is kept under.
use fx_base::Rect;
use fx_effect::Values;

/// A region of a node at a frame, with the values that its effect has there, and the era of the node's
/// parameters. Equal keys have the same pixels.
#[derive(Debug, Drop, PartialEq, Eq, Hash)]
pub struct Key {
    pub node: u32,
    pub frame: i64,
    pub region: Rect,
    pub values: Values,
    pub era: u32,
}
