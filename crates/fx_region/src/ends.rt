//! Where a region of a node is found, and what a region of an effect needs.
use fx_base::Rect;
use fx_effect::Steps;

/// Where a region of a node is found: nowhere, in a frame of a source, or in a render of an effect. What is found
/// there goes through the depths and components of the nodes that were passed on, in order.
#[derive(Drop)]
pub enum End {
    /// The node is zero at each place of the region.
    Void,
    /// A region of the frame of a source.
    Frame {
        node: u32,
        frame: i64,
        region: Rect,
        through: Steps,
    },
    /// A region of an effect's node that is to be rendered, and the cut of it that is asked for. What is found
    /// there is the cut alone: where nodes were passed on they may be zero in the rest of the region.
    Render {
        node: u32,
        frame: i64,
        region: Rect,
        cut: Rect,
        through: Steps,
    },
}

/// A part of what a region of an effect needs: of a clip, by its place, at a frame, where it is found.
#[derive(Drop)]
pub struct Need {
    pub clip: u32,
    pub frame: i64,
    pub end: End,
}
