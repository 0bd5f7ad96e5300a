//! A frame that was read.
ghost use Rattle.std.specs.Prelude.{◌≤◌, ◌^◌};
ghost use Rattle.fx_seq.specs.Frames.{IsSourceFrame, frame_once};

use fx_image::Image;

/// A frame of a source node with its image: RGBA over a rectangle from (0, 0) with sides from 1 up to 8,192, its rows
/// no wider than their pixels, and its pixels of its depth. The size is what it is counted as, in bytes, which is 4
/// samples a pixel of the file that it was read from, and at most 2^29.
#[derive(Debug, Drop)]
pub struct SourceFrame {
    pub node: u32,
    pub frame: i64,
    pub size: u64,
    pub image: Image,
    pub ghost sound: { IsSourceFrame image } by { frame_once image },
    pub ghost few: { size ≤ 2 ^ 29 },
}
