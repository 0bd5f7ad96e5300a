//! Limits that the whole house keeps to. They are this project's own.

/// The most columns or rows of a project or of a source frame.
pub const MOST_SIDE: u32 = 8192;

/// The most nodes of a graph.
pub const MOST_NODES: u32 = 1024;

/// The most frames of a range.
pub const MOST_FRAMES: u32 = 100_000;

/// The last frame that a range may have. The first is 0.
pub const LAST_FRAME: u32 = 999_999;

/// The most columns or rows of a tile.
pub const MOST_TILE_SIDE: u32 = 1024;

/// The most bytes of a pattern of file names.
pub const MOST_PATTERN_BYTES: usize = 1024;
