//! What the time effects share: their clip.

// The place of the clip Source.
pub const SOURCE: u32 = 0;
