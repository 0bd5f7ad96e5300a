//! Frames by workers over effects that note and count their calls.
mod counting;
