//! What every crate of the host stands on: want of memory, fixed-point numbers, names, patterns of
//! file names, rectangles of pixels, grids of tiles, and status codes.
#![tactic(auto)]

mod fix;
mod grid;
pub mod limits;
mod memory;
mod name;
mod pattern;
mod rect;
mod status;

pub use fix::Fix;
pub use grid::Grid;
pub use memory::Memory;
pub use name::{Name, Names};
pub use pattern::Pattern;
pub use rect::{Rect, offset};
pub use status::Status;
