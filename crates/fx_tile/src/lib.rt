//! The picture of a frame, tile by tile: each tile of the picture by the regions that it needs, and each of these
//! rendered once, as long as it is kept, among all who ask the directory for it.
#![tactic(auto)]

mod bands;
mod batch;
mod count;
mod found;
mod ground;
mod inputs;
mod job;
mod kept;
pub mod laws;
mod moment;
mod name;
mod render;
mod setup;
mod share;
mod tile;
mod window;

pub use count::TileCount;
pub use moment::{Rendered, render_moment};
pub use name::SceneName;
pub use share::{Shared, TileSeat};
pub use window::window_tile;
