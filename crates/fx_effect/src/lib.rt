//! What an image effect is: what it describes itself as, what each of its pixels reads and makes of what
//! it read, what it answers to the actions, and what it renders (OpenFX 1.4, "Image Effect Actions"). A
//! contract knows an effect by its meaning, which speaks of single pixels of the unbounded plane, and
//! the laws tie the answers for windows to these pixels.
#![tactic(auto)]

mod action;
mod args;
mod asked;
mod bands;
mod describe;
mod effect;
mod inputs;
mod pairs;
mod piece;
mod places;
mod points;
mod rows;
mod runs;
mod steps;
mod values;

pub use action::{Context, Identity, Reply, Safety};
pub use args::{interest_args, region_answer, sequence_args, time_args, window_args};
pub use asked::{asked_region, asked_window, region_of};
pub use describe::{Description, clip_set, descriptor};
pub use effect::{Catalogue, ImageEffect};
pub use inputs::Inputs;
pub use pairs::{PairKernel, Reading, fill_pairs};
pub use piece::Piece;
pub use places::{PlaceKernel, fill_places};
pub use points::{PointKernel, fill_points};
pub use rows::{RowKernel, fill_with};
pub use steps::{Step, Steps};
pub use values::{Flags, Numbers, Values};
