//! What the kernels of effects share, and that knows no effect: sums of samples and windows of them,
//! means by a reciprocal, blends, and products over the greatest sample. Contracts speak of the samples
//! of a row of bytes; the laws of pixels that are made sample by sample stand in `specs/`.
#![tactic(auto)]

mod blend;
mod bytes;
mod cells;
pub mod lanes;
mod mean;
mod products;
mod windows;

pub use blend::{blend_row, in_units};
pub use bytes::blank_bytes;
pub use cells::{add_row, clear, take_row, write_means};
pub use mean::Mean;
pub use products::{divided, mixed, product};
pub use windows::{Windows, write_window_means};
