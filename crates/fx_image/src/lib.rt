//! Images: a rectangle of pixels, kept as rows of bytes from the bottom up. Contracts see an image as a
//! pixel at each place of its rectangle, and zero outside; a part of it may be written row by row
//! (OpenFX 1.4, "Images and Clips"; a row's samples stand in the order r, g, b, a).
#![tactic(auto)]

mod bands;
mod image;
pub mod laws;
mod layout;
mod part;
mod rows;
pub mod samples;
mod view;

pub use image::Image;
pub use layout::Layout;
pub use part::Part;
pub use view::View;
