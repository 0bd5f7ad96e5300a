//! Reads and writes PAM files (Netpbm, the manual page "pam").
#![tactic(auto)]

mod fault;
pub mod header;
pub mod laws;
pub mod numbers;
mod raster;
mod reader;
mod writer;

pub use fault::{PamFault, PamField};
pub use reader::read;
pub use writer::write;
