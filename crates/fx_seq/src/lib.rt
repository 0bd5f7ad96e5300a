//! The source frames of a run: each is fetched and read once, and held under its node and frame from the first moment
//! that wants it to the last.
#![tactic(auto)]

mod due;
mod fault;
mod frame;
mod kept;
pub mod laws;
mod source;
mod store;
mod used;
mod wanted;

pub use due::read_due;
pub use fault::SeqFault;
pub use kept::Kept;
pub use source::SourceFrame;
pub use store::Store;
pub use used::Use;
pub use wanted::Wanted;
