//! When a run uses the frames that it reads.
use crate::Wanted;

/// A frame that a run wants, with the first and the last of its moments that want it.
#[derive(Debug, Drop)]
pub struct Use {
    pub wanted: Wanted,
    pub from: u64,
    pub until: u64,
}
