//! Which frames a pipeline reads.
use fx_seq::Use;

/// The frames that are used, with their moments; how many moments there are; how many bytes may be held, and how long
/// a side may be; and how many moments are in a block.
#[derive(Clone, Copy)]
pub struct Schedule<'a> {
    pub uses: &'a [Use],
    pub moments: u64,
    pub limit: u64,
    pub most_side: u32,
    pub ahead: u32,
}
