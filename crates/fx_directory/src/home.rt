//! What a directory's row is named by.

// The name that the kept values suit, the scene's number, and how many values may be kept.
#[derive(Drop)]
pub(crate) struct Home<N> {
    pub(crate) name: N,
    pub(crate) scene: u64,
    pub(crate) capacity: u32,
}
