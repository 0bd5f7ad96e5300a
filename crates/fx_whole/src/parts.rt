//! What the modules share: the place of the clip Source.

pub(crate) const SOURCE: u32 = 0;
