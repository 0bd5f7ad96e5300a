//! How an image is laid out.
use fx_base::Rect;
use fx_pixel::{Components, Depth};

/// How an image in bands is laid out: its rows lie `row_bytes` apart, and a band has `band_rows` of them,
/// the last band perhaps fewer.
#[derive(Clone, Copy, Debug, PartialEq, Eq)]
pub struct Layout {
    pub rect: Rect,
    pub depth: Depth,
    pub components: Components,
    pub row_bytes: u32,
    pub band_rows: u32,
}
