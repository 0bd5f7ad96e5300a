//! What a property may hold.

use crate::{PropKind, PropList};
use fx_base::{Name, Names};

/// What a property is called, the kind of its values, how many there may be, which texts are allowed
/// (any value where none is listed), and the values at the start.
#[derive(Debug, Drop)]
pub struct PropDef {
    pub name: Name,
    pub kind: PropKind,
    pub most: u32,
    pub allowed: Names,
    pub start: PropList,
}
