//! What instances are made for.
use fx_effect::Context;

/// A node's use of an effect in a context, for which an instance is made.
#[derive(Clone, Copy, Debug)]
pub struct Use {
    pub node: u32,
    pub context: Context,
}

// Where the instance of a node is: the number of its plug-in, and the place among its instances.
#[derive(Clone, Copy, Debug)]
pub(crate) struct Post {
    pub plugin: u32,
    pub place: u32,
}
