//! Takes of a graph.
ghost use Rattle.fx_params.specs.Parameter.{IsSound};

use fx_base::Pattern;
use fx_params::Param;

/// A parameter of a node, in place of what it was: the places of the node in the graph and of the parameter among its
/// parameters, and what it is from there on.
#[derive(Drop)]
pub struct Edit {
    pub node: u32,
    pub param: u32,
    pub value: Param,
    pub ghost sound: { IsSound value },
}

/// Edits that are done in order, and the pattern of the files that are rendered after them.
#[derive(Drop)]
pub struct Take {
    pub file: Pattern,
    pub edits: Vec<Edit>,
}

/// Takes in order. The edits of each are done on the graph of the one before.
#[derive(Drop)]
pub struct Takes {
    pub list: Vec<Take>,
}
