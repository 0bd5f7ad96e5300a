//! What expansion keeps.
ghost use Rattle.std.specs.Prelude.{◌≡◌, Ok};
ghost use Rattle.fx_text.specs.Nodes.{Graph};
ghost use Rattle.fx_group.specs.Graph.{expand_of};
ghost use Rattle.fx_group.specs.Shown.{CanBeNamed, ShowsInstances};
ghost use Rattle.fx_group.specs.Theorem.{ExpandedAreInstances};

use fx_effect::Catalogue;

/// Where no fault is found, the expanded nodes are the instances of the graph: in order, each under its joined
/// name, and each made of the same.
pub fn expanded_are_instances()
    ensures { ExpandedAreInstances }
{}

/// A graph that is expanded and accepted shows at each node and each place what the instance shows, and its pictures are
/// those of the instance that is rendered, whatever images the sources' frames are. It computes nothing.
pub fn expanded_shows_instances<E: Catalogue>()
    ensures shown { (raw flat : Graph) → expand_of raw ≡ Ok flat → ShowsInstances E.find E.meaning raw flat }
    ensures named { (flat : Graph) → CanBeNamed E.find E.meaning flat }
{}
