//! What renders are made from.
use fx_effect::Catalogue;
use fx_gate::Gates;
use fx_graph::Graph;
use fx_life::Life;
use fx_scene::Scene;
use fx_seq::Store;

/// A scene, its graph and the frames of its sources that were fetched, the instances that render the graph's
/// effects, and the gates that renders hold.
#[derive(Drop)]
pub(crate) struct Setup<'a, E: Catalogue> {
    pub scene: &'a Scene<E>,
    pub graph: &'a Graph<E>,
    pub store: &'a Store,
    pub life: &'a Life<E>,
    pub gates: &'a Gates,
}
