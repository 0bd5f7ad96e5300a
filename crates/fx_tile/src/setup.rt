//! What renders are made from.
ghost use Rattle.std.specs.Prelude.{◌≡◌, ◌≤◌, ◌+◌, length};
ghost use Rattle.fx_life.specs.Posts.{HasLife};
ghost use Rattle.fx_tile.specs.Setups.{AreHeld, IsSetup};

use crate::share::Shared;
use fx_effect::Catalogue;
use fx_graph::Graph;
use fx_life::Life;
use fx_region::Regions;
use fx_scene::Scene;
use fx_scene::laws::scene_is;
use fx_scene::take_laws::scene_tiles;
use fx_seq::Store;

/// A scene with its graph and the frames of its sources that were fetched, the regions of its nodes, the instances
/// that render its effects, and what is shared.
#[derive(Drop)]
pub(crate) struct Setup<'a, E: Catalogue> {
    pub scene: &'a Scene<E>,
    pub graph: &'a Graph<E>,
    pub store: &'a Store,
    pub regions: &'a Regions,
    pub life: &'a Life<E>,
    pub shared: &'a Shared<E>,
}

impl<'a, E: Catalogue> Setup<'a, E> {
    pub(crate) fn of(
        scene: &'a Scene<E>,
        regions: &'a Regions,
        life: &'a Life<E>,
        shared: &'a Shared<E>,
    ) -> Setup<'a, E>
        requires life { HasLife E.number_of scene.now.graph life.now }
        requires regions { AreHeld E.meaning scene.now regions.now }
        requires name { shared.now.directory.name.scene.value ≡ scene.now }
        requires whole_name { shared.now.wholes.name.scene.value ≡ scene.now }
        requires gates { 64 + length scene.now.graph.nodes ≤ shared.now.gates.gates }
        ensures setup { IsSetup E.meaning E.number_of result }
        ensures scene { result.scene.now ≡ scene.now }
        ensures regions { result.regions.now ≡ regions.now }
        ensures shared { result.shared.now ≡ shared.now }
    {
        scene_is(scene);
        scene_tiles(scene);
        Setup {
            scene,
            graph: scene.graph(),
            store: scene.store(),
            regions,
            life,
            shared,
        }
    }
}
