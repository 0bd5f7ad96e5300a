//! The name of a scene, which tells what may be kept of it.
ghost use Rattle.std.specs.Prelude.{◌≡◌};

use fx_directory::Suits;
use fx_effect::Catalogue;
use fx_image::Image;
use fx_scene::{Key, Scene};
use std::snapshot::Snapshot;

/// A scene as contracts see it. It takes no memory, and no running code reads it.
#[derive(Drop)]
pub struct SceneName<E: Catalogue> {
    pub scene: Snapshot<Scene<E>>,
}

impl<E: Catalogue> SceneName<E> {
    /// The name of a scene.
    pub fn of(scene: &Scene<E>) -> SceneName<E>
        ensures { result.scene.value ≡ scene.now }
    {
        SceneName {
            scene: Snapshot::of(scene),
        }
    }
}

impl<E: Catalogue> Suits<SceneName<E>, Key> for Image {
    ghost use Rattle.fx_scene.specs.Scripts.{IsRightFor};
    ghost use Rattle.fx_tile.specs.KeyLaws.{MayGrow, right_under, right_still};

    ghost suits = { λ name key image. IsRightFor E.meaning name.scene.value key image };

    ghost grown = { λ old new. MayGrow E.meaning old.scene.value new.scene.value };

    ghost same_key = { λ name j k image same right. right_under E.meaning name.scene.value j k image same right };

    ghost still_suits = { λ old new k image same right.
        right_still E.meaning old.scene.value new.scene.value k image same right };
}
