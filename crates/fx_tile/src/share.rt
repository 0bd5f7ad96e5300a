//! What those who render tiles share, and what each has for himself.
ghost use Rattle.std.specs.Prelude.{◌≡◌, ◌≤◌, ◌<◌, ◌+◌, ◌-◌, [], All, IfErr, IfOk, OnErr, OnOk, length, vec_len};
ghost use Rattle.fx_directory.specs.Seats.{both_made, nothing_made, totals_of};
ghost use Rattle.fx_pool.specs.Weights.{plus, weigh};
ghost use Rattle.fx_scene.specs.Scripts.{HasGrownTo};
ghost use Rattle.fx_tile.specs.Moments.{IsFree, IsIdle, seat_weight};
ghost use Rattle.fx_tile.specs.KeyLaws.{MayGrow};
ghost use Rattle.fx_tile.specs.Kept.{made_of};
ghost use Rattle.fx_tile.specs.Seats.{AreAll, IsFirstSeat, IsLeft, both_totals};

use crate::count::both_totals;
use crate::name::SceneName;
use fx_actions::Asking;
use fx_base::{Grid, Memory};
use fx_core::{Permit, Totals};
use fx_directory::{DirSeat, Directory};
use fx_effect::Catalogue;
use fx_gate::{GateSeat, Gates};
use fx_image::Image;
use fx_scene::laws::scene_is;
use fx_scene::take_laws::scene_tiles;
use fx_scene::{Key, Scene};
use std::alloc::Global;

/// What all who render tiles of a scene share: the directory of tiles that were rendered, and that of whole images, of
/// effects that support no tiles (OpenFX 1.4, kOfxImageEffectPropSupportsTiles); the gates of plug-ins and
/// instances, and the grid of its tiles.
#[derive(Drop)]
pub struct Shared<E: Catalogue> {
    pub directory: Directory<SceneName<E>, Key, Image>,
    pub wholes: Directory<SceneName<E>, Key, Image>,
    pub gates: Gates,
    pub grid: Grid,
}

/// What one who renders tiles has for himself: a seat of each directory, one of the gates, and the arguments by which
/// he asks effects, of which each ask writes only what differs from the one before.
#[derive(Drop)]
pub struct TileSeat<E: Catalogue> {
    pub directory: DirSeat<SceneName<E>, Key, Image>,
    pub wholes: DirSeat<SceneName<E>, Key, Image>,
    pub gates: GateSeat,
    pub asking: Asking,
}

impl<E: Catalogue + Drop> Shared<E> {
    /// What all who render tiles of a scene over a grid share, and the first seat, which has all parts: a directory
    /// under the scene's permit that keeps at most so many tiles, one under a permit of the same number that keeps at
    /// most so many whole images, and gates for 64 plug-ins and for each node.
    pub fn new(
        alloc: Global,
        scene: &Scene<E>,
        permit: Permit,
        capacity: u32,
        whole_capacity: u32,
        grid: Grid,
    ) -> Result<(Shared<E>, TileSeat<E>), Memory>
        ensures name { IfOk result (λ r. r.0.directory.name.scene.value ≡ scene.now) }
        ensures whole_name { IfOk result (λ r. r.0.wholes.name.scene.value ≡ scene.now) }
        ensures capacity { IfOk result (λ r. r.0.directory.capacity ≡ capacity) }
        ensures whole_capacity { IfOk result (λ r. r.0.wholes.capacity ≡ whole_capacity) }
        ensures gates { IfOk result (λ r. r.0.gates.gates ≡ 64 + length scene.now.graph.nodes) }
        ensures grid { IfOk result (λ r. r.0.grid ≡ grid) }
        ensures first { IfOk result (λ r. AreAll r.0 r.1 []) }
        ensures made { IfOk result (λ r. made_of r.1 ≡ nothing_made) }
    {
        let asking = Asking::new(alloc)?;
        let count = 64 + scene.graph().nodes.len() as u32;
        let (gates, gate_seat) = Gates::new(alloc, count)?;
        let ((directory, tiles), (wholes, images)) = both_directories(
            alloc,
            scene,
            permit,
            capacity,
            whole_capacity,
        )?;
        let shared = Shared {
            directory,
            wholes,
            gates,
            grid,
        };
        let seat = TileSeat {
            directory: tiles,
            wholes: images,
            gates: gate_seat,
            asking,
        };
        Ok((shared, seat))
    }

    /// A seat for each of so many workers, split off from the first one, to which no other was split off. At `Memory`
    /// the first one has all parts still.
    pub fn split(
        &self,
        alloc: Global,
        first: &mut TileSeat<E>,
        workers: u32,
    ) -> Result<Vec<TileSeat<E>>, Memory>
        requires first { AreAll self.now first.old [] }
        requires few { workers ≤ 64 }
        ensures count { IfOk result (λ seats. vec_len seats ≡ workers) }
        ensures seats { IfOk result (λ seats. AreAll self.now first.new seats.items) }
        ensures nothing { IfOk result (λ seats. weigh seat_weight seats.items ≡ (0, 0)) }
        ensures made { seat_weight first.new ≡ seat_weight first.old }
        ensures err { OnErr result (AreAll self.now first.new []) }
    {
        let mut seats = Vec::with_capacity(alloc, workers as usize)?;
        for _ in 0..workers {
            match self.split_one(alloc, first) {
                Ok(seat) => seats.push_reserved(seat),
                Err(memory) => {
                    self.join(first, seats);
                    return Err(memory);
                }
            }
        }
        Ok(seats)
    }

    /// Joins the workers' seats into the first one, which has all parts then, and all counts.
    pub fn join(&self, first: &mut TileSeat<E>, mut seats: Vec<TileSeat<E>>)
        requires { AreAll self.now first.old seats.items }
        ensures first { AreAll self.now first.new [] }
        ensures made { seat_weight first.new ≡ plus (seat_weight first.old) (weigh seat_weight seats.items) }
    {
        while let Some(seat) = seats.pop() {
            self.join_one(first, seat);
        }
    }

    /// The same under the name of a scene that the ones of both names have grown to: what is kept stays, and so do the
    /// gates, the grid and the counts. At `Memory` all is as before, but that whole images may have the new name already:
    /// the call can be made again.
    pub fn renew(
        self,
        alloc: Global,
        first: TileSeat<E>,
        scene: &Scene<E>,
    ) -> Result<(Shared<E>, TileSeat<E>), (Shared<E>, TileSeat<E>, Memory)>
        requires first { AreAll self first [] }
        requires grown { HasGrownTo self.directory.name.scene.value scene.now }
        requires whole_grown { HasGrownTo self.wholes.name.scene.value scene.now }
        ensures name { IfOk result (λ r. r.0.directory.name.scene.value ≡ scene.now) }
        ensures whole_name { IfOk result (λ r. r.0.wholes.name.scene.value ≡ scene.now) }
        ensures capacity { IfOk result (λ r. r.0.directory.capacity ≡ self.directory.capacity) }
        ensures whole_capacity { IfOk result (λ r. r.0.wholes.capacity ≡ self.wholes.capacity) }
        ensures gates { IfOk result (λ r. r.0.gates ≡ self.gates) }
        ensures grid { IfOk result (λ r. r.0.grid ≡ self.grid) }
        ensures first { IfOk result (λ r. AreAll r.0 r.1 []) }
        ensures made { IfOk result (λ r. made_of r.1 ≡ made_of first) }
        ensures back { IfErr result (λ r. IsLeft scene.now self r.0 first r.1) }
    {
        scene_is(scene);
        scene_tiles(scene);
        let (shared, first) = self.renew_wholes(alloc, first, scene)?;
        shared.renew_tiles(alloc, first, scene)
    }

    // The directory of whole images under the name of a scene. At `Memory` all is as before.
    fn renew_wholes(
        self,
        alloc: Global,
        first: TileSeat<E>,
        scene: &Scene<E>,
    ) -> Result<(Shared<E>, TileSeat<E>), (Shared<E>, TileSeat<E>, Memory)>
        requires first { AreAll self first [] }
        requires grown { MayGrow E.meaning self.wholes.name.scene.value scene.now }
        ensures name { IfOk result (λ r. r.0.wholes.name.scene.value ≡ scene.now) }
        ensures capacity { IfOk result (λ r. r.0.wholes.capacity ≡ self.wholes.capacity) }
        ensures rest { IfOk result (λ r. r.0 ≡ record self { wholes = r.0.wholes }) }
        ensures seat { IfOk result (λ r. r.1 ≡ record first { wholes = record first.wholes { row = r.0.wholes } }) }
        ensures back { IfErr result (λ r. (r.0 ≡ self) × (r.1 ≡ first)) }
    {
        let name = SceneName::of(scene);
        match self.wholes.renew(alloc, first.wholes, name) {
            Ok((wholes, seat)) => Ok((
                Shared { wholes, ..self },
                TileSeat {
                    wholes: seat,
                    ..first
                },
            )),
            Err((wholes, seat, _, memory)) => Err((
                Shared { wholes, ..self },
                TileSeat {
                    wholes: seat,
                    ..first
                },
                memory,
            )),
        }
    }

    // The directory of tiles under the name of a scene. At `Memory` all is as before.
    fn renew_tiles(
        self,
        alloc: Global,
        first: TileSeat<E>,
        scene: &Scene<E>,
    ) -> Result<(Shared<E>, TileSeat<E>), (Shared<E>, TileSeat<E>, Memory)>
        requires first { AreAll self first [] }
        requires grown { MayGrow E.meaning self.directory.name.scene.value scene.now }
        ensures name { IfOk result (λ r. r.0.directory.name.scene.value ≡ scene.now) }
        ensures capacity { IfOk result (λ r. r.0.directory.capacity ≡ self.directory.capacity) }
        ensures rest { IfOk result (λ r. r.0 ≡ record self { directory = r.0.directory }) }
        ensures seat { IfOk result (λ r.
            r.1 ≡ record first { directory = record first.directory { row = r.0.directory } }) }
        ensures back { IfErr result (λ r. (r.0 ≡ self) × (r.1 ≡ first)) }
    {
        let name = SceneName::of(scene);
        match self.directory.renew(alloc, first.directory, name) {
            Ok((directory, seat)) => Ok((
                Shared { directory, ..self },
                TileSeat {
                    directory: seat,
                    ..first
                },
            )),
            Err((directory, seat, _, memory)) => Err((
                Shared { directory, ..self },
                TileSeat {
                    directory: seat,
                    ..first
                },
                memory,
            )),
        }
    }

    /// Ends both directories and the gates, with the counts of both together: of all that was asked, landed and dropped
    /// through the first seat and those that were joined into it. At `Memory` they are let go; it comes too where a sum
    /// would pass the greatest number that it can be.
    pub fn close(self, alloc: Global, first: TileSeat<E>) -> Result<Totals, Memory>
        requires { AreAll self first [] }
        ensures { let tiles = totals_of self.directory.capacity first.directory.made in
            let wholes = totals_of self.wholes.capacity first.wholes.made in
            IfOk result (λ totals. totals ≡ both_totals tiles wholes) }
    {
        let Ok((_, tiles)) = self.directory.close(alloc, first.directory) else {
            return Err(Memory);
        };
        let Ok((_, wholes)) = self.wholes.close(alloc, first.wholes) else {
            return Err(Memory);
        };
        both_totals(tiles, wholes).ok_or(Memory)
    }

    // A seat with one part of the first one.
    fn split_one(&self, alloc: Global, first: &mut TileSeat<E>) -> Result<TileSeat<E>, Memory>
        requires idle { IsIdle self.now first.old.directory.parts first.old }
        requires two { 1 < first.old.directory.parts }
        ensures seat { IfOk result (IsFree self.now) }
        ensures nothing { IfOk result (λ seat. made_of seat ≡ nothing_made) }
        ensures left { OnOk result (IsIdle self.now (first.old.directory.parts - 1) first.new) }
        ensures made { made_of first.new ≡ made_of first.old }
        ensures err { OnErr result (IsIdle self.now first.old.directory.parts first.new) }
    {
        let asking = Asking::new(alloc)?;
        let directory = self.directory.split(alloc, &mut first.directory)?;
        let Ok(wholes) = self.wholes.split(alloc, &mut first.wholes) else {
            self.directory.join(&mut first.directory, directory);
            return Err(Memory);
        };
        let Ok(gates) = self.gates.split(alloc, &mut first.gates) else {
            self.directory.join(&mut first.directory, directory);
            self.wholes.join(&mut first.wholes, wholes);
            return Err(Memory);
        };
        directory.finds_none();
        wholes.finds_none();
        Ok(TileSeat {
            directory,
            wholes,
            gates,
            asking,
        })
    }

    // Joins a worker's seat into the first one.
    fn join_one(&self, first: &mut TileSeat<E>, seat: TileSeat<E>)
        requires idle { IsIdle self.now first.old.directory.parts first.old }
        requires free { IsFree self.now seat }
        ensures idle { IsIdle self.now (first.old.directory.parts + 1) first.new }
        ensures made { made_of first.new ≡ both_made (made_of first.old) (made_of seat) }
    {
        let TileSeat {
            directory,
            wholes,
            gates,
            asking: _,
        } = seat;
        self.directory.join(&mut first.directory, directory);
        self.wholes.join(&mut first.wholes, wholes);
        self.gates.join(&mut first.gates, gates);
        first.directory.finds_none();
        first.wholes.finds_none();
    }
}

// A directory under a scene's name, and a seat of it.
type Seated<E> = (
    Directory<SceneName<E>, Key, Image>,
    DirSeat<SceneName<E>, Key, Image>,
);

// Two empty directories under a scene's name, whose permits have the same number, and the first seat of each: one keeps
// at most so many tiles, the other at most so many whole images.
fn both_directories<E: Catalogue + Drop>(
    alloc: Global,
    scene: &Scene<E>,
    permit: Permit,
    capacity: u32,
    whole_capacity: u32,
) -> Result<(Seated<E>, Seated<E>), Memory>
    ensures name { IfOk result (λ r. r.0.0.name.scene.value ≡ scene.now) }
    ensures capacity { IfOk result (λ r. r.0.0.capacity ≡ capacity) }
    ensures seat { IfOk result (λ r. IsFirstSeat r.0.0 r.0.1) }
    ensures whole_name { IfOk result (λ r. r.1.0.name.scene.value ≡ scene.now) }
    ensures whole_capacity { IfOk result (λ r. r.1.0.capacity ≡ whole_capacity) }
    ensures whole_seat { IfOk result (λ r. IsFirstSeat r.1.0 r.1.1) }
{
    let same = Permit::new(permit.scene);
    let tiles = directory_of(alloc, scene, permit, capacity)?;
    let wholes = directory_of(alloc, scene, same, whole_capacity)?;
    Ok((tiles, wholes))
}

// An empty directory under a scene's name that keeps at most so many images, and its first seat.
fn directory_of<E: Catalogue + Drop>(
    alloc: Global,
    scene: &Scene<E>,
    permit: Permit,
    capacity: u32,
) -> Result<Seated<E>, Memory>
    ensures name { IfOk result (λ r. r.0.name.scene.value ≡ scene.now) }
    ensures capacity { IfOk result (λ r. r.0.capacity ≡ capacity) }
    ensures seat { IfOk result (λ r. IsFirstSeat r.0 r.1) }
{
    match Directory::new(alloc, SceneName::of(scene), permit, capacity) {
        Ok(made) => Ok(made),
        Err(_) => Err(Memory),
    }
}
