//! Those who render: what they share, and the seat from which each worker's is split.
ghost use Rattle.std.specs.Prelude.{◌≡◌, ◌≤◌, [], pos, IfErr, IfOk};
ghost use Rattle.fx_base.specs.declared.limits.TheConstants.{LAST_FRAME};
ghost use Rattle.fx_image.specs.Image.{SameImage};
ghost use Rattle.fx_image.specs.Stored.{image_of};
ghost use Rattle.fx_life.specs.Posts.{HasLife};
ghost use Rattle.fx_region.specs.Counts.{window_ends};
ghost use Rattle.fx_scene.specs.Right.{HasWanted};
ghost use Rattle.fx_scene.specs.Scenes.{images_in, picture};
ghost use Rattle.fx_scene.specs.Sites.{scene_nodes};
ghost use Rattle.fx_shipped.specs.Shipped.{meaning_of, number_of};
ghost use Rattle.fx_tile.specs.Moments.{CountsTiles, seat_weight};
ghost use Rattle.fx_tile.specs.Seats.{AreAll};
ghost use Rattle.fx_modes.specs.Crews.{IsCrew, IsLeftAlone, IsNewCrew, IsRenewed, KeepsCrew, KnewScene};

use fx_base::{Grid, Memory};
use fx_core::{Permit, Totals};
use fx_image::Image;
use fx_life::Life;
use fx_outside::Pace;
use fx_scene::Scene;
use fx_shipped::Shipped;
use fx_tile::{Rendered, Shared, TileCount, TileSeat, render_moment};
use fx_whole::capacity_for;
use fx_words::Order;
use std::alloc::Global;
use std::rt::Clock;
use std::sync::Wait;
use std::thread::Threads;

/// What those who render a scene share, the seat with all parts of it, and how many workers there are.
#[derive(Drop)]
pub(crate) struct Crew {
    pub shared: Shared<Shipped>,
    pub seat: TileSeat<Shipped>,
    pub workers: u32,
}

impl Crew {
    /// As many workers as are ordered, over tiles of the side and with a directory of as many as are ordered, for the
    /// scene whose permit this is. As many whole images are kept as have that many tiles of the project. There are gates
    /// for 64 plug-ins and for each node.
    pub(crate) fn of(
        alloc: Global,
        scene: &Scene<Shipped>,
        permit: Permit,
        order: &Order,
    ) -> Result<Crew, Memory>
        ensures crew { IfOk result (IsCrew scene.now) }
        ensures new { IfOk result (IsNewCrew order.now scene.now) }
    {
        let grid = Grid { side: order.tile };
        let wholes = capacity_for(order.cache, scene.graph().project, grid);
        let (shared, seat) = Shared::new(alloc, scene, permit, order.cache, wholes, grid)?;
        Ok(Crew {
            shared,
            seat,
            workers: order.workers,
        })
    }

    /// The picture of a frame of the crew's scene, by all its workers, and what became of its window tiles. Each worker
    /// has a seat for this frame alone.
    pub(crate) fn picture<R: Threads + Wait + Clock + Sync, P: Pace>(
        &mut self,
        rt: &R,
        alloc: Global,
        pace: &P,
        scene: &Scene<Shipped>,
        life: &Life<Shipped>,
        frame: u32,
    ) -> Result<(Image, TileCount), Memory>
        requires life { HasLife number_of scene.now.graph life.now }
        requires crew { IsCrew scene.now self.old }
        requires frame { frame ≤ LAST_FRAME }
        requires holds { let g = scene.now.graph in
            HasWanted meaning_of g (images_in scene.now.store) g.output (pos frame) }
        ensures crew { IsCrew scene.now self.new }
        ensures picture { let picture = picture meaning_of scene.now.graph (images_in scene.now.store) (pos frame) in
            IfOk result (λ r. SameImage (image_of r.0) picture) }
        ensures count { let g = scene.now.graph in let nodes = scene_nodes meaning_of scene.now in
            let side = self.old.shared.grid in
            IfOk result (λ r. CountsTiles nodes side (window_ends nodes g.output side g.project (pos frame)) r.1) }
        ensures none_kept { let shared = self.old.shared in
            shared.directory.capacity ≡ 0 → shared.wholes.capacity ≡ 0 → IfOk result (λ r. r.1.hits ≡ 0) }
        ensures keeps { IfOk result (λ r. KeepsCrew self.old self.new r.1) }
    {
        let seats = self.shared.split(alloc, &mut self.seat, self.workers)?;
        let frame = i64::from(frame);
        match render_moment(rt, alloc, pace, scene, life, &self.shared, seats, frame) {
            Ok(rendered) => {
                let Rendered {
                    picture,
                    count,
                    seats,
                } = rendered;
                self.shared.join(&mut self.seat, seats);
                Ok((picture, count))
            }
            Err((seats, memory)) => {
                self.shared.join(&mut self.seat, seats);
                Err(memory)
            }
        }
    }

    /// The same who render, for the scene as it is now: the one that they rendered, with more source frames. What is
    /// kept stays. At `Memory` they are as before, but that their whole images may have the scene's name already.
    pub(crate) fn renewed(
        self,
        alloc: Global,
        scene: &Scene<Shipped>,
    ) -> Result<Crew, (Crew, Memory)>
        requires knew { KnewScene scene.now self }
        ensures renewed { IfOk result (IsRenewed scene.now self) }
        ensures back { IfErr result (λ e. IsLeftAlone scene.now self e.0) }
    {
        let Crew {
            shared,
            seat,
            workers,
        } = self;
        match shared.renew(alloc, seat, scene) {
            Ok((shared, seat)) => Ok(Crew {
                shared,
                seat,
                workers,
            }),
            Err((shared, seat, memory)) => Err((
                Crew {
                    shared,
                    seat,
                    workers,
                },
                memory,
            )),
        }
    }

    /// Closes what is shared, with the counts of both directories together. At `Memory` it is let go.
    pub(crate) fn close(self, alloc: Global) -> Result<Totals, Memory>
        requires { AreAll self.shared self.seat [] }
        ensures { IfOk result (λ totals. (totals.landed, totals.hits) ≡ seat_weight self.seat) }
    {
        let Crew {
            shared,
            seat,
            workers: _,
        } = self;
        shared.close(alloc, seat)
    }
}
