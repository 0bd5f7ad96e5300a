//! The picture of a frame, by workers, who draw its bands batch by batch.
ghost use Rattle.std.specs.Prelude.{◌≡◌, ◌+◌, ◌≤◌, ◌≤ℤ◌, pos, neg_ℤ, IfErr, IfOk, length};
ghost use Rattle.fx_base.specs.declared.limits.TheConstants.{LAST_FRAME};
ghost use Rattle.fx_image.specs.Image.{SameImage};
ghost use Rattle.fx_image.specs.Stored.{image_of};
ghost use Rattle.fx_life.specs.Posts.{HasLife};
ghost use Rattle.fx_pool.specs.Weights.{plus, weigh};
ghost use Rattle.fx_region.specs.Counts.{window_ends};
ghost use Rattle.fx_scene.specs.Right.{HasWanted};
ghost use Rattle.fx_scene.specs.Sites.{scene_nodes};
ghost use Rattle.fx_scene.specs.Scenes.{images_in, picture};
ghost use Rattle.fx_tile.specs.Moments.{AreWorkers, ComeBack, CountsTiles, count_weight, seat_weight};

use crate::batch::{Drawn, batch_of, draw_bands};
use crate::count::TileCount;
use crate::ground::{Ground, ground_of};
use crate::setup::Setup;
use crate::share::{Shared, TileSeat};
use fx_base::Memory;
use fx_effect::Catalogue;
use fx_image::Image;
use fx_life::Life;
use fx_outside::Pace;
use fx_scene::Scene;
use std::alloc::Global;
use std::rt::Clock;
use std::sync::Wait;
use std::thread::Threads;

/// The picture of a frame, what became of its window tiles together, and the seats of those who rendered them.
#[derive(Drop)]
pub struct Rendered<E: Catalogue> {
    pub picture: Image,
    pub count: TileCount,
    pub seats: Vec<TileSeat<E>>,
}

/// Renders the picture of a frame, by one worker for each seat. Its bands, which are the rows of the grid cut to the
/// project's extent, are drawn in batches: as many at once as have at most 16 MB, and one at least. The workers first
/// find the window tiles of a batch, which are those of the grid cut so: each of these, as `window_tile` does, in one
/// draw. Then they write its bands: each band in one draw, with the rows of its tiles. There are 1 to 64 seats, each
/// with one part of each directory and of the gates, no flight and no gate; they come back so, as many, at `Memory` too,
/// once all workers have ended. The scene holds what the frame wants, the life is that of its graph, the name of both
/// directories is that of the scene, and there are gates for 64 plug-ins and each node. Each worker calls
/// `pace.before_draw` with its number before each draw. `Memory` comes where memory is wanting, or where a count would
/// pass the greatest number that it can be.
pub fn render_moment<R: Threads + Wait + Clock + Sync, E: Catalogue + Send + Sync + Drop, P: Pace>(
    rt: &R,
    alloc: Global,
    pace: &P,
    scene: &Scene<E>,
    life: &Life<E>,
    shared: &Shared<E>,
    seats: Vec<TileSeat<E>>,
    frame: i64,
) -> Result<Rendered<E>, (Vec<TileSeat<E>>, Memory)>
    requires life { HasLife E.number_of scene.now.graph life.now }
    requires holds { HasWanted E.meaning scene.now.graph (images_in scene.now.store) scene.now.graph.output frame }
    requires name { shared.now.directory.name.scene.value ≡ scene.now }
    requires whole_name { shared.now.wholes.name.scene.value ≡ scene.now }
    requires gates { 64 + length scene.now.graph.nodes ≤ shared.now.gates.gates }
    requires workers { AreWorkers shared.now seats }
    requires low { neg_ℤ (pos LAST_FRAME) ≤ℤ frame }
    requires high { frame ≤ℤ pos LAST_FRAME }
    ensures picture { let picture = picture E.meaning scene.now.graph (images_in scene.now.store) frame in
        IfOk result (λ r. SameImage (image_of r.picture) picture) }
    ensures count { let g = scene.now.graph in let nodes = scene_nodes E.meaning scene.now in
        let ends = window_ends nodes g.output shared.now.grid g.project frame in
        IfOk result (λ r. CountsTiles nodes shared.now.grid ends r.count) }
    ensures rises { IfOk result (λ r.
        weigh seat_weight r.seats.items ≡ plus (weigh seat_weight seats.items) (count_weight r.count)) }
    // Where nothing may be kept in either directory, nothing is found kept.
    ensures none_kept { shared.now.directory.capacity ≡ 0 → shared.now.wholes.capacity ≡ 0
        → IfOk result (λ r. r.count.hits ≡ 0) }
    ensures seats { IfOk result (λ r. ComeBack shared.now seats r.seats) }
    ensures back { IfErr result (λ r. ComeBack shared.now seats r.0) }
{
    let ground = match ground_of(alloc, scene, shared.grid, frame) {
        Ok(ground) => ground,
        Err(memory) => return Err((seats, memory)),
    };
    let Ground {
        regions,
        tiles,
        columns,
        layout,
        bands,
    } = ground;
    let setup = Setup::of(scene, &regions, life, shared);
    let batch = batch_of(&layout);
    let Drawn {
        bands,
        count,
        seats,
    } = draw_bands(
        rt, alloc, pace, &setup, frame, &tiles, columns, batch, bands, seats,
    )?;
    match Image::of_bands(alloc, &layout, bands) {
        Ok(picture) => Ok(Rendered {
            picture,
            count,
            seats,
        }),
        Err(memory) => Err((seats, memory)),
    }
}
