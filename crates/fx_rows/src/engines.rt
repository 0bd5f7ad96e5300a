//! The picture of a frame by whole frames, and by tiles, over the effects of the program.
ghost use Rattle.std.specs.Prelude.{◌≡◌, ◌≤◌, ◌+◌, None, IfOk, length, pos};
ghost use Rattle.fx_eval.specs.Flights.{IsIdle};
ghost use Rattle.fx_life.specs.Posts.{HasLife};
ghost use Rattle.fx_scene.specs.Right.{HasWanted};
ghost use Rattle.fx_scene.specs.Scenes.{graph_shown, images_in};
ghost use Rattle.fx_shipped.specs.Shipped.{meaning_of, number_of};
ghost use Rattle.fx_tile.specs.Moments.{AreWorkers};
ghost use Rattle.fx_turn.specs.Seats.{all_parts};

use fx_base::{Grid, Memory};
use fx_core::{Core, Permit};
use fx_eval::frame;
use fx_gate::{GateSeat, Gates};
use fx_graph::{Graph, accept};
use fx_image::Image;
use fx_life::Life;
use fx_outside::{FreePace, SureLibrary};
use fx_scene::{Key, Scene, wants};
use fx_seq::{SeqFault, Store};
use fx_shipped::{Shipped, all_effects};
use fx_text::read_graph;
use fx_tile::{Rendered, Shared, TileCount, TileSeat, render_moment};
use std::alloc::Global;
use std::process::Abort;
use std::rt::Clock;
use std::sync::Wait;
use std::thread::Threads;

/// The side of a tile, from 1 to 1,024 pixels, how many tiles may be kept, and as many whole images, and how many workers
/// there are.
#[derive(Clone, Copy, Debug)]
pub(crate) struct Engine {
    pub(crate) side: u32,
    pub(crate) cache: u32,
    pub(crate) workers: u32,
}

/// The graph of a text.
pub(crate) fn accepted(rt: &(impl Abort + AllocGlobal), text: &str) -> Graph<Shipped> {
    let raw = read_graph(rt.alloc(), text.as_bytes(), 1024, 8192).expect(rt, "refused");
    accept(rt.alloc(), raw).expect(rt, "refused")
}

/// The graph of a text with the frames that it wants at a frame.
pub(crate) fn scene_of(
    rt: &(impl Abort + AllocGlobal),
    library: &mut SureLibrary,
    text: &str,
    at: u32,
) -> (Scene<Shipped>, Permit)
    requires { at ≤ 999999 }
    ensures { let scene = result.0 in
        HasWanted meaning_of scene.graph (images_in scene.store) scene.graph.output (pos at) }
{
    let graph = accepted(rt, text);
    let store = store_of(rt.alloc(), library, &graph, at).expect(rt, "no frames");
    Scene::new(graph, store, 7)
}

// The frames that a graph wants at a frame.
fn store_of(
    alloc: Global,
    library: &mut SureLibrary,
    graph: &Graph<Shipped>,
    at: u32,
) -> Result<Store, SeqFault>
    requires { at ≤ 999999 }
    ensures { let g = graph_shown graph.now in
        IfOk result (λ store. HasWanted meaning_of g (images_in store) g.output (pos at)) }
{
    let wanted = wants(alloc, graph, at, at)?;
    let store = Store::fill(alloc, library, &wanted, 100_000_000, 8192)?;
    Ok(store)
}

// The life of a scene's graph over the frames that the tests render.
fn life_of(alloc: Global, scene: &Scene<Shipped>) -> Result<Life<Shipped>, Memory>
    ensures { IfOk result (HasLife number_of scene.now.graph) }
{
    let life = Life::start(alloc, scene.graph(), all_effects(alloc)?, 0, 3)?;
    Ok(life)
}

// A gate for each plug-in and each node.
fn gates_for(alloc: Global, graph: &Graph<Shipped>) -> Result<(Gates, GateSeat), Memory>
    ensures gates { IfOk result (λ r. r.0.gates ≡ 64 + length graph.now.nodes.items) }
    ensures seat { IfOk result (λ r. r.1 ≡ record { row = r.0; parts = all_parts; turn = None }) }
{
    Gates::new(alloc, 64 + graph.nodes.len() as u32)
}

// A core that keeps nothing.
fn empty_core(alloc: Global, permit: Permit) -> Result<Core<Key, Image>, Memory>
    ensures { IfOk result IsIdle }
{
    match Core::new(alloc, permit, 0) {
        Ok(core) => Ok(core),
        Err((_, memory)) => Err(memory),
    }
}

// The picture of a frame of a scene by whole frames.
fn frame_of<R: Wait + Clock + Abort + AllocGlobal>(
    rt: &R,
    scene: &Scene<Shipped>,
    permit: Permit,
    life: &Life<Shipped>,
    at: u32,
) -> Image
    requires at { at ≤ 999999 }
    requires life { HasLife number_of scene.now.graph life.now }
{
    let alloc = rt.alloc();
    let mut core = empty_core(alloc, permit).expect(rt, "no core");
    let (gates, mut seat) = gates_for(alloc, scene.graph()).expect(rt, "no gates");
    let at = i64::from(at);
    let picture = frame(rt, alloc, scene, life, &mut core, &gates, &mut seat, at);
    picture.expect(rt, "no picture")
}

/// The picture of a frame by whole frames.
pub(crate) fn by_frames<R: Wait + Clock + Abort + AllocGlobal>(
    rt: &R,
    library: &mut SureLibrary,
    text: &str,
    at: u32,
) -> Image
    requires { at ≤ 999999 }
{
    let (scene, permit) = scene_of(rt, library, text, at);
    let life = life_of(rt.alloc(), &scene).expect(rt, "no life");
    let picture = frame_of(rt, &scene, permit, &life, at);
    life.finish();
    picture
}

pub(crate) fn grid_of(rt: &impl Abort, side: u32) -> Grid {
    assert!(rt; 1 <= side);
    assert!(rt; side <= 1024);
    Grid { side }
}

// What the workers over a scene share, and the seat of each.
fn workers_for(
    rt: &(impl Abort + AllocGlobal),
    scene: &Scene<Shipped>,
    permit: Permit,
    engine: Engine,
) -> (Shared<Shipped>, Vec<TileSeat<Shipped>>)
    requires { (1 ≤ engine.workers) × (engine.workers ≤ 64) }
    ensures name { result.0.directory.name.scene.value ≡ scene.now }
    ensures whole_name { result.0.wholes.name.scene.value ≡ scene.now }
    ensures gates { result.0.gates.gates ≡ 64 + length scene.now.graph.nodes }
    ensures seats { AreWorkers result.0 result.1 }
{
    let alloc = rt.alloc();
    let grid = grid_of(rt, engine.side);
    let shared = Shared::new(alloc, scene, permit, engine.cache, engine.cache, grid);
    let (shared, mut first) = shared.expect(rt, "no tiles");
    let seats = shared.split(alloc, &mut first, engine.workers);
    (shared, seats.expect(rt, "no seats"))
}

// The picture of a frame of a scene by tiles, and what became of them.
fn tiles_of<R: Threads + Wait + Clock + Sync + Abort + AllocGlobal>(
    rt: &R,
    scene: &Scene<Shipped>,
    permit: Permit,
    life: &Life<Shipped>,
    at: u32,
    engine: Engine,
) -> (Image, TileCount)
    requires at { at ≤ 999999 }
    requires workers { (1 ≤ engine.workers) × (engine.workers ≤ 64) }
    requires life { HasLife number_of scene.now.graph life.now }
    requires holds { let g = scene.now.graph in HasWanted meaning_of g (images_in scene.now.store) g.output (pos at) }
{
    let alloc = rt.alloc();
    let (shared, seats) = workers_for(rt, scene, permit, engine);
    let at = i64::from(at);
    let made = render_moment(rt, alloc, &FreePace, scene, life, &shared, seats, at);
    let Rendered {
        picture,
        count,
        seats: _,
    } = made.ok().expect(rt, "no picture");
    (picture, count)
}

/// The picture of a frame by tiles, and what became of them.
pub(crate) fn by_tiles<R: Threads + Wait + Clock + Sync + Abort + AllocGlobal>(
    rt: &R,
    library: &mut SureLibrary,
    text: &str,
    at: u32,
    engine: Engine,
) -> (Image, TileCount)
    requires at { at ≤ 999999 }
    requires workers { (1 ≤ engine.workers) × (engine.workers ≤ 64) }
{
    let (scene, permit) = scene_of(rt, library, text, at);
    let life = life_of(rt.alloc(), &scene).expect(rt, "no life");
    let made = tiles_of(rt, &scene, permit, &life, at, engine);
    life.finish();
    made
}

/// Whether two pictures are the same, pixel for pixel.
pub(crate) fn are_same(one: &Image, other: &Image) -> bool {
    let rect = one.rect();
    if rect != other.rect()
        || one.depth() != other.depth()
        || one.components() != other.components()
    {
        return false;
    }
    for y in rect.y1..rect.y2 {
        if !have_same_row(one, other, y) {
            return false;
        }
    }
    true
}

fn have_same_row(one: &Image, other: &Image, y: i64) -> bool {
    let rect = one.rect();
    for x in rect.x1..rect.x2 {
        if one.at(x, y) != other.at(x, y) {
            return false;
        }
    }
    true
}
