//! Renders by workers over effects that note their actions and count their calls.
ghost use Rattle.std.specs.Prelude.{◌≡◌, ◌≤◌, ◌∷◌, [], IfOk, map, pos};
ghost use Rattle.fx_life.specs.Posts.{HasLife};
ghost use Rattle.fx_scene.specs.Right.{HasWanted};
ghost use Rattle.fx_scene.specs.Scenes.{graph_shown, images_in};
ghost use Rattle.fx_tile.specs.Seats.{AreAll};
ghost use Rattle.fx_rows.specs.TileCounting.{counted, counted_number};

mod alone;
mod course;
mod effect;
mod fetching;
mod notes;
mod scene;

use crate::same::{same, same_at};
use crate::tile::counting::course::is_lawful;
use crate::tile::counting::effect::Counted;
use crate::tile::counting::notes::Notes;
use fx_base::{Grid, Memory, Name, Rect};
use fx_core::{Permit, Totals};
use fx_effect::Safety;
use fx_graph::{Graph, accept};
use fx_image::Image;
use fx_life::Life;
use fx_outside::{FreePace, SureLibrary};
use fx_pixel::Pixel;
use fx_scene::{Scene, wants};
use fx_seq::Store;
use fx_text::{GraphFault, read_graph};
use fx_tile::{Rendered, Shared, TileCount, TileSeat, render_moment};
use std::alloc::{AllocError, Global};
use std::process::Abort;
use std::rt::Clock;
use std::sync::Wait;
use std::thread::Threads;

// A source under two nodes of each effect, in two contexts of one.
const GRAPH: &str = r#"{
    "ofxr": 1,
    "project": {"width": 8, "height": 8, "depth": "byte", "components": "RGBA"},
    "output": {"node": "f", "file": "o#.pam", "format": "RGB_ALPHA"},
    "range": {"first": 3, "last": 3},
    "nodes": [
        {"name": "s", "source": "s.pam", "first": 3, "last": 3},
        {"name": "a", "effect": "unsafe", "clips": {"Source": "s"}},
        {"name": "b", "effect": "unsafe", "clips": {"Source": "a"}, "context": "general"},
        {"name": "c", "effect": "instance", "clips": {"Source": "b"}, "params": {"instance": 0}},
        {"name": "d", "effect": "instance", "clips": {"Source": "c"}, "params": {"instance": 1}},
        {"name": "e", "effect": "fully", "clips": {"Source": "d"}},
        {"name": "f", "effect": "fully", "clips": {"Source": "e"}}
    ]
}"#;

// The frame and its time, the sides of its picture and of each of its sixteen tiles.
const FRAME: u32 = 3;

const TIME: i64 = 3;

const SIDE: u8 = 8;

const TILE: u32 = 2;

// For how many turns the first call of the fully safe effect looks for another call, and each call of the others, in
// which none may begin.
const AT_FIRST: u32 = 30_000;

const A_WHILE: u32 = 10;

// What becomes of the sixteen tiles, each of which is rendered once for each of the six nodes.
const TOTAL: TileCount = TileCount {
    void_tiles: 0,
    passed: 0,
    asked: 16,
    landed: 96,
    hits: 0,
};

fn graph_of<'a>(alloc: Global, text: &str) -> Result<Graph<Counted<'a>>, GraphFault> {
    let raw = read_graph(alloc, text.as_bytes(), 16, 8192)?;
    accept(alloc, raw)
}

// The samples at a column and a row, by which each place has its own.
fn samples(x: u8, y: u8) -> [u8; 4]
    requires { (x ≤ 7) × (y ≤ 7) }
{
    [x, y, 8 * y + x, 255 - x]
}

// The source's file, whose first row is the top one.
fn file(alloc: Global) -> Result<(Name, Vec<u8>), AllocError> {
    let header = format!(in alloc; "P7\nWIDTH 8\nHEIGHT 8\nDEPTH 4\nMAXVAL 255\nENDHDR\n")?;
    let mut bytes = header.as_bytes().to_vec(alloc)?;
    for k in 0..SIDE * SIDE {
        bytes.extend_from_slice(&samples(k % 8, 7 - k / 8))?;
    }
    Ok((Name::of(String::from_str(alloc, "s.pam")?), bytes))
}

// The frames that the graph wants.
fn store(alloc: Global, graph: &Graph<Counted<'_>>) -> Result<Store, Memory>
    ensures { let g = graph_shown graph.now in
        IfOk result (λ store. HasWanted (λ e. counted e.safety) g (images_in store) g.output (pos 3)) }
{
    let wanted = wants(alloc, graph, FRAME, FRAME)?;
    let files = vec![in alloc; file(alloc)?]?;
    let mut library = SureLibrary::new(alloc, files);
    match Store::fill(alloc, &mut library, &wanted, 100_000, 8192) {
        Ok(store) => Ok(store),
        Err(_) => Err(Memory),
    }
}

// The scene of the number 7 of a graph and the frames that it wants.
fn scene_of<'a>(
    alloc: Global,
    graph: Graph<Counted<'a>>,
) -> Result<(Scene<Counted<'a>>, Permit), Memory>
    ensures { IfOk result (λ r. let s = r.0 in
        HasWanted (λ e. counted e.safety) s.graph (images_in s.store) s.graph.output (pos 3)) }
{
    let store = store(alloc, &graph)?;
    Ok(Scene::new(graph, store, 7))
}

// The life of the effects over the graph of a scene.
fn life_of<'a>(
    alloc: Global,
    scene: &Scene<Counted<'a>>,
    effects: Vec<Counted<'a>>,
) -> Result<Life<Counted<'a>>, Memory>
    requires { map (λ e. counted_number e.safety) effects.items ≡ 0 ∷ 1 ∷ 2 ∷ [] }
    ensures { IfOk result (HasLife (λ e. counted_number e.safety) scene.now.graph) }
{
    let life = Life::start(alloc, scene.graph(), effects, FRAME, FRAME)?;
    Ok(life)
}

// What each effect notes.
#[derive(Drop)]
struct Plugins {
    single: Notes,
    instance: Notes,
    fully: Notes,
}

impl Plugins {
    // Nothing is noted yet. The first call of the fully safe effect is to look for another one for so many turns, and
    // each call of the others for so many.
    fn new(rt: &(impl Abort + AllocGlobal), at_first: u32, a_while: u32) -> Plugins {
        Plugins {
            single: Notes::new(rt, a_while, a_while),
            instance: Notes::new(rt, a_while, a_while),
            fully: Notes::new(rt, at_first, 0),
        }
    }

    // The effects, which note here.
    fn effects(&self, alloc: Global) -> Result<Vec<Counted<'_>>, Memory>
        ensures { IfOk result (λ effects. map (λ e. counted_number e.safety) effects.items ≡ 0 ∷ 1 ∷ 2 ∷ []) }
    {
        let effects = vec![in alloc;
            Counted {
                safety: Safety::Unsafe,
                notes: Some(&self.single)
            },
            Counted {
                safety: Safety::InstanceSafe,
                notes: Some(&self.instance)
            },
            Counted {
                safety: Safety::FullySafe,
                notes: Some(&self.fully)
            },
        ]?;
        Ok(effects)
    }

    // Whether the actions on each are a life.
    fn are_lawful(&self, rt: &(impl Abort + AllocGlobal)) -> bool {
        for notes in [&self.single, &self.instance, &self.fully] {
            if !is_lawful(&notes.numbers(rt)) {
                return false;
            }
        }
        true
    }

    // How many calls began.
    fn calls(&self) -> u64 {
        let gated = self.single.calls().wrapping_add(self.instance.calls());
        gated.wrapping_add(self.fully.calls())
    }
}

// The picture of the frame and what became of its tiles, and the counts of the directory.
#[derive(Drop)]
struct Outcome {
    made: Result<(Image, TileCount), Memory>,
    totals: Totals,
}

// What comes of the frame by so many workers, over effects that are handed in.
fn rendered<'a, R: Threads + Wait + Clock + Abort + AllocGlobal + Sync>(
    rt: &R,
    graph: Graph<Counted<'a>>,
    effects: Vec<Counted<'a>>,
    workers: u32,
) -> Outcome
    requires effects { map (λ e. counted_number e.safety) effects.items ≡ 0 ∷ 1 ∷ 2 ∷ [] }
    requires workers { (1 ≤ workers) × (workers ≤ 64) }
{
    let (scene, permit) = scene_of(rt.alloc(), graph).expect(rt, "no scene");
    let life = life_of(rt.alloc(), &scene, effects).expect(rt, "no life");
    let outcome = rendered_in(rt, &scene, permit, &life, workers);
    life.finish();
    outcome
}

// The same in the life of the effects over the graph of a scene.
fn rendered_in<'a, R: Threads + Wait + Clock + Abort + AllocGlobal + Sync>(
    rt: &R,
    scene: &Scene<Counted<'a>>,
    permit: Permit,
    life: &Life<Counted<'a>>,
    workers: u32,
) -> Outcome
    requires life { HasLife (λ e. counted_number e.safety) scene.now.graph life.now }
    requires holds { let g = scene.now.graph in
        HasWanted (λ e. counted e.safety) g (images_in scene.now.store) g.output (pos 3) }
    requires workers { (1 ≤ workers) × (workers ≤ 64) }
{
    let alloc = rt.alloc();
    let grid = Grid { side: TILE };
    let directory = Shared::new(alloc, scene, permit, 9, 0, grid);
    let (shared, mut first) = directory.expect(rt, "no directory");
    let split = shared.split(alloc, &mut first, workers);
    let seats = split.expect(rt, "no seats");
    match render_moment(rt, alloc, &FreePace, scene, life, &shared, seats, TIME) {
        Ok(rendered) => {
            let Rendered {
                picture,
                count,
                seats,
            } = rendered;
            let totals = closed(rt, shared, first, seats);
            let made = Ok((picture, count));
            Outcome { made, totals }
        }
        Err((seats, memory)) => {
            let totals = closed(rt, shared, first, seats);
            let made = Err(memory);
            Outcome { made, totals }
        }
    }
}

// The counts of the directory, once all its seats are joined.
fn closed<'a>(
    rt: &(impl Abort + AllocGlobal),
    shared: Shared<Counted<'a>>,
    mut first: TileSeat<Counted<'a>>,
    seats: Vec<TileSeat<Counted<'a>>>,
) -> Totals
    requires { AreAll shared first seats.items }
{
    shared.join(&mut first, seats);
    shared.close(rt.alloc(), first).expect(rt, "no totals")
}

// Each pixel of the picture is that of the source at its place.
fn shows_the_source<R: Abort>(rt: &R, picture: &Image) {
    same(rt, picture.rect(), Rect::of(0, 0, 8, 8));
    for k in 0..SIDE * SIDE {
        let (x, y) = (k % 8, k / 8);
        let [r, g, b, a] = samples(x, y).map(u16::from);
        let pixel = picture.at(i64::from(x), i64::from(y));
        same_at(rt, &(&x, &y), pixel, Pixel::Rgba { r, g, b, a });
    }
}

// What comes of the frame of a graph by four workers, over effects that note here.
fn by_four<R: Threads + Wait + Clock + Abort + AllocGlobal + Sync>(
    rt: &R,
    text: &str,
    plugins: &Plugins,
) -> Outcome {
    let graph = graph_of(rt.alloc(), text).ok().expect(rt, "refused");
    let effects = plugins.effects(rt.alloc()).expect(rt, "no effects");
    rendered(rt, graph, effects, 4)
}

// Each render that landed is a call, in the order of life and under the gate of its node.
fn are_called<R: Threads + Wait + Clock + Abort + AllocGlobal + Sync>(rt: &R, plugins: &Plugins) {
    let Outcome { made, totals } = by_four(rt, GRAPH, plugins);
    let (picture, count) = made.expect(rt, "no picture");
    shows_the_source(rt, &picture);
    same(rt, count, TOTAL);
    same(rt, plugins.calls(), count.landed);
    same(rt, totals.landed, count.landed);
    for notes in [&plugins.single, &plugins.instance, &plugins.fully] {
        same(rt, notes.calls(), 32);
    }
    assert!(rt; plugins.are_lawful(rt));
    same(rt, plugins.single.most_at_once(), 1);
    same(rt, plugins.instance.most_at_once(), 1);
    assert!(rt; plugins.fully.was_joined());
}

#[test]
fn effects_are_called_as_they_may_be(rt: HostRuntime) {
    let plugins = Plugins::new(&rt, AT_FIRST, A_WHILE);
    are_called(&rt, &plugins);
}

// The first call of the first node lacks memory, for which a flight of each node stands.
fn lacks_memory<R: Threads + Wait + Clock + Abort + AllocGlobal + Sync>(rt: &R, plugins: &Plugins) {
    plugins.single.lack_memory();
    let Outcome { made, totals } = by_four(rt, GRAPH, plugins);
    assert!(rt; made.is_err());
    same(rt, totals.dropped, 6);
    same(
        rt,
        totals.flights,
        totals.landed.wrapping_add(totals.dropped),
    );
    same(rt, plugins.calls(), totals.landed);
    assert!(rt; plugins.are_lawful(rt));
}

#[test]
fn want_of_memory_drops_its_flights(rt: HostRuntime) {
    let plugins = Plugins::new(&rt, 0, 0);
    lacks_memory(&rt, &plugins);
}
