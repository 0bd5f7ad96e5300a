//! One tile of a frame by itself: what is written of an image, and what is counted.
ghost use Rattle.std.specs.Prelude.{◌≡◌, ◌+◌, ◌∷◌, [], length, map, pos};
ghost use Rattle.fx_base.specs.Rect.{IsWithin};
ghost use Rattle.fx_pixel.specs.declared.Depth.TheVariants.{Byte};
ghost use Rattle.fx_pixel.specs.declared.Format.TheVariants.{RgbAlpha};
ghost use Rattle.fx_life.specs.Posts.{HasLife};
ghost use Rattle.fx_scene.specs.Right.{HasWanted};
ghost use Rattle.fx_scene.specs.Scenes.{images_in};
ghost use Rattle.fx_tile.specs.Seats.{AreAll};
ghost use Rattle.fx_rows.specs.TileCounting.{counted, counted_number, lone_tile};

use crate::same::{same, same_at};
use crate::tile::counting::effect::Counted;
use crate::tile::counting::{Plugins, TILE, TIME, graph_of, life_of, scene_of};
use fx_base::{Grid, Rect};
use fx_core::Totals;
use fx_graph::Graph;
use fx_image::Image;
use fx_life::Life;
use fx_pixel::{Components, Depth, Format, Pixel};
use fx_region::Regions;
use fx_scene::Scene;
use fx_tile::{Shared, TileCount, TileSeat, window_tile};
use std::process::Abort;
use std::rt::Clock;
use std::sync::Wait;

// A source under a node of the fully safe effect, which is the output.
const GRAPH: &str = r#"{
    "ofxr": 1,
    "project": {"width": 8, "height": 8, "depth": "byte", "components": "RGBA"},
    "output": {"node": "a", "file": "o#.pam", "format": "RGB_ALPHA"},
    "range": {"first": 3, "last": 3},
    "nodes": [
        {"name": "s", "source": "s.pam", "first": 3, "last": 3},
        {"name": "a", "effect": "fully", "clips": {"Source": "s"}}
    ]
}"#;

// The samples of the source at the places of the tile from (2, 4) to (4, 6), and nowhere else.
const WRITTEN: &[(i64, i64, [u16; 4])] = &[
    (2, 4, [2, 4, 34, 253]),
    (3, 4, [3, 4, 35, 252]),
    (2, 5, [2, 5, 42, 253]),
    (3, 5, [3, 5, 43, 252]),
];

// The tile is rendered once.
const ONCE: TileCount = TileCount {
    void_tiles: 0,
    passed: 0,
    asked: 1,
    landed: 1,
    hits: 0,
};

// The tile, where a scene has a picture like the one above.
fn tile_of<R: Abort>(rt: &R, scene: &Scene<Counted<'_>>) -> Rect
    ensures tile { result ≡ lone_tile }
    ensures project { IsWithin lone_tile scene.now.graph.project }
    ensures depth { scene.now.graph.depth ≡ Byte }
    ensures format { scene.now.graph.format ≡ RgbAlpha }
{
    let tile = Rect::of(2, 4, 4, 6);
    let graph = scene.graph();
    if !tile.within(graph.project)
        || graph.depth != Depth::Byte
        || graph.format != Format::RgbAlpha
    {
        panic!(rt; "not the picture");
    }
    tile
}

// An image as large as the picture in which the tile was written, and what became of the tile.
fn shown<'a, R: Wait + Clock + Abort + AllocGlobal>(
    rt: &R,
    scene: &Scene<Counted<'a>>,
    life: &Life<Counted<'a>>,
    shared: &Shared<Counted<'a>>,
    seat: &mut TileSeat<Counted<'a>>,
) -> (Image, TileCount)
    requires life { HasLife (λ e. counted_number e.safety) scene.now.graph life.now }
    requires holds { let g = scene.now.graph in
        HasWanted (λ e. counted e.safety) g (images_in scene.now.store) g.output (pos 3) }
    requires name { shared.now.directory.name.scene.value ≡ scene.now }
    requires whole_name { shared.now.wholes.name.scene.value ≡ scene.now }
    requires gates { shared.now.gates.gates ≡ 64 + length scene.now.graph.nodes }
    requires first { AreAll shared.now seat.old [] }
    ensures { AreAll shared.now seat.new [] }
{
    let alloc = rt.alloc();
    let tile = tile_of(rt, scene);
    let regions = Regions::of(alloc, scene, TIME).expect(rt, "no regions");
    let whole = Rect::of(0, 0, 8, 8);
    let blank = Image::new(alloc, whole, Depth::Byte, Components::Rgba, 32);
    let mut image = blank.expect(rt, "no image");
    let mut part = image.part(whole);
    let count = window_tile(
        rt, alloc, scene, &regions, life, shared, seat, TIME, tile, &mut part,
    );
    seat.directory.finds_none();
    seat.wholes.finds_none();
    (image, count.expect(rt, "no count"))
}

// What is shown of the tile, and the counts of the directories.
fn tile_alone<'a, R: Wait + Clock + Abort + AllocGlobal>(
    rt: &R,
    graph: Graph<Counted<'a>>,
    effects: Vec<Counted<'a>>,
) -> (Image, TileCount, Totals)
    requires { map (λ e. counted_number e.safety) effects.items ≡ 0 ∷ 1 ∷ 2 ∷ [] }
{
    let alloc = rt.alloc();
    let (scene, permit) = scene_of(alloc, graph).expect(rt, "no scene");
    let life = life_of(alloc, &scene, effects).expect(rt, "no life");
    let directory = Shared::new(alloc, &scene, permit, 9, 0, Grid { side: TILE });
    let (shared, mut seat) = directory.expect(rt, "no directory");
    let (image, count) = shown(rt, &scene, &life, &shared, &mut seat);
    life.finish();
    let totals = shared.close(alloc, seat).expect(rt, "no totals");
    (image, count, totals)
}

// The pixel of a place: that of the source in the tile, and else the one that was there before.
fn wanted_at(x: i64, y: i64) -> Pixel {
    for (column, row, [r, g, b, a]) in WRITTEN {
        if *column == x && *row == y {
            return Pixel::Rgba {
                r: *r,
                g: *g,
                b: *b,
                a: *a,
            };
        }
    }
    Pixel::zero(Components::Rgba)
}

fn is_written_alone<R: Wait + Clock + Abort + AllocGlobal>(rt: &R, plugins: &Plugins) {
    let graph = graph_of(rt.alloc(), GRAPH).ok().expect(rt, "refused");
    let effects = plugins.effects(rt.alloc()).expect(rt, "no effects");
    let (image, count, totals) = tile_alone(rt, graph, effects);
    for y in 0..8 {
        for x in 0..8 {
            same_at(rt, &(x, y), image.at(x, y), wanted_at(x, y));
        }
    }
    same(rt, count, ONCE);
    same(rt, (totals.landed, totals.hits), (1, 0));
    same(rt, plugins.calls(), 1);
}

#[test]
fn a_tile_is_shown_alone(rt: HostRuntime) {
    let plugins = Plugins::new(&rt, 0, 0);
    is_written_alone(&rt, &plugins);
}
