//! Pictures by tiles beside those by whole frames: of the graphs that are worked by hand, and of a hundred graphs that
//! are made of numbers.
ghost use Rattle.std.specs.Prelude.{◌≤◌};

use crate::engines::{Engine, are_same, by_frames, by_tiles};
use crate::numbers::{NumberGraph, draw_graph};
use crate::worked::{GRAPHS, STRIPS, Whole, library, strip_text};
use fx_outside::SureLibrary;
use std::process::Abort;
use std::rt::Clock;
use std::sync::Wait;
use std::thread::Threads;

// The side of a tile, and how many tiles may be kept: each with each.
const EACH: &[(u32, u32)] = &[
    (1, 0),
    (1, 1),
    (1, 4096),
    (16, 0),
    (16, 1),
    (16, 4096),
    (64, 0),
    (64, 1),
    (64, 4096),
    (1024, 0),
    (1024, 1),
    (1024, 4096),
];

const SOME: &[(u32, u32)] = &[(64, 4096), (1024, 0)];

// The frame is the same by each of these as by whole frames.
fn frame_is_the_same<R: Threads + Wait + Clock + Sync + Abort + AllocGlobal>(
    rt: &R,
    library: &mut SureLibrary,
    text: &str,
    at: u32,
    workers: u32,
    engines: &[(u32, u32)],
)
    requires at { at ≤ 999999 }
    requires workers { (1 ≤ workers) × (workers ≤ 64) }
{
    let whole = by_frames(rt, library, text, at);
    for &(side, cache) in engines {
        let engine = Engine {
            side,
            cache,
            workers,
        };
        let (tiled, _) = by_tiles(rt, library, text, at, engine);
        assert!(rt;
            are_same(&tiled, &whole),
            "frame {at} by {engine:?} of {text}"
        );
    }
}

#[test]
fn worked_graphs_are_the_same(rt: HostRuntime) {
    let mut library = library(&rt);
    for &whole in GRAPHS {
        let text = whole.text(&rt);
        for at in 0..whole.last.min(2) + 1 {
            frame_is_the_same(&rt, &mut library, text.as_str(), at, 1, EACH);
        }
    }
}

#[test]
fn worked_strips_are_the_same(rt: HostRuntime) {
    let mut library = library(&rt);
    for strip in STRIPS {
        let &(_, _, at) = strip;
        let text = strip_text(&rt, strip);
        frame_is_the_same(&rt, &mut library, text.as_str(), at.min(1), 1, EACH);
    }
}

// Of a blur that is wider than an image may be, so that whole frames make it in two pieces.
const WIDE: Whole<'static> = Whole {
    project: r#""width":4096,"height":1,"depth":"byte","components":"RGBA""#,
    format: "RGB_ALPHA",
    last: 0,
    nodes: r#"{"name":"g","effect":"ramp"},{"name":"b","effect":"boxblur","clips":{"Source":"g"},"params":{"rx":2,"ry":0}},{"name":"n","effect":"translate","clips":{"Source":"b"},"params":{"dx":-2}}"#,
};

#[test]
fn a_wide_picture_is_the_same(rt: HostRuntime) {
    let alloc = rt.alloc();
    let text = WIDE.text(&rt);
    let mut library = SureLibrary::new(alloc, Vec::new(alloc));
    frame_is_the_same(&rt, &mut library, text.as_str(), 0, 1, SOME);
}

// The engines of a graph by the number of its effects less one. Each side comes with each number of tiles that are
// kept; but where few are kept, each tile is rendered again for each that asks, and so the more effects there are, the
// larger are the tiles.
const ENGINES: [&[(u32, u32)]; 5] = [
    &[(1, 0), (1, 1), (16, 4096)],
    &[(1, 4096), (16, 0), (64, 1)],
    &[(1, 4096), (16, 1), (1024, 0)],
    &[(16, 4096), (64, 0), (1024, 1)],
    &[(16, 4096), (64, 4096), (1024, 4096)],
];

// A frame of the graph of a number, by one worker, and for some numbers by eight too.
fn number_is_the_same<R: Threads + Wait + Clock + Sync + Abort + AllocGlobal>(rt: &R, number: u32) {
    let (effects, at) = (number % 5, number % 3);
    let NumberGraph { text, files } = draw_graph(rt, number, effects + 1);
    let engines = ENGINES[effects as usize];
    let text = text.as_str();
    let mut library = SureLibrary::new(rt.alloc(), files);
    frame_is_the_same(rt, &mut library, text, at, 1, engines);
    if number % 12 == 0 {
        frame_is_the_same(rt, &mut library, text, at, 8, engines);
    }
}

// The same of twenty numbers from this one on.
fn twenty_are_the_same<R: Threads + Wait + Clock + Sync + Abort + AllocGlobal>(rt: &R, first: u32)
    requires { first ≤ 80 }
{
    for number in first..first + 20 {
        number_is_the_same(rt, number);
    }
}

#[test]
fn numbers_from_0_are_the_same(rt: HostRuntime) {
    twenty_are_the_same(&rt, 0);
}

#[test]
fn numbers_from_20_are_the_same(rt: HostRuntime) {
    twenty_are_the_same(&rt, 20);
}

#[test]
fn numbers_from_40_are_the_same(rt: HostRuntime) {
    twenty_are_the_same(&rt, 40);
}

#[test]
fn numbers_from_60_are_the_same(rt: HostRuntime) {
    twenty_are_the_same(&rt, 60);
}

#[test]
fn numbers_from_80_are_the_same(rt: HostRuntime) {
    twenty_are_the_same(&rt, 80);
}
