//! What frames demand, over graphs of the effects that are shipped, worked by hand.
ghost use Rattle.std.specs.Prelude.{◌≤◌, pos};
ghost use Rattle.fx_scene.specs.Right.{HasWanted};
ghost use Rattle.fx_scene.specs.Scenes.{images_in};
ghost use Rattle.fx_shipped.specs.Shipped.{meaning_of};

use crate::engines::{accepted, grid_of, scene_of};
use crate::files::{add_file, greys};
use crate::same::{same, same_at};
use crate::worked::text_of;
use fx_outside::SureLibrary;
use fx_plan::{Entry, plan};
use fx_region::Regions;
use fx_scene::{Scene, uses};
use fx_shipped::Shipped;
use std::process::Abort;

// A graph whose output is the node `n`: the sides of the project, those of the file `s.pam`, the side of a tile, and
// the nodes.
#[derive(Clone, Copy, Debug)]
struct Planned<'a> {
    project: (u32, u32),
    file: (u32, u32),
    side: u32,
    nodes: &'a str,
}

// A node, a frame, and the left, bottom, right and top of a region.
type Row = (u32, i64, i64, i64, i64, i64);

// A generator is rendered where the picture is.
const SOLID: Planned<'static> = Planned {
    project: (2, 1),
    file: (1, 1),
    side: 64,
    nodes: r#"{"name":"n","effect":"solid","params":{"r":1,"g":"0.5","b":0,"a":1}}"#,
};

// The tiles of a picture that is a column wider and a row higher than one.
const FOUR_TILES: Planned<'static> = Planned {
    project: (65, 65),
    ..SOLID
};

// Nothing is rendered of an identity that ends in a source's frame.
const FADE_BEFORE: Planned<'static> = Planned {
    project: (1, 1),
    file: (1, 1),
    side: 64,
    nodes: r#"{"name":"f","source":"s.pam","first":0,"last":0},{"name":"t","source":"s.pam","first":0,"last":0},{"name":"n","effect":"dissolve","clips":{"SourceFrom":"f","SourceTo":"t"},"params":{"Transition":0}}"#,
};

// Half way it is rendered.
const FADE: Planned<'static> = Planned {
    nodes: r#"{"name":"f","source":"s.pam","first":0,"last":0},{"name":"t","source":"s.pam","first":0,"last":0},{"name":"n","effect":"dissolve","clips":{"SourceFrom":"f","SourceTo":"t"},"params":{"Transition":"0.5"}}"#,
    ..FADE_BEFORE
};

// A frame that the source hasn't is found nowhere.
const LATE: Planned<'static> = Planned {
    nodes: r#"{"name":"s","source":"s.pam","first":0,"last":0},{"name":"n","effect":"timeoffset","clips":{"Source":"s"},"params":{"offset":5}}"#,
    ..FADE_BEFORE
};

// Both clips of the sum need the same four tiles of the blur.
const DIAMOND: Planned<'static> = Planned {
    project: (128, 128),
    file: (128, 128),
    side: 64,
    nodes: r#"{"name":"s","source":"s.pam","first":0,"last":0},{"name":"b","effect":"boxblur","clips":{"Source":"s"},"params":{"rx":1,"ry":1}},{"name":"n","effect":"merge","clips":{"A":"b","B":"b"},"params":{"operation":"plus"}}"#,
};

// The blur's nine tiles need each of the nine below up to nine times.
const BLUR: Planned<'static> = Planned {
    project: (192, 192),
    file: (192, 192),
    side: 64,
    nodes: r#"{"name":"s","source":"s.pam","first":0,"last":0},{"name":"i","effect":"invert","clips":{"Source":"s"}},{"name":"n","effect":"boxblur","clips":{"Source":"i"},"params":{"rx":1,"ry":1}}"#,
};

// A blur has pixels beside its source, and they are moved into the picture.
const MOVED_BLUR: Planned<'static> = Planned {
    project: (5, 1),
    file: (3, 1),
    side: 64,
    nodes: r#"{"name":"s","source":"s.pam","first":0,"last":0},{"name":"b","effect":"boxblur","clips":{"Source":"s"},"params":{"rx":1,"ry":0}},{"name":"n","effect":"translate","clips":{"Source":"b"},"params":{"dx":1}}"#,
};

// A gain of 1 is the same as its clip, so the blur needs the tiles of the generator below it, and none of the gain's.
const IDENTITY: Planned<'static> = Planned {
    project: (3, 2),
    file: (1, 1),
    side: 2,
    nodes: r#"{"name":"c","effect":"solid"},{"name":"g","effect":"gain","clips":{"Source":"c"}},{"name":"n","effect":"boxblur","clips":{"Source":"g"},"params":{"rx":1,"ry":0}}"#,
};

// Three frames of a generator.
const FRAMES: Planned<'static> = Planned {
    project: (1, 1),
    file: (1, 1),
    side: 64,
    nodes: r#"{"name":"c","effect":"solid"},{"name":"n","effect":"frameblend","clips":{"Source":"c"},"params":{"radius":1}}"#,
};

// A graph, and what its frame 0 demands.
const AT_FIRST: &[(Planned<'static>, &[Row])] = &[
    (SOLID, &[(0, 0, 0, 0, 2, 1)]),
    (
        FOUR_TILES,
        &[
            (0, 0, 0, 0, 64, 64),
            (0, 0, 64, 0, 65, 64),
            (0, 0, 0, 64, 64, 65),
            (0, 0, 64, 64, 65, 65),
        ],
    ),
    (FADE_BEFORE, &[]),
    (FADE, &[(2, 0, 0, 0, 1, 1)]),
    (LATE, &[]),
    (
        DIAMOND,
        &[
            (1, 0, 0, 0, 64, 64),
            (1, 0, 64, 0, 128, 64),
            (1, 0, 0, 64, 64, 128),
            (1, 0, 64, 64, 128, 128),
            (2, 0, 0, 0, 64, 64),
            (2, 0, 64, 0, 128, 64),
            (2, 0, 0, 64, 64, 128),
            (2, 0, 64, 64, 128, 128),
        ],
    ),
    (
        BLUR,
        &[
            (1, 0, 0, 0, 64, 64),
            (1, 0, 64, 0, 128, 64),
            (1, 0, 128, 0, 192, 64),
            (1, 0, 0, 64, 64, 128),
            (1, 0, 64, 64, 128, 128),
            (1, 0, 128, 64, 192, 128),
            (1, 0, 0, 128, 64, 192),
            (1, 0, 64, 128, 128, 192),
            (1, 0, 128, 128, 192, 192),
            (2, 0, 0, 0, 64, 64),
            (2, 0, 64, 0, 128, 64),
            (2, 0, 128, 0, 192, 64),
            (2, 0, 0, 64, 64, 128),
            (2, 0, 64, 64, 128, 128),
            (2, 0, 128, 64, 192, 128),
            (2, 0, 0, 128, 64, 192),
            (2, 0, 64, 128, 128, 192),
            (2, 0, 128, 128, 192, 192),
        ],
    ),
    (
        MOVED_BLUR,
        &[(1, 0, -1, 0, 0, 1), (1, 0, 0, 0, 4, 1), (2, 0, 0, 0, 5, 1)],
    ),
    (
        IDENTITY,
        &[
            (0, 0, 0, 0, 2, 2),
            (0, 0, 2, 0, 3, 2),
            (2, 0, 0, 0, 2, 2),
            (2, 0, 2, 0, 3, 2),
        ],
    ),
    (
        FRAMES,
        &[
            (0, -1, 0, 0, 1, 1),
            (0, 0, 0, 0, 1, 1),
            (0, 1, 0, 0, 1, 1),
            (1, 0, 0, 0, 1, 1),
        ],
    ),
];

// And what its frame 7 does.
const LATER: &[(Planned<'static>, &[Row])] = &[
    (SOLID, &[(0, 7, 0, 0, 2, 1)]),
    (
        FRAMES,
        &[
            (0, 6, 0, 0, 1, 1),
            (0, 7, 0, 0, 1, 1),
            (0, 8, 0, 0, 1, 1),
            (1, 7, 0, 0, 1, 1),
        ],
    ),
    // Behind its only frame the source has no pixel.
    (MOVED_BLUR, &[]),
];

// The library of a file of these sides.
fn library_of(rt: &(impl Abort + AllocGlobal), sides: (u32, u32)) -> SureLibrary {
    let mut files = Vec::new(rt.alloc());
    add_file(rt, &mut files, "s.pam", greys(rt, sides, 0));
    SureLibrary::new(rt.alloc(), files)
}

// The scene of a graph with the frames that it wants at a frame.
fn planned_scene(rt: &(impl Abort + AllocGlobal), planned: &Planned<'_>, at: u32) -> Scene<Shipped>
    requires { at ≤ 999999 }
    ensures { HasWanted meaning_of result.graph (images_in result.store) result.graph.output (pos at) }
{
    let text = text_of(rt, planned.project, 9, planned.nodes);
    let mut library = library_of(rt, planned.file);
    let (scene, _) = scene_of(rt, &mut library, text.as_str(), at);
    scene
}

fn row_of(entry: &Entry) -> Row {
    let region = entry.region;
    (
        entry.node,
        entry.frame,
        region.x1,
        region.y1,
        region.x2,
        region.y2,
    )
}

// What a frame of a graph demands.
fn rows_of(rt: &(impl Abort + AllocGlobal), planned: &Planned<'_>, at: u32) -> Vec<Row>
    requires { at ≤ 999999 }
{
    let alloc = rt.alloc();
    let scene = planned_scene(rt, planned, at);
    let at = i64::from(at);
    let regions = Regions::of(alloc, &scene, at).expect(rt, "no regions");
    let grid = grid_of(rt, planned.side);
    let entries = plan(alloc, &scene, &regions, at, grid).expect(rt, "no entries");
    let mut rows = Vec::new(alloc);
    for entry in &entries {
        rows.push(row_of(entry)).expect(rt, "no row");
    }
    rows
}

#[test]
fn a_frame_demands_renders(rt: HostRuntime) {
    for (planned, wanted) in AT_FIRST {
        let rows = rows_of(&rt, planned, 0);
        same_at(&rt, planned, rows.as_slice(), *wanted);
    }
    for (planned, wanted) in LATER {
        let rows = rows_of(&rt, planned, 7);
        same_at(&rt, planned, rows.as_slice(), *wanted);
    }
}

// Of frames 1 to 3 each wants the source's frames beside its own.
const NEIGHBOURS: Planned<'static> = Planned {
    project: (1, 1),
    file: (1, 1),
    side: 64,
    nodes: r#"{"name":"s","source":"s#.pam","first":0,"last":9},{"name":"n","effect":"frameblend","clips":{"Source":"s"},"params":{"radius":1}}"#,
};

// A source's frame that is used, and the first and the last moment that wants it.
type Used = (i64, u64, u64);

const USED: &[Used] = &[(0, 0, 0), (1, 0, 1), (2, 0, 2), (3, 1, 2), (4, 2, 2)];

fn used(rt: &(impl Abort + AllocGlobal), first: u32, last: u32) -> Vec<Used>
    requires { last ≤ 999999 }
{
    let text = text_of(rt, NEIGHBOURS.project, 9, NEIGHBOURS.nodes);
    let graph = accepted(rt, text.as_str());
    let mut rows = Vec::new(rt.alloc());
    let found = uses(rt.alloc(), &graph, first, last).expect(rt, "no uses");
    for one in &found {
        let row = (one.wanted.frame, one.from, one.until);
        rows.push(row).expect(rt, "no row");
    }
    rows
}

#[test]
fn frames_use_what_they_want(rt: HostRuntime) {
    same(&rt, used(&rt, 1, 3).as_slice(), USED);
    same(&rt, used(&rt, 3, 1).len(), 0);
}
