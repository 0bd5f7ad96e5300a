//! Where regions are found, and what they need, over the effects that are shipped, worked by hand.
ghost use Rattle.std.specs.Prelude.{◌≤◌};

use crate::engines::scene_of;
use crate::files::{add_file, greys};
use crate::same::{same, same_at};
use crate::scenes::deep_diamond;
use crate::worked::text_of;
use fx_base::{Grid, Memory, Rect};
use fx_effect::{Step, Steps};
use fx_outside::SureLibrary;
use fx_pixel::Depth;
use fx_region::{End, Need, Regions, demand, follow};
use fx_scene::Scene;
use fx_shipped::Shipped;
use std::alloc::Global;
use std::process::Abort;

// A graph: the sides of the project, those of the files `s0.pam` to `s2.pam`, and the nodes.
#[derive(Clone, Copy)]
struct Filmed<'a> {
    project: (u32, u32),
    frames: (u32, u32),
    nodes: &'a str,
}

// A wipe whose edge is the middle column, 96.
const WIPE: Filmed<'static> = Filmed {
    project: (192, 192),
    frames: (192, 192),
    nodes: r#"{"name":"a","source":"s#.pam","first":0,"last":2},{"name":"b","source":"s#.pam","first":0,"last":2},{"name":"n","effect":"wipe","clips":{"SourceFrom":"a","SourceTo":"b"},"params":{"Transition":"0.5"}}"#,
};

// The same to the frame before.
const WIPE_BACK: Filmed<'static> = Filmed {
    project: (192, 192),
    frames: (192, 192),
    nodes: r#"{"name":"a","source":"s#.pam","first":0,"last":2},{"name":"b","effect":"timeoffset","clips":{"Source":"a"},"params":{"offset":1}},{"name":"n","effect":"wipe","clips":{"SourceFrom":"a","SourceTo":"b"},"params":{"Transition":"0.5"}}"#,
};

// A blur has pixels beside its source, and they are moved into the picture.
const MOVED_BLUR: Filmed<'static> = Filmed {
    project: (5, 1),
    frames: (3, 1),
    nodes: r#"{"name":"s","source":"s#.pam","first":0,"last":2},{"name":"b","effect":"boxblur","clips":{"Source":"s"},"params":{"rx":1,"ry":0}},{"name":"n","effect":"translate","clips":{"Source":"b"},"params":{"dx":1}}"#,
};

// A blur reads one pixel beside what it renders.
const BLUR: Filmed<'static> = Filmed {
    project: (192, 192),
    frames: (192, 192),
    nodes: r#"{"name":"s","source":"s#.pam","first":0,"last":2},{"name":"i","effect":"invert","clips":{"Source":"s"}},{"name":"n","effect":"boxblur","clips":{"Source":"i"},"params":{"rx":1,"ry":1}}"#,
};

// The frame two before and the current one.
const DIFFERENCE: Filmed<'static> = Filmed {
    project: (192, 192),
    frames: (192, 192),
    nodes: r#"{"name":"s","source":"s#.pam","first":0,"last":2},{"name":"n","effect":"framediff","clips":{"Source":"s"},"params":{"gap":2}}"#,
};

// The same as its clip left of column 100, and nothing right of it.
const CROP: Filmed<'static> = Filmed {
    project: (192, 192),
    frames: (192, 192),
    nodes: r#"{"name":"s","source":"s#.pam","first":0,"last":2},{"name":"n","effect":"crop","clips":{"Source":"s"},"params":{"width":100}}"#,
};

// Bytes of short samples that are held, one frame ago.
const HELD_BACK: Filmed<'static> = Filmed {
    project: (192, 192),
    frames: (192, 192),
    nodes: r#"{"name":"s","source":"s#.pam","first":0,"last":2,"outside":"hold","depth":"short"},{"name":"p","effect":"posterise","clips":{"Source":"s"}},{"name":"n","effect":"timeoffset","clips":{"Source":"p"},"params":{"offset":1}}"#,
};

// The same as SourceFrom, in a region that is 8 columns wider; and under an effect that is rendered.
const WIDER: Filmed<'static> = Filmed {
    project: (192, 192),
    frames: (192, 192),
    nodes: r#"{"name":"a","source":"s#.pam","first":0,"last":2},{"name":"b","effect":"translate","clips":{"Source":"a"},"params":{"dx":8}},{"name":"n","effect":"wipe","clips":{"SourceFrom":"a","SourceTo":"b"}}"#,
};

const WIDER_UNDER: Filmed<'static> = Filmed {
    project: (192, 192),
    frames: (192, 192),
    nodes: r#"{"name":"a","source":"s#.pam","first":0,"last":2},{"name":"b","effect":"translate","clips":{"Source":"a"},"params":{"dx":8}},{"name":"w","effect":"wipe","clips":{"SourceFrom":"a","SourceTo":"b"}},{"name":"n","effect":"invert","clips":{"Source":"w"}}"#,
};

// A clip that has pixels beside the project.
const BLUR_UNDER: Filmed<'static> = Filmed {
    project: (192, 192),
    frames: (192, 192),
    nodes: r#"{"name":"s","source":"s#.pam","first":0,"last":2},{"name":"b","effect":"boxblur","clips":{"Source":"s"},"params":{"rx":1,"ry":1}},{"name":"n","effect":"invert","clips":{"Source":"b"}}"#,
};

// A blur reads 64 pixels beside what it renders.
const FAR_BLUR: Filmed<'static> = Filmed {
    project: (192, 192),
    frames: (192, 192),
    nodes: r#"{"name":"s","source":"s#.pam","first":0,"last":2},{"name":"n","effect":"boxblur","clips":{"Source":"s"},"params":{"rx":64,"ry":64}}"#,
};

// A clip that is moved 8 columns from frame 0 to frame 1.
const MOVING: Filmed<'static> = Filmed {
    project: (192, 192),
    frames: (192, 192),
    nodes: r#"{"name":"s","source":"s#.pam","first":0,"last":2},{"name":"m","effect":"translate","clips":{"Source":"s"},"params":{"dx":{"keys":[[0,0],[1,8]]}}},{"name":"n","effect":"framediff","clips":{"Source":"m"},"params":{"gap":1}}"#,
};

// A frame, a region of the output, and what is told of it.
type Row = (Filmed<'static>, u32, [i64; 4], &'static str);

// Where a region is found.
const ENDS_AT_EDGES: &[Row] = &[
    // A tile on one side of the edge is its clip there, and one across it is rendered.
    (
        WIPE,
        1,
        [0, 0, 64, 64],
        "frame 1 of 1 (0,0,64,64) byte byte",
    ),
    (WIPE, 1, [64, 0, 128, 64], "node 2 at 1 (64,0,128,64)"),
    (
        WIPE,
        1,
        [128, 0, 192, 64],
        "frame 1 of 0 (128,0,192,64) byte byte",
    ),
    // Up to the edge, and a pixel across it.
    (
        WIPE,
        2,
        [32, 64, 96, 128],
        "frame 2 of 1 (32,64,96,128) byte byte",
    ),
    (WIPE, 2, [33, 64, 97, 128], "node 2 at 2 (33,64,97,128)"),
    (
        WIPE,
        2,
        [96, 64, 160, 128],
        "frame 2 of 0 (96,64,160,128) byte byte",
    ),
    (WIPE, 2, [95, 64, 159, 128], "node 2 at 2 (95,64,159,128)"),
];

const ENDS_THROUGH_MORE: &[Row] = &[
    // Through both effects.
    (
        WIPE_BACK,
        1,
        [0, 128, 64, 192],
        "frame 0 of 0 (0,128,64,192) byte byte byte",
    ),
    (WIPE_BACK, 0, [0, 128, 64, 192], "nowhere"),
    // Behind the frames of the source, and beside them.
    (WIPE_BACK, 9, [0, 0, 64, 64], "nowhere"),
    (WIPE, 1, [192, 0, 256, 64], "nowhere"),
    // The region is cut before it is asked whether it is its clip there.
    (
        CROP,
        1,
        [50, -10, 300, 10],
        "frame 1 of 0 (50,0,100,10) byte byte",
    ),
    // From a source of short samples through two nodes of bytes; behind frame 3 the last frame is held.
    (
        HELD_BACK,
        2,
        [128, 0, 256, 64],
        "frame 1 of 0 (128,0,192,64) short byte byte",
    ),
    (
        HELD_BACK,
        9,
        [0, 0, 64, 64],
        "frame 2 of 0 (0,0,64,64) short byte byte",
    ),
    // It is cut at each node: to column 200 at the wipe, and to 192 at its clip.
    (
        WIDER,
        1,
        [128, 0, 256, 64],
        "frame 1 of 0 (128,0,192,64) byte byte",
    ),
    (WIDER, 1, [192, 0, 256, 64], "nowhere"),
];

// What a region needs by tiles of side 64.
const NEEDS_OF_BLURS: &[Row] = &[
    (
        MOVED_BLUR,
        0,
        [0, 0, 5, 1],
        "0@0: node 1 at 0 (-1,0,0,1)\n\
         0@0: node 1 at 0 (0,0,4,1)\n",
    ),
    // The middle tile needs nine renders, an edge tile six, and a corner tile four.
    (
        BLUR,
        0,
        [64, 64, 128, 128],
        "0@0: node 1 at 0 (0,0,64,64)\n\
         0@0: node 1 at 0 (64,0,128,64)\n\
         0@0: node 1 at 0 (128,0,192,64)\n\
         0@0: node 1 at 0 (0,64,64,128)\n\
         0@0: node 1 at 0 (64,64,128,128)\n\
         0@0: node 1 at 0 (128,64,192,128)\n\
         0@0: node 1 at 0 (0,128,64,192)\n\
         0@0: node 1 at 0 (64,128,128,192)\n\
         0@0: node 1 at 0 (128,128,192,192)\n",
    ),
    (
        BLUR,
        0,
        [128, 64, 192, 128],
        "0@0: node 1 at 0 (64,0,128,64)\n\
         0@0: node 1 at 0 (128,0,192,64)\n\
         0@0: node 1 at 0 (64,64,128,128)\n\
         0@0: node 1 at 0 (128,64,192,128)\n\
         0@0: node 1 at 0 (64,128,128,192)\n\
         0@0: node 1 at 0 (128,128,192,192)\n",
    ),
    (
        BLUR,
        0,
        [0, 128, 64, 192],
        "0@0: node 1 at 0 (0,64,64,128)\n\
         0@0: node 1 at 0 (64,64,128,128)\n\
         0@0: node 1 at 0 (0,128,64,192)\n\
         0@0: node 1 at 0 (64,128,128,192)\n",
    ),
    (
        BLUR,
        0,
        [64, 0, 128, 64],
        "0@0: node 1 at 0 (0,0,64,64)\n\
         0@0: node 1 at 0 (64,0,128,64)\n\
         0@0: node 1 at 0 (128,0,192,64)\n\
         0@0: node 1 at 0 (0,64,64,128)\n\
         0@0: node 1 at 0 (64,64,128,128)\n\
         0@0: node 1 at 0 (128,64,192,128)\n",
    ),
    // Tiles round the origin.
    (
        BLUR_UNDER,
        0,
        [-1, -1, 1, 1],
        "0@0: node 1 at 0 (-1,-1,0,0)\n\
         0@0: node 1 at 0 (0,-1,64,0)\n\
         0@0: node 1 at 0 (-1,0,0,64)\n\
         0@0: node 1 at 0 (0,0,64,64)\n",
    ),
    // Of columns 64 to 255 and rows -64 to 127 the clip has four tiles.
    (
        FAR_BLUR,
        0,
        [128, 0, 192, 64],
        "0@0: frame 0 of 0 (64,0,128,64) byte\n\
         0@0: frame 0 of 0 (128,0,192,64) byte\n\
         0@0: frame 0 of 0 (64,64,128,128) byte\n\
         0@0: frame 0 of 0 (128,64,192,128) byte\n",
    ),
];

const NEEDS_OF_OTHERS: &[Row] = &[
    // Tiles are cut to the region of definition, which is wider at frame 1. At frame 0 nothing is moved.
    (
        MOVING,
        1,
        [128, 0, 256, 64],
        "0@0: frame 0 of 0 (128,0,192,64) byte byte\n\
         0@1: node 1 at 1 (128,0,192,64)\n\
         0@1: node 1 at 1 (192,0,200,64)\n",
    ),
    // Columns from 192 on are found nowhere in SourceFrom, and aren't needed.
    (
        WIDER_UNDER,
        1,
        [128, 0, 256, 64],
        "0@1: frame 1 of 0 (128,0,192,64) byte byte\n",
    ),
    // The clips in the order in which they are described.
    (
        WIPE,
        1,
        [64, 0, 128, 64],
        "0@1: frame 1 of 0 (64,0,128,64) byte\n\
         1@1: frame 1 of 1 (64,0,128,64) byte\n",
    ),
    // Of a clip under an identity the frame that is needed is the effect's, and that which is found another.
    (
        WIPE_BACK,
        1,
        [64, 0, 128, 64],
        "0@1: frame 1 of 0 (64,0,128,64) byte\n\
         1@1: frame 0 of 0 (64,0,128,64) byte byte\n",
    ),
    // Frames rise, and the one between isn't needed.
    (
        DIFFERENCE,
        2,
        [128, 128, 192, 192],
        "0@0: frame 0 of 0 (128,128,192,192) byte\n\
         0@2: frame 2 of 0 (128,128,192,192) byte\n",
    ),
    // A frame that the source hasn't isn't needed.
    (
        DIFFERENCE,
        1,
        [0, 0, 64, 64],
        "0@1: frame 1 of 0 (0,0,64,64) byte\n",
    ),
];

fn library(rt: &(impl Abort + AllocGlobal), sides: (u32, u32)) -> SureLibrary {
    let mut files = Vec::new(rt.alloc());
    for name in ["s0.pam", "s1.pam", "s2.pam"] {
        add_file(rt, &mut files, name, greys(rt, sides, 0));
    }
    SureLibrary::new(rt.alloc(), files)
}

// The scene of a graph with the frames that it wants at a frame.
fn filmed_scene(rt: &(impl Abort + AllocGlobal), filmed: Filmed<'_>, at: u32) -> Scene<Shipped>
    requires { at ≤ 999999 }
{
    let text = text_of(rt, filmed.project, 9, filmed.nodes);
    let mut library = library(rt, filmed.frames);
    let (scene, _) = scene_of(rt, &mut library, text.as_str(), at);
    scene
}

fn told_rect(rt: &(impl Abort + AllocGlobal), r: Rect) -> String {
    format!(in rt.alloc(); "({},{},{},{})", r.x1, r.y1, r.x2, r.y2).expect(rt, "no text")
}

fn told_depth(step: &Step) -> &'static str {
    match step.depth {
        Depth::Byte => " byte",
        Depth::Short => " short",
    }
}

fn told_steps(rt: &(impl Abort + AllocGlobal), through: &Steps) -> String {
    let mut text = String::new(rt.alloc());
    for step in through.items() {
        text.push_str(told_depth(step)).expect(rt, "no text");
    }
    text
}

fn told_end(rt: &(impl Abort + AllocGlobal), end: &End) -> String {
    match end {
        End::Void => String::from_str(rt.alloc(), "nowhere").expect(rt, "no text"),
        End::Frame {
            node,
            frame,
            region,
            through,
        } => {
            let r = told_rect(rt, *region);
            let steps = told_steps(rt, through);
            format!(in rt.alloc(); "frame {frame} of {node} {r}{steps}").expect(rt, "no text")
        }
        End::Render {
            node,
            frame,
            region,
            cut: _,
            through,
        } => {
            let r = told_rect(rt, *region);
            let steps = told_steps(rt, through);
            format!(in rt.alloc(); "node {node} at {frame} {r}{steps}").expect(rt, "no text")
        }
    }
}

fn told_need(rt: &(impl Abort + AllocGlobal), need: &Need) -> String {
    let (clip, frame) = (need.clip, need.frame);
    let end = told_end(rt, &need.end);
    format!(in rt.alloc(); "{clip}@{frame}: {end}\n").expect(rt, "no text")
}

fn told_needs(rt: &(impl Abort + AllocGlobal), needs: &[Need]) -> String {
    let mut text = String::new(rt.alloc());
    for need in needs {
        let one = told_need(rt, need);
        text.push_str(one.as_str()).expect(rt, "no text");
    }
    text
}

fn rect_of(bounds: [i64; 4]) -> Rect {
    let [x1, y1, x2, y2] = bounds;
    Rect::of(x1, y1, x2, y2)
}

// Where a region of the output is found at a frame.
fn found(alloc: Global, scene: &Scene<Shipped>, at: u32, region: Rect) -> Result<End, Memory>
    requires { at ≤ 999999 }
{
    let frame = i64::from(at);
    let regions = Regions::of(alloc, scene, frame)?;
    follow(alloc, scene, &regions, scene.graph().output, frame, region)
}

// What a region of the output needs at a frame, by tiles of side 64.
fn needed(alloc: Global, scene: &Scene<Shipped>, at: u32, region: Rect) -> Result<Vec<Need>, Memory>
    requires { at ≤ 999999 }
{
    let (node, frame) = (scene.graph().output, i64::from(at));
    let regions = Regions::of(alloc, scene, frame)?;
    let within = region.meet(regions.rod(node, frame));
    let grid = Grid { side: 64 };
    demand(alloc, scene, &regions, node, frame, within, grid)
}

#[test]
fn regions_are_found_where_identities_lead(rt: HostRuntime) {
    are_found(&rt, ENDS_AT_EDGES);
    are_found(&rt, ENDS_THROUGH_MORE);
}

fn are_found(rt: &(impl Abort + AllocGlobal), ends: &[Row]) {
    for (filmed, at, region, expected) in ends {
        let at = (*at).min(9);
        let scene = filmed_scene(rt, *filmed, at);
        let end = found(rt.alloc(), &scene, at, rect_of(*region)).expect(rt, "no memory");
        let told = told_end(rt, &end);
        same_at(rt, &(&at, &filmed.nodes), told.as_str(), *expected);
    }
}

#[test]
fn regions_need_the_tiles_of_their_interest(rt: HostRuntime) {
    are_needed(&rt, NEEDS_OF_BLURS);
    are_needed(&rt, NEEDS_OF_OTHERS);
}

fn are_needed(rt: &(impl Abort + AllocGlobal), rows: &[Row]) {
    for (filmed, at, region, expected) in rows {
        let at = (*at).min(9);
        let scene = filmed_scene(rt, *filmed, at);
        let needs = needed(rt.alloc(), &scene, at, rect_of(*region)).expect(rt, "no memory");
        let told = told_needs(rt, &needs);
        same_at(rt, &(&at, &filmed.nodes), told.as_str(), *expected);
    }
}

// There are 2 * 6^20 ways from the output to the source, at the frames -11 to 29.
#[test]
fn regions_take_time_by_what_is_reached(rt: HostRuntime) {
    let source = r#"{"name":"n0","source":"s#.pam","first":0,"last":2}"#;
    let nodes = deep_diamond(&rt, source, 20);
    let filmed = Filmed {
        project: (192, 192),
        frames: (192, 192),
        nodes: nodes.as_str(),
    };
    let scene = filmed_scene(&rt, filmed, 9);
    let regions = Regions::of(rt.alloc(), &scene, 9).expect(&rt, "no memory");
    let rod = regions.rod(scene.graph().output, 9);
    same(&rt, rod, Rect::of(0, 0, 192, 192));
}
