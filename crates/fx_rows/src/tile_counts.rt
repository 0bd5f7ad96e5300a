//! What becomes of tiles on one thread, worked by hand.
use crate::engines::{Engine, are_same, by_frames, by_tiles};
use crate::files::{add_file, greys};
use crate::same::same_at;
use crate::worked::text_of;
use fx_outside::SureLibrary;
use fx_tile::TileCount;
use std::process::Abort;
use std::rt::Clock;
use std::sync::Wait;
use std::thread::Threads;

// What becomes of the tiles: void_tiles, passed, asked, landed and hits.
type Counts = (u64, u64, u64, u64, u64);

// The columns and rows of the sources' frames, those of the picture, the nodes behind the sources, the side of a tile,
// and what becomes of the tiles of frame 1 where so many may be kept.
type Case = (
    (u32, u32),
    (u32, u32),
    &'static str,
    u32,
    &'static [(u32, Counts)],
);

// Three frames, and one.
const SOURCES: &str =
    r#"{"name":"s","source":"s#.pam","first":0,"last":2},{"name":"t","source":"t.pam","first":1,"last":1}"#;

// A blur of an invert.
const BLURRED: &str =
    r#"{"name":"i","effect":"invert","clips":{"Source":"s"}},{"name":"n","effect":"boxblur","clips":{"Source":"i"},"params":{"rx":1,"ry":1}}"#;

// A difference of frames of such a difference.
const DIFFERED_TWICE: &str =
    r#"{"name":"d","effect":"framediff","clips":{"Source":"s"}},{"name":"n","effect":"framediff","clips":{"Source":"d"}}"#;

const WHAT_IS_KEPT: &[Case] = &[
    // The sum of a blur with itself. Each of its four tiles asks twice for the tile of the blur under it, which is there
    // at the second time if one may be kept.
    (
        (8, 8),
        (8, 8),
        r#"{"name":"b","effect":"boxblur","clips":{"Source":"s"},"params":{"rx":1,"ry":1}},{"name":"n","effect":"merge","clips":{"A":"b","B":"b"},"params":{"operation":"plus"}}"#,
        4,
        &[
            (4096, (0, 0, 4, 8, 4)),
            (1, (0, 0, 4, 8, 4)),
            (0, (0, 0, 4, 12, 0)),
        ],
    ),
    // Of the nine tiles of the blur the middle one asks for nine tiles of the invert, an edge one for six and a corner
    // one for four: 9 + 4 * 6 + 4 * 4 = 49 asks for nine tiles. Where one may be kept it is never one that is asked for
    // next.
    (
        (12, 12),
        (12, 12),
        BLURRED,
        4,
        &[
            (4096, (0, 0, 9, 18, 40)),
            (1, (0, 0, 9, 58, 0)),
            (0, (0, 0, 9, 58, 0)),
        ],
    ),
    (
        (192, 192),
        (192, 192),
        BLURRED,
        64,
        &[(4096, (0, 0, 9, 18, 40))],
    ),
    // The one tile of the moved picture needs two of the blur, of which one lies left of 0.
    (
        (3, 1),
        (5, 1),
        r#"{"name":"b","effect":"boxblur","clips":{"Source":"s"},"params":{"rx":1,"ry":0}},{"name":"n","effect":"translate","clips":{"Source":"b"},"params":{"dx":1}}"#,
        64,
        &[
            (4096, (0, 0, 1, 3, 0)),
            (1, (0, 0, 1, 3, 0)),
            (0, (0, 0, 1, 3, 0)),
        ],
    ),
];

const WHAT_IS_PASSED: &[Case] = &[
    // At its beginning a dissolve is the picture that it comes from, and at its end the one that it goes to.
    (
        (1, 1),
        (1, 1),
        r#"{"name":"n","effect":"dissolve","clips":{"SourceFrom":"s","SourceTo":"t"},"params":{"Transition":0}}"#,
        64,
        &[(4096, (0, 1, 0, 0, 0))],
    ),
    (
        (1, 1),
        (1, 1),
        r#"{"name":"n","effect":"dissolve","clips":{"SourceFrom":"s","SourceTo":"t"},"params":{"Transition":1}}"#,
        64,
        &[(4096, (0, 1, 0, 0, 0))],
    ),
    (
        (1, 1),
        (1, 1),
        r#"{"name":"n","effect":"dissolve","clips":{"SourceFrom":"s","SourceTo":"t"},"params":{"Transition":"0.5"}}"#,
        64,
        &[(4096, (0, 0, 1, 1, 0)), (0, (0, 0, 1, 1, 0))],
    ),
    // There is no frame five before.
    (
        (1, 1),
        (1, 1),
        r#"{"name":"n","effect":"timeoffset","clips":{"Source":"s"},"params":{"offset":5}}"#,
        64,
        &[(4096, (1, 0, 0, 0, 0))],
    ),
    // Without a mask nothing is mixed.
    (
        (1, 1),
        (1, 1),
        r#"{"name":"n","effect":"keymix","clips":{"A":"s","B":"t"}}"#,
        64,
        &[(4096, (0, 1, 0, 0, 0))],
    ),
];

const AT_EDGES: &[Case] = &[
    // One pixel past the edge of a tile, in both directions.
    (
        (1, 1),
        (5, 5),
        r#"{"name":"n","effect":"solid","params":{"r":1,"g":"0.5"}}"#,
        4,
        &[(4096, (0, 0, 4, 4, 0)), (0, (0, 0, 4, 4, 0))],
    ),
    // Of three tiles the middle one lies in the cropped rectangle, and the others lie outside of it.
    (
        (12, 4),
        (12, 4),
        r#"{"name":"n","effect":"crop","clips":{"Source":"s"},"params":{"x":4,"width":4}}"#,
        4,
        &[(4096, (2, 1, 0, 0, 0))],
    ),
    // The edge of the wipe is at column 6: the first tile lies left of it, and the last one right of it.
    (
        (12, 4),
        (12, 4),
        r#"{"name":"n","effect":"wipe","clips":{"SourceFrom":"s","SourceTo":"t"},"params":{"Transition":"0.5"}}"#,
        4,
        &[(4096, (0, 2, 1, 1, 0))],
    ),
];

const AT_MOMENTS: &[Case] = &[
    // The blend asks for three frames of the invert, and then the difference asks for the first of these again.
    (
        (3, 3),
        (3, 3),
        r#"{"name":"i","effect":"invert","clips":{"Source":"s"}},{"name":"b","effect":"frameblend","clips":{"Source":"i"},"params":{"radius":1}},{"name":"o","effect":"timeoffset","clips":{"Source":"i"},"params":{"offset":1}},{"name":"n","effect":"merge","clips":{"A":"b","B":"o"},"params":{"operation":"minus"}}"#,
        4,
        &[
            (4096, (0, 0, 1, 5, 1)),
            (1, (0, 0, 1, 6, 0)),
            (0, (0, 0, 1, 6, 0)),
        ],
    ),
    // A source of one column in a picture of two: where each has a tile of its own, one is passed on and one is void.
    (
        (1, 1),
        (2, 1),
        r#"{"name":"n","source":"s#.pam","first":0,"last":2}"#,
        64,
        &[(4096, (0, 1, 0, 0, 0))],
    ),
    (
        (1, 1),
        (2, 1),
        r#"{"name":"n","source":"s#.pam","first":0,"last":2}"#,
        1,
        &[(4096, (1, 1, 0, 0, 0))],
    ),
    // Behind its last frame it is black.
    (
        (1, 1),
        (2, 1),
        r#"{"name":"n","source":"s#.pam","first":0,"last":0}"#,
        64,
        &[(4096, (1, 0, 0, 0, 0))],
    ),
    (
        (1, 1),
        (2, 1),
        r#"{"name":"n","source":"s#.pam","first":0,"last":0}"#,
        1,
        &[(4096, (2, 0, 0, 0, 0))],
    ),
    // The difference at 1 reads that under it at 0 and at 1, and both are rendered from the source.
    (
        (1, 1),
        (2, 1),
        DIFFERED_TWICE,
        64,
        &[
            (4096, (0, 0, 1, 3, 0)),
            (1, (0, 0, 1, 3, 0)),
            (0, (0, 0, 1, 3, 0)),
        ],
    ),
    (
        (1, 1),
        (2, 1),
        DIFFERED_TWICE,
        1,
        &[(4096, (1, 0, 1, 3, 0))],
    ),
    // Where the source has both columns each of the upper one needs its own of the lower one.
    (
        (2, 1),
        (2, 1),
        DIFFERED_TWICE,
        1,
        &[(4096, (0, 0, 2, 6, 0))],
    ),
    (
        (2, 1),
        (2, 1),
        DIFFERED_TWICE,
        64,
        &[(4096, (0, 0, 1, 3, 0))],
    ),
    // Of the lower blend at 0, 1 and 2 the third is nowhere.
    (
        (1, 1),
        (2, 1),
        r#"{"name":"u","source":"s#.pam","first":0,"last":0},{"name":"b","effect":"frameblend","clips":{"Source":"u"},"params":{"radius":1}},{"name":"n","effect":"frameblend","clips":{"Source":"b"},"params":{"radius":1}}"#,
        64,
        &[(4096, (0, 0, 1, 3, 0))],
    ),
];

// The files of the sources' frames.
fn files(rt: &(impl Abort + AllocGlobal), sides: (u32, u32)) -> SureLibrary {
    let mut files = Vec::new(rt.alloc());
    for (name, first) in [
        ("s0.pam", 0),
        ("s1.pam", 60),
        ("s2.pam", 130),
        ("t.pam", 99),
    ] {
        add_file(rt, &mut files, name, greys(rt, sides, first));
    }
    SureLibrary::new(rt.alloc(), files)
}

fn counts(count: TileCount) -> Counts {
    (
        count.void_tiles,
        count.passed,
        count.asked,
        count.landed,
        count.hits,
    )
}

fn case_is_right<R: Threads + Wait + Clock + Sync + Abort + AllocGlobal>(rt: &R, case: &Case) {
    let &(sides, project, nodes, side, engines) = case;
    let nodes = format!(in rt.alloc(); "{SOURCES},{nodes}").expect(rt, "no text");
    let text = text_of(rt, project, 1, nodes.as_str());
    let mut library = files(rt, sides);
    let whole = by_frames(rt, &mut library, text.as_str(), 1);
    for &(cache, became) in engines {
        let engine = Engine {
            side,
            cache,
            workers: 1,
        };
        let (tiled, count) = by_tiles(rt, &mut library, text.as_str(), 1, engine);
        same_at(rt, &(&engine, &nodes), counts(count), became);
        assert!(rt; are_same(&tiled, &whole), "by {engine:?} of {nodes}");
    }
}

#[test]
fn tiles_are_counted(rt: HostRuntime) {
    cases_are_right(&rt, WHAT_IS_KEPT);
    cases_are_right(&rt, WHAT_IS_PASSED);
    cases_are_right(&rt, AT_EDGES);
    cases_are_right(&rt, AT_MOMENTS);
}

fn cases_are_right<R: Threads + Wait + Clock + Sync + Abort + AllocGlobal>(rt: &R, cases: &[Case]) {
    for case in cases {
        case_is_right(rt, case);
    }
}
