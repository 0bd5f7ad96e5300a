//! Effects that read at another place: all their actions, and pixels worked by hand at both depths.
use crate::asking::{Picture, Row, effect_rows};
use crate::rows::{AXES, FILTERED, SOURCE_CLIP};
use fx_params::ParamKind;

static ROWS: [Row; 3] = [
    Row {
        used: r#""effect":"crop","clips":{"Source":"s"},"params":{"x":2,"y":0,"width":1,"height":5}"#,
        label: "crop",
        clips: &SOURCE_CLIP,
        params: &[
            ("x", ParamKind::Int, -16384, 16384, 0, &[]),
            ("y", ParamKind::Int, -16384, 16384, 0, &[]),
            ("width", ParamKind::Int, 0, 16384, 16384, &[]),
            ("height", ParamKind::Int, 0, 16384, 16384, &[]),
        ],
        region: (2, 0, 3, 1),
        interest: &[(2, 0, 3, 1)],
        sources: &[(0, 7, Picture::First)],
        bytes: &[[0, 0, 0, 0], [0, 255, 254, 255]],
        shorts: Some(&[[0, 0, 0, 0], [0, 255, 254, 255]]),
        ..FILTERED
    },
    Row {
        used: r#""effect":"translate","clips":{"Source":"s"},"params":{"dx":"1.5","dy":"0"}"#,
        label: "translate",
        clips: &SOURCE_CLIP,
        params: &[
            ("dx", ParamKind::Fix, -1073741824, 1073741824, 0, &[]),
            ("dy", ParamKind::Fix, -1073741824, 1073741824, 0, &[]),
        ],
        region: (1, 0, 6, 1),
        interest: &[(-1, 0, 4, 1)],
        sources: &[(0, 7, Picture::First)],
        bytes: &[
            [1, 1, 1, 1],
            [6, 101, 16, 65],
            [5, 228, 142, 192],
            [2, 129, 128, 128],
        ],
        shorts: Some(&[
            [1, 1, 1, 1],
            [6, 101, 16, 65],
            [5, 228, 142, 192],
            [2, 129, 128, 128],
        ]),
        ..FILTERED
    },
    Row {
        used: r#""effect":"mirror","clips":{"Source":"s"},"params":{"axis":"x"}"#,
        label: "mirror",
        clips: &SOURCE_CLIP,
        params: &[("axis", ParamKind::Choice, 0, 1, 0, &AXES)],
        region: (-1, 0, 3, 1),
        interest: &[(-2, 0, 2, 1)],
        sources: &[(0, 7, Picture::First)],
        bytes: &[[10, 200, 30, 128], [1, 1, 1, 1]],
        shorts: Some(&[[10, 200, 30, 128], [1, 1, 1, 1]]),
        ..FILTERED
    },
];

#[test]
fn effects_that_move(rt: HostRuntime) {
    effect_rows(&rt, &ROWS);
}
