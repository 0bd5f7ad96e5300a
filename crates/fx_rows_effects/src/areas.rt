//! Effects that read round a pixel's place: all their actions, and pixels worked by hand at both depths.
use crate::asking::{Picture, Row, effect_rows};
use crate::rows::{FILTERED, INSTANCE_SAFE, SOURCE_CLIP};
use fx_params::ParamKind;

static ROWS: [Row; 4] = [
    Row {
        used: r#""effect":"boxblur","clips":{"Source":"s"},"params":{"rx":1,"ry":0}"#,
        label: "boxblur",
        safety: INSTANCE_SAFE,
        clips: &SOURCE_CLIP,
        params: &[
            ("rx", ParamKind::Int, 0, 64, 1, &[]),
            ("ry", ParamKind::Int, 0, 64, 1, &[]),
        ],
        region: (-1, 0, 5, 1),
        interest: &[(0, 0, 6, 1)],
        sources: &[(0, 7, Picture::First)],
        bytes: &[
            [4, 152, 95, 128],
            [4, 152, 95, 128],
            [1, 86, 85, 85],
            [1, 1, 0, 0],
        ],
        shorts: Some(&[
            [4, 152, 95, 128],
            [4, 152, 95, 128],
            [1, 86, 85, 85],
            [1, 1, 0, 0],
        ]),
        ..FILTERED
    },
    Row {
        used: r#""effect":"erode","clips":{"Source":"s"},"params":{"radius":1}"#,
        label: "erode",
        clips: &SOURCE_CLIP,
        params: &[("radius", ParamKind::Int, 0, 32, 1, &[])],
        interest: &[(0, -1, 6, 2)],
        sources: &[(0, 7, Picture::First)],
        bytes: &[[0, 0, 0, 0], [0, 0, 0, 0], [0, 0, 0, 0], [0, 0, 0, 0]],
        shorts: Some(&[[0, 0, 0, 0], [0, 0, 0, 0], [0, 0, 0, 0], [0, 0, 0, 0]]),
        ..FILTERED
    },
    Row {
        used: r#""effect":"dilate","clips":{"Source":"s"},"params":{"radius":1}"#,
        label: "dilate",
        clips: &SOURCE_CLIP,
        params: &[("radius", ParamKind::Int, 0, 32, 1, &[])],
        region: (-1, -1, 5, 2),
        interest: &[(0, -1, 6, 2)],
        sources: &[(0, 7, Picture::First)],
        bytes: &[
            [10, 255, 254, 255],
            [10, 255, 254, 255],
            [3, 255, 254, 255],
            [3, 2, 1, 0],
        ],
        shorts: Some(&[
            [10, 255, 254, 255],
            [10, 255, 254, 255],
            [3, 255, 254, 255],
            [3, 2, 1, 0],
        ]),
        ..FILTERED
    },
    Row {
        used: r#""effect":"convolve3","clips":{"Source":"s"},"params":{"k1":0,"k2":0,"k3":0,"k4":-1,"k5":3,"k6":1,"k7":0,"k8":0,"k9":0,"divisor":2}"#,
        label: "convolve3",
        clips: &SOURCE_CLIP,
        params: &[
            ("k1", ParamKind::Int, -256, 256, 0, &[]),
            ("k2", ParamKind::Int, -256, 256, 0, &[]),
            ("k3", ParamKind::Int, -256, 256, 0, &[]),
            ("k4", ParamKind::Int, -256, 256, 0, &[]),
            ("k5", ParamKind::Int, -256, 256, 1, &[]),
            ("k6", ParamKind::Int, -256, 256, 0, &[]),
            ("k7", ParamKind::Int, -256, 256, 0, &[]),
            ("k8", ParamKind::Int, -256, 256, 0, &[]),
            ("k9", ParamKind::Int, -256, 256, 0, &[]),
            ("divisor", ParamKind::Int, 1, 65536, 1, &[]),
        ],
        region: (-1, -1, 5, 2),
        interest: &[(0, -1, 6, 2)],
        sources: &[(0, 7, Picture::First)],
        bytes: &[
            [15, 255, 172, 255],
            [0, 255, 255, 255],
            [5, 0, 0, 0],
            [0, 0, 0, 0],
        ],
        shorts: Some(&[
            [15, 427, 172, 319],
            [0, 284, 367, 319],
            [5, 0, 0, 0],
            [0, 0, 0, 0],
        ]),
        ..FILTERED
    },
];

#[test]
fn effects_of_an_area(rt: HostRuntime) {
    effect_rows(&rt, &ROWS);
}
