//! Effects that make each pixel of the one at its place: all their actions, and pixels worked by hand at both depths.
use crate::asking::{Picture, Row, effect_rows};
use crate::rows::{BYTES, FILTERED, SAMPLES, SOURCE_CLIP};
use fx_params::ParamKind;

static ROWS: [Row; 7] = [
    Row {
        used: r#""effect":"invert","clips":{"Source":"s"}"#,
        label: "invert",
        sources: &[(0, 7, Picture::First)],
        bytes: &[[118, 0, 98, 128], [255, 0, 1, 255]],
        shorts: Some(&[[118, 0, 98, 128], [255, 0, 1, 255]]),
        ..FILTERED
    },
    Row {
        used: r#""effect":"gain","clips":{"Source":"s"},"params":{"gain":"1.5"}"#,
        label: "gain",
        clips: &SOURCE_CLIP,
        params: &[("gain", ParamKind::Fix, 0, 1048576, 65536, &[])],
        sources: &[(0, 7, Picture::First)],
        bytes: &[[15, 255, 45, 128], [0, 255, 255, 255], [5, 3, 2, 0]],
        shorts: Some(&[[15, 300, 45, 128], [0, 383, 381, 255], [5, 3, 2, 0]]),
        ..FILTERED
    },
    Row {
        used: r#""effect":"premult","clips":{"Source":"s"}"#,
        label: "premult",
        sources: &[(0, 7, Picture::First)],
        bytes: &[[5, 100, 15, 128], [0, 255, 254, 255]],
        shorts: Some(&[[0, 0, 0, 128], [0, 1, 1, 255]]),
        ..FILTERED
    },
    Row {
        used: r#""effect":"unpremult","clips":{"Source":"s"}"#,
        label: "unpremult",
        sources: &[(0, 7, Picture::First)],
        bytes: &[[20, 255, 60, 128], [0, 255, 254, 255]],
        shorts: Some(&[[5120, 65535, 15360, 128], [0, 65535, 65278, 255]]),
        ..FILTERED
    },
    Row {
        used: r#""effect":"shuffle","clips":{"Source":"s"},"params":{"r":"a","g":"zero","b":"r","a":"g"}"#,
        label: "shuffle",
        params: &[
            ("r", ParamKind::Choice, 0, 4, 0, &SAMPLES),
            ("g", ParamKind::Choice, 0, 4, 1, &SAMPLES),
            ("b", ParamKind::Choice, 0, 4, 2, &SAMPLES),
            ("a", ParamKind::Choice, 0, 4, 3, &SAMPLES),
        ],
        sources: &[(0, 7, Picture::First)],
        bytes: &[[128, 0, 10, 200], [255, 0, 0, 255], [0, 0, 3, 2]],
        shorts: Some(&[[128, 0, 10, 200], [255, 0, 0, 255], [0, 0, 3, 2]]),
        ..FILTERED
    },
    Row {
        used: r#""effect":"saturation","clips":{"Source":"s"},"params":{"amount":"1.5"}"#,
        label: "saturation",
        params: &[("amount", ParamKind::Fix, 0, 262144, 65536, &[])],
        sources: &[(0, 7, Picture::First)],
        bytes: &[[0, 226, 0, 128], [0, 255, 255, 255], [3, 2, 0, 0]],
        shorts: Some(&[[0, 226, 0, 128], [0, 282, 280, 255], [3, 2, 0, 0]]),
        ..FILTERED
    },
    Row {
        used: r#""effect":"posterise","clips":{"Source":"s"},"params":{"levels":3}"#,
        label: "posterise",
        depths: &BYTES,
        params: &[("levels", ParamKind::Int, 2, 256, 256, &[])],
        sources: &[(0, 7, Picture::First)],
        bytes: &[[0, 255, 0, 128], [0, 255, 255, 255]],
        ..FILTERED
    },
];

#[test]
fn effects_of_one_pixel(rt: HostRuntime) {
    effect_rows(&rt, &ROWS);
}
