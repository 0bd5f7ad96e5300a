//! Effects that read other frames: all their actions, and pixels worked by hand at both depths.
use crate::asking::{Row, effect_rows};
use crate::rows::{
    AROUND, BEFORE_AND_NOW, FILTERED, LAST_TWO, NEXT, NOW_AND_NEXT, SOURCE_CLIP, UNSAFE,
};
use fx_effect::Identity;
use fx_params::ParamKind;

static ROWS: [Row; 4] = [
    Row {
        used: r#""effect":"timeoffset","clips":{"Source":"s"},"params":{"offset":-1}"#,
        label: "timeoffset",
        temporal: 1,
        clips: &SOURCE_CLIP,
        params: &[("offset", ParamKind::Int, -100000, 100000, 0, &[])],
        frames: &NEXT,
        identity: Identity::Same { clip: 0, frame: 8 },
        sources: &NOW_AND_NEXT,
        bytes: &[[20, 0, 0, 255], [0, 0, 0, 0], [255, 255, 255, 255]],
        shorts: Some(&[[20, 0, 0, 255], [0, 0, 0, 0], [255, 255, 255, 255]]),
        ..FILTERED
    },
    Row {
        used: r#""effect":"frameblend","clips":{"Source":"s"},"params":{"radius":1}"#,
        label: "frameblend",
        temporal: 1,
        safety: UNSAFE,
        clips: &SOURCE_CLIP,
        params: &[("radius", ParamKind::Int, 0, 16, 1, &[])],
        frames: &AROUND,
        sources: &NOW_AND_NEXT,
        bytes: &[[10, 67, 10, 128], [0, 85, 85, 85], [86, 86, 85, 85]],
        shorts: Some(&[[10, 67, 10, 128], [0, 85, 85, 85], [86, 86, 85, 85]]),
        ..FILTERED
    },
    Row {
        used: r#""effect":"framediff","clips":{"Source":"s"},"params":{"gap":1}"#,
        label: "framediff",
        temporal: 1,
        clips: &SOURCE_CLIP,
        params: &[("gap", ParamKind::Int, 1, 16, 1, &[])],
        frames: &LAST_TWO,
        sources: &BEFORE_AND_NOW,
        bytes: &[[10, 200, 30, 255], [0, 255, 254, 255], [252, 253, 254, 255]],
        shorts: Some(&[[10, 200, 30, 255], [0, 255, 254, 255], [252, 253, 254, 255]]),
        ..FILTERED
    },
    Row {
        used: r#""effect":"echo","clips":{"Source":"s"},"params":{"count":1,"gap":1}"#,
        label: "echo",
        temporal: 1,
        clips: &SOURCE_CLIP,
        params: &[
            ("count", ParamKind::Int, 0, 8, 2, &[]),
            ("gap", ParamKind::Int, 1, 8, 1, &[]),
        ],
        frames: &LAST_TWO,
        sources: &BEFORE_AND_NOW,
        bytes: &[[10, 200, 30, 128], [0, 255, 254, 255], [127, 127, 127, 127]],
        shorts: Some(&[[10, 200, 30, 128], [0, 255, 254, 255], [127, 127, 127, 127]]),
        ..FILTERED
    },
];

#[test]
fn effects_of_other_frames(rt: HostRuntime) {
    effect_rows(&rt, &ROWS);
}
