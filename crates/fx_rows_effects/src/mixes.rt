//! Effects of several clips: all their actions, and pixels worked by hand at both depths.
use crate::asking::{Row, effect_rows};
use crate::rows::{KEYED_CLIPS, MERGED, MIXED, OF_THREE, OPERATIONS, TWO_CLIPS, WITH_MASK};
use fx_params::ParamKind;

static ROWS: [Row; 4] = [
    Row {
        used: r#""effect":"dissolve","clips":{"SourceFrom":"s","SourceTo":"t"},"params":{"Transition":"0.5"}"#,
        label: "dissolve",
        params: &[("Transition", ParamKind::Fix, 0, 65536, 0, &[])],
        sources: &TWO_CLIPS,
        bytes: &[[15, 100, 15, 192], [0, 128, 127, 128], [129, 129, 128, 128]],
        shorts: Some(&[[15, 100, 15, 192], [0, 128, 127, 128], [129, 129, 128, 128]]),
        ..MIXED
    },
    Row {
        used: r#""effect":"wipe","clips":{"SourceFrom":"s","SourceTo":"t"},"params":{"Transition":"0.666672"}"#,
        label: "wipe",
        params: &[("Transition", ParamKind::Fix, 0, 65536, 0, &[])],
        sources: &TWO_CLIPS,
        bytes: &[[20, 0, 0, 255], [0, 255, 254, 255], [3, 2, 1, 0]],
        shorts: Some(&[[20, 0, 0, 255], [0, 255, 254, 255], [3, 2, 1, 0]]),
        ..MIXED
    },
    Row {
        used: r#""effect":"merge","clips":{"A":"s","B":"t"},"params":{"operation":"over"}"#,
        label: "merge",
        params: &[("operation", ParamKind::Choice, 0, 6, 0, &OPERATIONS)],
        sources: &TWO_CLIPS,
        bytes: &[[20, 200, 30, 255], [0, 255, 254, 255], [255, 255, 255, 255]],
        shorts: Some(&[[30, 200, 30, 383], [0, 255, 254, 255], [258, 257, 256, 255]]),
        ..MERGED
    },
    Row {
        used: r#""effect":"keymix","clips":{"A":"s","B":"t","Mask":"m"}"#,
        label: "keymix",
        clips: &KEYED_CLIPS,
        interest: &[(1, 0, 5, 1), (1, 0, 5, 1), (1, 0, 5, 1)],
        frames: &OF_THREE,
        sources: &WITH_MASK,
        bytes: &[[15, 100, 15, 191], [0, 0, 0, 0], [3, 2, 1, 0]],
        shorts: Some(&[[20, 0, 0, 255], [0, 0, 0, 0], [254, 254, 254, 254]]),
        ..MERGED
    },
];

#[test]
fn effects_of_several_clips(rt: HostRuntime) {
    effect_rows(&rt, &ROWS);
}
