//! Generators: all their actions, and pixels worked by hand at both depths.
use crate::asking::{Row, effect_rows};
use crate::rows::{AXES, GENERATED};
use fx_params::ParamKind;

static ROWS: [Row; 4] = [
    Row {
        used: r#""effect":"solid","params":{"r":"1","g":"0.5","b":"0","a":"0.499985"}"#,
        label: "solid",
        params: &[
            ("r", ParamKind::Fix, 0, 65536, 0, &[]),
            ("g", ParamKind::Fix, 0, 65536, 0, &[]),
            ("b", ParamKind::Fix, 0, 65536, 0, &[]),
            ("a", ParamKind::Fix, 0, 65536, 65536, &[]),
        ],
        bytes: &[[255, 128, 0, 127], [255, 128, 0, 127]],
        shorts: Some(&[[65535, 32768, 0, 32767], [65535, 32768, 0, 32767]]),
        ..GENERATED
    },
    Row {
        used: r#""effect":"checker","params":{"size":2,"level":"0.5"}"#,
        label: "checker",
        params: &[
            ("size", ParamKind::Int, 1, 4096, 16, &[]),
            ("level", ParamKind::Fix, 0, 65536, 65536, &[]),
        ],
        bytes: &[[128, 128, 128, 255], [0, 0, 0, 255]],
        shorts: Some(&[[32768, 32768, 32768, 65535], [0, 0, 0, 65535]]),
        ..GENERATED
    },
    Row {
        used: r#""effect":"ramp","params":{"axis":"x"}"#,
        label: "ramp",
        params: &[("axis", ParamKind::Choice, 0, 1, 0, &AXES)],
        bytes: &[[128, 128, 128, 255], [255, 255, 255, 255]],
        shorts: Some(&[[32768, 32768, 32768, 65535], [65535, 65535, 65535, 65535]]),
        ..GENERATED
    },
    Row {
        used: r#""effect":"grain","params":{"seed":5,"amount":"0.5"}"#,
        label: "grain",
        params: &[
            ("seed", ParamKind::Int, 0, 999999, 0, &[]),
            ("amount", ParamKind::Fix, 0, 65536, 65536, &[]),
        ],
        bytes: &[[69, 69, 69, 255], [34, 34, 34, 255]],
        shorts: Some(&[[17821, 17821, 17821, 65535], [8842, 8842, 8842, 65535]]),
        ..GENERATED
    },
];

#[test]
fn generators_make(rt: HostRuntime) {
    effect_rows(&rt, &ROWS);
}
