//! Effects that render no tiles: all their actions, and pixels worked by hand at both depths.
use crate::asking::{Picture, Row, Window, effect_rows};
use crate::rows::{FILTERED, PROJECT};

static ROWS: [Row; 4] = [
    // The level, 200, lies left of the window; a of the window's first pixel and what lies right of the project are greater.
    Row {
        used: r#""effect":"autogain","clips":{"Source":"s"}"#,
        label: "autogain",
        tiles: 0,
        region: PROJECT,
        interest: &[(0, 0, 3, 1)],
        sources: &[(0, 7, Picture::Dim)],
        bytes: &[[128, 38, 9, 255], [0, 0, 254, 201]],
        shorts: Some(&[[32768, 9830, 2294, 255], [0, 0, 65207, 201]]),
        ..FILTERED
    },
    // The project's last two columns are black.
    Row {
        used: r#""effect":"autogain","context":"general","clips":{"Source":"s"}"#,
        width: 6,
        label: "autogain",
        tiles: 0,
        interest: &[(0, 0, 6, 1)],
        sources: &[(0, 7, Picture::Dim)],
        bytes: &[[102, 31, 7, 255], [0, 0, 203, 201], [255, 255, 255, 250]],
        ..FILTERED
    },
    // Black stays black, and its a is kept.
    Row {
        used: r#""effect":"autogain","clips":{"Source":"s"}"#,
        label: "autogain",
        tiles: 0,
        region: PROJECT,
        interest: &[(0, 0, 3, 1)],
        sources: &[(0, 7, Picture::Mask)],
        bytes: &[[0, 0, 0, 128]],
        ..FILTERED
    },
    // A half is rounded up.
    Row {
        used: r#""effect":"autogain","clips":{"Source":"s"}"#,
        width: 2,
        label: "autogain",
        tiles: 0,
        window: Window::Left,
        region: (0, 0, 2, 1),
        interest: &[(0, 0, 2, 1)],
        sources: &[(0, 7, Picture::Greys)],
        bytes: &[[128, 128, 128, 255], [255, 255, 255, 255]],
        ..FILTERED
    },
];

#[test]
fn effects_without_tiles(rt: HostRuntime) {
    effect_rows(&rt, &ROWS);
}
