//! What the rows of the effects share: texts, frames, and rows of each kind that a test fills in.
use crate::asking::{Bounds, Clip, Frame, Picture, Row, Window};
use fx_effect::Identity;

pub const BOTH_DEPTHS: [&str; 2] = ["OfxBitDepthByte", "OfxBitDepthShort"];

pub const BYTES: [&str; 1] = ["OfxBitDepthByte"];

pub const RGBA: [&str; 1] = ["OfxImageComponentRGBA"];

pub const BOTH_COMPONENTS: [&str; 2] = ["OfxImageComponentRGBA", "OfxImageComponentAlpha"];

pub const GENERATOR: [&str; 2] = [
    "OfxImageEffectContextGenerator",
    "OfxImageEffectContextGeneral",
];

pub const FILTER: [&str; 2] = [
    "OfxImageEffectContextFilter",
    "OfxImageEffectContextGeneral",
];

pub const TRANSITION: [&str; 1] = ["OfxImageEffectContextTransition"];

pub const GENERAL: [&str; 1] = ["OfxImageEffectContextGeneral"];

pub const FULLY_SAFE: &str = "OfxImageEffectRenderFullySafe";

pub const INSTANCE_SAFE: &str = "OfxImageEffectRenderInstanceSafe";

pub const UNSAFE: &str = "OfxImageEffectRenderUnsafe";

pub const AXES: [&str; 2] = ["x", "y"];

pub const SAMPLES: [&str; 5] = ["r", "g", "b", "a", "zero"];

pub const OPERATIONS: [&str; 7] = ["over", "plus", "multiply", "screen", "min", "max", "minus"];

// The project's extent, and where the sources have pixels.
pub const PROJECT: Bounds = (0, 0, 3, 1);

pub const SOURCE: Bounds = (0, 0, 4, 1);

// What the time effects read at frame 7.
pub const NOW_AND_NEXT: [Frame; 2] = [(0, 7, Picture::First), (0, 8, Picture::Second)];

pub const BEFORE_AND_NOW: [Frame; 2] = [(0, 6, Picture::Second), (0, 7, Picture::First)];

// What the effects of several clips read.
pub const TWO_CLIPS: [Frame; 2] = [(0, 7, Picture::First), (1, 7, Picture::Second)];

pub const WITH_MASK: [Frame; 3] = [
    (0, 7, Picture::First),
    (1, 7, Picture::Second),
    (2, 7, Picture::Mask),
];

// Frames that are needed, of each clip.
pub const NEXT: [&[(i64, i64)]; 1] = [&[(8, 8)]];

pub const AROUND: [&[(i64, i64)]; 1] = [&[(6, 8)]];

pub const LAST_TWO: [&[(i64, i64)]; 1] = [&[(6, 6), (7, 7)]];

pub const OF_THREE: [&[(i64, i64)]; 3] = [&[(7, 7)], &[(7, 7)], &[(7, 7)]];

pub const SOURCE_CLIP: [Clip; 1] = [Clip {
    name: "Source",
    optional: 0,
    components: &["OfxImageComponentRGBA", "OfxImageComponentAlpha"],
}];

pub const KEYED_CLIPS: [Clip; 3] = [
    Clip {
        name: "A",
        optional: 0,
        components: &["OfxImageComponentRGBA", "OfxImageComponentAlpha"],
    },
    Clip {
        name: "B",
        optional: 0,
        components: &["OfxImageComponentRGBA", "OfxImageComponentAlpha"],
    },
    Clip {
        name: "Mask",
        optional: 1,
        components: &["OfxImageComponentAlpha"],
    },
];

// A generator over the project, asked for a window beyond it.
pub const GENERATED: Row = Row {
    used: "",
    width: 3,
    label: "",
    contexts: &GENERATOR,
    depths: &BOTH_DEPTHS,
    temporal: 0,
    tiles: 1,
    safety: FULLY_SAFE,
    clips: &[],
    params: &[],
    window: Window::Right,
    region: PROJECT,
    interest: &[],
    frames: &[],
    identity: Identity::No,
    sources: &[],
    bytes: &[],
    shorts: None,
};

// A filter for RGBA at frame 7, whose answers are the defaults.
pub const FILTERED: Row = Row {
    used: "",
    width: 3,
    label: "",
    contexts: &FILTER,
    depths: &BOTH_DEPTHS,
    temporal: 0,
    tiles: 1,
    safety: FULLY_SAFE,
    clips: &[Clip {
        name: "Source",
        optional: 0,
        components: &RGBA,
    }],
    params: &[],
    window: Window::Right,
    region: SOURCE,
    interest: &[(1, 0, 5, 1)],
    frames: &[&[(7, 7)]],
    identity: Identity::No,
    sources: &[],
    bytes: &[],
    shorts: None,
};

pub const MIXED: Row = Row {
    used: "",
    width: 3,
    label: "",
    contexts: &TRANSITION,
    depths: &BOTH_DEPTHS,
    temporal: 0,
    tiles: 1,
    safety: FULLY_SAFE,
    clips: &[
        Clip {
            name: "SourceFrom",
            optional: 0,
            components: &BOTH_COMPONENTS,
        },
        Clip {
            name: "SourceTo",
            optional: 0,
            components: &BOTH_COMPONENTS,
        },
    ],
    params: &[],
    window: Window::Right,
    region: SOURCE,
    interest: &[(1, 0, 5, 1), (1, 0, 5, 1)],
    frames: &[&[(7, 7)], &[(7, 7)]],
    identity: Identity::No,
    sources: &[],
    bytes: &[],
    shorts: None,
};

pub const MERGED: Row = Row {
    used: "",
    width: 3,
    label: "",
    contexts: &GENERAL,
    depths: &BOTH_DEPTHS,
    temporal: 0,
    tiles: 1,
    safety: FULLY_SAFE,
    clips: &[
        Clip {
            name: "A",
            optional: 0,
            components: &BOTH_COMPONENTS,
        },
        Clip {
            name: "B",
            optional: 0,
            components: &BOTH_COMPONENTS,
        },
    ],
    params: &[],
    window: Window::Right,
    region: SOURCE,
    interest: &[(1, 0, 5, 1), (1, 0, 5, 1)],
    frames: &[&[(7, 7)], &[(7, 7)]],
    identity: Identity::No,
    sources: &[],
    bytes: &[],
    shorts: None,
};
