//! Graphs that are made of numbers, with the files of their sources.
ghost use Rattle.std.specs.Prelude.{◌<◌, ◌≤◌};

use crate::files::add_file;
use crate::worked::Whole;
use fx_base::Name;
use std::process::Abort;

// Numbers drawn from a number, by a linear congruential generator of 32 bits.
#[derive(Drop)]
struct Draws {
    state: u32,
}

impl Draws {
    // A number from 0 on that is less than the count.
    fn below(&mut self, count: u32) -> u32
        requires { 1 ≤ count }
        ensures { result < count }
    {
        let next = self.state.wrapping_mul(1_664_525);
        self.state = next.wrapping_add(1_013_904_223);
        (self.state / 65536) % count
    }

    // One of these.
    fn one_of<T: Copy>(&mut self, rt: &impl Abort, choices: &[T]) -> T {
        let index = self.below(65536) as usize % choices.len().max(1);
        *choices.get(index).expect(rt, "nothing to choose from")
    }
}

// A parameter, and texts of its values.
type Param = (&'static str, &'static [&'static str]);

// An effect, its clips and its parameters.
type Effect = (&'static str, &'static [&'static str], &'static [Param]);

const LEVELS: &[&str] = &[
    "0",
    "1",
    r#""0.5""#,
    r#""0.3""#,
    r#"{"keys":[[0,0],[2,1]]}"#,
];

const RADII: &[&str] = &["0", "1", "2"];

const CORNERS: &[&str] = &["-2", "0", "3", "7"];

const SIDES: &[&str] = &["1", "6", "16384"];

const WAYS: &[&str] = &[
    "0",
    "1",
    "-3",
    r#""0.5""#,
    r#""-2.25""#,
    r#"{"keys":[[0,-9],[2,"4.5"]]}"#,
];

const OPERATIONS: &[&str] = &[
    r#""over""#,
    r#""plus""#,
    r#""multiply""#,
    r#""screen""#,
    r#""min""#,
    r#""max""#,
    r#""minus""#,
];

const EFFECTS: &[Effect] = &[
    ("invert", &["Source"], &[]),
    (
        "gain",
        &["Source"],
        &[("gain", &["1", r#""0.5""#, r#""1.75""#])],
    ),
    ("premult", &["Source"], &[]),
    ("unpremult", &["Source"], &[]),
    (
        "shuffle",
        &["Source"],
        &[
            ("r", &[r#""r""#, r#""a""#]),
            ("b", &[r#""b""#, r#""zero""#]),
        ],
    ),
    (
        "saturation",
        &["Source"],
        &[("amount", &["0", "1", r#""1.5""#])],
    ),
    ("posterise", &["Source"], &[("levels", &["2", "5", "256"])]),
    ("boxblur", &["Source"], &[("rx", RADII), ("ry", RADII)]),
    ("erode", &["Source"], &[("radius", RADII)]),
    ("dilate", &["Source"], &[("radius", RADII)]),
    (
        "convolve3",
        &["Source"],
        &[
            ("k1", &["0", "-1"]),
            ("k6", &["0", "2"]),
            ("divisor", &["1", "3"]),
        ],
    ),
    (
        "crop",
        &["Source"],
        &[
            ("x", CORNERS),
            ("y", CORNERS),
            ("width", SIDES),
            ("height", SIDES),
        ],
    ),
    ("mirror", &["Source"], &[("axis", &[r#""x""#, r#""y""#])]),
    ("translate", &["Source"], &[("dx", WAYS), ("dy", WAYS)]),
    (
        "timeoffset",
        &["Source"],
        &[("offset", &["-1", "0", "1", "5"])],
    ),
    ("frameblend", &["Source"], &[("radius", RADII)]),
    ("framediff", &["Source"], &[("gap", &["1", "2"])]),
    (
        "echo",
        &["Source"],
        &[("count", RADII), ("gap", &["1", "2"])],
    ),
    (
        "dissolve",
        &["SourceFrom", "SourceTo"],
        &[("Transition", LEVELS)],
    ),
    (
        "wipe",
        &["SourceFrom", "SourceTo"],
        &[("Transition", LEVELS)],
    ),
    ("merge", &["A", "B"], &[("operation", OPERATIONS)]),
    ("keymix", &["A", "B"], &[]),
    ("keymix", &["A", "B", "Mask"], &[]),
    ("autogain", &["Source"], &[]),
];

const GENERATORS: &[&str] = &[
    r#""solid","params":{"r":1,"g":"0.5","a":"0.75"}"#,
    r#""checker","params":{"size":3,"level":"0.8"}"#,
    r#""ramp""#,
    r#""ramp","params":{"axis":"y"}"#,
    r#""grain","params":{"seed":9}"#,
];

const DEPTHS: &[&str] = &["byte", "short"];

const COMPONENTS: &[&str] = &["RGBA", "RGBA", "Alpha"];

// What a source has besides its frames.
const MEMBERS: &[&str] = &[
    "",
    r#","outside":"hold""#,
    r#","outside":"hold","depth":"byte""#,
    r#","depth":"short","components":"RGBA""#,
    r#","outside":"hold","components":"Alpha""#,
];

// Appends a member to those of an object.
fn add_member(rt: &(impl Abort + AllocGlobal), members: &mut String, name: &str, value: &str) {
    let comma = if members.is_empty() { "" } else { "," };
    let member = format!(in rt.alloc(); r#"{comma}"{name}":{value}"#);
    let member = member.expect(rt, "no text");
    members.push_str(member.as_str()).expect(rt, "no text");
}

// The clips of a node of this number: the first is the node before it, each other one is any that stands before it.
fn clips_text(
    rt: &(impl Abort + AllocGlobal),
    draws: &mut Draws,
    number: u32,
    clips: &[&str],
) -> String
    requires { 1 ≤ number }
{
    let mut members = String::new(rt.alloc());
    let mut node = number - 1;
    for clip in clips {
        let value = format!(in rt.alloc(); r#""{node}""#).expect(rt, "no text");
        add_member(rt, &mut members, clip, value.as_str());
        node = draws.below(number);
    }
    members
}

fn params_text(rt: &(impl Abort + AllocGlobal), draws: &mut Draws, params: &[Param]) -> String {
    let mut members = String::new(rt.alloc());
    for &(name, values) in params {
        let value = draws.one_of(rt, values);
        add_member(rt, &mut members, name, value);
    }
    members
}

// Appends a node of this number, of any effect.
fn add_effect(
    rt: &(impl Abort + AllocGlobal),
    draws: &mut Draws,
    number: u32,
    name: &str,
    nodes: &mut String,
)
    requires { 1 ≤ number }
{
    let (effect, clips, params) = draws.one_of(rt, EFFECTS);
    let clips = clips_text(rt, draws, number, clips);
    let params = params_text(rt, draws, params);
    let node = format!(in rt.alloc();
        r#",{{"name":"{name}","effect":"{effect}","clips":{{{clips}}},"params":{{{params}}}}}"#
    ).expect(rt, "no text");
    nodes.push_str(node.as_str()).expect(rt, "no text");
}

// A generator, a source of one frame, and one of three.
fn sources_text(rt: &(impl Abort + AllocGlobal), draws: &mut Draws) -> String {
    let generator = draws.one_of(rt, GENERATORS);
    let still = draws.one_of(rt, MEMBERS);
    let shot = draws.one_of(rt, MEMBERS);
    format!(in rt.alloc();
        r#"{{"name":"0","effect":{generator}}},{{"name":"1","source":"t.pam","first":1,"last":1{still}}},{{"name":"2","source":"s#.pam","first":0,"last":2{shot}}}"#
    ).expect(rt, "no text")
}

// The sources and so many effects, of which each reads the node before it, and the last is the node n.
fn nodes_text(rt: &(impl Abort + AllocGlobal), draws: &mut Draws, effects: u32) -> String
    requires { (1 ≤ effects) × (effects ≤ 5) }
{
    let mut nodes = sources_text(rt, draws);
    for number in 3..effects + 2 {
        let name = format!(in rt.alloc(); "{number}").expect(rt, "no text");
        add_effect(rt, draws, number, name.as_str(), &mut nodes);
    }
    add_effect(rt, draws, effects + 2, "n", &mut nodes);
    nodes
}

// The graph's text, over a picture of 5 to 24 pixels by 5 to 12, lying or standing.
fn graph_text(rt: &(impl Abort + AllocGlobal), draws: &mut Draws, effects: u32) -> String
    requires { (1 ≤ effects) × (effects ≤ 5) }
{
    let (long, short) = (5 + draws.below(20), 5 + draws.below(8));
    let (width, height) = draws.one_of(rt, &[(long, short), (short, long)]);
    let depth = draws.one_of(rt, DEPTHS);
    let components = draws.one_of(rt, COMPONENTS);
    let format = draws.one_of(rt, &["RGB_ALPHA", "RGB", "GRAYSCALE"]);
    let project = format!(in rt.alloc();
        r#""width":{width},"height":{height},"depth":"{depth}","components":"{components}""#
    ).expect(rt, "no text");
    let nodes = nodes_text(rt, draws, effects);
    let whole = Whole {
        project: project.as_str(),
        format,
        last: 2,
        nodes: nodes.as_str(),
    };
    whole.text(rt)
}

// The bytes of a file of 1 to 24 pixels a side, of any depth, with samples of one byte or two.
fn drawn_bytes(rt: &(impl Abort + AllocGlobal), draws: &mut Draws) -> Vec<u8> {
    let (width, height) = (1 + draws.below(24), 1 + draws.below(24));
    let (depth, size) = (1 + draws.below(4), 1 + draws.below(2));
    let most = if size == 1 { 255 } else { 65535 };
    let head = format!(in rt.alloc();
        "P7\nWIDTH {width}\nHEIGHT {height}\nDEPTH {depth}\nMAXVAL {most}\nENDHDR\n"
    ).expect(rt, "no header");
    let mut bytes = head.as_bytes().to_vec(rt.alloc()).expect(rt, "no bytes");
    for _ in 0..width * height {
        for _ in 0..depth * size {
            let sample = draws.below(256) as u8;
            bytes.push(sample).expect(rt, "no byte");
        }
    }
    bytes
}

/// A graph's text, and the files of its sources.
#[derive(Drop)]
pub(crate) struct NumberGraph {
    pub(crate) text: String,
    pub(crate) files: Vec<(Name, Vec<u8>)>,
}

/// The graph of a number, of so many effects.
pub(crate) fn draw_graph(rt: &(impl Abort + AllocGlobal), number: u32, effects: u32) -> NumberGraph
    requires { (1 ≤ effects) × (effects ≤ 5) }
{
    let mut draws = Draws { state: number };
    let text = graph_text(rt, &mut draws, effects);
    let mut files = Vec::new(rt.alloc());
    for name in ["s0.pam", "s1.pam", "s2.pam", "t.pam"] {
        add_file(rt, &mut files, name, drawn_bytes(rt, &mut draws));
    }
    NumberGraph { text, files }
}
