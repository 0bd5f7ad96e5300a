//! Graphs whose pictures the cases of fx_cases have, worked by hand, and the files that they read.
use crate::files::add_file;
use fx_outside::SureLibrary;
use std::process::Abort;

/// A graph whose output is the node `n`, whose files are `o#.pam` and whose range begins at 0: the project's members,
/// the format of the files, the last frame, and the nodes.
#[derive(Clone, Copy)]
pub(crate) struct Whole<'a> {
    pub(crate) project: &'a str,
    pub(crate) format: &'a str,
    pub(crate) last: u32,
    pub(crate) nodes: &'a str,
}

impl Whole<'_> {
    pub(crate) fn text(&self, rt: &(impl Abort + AllocGlobal)) -> String {
        let Whole {
            project,
            format,
            last,
            nodes,
        } = *self;
        format!(in rt.alloc();
            r#"{{"ofxr":1,"project":{{{project}}},"output":{{"node":"n","file":"o#.pam","format":"{format}"}},"range":{{"first":0,"last":{last}}},"nodes":[{nodes}]}}"#
        ).expect(rt, "no text")
    }
}

// Each file that a graph reads.
const FILES: &[(&str, &[u8])] = &[
    (
        "s.pam",
        b"P7\nWIDTH 3\nHEIGHT 1\nDEPTH 1\nMAXVAL 255\nENDHDR\n\x00\xff\x00",
    ),
    (
        "t.pam",
        b"P7\nWIDTH 3\nHEIGHT 1\nDEPTH 1\nMAXVAL 255\nENDHDR\n\x01\x02\x03",
    ),
    (
        "p.pam",
        b"P7\nWIDTH 1\nHEIGHT 1\nDEPTH 4\nMAXVAL 255\nENDHDR\n\x64\xc8\x00\x80",
    ),
    (
        "w.pam",
        b"P7\nWIDTH 1\nHEIGHT 1\nDEPTH 1\nMAXVAL 65535\nENDHDR\n\x80\x00",
    ),
    (
        "f0.pam",
        b"P7\nWIDTH 1\nHEIGHT 1\nDEPTH 1\nMAXVAL 255\nENDHDR\n\x1e",
    ),
    (
        "f1.pam",
        b"P7\nWIDTH 1\nHEIGHT 1\nDEPTH 1\nMAXVAL 255\nENDHDR\n\x3c",
    ),
    (
        "a.pam",
        b"P7\nWIDTH 1\nHEIGHT 1\nDEPTH 4\nMAXVAL 255\nENDHDR\n\x64\x64\x64\x80",
    ),
    (
        "b.pam",
        b"P7\nWIDTH 1\nHEIGHT 1\nDEPTH 4\nMAXVAL 255\nENDHDR\n\xc8\xc8\xc8\xff",
    ),
    (
        "m.pam",
        b"P7\nWIDTH 1\nHEIGHT 1\nDEPTH 2\nMAXVAL 255\nENDHDR\n\x4d\x80",
    ),
];

/// The library of these files.
pub(crate) fn library(rt: &(impl Abort + AllocGlobal)) -> SureLibrary {
    let mut files = Vec::new(rt.alloc());
    for (name, bytes) in FILES {
        let bytes = bytes.to_vec(rt.alloc()).expect(rt, "no bytes");
        add_file(rt, &mut files, name, bytes);
    }
    SureLibrary::new(rt.alloc(), files)
}

/// Graphs of several nodes.
pub(crate) const GRAPHS: &[Whole<'static>] = &[
    Whole {
        project: r#""width":5,"height":1,"depth":"byte","components":"RGBA""#,
        format: "RGB_ALPHA",
        last: 0,
        nodes: r#"{"name":"s","source":"s.pam","first":0,"last":0,"outside":"hold"},{"name":"b","effect":"boxblur","clips":{"Source":"s"},"params":{"rx":1,"ry":0}},{"name":"n","effect":"translate","clips":{"Source":"b"},"params":{"dx":1}}"#,
    },
    Whole {
        project: r#""width":2,"height":1,"depth":"byte","components":"RGBA""#,
        format: "RGB_ALPHA",
        last: 0,
        nodes: r#"{"name":"s","source":"s.pam","first":0,"last":0,"outside":"hold"},{"name":"n","effect":"translate","clips":{"Source":"s"},"params":{"dx":"0.5"}}"#,
    },
    Whole {
        project: r#""width":2,"height":1,"depth":"byte","components":"RGBA""#,
        format: "RGB_ALPHA",
        last: 0,
        nodes: r#"{"name":"s","source":"s.pam","first":0,"last":0,"outside":"hold"},{"name":"n","effect":"translate","clips":{"Source":"s"},"params":{"dx":"-0.5"}}"#,
    },
    Whole {
        project: r#""width":1,"height":1,"depth":"byte","components":"RGBA""#,
        format: "RGB_ALPHA",
        last: 0,
        nodes: r#"{"name":"f","source":"f#.pam","first":0,"last":2},{"name":"n","effect":"frameblend","clips":{"Source":"f"},"params":{"radius":1}}"#,
    },
    Whole {
        project: r#""width":1,"height":1,"depth":"byte","components":"RGBA""#,
        format: "RGB_ALPHA",
        last: 0,
        nodes: r#"{"name":"f","source":"f#.pam","first":0,"last":2,"outside":"hold"},{"name":"n","effect":"frameblend","clips":{"Source":"f"},"params":{"radius":1}}"#,
    },
    Whole {
        project: r#""width":1,"height":1,"depth":"byte","components":"RGBA""#,
        format: "RGB_ALPHA",
        last: 0,
        nodes: r#"{"name":"f","source":"f.pam","first":0,"last":0},{"name":"n","effect":"timeoffset","clips":{"Source":"f"},"params":{"offset":5}}"#,
    },
    Whole {
        project: r#""width":1,"height":1,"depth":"byte","components":"RGBA""#,
        format: "RGB_ALPHA",
        last: 0,
        nodes: r#"{"name":"a","source":"a.pam","first":0,"last":0,"outside":"hold"},{"name":"b","source":"b.pam","first":0,"last":0,"outside":"hold"},{"name":"n","effect":"dissolve","clips":{"SourceFrom":"a","SourceTo":"b"},"params":{"Transition":"0.5"}}"#,
    },
    Whole {
        project: r#""width":1,"height":1,"depth":"byte","components":"RGBA""#,
        format: "RGB_ALPHA",
        last: 2,
        nodes: r#"{"name":"a","source":"a.pam","first":0,"last":0,"outside":"hold"},{"name":"b","source":"b.pam","first":0,"last":0,"outside":"hold"},{"name":"n","effect":"dissolve","clips":{"SourceFrom":"a","SourceTo":"b"},"params":{"Transition":{"keys":[[0,0],[2,1]]}}}"#,
    },
    Whole {
        project: r#""width":1,"height":1,"depth":"byte","components":"RGBA""#,
        format: "RGB_ALPHA",
        last: 2,
        nodes: r#"{"name":"a","source":"a.pam","first":0,"last":0,"outside":"hold"},{"name":"b","source":"b.pam","first":0,"last":0,"outside":"hold"},{"name":"n","effect":"dissolve","clips":{"SourceFrom":"a","SourceTo":"b"},"params":{"Transition":{"keys":[[0,0],[2,1]],"step":true}}}"#,
    },
    Whole {
        project: r#""width":1,"height":1,"depth":"short","components":"RGBA""#,
        format: "RGB_ALPHA",
        last: 0,
        nodes: r#"{"name":"s","source":"w.pam","first":0,"last":0,"outside":"hold"},{"name":"n","effect":"posterise","clips":{"Source":"s"},"params":{"levels":256}}"#,
    },
    Whole {
        project: r#""width":1,"height":1,"depth":"byte","components":"RGBA""#,
        format: "RGB_ALPHA",
        last: 0,
        nodes: r#"{"name":"a","source":"a.pam","first":0,"last":0,"outside":"hold"},{"name":"b","source":"b.pam","first":0,"last":0,"outside":"hold"},{"name":"n","effect":"keymix","clips":{"A":"a","B":"b"}}"#,
    },
    Whole {
        project: r#""width":1,"height":1,"depth":"byte","components":"RGBA""#,
        format: "RGB_ALPHA",
        last: 0,
        nodes: r#"{"name":"a","source":"a.pam","first":0,"last":0,"outside":"hold"},{"name":"b","source":"b.pam","first":0,"last":0,"outside":"hold"},{"name":"m","source":"m.pam","first":0,"last":0,"outside":"hold"},{"name":"n","effect":"keymix","clips":{"A":"a","B":"b","Mask":"m"}}"#,
    },
    Whole {
        project: r#""width":3,"height":1,"depth":"byte","components":"RGBA""#,
        format: "RGB_ALPHA",
        last: 0,
        nodes: r#"{"name":"n","effect":"ramp"}"#,
    },
    Whole {
        project: r#""width":1,"height":1,"depth":"byte","components":"RGBA""#,
        format: "RGB_ALPHA",
        last: 0,
        nodes: r#"{"name":"a","source":"a.pam","first":0,"last":0,"outside":"hold"},{"name":"b","source":"b.pam","first":0,"last":0,"outside":"hold"},{"name":"n","effect":"merge","clips":{"A":"a","B":"b"}}"#,
    },
    Whole {
        project: r#""width":1,"height":1,"depth":"byte","components":"RGBA""#,
        format: "RGB",
        last: 0,
        nodes: r#"{"name":"n","source":"p.pam","first":0,"last":0}"#,
    },
    Whole {
        project: r#""width":1,"height":1,"depth":"byte","components":"RGBA""#,
        format: "GRAYSCALE",
        last: 0,
        nodes: r#"{"name":"n","source":"p.pam","first":0,"last":0}"#,
    },
    Whole {
        project: r#""width":1,"height":1,"depth":"byte","components":"Alpha""#,
        format: "RGB_ALPHA",
        last: 0,
        nodes: r#"{"name":"n","effect":"solid","params":{"a":"0.5"}}"#,
    },
    Whole {
        project: r#""width":1,"height":1,"depth":"short","components":"Alpha""#,
        format: "GRAYSCALE",
        last: 0,
        nodes: r#"{"name":"n","effect":"solid","params":{"a":"0.5"}}"#,
    },
    Whole {
        project: r#""width":2,"height":1,"depth":"byte","components":"RGBA""#,
        format: "RGB_ALPHA",
        last: 0,
        nodes: r#"{"name":"n","effect":"solid","params":{"r":1,"g":"0.5","b":0,"a":1}}"#,
    },
];

// Black outside of their frame 0: a strip, another one, and a pixel that is half transparent.
const SOURCES: &str =
    r#"{"name":"s","source":"s.pam","first":0,"last":0},{"name":"t","source":"t.pam","first":0,"last":0},{"name":"p","source":"p.pam","first":0,"last":0}"#;

/// The effect of the node `n` over one row of so many pixels, and a frame.
pub(crate) type Strip = (&'static str, u32, u32);

/// One effect each.
pub(crate) const STRIPS: &[Strip] = &[
    (r#""erode","clips":{"Source":"s"}"#, 3, 0),
    (r#""dilate","clips":{"Source":"s"}"#, 3, 0),
    (
        r#""convolve3","clips":{"Source":"s"},"params":{"k4":-1}"#,
        3,
        0,
    ),
    (
        r#""crop","clips":{"Source":"s"},"params":{"x":1,"width":1}"#,
        3,
        0,
    ),
    (r#""mirror","clips":{"Source":"s"}"#, 3, 0),
    (r#""framediff","clips":{"Source":"s"}"#, 3, 0),
    (
        r#""wipe","clips":{"SourceFrom":"s","SourceTo":"t"},"params":{"Transition":"0.5"}"#,
        3,
        0,
    ),
    (
        r#""echo","clips":{"Source":"s"},"params":{"count":1}"#,
        3,
        1,
    ),
    (r#""solid","params":{"r":1,"g":"0.5"}"#, 1, 0),
    (r#""premult","clips":{"Source":"p"}"#, 1, 0),
    (r#""unpremult","clips":{"Source":"p"}"#, 1, 0),
    (
        r#""posterise","clips":{"Source":"p"},"params":{"levels":2}"#,
        1,
        0,
    ),
    (
        r#""shuffle","clips":{"Source":"p"},"params":{"r":"a"}"#,
        1,
        0,
    ),
];

/// The text of a graph of bytes whose picture has these sides, up to this last frame, of these nodes.
pub(crate) fn text_of(
    rt: &(impl Abort + AllocGlobal),
    (width, height): (u32, u32),
    last: u32,
    nodes: &str,
) -> String {
    let project = format!(in rt.alloc();
        r#""width":{width},"height":{height},"depth":"byte","components":"RGBA""#
    ).expect(rt, "no text");
    let whole = Whole {
        project: project.as_str(),
        format: "RGB_ALPHA",
        last,
        nodes,
    };
    whole.text(rt)
}

/// The text of a strip's graph over the frames 0 and 1.
pub(crate) fn strip_text(rt: &(impl Abort + AllocGlobal), &(effect, width, _): &Strip) -> String {
    let nodes = format!(in rt.alloc(); r#"{SOURCES},{{"name":"n","effect":{effect}}}"#);
    text_of(rt, (width, 1), 1, nodes.expect(rt, "no text").as_str())
}
