//! Frames of sources: means of blocks of samples, worked by hand.
use crate::same::same_at;
use fx_base::{Name, Rect};
use fx_outside::MemoryLibrary;
use fx_pixel::Pixel;
use fx_proxy::scale_frames;
use fx_seq::{SourceFrame, Use, Wanted, read_due};
use std::process::Abort;

// Grey files, rows from the top.
const WIDE: &[u8] =
    b"P7\nWIDTH 4\nHEIGHT 2\nDEPTH 1\nMAXVAL 255\nENDHDR\n\x0a\x14\x1e\x28\x32\x3c\x46\x50";

const ODD: &[u8] = b"P7\nWIDTH 3\nHEIGHT 1\nDEPTH 1\nMAXVAL 255\nENDHDR\n\x64\x64\x64";

const HIGH: &[u8] = b"P7\nWIDTH 1\nHEIGHT 3\nDEPTH 1\nMAXVAL 255\nENDHDR\n\x28\x50\x78";

const DOT: &[u8] = b"P7\nWIDTH 1\nHEIGHT 1\nDEPTH 1\nMAXVAL 255\nENDHDR\n\xff";

const DEEP: &[u8] =
    b"P7\nWIDTH 2\nHEIGHT 2\nDEPTH 1\nMAXVAL 65535\nENDHDR\n\xff\xff\x00\x00\x00\x01\x00\x02";

// The file with its bytes at four samples a pixel, q, the size of the reduced image, and the grey and the alpha of its
// pixels, rows from the bottom.
type Case = (
    (&'static [u8], u64),
    u32,
    (i64, i64),
    &'static [(i64, i64, u16, u16)],
);

const CASES: &[Case] = &[
    // 10, 20, 50 and 60 have the mean 35, and 30, 40, 70 and 80 the mean 55.
    ((WIDE, 32), 2, (2, 1), &[(0, 0, 35, 255), (1, 0, 55, 255)]),
    // All eight are 360; with eight places outside the mean is 22.5, and of alpha 127.5.
    ((WIDE, 32), 4, (1, 1), &[(0, 0, 23, 128)]),
    // 360 / 64 is 5.625, and 8 * 255 / 64 is 31.875.
    ((WIDE, 32), 8, (1, 1), &[(0, 0, 6, 32)]),
    ((WIDE, 32), 1, (4, 2), &[(0, 0, 50, 255), (3, 1, 40, 255)]),
    // Two places of the first block and three of the second lie outside.
    ((ODD, 12), 2, (2, 1), &[(0, 0, 50, 128), (1, 0, 25, 64)]),
    // The lower block has the lower two rows; the upper block has the top row, and three places outside.
    ((HIGH, 12), 2, (1, 2), &[(0, 0, 50, 128), (0, 1, 10, 64)]),
    ((DOT, 4), 8, (1, 1), &[(0, 0, 4, 4)]),
    // 65538 / 4 is 16384.5.
    ((DEEP, 32), 2, (1, 1), &[(0, 0, 16385, 65535)]),
];

fn named(rt: &(impl Abort + AllocGlobal), text: &str) -> Name {
    Name::of(String::from_str(rt.alloc(), text).expect(rt, "no name"))
}

// A library of this file alone.
fn library_of(rt: &(impl Abort + AllocGlobal), file: &[u8]) -> MemoryLibrary {
    let alloc = rt.alloc();
    let bytes = file.to_vec(alloc).expect(rt, "no bytes");
    let mut files = Vec::new(alloc);
    files.push((named(rt, "f"), bytes)).expect(rt, "no file");
    MemoryLibrary::new(alloc, files, Vec::new(alloc))
}

// A file as frame 7 of node 3.
fn frames_of(rt: &(impl Abort + AllocGlobal), file: &[u8]) -> Vec<SourceFrame> {
    let alloc = rt.alloc();
    let mut library = library_of(rt, file);
    let wanted = Wanted {
        node: 3,
        frame: 7,
        name: named(rt, "f"),
    };
    let once = Use {
        wanted,
        from: 0,
        until: 0,
    };
    let mut uses = Vec::new(alloc);
    uses.push(once).expect(rt, "no use");
    let frames = read_due(alloc, &mut library, &uses, 0, 0, 1 << 31, 8192);
    frames.ok().expect(rt, "not read")
}

fn scaled_frames(rt: &(impl Abort + AllocGlobal), file: &[u8], q: u32) -> Vec<SourceFrame> {
    let frames = frames_of(rt, file);
    assert!(rt; q > 0);
    assert!(rt; q <= 8);
    let scaled = scale_frames(rt.alloc(), frames, q);
    scaled.ok().expect(rt, "no memory")
}

fn shows(rt: &impl Abort, case: &Case, frame: &SourceFrame) {
    let ((_, size), q, (width, height), pixels) = *case;
    same_at(rt, &q, (frame.node, frame.frame, frame.size), (3, 7, size));
    same_at(rt, &q, frame.image.rect(), Rect::of(0, 0, width, height));
    for (x, y, grey, a) in pixels {
        let pixel = Pixel::Rgba {
            r: *grey,
            g: *grey,
            b: *grey,
            a: *a,
        };
        same_at(rt, &(q, *x, *y), frame.image.at(*x, *y), pixel);
    }
}

#[test]
fn blocks_have_their_means(rt: HostRuntime) {
    for case in CASES {
        let frames = scaled_frames(&rt, case.0.0, case.1);
        for frame in &frames {
            shows(&rt, case, frame);
        }
        same_at(&rt, &case.1, frames.len(), 1);
    }
}
