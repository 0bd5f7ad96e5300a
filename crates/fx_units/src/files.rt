//! Files of source frames, when moments use them, and what is told of frames and faults.
ghost use Rattle.std.specs.Prelude.{◌≡◌};

use fx_base::Name;
use fx_outside::MemoryLibrary;
use fx_pam::PamFault;
use fx_pixel::Pixel;
use fx_seq::{SeqFault, SourceFrame, Use, Wanted};
use std::alloc::{AllocError, Global};
use std::process::Abort;

// One pixel of r, g, b and a, each one byte: 4 bytes.
const BYTE: &[u8] = b"P7\nWIDTH 1\nHEIGHT 1\nDEPTH 4\nMAXVAL 255\nENDHDR\n\x01\x02\x03\x04";
// Another, of samples of two bytes: 8 bytes.
const SHORT: &[u8] =
    b"P7\nWIDTH 1\nHEIGHT 1\nDEPTH 4\nMAXVAL 65535\nENDHDR\n\x01\x00\x02\x00\x03\x00\x04\x00";
// A raster of 4 bytes that has 3.
const CUT: &[u8] = b"P7\nWIDTH 1\nHEIGHT 1\nDEPTH 4\nMAXVAL 255\nENDHDR\n\x01\x02\x03";

pub(crate) const FIRST: Pixel = Pixel::Rgba {
    r: 1,
    g: 2,
    b: 3,
    a: 4,
};

pub(crate) const SECOND: Pixel = Pixel::Rgba {
    r: 256,
    g: 512,
    b: 768,
    a: 1024,
};

pub(crate) fn named(alloc: Global, text: &str) -> Result<Name, AllocError> {
    Ok(Name::of(String::from_str(alloc, text)?))
}

// A library of the files byte, short and cut, whose fetches with these numbers fail.
pub(crate) fn library(rt: &(impl Abort + AllocGlobal), failing: &[u64]) -> MemoryLibrary {
    let mut files = Vec::new(rt.alloc());
    add_file(rt, &mut files, "byte", BYTE);
    add_file(rt, &mut files, "short", SHORT);
    add_file(rt, &mut files, "cut", CUT);
    let failing = failing.to_vec(rt.alloc()).expect(rt, "no list");
    MemoryLibrary::new(rt.alloc(), files, failing)
}

fn add_file(
    rt: &(impl Abort + AllocGlobal),
    files: &mut Vec<(Name, Vec<u8>)>,
    name: &str,
    bytes: &[u8],
) {
    let name = named(rt.alloc(), name).expect(rt, "no name");
    let bytes = bytes.to_vec(rt.alloc()).expect(rt, "no bytes");
    files.push((name, bytes)).expect(rt, "no file");
}

// A frame of a node in this file, and the first and the last moment that use it.
pub(crate) fn used(
    rt: &(impl Abort + AllocGlobal),
    place: (u32, i64),
    name: &str,
    moments: (u64, u64),
) -> Use
    ensures place { (result.wanted.node ≡ place.0) × (result.wanted.frame ≡ place.1) }
    ensures moments { (result.from ≡ moments.0) × (result.until ≡ moments.1) }
{
    let wanted = Wanted {
        node: place.0,
        frame: place.1,
        name: named(rt.alloc(), name).expect(rt, "no name"),
    };
    Use {
        wanted,
        from: moments.0,
        until: moments.1,
    }
}

// Adds what is used of a frame.
pub(crate) fn add_used(
    rt: &(impl Abort + AllocGlobal),
    uses: &mut Vec<Use>,
    place: (u32, i64),
    name: &str,
    moments: (u64, u64),
) {
    let more = used(rt, place, name, moments);
    uses.push(more).expect(rt, "no memory");
}

// The node, the frame and the bytes of each.
pub(crate) fn told_frames(alloc: Global, frames: &[SourceFrame]) -> Result<String, AllocError> {
    let mut text = String::new(alloc);
    for one in frames {
        let (node, frame, size) = (one.node, one.frame, one.size);
        let said = format!(in alloc; "{node} {frame} {size}, ")?;
        text.push_str(said.as_str())?;
    }
    Ok(text)
}

// What a fault tells beside its node and frame.
#[derive(Clone, Copy, Debug, PartialEq, Eq)]
pub(crate) enum Cause<'a> {
    Fetch(&'a str),
    Frame(PamFault),
    TooLarge(u64),
}

pub(crate) fn told(fault: &SeqFault) -> Option<(u32, i64, Cause<'_>)> {
    match fault {
        SeqFault::Fetch(node, frame, name) => Some((*node, *frame, Cause::Fetch(name.text()))),
        SeqFault::Frame(node, frame, fault) => Some((*node, *frame, Cause::Frame(*fault))),
        SeqFault::TooLarge(node, frame, sum) => Some((*node, *frame, Cause::TooLarge(*sum))),
        SeqFault::Memory => None,
    }
}
