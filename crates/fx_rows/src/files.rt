//! Files of a library that the tests make.
use fx_base::Name;
use std::process::Abort;

/// A file of these bytes more.
pub(crate) fn add_file(
    rt: &(impl Abort + AllocGlobal),
    files: &mut Vec<(Name, Vec<u8>)>,
    name: &str,
    bytes: Vec<u8>,
) {
    let name = String::from_str(rt.alloc(), name).expect(rt, "no name");
    files.push((Name::of(name), bytes)).expect(rt, "no file");
}

/// The bytes of a file of grey samples, of which each differs from those beside it.
pub(crate) fn greys(
    rt: &(impl Abort + AllocGlobal),
    (width, height): (u32, u32),
    first: u8,
) -> Vec<u8> {
    let head = format!(in rt.alloc();
        "P7\nWIDTH {width}\nHEIGHT {height}\nDEPTH 1\nMAXVAL 255\nENDHDR\n"
    ).expect(rt, "no header");
    let mut bytes = head.as_bytes().to_vec(rt.alloc()).expect(rt, "no bytes");
    let mut sample = first;
    for _ in 0..height {
        sample = sample.wrapping_add(11);
        for _ in 0..width {
            sample = sample.wrapping_add(7);
            bytes.push(sample).expect(rt, "no byte");
        }
    }
    bytes
}
