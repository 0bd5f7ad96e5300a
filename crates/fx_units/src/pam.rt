use crate::same::same;
use fx_base::Rect;
use fx_image::Image;
use fx_pam::laws::{one_or_the_other, reads_back};
use fx_pam::{PamFault, PamField, read, write};
use fx_pixel::{Components, Depth, Format, Pixel};

// A file of two pixels in one row, and their samples. What follows the raster is left unread.
const ROWS: &[(&[u8], [u16; 4], [u16; 4])] = &[
    (
        b"P7\n# note\nMAXVAL 100\n\nDEPTH 1\nHEIGHT 1\nWIDTH 2\nTUPLTYPE GRAYSCALE\nENDHDR\n\x32\x64P7\nWIDTH 1\n",
        [128, 128, 128, 255],
        [255, 255, 255, 255],
    ),
    (
        b"P7\nWIDTH\t 2\t\r\nHEIGHT 1\n TUPLTYPE\nTUPLTYPE x y\nDEPTH 2\nMAXVAL 256\n\rENDHDR \n\0\x01\x01\0\0\0\0\0",
        [256, 256, 256, 65535],
        [0, 0, 0, 0],
    ),
    (
        b"P7\nWIDTH 2\nHEIGHT 1\nDEPTH 3\nMAXVAL 255\nENDHDR\n\x01\x02\x03\xfd\xfe\xff",
        [1, 2, 3, 255],
        [253, 254, 255, 255],
    ),
    (
        b"P7\nWIDTH 2\nHEIGHT 1\nDEPTH 4\nMAXVAL 255\nENDHDR\n\x01\x02\x03\x04\xfc\xfd\xfe\xff\x09",
        [1, 2, 3, 4],
        [252, 253, 254, 255],
    ),
    (
        b"P7\nWIDTH 2\nHEIGHT 1\nDEPTH 4\nMAXVAL 65535\nENDHDR\n\x01\x02\x03\x04\x05\x06\x07\x08\0\0\0\x01\x01\0\xff\xff",
        [258, 772, 1286, 1800],
        [0, 1, 256, 65535],
    ),
];

#[test]
fn pixels_are_read(rt: HostRuntime) {
    for &(bytes, left, right) in ROWS {
        let image = read(rt.alloc(), bytes, 2).expect(&rt, "no image");
        same(&rt, image.at(0, 0), pixel(left));
        same(&rt, image.at(1, 0), pixel(right));
    }
}

fn pixel([r, g, b, a]: [u16; 4]) -> Pixel {
    Pixel::Rgba { r, g, b, a }
}

#[test]
fn the_first_row_is_the_top(rt: HostRuntime) {
    let bytes = b"P7\nWIDTH 1\nHEIGHT 2\nDEPTH 1\nMAXVAL 255\nENDHDR\n\x01\x02";
    let image = read(rt.alloc(), bytes, 2).expect(&rt, "no image");
    let (top, bottom) = (image.at(0, 1), image.at(0, 0));
    same(&rt, top, pixel([1, 1, 1, 255]));
    same(&rt, bottom, pixel([2, 2, 2, 255]));
}

const FAULTS: &[(&[u8], PamFault)] = &[
    (b"", PamFault::NotPam),
    (b"P7", PamFault::NotPam),
    (b"P6\nWIDTH 1\n", PamFault::NotPam),
    (b"P7\n", PamFault::HeaderWrong(2)),
    (b"P7\n# note\nMAXVAL 10", PamFault::HeaderWrong(3)),
    (
        b"P7\nWIDTH 1\nHEIGHT 1\nWIDTH 1\n",
        PamFault::HeaderWrong(4),
    ),
    (b"P7\nWIDTH1\n", PamFault::HeaderWrong(2)),
    (b"P7\nWIDTH 1x\n", PamFault::HeaderWrong(2)),
    (b"P7\nTUPLTYPEX\n", PamFault::HeaderWrong(2)),
    (
        b"P7\nWIDTH 1\nHEIGHT 1\nDEPTH 1\nENDHDR\n\0",
        PamFault::HeaderWrong(5),
    ),
    (
        b"P7\nWIDTH 99999999999\nHEIGHT 0\nDEPTH 1\nMAXVAL 100\nENDHDR\n",
        PamFault::SizeOutOfRange(PamField::Width),
    ),
    (
        b"P7\nWIDTH 8192\nHEIGHT 8193\nDEPTH 5\nMAXVAL 100\nENDHDR\n",
        PamFault::SizeOutOfRange(PamField::Height),
    ),
    (
        b"P7\nWIDTH 2\nHEIGHT 1\nDEPTH 5\nMAXVAL 0\nENDHDR\n",
        PamFault::SizeOutOfRange(PamField::Depth),
    ),
    (
        b"P7\nWIDTH 2\nHEIGHT 1\nDEPTH 4\nMAXVAL 65536\nENDHDR\n",
        PamFault::SizeOutOfRange(PamField::Maxval),
    ),
    (
        b"P7\nWIDTH 2\nHEIGHT 1\nDEPTH 1\nMAXVAL 100\nENDHDR\n",
        PamFault::Truncated(2, 0),
    ),
    (
        b"P7\nWIDTH 2\nHEIGHT 1\nDEPTH 1\nMAXVAL 100\nENDHDR\n\x65",
        PamFault::Truncated(2, 1),
    ),
    (
        b"P7\nWIDTH 2\nHEIGHT 1\nDEPTH 1\nMAXVAL 100\nENDHDR\n\x32\x65",
        PamFault::SampleAboveMaxval(1, 101),
    ),
];

#[test]
fn the_first_fault_is_told(rt: HostRuntime) {
    for &(bytes, fault) in FAULTS {
        same(&rt, read(rt.alloc(), bytes, 8192).err(), Some(fault));
    }
}

// One column of two rows, read from a file of RGBA.
const COLUMN: &[u8] =
    b"P7\nWIDTH 1\nHEIGHT 2\nDEPTH 4\nMAXVAL 65535\nENDHDR\n\0\x01\0\x02\0\x03\0\x04\x05\0\x06\0\x07\0\x08\0";

#[test]
fn rgba_is_written(rt: HostRuntime) {
    let image = read(rt.alloc(), COLUMN, 2).expect(&rt, "no image");
    let all =
        b"P7\nWIDTH 1\nHEIGHT 2\nDEPTH 4\nMAXVAL 65535\nTUPLTYPE RGB_ALPHA\nENDHDR\n\0\x01\0\x02\0\x03\0\x04\x05\0\x06\0\x07\0\x08\0";
    let colours =
        b"P7\nWIDTH 1\nHEIGHT 2\nDEPTH 3\nMAXVAL 65535\nTUPLTYPE RGB\nENDHDR\n\0\x01\0\x02\0\x03\x05\0\x06\0\x07\0";
    let mut out = Vec::new(rt.alloc());
    write(rt.alloc(), &image, Format::RgbAlpha, &mut out).expect(&rt, "no text");
    same(&rt, out.as_slice(), all.as_slice());
    let before = out.len();
    write(rt.alloc(), &image, Format::Rgb, &mut out).expect(&rt, "no text");
    same(&rt, &out[before..], colours.as_slice());
    reads_back();
    one_or_the_other();
}

#[test]
fn alpha_is_written(rt: HostRuntime) {
    let rect = Rect::of(-1, 0, 1, 1);
    let mut image = Image::new(rt.alloc(), rect, Depth::Byte, Components::Alpha, 5).expect(
        &rt, "no image",
    );
    image.put(-1, 0, Pixel::Alpha { a: 7 });
    image.put(0, 0, Pixel::Alpha { a: 255 });
    let mut out = Vec::new(rt.alloc());
    write(rt.alloc(), &image, Format::Grayscale, &mut out).expect(&rt, "no text");
    let text = b"P7\nWIDTH 2\nHEIGHT 1\nDEPTH 1\nMAXVAL 255\nTUPLTYPE GRAYSCALE\nENDHDR\n\x07\xff";
    same(&rt, out.as_slice(), text.as_slice());
}
