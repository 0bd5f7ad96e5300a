ghost use Rattle.fx_image.specs.Stored.{SameFrame};

use crate::same::{same, same_at, surely_same};
use fx_base::Rect;
use fx_image::laws::a_row_is_written;
use fx_image::samples::{copy_pixels, pixel, pixel_size, sample, set_pixel, set_sample};
use fx_image::{Image, Layout};
use fx_pixel::{Components, Depth, Pixel};
use std::process::Abort;

const GREY: Pixel = Pixel::Rgba {
    r: 258,
    g: 258,
    b: 258,
    a: 258,
};

const CLEAR: Pixel = Pixel::Rgba {
    r: 0,
    g: 0,
    b: 0,
    a: 0,
};

#[test]
fn pixels_are_put_and_read(rt: HostRuntime) {
    let rect = Rect::of(-1, 2, 2, 4);
    let mut image = Image::new(rt.alloc(), rect, Depth::Short, Components::Rgba, 25).expect(
        &rt, "no image",
    );
    same(&rt, (image.rect(), image.row_bytes()), (rect, 25));
    same(
        &rt,
        (image.depth(), image.components()),
        (Depth::Short, Components::Rgba),
    );
    image.put(1, 3, GREY);
    same(&rt, image.at(1, 3), GREY);
    for (x, y) in [(0, 3), (1, 2), (-1, 2), (2, 3), (1, 4), (-2, 3), (1, 1)] {
        same(&rt, image.at(x, y), CLEAR);
    }
}

// The places of an image of Alpha, and what it shows there.
fn shows(rt: &impl Abort, image: &Image, places: &[(i64, i64, u16)]) {
    for &(x, y, a) in places {
        same_at(rt, &(x, y), image.at(x, y), Pixel::Alpha { a });
    }
}

#[test]
fn an_image_is_made_of_its_rows(rt: HostRuntime) {
    let alloc = rt.alloc();
    let rows = [1u8, 2, 3, 4, 5, 6].to_vec(alloc).expect(&rt, "no rows");
    let rect = Rect::of(-1, 2, 1, 5);
    let image = Image::of_rows(alloc, rect, Depth::Byte, Components::Alpha, rows).expect(
        &rt, "no image",
    );
    same(&rt, (image.rect(), image.row_bytes()), (rect, 2));
    let shown = [
        (-1, 2, 1),
        (0, 2, 2),
        (-1, 3, 3),
        (0, 4, 6),
        (1, 2, 0),
        (0, 5, 0),
    ];
    shows(&rt, &image, &shown);
}

#[test]
fn views_are_read_by_rows(rt: HostRuntime) {
    let rect = Rect::of(0, 0, 2, 1);
    let mut image = Image::new(rt.alloc(), rect, Depth::Short, Components::Rgba, 16).expect(
        &rt, "no image",
    );
    image.put(1, 0, GREY);
    let view = image.view(Rect::of(1, 0, 2, 1));
    same(&rt, view.rect(), Rect::of(1, 0, 2, 1));
    same(
        &rt,
        (view.depth(), view.components()),
        (Depth::Short, Components::Rgba),
    );
    same(&rt, (view.at(0, 0), view.at(1, 0)), (CLEAR, GREY));
    same(&rt, view.row(0), [1, 2, 1, 2, 1, 2, 1, 2].as_slice());
}

#[test]
fn pixels_of_a_row_are_read_and_set(rt: HostRuntime) {
    let mut row = [0u8; 16];
    set_pixel(Depth::Short, &mut row, 1, GREY);
    same(
        &rt,
        row.as_slice(),
        [0, 0, 0, 0, 0, 0, 0, 0, 1, 2, 1, 2, 1, 2, 1, 2].as_slice(),
    );
    same(&rt, sample(Depth::Short, &row, 4), 258);
    same(&rt, pixel(Depth::Short, Components::Rgba, &row, 1), GREY);
    same(&rt, pixel_size(Depth::Short, Components::Rgba), 8);
    set_sample(Depth::Short, &mut row, 1, 772);
    same(
        &rt,
        row.as_slice(),
        [0, 0, 3, 4, 0, 0, 0, 0, 1, 2, 1, 2, 1, 2, 1, 2].as_slice(),
    );
}

#[test]
fn pixels_are_copied_between_rows(rt: HostRuntime) {
    let source = [1, 2, 3, 4];
    let mut row = [9u8; 8];
    copy_pixels(Depth::Short, Components::Alpha, &source, &mut row, 1, 2);
    same(&rt, row.as_slice(), [9, 9, 1, 2, 3, 4, 9, 9].as_slice());
}

#[test]
fn parts_are_written_by_rows(rt: HostRuntime) {
    let whole = Rect::of(0, 0, 3, 2);
    let mut image = Image::new(rt.alloc(), whole, Depth::Short, Components::Alpha, 8).expect(
        &rt, "no image",
    );
    let mut part = image.part(Rect::of(1, 1, 3, 2));
    same(&rt, part.rect(), Rect::of(1, 1, 3, 2));
    same(
        &rt,
        (part.depth(), part.components()),
        (Depth::Short, Components::Alpha),
    );
    part.pixels_fit();
    same(&rt, part.row_bytes(), 4);
    a_row_is_written();
    let row = part.row_mut(1);
    surely_same(&rt, row.len(), 4);
    row[0] = 1;
    row[1] = 2;
    part.put(2, 1, Pixel::Alpha { a: 65535 });
    same(&rt, part.at(1, 1), Pixel::Alpha { a: 258 });
    same(&rt, part.at(0, 1), Pixel::Alpha { a: 0 });
    let shown = [(0, 1, 0), (1, 1, 258), (2, 1, 65535), (1, 0, 0), (3, 1, 0)];
    shows(&rt, &image, &shown);
}

#[test]
fn a_tile_is_written_into_a_wider_part(rt: HostRuntime) {
    let whole = Rect::of(0, 0, 3, 2);
    let mut image = Image::new(rt.alloc(), whole, Depth::Byte, Components::Alpha, 3).expect(
        &rt, "no image",
    );
    let mut part = image.part(whole);
    let row = part.row_within_mut(Rect::of(1, 0, 3, 1), 0);
    surely_same(&rt, row.len(), 2);
    row[0] = 5;
    row[1] = 6;
    let shown = [
        (0, 0, 0),
        (1, 0, 5),
        (2, 0, 6),
        (0, 1, 0),
        (1, 1, 0),
        (2, 1, 0),
    ];
    shows(&rt, &image, &shown);
}

// Writes a pixel of a band that has the place.
fn mark(band: &mut Image, x: i64, y: i64)
    ensures { SameFrame band.old band.new }
{
    if band.rect().holds(x, y) && band.components() == Components::Alpha {
        band.put(x, y, Pixel::Alpha { a: 7 });
    }
}

#[test]
fn an_image_is_cut_into_bands(rt: HostRuntime) {
    let layout = Layout {
        rect: Rect::of(0, 0, 3, 5),
        depth: Depth::Byte,
        components: Components::Alpha,
        row_bytes: 3,
        band_rows: 2,
    };
    let image = Image::in_bands(rt.alloc(), &layout).expect(&rt, "no image");
    let mut bands = image.into_bands(rt.alloc()).expect(&rt, "no bands");
    surely_same(&rt, bands.len(), 3);
    same(&rt, bands[0].rect(), Rect::of(0, 0, 3, 2));
    same(&rt, bands[1].rect(), Rect::of(0, 2, 3, 4));
    same(&rt, bands[2].rect(), Rect::of(0, 4, 3, 5));
    mark(&mut bands[1], 2, 3);
    let image = Image::of_bands(rt.alloc(), &layout, bands).expect(&rt, "no image");
    let shown = [
        (2, 3, 7),
        (1, 3, 0),
        (2, 2, 0),
        (2, 1, 0),
        (2, 4, 0),
        (0, 0, 0),
    ];
    shows(&rt, &image, &shown);
}
