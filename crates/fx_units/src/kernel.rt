//! Values worked by hand.
use crate::same::same;
use fx_kernel::{
    Mean, Windows, add_row, blend_row, clear, divided, in_units, mixed, product, take_row,
    write_means, write_window_means,
};
use fx_pixel::Depth;

// Sums of three bytes, and their means.
const THIRDS: &[(u64, u16)] = &[
    (0, 0),
    (1, 0),
    (2, 1),
    (3, 1),
    (382, 127),
    (383, 128),
    (765, 255),
];

#[test]
fn means_are_rounded(rt: HostRuntime) {
    let thirds = Mean::of(3);
    for &(sum, mean) in THIRDS {
        assert!(rt; sum <= 765);
        same(&rt, thirds.sample(Depth::Byte, sum), mean);
    }
    let halves = Mean::of(2);
    same(
        &rt,
        (
            halves.sample(Depth::Short, 1),
            halves.sample(Depth::Short, 131069),
        ),
        (1, 65535),
    );
    let squares = Mean::of(16641);
    same(&rt, squares.sample(Depth::Short, 1090567935), 65535);
    same(&rt, squares.sample(Depth::Short, 8320), 0);
    same(&rt, squares.sample(Depth::Short, 8321), 1);
    let most = Mean::of(65536);
    same(&rt, most.sample(Depth::Short, 4294901760), 65535);
    same(
        &rt,
        (
            most.sample(Depth::Byte, 32767),
            most.sample(Depth::Byte, 32768),
        ),
        (0, 1),
    );
}

#[test]
fn samples_are_multiplied(rt: HostRuntime) {
    same(
        &rt,
        (product(Depth::Byte, 1, 127), product(Depth::Byte, 1, 128)),
        (0, 1),
    );
    same(&rt, product(Depth::Byte, 255, 200), 200);
    same(&rt, product(Depth::Short, 32768, 65535), 32768);
    same(
        &rt,
        (mixed(Depth::Byte, 255, 7, 9), mixed(Depth::Byte, 0, 7, 9)),
        (7, 9),
    );
    same(&rt, mixed(Depth::Byte, 128, 10, 20), 15);
    same(
        &rt,
        (divided(Depth::Short, 32767), divided(Depth::Short, 32768)),
        (0, 1),
    );
    same(
        &rt,
        (in_units(32767), in_units(32768), in_units(98303)),
        (0, 1, 1),
    );
}

#[test]
fn rows_are_blended(rt: HostRuntime) {
    let mut bytes = [0, 100, 255];
    blend_row(Depth::Byte, 32768, &[255, 200, 255], &mut bytes, 3);
    same(&rt, bytes.as_slice(), [128, 150, 255].as_slice());
    let mut shorts = [1, 0, 255, 255];
    blend_row(Depth::Short, 16384, &[0, 0, 0, 0], &mut shorts, 2);
    same(&rt, shorts.as_slice(), [0, 192, 191, 255].as_slice());
}

// As many bytes as are blended at once, and more.
#[test]
fn long_rows_are_blended(rt: HostRuntime) {
    let mut bytes = [100; 35];
    bytes[31] = 255;
    bytes[34] = 7;
    blend_row(Depth::Byte, 16384, &[201; 35], &mut bytes, 35);
    let mut blended = [125; 35];
    blended[31] = 242;
    blended[34] = 56;
    same(&rt, bytes.as_slice(), blended.as_slice());
}

#[test]
fn rows_are_summed(rt: HostRuntime) {
    let row = [1, 2, 0, 255];
    let mut cells = [9, 9];
    clear(&mut cells);
    add_row(Depth::Short, &row, &mut cells);
    same(&rt, cells.as_slice(), [258, 255].as_slice());
    take_row(Depth::Short, &row, &mut cells);
    same(&rt, cells.as_slice(), [0, 0].as_slice());
}

#[test]
fn means_are_written(rt: HostRuntime) {
    let cells = [3, 6, 9, 13];
    let mut row = [0; 8];
    write_means(Depth::Short, Mean::of(2), &cells, &mut row);
    same(&rt, row.as_slice(), [0, 2, 0, 3, 0, 5, 0, 7].as_slice());
    let windows = Windows {
        step: 1,
        count: 2,
        more: 2,
    };
    let mut means = [0, 0];
    write_window_means(Depth::Byte, Mean::of(3), &cells, windows, &mut means);
    same(&rt, means.as_slice(), [6, 9].as_slice());
}
