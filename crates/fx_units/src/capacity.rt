//! How many whole images are kept, worked by hand.
use crate::same::same;
use fx_base::{Grid, Rect};
use fx_whole::capacity_for;

const GRID: Grid = Grid { side: 64 };

// Two tiles, six, three of which one has a column alone, and four round the origin.
#[test]
fn an_image_takes_the_place_of_its_tiles(rt: HostRuntime) {
    same(&rt, capacity_for(4096, Rect::of(0, 0, 128, 64), GRID), 2048);
    same(&rt, capacity_for(4096, Rect::of(0, 0, 128, 192), GRID), 682);
    same(&rt, capacity_for(4096, Rect::of(0, 0, 129, 64), GRID), 1365);
    same(&rt, capacity_for(4096, Rect::of(-1, -1, 1, 1), GRID), 1024);
}

// Where fewer tiles are kept than meet the project no image is.
#[test]
fn no_image_is_kept_where_its_tiles_would_not_be(rt: HostRuntime) {
    same(&rt, capacity_for(2, Rect::of(0, 0, 128, 64), GRID), 1);
    same(&rt, capacity_for(1, Rect::of(0, 0, 128, 64), GRID), 0);
    same(&rt, capacity_for(0, Rect::of(0, 0, 1, 1), GRID), 0);
}
