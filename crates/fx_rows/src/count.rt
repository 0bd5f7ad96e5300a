//! Counts of tiles.
use crate::same::{same, same_at};
use fx_tile::TileCount;

const NONE: TileCount = TileCount {
    void_tiles: 0,
    passed: 0,
    asked: 0,
    landed: 0,
    hits: 0,
};

const SOME: TileCount = TileCount {
    void_tiles: 1,
    passed: 20,
    asked: 300,
    landed: 4_000,
    hits: 50_000,
};

const MORE: TileCount = TileCount {
    void_tiles: 5,
    passed: 4,
    asked: 3,
    landed: 2,
    hits: 1,
};

const BOTH: TileCount = TileCount {
    void_tiles: 6,
    passed: 24,
    asked: 303,
    landed: 4_002,
    hits: 50_001,
};

// One of each kind, and the greatest number of each kind alone.
const ONE: TileCount = TileCount {
    void_tiles: 1,
    passed: 1,
    asked: 1,
    landed: 1,
    hits: 1,
};

const MOST: &[TileCount] = &[
    TileCount {
        void_tiles: u64::MAX,
        ..NONE
    },
    TileCount {
        passed: u64::MAX,
        ..NONE
    },
    TileCount {
        asked: u64::MAX,
        ..NONE
    },
    TileCount {
        landed: u64::MAX,
        ..NONE
    },
    TileCount {
        hits: u64::MAX,
        ..NONE
    },
];

#[test]
fn counts_add_up(rt: HostRuntime) {
    same(&rt, SOME.plus(MORE), Some(BOTH));
    for most in MOST {
        same_at(&rt, most, most.plus(NONE), Some(*most));
        same_at(&rt, most, most.plus(ONE), None);
        same_at(&rt, most, ONE.plus(*most), None);
    }
}
