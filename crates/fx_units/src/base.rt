ghost use Rattle.fx_base.specs.Rect.{IsNear};

use crate::same::{same, same_at};
use fx_base::{Fix, Grid, Name, Names, Pattern, Rect, Status, offset};
use std::process::Abort;

// Texts, and 65536 times their numbers.
const NUMBERS: &[(&str, i64)] = &[
    ("0", 0),
    ("1", 65536),
    ("0.1", 6554),
    ("0.5", 32768),
    ("-0.5", -32768),
    ("-0.000007", 0),
    ("-0.000008", -1),
    ("007.250000", 475136),
    ("999999999.999999", 65536000000000),
    ("-999999999.999999", -65536000000000),
];

#[test]
fn numbers_are_read(rt: HostRuntime) {
    for &(text, raw) in NUMBERS {
        same(&rt, Fix::parse(text), Some(Fix { raw }));
    }
    same(&rt, Fix::of_whole(-3), Fix { raw: -196608 });
}

const NO_NUMBERS: &[&str] = &[
    "",
    "-",
    "1.",
    ".5",
    "1.0000000",
    "1000000000",
    "+1",
    " 1",
    "1 ",
    "--1",
    "1.2.3",
    "1e3",
    "1,5",
    "٣",
];

#[test]
fn other_texts_are_no_numbers(rt: HostRuntime) {
    for text in NO_NUMBERS {
        same(&rt, Fix::parse(text), None);
    }
}

// Patterns, how many runs of # they have, and the name of a frame.
const NAMED: &[(&str, u32, u32, &str)] = &[
    ("o#.pam", 1, 0, "o0.pam"),
    ("a##b.pam", 1, 7, "a07b.pam"),
    ("a##b.pam", 1, 123, "a123b.pam"),
    ("####", 1, 999999, "999999"),
    ("é#", 1, 42, "é42"),
    ("still.pam", 0, 5, "still.pam"),
];

#[test]
fn patterns_name_frames(rt: HostRuntime) {
    for &(text, runs, frame, name) in NAMED {
        let pattern = pattern(&rt, text).expect(&rt, "no pattern");
        same(&rt, pattern.runs(), runs);
        let named = pattern.name(rt.alloc(), frame).expect(&rt, "no name");
        same(&rt, named.text(), name);
    }
}

fn pattern(rt: &(impl Abort + AllocGlobal), text: &str) -> Option<Pattern> {
    Pattern::of(rt.alloc(), text).expect(rt, "no memory")
}

const NO_PATTERNS: &[&str] = &["", "a#b#", "#-#", "a\0#"];

#[test]
fn other_texts_are_no_patterns(rt: HostRuntime) {
    for text in NO_PATTERNS {
        same_at(&rt, text, pattern(&rt, text).is_none(), true);
    }
}

#[test]
fn patterns_have_a_longest(rt: HostRuntime) {
    let mut longest = String::new(rt.alloc());
    for _ in 0..1024 {
        longest.push('x').expect(&rt, "no memory");
    }
    assert!(rt; pattern(&rt, longest.as_str()).is_some());
    longest.push('x').expect(&rt, "no memory");
    assert!(rt; pattern(&rt, longest.as_str()).is_none());
}

#[test]
fn names_are_kept(rt: HostRuntime) {
    let alloc = rt.alloc();
    let name = Name::of(String::from_str(alloc, "Source").expect(&rt, "no name"));
    same(&rt, name.text(), "Source");
    let copied = name.copied(alloc).expect(&rt, "no copy");
    same(&rt, copied.text(), "Source");
    let names = Names::of(vec![in alloc; name].expect(&rt, "no names"));
    same(&rt, names.items().len(), 1);
    same(&rt, names.into_items().len(), 1);
}

// Places, and whether the rectangle from column -1 and row 2 to column 3 and row 4 holds them.
const PLACES: &[(i64, i64, bool)] = &[
    (-1, 2, true),
    (2, 3, true),
    (-2, 2, false),
    (3, 2, false),
    (0, 1, false),
    (0, 4, false),
];

#[test]
fn rectangles_are_half_open(rt: HostRuntime) {
    let r = Rect::of(-1, 2, 3, 4);
    for &(x, y, held) in PLACES {
        same(&rt, r.holds(x, y), held);
    }
    assert!(rt; !r.is_empty());
    same(&rt, (r.width(), r.height(), offset(-1, 3)), (4, 2, 4));
    assert!(rt; Rect::of(3, 0, 3, 9).is_empty());
    same(&rt, Rect::of(0, 5, 9, 4), Rect::of(0, 0, 0, 0));
}

// x1, y1, x2 and y2 of a rectangle.
type Sides = [i64; 4];

fn rect([x1, y1, x2, y2]: Sides) -> Rect {
    Rect::of(x1, y1, x2, y2)
}

// Two rectangles, and whether the first lies within the second.
const WITHIN: &[(Sides, Sides, bool)] = &[
    ([-2, -1, 3, 4], [-2, -1, 3, 4], true),
    ([-1, 0, 2, 3], [-2, -1, 3, 4], true),
    ([-3, 0, 2, 3], [-2, -1, 3, 4], false),
    ([-1, 0, 4, 3], [-2, -1, 3, 4], false),
    ([-1, -2, 2, 3], [-2, -1, 3, 4], false),
    ([-1, 0, 2, 5], [-2, -1, 3, 4], false),
    ([0, 0, 0, 0], [-2, -1, 3, 4], true),
    ([0, 0, 0, 0], [5, 5, 6, 6], true),
    ([0, 0, 0, 0], [0, 0, 0, 0], true),
    ([-2, -1, 3, 4], [0, 0, 0, 0], false),
];

#[test]
fn rectangles_lie_within(rt: HostRuntime) {
    for &(inner, outer, held) in WITHIN {
        same(&rt, rect(inner).within(rect(outer)), held);
    }
}

// Two rectangles, what they share, and what holds both.
const MET_AND_JOINED: &[(Sides, Sides, Sides, Sides)] = &[
    ([0, 0, 4, 4], [2, -1, 6, 3], [2, 0, 4, 3], [0, -1, 6, 4]),
    ([0, 0, 4, 4], [1, 1, 2, 3], [1, 1, 2, 3], [0, 0, 4, 4]),
    ([0, 0, 4, 4], [4, 0, 5, 4], [0, 0, 0, 0], [0, 0, 5, 4]),
    ([0, 0, 4, 4], [-9, 6, -8, 7], [0, 0, 0, 0], [-9, 0, 4, 7]),
    ([0, 0, 4, 4], [0, 0, 0, 0], [0, 0, 0, 0], [0, 0, 4, 4]),
    ([0, 0, 0, 0], [7, 7, 8, 8], [0, 0, 0, 0], [7, 7, 8, 8]),
];

#[test]
fn rectangles_meet_and_join(rt: HostRuntime) {
    for &(one, other, meet, hull) in MET_AND_JOINED {
        let (one, other) = (rect(one), rect(other));
        same(
            &rt,
            (one.meet(other), other.meet(one)),
            (rect(meet), rect(meet)),
        );
        same(
            &rt,
            (one.hull(other), other.hull(one)),
            (rect(hull), rect(hull)),
        );
    }
}

#[test]
fn rectangles_grow_and_move(rt: HostRuntime) {
    let none = Rect::of(0, 0, 0, 0);
    let wide = Rect::of(1, 2, 4, 3);
    same(&rt, wide.grow(5, 1), Rect::of(-4, 1, 9, 4));
    same(&rt, wide.grow(0, 0), wide);
    same(&rt, none.grow(5, 1), none);
    same(&rt, wide.shift(-3, 4), Rect::of(-2, 6, 1, 7));
    same(&rt, none.shift(-3, 4), none);
}

// Canonical coordinates in 1/65536, and the pixels that cover them.
const COVERED: &[([i64; 4], [i64; 4])] = &[
    ([32768, -32768, 98304, 131072], [0, -1, 2, 2]),
    ([0, 65536, 65536, 196608], [0, 1, 1, 3]),
    ([-131073, -65536, -65537, -1], [-3, -1, -1, 0]),
    ([1, 1, 2, 2], [0, 0, 1, 1]),
    ([65536, 0, 65536, 65536], [0, 0, 0, 0]),
    ([98304, 0, 32768, 65536], [0, 0, 0, 0]),
    (
        [i64::MIN, i64::MIN, i64::MAX, i64::MAX],
        [
            -140737488355328,
            -140737488355328,
            140737488355328,
            140737488355328,
        ],
    ),
];

#[test]
fn canonical_rectangles_are_covered(rt: HostRuntime) {
    for &([x1, y1, x2, y2], [left, bottom, right, top]) in COVERED {
        let covered = Rect::cover(
            Fix { raw: x1 },
            Fix { raw: y1 },
            Fix { raw: x2 },
            Fix { raw: y2 },
        );
        same(&rt, covered, Rect::of(left, bottom, right, top));
    }
}

#[test]
fn tiles_are_listed_by_rows(rt: HostRuntime) {
    same(&rt, GRID.tile(-2, 3), Rect::of(-128, 192, -64, 256));
    let left = Rect::of(-64, 0, 0, 64);
    let right = Rect::of(0, 0, 64, 64);
    same_tiles(&rt, Rect::of(-1, 0, 1, 1), &[left, right]);
    let above = [Rect::of(-64, 64, 0, 128), Rect::of(0, 64, 64, 128)];
    let up = [left, right, above[0], above[1]];
    same_tiles(&rt, Rect::of(-1, 63, 1, 65), &up);
    same_tiles(&rt, left, &[left]);
    same_tiles(&rt, Rect::of(0, 0, 0, 0), &[]);
}

const GRID: Grid = Grid { side: 64 };

fn same_tiles(rt: &(impl Abort + AllocGlobal), rect: Rect, wanted: &[Rect])
    requires { IsNear rect }
{
    let tiles = GRID.tiles_of(rt.alloc(), rect).expect(rt, "no tiles");
    same(rt, tiles.as_slice(), wanted);
}

const CODES: &[(Status, u32)] = &[
    (Status::Ok, 0),
    (Status::Failed, 1),
    (Status::ErrFatal, 2),
    (Status::ErrUnknown, 3),
    (Status::ErrMissingHostFeature, 4),
    (Status::ErrUnsupported, 5),
    (Status::ErrExists, 6),
    (Status::ErrFormat, 7),
    (Status::ErrMemory, 8),
    (Status::ErrBadHandle, 9),
    (Status::ErrBadIndex, 10),
    (Status::ErrValue, 11),
    (Status::ReplyYes, 12),
    (Status::ReplyNo, 13),
    (Status::ReplyDefault, 14),
];

#[test]
fn statuses_have_their_codes(rt: HostRuntime) {
    for &(status, code) in CODES {
        same(&rt, status.code(), code);
    }
}
