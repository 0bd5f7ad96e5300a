//! Rows worked by hand: values between keys, refusals, and each call once with ample memory.
ghost use Rattle.std.specs.Prelude.{◌≤ℤ◌, pos};

use crate::same::{same, same_at};
use fx_base::Fix;
use fx_params::{Param, ParamDef, ParamFault, ParamKind, ParamValue};
use std::process::Abort;

fn set_key(rt: &(impl Abort + AllocGlobal), param: &mut Param, frame: i16, value: ParamValue) {
    param
        .set_key(rt.alloc(), i64::from(frame), value)
        .expect(rt, "no key");
}

// A parameter from -20 to 20 that starts with 7.
fn param(rt: &(impl Abort + AllocGlobal), kind: ParamKind) -> Param {
    let mut def = ParamDef::int(rt.alloc(), "amount", -20, 20, 7).expect(rt, "no definition");
    def.kind = kind;
    Param::new(rt.alloc(), def).expect(rt, "no parameter")
}

// Values, what they are divided by, and what they become.
const HALVES: &[(i64, u32, i64)] = &[
    (7, 2, 4),
    (1, 2, 1),
    (5, 1, 5),
    (20, 8, 3),
    (11, 8, 1),
    (-1, 2, 0),
    (-3, 2, -1),
    (-5, 4, -1),
    (-7, 4, -2),
    (-20, 8, -2),
];

// What each value becomes without keys and at a key, in a parameter from the least to 20.
fn divides(rt: &(impl Abort + AllocGlobal), least: i64, start: i64, rows: &[(i64, u32, i64)])
    requires low { least ≤ℤ start }
    requires high { start ≤ℤ pos 20 }
{
    for &(value, by, wanted) in rows {
        let def = ParamDef::int(rt.alloc(), "amount", least, 20, start).expect(rt, "no number");
        let mut param = Param::new(rt.alloc(), def).expect(rt, "no parameter");
        let set = param.set_value(ParamValue::Int(value));
        set.expect(rt, "no value");
        let key = param.set_key(rt.alloc(), 3, ParamValue::Int(value));
        key.expect(rt, "no key");
        param.divide(by.max(1));
        let had = (param.plain(), param.value_at(3));
        same_at(rt, &value, had, (wanted, wanted));
    }
}

#[test]
fn divides_to_the_nearest_and_halves_up(rt: HostRuntime) {
    divides(&rt, -20, 7, HALVES);
}

// The same, of a size that is at least 1.
const SIZES: &[(i64, u32, i64)] = &[(3, 8, 1), (1, 2, 1), (1, 4, 1), (6, 4, 2)];

#[test]
fn divides_to_the_least_at_least(rt: HostRuntime) {
    divides(&rt, 1, 3, SIZES);
}

// Frames, and the values there between two keys and in steps.
const BETWEEN: &[(i64, i64, i64)] = &[
    (9, 0, 0),
    (10, 0, 0),
    (11, -4, 0),
    (12, -7, 0),
    (13, -10, -10),
    (14, -10, -10),
];

#[test]
fn falls_between_two_keys(rt: HostRuntime) {
    let mut param = param(&rt, ParamKind::Int);
    set_key(&rt, &mut param, 13, ParamValue::Int(-10));
    set_key(&rt, &mut param, 10, ParamValue::Int(0));
    for &(frame, linear, stepped) in BETWEEN {
        param.set_step(false);
        same(&rt, param.value_at(frame), linear);
        param.set_step(true);
        same(&rt, param.value_at(frame), stepped);
    }

    same(&rt, param.key_index(11), Err(ParamFault::NoSuchKey));
    same(&rt, param.key_time(2), Err(ParamFault::BadIndex));
    let refused = param.set_key(rt.alloc(), 11, ParamValue::Flag(true));
    same(&rt, refused, Err(ParamFault::WrongKind));
    same(&rt, param.key_count(), 2);
    same(&rt, param.key_time(0), Ok(10));
    same(&rt, param.key_time(1), Ok(13));
    same(&rt, param.value_at(11), 0);
}

// A kind, the values at the keys -3 and 1, and those of the frames -4 to 2.
const KINDS: &[(ParamKind, ParamValue, ParamValue, [i64; 7])] = &[
    (
        ParamKind::Int,
        ParamValue::Int(5),
        ParamValue::Int(0),
        [5, 5, 3, 2, 1, 0, 0],
    ),
    (
        ParamKind::Fix,
        ParamValue::Fix(Fix { raw: -1 }),
        ParamValue::Fix(Fix { raw: 1 }),
        [-1, -1, -1, 0, 0, 1, 1],
    ),
    (
        ParamKind::Bool,
        ParamValue::Flag(true),
        ParamValue::Flag(false),
        [1, 1, 1, 1, 1, 0, 0],
    ),
    (
        ParamKind::Choice,
        ParamValue::Choice(4),
        ParamValue::Choice(9),
        [4, 4, 4, 4, 4, 9, 9],
    ),
];

#[test]
fn follows_keys_of_every_kind(rt: HostRuntime) {
    for (kind, first, second, values) in KINDS {
        let mut param = param(&rt, *kind);
        set_key(&rt, &mut param, -3, *first);
        set_key(&rt, &mut param, 1, *second);
        follows(&rt, &param, values);
    }
}

// The values of the frames from -4 on.
fn follows(rt: &impl Abort, param: &Param, values: &[i64]) {
    for (frame, &value) in (-4..).zip(values) {
        same_at(rt, &frame, param.value_at(frame), value);
    }
}

// Frames from one end to the other, and the values there.
const ALL_THE_WAY: &[(i64, i64)] = &[
    (-1073741824, i64::MIN),
    (-1073741823, -9223372028264841217),
    (0, -1),
    (1073741823, 9223372028264841215),
    (1073741824, i64::MAX),
];

#[test]
fn goes_all_the_way(rt: HostRuntime) {
    let (least, greatest) = (i64::MIN, i64::MAX);
    let def = ParamDef::int(rt.alloc(), "amount", least, greatest, 7).expect(&rt, "no definition");
    let mut param = Param::new(rt.alloc(), def).expect(&rt, "no parameter");
    let first = param.set_key(rt.alloc(), -1073741824, ParamValue::Int(i64::MIN));
    same(&rt, first, Ok(()));
    let last = param.set_key(rt.alloc(), 1073741824, ParamValue::Int(i64::MAX));
    same(&rt, last, Ok(()));
    for &(frame, value) in ALL_THE_WAY {
        same(&rt, param.value_at(frame), value);
    }
}

#[test]
fn sets_and_deletes(rt: HostRuntime) {
    let mut param = param(&rt, ParamKind::Choice);
    sets(&rt, &mut param);
    deletes(&rt, &mut param);
}

fn sets(rt: &impl Abort, param: &mut Param) {
    same(rt, param.def().name.text(), "amount");
    same(
        rt,
        (param.plain(), param.is_step(), param.key_count()),
        (7, false, 0),
    );
    same(rt, param.value_at(5), 7);
    same(rt, param.set_value(ParamValue::Choice(20)), Ok(()));
    same(
        rt,
        param.set_value(ParamValue::Choice(21)),
        Err(ParamFault::OutOfRange),
    );
    same(
        rt,
        param.set_value(ParamValue::Int(21)),
        Err(ParamFault::WrongKind),
    );
    same(rt, param.plain(), 20);
    param.set_step(true);
    assert!(rt; param.is_step());
}

// Frames, the choices that are set there, and how many keys there are then.
const CHOICES: &[(i16, u32, u32)] = &[(4, 3, 1), (2, 5, 2), (4, 6, 2), (9, 1, 3)];

fn deletes(rt: &(impl Abort + AllocGlobal), param: &mut Param) {
    for &(frame, place, count) in CHOICES {
        set_key(rt, param, frame, ParamValue::Choice(place));
        same(rt, param.key_count(), count);
        same(rt, param.value_at(i64::from(frame)), i64::from(place));
    }
    same(rt, param.key_index(9), Ok(2));
    same(rt, param.delete_key(4), Ok(()));
    same(rt, param.delete_key(4), Err(ParamFault::NoSuchKey));
    same(rt, param.key_index(9), Ok(1));
    same(rt, param.value_at(8), 5);
    param.delete_all();
    same(rt, param.key_count(), 0);
    same(rt, param.value_at(8), 20);
}

#[test]
fn defines_each_kind(rt: HostRuntime) {
    defines_numbers(&rt);
    defines_a_flag(&rt);
    defines_a_choice(&rt);
}

// Its name, its kind, its range, and with what it starts and how many texts it has.
fn defines(
    rt: &impl Abort,
    def: &ParamDef,
    name: &str,
    kind: ParamKind,
    range: (i64, i64),
    start: (i64, usize),
) {
    same(rt, def.name.text(), name);
    same(rt, def.kind, kind);
    same(rt, (def.least, def.greatest), range);
    same(rt, (def.start, def.choices.items().len()), start);
}

fn defines_numbers(rt: &(impl Abort + AllocGlobal)) {
    let whole = ParamDef::int(rt.alloc(), "radius", 0, 64, 4).expect(rt, "no number");
    defines(rt, &whole, "radius", ParamKind::Int, (0, 64), (4, 0));
    let (low, high) = (Fix { raw: -1 }, Fix { raw: 65536 });
    let start = Fix { raw: 7 };
    let number = ParamDef::fix(rt.alloc(), "amount", low, high, start).expect(rt, "no fix");
    defines(rt, &number, "amount", ParamKind::Fix, (-1, 65536), (7, 0));
}

fn defines_a_flag(rt: &(impl Abort + AllocGlobal)) {
    let flag = ParamDef::flag(rt.alloc(), "invert", true).expect(rt, "no flag");
    defines(rt, &flag, "invert", ParamKind::Bool, (0, 1), (1, 0));
    same(
        rt,
        flag.taken(ParamValue::Int(1)),
        Err(ParamFault::WrongKind),
    );
}

fn defines_a_choice(rt: &(impl Abort + AllocGlobal)) {
    let choice = ParamDef::choice(rt.alloc(), "mode", &["over", "plus"], 1).expect(rt, "no choice");
    defines(rt, &choice, "mode", ParamKind::Choice, (0, 1), (1, 2));
    let second = choice.choices.items().get(1).expect(rt, "no text");
    same(rt, second.text(), "plus");
    same(rt, choice.taken(ParamValue::Choice(1)), Ok(1));
    same(
        rt,
        choice.taken(ParamValue::Choice(2)),
        Err(ParamFault::OutOfRange),
    );
}
