//! What is read of a moment, and what a store reads and holds.
ghost use Rattle.std.specs.Prelude.{◌≡◌, ◌+◌, AllPairs};
ghost use Rattle.fx_seq.specs.Filling.{IsApart};
ghost use Rattle.fx_seq.specs.Held.{HasRead};
ghost use Rattle.fx_seq.specs.Moments.{AreOnce};

use crate::files::{Cause, FIRST, SECOND, add_used, library, named, told, told_frames, used};
use crate::same::{same, same_at};
use fx_outside::MemoryLibrary;
use fx_pam::PamFault;
use fx_pixel::Pixel;
use fx_seq::laws::window_is_kept;
use fx_seq::{SeqFault, SourceFrame, Store, Use, Wanted, read_due};
use std::process::Abort;

// Frame -1 of node 3, and frame 2 of node 1.
fn wanted(rt: &(impl Abort + AllocGlobal), names: (&str, &str)) -> Vec<Wanted>
    ensures { AllPairs IsApart result.items }
{
    let first = Wanted {
        node: 3,
        frame: -1,
        name: named(rt.alloc(), names.0).expect(rt, "no name"),
    };
    let second = Wanted {
        node: 1,
        frame: 2,
        name: named(rt.alloc(), names.1).expect(rt, "no name"),
    };
    let mut wanted = Vec::new(rt.alloc());
    wanted.push(first).expect(rt, "no first");
    wanted.push(second).expect(rt, "no second");
    wanted
}

fn fill(
    rt: &(impl Abort + AllocGlobal),
    names: (&str, &str),
    failing: &[u64],
    limit: u32,
) -> Result<Store, SeqFault> {
    let mut library = library(rt, failing);
    let wanted = wanted(rt, names);
    Store::fill(rt.alloc(), &mut library, &wanted, u64::from(limit), 8192)
}

#[test]
fn two_frames_are_held(rt: HostRuntime) {
    holds_both(&rt, "byte", 8, FIRST);
    holds_both(&rt, "short", 12, SECOND);
}

// A store of the frame of this name holds it, with this pixel, and the first, and no other.
fn holds_both(rt: &(impl Abort + AllocGlobal), name: &str, limit: u32, pixel: Pixel) {
    let store = fill(rt, ("byte", name), &[], limit)
        .ok()
        .expect(rt, "not filled");
    let first = store.frame(3, -1).expect(rt, "not held");
    let second = store.frame(1, 2).expect(rt, "not held");
    same(rt, first.at(0, 0), FIRST);
    same(rt, second.at(0, 0), pixel);
    for (node, frame) in [(3, 2), (1, -1), (2, -1), (3, 0)] {
        assert!(rt; store.frame(node, frame).is_none());
    }
}

const CUT: Cause<'static> = Cause::Frame(PamFault::Truncated(4, 3));

// The files of the two frames, the fetches that fail, the bytes that may be held, and the fault that is told.
type FaultRow = (
    (&'static str, &'static str),
    &'static [u64],
    u32,
    (u32, i64, Cause<'static>),
);

const FAULTS: &[FaultRow] = &[
    (("byte", "byte"), &[], 7, (1, 2, Cause::TooLarge(8))),
    (("byte", "byte"), &[], 3, (3, -1, Cause::TooLarge(4))),
    (("byte", "short"), &[], 11, (1, 2, Cause::TooLarge(12))),
    (("byte", "cut"), &[], 3, (3, -1, Cause::TooLarge(4))),
    (("byte", "cut"), &[], 4, (1, 2, CUT)),
    (("cut", "none"), &[], 8, (3, -1, CUT)),
    (("byte", "none"), &[], 8, (1, 2, Cause::Fetch("none"))),
    (("byte", "cut"), &[2], 8, (1, 2, Cause::Fetch("cut"))),
];

#[test]
fn the_first_fault_is_told(rt: HostRuntime) {
    for (names, failing, limit, fault) in FAULTS {
        let found = fill(&rt, *names, failing, *limit).err();
        let found = found.expect(&rt, "no fault");
        same(&rt, told(&found), Some(*fault));
    }
}

// What five moments use, two of which are refused by their files.
fn five_moments(rt: &(impl Abort + AllocGlobal)) -> Vec<Use> {
    let mut uses = Vec::new(rt.alloc());
    add_used(rt, &mut uses, (3, -1), "byte", (0, 2));
    add_used(rt, &mut uses, (1, 2), "short", (1, 1));
    add_used(rt, &mut uses, (3, 0), "byte", (1, 2));
    add_used(rt, &mut uses, (2, 7), "cut", (3, 3));
    add_used(rt, &mut uses, (2, 8), "none", (4, 4));
    uses
}

// A moment, the bytes that are held before it and those that may be, and the fetches that fail; what is read there, or
// the fault that is told.
type DueRow = (
    u64,
    (u32, u32),
    &'static [u64],
    Result<&'static str, (u32, i64, Cause<'static>)>,
);

const DUE: &[DueRow] = &[
    (0, (0, 4), &[], Ok("3 -1 4, ")),
    (0, (0, 3), &[], Err((3, -1, Cause::TooLarge(4)))),
    // What is held is counted, and frames are read in the order of the uses.
    (1, (4, 16), &[], Ok("1 2 8, 3 0 4, ")),
    (1, (4, 15), &[], Err((3, 0, Cause::TooLarge(16)))),
    (1, (5, 16), &[], Err((3, 0, Cause::TooLarge(17)))),
    (1, (4, 11), &[], Err((1, 2, Cause::TooLarge(12)))),
    // Nothing is due here, so nothing is refused.
    (2, (9, 0), &[], Ok("")),
    (
        3,
        (0, 3),
        &[],
        Err((2, 7, Cause::Frame(PamFault::Truncated(4, 3)))),
    ),
    (4, (0, 100), &[], Err((2, 8, Cause::Fetch("none")))),
    (1, (4, 16), &[1], Err((1, 2, Cause::Fetch("short")))),
    (1, (4, 16), &[2], Err((3, 0, Cause::Fetch("byte")))),
    // The first refusal ends the call before the second fetch.
    (1, (4, 11), &[2], Err((1, 2, Cause::TooLarge(12)))),
];

#[test]
fn what_is_due_is_read(rt: HostRuntime) {
    let alloc = rt.alloc();
    let uses = five_moments(&rt);
    for (moment, (held, limit), failing, expected) in DUE {
        let mut library = library(&rt, failing);
        let (held, limit) = (u64::from(*held), u64::from(*limit));
        match read_due(alloc, &mut library, &uses, *moment, held, limit, 8192) {
            Ok(frames) => {
                let text = told_frames(alloc, &frames).expect(&rt, "no text");
                same_at(&rt, &(moment, held, limit), Ok(text.as_str()), *expected);
            }
            Err(fault) => {
                let found = told(&fault).expect(&rt, "memory");
                same_at(&rt, &(moment, held, limit), Err(found), *expected);
            }
        }
    }
}

// What three moments use: a frame of the first two, and one of the last two.
fn three_moments(rt: &(impl Abort + AllocGlobal)) -> Vec<Use>
    ensures { AreOnce result.items }
{
    let mut uses = Vec::new(rt.alloc());
    uses.push(used(rt, (3, -1), "byte", (0, 1)))
        .expect(rt, "no first");
    uses.push(used(rt, (1, 2), "short", (1, 2)))
        .expect(rt, "no second");
    uses
}

// The store of the moment before takes what is due.
fn take(
    rt: &(impl Abort + AllocGlobal),
    library: &mut MemoryLibrary,
    uses: &[Use],
    moment: u64,
    store: &mut Store,
)
    requires once { AreOnce uses.now }
    requires read { HasRead uses.now moment store.old }
    ensures read { HasRead uses.now (moment + 1) store.new }
{
    window_is_kept();
    match read_due(rt.alloc(), library, uses, moment, 0, 100, 8192) {
        Ok(frames) => assert!(rt; store.admit(uses, moment, frames).is_ok()),
        Err(_fault) => panic!(rt; "not read"),
    }
}

// Whether each of the two frames is held.
fn are_held(store: &Store) -> (bool, bool) {
    (store.frame(3, -1).is_some(), store.frame(1, 2).is_some())
}

#[test]
fn what_no_later_moment_uses_is_let_go(rt: HostRuntime) {
    let mut library = library(&rt, &[]);
    let uses = three_moments(&rt);
    let mut store = Store::empty(rt.alloc());
    window_is_kept();
    take(&rt, &mut library, &uses, 0, &mut store);
    same(&rt, are_held(&store), (true, false));
    take(&rt, &mut library, &uses, 1, &mut store);
    same(&rt, are_held(&store), (true, true));
    take(&rt, &mut library, &uses, 2, &mut store);
    same(&rt, are_held(&store), (false, true));
}
