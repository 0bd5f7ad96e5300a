//! What a pipeline puts and how it ends: as the plain order does, in which the frames of each moment are read, its file
//! is made, and the file is put before the next.
ghost use Rattle.std.specs.Prelude.{◌≡◌, ◌≤◌, ◌^◌};

use crate::files::{Cause, add_used, library, told};
use crate::same::same_at;
use crate::toys::{CountedLibrary, ListedDepot, Meeting, Teller};
use fx_outside::MemoryDepot;
use fx_pipe::{PipeEnd, pipe};
use fx_seq::Use;
use std::process::Abort;
use std::rt::Clock;
use std::sync::Wait;
use std::thread::Threads;

// The frames that are used, with their files, and the first and the last moment of each. Two moments are the first to
// use none.
const FRAMES: &[((u32, i64), &str, (u64, u64))] = &[
    ((3, -1), "byte", (0, 3)),
    ((1, 2), "short", (1, 1)),
    ((3, 0), "byte", (1, 2)),
    ((1, 5), "short", (4, 5)),
    ((2, 7), "short", (5, 5)),
];

// The files of the moments.
const FILES: &[(&str, &str)] = &[
    ("o0", "3 -1 4, "),
    ("o1", "3 -1 4, 1 2 8, 3 0 4, "),
    ("o2", "3 -1 4, 1 2 8, 3 0 4, "),
    ("o3", "3 -1 4, 1 2 8, 3 0 4, "),
    ("o4", "3 -1 4, 1 2 8, 3 0 4, 1 5 8, "),
    ("o5", "3 -1 4, 1 2 8, 3 0 4, 1 5 8, 2 7 8, "),
];

// No more is ever held and read at a moment: 4, 8 and 4 bytes at the second, 8 and 8 at the last.
const MOST: u64 = 16;

// Which frame was not read and why, or the name that was not put.
#[derive(Clone, Copy, Debug, PartialEq, Eq)]
enum Stop<'a> {
    Done,
    Source(Option<(u32, i64, Cause<'a>)>),
    Put(&'a str),
    Memory,
}

fn told_end(end: &PipeEnd) -> Stop<'_> {
    match end {
        PipeEnd::Done => Stop::Done,
        PipeEnd::Source(fault) => Stop::Source(told(fault)),
        PipeEnd::Put(name) => Stop::Put(name.text()),
        PipeEnd::Memory => Stop::Memory,
    }
}

// How many moments there are, how many a block has, and how many bytes may be held; which fetch fails and which put,
// counted from 1, and the moment at which memory is wanting.
#[derive(Clone, Copy, Debug)]
struct Row {
    moments: u64,
    ahead: u32,
    limit: u64,
    fetch: u64,
    put: u64,
    end: Option<u64>,
}

// What became of a row: its end, the names of its puts, how often it fetched, and its files.
#[derive(Drop)]
struct Outcome {
    end: PipeEnd,
    names: String,
    fetches: u64,
    depot: MemoryDepot,
}

fn uses(rt: &(impl Abort + AllocGlobal)) -> Vec<Use> {
    let mut uses = Vec::new(rt.alloc());
    for (place, name, moments) in FRAMES {
        add_used(rt, &mut uses, *place, name, *moments);
    }
    uses
}

// A depot whose put with this number fails.
fn depot(rt: &(impl Abort + AllocGlobal), failing: u64) -> MemoryDepot {
    let failing = vec![in rt.alloc(); failing].expect(rt, "no list");
    MemoryDepot::new(rt.alloc(), failing)
}

fn ran<R: Threads + Wait + Clock + Sync + Abort + AllocGlobal>(rt: &R, row: Row) -> Outcome
    requires limit { row.limit ≤ 2 ^ 62 }
{
    let alloc = rt.alloc();
    let meeting = Meeting::new();
    let uses = uses(rt);
    let mut library = CountedLibrary {
        library: library(rt, &[row.fetch]),
        fetches: 0,
        late: "",
        meeting: &meeting,
    };
    let mut depot = ListedDepot {
        depot: depot(rt, row.put),
        names: String::new(alloc),
        late: "",
        meeting: &meeting,
    };
    let mut stage = Teller {
        uses: &uses,
        next: 0,
        seen: Vec::new(alloc),
        end: row.end,
        late: None,
        meeting: &meeting,
    };
    let end = pipe(
        rt,
        alloc,
        &mut library,
        &mut depot,
        &uses,
        row.moments,
        row.limit,
        8192,
        row.ahead,
        &mut stage,
    );
    Outcome {
        end,
        names: depot.names,
        fetches: library.fetches,
        depot: depot.depot,
    }
}

// The depot was asked to put so many first files, and has so many.
fn puts_are(rt: &(impl Abort + AllocGlobal), row: &Row, outcome: &Outcome, asked: u64, put: u64) {
    let mut names = String::new(rt.alloc());
    for ((name, text), at) in FILES.iter().zip(0..) {
        if at < asked {
            names.push_str(name).expect(rt, "no memory");
            names.push(' ').expect(rt, "no memory");
        }
        let bytes = (at < put).then_some(text.as_bytes());
        same_at(rt, row, outcome.depot.get(name), bytes);
    }
    same_at(rt, row, outcome.names.as_str(), names.as_str());
}

// The frame whose fetch fails: none where all that are due are fetched.
fn unfetched(row: &Row) -> Option<(Stop<'static>, u64)> {
    let at = row.fetch.checked_sub(1)?;
    let (place, name, moments) = FRAMES.get(at as usize)?;
    let cause = Cause::Fetch(name);
    Some((Stop::Source(Some((place.0, place.1, cause))), moments.0))
}

// How the plain order ends, and how many files it puts before.
fn plain(row: &Row) -> (Stop<'static>, u64) {
    let unfetched = unfetched(row);
    let failing = row.put.checked_sub(1);
    for ((name, _), moment) in FILES.iter().zip(0..row.moments) {
        match unfetched {
            Some((stop, at)) if at == moment => return (stop, moment),
            _ if failing == Some(moment) => return (Stop::Put(name), moment),
            _ => {}
        }
    }
    (Stop::Done, row.moments)
}

// How often the plain order fetches, where it ends before a put fails.
fn fetches(row: &Row, stop: Stop<'_>) -> u64 {
    if stop == Stop::Done {
        FRAMES.iter().filter(|f| f.2.0 < row.moments).count() as u64
    } else {
        row.fetch
    }
}

#[test]
fn it_ends_as_the_plain_order_does(rt: HostRuntime) {
    // Blocks of 1 to 4 moments, 0 to 6 moments, none or one of 5 fetches that fails, none or one of 6 puts.
    for number in 0..4 * 7 * 6 * 7 {
        let row = Row {
            ahead: 1 + number % 4,
            moments: u64::from(number / 4 % 7),
            fetch: u64::from(number / 28 % 6),
            put: u64::from(number / 168),
            limit: MOST,
            end: None,
        };
        let outcome = ran(&rt, row);
        let (wanted, put) = plain(&row);
        same_at(&rt, &row, told_end(&outcome.end), wanted);
        if let Stop::Put(_) = wanted {
            puts_are(&rt, &row, &outcome, put.saturating_add(1), put);
        } else {
            puts_are(&rt, &row, &outcome, put, put);
            same_at(&rt, &row, outcome.fetches, fetches(&row, wanted));
        }
    }
}

// How many bytes may be held, the frame that has too many with those before it, and how many files are put.
const LIMITS: &[(u64, Option<(u32, i64, u64)>, u64)] = &[
    (16, None, 6),
    // The first frame is held still.
    (15, Some((3, 0, 16)), 1),
    (11, Some((1, 2, 12)), 1),
    (3, Some((3, -1, 4)), 0),
];

#[test]
fn frames_are_held_up_to_a_limit(rt: HostRuntime) {
    for ahead in 1..5 {
        for (limit, large, put) in LIMITS {
            let row = Row {
                ahead,
                moments: 6,
                fetch: 0,
                put: 0,
                limit: *limit,
                end: None,
            };
            let wanted = match large {
                None => Stop::Done,
                Some((node, frame, sum)) => Stop::Source(Some((
                    *node,
                    *frame,
                    Cause::TooLarge(*sum),
                ))),
            };
            let outcome = ran(&rt, row);
            same_at(&rt, &row, told_end(&outcome.end), wanted);
            puts_are(&rt, &row, &outcome, *put, *put);
        }
    }
}

// How many moments a block has, at which moment memory is wanting, and which put fails; the end, and how many files are
// asked for and put.
const WANTING: &[(u32, u64, u64, Stop<'static>, u64, u64)] = &[
    (1, 0, 0, Stop::Memory, 0, 0),
    (1, 3, 0, Stop::Memory, 3, 3),
    (2, 3, 0, Stop::Memory, 2, 2),
    (4, 5, 0, Stop::Memory, 4, 4),
    (4, 3, 1, Stop::Memory, 0, 0),
    // The put that fails is of the same round, or of one before.
    (1, 3, 3, Stop::Put("o2"), 3, 2),
    (2, 5, 1, Stop::Put("o0"), 1, 0),
];

#[test]
fn it_ends_with_the_round_where_memory_is_wanting(rt: HostRuntime) {
    for (ahead, moment, failing, wanted, asked, put) in WANTING {
        let row = Row {
            ahead: *ahead,
            moments: 6,
            fetch: 0,
            put: *failing,
            limit: MOST,
            end: Some(*moment),
        };
        let outcome = ran(&rt, row);
        same_at(&rt, &row, told_end(&outcome.end), *wanted);
        puts_are(&rt, &row, &outcome, *asked, *put);
    }
}

// The file of the third block's first moment is fetched while one of the second is made and one of the first is put:
// each waits for the others.
#[test]
fn the_parts_of_a_round_meet(rt: HostRuntime) {
    let alloc = rt.alloc();
    for ahead in 1..5 {
        let meeting = Meeting::new();
        let late = 2 * u64::from(ahead);
        let mut uses = Vec::new(alloc);
        add_used(&rt, &mut uses, (0, 0), "byte", (late, late));
        let mut library = CountedLibrary {
            library: library(&rt, &[]),
            fetches: 0,
            late: "byte",
            meeting: &meeting,
        };
        let mut depot = ListedDepot {
            depot: MemoryDepot::new(alloc, Vec::new(alloc)),
            names: String::new(alloc),
            late: "o0",
            meeting: &meeting,
        };
        let mut stage = Teller {
            uses: &uses,
            next: 0,
            seen: Vec::new(alloc),
            end: None,
            late: Some(u64::from(ahead)),
            meeting: &meeting,
        };
        let moments = late + 1;
        let end = pipe(
            &rt,
            alloc,
            &mut library,
            &mut depot,
            &uses,
            moments,
            MOST,
            8192,
            ahead,
            &mut stage,
        );
        same_at(&rt, &ahead, told_end(&end), Stop::Done);
    }
}
