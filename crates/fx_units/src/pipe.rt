//! What a block of moments reads and puts, and how a line ends.
ghost use Rattle.std.specs.Prelude.{◌≡◌, ◌≤◌};
ghost use Rattle.fx_pipe.specs.Reads.{IsSchedule, kept_size};

use crate::files::{Cause, add_used, library, named, told, told_frames};
use crate::same::same_at;
use fx_outside::{MemoryDepot, MemoryLibrary};
use fx_pam::PamFault;
use fx_pipe::{Line, Made, PutStop, Reader, Schedule, put_block, read_on};
use fx_seq::{SeqFault, SourceFrame, Use};
use std::alloc::{AllocError, Global};
use std::collections::VecDeque;
use std::process::Abort;

// What three moments use: a frame that all of them use, and one more each of the second and the third.
fn three_moments(rt: &(impl Abort + AllocGlobal), names: (&str, &str, &str)) -> Vec<Use> {
    let mut uses = Vec::new(rt.alloc());
    add_used(rt, &mut uses, (3, -1), names.0, (0, 2));
    add_used(rt, &mut uses, (1, 2), names.1, (1, 1));
    add_used(rt, &mut uses, (3, 0), names.2, (2, 2));
    uses
}

// The frames of the moments that a block reads.
fn block(
    rt: &(impl Abort + AllocGlobal),
    library: &mut MemoryLibrary,
    schedule: &Schedule<'_>,
    reader: &mut Reader,
    fault: &mut Option<SeqFault>,
) -> String
    requires schedule { IsSchedule schedule.now }
    requires next { reader.old.next ≤ schedule.now.moments }
    requires few { kept_size schedule.now.uses.now reader.old.next reader.old.kept.items ≤ schedule.now.limit }
    ensures next { reader.new.next ≤ schedule.now.moments }
    ensures few { kept_size schedule.now.uses.now reader.new.next reader.new.kept.items ≤ schedule.now.limit }
{
    let mut fetched = VecDeque::new(rt.alloc());
    read_on(rt.alloc(), library, schedule, reader, fault, &mut fetched);
    told_block(rt.alloc(), &fetched).expect(rt, "no text")
}

fn told_block(alloc: Global, block: &VecDeque<Vec<SourceFrame>>) -> Result<String, AllocError> {
    let mut text = String::new(alloc);
    for frames in block {
        text.push_str(told_frames(alloc, frames)?.as_str())?;
        text.push_str("| ")?;
    }
    Ok(text)
}

fn told_fault(fault: &Option<SeqFault>) -> Option<(u32, i64, Cause<'_>)> {
    match fault {
        Some(fault) => told(fault),
        None => None,
    }
}

// What a block reads, the moment that is next, and the fault that is kept.
type Left = (&'static str, u64, Option<(u32, i64, Cause<'static>)>);

// The files of the three moments, the fetches that fail, the bytes that may be held, and how many moments a block has;
// what a first block leaves, and a second.
type BlockRow = (
    (&'static str, &'static str, &'static str),
    &'static [u64],
    u32,
    u32,
    (Left, Left),
);

const CUT: Option<(u32, i64, Cause<'static>)> = Some((
    1,
    2,
    Cause::Frame(PamFault::Truncated(4, 3)),
));

const BLOCKS: &[BlockRow] = &[
    // The second frame is not counted at the third moment.
    (
        ("byte", "short", "byte"),
        &[],
        12,
        2,
        (("3 -1 4, | 1 2 8, | ", 2, None), ("3 0 4, | ", 3, None)),
    ),
    // The first one is.
    (
        ("byte", "byte", "short"),
        &[],
        11,
        2,
        (
            ("3 -1 4, | 1 2 4, | ", 2, None),
            ("", 2, Some((3, 0, Cause::TooLarge(12)))),
        ),
    ),
    // A block has a moment at least, and ends with the moments.
    (
        ("byte", "short", "byte"),
        &[],
        12,
        0,
        (("3 -1 4, | ", 1, None), ("1 2 8, | ", 2, None)),
    ),
    (
        ("byte", "byte", "byte"),
        &[],
        12,
        4,
        (("3 -1 4, | 1 2 4, | 3 0 4, | ", 3, None), ("", 3, None)),
    ),
    // A fault is kept: the second block fetches nothing, neither where that would fail nor where it would do.
    (
        ("byte", "cut", "byte"),
        &[3],
        12,
        3,
        (("3 -1 4, | ", 1, CUT), ("", 1, CUT)),
    ),
    (
        ("byte", "short", "byte"),
        &[2],
        12,
        3,
        (
            ("3 -1 4, | ", 1, Some((1, 2, Cause::Fetch("short")))),
            ("", 1, Some((1, 2, Cause::Fetch("short")))),
        ),
    ),
    (
        ("byte", "short", "byte"),
        &[],
        11,
        1,
        (
            ("3 -1 4, | ", 1, None),
            ("", 1, Some((1, 2, Cause::TooLarge(12)))),
        ),
    ),
];

#[test]
fn a_block_is_read_up_to_a_fault(rt: HostRuntime) {
    for (names, failing, limit, ahead, (first, second)) in BLOCKS {
        let mut library = library(&rt, failing);
        let uses = three_moments(&rt, *names);
        let schedule = Schedule {
            uses: &uses,
            moments: 3,
            limit: u64::from(*limit),
            most_side: 8192,
            ahead: *ahead,
        };
        let mut reader = Reader::new(rt.alloc());
        let mut fault = None;
        let text = block(&rt, &mut library, &schedule, &mut reader, &mut fault);
        same_at(
            &rt,
            &(names, ahead),
            (text.as_str(), reader.next, told_fault(&fault)),
            *first,
        );
        let text = block(&rt, &mut library, &schedule, &mut reader, &mut fault);
        same_at(
            &rt,
            &(names, ahead),
            (text.as_str(), reader.next, told_fault(&fault)),
            *second,
        );
    }
}

// Adds a file to a block.
fn add_made(rt: &(impl Abort + AllocGlobal), block: &mut VecDeque<Made>, name: &str, bytes: &[u8]) {
    let made = Made {
        name: named(rt.alloc(), name).expect(rt, "no name"),
        bytes: bytes.to_vec(rt.alloc()).expect(rt, "no bytes"),
    };
    block.push_back(made).expect(rt, "no file");
}

// The name whose put failed: none where all were put.
fn failed(put: &Result<(), PutStop>) -> Option<&str> {
    match put {
        Err(PutStop::Failed(name)) => Some(name.text()),
        Err(PutStop::Memory) => Some("memory"),
        Ok(()) => None,
    }
}

// The puts that fail, and the name that is told; the files a and b, how many bytes are spare of each that was put, and
// how many files are left.
const PUTS: &[(
    &[u64],
    Option<&str>,
    Option<&[u8]>,
    Option<&[u8]>,
    &[usize],
    usize,
)] = &[
    (&[], None, Some(b"third"), Some(b"2"), &[5, 1, 5], 0),
    (&[3], Some("a"), Some(b"first"), Some(b"2"), &[5, 1], 0),
    (&[2, 3], Some("b"), Some(b"first"), None, &[5], 1),
    (&[1], Some("a"), None, None, &[], 2),
];

fn lengths(alloc: Global, spare: &VecDeque<Vec<u8>>) -> Result<Vec<usize>, AllocError> {
    let mut lengths = Vec::new(alloc);
    for bytes in spare {
        lengths.push(bytes.len())?;
    }
    Ok(lengths)
}

// The files a, b and a again.
fn three_files(rt: &(impl Abort + AllocGlobal)) -> VecDeque<Made> {
    let mut block = VecDeque::new(rt.alloc());
    add_made(rt, &mut block, "a", b"first");
    add_made(rt, &mut block, "b", b"2");
    add_made(rt, &mut block, "a", b"third");
    block
}

#[test]
fn files_are_put_up_to_one_that_fails(rt: HostRuntime) {
    let alloc = rt.alloc();
    for (failing, name, a, b, bytes, left) in PUTS {
        let failing_puts = failing.to_vec(alloc).expect(&rt, "no list");
        let mut depot = MemoryDepot::new(alloc, failing_puts);
        let mut block = three_files(&rt);
        let mut spare = VecDeque::new(alloc);
        let put = put_block(alloc, &mut depot, &mut block, &mut spare);
        same_at(&rt, failing, (failed(&put), block.len()), (*name, *left));
        same_at(&rt, failing, (depot.get("a"), depot.get("b")), (*a, *b));
        let lengths = lengths(alloc, &spare).expect(&rt, "no lengths");
        same_at(&rt, failing, lengths.as_slice(), *bytes);
    }
}

// A line where a block of so many moments was read and one of so many was made, up to this next moment.
fn line(
    rt: &(impl Abort + AllocGlobal),
    fault: Option<SeqFault>,
    next: u64,
    fetched: u32,
    files: u32,
) -> Line {
    let mut line = Line::new(rt.alloc());
    line.fault = fault;
    line.reader.next = next;
    for _ in 0..fetched {
        line.fetched
            .push_back(Vec::new(rt.alloc()))
            .expect(rt, "no moment");
    }
    for _ in 0..files {
        add_made(rt, &mut line.made, "a", b"");
    }
    line
}

#[test]
fn a_line_of_three_moments_ends(rt: HostRuntime) {
    let alloc = rt.alloc();
    let large = "Source(TooLarge(1, 2, 12))";
    // The fault, the next moment, how many moments were read and made; whether the line is over and wants memory, and
    // its end.
    let table = [
        (None, 3, (0, 0), (true, false), "Done"),
        (None, 2, (0, 0), (false, false), "Done"),
        (None, 3, (1, 0), (false, false), "Done"),
        (None, 3, (0, 1), (false, false), "Done"),
        (
            Some(SeqFault::TooLarge(1, 2, 12)),
            1,
            (0, 0),
            (true, false),
            large,
        ),
        (
            Some(SeqFault::TooLarge(1, 2, 12)),
            1,
            (1, 0),
            (false, false),
            large,
        ),
        (
            Some(SeqFault::TooLarge(1, 2, 12)),
            1,
            (0, 1),
            (false, false),
            large,
        ),
        (
            Some(SeqFault::Memory),
            1,
            (0, 0),
            (true, true),
            "Source(Memory)",
        ),
    ];
    for (fault, next, (fetched, files), states, expected) in table {
        let mut line = line(&rt, fault, next, fetched, files);
        let row = (next, fetched, files);
        same_at(&rt, &row, (line.is_over(3), line.wants_memory()), states);
        let end = line.end();
        let text = format!(in alloc; "{end:?}").expect(&rt, "no text");
        same_at(
            &rt,
            &row,
            (text.as_str(), line.fault.is_none()),
            (expected, true),
        );
    }
}
