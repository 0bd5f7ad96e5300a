//! Runs of cases over objects in memory, and what they left beside what is wanted.
use crate::case::{Case, Fails, Meets, Wanted};
use crate::fault::CaseFault;
use crate::meeting::Meeting;
use crate::noted::{Awaited, Calls, NotedDepot, NotedLibrary, calls_of};
use crate::pace::CasePace;
use crate::tell::{At, bytes_are, is_kept, report_is, status_is, text_is};
use fx_app::run;
use fx_outside::{MemoryDepot, MemoryLibrary, MemorySink};
use serde_json::Value;
use std::alloc::{AllocError, Global};
use std::io::Print;
use std::rt::Clock;
use std::sync::Wait;
use std::sync::atomic::AtomicU64;
use std::thread::Threads;

// What a run is over.
#[derive(Drop)]
struct Objects<'t> {
    library: NotedLibrary<'t>,
    depot: NotedDepot<'t>,
    out: MemorySink,
    err: MemorySink,
}

// What a run answered, and whether those that were to wait for each other met.
#[derive(Clone, Copy)]
struct Ending {
    status: u8,
    paced: bool,
    met: bool,
}

// The objects of a case, of which a fetch and a put may wait for each other.
fn objects_of<'t>(
    alloc: Global,
    case: Case<'t>,
    turns: &'t AtomicU64,
    meeting: &'t Meeting,
) -> Result<Objects<'t>, CaseFault> {
    let meets = case.meets()?;
    let files = case.files(alloc)?;
    let fails = case.fails(alloc)?;
    let Fails {
        fetch: fetches,
        put: puts,
        out,
        err,
    } = fails;
    Ok(Objects {
        library: NotedLibrary {
            library: MemoryLibrary::new(alloc, files, fetches),
            calls: Calls::new(alloc, turns),
            awaited: Awaited {
                name: meets.fetch,
                meeting,
            },
        },
        depot: NotedDepot {
            depot: MemoryDepot::new(alloc, puts),
            calls: Calls::new(alloc, turns),
            awaited: Awaited {
                name: meets.put,
                meeting,
            },
        },
        out: MemorySink::new(alloc, out),
        err: MemorySink::new(alloc, err),
    })
}

// The status of a run by these words.
fn status_of<R: Threads + Wait + Clock + Sync>(
    rt: &R,
    alloc: Global,
    words: &[String],
    objects: &mut Objects<'_>,
    pace: &CasePace,
) -> u8 {
    run(
        rt,
        alloc,
        words,
        &mut objects.library,
        &mut objects.depot,
        &mut objects.out,
        &mut objects.err,
        pace,
    )
}

// Whether the depot has the files that are wanted, and none that is to be absent.
fn files_are<R: Print>(
    rt: &R,
    alloc: Global,
    at: &At<'_>,
    wanted: Wanted<'_>,
    depot: &MemoryDepot,
) -> Result<bool, CaseFault> {
    let Some(files) = wanted.files()? else {
        return Ok(true);
    };
    let mut right = true;
    for (name, file) in files.iter() {
        right &= file_is(rt, alloc, at, wanted, name.as_str(), file, depot)?;
    }
    Ok(right)
}

// Whether the depot has a file as it is said, or none.
fn file_is<R: Print>(
    rt: &R,
    alloc: Global,
    at: &At<'_>,
    wanted: Wanted<'_>,
    name: &str,
    file: &Value,
    depot: &MemoryDepot,
) -> Result<bool, CaseFault> {
    let bytes = wanted.bytes(alloc, file)?;
    let is = bytes_are(rt, alloc, at, name, bytes.as_deref(), depot.get(name))?;
    Ok(is)
}

// Whether words have fetches and puts go beside each other, in no order.
fn reads_ahead(words: &[String]) -> bool {
    for word in words {
        if word.as_str() == "--ahead" {
            return true;
        }
    }
    false
}

// Whether the calls came in this order, where they come in one.
fn calls_come<R: Print>(
    rt: &R,
    alloc: Global,
    at: &At<'_>,
    wanted: &str,
    objects: &Objects<'_>,
) -> Result<bool, AllocError> {
    if reads_ahead(at.words) {
        return Ok(true);
    }
    let found = calls_of(alloc, &objects.library.calls, &objects.depot.calls)?;
    text_is(rt, alloc, at, "calls", wanted, found.as_bytes())
}

// Whether the calls are those that are wanted.
fn calls_are<R: Print>(
    rt: &R,
    alloc: Global,
    at: &At<'_>,
    wanted: Wanted<'_>,
    objects: &Objects<'_>,
) -> Result<bool, CaseFault> {
    match wanted.calls(alloc)? {
        Some(calls) => Ok(calls_come(rt, alloc, at, calls.as_str(), objects)?),
        None => Ok(true),
    }
}

// Whether the report is what run `number` of a case is to write.
fn out_is<R: Print>(
    rt: &R,
    alloc: Global,
    at: &At<'_>,
    wanted: Wanted<'_>,
    number: u64,
    found: &[u8],
) -> Result<bool, CaseFault> {
    match wanted.report(number)? {
        Some(text) => Ok(report_is(rt, alloc, at, text, found)?),
        None => Ok(true),
    }
}

// Whether a run ended as is wanted.
fn ending_is<R: Print>(
    rt: &R,
    at: &At<'_>,
    wanted: Wanted<'_>,
    ending: Ending,
) -> Result<bool, CaseFault> {
    let status = status_is(rt, at, wanted.status()?, ending.status);
    let paced = is_kept(rt, at, "pace", ending.paced);
    let met = is_kept(rt, at, "meet", ending.met);
    Ok(status & paced & met)
}

// Whether run `number` of a case left what is wanted.
fn is_wanted<R: Print>(
    rt: &R,
    alloc: Global,
    at: &At<'_>,
    case: Case<'_>,
    number: u64,
    objects: &Objects<'_>,
    ending: Ending,
) -> Result<bool, CaseFault> {
    let wanted = case.wanted()?;
    let ended = ending_is(rt, at, wanted, ending)?;
    let out = out_is(rt, alloc, at, wanted, number, objects.out.bytes())?;
    let err = text_is(rt, alloc, at, "err", wanted.line()?, objects.err.bytes())?;
    let files = files_are(rt, alloc, at, wanted, &objects.depot.depot)?;
    let calls = calls_are(rt, alloc, at, wanted, objects)?;
    Ok(ended & out & err & files & calls)
}

// Runs a case over these objects, as its run `number`. Whether it left what is wanted.
fn run_is_right<R: Threads + Wait + Clock + Print + Sync>(
    rt: &R,
    alloc: Global,
    at: &At<'_>,
    case: Case<'_>,
    number: u64,
    objects: &mut Objects<'_>,
    meeting: &Meeting,
) -> Result<bool, CaseFault> {
    let pace = CasePace::new(case.holds()?);
    let meets = case.meets()?;
    let status = status_of(rt, alloc, at.words, objects, &pace);
    let ending = Ending {
        status,
        paced: pace.was_kept(),
        met: have_met(meets, meeting),
    };
    is_wanted(rt, alloc, at, case, number, objects, ending)
}

// Makes the objects of a case, and runs it over them.
fn leaves_it<R: Threads + Wait + Clock + Print + Sync>(
    rt: &R,
    alloc: Global,
    at: &At<'_>,
    case: Case<'_>,
    number: u64,
) -> Result<bool, CaseFault> {
    let meeting = Meeting::new();
    let turns = AtomicU64::new(0);
    let mut objects = objects_of(alloc, case, &turns, &meeting)?;
    run_is_right(rt, alloc, at, case, number, &mut objects, &meeting)
}

fn have_met(meets: Meets<'_>, meeting: &Meeting) -> bool {
    meets.fetch.is_none() || meeting.was_kept()
}

/// Runs a case, as its run `number`, with these words behind its own. Whether it left what is wanted; each part that is
/// other is told.
pub(crate) fn is_right<R: Threads + Wait + Clock + Print + Sync>(
    rt: &R,
    alloc: Global,
    file: &str,
    case: Case<'_>,
    number: u64,
    behind: Option<&Value>,
) -> Result<bool, CaseFault> {
    let name = case.name()?;
    let mut words = Vec::new(alloc);
    case.add_words(alloc, behind, &mut words)?;
    let at = At {
        file,
        name,
        words: &words,
    };
    leaves_it(rt, alloc, &at, case, number)
}
