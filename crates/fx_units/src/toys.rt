//! A library, a depot and a stage that tell what was asked of them, and may wait for one another.
ghost use Rattle.std.specs.Prelude.{◌≡◌, []};
ghost use Rattle.fx_outside.specs.Objects.{depot_calls, depot_files, library_calls, library_files};
ghost use Rattle.fx_pipe.specs.Reads.{due_places};

use crate::files::{named, told_frames};
use fx_base::Memory;
use fx_outside::{Depot, FetchFault, Library, MemoryDepot, MemoryLibrary, PutFault};
use fx_pipe::{Made, Stage};
use fx_seq::{SourceFrame, Use};
use std::alloc::Global;
use std::rt::Clock;
use std::sync::Wait;
use std::sync::atomic::{AtomicU64, Ordering};
use std::thread;
use std::thread::Threads;

// How often one looks for the others before it gives up.
const TURNS: u32 = 100_000_000;

// Where a fetch, a put and the making of a file meet.
#[derive(Drop)]
pub(crate) struct Meeting {
    begun: AtomicU64,
}

impl Meeting {
    pub(crate) fn new() -> Meeting {
        Meeting {
            begun: AtomicU64::new(0),
        }
    }

    // Whether all three begin before one gives up.
    fn is_met(&self) -> bool {
        self.begun.fetch_add(1, Ordering::SeqCst);
        for _ in 0..TURNS {
            if self.begun.load(Ordering::SeqCst) >= 3 {
                return true;
            }
            thread::yield_now();
        }
        false
    }
}

// A library that counts its fetches. At one of a file of the name `late` it waits.
#[derive(Drop)]
pub(crate) struct CountedLibrary<'m> {
    pub(crate) library: MemoryLibrary,
    pub(crate) fetches: u64,
    pub(crate) late: &'static str,
    pub(crate) meeting: &'m Meeting,
}

impl<'m> Library for CountedLibrary<'m> {
    ghost tells = { Unit {0} };

    ghost file = { λ l. library_files l.library };

    ghost faults = { λ l. (library_calls l.library).faults };

    ghost last = { λ l. (library_calls l.library).last };

    fn fetch(&mut self, alloc: Global, name: &str) -> Result<Vec<u8>, FetchFault> {
        self.fetches = self.fetches.saturating_add(1);
        if name == self.late && !self.meeting.is_met() {
            return Err(FetchFault::Memory);
        }
        self.library.fetch(alloc, name)
    }
}

// A depot that lists the names of its puts. At one of the name `late` it waits.
#[derive(Drop)]
pub(crate) struct ListedDepot<'m> {
    pub(crate) depot: MemoryDepot,
    pub(crate) names: String,
    pub(crate) late: &'static str,
    pub(crate) meeting: &'m Meeting,
}

impl<'m> Depot for ListedDepot<'m> {
    ghost tells = { Unit {0} };

    ghost file = { λ d. depot_files d.depot };

    ghost faults = { λ d. (depot_calls d.depot).faults };

    ghost last = { λ d. (depot_calls d.depot).last };

    fn put(&mut self, alloc: Global, name: &str, bytes: &[u8]) -> Result<(), PutFault> {
        if self.names.push_str(name).is_err() || self.names.push(' ').is_err() {
            return Err(PutFault::Memory);
        }
        if name == self.late && !self.meeting.is_met() {
            return Err(PutFault::Memory);
        }
        self.depot.put(alloc, name, bytes)
    }
}

// A stage whose file of a moment tells all frames that it was handed by then. Memory is wanting at the moment `end`,
// and at the moment `late` it waits.
#[derive(Drop)]
pub(crate) struct Teller<'u, 'm> {
    pub(crate) uses: &'u [Use],
    pub(crate) next: u64,
    pub(crate) seen: Vec<SourceFrame>,
    pub(crate) end: Option<u64>,
    pub(crate) late: Option<u64>,
    pub(crate) meeting: &'m Meeting,
}

impl<'u, 'm> Stage for Teller<'u, 'm> {
    // A clause reads it as a list.
    type Base = [Use; 0];

    ghost base = { λ s. s.uses.now };

    ghost next = { λ s. s.next };

    ghost seen = { λ s. s.seen.items };

    ghost due = { due_places };

    ghost right = { λ uses seen moment made. Unit {0} };

    fn made<R: Threads + Wait + Clock + Sync>(
        &mut self,
        _rt: &R,
        alloc: Global,
        moment: u64,
        frames: Vec<SourceFrame>,
    ) -> Result<Made, Memory> {
        let Some(next) = moment.checked_add(1) else {
            return Err(Memory);
        };
        if self.end == Some(moment) {
            return Err(Memory);
        }
        if self.late == Some(moment) && !self.meeting.is_met() {
            return Err(Memory);
        }
        let mut frames = frames;
        self.seen.append(&mut frames)?;
        let text = told_frames(alloc, &self.seen)?;
        let name = format!(in alloc; "o{moment}")?;
        let made = Made {
            name: named(alloc, name.as_str())?,
            bytes: text.into_bytes(),
        };
        self.next = next;
        Ok(made)
    }
}
